ghost use Rattle.command_line.specs.OptionTable.{options, shown_row};
ghost use Rattle.std.specs.Prelude.{◌≡◌, map};

/// An option of the command line.
#[derive(Clone, Copy)]
pub(crate) struct OptionRow {
    /// Its name, without the hyphens before it.
    pub(crate) name: &'static str,
    /// What its word must be, where one follows it.
    pub(crate) word: Option<&'static str>,
}

/// All options, in their order.
static OPTIONS: [OptionRow; 10] = [
    OptionRow {
        name: "workers",
        word: Some("a number from 1 to 16"),
    },
    OptionRow {
        name: "no-drums",
        word: None,
    },
    OptionRow {
        name: "split",
        word: Some("a key from 1 to 127"),
    },
    OptionRow {
        name: "hands",
        word: Some("a channel from 0 to 15, but not that of drums, 9"),
    },
    OptionRow {
        name: "strum",
        word: Some("milliseconds, from 1 to 100"),
    },
    OptionRow {
        name: "meter",
        word: Some("a signature as 3/4: a number from 1 to 64, over 1, 2, 4, 8, 16, 32 or 64"),
    },
    OptionRow {
        name: "tempo",
        word: Some("quarters a minute, from 1 to 1000"),
    },
    OptionRow {
        name: "upbeat",
        word: Some("a length as 1/4: a number from 0 to 64, over 1, 2, 4, 8, 16, 32 or 64"),
    },
    OptionRow {
        name: "key",
        word: Some("a number of sharps from 0 to 7, or one of flats as in --key=-3"),
    },
    OptionRow {
        name: "script",
        word: Some("the name of a file"),
    },
];

/// The text before the lines of the help for recordings, these, and the text after them.
macro_rules! with_recording_lines {
    ($before:literal, $after:literal) => {
        concat!(
            $before,
            "  --no-drums      Channel 9, the drums, is left out.\n",
            "  --split KEY     The notes below KEY, 1 to 127, are the other hand: 60 is\n",
            "                  middle C.\n",
            "  --hands CHANNEL Two hands that played in CHANNEL, 0 to 15 but 9, are parted.\n",
            "  --strum MS      Notes at most MS milliseconds, 1 to 100, one after the other,\n",
            "                  that sound on, are one chord.\n",
            "  --meter N/D     It is in N/D: N is 1 to 64, D is 1, 2, 4, 8, 16, 32 or 64.\n",
            "  --tempo Q       It was played at Q quarters a minute, 1 to 1000.\n",
            "  --upbeat N/D    The first note is N/D of a whole note before a barline.\n",
            "  --key SF        It has SF sharps, 0 to 7; flats are told as in --key=-3.\n",
            "  --script FILE   The edits of an edit script are made first; not for notes.\n",
            $after
        )
    };
}

pub(crate) use with_recording_lines;

/// All options, in their order.
pub(crate) fn options() -> &'static [OptionRow]
    ensures { map shown_row result.now ≡ options }
{
    &OPTIONS
}
