ghost use Rattle.command_line.specs.Texts.{has_narrow_lines, help_text, version_text};
ghost use Rattle.std.specs.Prelude.{IsTrue, ◌≡◌};

use crate::option_table::with_recording_lines;

/// How the program is called: the commands with what each reads and writes, the options, and the statuses.
const HELP: &str = with_recording_lines!(
    "\
Usage: rhythm [OPTION...] COMMAND ARGUMENT...

Turns a performance, a Standard MIDI File, into notation in Humdrum **kern, by
a file of weighted rhythm rules.

Commands:
  transcribe MIDI GRAMMAR   Reads a MIDI file and a grammar file, and writes the
                            score.
  page MIDI GRAMMAR         Reads the two files, and writes the score as a page:
                            a text that LilyPond engraves as it is.
  musicxml MIDI GRAMMAR     Reads the two files, and writes the score for score
                            editors, as MusicXML.
  lily MIDI GRAMMAR         Reads the two files, and writes the events of the
                            score as LilyPond text, for other programs.
  render MIDI GRAMMAR       Reads the two files, and writes the score as a MIDI
                            file: each note where it is notated.
  edit MIDI GRAMMAR         Reads the two files and then, on standard input, an
                            edit script; writes a reply to each line.
  studio MIDI GRAMMAR       The same, where the script can take edits back, and
                            make them again: with the lines undo and redo.
  fit MIDI GRAMMAR BAR LOW HIGH STEP
                            Reads the two files, tries ticks from LOW to HIGH
                            for the barline BAR, and writes the best one, its
                            cost and the score. BAR is 0 to 4096, the ticks are
                            0 to 2000000000, and so is STEP, but at least 1.
  follow MIDI GRAMMAR       Reads the two files, and writes the edit script that
                            moves the barlines to where the player has them;
                            nothing where too little is gained by that.
  learn BIT GRAMMAR MIDI... Reads a grammar file and up to 256 MIDI files, and
                            writes the grammar with weights that are learned
                            from these: a rule that is used half as often as
                            another costs BIT more. BIT is 1 to 10000.
  notes MIDI                Reads a MIDI file, and writes its bars, tempos, keys
                            and notes, each on a line of its own.
  events KERN               Reads a **kern file, and writes each note and chord
                            on a line of its own.
  generate NUMBER BARS      Reads nothing, and writes a MIDI file that is made
                            from NUMBER, 0 to 65534, with BARS bars, 1 to 2000.
  drill NUMBER GRAMMAR      Reads a grammar file, edits a large piece that is
                            made from NUMBER, 0 to 65534, and writes a summary.

Answers are written on standard output. With a status other than 0 a line on
standard error says why; with status 1 two more help to mend the words.

Options:
  --workers N     Works with N threads, 1 to 16; 1 where it is not given. The
                  output is the same for every number.
  -h, --help      Writes this text.
  -V, --version   Writes the version.

Of what was recorded, for the commands on MIDI and GRAMMAR, and for notes:
",
    "
Status:
  0   done
  1   the words are no command
  2   a file is refused
  3   a voice has no derivation that fits
  4   something is above its limit
  5   a file or the script could not be read
  6   standard output could not be written
  7   not enough memory
  9   there is no such barline to be fitted, or no tick for it
"
);

/// How the program is called, for its user: lines of at most 80 characters.
pub fn help_text() -> &'static str
    ensures text { result.now ≡ help_text }
    ensures narrow { IsTrue (has_narrow_lines result.now) }
{
    HELP
}

/// The name of the program and its version.
pub fn version_text() -> &'static str
    ensures { result.now ≡ version_text }
{
    "rhythm 1.5\n"
}
