use std::alloc::{AllocError, Global};

/// A line of a script, with its newline, and the reply to it.
pub type Exchange = (&'static [u8], &'static [u8]);

/// The four quarters: a note joins a chord, and the score is asked for.
pub const NOTE_JOINS_A_CHORD: &[Exchange] = &[
    (b"add 0 64 10 480\n", b"ok 0 100\n"),
    (
        b"score\n",
        b"score 44\n**kern\n*M4/4\n*MM120\n=1\n4c 4e\n4d\n4e\n4f\n==\n*-\n",
    ),
];

/// A whole note: edits that are accepted and refused, and a last line without a newline.
pub const NOTE_OVER_THREE_BARS: &[Exchange] = &[
    (b"addbar\n", b"ok 1 15\n"),
    (b"addbar\n", b"ok 1 20\n"),
    (b"drop 0 60 0\n", b"ok 1 15\n"),
    (b"add 0 60 0 5760\n", b"ok 3 30\n"),
    (b"barline 1 3840\n", b"refused BarlineOrder 0 3840\n"),
    (
        b"score\n",
        b"score 47\n**kern\n*M4/4\n*MM120\n=1\n[1c\n=2\n1c_\n=3\n1c]\n==\n*-\n",
    ),
    (b"barline 1 2000\n", b"ok 2 30\n"),
    (b"drop 0 61 0", b"refused NoNote\n"),
];

/// The four quarters: rhythms of the bar, pins, and a line that ends the script.
pub const RHYTHMS_OF_A_BAR: &[Exchange] = &[
    (b"pin 0 0 2(. .)\n", b"refused NoDerivation 0 0\n"),
    (
        b"alt 0 0 2\n",
        b"alternatives 2\n\
        alt 100 2(2(. .) 2(. .)) 3,7,8,8,7,8,8\n\
        alt 150 2(2(. .) 2(. 2(. .))) 3,7,8,8,7,8,12,13,15\n",
    ),
    (b"pin 0 0 2(2(. .) 2(. 2(. .)))\n", b"ok 1 150\n"),
    (
        b"score\n",
        b"score 46\n**kern\n*M4/4\n*MM120\n=1\n4c\n4d\n4e\n[8f\n8f]\n==\n*-\n",
    ),
    (b"unpin 0 0\n", b"ok 1 100\n"),
    (b"alt 0 1 2\n", b"refused NoBar 1\n"),
    (b"quit\n", b"bye\n"),
];

/// The four quarters: an edit is taken back and made again, until another edit comes.
pub const CHORD_COMES_AND_GOES: &[Exchange] = &[
    (b"undo\n", b"refused NoStep\n"),
    (b"add 0 64 10 480\n", b"ok 0 100\n"),
    (b"undo\n", b"ok 0 100\n"),
    (
        b"score\n",
        b"score 41\n**kern\n*M4/4\n*MM120\n=1\n4c\n4d\n4e\n4f\n==\n*-\n",
    ),
    (b"redo\n", b"ok 0 100\n"),
    (
        b"score\n",
        b"score 44\n**kern\n*M4/4\n*MM120\n=1\n4c 4e\n4d\n4e\n4f\n==\n*-\n",
    ),
    (b"drop 0 64 10\n", b"ok 0 100\n"),
    (b"redo\n", b"refused NoStep\n"),
];

/// A script file that leaves a piece as it was.
pub const BAR_COMES_AND_GOES: &[u8] = b"addbar\ndropbar\n";

/// The lines of the talk, one after another.
pub fn script_of(alloc: Global, talk: &[Exchange]) -> Result<Vec<u8>, AllocError> {
    let mut script = Vec::new(alloc);
    'lines: for (line, _reply) in talk {
        script.extend_from_slice(line)?;
    }
    Ok(script)
}

/// The replies to the first lines of the talk, one after another.
pub fn replies_to(alloc: Global, talk: &[Exchange], lines: usize) -> Result<Vec<u8>, AllocError> {
    let mut replies = Vec::new(alloc);
    'replies: for (_line, reply) in talk.iter().take(lines) {
        replies.extend_from_slice(reply)?;
    }
    Ok(replies)
}

/// How many lines are whole within so many bytes of the script. A last one without a newline is whole at the end alone.
pub fn lines_within(talk: &[Exchange], bytes: usize, at_end: bool) -> usize {
    let mut left = bytes;
    let mut lines = 0usize;
    'lines: for (line, _reply) in talk {
        match left.checked_sub(line.len()) {
            Some(rest) if at_end || line.ends_with(b"\n") => {
                left = rest;
                lines = lines.saturating_add(1);
            }
            _ => return lines,
        }
    }
    lines
}
