use kern_reader::read_kern;
use std::alloc::Global;
use std::test::Fail;

/// What a text shows, the text, and what it comes to: the lines of its events, or the line and the name of its fault.
type Case = (&'static str, &'static str, &'static str);

const CASES: [Case; 48] = [
    ("an empty text", "", "1 Head"),
    (
        "a line with another number of columns",
        "**kern\t**kern\n*M4/4\n",
        "2 Width",
    ),
    (
        "two values in a chord",
        "**kern\n*M4/4\n=1\n4c 8e\n",
        "4 Token",
    ),
    (
        "a tie that is not continued",
        "**kern\n*M4/4\n=1\n[2c\n2c\n",
        "5 Tie",
    ),
    (
        "values without a common grid",
        "**kern\n*M4/4\n=1\n4c\n7c\n11c\n13c\n17c\n",
        "8 Grid",
    ),
    ("no end", "**kern\n*M4/4\n=1\n", "4 End"),
    (
        "a grace note without its main note",
        "**kern\n*M4/4\n=1\n1c\nqd\n==\n",
        "6 Grace",
    ),
    (
        "a note out of place",
        "**kern\t**kern\n*M4/4\t*M4/4\n=1\t=1\n4c\t2c\n.\t4d\n",
        "5 Place",
    ),
    (
        "a bar that is not full",
        "**kern\n*M4/4\n=1\n2c\n==\n*-\n",
        "5 Bar",
    ),
    (
        "an empty line in two spines",
        "**kern\t**kern\n*M4/4\t*M4/4\n\n",
        "3 Token",
    ),
    (
        "an empty line after the last barline",
        "**kern\n==\n\n",
        "3 End",
    ),
    ("an empty line before the head", "\n**kern\n", "1 Head"),
    (
        "a tie that opens and ends at once",
        "**kern\n*M4/4\n=1\n[1c]\n",
        "4 Tie",
    ),
    (
        "a tie that opens and goes on at once",
        "**kern\n*M4/4\n=1\n[1c_\n",
        "4 Tie",
    ),
    (
        "a leading zero of a value",
        "**kern\n*M4/4\n=1\n04c\n",
        "4 Token",
    ),
    (
        "a leading zero of a signature",
        "**kern\n*M04/4\n",
        "2 Token",
    ),
    (
        "words that only begin like those that are refused",
        "**kern\n*vox\n*-x\n*v\n",
        "4 Token",
    ),
    (
        "a signature in one column",
        "**kern\t**kern\n*MM90\t*M4/4\n",
        "2 Token",
    ),
    (
        "an end of another width",
        "**kern\t**kern\n==\t==\n*-\n",
        "3 Width",
    ),
    (
        "an end in some columns",
        "**kern\t**kern\n==\t==\n*-\t*x\n",
        "3 End",
    ),
    ("an end without a last barline", "**kern\n*-\n", "2 End"),
    (
        "and so with another number of columns",
        "**kern\t**kern\n*-\n",
        "2 End",
    ),
    ("no line but comments", "!a\n!b\n", "1 Head"),
    (
        "a wrong first line after a comment",
        "!a\n*M4/4\n",
        "2 Head",
    ),
    ("a last barline with no bar begun", "**kern\n==\n*-\n", ""),
    (
        "a pitch that is too high",
        "**kern\n*M4/4\n=1\ncccccccc\n",
        "4 Token",
    ),
    (
        "a pitch that is too low",
        "**kern\n*M4/4\n=1\nCCCCCC\n",
        "4 Token",
    ),
    (
        "a pitch past the highest key",
        "**kern\n*M4/4\n=1\ngggggg#\n",
        "4 Token",
    ),
    (
        "a grid of 61,440",
        "**kern\n*M4/4\n=1\n4096r\n15r\n",
        "6 End",
    ),
    ("a grid of 61,441", "**kern\n*M4/4\n=1\n61441r\n", "4 Token"),
    (
        "a grid above 61,440",
        "**kern\n*M4/4\n=1\n61440r\n7r\n",
        "5 Grid",
    ),
    (
        "two values that have no common grid, on one line",
        "**kern\t**kern\n*M4/4\t*M4/4\n=1\t=1\n251c\t256c\n",
        "4 Grid",
    ),
    (
        "a value that is none beside one that has no grid",
        "**kern\t**kern\n*M4/4\t*M4/4\n=1\t=1\n61440r\t7h\n",
        "4 Token",
    ),
    (
        "four whole notes with two dots",
        "**kern\n*M7/1\n=1\n00..c\n==\n*-\n",
        "1 0/1 7/1 note 60\n",
    ),
    (
        "and so as a rest, whose quarters count in the grid",
        "**kern\n*M7/1\n=1\n15361c\n00..r\n",
        "5 Grid",
    ),
    (
        "a bar that is more than full",
        "**kern\n*M4/4\n=1\n1c\n4c\n=2\n",
        "6 Bar",
    ),
    (
        "a grace note while a tie is open",
        "**kern\n*M4/4\n=1\n[2c\nqd\n2c]\n",
        "6 Grace",
    ),
    (
        "a fourth grace note",
        "**kern\n*M4/4\n=1\nqc\nqd\nqe\nqf\n",
        "7 Grace",
    ),
    (
        "a grace note before a rest",
        "**kern\n*M4/4\n=1\nqc\n1r\n",
        "5 Grace",
    ),
    (
        "a tie of other keys",
        "**kern\n*M4/4\n=1\n[2c\n2d]\n",
        "5 Tie",
    ),
    (
        "a tie that is open at the end",
        "**kern\n*M4/4\n=1\n[1c\n==\n",
        "5 Tie",
    ),
    (
        "a tie that is not open",
        "**kern\n*M4/4\n=1\n1c]\n",
        "4 Tie",
    ),
    (
        "a signature counts from the next barline",
        "**kern\n*M4/4\n=1\n*M2/4\n2c\n=2\n",
        "6 Bar",
    ),
    ("a bar without a signature", "**kern\n=1\n", "2 Bar"),
    (
        "data before the first barline",
        "**kern\n*M4/4\n4c\n",
        "3 Place",
    ),
    ("a line after the end", "**kern\n==\n*-\n!\n*-\n", "5 End"),
    (
        "two spines with a tie over a barline",
        "**kern\t**kern\n*k[b-e-]\t*k[b-e-]\n*M4/4\t*M4/4\n*MM100\t*MM100\n=1\t=1\n4b- 4dd\t[1BB-\n[4cc\t.\n2cc]\t.\n*MM120\t*MM120\n=2\t=2\n1b-\t1BB-]\n==\t==\n*-\t*-\n",
        "1 0/1 1/4 note 70,74\n1 1/4 3/4 note 72\n1 1/1 1/1 note 70\n2 0/1 2/1 note 46\n",
    ),
    (
        "grace chords, a short note, dots and a triplet",
        "**kern\n*M4/4\n=1\n4..c'\nqc qe\nqA#\n16BB\n4r\n12cc\n12dd\n12gggggg\n==\n*-\n",
        "1 0/1 7/16 short 60\n1 7/16 1/16 note 47 q60,64 q58\n1 3/4 1/12 note 72\n1 5/6 1/12 note 74\n1 11/12 1/12 note 127\n",
    ),
];

/// What a text comes to.
fn outcome(alloc: Global, text: &str) -> Result<String, Fail> {
    if text.len() > 10_000 {
        Err("a long text")?;
    }
    match read_kern(alloc, text.as_bytes()) {
        Ok(score) => {
            let lines = score.write_events(alloc)?;
            Ok(String::from_utf8(lines)?)
        }
        Err(fault) => {
            let line = fault.line;
            let name = fault.what.name();
            Ok(format!(in alloc; "{line} {name}")?)
        }
    }
}

/// Each text comes to its events or its fault.
#[test]
fn texts_are_read(rt: HostRuntime) -> Result<(), Fail> {
    for (name, text, want) in CASES {
        let found = outcome(rt.alloc(), text)?;
        let same = found.as_str() == want;
        assert!(rt; same, "{name}: {found}");
    }
    Ok(())
}
