use command_line::{Invocation, WordsFault, help_text, number_in, read_words, version_text};
use performance_prepare::{Fraction, Options};
use rhythm_base::Words;
use std::alloc::{AllocError, Global};
use std::test::Fail;

/// Command lines, with `|` between two words, and what they say: the number of workers and the words of the command.
const SAID: [(&str, &str); 16] = [
    (
        "transcribe|a.mid|b.grammar",
        "1: transcribe|a.mid|b.grammar",
    ),
    (
        "transcribe|--workers|0000000016|a.mid|b.grammar",
        "16: transcribe|a.mid|b.grammar",
    ),
    ("no|command|at|all", "1: no|command|at|all"),
    ("--workers|3", "3: "),
    ("a||b", "1: a||b"),
    ("größe|a-b|+c", "1: größe|a-b|+c"),
    ("edit|--workers=2|a", "2: edit|a"),
    ("edit|--|a|-b|--workers|2", "1: edit|a|-b|--workers|2"),
    ("--|--version", "1: --version"),
    ("edit|--workers|17", "refused"),
    ("-V|edit|-h", "help"),
    ("--workers|2|-V", "version"),
    ("notes|a.mid|--split|--help", "refused"),
    ("notes|a.mid|--key|-3", "refused"),
    ("notes|a.mid|--meter|3/5", "refused"),
    ("notes|a.mid|--hands|9", "refused"),
];

/// The words of a line with `|` between two of them.
fn split_words(alloc: Global, line: &str) -> Result<Words, AllocError> {
    let mut words = Words::new(alloc);
    for word in line.split('|') {
        words.push(word)?;
    }
    Ok(words)
}

/// What words say, as in the table.
fn said(alloc: Global, words: &Words) -> Result<String, AllocError> {
    let line = match read_words(alloc, words) {
        Ok(Invocation::Help) => return String::from_str(alloc, "help"),
        Ok(Invocation::Version) => return String::from_str(alloc, "version"),
        Ok(Invocation::Command(line)) => line,
        Err(WordsFault::Refused) => return String::from_str(alloc, "refused"),
        Err(WordsFault::Memory) => return String::from_str(alloc, "memory"),
    };
    let mut text = format!(in alloc; "{}: ", line.workers.count())?;
    for at in 0..line.words.count() {
        if at > 0 {
            text.push_str("|")?;
        }
        text.push_str(line.words.get(at).unwrap_or("no word"))?;
    }
    Ok(text)
}

#[test]
fn words_say_command_lines(rt: HostRuntime) -> Result<(), Fail> {
    for (line, expected) in SAID {
        let words = split_words(rt.alloc(), line)?;
        assert!(rt; said(rt.alloc(), &words)?.as_str() == expected, "{line}");
    }
    Ok(())
}

#[test]
fn no_words_are_a_command_line_without_a_command(rt: HostRuntime) -> Result<(), Fail> {
    let words = Words::new(rt.alloc());
    assert!(rt; said(rt.alloc(), &words)?.as_str() == "1: ");
    Ok(())
}

/// What a command line tells of a take, or nothing of words that are none.
fn told(alloc: Global, line: &str) -> Result<Option<Options>, AllocError> {
    let words = split_words(alloc, line)?;
    match read_words(alloc, &words) {
        Ok(Invocation::Command(line)) => Ok(Some(line.options)),
        _ => Ok(None),
    }
}

#[test]
fn options_tell_of_a_take(rt: HostRuntime) -> Result<(), Fail> {
    let line =
        "--split=60|notes|a.mid|--hands|15|--meter|3/4|--tempo|93|--upbeat=0/4|--key=-3|--strum|40";
    let untold = told(rt.alloc(), "notes|a.mid")?;
    let without_drums = untold.map(|untold| Options {
        no_drums: true,
        ..untold
    });
    let all_others = untold.map(|untold| Options {
        split: Some(60),
        hands: Some(15),
        strum: Some(40),
        meter: Some(Fraction { num: 3, den: 4 }),
        tempo: Some(93),
        upbeat: Some(Fraction { num: 0, den: 4 }),
        key: Some(-3),
        ..untold
    });
    assert!(rt; untold.is_some_and(|options| !options.is_told()));
    assert!(rt; told(rt.alloc(), "notes|--no-drums|a.mid")? == without_drums);
    assert!(rt; told(rt.alloc(), line)? == all_others);
    Ok(())
}

/// Words, the least and the greatest number that they may be, and the number.
const NUMBERS: [(&str, u64, u64, Option<u64>); 5] = [
    ("0", 0, 65_534, Some(0)),
    ("65535", 0, 65_534, None),
    ("0000002000", 1, 2_000, Some(2_000)),
    ("9999999999", 0, u64::MAX, Some(9_999_999_999)),
    ("٣", 0, 2_000, None),
];

#[test]
fn numbers_have_one_to_ten_digits(rt: HostRuntime) -> Result<(), Fail> {
    for (word, low, high, number) in NUMBERS {
        assert_eq!(rt; number_in(word, low, high), number, "{word}");
    }
    Ok(())
}

#[test]
fn help_and_version_are_told(rt: HostRuntime) -> Result<(), Fail> {
    assert!(rt; help_text().starts_with("Usage: ") && version_text() == "rhythm 1.5\n");
    Ok(())
}
