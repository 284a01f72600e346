use super::*;
use crate::{MemShelf, RealShelf, SureShelf};
use std::alloc::AllocError;
use std::test::Fail;
use std::{env, fs, process};

/// Whether the file of the name gives the bytes, or this end.
fn gives<F: Shelf>(
    alloc: Global,
    shelf: &mut F,
    name: &str,
    limit: u64,
    want: Result<&str, ReadEnd>,
) -> bool {
    if shelf.open(name).is_err() {
        return want == Err(ReadEnd::Fault);
    }
    match (read_shelf(alloc, shelf, limit), want) {
        (Ok(bytes), Ok(want)) => bytes.as_slice() == want.as_bytes(),
        (Err(end), Err(want)) => end == want,
        _ => false,
    }
}

/// The files `a` and `b`, the first put twice. One call fails.
fn two_files(alloc: Global, failing: u64) -> Result<MemShelf, AllocError> {
    let mut shelf = MemShelf::new(alloc, 2, [failing].to_vec(alloc)?);
    for (name, bytes) in [("a", "123"), ("b", "4"), ("a", "56789")] {
        shelf.put(name, bytes.as_bytes().to_vec(alloc)?)?;
    }
    Ok(shelf)
}

#[test]
fn opens_what_was_put_last(rt: HostRuntime) -> Result<(), Fail> {
    let alloc = rt.alloc();
    let mut shelf = two_files(alloc, 100)?;
    for (name, limit, want) in [
        ("b", 5, Ok("4")),
        ("a", 5, Ok("56789")),
        ("a", 4, Err(ReadEnd::TooLong { read: 5 })),
        ("c", 5, Err(ReadEnd::Fault)),
    ] {
        assert!(rt;
            gives(alloc, &mut shelf, name, limit, want),
            "{name} up to {limit}"
        );
    }

    // No file is chosen after the absent name.
    assert!(rt; read_shelf(alloc, &mut shelf, 5)?.is_empty());
    Ok(())
}

/// The first call opens, the next ones read.
#[test]
fn fails_at_each_call_in_turn(rt: HostRuntime) -> Result<(), Fail> {
    let alloc = rt.alloc();
    for (failing, rest) in [(0, ""), (1, "56789"), (2, "789"), (3, "9"), (4, "")] {
        let mut shelf = two_files(alloc, failing)?;
        assert!(rt;
            gives(alloc, &mut shelf, "a", 5, Err(ReadEnd::Fault)),
            "at {failing}"
        );
        let bytes = read_shelf(alloc, &mut shelf, 5)?;
        assert!(rt; bytes.as_slice() == rest.as_bytes(), "at {failing}");
    }
    Ok(())
}

#[test]
fn opens_an_absent_name_as_no_bytes(rt: HostRuntime) -> Result<(), Fail> {
    let alloc = rt.alloc();
    let mut shelf = SureShelf::new(alloc, 2);
    shelf.put("a", b"123".to_vec(alloc)?)?;
    for (name, want) in [("a", "123"), ("b", ""), ("a", "123")] {
        assert!(rt; gives(alloc, &mut shelf, name, 5, Ok(want)), "at {name}");
    }
    Ok(())
}

/// A real file, one that is not there, and a folder, which is opened and cannot be read.
#[test]
fn reads_a_real_file(rt: HostRuntime) -> Result<(), Fail> {
    let alloc = rt.alloc();
    let folder = env::temp_dir(&rt)?;
    let id = process::id(rt.process());
    let name = format!(in alloc; "{}/rhythm_ports_{id}", folder.display())?;
    fs::write(&rt, name.as_str(), "12345")?;
    let mut shelf = RealShelf::new(&rt);
    assert!(rt; gives(alloc, &mut shelf, name.as_str(), 5, Ok("12345")));
    let too_long = Err(ReadEnd::TooLong { read: 5 });
    assert!(rt; gives(alloc, &mut shelf, name.as_str(), 4, too_long));
    fs::remove_file(&rt, name.as_str())?;
    assert!(rt; shelf.open(name.as_str()) == Err(Failed));
    assert!(rt; read_shelf(alloc, &mut shelf, 5)?.is_empty());
    assert!(rt; shelf.open("/") == Ok(()));
    assert!(rt; read_shelf(alloc, &mut shelf, 5).err() == Some(ReadEnd::Fault));
    Ok(())
}
