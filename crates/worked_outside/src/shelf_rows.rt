//! The shelf over the files of a runtime. The files lie where the tests run.
use crate::calls::{FileRead, holds_each};
use flux_outside::{Failed, FileShelf};
use std::test::Fail;

const READS: [FileRead; 5] = [
    ("here", 0, Ok(Some(4)), b"hell"),
    ("here", 4, Ok(Some(1)), b"o"),
    ("here", 5, Ok(Some(0)), b""),
    ("there", 0, Ok(None), b""),
    (".", 0, Err(Failed), b""),
];

#[test]
fn files_by_name(rt: HostRuntime) -> Result<(), Fail> {
    std::fs::write(&rt, "here", b"hello")?;
    let mut shelf = FileShelf::new(rt.alloc(), &rt);
    assert!(rt; holds_each(&mut shelf, &mut [0; 4], &READS));
    Ok(())
}

/// The first read of a file that is then replaced.
const BEFORE: [FileRead; 1] = [("here", 0, Ok(Some(2)), b"he")];

/// The reads after that: only the one that goes on reads the file that was opened.
const BEHIND: [FileRead; 4] = [
    ("here", 2, Ok(Some(2)), b"ll"),
    ("here", 1, Ok(Some(2)), b"EL"),
    ("here", 3, Ok(Some(2)), b"LO"),
    ("here", 0, Ok(Some(2)), b"HE"),
];

#[test]
fn an_open_file_is_read_to_its_end(rt: HostRuntime) -> Result<(), Fail> {
    std::fs::write(&rt, "here", b"hello")?;
    std::fs::write(&rt, "other", b"HELLO")?;
    let mut shelf = FileShelf::new(rt.alloc(), &rt);
    assert!(rt; holds_each(&mut shelf, &mut [0; 2], &BEFORE));
    std::fs::rename(&rt, "other", "here")?;
    assert!(rt; holds_each(&mut shelf, &mut [0; 2], &BEHIND));
    Ok(())
}
