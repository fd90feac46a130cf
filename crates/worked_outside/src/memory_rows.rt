//! The objects in memory.
use crate::calls::{FileRead, Put, Read, gives_each, holds_each, takes_each};
use flux_outside::{Failed, MemShelf, MemSink, MemSource};
use std::alloc::{AllocError, Global};
use std::test::Fail;

/// Reads of `abcdef`, where the first give at most one and two bytes and the third fails. A cut of 0 gives one byte.
const READS: [Read; 5] = [
    (Ok(1), b"a"),
    (Ok(2), b"bc"),
    (Err(Failed), b""),
    (Ok(3), b"def"),
    (Ok(0), b""),
];

#[test]
fn reads_in_pieces(rt: HostRuntime) -> Result<(), Fail> {
    let mut source = MemSource::new(rt.alloc(), b"abcdef", &[0, 2], &[2])?;
    assert!(rt; gives_each(&mut source, &mut [0; 8], &READS));
    Ok(())
}

/// Puts to a sink with room for four bytes, and what it has then.
const SINKS: [(&[Put], &[u8]); 2] = [
    (&[(b"+ 1 ab 1 2\n", Err(Failed)), (b"", Ok(()))], b"+ 1 "),
    (&[(b"ab", Ok(())), (b"cd", Ok(()))], b"abcd"),
];

/// How many rows of puts, from the first on, are as they should be.
fn count_right(alloc: Global, rows: &[(&[Put], &[u8])]) -> Result<usize, AllocError> {
    for i in 0..rows.len() {
        let (puts, bytes) = rows[i];
        let mut sink = MemSink::new(alloc, 4)?;
        if !takes_each(&mut sink, puts) || sink.bytes() != bytes {
            return Ok(i);
        }
    }
    Ok(rows.len())
}

#[test]
fn what_fits_is_kept(rt: HostRuntime) -> Result<(), Fail> {
    assert_eq!(rt; count_right(rt.alloc(), &SINKS)?, SINKS.len());
    Ok(())
}

/// Reads of a shelf where `graph` was set twice, of which the first fails.
const FILE_READS: [FileRead; 5] = [
    ("graph", 0, Err(Failed), b""),
    ("graph", 0, Ok(Some(4)), b"v 2\n"),
    ("patterns", 4, Ok(Some(3)), b"hom"),
    ("graph", 4, Ok(Some(0)), b""),
    ("updates", 0, Ok(None), b""),
];

#[test]
fn files_by_name(rt: HostRuntime) -> Result<(), Fail> {
    let mut shelf = MemShelf::new(rt.alloc());
    shelf.add("graph", b"v 1")?;
    shelf.add("patterns", b"p a hom")?;
    shelf.add("graph", b"v 2\n")?;
    shelf.fail_at(0)?;
    assert!(rt; holds_each(&mut shelf, &mut [0; 4], &FILE_READS));
    Ok(())
}
