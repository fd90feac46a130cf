//! Runs over graphs that are too large to write down.
use flux_model::Limits;
use flux_outside::{MemShelf, MemSink, MemSource};
use line_words::{end_line, start_line, write_number};
use std::alloc::{AllocError, Global};
use std::test::Fail;
use watch_cli::Status;
use worked_play::{WATCH, end_of, words_of};

/// How many bytes each output takes.
const ROOM: usize = 4096;

/// The vertices 0 to 10,000, without labels.
fn bare_vertices(alloc: Global) -> Result<Vec<u8>, AllocError> {
    let mut text = Vec::new(alloc);
    for id in 0..10_001 {
        start_line(b'v', id, &mut text)?;
        end_line(&mut text)?;
    }
    Ok(text)
}

/// 4,095 vertices of 16 label names that no other has, and one of 15: 65,535 names, as many as may be in use.
fn all_names(alloc: Global) -> Result<Vec<u8>, AllocError> {
    let mut text = Vec::new(alloc);
    for id in 0..4095 {
        write_named(id, 16, &mut text)?;
    }
    write_named(4095, 15, &mut text)?;
    Ok(text)
}

/// A vertex with so many labels, whose names are the numbers from 16 times its id on.
fn write_named(id: u32, count: u32, text: &mut Vec<u8>) -> Result<(), AllocError> {
    start_line(b'v', u64::from(id), text)?;
    for i in 0..count {
        write_number(u64::from(id) * 16 + u64::from(i), text)?;
    }
    end_line(text)
}

/// Whether `watch` writes so of these updates over the graph.
fn writes(alloc: Global, graph: &[u8], updates: &str, expected: &str) -> Result<bool, AllocError> {
    let limits = Limits::standard();
    if !limits.fair() {
        return Ok(false);
    }
    let words = words_of(alloc, WATCH.words)?;
    let mut shelf = MemShelf::new(alloc);
    shelf.add("g", graph)?;
    shelf.add("p", WATCH.patterns.as_bytes())?;
    let mut updates = MemSource::new(alloc, updates.as_bytes(), &[], &[])?;
    let mut out = MemSink::new(alloc, ROOM)?;
    let mut err = MemSink::new(alloc, ROOM)?;
    let status = end_of(
        alloc,
        &words,
        &limits,
        &mut shelf,
        &mut updates,
        &mut out,
        &mut err,
    );
    Ok(status == Status::Done && out.bytes() == expected.as_bytes())
}

#[test]
fn a_line_whose_label_no_pattern_has(rt: HostRuntime) -> Result<(), Fail> {
    let alloc = rt.alloc();
    let graph = bare_vertices(alloc)?;
    let updates = "e 0 1 z\ne 0 10001 z\n";
    assert!(rt; writes(alloc, &graph, updates, "! 2 novertex\n= 2 1 1\n")?);
    Ok(())
}

#[test]
fn as_many_label_names_as_may_be_in_use(rt: HostRuntime) -> Result<(), Fail> {
    let alloc = rt.alloc();
    let graph = all_names(alloc)?;
    // A name more is too much, and one that is there is not. Once a name is free, a new one may come.
    let updates = "v 5000 new\nv 5001 0\n-v 4095\nv 5000 new\n";
    assert!(rt; writes(alloc, &graph, updates, "! 1 full\n= 4 3 1\n")?);
    Ok(())
}
