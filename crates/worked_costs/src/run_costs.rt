//! A whole run, and how many steps it may take.
use flux_model::{Limits, Steps, Tally};
use flux_outside::{MemShelf, MemSink, MemSource};
use std::alloc::{AllocError, Global};
use std::test::Fail;
use watch_cli::{Status, run};

/// A run over a graph of two vertices without an edge, and a pattern of two vertices and an edge.
#[derive(Clone, Copy)]
struct Row {
    command: &'static str,
    updates: &'static str,
    out: &'static str,
    most: u64,
}

/// What the start of the pattern may take: 32 steps for each of its three vertices and edges, each vertex, and one.
const START: u64 = 32 * 3 * 3;

const ROWS: [Row; 3] = [
    Row {
        command: "watch",
        updates: "",
        out: "= 0 0 0\n",
        most: START,
    },
    // As a session takes the line.
    Row {
        command: "watch",
        updates: "e 1 2 r\n",
        out: "+ 1 ab 1 2\n= 1 1 0\n",
        most: START + 154,
    },
    // No embedding: twice the vertices and one.
    Row {
        command: "match",
        updates: "",
        out: "= 0\n",
        most: START + 2 * 3,
    },
];

/// The steps that a run takes, where it is done and writes so.
fn steps_of(alloc: Global, row: &Row) -> Result<Option<u64>, AllocError> {
    let limits = Limits::standard();
    if !limits.fair() {
        return Ok(None);
    }
    let mut words = Vec::new(alloc);
    for word in [row.command, "g", "p"] {
        words.push(String::from_str(alloc, word)?)?;
    }
    let mut shelf = MemShelf::new(alloc);
    shelf.add("g", b"v 1 A\nv 2 B\n")?;
    shelf.add("p", b"p ab hom\nv 0 A\nv 1 B\ne 0 1 r\n")?;
    let mut updates = MemSource::new(alloc, row.updates.as_bytes(), &[], &[])?;
    let mut out = MemSink::new(alloc, 99)?;
    let mut err = MemSink::new(alloc, 99)?;
    let mut steps = Steps::new(Tally::new());
    let ended = run(
        alloc,
        &words,
        &limits,
        &mut shelf,
        &mut updates,
        &mut out,
        &mut err,
        &mut steps,
    );
    if ended.status != Status::Done || out.bytes() != row.out.as_bytes() {
        return Ok(None);
    }
    Ok(Some(steps.ledger().read()))
}

/// How many rows, from the first on, take a step and no more than they may.
fn count_right(alloc: Global, rows: &[Row]) -> Result<usize, AllocError> {
    for i in 0..rows.len() {
        match steps_of(alloc, &rows[i])? {
            Some(taken) if taken >= 1 && taken <= rows[i].most => {}
            _ => return Ok(i),
        }
    }
    Ok(rows.len())
}

#[test]
fn runs_stay_within_their_costs(rt: HostRuntime) -> Result<(), Fail> {
    assert_eq!(rt; count_right(rt.alloc(), &ROWS)?, ROWS.len());
    Ok(())
}
