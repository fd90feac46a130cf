//! Pieces of a stream, and the lines that they make.
use flux_model::Line;
use std::alloc::{AllocError, Global};
use std::test::Fail;
use stream_lines::Lines;

/// What is pushed.
#[derive(Clone, Copy)]
enum Given {
    Whole(&'static [u8]),
    /// These bytes, each as a piece of its own.
    ByteByByte(&'static [u8]),
    /// So many letters `x`.
    Letters(usize),
}

/// A line that is due.
#[derive(Clone, Copy)]
enum Want {
    Held(&'static [u8]),
    /// So many letters `x`.
    Letters(usize),
    Long,
}

/// What is pushed, the lines that wait then, and the last line.
#[derive(Clone, Copy)]
struct Row {
    given: &'static [Given],
    waiting: &'static [Want],
    last: Option<Want>,
}

const NOTE: &[u8] = b"# note\n\ne\t1  2 r\r";

const ROWS: [Row; 5] = [
    // One piece, and single bytes.
    Row {
        given: &[Given::Whole(NOTE)],
        waiting: &[Want::Held(b"# note"), Want::Held(b"")],
        last: Some(Want::Held(b"e\t1  2 r")),
    },
    Row {
        given: &[Given::ByteByByte(NOTE)],
        waiting: &[Want::Held(b"# note"), Want::Held(b"")],
        last: Some(Want::Held(b"e\t1  2 r")),
    },
    // The longest line and one that is longer.
    Row {
        given: &[
            Given::Letters(4096),
            Given::Whole(b"\r\n"),
            Given::Letters(4097),
            Given::Whole(b"\nab\n"),
            Given::Letters(4097),
        ],
        waiting: &[Want::Letters(4096), Want::Long, Want::Held(b"ab")],
        last: Some(Want::Long),
    },
    // Nothing is no line, and one return is the empty line.
    Row {
        given: &[],
        waiting: &[],
        last: None,
    },
    Row {
        given: &[Given::Whole(b"\r")],
        waiting: &[],
        last: Some(Want::Held(b"")),
    },
];

fn push_bytes(lines: &mut Lines, bytes: &[u8]) -> Result<(), AllocError> {
    for at in 0..bytes.len() {
        lines.push(&bytes[at..at + 1])?;
    }
    Ok(())
}

fn push(alloc: Global, lines: &mut Lines, given: Given) -> Result<(), AllocError> {
    match given {
        Given::Whole(bytes) => lines.push(bytes),
        Given::ByteByByte(bytes) => push_bytes(lines, bytes),
        Given::Letters(count) => lines.push(&vec![in alloc; b'x'; count]?),
    }
}

fn is_line(line: Line<'_>, want: Want) -> bool {
    match (line, want) {
        (Line::Held(bytes), Want::Held(due)) => bytes == due,
        (Line::Held(bytes), Want::Letters(count)) => {
            bytes.len() == count && bytes.iter().all(|byte| *byte == b'x')
        }
        (Line::Long, Want::Long) => true,
        _ => false,
    }
}

/// Whether the first line that waits is this one, and takes it away.
fn takes(lines: &mut Lines, want: Want) -> bool {
    let Some(line) = lines.first() else {
        return false;
    };
    let same = is_line(line, want);
    lines.pass();
    same
}

/// Whether no line waits, and this is the last.
fn ends_with(lines: &Lines, want: Option<Want>) -> bool {
    if lines.first().is_some() {
        return false;
    }
    match (lines.last(), want) {
        (Some(line), Some(due)) => is_line(line, due),
        (None, None) => true,
        _ => false,
    }
}

/// Whether the lines that wait are these, and then this is the last.
fn are_lines(lines: &mut Lines, row: &Row) -> bool {
    for i in 0..row.waiting.len() {
        if !takes(lines, row.waiting[i]) {
            return false;
        }
    }
    ends_with(lines, row.last)
}

/// Whether what is pushed makes the lines of the row.
fn is_right(alloc: Global, row: &Row) -> Result<bool, AllocError> {
    let mut lines = Lines::new(alloc, 4096);
    for i in 0..row.given.len() {
        push(alloc, &mut lines, row.given[i])?;
    }
    Ok(are_lines(&mut lines, row))
}

/// How many rows, from the first on, are as they should be.
fn count_right(alloc: Global, rows: &[Row]) -> Result<usize, AllocError> {
    for i in 0..rows.len() {
        if !is_right(alloc, &rows[i])? {
            return Ok(i);
        }
    }
    Ok(rows.len())
}

#[test]
fn lines_of_any_cut(rt: HostRuntime) -> Result<(), Fail> {
    assert_eq!(rt; count_right(rt.alloc(), &ROWS)?, ROWS.len());
    Ok(())
}
