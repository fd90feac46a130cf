//! Lines that are too long, or of any bytes.
use crate::play::{Due, Run, STEADY, done, is_right};
use flux_model::Code;
use std::alloc::{AllocError, Global};
use std::test::Fail;
use watch_cli::Status;

/// `watch` of one edge between two labelled vertices.
const WATCH: Run<'static> = Run {
    words: &["watch", "g", "p"],
    graph: b"v 1 A\nv 2 B\n",
    patterns: b"p ab hom\nv 0 A\nv 1 B\ne 0 1 r\n",
    updates: b"",
};

const SAVE: Run<'static> = Run {
    words: &["save", "g"],
    ..WATCH
};

/// So many thousand bytes `x`, and then the bytes.
fn long_line(alloc: Global, thousands: usize, then: &[u8]) -> Result<Vec<u8>, AllocError> {
    let mut text = Vec::new(alloc);
    for _ in 0..thousands {
        text.extend_from_slice(&[b'x'; 1000])?;
    }
    text.extend_from_slice(then)?;
    Ok(text)
}

// Byte 0, byte 0xFF, 17 labels, and a last line that has no end.
const HOSTILE: &[u8] = b"\n\0\ne 1 2 \xff\nv 3 a a a a a a a a a a a a a a a a a\ne 1 2";

const REFUSED: &[u8] = b"! 1 long\n! 2 word\n! 3 label\n! 4 arity\n! 5 arity\n= 5 0 5\n";

#[test]
fn hostile_updates(rt: HostRuntime) -> Result<(), Fail> {
    let alloc = rt.alloc();
    let updates = long_line(alloc, 1000, HOSTILE)?;
    let run = Run {
        updates: &updates,
        ..WATCH
    };
    assert!(rt; is_right(alloc, &run, &STEADY, &done(REFUSED))?);
    Ok(())
}

/// A graph file, with the line that is refused first and why.
#[derive(Clone, Copy)]
struct Row {
    graph: &'static [u8],
    line: u64,
    code: Code,
    err: &'static str,
}

const ROWS: [Row; 6] = [
    Row {
        graph: b"\0\n",
        line: 1,
        code: Code::Word,
        err: "turboflux: graph line 1: word\n",
    },
    Row {
        graph: b"v 1\nv 2\ne 1 2 \xff\n",
        line: 3,
        code: Code::Label,
        err: "turboflux: graph line 3: label\n",
    },
    Row {
        graph: b"v 3 a a a a a a a a a a a a a a a a a\n",
        line: 1,
        code: Code::Arity,
        err: "turboflux: graph line 1: arity\n",
    },
    // The last line has no end.
    Row {
        graph: b"v 1\ne 1 1",
        line: 2,
        code: Code::Arity,
        err: "turboflux: graph line 2: arity\n",
    },
    // A byte order mark is no blank.
    Row {
        graph: b"\xef\xbb\xbfv 1\n",
        line: 1,
        code: Code::Word,
        err: "turboflux: graph line 1: word\n",
    },
    // A byte 13 that stands before another one is a part of its word.
    Row {
        graph: b"v 1 A\r\r\n",
        line: 1,
        code: Code::Label,
        err: "turboflux: graph line 1: label\n",
    },
];

/// Whether the graph file of a row is refused as it should be.
fn is_refused(alloc: Global, row: &Row) -> Result<bool, AllocError> {
    let run = Run {
        graph: row.graph,
        ..SAVE
    };
    let due = Due {
        status: Status::BadGraph {
            line: row.line,
            code: row.code,
        },
        out: b"",
        err: row.err,
    };
    is_right(alloc, &run, &STEADY, &due)
}

#[test]
fn hostile_graph_files(rt: HostRuntime) -> Result<(), Fail> {
    for row in &ROWS {
        assert!(rt; is_refused(rt.alloc(), row)?);
    }
    Ok(())
}

/// The first line is too long.
const LONG: Due<'static> = Due {
    status: Status::BadGraph {
        line: 1,
        code: Code::Long,
    },
    out: b"",
    err: "turboflux: graph line 1: long\n",
};

#[test]
fn a_long_line_of_a_graph_file(rt: HostRuntime) -> Result<(), Fail> {
    let alloc = rt.alloc();
    let graph = long_line(alloc, 1000, HOSTILE)?;
    let run = Run {
        graph: &graph,
        ..SAVE
    };
    assert!(rt; is_right(alloc, &run, &STEADY, &LONG)?);
    Ok(())
}
