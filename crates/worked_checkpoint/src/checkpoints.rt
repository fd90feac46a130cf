//! Graphs after updates, and checkpoints that end early.
use flux_model::{Code, Silent, Steps};
use flux_outside::{MemSink, MemSource};
use graph_checkpoint::checkpoint;
use std::alloc::{AllocError, Global};
use std::test::Fail;
use watch_cli::Status;
use worked_play::{Lower, Run, SAVE, limits_of, shelf_of, words_of};

/// The graph file `g`, without updates and to its end.
const CHECKPOINT: Run = Run {
    words: &["g"],
    graph: GRAPH,
    updates: "",
    failing: &[],
    ..SAVE
};

const GRAPH: &str = "v 2 B A\nv 1\ne 2 1 s\n";

const TEXT: &str = "v 1\nv 2 A B\ne 2 1 s\n";

const GRAPHS: [Run; 9] = [
    Run {
        out: TEXT,
        ..CHECKPOINT
    },
    Run {
        updates: "e 2 1 r\nv 3 C\ne 1 3 r\n",
        out: "v 1\nv 2 A B\nv 3 C\ne 1 3 r\ne 2 1 r\ne 2 1 s\n",
        ..CHECKPOINT
    },
    // Lines that are refused, and lines that say nothing, change nothing.
    Run {
        updates: "e 2 1 s\n?\n\n# none\n-v 1\ne 1 9 r\nv 1\n-e 1 2 s\n",
        out: TEXT,
        ..CHECKPOINT
    },
    Run {
        updates: "-e 2 1 s\n-v 1\n",
        out: "v 2 A B\n",
        ..CHECKPOINT
    },
    // The last line needs no end.
    Run {
        updates: "-e 2 1 s\n-v 2\n-v 1",
        out: "",
        ..CHECKPOINT
    },
    Run {
        graph: "",
        updates: "v 7 X\n",
        out: "v 7 X\n",
        ..CHECKPOINT
    },
    Run {
        graph: "",
        out: "",
        ..CHECKPOINT
    },
    // It comes byte by byte.
    Run {
        updates: "v 3\r\n",
        cuts: &[1, 1, 1, 1, 1],
        out: "v 1\nv 2 A B\nv 3\ne 2 1 s\n",
        ..CHECKPOINT
    },
    Run {
        lower: Lower::InputBytes(20),
        updates: "v 3\n",
        out: "v 1\nv 2 A B\nv 3\ne 2 1 s\n",
        ..CHECKPOINT
    },
];

const ENDS: [Run; 10] = [
    Run {
        words: &[],
        status: Status::Usage,
        number: 2,
        err: "turboflux: unknown command or wrong arguments\n",
        ..CHECKPOINT
    },
    Run {
        words: &["g", "p"],
        status: Status::Usage,
        number: 2,
        err: "turboflux: unknown command or wrong arguments\n",
        ..CHECKPOINT
    },
    Run {
        words: &["h"],
        status: Status::NoFile,
        number: 1,
        err: "turboflux: no such file\n",
        ..CHECKPOINT
    },
    // No other file stands under a name that is the graph file's with a byte more.
    Run {
        words: &["g+"],
        status: Status::NoFile,
        number: 1,
        err: "turboflux: no such file\n",
        ..CHECKPOINT
    },
    Run {
        graph: "v 1\ne 1 2 r\n",
        updates: "v 3\n",
        status: Status::BadGraph {
            line: 2,
            code: Code::NoVertex,
        },
        number: 3,
        err: "turboflux: graph line 2: novertex\n",
        ..CHECKPOINT
    },
    Run {
        failing_files: &[0],
        status: Status::ReadFault,
        number: 5,
        err: "turboflux: read fault\n",
        ..CHECKPOINT
    },
    // Nothing is written of what was read before.
    Run {
        updates: "v 3\nv 4\n",
        cuts: &[4],
        failing: &[1],
        status: Status::ReadFault,
        number: 5,
        err: "turboflux: read fault\n",
        ..CHECKPOINT
    },
    Run {
        lower: Lower::InputBytes(20),
        updates: "v 3\nv 4\nv 5\nv 6\nv 7\nv",
        status: Status::TooMuch,
        number: 8,
        err: "turboflux: input too large\n",
        ..CHECKPOINT
    },
    Run {
        room: 7,
        status: Status::WriteFault,
        number: 6,
        out: "v 1\nv 2",
        err: "turboflux: write fault\n",
        ..CHECKPOINT
    },
    Run {
        words: &["h"],
        err_room: 9,
        status: Status::NoFile,
        number: 1,
        err: "turboflux",
        ..CHECKPOINT
    },
];

#[test]
fn graphs_after_updates(rt: HostRuntime) -> Result<(), Fail> {
    assert_eq!(rt; count_right(rt.alloc(), &GRAPHS)?, GRAPHS.len());
    Ok(())
}

#[test]
fn checkpoints_that_end_early(rt: HostRuntime) -> Result<(), Fail> {
    assert_eq!(rt; count_right(rt.alloc(), &ENDS)?, ENDS.len());
    Ok(())
}

/// How many rows, from the first on, end and write as they should.
fn count_right(alloc: Global, rows: &[Run]) -> Result<usize, AllocError> {
    for i in 0..rows.len() {
        if !is_right(alloc, &rows[i])? {
            return Ok(i);
        }
    }
    Ok(rows.len())
}

/// Whether the checkpoint ends as its row says, and writes what it says.
fn is_right(alloc: Global, row: &Run) -> Result<bool, AllocError> {
    let limits = limits_of(row.lower);
    if !limits.fair() {
        return Ok(false);
    }
    let words = words_of(alloc, row.words)?;
    let shelf = shelf_of(alloc, row)?;
    let mut updates = MemSource::new(alloc, row.updates.as_bytes(), row.cuts, row.failing)?;
    let mut out = MemSink::new(alloc, row.room)?;
    let mut err = MemSink::new(alloc, row.err_room)?;
    let mut steps = Steps::new(Silent);
    let ended = checkpoint(
        alloc,
        &words,
        &limits,
        shelf,
        &mut updates,
        &mut out,
        &mut err,
        &mut steps,
    );
    Ok(
        ended.status == row.status
            && ended.status.number() == row.number
            && *out.bytes() == *row.out.as_bytes()
            && *err.bytes() == *row.err.as_bytes(),
    )
}
