//! What runs hand back.
use flux_model::{Limits, Silent, Steps};
use flux_outside::{MemSink, MemSource};
use graph_traits::HoldGraph;
use std::alloc::{AllocError, Global};
use std::test::Fail;
use watch_cli::{Kept, run};
use worked_play::{MATCH, Run, SAVE, WATCH, shelf_of, words_of};

/// A run, and what it hands back: how many lines its session took, and how many vertices and edges its graph has.
#[derive(Clone, Copy)]
struct Row {
    run: Run,
    session: Option<(u64, u64, u64)>,
}

const ROWS: [Row; 6] = [
    // An edge, a vertex, a refusal, and a line that says nothing.
    Row {
        run: Run {
            updates: "e 1 2 r\nv 3 A\nx\n\n",
            ..WATCH
        },
        session: Some((4, 3, 1)),
    },
    // The last line has no end. The edge goes, and so does its vertex.
    Row {
        run: Run {
            updates: "e 1 2 r\n-e 1 2 r\n-v 2",
            ..WATCH
        },
        session: Some((3, 1, 0)),
    },
    // No line at all.
    Row {
        run: Run {
            updates: "",
            ..WATCH
        },
        session: Some((0, 2, 0)),
    },
    // A run that ends at a failed read, and those that watch nothing, hand nothing back.
    Row {
        run: Run {
            failing: &[1],
            ..WATCH
        },
        session: None,
    },
    Row {
        run: MATCH,
        session: None,
    },
    Row {
        run: SAVE,
        session: None,
    },
];

/// Whether this is handed back.
fn is_kept(kept: &Kept, due: Option<(u64, u64, u64)>) -> bool {
    match (kept, due) {
        (Kept::Nothing, None) => true,
        (Kept::Watch(session), Some((lines, vertices, edges))) => {
            let graph = session.graph();
            !session.is_broken()
                && !session.registry().is_broken()
                && session.lines() == lines
                && graph.vertex_count() == vertices
                && graph.edge_count() == edges
        }
        _ => false,
    }
}

/// Whether a run hands back what it should.
fn is_right(alloc: Global, row: &Row) -> Result<bool, AllocError> {
    let limits = Limits::standard();
    if !limits.fair() {
        return Ok(false);
    }
    let words = words_of(alloc, row.run.words)?;
    let mut shelf = shelf_of(alloc, &row.run)?;
    let bytes = row.run.updates.as_bytes();
    let mut updates = MemSource::new(alloc, bytes, row.run.cuts, row.run.failing)?;
    let mut out = MemSink::new(alloc, row.run.room)?;
    let mut err = MemSink::new(alloc, row.run.err_room)?;
    let mut steps = Steps::new(Silent);
    let ended = run(
        alloc,
        &words,
        &limits,
        &mut shelf,
        &mut updates,
        &mut out,
        &mut err,
        &mut steps,
    );
    Ok(is_kept(&ended.kept, row.session))
}

/// How many rows, from the first on, are as they should be.
fn count_right(alloc: Global, rows: &[Row]) -> Result<usize, AllocError> {
    for i in 0..rows.len() {
        if !is_right(alloc, &rows[i])? {
            return Ok(i);
        }
    }
    Ok(rows.len())
}

#[test]
fn what_runs_hand_back(rt: HostRuntime) -> Result<(), Fail> {
    let right = count_right(rt.alloc(), &ROWS)?;
    assert_eq!(rt; right, ROWS.len());
    Ok(())
}
