//! States of pairs before and after each line of updates, worked out by hand from their definition.
ghost use Rattle.std.specs.Prelude.{◌≡◌, length, false};
ghost use Rattle.flux_model.specs.Exact.{IsExact};
ghost use Rattle.flux_model.specs.Tree.{BelongsTo};

use crate::changes::make;
use dcg_store::Dcg;
use dcg_transition::build;
use flux_model::State::{Explicit, Implicit, Null};
use flux_model::{Ledger, Pattern, State, Steps, Tally};
use graph_traits::{KeepGraph, ReadGraph};
use query_tree::QueryTree;
use std::alloc::Global;
use std::test::Fail;
use worked_parts::shapes::{CHAIN, LABELLED_CHAIN};
use worked_parts::{
    Unmade, block_graph_of, first, graph_of, has_live_counts, has_states, patterns_of, tree_of,
    update_of,
};

/// What is kept of the states.
#[derive(Clone, Copy)]
struct Kept {
    /// Pairs with their states.
    states: &'static [(usize, u32, State)],
    /// How many rows there are.
    stored: u64,
    /// How many pairs of each pattern vertex are explicit.
    live: &'static [u64],
}

/// The states of a pattern over a graph that changes line by line.
#[derive(Clone, Copy)]
struct Row {
    graph: &'static str,
    pattern: &'static str,
    /// The cards by which the tree is chosen.
    edges: &'static [u64],
    vertices: &'static [u64],
    /// What is kept before the first line.
    built: Kept,
    /// Lines of updates, and what is kept after each.
    lines: &'static [(&'static str, Kept)],
}

/// A path over one vertex.
const ALONE: Kept = Kept {
    states: &[(0, 1, Implicit), (1, 1, Null), (2, 1, Null)],
    stored: 1,
    live: &[0, 0, 0],
};

/// A path over two vertices.
const APART: Kept = Kept {
    states: &[
        (0, 1, Implicit),
        (0, 2, Implicit),
        (1, 1, Null),
        (1, 2, Null),
    ],
    stored: 2,
    live: &[0, 0, 0],
};

/// A path over the triple from 1 to 2 alone.
const ONE_WAY: Kept = Kept {
    states: &[
        (0, 1, Implicit),
        (0, 2, Implicit),
        (1, 1, Null),
        (1, 2, Implicit),
        (2, 1, Null),
        (2, 2, Null),
    ],
    stored: 3,
    live: &[0, 0, 0],
};

/// A chain without its end. Vertex 1 of the pattern is the root.
const OPEN: Kept = Kept {
    states: &[(0, 1, Explicit), (1, 2, Implicit), (2, 3, Null)],
    stored: 2,
    live: &[1, 0, 0],
};

const ROWS: [Row; 5] = [
    // A loop is a joint of both edges of a path, which stand on each other.
    Row {
        graph: "v 1",
        pattern: CHAIN,
        edges: &[0, 1],
        vertices: &[1, 1, 1],
        built: ALONE,
        lines: &[
            (
                "e 1 1 r",
                Kept {
                    states: &[(0, 1, Explicit), (1, 1, Explicit), (2, 1, Explicit)],
                    stored: 3,
                    live: &[1, 1, 1],
                },
            ),
            ("-e 1 1 r", ALONE),
        ],
    },
    // A path goes there and back, and no more when the way back is gone.
    Row {
        graph: "v 1\nv 2",
        pattern: CHAIN,
        edges: &[0, 1],
        vertices: &[1, 1, 1],
        built: APART,
        lines: &[
            ("e 1 2 r", ONE_WAY),
            (
                "e 2 1 r",
                Kept {
                    states: &[
                        (0, 1, Explicit),
                        (0, 2, Explicit),
                        (1, 1, Explicit),
                        (1, 2, Explicit),
                        (2, 1, Explicit),
                        (2, 2, Explicit),
                    ],
                    stored: 6,
                    live: &[2, 2, 2],
                },
            ),
            ("-e 2 1 r", ONE_WAY),
        ],
    },
    // A chain is whole while it has its end. A triple of another label, or of ends that do not fit, moves nothing.
    Row {
        graph: "v 1 A\nv 2 B\nv 3 C\ne 1 2 r",
        pattern: LABELLED_CHAIN,
        edges: &[1, 0],
        vertices: &[1, 1, 1],
        built: OPEN,
        lines: &[
            ("e 2 3 s", OPEN),
            ("e 3 2 r", OPEN),
            (
                "e 2 3 r",
                Kept {
                    states: &[(0, 1, Explicit), (1, 2, Explicit), (2, 3, Explicit)],
                    stored: 3,
                    live: &[1, 1, 1],
                },
            ),
            ("-e 2 3 r", OPEN),
        ],
    },
    // A vertex that fits the only vertex of a pattern has a row, which goes with it.
    Row {
        graph: "",
        pattern: "p one hom\nv 0 A",
        edges: &[],
        vertices: &[1],
        built: Kept {
            states: &[(0, 5, Null)],
            stored: 0,
            live: &[0],
        },
        lines: &[
            (
                "v 5 A",
                Kept {
                    states: &[(0, 5, Explicit)],
                    stored: 1,
                    live: &[1],
                },
            ),
            (
                "v 6 B",
                Kept {
                    states: &[(0, 5, Explicit), (0, 6, Null)],
                    stored: 1,
                    live: &[1],
                },
            ),
            (
                "-v 5",
                Kept {
                    states: &[(0, 5, Null)],
                    stored: 0,
                    live: &[0],
                },
            ),
        ],
    },
    // A vertex that fits the root of a chain is implicit as long as it has no triples.
    Row {
        graph: "v 1 A\nv 2 B\nv 3 C\ne 1 2 r",
        pattern: LABELLED_CHAIN,
        edges: &[1, 0],
        vertices: &[1, 1, 1],
        built: OPEN,
        lines: &[
            (
                "v 4 B",
                Kept {
                    states: &[(1, 2, Implicit), (1, 4, Implicit)],
                    stored: 3,
                    live: &[1, 0, 0],
                },
            ),
            ("v 5 A", Kept { stored: 3, ..OPEN }),
            ("-v 4", OPEN),
        ],
    },
];

/// Whether this is kept of the states of a pattern with so many vertices.
fn keeps(dcg: &Dcg, count: usize, kept: &Kept) -> bool
    requires whole { dcg.now.is_broken ≡ false }
    requires vertices { length dcg.now.children ≡ count }
{
    dcg.stored() == kept.stored
        && count == kept.live.len()
        && has_live_counts(dcg, kept.live)
        && has_states(dcg, count, kept.states)
}

/// Whether each line is accepted, and then what it says is kept.
fn keeps_each<G: KeepGraph + ReadGraph<L>, L: Ledger>(
    alloc: Global,
    pattern: &Pattern,
    tree: &QueryTree,
    dcg: &mut Dcg,
    graph: &mut G,
    lines: &[(&str, Kept)],
    steps: &mut Steps<L>,
) -> Result<bool, Unmade>
    requires belongs { BelongsTo pattern.now tree.now }
    requires was { IsExact pattern.now tree.now (G.graph graph.old) dcg.old }
{
    for i in 0..lines.len() {
        let (text, kept) = lines[i];
        let update = update_of(alloc, text)?;
        let made = make(pattern, tree, dcg, graph, &update, steps)?;
        if made.is_err() || !keeps(dcg, tree.vertex_count(), &kept) {
            return Ok(false);
        }
    }
    Ok(true)
}

/// Whether what a row says is kept, over a store of its graph.
fn is_right_over<G: KeepGraph + ReadGraph<Tally>>(
    alloc: Global,
    graph: &mut G,
    row: &Row,
) -> Result<bool, Unmade> {
    let patterns = patterns_of(alloc, row.pattern)?;
    let pattern = first(&patterns)?;
    let tree = tree_of(alloc, pattern, row.edges, row.vertices)?;
    let mut steps = Steps::new(Tally::new());
    let mut dcg = build(alloc, pattern, &tree, graph, &mut steps)?;
    if !keeps(&dcg, tree.vertex_count(), &row.built) {
        return Ok(false);
    }
    keeps_each(
        alloc, pattern, &tree, &mut dcg, graph, row.lines, &mut steps,
    )
}

/// Whether it is so over the store of hashed triples.
fn is_right_in_labels(alloc: Global, row: &Row) -> Result<bool, Unmade> {
    let mut graph = graph_of(alloc, row.graph)?;
    is_right_over(alloc, &mut graph, row)
}

/// Whether it is so over the store of blocks.
fn is_right_in_blocks(alloc: Global, row: &Row) -> Result<bool, Unmade> {
    let mut graph = block_graph_of(alloc, row.graph)?;
    is_right_over(alloc, &mut graph, row)
}

/// How many rows, from the first on, are as they should be.
fn count_right(alloc: Global, rows: &[Row]) -> Result<usize, Unmade> {
    for i in 0..rows.len() {
        if !is_right_in_labels(alloc, &rows[i])? || !is_right_in_blocks(alloc, &rows[i])? {
            return Ok(i);
        }
    }
    Ok(rows.len())
}

#[test]
fn states_before_and_after_each_line(rt: HostRuntime) -> Result<(), Fail> {
    assert_eq!(rt; count_right(rt.alloc(), &ROWS)?, ROWS.len());
    Ok(())
}
