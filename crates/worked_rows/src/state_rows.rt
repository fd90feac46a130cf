//! States of pairs, worked out by hand from their definition.
ghost use Rattle.std.specs.Prelude.{◌≡◌, length, false};
ghost use Rattle.flux_model.specs.Tree.{BelongsTo};

use dcg_store::Dcg;
use dcg_transition::{build, build_from, fitting};
use flux_model::State::{Explicit, Implicit, Null};
use flux_model::{Pattern, State, Steps, Tally};
use label_graph::LabelGraph;
use query_tree::QueryTree;
use std::alloc::{AllocError, Global};
use std::test::Fail;
use worked_parts::shapes::{CHAIN, LABELLED_CHAIN};
use worked_parts::{Unmade, first, graph_of, has_live_counts, has_states, patterns_of, tree_of};

/// The rows of the states of a chain over a graph.
#[derive(Clone, Copy)]
struct Row {
    graph: &'static str,
    pattern: &'static str,
    /// The cards of the edges by which the tree is chosen. Each vertex has card 1.
    edges: &'static [u64],
    /// The vertices that fit the root, in the order of the graph.
    roots: &'static [u32],
    /// Pairs with their states.
    states: &'static [(usize, u32, State)],
    /// How many rows there are.
    stored: u64,
    /// How many pairs of each pattern vertex are explicit.
    live: &'static [u64],
    /// 24 times the size of the pattern times that of the graph, each edge of which counts twice, and 1.
    most_steps: u64,
}

const ROWS: [Row; 4] = [
    // A chain is implicit without its end.
    Row {
        graph: "v 1 A\nv 2 B\nv 3 C\ne 1 2 r",
        pattern: LABELLED_CHAIN,
        edges: &[1, 0],
        roots: &[2],
        states: &[(0, 1, Explicit), (1, 2, Implicit), (2, 3, Null)],
        stored: 2,
        live: &[1, 0, 0],
        most_steps: 24 * (3 + 2) * (3 + 2 + 1),
    },
    // A whole chain is explicit.
    Row {
        graph: "v 1 A\nv 2 B\nv 3 C\ne 1 2 r\ne 2 3 r",
        pattern: LABELLED_CHAIN,
        edges: &[1, 0],
        roots: &[2],
        states: &[(0, 1, Explicit), (1, 2, Explicit), (2, 3, Explicit)],
        stored: 3,
        live: &[1, 1, 1],
        most_steps: 24 * (3 + 2) * (3 + 4 + 1),
    },
    // A path of two edges needs two triples in turn.
    Row {
        graph: "v 1\nv 2\ne 1 2 r",
        pattern: CHAIN,
        edges: &[0, 1],
        roots: &[1, 2],
        states: &[
            (0, 1, Implicit),
            (0, 2, Implicit),
            (1, 1, Null),
            (1, 2, Implicit),
            (2, 1, Null),
            (2, 2, Null),
        ],
        stored: 3,
        live: &[0, 0, 0],
        most_steps: 24 * (3 + 2) * (2 + 2 + 1),
    },
    // A path goes round a circle.
    Row {
        graph: "v 1\nv 2\ne 1 2 r\ne 2 1 r",
        pattern: CHAIN,
        edges: &[0, 1],
        roots: &[1, 2],
        states: &[
            (0, 1, Explicit),
            (0, 2, Explicit),
            (1, 1, Explicit),
            (1, 2, Explicit),
            (2, 1, Explicit),
            (2, 2, Explicit),
        ],
        stored: 6,
        live: &[2, 2, 2],
        most_steps: 24 * (3 + 2) * (2 + 4 + 1),
    },
];

/// Whether the rows of states of a row of the table are as they should be.
fn is_right(alloc: Global, row: &Row) -> Result<bool, Unmade> {
    let graph = graph_of(alloc, row.graph)?;
    let patterns = patterns_of(alloc, row.pattern)?;
    let pattern = first(&patterns)?;
    let tree = tree_of(alloc, pattern, row.edges, &[1, 1, 1])?;
    Ok(
        builds(alloc, pattern, &tree, &graph, row)?
            && builds_from_roots(alloc, pattern, &tree, &graph, row)?,
    )
}

/// Whether the rows of states are built in few steps, and are those of the row.
fn builds(
    alloc: Global,
    pattern: &Pattern,
    tree: &QueryTree,
    graph: &LabelGraph,
    row: &Row,
) -> Result<bool, AllocError>
    requires { BelongsTo pattern.now tree.now }
{
    let mut steps = Steps::new(Tally::new());
    let dcg = build(alloc, pattern, tree, graph, &mut steps)?;
    let is_few = steps.ledger().read() <= row.most_steps;
    Ok(is_few && are_rows(tree, &dcg, row))
}

/// Whether the vertices that fit the root are those of the row, and the rows of states that are built from them are too.
fn builds_from_roots(
    alloc: Global,
    pattern: &Pattern,
    tree: &QueryTree,
    graph: &LabelGraph,
    row: &Row,
) -> Result<bool, AllocError>
    requires { BelongsTo pattern.now tree.now }
{
    let mut steps = Steps::new(Tally::new());
    let roots = fitting(alloc, graph, pattern.labels(tree.root()), &mut steps)?;
    let dcg = build_from(alloc, pattern, tree, graph, roots.as_slice(), &mut steps)?;
    Ok(roots.as_slice() == row.roots && are_rows(tree, &dcg, row))
}

/// Whether the rows of states are these.
fn are_rows(tree: &QueryTree, dcg: &Dcg, row: &Row) -> bool
    requires whole { dcg.now.is_broken ≡ false }
    requires vertices { length dcg.now.children ≡ length tree.now.links }
{
    dcg.stored() == row.stored
        && tree.vertex_count() == row.live.len()
        && has_live_counts(dcg, row.live)
        && count_rows(tree, dcg) as u64 == row.stored
        && has_states(dcg, tree.vertex_count(), row.states)
}

/// How many vertices have a row, over all pattern vertices.
fn count_rows(tree: &QueryTree, dcg: &Dcg) -> usize
    requires whole { dcg.now.is_broken ≡ false }
    requires vertices { length dcg.now.children ≡ length tree.now.links }
{
    let mut count: usize = 0;
    for u in 0..tree.vertex_count() {
        count = count.saturating_add(dcg.row_vertices(u).len());
    }
    count
}

/// How many rows, from the first on, are as they should be.
fn count_right(alloc: Global, rows: &[Row]) -> Result<usize, Unmade> {
    for i in 0..rows.len() {
        if !is_right(alloc, &rows[i])? {
            return Ok(i);
        }
    }
    Ok(rows.len())
}

#[test]
fn states_of_chains(rt: HostRuntime) -> Result<(), Fail> {
    assert_eq!(rt; count_right(rt.alloc(), &ROWS)?, ROWS.len());
    Ok(())
}
