//! All that is found over graphs that change line by line, worked out by hand.
ghost use Rattle.flux_model.specs.Tree.{BelongsTo};

use crate::finds::{add_found, finds, found_in};
use flux_model::{Maps, Pattern, Tally, Triple};
use graph_traits::{KeepGraph, ReadGraph};
use query_tree::QueryTree;
use std::alloc::{AllocError, Global};
use std::test::Fail;
use worked_parts::shapes::{BOTH, CHAIN, HOOK, RING, TRIANGLE};
use worked_parts::{
    Unmade, add_classes, are_maps, are_same, block_graph_of, first, graph_of, patterns_of, tree_of,
    triple_of,
};

/// A triple comes or goes.
#[derive(Clone, Copy)]
enum Change {
    Insert(u32, &'static str, u32),
    Remove(u32, &'static str, u32),
}

use Change::{Insert, Remove};

/// A change of the graph, and all that is found after it, in ascending order.
type Line = (Change, &'static [&'static [u32]]);

/// A pattern over a graph that changes line by line.
#[derive(Clone, Copy)]
struct Row {
    pattern: &'static str,
    /// The cards by which the tree is chosen.
    edges: &'static [u64],
    vertices: &'static [u64],
    /// The graph before the first line, where nothing is found.
    graph: &'static str,
    lines: &'static [Line],
}

const ISO_CHAIN: &str = "p chain iso\nv 0\nv 1\nv 2\ne 0 1 r\ne 1 2 r";

const ISO_RING: &str = "p ring iso\nv 0\ne 0 0 r";

const DUO: &str = "p duo iso\nv 0\nv 1\ne 0 1 r";

const ROWS: [Row; 11] = [
    // A path goes round a loop in mode hom.
    Row {
        pattern: CHAIN,
        edges: &[0, 0],
        vertices: &[1, 1, 1],
        graph: "v 1",
        lines: &[(Insert(1, "r", 1), &[&[1, 1, 1]]), (Remove(1, "r", 1), &[])],
    },
    // A path goes round no loop in mode iso.
    Row {
        pattern: ISO_CHAIN,
        edges: &[0, 0],
        vertices: &[1, 1, 1],
        graph: "v 1",
        lines: &[(Insert(1, "r", 1), &[]), (Remove(1, "r", 1), &[])],
    },
    // A loop alone is found.
    Row {
        pattern: RING,
        edges: &[0],
        vertices: &[1],
        graph: "v 1",
        lines: &[(Insert(1, "r", 1), &[&[1]]), (Remove(1, "r", 1), &[])],
    },
    // In mode iso too.
    Row {
        pattern: ISO_RING,
        edges: &[0],
        vertices: &[1],
        graph: "v 1\nv 2\ne 1 2 r",
        lines: &[(Insert(1, "r", 1), &[&[1]]), (Remove(1, "r", 1), &[])],
    },
    // A path comes back in mode hom.
    Row {
        pattern: CHAIN,
        edges: &[1, 1],
        vertices: &[1, 1, 1],
        graph: "v 1\nv 2",
        lines: &[
            (Insert(1, "r", 2), &[]),
            (Insert(2, "r", 1), &[&[1, 2, 1], &[2, 1, 2]]),
        ],
    },
    // A path does not come back in mode iso.
    Row {
        pattern: ISO_CHAIN,
        edges: &[1, 1],
        vertices: &[1, 1, 1],
        graph: "v 1\nv 2",
        lines: &[(Insert(1, "r", 2), &[]), (Insert(2, "r", 1), &[])],
    },
    // A triangle is found in three turns while it is closed. The edge 0 -> 1 is left out of the tree.
    Row {
        pattern: TRIANGLE,
        edges: &[2, 1, 1],
        vertices: &[1, 1, 1],
        graph: "v 1\nv 2\nv 3",
        lines: &[
            (Insert(1, "r", 2), &[]),
            (Insert(2, "r", 3), &[]),
            (Insert(3, "r", 1), &[&[1, 2, 3], &[2, 3, 1], &[3, 1, 2]]),
            (Remove(3, "r", 1), &[]),
        ],
    },
    // A triple that serves the three edges of a triangle brings it once.
    Row {
        pattern: TRIANGLE,
        edges: &[2, 1, 1],
        vertices: &[1, 1, 1],
        graph: "v 1",
        lines: &[(Insert(1, "r", 1), &[&[1, 1, 1]]), (Remove(1, "r", 1), &[])],
    },
    // A loop beside an edge has to stand. The edge 1 -> 1 is left out of the tree.
    Row {
        pattern: HOOK,
        edges: &[1, 1],
        vertices: &[1, 1],
        graph: "v 1\nv 2\nv 3",
        lines: &[
            (Insert(1, "r", 2), &[]),
            (Insert(2, "r", 2), &[&[1, 2], &[2, 2]]),
            (Insert(2, "r", 3), &[&[1, 2], &[2, 2]]),
        ],
    },
    // Two edges between two vertices both have to stand.
    Row {
        pattern: BOTH,
        edges: &[0, 0],
        vertices: &[1, 1],
        graph: "v 1\nv 2",
        lines: &[
            (Insert(1, "r", 2), &[]),
            (Insert(1, "s", 2), &[&[1, 2]]),
            (Insert(1, "s", 1), &[&[1, 2]]),
            (Insert(1, "r", 1), &[&[1, 1], &[1, 2]]),
            (Remove(1, "r", 2), &[&[1, 1]]),
        ],
    },
    // An edge between two ids is no loop in mode iso.
    Row {
        pattern: DUO,
        edges: &[0],
        vertices: &[1, 1],
        graph: "v 1\nv 2",
        lines: &[
            (Insert(1, "r", 2), &[&[1, 2]]),
            (Insert(1, "s", 2), &[&[1, 2]]),
            (Insert(1, "s", 1), &[&[1, 2]]),
            (Insert(1, "r", 1), &[&[1, 2]]),
            (Remove(1, "r", 2), &[]),
        ],
    },
];

/// Whether the triple is inserted, and this is found then: what was found before, with what is found at the triple.
fn inserts<G: KeepGraph + ReadGraph<Tally>>(
    alloc: Global,
    pattern: &Pattern,
    tree: &QueryTree,
    graph: &mut G,
    triple: &Triple,
    expected: &[&[u32]],
) -> Result<bool, AllocError>
    requires { BelongsTo pattern.now tree.now }
{
    let mut maps = Maps::new(alloc);
    add_found(alloc, pattern, tree, graph, &mut maps)?;
    let made = graph.insert(triple)?;
    add_classes(alloc, pattern, tree, graph, triple, &mut maps)?;
    let is_found = finds(alloc, pattern, tree, graph, expected)?;
    Ok(made.is_ok() && is_found && are_maps(&maps, expected))
}

/// Whether the triple is removed, and this is found then, which with what was found at the triple is what was found before.
fn removes<G: KeepGraph + ReadGraph<Tally>>(
    alloc: Global,
    pattern: &Pattern,
    tree: &QueryTree,
    graph: &mut G,
    triple: &Triple,
    expected: &[&[u32]],
) -> Result<bool, AllocError>
    requires { BelongsTo pattern.now tree.now }
{
    let before = found_in(alloc, pattern, tree, graph)?;
    let mut maps = Maps::new(alloc);
    add_classes(alloc, pattern, tree, graph, triple, &mut maps)?;
    let made = graph.remove(triple);
    add_found(alloc, pattern, tree, graph, &mut maps)?;
    maps.sort()?;
    let is_found = finds(alloc, pattern, tree, graph, expected)?;
    Ok(made.is_ok() && is_found && are_same(&maps, &before))
}

/// Whether a change is made, and what is found then is as it should be.
fn takes<G: KeepGraph + ReadGraph<Tally>>(
    alloc: Global,
    pattern: &Pattern,
    tree: &QueryTree,
    graph: &mut G,
    change: Change,
    expected: &[&[u32]],
) -> Result<bool, Unmade>
    requires { BelongsTo pattern.now tree.now }
{
    match change {
        Insert(src, label, dst) => {
            let triple = triple_of(alloc, (src, label, dst))?;
            Ok(inserts(alloc, pattern, tree, graph, &triple, expected)?)
        }
        Remove(src, label, dst) => {
            let triple = triple_of(alloc, (src, label, dst))?;
            Ok(removes(alloc, pattern, tree, graph, &triple, expected)?)
        }
    }
}

/// Whether nothing is found at first, and what is found after each line is as it should be.
fn takes_each<G: KeepGraph + ReadGraph<Tally>>(
    alloc: Global,
    pattern: &Pattern,
    tree: &QueryTree,
    graph: &mut G,
    lines: &[Line],
) -> Result<bool, Unmade>
    requires { BelongsTo pattern.now tree.now }
{
    if !finds(alloc, pattern, tree, graph, &[])? {
        return Ok(false);
    }
    for i in 0..lines.len() {
        let (change, expected) = lines[i];
        if !takes(alloc, pattern, tree, graph, change, expected)? {
            return Ok(false);
        }
    }
    Ok(true)
}

/// Whether what is found in a row is as it should be, over a store of its graph.
fn is_right_over<G: KeepGraph + ReadGraph<Tally>>(
    alloc: Global,
    graph: &mut G,
    row: &Row,
) -> Result<bool, Unmade> {
    let patterns = patterns_of(alloc, row.pattern)?;
    let pattern = first(&patterns)?;
    let tree = tree_of(alloc, pattern, row.edges, row.vertices)?;
    takes_each(alloc, pattern, &tree, graph, row.lines)
}

/// Whether it is so over the store of hashed triples.
fn is_right_in_labels(alloc: Global, row: &Row) -> Result<bool, Unmade> {
    let mut graph = graph_of(alloc, row.graph)?;
    is_right_over(alloc, &mut graph, row)
}

/// Whether it is so over the store of blocks.
fn is_right_in_blocks(alloc: Global, row: &Row) -> Result<bool, Unmade> {
    let mut graph = block_graph_of(alloc, row.graph)?;
    is_right_over(alloc, &mut graph, row)
}

/// How many rows, from the first on, are as they should be.
fn count_right(alloc: Global, rows: &[Row]) -> Result<usize, Unmade> {
    for i in 0..rows.len() {
        if !is_right_in_labels(alloc, &rows[i])? || !is_right_in_blocks(alloc, &rows[i])? {
            return Ok(i);
        }
    }
    Ok(rows.len())
}

#[test]
fn embeddings_before_and_after_a_triple(rt: HostRuntime) -> Result<(), Fail> {
    assert_eq!(rt; count_right(rt.alloc(), &ROWS)?, ROWS.len());
    Ok(())
}
