//! What a triple brings when it comes and takes when it goes, by searches at it along every edge of a pattern, compared with
//! lists by hand, and with all embeddings over the graph without it and over the graph with it, as they are found by the plain
//! search.
ghost use Rattle.flux_model.specs.Tree.{BelongsTo};

use flux_model::{Limits, Maps, Pattern, Tally};
use graph_traits::ReadGraph;
use plain_match::{PlainGraph, plain_all};
use query_tree::QueryTree;
use std::alloc::Global;
use std::test::Fail;
use worked_parts::shapes::{CHAIN, HOOK, RING, TRIANGLE};
use worked_parts::{
    Parts, Unmade, add_classes, are_maps, are_same, block_graph_of, first, graph_of, patterns_of,
    tree_of, triple_of, update_of,
};

/// A line of updates by which a triple comes or goes.
#[derive(Clone, Copy)]
struct Row {
    pattern: &'static str,
    /// The cards by which the tree is chosen.
    edges: &'static [u64],
    vertices: &'static [u64],
    /// The lines by which the graph with the triple is made, and the one without it. Where the triple comes the last line of
    /// the first is the update, and where it goes that of the second.
    with: &'static str,
    without: &'static str,
    triple: Parts,
    /// What is found in the first graph alone, in ascending order.
    changed: &'static [&'static [u32]],
}

const ISO_CHAIN: &str = "p chain iso\nv 0\nv 1\nv 2\ne 0 1 r\ne 1 2 r";

const ISO_RING: &str = "p ring iso\nv 0\ne 0 0 r";

const ISO_HOOK: &str = "p hook iso\nv 0\nv 1\ne 0 1 r\ne 1 1 r";

/// A triangle that is closed by its third edge. The edge 0 -> 1 is left out of the tree.
const CLOSED: Row = Row {
    pattern: TRIANGLE,
    edges: &[2, 1, 1],
    vertices: &[1, 1, 1],
    with: "v 1\nv 2\nv 3\ne 1 2 r\ne 2 3 r\ne 3 1 r",
    without: "v 1\nv 2\nv 3\ne 1 2 r\ne 2 3 r",
    triple: (3, "r", 1),
    changed: &[&[1, 2, 3], &[2, 3, 1], &[3, 1, 2]],
};

/// A path along a triple and back.
const BACK: Row = Row {
    pattern: CHAIN,
    edges: &[1, 1],
    with: "v 1\nv 2\ne 1 2 r\ne 2 1 r",
    without: "v 1\nv 2\ne 1 2 r",
    triple: (2, "r", 1),
    changed: &[&[1, 2, 1], &[2, 1, 2]],
    ..CLOSED
};

/// A vertex with a loop.
const LOOP: Row = Row {
    pattern: RING,
    edges: &[0],
    vertices: &[1],
    with: "v 1\nv 2\ne 1 2 r\ne 1 1 r",
    without: "v 1\nv 2\ne 1 2 r",
    triple: (1, "r", 1),
    changed: &[&[1]],
};

/// An edge to a vertex with a loop. The loop is left out of the tree.
const TO_LOOP: Row = Row {
    pattern: HOOK,
    edges: &[1, 1],
    vertices: &[1, 1],
    with: "v 1\nv 2\ne 1 2 r\ne 2 2 r",
    without: "v 1\nv 2\ne 1 2 r",
    triple: (2, "r", 2),
    changed: &[&[1, 2], &[2, 2]],
};

const ROWS: [Row; 17] = [
    // A triangle that is not closed is none.
    Row {
        with: "v 1\nv 2\nv 3\ne 1 2 r",
        without: "v 1\nv 2\nv 3",
        triple: (1, "r", 2),
        changed: &[],
        ..CLOSED
    },
    Row {
        with: "v 1\nv 2\nv 3\ne 1 2 r\ne 2 3 r",
        without: "v 1\nv 2\nv 3\ne 1 2 r",
        triple: (2, "r", 3),
        changed: &[],
        ..CLOSED
    },
    // It comes in three turns, and goes in three.
    CLOSED,
    Row {
        without: "v 1\nv 2\nv 3\ne 1 2 r\ne 2 3 r\ne 3 1 r\n-e 3 1 r",
        ..CLOSED
    },
    // A loop serves all three edges, and brings one turn.
    Row {
        with: "v 1\ne 1 1 r",
        without: "v 1",
        triple: (1, "r", 1),
        changed: &[&[1, 1, 1]],
        ..CLOSED
    },
    // So it does on a triangle, where a turn may stand still.
    Row {
        with: "v 1\nv 2\nv 3\ne 1 2 r\ne 2 3 r\ne 3 1 r\ne 2 2 r",
        without: "v 1\nv 2\nv 3\ne 1 2 r\ne 2 3 r\ne 3 1 r\ne 2 2 r\n-e 2 2 r",
        triple: (2, "r", 2),
        changed: &[&[2, 2, 2]],
        ..CLOSED
    },
    // A path comes back in mode hom, and not in mode iso.
    BACK,
    Row {
        without: "v 1\nv 2\ne 1 2 r\ne 2 1 r\n-e 2 1 r",
        ..BACK
    },
    Row {
        pattern: ISO_CHAIN,
        changed: &[],
        ..BACK
    },
    // A loop is a path, and brings those over it and one edge beside it.
    Row {
        with: "v 1\nv 2\ne 1 2 r\ne 1 1 r",
        without: "v 1\nv 2\ne 1 2 r",
        triple: (1, "r", 1),
        changed: &[&[1, 1, 1], &[1, 1, 2]],
        ..BACK
    },
    // A loop alone is found in both modes.
    LOOP,
    Row {
        without: "v 1\nv 2\ne 1 2 r\ne 1 1 r\n-e 1 1 r",
        ..LOOP
    },
    Row {
        pattern: ISO_RING,
        ..LOOP
    },
    // A triple with two ends brings none.
    Row {
        with: "v 1\nv 2\ne 1 1 r\ne 1 2 r",
        without: "v 1\nv 2\ne 1 1 r",
        triple: (1, "r", 2),
        changed: &[],
        ..LOOP
    },
    // A loop beside an edge serves both edges in mode hom, and one in mode iso.
    TO_LOOP,
    Row {
        without: "v 1\nv 2\ne 1 2 r\ne 2 2 r\n-e 2 2 r",
        ..TO_LOOP
    },
    Row {
        pattern: ISO_HOOK,
        changed: &[&[1, 2]],
        ..TO_LOOP
    },
];

/// Takes a line of updates.
fn take_update(alloc: Global, graph: &mut PlainGraph, line: &str) -> Result<(), Unmade> {
    match graph.apply(&update_of(alloc, line)?)? {
        Ok(()) => Ok(()),
        Err(code) => Err(Unmade::Refused(code)),
    }
}

/// What the plain search finds over the graph that lines of updates make of the empty one.
fn plain_maps(alloc: Global, pattern: &Pattern, text: &str) -> Result<Maps, Unmade> {
    let mut graph = PlainGraph::new(alloc, &Limits::standard());
    for line in text.split('\n') {
        take_update(alloc, &mut graph, line)?;
    }
    Ok(plain_all(alloc, pattern, &graph)?)
}

/// Whether the classes of a row are the list by hand, and with what the plain search finds without the triple are what it finds
/// with it.
fn are_classes<G: ReadGraph<Tally>>(
    alloc: Global,
    pattern: &Pattern,
    tree: &QueryTree,
    graph: &G,
    row: &Row,
) -> Result<bool, Unmade>
    requires { BelongsTo pattern.now tree.now }
{
    let triple = triple_of(alloc, row.triple)?;
    let mut changed = Maps::new(alloc);
    add_classes(alloc, pattern, tree, graph, &triple, &mut changed)?;
    let mut all = plain_maps(alloc, pattern, row.without)?;
    add_classes(alloc, pattern, tree, graph, &triple, &mut all)?;
    let with = plain_maps(alloc, pattern, row.with)?;
    Ok(are_maps(&changed, row.changed) && are_same(&all, &with))
}

/// Whether the classes of a row are as they should be, over a store of the graph with the triple.
fn is_right_over<G: ReadGraph<Tally>>(alloc: Global, graph: &G, row: &Row) -> Result<bool, Unmade> {
    let patterns = patterns_of(alloc, row.pattern)?;
    let pattern = first(&patterns)?;
    let tree = tree_of(alloc, pattern, row.edges, row.vertices)?;
    are_classes(alloc, pattern, &tree, graph, row)
}

/// Whether it is so over the store of hashed triples.
fn is_right_in_labels(alloc: Global, row: &Row) -> Result<bool, Unmade> {
    let graph = graph_of(alloc, row.with)?;
    is_right_over(alloc, &graph, row)
}

/// Whether it is so over the store of blocks.
fn is_right_in_blocks(alloc: Global, row: &Row) -> Result<bool, Unmade> {
    let graph = block_graph_of(alloc, row.with)?;
    is_right_over(alloc, &graph, row)
}

/// How many rows, from the first on, are as they should be.
fn count_right(alloc: Global, rows: &[Row]) -> Result<usize, Unmade> {
    for i in 0..rows.len() {
        if !is_right_in_labels(alloc, &rows[i])? || !is_right_in_blocks(alloc, &rows[i])? {
            return Ok(i);
        }
    }
    Ok(rows.len())
}

#[test]
fn what_a_triple_brings_and_takes(rt: HostRuntime) -> Result<(), Fail> {
    assert_eq!(rt; count_right(rt.alloc(), &ROWS)?, ROWS.len());
    Ok(())
}
