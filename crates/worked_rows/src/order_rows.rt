//! Orders of a search, worked out by hand from their definition.
use match_order::{SearchOrder, order};
use std::alloc::Global;
use std::process::Abort;
use std::test::Fail;
use worked_parts::shapes::{CHAIN, DOT};
use worked_parts::{Unmade, first, patterns_of, tree_of};

/// The order of the vertices of a pattern.
#[derive(Clone, Copy)]
struct Row {
    pattern: &'static str,
    /// The cards by which the tree is chosen.
    edges: &'static [u64],
    vertices: &'static [u64],
    root: usize,
    start: usize,
    /// For each vertex how many candidates it has.
    live: &'static [u64],
    order: &'static [usize],
    /// The anchors from the second vertex of the order on.
    anchors: &'static [usize],
}

/// The chain, with the root 1 and the children 0 and 2.
const FORK: Row = Row {
    pattern: CHAIN,
    edges: &[1, 0],
    vertices: &[1, 1, 1],
    root: 1,
    start: 0,
    live: &[],
    order: &[],
    anchors: &[],
};

const ROWS: [Row; 4] = [
    // A chain is placed from its first vertex on.
    Row {
        start: 0,
        live: &[1, 0, 0],
        order: &[0, 1, 2],
        anchors: &[0, 1],
        ..FORK
    },
    // The vertex with the fewest pairs comes first.
    Row {
        start: 1,
        live: &[2, 0, 1],
        order: &[1, 2, 0],
        anchors: &[1, 1],
        ..FORK
    },
    // Of equals the lower vertex comes first.
    Row {
        start: 1,
        live: &[3, 3, 3],
        order: &[1, 0, 2],
        anchors: &[1, 1],
        ..FORK
    },
    // One vertex is an order.
    Row {
        pattern: DOT,
        edges: &[],
        vertices: &[5],
        root: 0,
        start: 0,
        live: &[7],
        order: &[0],
        anchors: &[],
    },
];

/// Whether the order of a row is as it should be.
fn is_right(rt: &impl Abort, alloc: Global, row: &Row) -> Result<bool, Unmade> {
    let patterns = patterns_of(alloc, row.pattern)?;
    let tree = tree_of(alloc, first(&patterns)?, row.edges, row.vertices)?;
    assert!(rt; row.start < tree.vertex_count());
    assert!(rt; row.live.len() == tree.vertex_count());
    let order = order(&tree, row.start, row.live);
    Ok(
        tree.root() == row.root
            && has_vertices(&order, row.order)
            && has_anchors(&order, row.anchors),
    )
}

/// Whether the order has these vertices.
fn has_vertices(order: &SearchOrder, vertices: &[usize]) -> bool {
    if order.len() != vertices.len() {
        return false;
    }
    for j in 0..vertices.len() {
        if order.vertex(j) != vertices[j] {
            return false;
        }
    }
    true
}

/// Whether the order has these anchors from its second vertex on.
fn has_anchors(order: &SearchOrder, anchors: &[usize]) -> bool {
    if order.len() - 1 != anchors.len() {
        return false;
    }
    for j in 0..anchors.len() {
        if order.anchor(j + 1) != anchors[j] {
            return false;
        }
    }
    true
}

/// How many rows, from the first on, are as they should be.
fn count_right(rt: &impl Abort, alloc: Global, rows: &[Row]) -> Result<usize, Unmade> {
    for i in 0..rows.len() {
        if !is_right(rt, alloc, &rows[i])? {
            return Ok(i);
        }
    }
    Ok(rows.len())
}

#[test]
fn orders_of_searches(rt: HostRuntime) -> Result<(), Fail> {
    assert_eq!(rt; count_right(&rt, rt.alloc(), &ROWS)?, ROWS.len());
    Ok(())
}
