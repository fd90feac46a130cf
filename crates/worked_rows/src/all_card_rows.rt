//! Cards of many patterns at once, worked out by hand from their definition.
use flux_model::{Cards, Steps, Tally};
use label_cards::all_cards;
use std::alloc::Global;
use std::test::Fail;
use worked_parts::{Unmade, graph_of, patterns_of};

/// The cards of some patterns over a graph, and how many reads count them at most.
#[derive(Clone, Copy)]
struct Row {
    graph: &'static str,
    patterns: &'static str,
    /// For each pattern the cards of its edges.
    edges: &'static [&'static [u64]],
    /// For each pattern the cards of its vertices.
    vertices: &'static [&'static [u64]],
    most_reads: u64,
}

/// Two patterns of the same edges, with labels on the vertices and without, and one of two labels between the same vertices.
const THREE: &str = "p a hom\nv 0 A\nv 1 B\ne 0 1 r\ne 1 1 r\ne 1 0 r\n\
p b hom\nv 0\nv 1\ne 0 1 r\ne 1 1 r\ne 1 0 r\n\
p c iso\nv 0 B\nv 1\ne 0 1 s\ne 0 1 t";

const ROWS: [Row; 4] = [
    // Reads: each vertex and its labels, each triple, the ends of three rows, and the heads. The two edges between vertices
    // without labels ask the same of a triple, so that a head is read once for both. No triple has the label `t`.
    Row {
        graph: "v 1 A\nv 2 B\nv 3 B\ne 1 1 r\ne 1 2 r\ne 1 2 s\ne 2 1 r\ne 2 2 r\ne 2 3 r\ne 3 3 s",
        patterns: THREE,
        edges: &[&[1, 1, 1], &[5, 2, 5], &[1, 0]],
        vertices: &[&[1, 2], &[3, 3], &[2, 3]],
        most_reads: 2 * 3 + 7 + 3 + 14,
    },
    // A pattern of one vertex has no edge.
    Row {
        graph: "v 1 A\nv 2 A B",
        patterns: "p both hom\nv 0 B A\np one hom\nv 0 A\np none hom\nv 0 C",
        edges: &[&[], &[], &[]],
        vertices: &[&[1], &[2], &[0]],
        most_reads: 2 * 2 + 2,
    },
    // Nothing fits in the empty graph.
    Row {
        graph: "",
        patterns: "p one hom\nv 0 A\nv 1\ne 0 1 r\np two hom\nv 0",
        edges: &[&[0], &[]],
        vertices: &[&[0, 0], &[0]],
        most_reads: 0,
    },
    // Where there is no pattern, nothing is read.
    Row {
        graph: "v 1 A\nv 2\ne 1 2 r",
        patterns: "",
        edges: &[],
        vertices: &[],
        most_reads: 0,
    },
];

/// Whether the cards of each pattern are these.
fn are_cards(all: &[Cards], edges: &[&[u64]], vertices: &[&[u64]]) -> bool {
    if all.len() != edges.len() || all.len() != vertices.len() {
        return false;
    }
    for (k, cards) in all.iter().enumerate() {
        if cards.edges() != edges[k] || cards.vertices() != vertices[k] {
            return false;
        }
    }
    true
}

/// Whether the cards of a row are as they should be.
fn is_right(alloc: Global, row: &Row) -> Result<bool, Unmade> {
    let graph = graph_of(alloc, row.graph)?;
    let patterns = patterns_of(alloc, row.patterns)?;
    let mut steps = Steps::new(Tally::new());
    let counted = all_cards(alloc, &graph, &patterns, &mut steps)?;
    let reads = steps.ledger().read();
    Ok(are_cards(counted.as_slice(), row.edges, row.vertices) && reads <= row.most_reads)
}

/// How many rows, from the first on, are as they should be.
fn count_right(alloc: Global, rows: &[Row]) -> Result<usize, Unmade> {
    for i in 0..rows.len() {
        if !is_right(alloc, &rows[i])? {
            return Ok(i);
        }
    }
    Ok(rows.len())
}

#[test]
fn cards_of_all_patterns(rt: HostRuntime) -> Result<(), Fail> {
    assert_eq!(rt; count_right(rt.alloc(), &ROWS)?, ROWS.len());
    Ok(())
}
