//! Cards, worked out by hand from their definition.
use flux_model::{Steps, Tally};
use label_cards::cards;
use std::alloc::Global;
use std::test::Fail;
use worked_parts::shapes::LABELLED_CHAIN;
use worked_parts::{Unmade, first, graph_of, patterns_of};

/// The cards of a pattern over a graph, and how many reads count them at most.
#[derive(Clone, Copy)]
struct Row {
    graph: &'static str,
    pattern: &'static str,
    edges: &'static [u64],
    vertices: &'static [u64],
    most_reads: u64,
}

const LOOPS: &str =
    "v 1 A\nv 2 B\nv 3 B\ne 1 1 r\ne 1 2 r\ne 1 2 s\ne 2 1 r\ne 2 2 r\ne 2 3 r\ne 3 3 s";

const ROWS: [Row; 5] = [
    // Reads: each vertex by its place and against three sets of labels, a triple, the ends of three rows, and a head.
    Row {
        graph: "v 1 A\nv 2 B\nv 3 C\ne 1 2 r",
        pattern: LABELLED_CHAIN,
        edges: &[1, 0],
        vertices: &[1, 1, 1],
        most_reads: 3 + 3 * 3 + 1 + 3 + 1,
    },
    // A loop of the pattern fits loops alone. Two vertices and three edges over three vertices and seven triples.
    Row {
        graph: LOOPS,
        pattern: "p pair hom\nv 0 A\nv 1 B\ne 0 1 r\ne 1 1 r\ne 1 0 r",
        edges: &[1, 1, 1],
        vertices: &[1, 2],
        most_reads: 8 * (2 + 3) * (3 + 2 * 7 + 1),
    },
    Row {
        graph: LOOPS,
        pattern: "p pair hom\nv 0\nv 1\ne 0 1 r\ne 1 1 r\ne 1 0 r",
        edges: &[5, 2, 5],
        vertices: &[3, 3],
        most_reads: 8 * (2 + 3) * (3 + 2 * 7 + 1),
    },
    // A vertex with one of two labels does not fit.
    Row {
        graph: "v 1 A\nv 2 A B\nv 3\ne 1 3 r\ne 2 3 r\ne 3 1 r",
        pattern: "p pair hom\nv 0 A B\nv 1\ne 0 1 r\ne 1 1 r\ne 1 0 r",
        edges: &[1, 0, 0],
        vertices: &[1, 3],
        most_reads: 8 * (2 + 3) * (3 + 2 * 3 + 1),
    },
    // Nothing fits in the empty graph.
    Row {
        graph: "",
        pattern: LABELLED_CHAIN,
        edges: &[0, 0],
        vertices: &[0, 0, 0],
        most_reads: 0,
    },
];

/// Whether the cards of a row are as they should be.
fn is_right(alloc: Global, row: &Row) -> Result<bool, Unmade> {
    let graph = graph_of(alloc, row.graph)?;
    let patterns = patterns_of(alloc, row.pattern)?;
    let mut steps = Steps::new(Tally::new());
    let counted = cards(alloc, &graph, first(&patterns)?, &mut steps)?;
    let reads = steps.ledger().read();
    Ok(
        counted.edges() == row.edges
            && counted.vertices() == row.vertices
            && reads <= row.most_reads,
    )
}

/// How many rows, from the first on, are as they should be.
fn count_right(alloc: Global, rows: &[Row]) -> Result<usize, Unmade> {
    for i in 0..rows.len() {
        if !is_right(alloc, &rows[i])? {
            return Ok(i);
        }
    }
    Ok(rows.len())
}

#[test]
fn cards_of_patterns(rt: HostRuntime) -> Result<(), Fail> {
    assert_eq!(rt; count_right(rt.alloc(), &ROWS)?, ROWS.len());
    Ok(())
}
