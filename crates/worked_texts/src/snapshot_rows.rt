//! Graphs, and their one text.
use flux_model::{Silent, Steps};
use graph_traits::ReadGraph;
use snapshot_text::write_graph;
use std::alloc::{AllocError, Global};
use std::test::Fail;
use worked_parts::{Unmade, block_graph_of, graph_of};

/// A graph file, the bytes that stand before its text, and both together.
type Row = (&'static str, &'static str, &'static str);

const ROWS: [Row; 3] = [
    // Vertices and edges are put in order.
    (
        "v 2 B A\nv 1\ne 2 1 s\ne 2 1 r",
        "old\n",
        "old\nv 1\nv 2 A B\ne 2 1 r\ne 2 1 s\n",
    ),
    // The empty graph has no text.
    ("", "", ""),
    // A loop is written once.
    ("v 10\nv 9\ne 10 10 r", "", "v 9\nv 10\ne 10 10 r\n"),
];

/// Whether the text of the graph behind the bytes of a row is as it should be.
fn is_text<G: ReadGraph<Silent>>(alloc: Global, graph: &G, row: &Row) -> Result<bool, AllocError> {
    let (_, before, text) = *row;
    let mut out = Vec::from_slice(alloc, before.as_bytes())?;
    write_graph(alloc, graph, &mut out, &mut Steps::new(Silent))?;
    Ok(*out.as_slice() == *text.as_bytes())
}

/// Whether it is so over the store of hashed triples.
fn is_right_in_labels(alloc: Global, row: &Row) -> Result<bool, Unmade> {
    let graph = graph_of(alloc, row.0)?;
    Ok(is_text(alloc, &graph, row)?)
}

/// Whether it is so over the store of blocks.
fn is_right_in_blocks(alloc: Global, row: &Row) -> Result<bool, Unmade> {
    let graph = block_graph_of(alloc, row.0)?;
    Ok(is_text(alloc, &graph, row)?)
}

/// How many graphs, from the first on, are written as they should be.
fn count_right(alloc: Global, rows: &[Row]) -> Result<usize, Unmade> {
    for i in 0..rows.len() {
        if !is_right_in_labels(alloc, &rows[i])? || !is_right_in_blocks(alloc, &rows[i])? {
            return Ok(i);
        }
    }
    Ok(rows.len())
}

#[test]
fn texts_of_graphs(rt: HostRuntime) -> Result<(), Fail> {
    assert_eq!(rt; count_right(rt.alloc(), &ROWS)?, ROWS.len());
    Ok(())
}
