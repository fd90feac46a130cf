//! The edges that begin at one vertex.
ghost use Rattle.std.specs.Prelude.{◌≡◌, ◌++◌, map, flat_map, IsTrue, OnOk, OnErr};
ghost use Rattle.flux_model.specs.Grown.{GrewByFront};
ghost use Rattle.flux_model.specs.Graph.{IsGraph, has_vertex};
ghost use Rattle.flux_model.specs.GraphText.{triple_line};
ghost use Rattle.graph_traits.specs.Rows.{triples_from};
ghost use Rattle.snapshot_text.specs.Row.{edge_triple};

use flux_model::{Ledger, Steps, Text};
use graph_rows::{Direction, WholeRow};
use graph_traits::ReadGraph;
use line_words::{end_line, start_line, write_number, write_word};
use std::alloc::AllocError;

/// An edge of a vertex's row: its label and its other end, by which a row is ordered.
#[derive(Clone, Copy, PartialEq, Eq, PartialOrd, Ord)]
pub(crate) struct RowEdge<'a> {
    label: &'a Text,
    other: u32,
}

/// Writes a line for each edge that begins at the vertex `id`, in ascending order. What was in `row` is dropped.
pub(crate) fn write_row<'a, G: ReadGraph<L>, L: Ledger>(
    graph: &'a G,
    id: u32,
    row: &mut Vec<RowEdge<'a>>,
    out: &mut Vec<u8>,
    steps: &mut Steps<L>,
) -> Result<(), AllocError>
    requires graph { IsGraph (G.graph graph.now) }
    requires stands { IsTrue (has_vertex (G.graph graph.now) id) }
    ensures ok { OnOk result (out.new.items ≡ out.old.items ++ flat_map triple_line (triples_from (G.graph graph.now) id)) }
    ensures err { OnErr result (GrewByFront out.old.items out.new.items (flat_map triple_line (triples_from (G.graph graph.now) id))) }
{
    read_row(graph, id, row, steps)?;
    write_edges(id, row.as_slice(), out)
}

/// Puts the edges that begin at the vertex `id` into `row`, in ascending order.
fn read_row<'a, G: ReadGraph<L>, L: Ledger>(
    graph: &'a G,
    id: u32,
    row: &mut Vec<RowEdge<'a>>,
    steps: &mut Steps<L>,
) -> Result<(), AllocError>
    requires graph { IsGraph (G.graph graph.now) }
    requires stands { IsTrue (has_vertex (G.graph graph.now) id) }
    ensures { OnOk result (map (edge_triple id) row.new.items ≡ triples_from (G.graph graph.now) id) }
{
    row.clear();
    let outs = WholeRow {
        vertex: id,
        direction: Direction::Out,
    };
    let mut at = outs.first(graph);
    while let Some(turn) = outs.next(graph, at, steps) {
        row.push(RowEdge {
            label: turn.label,
            other: turn.other,
        })?;
        at = turn.next;
    }
    row.sort_unstable();
    Ok(())
}

/// Writes a line for each edge, in the order in which they stand.
fn write_edges(src: u32, edges: &[RowEdge<'_>], out: &mut Vec<u8>) -> Result<(), AllocError>
    ensures ok { OnOk result (out.new.items ≡ out.old.items ++ flat_map triple_line (map (edge_triple src) edges.now)) }
    ensures err { OnErr result (GrewByFront out.old.items out.new.items (flat_map triple_line (map (edge_triple src) edges.now))) }
{
    for edge in edges {
        write_edge(src, edge, out)?;
    }
    Ok(())
}

/// Writes the line of an edge.
fn write_edge(src: u32, edge: &RowEdge<'_>, out: &mut Vec<u8>) -> Result<(), AllocError>
    ensures ok { OnOk result (out.new.items ≡ out.old.items ++ triple_line (edge_triple src edge.now)) }
    ensures err { OnErr result (GrewByFront out.old.items out.new.items (triple_line (edge_triple src edge.now))) }
{
    start_line(b'e', u64::from(src), out)?;
    write_number(u64::from(edge.other), out)?;
    write_word(edge.label.bytes(), out)?;
    end_line(out)
}
