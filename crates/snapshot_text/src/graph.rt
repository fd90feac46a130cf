//! The text of a graph.
ghost use Rattle.std.specs.Prelude.{◌≡◌, ◌++◌, flat_map, IfOk, OnOk, OnErr};
ghost use Rattle.flux_model.specs.Grown.{GrewByFront};
ghost use Rattle.flux_model.specs.Graph.{IsGraph, ids as graph_ids};
ghost use Rattle.flux_model.specs.GraphText.{vertex_line, triple_line, graph_text};
ghost use Rattle.line_words.specs.Words.{spaced};

use crate::row::write_row;
use flux_model::{Labels, Ledger, Steps};
use graph_traits::ReadGraph;
use line_words::{end_line, start_line, write_word};
use std::alloc::{AllocError, Global};

/// Writes the text of a graph: a line `v ID LABEL..` for each vertex, ascending by id, and then a line `e SRC DST LABEL` for
/// each edge, ascending by source, label and target. The labels of a vertex stand in ascending order.
///
/// At `AllocError` the text has grown by a front part of what was to be written.
pub fn write_graph<G: ReadGraph<L>, L: Ledger>(
    alloc: Global,
    graph: &G,
    out: &mut Vec<u8>,
    steps: &mut Steps<L>,
) -> Result<(), AllocError>
    ensures ok { OnOk result (out.new.items ≡ out.old.items ++ graph_text (G.graph graph.now)) }
    ensures err { OnErr result (GrewByFront out.old.items out.new.items (graph_text (G.graph graph.now))) }
{
    let ids = sorted_ids(alloc, graph, steps)?;
    write_vertices(graph, ids.as_slice(), out, steps)?;
    write_triples(alloc, graph, ids.as_slice(), out, steps)
}

/// The ids of the vertices, in ascending order.
fn sorted_ids<G: ReadGraph<L>, L: Ledger>(
    alloc: Global,
    graph: &G,
    steps: &mut Steps<L>,
) -> Result<Vec<u32>, AllocError>
    ensures ids { IfOk result (λ ids. ids.items ≡ graph_ids (G.graph graph.now)) }
    ensures graph { IsGraph (G.graph graph.now) }
{
    let count = graph.vertex_count();
    let mut ids = Vec::new(alloc);
    for i in 0..count {
        ids.push(graph.vertex_at(i, steps))?;
    }
    ids.sort_unstable();
    Ok(ids)
}

/// Writes a line for each vertex. The ids have to be those of the graph, in ascending order.
fn write_vertices<G: ReadGraph<L>, L: Ledger>(
    graph: &G,
    ids: &[u32],
    out: &mut Vec<u8>,
    steps: &mut Steps<L>,
) -> Result<(), AllocError>
    requires graph { IsGraph (G.graph graph.now) }
    requires ids { ids.now ≡ graph_ids (G.graph graph.now) }
    ensures ok { OnOk result (out.new.items ≡ out.old.items ++ flat_map vertex_line (G.graph graph.now).vertices) }
    ensures err { OnErr result (GrewByFront out.old.items out.new.items (flat_map vertex_line (G.graph graph.now).vertices)) }
{
    for id in ids {
        write_vertex(*id, graph.labels_of(*id, steps), out)?;
    }
    Ok(())
}

/// Writes the line of a vertex.
fn write_vertex(id: u32, labels: &Labels, out: &mut Vec<u8>) -> Result<(), AllocError>
    ensures ok { OnOk result (out.new.items ≡ out.old.items ++ vertex_line (record { id = id; labels = labels.now })) }
    ensures err { OnErr result (GrewByFront out.old.items out.new.items (vertex_line (record { id = id; labels = labels.now }))) }
{
    start_line(b'v', u64::from(id), out)?;
    write_labels(labels, out)?;
    end_line(out)
}

/// Writes each label with a space before it.
fn write_labels(labels: &Labels, out: &mut Vec<u8>) -> Result<(), AllocError>
    ensures ok { OnOk result (out.new.items ≡ out.old.items ++ flat_map spaced labels.now) }
    ensures err { OnErr result (GrewByFront out.old.items out.new.items (flat_map spaced labels.now)) }
{
    for i in 0..labels.len() {
        write_word(labels.get(i).bytes(), out)?;
    }
    Ok(())
}

/// Writes a line for each edge. The ids have to be those of the graph, in ascending order.
fn write_triples<G: ReadGraph<L>, L: Ledger>(
    alloc: Global,
    graph: &G,
    ids: &[u32],
    out: &mut Vec<u8>,
    steps: &mut Steps<L>,
) -> Result<(), AllocError>
    requires graph { IsGraph (G.graph graph.now) }
    requires ids { ids.now ≡ graph_ids (G.graph graph.now) }
    ensures ok { OnOk result (out.new.items ≡ out.old.items ++ flat_map triple_line (G.graph graph.now).triples) }
    ensures err { OnErr result (GrewByFront out.old.items out.new.items (flat_map triple_line (G.graph graph.now).triples)) }
{
    let mut row = Vec::new(alloc);
    for id in ids {
        write_row(graph, *id, &mut row, out, steps)?;
    }
    Ok(())
}
