//! A line of a graph file goes into a store.
ghost use Rattle.std.specs.Prelude.{◌≡◌, ℕ, Ok, Err, IfOk, OnOk, IfErr};
ghost use Rattle.flux_model.specs.FileReading.{refused_at};
ghost use Rattle.flux_model.specs.Graph.{IsGraph, apply as after_update};
ghost use Rattle.flux_model.specs.GraphFile.{graph_after_line};
ghost use Rattle.flux_model.specs.Reading.{graph_reading};
ghost use Rattle.flux_model.specs.LentLine.{seen_line};
ghost use Rattle.graph_traits.specs.Changes.{IfNotMade};
ghost use Rattle.watch_core.specs.Repeated.{is_repeat};

use flux_model::{Code, Line, Said, Update};
use graph_traits::KeepGraph;
use line_grammar::read_graph_line;
use std::alloc::{AllocError, Global};

/// Takes a line of a graph file into a store. A line that says nothing, and an edge that stands already, change nothing.
///
/// A refusal changes nothing: it is that of the line, or the store's first refusal of what the line says. At `AllocError`
/// the graph is as before.
pub fn take_graph_line<G: KeepGraph>(
    alloc: Global,
    graph: &mut G,
    line: &Line<'_>,
) -> Result<Result<(), Code>, AllocError>
    ensures ok { IfOk result (λ taken. OnOk taken ((k : ℕ)
        → graph_after_line (G.limits graph.old) k (G.graph graph.old) (graph_reading (seen_line line.now)) ≡ Ok (G.graph graph.new))) }
    ensures refused { IfOk result (λ taken. IfErr taken (λ code. (k : ℕ)
        → graph_after_line (G.limits graph.old) k (G.graph graph.old) (graph_reading (seen_line line.now)) ≡ refused_at k code)) }
    ensures unchanged { IfNotMade result (G.graph graph.new ≡ G.graph graph.old) }
    ensures limits { G.limits graph.new ≡ G.limits graph.old }
{
    let update = match read_graph_line(alloc, line)? {
        Said::Nothing => return Ok(Ok(())),
        Said::Refused(code) => return Ok(Err(code)),
        Said::Says(update) => update,
    };
    match apply(graph, &update)? {
        Ok(()) => Ok(Ok(())),
        Err(code) if is_repeated(&update, code) => Ok(Ok(())),
        Err(code) => Ok(Err(code)),
    }
}

/// Makes the change of an update, or answers its first refusal.
fn apply<G: KeepGraph>(graph: &mut G, update: &Update) -> Result<Result<(), Code>, AllocError>
    ensures ok { IfOk result (λ answer. OnOk answer (
        after_update (G.limits graph.old) (G.graph graph.old) update.now ≡ Ok (G.graph graph.new))) }
    ensures refused { IfOk result (λ answer. IfErr answer (λ code.
        after_update (G.limits graph.old) (G.graph graph.old) update.now ≡ Err code)) }
    ensures unchanged { IfNotMade result (G.graph graph.new ≡ G.graph graph.old) }
    ensures limits { G.limits graph.new ≡ G.limits graph.old }
    ensures graph { IsGraph (G.graph graph.old) }
{
    // For the proof: what a store holds is a graph.
    let _count = graph.vertex_count();
    match update {
        Update::AddVertex { id, labels } => graph.add_vertex(*id, labels),
        Update::DropVertex { id } => Ok(graph.remove_vertex(*id)),
        Update::AddEdge(triple) => graph.insert(triple),
        Update::DropEdge(triple) => Ok(graph.remove(triple)),
    }
}

/// Whether the refusal is that of an edge that is there already, which a graph file may repeat.
fn is_repeated(update: &Update, code: Code) -> bool
    ensures { result ≡ is_repeat update.now code }
{
    match (update, code) {
        (Update::AddEdge(_), Code::Exists) => true,
        _ => false,
    }
}
