//! `save`: the graph file is read into a store, and the text of its graph is put.
ghost use Rattle.std.specs.Prelude.{◌≡◌, ◌≤◌, Some, List, ℕ, Option, OnOk, OnErr, IfErr};
ghost use Rattle.std.specs.Io.KnownBytes.{Appends};
ghost use Rattle.flux_outside.specs.Causes.{Rose};
ghost use Rattle.flux_outside.specs.Reads.{Read, NoEmptyPut};
ghost use Rattle.flux_outside.specs.Told.{AppendsFront};
ghost use Rattle.flux_model.specs.Graph.{empty_graph};
ghost use Rattle.flux_model.specs.GraphText.{graph_text};
ghost use Rattle.flux_model.specs.Limits.{IsFair};
ghost use Rattle.flux_model.specs.Verdict.{Save, Done};
ghost use Rattle.watch_cli.specs.AskedByRun.{EndsAtReadFault, AskedByRun};
ghost use Rattle.watch_cli.specs.RunEnds.{RunEndsAs, RunEndsBefore, ReadFails, StatusWhere};
ghost use Rattle.watch_cli.specs.EarlyEnds.{IsEarly, WriteEnds};

use crate::report::put_report;
use crate::status::{InputFile, Status};
use file_reading::read_store;
use flux_model::{Ledger, Limits, Steps};
use flux_outside::{Shelf, Sink};
use graph_traits::{KeepGraph, ReadGraph};
use snapshot_text::write_graph;
use std::alloc::Global;

/// Reads the graph file of this name into an empty store, and puts the text of its graph. It reads no updates, whatever is left of them.
pub fn save_graph<F: Shelf, G: KeepGraph + ReadGraph<L>, W: Sink, L: Ledger>(
    alloc: Global,
    limits: &Limits,
    name: &str,
    empty: G,
    shelf: &mut F,
    out: &mut W,
    steps: &mut Steps<L>,
) -> Result<(), Status>
    requires fair { IsFair limits.now }
    requires limits { G.limits empty ≡ limits.now }
    requires empty { G.graph empty ≡ empty_graph }
    ensures ok { (left : Option (List ℕ)) → OnOk result (RunEndsAs limits.now (F.files shelf.old) (Some (Save name.now))
        left (W.taken out.old) (W.taken out.new) Done) }
    ensures front { (left : Option (List ℕ)) → RunEndsBefore limits.now (F.files shelf.old) (Some (Save name.now))
        left (W.taken out.old) (W.taken out.new) }
    ensures status { (left : Option (List ℕ)) (read : ℕ) → IfErr result (StatusWhere
        (RunEndsAs limits.now (F.files shelf.old) (Some (Save name.now)) left (W.taken out.old) (W.taken out.new))
        (ReadFails limits.now (F.files shelf.old) (Some (Save name.now))
        (F.faults shelf.old) (F.faults shelf.new) read read left left (W.taken out.old) (W.taken out.new))
        (Rose (W.faults out.old) (W.faults out.new))) }
    ensures early { IfErr result IsEarly }
    ensures asked { (updates : List Read) → AskedByRun limits.now (F.files shelf.old) (Save name.now) (EndsAtReadFault result)
        (F.reads shelf.old) (F.reads shelf.new) updates updates }
    ensures puts { NoEmptyPut (W.puts out.old) (W.puts out.new) }
{
    let graph = match read_store(alloc, limits, shelf, name, empty) {
        Ok(graph) => graph,
        Err(stop) => return Err(Status::of(InputFile::Graph, stop)),
    };
    put_graph(alloc, &graph, out, steps)
}

/// Puts the text of a graph, which is made whole before.
fn put_graph<G: ReadGraph<L>, W: Sink, L: Ledger>(
    alloc: Global,
    graph: &G,
    out: &mut W,
    steps: &mut Steps<L>,
) -> Result<(), Status>
    ensures ok { OnOk result (Appends (W.taken out.old) (W.taken out.new) (graph_text (G.graph graph.now))) }
    ensures err { OnErr result (AppendsFront (W.taken out.old) (W.taken out.new) (graph_text (G.graph graph.now))) }
    ensures later { W.faults out.old ≤ W.faults out.new }
    ensures status { IfErr result (WriteEnds (W.faults out.old) (W.faults out.new)) }
    ensures puts { NoEmptyPut (W.puts out.old) (W.puts out.new) }
{
    let mut text = Vec::new(alloc);
    let Ok(()) = write_graph(alloc, graph, &mut text, steps) else {
        return Err(Status::Memory);
    };
    put_report(&mut text, out)
}
