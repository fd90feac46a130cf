//! `watch`: both files are read, and then the updates are dealt with.
ghost use Rattle.std.specs.Prelude.{◌≡◌, ◌⊎◌, IsOk, Some, IfOk, OnOk, IfErr, IfSome};
ghost use Rattle.std.specs.Io.KnownBytes.{IsAtEnd};
ghost use Rattle.flux_outside.specs.Causes.{Rose};
ghost use Rattle.flux_outside.specs.Reads.{NoEmptyPut};
ghost use Rattle.flux_model.specs.Graph.{empty_graph};
ghost use Rattle.flux_model.specs.Limits.{IsFair};
ghost use Rattle.flux_model.specs.Verdict.{Watch, Done, accepted};
ghost use Rattle.watch_cli.specs.AskedByRun.{EndsAtReadFault, EndsAtFile, AskedByRun};
ghost use Rattle.watch_cli.specs.RunEnds.{RunEndsAs, RunEndsBefore, ReadFails, StatusWhere};
ghost use Rattle.watch_cli.specs.EarlyEnds.{IsEarly};
ghost use Rattle.watch_cli.specs.Kept.{IsSessionOf};
ghost use Rattle.watch_cli.specs.RunCosts.{RunStaysWithin};

use crate::status::{InputFile, Status};
use crate::updates::follow;
use file_reading::{read_patterns, read_store};
use flux_model::{Ledger, Limits, Steps};
use flux_outside::{Shelf, Sink, Source};
use graph_traits::{KeepGraph, ReadGraph};
use std::alloc::Global;
use watch_core::Session;

/// Reads the graph file into an empty store, and the pattern file, and then deals with the updates. It hands back the session.
pub fn watch_updates<F: Shelf, G: KeepGraph + ReadGraph<L>, S: Source, W: Sink, L: Ledger>(
    alloc: Global,
    limits: &Limits,
    graph_name: &str,
    patterns_name: &str,
    empty: G,
    shelf: &mut F,
    updates: &mut S,
    out: &mut W,
    steps: &mut Steps<L>,
) -> Result<Session<G>, Status>
    requires fair { IsFair limits.now }
    requires limits { G.limits empty ≡ limits.now }
    requires empty { G.graph empty ≡ empty_graph }
    ensures end { OnOk result (IsAtEnd (S.left updates.new)) }
    ensures kept { IfOk result (λ session. IsSessionOf limits.now (F.files shelf.old)
        (Some (Watch graph_name.now patterns_name.now)) (S.left updates.old) session) }
    ensures steps { OnOk result (RunStaysWithin limits.now (F.files shelf.old) (Some (Watch graph_name.now patterns_name.now))
        (S.left updates.old) steps.old steps.new) }
    ensures ok { OnOk result (RunEndsAs limits.now (F.files shelf.old) (Some (Watch graph_name.now patterns_name.now))
        (S.left updates.old) (W.taken out.old) (W.taken out.new) Done) }
    ensures front { RunEndsBefore limits.now (F.files shelf.old) (Some (Watch graph_name.now patterns_name.now))
        (S.left updates.old) (W.taken out.old) (W.taken out.new) }
    ensures status { IfErr result (StatusWhere
        (RunEndsAs limits.now (F.files shelf.old) (Some (Watch graph_name.now patterns_name.now))
        (S.left updates.old) (W.taken out.old) (W.taken out.new))
        (ReadFails limits.now (F.files shelf.old) (Some (Watch graph_name.now patterns_name.now))
        (F.faults shelf.old) (F.faults shelf.new) (S.faults updates.old) (S.faults updates.new)
        (S.left updates.old) (S.left updates.new) (W.taken out.old) (W.taken out.new))
        (Rose (W.faults out.old) (W.faults out.new))) }
    ensures early { IfErr result IsEarly }
    ensures asked { AskedByRun limits.now (F.files shelf.old) (Watch graph_name.now patterns_name.now) (EndsAtReadFault result)
        (F.reads shelf.old) (F.reads shelf.new) (S.reads updates.old) (S.reads updates.new) }
    ensures untouched { (updates.new ≡ updates.old) ⊎ (¬ EndsAtFile result
        × IfSome (F.files shelf.old) (λ m. IsOk (accepted limits.now m (Watch graph_name.now patterns_name.now)))) }
    ensures puts { NoEmptyPut (W.puts out.old) (W.puts out.new) }
{
    let graph = match read_store(alloc, limits, shelf, graph_name, empty) {
        Ok(graph) => graph,
        Err(stop) => return Err(Status::of(InputFile::Graph, stop)),
    };
    let patterns = match read_patterns(alloc, limits, shelf, patterns_name) {
        Ok(patterns) => patterns,
        Err(stop) => return Err(Status::of(InputFile::Patterns, stop)),
    };
    let Ok(mut session) = Session::start(alloc, graph, patterns, steps) else {
        return Err(Status::Memory);
    };
    follow(alloc, limits, &mut session, updates, out, steps)?;
    Ok(session)
}
