//! `demo`: the files of a number are made and watched, and the summary is put.
ghost use Rattle.std.specs.Prelude.{◌≡◌, List, ℕ, Option, Some, OnOk, IfErr};
ghost use Rattle.flux_outside.specs.Causes.{Rose};
ghost use Rattle.flux_outside.specs.Reads.{NoEmptyPut};
ghost use Rattle.flux_outside.specs.Told.{Files};
ghost use Rattle.flux_model.specs.Graph.{empty_graph};
ghost use Rattle.flux_model.specs.Limits.{standard};
ghost use Rattle.flux_model.specs.Verdict.{Demo, Done};
ghost use Rattle.flux_model.specs.declared.limits.Limits.{Limits};
ghost use Rattle.watch_cli.specs.AskedByRun.{EndsAtReadFault};
ghost use Rattle.watch_cli.specs.RunEnds.{RunEndsAs, RunEndsBefore};
ghost use Rattle.watch_cli.specs.EarlyEnds.{IsEarly, WriteEnds};

use crate::report::put_report;
use crate::status::Status;
use flux_demo::demonstrate;
use flux_model::{Ledger, Steps};
use flux_outside::Sink;
use graph_traits::{KeepGraph, ReadGraph};
use std::alloc::Global;

/// Makes the files of the number, watches the updates over them in an empty store, and puts the summary. It reads no file and no
/// updates, so it ends the same whatever the outside holds, and under the standard limits whatever the limits of the run are.
pub fn show_demo<G: KeepGraph + ReadGraph<L>, W: Sink, L: Ledger>(
    alloc: Global,
    number: u64,
    empty: G,
    out: &mut W,
    steps: &mut Steps<L>,
) -> Result<(), Status>
    requires limits { G.limits empty ≡ standard }
    requires empty { G.graph empty ≡ empty_graph }
    ensures ok { (limits : Limits) (files : Option Files) (left : Option (List ℕ)) → OnOk result (
        RunEndsAs limits files (Some (Demo number)) left (W.taken out.old) (W.taken out.new) Done) }
    ensures front { (limits : Limits) (files : Option Files) (left : Option (List ℕ)) →
        RunEndsBefore limits files (Some (Demo number)) left (W.taken out.old) (W.taken out.new) }
    ensures status { IfErr result (WriteEnds (W.faults out.old) (W.faults out.new)) }
    ensures early { IfErr result IsEarly }
    ensures no_read { ¬ EndsAtReadFault result }
    ensures puts { NoEmptyPut (W.puts out.old) (W.puts out.new) }
{
    let Ok(mut text) = demonstrate(alloc, number, empty, steps) else {
        return Err(Status::Memory);
    };
    put_report(&mut text, out)
}
