//! The updates, read piece by piece.
ghost use Rattle.std.specs.Prelude.{◌≡◌, ◌≤◌, ◌+◌, false, ⊤, OnOk, OnErr, IfErr};
ghost use Rattle.std.specs.Io.KnownBytes.{IsAtEnd};
ghost use Rattle.flux_outside.specs.Causes.{Rose};
ghost use Rattle.flux_outside.specs.Reads.{AskedOfInput, SourceReads, NoEmptyPut};
ghost use Rattle.flux_model.specs.Limits.{IsFair};
ghost use Rattle.flux_model.specs.Lines.{lines};
ghost use Rattle.flux_model.specs.Verdict.{Watched, Done, ending_with, written_before};
ghost use Rattle.file_reading.specs.AskedOfFile.{WentOn};
ghost use Rattle.watch_cli.specs.AskedByRun.{EndsAtReadFault, EndsAtFile};
ghost use Rattle.watch_cli.specs.RunEnds.{KnownOrSome, EndsAs, EndsBefore, EndsAtFault, StatusWhere};
ghost use Rattle.watch_cli.specs.Kept.{after_bytes};
ghost use Rattle.watch_cli.specs.EarlyEnds.{IsEarly};
ghost use Rattle.watch_cli.specs.RunCosts.{next_costs};
ghost use Rattle.watch_core.specs.Session.{first_state, said_by};
ghost use Rattle.watch_core.specs.SessionStates.{watched};

use crate::report::{report_end, report_waiting};
use crate::status::Status;
use file_reading::{ask_for, make_buffer};
use flux_model::{Ledger, Limits, Steps};
use flux_outside::{Sink, Source};
use graph_traits::{KeepGraph, ReadGraph};
use std::alloc::Global;
use stream_lines::Lines;
use watch_core::Session;

/// Takes every line of the updates, and puts its block before the next read, and at last the end line.
pub fn follow<G: KeepGraph + ReadGraph<L>, S: Source, W: Sink, L: Ledger>(
    alloc: Global,
    limits: &Limits,
    session: &mut Session<G>,
    updates: &mut S,
    out: &mut W,
    steps: &mut Steps<L>,
) -> Result<(), Status>
    requires fair { IsFair limits.now }
    requires whole { session.old.is_broken ≡ false }
    requires first { watched session.old ≡ first_state limits.now session.old.graph session.old.registry.patterns }
    ensures end { OnOk result (IsAtEnd (S.left updates.new)) }
    ensures after { OnOk result (KnownOrSome (S.left updates.old)
        (λ s. watched session.new ≡ after_bytes limits.now (watched session.old) s)) }
    ensures whole { OnOk result (session.new.is_broken ≡ false) }
    ensures steps { let costs = next_costs (watched session.old) session.old.registry.trees in
        OnOk result (KnownOrSome (S.left updates.old) (λ s. steps.new ≤ steps.old + costs (said_by (lines limits.now.line_bytes s)))) }
    ensures ok { OnOk result (EndsAs (S.left updates.old)
        (λ s. ending_with limits.now s (Watched session.old.graph session.old.registry.patterns))
        (W.taken out.old) (W.taken out.new) Done) }
    ensures front { OnErr result (EndsBefore (S.left updates.old)
        (λ s. ending_with limits.now s (Watched session.old.graph session.old.registry.patterns)) (W.taken out.old) (W.taken out.new)) }
    ensures status { IfErr result (StatusWhere
        (EndsAs (S.left updates.old)
        (λ s. ending_with limits.now s (Watched session.old.graph session.old.registry.patterns)) (W.taken out.old) (W.taken out.new))
        (Rose (S.faults updates.old) (S.faults updates.new) × EndsAtFault (S.left updates.old) (S.left updates.new)
        (written_before limits.now (Watched session.old.graph session.old.registry.patterns)) (W.taken out.old) (W.taken out.new))
        (Rose (W.faults out.old) (W.faults out.new))) }
    ensures early { IfErr result IsEarly }
    ensures asked { AskedOfInput limits.now.input_bytes (EndsAtReadFault result) (WentOn result) (λ _. ⊤)
        (SourceReads (S.reads updates.old) (S.reads updates.new)) }
    ensures no_file { ¬ EndsAtFile result }
    ensures puts { NoEmptyPut (W.puts out.old) (W.puts out.new) }
{
    let mut lines = Lines::new(alloc, limits.line_bytes);
    let mut report = Vec::new(alloc);
    let Ok(mut buffer) = make_buffer(alloc) else {
        return Err(Status::Memory);
    };
    let mut given = 0;
    loop {
        let room = limits.input_bytes - given;
        let window = &mut buffer[..ask_for(room)];
        let Ok(count) = updates.read(window) else {
            return Err(Status::ReadFault);
        };
        if count == 0 {
            break;
        }
        if count as u64 > room {
            return Err(Status::TooMuch);
        }
        given += count as u64;
        let Ok(()) = lines.push(&window[..count]) else {
            return Err(Status::Memory);
        };
        report_waiting(session, &mut lines, &mut report, out, steps)?;
    }
    report_end(session, lines.last(), &mut report, out, steps)
}
