//! Blocks are gathered in a report, which is put when it is long, and before the next read.
ghost use Rattle.std.specs.Prelude.{◌≡◌, ◌≤◌, ◌<◌, ◌+◌, ◌^◌, ◌++◌, [], false, length, OnOk, OnErr, IfErr};
ghost use Rattle.std.specs.Io.KnownBytes.{Appends};
ghost use Rattle.flux_outside.specs.Reads.{NoEmptyPut};
ghost use Rattle.flux_outside.specs.Told.{AppendsFront};
ghost use Rattle.flux_model.specs.LentLine.{seen_line};
ghost use Rattle.flux_model.specs.Reading.{update_reading};
ghost use Rattle.watch_core.specs.Session.{after_said, after_all, next_block, next_blocks, said_by, last_text, end_text};
ghost use Rattle.watch_core.specs.SessionStates.{watched};
ghost use Rattle.stream_lines.specs.Lent.{one_line};
ghost use Rattle.watch_cli.specs.ReportProgress.{Wrote};
ghost use Rattle.watch_cli.specs.EarlyEnds.{WriteEnds};
ghost use Rattle.watch_cli.specs.RunCosts.{next_cost, next_costs};

use crate::status::Status;
use flux_model::{Ledger, Line, Steps};
use flux_outside::Sink;
use graph_traits::{KeepGraph, ReadGraph};
use stream_lines::Lines;
use watch_core::Session;

/// How long a report may grow before it is put.
pub const LONG: usize = 65536;

/// Puts the report, if there is one, and begins a new one.
pub fn put_report<W: Sink>(report: &mut Vec<u8>, out: &mut W) -> Result<(), Status>
    ensures ok { OnOk result (Appends (W.taken out.old) (W.taken out.new) report.old.items) }
    ensures empty { OnOk result (report.new.items ≡ []) }
    ensures err { OnErr result (AppendsFront (W.taken out.old) (W.taken out.new) report.old.items) }
    ensures later { W.faults out.old ≤ W.faults out.new }
    ensures status { IfErr result (WriteEnds (W.faults out.old) (W.faults out.new)) }
    ensures puts { NoEmptyPut (W.puts out.old) (W.puts out.new) }
{
    if report.is_empty() {
        return Ok(());
    }
    match out.put(report.as_slice()) {
        Ok(()) => {
            report.clear();
            Ok(())
        }
        Err(_) => Err(Status::WriteFault),
    }
}

/// Takes a line, and adds its block to the report. Where memory is refused, what was gathered is put first.
pub fn report_line<G: KeepGraph + ReadGraph<L>, W: Sink, L: Ledger>(
    session: &mut Session<G>,
    line: &Line<'_>,
    report: &mut Vec<u8>,
    out: &mut W,
    steps: &mut Steps<L>,
) -> Result<(), Status>
    requires whole { session.old.is_broken ≡ false }
    requires few { session.old.lines < 2 ^ 60 }
    ensures after { OnOk result (watched session.new ≡ after_said (watched session.old) (update_reading (seen_line line.now))) }
    ensures trees { OnOk result (session.new.registry.trees ≡ session.old.registry.trees) }
    ensures steps { let said = update_reading (seen_line line.now) in
        OnOk result (steps.new ≤ steps.old + next_cost (watched session.old) session.old.registry.trees said) }
    ensures whole { OnOk result (session.new.is_broken ≡ false) }
    ensures ok { OnOk result (Wrote (W.taken out.old) (W.taken out.new) report.old.items report.new.items
        (next_block (watched session.old) (update_reading (seen_line line.now)))) }
    ensures err { OnErr result (AppendsFront (W.taken out.old) (W.taken out.new)
        (report.old.items ++ next_block (watched session.old) (update_reading (seen_line line.now)))) }
    ensures later { W.faults out.old ≤ W.faults out.new }
    ensures status { IfErr result (WriteEnds (W.faults out.old) (W.faults out.new)) }
    ensures puts { NoEmptyPut (W.puts out.old) (W.puts out.new) }
{
    let Ok(()) = session.line(line, report, steps) else {
        let _ = put_report(report, out);
        return Err(Status::Memory);
    };
    if report.len() < LONG {
        return Ok(());
    }
    put_report(report, out)
}

/// Takes every line that waits, and puts the blocks.
pub fn report_waiting<G: KeepGraph + ReadGraph<L>, W: Sink, L: Ledger>(
    session: &mut Session<G>,
    lines: &mut Lines,
    report: &mut Vec<u8>,
    out: &mut W,
    steps: &mut Steps<L>,
) -> Result<(), Status>
    requires whole { session.old.is_broken ≡ false }
    requires fits { session.old.lines + length lines.old.queue ≤ 2 ^ 60 }
    requires empty { report.old.items ≡ [] }
    ensures after { OnOk result (watched session.new ≡ after_all (watched session.old) (said_by lines.old.queue)) }
    ensures trees { OnOk result (session.new.registry.trees ≡ session.old.registry.trees) }
    ensures steps { let saids = said_by lines.old.queue in
        OnOk result (steps.new ≤ steps.old + next_costs (watched session.old) session.old.registry.trees saids) }
    ensures whole { OnOk result (session.new.is_broken ≡ false) }
    ensures ok { let text = next_blocks (watched session.old) (said_by lines.old.queue) in
        OnOk result (Appends (W.taken out.old) (W.taken out.new) text) }
    ensures empty { OnOk result (report.new.items ≡ []) }
    ensures waiting { OnOk result (lines.new ≡ record lines.old { queue = [] }) }
    ensures err { let text = next_blocks (watched session.old) (said_by lines.old.queue) in
        OnErr result (AppendsFront (W.taken out.old) (W.taken out.new) text) }
    ensures later { W.faults out.old ≤ W.faults out.new }
    ensures status { IfErr result (WriteEnds (W.faults out.old) (W.faults out.new)) }
    ensures puts { NoEmptyPut (W.puts out.old) (W.puts out.new) }
{
    while let Some(line) = lines.first() {
        report_line(session, &line, report, out, steps)?;
        lines.pass();
    }
    put_report(report, out)
}

/// Takes the last line, if there is one, and puts its block and the end line.
pub fn report_end<G: KeepGraph + ReadGraph<L>, W: Sink, L: Ledger>(
    session: &mut Session<G>,
    last: Option<Line<'_>>,
    report: &mut Vec<u8>,
    out: &mut W,
    steps: &mut Steps<L>,
) -> Result<(), Status>
    requires whole { session.old.is_broken ≡ false }
    requires fits { session.old.lines < 2 ^ 60 }
    requires empty { report.old.items ≡ [] }
    ensures after { OnOk result (watched session.new ≡ after_all (watched session.old) (said_by (one_line last.entry))) }
    ensures steps { let saids = said_by (one_line last.entry) in
        OnOk result (steps.new ≤ steps.old + next_costs (watched session.old) session.old.registry.trees saids) }
    ensures whole { OnOk result (session.new.is_broken ≡ false) }
    ensures ok { let text = last_text (watched session.old) (said_by (one_line last.entry)) in
        OnOk result (Appends (W.taken out.old) (W.taken out.new) text) }
    ensures err { let text = last_text (watched session.old) (said_by (one_line last.entry)) in
        OnErr result (AppendsFront (W.taken out.old) (W.taken out.new) text) }
    ensures later { W.faults out.old ≤ W.faults out.new }
    ensures status { IfErr result (WriteEnds (W.faults out.old) (W.faults out.new)) }
    ensures puts { NoEmptyPut (W.puts out.old) (W.puts out.new) }
{
    match last {
        None => end_report(session, report, out),
        Some(line) => {
            report_line(session, &line, report, out, steps)?;
            end_report(session, report, out)
        }
    }
}

/// Puts the report with the end line behind it. Where memory is refused, what was gathered is put first.
fn end_report<G: KeepGraph, W: Sink>(
    session: &Session<G>,
    report: &mut Vec<u8>,
    out: &mut W,
) -> Result<(), Status>
    ensures ok { OnOk result (Appends (W.taken out.old) (W.taken out.new) (report.old.items ++ end_text (watched session.now))) }
    ensures err { OnErr result (AppendsFront (W.taken out.old) (W.taken out.new) (report.old.items ++ end_text (watched session.now))) }
    ensures later { W.faults out.old ≤ W.faults out.new }
    ensures status { IfErr result (WriteEnds (W.faults out.old) (W.faults out.new)) }
    ensures puts { NoEmptyPut (W.puts out.old) (W.puts out.new) }
{
    let Ok(()) = session.end(report) else {
        let _ = put_report(report, out);
        return Err(Status::Memory);
    };
    put_report(report, out)
}
