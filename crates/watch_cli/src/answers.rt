//! `match`: the graph file is read into a store, and the pattern file, and the embeddings are found and put, pattern by pattern.
ghost use Rattle.std.specs.Prelude.{◌≡◌, ◌≤◌, ◌<◌, ◌+◌, ◌++◌, Some, List, ℕ, Option, length, flat_map, slice_get};
ghost use Rattle.std.specs.Prelude.{IfOk, OnOk, OnErr, IfErr};
ghost use Rattle.std.specs.Io.KnownBytes.{Appends};
ghost use Rattle.flux_outside.specs.Causes.{Rose};
ghost use Rattle.flux_outside.specs.Reads.{Read, NoEmptyPut};
ghost use Rattle.flux_outside.specs.Told.{AppendsFront};
ghost use Rattle.flux_model.specs.Graph.{empty_graph};
ghost use Rattle.flux_model.specs.Limits.{IsFair};
ghost use Rattle.flux_model.specs.Embedding.{embeddings};
ghost use Rattle.flux_model.specs.Pattern.{PatternGraph};
ghost use Rattle.flux_model.specs.Report.{answer_lines, match_text};
ghost use Rattle.flux_model.specs.Verdict.{Match, Done};
ghost use Rattle.watch_cli.specs.AskedByRun.{EndsAtReadFault, AskedByRun};
ghost use Rattle.watch_cli.specs.RunEnds.{RunEndsAs, RunEndsBefore, ReadFails, StatusWhere};
ghost use Rattle.watch_cli.specs.EarlyEnds.{IsEarly, WriteEnds};
ghost use Rattle.watch_cli.specs.ReportProgress.{Wrote};
ghost use Rattle.watch_cli.specs.RunCosts.{starts_cost, RunStaysWithin};
ghost use Rattle.delta_report.specs.Answers.{answer_line, total_line};
ghost use Rattle.pattern_registry.specs.AnswerCosts.{AnswerStaysWithin, MeetNoDeadEnd, no_dead_end_costs};
ghost use Rattle.pattern_registry.specs.States.{trees_over, AreExact};

use crate::report::{LONG, put_report};
use crate::status::{InputFile, Status};
use delta_report::{write_answer, write_total};
use file_reading::{read_patterns, read_store};
use flux_model::{Ledger, Limits, Map, Maps, Patterns, Steps};
use flux_outside::{Shelf, Sink};
use graph_traits::{KeepGraph, ReadGraph};
use pattern_registry::Registry;
use std::alloc::{AllocError, Global};

/// Reads the graph file of this name into an empty store, and the pattern file, and puts all embeddings and how many these are. It
/// reads no updates, whatever is left of them.
pub fn list_answers<F: Shelf, G: KeepGraph + ReadGraph<L>, W: Sink, L: Ledger>(
    alloc: Global,
    limits: &Limits,
    graph_name: &str,
    patterns_name: &str,
    empty: G,
    shelf: &mut F,
    out: &mut W,
    steps: &mut Steps<L>,
) -> Result<(), Status>
    requires fair { IsFair limits.now }
    requires limits { G.limits empty ≡ limits.now }
    requires empty { G.graph empty ≡ empty_graph }
    ensures steps { (left : Option (List ℕ)) → OnOk result (
        RunStaysWithin limits.now (F.files shelf.old) (Some (Match graph_name.now patterns_name.now)) left steps.old steps.new) }
    ensures ok { (left : Option (List ℕ)) → OnOk result (
        RunEndsAs limits.now (F.files shelf.old) (Some (Match graph_name.now patterns_name.now))
        left (W.taken out.old) (W.taken out.new) Done) }
    ensures front { (left : Option (List ℕ)) → RunEndsBefore limits.now (F.files shelf.old) (Some (Match graph_name.now patterns_name.now))
        left (W.taken out.old) (W.taken out.new) }
    ensures status { (left : Option (List ℕ)) (read : ℕ) → IfErr result (StatusWhere
        (RunEndsAs limits.now (F.files shelf.old) (Some (Match graph_name.now patterns_name.now)) left (W.taken out.old) (W.taken out.new))
        (ReadFails limits.now (F.files shelf.old) (Some (Match graph_name.now patterns_name.now))
        (F.faults shelf.old) (F.faults shelf.new) read read left left (W.taken out.old) (W.taken out.new))
        (Rose (W.faults out.old) (W.faults out.new))) }
    ensures early { IfErr result IsEarly }
    ensures asked { (updates : List Read) → AskedByRun limits.now (F.files shelf.old) (Match graph_name.now patterns_name.now)
        (EndsAtReadFault result) (F.reads shelf.old) (F.reads shelf.new) updates updates }
    ensures puts { NoEmptyPut (W.puts out.old) (W.puts out.new) }
{
    let graph = match read_store(alloc, limits, shelf, graph_name, empty) {
        Ok(graph) => graph,
        Err(stop) => return Err(Status::of(InputFile::Graph, stop)),
    };
    let patterns = match read_patterns(alloc, limits, shelf, patterns_name) {
        Ok(patterns) => patterns,
        Err(stop) => return Err(Status::of(InputFile::Patterns, stop)),
    };
    put_answers(alloc, patterns, &graph, out, steps)
}

/// Puts all embeddings of the patterns, and how many these are.
fn put_answers<G: ReadGraph<L>, W: Sink, L: Ledger>(
    alloc: Global,
    patterns: Patterns,
    graph: &G,
    out: &mut W,
    steps: &mut Steps<L>,
) -> Result<(), Status>
    ensures steps { let g = G.graph graph.now in OnOk result (MeetNoDeadEnd patterns (trees_over g patterns)
        → steps.new ≤ steps.old + starts_cost g patterns + no_dead_end_costs g patterns (trees_over g patterns)) }
    ensures ok { OnOk result (Appends (W.taken out.old) (W.taken out.new) (match_text (G.graph graph.now) patterns)) }
    ensures err { OnErr result (AppendsFront (W.taken out.old) (W.taken out.new) (match_text (G.graph graph.now) patterns)) }
    ensures status { IfErr result (WriteEnds (W.faults out.old) (W.faults out.new)) }
    ensures puts { NoEmptyPut (W.puts out.old) (W.puts out.new) }
{
    let Ok(registry) = Registry::start(alloc, patterns, graph, steps) else {
        return Err(Status::Memory);
    };
    put_all(alloc, &registry, graph, out, steps)
}

/// Puts what each pattern of the registry answers, one after another, and at the end how many embeddings these are.
fn put_all<G: ReadGraph<L>, W: Sink, L: Ledger>(
    alloc: Global,
    registry: &Registry,
    graph: &G,
    out: &mut W,
    steps: &mut Steps<L>,
) -> Result<(), Status>
    requires { AreExact registry.now (G.graph graph.now) }
    ensures steps { OnOk result (MeetNoDeadEnd registry.now.patterns registry.now.trees
        → steps.new ≤ steps.old + no_dead_end_costs (G.graph graph.now) registry.now.patterns registry.now.trees) }
    ensures ok { OnOk result (Appends (W.taken out.old) (W.taken out.new) (match_text (G.graph graph.now) registry.now.patterns)) }
    ensures err { OnErr result (AppendsFront (W.taken out.old) (W.taken out.new) (match_text (G.graph graph.now) registry.now.patterns)) }
    ensures status { IfErr result (WriteEnds (W.faults out.old) (W.faults out.new)) }
    ensures puts { NoEmptyPut (W.puts out.old) (W.puts out.new) }
{
    let mut report = Vec::new(alloc);
    // Each pattern counts in 64 bits, and there are fewer patterns than 2^64.
    let mut total: u128 = 0;
    for k in 0..registry.patterns().count() {
        let count = put_pattern(registry, k, graph, &mut report, out, steps)?;
        total += count as u128;
    }
    put_total(total, &mut report, out)
}

/// Adds the embeddings of the pattern at place `k` to the report, and says how many these are. It puts the report as often as it is
/// long, and where memory is refused.
fn put_pattern<G: ReadGraph<L>, W: Sink, L: Ledger>(
    registry: &Registry,
    k: usize,
    graph: &G,
    report: &mut Vec<u8>,
    out: &mut W,
    steps: &mut Steps<L>,
) -> Result<usize, Status>
    requires exact { AreExact registry.now (G.graph graph.now) }
    requires pattern { k < length registry.now.patterns }
    ensures steps { OnOk result (AnswerStaysWithin registry.now k (G.graph graph.now) steps.old steps.new) }
    ensures count { IfOk result (λ count. (q : PatternGraph) → slice_get registry.now.patterns k ≡ Some q
        → count ≡ length (embeddings q (G.graph graph.now))) }
    ensures ok { OnOk result ((q : PatternGraph) → slice_get registry.now.patterns k ≡ Some q
        → Wrote (W.taken out.old) (W.taken out.new) report.old.items report.new.items (answer_lines (G.graph graph.now) q)) }
    ensures err { OnErr result ((q : PatternGraph) → slice_get registry.now.patterns k ≡ Some q
        → AppendsFront (W.taken out.old) (W.taken out.new) (report.old.items ++ answer_lines (G.graph graph.now) q)) }
    ensures later { W.faults out.old ≤ W.faults out.new }
    ensures status { IfErr result (WriteEnds (W.faults out.old) (W.faults out.new)) }
    ensures puts { NoEmptyPut (W.puts out.old) (W.puts out.new) }
{
    let Ok(maps) = sorted_answers(registry, k, graph, steps) else {
        let _ = put_report(report, out);
        return Err(Status::Memory);
    };
    let name = registry.patterns().get(k).name();
    put_maps(name.bytes(), &maps, report, out)?;
    Ok(maps.len())
}

/// The embeddings of the pattern at place `k`, in ascending order.
fn sorted_answers<G: ReadGraph<L>, L: Ledger>(
    registry: &Registry,
    k: usize,
    graph: &G,
    steps: &mut Steps<L>,
) -> Result<Maps, AllocError>
    requires exact { AreExact registry.now (G.graph graph.now) }
    requires pattern { k < length registry.now.patterns }
    ensures steps { OnOk result (AnswerStaysWithin registry.now k (G.graph graph.now) steps.old steps.new) }
    ensures answers { IfOk result (λ maps. (q : PatternGraph) → slice_get registry.now.patterns k ≡ Some q
        → maps ≡ embeddings q (G.graph graph.now)) }
{
    // For the proof: what a store holds is a graph.
    let _ = graph.vertex_count();
    let mut maps = registry.answers_of(k, graph, steps)?;
    maps.sort()?;
    Ok(maps)
}

/// Adds a line for each map to the report, and puts it as often as it is long, and where memory is refused.
fn put_maps<W: Sink>(
    name: &[u8],
    maps: &Maps,
    report: &mut Vec<u8>,
    out: &mut W,
) -> Result<(), Status>
    ensures ok { OnOk result (
        Wrote (W.taken out.old) (W.taken out.new) report.old.items report.new.items (flat_map (answer_line name.now) maps.now)) }
    ensures err { OnErr result (
        AppendsFront (W.taken out.old) (W.taken out.new) (report.old.items ++ flat_map (answer_line name.now) maps.now)) }
    ensures later { W.faults out.old ≤ W.faults out.new }
    ensures status { IfErr result (WriteEnds (W.faults out.old) (W.faults out.new)) }
    ensures puts { NoEmptyPut (W.puts out.old) (W.puts out.new) }
{
    for i in 0..maps.len() {
        put_map(name, maps.get(i), report, out)?;
    }
    Ok(())
}

/// Adds the line of a map to the report, and puts it where it is long. Where memory is refused, what was gathered is put first.
fn put_map<W: Sink>(name: &[u8], map: &Map, report: &mut Vec<u8>, out: &mut W) -> Result<(), Status>
    ensures ok { OnOk result (
        Wrote (W.taken out.old) (W.taken out.new) report.old.items report.new.items (answer_line name.now map.now)) }
    ensures err { OnErr result (
        AppendsFront (W.taken out.old) (W.taken out.new) (report.old.items ++ answer_line name.now map.now)) }
    ensures later { W.faults out.old ≤ W.faults out.new }
    ensures status { IfErr result (WriteEnds (W.faults out.old) (W.faults out.new)) }
    ensures puts { NoEmptyPut (W.puts out.old) (W.puts out.new) }
{
    let Ok(()) = write_answer(name, map, report) else {
        let _ = put_report(report, out);
        return Err(Status::Memory);
    };
    if report.len() < LONG {
        return Ok(());
    }
    put_report(report, out)
}

/// Puts the report with the last line behind it. Where memory is refused, what was gathered is put first.
fn put_total<W: Sink>(total: u128, report: &mut Vec<u8>, out: &mut W) -> Result<(), Status>
    ensures ok { OnOk result (Appends (W.taken out.old) (W.taken out.new) (report.old.items ++ total_line total)) }
    ensures err { OnErr result (AppendsFront (W.taken out.old) (W.taken out.new) (report.old.items ++ total_line total)) }
    ensures status { IfErr result (WriteEnds (W.faults out.old) (W.faults out.new)) }
    ensures puts { NoEmptyPut (W.puts out.old) (W.puts out.new) }
{
    let Ok(()) = write_total(total, report) else {
        let _ = put_report(report, out);
        return Err(Status::Memory);
    };
    put_report(report, out)
}
