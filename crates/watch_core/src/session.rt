//! `Session`: a graph, the patterns with their index over it, and how many lines there were.
ghost use Rattle.std.specs.Prelude.{◌≡◌, ◌<◌, ◌≤◌, ◌+◌, ◌^◌, ◌++◌, false, true, IfOk, OnOk, OnErr};
ghost use Rattle.std.specs.List.{zip, sum_by};
ghost use Rattle.flux_model.specs.Costs.{line_cost, start_cost};
ghost use Rattle.flux_model.specs.Grown.{GrewByFront};
ghost use Rattle.flux_model.specs.LentLine.{seen_line};
ghost use Rattle.flux_model.specs.Reading.{update_reading};
ghost use Rattle.flux_model.specs.Report.{outcome, graph_after, is_accepted};
ghost use Rattle.pattern_registry.specs.States.{AreExact, trees_over};
ghost use Rattle.watch_core.specs.Session.{first_state, after_said, next_block, end_text};
ghost use Rattle.watch_core.specs.SessionStates.{watched};
ghost use Rattle.watch_core.specs.Taken.{IsTaken};

use crate::taken::{Taken, write_block};
use delta_report::write_end;
use flux_model::{Ledger, Line, Patterns, Said, Steps, Update};
use graph_traits::{HoldGraph, KeepGraph, ReadGraph};
use line_grammar::read_update_line;
use pattern_registry::Registry;
use std::alloc::{AllocError, Global};
use std::marker::Model;

/// A graph, the patterns with their index over it, and how many lines there were.
///
/// While it is not broken, the rows of each pattern are exact over the graph.
#[derive(Drop)]
pub struct Session<G: HoldGraph> {
    alloc: Global,
    graph: G,
    registry: Registry,
    lines: u64,
    accepted: u64,
    refused: u64,
    is_broken: bool,
}

impl<G: HoldGraph> Model for Session<G> {
    ghost use Rattle.watch_core.specs.SessionStates.{SessionState, IsSession, session_state};
    ghost use Rattle.watch_core.specs.Codes.{session_state_code};

    ghost Value = { SessionState };

    ghost coded = { session_state_code };

    ghost view = { λ s. session_state (G.limits s.graph) (G.graph s.graph) s.registry s.lines s.accepted s.refused s.is_broken };

    ghost invariant = { λ s. IsSession
        (session_state (G.limits s.graph) (G.graph s.graph) s.registry s.lines s.accepted s.refused s.is_broken) };
}

impl<G: KeepGraph> Session<G> {
    /// A session before its first line.
    ///
    /// It takes no more steps than the starts of the patterns. `AllocError` where no memory is left.
    pub fn start<L: Ledger>(
        alloc: Global,
        graph: G,
        patterns: Patterns,
        steps: &mut Steps<L>,
    ) -> Result<Session<G>, AllocError>
    where
        G: ReadGraph<L>,
        ensures state { IfOk result (λ session. watched session ≡ first_state (G.limits graph) (G.graph graph) patterns) }
        ensures trees { IfOk result (λ session. session.registry.trees ≡ trees_over (G.graph graph) patterns) }
        ensures whole { IfOk result (λ session. session.is_broken ≡ false) }
        ensures steps { let starts = sum_by (λ q. start_cost q (G.graph graph)) patterns in
            OnOk result (steps.new ≤ steps.old + starts) }
    {
        let registry = Registry::start(alloc, patterns, &graph, steps)?;
        Ok(Session {
            alloc,
            graph,
            registry,
            lines: 0,
            accepted: 0,
            refused: 0,
            is_broken: false,
        })
    }

    /// Takes a line of the updates, and writes its block. The session must not be broken.
    ///
    /// A line that is refused, and one that says nothing, change neither the graph nor what is kept of the patterns. At
    /// `AllocError` a front part of the block is written, and the session is broken.
    pub fn line<L: Ledger>(
        &mut self,
        line: &Line<'_>,
        report: &mut Vec<u8>,
        steps: &mut Steps<L>,
    ) -> Result<(), AllocError>
    where
        G: ReadGraph<L>,
        requires whole { self.old.is_broken ≡ false }
        requires few { self.old.lines < 2 ^ 60 }
        ensures after { OnOk result (watched self.new ≡ after_said (watched self.old) (update_reading (seen_line line.now))) }
        ensures trees { OnOk result (self.new.registry.trees ≡ self.old.registry.trees) }
        ensures unchanged { let came_to = outcome self.old.limits self.old.graph (update_reading (seen_line line.now)) in
            OnOk result (is_accepted came_to ≡ false → self.new.registry ≡ self.old.registry) }
        ensures same_graph { let came_to = outcome self.old.limits self.old.graph (update_reading (seen_line line.now)) in
            OnOk result (is_accepted came_to ≡ false → self.new.graph ≡ self.old.graph) }
        ensures whole { OnOk result (self.new.is_broken ≡ false) }
        ensures broken { OnErr result (self.new.is_broken ≡ true) }
        ensures ok { let text = next_block (watched self.old) (update_reading (seen_line line.now)) in
            OnOk result (report.new.items ≡ report.old.items ++ text) }
        ensures err { let text = next_block (watched self.old) (update_reading (seen_line line.now)) in
            OnErr result (GrewByFront report.old.items report.new.items text) }
        ensures steps { let s = self.old in let indexed = zip s.registry.patterns s.registry.trees in
            OnOk result (steps.new ≤ steps.old + line_cost s.limits indexed s.graph (update_reading (seen_line line.now))) }
    {
        // For the proof: what a store holds is a graph.
        let _before = self.graph.vertex_count();
        let taken = self.take(line, steps)?;
        let _after = self.graph.vertex_count();
        let written = write_block(self.lines, self.registry.patterns(), taken, report);
        self.is_broken = written.is_err();
        written
    }

    /// Takes a line of the updates as `line` does, and hands back what it came to in the place of its block. The session must
    /// not be broken.
    ///
    /// A line that is refused, and one that says nothing, change neither the graph nor what is kept of the patterns. At
    /// `AllocError` the session is broken.
    pub fn take<L: Ledger>(
        &mut self,
        line: &Line<'_>,
        steps: &mut Steps<L>,
    ) -> Result<Taken, AllocError>
    where
        G: ReadGraph<L>,
        requires whole { self.old.is_broken ≡ false }
        requires few { self.old.lines < 2 ^ 60 }
        ensures after { OnOk result (watched self.new ≡ after_said (watched self.old) (update_reading (seen_line line.now))) }
        ensures trees { OnOk result (self.new.registry.trees ≡ self.old.registry.trees) }
        ensures unchanged { let came_to = outcome self.old.limits self.old.graph (update_reading (seen_line line.now)) in
            OnOk result (is_accepted came_to ≡ false → self.new.registry ≡ self.old.registry) }
        ensures same_graph { let came_to = outcome self.old.limits self.old.graph (update_reading (seen_line line.now)) in
            OnOk result (is_accepted came_to ≡ false → self.new.graph ≡ self.old.graph) }
        ensures whole { OnOk result (self.new.is_broken ≡ false) }
        ensures broken { OnErr result (self.new.is_broken ≡ true) }
        ensures taken { let s = self.old in let came_to = outcome s.limits s.graph (update_reading (seen_line line.now)) in
            IfOk result (λ taken. IsTaken s.registry.patterns s.graph came_to taken) }
        ensures steps { let s = self.old in let indexed = zip s.registry.patterns s.registry.trees in
            OnOk result (steps.new ≤ steps.old + line_cost s.limits indexed s.graph (update_reading (seen_line line.now))) }
    {
        // Until the line is dealt with.
        self.is_broken = true;
        let said = read_update_line(self.alloc, line)?;
        let taken = take_said(&mut self.graph, &mut self.registry, said, steps)?;
        self.lines += 1;
        match &taken {
            Taken::Ignored => {}
            Taken::Refused(_) => self.refused += 1,
            Taken::Changed(_) => self.accepted += 1,
        }
        self.is_broken = false;
        Ok(taken)
    }

    /// Writes the end line. At `AllocError` a front part of it is written.
    pub fn end(&self, report: &mut Vec<u8>) -> Result<(), AllocError>
        ensures ok { OnOk result (report.new.items ≡ report.old.items ++ end_text (watched self.now)) }
        ensures err { OnErr result (GrewByFront report.old.items report.new.items (end_text (watched self.now))) }
    {
        write_end(self.lines, self.accepted, self.refused, report)
    }

    /// The graph.
    pub fn graph(&self) -> &G
        ensures graph { G.graph result.now ≡ self.now.graph }
        ensures limits { G.limits result.now ≡ self.now.limits }
    {
        &self.graph
    }

    /// The patterns, with their index over the graph, which is exact while the session is not broken.
    pub fn registry(&self) -> &Registry
        ensures registry { result.now ≡ self.now.registry }
        ensures exact { self.now.is_broken ≡ false → AreExact result.now self.now.graph }
    {
        &self.registry
    }

    /// How many lines there were.
    pub fn lines(&self) -> u64
        ensures { result ≡ self.now.lines }
    {
        self.lines
    }

    /// Whether a line stopped in its midst, for want of memory.
    pub fn is_broken(&self) -> bool
        ensures { result ≡ self.now.is_broken }
    {
        self.is_broken
    }
}

/// Deals with what a line says.
fn take_said<G: KeepGraph + ReadGraph<L>, L: Ledger>(
    graph: &mut G,
    registry: &mut Registry,
    said: Said<Update>,
    steps: &mut Steps<L>,
) -> Result<Taken, AllocError>
    requires { AreExact registry.old (G.graph graph.old) }
    ensures taken { let came_to = outcome (G.limits graph.old) (G.graph graph.old) said in
        IfOk result (λ taken. IsTaken registry.old.patterns (G.graph graph.old) came_to taken) }
    ensures graph { let came_to = outcome (G.limits graph.old) (G.graph graph.old) said in
        OnOk result (G.graph graph.new ≡ graph_after (G.graph graph.old) came_to) }
    ensures limits { G.limits graph.new ≡ G.limits graph.old }
    ensures exact { OnOk result (AreExact registry.new (G.graph graph.new)) }
    ensures patterns { OnOk result (registry.new.patterns ≡ registry.old.patterns) }
    ensures trees { OnOk result (registry.new.trees ≡ registry.old.trees) }
    ensures unchanged { let came_to = outcome (G.limits graph.old) (G.graph graph.old) said in
        OnOk result (is_accepted came_to ≡ false → registry.new ≡ registry.old) }
    ensures steps { let indexed = zip registry.old.patterns registry.old.trees in
        OnOk result (steps.new ≤ steps.old + line_cost (G.limits graph.old) indexed (G.graph graph.old) said) }
{
    let update = match said {
        Said::Nothing => return Ok(Taken::Ignored),
        Said::Refused(code) => return Ok(Taken::Refused(code)),
        Said::Says(update) => update,
    };
    match registry.apply(graph, &update, steps)? {
        Ok(deltas) => Ok(Taken::Changed(deltas)),
        Err(code) => Ok(Taken::Refused(code)),
    }
}
