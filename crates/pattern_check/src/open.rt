//! The pattern that may still grow.
ghost use Rattle.std.specs.Prelude.{◌≡◌, ◌||◌, nat_le, Ok, Err, IfOk, OnOk, IfErr};
ghost use Rattle.std.specs.List.{list_any};
ghost use Rattle.flux_model.specs.Limits.{IsFair};

use crate::connected::is_connected;
use crate::refusal::refused;
use flux_model::{Bad, Code, Labels, Limits, Mode, Pattern, PatternEdge, Text};
use std::alloc::{AllocError, Global};
use std::marker::Model;

/// A pattern that may still grow, and the line that began it.
#[derive(Drop)]
pub struct Open {
    line: u64,
    name: Text,
    mode: Mode,
    labels: Vec<Labels>,
    edges: Vec<PatternEdge>,
}

impl Model for Open {
    ghost use Rattle.flux_model.specs.PatternFile.{OpenPattern};
    ghost use Rattle.pattern_check.specs.Reading.{IsOpen};

    ghost Value = { OpenPattern };

    ghost view = { λ o. record {
      line = o.line;
      pattern = record { name = o.name; mode = o.mode; labels = o.labels.items; edges = o.edges.items };
    } };

    ghost invariant = { λ o. IsOpen (record { name = o.name; mode = o.mode; labels = o.labels.items; edges = o.edges.items }) };
}

impl Open {
    ghost use Rattle.flux_model.specs.PatternFile.{new_pattern, add_pattern_vertex, add_pattern_edge, close_open};

    /// A pattern without vertices.
    pub fn new(alloc: Global, line: u64, name: Text, mode: Mode) -> Open
        ensures { result ≡ record { line = line; pattern = new_pattern name mode } }
    {
        // For the proof: the bytes of the name are those of a text.
        let _ = name.bytes();
        Open {
            line,
            name,
            mode,
            labels: Vec::new(alloc),
            edges: Vec::new(alloc),
        }
    }

    /// Adds the next vertex, or says why it is refused.
    pub fn add_vertex(
        &mut self,
        limits: &Limits,
        line: u64,
        n: u32,
        labels: Labels,
    ) -> Result<Result<(), Bad>, AllocError>
        requires { IsFair limits.now }
        ensures added { let step = add_pattern_vertex limits.now line n labels self.old.pattern in
            IfOk result (λ answer. OnOk answer (step ≡ Ok self.new.pattern)) }
        ensures refused { let step = add_pattern_vertex limits.now line n labels self.old.pattern in
            IfOk result (λ answer. IfErr answer (λ bad. step ≡ Err bad)) }
        ensures line { self.new.line ≡ self.old.line }
        ensures name { self.new.pattern.name ≡ self.old.pattern.name }
    {
        let count = self.labels.len();
        if n as usize != count {
            return Ok(refused(line, Code::Order));
        }
        if limits.pattern_vertices <= count as u64 {
            return Ok(refused(line, Code::Full));
        }
        // For the proof: the labels are a label set.
        let _ = labels.len();
        self.labels.push(labels)?;
        Ok(Ok(()))
    }

    /// Adds an edge, or says why it is refused.
    pub fn add_edge(
        &mut self,
        limits: &Limits,
        line: u64,
        edge: PatternEdge,
    ) -> Result<Result<(), Bad>, AllocError>
        requires { IsFair limits.now }
        ensures added { let step = add_pattern_edge limits.now line edge self.old.pattern in
            IfOk result (λ answer. OnOk answer (step ≡ Ok self.new.pattern)) }
        ensures refused { let step = add_pattern_edge limits.now line edge self.old.pattern in
            IfOk result (λ answer. IfErr answer (λ bad. step ≡ Err bad)) }
        ensures line { self.new.line ≡ self.old.line }
        ensures name { self.new.pattern.name ≡ self.old.pattern.name }
    {
        if lacks_end(self.labels.len(), &edge) {
            return Ok(refused(line, Code::NoVertex));
        }
        if has_edge(&self.edges, &edge) {
            return Ok(refused(line, Code::Exists));
        }
        if limits.pattern_edges <= self.edges.len() as u64 {
            return Ok(refused(line, Code::Full));
        }
        // For the proof: the bytes of the label are those of a text.
        let _ = edge.label.bytes();
        self.edges.push(edge)?;
        Ok(Ok(()))
    }

    /// The pattern as it ends, or why it may not end so.
    pub fn close(self) -> Result<Pattern, Bad>
        ensures { result ≡ close_open self }
    {
        let Open {
            line,
            name,
            mode,
            labels,
            edges,
        } = self;
        if labels.is_empty() {
            return refused(line, Code::Empty);
        }
        if !is_connected(labels.len(), &edges) {
            return refused(line, Code::Apart);
        }
        Ok(Pattern::new(name, mode, labels, edges))
    }
}

ghost use Rattle.flux_model.specs.Pattern.{same_edge};

/// Whether an end of the edge is none of `count` vertices.
fn lacks_end(count: usize, edge: &PatternEdge) -> bool
    ensures { result ≡ (nat_le count edge.now.tail || nat_le count edge.now.head) }
{
    count <= edge.tail || count <= edge.head
}

/// Whether an edge with the same ends and the same label is among others.
fn has_edge(edges: &[PatternEdge], edge: &PatternEdge) -> bool
    ensures { result ≡ list_any (same_edge edge.now) edges.now }
{
    edges.iter().any(|other| edge.tail == other.tail
        && edge.label == other.label
        && edge.head == other.head)
}
