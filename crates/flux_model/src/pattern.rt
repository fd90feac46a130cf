//! `Pattern` and `Patterns`, and what a line of a pattern file says.
ghost use Rattle.std.specs.Prelude.{◌≡◌, ◌<◌, length, Some, slice_get};

use crate::labels::Labels;
use crate::text::Text;
use std::marker::Model;

/// Which maps of a pattern's vertices count as its embeddings.
#[derive(Clone, Copy, Debug, PartialEq, Eq)]
pub enum Mode {
    /// Homomorphisms: an id may occur more than once.
    Hom,
    /// Isomorphisms: no id occurs twice.
    Iso,
}

/// An edge of a pattern, from the pattern vertex `tail` to the pattern vertex `head`, with its label.
#[derive(Drop)]
pub struct PatternEdge {
    pub tail: usize,
    pub label: Text,
    pub head: usize,
}

/// What a line of a pattern file says.
#[derive(Drop)]
pub enum PatternPart {
    /// A pattern begins, with this name and mode.
    Name { name: Text, mode: Mode },
    /// The pattern has a vertex `n` with these labels.
    Vertex { n: u32, labels: Labels },
    /// The pattern has an edge from `tail` to `head` with this label.
    Edge { tail: u32, head: u32, label: Text },
}

/// A pattern: a name, a mode, 1 to 32 vertices with their labels, numbered from 0, and at most 64 distinct edges between
/// them, in file order. It is connected when directions are ignored.
#[derive(Drop)]
pub struct Pattern {
    name: Text,
    mode: Mode,
    labels: Vec<Labels>,
    edges: Vec<PatternEdge>,
}

impl Model for Pattern {
    ghost use Rattle.flux_model.specs.Pattern.{PatternGraph, IsPattern};

    ghost Value = { PatternGraph };

    ghost view = { λ p. record { name = p.name; mode = p.mode; labels = p.labels.items; edges = p.edges.items } };

    ghost invariant = { λ p. IsPattern (record { name = p.name; mode = p.mode; labels = p.labels.items; edges = p.edges.items }) };
}

impl Pattern {
    ghost use Rattle.flux_model.specs.Pattern.{PatternGraph, IsPattern, HasEnds};

    /// The pattern of these parts, where `labels` has a set for each vertex.
    ///
    /// They have to keep the rules of the type: 1 to 32 vertices, at most 64 edges, each end of an edge a vertex, no edge
    /// twice, and all connected.
    pub fn new(name: Text, mode: Mode, labels: Vec<Labels>, edges: Vec<PatternEdge>) -> Pattern
        requires { IsPattern (record { name = name; mode = mode; labels = labels.items; edges = edges.items }) }
        ensures { result ≡ record { name = name; mode = mode; labels = labels.items; edges = edges.items } }
    {
        Pattern {
            name,
            mode,
            labels,
            edges,
        }
    }

    /// The name, by which a report calls the pattern.
    pub fn name(&self) -> &Text
        ensures { result.now ≡ self.now.name }
    {
        &self.name
    }

    /// Which maps count as embeddings.
    pub fn mode(&self) -> Mode
        ensures { result ≡ self.now.mode }
    {
        self.mode
    }

    /// How many vertices there are, 1 to 32.
    pub fn vertex_count(&self) -> usize
        ensures count { result ≡ length self.now.labels }
        ensures pattern { IsPattern self.now }
    {
        self.labels.len()
    }

    /// How many edges there are, at most 64.
    pub fn edge_count(&self) -> usize
        ensures { result ≡ length self.now.edges }
    {
        self.edges.len()
    }

    /// The labels of vertex `u`, which has to be below `vertex_count`.
    pub fn labels(&self, u: usize) -> &Labels
        requires { u < length self.now.labels }
        ensures { slice_get self.now.labels u ≡ Some result.now }
    {
        &self.labels[u]
    }

    /// The edge at place `i` in file order, counted from 0, which has to be below `edge_count`. Its ends are vertices.
    pub fn edge(&self, i: usize) -> &PatternEdge
        requires { i < length self.now.edges }
        ensures edge { slice_get self.now.edges i ≡ Some result.now }
        ensures ends { HasEnds (length self.now.labels) result.now }
    {
        &self.edges[i]
    }
}

/// The patterns of a run, in file order. No two have the same name.
#[derive(Drop)]
pub struct Patterns {
    list: Vec<Pattern>,
}

impl Model for Patterns {
    ghost use Rattle.std.specs.Prelude.{List};
    ghost use Rattle.flux_model.specs.Pattern.{PatternGraph, HaveDistinctNames};

    ghost Value = { List PatternGraph };

    ghost view = { λ p. p.list.items };

    ghost invariant = { λ p. HaveDistinctNames p.list.items };
}

impl Patterns {
    ghost use Rattle.flux_model.specs.Pattern.{HaveDistinctNames};

    /// These patterns. No two may have the same name.
    pub fn new(list: Vec<Pattern>) -> Patterns
        requires { HaveDistinctNames list.items }
        ensures { result ≡ list.items }
    {
        Patterns { list }
    }

    /// How many patterns there are.
    pub fn count(&self) -> usize
        ensures count { result ≡ length self.now }
        ensures distinct { HaveDistinctNames self.now }
    {
        self.list.len()
    }

    /// The pattern at place `k` in file order, counted from 0, which has to be below `count`.
    pub fn get(&self, k: usize) -> &Pattern
        requires { k < length self.now }
        ensures { slice_get self.now k ≡ Some result.now }
    {
        &self.list[k]
    }
}
