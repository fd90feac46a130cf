//! `RootLists`: the vertices that fit the roots of patterns, listed once for each set of labels.
ghost use Rattle.std.specs.Prelude.{◌≡◌, ◌<◌, ◌≤◌, ◌+◌, ◌*◌, [], length, Some, IsTrue, IfOk, IfSome, OnOk};
ghost use Rattle.dcg_transition.specs.Roots.{with_labels};
ghost use Rattle.pattern_registry.specs.RootLists.{labels_at, vertices_at, AreRootLists};

use dcg_transition::fitting;
use flux_model::{Labels, Ledger, Steps};
use graph_traits::{HoldGraph, ReadGraph};
use std::alloc::{AllocError, Global};

/// The vertices of a graph that have each label of a set, in the graph's order.
#[derive(Drop)]
pub struct RootList<'a> {
    /// The set.
    pub labels: &'a Labels,
    /// The vertices.
    pub vertices: Vec<u32>,
}

/// Such lists over one graph, one for each set of labels that was asked for.
#[derive(Drop)]
pub struct RootLists<'a> {
    /// In the order in which they were asked for.
    pub lists: Vec<RootList<'a>>,
}

impl<'a> RootLists<'a> {
    /// No list.
    pub fn new(alloc: Global) -> RootLists<'a>
        ensures { result.lists.items ≡ [] }
    {
        RootLists {
            lists: Vec::new(alloc),
        }
    }

    /// The vertices of the list at this place, which has to be one that `place` answered.
    pub fn vertices(&self, place: usize) -> &[u32]
        requires { place < length self.now.lists.items }
        ensures { vertices_at self.now.lists.items place ≡ Some result.now }
    {
        self.lists[place].vertices.as_slice()
    }

    /// The place of the list of these labels. Where none is there yet, it is made, which takes at most two steps for each vertex.
    ///
    /// `AllocError` where no memory is left.
    pub fn place<G: ReadGraph<L>, L: Ledger>(
        &mut self,
        alloc: Global,
        labels: &'a Labels,
        graph: &G,
        steps: &mut Steps<L>,
    ) -> Result<usize, AllocError>
        requires { AreRootLists (G.graph graph.now) (G.listed graph.now) self.old.lists.items }
        ensures lists { OnOk result (AreRootLists (G.graph graph.now) (G.listed graph.now) self.new.lists.items) }
        ensures place { let vertices = with_labels (G.graph graph.now) labels.now (G.listed graph.now) in
            IfOk result (λ p. vertices_at self.new.lists.items p ≡ Some vertices) }
        ensures steps { OnOk result (steps.new ≤ steps.old + 2 * length (G.graph graph.now).vertices) }
    {
        if let Some(known) = self.find(labels) {
            return Ok(known);
        }
        let place = self.lists.len();
        let vertices = fitting(alloc, graph, labels, steps)?;
        self.lists.push(RootList { labels, vertices })?;
        Ok(place)
    }

    /// The place of the list of these labels, if it is there.
    fn find(&self, labels: &Labels) -> Option<usize>
        ensures { IfSome result (λ p. labels_at self.now.lists.items p ≡ Some labels.now) }
    {
        for (p, list) in self.lists.iter().enumerate() {
            if are_same(list.labels, labels) {
                return Some(p);
            }
        }
        None
    }
}

/// Whether two sets of labels are the same.
fn are_same(labels: &Labels, others: &Labels) -> bool
    ensures { IsTrue result → labels.now ≡ others.now }
{
    if labels.len() != others.len() {
        return false;
    }
    for i in 0..labels.len() {
        if *labels.get(i) != *others.get(i) {
            return false;
        }
    }
    true
}
