//! `ReadGraph`: the reads of a store's content, each of which counts one step.
ghost use Rattle.std.specs.Prelude.{◌≡◌, ◌+◌, ◌<◌, [], ◌∷◌, Some, length, slice_get, IsTrue, IfSome, MatchOption};
ghost use Rattle.flux_model.specs.Graph.{has_vertex, has_triple};
ghost use Rattle.flux_model.specs.Pattern.{fits_labels};
ghost use Rattle.graph_traits.specs.Numbers.{has_triple_by};
ghost use Rattle.graph_traits.specs.Rows.{vertex_of_id};

use crate::hold::HoldGraph;
use crate::spot::Spot;
use flux_model::{Labels, Ledger, Steps, Text};

/// What a row has at a place of a triple.
#[derive(Drop)]
pub struct Turn<'a> {
    /// The label.
    pub label: &'a Text,
    /// The number that the store has for the label.
    pub number: u32,
    /// The other end.
    pub other: u32,
    /// Where the row goes on.
    pub next: Spot,
}

/// The reads of a store's content. Each counts one step.
pub trait ReadGraph<L: Ledger>: HoldGraph {
    /// The vertex at place `i`, which has to be below `vertex_count`. Each vertex stands at one place.
    fn vertex_at(&self, i: u64, steps: &mut Steps<L>) -> u32
        requires { i < length (Self.graph self.now).vertices }
        ensures id { slice_get (Self.listed self.now) i ≡ Some result }
        ensures stands { IsTrue (has_vertex (Self.graph self.now) result) }
        ensures step { steps.new ≡ steps.old + 1 };

    /// Whether `v` is a vertex.
    fn has_vertex(&self, v: u32, steps: &mut Steps<L>) -> bool
        ensures value { result ≡ has_vertex (Self.graph self.now) v }
        ensures step { steps.new ≡ steps.old + 1 };

    /// The labels of `v`, which has to be a vertex.
    fn labels_of(&self, v: u32, steps: &mut Steps<L>) -> &Labels
        requires { IsTrue (has_vertex (Self.graph self.now) v) }
        ensures labels { vertex_of_id (Self.graph self.now) v ≡ Some (record { id = v; labels = result.now }) }
        ensures step { steps.new ≡ steps.old + 1 };

    /// Whether `v`, which has to be a vertex, has each of the labels.
    fn fits(&self, v: u32, labels: &Labels, steps: &mut Steps<L>) -> bool
        requires { IsTrue (has_vertex (Self.graph self.now) v) }
        ensures value { result ≡ fits_labels (Self.graph self.now) labels.now v }
        ensures step { steps.new ≡ steps.old + 1 };

    /// Whether the triple of these parts stands, for any ids.
    fn has_edge(&self, src: u32, label: &Text, dst: u32, steps: &mut Steps<L>) -> bool
        ensures value { result ≡ has_triple (Self.graph self.now) (record { src = src; label = label.now; dst = dst }) }
        ensures step { steps.new ≡ steps.old + 1 };

    /// Whether the triple of these ends stands with the label of this number, for any ids and any number.
    fn has_edge_by(&self, src: u32, number: u32, dst: u32, steps: &mut Steps<L>) -> bool
        ensures value { result ≡ has_triple_by (Self.graph self.now) (Self.label_text self.now number) src dst }
        ensures step { steps.new ≡ steps.old + 1 };

    /// What the out row of the vertex `v` has at the place `at`, or `None` at the row's end. The other end is a vertex.
    fn out_at(&self, v: u32, at: Spot, steps: &mut Steps<L>) -> Option<Turn<'_>>
        requires stands { IsTrue (has_vertex (Self.graph self.now) v) }
        requires place { Self.is_out_place self.now v at }
        ensures next { IfSome result (λ t. Self.is_out_place self.now v t.next) }
        ensures number { IfSome result (λ t. Self.label_text self.now t.number ≡ Some t.label.now) }
        ensures end { IfSome result (λ t. IsTrue (has_vertex (Self.graph self.now) t.other)) }
        ensures turn { let left = Self.outs_from self.now v in
            MatchOption result (left at ≡ []) (λ t. left at ≡ record { src = v; label = t.label.now; dst = t.other } ∷ left t.next) }
        ensures step { steps.new ≡ steps.old + 1 };

    /// What the in row of the vertex `v` has at the place `at`, or `None` at the row's end. The other end is a vertex.
    fn in_at(&self, v: u32, at: Spot, steps: &mut Steps<L>) -> Option<Turn<'_>>
        requires stands { IsTrue (has_vertex (Self.graph self.now) v) }
        requires place { Self.is_in_place self.now v at }
        ensures next { IfSome result (λ t. Self.is_in_place self.now v t.next) }
        ensures number { IfSome result (λ t. Self.label_text self.now t.number ≡ Some t.label.now) }
        ensures end { IfSome result (λ t. IsTrue (has_vertex (Self.graph self.now) t.other)) }
        ensures turn { let left = Self.ins_from self.now v in
            MatchOption result (left at ≡ []) (λ t. left at ≡ record { src = t.other; label = t.label.now; dst = v } ∷ left t.next) }
        ensures step { steps.new ≡ steps.old + 1 };
}
