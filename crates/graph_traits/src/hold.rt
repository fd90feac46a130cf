//! `HoldGraph`: what a store means.
ghost use Rattle.std.specs.Prelude.{◌≡◌, ℕ, List, Option, length, count_by, ◌==◌, IsTrue, IfNone, IsPermutation};
ghost use Rattle.flux_model.specs.Graph.{Graph, ids, has_vertex};
ghost use Rattle.flux_model.specs.declared.graph.Triple.{Triple};
ghost use Rattle.flux_model.specs.declared.limits.Limits.{Limits};
ghost use Rattle.graph_traits.specs.Rows.{triples_from, triples_to};
ghost use Rattle.graph_traits.specs.Numbers.{IsNumberOf, LacksLabel};
ghost use Rattle.graph_traits.specs.WithinLimits.{IsWithinLimits};
ghost use Rattle.graph_traits.specs.declared.spot.Spot.{Spot};

use crate::spot::Spot;
use flux_model::Text;

/// A store of a graph under limits. No call of this trait changes either, and none counts a step.
///
/// Each vertex has a row of the triples that begin at it and a row of those that end at it, in an order that stays while the
/// graph is unchanged.
pub trait HoldGraph: Drop {
    /// The graph.
    ghost graph: { Self → Graph };

    /// The limits that it is kept under.
    ghost limits: { Self → Limits };

    /// The ids in the order in which `vertex_at` of `ReadGraph` gives them.
    ghost listed: { Self → List ℕ };

    /// The triples that the out row of a vertex has from a place on.
    ghost outs_from: { Self → ℕ → Spot → List Triple };

    /// The triples that the in row of a vertex has from a place on.
    ghost ins_from: { Self → ℕ → Spot → List Triple };

    /// It is a place of the out row of a vertex, or its end.
    ghost is_out_place: { Self → ℕ → Spot → Type 0 };

    /// It is a place of the in row of a vertex, or its end.
    ghost is_in_place: { Self → ℕ → Spot → Type 0 };

    /// The text that a number of a label stands for, if it stands for one. It is so as long as the graph is unchanged.
    ghost label_text: { Self → ℕ → Option (List ℕ) };

    /// How many vertices there are.
    fn vertex_count(&self) -> u64
        ensures count { result ≡ length (graph self.now).vertices }
        ensures listed { IsPermutation (listed self.now) (ids (graph self.now)) }
        ensures held { IsWithinLimits (limits self.now) (graph self.now) };

    /// How many triples there are.
    fn edge_count(&self) -> u64
        ensures count { result ≡ length (graph self.now).triples }
        ensures held { IsWithinLimits (limits self.now) (graph self.now) };

    /// How many triples begin at `v`, which has to be a vertex.
    fn out_degree(&self, v: u32) -> u64
        requires { IsTrue (has_vertex (graph self.now) v) }
        ensures { result ≡ count_by (λ t. t.src == v) (graph self.now).triples };

    /// How many triples end at `v`, which has to be a vertex.
    fn in_degree(&self, v: u32) -> u64
        requires { IsTrue (has_vertex (graph self.now) v) }
        ensures { result ≡ count_by (λ t. t.dst == v) (graph self.now).triples };

    /// The first place of the out row of `v`, which has to be a vertex. The row has each triple that begins at `v` once.
    fn out_row(&self, v: u32) -> Spot
        requires { IsTrue (has_vertex (graph self.now) v) }
        ensures place { is_out_place self.now v result }
        ensures all { IsPermutation (outs_from self.now v result) (triples_from (graph self.now) v) };

    /// The first place of the in row of `v`, which has to be a vertex. The row has each triple that ends at `v` once.
    fn in_row(&self, v: u32) -> Spot
        requires { IsTrue (has_vertex (graph self.now) v) }
        ensures place { is_in_place self.now v result }
        ensures all { IsPermutation (ins_from self.now v result) (triples_to (graph self.now) v) };

    /// The number of a label, or `None` where no triple has the label. A number may stand for a label that no triple has.
    fn label_number(&self, label: &Text) -> Option<u32>
        ensures number { IsNumberOf (label_text self.now) label.now result }
        ensures absent { IfNone result (LacksLabel label.now (graph self.now).triples) };

    /// The number from which whatever hashes beside the store is to hash. Nothing is said of it, so that no answer depends on it.
    fn seed(&self) -> u64;
}
