//! `WholeRow`: a row of a graph vertex, as it is walked triple by triple.
ghost use Rattle.std.specs.Prelude.{◌≡◌, ◌+◌, [], ◌∷◌, Some, IsTrue, IfSome, MatchOption, IsPermutation};
ghost use Rattle.flux_model.specs.Graph.{has_vertex};
ghost use Rattle.graph_rows.specs.Directions.{whole_row};
ghost use Rattle.graph_rows.specs.WholeRows.{left_from, turn_triple, IsPlaceIn};

use crate::direction::Direction;
use flux_model::{Ledger, Steps};
use graph_traits::{HoldGraph, ReadGraph, Spot, Turn};

/// The row of a vertex of the graph in a direction, of which every triple counts.
///
/// It is walked from `first` on by `next`, which gives each triple once, with its label.
#[derive(Clone, Copy, Debug, PartialEq, Eq)]
pub struct WholeRow {
    /// The vertex whose row it is.
    pub vertex: u32,
    /// Whether it is the out row or the in row.
    pub direction: Direction,
}

impl WholeRow {
    /// The first place of the row.
    pub fn first<G: HoldGraph>(&self, graph: &G) -> Spot
        requires { IsTrue (has_vertex (G.graph graph.now) self.now.vertex) }
        ensures place { IsPlaceIn (G.is_out_place graph.now) (G.is_in_place graph.now) self.now result }
        ensures all { let left = left_from (G.outs_from graph.now) (G.ins_from graph.now) self.now in
            IsPermutation (left result) (whole_row self.now.direction (G.graph graph.now) self.now.vertex) }
    {
        match self.direction {
            Direction::Out => graph.out_row(self.vertex),
            Direction::In => graph.in_row(self.vertex),
        }
    }

    /// What the row has at a place, or `None` at its end. The other end is a vertex. It takes one step.
    pub fn next<'g, G: ReadGraph<L>, L: Ledger>(
        &self,
        graph: &'g G,
        at: Spot,
        steps: &mut Steps<L>,
    ) -> Option<Turn<'g>>
        requires stands { IsTrue (has_vertex (G.graph graph.now) self.now.vertex) }
        requires place { IsPlaceIn (G.is_out_place graph.now) (G.is_in_place graph.now) self.now at }
        ensures next { IfSome result (λ t. IsPlaceIn (G.is_out_place graph.now) (G.is_in_place graph.now) self.now t.next) }
        ensures number { IfSome result (λ t. G.label_text graph.now t.number ≡ Some t.label.now) }
        ensures end { IfSome result (λ t. IsTrue (has_vertex (G.graph graph.now) t.other)) }
        ensures turn { let left = left_from (G.outs_from graph.now) (G.ins_from graph.now) self.now in
            MatchOption result (left at ≡ []) (λ t. left at ≡ turn_triple self.now t ∷ left t.next) }
        ensures step { steps.new ≡ steps.old + 1 }
    {
        match self.direction {
            Direction::Out => graph.out_at(self.vertex, at, steps),
            Direction::In => graph.in_at(self.vertex, at, steps),
        }
    }
}
