//! `GraphRow`: a row of a graph vertex, as it is walked for one label.
ghost use Rattle.std.specs.Prelude.{◌≡◌, ◌+◌, ◌<◌, ◌≤◌, [], ◌∷◌, Some, length, IsTrue, IfSome, MatchOption, IsPermutation};
ghost use Rattle.std.specs.Str.{bytes_eq};
ghost use Rattle.flux_model.specs.Graph.{has_vertex};
ghost use Rattle.graph_traits.specs.Numbers.{IsNumberOf};
ghost use Rattle.graph_rows.specs.Directions.{whole_row};
ghost use Rattle.graph_rows.specs.LabelRows.{row_from, ends_from, IsPlaceOf};

use crate::direction::Direction;
use crate::whole_row::WholeRow;
use flux_model::{Ledger, Steps, Text};
use graph_traits::{HoldGraph, ReadGraph, Spot, Turn};

/// The row of a vertex of the graph in a direction, of which the triples of one label count.
///
/// It is walked from `first` on by `next`, which gives the other end of each such triple once.
#[derive(Drop)]
pub struct GraphRow<'a> {
    /// The vertex whose row it is.
    pub vertex: u32,
    /// Whether it is the out row or the in row.
    pub direction: Direction,
    /// The label of the triples that count.
    pub label: &'a Text,
    /// The number that the graph has for the label.
    pub label_number: Option<u32>,
}

impl<'a> GraphRow<'a> {
    /// The first place of the row.
    pub fn first<G: HoldGraph>(&self, graph: &G) -> Spot
        requires { IsTrue (has_vertex (G.graph graph.now) self.now.vertex) }
        ensures place { IsPlaceOf (G.is_out_place graph.now) (G.is_in_place graph.now) self.now result }
        ensures all { let row = row_from (G.outs_from graph.now) (G.ins_from graph.now) self.now in
            IsPermutation (row result) (whole_row self.now.direction (G.graph graph.now) self.now.vertex) }
    {
        let whole = WholeRow {
            vertex: self.vertex,
            direction: self.direction,
        };
        whole.first(graph)
    }

    /// The other end of the next triple of the label, from the place `from` on, and the place after it.
    ///
    /// `None` where no such triple is left. It takes one step for each triple that it passes, and one more at the row's end.
    // It is the step of every search along a row, and too long for the compiler to take it in by itself.
    #[inline(always)]
    pub fn next<G: ReadGraph<L>, L: Ledger>(
        &self,
        graph: &G,
        from: Spot,
        steps: &mut Steps<L>,
    ) -> Option<(u32, Spot)>
        requires stands { IsTrue (has_vertex (G.graph graph.now) self.now.vertex) }
        requires number { IsNumberOf (G.label_text graph.now) self.now.label.now self.now.label_number }
        requires place { IsPlaceOf (G.is_out_place graph.now) (G.is_in_place graph.now) self.now from }
        ensures next { IfSome result (λ t. IsPlaceOf (G.is_out_place graph.now) (G.is_in_place graph.now) self.now t.1) }
        ensures end { IfSome result (λ t. IsTrue (has_vertex (G.graph graph.now) t.0)) }
        ensures ends { let ends = ends_from (G.outs_from graph.now) (G.ins_from graph.now) self.now in
            MatchOption result (ends from ≡ []) (λ t. ends from ≡ t.0 ∷ ends t.1) }
        ensures less { let row = row_from (G.outs_from graph.now) (G.ins_from graph.now) self.now in
            IfSome result (λ t. length (row t.1) < length (row from)) }
        ensures steps { let row = row_from (G.outs_from graph.now) (G.ins_from graph.now) self.now in
            MatchOption result (steps.new ≤ steps.old + length (row from) + 1)
            (λ t. steps.new + length (row t.1) ≤ steps.old + length (row from)) }
    {
        let whole = WholeRow {
            vertex: self.vertex,
            direction: self.direction,
        };
        let mut at = from;
        while let Some(turn) = whole.next(graph, at, steps) {
            at = turn.next;
            if self.has_label(graph, &turn) {
                return Some((turn.other, at));
            }
        }
        None
    }

    /// Whether what the row has at a place has the label.
    fn has_label<G: HoldGraph>(&self, _graph: &G, turn: &Turn<'_>) -> bool
        requires number { IsNumberOf (G.label_text _graph.now) self.now.label.now self.now.label_number }
        requires turn { G.label_text _graph.now turn.now.number ≡ Some turn.now.label.now }
        ensures { result ≡ bytes_eq self.now.label.now turn.now.label.now }
    {
        self.label_number == Some(turn.number)
    }
}
