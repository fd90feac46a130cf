//! `Candidates`: the ids that a vertex may have beside the id of its anchor, from the shortest of some lists.
ghost use Rattle.std.specs.Prelude.{◌≡◌, ◌+◌, ◌*◌, ◌<◌, ◌≤◌, [], ◌∷◌, length, IsTrue, IfSome, MatchOption};
ghost use Rattle.flux_model.specs.Graph.{has_vertex};
ghost use Rattle.graph_traits.specs.Numbers.{IsNumberIn};
ghost use Rattle.graph_rows.specs.LabelRows.{row_from, IsPlaceOf};
ghost use Rattle.tree_search.specs.CandidatesLeft.{leads_to, passes, walked, walked_from, listed_from, left, reads, IsCursor, IsStart};
ghost use Rattle.tree_search.specs.Ways.{turns};

use flux_model::{Ledger, Steps};
use graph_rows::{Direction, GraphRow};
use graph_traits::{HoldGraph, ReadGraph, Spot};
use nontree_test::stands;

/// The ids to which the triples of a tree edge lead from the id of an anchor.
///
/// They are walked from `first` on by `next`: along the row of the anchor's id, along a shorter row of another neighbour's id,
/// if there is one, or along the vertices that have a row in the index, where these are fewer than the triples of the row.
#[derive(Drop)]
pub struct Candidates<'a> {
    /// The row of the anchor's id.
    pub row: GraphRow<'a>,
    /// A shorter row of another neighbour's id, if there is one.
    pub shortest: Shortest<'a>,
    /// Ids among which each that is looked for is: the vertices of the graph that have a row in the index, or the one that is
    /// looked for.
    pub layer: &'a [u32],
}

/// The shortest row of the id of a neighbour, where it is shorter than that of the anchor's id.
#[derive(Drop)]
pub struct Shortest<'a> {
    /// The row, or `None` where none is shorter.
    pub row: Option<GraphRow<'a>>,
    /// How many triples it has, of any label, or else the row of the anchor's id.
    pub turns: u64,
}

/// A place among the candidates.
#[derive(Clone, Copy)]
pub enum Cursor {
    /// In the row that is walked.
    Row(Spot),
    /// In the layer, by number.
    Layer(usize),
}

impl<'a> Candidates<'a> {
    /// The first place, in the shortest list. It takes no step.
    pub fn first<G: HoldGraph>(&self, graph: &G) -> Cursor
        requires stands { IsTrue (has_vertex (G.graph graph.now) (walked self.now).vertex) }
        requires counted { self.now.shortest.turns ≡ turns (G.graph graph.now) (walked self.now) }
        ensures place { IsCursor (G.is_out_place graph.now) (G.is_in_place graph.now) self.now result }
        ensures start { IsStart (G.outs_from graph.now) (G.ins_from graph.now) (G.graph graph.now) self.now result }
    {
        if (self.layer.len() as u64) < self.shortest.turns {
            Cursor::Layer(0)
        } else {
            Cursor::Row(self.walked().first(graph))
        }
    }

    /// The next candidate, from the place `from` on, and the place after it, or `None` where none is left.
    ///
    /// It takes at most two steps for each turn of the row or vertex of the layer that it passes, and one more at the row's end.
    pub fn next<G: ReadGraph<L>, L: Ledger>(
        &self,
        graph: &G,
        from: Cursor,
        steps: &mut Steps<L>,
    ) -> Option<(u32, Cursor)>
        requires stands { IsTrue (has_vertex (G.graph graph.now) (walked self.now).vertex) }
        requires number { IsNumberIn (G.label_text graph.now) (G.graph graph.now) self.now.row.label.now self.now.row.label_number }
        requires walked { let row = walked self.now in
            IsNumberIn (G.label_text graph.now) (G.graph graph.now) row.label.now row.label_number }
        requires place { IsCursor (G.is_out_place graph.now) (G.is_in_place graph.now) self.now from }
        ensures next { IfSome result (λ t. IsCursor (G.is_out_place graph.now) (G.is_in_place graph.now) self.now t.1) }
        ensures ends { let list = left (G.outs_from graph.now) (G.ins_from graph.now) (G.graph graph.now) self.now in
            MatchOption result (list from ≡ []) (λ t. list from ≡ t.0 ∷ list t.1) }
        ensures less { let more = reads (G.outs_from graph.now) (G.ins_from graph.now) self.now in
            IfSome result (λ t. more t.1 < more from) }
        ensures steps { let more = reads (G.outs_from graph.now) (G.ins_from graph.now) self.now in
            MatchOption result (steps.new ≤ steps.old + 2 * more from + 1) (λ t. steps.new + 2 * more t.1 ≤ steps.old + 2 * more from) }
    {
        match from {
            Cursor::Row(spot) => match self.next_of_row(graph, spot, steps) {
                Some((x, next)) => Some((x, Cursor::Row(next))),
                None => None,
            },
            Cursor::Layer(from) => match self.next_of_layer(graph, from, steps) {
                Some((x, next)) => Some((x, Cursor::Layer(next))),
                None => None,
            },
        }
    }

    /// The row that is walked: the shorter one, if there is one, and else that of the anchor's id.
    fn walked(&self) -> &GraphRow<'a>
        ensures { result.now ≡ walked self.now }
    {
        match &self.shortest.row {
            Some(row) => row,
            None => &self.row,
        }
    }

    /// The next end of the row that is walked to which the anchor's triple leads, from the place `from` on, and the place after it.
    fn next_of_row<G: ReadGraph<L>, L: Ledger>(
        &self,
        graph: &G,
        from: Spot,
        steps: &mut Steps<L>,
    ) -> Option<(u32, Spot)>
        requires stands { IsTrue (has_vertex (G.graph graph.now) (walked self.now).vertex) }
        requires number { IsNumberIn (G.label_text graph.now) (G.graph graph.now) self.now.row.label.now self.now.row.label_number }
        requires walked { let row = walked self.now in
            IsNumberIn (G.label_text graph.now) (G.graph graph.now) row.label.now row.label_number }
        requires place { IsPlaceOf (G.is_out_place graph.now) (G.is_in_place graph.now) (walked self.now) from }
        ensures next { IfSome result (λ t. IsPlaceOf (G.is_out_place graph.now) (G.is_in_place graph.now) (walked self.now) t.1) }
        ensures ends { let list = walked_from (G.outs_from graph.now) (G.ins_from graph.now) (G.graph graph.now) self.now in
            MatchOption result (list from ≡ []) (λ t. list from ≡ t.0 ∷ list t.1) }
        ensures less { let row = row_from (G.outs_from graph.now) (G.ins_from graph.now) (walked self.now) in
            IfSome result (λ t. length (row t.1) < length (row from)) }
        ensures steps { let row = row_from (G.outs_from graph.now) (G.ins_from graph.now) (walked self.now) in
            MatchOption result (steps.new ≤ steps.old + 2 * length (row from) + 1)
            (λ t. steps.new + 2 * length (row t.1) ≤ steps.old + 2 * length (row from)) }
    {
        let row = self.walked();
        let mut at = from;
        while let Some((x, next)) = row.next(graph, at, steps) {
            at = next;
            if self.passes(graph, x, steps) {
                return Some((x, at));
            }
        }
        None
    }

    /// The next vertex of the layer to which a triple leads, from the number `from` on, and the number after it.
    fn next_of_layer<G: ReadGraph<L>, L: Ledger>(
        &self,
        graph: &G,
        from: usize,
        steps: &mut Steps<L>,
    ) -> Option<(u32, usize)>
        requires number { IsNumberIn (G.label_text graph.now) (G.graph graph.now) self.now.row.label.now self.now.row.label_number }
        requires place { from ≤ length self.now.layer.now }
        ensures place { IfSome result (λ t. t.1 ≤ length self.now.layer.now) }
        ensures ends { MatchOption result (listed_from (G.graph graph.now) self.now from ≡ [])
            (λ t. listed_from (G.graph graph.now) self.now from ≡ t.0 ∷ listed_from (G.graph graph.now) self.now t.1) }
        ensures less { IfSome result (λ t. from < t.1) }
        ensures steps { MatchOption result (steps.new + from ≤ steps.old + length self.now.layer.now)
            (λ t. steps.new + from ≤ steps.old + t.1) }
    {
        for i in from..self.layer.len() {
            let x = self.layer[i];
            if self.leads_to(graph, x, steps) {
                return Some((x, i + 1));
            }
        }
        None
    }

    /// Whether the anchor's triple leads to `x`, to which the row that is walked leads. It asks where that is another row.
    fn passes<G: ReadGraph<L>, L: Ledger>(&self, graph: &G, x: u32, steps: &mut Steps<L>) -> bool
        requires number { IsNumberIn (G.label_text graph.now) (G.graph graph.now) self.now.row.label.now self.now.row.label_number }
        ensures value { result ≡ passes (G.graph graph.now) self.now x }
        ensures steps { steps.new ≤ steps.old + 1 }
    {
        match &self.shortest.row {
            Some(_) => self.leads_to(graph, x, steps),
            None => true,
        }
    }

    /// Whether a triple of the anchor's row leads to `x`.
    fn leads_to<G: ReadGraph<L>, L: Ledger>(&self, graph: &G, x: u32, steps: &mut Steps<L>) -> bool
        requires number { IsNumberIn (G.label_text graph.now) (G.graph graph.now) self.now.row.label.now self.now.row.label_number }
        ensures value { result ≡ leads_to (G.graph graph.now) self.now x }
        ensures steps { steps.new ≤ steps.old + 1 }
    {
        let row = &self.row;
        match row.direction {
            Direction::Out => stands(graph, row.label, row.label_number, row.vertex, x, steps),
            Direction::In => stands(graph, row.label, row.label_number, x, row.vertex, steps),
        }
    }
}
