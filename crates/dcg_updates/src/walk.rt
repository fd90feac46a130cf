//! `Walk`: a tree edge walked from an id of one of its ends.
ghost use Rattle.std.specs.Prelude.{◌≡◌, ◌≢◌, ◌+◌, ◌*◌, ◌≤◌, ◌<◌, [], ◌∷◌, length, true, false, IsTrue, IfSome, MatchOption, IsPermutation};
ghost use Rattle.flux_model.specs.Graph.{has_vertex};
ghost use Rattle.flux_model.specs.Pattern.{fits_labels};
ghost use Rattle.flux_model.specs.Tree.{BelongsTo};
ghost use Rattle.graph_traits.specs.Numbers.{IsNumberOf};
ghost use Rattle.graph_rows.specs.Directions.{whole_row};
ghost use Rattle.dcg_updates.specs.Plans.{other_in, skip_for, further_for, plan_at, row_from, row_left, left_from, cost_from, is_skipped, IsRowPlace, IsPlaceIn};
ghost use Rattle.dcg_updates.specs.WalkPlans.{plan_of};

use crate::sight::Sight;
use dcg_moves::JointPlace;
use flux_model::{Labels, Ledger, Pattern, Steps, Text, Triple};
use graph_rows::{Direction, GraphRow};
use graph_traits::{HoldGraph, ReadGraph, Spot};
use query_tree::QueryTree;

/// A tree edge walked from an id of one of its ends: a row, of which the ends count that have the labels.
#[derive(Drop)]
pub(crate) struct Walk<'a> {
    pub row: GraphRow<'a>,
    pub labels: &'a Labels,
    /// The end that is passed over.
    pub skip: Option<u32>,
    /// The end that comes behind the row.
    pub further: Option<u32>,
}

/// The walk of the tree edge of `child` from `v` to ids for `end`, which is one of its ends.
pub(crate) fn walk_along<'a, G: HoldGraph>(
    graph: &G,
    pattern: &'a Pattern,
    tree: &QueryTree,
    triple: &Triple,
    sight: Sight,
    child: usize,
    end: usize,
    v: u32,
) -> Walk<'a>
    requires belongs { BelongsTo pattern.now tree.now }
    requires vertex { child < length tree.now.links }
    requires not_root { child ≢ tree.now.root }
    requires end { end < length pattern.now.labels }
    ensures plan { plan_of result ≡ plan_at pattern.now tree.now triple.now sight child end v }
    ensures number { IsNumberOf (G.label_text graph.now) result.row.label.now result.row.label_number }
{
    let link = tree.parent(child).unwrap();
    let edge = pattern.edge(link.edge);
    let direction = Direction::to(edge, end);
    let other = other_in(direction, &edge.label, v, triple);
    Walk {
        row: GraphRow {
            vertex: v,
            direction,
            label: &edge.label,
            label_number: graph.label_number(&edge.label),
        },
        labels: pattern.labels(end),
        skip: skip_for(sight, other),
        further: further_for(sight, other),
    }
}

/// The triple's other end, where it is in the row of `v` for the label.
fn other_in(direction: Direction, label: &Text, v: u32, triple: &Triple) -> Option<u32>
    ensures { result ≡ other_in direction label.now v triple.now }
{
    match direction {
        Direction::Out => {
            if triple.src == v && *label == triple.label {
                Some(triple.dst)
            } else {
                None
            }
        }
        Direction::In => {
            if triple.dst == v && *label == triple.label {
                Some(triple.src)
            } else {
                None
            }
        }
    }
}

/// The end that is passed over, by the triple's other end.
fn skip_for(sight: Sight, other: Option<u32>) -> Option<u32>
    ensures { result ≡ skip_for sight other }
{
    match sight {
        Sight::AtHand => None,
        Sight::Without => other,
        Sight::With => None,
    }
}

/// The end that comes behind the row, by the triple's other end.
fn further_for(sight: Sight, other: Option<u32>) -> Option<u32>
    ensures { result ≡ further_for sight other }
{
    match sight {
        Sight::AtHand => None,
        Sight::Without => None,
        Sight::With => other,
    }
}

impl Walk<'_> {
    /// The first place.
    pub(crate) fn first<G: HoldGraph>(&self, graph: &G) -> JointPlace
        requires { IsTrue (has_vertex (G.graph graph.now) (plan_of self.now).vertex) }
        ensures at { result.given ≡ false }
        ensures place { IsPlaceIn (G.is_out_place graph.now) (G.is_in_place graph.now) (plan_of self.now) result }
        ensures all { let p = plan_of self.now in let row = row_from (G.outs_from graph.now) (G.ins_from graph.now) p in
            IsPermutation (row result.at) (whole_row p.direction (G.graph graph.now) p.vertex) }
    {
        JointPlace {
            at: self.row.first(graph),
            given: false,
        }
    }

    /// The next end that counts, from a place on, and the place after it.
    pub(crate) fn next<G: ReadGraph<L>, L: Ledger>(
        &self,
        graph: &G,
        from: JointPlace,
        steps: &mut Steps<L>,
    ) -> Option<(u32, JointPlace)>
        requires stands { IsTrue (has_vertex (G.graph graph.now) (plan_of self.now).vertex) }
        requires number { IsNumberOf (G.label_text graph.now) self.now.row.label.now self.now.row.label_number }
        requires further { IfSome (plan_of self.now).further (λ w. IsTrue (has_vertex (G.graph graph.now) w)) }
        requires place { IsPlaceIn (G.is_out_place graph.now) (G.is_in_place graph.now) (plan_of self.now) from }
        ensures next { IfSome result (λ t. IsPlaceIn (G.is_out_place graph.now) (G.is_in_place graph.now) (plan_of self.now) t.1) }
        ensures fits { IfSome result (λ t. fits_labels (G.graph graph.now) (plan_of self.now).labels t.0 ≡ true) }
        ensures turn { let left = left_from (G.outs_from graph.now) (G.ins_from graph.now) (G.graph graph.now) (plan_of self.now) in
            MatchOption result (left from ≡ []) (λ t. left from ≡ t.0 ∷ left t.1) }
        ensures cost { let cost = cost_from (G.outs_from graph.now) (G.ins_from graph.now) (plan_of self.now) in
            MatchOption result (steps.new ≤ steps.old + cost from) (λ t. steps.new + cost t.1 ≤ steps.old + cost from) }
    {
        if from.given {
            return None;
        }
        if let Some((w, at)) = self.next_in_row(graph, from.at, steps) {
            return Some((w, JointPlace { at, given: false }));
        }
        let Some(w) = self.further else {
            return None;
        };
        if graph.fits(w, self.labels, steps) {
            Some((
                w,
                JointPlace {
                    at: from.at,
                    given: true,
                },
            ))
        } else {
            None
        }
    }

    /// The next end of the row that counts, from a place on, and the place after it.
    fn next_in_row<G: ReadGraph<L>, L: Ledger>(
        &self,
        graph: &G,
        from: Spot,
        steps: &mut Steps<L>,
    ) -> Option<(u32, Spot)>
        requires stands { IsTrue (has_vertex (G.graph graph.now) (plan_of self.now).vertex) }
        requires number { IsNumberOf (G.label_text graph.now) self.now.row.label.now self.now.row.label_number }
        requires place { IsRowPlace (G.is_out_place graph.now) (G.is_in_place graph.now) (plan_of self.now) from }
        ensures next { IfSome result (λ t. IsRowPlace (G.is_out_place graph.now) (G.is_in_place graph.now) (plan_of self.now) t.1) }
        ensures fits { IfSome result (λ t. fits_labels (G.graph graph.now) (plan_of self.now).labels t.0 ≡ true) }
        ensures turn { let left = row_left (G.outs_from graph.now) (G.ins_from graph.now) (G.graph graph.now) (plan_of self.now) in
            MatchOption result (left from ≡ []) (λ t. left from ≡ t.0 ∷ left t.1) }
        ensures steps { let row = row_from (G.outs_from graph.now) (G.ins_from graph.now) (plan_of self.now) in
            MatchOption result (steps.new ≤ steps.old + 2 * length (row from) + 1)
            (λ t. steps.new + 2 * length (row t.1) ≤ steps.old + 2 * length (row from)) }
    {
        let mut at = from;
        while let Some((w, next)) = self.row.next(graph, at, steps) {
            at = next;
            if is_skipped(self.skip, w) {
                continue;
            }
            if graph.fits(w, self.labels, steps) {
                return Some((w, at));
            }
        }
        None
    }
}

/// Whether the end is the one that is passed over.
fn is_skipped(skip: Option<u32>, w: u32) -> bool
    ensures { result ≡ is_skipped skip w }
{
    match skip {
        None => false,
        Some(x) => x == w,
    }
}
