//! `Search`: what is searched, and how it goes on from the ids that the first vertices of its order have.
ghost use Rattle.std.specs.Prelude.{◌≡◌, ◌≤◌, ◌+◌, ◌<◌, ◌++◌, ℕ, [], ◌∷◌, Some, None, IsTrue, IsSome, OnOk, OnErr};
ghost use Rattle.std.specs.Prelude.{length, slice_get, nat_eq, true, false};
ghost use Rattle.std.specs.List.{IsDistinct};
ghost use Rattle.flux_model.specs.Costs.{degree};
ghost use Rattle.flux_model.specs.Order.{are_neighbours};
ghost use Rattle.flux_model.specs.Partial.{with_id};
ghost use Rattle.flux_model.specs.Pattern.{vertex_count};
ghost use Rattle.flux_model.specs.Tree.{BelongsTo, link_at};
ghost use Rattle.graph_traits.specs.Numbers.{IsNumberIn};
ghost use Rattle.match_order.specs.Whole.{vertices};
ghost use Rattle.nontree_test.specs.Numbered.{AreNumbersOf};
ghost use Rattle.tree_search.specs.Aim.{IsAim, IsAimed};
ghost use Rattle.tree_search.specs.declared.aim.Aim.TheVariants.{All};
ghost use Rattle.tree_search.specs.AimedMembers.{members_at, may_take, HasEachId};
ghost use Rattle.tree_search.specs.CandidatesLeft.{walked};
ghost use Rattle.tree_search.specs.Given.{IsReady, IsGiven, IsRowAt, nth_vertex, may_have, edge_of, edge_between};
ghost use Rattle.tree_search.specs.LookCost.{look_from};
ghost use Rattle.tree_search.specs.Members.{ids_of, GrewByAll, GrewBySome};
ghost use Rattle.tree_search.specs.SearchCosts.{MeetsNoDeadEnd, test_cost, members_cost};
ghost use Rattle.tree_search.specs.Ways.{IsWay, turns};

use crate::ahead::meets_head;
use crate::aim::{Aim, keeps_aim, target};
use crate::candidates::Candidates;
use crate::explicit_pairs::is_explicit;
use crate::found::Found;
use crate::other_rows::shortest_row;
use dcg_store::Dcg;
use flux_model::{Ledger, Partial, Pattern, Steps};
use graph_rows::{Direction, GraphRow};
use graph_traits::{HoldGraph, ReadGraph};
use match_order::SearchOrder;
use nontree_test::{free, joins};
use query_tree::QueryTree;
use std::alloc::AllocError;
use std::slice;

/// A pattern has at most so many vertices.
const MOST: usize = 32;

/// A pattern has at most so many edges.
const MOST_EDGES: usize = 64;

/// What is searched, and in which order.
#[derive(Drop)]
pub struct Search<'a, 'b, G> {
    pub pattern: &'a Pattern,
    pub tree: &'a QueryTree,
    pub dcg: &'a Dcg,
    pub graph: &'a G,
    pub aim: Aim<'b>,
    pub order: SearchOrder,
    /// The numbers that the graph has for the labels of the pattern's edges.
    pub numbers: [Option<u32>; MOST_EDGES],
}

/// Hands over every embedding that is aimed at and has the ids of the first `k` vertices of the order.
pub fn extend<G: ReadGraph<L>, F: Found, L: Ledger>(
    search: &Search<'_, '_, G>,
    k: usize,
    partial: &mut Partial,
    found: &mut F,
    steps: &mut Steps<L>,
) -> Result<(), AllocError>
    requires ready { IsReady search.now.pattern.now search.now.tree.now search.now.dcg.now (G.graph search.now.graph.now) search.now.order }
    requires numbers { AreNumbersOf (G.label_text search.now.graph.now) (G.graph search.now.graph.now)
        search.now.pattern.now search.now.numbers }
    requires some { 1 ≤ k }
    requires few { k ≤ length (vertices search.now.order) }
    requires given { IsGiven search.now.pattern.now search.now.tree.now (G.graph search.now.graph.now) search.now.order k partial.old }
    requires aimed { IsAimed search.now.pattern.now search.now.aim partial.old }
    ensures partial { OnOk result (partial.new ≡ partial.old) }
    ensures found { OnOk result (GrewByAll (F.list found.old) (F.list found.new)
        (members_at search.now.pattern.now (G.graph search.now.graph.now) search.now.aim partial.old)) }
    ensures steps { OnOk result (MeetsNoDeadEnd search.now.pattern.now search.now.tree.now
        → search.now.order.start ≡ search.now.tree.now.root → search.now.aim ≡ All
        → steps.new ≤ steps.old
        + members_cost search.now.pattern.now search.now.tree.now (G.graph search.now.graph.now) search.now.order k partial.old) }
    ensures look { OnOk result (steps.new ≤ steps.old
        + look_from search.now.pattern.now search.now.tree.now (G.graph search.now.graph.now) search.now.aim search.now.order k
        (ids_of partial.old)) }
    ensures some { OnErr result (GrewBySome (F.list found.old) (F.list found.new)
        (members_at search.now.pattern.now (G.graph search.now.graph.now) search.now.aim partial.old)) }
{
    if k == search.order.len() {
        return hand_over(partial, found);
    }
    let w = search.order.vertex(k);
    let candidates = candidates_at(search, k, partial);
    let mut at = candidates.first(search.graph);
    while let Some((x, next)) = candidates.next(search.graph, at, steps) {
        at = next;
        if may_try(search, w, x, partial, steps) {
            partial.put(w, x);
            extend(search, k + 1, partial, found, steps)?;
            partial.clear(w);
        }
    }
    Ok(())
}

/// The candidates for the vertex at place `k`.
fn candidates_at<'a, G: HoldGraph>(
    search: &'a Search<'_, '_, G>,
    k: usize,
    partial: &Partial,
) -> Candidates<'a>
    requires ready { IsReady search.now.pattern.now search.now.tree.now search.now.dcg.now (G.graph search.now.graph.now) search.now.order }
    requires numbers { AreNumbersOf (G.label_text search.now.graph.now) (G.graph search.now.graph.now)
        search.now.pattern.now search.now.numbers }
    requires some { 1 ≤ k }
    requires few { k < length (vertices search.now.order) }
    requires given { IsGiven search.now.pattern.now search.now.tree.now (G.graph search.now.graph.now) search.now.order k partial.now }
    requires aim { IsAim search.now.pattern.now search.now.aim }
    ensures row { IsRowAt search.now.pattern.now search.now.tree.now search.now.order k partial.now
        result.row.vertex result.row.direction result.row.label.now }
    ensures number { IsNumberIn (G.label_text search.now.graph.now) (G.graph search.now.graph.now)
        result.row.label.now result.row.label_number }
    ensures way { IsWay (G.label_text search.now.graph.now) search.now.pattern.now (G.graph search.now.graph.now)
        partial.now (nth_vertex search.now.order k) (walked result) }
    ensures short { turns (G.graph search.now.graph.now) (walked result) ≤ degree (G.graph search.now.graph.now) result.row.vertex }
    ensures counted { result.shortest.turns ≡ turns (G.graph search.now.graph.now) (walked result) }
    ensures once { IsDistinct nat_eq result.layer.now }
    ensures each { HasEachId search.now.pattern.now (G.graph search.now.graph.now) search.now.aim partial.now
        (nth_vertex search.now.order k) result.layer.now }
{
    let row = row_to(search, k, partial);
    let shortest = shortest_row(search, k, partial, &row);
    Candidates {
        row,
        shortest,
        layer: listed(search, k, partial),
    }
}

/// Ids among which is that of the vertex at place `k` in each embedding that is aimed at: the one that it has to have, or the
/// vertices of the graph that have a row in the index.
fn listed<'a, G: HoldGraph>(
    search: &'a Search<'_, '_, G>,
    k: usize,
    _partial: &Partial,
) -> &'a [u32]
    requires ready { IsReady search.now.pattern.now search.now.tree.now search.now.dcg.now (G.graph search.now.graph.now) search.now.order }
    requires few { k < length (vertices search.now.order) }
    requires given { IsGiven search.now.pattern.now search.now.tree.now (G.graph search.now.graph.now) search.now.order k _partial.now }
    requires aim { IsAim search.now.pattern.now search.now.aim }
    ensures once { IsDistinct nat_eq result.now }
    ensures each { HasEachId search.now.pattern.now (G.graph search.now.graph.now) search.now.aim _partial.now
        (nth_vertex search.now.order k) result.now }
{
    let w = search.order.vertex(k);
    match target(search.pattern, search.aim, w) {
        Some(id) => slice::from_ref(id),
        None => search.dcg.row_vertices(w),
    }
}

/// The row of the id of the anchor at place `k`, in the direction in which the tree edge leads to the vertex.
fn row_to<'a, G: HoldGraph>(
    search: &'a Search<'_, '_, G>,
    k: usize,
    partial: &Partial,
) -> GraphRow<'a>
    requires ready { IsReady search.now.pattern.now search.now.tree.now search.now.dcg.now (G.graph search.now.graph.now) search.now.order }
    requires numbers { AreNumbersOf (G.label_text search.now.graph.now) (G.graph search.now.graph.now)
        search.now.pattern.now search.now.numbers }
    requires some { 1 ≤ k }
    requires few { k < length (vertices search.now.order) }
    requires given { IsGiven search.now.pattern.now search.now.tree.now (G.graph search.now.graph.now) search.now.order k partial.now }
    ensures row { IsRowAt search.now.pattern.now search.now.tree.now search.now.order k partial.now
        result.vertex result.direction result.label.now }
    ensures number { IsNumberIn (G.label_text search.now.graph.now) (G.graph search.now.graph.now) result.label.now result.label_number }
{
    let w = search.order.vertex(k);
    let anchor = search.order.anchor(k);
    let number = edge_between(search.pattern, search.tree, w, anchor);
    let edge = search.pattern.edge(number);
    GraphRow {
        vertex: partial.get(anchor).unwrap(),
        direction: Direction::to(edge, w),
        label: &edge.label,
        label_number: search.numbers[number],
    }
}

/// The number of the edge of the tree between two vertices, one of which hangs from the other.
fn edge_between(pattern: &Pattern, tree: &QueryTree, w: usize, anchor: usize) -> usize
    requires belongs { BelongsTo pattern.now tree.now }
    requires vertex { w < length tree.now.links }
    requires anchor { anchor < length tree.now.links }
    requires joined { IsTrue (are_neighbours tree.now w anchor) }
    ensures number { result ≡ edge_between tree.now w anchor }
    ensures within { result < length pattern.now.edges }
{
    if tree.is_child(anchor, w) {
        edge_above(pattern, tree, w)
    } else {
        edge_above(pattern, tree, anchor)
    }
}

/// The number of the edge by which vertex `u` hangs, which has a link.
fn edge_above(_pattern: &Pattern, tree: &QueryTree, u: usize) -> usize
    requires belongs { BelongsTo _pattern.now tree.now }
    requires vertex { u < length tree.now.links }
    requires link { IsSome (link_at tree.now u) }
    ensures number { result ≡ edge_of (link_at tree.now u) }
    ensures within { result < length _pattern.now.edges }
{
    let link = tree.parent(u).unwrap();
    link.edge
}

/// Whether the search is to go on with the id `x` for the vertex `w`, which has no id yet: it may have it, and where it does not
/// go on, no embedding that is aimed at has it.
fn may_try<G: ReadGraph<L>, L: Ledger>(
    search: &Search<'_, '_, G>,
    w: usize,
    x: u32,
    partial: &Partial,
    steps: &mut Steps<L>,
) -> bool
    requires ready { IsReady search.now.pattern.now search.now.tree.now search.now.dcg.now (G.graph search.now.graph.now) search.now.order }
    requires numbers { AreNumbersOf (G.label_text search.now.graph.now) (G.graph search.now.graph.now)
        search.now.pattern.now search.now.numbers }
    requires aim { IsAim search.now.pattern.now search.now.aim }
    requires places { length partial.now ≡ vertex_count search.now.pattern.now }
    requires vertex { w < length partial.now }
    requires open { slice_get partial.now w ≡ Some None }
    ensures taken { result ≡ true
        → may_take search.now.pattern.now search.now.tree.now (G.graph search.now.graph.now) search.now.aim partial.now w x ≡ true }
    ensures none { result ≡ false
        → members_at search.now.pattern.now (G.graph search.now.graph.now) search.now.aim (with_id partial.now w x) ≡ [] }
    ensures steps { steps.new
        ≤ steps.old + test_cost search.now.pattern.now search.now.tree.now (G.graph search.now.graph.now) w x + 1 }
{
    if !meets_head(search, w, x, partial, steps) {
        return false;
    }
    may_take(search, w, x, partial, steps)
}

/// Whether the vertex `w`, which has no id yet, may have the id `x` in an embedding that is aimed at.
pub fn may_take<G: ReadGraph<L>, L: Ledger>(
    search: &Search<'_, '_, G>,
    w: usize,
    x: u32,
    partial: &Partial,
    steps: &mut Steps<L>,
) -> bool
    requires ready { IsReady search.now.pattern.now search.now.tree.now search.now.dcg.now (G.graph search.now.graph.now) search.now.order }
    requires numbers { AreNumbersOf (G.label_text search.now.graph.now) (G.graph search.now.graph.now)
        search.now.pattern.now search.now.numbers }
    requires aim { IsAim search.now.pattern.now search.now.aim }
    requires places { length partial.now ≡ vertex_count search.now.pattern.now }
    requires vertex { w < length partial.now }
    requires open { slice_get partial.now w ≡ Some None }
    ensures value { result
        ≡ may_take search.now.pattern.now search.now.tree.now (G.graph search.now.graph.now) search.now.aim partial.now w x }
    ensures steps { steps.new ≤ steps.old + test_cost search.now.pattern.now search.now.tree.now (G.graph search.now.graph.now) w x }
{
    keeps_aim(search.pattern, search.aim, partial, w, x) && may_have(search, w, x, partial, steps)
}

/// Whether the vertex `w`, which has no id yet, may have the id `x`.
pub fn may_have<G: ReadGraph<L>, L: Ledger>(
    search: &Search<'_, '_, G>,
    w: usize,
    x: u32,
    partial: &Partial,
    steps: &mut Steps<L>,
) -> bool
    requires ready { IsReady search.now.pattern.now search.now.tree.now search.now.dcg.now (G.graph search.now.graph.now) search.now.order }
    requires numbers { AreNumbersOf (G.label_text search.now.graph.now) (G.graph search.now.graph.now)
        search.now.pattern.now search.now.numbers }
    requires places { length partial.now ≡ vertex_count search.now.pattern.now }
    requires vertex { w < length partial.now }
    requires open { slice_get partial.now w ≡ Some None }
    ensures value { result ≡ may_have search.now.pattern.now search.now.tree.now (G.graph search.now.graph.now) partial.now w x }
    ensures steps { steps.new ≤ steps.old + test_cost search.now.pattern.now search.now.tree.now (G.graph search.now.graph.now) w x }
{
    is_explicit(
        search.pattern,
        search.tree,
        search.dcg,
        search.graph,
        w,
        x,
        steps,
    ) && free(search.pattern.mode(), partial, x)
        && joins(
            search.pattern,
            search.tree,
            &search.numbers,
            partial,
            w,
            x,
            search.graph,
            steps,
        )
}

/// Hands over the ids; each vertex has to have one.
fn hand_over<F: Found>(partial: &Partial, found: &mut F) -> Result<(), AllocError>
    requires { length partial.now ≤ 32 }
    ensures ok { OnOk result (F.list found.new ≡ F.list found.old ++ ids_of partial.now ∷ []) }
    ensures err { OnErr result (F.list found.new ≡ F.list found.old) }
{
    let count = partial.len();
    let mut ids = [0; MOST];
    for u in 0..count {
        ids[u] = partial.get(u).unwrap_or(0);
    }
    found.take(&ids[..count])
}
