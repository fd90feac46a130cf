//! The test of the edges that a tree leaves out.
ghost use Rattle.std.specs.Prelude.{◌≡◌, ◌<◌, ◌≤◌, ◌+◌, None, Some, length, slice_get};
ghost use Rattle.flux_model.specs.Partial.{id_of, with_id, edge_joins, joins};
ghost use Rattle.flux_model.specs.Pattern.{HasEnds, vertex_count};
ghost use Rattle.flux_model.specs.Tree.{BelongsTo};
ghost use Rattle.flux_model.specs.Graph.{has_triple};
ghost use Rattle.graph_traits.specs.Numbers.{IsNumberIn};
ghost use Rattle.nontree_test.specs.Numbered.{AreNumbersOf};

use flux_model::{Ledger, Partial, Pattern, PatternEdge, Steps, Text};
use graph_traits::{HoldGraph, ReadGraph};
use query_tree::QueryTree;

/// Whether, with `x` for `w`, every non-tree edge between `w` and `w` or a vertex that has an id has its triple.
///
/// The tree has to be the pattern's, `numbers` what `label_numbers` tells of it, `partial` has to have a place for each of its
/// vertices, and `w` no id yet. Each edge is asked for once at most, up to the first that has no triple.
pub fn joins<G: ReadGraph<L>, L: Ledger>(
    pattern: &Pattern,
    tree: &QueryTree,
    numbers: &[Option<u32>],
    partial: &Partial,
    w: usize,
    x: u32,
    graph: &G,
    steps: &mut Steps<L>,
) -> bool
    requires belongs { BelongsTo pattern.now tree.now }
    requires numbers { AreNumbersOf (G.label_text graph.now) (G.graph graph.now) pattern.now numbers.now }
    requires places { length partial.now ≡ vertex_count pattern.now }
    requires vertex { w < vertex_count pattern.now }
    requires open { slice_get partial.now w ≡ Some None }
    ensures value { result ≡ joins pattern.now tree.now (G.graph graph.now) partial.now w x }
    ensures steps { steps.new ≤ steps.old + length pattern.now.edges }
    ensures onward { steps.old ≤ steps.new }
{
    for i in tree.non_tree() {
        if !edge_joins(pattern.edge(*i), numbers[*i], partial, w, x, graph, steps) {
            return false;
        }
    }
    true
}

/// Whether, with `x` for `w`, the edge has its triple; true where `w` is no end of it, or an end has no id.
fn edge_joins<G: ReadGraph<L>, L: Ledger>(
    edge: &PatternEdge,
    number: Option<u32>,
    partial: &Partial,
    w: usize,
    x: u32,
    graph: &G,
    steps: &mut Steps<L>,
) -> bool
    requires ends { HasEnds (length partial.now) edge.now }
    requires number { IsNumberIn (G.label_text graph.now) (G.graph graph.now) edge.now.label number }
    ensures value { result ≡ edge_joins (G.graph graph.now) partial.now w x edge.now }
    ensures steps { steps.new ≤ steps.old + 1 }
    ensures onward { steps.old ≤ steps.new }
{
    if edge.tail != w && edge.head != w {
        return true;
    }
    let tail = id_with(partial, w, x, edge.tail);
    let head = id_with(partial, w, x, edge.head);
    match (tail, head) {
        (Some(src), Some(dst)) => stands(graph, &edge.label, number, src, dst, steps),
        _ => true,
    }
}

/// Whether the triple of these ends stands with the label, which has this number.
pub fn stands<G: ReadGraph<L>, L: Ledger>(
    graph: &G,
    _label: &Text,
    number: Option<u32>,
    src: u32,
    dst: u32,
    steps: &mut Steps<L>,
) -> bool
    requires { IsNumberIn (G.label_text graph.now) (G.graph graph.now) _label.now number }
    ensures value { result ≡ has_triple (G.graph graph.now) (record { src = src; label = _label.now; dst = dst }) }
    ensures steps { steps.new ≤ steps.old + 1 }
    ensures onward { steps.old ≤ steps.new }
{
    match number {
        Some(number) => graph.has_edge_by(src, number, dst, steps),
        None => false,
    }
}

/// The id of vertex `u`, if it has one, where `w` has `x`.
pub(crate) fn id_with(partial: &Partial, w: usize, x: u32, u: usize) -> Option<u32>
    requires { u < length partial.now }
    ensures { result ≡ id_of (with_id partial.now w x) u }
{
    if u == w { Some(x) } else { partial.get(u) }
}
