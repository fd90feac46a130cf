//! What the index tells of explicit pairs: whether a pair is one, and how many each vertex of the pattern has.
ghost use Rattle.std.specs.Prelude.{◌≡◌, ◌==◌, ◌+◌, ◌<◌, false, length, map};
ghost use Rattle.std.specs.List.{list_any, range_with_len};
ghost use Rattle.flux_model.specs.Exact.{IsExact};
ghost use Rattle.flux_model.specs.Order.{search_order};
ghost use Rattle.flux_model.specs.Pattern.{vertex_count};
ghost use Rattle.flux_model.specs.States.{joined, is_explicit};
ghost use Rattle.flux_model.specs.Tree.{BelongsTo};
ghost use Rattle.dcg_store.specs.SoundRows.{live_count};
ghost use Rattle.match_order.specs.Whole.{IsOrderOf};

use dcg_store::Dcg;
use flux_model::{Ledger, Pattern, State, Steps};
use graph_traits::ReadGraph;
use match_order::{SearchOrder, order};
use query_tree::QueryTree;

/// A pattern has at most so many vertices.
const MOST: usize = 32;

/// Whether the pair of `u` and `v` is explicit.
///
/// For the proof: the pattern, the tree and the graph are those that the index is exact for.
pub fn is_explicit<G: ReadGraph<L>, L: Ledger>(
    _pattern: &Pattern,
    _tree: &QueryTree,
    dcg: &Dcg,
    _graph: &G,
    u: usize,
    v: u32,
    steps: &mut Steps<L>,
) -> bool
    requires belongs { BelongsTo _pattern.now _tree.now }
    requires exact { IsExact _pattern.now _tree.now (G.graph _graph.now) dcg.now }
    requires vertex { u < vertex_count _pattern.now }
    ensures value { result ≡ is_explicit (joined _pattern.now _tree.now (G.graph _graph.now)) u v }
    ensures step { steps.new ≡ steps.old + 1 }
{
    matches!(dcg.pair_state(u, v, steps), State::Explicit)
}

/// Whether some vertex has no explicit pair, so that there is no embedding. It takes no step.
pub fn is_barren(pattern: &Pattern, dcg: &Dcg) -> bool
    requires whole { dcg.now.is_broken ≡ false }
    requires vertices { length dcg.now.children ≡ vertex_count pattern.now }
    ensures { result ≡ list_any (λ u. live_count dcg.now u == 0) (range_with_len 0 (vertex_count pattern.now)) }
{
    for u in 0..pattern.vertex_count() {
        if dcg.live_count(u) == 0 {
            return true;
        }
    }
    false
}

/// The order of a search from a vertex, by the number of explicit pairs.
pub fn order_by_live(pattern: &Pattern, tree: &QueryTree, dcg: &Dcg, start: usize) -> SearchOrder
    requires belongs { BelongsTo pattern.now tree.now }
    requires whole { dcg.now.is_broken ≡ false }
    requires vertices { length dcg.now.children ≡ vertex_count pattern.now }
    requires start { start < vertex_count pattern.now }
    ensures order { IsOrderOf tree.now result }
    ensures start { result.start ≡ start }
    ensures live { result ≡ search_order tree.now start (map (live_count dcg.now) (range_with_len 0 (vertex_count pattern.now))) }
{
    let count = pattern.vertex_count();
    let mut live = [0; MOST];
    for u in 0..count {
        live[u] = dcg.live_count(u);
    }
    order(tree, start, &live[..count])
}
