//! How the rows of a pattern's states become exact again where a vertex came or went.
ghost use Rattle.std.specs.Prelude.{◌≡◌, ◌+◌, ◌≤◌, length, true, OnOk, OnErr};
ghost use Rattle.flux_model.specs.Exact.{IsExact};
ghost use Rattle.flux_model.specs.Graph.{Graph, has_vertex};
ghost use Rattle.flux_model.specs.Tree.{BelongsTo};
ghost use Rattle.dcg_updates.specs.VertexApart.{IsVertexApart};

use dcg_store::Dcg;
use flux_model::{Ledger, Pattern, State, Steps};
use graph_traits::ReadGraph;
use query_tree::QueryTree;
use std::alloc::AllocError;

/// Makes the rows exact over the graph, where they are so over the graph with the vertex `id` more or fewer, at which no
/// triple ends.
///
/// It takes three steps at most. `AllocError` where no memory is left, which is only where the vertex came; the rows are then
/// broken.
pub fn after_vertex<G: ReadGraph<L>, L: Ledger>(
    pattern: &Pattern,
    tree: &QueryTree,
    dcg: &mut Dcg,
    graph: &G,
    id: u32,
    steps: &mut Steps<L>,
) -> Result<(), AllocError>
    requires belongs { BelongsTo pattern.now tree.now }
    requires was { (old : Graph) × IsVertexApart id old (G.graph graph.now) × IsExact pattern.now tree.now old dcg.old }
    ensures exact { OnOk result (IsExact pattern.now tree.now (G.graph graph.now) dcg.new) }
    ensures came { OnErr result (has_vertex (G.graph graph.now) id ≡ true) }
    ensures broken { OnErr result (dcg.new.is_broken ≡ true) }
    ensures cost { steps.new ≤ steps.old + 3 }
{
    let root = tree.root();
    if graph.has_vertex(id, steps) {
        if !graph.fits(id, pattern.labels(root), steps) {
            return Ok(());
        }
        if let Err(error) = dcg.raise_in(root, id, steps) {
            dcg.mark_broken();
            return Err(error);
        }
        return Ok(());
    }
    if let State::Null = dcg.pair_state(root, id, steps) {
        return Ok(());
    }
    dcg.lower_in(root, id, steps);
    Ok(())
}
