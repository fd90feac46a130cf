//! How the rows of a pattern's states become exact again where a triple came or went.
ghost use Rattle.std.specs.Prelude.{◌≡◌, ◌+◌, ◌*◌, ◌≤◌, true, false, OnOk, OnErr};
ghost use Rattle.flux_model.specs.Costs.{move_cost};
ghost use Rattle.flux_model.specs.Exact.{IsExact};
ghost use Rattle.flux_model.specs.Graph.{has_both_ends, has_triple, with_triple, without_triple};
ghost use Rattle.flux_model.specs.Tree.{BelongsTo};
ghost use Rattle.dcg_updates.specs.EdgesLabelled.{edges_labelled};

use crate::sight::Change;
use crate::view::JointView;
use dcg_moves::{delete_joints, insert_joints};
use dcg_store::Dcg;
use flux_model::{Ledger, Pattern, Steps, Triple};
use graph_traits::ReadGraph;
use query_tree::QueryTree;
use std::alloc::AllocError;

/// Makes the rows exact over the graph, where they are so over the graph without the triple, which it has.
///
/// `AllocError` where no memory is left; the rows are then broken.
pub fn after_insert<G: ReadGraph<L>, L: Ledger>(
    pattern: &Pattern,
    tree: &QueryTree,
    dcg: &mut Dcg,
    graph: &G,
    triple: &Triple,
    steps: &mut Steps<L>,
) -> Result<(), AllocError>
    requires belongs { BelongsTo pattern.now tree.now }
    requires ends { has_both_ends (G.graph graph.now) triple.now ≡ true }
    requires stands { has_triple (G.graph graph.now) triple.now ≡ true }
    requires was { IsExact pattern.now tree.now (without_triple (G.graph graph.now) triple.now) dcg.old }
    ensures exact { OnOk result (IsExact pattern.now tree.now (G.graph graph.now) dcg.new) }
    ensures broken { OnErr result (dcg.new.is_broken ≡ true) }
    ensures cost { let g = G.graph graph.now in let cost = move_cost pattern.now tree.now (without_triple g triple.now) g triple.now in
        OnOk result (steps.new ≤ steps.old + cost + 2 * edges_labelled pattern.now triple.now.label) }
{
    // For the proof: what every graph keeps.
    let _count = graph.edge_count();
    let mut view = JointView {
        pattern,
        tree,
        graph,
        triple,
        change: Change::Added,
        next: 0,
    };
    if let Err(error) = insert_joints(tree, &mut view, dcg, steps) {
        dcg.mark_broken();
        return Err(error);
    }
    Ok(())
}

/// Makes the rows exact over the graph, where they are so over the graph with the triple, which it does not have.
///
/// It takes no memory.
pub fn after_delete<G: ReadGraph<L>, L: Ledger>(
    pattern: &Pattern,
    tree: &QueryTree,
    dcg: &mut Dcg,
    graph: &G,
    triple: &Triple,
    steps: &mut Steps<L>,
)
    requires belongs { BelongsTo pattern.now tree.now }
    requires ends { has_both_ends (G.graph graph.now) triple.now ≡ true }
    requires gone { has_triple (G.graph graph.now) triple.now ≡ false }
    requires was { IsExact pattern.now tree.now (with_triple (G.graph graph.now) triple.now) dcg.old }
    ensures exact { IsExact pattern.now tree.now (G.graph graph.now) dcg.new }
    ensures cost { let g = G.graph graph.now in let cost = move_cost pattern.now tree.now g (with_triple g triple.now) triple.now in
        steps.new ≤ steps.old + cost + 2 * edges_labelled pattern.now triple.now.label }
{
    // For the proof: what every graph keeps.
    let _count = graph.edge_count();
    let mut view = JointView {
        pattern,
        tree,
        graph,
        triple,
        change: Change::Taken,
        next: 0,
    };
    delete_joints(tree, &mut view, dcg, steps);
}
