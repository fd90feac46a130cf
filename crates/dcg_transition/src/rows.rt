//! All rows of a tree over a graph.
ghost use Rattle.std.specs.Prelude.{◌≡◌, ◌+◌, ◌*◌, ◌≤◌, length, IfOk, OnOk};
ghost use Rattle.flux_model.specs.Costs.{start_cost};
ghost use Rattle.flux_model.specs.Tree.{BelongsTo};
ghost use Rattle.flux_model.specs.Exact.{IsExact};
ghost use Rattle.dcg_transition.specs.Roots.{with_root_labels};

use crate::extend::extend;
use crate::levels::{child_counts, depths};
use crate::reach::reach;
use crate::roots::fitting;
use dcg_store::Dcg;
use flux_model::{Ledger, Pattern, Steps};
use graph_traits::{HoldGraph, ReadGraph};
use query_tree::QueryTree;
use std::alloc::{AllocError, Global};

/// The exact rows of the states of the pattern over the graph, by this tree of the pattern.
///
/// It takes at most three quarters of the steps of a start. `AllocError` where no memory is left.
pub fn build<G: ReadGraph<L>, L: Ledger>(
    alloc: Global,
    pattern: &Pattern,
    tree: &QueryTree,
    graph: &G,
    steps: &mut Steps<L>,
) -> Result<Dcg, AllocError>
    requires { BelongsTo pattern.now tree.now }
    ensures exact { IfOk result (λ dcg. IsExact pattern.now tree.now (G.graph graph.now) dcg) }
    ensures steps { OnOk result (4 * steps.new ≤ 4 * steps.old + 3 * start_cost pattern.now (G.graph graph.now)) }
{
    let roots = fitting(alloc, graph, pattern.labels(tree.root()), steps)?;
    build_from(alloc, pattern, tree, graph, roots.as_slice(), steps)
}

/// The same, where `roots` has the vertices of the graph that fit the labels of the tree's root, as `fitting` lists them.
///
/// It takes as many steps less as `fitting` may take. `AllocError` where no memory is left.
pub fn build_from<G: ReadGraph<L>, L: Ledger>(
    alloc: Global,
    pattern: &Pattern,
    tree: &QueryTree,
    graph: &G,
    roots: &[u32],
    steps: &mut Steps<L>,
) -> Result<Dcg, AllocError>
    requires belongs { BelongsTo pattern.now tree.now }
    requires roots { roots.now ≡ with_root_labels pattern.now tree.now (G.graph graph.now) (G.listed graph.now) }
    ensures exact { IfOk result (λ dcg. IsExact pattern.now tree.now (G.graph graph.now) dcg) }
    ensures steps { let listing = 2 * length (G.graph graph.now).vertices in
        OnOk result (4 * (steps.new + listing) ≤ 4 * steps.old + 3 * start_cost pattern.now (G.graph graph.now)) }
{
    let depths = depths(alloc, tree)?;
    let counts = child_counts(alloc, tree)?;
    let mut dcg = Dcg::with_seed(alloc, counts.as_slice(), graph.seed())?;
    reach(
        alloc,
        graph,
        pattern,
        tree,
        depths.as_slice(),
        roots,
        &mut dcg,
        steps,
    )?;
    extend(
        alloc,
        graph,
        pattern,
        tree,
        depths.as_slice(),
        &mut dcg,
        steps,
    )?;
    Ok(dcg)
}
