//! The rows, from the root down.
ghost use Rattle.std.specs.Prelude.{◌≡◌, ◌≢◌, ◌<◌, ◌≤◌, ◌+◌, ◌*◌, ◌==◌, count_by, length, false, IsTrue, OnOk};
ghost use Rattle.std.specs.FinMap.{empty};
ghost use Rattle.flux_model.specs.Graph.{has_vertex};
ghost use Rattle.flux_model.specs.Tree.{BelongsTo};
ghost use Rattle.flux_model.specs.States.{joined};
ghost use Rattle.graph_traits.specs.Numbers.{IsNumberOf};
ghost use Rattle.query_tree.specs.Depth.{depth};
ghost use Rattle.graph_rows.specs.Branches.{joins_to};
ghost use Rattle.graph_rows.specs.Directions.{whole_row};
ghost use Rattle.dcg_transition.specs.Tallies.{HasRoomToJoin};
ghost use Rattle.dcg_transition.specs.Filled.{child_counts, AreBegun, HasMoreIns};
ghost use Rattle.dcg_transition.specs.Levels.{depths_of, IsReachedTo, IsCounted};
ghost use Rattle.dcg_transition.specs.Roots.{with_root_labels};

use dcg_store::Dcg;
use flux_model::{Ledger, Pattern, Steps};
use graph_rows::Branch;
use graph_traits::{HoldGraph, ReadGraph};
use query_tree::QueryTree;
use std::alloc::{AllocError, Global};

/// Makes the rows of all pairs that are not null, with no out counter raised. `depths` has the depth of each vertex.
///
/// `roots` has the vertices that fit the root. Each vertex of the graph takes one step at most for the root, one for each vertex of the
/// tree, and there three for each of its triples.
pub fn reach<G: ReadGraph<L>, L: Ledger>(
    alloc: Global,
    graph: &G,
    pattern: &Pattern,
    tree: &QueryTree,
    depths: &[usize],
    roots: &[u32],
    dcg: &mut Dcg,
    steps: &mut Steps<L>,
) -> Result<(), AllocError>
    requires belongs { BelongsTo pattern.now tree.now }
    requires depths { depths.now ≡ depths_of tree.now }
    requires roots { roots.now ≡ with_root_labels pattern.now tree.now (G.graph graph.now) (G.listed graph.now) }
    requires empty { dcg.old ≡ record { is_broken = false; children = child_counts tree.now; rows = empty } }
    ensures counted { OnOk result (IsCounted (joined pattern.now tree.now (G.graph graph.now)) (λ _. false) dcg.new) }
    ensures steps { let v = length (G.graph graph.now).vertices in let rows = v + 3 * length (G.graph graph.now).triples in
        OnOk result (steps.new ≤ steps.old + v + length tree.now.links * rows) }
{
    reach_root(graph, pattern, tree, roots, dcg, steps)?;
    for level in 1..tree.vertex_count() {
        reach_level(alloc, graph, pattern, tree, depths, level, dcg, steps)?;
    }
    Ok(())
}

/// Makes the rows of the root, of the vertices that fit it. Each takes one step.
fn reach_root<G: HoldGraph, L: Ledger>(
    graph: &G,
    pattern: &Pattern,
    tree: &QueryTree,
    roots: &[u32],
    dcg: &mut Dcg,
    steps: &mut Steps<L>,
) -> Result<(), AllocError>
    requires belongs { BelongsTo pattern.now tree.now }
    requires roots { roots.now ≡ with_root_labels pattern.now tree.now (G.graph graph.now) (G.listed graph.now) }
    requires empty { dcg.old ≡ record { is_broken = false; children = child_counts tree.now; rows = empty } }
    ensures reached { OnOk result (IsReachedTo pattern.now tree.now (G.graph graph.now) 1 0 dcg.new) }
    ensures steps { OnOk result (steps.new ≤ steps.old + length (G.graph graph.now).vertices) }
{
    let root = tree.root();
    // For the proof: the root has labels, and the graph has each vertex once and is within its limits.
    let _labels = pattern.labels(root);
    let _count = graph.vertex_count();
    for v in roots {
        dcg.raise_in(root, *v, steps)?;
    }
    Ok(())
}

/// Makes the rows of the vertices of one level, where those of the levels above are there.
fn reach_level<G: ReadGraph<L>, L: Ledger>(
    alloc: Global,
    graph: &G,
    pattern: &Pattern,
    tree: &QueryTree,
    depths: &[usize],
    level: usize,
    dcg: &mut Dcg,
    steps: &mut Steps<L>,
) -> Result<(), AllocError>
    requires belongs { BelongsTo pattern.now tree.now }
    requires depths { depths.now ≡ depths_of tree.now }
    requires below_root { 0 < level }
    requires reached { IsReachedTo pattern.now tree.now (G.graph graph.now) level 0 dcg.old }
    ensures reached { OnOk result (IsReachedTo pattern.now tree.now (G.graph graph.now) (level + 1) 0 dcg.new) }
    ensures steps { let rows = length (G.graph graph.now).vertices + 3 * length (G.graph graph.now).triples in
        OnOk result (steps.new ≤ steps.old + count_by (λ d. d == level) depths.now * rows) }
{
    for (u, depth) in depths.iter().enumerate() {
        if *depth != level {
            continue;
        }
        reach_vertex(alloc, graph, pattern, tree, u, dcg, steps)?;
    }
    Ok(())
}

/// Makes the rows of the vertex `u`, which is not the root, from those of its parent.
fn reach_vertex<G: ReadGraph<L>, L: Ledger>(
    alloc: Global,
    graph: &G,
    pattern: &Pattern,
    tree: &QueryTree,
    u: usize,
    dcg: &mut Dcg,
    steps: &mut Steps<L>,
) -> Result<(), AllocError>
    requires belongs { BelongsTo pattern.now tree.now }
    requires vertex { u < length tree.now.links }
    requires not_root { u ≢ tree.now.root }
    requires reached { IsReachedTo pattern.now tree.now (G.graph graph.now) (depth tree.now u) u dcg.old }
    ensures reached { OnOk result (IsReachedTo pattern.now tree.now (G.graph graph.now) (depth tree.now u) (u + 1) dcg.new) }
    ensures steps { let rows = length (G.graph graph.now).vertices + 3 * length (G.graph graph.now).triples in
        OnOk result (steps.new ≤ steps.old + rows) }
{
    let branch = Branch::of(graph, pattern, tree, u);
    // For the proof: the graph is within its limits.
    let _count = graph.edge_count();
    let vertices = Vec::from_slice(alloc, dcg.row_vertices(branch.link.parent))?;
    for v in &vertices {
        reach_ends(graph, &branch, *v, dcg, steps)?;
    }
    Ok(())
}

/// Raises the in counters of the ends of the joints from `v`.
fn reach_ends<G: ReadGraph<L>, L: Ledger>(
    graph: &G,
    branch: &Branch<'_>,
    v: u32,
    dcg: &mut Dcg,
    steps: &mut Steps<L>,
) -> Result<(), AllocError>
    requires stands { IsTrue (has_vertex (G.graph graph.now) v) }
    requires label_number { IsNumberOf (G.label_text graph.now) branch.now.label.now branch.now.label_number }
    requires whole { dcg.old.is_broken ≡ false }
    requires child { branch.now.child < length dcg.old.children }
    requires begun { AreBegun dcg.old branch.now.child }
    requires room { HasRoomToJoin dcg.old branch.now (G.graph graph.now) v }
    ensures ins { OnOk result (HasMoreIns branch.now.child (joins_to branch.now (G.graph graph.now) v) dcg.old dcg.new) }
    ensures steps { let row = length (whole_row branch.now.direction (G.graph graph.now) v) in
        OnOk result (steps.new ≤ steps.old + 1 + 3 * row) }
{
    let row = branch.row(v);
    let mut at = row.first(graph);
    while let Some((w, next)) = row.next(graph, at, steps) {
        at = next;
        if graph.fits(w, branch.labels, steps) {
            dcg.raise_in(branch.child, w, steps)?;
        }
    }
    Ok(())
}
