//! The out counters, from the leaves up.
ghost use Rattle.std.specs.Prelude.{◌≡◌, ◌≢◌, ◌<◌, ◌≤◌, ◌+◌, ◌-◌, ◌*◌, ◌==◌, count_by, length, slice_index, false, IsTrue, OnOk};
ghost use Rattle.std.specs.Option.{IsSomeAnd};
ghost use Rattle.flux_model.specs.Graph.{has_vertex};
ghost use Rattle.flux_model.specs.Tree.{BelongsTo};
ghost use Rattle.flux_model.specs.States.{joined};
ghost use Rattle.flux_model.specs.Exact.{row_at, IsExact};
ghost use Rattle.graph_traits.specs.Numbers.{IsNumberOf};
ghost use Rattle.query_tree.specs.Depth.{depth};
ghost use Rattle.graph_rows.specs.Directions.{whole_row};
ghost use Rattle.dcg_transition.specs.Tallies.{opens_from};
ghost use Rattle.dcg_transition.specs.Filled.{is_open, HasMoreOuts, HasRoomFor};
ghost use Rattle.dcg_transition.specs.Levels.{depths_of, IsCounted, IsCountedTo};

use dcg_store::Dcg;
use flux_model::{Ledger, Pattern, State, Steps};
use graph_rows::Branch;
use graph_traits::{HoldGraph, ReadGraph};
use query_tree::QueryTree;
use std::alloc::{AllocError, Global};

/// Raises the out counters of all rows, where none is raised yet. `depths` has the depth of each vertex.
///
/// Of each vertex of the tree each vertex of the graph takes one step at most, and three for each of its triples.
pub fn extend<G: ReadGraph<L>, L: Ledger>(
    alloc: Global,
    graph: &G,
    pattern: &Pattern,
    tree: &QueryTree,
    depths: &[usize],
    dcg: &mut Dcg,
    steps: &mut Steps<L>,
) -> Result<(), AllocError>
    requires belongs { BelongsTo pattern.now tree.now }
    requires depths { depths.now ≡ depths_of tree.now }
    requires reached { IsCounted (joined pattern.now tree.now (G.graph graph.now)) (λ _. false) dcg.old }
    ensures exact { OnOk result (IsExact pattern.now tree.now (G.graph graph.now) dcg.new) }
    ensures steps { let rows = length (G.graph graph.now).vertices + 3 * length (G.graph graph.now).triples in
        OnOk result (steps.new ≤ steps.old + length tree.now.links * rows) }
{
    let count = tree.vertex_count();
    for done in 1..count {
        extend_level(
            alloc,
            graph,
            pattern,
            tree,
            depths,
            count - done,
            dcg,
            steps,
        )?;
    }
    Ok(())
}

/// Counts the vertices of one level at their parents, where those of the levels below are counted.
fn extend_level<G: ReadGraph<L>, L: Ledger>(
    alloc: Global,
    graph: &G,
    pattern: &Pattern,
    tree: &QueryTree,
    depths: &[usize],
    level: usize,
    dcg: &mut Dcg,
    steps: &mut Steps<L>,
) -> Result<(), AllocError>
    requires belongs { BelongsTo pattern.now tree.now }
    requires depths { depths.now ≡ depths_of tree.now }
    requires below_root { 0 < level }
    requires counted { IsCountedTo pattern.now tree.now (G.graph graph.now) level 0 dcg.old }
    ensures counted { OnOk result (IsCountedTo pattern.now tree.now (G.graph graph.now) (level - 1) 0 dcg.new) }
    ensures steps { let rows = length (G.graph graph.now).vertices + 3 * length (G.graph graph.now).triples in
        OnOk result (steps.new ≤ steps.old + count_by (λ d. d == level) depths.now * rows) }
{
    for (u, depth) in depths.iter().enumerate() {
        if *depth != level {
            continue;
        }
        extend_to(alloc, graph, pattern, tree, u, dcg, steps)?;
    }
    Ok(())
}

/// Counts the vertex `u`, which is not the root, at its parent: each row gets the number of joints to explicit pairs of `u`.
fn extend_to<G: ReadGraph<L>, L: Ledger>(
    alloc: Global,
    graph: &G,
    pattern: &Pattern,
    tree: &QueryTree,
    u: usize,
    dcg: &mut Dcg,
    steps: &mut Steps<L>,
) -> Result<(), AllocError>
    requires belongs { BelongsTo pattern.now tree.now }
    requires vertex { u < length tree.now.links }
    requires not_root { u ≢ tree.now.root }
    requires counted { IsCountedTo pattern.now tree.now (G.graph graph.now) (depth tree.now u) u dcg.old }
    ensures counted { OnOk result (IsCountedTo pattern.now tree.now (G.graph graph.now) (depth tree.now u) (u + 1) dcg.new) }
    ensures steps { let rows = length (G.graph graph.now).vertices + 3 * length (G.graph graph.now).triples in
        OnOk result (steps.new ≤ steps.old + rows) }
{
    let branch = Branch::of(graph, pattern, tree, u);
    // For the proof: the graph is within its limits.
    let _count = graph.edge_count();
    let vertices = Vec::from_slice(alloc, dcg.row_vertices(branch.link.parent))?;
    for v in &vertices {
        extend_ends(graph, &branch, *v, dcg, steps);
    }
    Ok(())
}

/// Counts the joints from `v` to explicit pairs.
fn extend_ends<G: ReadGraph<L>, L: Ledger>(
    graph: &G,
    branch: &Branch<'_>,
    v: u32,
    dcg: &mut Dcg,
    steps: &mut Steps<L>,
)
    requires stands { IsTrue (has_vertex (G.graph graph.now) v) }
    requires label_number { IsNumberOf (G.label_text graph.now) branch.now.label.now branch.now.label_number }
    requires whole { dcg.old.is_broken ≡ false }
    requires parent { branch.now.link.parent < length dcg.old.children }
    requires child { branch.now.child < length dcg.old.children }
    requires apart { branch.now.child ≢ branch.now.link.parent }
    requires number { branch.now.number < slice_index dcg.old.children branch.now.link.parent }
    requires row { let more = opens_from dcg.old branch.now (G.graph graph.now) v in
        IsSomeAnd (row_at dcg.old branch.now.link.parent v) (HasRoomFor branch.now.number more) }
    ensures outs { let more = opens_from dcg.old branch.now (G.graph graph.now) v in
        HasMoreOuts branch.now.link.parent v branch.now.number more dcg.old dcg.new }
    ensures steps { let row = length (whole_row branch.now.direction (G.graph graph.now) v) in
        steps.new ≤ steps.old + 1 + 3 * row }
{
    let row = branch.row(v);
    let mut at = row.first(graph);
    while let Some((w, next)) = row.next(graph, at, steps) {
        at = next;
        if is_explicit(dcg, branch.child, w, steps) {
            dcg.raise_out(branch.link.parent, v, branch.number, steps);
        }
    }
}

/// Whether the pair of `u` and `w` is explicit by its row.
fn is_explicit<L: Ledger>(dcg: &Dcg, u: usize, w: u32, steps: &mut Steps<L>) -> bool
    requires whole { dcg.now.is_broken ≡ false }
    requires vertex { u < length dcg.now.children }
    ensures value { result ≡ is_open (row_at dcg.now u w) }
    ensures step { steps.new ≡ steps.old + 1 }
{
    match dcg.pair_state(u, w, steps) {
        State::Explicit => true,
        State::Null | State::Implicit => false,
    }
}
