//! The joint that a triple is of a tree edge.
ghost use Rattle.std.specs.Prelude.{◌≡◌, ◌≢◌, ◌+◌, ◌≤◌, ◌<◌, length, true, None, Some, cond, IsTrue, IfSome, MatchOption};
ghost use Rattle.std.specs.Str.{bytes_eq};
ghost use Rattle.flux_model.specs.Graph.{has_vertex, has_both_ends};
ghost use Rattle.flux_model.specs.Pattern.{HasEnds, fits};
ghost use Rattle.flux_model.specs.States.{joint_of};
ghost use Rattle.flux_model.specs.Tree.{BelongsTo};
ghost use Rattle.dcg_updates.specs.Joints.{link_of, joint_cost, ends_fit, joint_along};

use flux_model::{Ledger, Pattern, PatternEdge, Steps, Triple};
use graph_traits::ReadGraph;
use query_tree::QueryTree;

/// The joint that the triple is of the tree edge of `u`: its end for the parent, and its end for `u`.
///
/// It takes two steps where the triple has the edge's label, and none elsewhere.
pub(crate) fn joint_at<G: ReadGraph<L>, L: Ledger>(
    graph: &G,
    pattern: &Pattern,
    tree: &QueryTree,
    triple: &Triple,
    u: usize,
    steps: &mut Steps<L>,
) -> Option<(u32, u32)>
    requires belongs { BelongsTo pattern.now tree.now }
    requires vertex { u < length tree.now.links }
    requires not_root { u ≢ tree.now.root }
    requires ends { has_both_ends (G.graph graph.now) triple.now ≡ true }
    ensures joint { let joint = joint_of pattern.now tree.now (G.graph graph.now) u triple.now in
        MatchOption result (joint ≡ None) (λ e. joint ≡ Some (record { above = e.0; below = e.1 })) }
    ensures above_fits { IfSome result (λ e. fits pattern.now (link_of tree.now u).parent (G.graph graph.now) e.0 ≡ true) }
    ensures below_fits { IfSome result (λ e. fits pattern.now u (G.graph graph.now) e.1 ≡ true) }
    ensures steps { steps.new ≤ steps.old + joint_cost pattern.now tree.now triple.now u }
{
    let link = tree.parent(u).unwrap();
    let edge = pattern.edge(link.edge);
    if !ends_fit(graph, pattern, edge, triple, steps) {
        return None;
    }
    Some(joint_along(edge, u, triple))
}

/// Whether the triple has the label of the edge, and its ends fit the edge's.
fn ends_fit<G: ReadGraph<L>, L: Ledger>(
    graph: &G,
    pattern: &Pattern,
    edge: &PatternEdge,
    triple: &Triple,
    steps: &mut Steps<L>,
) -> bool
    requires vertices { HasEnds (length pattern.now.labels) edge.now }
    requires ends { has_both_ends (G.graph graph.now) triple.now ≡ true }
    ensures value { result ≡ ends_fit pattern.now edge.now (G.graph graph.now) triple.now }
    ensures steps { steps.new ≤ steps.old + cond (bytes_eq edge.now.label triple.now.label) 2 0 }
{
    if edge.label != triple.label {
        return false;
    }
    if !fits(graph, pattern, edge.tail, triple.src, steps) {
        return false;
    }
    fits(graph, pattern, edge.head, triple.dst, steps)
}

/// Whether `v`, which has to be a vertex of the graph, fits the pattern vertex `u`. It takes one step.
fn fits<G: ReadGraph<L>, L: Ledger>(
    graph: &G,
    pattern: &Pattern,
    u: usize,
    v: u32,
    steps: &mut Steps<L>,
) -> bool
    requires vertex { u < length pattern.now.labels }
    requires stands { IsTrue (has_vertex (G.graph graph.now) v) }
    ensures value { result ≡ fits pattern.now u (G.graph graph.now) v }
    ensures step { steps.new ≡ steps.old + 1 }
{
    graph.fits(v, pattern.labels(u), steps)
}

/// The ends of the triple as a joint of the edge, by which `u` hangs.
fn joint_along(edge: &PatternEdge, u: usize, triple: &Triple) -> (u32, u32)
    ensures above { result.0 ≡ (joint_along edge.now u triple.now).above }
    ensures below { result.1 ≡ (joint_along edge.now u triple.now).below }
{
    if edge.head == u {
        (triple.src, triple.dst)
    } else {
        (triple.dst, triple.src)
    }
}
