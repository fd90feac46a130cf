//! What the id that a head has to have tells of a candidate, before the search comes to the head.
ghost use Rattle.std.specs.Prelude.{◌≡◌, ◌≢◌, ◌≤◌, ◌<◌, ◌+◌, ℕ, List, IfSome, IsTrue, false, length, slice_index};
ghost use Rattle.flux_model.specs.Embedding.{is_embedding};
ghost use Rattle.flux_model.specs.Members.{In};
ghost use Rattle.flux_model.specs.Pattern.{vertex_count};
ghost use Rattle.nontree_test.specs.Numbered.{AreNumbersOf};
ghost use Rattle.tree_search.specs.Aim.{IsAim, aimed};

use crate::aim::Aim;
use crate::search::Search;
use flux_model::{Ledger, Partial, Pattern, PatternEdge, Steps};
use graph_traits::{HoldGraph, ReadGraph};
use nontree_test::stands;

/// Whether, with `x` for `w`, an edge between `w` and the head of an edge that is sent to a triple has its triple, where there is
/// such an edge and the head has no id yet. It takes at most one step.
pub fn meets_head<G: ReadGraph<L>, L: Ledger>(
    search: &Search<'_, '_, G>,
    w: usize,
    x: u32,
    partial: &Partial,
    steps: &mut Steps<L>,
) -> bool
    requires numbers { AreNumbersOf (G.label_text search.now.graph.now) (G.graph search.now.graph.now)
        search.now.pattern.now search.now.numbers }
    requires aim { IsAim search.now.pattern.now search.now.aim }
    requires places { length partial.now ≡ vertex_count search.now.pattern.now }
    ensures none { result ≡ false → (m : List ℕ) → In (aimed search.now.pattern.now (G.graph search.now.graph.now) search.now.aim) m
        → slice_index m w ≢ x }
    ensures steps { steps.new ≤ steps.old + 1 }
{
    match search.aim {
        Aim::All => true,
        Aim::Edge { number, triple } => {
            let head = search.pattern.edge(number).head;
            if partial.get(head).is_some() {
                return true;
            }
            match edge_beside(search.pattern, w, head) {
                Some(i) => joins_both(search, i, w, x, head, triple.dst, steps),
                None => true,
            }
        }
    }
}

/// The number of the first edge between two vertices.
fn edge_beside(pattern: &Pattern, u: usize, w: usize) -> Option<usize>
    ensures { IfSome result (λ i. i < length pattern.now.edges) }
{
    for i in 0..pattern.edge_count() {
        if is_beside(pattern.edge(i), u, w) {
            return Some(i);
        }
    }
    None
}

/// Whether the edge leads from one of the vertices to the other.
fn is_beside(edge: &PatternEdge, u: usize, w: usize) -> bool {
    (edge.tail == u && edge.head == w) || (edge.tail == w && edge.head == u)
}

/// Whether edge `i` has its triple where `w` has the id `x` and `u` the id `y`; true where it leads from neither to the other.
fn joins_both<G: ReadGraph<L>, L: Ledger>(
    search: &Search<'_, '_, G>,
    i: usize,
    w: usize,
    x: u32,
    u: usize,
    y: u32,
    steps: &mut Steps<L>,
) -> bool
    requires numbers { AreNumbersOf (G.label_text search.now.graph.now) (G.graph search.now.graph.now)
        search.now.pattern.now search.now.numbers }
    requires edge { i < length search.now.pattern.now.edges }
    ensures none { result ≡ false → (m : List ℕ) → IsTrue (is_embedding search.now.pattern.now (G.graph search.now.graph.now) m)
        → slice_index m w ≡ x → slice_index m u ≢ y }
    ensures steps { steps.new ≤ steps.old + 1 }
{
    let edge = search.pattern.edge(i);
    let number = search.numbers[i];
    if edge.tail == w && edge.head == u {
        return stands(search.graph, &edge.label, number, x, y, steps);
    }
    if edge.tail == u && edge.head == w {
        return stands(search.graph, &edge.label, number, y, x, steps);
    }
    true
}
