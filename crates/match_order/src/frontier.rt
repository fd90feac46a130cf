//! `Frontier`: how far an order has come.
ghost use Rattle.std.specs.Prelude.{◌≡◌, ◌<◌, ◌≤◌, ℕ, List, [], ◌∷◌, IfSome, length};
ghost use Rattle.flux_model.specs.Tree.{QueryTree as Tree};
ghost use Rattle.flux_model.specs.Order.{are_neighbours};
ghost use Rattle.match_order.specs.FrontierState.{AreMarks, HasCount, is_open};
ghost use Rattle.match_order.specs.Steps.{next_place};

use crate::place::Place;
use query_tree::QueryTree;
use query_tree::numbers::least_by;

/// A pattern has at most so many vertices, and its tree as many.
pub const MOST: usize = 32;

/// For each vertex of a tree whether it is placed, and the latest placed vertex that is its neighbour.
#[derive(Drop)]
pub struct Frontier {
    placed: [bool; MOST],
    anchors: [Option<u8>; MOST],
}

impl Frontier {
    /// No vertex is placed.
    pub fn new() -> Frontier
        ensures { (t : Tree) → length t.links ≤ 32 → AreMarks t [] result }
    {
        Frontier {
            placed: [false; MOST],
            anchors: [None; MOST],
        }
    }

    /// Places vertex `u`, which comes to be the anchor of its neighbours.
    pub fn place(&mut self, tree: &QueryTree, u: usize)
        requires vertex { u < length tree.now.links }
        requires count { HasCount (length tree.now.links) self.old }
        ensures { (before : List ℕ) → AreMarks tree.now before self.old → AreMarks tree.now (u ∷ before) self.new }
    {
        // For the proof: there are at most 32 vertices.
        let mark = u as u8;
        self.placed[u] = true;
        for w in 0..tree.vertex_count() {
            if are_neighbours(tree, w, u) {
                self.anchors[w] = Some(mark);
            }
        }
    }

    /// The place that comes next, if any vertex is left.
    ///
    /// Of the vertices that have an anchor and are not placed it is the one with the least number in `live`, of equals the
    /// lowest.
    pub fn next(&self, live: &[u64]) -> Option<Place>
        requires { HasCount (length live.now) self.now }
        ensures next { (t : Tree) (before : List ℕ) → AreMarks t before self.now → length live.now ≡ length t.links
            → result ≡ next_place t live.now before }
        ensures within { IfSome result (λ place. place.vertex < length live.now) }
    {
        let vertex = least_by(live, |u| self.is_open(u))?;
        let anchor = self.anchors[vertex].unwrap();
        Some(Place {
            vertex: vertex as u8,
            anchor,
        })
    }

    /// Whether vertex `u` has an anchor and is not placed.
    fn is_open(&self, u: usize) -> bool
        requires placed { u < length self.now.placed }
        requires anchors { u < length self.now.anchors }
        ensures { result ≡ is_open self.now u }
    {
        !self.placed[u] && self.anchors[u].is_some()
    }
}

/// Whether one of the vertices hangs from the other.
fn are_neighbours(tree: &QueryTree, u: usize, w: usize) -> bool
    ensures { result ≡ are_neighbours tree.now u w }
{
    tree.is_child(u, w) || tree.is_child(w, u)
}
