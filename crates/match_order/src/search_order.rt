//! `SearchOrder`: the order in which a search gives ids to the vertices of a pattern.
ghost use Rattle.std.specs.Prelude.{◌≡◌, ◌+◌, ◌-◌, ◌<◌, ◌≤◌, Some, [], length, slice_index};
ghost use Rattle.flux_model.specs.Tree.{IsTree};
ghost use Rattle.flux_model.specs.Order.{search_order};
ghost use Rattle.match_order.specs.Whole.{IsOrderOf, vertices, anchors, latest_first};
ghost use Rattle.match_order.specs.FrontierState.{AreMarks};
ghost use Rattle.match_order.specs.Steps.{next_place, with_place};

use crate::frontier::{Frontier, MOST};
use crate::place::Place;
use arrayvec::ArrayVec;
use query_tree::QueryTree;
use std::marker::Model;

/// The order in which a search gives ids to the vertices of a pattern: the vertex that it starts at, and then the others,
/// each with its anchor, a vertex before it that is its neighbour in the tree.
#[derive(Drop)]
pub struct SearchOrder {
    start: usize,
    places: ArrayVec<Place, MOST>,
}

impl Model for SearchOrder {
    ghost use Rattle.flux_model.specs.Order.{SearchOrder as Order};

    ghost Value = { Order };

    ghost view = { λ o. record { start = o.start; places = o.places.items } };
}

impl SearchOrder {
    /// How many vertices the order has.
    pub fn len(&self) -> usize
        ensures { result ≡ length (vertices self.now) }
    {
        self.places.len() + 1
    }

    /// The vertex at place `j`, counted from 0, which has to be below `len`.
    pub fn vertex(&self, j: usize) -> usize
        requires { j < length (vertices self.now) }
        ensures { result ≡ slice_index (vertices self.now) j }
    {
        match j {
            0 => self.start,
            _ => {
                let place = &self.places[j - 1];
                place.vertex as usize
            }
        }
    }

    /// The anchor of the vertex at place `j`, which has to be below `len`, and not 0: the start has no anchor.
    pub fn anchor(&self, j: usize) -> usize
        requires later { 1 ≤ j }
        requires within { j < length (vertices self.now) }
        ensures { result ≡ slice_index (anchors self.now) (j - 1) }
    {
        let place = &self.places[j - 1];
        place.anchor as usize
    }

    /// One more place, behind the others.
    fn push(&mut self, place: Place)
        requires { length self.old.places < 32 }
        ensures { self.new ≡ with_place self.old (Some place) }
    {
        self.places.push(place);
    }
}

/// The order in which a search that starts at vertex `start` of the tree gives ids to the vertices.
///
/// `live` has for each vertex how many candidates it has. Of the vertices that are not placed and have a placed neighbour in
/// the tree, the one with the fewest candidates comes next, of equals the lowest. `start` has to be below the tree's
/// `vertex_count`, and `live` has to have so many numbers. It takes no memory.
pub fn order(tree: &QueryTree, start: usize, live: &[u64]) -> SearchOrder
    requires start { start < length tree.now.links }
    requires live { length live.now ≡ length tree.now.links }
    ensures order { result ≡ search_order tree.now start live.now }
    ensures all { IsOrderOf tree.now result }
{
    // For the proof: every vertex hangs from the root, so that none is left out, and they are few.
    let _root = tree.root();
    let mut growth = Growth::new(tree, start);
    for _ in 0..tree.vertex_count() {
        growth.place_next(tree, live);
    }
    growth.order
}

/// An order that grows by one place at a time.
#[derive(Drop)]
struct Growth {
    order: SearchOrder,
    frontier: Frontier,
}

impl Growth {
    /// The start alone is placed.
    fn new(tree: &QueryTree, start: usize) -> Growth
        requires few { length tree.now.links ≤ 32 }
        requires start { start < length tree.now.links }
        ensures order { result.order ≡ record { start = start; places = [] } }
        ensures marks { AreMarks tree.now (latest_first result.order) result.frontier }
    {
        let mut frontier = Frontier::new();
        frontier.place(tree, start);
        let places = ArrayVec::new();
        let order = SearchOrder { start, places };
        Growth { order, frontier }
    }

    /// Places the next vertex; nothing where none is left.
    fn place_next(&mut self, tree: &QueryTree, live: &[u64])
        requires room { length self.old.order.places < 32 }
        requires live { length live.now ≡ length tree.now.links }
        requires marks { AreMarks tree.now (latest_first self.old.order) self.old.frontier }
        ensures order { let next = next_place tree.now live.now (latest_first self.old.order) in
            self.new.order ≡ with_place self.old.order next }
        ensures room { length self.new.order.places ≤ length self.old.order.places + 1 }
        ensures marks { AreMarks tree.now (latest_first self.new.order) self.new.frontier }
    {
        if let Some(place) = self.frontier.next(live) {
            self.frontier.place(tree, place.vertex as usize);
            self.order.push(place);
        }
    }
}
