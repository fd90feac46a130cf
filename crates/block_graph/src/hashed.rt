//! The hashed look-ups of a store, which start from its seed.
ghost use Rattle.std.specs.Prelude.{◌≡◌, ◌<◌, Some, nat_eq, IsPermutation, IsSome, OnOk};
ghost use Rattle.std.specs.HashMap.{spare};
ghost use Rattle.std.specs.Map.{lookup};
ghost use Rattle.label_graph.specs.Places.{link_eq};
ghost use Rattle.label_graph.specs.declared.link.Link.{Link};

use crate::chain::Chain;
use crate::row::Place;
use indexmap::IndexMap;
use label_graph::link::{Link, Node, Places};
use seeded_hash::SeededState;
use std::alloc::AllocError;
use std::collections::HashMap;

/// What is kept of each vertex, by its id, in the store's own order.
pub type Nodes = IndexMap<u32, Node<Chain>, SeededState>;

/// Where each triple stands in the rows of its ends.
pub type Standing = HashMap<Link, Places<Place>, SeededState>;

/// What is kept of the vertex `v`, which has to be there.
///
/// Where ids were given in order, from 0 on, each stands at its own number, and is found without a hash.
pub fn node_of(nodes: &Nodes, v: u32) -> &Node<Chain>
    requires { IsSome (lookup (nat_eq v) nodes.now.entries) }
    ensures { lookup (nat_eq v) nodes.now.entries ≡ Some result.now }
{
    if let Some((id, node)) = nodes.get_index(v as usize) {
        if *id == v {
            return node;
        }
    }
    &nodes[&v]
}

/// Makes room for a triple more.
///
/// A triple that goes may leave a mark in its place, and a table that triples and marks fill is built anew at twice its size. Where
/// marks were a quarter of it or more, it is made as large as it was again: so it does not grow with a stream that leaves as many
/// triples as there were.
pub fn make_place(places: &mut Standing) -> Result<(), AllocError>
    ensures entries { IsPermutation places.old.entries places.new.entries }
    ensures found { (k : Link) → lookup (link_eq k) places.new.entries ≡ lookup (link_eq k) places.old.entries }
    ensures room { OnOk result (0 < spare places.new) }
{
    if places.len() < places.capacity() {
        return Ok(());
    }
    places.reserve(1)?;
    let doubled = places.capacity();
    if places.len() < doubled / 8 * 3 {
        places.shrink_to(doubled / 2);
    }
    Ok(())
}
