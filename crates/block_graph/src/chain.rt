//! Where the chain of a row begins.
ghost use Rattle.std.specs.Prelude.{map, ◌≡◌, ◌≢◌, ℕ, Bool, IsSome, nat_eq};
ghost use Rattle.std.specs.Map.{lookup, keys_of};
ghost use Rattle.label_graph.specs.Places.{vertex_of, IsAt};
ghost use Rattle.block_graph.specs.Chains.{chain_at, with_chain};

use crate::hashed::{Nodes, node_of};
use label_graph::link::{Member, Node};

/// The blocks of a row: the key of the first, and how many they are.
#[derive(Clone, Copy)]
pub struct Chain {
    pub first: u32,
    pub blocks: u32,
}

/// Where a row of the vertex begins.
pub fn chain_of_row(nodes: &Nodes, v: u32, incoming: bool) -> Chain
    requires { IsSome (lookup (nat_eq v) nodes.now.entries) }
    ensures { result ≡ chain_at nodes.now.entries (incoming, v) }
{
    let node = node_of(nodes, v);
    if incoming { node.ins } else { node.outs }
}

/// Where a row of the vertex that stands there begins.
pub fn chain_of_member(nodes: &Nodes, v: Member, incoming: bool) -> Chain
    requires { IsAt nodes.now.entries v }
    ensures { result ≡ chain_at nodes.now.entries (incoming, v.id) }
{
    let node = nodes.get_index(v.index).unwrap().1;
    if incoming { node.ins } else { node.outs }
}

/// Lets a row of a vertex begin elsewhere.
fn put_chain(node: &mut Node<Chain>, incoming: bool, chain: Chain)
    ensures { node.new ≡ with_chain incoming chain node.old }
{
    if incoming {
        node.ins = chain;
    } else {
        node.outs = chain;
    }
}

/// Lets a row of the vertex that stands there begin elsewhere.
pub fn set_chain(nodes: &mut Nodes, v: Member, incoming: bool, chain: Chain)
    requires { IsAt nodes.old.entries v }
    ensures here { chain_at nodes.new.entries (incoming, v.id) ≡ chain }
    ensures side { (s : Bool) → s ≢ incoming → chain_at nodes.new.entries (s, v.id) ≡ chain_at nodes.old.entries (s, v.id) }
    ensures others { (s : Bool) (q : ℕ) → q ≢ v.id → chain_at nodes.new.entries (s, q) ≡ chain_at nodes.old.entries (s, q) }
    ensures vertices { map vertex_of nodes.new.entries ≡ map vertex_of nodes.old.entries }
    ensures keys { keys_of nodes.new.entries ≡ keys_of nodes.old.entries }
{
    let node = nodes.get_index_mut(v.index).unwrap();
    put_chain(node, incoming, chain);
}
