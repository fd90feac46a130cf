//! What the changes of vertices ask, and a vertex without triples.
ghost use Rattle.std.specs.Prelude.{◌≡◌, ◌||◌, ◌+◌, ◌<◌, ◌++◌, ◌∷◌, [], ℕ, None, Some, cond, nat_eq, nat_le, nat_lt, length, slice_get, is_some, IsSome, IfSome, IfOk};
ghost use Rattle.std.specs.Map.{lookup, keys_of};
ghost use Rattle.indexmap.specs.IndexMap.{spare};
ghost use Rattle.label_graph.specs.Places.{outs, ins};

use crate::hashed::Nodes;
use crate::link::{Node, RowEntry};
use flux_model::Labels;
use indexmap::IndexMap;
use seeded_hash::SeededState;
use std::alloc::{AllocError, Global};

/// Whether the vertices are as many as their limit, or the names, with some more, pass theirs.
pub fn lacks_room(limit: u64, count: usize, name_limit: u64, names: usize, more: usize) -> bool
    ensures { result ≡ (nat_le limit count || nat_lt name_limit (names + more)) }
{
    let many = match name_limit.checked_sub(names as u64) {
        Some(room) => room < more as u64,
        None => true,
    };
    limit <= count as u64 || many
}

/// Where `v` stands among the vertices, if it does.
///
/// Where ids were given in order, from 0 on, each stands at its own number, and is found without a hash.
pub fn index_of<R>(nodes: &IndexMap<u32, Node<R>, SeededState>, v: u32) -> Option<usize>
where
    R: Drop,
    ensures at { IfSome result (λ i. slice_get (keys_of nodes.now.entries) i ≡ Some v) }
    ensures stands { is_some (lookup (nat_eq v) nodes.now.entries) ≡ is_some result }
{
    if let Some((id, _)) = nodes.get_index(v as usize) {
        if *id == v {
            return Some(v as usize);
        }
    }
    nodes.get_index_of(&v)
}

/// Whether a row of the vertex has an entry.
pub fn has_entries(nodes: &Nodes, v: u32) -> bool
    requires { IsSome (lookup (nat_eq v) nodes.now.entries) }
    ensures { result ≡ (nat_lt 0 (length (outs nodes.now.entries v)) || nat_lt 0 (length (ins nodes.now.entries v))) }
{
    let node = &nodes[&v];
    !node.outs.is_empty() || !node.ins.is_empty()
}

/// A vertex with these labels and no triples.
pub fn bare_node(alloc: Global, labels: &Labels) -> Result<Node<Vec<RowEntry>>, AllocError>
    ensures labels { IfOk result (λ node. node.labels ≡ labels.now) }
    ensures outs { IfOk result (λ node. node.outs.items ≡ []) }
    ensures ins { IfOk result (λ node. node.ins.items ≡ []) }
{
    Ok(Node {
        labels: labels.copy()?,
        outs: Vec::new(alloc),
        ins: Vec::new(alloc),
    })
}

/// Puts a new vertex behind the others. There has to be room for it.
pub fn put_node<R>(nodes: &mut IndexMap<u32, Node<R>, SeededState>, id: u32, node: Node<R>)
where
    R: Drop,
    requires room { 0 < spare nodes.old }
    requires new { lookup (nat_eq id) nodes.old.entries ≡ None }
    ensures entries { nodes.new.entries ≡ nodes.old.entries ++ (id, node) ∷ [] }
    ensures found { (q : ℕ) → lookup (nat_eq q) nodes.new.entries ≡ cond (nat_eq id q) (Some node) (lookup (nat_eq q) nodes.old.entries) }
{
    match nodes.insert(id, node) {
        Ok(_) => {}
        Err(_) => unreachable!(),
    }
}
