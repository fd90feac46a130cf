//! Changes of one row.
ghost use Rattle.std.specs.Prelude.{map, ◌≡◌, ◌≢◌, ℕ, ◌+◌, ◌-◌, ◌<◌, ◌++◌, ◌∷◌, []};
ghost use Rattle.std.specs.Prelude.{slice_get, length, OnOk};
ghost use Rattle.std.specs.Map.{keys_of};
ghost use Rattle.label_graph.specs.Places.{outs, ins, vertex_of, IsAt, IsPulled, HasRoomOut, HasRoomIn};

use crate::hashed::Nodes;
use crate::link::{Member, Node, RowEntry};
use std::alloc::AllocError;

/// Takes the entry at this place away and puts the last one there, which is the result if it is another.
fn pull(row: &mut Vec<RowEntry>, i: usize) -> Option<RowEntry>
    requires { i < length row.old.items }
    ensures row { IsPulled i row.old.items row.new.items }
    ensures moved { result ≡ slice_get row.new.items i }
{
    row.swap_remove(i);
    row.get(i).copied()
}

/// Makes room for one more entry in an out row.
pub fn reserve_out(nodes: &mut Nodes, v: Member) -> Result<(), AllocError>
    requires { IsAt nodes.old.entries v }
    ensures outs { (q : ℕ) → outs nodes.new.entries q ≡ outs nodes.old.entries q }
    ensures ins { (q : ℕ) → ins nodes.new.entries q ≡ ins nodes.old.entries q }
    ensures vertices { map vertex_of nodes.new.entries ≡ map vertex_of nodes.old.entries }
    ensures keys { keys_of nodes.new.entries ≡ keys_of nodes.old.entries }
    ensures room { OnOk result (HasRoomOut nodes.new.entries v.id) }
{
    let node = nodes.get_index_mut(v.index).unwrap();
    node.outs.reserve(1)
}

/// Puts an entry at the end of an out row.
pub fn push_out(nodes: &mut Nodes, v: Member, entry: RowEntry) -> usize
    requires at { IsAt nodes.old.entries v }
    requires room { HasRoomOut nodes.old.entries v.id }
    ensures row { outs nodes.new.entries v.id ≡ outs nodes.old.entries v.id ++ entry ∷ [] }
    ensures others { (q : ℕ) → q ≢ v.id → outs nodes.new.entries q ≡ outs nodes.old.entries q }
    ensures ins { (q : ℕ) → ins nodes.new.entries q ≡ ins nodes.old.entries q }
    ensures vertices { map vertex_of nodes.new.entries ≡ map vertex_of nodes.old.entries }
    ensures keys { keys_of nodes.new.entries ≡ keys_of nodes.old.entries }
    ensures keeps { (q : ℕ) → HasRoomIn nodes.old.entries q → HasRoomIn nodes.new.entries q }
    ensures place { result ≡ length (outs nodes.old.entries v.id) }
{
    let node = nodes.get_index_mut(v.index).unwrap();
    let at = node.outs.len();
    match node.outs.push(entry) {
        Ok(()) => at,
        Err(_) => unreachable!(),
    }
}

/// Takes an entry of an out row away, and moves the last one there.
pub fn pull_out(nodes: &mut Nodes, v: Member, i: usize) -> Option<RowEntry>
    requires at { IsAt nodes.old.entries v }
    requires within { i < length (outs nodes.old.entries v.id) }
    ensures row { IsPulled i (outs nodes.old.entries v.id) (outs nodes.new.entries v.id) }
    ensures moved { result ≡ slice_get (outs nodes.new.entries v.id) i }
    ensures others { (q : ℕ) → q ≢ v.id → outs nodes.new.entries q ≡ outs nodes.old.entries q }
    ensures ins { (q : ℕ) → ins nodes.new.entries q ≡ ins nodes.old.entries q }
    ensures vertices { map vertex_of nodes.new.entries ≡ map vertex_of nodes.old.entries }
    ensures keys { keys_of nodes.new.entries ≡ keys_of nodes.old.entries }
{
    let node = nodes.get_index_mut(v.index).unwrap();
    pull(&mut node.outs, i)
}

/// Makes room for one more entry in an in row.
pub fn reserve_in(nodes: &mut Nodes, v: Member) -> Result<(), AllocError>
    requires { IsAt nodes.old.entries v }
    ensures ins { (q : ℕ) → ins nodes.new.entries q ≡ ins nodes.old.entries q }
    ensures outs { (q : ℕ) → outs nodes.new.entries q ≡ outs nodes.old.entries q }
    ensures vertices { map vertex_of nodes.new.entries ≡ map vertex_of nodes.old.entries }
    ensures keys { keys_of nodes.new.entries ≡ keys_of nodes.old.entries }
    ensures keeps { (q : ℕ) → HasRoomOut nodes.old.entries q → HasRoomOut nodes.new.entries q }
    ensures room { OnOk result (HasRoomIn nodes.new.entries v.id) }
{
    let node = nodes.get_index_mut(v.index).unwrap();
    node.ins.reserve(1)
}

/// Puts an entry at the end of an in row.
pub fn push_in(nodes: &mut Nodes, v: Member, entry: RowEntry) -> usize
    requires at { IsAt nodes.old.entries v }
    requires room { HasRoomIn nodes.old.entries v.id }
    ensures row { ins nodes.new.entries v.id ≡ ins nodes.old.entries v.id ++ entry ∷ [] }
    ensures others { (q : ℕ) → q ≢ v.id → ins nodes.new.entries q ≡ ins nodes.old.entries q }
    ensures outs { (q : ℕ) → outs nodes.new.entries q ≡ outs nodes.old.entries q }
    ensures vertices { map vertex_of nodes.new.entries ≡ map vertex_of nodes.old.entries }
    ensures keys { keys_of nodes.new.entries ≡ keys_of nodes.old.entries }
    ensures place { result ≡ length (ins nodes.old.entries v.id) }
{
    let node = nodes.get_index_mut(v.index).unwrap();
    let at = node.ins.len();
    match node.ins.push(entry) {
        Ok(()) => at,
        Err(_) => unreachable!(),
    }
}

/// Takes an entry of an in row away, and moves the last one there.
pub fn pull_in(nodes: &mut Nodes, v: Member, i: usize) -> Option<RowEntry>
    requires at { IsAt nodes.old.entries v }
    requires within { i < length (ins nodes.old.entries v.id) }
    ensures row { IsPulled i (ins nodes.old.entries v.id) (ins nodes.new.entries v.id) }
    ensures moved { result ≡ slice_get (ins nodes.new.entries v.id) i }
    ensures others { (q : ℕ) → q ≢ v.id → ins nodes.new.entries q ≡ ins nodes.old.entries q }
    ensures outs { (q : ℕ) → outs nodes.new.entries q ≡ outs nodes.old.entries q }
    ensures vertices { map vertex_of nodes.new.entries ≡ map vertex_of nodes.old.entries }
    ensures keys { keys_of nodes.new.entries ≡ keys_of nodes.old.entries }
{
    let node = nodes.get_index_mut(v.index).unwrap();
    pull(&mut node.ins, i)
}
