//! A triple in both of its rows.
ghost use Rattle.std.specs.Prelude.{map, true, false, ◌≡◌, ◌≢◌, ◌+◌, ◌<◌, ◌^◌, ℕ, Bool, ◌∷◌, None, is_some, OnOk, OnErr, IsPermutation};
ghost use Rattle.std.specs.Bool.{OnTrue, OnFalse};
ghost use Rattle.std.specs.List.{list_any};
ghost use Rattle.std.specs.Map.{lookup, keys_of};
ghost use Rattle.slab.specs.Slab.{HasRoomFor};
ghost use Rattle.label_graph.specs.Places.{vertex_of, link_eq, placed_at, AreInverse, IsAt};
ghost use Rattle.label_graph.specs.declared.link.Link.{Link};
ghost use Rattle.block_graph.specs.Blocks.{row_link};
ghost use Rattle.block_graph.specs.Chains.{chain_at, AreRows};
ghost use Rattle.block_graph.specs.Places.{link_at, noted, ArePlaced};
ghost use Rattle.block_graph.specs.Rows.{at, row_of};

use crate::block::Blocks;
use crate::chain::chain_of_member;
use crate::hashed::{Nodes, Standing, make_place};
use crate::place::note;
use crate::row::{Place, pull, push};
use label_graph::link::{Link, Member, Node, Places, RowEntry};
use std::alloc::AllocError;

/// The triple of an entry that one of the rows of `k` has, in that row.
fn link_beside(k: Link, incoming: bool, entry: RowEntry) -> Link
    ensures { result ≡ row_link (row_of incoming k) entry }
{
    if incoming {
        Link {
            src: entry.other,
            label: entry.label,
            dst: k.dst,
        }
    } else {
        Link {
            src: k.src,
            label: entry.label,
            dst: entry.other,
        }
    }
}

/// The vertex of a triple whose row has it, which stands at this index.
fn member_of(k: Link, incoming: bool, index: usize) -> Member
    ensures row { (incoming, result.id) ≡ row_of incoming k }
    ensures index { result.index ≡ index }
{
    let id = if incoming { k.dst } else { k.src };
    Member { id, index }
}

/// Takes a triple out of one of its rows, where it stands at this place, and mends the place of the one that is moved.
/// The row is that of the vertex at this index.
fn leave(
    nodes: &mut Nodes,
    blocks: &mut Blocks,
    places: &mut Standing,
    k: Link,
    incoming: bool,
    index: usize,
    place: Place,
)
    requires at { IsAt nodes.old.entries (record { id = (row_of incoming k).1; index = index }) }
    requires rows { AreRows nodes.old.entries blocks.old.slots }
    requires placed { AreInverse (link_at incoming blocks.old.slots) (placed_at (noted incoming places.old.entries) k (at place)) }
    requires gone { noted incoming places.old.entries k ≡ None }
    ensures rows { AreRows nodes.new.entries blocks.new.slots }
    ensures placed { AreInverse (link_at incoming blocks.new.slots) (noted incoming places.new.entries) }
    ensures side { (s : Bool) → s ≢ incoming → (a : ℕ × ℕ) → link_at s blocks.new.slots a ≡ link_at s blocks.old.slots a }
    ensures others { (s : Bool) → s ≢ incoming → (q : Link) → noted s places.new.entries q ≡ noted s places.old.entries q }
    ensures vertices { map vertex_of nodes.new.entries ≡ map vertex_of nodes.old.entries }
    ensures keys { keys_of nodes.new.entries ≡ keys_of nodes.old.entries }
    ensures links { keys_of places.new.entries ≡ keys_of places.old.entries }
{
    let v = member_of(k, incoming, index);
    if let Some(entry) = pull(nodes, blocks, k, v, incoming, place) {
        note(places, link_beside(k, incoming, entry), incoming, place);
    }
}

/// Whether a row of the vertex that stands there can have a block more.
fn can_grow(nodes: &Nodes, v: Member, incoming: bool) -> bool
    requires { IsAt nodes.now.entries v }
    ensures { OnTrue result ((chain_at nodes.now.entries (incoming, v.id)).blocks + 1 < 2 ^ 32) }
{
    chain_of_member(nodes, v, incoming).blocks < u32::MAX
}

/// Whether the keys of the slab are small enough for a block's fields.
fn is_small(blocks: &Blocks) -> bool
    ensures { OnTrue result (blocks.now.capacity < 2 ^ 32) }
{
    blocks.capacity() <= u32::MAX as usize
}

/// Makes room for a block more in the out row of the one vertex and the in row of the other.
fn make_room(
    nodes: &Nodes,
    blocks: &mut Blocks,
    source: Member,
    target: Member,
) -> Result<(), AllocError>
    requires source { IsAt nodes.now.entries source }
    requires target { IsAt nodes.now.entries target }
    ensures slots { blocks.new.slots ≡ blocks.old.slots }
    ensures room { OnOk result (HasRoomFor blocks.new 2) }
    ensures small { OnOk result (blocks.new.capacity < 2 ^ 32) }
    ensures outs { OnOk result ((chain_at nodes.now.entries (false, source.id)).blocks + 1 < 2 ^ 32) }
    ensures ins { OnOk result ((chain_at nodes.now.entries (true, target.id)).blocks + 1 < 2 ^ 32) }
{
    blocks.reserve(2)?;
    if !is_small(blocks) {
        return Err(AllocError);
    }
    if !can_grow(nodes, source, false) {
        return Err(AllocError);
    }
    if !can_grow(nodes, target, true) {
        return Err(AllocError);
    }
    Ok(())
}

/// Puts a triple into both rows. Its ends stand at these indexes among the vertices.
pub fn join(
    nodes: &mut Nodes,
    blocks: &mut Blocks,
    places: &mut Standing,
    k: Link,
    src: usize,
    dst: usize,
) -> Result<(), AllocError>
    requires placed { ArePlaced nodes.old.entries blocks.old.slots places.old.entries }
    requires src { IsAt nodes.old.entries (record { id = k.src; index = src }) }
    requires dst { IsAt nodes.old.entries (record { id = k.dst; index = dst }) }
    requires absent { lookup (link_eq k) places.old.entries ≡ None }
    ensures placed { ArePlaced nodes.new.entries blocks.new.slots places.new.entries }
    ensures keys { keys_of nodes.new.entries ≡ keys_of nodes.old.entries }
    ensures vertices { map vertex_of nodes.new.entries ≡ map vertex_of nodes.old.entries }
    ensures joined { OnOk result (IsPermutation (k ∷ keys_of places.old.entries) (keys_of places.new.entries)) }
    ensures same { OnErr result (IsPermutation (keys_of places.old.entries) (keys_of places.new.entries)) }
    ensures blocks { OnErr result (blocks.new.slots ≡ blocks.old.slots) }
    ensures nodes { OnErr result (nodes.new.entries ≡ nodes.old.entries) }
{
    let source = Member {
        id: k.src,
        index: src,
    };
    let target = Member {
        id: k.dst,
        index: dst,
    };
    make_place(places)?;
    make_room(nodes, blocks, source, target)?;
    let out_at = push(
        nodes,
        blocks,
        source,
        false,
        RowEntry {
            label: k.label,
            other: k.dst,
        },
    );
    let in_at = push(
        nodes,
        blocks,
        target,
        true,
        RowEntry {
            label: k.label,
            other: k.src,
        },
    );
    match places.insert(k, Places { out_at, in_at }) {
        Ok(_) => Ok(()),
        Err(_) => unreachable!(),
    }
}

/// Takes a triple out of both rows, if it is there. Its ends stand at these indexes among the vertices. It takes no
/// memory.
pub fn part(
    nodes: &mut Nodes,
    blocks: &mut Blocks,
    places: &mut Standing,
    k: Link,
    src: usize,
    dst: usize,
) -> bool
    requires placed { ArePlaced nodes.old.entries blocks.old.slots places.old.entries }
    requires src { IsAt nodes.old.entries (record { id = k.src; index = src }) }
    requires dst { IsAt nodes.old.entries (record { id = k.dst; index = dst }) }
    ensures placed { ArePlaced nodes.new.entries blocks.new.slots places.new.entries }
    ensures keys { keys_of nodes.new.entries ≡ keys_of nodes.old.entries }
    ensures vertices { map vertex_of nodes.new.entries ≡ map vertex_of nodes.old.entries }
    ensures stood { result ≡ is_some (lookup (link_eq k) places.old.entries) }
    ensures parted { OnTrue result (IsPermutation (keys_of places.old.entries) (k ∷ keys_of places.new.entries)) }
    ensures gone { OnTrue result (list_any (link_eq k) (keys_of places.new.entries) ≡ false) }
    ensures same { OnFalse result (keys_of places.new.entries ≡ keys_of places.old.entries) }
    ensures nodes { OnFalse result (nodes.new ≡ nodes.old) }
    ensures blocks { OnFalse result (blocks.new ≡ blocks.old) }
{
    let Some(at) = places.remove(&k) else {
        return false;
    };
    leave(nodes, blocks, places, k, false, src, at.out_at);
    leave(nodes, blocks, places, k, true, dst, at.in_at);
    true
}
