//! An entry more in a row, and an entry less.
ghost use Rattle.std.specs.Prelude.{map, ◌≡◌, ◌≢◌, ◌&&◌, ◌+◌, ◌-◌, ◌<◌, ◌^◌, ℕ, Bool, None, Some, IsSome, MatchOption, nat_lt};
ghost use Rattle.std.specs.Bool.{OnTrue, OnFalse};
ghost use Rattle.std.specs.Map.{keys_of};
ghost use Rattle.slab.specs.Slab.{HasRoomFor};
ghost use Rattle.label_graph.specs.Places.{vertex_of, IsAt};
ghost use Rattle.label_graph.specs.declared.link.Link.{Link};
ghost use Rattle.block_graph.specs.Blocks.{block_at, len_at, entry_at, seen_at, row_link};
ghost use Rattle.block_graph.specs.Chains.{chain_at, AreRows};
ghost use Rattle.block_graph.specs.Rows.{at, row_of, IsPulled, IsMovedFrom, last_of};

use crate::block::{Block, Blocks, append, shorten, start, write};
use crate::chain::{Chain, chain_of_member, set_chain};
use crate::hashed::Nodes;
use label_graph::link::{Link, Member, Node, RowEntry};

/// Where an entry stands: the key of a block, and the entry's number in it.
#[derive(Clone, Copy, Debug)]
pub struct Place {
    pub block: u32,
    pub number: u32,
}

/// Whether the first block of a chain has room for one entry more.
fn has_space(blocks: &Blocks, chain: Chain) -> bool
    requires { 0 < chain.blocks → IsSome (block_at blocks.now.slots chain.first) }
    ensures { result ≡ nat_lt 0 chain.blocks && nat_lt (len_at blocks.now.slots chain.first) 6 }
{
    chain.blocks > 0 && blocks[chain.first as usize].len < 6
}

/// Puts an entry into a row of the vertex, and tells its place.
pub fn push(
    nodes: &mut Nodes,
    blocks: &mut Blocks,
    v: Member,
    incoming: bool,
    entry: RowEntry,
) -> Place
    requires rows { AreRows nodes.old.entries blocks.old.slots }
    requires at { IsAt nodes.old.entries v }
    requires room { HasRoomFor blocks.old 1 }
    requires small { blocks.old.capacity < 2 ^ 32 }
    requires count { (chain_at nodes.old.entries (incoming, v.id)).blocks + 1 < 2 ^ 32 }
    ensures rows { AreRows nodes.new.entries blocks.new.slots }
    ensures free { seen_at blocks.old.slots (at result) ≡ None }
    ensures here { seen_at blocks.new.slots (at result) ≡ Some (incoming, row_link (incoming, v.id) entry) }
    ensures others { (a : ℕ × ℕ) → a ≢ at result → seen_at blocks.new.slots a ≡ seen_at blocks.old.slots a }
    ensures keeps { (m : ℕ) → HasRoomFor blocks.old (m + 1) → HasRoomFor blocks.new m }
    ensures capacity { blocks.new.capacity ≡ blocks.old.capacity }
    ensures side { (s : Bool) (q : ℕ) → s ≢ incoming → chain_at nodes.new.entries (s, q) ≡ chain_at nodes.old.entries (s, q) }
    ensures vertices { map vertex_of nodes.new.entries ≡ map vertex_of nodes.old.entries }
    ensures keys { keys_of nodes.new.entries ≡ keys_of nodes.old.entries }
{
    let chain = chain_of_member(nodes, v, incoming);
    if has_space(blocks, chain) {
        let number = append(blocks, chain.first, entry);
        return Place {
            block: chain.first,
            number,
        };
    }
    let block = start(blocks, v.id, incoming, chain.first, chain.blocks > 0, entry);
    set_chain(
        nodes,
        v,
        incoming,
        Chain {
            first: block,
            blocks: chain.blocks + 1,
        },
    );
    Place { block, number: 0 }
}

/// Whether two places are the same.
fn same_place(a: Place, b: Place) -> bool
    ensures same { OnTrue result (at a ≡ at b) }
    ensures apart { OnFalse result (at a ≢ at b) }
{
    a.block == b.block && a.number == b.number
}

/// The last entry of the first block of a chain, with its place.
fn last(blocks: &Blocks, chain: Chain) -> (Place, RowEntry)
    requires stands { IsSome (block_at blocks.now.slots chain.first) }
    requires some { 0 < len_at blocks.now.slots chain.first }
    requires fits { len_at blocks.now.slots chain.first < 7 }
    ensures block { result.0.block ≡ chain.first }
    ensures number { result.0.number ≡ len_at blocks.now.slots chain.first - 1 }
    ensures entry { entry_at blocks.now.slots (at result.0) ≡ Some result.1 }
{
    let block = &blocks[chain.first as usize];
    let number = block.len - 1;
    let place = Place {
        block: chain.first,
        number: number as u32,
    };
    (place, block.entries[number as usize])
}

/// Takes the last entry of a row away, and with the only entry of a block the block.
fn pop(nodes: &mut Nodes, blocks: &mut Blocks, v: Member, incoming: bool, chain: Chain)
    requires rows { AreRows nodes.old.entries blocks.old.slots }
    requires at { IsAt nodes.old.entries v }
    requires begins { chain ≡ chain_at nodes.old.entries (incoming, v.id) }
    requires some { 0 < chain.blocks }
    ensures rows { AreRows nodes.new.entries blocks.new.slots }
    ensures gone { seen_at blocks.new.slots (last_of nodes.old.entries blocks.old.slots (incoming, v.id)) ≡ None }
    ensures others { (a : ℕ × ℕ) → a ≢ last_of nodes.old.entries blocks.old.slots (incoming, v.id) →
        seen_at blocks.new.slots a ≡ seen_at blocks.old.slots a }
    ensures vertices { map vertex_of nodes.new.entries ≡ map vertex_of nodes.old.entries }
    ensures keys { keys_of nodes.new.entries ≡ keys_of nodes.old.entries }
{
    let block = blocks[chain.first as usize];
    if block.len > 1 {
        shorten(blocks, chain.first);
        return;
    }
    blocks.remove(chain.first as usize);
    set_chain(
        nodes,
        v,
        incoming,
        Chain {
            first: block.next,
            blocks: chain.blocks - 1,
        },
    );
}

/// Takes the entry of a triple at this place out of one of its rows, and moves the row's last entry there, which is the
/// result if it is another.
pub fn pull(
    nodes: &mut Nodes,
    blocks: &mut Blocks,
    _k: Link,
    v: Member,
    incoming: bool,
    place: Place,
) -> Option<RowEntry>
    requires rows { AreRows nodes.old.entries blocks.old.slots }
    requires at { IsAt nodes.old.entries v }
    requires end { (incoming, v.id) ≡ row_of incoming _k }
    requires seen { seen_at blocks.old.slots (at place) ≡ Some (incoming, _k) }
    ensures rows { AreRows nodes.new.entries blocks.new.slots }
    ensures pulled { IsPulled (at place) (last_of nodes.old.entries blocks.old.slots (row_of incoming _k))
        (seen_at blocks.old.slots) (seen_at blocks.new.slots) }
    ensures moved { MatchOption result (at place ≡ last_of nodes.old.entries blocks.old.slots (row_of incoming _k))
        (IsMovedFrom blocks.old.slots (at place) (last_of nodes.old.entries blocks.old.slots (row_of incoming _k)) (row_of incoming _k)) }
    ensures vertices { map vertex_of nodes.new.entries ≡ map vertex_of nodes.old.entries }
    ensures keys { keys_of nodes.new.entries ≡ keys_of nodes.old.entries }
{
    let chain = chain_of_member(nodes, v, incoming);
    let (last, entry) = last(blocks, chain);
    pop(nodes, blocks, v, incoming, chain);
    if same_place(place, last) {
        return None;
    }
    write(blocks, place.block, place.number, entry);
    Some(entry)
}
