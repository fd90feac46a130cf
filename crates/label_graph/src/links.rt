//! A triple in both of its rows.
ghost use Rattle.std.specs.Prelude.{map, ◌≡◌, ℕ, ◌∷◌, None, Some, is_some, OnOk, OnErr, IsPermutation};
ghost use Rattle.std.specs.Bool.{OnTrue, OnFalse};
ghost use Rattle.std.specs.Prelude.{false};
ghost use Rattle.std.specs.List.{list_any};
ghost use Rattle.std.specs.Map.{lookup, keys_of};
ghost use Rattle.label_graph.specs.Places.{outs, ins, vertex_of, link_eq, IsAt, ArePlaced};
ghost use Rattle.label_graph.specs.declared.link.Link.{Link};

use crate::hashed::{Nodes, Standing};
use crate::link::{Link, Member, Node, Places, RowEntry};
use crate::row::{push_in, push_out, reserve_in, reserve_out};
use crate::step::{leave_in, leave_out};
use std::alloc::AllocError;

/// Puts a triple into both rows. Its ends stand at these indexes among the vertices.
pub fn join(
    nodes: &mut Nodes,
    places: &mut Standing,
    k: Link,
    src: usize,
    dst: usize,
) -> Result<(), AllocError>
    requires placed { ArePlaced nodes.old.entries places.old.entries }
    requires src { IsAt nodes.old.entries (record { id = k.src; index = src }) }
    requires dst { IsAt nodes.old.entries (record { id = k.dst; index = dst }) }
    requires absent { lookup (link_eq k) places.old.entries ≡ None }
    ensures placed { ArePlaced nodes.new.entries places.new.entries }
    ensures keys { keys_of nodes.new.entries ≡ keys_of nodes.old.entries }
    ensures vertices { map vertex_of nodes.new.entries ≡ map vertex_of nodes.old.entries }
    ensures joined { OnOk result (IsPermutation (k ∷ keys_of places.old.entries) (keys_of places.new.entries)) }
    ensures same { OnErr result (IsPermutation (keys_of places.old.entries) (keys_of places.new.entries)) }
    ensures outs { OnErr result ((v : ℕ) → outs nodes.new.entries v ≡ outs nodes.old.entries v) }
    ensures ins { OnErr result ((v : ℕ) → ins nodes.new.entries v ≡ ins nodes.old.entries v) }
{
    let source = Member {
        id: k.src,
        index: src,
    };
    let target = Member {
        id: k.dst,
        index: dst,
    };
    places.reserve(1)?;
    reserve_out(nodes, source)?;
    reserve_in(nodes, target)?;
    let out_at = push_out(
        nodes,
        source,
        RowEntry {
            label: k.label,
            other: k.dst,
        },
    );
    let in_at = push_in(
        nodes,
        target,
        RowEntry {
            label: k.label,
            other: k.src,
        },
    );
    match places.insert(k, Places { out_at, in_at }) {
        Ok(_) => Ok(()),
        Err(_) => unreachable!(),
    }
}

/// Takes a triple out of both rows, if it is there. Its ends stand at these indexes among the vertices.
pub fn part(nodes: &mut Nodes, places: &mut Standing, k: Link, src: usize, dst: usize) -> bool
    requires placed { ArePlaced nodes.old.entries places.old.entries }
    requires src { IsAt nodes.old.entries (record { id = k.src; index = src }) }
    requires dst { IsAt nodes.old.entries (record { id = k.dst; index = dst }) }
    ensures placed { ArePlaced nodes.new.entries places.new.entries }
    ensures keys { keys_of nodes.new.entries ≡ keys_of nodes.old.entries }
    ensures vertices { map vertex_of nodes.new.entries ≡ map vertex_of nodes.old.entries }
    ensures stood { result ≡ is_some (lookup (link_eq k) places.old.entries) }
    ensures parted { OnTrue result (IsPermutation (keys_of places.old.entries) (k ∷ keys_of places.new.entries)) }
    ensures gone { OnTrue result (list_any (link_eq k) (keys_of places.new.entries) ≡ false) }
    ensures same { OnFalse result (keys_of places.new.entries ≡ keys_of places.old.entries) }
    ensures nodes { OnFalse result (nodes.new ≡ nodes.old) }
{
    let Some(at) = places.remove(&k) else {
        return false;
    };
    leave_out(nodes, places, k, src, at.out_at);
    leave_in(nodes, places, k, dst, at.in_at);
    true
}
