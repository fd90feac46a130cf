//! A triple that leaves one of its rows.
ghost use Rattle.std.specs.Prelude.{map, ◌≡◌, ℕ, None, Some};
ghost use Rattle.std.specs.Map.{keys_of};
ghost use Rattle.label_graph.specs.Places.{outs, ins, vertex_of, IsAt, AreInverse, link_at, out_link, in_link, out_place, in_place, placed_at};
ghost use Rattle.label_graph.specs.declared.link.Link.{Link};

use crate::hashed::{Nodes, Standing};
use crate::link::{Link, Member, Node, Places};
use crate::place::{set_in, set_out};
use crate::row::{pull_in, pull_out};

/// Takes a triple out of the out row where it stands at this place, and mends the place of the one that is moved.
pub fn leave_out(nodes: &mut Nodes, places: &mut Standing, k: Link, src: usize, at: usize)
    requires src { IsAt nodes.old.entries (record { id = k.src; index = src }) }
    requires placed { AreInverse (link_at out_link (outs nodes.old.entries)) (placed_at (out_place places.old.entries) k (k.src, at)) }
    requires gone { out_place places.old.entries k ≡ None }
    ensures placed { AreInverse (link_at out_link (outs nodes.new.entries)) (out_place places.new.entries) }
    ensures ins { (q : ℕ) → ins nodes.new.entries q ≡ ins nodes.old.entries q }
    ensures others { (q : Link) → in_place places.new.entries q ≡ in_place places.old.entries q }
    ensures vertices { map vertex_of nodes.new.entries ≡ map vertex_of nodes.old.entries }
    ensures keys { keys_of nodes.new.entries ≡ keys_of nodes.old.entries }
    ensures links { keys_of places.new.entries ≡ keys_of places.old.entries }
{
    let vertex = Member {
        id: k.src,
        index: src,
    };
    if let Some(entry) = pull_out(nodes, vertex, at) {
        set_out(
            places,
            Link {
                src: k.src,
                label: entry.label,
                dst: entry.other,
            },
            at,
        );
    }
}

/// Takes a triple out of the in row where it stands at this place, and mends the place of the one that is moved.
pub fn leave_in(nodes: &mut Nodes, places: &mut Standing, k: Link, dst: usize, at: usize)
    requires dst { IsAt nodes.old.entries (record { id = k.dst; index = dst }) }
    requires placed { AreInverse (link_at in_link (ins nodes.old.entries)) (placed_at (in_place places.old.entries) k (k.dst, at)) }
    requires gone { in_place places.old.entries k ≡ None }
    ensures placed { AreInverse (link_at in_link (ins nodes.new.entries)) (in_place places.new.entries) }
    ensures outs { (q : ℕ) → outs nodes.new.entries q ≡ outs nodes.old.entries q }
    ensures others { (q : Link) → out_place places.new.entries q ≡ out_place places.old.entries q }
    ensures vertices { map vertex_of nodes.new.entries ≡ map vertex_of nodes.old.entries }
    ensures keys { keys_of nodes.new.entries ≡ keys_of nodes.old.entries }
    ensures links { keys_of places.new.entries ≡ keys_of places.old.entries }
{
    let vertex = Member {
        id: k.dst,
        index: dst,
    };
    if let Some(entry) = pull_in(nodes, vertex, at) {
        set_in(
            places,
            Link {
                src: entry.other,
                label: entry.label,
                dst: k.dst,
            },
            at,
        );
    }
}
