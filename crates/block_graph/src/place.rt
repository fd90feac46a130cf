//! Where triples stand.
ghost use Rattle.std.specs.Prelude.{◌≡◌, ◌≢◌, Bool, IsSome};
ghost use Rattle.std.specs.Map.{lookup, keys_of};
ghost use Rattle.label_graph.specs.Places.{link_eq, placed_at};
ghost use Rattle.label_graph.specs.declared.link.Link.{Link};
ghost use Rattle.block_graph.specs.Places.{noted};
ghost use Rattle.block_graph.specs.Rows.{at};

use crate::hashed::Standing;
use crate::row::Place;
use label_graph::link::{Link, Places};

/// Notes a new place of a triple in the rows of one side.
pub fn note(places: &mut Standing, k: Link, incoming: bool, place: Place)
    requires { IsSome (lookup (link_eq k) places.old.entries) }
    ensures here { (q : Link) → noted incoming places.new.entries q ≡ placed_at (noted incoming places.old.entries) k (at place) q }
    ensures side { (s : Bool) → s ≢ incoming → (q : Link) → noted s places.new.entries q ≡ noted s places.old.entries q }
    ensures keys { keys_of places.new.entries ≡ keys_of places.old.entries }
{
    let p = places.get_mut(&k).unwrap();
    if incoming {
        p.in_at = place;
    } else {
        p.out_at = place;
    }
}
