//! Where triples stand.
ghost use Rattle.std.specs.Prelude.{◌≡◌, ◌≢◌, ℕ, None, Some, IsSome};
ghost use Rattle.std.specs.Map.{lookup, keys_of};
ghost use Rattle.label_graph.specs.Places.{out_place, in_place, placed_at, link_eq};
ghost use Rattle.label_graph.specs.declared.link.Link.{Link};

use crate::hashed::Standing;
use crate::link::{Link, Places};

/// Notes a new place in the out row.
pub fn set_out(places: &mut Standing, k: Link, at: usize)
    requires { IsSome (lookup (link_eq k) places.old.entries) }
    ensures out { (q : Link) → out_place places.new.entries q ≡ placed_at (out_place places.old.entries) k (k.src, at) q }
    ensures ins { (q : Link) → in_place places.new.entries q ≡ in_place places.old.entries q }
    ensures keys { keys_of places.new.entries ≡ keys_of places.old.entries }
{
    let p = places.get_mut(&k).unwrap();
    p.out_at = at;
}

/// Notes a new place in the in row.
pub fn set_in(places: &mut Standing, k: Link, at: usize)
    requires { IsSome (lookup (link_eq k) places.old.entries) }
    ensures ins { (q : Link) → in_place places.new.entries q ≡ placed_at (in_place places.old.entries) k (k.dst, at) q }
    ensures out { (q : Link) → out_place places.new.entries q ≡ out_place places.old.entries q }
    ensures keys { keys_of places.new.entries ≡ keys_of places.old.entries }
{
    let p = places.get_mut(&k).unwrap();
    p.in_at = at;
}
