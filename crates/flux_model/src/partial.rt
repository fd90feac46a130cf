//! `Partial`: ids for some of a pattern's vertices.
ghost use Rattle.std.specs.Prelude.{◌≡◌, ◌≤◌, ◌<◌, length, replicate, slice_get, slice_set, Some, None};

use std::marker::Model;

/// For each of a pattern's at most 32 vertices an id, or none. No call takes memory.
#[derive(Drop)]
pub struct Partial {
    places: [Option<u32>; 32],
    len: usize,
}

impl Model for Partial {
    ghost use Rattle.std.specs.Prelude.{◌≡◌, ◌≤◌, List, ℕ, Option, take, length};

    ghost Value = { List (Option ℕ) };

    ghost view = { λ p. take p.len p.places };

    ghost invariant = { λ p. (p.len ≤ 32) × (length p.places ≡ 32) };
}

impl Partial {
    /// No id for any of `n` vertices; `n` is at most 32.
    pub fn new(n: usize) -> Partial
        requires { n ≤ 32 }
        ensures { result ≡ replicate n None }
    {
        Partial {
            places: [None; 32],
            len: n,
        }
    }

    /// How many vertices the pattern has, which no call changes.
    pub fn len(&self) -> usize
        ensures { result ≡ length self.now }
    {
        self.len
    }

    /// The id of vertex `u`, or none; `u` has to be below `len`.
    pub fn get(&self, u: usize) -> Option<u32>
        requires { u < length self.now }
        ensures { slice_get self.now u ≡ Some result }
    {
        // For the proof: there are as many places as vertices, at most 32.
        let _len = self.len;
        self.places[u]
    }

    /// Gives vertex `u` the id `v`, in place of one that it has; `u` has to be below `len`.
    pub fn put(&mut self, u: usize, v: u32)
        requires { u < length self.old }
        ensures { self.new ≡ slice_set self.old u (Some v) }
    {
        // For the proof: there are as many places as vertices, at most 32.
        let _len = self.len;
        self.places[u] = Some(v);
    }

    /// Takes the id of vertex `u` away, if it has one; `u` has to be below `len`.
    pub fn clear(&mut self, u: usize)
        requires { u < length self.old }
        ensures { self.new ≡ slice_set self.old u None }
    {
        // For the proof: there are as many places as vertices, at most 32.
        let _len = self.len;
        self.places[u] = None;
    }
}
