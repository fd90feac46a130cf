//! Hashing from a seed.
//!
//! Who does not know the seed cannot pick keys that collide. Nothing is said of what a key hashes to, so no answer can depend on
//! the seed.
#![tactic(auto)]

use std::hash::{BuildHasher, FoldHasher, Hasher};

/// Makes the hashers of a map, which all start from one seed.
#[derive(Clone, Copy, Debug)]
pub struct SeededState {
    initial: FoldHasher,
}

impl SeededState {
    /// Hashers that start from `seed`.
    pub fn new(seed: u64) -> SeededState {
        let mut initial = FoldHasher::default();
        initial.write_u64(seed);
        SeededState { initial }
    }
}

impl BuildHasher for SeededState {
    type Hasher = FoldHasher;

    ghost use Rattle.seeded_hash.specs.Seeded.{initial_hasher};

    ghost build_hasher = { initial_hasher };

    fn build_hasher(&self) -> FoldHasher {
        self.initial
    }
}
