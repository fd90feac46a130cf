//! A sink that drops what it takes.
ghost use Rattle.std.specs.Prelude.{◌≡◌, ◌∷◌, length, None, IsOk};
ghost use Rattle.flux_outside.specs.Reads.{puts_of};

use flux_outside::{Calls, Failed, Sink};

/// Takes pieces of any length and keeps nothing of them. It never fails.
#[derive(Drop)]
pub struct NoReport {
    calls: Calls,
}

impl NoReport {
    /// A sink that has taken nothing yet.
    pub fn new() -> NoReport {
        NoReport {
            calls: Calls::new(),
        }
    }
}

impl Sink for NoReport {
    ghost taken = { λ _. None };

    ghost puts = { λ s. puts_of s.calls.made };

    ghost faults = { λ _. 0 };

    fn put(&mut self, piece: &[u8]) -> Result<(), Failed>
        ensures ok { IsOk result }
        ensures asked { puts_of self.new.calls.made ≡ length piece.now ∷ puts_of self.old.calls.made }
    {
        self.calls.put(piece.len());
        Ok(())
    }
}
