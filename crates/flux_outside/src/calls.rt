// What was asked of an object, call by call. Only proofs read it.
ghost use Rattle.std.specs.Prelude.{◌≡◌, [], ◌∷◌, List};
ghost use Rattle.std.specs.Borrow.{ftrue};
ghost use Rattle.flux_outside.specs.Reads.{Call, puts_of};

use crate::read_outcome::ReadOutcome;
use std::marker::Model;

/// The calls that were made, the last first. It takes no bytes.
#[derive(Drop)]
pub struct Calls {
    pub ghost made: { List Call },
}

const _: () = prove!(size_of::<Calls>() == 0);

impl Model for Calls {
    ghost also_owns = { λ _. ftrue };
}

// One call, as it is made.
#[derive(Clone, Copy, Drop)]
struct Note<'a> {
    name: &'a str,
    place: u64,
    bytes: usize,
    outcome: ReadOutcome,
}

impl Calls {
    ghost use Rattle.flux_outside.specs.Noted.{noted};

    /// No call yet.
    pub fn new() -> Calls
        ensures { result.made ≡ [] }
    {
        Calls {}
    }

    fn then(&self, _note: &Note<'_>) -> Calls
        ensures { result.made ≡ noted _note.now ∷ self.now.made }
    {
        Calls {}
    }

    /// One more put, of a piece of so many bytes.
    pub fn put(&mut self, bytes: usize)
        ensures { puts_of self.new.made ≡ bytes ∷ puts_of self.old.made }
    {
        self.note("", 0, bytes, ReadOutcome::Bytes(bytes));
    }

    /// One more call: by a name and a place where it has some, with a buffer or a piece of so many bytes, and what came.
    pub fn note(&mut self, name: &str, place: u64, bytes: usize, outcome: ReadOutcome)
        ensures { self.new.made ≡ record { name = name.now; place = place; bytes = bytes; outcome = outcome } ∷ self.old.made }
    {
        *self = self.then(&Note {
            name,
            place,
            bytes,
            outcome,
        });
    }
}
