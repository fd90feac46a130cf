// What the program asks of the outside.
ghost use Rattle.std.specs.Prelude.{◌≡◌, ◌≤◌, List, ℕ, ◌∷◌, length, Option, IfOk, IfSome};
ghost use Rattle.std.specs.Io.{ReadsAtMost};
ghost use Rattle.std.specs.Io.KnownBytes.{ReadConsumes};
ghost use Rattle.flux_outside.specs.Causes.{HasCause};
ghost use Rattle.flux_outside.specs.Reads.{Read, NamedRead, outcome_of, outcome_by_name};
ghost use Rattle.flux_outside.specs.Told.{PutAppends, Files, ShelfReads};

/// A call on the outside failed, and the object's count of faults has risen or stands at its end.
#[derive(Clone, Copy, Debug, PartialEq, Eq)]
pub struct Failed;

/// Bytes that are taken once, from the front.
pub trait Source {
    /// The bytes that are left, where the object tells them.
    ghost left: { Self → Option (List ℕ) };

    /// The reads that were made, the last first.
    ghost reads: { Self → List Read };

    /// The count of faults, which never falls.
    ghost faults: { Self → ℕ };

    /// Takes some of the bytes that are left into the front of the buffer, and says how many. For a
    /// non-empty buffer 0 says that none are left. Where it fails, none are taken.
    fn read(&mut self, buf: &mut [u8]) -> Result<usize, Failed>
        ensures bound { ReadsAtMost result buf.new }
        ensures bytes { ReadConsumes (left self.old) (left self.new) result buf.new }
        ensures asked { reads self.new ≡ record { asked = length buf.old; outcome = outcome_of result } ∷ reads self.old }
        ensures cause { HasCause (faults self.old) (faults self.new) result };
}

/// A place that takes bytes, one piece after the other.
pub trait Sink {
    /// The bytes that were taken so far, where the object tells them.
    ghost taken: { Self → Option (List ℕ) };

    /// The lengths of the pieces that were put, the last first.
    ghost puts: { Self → List ℕ };

    /// The count of faults, which never falls.
    ghost faults: { Self → ℕ };

    /// Appends the piece. Where it fails, it has appended a front part of it.
    fn put(&mut self, piece: &[u8]) -> Result<(), Failed>
        ensures bytes { PutAppends (taken self.old) (taken self.new) result piece.now }
        ensures asked { puts self.new ≡ length piece.now ∷ puts self.old }
        ensures cause { HasCause (faults self.old) (faults self.new) result };
}

/// Files by name.
pub trait Shelf {
    /// The bytes of each name, where the object tells them.
    ghost files: { Self → Option Files };

    /// The reads that were made, the last first.
    ghost reads: { Self → List NamedRead };

    /// The count of faults, which never falls.
    ghost faults: { Self → ℕ };

    /// The number that look-ups by hash are to start from, so that nobody can pick keys that collide. Nothing is said of it.
    fn seed(&self) -> u64;

    /// Reads from a place of a file on into the front of the buffer, and says how many bytes. For a
    /// non-empty buffer 0 says that the place is at or past the end. `None` says that there is no
    /// such name, which is no fault.
    fn read(&mut self, name: &str, from: u64, buf: &mut [u8]) -> Result<Option<usize>, Failed>
        ensures bound { IfOk result (λ answer. IfSome answer (λ n. n ≤ length buf.new)) }
        ensures bytes { ShelfReads (files self.old) result name.now from buf.new }
        ensures same { files self.new ≡ files self.old }
        ensures asked { reads self.new
            ≡ record { name = name.now; place = from; read = record { asked = length buf.old; outcome = outcome_by_name result } }
            ∷ reads self.old }
        ensures cause { HasCause (faults self.old) (faults self.new) result };
}
