// A sink over a writer.
ghost use Rattle.std.specs.Prelude.{◌≡◌, [], ◌∷◌, length, OnErr};
ghost use Rattle.flux_outside.specs.Causes.{HasCause, next_count};
ghost use Rattle.flux_outside.specs.Told.{PutAppends};

use crate::calls::Calls;
use crate::counts::count_fault;
use crate::retry;
use crate::traits::{Failed, Sink};
use std::io::Write;
use std::marker::Model;

/// Standard error, or any other writer.
///
/// It tells what its writer tells, which is nothing for standard error. A call that is
/// interrupted is tried again up to 16 times in a row. Any other error of the writer is a fault, and
/// so is a write that takes nothing.
#[derive(Drop)]
pub struct StderrSink<W: Write + Drop> {
    writer: W,
    calls: Calls,
    faults: u64,
}

impl<W: Write + Drop> Model for StderrSink<W> {
    ghost use Rattle.std.specs.Prelude.{◌<◌, ◌^◌};
    ghost use Rattle.flux_outside.specs.Real.{Writing};
    ghost use Rattle.flux_outside.specs.Reads.{puts_of};

    ghost Value = { Writing };

    ghost view = { λ s. record { taken = W.contents s.writer; puts = puts_of s.calls.made; faults = s.faults } };

    ghost invariant = { λ s. s.faults < 2 ^ 64 };
}

impl<W: Write + Drop> StderrSink<W> {
    /// The bytes go to this writer, and there is no fault yet.
    pub fn new(writer: W) -> StderrSink<W>
        ensures { result ≡ record { taken = W.contents writer; puts = []; faults = 0 } }
    {
        StderrSink {
            writer,
            calls: Calls::new(),
            faults: 0,
        }
    }
}

impl<W: Write + Drop> Sink for StderrSink<W> {
    ghost taken = { λ s. s.taken };

    ghost puts = { λ s. s.puts };

    ghost faults = { λ s. s.faults };

    fn put(&mut self, piece: &[u8]) -> Result<(), Failed>
        ensures bytes { PutAppends self.old.taken self.new.taken result piece.now }
        ensures asked { self.new.puts ≡ length piece.now ∷ self.old.puts }
        ensures cause { HasCause self.old.faults self.new.faults result }
        ensures count { OnErr result (self.new.faults ≡ next_count self.old.faults) }
    {
        self.calls.put(piece.len());
        match retry::write_whole(&mut self.writer, piece) {
            Ok(()) => Ok(()),
            Err(_) => Err(count_fault(&mut self.faults)),
        }
    }
}
