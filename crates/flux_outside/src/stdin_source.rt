// A source over a reader.
ghost use Rattle.std.specs.Prelude.{◌≡◌, [], ◌∷◌, length, OnErr};
ghost use Rattle.std.specs.Io.{ReadsAtMost};
ghost use Rattle.std.specs.Io.KnownBytes.{ReadConsumes};
ghost use Rattle.flux_outside.specs.Causes.{HasCause, next_count};
ghost use Rattle.flux_outside.specs.Reads.{outcome_of};

use crate::calls::Calls;
use crate::counts::count_fault;
use crate::read_outcome::ReadOutcome;
use crate::retry;
use crate::traits::{Failed, Source};
use std::io::Read;
use std::marker::Model;

/// The bytes of standard input, or of any other reader.
///
/// It tells what its reader tells, which is nothing for standard input. A read that is interrupted
/// is tried again up to 16 times in a row. Any other error of the reader is a fault.
#[derive(Drop)]
pub struct StdinSource<R: Read + Drop> {
    reader: R,
    calls: Calls,
    faults: u64,
}

impl<R: Read + Drop> Model for StdinSource<R> {
    ghost use Rattle.std.specs.Prelude.{◌<◌, ◌^◌};
    ghost use Rattle.flux_outside.specs.Real.{Reading};
    ghost use Rattle.flux_outside.specs.Reads.{reads_of};

    ghost Value = { Reading };

    ghost view = { λ s. record { left = R.remaining s.reader; reads = reads_of s.calls.made; faults = s.faults } };

    ghost invariant = { λ s. s.faults < 2 ^ 64 };
}

impl<R: Read + Drop> StdinSource<R> {
    /// The bytes of this reader, and no fault yet.
    pub fn new(reader: R) -> StdinSource<R>
        ensures { result ≡ record { left = R.remaining reader; reads = []; faults = 0 } }
    {
        StdinSource {
            reader,
            calls: Calls::new(),
            faults: 0,
        }
    }
}

impl<R: Read + Drop> Source for StdinSource<R> {
    ghost left = { λ s. s.left };

    ghost reads = { λ s. s.reads };

    ghost faults = { λ s. s.faults };

    fn read(&mut self, buf: &mut [u8]) -> Result<usize, Failed>
        ensures bound { ReadsAtMost result buf.new }
        ensures bytes { ReadConsumes self.old.left self.new.left result buf.new }
        ensures asked { self.new.reads ≡ record { asked = length buf.old; outcome = outcome_of result } ∷ self.old.reads }
        ensures cause { HasCause self.old.faults self.new.faults result }
        ensures count { OnErr result (self.new.faults ≡ next_count self.old.faults) }
    {
        let asked = buf.len();
        match retry::read(&mut self.reader, buf) {
            Ok(count) => {
                self.calls.note("", 0, asked, ReadOutcome::Bytes(count));
                Ok(count)
            }
            Err(_) => {
                self.calls.note("", 0, asked, ReadOutcome::Fault);
                Err(count_fault(&mut self.faults))
            }
        }
    }
}
