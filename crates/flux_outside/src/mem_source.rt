// A source in memory.
ghost use Rattle.std.specs.Prelude.{◌≡◌, ◌↔◌, [], ◌∷◌, length, min, Some, IfOk, IsErr, OnErr, Contains};
ghost use Rattle.std.specs.Io.{ReadsAtMost};
ghost use Rattle.std.specs.Io.KnownBytes.{ReadConsumes};
ghost use Rattle.flux_outside.specs.Causes.{HasCause, next_count};
ghost use Rattle.flux_outside.specs.MemSource.{Feed, cut_at};
ghost use Rattle.flux_outside.specs.Reads.{outcome_of};

use crate::buffers::copy_front;
use crate::calls::Calls;
use crate::counts::count_fault;
use crate::read_outcome::ReadOutcome;
use crate::traits::{Failed, Source};
use std::alloc::{AllocError, Global};
use std::marker::Model;

/// Bytes in memory that come in pieces, where some reads fail. A read takes no memory.
#[derive(Drop)]
pub struct MemSource {
    bytes: Vec<u8>,
    at: usize,
    call: u64,
    cuts: Vec<u64>,
    failing: Vec<u64>,
    calls: Calls,
    faults: u64,
}

impl Model for MemSource {
    ghost use Rattle.std.specs.Prelude.{◌≤◌, ◌<◌, ◌^◌, vec_len, drop};
    ghost use Rattle.flux_outside.specs.MemSource.{Feed};
    ghost use Rattle.flux_outside.specs.Reads.{reads_of};

    ghost Value = { Feed };

    ghost view = { λ s. record {
      left = drop s.at s.bytes.items;
      call = s.call;
      cuts = s.cuts.items;
      failing = s.failing.items;
      reads = reads_of s.calls.made;
      faults = s.faults;
    } };

    ghost invariant = { λ s. (s.at ≤ vec_len s.bytes) × (s.faults < 2 ^ 64) };
}

impl MemSource {
    /// A source of these bytes, with no fault yet.
    ///
    /// Reads are numbered from 0. Read number k gives at most `cuts[k]` bytes, where a cut of 0
    /// counts as 1 and a read past the end of `cuts` has no cut. The reads whose numbers are in
    /// `failing` fail, and no others.
    pub fn new(
        alloc: Global,
        bytes: &[u8],
        cuts: &[u64],
        failing: &[u64],
    ) -> Result<MemSource, AllocError>
        ensures { let fresh : Feed =
            record { left = bytes.now; call = 0; cuts = cuts.now; failing = failing.now; reads = []; faults = 0 } in
            IfOk result (λ source. source ≡ fresh) }
    {
        let bytes = bytes.to_vec(alloc)?;
        let cuts = cuts.to_vec(alloc)?;
        let failing = failing.to_vec(alloc)?;
        Ok(MemSource {
            bytes,
            at: 0,
            call: 0,
            cuts,
            failing,
            calls: Calls::new(),
            faults: 0,
        })
    }
}

// The most bytes that the read with this number gives.
fn cut_of(cuts: &[u64], call: u64) -> u64
    ensures { result ≡ cut_at cuts.now call }
{
    let cut = if call < cuts.len() as u64 {
        cuts[call as usize]
    } else {
        u64::MAX
    };
    cut.max(1)
}

impl Source for MemSource {
    ghost left = { λ s. Some s.left };

    ghost reads = { λ s. s.reads };

    ghost faults = { λ s. s.faults };

    fn read(&mut self, buf: &mut [u8]) -> Result<usize, Failed>
        ensures bound { ReadsAtMost result buf.new }
        ensures bytes { ReadConsumes (Some self.old.left) (Some self.new.left) result buf.new }
        ensures asked { self.new.reads ≡ record { asked = length buf.old; outcome = outcome_of result } ∷ self.old.reads }
        ensures cause { HasCause self.old.faults self.new.faults result }
        ensures named { IsErr result ↔ Contains self.old.failing self.old.call }
        ensures cut { IfOk result (λ n. n ≡ min (min (length buf.old) (length self.old.left)) (cut_at self.old.cuts self.old.call)) }
        ensures call { self.new.call ≡ next_count self.old.call }
        ensures cuts { self.new.cuts ≡ self.old.cuts }
        ensures failing { self.new.failing ≡ self.old.failing }
        ensures count { OnErr result (self.new.faults ≡ next_count self.old.faults) }
    {
        let call = self.call;
        self.call = call.saturating_add(1);
        let asked = buf.len();
        if self.failing.contains(&call) {
            self.calls.note("", 0, asked, ReadOutcome::Fault);
            return Err(count_fault(&mut self.faults));
        }
        let cut = cut_of(&self.cuts, call);
        let count = copy_front(&self.bytes[self.at..], cut as usize, buf);
        self.at += count;
        self.calls.note("", 0, asked, ReadOutcome::Bytes(count));
        Ok(count)
    }
}
