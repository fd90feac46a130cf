// A sink in memory.
ghost use Rattle.std.specs.Prelude.{◌≡◌, ◌+◌, ◌≤◌, ◌↔◌, [], ◌∷◌, length, Some, IfOk, IsOk, OnErr};
ghost use Rattle.flux_outside.specs.Causes.{HasCause, next_count};
ghost use Rattle.flux_outside.specs.Told.{PutAppends};

use crate::calls::Calls;
use crate::counts::count_fault;
use crate::traits::{Failed, Sink};
use std::alloc::{AllocError, Global};
use std::marker::Model;

/// Bytes in memory, in a room of fixed size. A put that does not fit appends what fits and fails. The
/// room is reserved from the start, so a put takes no memory.
#[derive(Drop)]
pub struct MemSink {
    bytes: Vec<u8>,
    room: usize,
    calls: Calls,
    faults: u64,
}

impl Model for MemSink {
    ghost use Rattle.std.specs.Prelude.{◌≤◌, ◌<◌, ◌^◌, vec_len, vec_capacity};
    ghost use Rattle.flux_outside.specs.MemSink.{Kept};
    ghost use Rattle.flux_outside.specs.Reads.{puts_of};

    ghost Value = { Kept };

    ghost view = { λ s. record { bytes = s.bytes.items; room = s.room; puts = puts_of s.calls.made; faults = s.faults } };

    ghost invariant = { λ s. (vec_len s.bytes ≤ s.room) × (s.room ≤ vec_capacity s.bytes) × (s.faults < 2 ^ 64) };
}

impl MemSink {
    /// An empty sink for so many bytes, with no fault yet.
    pub fn new(alloc: Global, room: usize) -> Result<MemSink, AllocError>
        ensures { IfOk result (λ sink. sink ≡ record { bytes = []; room = room; puts = []; faults = 0 }) }
    {
        let bytes = Vec::with_capacity(alloc, room)?;
        Ok(MemSink {
            bytes,
            room,
            calls: Calls::new(),
            faults: 0,
        })
    }

    /// The bytes that it took.
    pub fn bytes(&self) -> &[u8]
        ensures { result.now ≡ self.now.bytes }
    {
        &self.bytes
    }
}

impl Sink for MemSink {
    ghost taken = { λ s. Some s.bytes };

    ghost puts = { λ s. s.puts };

    ghost faults = { λ s. s.faults };

    fn put(&mut self, piece: &[u8]) -> Result<(), Failed>
        ensures bytes { PutAppends (Some self.old.bytes) (Some self.new.bytes) result piece.now }
        ensures asked { self.new.puts ≡ length piece.now ∷ self.old.puts }
        ensures cause { HasCause self.old.faults self.new.faults result }
        ensures room { self.new.room ≡ self.old.room }
        ensures fits { IsOk result ↔ (length self.old.bytes + length piece.now ≤ self.old.room) }
        ensures full { OnErr result (length self.new.bytes ≡ self.old.room) }
        ensures count { OnErr result (self.new.faults ≡ next_count self.old.faults) }
    {
        self.calls.put(piece.len());
        let space = self.room - self.bytes.len();
        if piece.len() <= space {
            self.bytes.extend_from_slice(piece).unwrap();
            return Ok(());
        }
        self.bytes.extend_from_slice(&piece[..space]).unwrap();
        Err(count_fault(&mut self.faults))
    }
}
