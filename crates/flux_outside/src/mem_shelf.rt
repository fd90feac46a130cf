// Files in memory.
ghost use Rattle.std.specs.Prelude.{◌≡◌, ◌≢◌, ℕ, ◌≤◌, ◌<◌, ◌↔◌, [], ◌∷◌, ◌++◌, List, length, Contains};
ghost use Rattle.std.specs.Prelude.{Some, None, IfOk, IfSome, IsErr, OnOk, OnErr, MatchOption};
ghost use Rattle.flux_outside.specs.Causes.{HasCause, next_count};
ghost use Rattle.flux_outside.specs.Told.{ShelfReads};
ghost use Rattle.flux_outside.specs.MemShelf.{bytes_of, place_from};
ghost use Rattle.flux_outside.specs.Entries.{seen_entries};
ghost use Rattle.flux_outside.specs.Reads.{outcome_by_name};

use crate::buffers::copy_front;
use crate::calls::Calls;
use crate::counts::count_fault;
use crate::read_outcome::ReadOutcome;
use crate::traits::{Failed, Shelf};
use std::alloc::{AllocError, Global};
use std::marker::Model;

// A name and its bytes.
#[derive(Drop)]
struct Entry {
    name: String,
    bytes: Vec<u8>,
}

/// Files in memory by name, where some reads fail. A read takes no memory.
#[derive(Drop)]
pub struct MemShelf {
    entries: Vec<Entry>,
    call: u64,
    failing: Vec<u64>,
    calls: Calls,
    faults: u64,
    alloc: Global,
    seed: u64,
}

impl Model for MemShelf {
    ghost use Rattle.std.specs.Prelude.{◌<◌, ◌^◌};
    ghost use Rattle.flux_outside.specs.MemShelf.{Rack};
    ghost use Rattle.flux_outside.specs.Entries.{seen_entries};
    ghost use Rattle.flux_outside.specs.Reads.{named_reads_of};

    ghost Value = { Rack };

    ghost view = { λ s. record {
      entries = seen_entries s.entries.items;
      call = s.call;
      failing = s.failing.items;
      reads = named_reads_of s.calls.made;
      faults = s.faults;
    } };

    ghost invariant = { λ s. s.faults < 2 ^ 64 };
}

impl MemShelf {
    /// A shelf with no names, where no read fails, and with no fault yet. Its seed is 0.
    pub fn new(alloc: Global) -> MemShelf
        ensures { result ≡ record { entries = []; call = 0; failing = []; reads = []; faults = 0 } }
    {
        MemShelf::with_seed(alloc, 0)
    }

    /// As `new`, with this seed.
    pub fn with_seed(alloc: Global, seed: u64) -> MemShelf
        ensures { result ≡ record { entries = []; call = 0; failing = []; reads = []; faults = 0 } }
    {
        MemShelf {
            entries: Vec::new(alloc),
            call: 0,
            failing: Vec::new(alloc),
            calls: Calls::new(),
            faults: 0,
            alloc,
            seed,
        }
    }

    /// Sets the bytes of a name, in the place of any that it had. An `Err` changes nothing.
    pub fn add(&mut self, name: &str, bytes: &[u8]) -> Result<(), AllocError>
        ensures set { OnOk result (bytes_of self.new.entries name.now ≡ Some bytes.now) }
        ensures others { OnOk result ((other : List ℕ) → other ≢ name.now
            → bytes_of self.new.entries other ≡ bytes_of self.old.entries other) }
        ensures same { self.new ≡ record self.old { entries = self.new.entries } }
        ensures err { OnErr result (self.new ≡ self.old) }
    {
        let bytes = bytes.to_vec(self.alloc)?;
        if let Some(place) = place_of(&self.entries, name) {
            self.entries[place].bytes = bytes;
            return Ok(());
        }
        let name = String::from_str(self.alloc, name)?;
        self.entries.push(Entry { name, bytes })?;
        Ok(())
    }

    /// Makes the read with this number, counted from 0, fail. An `Err` changes nothing.
    pub fn fail_at(&mut self, call: u64) -> Result<(), AllocError>
        ensures ok { OnOk result (self.new ≡ record self.old { failing = self.old.failing ++ call ∷ [] }) }
        ensures err { OnErr result (self.new ≡ self.old) }
    {
        self.failing.push(call)?;
        Ok(())
    }
}

// The index of the first entry with this name.
fn place_of(entries: &[Entry], name: &str) -> Option<usize>
    ensures within { IfSome result (λ place. place < length entries.now) }
    ensures first { result ≡ place_from 0 (seen_entries entries.now) name.now }
{
    for (place, entry) in entries.iter().enumerate() {
        if entry.name.as_str() == name {
            return Some(place);
        }
    }
    None
}

// The bytes of the first entry with this name.
fn find<'a>(entries: &'a [Entry], name: &str) -> Option<&'a [u8]>
    ensures { MatchOption result (bytes_of (seen_entries entries.now) name.now ≡ None)
        (λ bytes. bytes_of (seen_entries entries.now) name.now ≡ Some bytes.now) }
{
    let place = place_of(entries, name)?;
    Some(&entries[place].bytes)
}

impl Shelf for MemShelf {
    ghost files = { λ s. Some (bytes_of s.entries) };

    ghost reads = { λ s. s.reads };

    ghost faults = { λ s. s.faults };

    fn seed(&self) -> u64 {
        self.seed
    }

    fn read(&mut self, name: &str, from: u64, buf: &mut [u8]) -> Result<Option<usize>, Failed>
        ensures bound { IfOk result (λ answer. IfSome answer (λ n. n ≤ length buf.new)) }
        ensures bytes { ShelfReads (Some (bytes_of self.old.entries)) result name.now from buf.new }
        ensures entries { self.new.entries ≡ self.old.entries }
        ensures asked { self.new.reads
            ≡ record { name = name.now; place = from; read = record { asked = length buf.old; outcome = outcome_by_name result } }
            ∷ self.old.reads }
        ensures cause { HasCause self.old.faults self.new.faults result }
        ensures named { IsErr result ↔ Contains self.old.failing self.old.call }
        ensures call { self.new.call ≡ next_count self.old.call }
        ensures failing { self.new.failing ≡ self.old.failing }
        ensures count { OnErr result (self.new.faults ≡ next_count self.old.faults) }
    {
        let call = self.call;
        self.call = call.saturating_add(1);
        let asked = buf.len();
        if self.failing.contains(&call) {
            self.calls.note(name, from, asked, ReadOutcome::Fault);
            return Err(count_fault(&mut self.faults));
        }
        let Some(bytes) = find(&self.entries, name) else {
            self.calls.note(name, from, asked, ReadOutcome::NoFile);
            return Ok(None);
        };
        let at = from.min(bytes.len() as u64);
        let left = &bytes[at as usize..];
        let count = copy_front(left, left.len(), buf);
        self.calls
            .note(name, from, asked, ReadOutcome::Bytes(count));
        Ok(Some(count))
    }
}
