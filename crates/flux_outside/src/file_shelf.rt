// A shelf over the files of a runtime.
ghost use Rattle.std.specs.Prelude.{◌≡◌, ◌≤◌, [], ◌∷◌, length, None, IfOk, IfSome, OnErr};
ghost use Rattle.flux_outside.specs.Causes.{HasCause, next_count};
ghost use Rattle.flux_outside.specs.Reads.{outcome_by_name};

use crate::calls::Calls;
use crate::counts::count_fault;
use crate::read_outcome::ReadOutcome;
use crate::retry;
use crate::traits::{Failed, Shelf};
use std::alloc::Global;
use std::io;
use std::io::{ErrorKind, Read, Seek};
use std::marker::Model;
use std::rt::Files;

/// The files of a runtime, by their paths. It tells no bytes.
///
/// A file that is read piece by piece stays open, so a pipe can be read from its start to its end, and a file that is replaced
/// midway is read whole as it was opened. A read from place 0 opens the file anew, one from the place where the open file
/// stands goes on in it, and any other opens the file anew and goes to its place. The open file is let go at its end, at a
/// fault and where another is asked for.
///
/// A name is absent exactly where opening it answers `NotFound`. A call that is interrupted is tried
/// again up to 16 times in a row. Any other error is a fault, and so is want of memory for a name.
#[derive(Drop)]
pub struct FileShelf<'a, R: Files> {
    alloc: Global,
    rt: &'a R,
    kept: Option<KeptFile<R::File>>,
    calls: Calls,
    faults: u64,
    seed: u64,
}

// An open file, its name, and the place where it stands.
#[derive(Drop)]
struct KeptFile<H: Read + Seek + Drop> {
    name: String,
    place: u64,
    file: H,
}

impl<'a, R: Files> Model for FileShelf<'a, R> {
    ghost use Rattle.std.specs.Prelude.{◌<◌, ◌^◌};
    ghost use Rattle.flux_outside.specs.Real.{Shelved};
    ghost use Rattle.flux_outside.specs.Reads.{named_reads_of};

    ghost Value = { Shelved };

    ghost view = { λ s. record { reads = named_reads_of s.calls.made; faults = s.faults } };

    ghost invariant = { λ s. s.faults < 2 ^ 64 };
}

impl<'a, R: Files> FileShelf<'a, R> {
    /// The files of this runtime, and no fault yet. Its seed is 0.
    pub fn new(alloc: Global, rt: &'a R) -> FileShelf<'a, R>
        ensures { result ≡ record { reads = []; faults = 0 } }
    {
        FileShelf::with_seed(alloc, rt, 0)
    }

    /// As `new`, with this seed.
    pub fn with_seed(alloc: Global, rt: &'a R, seed: u64) -> FileShelf<'a, R>
        ensures { result ≡ record { reads = []; faults = 0 } }
    {
        FileShelf {
            alloc,
            rt,
            kept: None,
            calls: Calls::new(),
            faults: 0,
            seed,
        }
    }
}

impl<H: Read + Seek + Drop> KeptFile<H> {
    // Whether this file has the name, and a read from the place goes on in it.
    fn goes_on(&self, name: &str, from: u64) -> bool {
        from > 0 && from == self.place && self.name.as_str() == name
    }
}

// Opens the file of this name, if there is one, and goes to the place.
fn open_at<R: Files>(
    alloc: Global,
    rt: &R,
    name: &str,
    from: u64,
) -> io::Result<Option<KeptFile<R::File>>> {
    let mut file = match retry::open(rt, name) {
        Ok(file) => file,
        Err(error) if error.kind() == ErrorKind::NotFound => return Ok(None),
        Err(error) => return Err(error),
    };
    if from > 0 {
        retry::seek(&mut file, from)?;
    }
    let name = String::from_str(alloc, name)?;
    Ok(Some(KeptFile {
        name,
        place: from,
        file,
    }))
}

// The file that is open, where the read goes on in it, or else the file of this name.
fn file_at<R: Files>(
    alloc: Global,
    rt: &R,
    kept: Option<KeptFile<R::File>>,
    name: &str,
    from: u64,
) -> io::Result<Option<KeptFile<R::File>>> {
    if let Some(kept) = kept {
        if kept.goes_on(name, from) {
            return Ok(Some(kept));
        }
    }
    open_at(alloc, rt, name, from)
}

// Reads from a place of a file on, and keeps the file open where it gave something.
fn read_from<R: Files>(
    alloc: Global,
    rt: &R,
    kept: &mut Option<KeptFile<R::File>>,
    name: &str,
    from: u64,
    buf: &mut [u8],
) -> io::Result<Option<usize>>
    ensures bound { IfOk result (λ answer. IfSome answer (λ n. n ≤ length buf.new)) }
{
    let Some(mut open) = file_at(alloc, rt, kept.take(), name, from)? else {
        return Ok(None);
    };
    let count = retry::read(&mut open.file, buf)?;
    if count > 0 {
        open.place = from.saturating_add(count as u64);
        *kept = Some(open);
    }
    Ok(Some(count))
}

impl<'a, R: Files> Shelf for FileShelf<'a, R> {
    ghost files = { λ _. None };

    ghost reads = { λ s. s.reads };

    ghost faults = { λ s. s.faults };

    fn seed(&self) -> u64 {
        self.seed
    }

    fn read(&mut self, name: &str, from: u64, buf: &mut [u8]) -> Result<Option<usize>, Failed>
        ensures bound { IfOk result (λ answer. IfSome answer (λ n. n ≤ length buf.new)) }
        ensures asked { self.new.reads
            ≡ record { name = name.now; place = from; read = record { asked = length buf.old; outcome = outcome_by_name result } }
            ∷ self.old.reads }
        ensures cause { HasCause self.old.faults self.new.faults result }
        ensures count { OnErr result (self.new.faults ≡ next_count self.old.faults) }
    {
        let asked = buf.len();
        match read_from(self.alloc, self.rt, &mut self.kept, name, from, buf) {
            Ok(Some(count)) => {
                self.calls
                    .note(name, from, asked, ReadOutcome::Bytes(count));
                Ok(Some(count))
            }
            Ok(None) => {
                self.calls.note(name, from, asked, ReadOutcome::NoFile);
                Ok(None)
            }
            Err(_) => {
                self.calls.note(name, from, asked, ReadOutcome::Fault);
                Err(count_fault(&mut self.faults))
            }
        }
    }
}
