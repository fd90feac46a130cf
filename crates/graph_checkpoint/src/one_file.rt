//! A shelf that has one more file.
ghost use Rattle.std.specs.Prelude.{◌≡◌, ◌≤◌, ◌∷◌, length, string_bytes, IfOk, IfSome};
ghost use Rattle.std.specs.Option.{option_map};
ghost use Rattle.flux_outside.specs.Causes.{HasCause};
ghost use Rattle.flux_outside.specs.Reads.{outcome_by_name, named_reads_of};
ghost use Rattle.flux_outside.specs.Told.{ShelfReads};
ghost use Rattle.graph_checkpoint.specs.OneFile.{with_empty};

use flux_outside::{Calls, Failed, ReadOutcome, Shelf};

/// The files of another shelf, and a file without bytes under one name, whatever the other shelf has there.
#[derive(Drop)]
pub struct OneFile<F: Shelf + Drop> {
    shelf: F,
    name: String,
    calls: Calls,
}

impl<F: Shelf + Drop> OneFile<F> {
    /// The files of this shelf, and an empty one of this name. No read was made yet.
    pub fn new(shelf: F, name: String) -> OneFile<F>
        ensures shelf { result.shelf ≡ shelf }
        ensures name { result.name ≡ name }
    {
        OneFile {
            shelf,
            name,
            calls: Calls::new(),
        }
    }

    /// The name of the empty file.
    pub fn name(&self) -> &str
        ensures { result.now ≡ string_bytes self.now.name }
    {
        self.name.as_str()
    }

    /// The other shelf.
    pub fn into_shelf(self) -> F
        ensures { result ≡ self.shelf }
    {
        self.shelf
    }
}

/// What a read by name came to.
fn outcome_of(answer: &Result<Option<usize>, Failed>) -> ReadOutcome
    ensures { result ≡ outcome_by_name answer.now }
{
    match answer {
        Ok(Some(count)) => ReadOutcome::Bytes(*count),
        Ok(None) => ReadOutcome::NoFile,
        Err(_) => ReadOutcome::Fault,
    }
}

impl<F: Shelf + Drop> Shelf for OneFile<F> {
    ghost files = { λ s. option_map (with_empty (string_bytes s.name)) (F.files s.shelf) };

    ghost reads = { λ s. named_reads_of s.calls.made };

    ghost faults = { λ s. F.faults s.shelf };

    fn seed(&self) -> u64 {
        self.shelf.seed()
    }

    fn read(&mut self, name: &str, from: u64, buf: &mut [u8]) -> Result<Option<usize>, Failed>
        ensures bound { IfOk result (λ answer. IfSome answer (λ n. n ≤ length buf.new)) }
        ensures bytes { let files = option_map (with_empty (string_bytes self.old.name)) (F.files self.old.shelf) in
            ShelfReads files result name.now from buf.new }
        ensures name { self.new.name ≡ self.old.name }
        ensures files { F.files self.new.shelf ≡ F.files self.old.shelf }
        ensures asked { named_reads_of self.new.calls.made
            ≡ record { name = name.now; place = from; read = record { asked = length buf.old; outcome = outcome_by_name result } }
            ∷ named_reads_of self.old.calls.made }
        ensures cause { HasCause (F.faults self.old.shelf) (F.faults self.new.shelf) result }
    {
        let asked = buf.len();
        if name == self.name.as_str() {
            self.calls.note(name, from, asked, ReadOutcome::Bytes(0));
            return Ok(Some(0));
        }
        let answer = self.shelf.read(name, from, buf);
        self.calls.note(name, from, asked, outcome_of(&answer));
        answer
    }
}
