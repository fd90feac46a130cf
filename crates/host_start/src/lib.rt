//! What a program of this repository does before its one call: it takes the words of the command line, and draws a seed.
#![tactic(auto)]

ghost use Rattle.std.specs.Prelude.{◌≡◌, ◌⊎◌};

use flux_outside::Sink;
use std::alloc::Global;
use std::env::Env;
use std::io::ErrorKind;
use std::random::RandomSource;
use std::{env, io};
use watch_cli::Status;

/// The words after the program's name. An error where one of them is not UTF-8, or for want of memory.
pub fn words_of(alloc: Global, rt: &(impl Env + Alloc<A = Global>)) -> io::Result<Vec<String>> {
    let mut words = Vec::new(alloc);
    for word in env::args(rt)?.skip(1) {
        words.push(word)?;
    }
    Ok(words)
}

/// Tells why there are no words: memory was refused, or else a word is not UTF-8. The status says so too.
pub fn tell_no_words(error: &io::Error, err: &mut impl Sink) -> Status
    ensures { (result ≡ Status.Memory) ⊎ (result ≡ Status.Usage) }
{
    let status = if error.kind() == ErrorKind::OutOfMemory {
        Status::Memory
    } else {
        Status::Usage
    };
    let _ = err.put(status.text().as_bytes());
    status
}

/// The number that look-ups hash from, drawn from the system's random source; 0 where the draw fails.
pub fn seed_of(rt: &impl RandomSource) -> u64 {
    let mut bytes = [0; 8];
    match rt.fill_bytes(&mut bytes) {
        Ok(()) => u64::from_le_bytes(bytes),
        Err(_) => 0,
    }
}
