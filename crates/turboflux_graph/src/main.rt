//! `turboflux-graph`: hands the words of the command line and the real objects to the library's one call, and ends with its status.
#![tactic(auto)]

use flux_model::{Limits, Silent, Steps};
use flux_outside::{FileShelf, StderrSink, StdinSource, StdoutSink};
use graph_checkpoint::checkpoint;
use host_start::{seed_of, tell_no_words, words_of};
use std::process::ExitCode;

fn main(rt: HostRuntime) -> ExitCode {
    let alloc = rt.alloc();
    let mut err = StderrSink::new(rt.stderr());
    let words = match words_of(alloc, &rt) {
        Ok(words) => words,
        Err(error) => return ExitCode::from(tell_no_words(&error, &mut err).number()),
    };
    let shelf = FileShelf::with_seed(alloc, &rt, seed_of(&rt));
    let mut updates = StdinSource::new(rt.stdin());
    let mut out = StdoutSink::new(rt.stdout());
    let mut steps = Steps::new(Silent);
    let ended = checkpoint(
        alloc,
        &words,
        &Limits::standard(),
        shelf,
        &mut updates,
        &mut out,
        &mut err,
        &mut steps,
    );
    ExitCode::from(ended.status.number())
}
