//! Worked runs of the program's one call. The texts that they must write are worked out by hand from the definitions.
//!
//! There are tests alone here, each a loop over a table:
//!
//! - `watch_runs`: what updates change. `match_runs`: all embeddings. `save_runs`: the text of a graph.
//! - `payment_runs`: the example of payments that the repository ships.
//! - `large_runs`: graphs that are too large to write down.
//! - `early_runs`: runs that end early.
#![tactic(auto)]

#[cfg(test)]
mod early_runs;
#[cfg(test)]
mod large_runs;
#[cfg(test)]
mod match_runs;
#[cfg(test)]
mod payment_runs;
#[cfg(test)]
mod save_runs;
#[cfg(test)]
mod watch_runs;
