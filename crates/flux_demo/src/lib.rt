//! The demonstration: a watch over the files of a number, and a summary of what came of it.
//!
//! - `demonstration`: makes the files, reads them, and takes the updates line by line.
//! - `tally`: what the lines came to, and how many maps each pattern gained and lost, counted.
//! - `summary`: the lines of the summary.
#![tactic(auto)]

mod demonstration;
mod summary;
mod tally;
#[cfg(test)]
mod tests;

pub use demonstration::demonstrate;
