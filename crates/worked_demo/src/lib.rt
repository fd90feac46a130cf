//! Worked runs of `demo NUMBER`. What they must write was counted from the report that another program makes of the same files.
//!
//! There are tests alone here:
//!
//! - `runs`: numbers, words that are none, and what lies outside.
#![tactic(auto)]

#[cfg(test)]
mod runs;
