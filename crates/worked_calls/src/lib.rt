//! Worked runs of the program's one call, of which the calls are noted and what is handed back is looked at. What is due is worked out by
//! hand from the definitions.
//!
//! There are tests alone here, each a loop over a table:
//!
//! - `asked_runs`: what runs ask of their inputs, and what they put.
//! - `kept_runs`: what they hand back.
#![tactic(auto)]

#[cfg(test)]
mod asked_runs;
#[cfg(test)]
mod kept_runs;
