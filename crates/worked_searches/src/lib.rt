//! Worked rows: what searches find over small graphs, worked out by hand from the definitions.
//!
//! There are tests alone here, each over a table:
//!
//! - `join_rows`: what is asked of one candidate of a search.
//! - `search_rows`: all embeddings over graphs that change line by line. `finds`: the searches that it makes.
#![tactic(auto)]

#[cfg(test)]
mod finds;
#[cfg(test)]
mod join_rows;
#[cfg(test)]
mod search_rows;
