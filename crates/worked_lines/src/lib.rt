//! Worked rows: lines of a graph file over a store, and lines of the updates over a session.
//!
//! There are tests alone here, each over a table, in `line_rows`.
#![tactic(auto)]

#[cfg(test)]
mod line_rows;
