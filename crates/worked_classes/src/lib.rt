//! Worked rows: what a triple brings and takes over small graphs, worked out by hand from the definitions, by searches at it along
//! every edge.
//!
//! There are tests alone here, a loop over a table in `class_rows`.
#![tactic(auto)]

#[cfg(test)]
mod class_rows;
