//! Worked rows: what registries of patterns keep and answer over small graphs, worked out by hand from the definitions.
//!
//! There are tests alone here. Each goes over a table, and each public call of a registry is met once:
//!
//! - `registry_rows`: many patterns over one graph. `apply_rows`: how they move as it changes.
#![tactic(auto)]

#[cfg(test)]
mod apply_rows;
#[cfg(test)]
mod registry_rows;
