//! All patterns of a run, each with its spanning tree and the exact rows of its states over one graph, as the graph changes.
//!
//! - `registry`: `Registry`, the patterns and what is kept of each; the changes of the graph.
//! - `index`: `PatternIndex`, the tree and the rows of one pattern, and `indexes_over`, those of all.
//! - `roots`: `RootLists`, the vertices that fit the roots of patterns.
//! - `routes`: from a label to the patterns that have an edge with it.
//! - `triples`: what a triple that comes or goes moves along a route.
//! - `vertices`: what a vertex that comes or goes moves.
#![tactic(auto)]

mod index;
mod registry;
mod roots;
mod routes;
mod triples;
mod vertices;

pub use registry::Registry;
