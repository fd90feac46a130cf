//! Worked rows: what searches find at a triple over small graphs, worked out by hand from the definitions.
//!
//! There are tests alone here, each over a table:
//!
//! - `edge_rows`: the embeddings that send one edge to a triple.
//! - `fan_rows`: searches beside a vertex of many triples.
#![tactic(auto)]

#[cfg(test)]
mod edge_rows;
#[cfg(test)]
mod fan_rows;
