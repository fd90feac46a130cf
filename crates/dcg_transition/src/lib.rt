//! How the rows of a pattern's states come to be exact over a graph, and stay so.
//!
//! A pattern vertex other than the root hangs from its parent by a tree edge. Of a graph vertex that the parent reaches, a row
//! is walked along that edge, and each end that fits is reached in turn. So the rows are made from the root down, and what
//! leads on to explicit pairs is counted from the leaves up.
//!
//! The calls by which they move with the graph are handed on from `dcg_updates`: `after_insert` and `after_delete` where a triple
//! came or went, and `after_vertex` where a vertex did.
//!
//! - `rows`: `build`, all rows of a tree over a graph, and `build_from`, the same where the vertices that fit the root are listed.
//! - `roots`: `fitting`, the vertices that fit a set of labels.
//! - `levels`: the depths of the vertices of a tree, and how many children each has.
//! - `reach`: the rows, from the root down.
//! - `extend`: the out counters, from the leaves up.
#![tactic(auto)]

mod extend;
mod levels;
mod reach;
mod roots;
mod rows;

pub use dcg_updates::{after_delete, after_insert, after_vertex};
pub use roots::fitting;
pub use rows::{build, build_from};
