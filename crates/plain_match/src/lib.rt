//! Matching the plain way: a graph as two lists, and all embeddings of a pattern by trying every list of ids.
//!
//! It is slow and simple, and its answers are those of the definitions: `PlainGraph::apply` makes exactly the
//! changes and refusals of an update, and `plain_all` lists exactly the embeddings.
#![tactic(auto)]

mod graph;
mod names;
mod search;

pub use graph::PlainGraph;
pub use search::plain_all;
