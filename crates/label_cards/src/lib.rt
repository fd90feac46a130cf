//! Cards: how many triples of a graph fit each edge of a pattern, and how many of its vertices fit each vertex of it.
//!
//! One pass over the vertices of the graph and their out rows serves all edges and vertices of any number of patterns:
//!
//! - `pattern_cards`: the cards of one pattern, and of all patterns of a run.
//! - `plan`: what the pass counts: the distinct sets of labels of the patterns, and the distinct tests that their edges make.
//! - `pass`: the pass over the vertices, and which sets each of them fits.
//! - `row`: the pass over the out row of one vertex.
#![tactic(auto)]

mod pass;
mod pattern_cards;
mod plan;
mod row;

pub use pattern_cards::{all_cards, cards};
