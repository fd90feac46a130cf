//! All embeddings of a pattern, or those of one class of a triple, each once, by a search that goes only where the index says
//! that it can.
//!
//! A search gives the vertices of a pattern ids in an order in which each stands next to one before it in the pattern's tree.
//! A candidate for a vertex comes from the row of that neighbour's id, from a shorter row of another neighbour's, or from the
//! index where it has fewer; the head of an edge that is sent to a triple has one alone. It is taken where its pair is explicit
//! and where the edges that the tree leaves out, the mode and the class allow it:
//!
//! - `found`: what takes the embeddings, one after another.
//! - `aim`: which embeddings a search is for.
//! - `explicit_pairs`: what the index tells of them.
//! - `ahead`: what the id that a head has to have tells of a candidate.
//! - `candidates`: the ids that a vertex may have beside its anchor's, from the shortest of some lists.
//! - `other_rows`: the shorter row of another neighbour's id.
//! - `search`: how a search goes on from the ids that are given.
//! - `starts`: `all`, the search for all, `at_edge`, that for those that use a triple, and `has_none`, where there are none.
//!
//! Only what takes the embeddings wants memory.
#![tactic(auto)]

mod ahead;
mod aim;
mod candidates;
mod explicit_pairs;
mod found;
mod other_rows;
mod search;
mod starts;

pub use found::Found;
pub use starts::{all, at_edge, has_none};
