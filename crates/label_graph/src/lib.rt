//! Graphs in the form that an index runs on: ids found by hashing, and for each vertex the row of its outgoing triples and
//! the row of its incoming ones.
//!
//! The traits of `graph_traits` are handed on. The modules that are public speak of no vector, or of any form of a row: another
//! store may stand on them.
//!
//! The store:
//!
//! - `names`: the table of label names, each under a number, with how often it is used.
//! - `link`: triples by the numbers of their labels, and what is kept of a vertex.
//! - `hashed`: the hashed look-ups, whose hasher is chosen there.
//! - `row`, `place`, `step` and `links`: changes of one row, of the noted place of a triple, of a row with the places in it,
//!   and of both rows.
//! - `store`: `LabelGraph`, with the three traits in `store/hold`, `store/read` and `store/keep`.
#![tactic(auto)]

pub mod hashed;
pub mod link;
mod links;
pub mod names;
mod place;
mod row;
mod step;
pub mod store;

pub use graph_traits::{HoldGraph, KeepGraph, ReadGraph, Spot, Turn};
pub use store::LabelGraph;
