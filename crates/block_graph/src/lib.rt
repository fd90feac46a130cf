//! Graphs whose rows are chains of blocks in one slab.
//!
//! `BlockGraph` means what `LabelGraph` of `label_graph` means, and shares its table of label names and what else speaks of
//! no vector. A row costs no allocation of its own, and a long one is walked block by block.
//!
//! - `block`: blocks of six entries, and changes of one block of the slab.
//! - `chain`: where the chain of a row begins.
//! - `hashed`: the hashed look-ups.
//! - `row`: an entry more in a row, and an entry less.
//! - `place` and `links`: the noted place of a triple, and a triple in both of its rows.
//! - `store`: `BlockGraph`, with the three traits in `store/hold`, `store/read` and `store/keep`.
#![tactic(auto)]

mod block;
mod chain;
mod hashed;
mod links;
mod place;
mod row;
mod store;

pub use graph_traits::{HoldGraph, KeepGraph, ReadGraph, Spot, Turn};
pub use store::BlockGraph;
