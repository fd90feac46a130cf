//! What a store of a graph can do.
//!
//! Code above a store is generic over three traits:
//!
//! - `hold`: `HoldGraph`, what a store means: a graph, and the limits that it is kept under.
//! - `read`: `ReadGraph`, the reads of the content, each of which counts one step, with `Turn`, what a row has at a place.
//! - `keep`: `KeepGraph`, the changes, with their refusals.
//! - `spot`: `Spot`, a place in a row.
#![tactic(auto)]

mod hold;
mod keep;
mod read;
mod spot;

pub use hold::HoldGraph;
pub use keep::KeepGraph;
pub use read::{ReadGraph, Turn};
pub use spot::Spot;
