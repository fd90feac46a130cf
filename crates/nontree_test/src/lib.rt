//! The tests of one candidate of a search: an id that may be given to a pattern vertex, beside the ids that others have.
//!
//! A search that goes along the tree of a pattern finds candidates by the tree's edges alone. What is left to test:
//!
//! - `numbers`: `label_numbers`, the numbers that a store has for the labels of a pattern's edges.
//! - `edges`: `joins`, whether the edges that the tree leaves out stand under the ids.
//! - `ids`: `free`, whether the mode lets the candidate be given.
//! - `sent`: `earlier`, whether an edge of a lower number would be sent to a triple.
//!
//! None of these calls takes memory.
#![tactic(auto)]

mod edges;
mod ids;
mod numbers;
mod sent;

pub use edges::{joins, stands};
pub use ids::free;
pub use numbers::label_numbers;
pub use sent::earlier;
