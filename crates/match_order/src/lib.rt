//! The order in which a search gives ids to the vertices of a pattern.
//!
//! It begins at a vertex that the search has an id for, and goes on along the links of the pattern's tree, each time to the
//! vertex with the fewest candidates among those next to a placed one:
//!
//! - `place`: a vertex of the order, with its anchor.
//! - `frontier`: which vertices are placed, and which could be next.
//! - `search_order`: `SearchOrder`, the whole order.
//!
//! None of these calls takes memory.
#![tactic(auto)]

mod frontier;
mod place;
mod search_order;

pub use search_order::{SearchOrder, order};
