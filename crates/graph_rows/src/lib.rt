//! The rows of graph vertices, as pattern edges are walked along them, over any store.
//!
//! - `direction`: which row of a graph vertex has the triples of a pattern edge.
//! - `whole_row`: a row of a graph vertex, as it is walked triple by triple.
//! - `graph_row`: a row of a graph vertex, as it is walked for one label.
//! - `branch`: the tree edge that a pattern vertex hangs by, as it is walked down.
#![tactic(auto)]

mod branch;
mod direction;
mod graph_row;
mod whole_row;

pub use branch::Branch;
pub use direction::Direction;
pub use graph_row::GraphRow;
pub use whole_row::WholeRow;
