//! The one text of a graph: a line for each vertex, and then a line for each edge, each kind in ascending order.
//!
//! A store lists its vertices and the turns of a row in an order of its own; here they are put in order.
//!
//! - `graph`: `write_graph`, the vertices in the order of their ids, and the edges of each.
//! - `row`: the edges that begin at one vertex, in order.
#![tactic(auto)]

mod graph;
mod row;

pub use graph::write_graph;
