//! What the lines of an input make of a store of a graph, and of the patterns' index over it.
//!
//! - `graph_line`: a line of a graph file.
//! - `session`: `Session`, which takes the lines of the updates.
//! - `taken`: `Taken`, what a line of the updates came to.
#![tactic(auto)]

mod graph_line;
mod session;
mod taken;

pub use graph_line::take_graph_line;
pub use session::Session;
pub use taken::Taken;
