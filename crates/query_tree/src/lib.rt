//! The spanning tree of a pattern that is chosen by cards, which an index of states hangs on.
//!
//! - `numbers`: numbers below a bound, chosen by a test.
//! - `growth`: a tree that grows by one link at a time.
//! - `tree`: `QueryTree`, the whole tree, with the children of each vertex and the edges that it leaves out.
#![tactic(auto)]

mod growth;
pub mod numbers;
mod tree;

pub use flux_model::TreeLink;
pub use tree::QueryTree;
