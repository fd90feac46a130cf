//! How the rows of a pattern's states move when the graph does.
//!
//! The graph has changed by one triple, or by one vertex without triples, and the rows are exact over the graph as it was. Each
//! call makes them exact over the graph as it is, and reads no more than what moves.
//!
//! A triple comes to the rows tree edge by tree edge, and so it goes: some tree edges see the graph at hand, and the others the
//! graph as it was. Nothing is copied for that. A row that is read shows the triple to a tree edge, or hides it.
//!
//! - `triple`: `after_insert` and `after_delete`, where a triple came or went.
//! - `vertex`: `after_vertex`, where a vertex came or went.
//! - `view`: `JointView`, the joints of all tree edges in between.
//! - `joint`: the joint that the triple is of a tree edge.
//! - `walk`: a tree edge walked from an id of one of its ends.
//! - `sight`: what a tree edge sees beside the graph at hand.
#![tactic(auto)]

mod joint;
mod sight;
mod triple;
mod vertex;
mod view;
mod walk;

pub use triple::{after_delete, after_insert};
pub use vertex::after_vertex;
