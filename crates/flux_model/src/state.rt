//! `State`: how far a graph vertex can stand for a pattern vertex.

/// What is known of a pair of a pattern vertex and a graph vertex, or of an edge between two such pairs.
///
/// The names are those of Kim, Seo, Han and others (SIGMOD 2018).
#[derive(Clone, Copy, Debug, PartialEq, Eq)]
pub enum State {
    /// The root does not reach it along the query tree.
    Null,
    /// The root reaches it.
    Implicit,
    /// The root reaches it, and from it the tree goes on to every leaf below.
    Explicit,
}
