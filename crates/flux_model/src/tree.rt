//! `TreeLink`: how a pattern vertex hangs in a query tree.

/// The parent of a pattern vertex in a query tree, and the number of the pattern edge between the two.
#[derive(Clone, Copy, Debug, PartialEq, Eq)]
pub struct TreeLink {
    pub parent: usize,
    pub edge: usize,
}
