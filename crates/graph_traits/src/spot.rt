//! `Spot`: a place in a row.

/// A place in a row of a graph, or the row's end. It is of use to the store that gave it, as long as that is unchanged.
///
/// What the two numbers mean is the store's own. `node` says where it has the vertex, or the part of the row, so that a turn of
/// the row costs no look-up of the vertex.
#[derive(Clone, Copy, Debug, PartialEq, Eq)]
pub struct Spot {
    pub node: usize,
    pub place: usize,
}
