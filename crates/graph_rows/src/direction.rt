//! `Direction`: which row of a graph vertex has the triples of a pattern edge.
ghost use Rattle.std.specs.Prelude.{◌≡◌};
ghost use Rattle.graph_rows.specs.Directions.{direction_to};

use flux_model::PatternEdge;

/// A direction in which a pattern edge is walked from an id of one of its ends.
#[derive(Clone, Copy, Debug, PartialEq, Eq)]
pub enum Direction {
    /// From the tail to the head, over the triples that begin at the id.
    Out,
    /// From the head to the tail, over the triples that end at the id.
    In,
}

impl Direction {
    /// The direction in which the edge leads to its end `u`.
    pub fn to(edge: &PatternEdge, u: usize) -> Direction
        ensures { result ≡ direction_to edge.now u }
    {
        if edge.head == u {
            Direction::Out
        } else {
            Direction::In
        }
    }
}
