//! What a tree edge sees beside the graph at hand, of which a triple came or went.

/// What happened to the triple.
#[derive(Clone, Copy, Debug)]
pub(crate) enum Change {
    /// It came to the graph at hand.
    Added,
    /// It went from the graph at hand.
    Taken,
}

/// What a tree edge sees.
#[derive(Clone, Copy, Debug)]
pub(crate) enum Sight {
    /// The graph at hand.
    AtHand,
    /// The graph at hand without the triple.
    Without,
    /// The graph at hand with the triple.
    With,
}
