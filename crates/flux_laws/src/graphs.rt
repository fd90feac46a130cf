//! Laws of graphs and their changes.
ghost use Rattle.flux_laws.specs.GraphsLaws.{ChangeIsExact, ChangeKeepsGraph, ChangeKeepsLimits, RefusalRepeats, RemovalUndoesEdge, RemovalUndoesVertex, InsertionUndoesEdge, InsertionUndoesVertex};

/// An accepted change of a graph makes a graph, where a vertex that it adds has an id of 32 bits and a label set, and an
/// edge that it adds has a text for a label.
pub fn change_keeps_graph()
    ensures { ChangeKeepsGraph }
{}

/// An accepted change of a graph that is within the limits makes one that is within them.
pub fn change_keeps_limits()
    ensures { ChangeKeepsLimits }
{}

/// A refused update changes nothing, and is refused again with the same code.
pub fn refusal_repeats()
    ensures { RefusalRepeats }
{}

/// The removal of an edge that was added gives the graph that was there before.
pub fn removal_undoes_edge()
    ensures { RemovalUndoesEdge }
{}

/// The removal of a vertex that was added gives the graph that was there before.
pub fn removal_undoes_vertex()
    ensures { RemovalUndoesVertex }
{}

/// The insertion of an edge that was removed gives the graph that was there before.
pub fn insertion_undoes_edge()
    ensures { InsertionUndoesEdge }
{}

/// The insertion of a vertex that was removed, with its labels, gives the graph that was there before.
pub fn insertion_undoes_vertex()
    ensures { InsertionUndoesVertex }
{}

/// An accepted update adds or removes exactly the vertex or the edge that it names.
pub fn change_is_exact()
    ensures { ChangeIsExact }
{}
