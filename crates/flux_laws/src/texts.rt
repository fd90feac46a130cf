//! Laws of the text of a graph.
ghost use Rattle.flux_laws.specs.TextsLaws.{GraphIsReadBack};

/// The text of a graph within the limits, read as a graph file, makes that graph.
pub fn graph_is_read_back()
    ensures { GraphIsReadBack }
{}
