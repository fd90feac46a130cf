//! Laws of graph files.
ghost use Rattle.flux_laws.specs.FilesLaws.{GraphFileKeepsLimits, GraphFileMakesGraph};

/// The graph of an accepted graph file is a graph, whatever the bytes of the file.
pub fn graph_file_makes_graph()
    ensures { GraphFileMakesGraph }
{}

/// The graph of an accepted graph file is within the limits.
pub fn graph_file_keeps_limits()
    ensures { GraphFileKeepsLimits }
{}
