//! Laws of patterns.
ghost use Rattle.flux_laws.specs.PatternsLaws.{ConnectedByChains, PatternFileKeepsLimits, PatternFileMakesPatterns, PatternFileNamesDiffer};

/// Under fair limits, what an accepted pattern file makes are patterns, whatever the bytes of the file.
pub fn pattern_file_makes_patterns()
    ensures { PatternFileMakesPatterns }
{}

/// No two patterns of an accepted pattern file have the same name.
pub fn pattern_file_names_differ()
    ensures { PatternFileNamesDiffer }
{}

/// An accepted pattern file has no more patterns than the limits say, and none of them is larger.
pub fn pattern_file_keeps_limits()
    ensures { PatternFileKeepsLimits }
{}

/// A pattern is connected exactly where a chain of edges, taken in either direction, leads from its vertex 0 to each of its vertices.
pub fn connected_by_chains()
    ensures { ConnectedByChains }
{}
