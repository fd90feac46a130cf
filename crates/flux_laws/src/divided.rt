//! Patterns that are divided in two.
ghost use Rattle.flux_laws.specs.DividedLaws.{PatternsInParts, PatternFileInParts};

/// The block of each line is that of the first patterns and then that of the others, where a refusal stands once. The end line is
/// the same for all.
pub fn patterns_in_parts()
    ensures { PatternsInParts }
{}

/// An accepted pattern file that is cut before a line which begins a pattern has the patterns of both parts, each of which is
/// accepted.
pub fn pattern_file_in_parts()
    ensures { PatternFileInParts }
{}
