//! Updates that come in two parts.
ghost use Rattle.flux_laws.specs.StreamsLaws.{StreamsInParts};

/// The report of updates that are cut after the end of a line has the lines of the first part's report, then those of the report of
/// the second part over the graph in between, their numbers moved on by the lines of the first part, and an end line of the sums.
///
/// It needs that the text of the graph in between may be a graph file: that a line may have 1052 bytes, and that the text is no
/// longer than an input may be.
pub fn streams_in_parts()
    ensures { StreamsInParts }
{}
