//! Laws of the texts that a run writes.
ghost use Rattle.flux_laws.specs.ReportsLaws.{BlocksInParts, EndLineCountsAnswers};

/// The blocks of updates that are cut after the end of a line are those of the first part, and then those of the second
/// part from the graph after the first, numbered on.
pub fn blocks_in_parts()
    ensures { BlocksInParts }
{}

/// What is written of the embeddings in a graph is a line for each, and a last one that names their number.
pub fn end_line_counts_answers()
    ensures { EndLineCountsAnswers }
{}
