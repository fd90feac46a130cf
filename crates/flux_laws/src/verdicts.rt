//! Laws of how a run is due to end, and of what it is due to have written.
ghost use Rattle.flux_laws.specs.VerdictsLaws.{FrontRefusesGraphFile, FrontRefusesPatternFile, SavedGraphWritesTheSame, WrittenBeforeIsFront};

/// Where the text of an accepted graph stands in the place of the graph file, `watch`, `match` and `save` end as they did,
/// and write what they wrote. This needs that a line may have 1052 bytes, that the text is no longer than an input may be,
/// and that the pattern file is the same.
pub fn saved_graph_writes_the_same()
    ensures { SavedGraphWritesTheSame }
{}

/// A graph file that is refused in the whole lines of its first bytes is refused for that, with the same line and code,
/// whatever follows.
pub fn front_refuses_graph_file()
    ensures { FrontRefusesGraphFile }
{}

/// A pattern file that is refused in the whole lines of its first bytes is refused for that, with the same line and code,
/// whatever follows.
pub fn front_refuses_pattern_file()
    ensures { FrontRefusesPatternFile }
{}

/// What is written where a read fails is a front part of the text that is due had no read failed, as long as no more
/// bytes of the updates were read than an input may have.
pub fn written_before_is_front()
    ensures { WrittenBeforeIsFront }
{}
