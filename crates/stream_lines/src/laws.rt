//! A law over the definitions, as the contract of a function that does nothing.
ghost use Rattle.stream_lines.specs.Cuts.{AnyCut};

/// In whatever pieces a stream comes and whenever lines are taken, the lines taken, those that wait and the rest are the lines of
/// the whole stream.
pub fn any_cut()
    ensures { AnyCut }
{}
