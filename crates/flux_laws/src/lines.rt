//! Laws of the lines of an input.
ghost use Rattle.flux_laws.specs.LinesLaws.{LinesGiveBack, NoLineHasAnEnd, CutIsUnique, LinesAreReadBack, ReturnsAreDropped};

/// The ended lines of an input, each with its byte 10, and what stands after the last byte 10 are the input.
pub fn lines_give_back()
    ensures { LinesGiveBack }
{}

/// No ended line has a byte 10, and neither has what stands after the last one.
pub fn no_line_has_an_end()
    ensures { NoLineHasAnEnd }
{}

/// An input can be cut in one way only: lines without a byte 10, each with one after it, and an end without one are found
/// as they were put together.
pub fn cut_is_unique()
    ensures { CutIsUnique }
{}

/// Lines that are no longer than the limit are read back from their bytes, where a byte 10 ends each.
pub fn lines_are_read_back()
    ensures { LinesAreReadBack }
{}

/// The same lines are read where a byte 13 stands before each byte 10.
pub fn returns_are_dropped()
    ensures { ReturnsAreDropped }
{}
