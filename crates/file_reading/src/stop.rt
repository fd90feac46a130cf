//! What the reading of a file answers where it does not come to the end.
use flux_model::Bad;

/// Why the reading of a file stops before its end.
///
/// It does not say which file it was. Whoever reads it for a run knows, and ends the run with a status: a `Bad` line of the graph
/// file as `BadGraph`, one of the pattern file as `BadPatterns`, `Read` as `ReadFault`, and the others under their own names.
#[derive(Clone, Copy, Debug, PartialEq, Eq)]
pub enum Stop {
    /// Memory was refused.
    Memory,
    /// A read failed.
    Read,
    /// The file is not there.
    NoFile,
    /// The input has more bytes than the limit.
    TooMuch,
    /// The file is refused first so.
    Bad(Bad),
}
