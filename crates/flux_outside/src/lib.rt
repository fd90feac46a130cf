//! The outside as the program sees it: sources and sinks of bytes, and shelves of files.
//!
//! A call on the outside may fail. Such a failure is a fault: the call answers `Failed`, and the
//! object's count of faults has risen or stands at its end, so an answer of a fault always has a
//! cause. A call that succeeds leaves the count as it was. Want of memory inside std is a fault too.
//!
//! An object tells its bytes where contracts know them: the bytes that a source has left, that a
//! sink took, that a shelf has under each name. What a call does to bytes is promised where they
//! are told. What was asked every object tells: the reads that were made, each with what came, and
//! the lengths of the pieces that were put. `Calls` keeps that, for these objects and for others.
//!
//! `MemSource`, `MemSink` and `MemShelf` live in memory and tell everything, and a call says by
//! contract when it fails. `StdinSource`, `StdoutSink` and `StderrSink` stand over a reader or a
//! writer of std and tell what that tells, which for the standard streams is nothing; `FileShelf`
//! stands over the files of a runtime and tells nothing. These four are the trusted edge: what a
//! stream or a file holds, and whether a name is really absent, no contract says.
#![tactic(auto)]

mod buffers;
mod calls;
mod counts;
mod file_shelf;
mod mem_shelf;
mod mem_sink;
mod mem_source;
mod read_outcome;
mod retry;
mod stderr_sink;
mod stdin_source;
mod stdout_sink;
mod traits;

pub use calls::Calls;
pub use file_shelf::FileShelf;
pub use mem_shelf::MemShelf;
pub use mem_sink::MemSink;
pub use mem_source::MemSource;
pub use read_outcome::ReadOutcome;
pub use stderr_sink::StderrSink;
pub use stdin_source::StdinSource;
pub use stdout_sink::StdoutSink;
pub use traits::{Failed, Shelf, Sink, Source};
