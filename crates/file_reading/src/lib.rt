//! Files are read from a shelf, piece by piece and line by line: a graph file into a store, a pattern file into patterns.
//!
//! - `inputs`: the readers of a graph file and of a pattern file; `stop`: why the reading of a file stops before its end.
//! - `files`: the one loop that reads a file; `piece`: the buffer of a piece, and how many bytes a read may give.
//! - `take`: what the lines of a file go into; `store_file` and `pattern_file`: a store, and a reader of patterns.
#![tactic(auto)]

mod files;
mod inputs;
mod pattern_file;
mod piece;
mod stop;
mod store_file;
mod take;

pub use files::read_file;
pub use inputs::{read_patterns, read_store};
pub use piece::{PIECE, ask_for, make_buffer};
pub use stop::Stop;
pub use take::TakeLine;
