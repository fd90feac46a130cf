//! The program's one call: from the words of the command line to the exit status.
//!
//! - `top`: `run`, the one call; `words`: the shapes of the command line; `status`: how a run ends.
//! - `watch`: the shape `watch GRAPH PATTERNS`; `updates`: its updates, read piece by piece; `report`: the blocks that are
//!   gathered and put.
//! - `answers`: the shape `match GRAPH PATTERNS`; `save`: the shape `save GRAPH`; `demo`: the shape `demo NUMBER`.
#![tactic(auto)]

mod answers;
mod demo;
mod report;
mod save;
mod status;
mod top;
mod updates;
mod watch;
mod words;

pub use status::Status;
pub use top::{Ended, Kept, run, tell};
