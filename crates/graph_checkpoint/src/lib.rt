//! The graph of a run as it stands after the updates: a checkpoint, from which a later run goes on.
//!
//! - `top`: `checkpoint`, the one call.
//! - `session`: the session of a watch without patterns, after all lines of the updates.
//! - `one_file`: a shelf that has one more file, which is empty; `no_report`: a sink that drops what it takes.
#![tactic(auto)]

mod no_report;
mod one_file;
mod session;
mod top;

pub use top::{Ended, checkpoint};
