//! Patterns from what the lines of a pattern file say.
#![tactic(auto)]

mod connected;
mod open;
mod reader;
mod refusal;

pub use reader::PatternReader;
