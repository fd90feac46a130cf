//! The readers of lines: what a line of a graph file, of the updates or of a pattern file says, or why it is refused.
#![tactic(auto)]

mod forms;
mod labels;
mod lines;
mod number;
mod parts;
mod words;

pub use lines::{read_graph_line, read_pattern_line, read_update_line};
