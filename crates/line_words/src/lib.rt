//! The words of a text line: what a line begins with, a space and a word, a space and a number, and the end of the line.
//!
//! Each call appends to the text. At `AllocError` the text has grown by a front part of what was to be written.
//!
//! - `words`: the four calls.
#![tactic(auto)]

mod words;

pub use words::{end_line, start_line, write_number, write_word};
