//! Laws that the definitions keep, each proved as the contract of a function that does nothing.
//!
//! A reader who wants to know whether a definition means what its name says finds here what follows from it:
//!
//! - `lines` and `words`: how an input is cut, and read back.
//! - `sets`: ascending lists as sets.
//! - `graphs`: what a change keeps, and how one change undoes another.
//! - `files` and `patterns`: what an accepted file makes.
//! - `embeddings`: which lists of ids are embeddings of a pattern in a graph, and how they stand.
//! - `changes` and `vertices`: what an accepted update makes a pattern gain and lose.
//! - `classes`: how the embeddings that a triple brings fall apart by the first pattern edge that is sent to it.
//! - `joints`: changes of the graph that bring and take no joint of a pattern's tree.
//! - `texts`: the text of a graph makes the graph again.
//! - `reports`: how the report of updates that come in two parts is put together.
//! - `streams` and `divided`: the report of updates, or of patterns, in two parts, as one text.
//! - `verdicts`: a run over a graph that was saved, over a file that is refused in its front, and where a read fails.
#![tactic(auto)]

pub mod changes;
pub mod classes;
pub mod divided;
pub mod embeddings;
pub mod files;
pub mod graphs;
pub mod joints;
pub mod lines;
pub mod patterns;
pub mod reports;
pub mod sets;
pub mod streams;
pub mod texts;
pub mod verdicts;
pub mod vertices;
pub mod words;
