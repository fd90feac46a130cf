//! Worked rows for what lies outside the program, and for the lines that its bytes are cut into.
//!
//! There are tests alone here. Each goes over a table:
//!
//! - `calls`: calls of sources, sinks and shelves, each with its answer, and what makes them.
//! - `fakes`: readers and writers that are interrupted, or take nothing.
//! - `memory_rows`: the objects in memory. `stream_rows`: those over a reader or a writer. `shelf_rows`: the one over real files.
//! - `cut_rows`: a stream of pieces, and its lines.
#![tactic(auto)]

#[cfg(test)]
mod calls;
#[cfg(test)]
mod cut_rows;
#[cfg(test)]
mod fakes;
#[cfg(test)]
mod memory_rows;
#[cfg(test)]
mod shelf_rows;
#[cfg(test)]
mod stream_rows;
