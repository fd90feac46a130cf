//! Worked rows for texts: what lines and files say, and what is written, worked out by hand from the definitions.
//!
//! There are tests alone here, each over a table:
//!
//! - `line_rows`: what a line of each kind of file says.
//! - `pattern_rows`: pattern files, line by line.
//! - `report_rows`: the blocks and listings of a report. `snapshot_rows`: the one text of a graph.
#![tactic(auto)]

#[cfg(test)]
mod line_rows;
#[cfg(test)]
mod pattern_rows;
#[cfg(test)]
mod report_rows;
#[cfg(test)]
mod snapshot_rows;
