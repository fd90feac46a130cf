//! Worked rows: how the states of pairs move with a graph, line by line.
//!
//! There are tests alone here.
//!
//! - `changes`: a change of a graph, and of its states with it.
//! - `move_rows`: states worked out by hand from their definition, before and after each line.
//! - `drawn_rows`: many changes that are drawn, and states that are built anew after each.
#![tactic(auto)]

#[cfg(test)]
mod changes;
#[cfg(test)]
mod drawn_rows;
#[cfg(test)]
mod move_rows;
