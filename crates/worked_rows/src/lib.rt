//! Worked rows: what the crates of the index answer over small graphs, worked out by hand from the definitions.
//!
//! There are tests alone here. Each goes over a table, and each public call of those crates is met once. What searches has its rows
//! in `worked_searches`, a registry of many patterns in `worked_registry`, and what moves the states with the graph in
//! `worked_updates`.
//!
//! - `card_rows`: how often the edges and vertices of a pattern fit. `all_card_rows`: those of many patterns at once.
//! - `tree_rows`: the tree that cards choose. `order_rows`: the order in which a search goes along it.
//! - `walk_rows`: the row of a vertex, as it is walked, and the branches of a tree.
//! - `state_rows`: the states of pairs over a graph. `counter_rows`: rows of counters, as joints come and go one by one.
#![tactic(auto)]

#[cfg(test)]
mod all_card_rows;
#[cfg(test)]
mod card_rows;
#[cfg(test)]
mod counter_rows;
#[cfg(test)]
mod order_rows;
#[cfg(test)]
mod state_rows;
#[cfg(test)]
mod tree_rows;
#[cfg(test)]
mod walk_rows;
