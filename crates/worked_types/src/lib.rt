//! Worked rows for the types of the definitions, and for the plain way of matching, worked out by hand.
//!
//! There are tests alone here, most of them over a table:
//!
//! - `type_rows`: texts, labels, triples, partial maps, limits and codes. `map_rows`: maps and deltas. `step_rows`: steps and ledgers.
//! - `plain_rows`: the plain graph and the plain search.
#![tactic(auto)]

#[cfg(test)]
mod map_rows;
#[cfg(test)]
mod plain_rows;
#[cfg(test)]
mod step_rows;
#[cfg(test)]
mod type_rows;
