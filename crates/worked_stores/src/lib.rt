//! Worked rows for stores of a graph: scripts of changes and reads, and what each call has to answer, worked out by hand.
//!
//! There are tests alone here. What plays a script is generic over the traits of a store:
//!
//! - `calls`: the calls of a store, each with its answer.
//! - `script`: the lines of a script, and what plays them. `star`: a vertex of many triples, made and taken down.
//! - `store_rows`: the tables.
#![tactic(auto)]

#[cfg(test)]
mod calls;
#[cfg(test)]
mod script;
#[cfg(test)]
mod star;
#[cfg(test)]
mod store_rows;
