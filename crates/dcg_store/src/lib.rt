//! The rows of counters that an index keeps of the states of a pattern.
//!
//! A pair of a pattern vertex and a graph vertex that is not null has a row: how many joints lead into it from above, and for
//! each child of the pattern vertex how many lead on to explicit pairs. A contract sees a `Dcg` as the record of
//! `flux_model`'s definitions: whether it is broken, the numbers of children, and the rows by pairs. The rows move by one
//! counter at a time; which moves make them exact again after an update is for the crates above to say.
//!
//! - `dcg`: `Dcg`, all rows. A call that reads or moves a row counts one step.
//! - `layer`: the rows of one pattern vertex, found by hashing, their counters in one list.
#![tactic(auto)]

mod dcg;
mod layer;

pub use dcg::Dcg;
