//! Runs whose source and sinks note when each read and each put is made. What is due is worked out by hand.
//!
//! There are tests alone here, in `order_runs`.
#![tactic(auto)]

#[cfg(test)]
mod order_runs;
