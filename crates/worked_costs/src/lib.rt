//! How many steps lines and runs take, beside what the definitions of their costs allow, worked out by hand.
//!
//! There are tests alone here:
//!
//! - `line_costs`: lines of a session, some of them at a vertex of a high degree.
//! - `run_costs`: a whole run.
//! - `ledgers`: what a ledger is told.
#![tactic(auto)]

#[cfg(test)]
mod ledgers;
#[cfg(test)]
mod line_costs;
#[cfg(test)]
mod run_costs;
