//! Cuts a stream of bytes into its lines. The stream comes in pieces, and the lines do not depend on where it is cut.
#![tactic(auto)]

mod cut;
mod laws;
mod lines;

pub use laws::any_cut;
pub use lines::Lines;
