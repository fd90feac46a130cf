//! Worked runs of the program's one call where the outside fails, or hands over what is broken. The texts that are due are worked out by
//! hand from the definitions.
//!
//! There are tests alone here, each a loop over a table:
//!
//! - `play`: a run, what lies outside, and what has to come of it.
//! - `faults`: each read that fails, and each room that an output may have. `hostile`: lines that are too long, or of any bytes.
//! - `long_blocks`: blocks that are put in several pieces.
#![tactic(auto)]

#[cfg(test)]
mod faults;
#[cfg(test)]
mod hostile;
#[cfg(test)]
mod long_blocks;
#[cfg(test)]
mod play;
