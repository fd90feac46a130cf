//! Drawn runs of `watch`: what the program writes of some thousand drawn lines is what the slow way writes of them.
//!
//! There are tests alone here:
//!
//! - `draws`: lines of updates, drawn by a number. `slow_way`: their report by trying every list of ids.
//! - `runs`: both reports of each draw. `generated_runs`: both reports of the files that the generator makes of a number.
#![tactic(auto)]

#[cfg(test)]
mod draws;
#[cfg(test)]
mod generated_runs;
#[cfg(test)]
mod runs;
#[cfg(test)]
mod slow_way;
