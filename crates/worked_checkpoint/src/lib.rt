//! Worked checkpoints. The texts that they must write are worked out by hand from the definitions.
#![tactic(auto)]

#[cfg(test)]
mod checkpoints;
