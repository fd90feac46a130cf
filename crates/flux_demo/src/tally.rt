//! `Tally`: what the lines of the updates came to, counted.
ghost use Rattle.std.specs.Prelude.{◌≡◌, ◌<◌, ◌≤◌, ◌+◌, ◌^◌, ℕ, length, slice_index, IfOk};
ghost use Rattle.flux_demo.specs.Tally.{gained_at, lost_at, no_tally, IsNext, GrownBy};

use flux_model::Deltas;
use std::alloc::{AllocError, Global};
use std::marker::Model;
use watch_core::Taken;

/// How many lines there were, how many of them changed the graph and how many were refused, and how many maps each pattern
/// gained and lost by them.
#[derive(Drop)]
pub struct Tally {
    lines: u64,
    accepted: u64,
    refused: u64,
    /// For each pattern, in file order.
    gained: Vec<u128>,
    lost: Vec<u128>,
}

impl Model for Tally {
    ghost use Rattle.flux_demo.specs.Tally.{TallyState, IsTally, tally_state};

    ghost Value = { TallyState };

    ghost view = { λ t. tally_state t.lines t.accepted t.refused t.gained.items t.lost.items };

    ghost invariant = { λ t. IsTally (tally_state t.lines t.accepted t.refused t.gained.items t.lost.items) };
}

impl Tally {
    /// Nothing counted yet, for so many patterns.
    pub fn new(alloc: Global, patterns: usize) -> Result<Tally, AllocError>
        ensures { IfOk result (λ tally. tally ≡ no_tally patterns) }
    {
        Ok(Tally {
            lines: 0,
            accepted: 0,
            refused: 0,
            gained: vec![in alloc; 0u128; patterns]?,
            lost: vec![in alloc; 0u128; patterns]?,
        })
    }

    /// Counts one more line, which came to this.
    pub fn take(&mut self, taken: &Taken)
        requires { self.old.lines < 2 ^ 60 }
        ensures { IsNext taken.now self.old self.new }
    {
        self.lines += 1;
        match taken {
            Taken::Ignored => {}
            Taken::Refused(_) => self.refused += 1,
            Taken::Changed(deltas) => {
                self.accepted += 1;
                add_all(deltas, &mut self.gained, &mut self.lost);
            }
        }
    }

    /// How many lines there were.
    pub fn lines(&self) -> u64
        ensures { result ≡ self.now.lines }
    {
        self.lines
    }

    /// How many lines changed the graph.
    pub fn accepted(&self) -> u64
        ensures { result ≡ self.now.accepted }
    {
        self.accepted
    }

    /// How many lines were refused.
    pub fn refused(&self) -> u64
        ensures { result ≡ self.now.refused }
    {
        self.refused
    }

    /// How many maps the pattern at place `k`, which has to be below the number of patterns, gained.
    pub fn gained(&self, k: usize) -> u128
        requires { k < length self.now.gained }
        ensures { result ≡ slice_index self.now.gained k }
    {
        self.gained[k]
    }

    /// How many maps the pattern at place `k`, which has to be below the number of patterns, lost.
    pub fn lost(&self, k: usize) -> u128
        requires { k < length self.now.lost }
        ensures { result ≡ slice_index self.now.lost k }
    {
        self.lost[k]
    }
}

/// Adds to the counts of each pattern how many maps it gained and lost.
fn add_all(deltas: &Deltas, gained: &mut [u128], lost: &mut [u128])
    requires size { length gained.old ≡ length lost.old }
    requires gained_room { (k : ℕ) → k < length gained.old → slice_index gained.old k + 2 ^ 64 ≤ 2 ^ 128 }
    requires lost_room { (k : ℕ) → k < length lost.old → slice_index lost.old k + 2 ^ 64 ≤ 2 ^ 128 }
    ensures gained { GrownBy (λ k. gained_at k deltas.now) gained.old gained.new }
    ensures lost { GrownBy (λ k. lost_at k deltas.now) lost.old lost.new }
    ensures fits { (k : ℕ) → k < length gained.old → (gained_at k deltas.now < 2 ^ 64) × (lost_at k deltas.now < 2 ^ 64) }
{
    for k in 0..gained.len() {
        let (more, fewer) = counts_at(deltas, k);
        gained[k] += more as u128;
        lost[k] += fewer as u128;
    }
}

/// How many maps the pattern at place `k` gained, and how many it lost.
fn counts_at(deltas: &Deltas, k: usize) -> (usize, usize)
    ensures gained { result.0 ≡ gained_at k deltas.now }
    ensures lost { result.1 ≡ lost_at k deltas.now }
{
    for i in 0..deltas.len() {
        let delta = deltas.get(i);
        if delta.pattern == k {
            return (delta.gained.len(), delta.lost.len());
        }
    }
    (0, 0)
}
