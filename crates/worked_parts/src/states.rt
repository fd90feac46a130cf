//! Whether the states of pairs are those of a table.
ghost use Rattle.std.specs.Prelude.{◌≡◌, length, false};

use dcg_store::Dcg;
use flux_model::{Silent, State, Steps};

/// Whether the pairs have these states.
pub fn has_states(dcg: &Dcg, count: usize, states: &[(usize, u32, State)]) -> bool
    requires whole { dcg.now.is_broken ≡ false }
    requires vertices { length dcg.now.children ≡ count }
{
    let mut steps = Steps::new(Silent);
    for i in 0..states.len() {
        let (u, v, state) = states[i];
        if u >= count || dcg.pair_state(u, v, &mut steps) != state {
            return false;
        }
    }
    true
}

/// Whether so many pairs of each pattern vertex are explicit.
pub fn has_live_counts(dcg: &Dcg, live: &[u64]) -> bool
    requires whole { dcg.now.is_broken ≡ false }
    requires vertices { length dcg.now.children ≡ length live.now }
{
    for u in 0..live.len() {
        if dcg.live_count(u) != live[u] {
            return false;
        }
    }
    true
}
