//! Rows of counters, as joints come and go one by one.
use dcg_store::Dcg;
use flux_model::{State, Steps, Tally};
use std::alloc::{AllocError, Global};
use std::test::Fail;

/// Whether a root with two leaves is explicit while both of its counters are.
fn root_with_two_leaves(alloc: Global) -> Result<bool, AllocError> {
    let steps = &mut Steps::new(Tally::new());
    let mut dcg = Dcg::new(alloc, &[2, 0, 0])?;
    dcg.raise_in(0, 5, steps)?;
    let root = (dcg.pair_state(0, 5, steps), dcg.stored()) == (State::Implicit, 1);
    dcg.raise_in(1, 6, steps)?;
    let leaf = (dcg.pair_state(1, 6, steps), dcg.stored()) == (State::Explicit, 2);
    dcg.raise_out(0, 5, 0, steps);
    dcg.raise_out(0, 5, 1, steps);
    let full = (dcg.pair_state(0, 5, steps), dcg.live_count(0)) == (State::Explicit, 1);
    dcg.lower_out(0, 5, 1, steps);
    let less = (dcg.pair_state(0, 5, steps), dcg.live_count(0)) == (State::Implicit, 0);
    dcg.lower_in(0, 5, steps);
    let gone = (dcg.pair_state(0, 5, steps), dcg.stored()) == (State::Null, 1);
    Ok(root && leaf && full && less && gone && steps.ledger().read() == 11)
}

/// Whether an edge has a state by both of its ends.
fn edge_by_both_ends(alloc: Global) -> Result<bool, AllocError> {
    let steps = &mut Steps::new(Tally::new());
    let mut dcg = Dcg::new(alloc, &[1, 0])?;
    dcg.raise_in(0, 5, steps)?;
    dcg.raise_in(1, 6, steps)?;
    let both = dcg.edge_state(0, 1, 5, 6, steps) == State::Explicit;
    let above = dcg.edge_state(0, 1, 5, 7, steps) == State::Null;
    let below = dcg.edge_state(0, 1, 4, 6, steps) == State::Null;
    Ok(both && above && below && steps.ledger().read() == 8)
}

/// Whether each of four children has a counter of its own.
fn four_children(alloc: Global) -> Result<bool, AllocError> {
    let steps = &mut Steps::new(Tally::new());
    let mut dcg = Dcg::new(alloc, &[4, 0, 0, 0, 0])?;
    dcg.raise_in(0, 1, steps)?;
    dcg.raise_out(0, 1, 3, steps);
    dcg.raise_out(0, 1, 0, steps);
    dcg.raise_out(0, 1, 1, steps);
    let three = dcg.pair_state(0, 1, steps) == State::Implicit;
    dcg.raise_out(0, 1, 2, steps);
    let four = dcg.pair_state(0, 1, steps) == State::Explicit;
    Ok(three && four && dcg.live_count(0) == 1)
}

/// Whether a row stays while a joint leads in.
fn two_joints_in(alloc: Global) -> Result<bool, AllocError> {
    let steps = &mut Steps::new(Tally::new());
    let mut dcg = Dcg::new(alloc, &[0])?;
    dcg.raise_in(0, 7, steps)?;
    dcg.raise_in(0, 7, steps)?;
    dcg.lower_in(0, 7, steps);
    let one = (dcg.pair_state(0, 7, steps), dcg.live_count(0)) == (State::Explicit, 1);
    dcg.lower_in(0, 7, steps);
    let none = (dcg.pair_state(0, 7, steps), dcg.live_count(0)) == (State::Null, 0);
    Ok(one && none)
}

/// Whether a store is whole until it is marked.
fn marked_broken(alloc: Global) -> Result<bool, AllocError> {
    let mut dcg = Dcg::new(alloc, &[1, 0])?;
    let whole = dcg.children_of(0) == 1 && !dcg.is_broken();
    dcg.mark_broken();
    Ok(whole && dcg.is_broken())
}

#[test]
fn counters_of_joints(rt: HostRuntime) -> Result<(), Fail> {
    let alloc = rt.alloc();
    assert!(rt; root_with_two_leaves(alloc)?);
    assert!(rt; edge_by_both_ends(alloc)?);
    assert!(rt; four_children(alloc)?);
    assert!(rt; two_joints_in(alloc)?);
    assert!(rt; marked_broken(alloc)?);
    Ok(())
}
