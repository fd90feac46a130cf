//! Steps, and what their ledgers are told.
use flux_model::{Silent, Steps, Tally};

// No clause says what a step tells the ledger.
#[test]
fn each_tick_marks_once(rt: HostRuntime) {
    let mut steps = Steps::new(Tally::new());
    for _ in 0..3 {
        steps.tick();
    }
    assert_eq!(rt; steps.ledger().read(), 3);
}

#[test]
fn the_number_takes_no_bytes(rt: HostRuntime) {
    let mut steps = Steps::new(Silent);
    steps.tick();
    assert_eq!(rt; size_of_val(&steps), 0);
}
