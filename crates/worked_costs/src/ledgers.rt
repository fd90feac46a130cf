//! What a ledger is told of steps.
use flux_model::{Steps, Tally};
use std::test::Fail;

#[test]
fn each_step_is_told_once(rt: HostRuntime) -> Result<(), Fail> {
    let mut steps = Steps::new(Tally::new());
    assert_eq!(rt; steps.ledger().read(), 0);
    steps.tick();
    assert_eq!(rt; steps.ledger().read(), 1);
    steps.tick();
    steps.tick();
    assert_eq!(rt; steps.ledger().read(), 3);
    Ok(())
}
