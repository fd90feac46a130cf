//! The tally, worked out by hand.
use crate::tally::Tally;
use flux_model::{Code, Delta, Deltas, Maps};
use std::alloc::{AllocError, Global};
use std::test::Fail;
use watch_core::Taken;

/// So many maps of one vertex.
fn maps(alloc: Global, count: u32) -> Result<Maps, AllocError> {
    let mut maps = Maps::new(alloc);
    for id in 0..count {
        maps.add_ids(&[id])?;
    }
    Ok(maps)
}

/// A line by which one pattern gained and lost so many maps.
fn change(alloc: Global, pattern: usize, gained: u32, lost: u32) -> Result<Taken, AllocError> {
    let mut deltas = Deltas::new(alloc);
    deltas.add_unless_empty(Delta {
        pattern,
        gained: maps(alloc, gained)?,
        lost: maps(alloc, lost)?,
    })?;
    Ok(Taken::Changed(deltas))
}

#[test]
fn lines_are_counted(rt: HostRuntime) -> Result<(), Fail> {
    let alloc = rt.alloc();
    let mut tally = Tally::new(alloc, 2)?;
    tally.take(&Taken::Ignored);
    tally.take(&change(alloc, 1, 2, 0)?);
    tally.take(&Taken::Refused(Code::Full));
    tally.take(&change(alloc, 0, 1, 3)?);
    tally.take(&change(alloc, 1, 1, 1)?);
    let lines = [tally.lines(), tally.accepted(), tally.refused()];
    assert!(rt; lines == [5, 3, 1]);
    let gained = [tally.gained(0), tally.gained(1)];
    assert!(rt; gained == [1, 3]);
    let lost = [tally.lost(0), tally.lost(1)];
    assert!(rt; lost == [3, 1]);
    Ok(())
}
