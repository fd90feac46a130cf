//! Both reports of the files that the generator makes of a number, at a small size.
use crate::runs::{Inputs, writes};
use crate::slow_way::SlowWatch;
use flux_gen::{Made, Sizes, make};
use std::alloc::Global;
use std::str;
use std::test::Fail;
use worked_parts::{Unmade, patterns_of};

/// Six vertices, twelve edges and thirty updates.
const SMALL: Sizes = Sizes {
    vertices: 6,
    edges: 12,
    updates: 30,
};

/// The report of the slow way.
fn slow_report(alloc: Global, files: &Made) -> Result<Vec<u8>, Unmade> {
    let Ok(patterns) = str::from_utf8(files.patterns()) else {
        return Err(Unmade::NoPattern);
    };
    let mut slow = SlowWatch::new(alloc, patterns_of(alloc, patterns)?)?;
    for line in files.graph().split(|byte| *byte == b'\n') {
        slow.graph_line(line)?;
    }
    slow.begin()?;
    slow_lines(alloc, &mut slow, files.updates())
}

/// What the slow way writes of the lines of the updates, each of which has an end.
fn slow_lines(alloc: Global, slow: &mut SlowWatch, updates: &[u8]) -> Result<Vec<u8>, Unmade> {
    let mut report = Vec::new(alloc);
    let Some((_, lines)) = updates.split_last() else {
        return Err(Unmade::Silent);
    };
    for line in lines.split(|byte| *byte == b'\n') {
        slow.line(line, &mut report)?;
    }
    slow.end(&mut report)?;
    Ok(report)
}

/// Whether `watch` and the slow way write the same of the files of this number, and how many lines of gained matches that has.
fn gained_lines(alloc: Global, number: u64) -> Result<Option<usize>, Unmade> {
    let files = make(alloc, number, &SMALL)?;
    let report = slow_report(alloc, &files)?;
    let inputs = Inputs {
        graph: files.graph(),
        patterns: files.patterns(),
        updates: files.updates(),
    };
    if !writes(alloc, &inputs, &report)? {
        return Ok(None);
    }
    let gained = report
        .split(|byte| *byte == b'\n')
        .filter(|line| line.first() == Some(&b'+'))
        .count();
    Ok(Some(gained))
}

#[test]
fn the_files_of_seven(rt: HostRuntime) -> Result<(), Fail> {
    assert_eq!(rt; gained_lines(rt.alloc(), 7)?, Some(4));
    Ok(())
}
