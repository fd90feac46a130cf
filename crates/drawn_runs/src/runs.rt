//! Both reports of drawn lines.
use crate::draws::Draw;
use crate::slow_way::SlowWatch;
use flux_model::{Limits, Silent, Steps};
use flux_outside::{MemShelf, MemSink, MemSource};
use std::alloc::{AllocError, Global};
use std::test::Fail;
use watch_cli::{Status, run};
use worked_parts::{Unmade, patterns_of};

/// Eight patterns of one to four vertices in both modes; most have two edges of one label.
const PATTERNS: &str = "p one hom\nv 0 A\n\
p loop hom\nv 0\ne 0 0 r\n\
p two iso\nv 0 A\nv 1\ne 0 1 r\n\
p back hom\nv 0\nv 1 B\ne 0 1 r\ne 1 0 r\n\
p path hom\nv 0\nv 1\nv 2\ne 0 1 r\ne 1 2 r\n\
p tri iso\nv 0\nv 1\nv 2\ne 0 1 r\ne 1 2 r\ne 2 0 s\n\
p star iso\nv 0\nv 1 A\nv 2\nv 3\ne 0 1 r\ne 0 2 r\ne 3 0 s\n\
p square hom\nv 0 B\nv 1\nv 2\nv 3\ne 0 1 r\ne 1 2 s\ne 2 3 r\ne 3 0 r\n";

/// The sizes of the pieces that the updates come in.
const CUTS: [u64; 5] = [1, 7, 64, 3, 500];

/// How many bytes each output takes.
const ROOM: usize = 1 << 20;

/// How many lines one draw has behind its first.
const LINES: usize = 60;

/// How many draws one test compares.
const DRAWS: u64 = 8;

/// The lines that each draw begins with.
const FIRST_LINES: [&str; 5] = ["v 0 A", "v 1 B", "v 2 A B", "v 3", "v 4 A"];

/// Lines of a draw.
fn lines_of(alloc: Global, number: u64) -> Result<Vec<Vec<u8>>, AllocError> {
    let mut draw = Draw::new(number);
    let mut lines = Vec::new(alloc);
    for line in FIRST_LINES {
        lines.push(line.as_bytes().to_vec(alloc)?)?;
    }
    for _ in 0..LINES {
        lines.push(draw.line(alloc)?)?;
    }
    Ok(lines)
}

/// The lines as one text.
fn text_of(alloc: Global, lines: &[Vec<u8>]) -> Result<Vec<u8>, AllocError> {
    let mut text = Vec::new(alloc);
    for line in lines {
        text.extend_from_slice(line.as_slice())?;
        text.push(b'\n')?;
    }
    Ok(text)
}

/// The report of the slow way.
fn slow_report(alloc: Global, lines: &[Vec<u8>]) -> Result<Vec<u8>, Unmade> {
    let mut slow = SlowWatch::new(alloc, patterns_of(alloc, PATTERNS)?)?;
    let mut report = Vec::new(alloc);
    for line in lines {
        slow.line(line.as_slice(), &mut report)?;
    }
    slow.end(&mut report)?;
    Ok(report)
}

/// What a `watch` reads.
#[derive(Clone, Copy)]
pub(crate) struct Inputs<'a> {
    pub(crate) graph: &'a [u8],
    pub(crate) patterns: &'a [u8],
    pub(crate) updates: &'a [u8],
}

/// Whether `watch` writes this report of its inputs.
pub(crate) fn writes(
    alloc: Global,
    inputs: &Inputs<'_>,
    report: &[u8],
) -> Result<bool, AllocError> {
    let limits = Limits::standard();
    if !limits.fair() {
        return Ok(false);
    }
    let words = words_of(alloc)?;
    let mut shelf = MemShelf::new(alloc);
    shelf.add("g", inputs.graph)?;
    shelf.add("p", inputs.patterns)?;
    let mut updates = MemSource::new(alloc, inputs.updates, &CUTS, &[])?;
    let mut out = MemSink::new(alloc, ROOM)?;
    let mut err = MemSink::new(alloc, ROOM)?;
    let ended = run(
        alloc,
        &words,
        &limits,
        &mut shelf,
        &mut updates,
        &mut out,
        &mut err,
        &mut Steps::new(Silent),
    );
    Ok(ended.status == Status::Done && out.bytes() == report)
}

/// `watch g p`.
fn words_of(alloc: Global) -> Result<Vec<String>, AllocError> {
    let mut words = Vec::new(alloc);
    for word in ["watch", "g", "p"] {
        words.push(String::from_str(alloc, word)?)?;
    }
    Ok(words)
}

/// Whether `watch` and the slow way write the same of this draw.
fn is_right(alloc: Global, number: u64) -> Result<bool, Unmade> {
    let lines = lines_of(alloc, number)?;
    let report = slow_report(alloc, &lines)?;
    let text = text_of(alloc, &lines)?;
    let inputs = Inputs {
        graph: b"",
        patterns: PATTERNS.as_bytes(),
        updates: &text,
    };
    Ok(writes(alloc, &inputs, &report)?)
}

/// How many draws are right from this number on, of as many as one test compares.
fn count_right(alloc: Global, first: u64) -> Result<u64, Unmade> {
    for i in 0..DRAWS {
        if !is_right(alloc, first.saturating_add(i))? {
            return Ok(i);
        }
    }
    Ok(DRAWS)
}

#[test]
fn draws_1_to_8(rt: HostRuntime) -> Result<(), Fail> {
    assert_eq!(rt; count_right(rt.alloc(), 1)?, DRAWS);
    Ok(())
}

#[test]
fn draws_9_to_16(rt: HostRuntime) -> Result<(), Fail> {
    assert_eq!(rt; count_right(rt.alloc(), 9)?, DRAWS);
    Ok(())
}

#[test]
fn draws_17_to_24(rt: HostRuntime) -> Result<(), Fail> {
    assert_eq!(rt; count_right(rt.alloc(), 17)?, DRAWS);
    Ok(())
}

#[test]
fn draws_25_to_32(rt: HostRuntime) -> Result<(), Fail> {
    assert_eq!(rt; count_right(rt.alloc(), 25)?, DRAWS);
    Ok(())
}

#[test]
fn draws_33_to_40(rt: HostRuntime) -> Result<(), Fail> {
    assert_eq!(rt; count_right(rt.alloc(), 33)?, DRAWS);
    Ok(())
}
