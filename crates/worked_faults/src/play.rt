//! A run over files, updates and an output in memory, some calls of which fail.
use flux_model::{Limits, Silent, Steps};
use flux_outside::{MemShelf, MemSink, MemSource};
use std::alloc::{AllocError, Global};
use watch_cli::{Status, run};

/// The words of a run, and its files `g` and `p`.
#[derive(Clone, Copy)]
pub struct Run<'a> {
    pub words: &'a [&'a str],
    pub graph: &'a [u8],
    pub patterns: &'a [u8],
    pub updates: &'a [u8],
}

/// What fails outside: the numbers of the reads of files and of updates, each counted from 0. The updates come in pieces of these sizes.
#[derive(Clone, Copy)]
pub struct Outside<'a> {
    pub failing_files: &'a [u64],
    pub failing: &'a [u64],
    pub cuts: &'a [u64],
    /// How many bytes the output takes.
    pub room: usize,
}

/// How a run has to end, and what it has to have written.
#[derive(Clone, Copy)]
pub struct Due<'a> {
    pub status: Status,
    pub out: &'a [u8],
    pub err: &'a str,
}

/// Nothing fails.
pub const STEADY: Outside<'static> = Outside {
    failing_files: &[],
    failing: &[],
    cuts: &[],
    room: 9999,
};

/// The run ended well, and wrote this.
pub(crate) fn done(out: &[u8]) -> Due<'_> {
    Due {
        status: Status::Done,
        out,
        err: "",
    }
}

/// A read failed, when this was written.
pub(crate) fn read_fault(out: &[u8]) -> Due<'_> {
    Due {
        status: Status::ReadFault,
        out,
        err: "turboflux: read fault\n",
    }
}

/// A write failed, when this was written.
pub(crate) fn write_fault(out: &[u8]) -> Due<'_> {
    Due {
        status: Status::WriteFault,
        out,
        err: "turboflux: write fault\n",
    }
}

/// Whether the run ends and writes as it is due to.
pub(crate) fn is_right(
    alloc: Global,
    row: &Run<'_>,
    outside: &Outside<'_>,
    due: &Due<'_>,
) -> Result<bool, AllocError> {
    let limits = Limits::standard();
    if !limits.fair() {
        return Ok(false);
    }
    let words = words_of(alloc, row.words)?;
    let mut shelf = shelf_of(alloc, row, outside)?;
    let mut updates = MemSource::new(alloc, row.updates, outside.cuts, outside.failing)?;
    let mut out = MemSink::new(alloc, outside.room)?;
    let mut err = MemSink::new(alloc, 99)?;
    let mut steps = Steps::new(Silent);
    let ended = run(
        alloc,
        &words,
        &limits,
        &mut shelf,
        &mut updates,
        &mut out,
        &mut err,
        &mut steps,
    );
    Ok(
        ended.status == due.status
            && *out.bytes() == *due.out
            && *err.bytes() == *due.err.as_bytes(),
    )
}

/// The words as a command line has them.
fn words_of(alloc: Global, words: &[&str]) -> Result<Vec<String>, AllocError> {
    let mut all = Vec::new(alloc);
    for word in words {
        all.push(String::from_str(alloc, word)?)?;
    }
    Ok(all)
}

/// A shelf with the two files of a run.
fn shelf_of(alloc: Global, row: &Run<'_>, outside: &Outside<'_>) -> Result<MemShelf, AllocError> {
    let mut shelf = MemShelf::new(alloc);
    shelf.add("g", row.graph)?;
    shelf.add("p", row.patterns)?;
    for call in outside.failing_files {
        shelf.fail_at(*call)?;
    }
    Ok(shelf)
}
