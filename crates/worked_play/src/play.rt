//! A run over files, updates and outputs in memory.
ghost use Rattle.std.specs.Prelude.{◌≡◌, Some, IfOk, codes};
ghost use Rattle.flux_model.specs.Limits.{IsFair};
ghost use Rattle.flux_outside.specs.MemShelf.{bytes_of};

use flux_model::{Limits, Silent, Steps};
use flux_outside::{MemShelf, MemSink, MemSource, Shelf, Sink, Source};
use std::alloc::{AllocError, Global};
use watch_cli::{Status, run};

/// The one limit that is below its standard.
#[derive(Clone, Copy)]
pub enum Lower {
    None,
    Edges(u64),
    Labels(u64),
    PatternVertices(u64),
    InputBytes(u64),
}

/// A run: its words, what lies outside, and how it has to end.
#[derive(Clone, Copy)]
pub struct Run {
    pub words: &'static [&'static str],
    pub lower: Lower,
    /// The seed of the shelf.
    pub seed: u64,
    /// The file `g`.
    pub graph: &'static str,
    /// The file `p`.
    pub patterns: &'static str,
    /// The numbers of the reads of a file that fail.
    pub failing_files: &'static [u64],
    pub updates: &'static str,
    /// The sizes of the pieces that the updates come in, and the numbers of their reads that fail.
    pub cuts: &'static [u64],
    pub failing: &'static [u64],
    /// How many bytes the two outputs take.
    pub room: usize,
    pub err_room: usize,
    pub status: Status,
    pub number: u8,
    pub out: &'static str,
    pub err: &'static str,
}

/// The two labelled vertices that many runs begin with.
pub const GRAPH: &str = "v 1 A\nv 2 B\n";

/// The edge between them that many runs watch.
pub const PATTERN: &str = "p ab hom\nv 0 A\nv 1 B\ne 0 1 r\n";

/// `watch g p`, to its end.
pub const WATCH: Run = Run {
    words: &["watch", "g", "p"],
    lower: Lower::None,
    seed: 0,
    graph: GRAPH,
    patterns: PATTERN,
    failing_files: &[],
    updates: "e 1 2 r\n",
    cuts: &[],
    failing: &[],
    room: 999,
    err_room: 99,
    status: Status::Done,
    number: 0,
    out: "",
    err: "",
};

/// `match g p`, to its end. Any read of the updates fails.
pub const MATCH: Run = Run {
    words: &["match", "g", "p"],
    failing: &[0],
    ..WATCH
};

/// `save g`, to its end. Any read of the updates fails.
pub const SAVE: Run = Run {
    words: &["save", "g"],
    failing: &[0],
    ..WATCH
};

/// Whether the run ends with these updates as its row says, and writes what it says.
pub fn is_right(alloc: Global, row: &Run, updates: &[u8]) -> Result<bool, AllocError> {
    let limits = limits_of(row.lower);
    if !limits.fair() {
        return Ok(false);
    }
    let words = words_of(alloc, row.words)?;
    let mut shelf = shelf_of(alloc, row)?;
    let mut updates = MemSource::new(alloc, updates, row.cuts, row.failing)?;
    let mut out = MemSink::new(alloc, row.room)?;
    let mut err = MemSink::new(alloc, row.err_room)?;
    let status = end_of(
        alloc,
        &words,
        &limits,
        &mut shelf,
        &mut updates,
        &mut out,
        &mut err,
    );
    Ok(
        status == row.status
            && status.number() == row.number
            && *out.bytes() == *row.out.as_bytes()
            && *err.bytes() == *row.err.as_bytes(),
    )
}

/// Runs, and says how that ended.
pub fn end_of<F: Shelf, S: Source, W: Sink>(
    alloc: Global,
    words: &[String],
    limits: &Limits,
    shelf: &mut F,
    updates: &mut S,
    out: &mut W,
    err: &mut MemSink,
) -> Status
    requires { IsFair limits.now }
{
    let mut steps = Steps::new(Silent);
    let ended = run(alloc, words, limits, shelf, updates, out, err, &mut steps);
    ended.status
}

/// How many rows, from the first on, end and write as they should.
pub fn count_right(alloc: Global, rows: &[Run]) -> Result<usize, AllocError> {
    for i in 0..rows.len() {
        if !is_right(alloc, &rows[i], rows[i].updates.as_bytes())? {
            return Ok(i);
        }
    }
    Ok(rows.len())
}

/// The standard limits with one below.
pub fn limits_of(lower: Lower) -> Limits {
    let standard = Limits::standard();
    match lower {
        Lower::None => standard,
        Lower::Edges(edges) => Limits { edges, ..standard },
        Lower::Labels(labels) => Limits { labels, ..standard },
        Lower::PatternVertices(pattern_vertices) => Limits {
            pattern_vertices,
            ..standard
        },
        Lower::InputBytes(input_bytes) => Limits {
            input_bytes,
            ..standard
        },
    }
}

/// The words as a command line has them.
pub fn words_of(alloc: Global, words: &[&str]) -> Result<Vec<String>, AllocError> {
    let mut all = Vec::new(alloc);
    for word in words {
        all.push(String::from_str(alloc, word)?)?;
    }
    Ok(all)
}

/// A shelf with the two files of a run, of which the reads of these numbers fail.
pub fn shelf_of(alloc: Global, row: &Run) -> Result<MemShelf, AllocError> {
    let mut shelf = files_of(alloc, row)?;
    for call in row.failing_files {
        shelf.fail_at(*call)?;
    }
    Ok(shelf)
}

/// A shelf with the two files of a run.
pub fn files_of(alloc: Global, row: &Run) -> Result<MemShelf, AllocError>
    ensures graph { IfOk result (λ shelf. bytes_of shelf.entries (codes "g") ≡ Some row.now.graph.now) }
    ensures patterns { IfOk result (λ shelf. bytes_of shelf.entries (codes "p") ≡ Some row.now.patterns.now) }
{
    let mut shelf = MemShelf::with_seed(alloc, row.seed);
    shelf.add("g", row.graph.as_bytes())?;
    shelf.add("p", row.patterns.as_bytes())?;
    Ok(shelf)
}
