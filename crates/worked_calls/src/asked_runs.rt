//! What runs ask of their inputs and what they put, noted call by call.
use flux_model::Code;
use flux_outside::{Failed, MemShelf, MemSink, MemSource, Shelf, Sink, Source};
use std::alloc::{AllocError, Global};
use std::test::Fail;
use watch_cli::Status;
use worked_play::{GRAPH, Lower, MATCH, Run, SAVE, WATCH, end_of, limits_of, shelf_of, words_of};

/// A shelf that notes of each read the name, the place and how many bytes it asks for.
#[derive(Drop)]
struct NotingShelf {
    shelf: MemShelf,
    names: Vec<u8>,
    places: Vec<u64>,
    asked: Vec<usize>,
}

impl Shelf for NotingShelf {
    ghost use Rattle.std.specs.Prelude.{None};

    ghost files = { λ _. None };

    ghost reads = { λ s. s.shelf.reads };

    ghost faults = { λ s. s.shelf.faults };

    fn seed(&self) -> u64 {
        self.shelf.seed()
    }

    fn read(&mut self, name: &str, from: u64, buf: &mut [u8]) -> Result<Option<usize>, Failed> {
        let _ = self.names.extend_from_slice(name.as_bytes());
        let _ = self.places.push(from);
        let _ = self.asked.push(buf.len());
        self.shelf.read(name, from, buf)
    }
}

/// A source that notes for how many bytes each read asks.
#[derive(Drop)]
struct NotingSource {
    source: MemSource,
    asked: Vec<usize>,
}

impl Source for NotingSource {
    ghost use Rattle.std.specs.Prelude.{None};

    ghost left = { λ _. None };

    ghost reads = { λ s. s.source.reads };

    ghost faults = { λ s. s.source.faults };

    fn read(&mut self, buf: &mut [u8]) -> Result<usize, Failed> {
        let _ = self.asked.push(buf.len());
        self.source.read(buf)
    }
}

/// A sink that notes the length of each piece.
#[derive(Drop)]
struct NotingSink {
    sink: MemSink,
    puts: Vec<usize>,
}

impl Sink for NotingSink {
    ghost use Rattle.std.specs.Prelude.{None};

    ghost taken = { λ _. None };

    ghost puts = { λ s. s.sink.puts };

    ghost faults = { λ s. s.sink.faults };

    fn put(&mut self, piece: &[u8]) -> Result<(), Failed> {
        let _ = self.puts.push(piece.len());
        self.sink.put(piece)
    }
}

/// A run, of which the status is compared, and its calls in order.
#[derive(Clone, Copy)]
struct Row {
    run: Run,
    /// The names of the files that were read, behind one another, with the places and for how many bytes.
    names: &'static str,
    places: &'static [u64],
    of_files: &'static [usize],
    /// For how many bytes the updates were asked.
    of_updates: &'static [usize],
    /// The lengths of the pieces that the output got.
    puts: &'static [usize],
}

/// The most bytes of a piece.
const PIECE: usize = 65536;

/// `watch g p` with any read of the updates failing, of which none is made.
const UNASKED: Run = Run {
    failing: &[0],
    ..WATCH
};

const ROWS: [Row; 10] = [
    // The line is refused by what the first read gave, and the second, which would fail, is not made.
    Row {
        run: Run {
            graph: "x\n",
            failing_files: &[1],
            status: Status::BadGraph {
                line: 1,
                code: Code::Word,
            },
            ..UNASKED
        },
        names: "g",
        places: &[0],
        of_files: &[PIECE],
        of_updates: &[],
        puts: &[],
    },
    // The updates have one byte more than the limit: the read that gives it asks for one byte, and the next, which would fail, is
    // not made.
    Row {
        run: Run {
            lower: Lower::InputBytes(30),
            updates: "# 2345678901234567890123456789\n",
            failing: &[2],
            status: Status::TooMuch,
            ..WATCH
        },
        names: "ggpp",
        places: &[0, 12, 0, 29],
        of_files: &[30, 18, 30, 1],
        of_updates: &[30, 1],
        puts: &[],
    },
    // There is no graph file.
    Row {
        run: Run {
            words: &["watch", "h", "p"],
            status: Status::NoFile,
            ..UNASKED
        },
        names: "h",
        places: &[0],
        of_files: &[PIECE],
        of_updates: &[],
        puts: &[],
    },
    // The pattern file is refused.
    Row {
        run: Run {
            patterns: "v 0\n",
            status: Status::BadPatterns {
                line: 1,
                code: Code::NoName,
            },
            ..UNASKED
        },
        names: "ggp",
        places: &[0, 12, 0],
        of_files: &[PIECE, PIECE, PIECE],
        of_updates: &[],
        puts: &[],
    },
    // The second read of the graph file fails.
    Row {
        run: Run {
            failing_files: &[1],
            status: Status::ReadFault,
            ..UNASKED
        },
        names: "gg",
        places: &[0, 12],
        of_files: &[PIECE, PIECE],
        of_updates: &[],
        puts: &[],
    },
    // The second read of the updates fails.
    Row {
        run: Run {
            failing: &[1],
            status: Status::ReadFault,
            ..WATCH
        },
        names: "ggpp",
        places: &[0, 12, 0, 29],
        of_files: &[PIECE, PIECE, PIECE, PIECE],
        of_updates: &[PIECE, PIECE],
        puts: &[11],
    },
    // The third piece ends no line, and nothing is put of it.
    Row {
        run: Run {
            updates: "e 1 2 r\n-e 1 2 r\ne 1 2 r",
            cuts: &[8, 9, 4, 3],
            ..WATCH
        },
        names: "ggpp",
        places: &[0, 12, 0, 29],
        of_files: &[PIECE, PIECE, PIECE, PIECE],
        of_updates: &[PIECE, PIECE, PIECE, PIECE, PIECE],
        puts: &[11, 11, 19],
    },
    // There is no embedding, and the total alone is put.
    Row {
        run: MATCH,
        names: "ggpp",
        places: &[0, 12, 0, 29],
        of_files: &[PIECE, PIECE, PIECE, PIECE],
        of_updates: &[],
        puts: &[4],
    },
    Row {
        run: SAVE,
        names: "gg",
        places: &[0, 12],
        of_files: &[PIECE, PIECE],
        of_updates: &[],
        puts: &[12],
    },
    // The empty graph has no text.
    Row {
        run: Run { graph: "", ..SAVE },
        names: "g",
        places: &[0],
        of_files: &[PIECE],
        of_updates: &[],
        puts: &[],
    },
];

/// Whether the run of a row ends and makes its calls as it should.
fn is_right(alloc: Global, row: &Row) -> Result<bool, AllocError> {
    let limits = limits_of(row.run.lower);
    if !limits.fair() {
        return Ok(false);
    }
    let words = words_of(alloc, row.run.words)?;
    let mut shelf = noting_shelf(alloc, &row.run)?;
    let mut updates = noting_source(alloc, &row.run)?;
    let mut out = NotingSink {
        sink: MemSink::new(alloc, row.run.room)?,
        puts: Vec::new(alloc),
    };
    let mut err = MemSink::new(alloc, row.run.err_room)?;
    let status = end_of(
        alloc,
        &words,
        &limits,
        &mut shelf,
        &mut updates,
        &mut out,
        &mut err,
    );
    Ok(
        status == row.run.status
            && asked_so(&shelf, row)
            && *updates.asked.as_slice() == *row.of_updates
            && *out.puts.as_slice() == *row.puts,
    )
}

/// Whether the files were asked as the row says.
fn asked_so(shelf: &NotingShelf, row: &Row) -> bool {
    *shelf.names.as_slice() == *row.names.as_bytes()
        && *shelf.places.as_slice() == *row.places
        && *shelf.asked.as_slice() == *row.of_files
}

/// A shelf with the two files of a run, and nothing noted yet.
fn noting_shelf(alloc: Global, run: &Run) -> Result<NotingShelf, AllocError> {
    Ok(NotingShelf {
        shelf: shelf_of(alloc, run)?,
        names: Vec::new(alloc),
        places: Vec::new(alloc),
        asked: Vec::new(alloc),
    })
}

/// The updates of a run, and nothing noted yet.
fn noting_source(alloc: Global, run: &Run) -> Result<NotingSource, AllocError> {
    let updates = run.updates.as_bytes();
    Ok(NotingSource {
        source: MemSource::new(alloc, updates, run.cuts, run.failing)?,
        asked: Vec::new(alloc),
    })
}

/// How many rows, from the first on, are as they should be.
fn count_right(alloc: Global, rows: &[Row]) -> Result<usize, AllocError> {
    for i in 0..rows.len() {
        if !is_right(alloc, &rows[i])? {
            return Ok(i);
        }
    }
    Ok(rows.len())
}

#[test]
fn what_runs_ask_and_put(rt: HostRuntime) -> Result<(), Fail> {
    assert_eq!(rt; count_right(rt.alloc(), &ROWS)?, ROWS.len());
    Ok(())
}
