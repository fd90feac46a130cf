//! Every block is put before the next read: the source and the sink share a count of the bytes that were put. Answers are put in pieces.
ghost use Rattle.std.specs.Prelude.{◌≡◌};

use flux_model::{Limits, Silent, Steps};
use flux_outside::{Failed, MemShelf, MemSink, MemSource, Sink, Source};
use std::alloc::{AllocError, Global};
use std::cell::Cell;
use std::test::Fail;
use watch_cli::{Status, run};

/// A sink that counts the bytes that it took.
#[derive(Drop)]
struct CountingSink<'a> {
    sink: MemSink,
    put: &'a Cell<u64>,
}

impl Sink for CountingSink<'_> {
    ghost use Rattle.std.specs.Prelude.{None};

    ghost taken = { λ _. None };

    ghost puts = { λ s. s.sink.puts };

    ghost faults = { λ s. s.sink.faults };

    fn put(&mut self, piece: &[u8]) -> Result<(), Failed> {
        self.sink.put(piece)?;
        self.put
            .set(self.put.get().saturating_add(piece.len() as u64));
        Ok(())
    }
}

/// A source that notes, at each of its first reads, how many bytes had been put before.
#[derive(Drop)]
struct NotingSource<'a> {
    source: MemSource,
    put: &'a Cell<u64>,
    noted: [u64; 5],
    reads: usize,
}

impl Source for NotingSource<'_> {
    ghost use Rattle.std.specs.Prelude.{None};

    ghost left = { λ _. None };

    ghost reads = { λ s. s.source.reads };

    ghost faults = { λ s. s.source.faults };

    fn read(&mut self, buf: &mut [u8]) -> Result<usize, Failed> {
        if let Some(place) = self.noted.get_mut(self.reads) {
            *place = self.put.get();
            self.reads += 1;
        }
        self.source.read(buf)
    }
}

/// A sink that notes how long each of its first pieces is.
#[derive(Drop)]
struct NotingSink {
    sink: MemSink,
    noted: [usize; 4],
    pieces: usize,
}

impl Sink for NotingSink {
    ghost use Rattle.std.specs.Prelude.{None};

    ghost taken = { λ _. None };

    ghost puts = { λ s. s.sink.puts };

    ghost faults = { λ s. s.sink.faults };

    fn put(&mut self, piece: &[u8]) -> Result<(), Failed> {
        if let Some(place) = self.noted.get_mut(self.pieces) {
            *place = piece.len();
            self.pieces += 1;
        }
        self.sink.put(piece)
    }
}

/// The words of this shape, for the files `g` and `p`.
fn words_of(alloc: Global, shape: &str) -> Result<Vec<String>, AllocError> {
    let mut words = Vec::new(alloc);
    for word in [shape, "g", "p"] {
        words.push(String::from_str(alloc, word)?)?;
    }
    Ok(words)
}

/// A shelf with a graph file `g` of two vertices, and a pattern file `p` of one edge between them.
fn two_files(alloc: Global) -> Result<MemShelf, AllocError> {
    let mut shelf = MemShelf::new(alloc);
    shelf.add("g", b"v 1 A\nv 2 B\n")?;
    shelf.add("p", b"p ab hom\nv 0 A\nv 1 B\ne 0 1 r\n")?;
    Ok(shelf)
}

// Each piece but the third ends one line, the third none; the last read gives nothing.
#[test]
fn each_block_is_put_before_the_next_read(rt: HostRuntime) -> Result<(), Fail> {
    let alloc = rt.alloc();
    let words = words_of(alloc, "watch")?;
    let mut shelf = two_files(alloc)?;
    let put = Cell::new(0);
    let bytes = b"e 1 2 r\n-e 1 2 r\ne 1 2 r";
    let mut updates = NotingSource {
        source: MemSource::new(alloc, bytes, &[8, 9, 4, 3], &[])?,
        put: &put,
        noted: [99; 5],
        reads: 0,
    };
    let mut out = CountingSink {
        sink: MemSink::new(alloc, 99)?,
        put: &put,
    };
    let mut err = MemSink::new(alloc, 99)?;
    let mut steps = Steps::new(Silent);
    let ended = run(
        alloc,
        &words,
        &Limits::standard(),
        &mut shelf,
        &mut updates,
        &mut out,
        &mut err,
        &mut steps,
    );
    assert_eq!(rt; ended.status, Status::Done);
    assert_eq!(rt;
        out.sink.bytes(),
        b"+ 1 ab 1 2\n- 2 ab 1 2\n+ 3 ab 1 2\n= 3 3 0\n".as_slice()
    );
    assert_eq!(rt; updates.noted, [0, 11, 22, 22, 22]);
    Ok(())
}

/// A shelf with a graph file `g` of edges from vertex 100 to each of 101 to 200, and a pattern file `p` of two edges from one vertex.
fn fork_files(alloc: Global) -> Result<MemShelf, AllocError> {
    let mut graph = Vec::from_slice(alloc, b"v 100 A\n")?;
    for id in 101..201_u32 {
        let lines = format!(in alloc; "v {id} B\ne 100 {id} r\n")?;
        graph.extend_from_slice(lines.as_bytes())?;
    }
    let mut shelf = MemShelf::new(alloc);
    shelf.add("g", graph.as_slice())?;
    shelf.add("p", b"p fork hom\nv 0 A\nv 1 B\nv 2 B\ne 0 1 r\ne 0 2 r\n")?;
    Ok(shelf)
}

// 10,000 lines of 19 bytes: 3,450 of them are the first that come to 65,536 bytes, and 3,100 are left for the end line.
#[test]
fn answers_are_put_in_pieces(rt: HostRuntime) -> Result<(), Fail> {
    let alloc = rt.alloc();
    let words = words_of(alloc, "match")?;
    let mut shelf = fork_files(alloc)?;
    let mut updates = MemSource::new(alloc, b"", &[], &[])?;
    let mut out = NotingSink {
        sink: MemSink::new(alloc, 200_000)?,
        noted: [0; 4],
        pieces: 0,
    };
    let mut err = MemSink::new(alloc, 99)?;
    let mut steps = Steps::new(Silent);
    let ended = run(
        alloc,
        &words,
        &Limits::standard(),
        &mut shelf,
        &mut updates,
        &mut out,
        &mut err,
        &mut steps,
    );
    assert_eq!(rt; ended.status, Status::Done);
    assert_eq!(rt; out.noted, [65_550, 65_550, 58_908, 0]);
    Ok(())
}
