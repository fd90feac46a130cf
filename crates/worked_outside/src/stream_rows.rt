//! The source and the sinks over a reader or a writer: what is tried again, and what is a fault.
use crate::calls::{Put, Read, gives_each, takes_each};
use crate::fakes::{FlakyReader, FullWriter, SlowWriter};
use flux_outside::{Failed, StderrSink, StdinSource, StdoutSink};
use std::alloc::Global;

/// How often a read is interrupted, and the answer.
const READS: [(u32, Read); 3] = [
    (0, (Ok(1), b"\x07")),
    (16, (Ok(1), b"\x07")),
    (17, (Err(Failed), b"")),
];

/// How many rows of reads, from the first on, are as they should be.
fn count_read(rows: &[(u32, Read)]) -> usize {
    for i in 0..rows.len() {
        let (interrupts, read) = rows[i];
        let mut source = StdinSource::new(FlakyReader { interrupts });
        if !gives_each(&mut source, &mut [0; 4], &[read]) {
            return i;
        }
    }
    rows.len()
}

#[test]
fn sixteen_interruptions_are_borne(rt: HostRuntime) {
    assert_eq!(rt; count_read(&READS), READS.len());
}

/// Puts to a writer that takes one byte at a write, and what it has taken and flushed then.
#[derive(Clone, Copy)]
struct Row {
    /// How often each write is interrupted, and each flush.
    interrupts: (u32, u32),
    puts: &'static [Put],
    taken: &'static [u8],
    flushed: usize,
}

const WHOLE: &[Put] = &[(b"abc", Ok(()))];

const FAULT: &[Put] = &[(b"abc", Err(Failed))];

const IN_TURN: &[Put] = &[(b"abc", Ok(())), (b"de", Ok(()))];

const STDOUT: [Row; 5] = [
    Row {
        interrupts: (0, 0),
        puts: WHOLE,
        taken: b"abc",
        flushed: 3,
    },
    Row {
        interrupts: (16, 16),
        puts: WHOLE,
        taken: b"abc",
        flushed: 3,
    },
    Row {
        interrupts: (17, 0),
        puts: FAULT,
        taken: b"",
        flushed: 0,
    },
    Row {
        interrupts: (0, 17),
        puts: FAULT,
        taken: b"abc",
        flushed: 0,
    },
    Row {
        interrupts: (1, 0),
        puts: IN_TURN,
        taken: b"abcde",
        flushed: 5,
    },
];

const STDERR: [Row; 3] = [
    Row {
        interrupts: (0, 0),
        puts: WHOLE,
        taken: b"abc",
        flushed: 0,
    },
    Row {
        interrupts: (16, 0),
        puts: WHOLE,
        taken: b"abc",
        flushed: 0,
    },
    Row {
        interrupts: (17, 0),
        puts: FAULT,
        taken: b"",
        flushed: 0,
    },
];

/// The writer of a row.
fn writer_of(alloc: Global, row: &Row) -> SlowWriter {
    let (write_interrupts, flush_interrupts) = row.interrupts;
    SlowWriter {
        taken: Vec::new(alloc),
        flushed: 0,
        write_interrupts,
        flush_interrupts,
        waited: 0,
    }
}

/// Whether the writer is as it should be behind the puts.
fn is_left(writer: &SlowWriter, row: &Row) -> bool {
    writer.taken.as_slice() == row.taken && writer.flushed == row.flushed
}

/// Whether standard output over the writer answers each put so.
fn puts_out(writer: &mut SlowWriter, puts: &[Put]) -> bool {
    let mut sink = StdoutSink::new(writer);
    takes_each(&mut sink, puts)
}

/// Whether standard error over the writer answers each put so.
fn puts_err(writer: &mut SlowWriter, puts: &[Put]) -> bool {
    let mut sink = StderrSink::new(writer);
    takes_each(&mut sink, puts)
}

/// How many rows of standard output, from the first on, are as they should be.
fn count_out(alloc: Global, rows: &[Row]) -> usize {
    for i in 0..rows.len() {
        let mut writer = writer_of(alloc, &rows[i]);
        if !puts_out(&mut writer, rows[i].puts) || !is_left(&writer, &rows[i]) {
            return i;
        }
    }
    rows.len()
}

/// How many rows of standard error, from the first on, are as they should be.
fn count_err(alloc: Global, rows: &[Row]) -> usize {
    for i in 0..rows.len() {
        let mut writer = writer_of(alloc, &rows[i]);
        if !puts_err(&mut writer, rows[i].puts) || !is_left(&writer, &rows[i]) {
            return i;
        }
    }
    rows.len()
}

#[test]
fn whole_pieces_are_written_in_order(rt: HostRuntime) {
    assert_eq!(rt; count_out(rt.alloc(), &STDOUT), STDOUT.len());
    assert_eq!(rt; count_err(rt.alloc(), &STDERR), STDERR.len());
}

/// Puts to a writer that takes nothing.
const TAKES_NOTHING: [Put; 2] = [(b"abc", Err(Failed)), (b"", Ok(()))];

#[test]
fn a_write_that_takes_nothing_is_a_fault(rt: HostRuntime) {
    assert!(rt; takes_each(&mut StdoutSink::new(FullWriter), &TAKES_NOTHING));
    assert!(rt; takes_each(&mut StderrSink::new(FullWriter), &TAKES_NOTHING));
}
