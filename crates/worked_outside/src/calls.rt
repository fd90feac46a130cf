//! Calls of a source, a sink or a shelf, and whether they answer what is due.
use flux_outside::{Failed, Shelf, Sink, Source};

/// A read of a source: its answer, and the bytes that it gives.
pub type Read = (Result<usize, Failed>, &'static [u8]);

/// A piece that is put, and the answer.
pub type Put = (&'static [u8], Result<(), Failed>);

/// A read of a file: its name, the place, the answer, and the bytes that it gives.
pub type FileRead = (
    &'static str,
    u64,
    Result<Option<usize>, Failed>,
    &'static [u8],
);

/// Whether the source answers each read so, in turn.
pub(crate) fn gives_each<S: Source>(source: &mut S, buf: &mut [u8], reads: &[Read]) -> bool {
    for i in 0..reads.len() {
        let (answer, bytes) = reads[i];
        if source.read(buf) != answer || !buf.starts_with(bytes) {
            return false;
        }
    }
    true
}

/// Whether the sink answers each put so, in turn.
pub(crate) fn takes_each<S: Sink>(sink: &mut S, puts: &[Put]) -> bool {
    for i in 0..puts.len() {
        let (piece, answer) = puts[i];
        if sink.put(piece) != answer {
            return false;
        }
    }
    true
}

/// Whether the shelf answers each read so, in turn.
pub(crate) fn holds_each<S: Shelf>(shelf: &mut S, buf: &mut [u8], reads: &[FileRead]) -> bool {
    for i in 0..reads.len() {
        let (name, from, answer, bytes) = reads[i];
        if shelf.read(name, from, buf) != answer || !buf.starts_with(bytes) {
            return false;
        }
    }
    true
}
