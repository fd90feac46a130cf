// What a read comes to.

/// What a read came to: so many bytes, no file of that name, or a fault.
#[derive(Clone, Copy, Debug, PartialEq, Eq)]
pub enum ReadOutcome {
    Bytes(usize),
    NoFile,
    Fault,
}
