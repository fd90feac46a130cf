//! `Line`: a line of an input, as it is lent.

/// A line of an input, without its end.
#[derive(Clone, Copy, Debug, PartialEq, Eq)]
pub enum Line<'a> {
    /// The bytes of a line that is as long as a line may be, or shorter.
    Held(&'a [u8]),
    /// A line of more bytes than the limit says, which are not kept.
    Long,
}
