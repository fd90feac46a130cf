//! `Said`: what a line says.

use crate::code::Code;

/// What a line says: nothing, as a blank line or a comment does; one thing; or that it is refused.
#[derive(Drop)]
pub enum Said<T> {
    /// A blank line or a comment.
    Nothing,
    /// The line's one meaning.
    Says(T),
    /// The first reason for which the line is refused.
    Refused(Code),
}
