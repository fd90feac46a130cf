//! Where the lines of a slice end.
ghost use Rattle.std.specs.Prelude.{◌≡◌, ◌≤◌, ◌+◌, ◌++◌, List, ℕ, length, take};
ghost use Rattle.flux_model.specs.Lines.{line_of, open_end};
ghost use Rattle.flux_model.specs.LentLine.{seen_line};
ghost use Rattle.stream_lines.specs.Buffer.{IsFirstLen, IsOpenPlace, Stands};

use flux_model::Line;
use memchr::{memchr, memrchr};

const LINE_END: u8 = b'\n';

/// The line of these bytes.
pub fn to_line(bytes: &[u8], line_bytes: usize) -> Line<'_>
    ensures { seen_line result ≡ line_of line_bytes bytes.now }
{
    let line = match bytes {
        [front @ .., b'\r'] => front,
        _ => bytes,
    };
    if line.len() > line_bytes {
        return Line::Long;
    }
    Line::Held(line)
}

/// How long the first line is, if its end has come.
pub fn first_len(bytes: &[u8]) -> Option<usize>
    ensures { IsFirstLen bytes.now result }
{
    memchr(LINE_END, bytes)
}

/// How long the first line is in these bytes, where it was so long, or had no end, in so many of them.
pub fn first_len_with_more(first: Option<usize>, bytes: &[u8], searched: usize) -> Option<usize>
    requires searched { searched ≤ length bytes.now }
    requires first { IsFirstLen (take searched bytes.now) first }
    ensures { IsFirstLen bytes.now result }
{
    let None = first else {
        return first;
    };
    match first_len(&bytes[searched..]) {
        Some(len) => Some(searched + len),
        None => None,
    }
}

// The place after the last line end, or the front, and how many bytes are open there where so many were before.
fn open_place(bytes: &[u8], open_len: usize) -> (usize, usize)
    ensures { IsOpenPlace bytes.now open_len result.0 result.1 }
{
    match memrchr(LINE_END, bytes) {
        Some(end) => (end + 1, 0),
        None => (0, open_len),
    }
}

/// The front of a piece that has to be kept where so many bytes were open, and how many are open then: of a line that is long
/// already no more is needed.
pub fn worth_keeping(piece: &[u8], open_len: usize, line_bytes: usize) -> (&[u8], usize)
    requires limit { line_bytes ≤ 4096 }
    requires short { open_len ≤ line_bytes + 2 }
    ensures short { result.1 ≤ line_bytes + 2 }
    ensures stands { (before : List ℕ) → length (open_end before) ≡ open_len
        → Stands line_bytes (before ++ piece.now) (before ++ result.0.now) result.1 }
{
    let (place, left) = open_place(piece, open_len);
    let added = (piece.len() - place).min(line_bytes + 2 - left);
    (&piece[..place + added], left + added)
}
