//! The lines that wait, and what has come of the next.
ghost use Rattle.std.specs.Prelude.{◌≡◌, ◌≤◌, ◌<◌, [], ◌++◌, List, ℕ, drop, OnOk, OnErr, length, take};
ghost use Rattle.flux_model.specs.Lines.{held, whole, rest, lines};
ghost use Rattle.stream_lines.specs.Follows.{Follows, rest_line};
ghost use Rattle.stream_lines.specs.Lent.{one_line};

use crate::cut::{first_len, first_len_with_more, to_line, worth_keeping};
use flux_model::Line;
use std::alloc::{AllocError, Global};
use std::marker::Model;

/// Cuts a stream into lines, in whatever pieces it comes. Lines wait in order until they are passed.
#[derive(Drop)]
pub struct Lines {
    line_bytes: usize,
    bytes: Vec<u8>,

    // where the first line begins that is not passed
    start: usize,
    first_len: Option<usize>,

    // how many of the bytes stand after the last line end
    open_len: usize,
}

impl Model for Lines {
    ghost use Rattle.std.specs.Prelude.{drop};
    ghost use Rattle.flux_model.specs.Lines.{whole, rest};
    ghost use Rattle.stream_lines.specs.Waiting.{Waiting};
    ghost use Rattle.stream_lines.specs.Buffer.{IsBuffer};

    ghost Value = { Waiting };

    ghost view = { λ s. record {
      line_bytes = s.line_bytes;
      queue = whole s.line_bytes (drop s.start s.bytes.items);
      rest = rest s.line_bytes (drop s.start s.bytes.items);
    } };

    ghost invariant = { λ s. IsBuffer s.line_bytes s.bytes.items s.start s.first_len s.open_len };
}

impl Lines {
    /// No lines yet. A line may have at most so many bytes, its end not counted.
    pub fn new(alloc: Global, line_bytes: u64) -> Lines
        requires { line_bytes ≤ 4096 }
        ensures { result ≡ record { line_bytes = line_bytes; queue = []; rest = held [] } }
    {
        Lines {
            line_bytes: line_bytes as usize,
            bytes: Vec::new(alloc),
            start: 0,
            first_len: None,
            open_len: 0,
        }
    }

    /// Takes the next piece of the stream: the lines that it ends join those that wait. An `Err` changes nothing.
    pub fn push(&mut self, piece: &[u8]) -> Result<(), AllocError>
        ensures line_bytes { self.new.line_bytes ≡ self.old.line_bytes }
        ensures lines { OnOk result ((b : List ℕ) → rest self.old.line_bytes b ≡ self.old.rest
            → Follows b piece.now self.old self.new) }
        ensures err { OnErr result (self.new ≡ self.old) }
    {
        self.drop_passed();
        let (kept, open_len) = worth_keeping(piece, self.open_len, self.line_bytes);
        let searched = self.bytes.len() - self.start;
        self.bytes.extend_from_slice(kept)?;
        self.first_len = first_len_with_more(self.first_len, &self.bytes[self.start..], searched);
        self.open_len = open_len;
        Ok(())
    }

    /// The first line that waits, which stays. None exactly where no line waits.
    pub fn first(&self) -> Option<Line<'_>>
        ensures { one_line result ≡ take 1 self.now.queue }
    {
        let Some(len) = self.first_len else {
            return None;
        };
        let waiting = &self.bytes[self.start..];
        Some(to_line(&waiting[..len], self.line_bytes))
    }

    /// Takes the first line away.
    pub fn pass(&mut self)
        requires { 0 < length self.old.queue }
        ensures { self.new ≡ record self.old { queue = drop 1 self.old.queue } }
    {
        if let Some(len) = self.first_len {
            self.start += len + 1;
            self.first_len = first_len(&self.bytes[self.start..]);
        }
    }

    /// What has come of the next line, as the stream's last line. None exactly where nothing has come of it.
    pub fn last(&self) -> Option<Line<'_>>
        requires { self.now.queue ≡ [] }
        ensures line { one_line result ≡ rest_line self.now.line_bytes self.now.rest }
        ensures lines { (b : List ℕ) → rest self.now.line_bytes b ≡ self.now.rest
            → lines self.now.line_bytes b ≡ whole self.now.line_bytes b ++ one_line result }
    {
        let waiting = &self.bytes[self.start..];
        if waiting.is_empty() {
            return None;
        }
        Some(to_line(waiting, self.line_bytes))
    }

    // Gives up the bytes of lines that are passed, once they are half of all: so each byte is moved a bounded number of times.
    fn drop_passed(&mut self)
        ensures { self.new ≡ self.old }
    {
        let waiting = self.bytes.len() - self.start;
        if waiting <= self.start {
            let start = self.start;
            self.bytes.copy_within(start.., 0);
            self.bytes.truncate(waiting);
            self.start = 0;
        }
    }
}
