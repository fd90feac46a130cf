//! A pattern file: its lines go into a reader of patterns.
ghost use Rattle.std.specs.Prelude.{◌≡◌, ℕ, Bool, false, Result, Ok, Err, IfOk, OnOk, MatchResult};
ghost use Rattle.flux_model.specs.LentLine.{seen_line};
ghost use Rattle.file_reading.specs.AfterLine.{after_pattern_line};

use crate::take::TakeLine;
use flux_model::{Bad, Line, Said};
use line_grammar::read_pattern_line;
use pattern_check::PatternReader;
use std::alloc::{AllocError, Global};

impl TakeLine for PatternReader {
    ghost after_line = { after_pattern_line };

    ghost is_spent = { λ reading. reading.spent };

    fn accept(
        &mut self,
        alloc: Global,
        number: u64,
        line: &Line<'_>,
    ) -> Result<Result<(), Bad>, AllocError> {
        match read_pattern_line(alloc, line)? {
            Said::Nothing => Ok(Ok(())),
            Said::Refused(code) => Ok(Err(Bad { line: number, code })),
            Said::Says(part) => self.take(number, part),
        }
    }
}
