//! What a file is read into, line by line.
ghost use Rattle.std.specs.Prelude.{◌≡◌, ℕ, Bool, false, Result, Ok, Err, IfOk, OnOk, MatchResult};
ghost use Rattle.flux_model.specs.Lines.{InputLine};
ghost use Rattle.flux_model.specs.LentLine.{seen_line};
ghost use Rattle.flux_model.specs.declared.code.Bad.{Bad};

use flux_model::{Bad, Line};
use std::alloc::{AllocError, Global};

/// A value that grows by the lines of a file.
pub trait TakeLine {
    /// What the line of this number makes of the value, or its refusal.
    ghost after_line: { ℕ → Self → InputLine → Result Self Bad };

    /// Whether the value takes no more lines: one was refused, or memory was.
    ghost is_spent: { Self → Bool };

    /// Takes a line. A refused line, and want of memory, may spend the value.
    fn accept(
        &mut self,
        alloc: Global,
        number: u64,
        line: &Line<'_>,
    ) -> Result<Result<(), Bad>, AllocError>
        requires { is_spent self.old ≡ false }
        ensures taken { IfOk result (λ taken. MatchResult taken
            (λ _. after_line number self.old (seen_line line.now) ≡ Ok self.new)
            (λ bad. after_line number self.old (seen_line line.now) ≡ Err bad)) }
        ensures ready { IfOk result (λ taken. OnOk taken (is_spent self.new ≡ false)) };
}
