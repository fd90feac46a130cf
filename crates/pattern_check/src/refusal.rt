//! Refusals of a line.
ghost use Rattle.std.specs.Prelude.{◌≡◌};
ghost use Rattle.flux_model.specs.FileReading.{refused_at};

use flux_model::{Bad, Code};

/// The refusal of this line.
pub fn refused<T>(line: u64, code: Code) -> Result<T, Bad>
    ensures { result ≡ refused_at line code }
{
    Err(Bad { line, code })
}
