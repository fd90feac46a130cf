//! Lines that stand alone: a refusal, and the last line.
ghost use Rattle.std.specs.Prelude.{◌≡◌, ◌++◌, OnOk, OnErr};
ghost use Rattle.flux_model.specs.Grown.{GrewByFront};
ghost use Rattle.flux_model.specs.Report.{refusal_line, end_line as last_line};

use flux_model::Code;
use line_words::{end_line, start_line, write_number, write_word};
use std::alloc::AllocError;

/// Writes `! NUMBER WORD`: the line of this number is refused.
///
/// At `AllocError` a front part of the line was written.
pub fn write_refusal(number: u64, code: Code, out: &mut Vec<u8>) -> Result<(), AllocError>
    ensures ok { OnOk result (out.new.items ≡ out.old.items ++ refusal_line number code) }
    ensures err { OnErr result (GrewByFront out.old.items out.new.items (refusal_line number code)) }
{
    start_line(b'!', number, out)?;
    write_word(code.word().as_bytes(), out)?;
    end_line(out)
}

/// Writes `= LINES ACCEPTED REFUSED`: how many lines the updates had, how many of them changed the graph, and how many were refused.
///
/// At `AllocError` a front part of the line was written.
pub fn write_end(
    lines: u64,
    accepted: u64,
    refused: u64,
    out: &mut Vec<u8>,
) -> Result<(), AllocError>
    ensures ok { OnOk result (out.new.items ≡ out.old.items ++ last_line lines accepted refused) }
    ensures err { OnErr result (GrewByFront out.old.items out.new.items (last_line lines accepted refused)) }
{
    start_line(b'=', lines, out)?;
    write_number(accepted, out)?;
    write_number(refused, out)?;
    end_line(out)
}
