//! The words of a line.
ghost use Rattle.std.specs.Prelude.{◌≡◌, [], ◌∷◌, ◌++◌, OnOk, OnErr};
ghost use Rattle.std.specs.Fmt.{decimal};
ghost use Rattle.flux_model.specs.Grown.{GrewByFront};
ghost use Rattle.line_words.specs.Words.{spaced};

use itoa::Buffer;
use std::alloc::AllocError;

/// Writes the sign and the number with which a line begins.
pub fn start_line(sign: u8, number: u64, out: &mut Vec<u8>) -> Result<(), AllocError>
    ensures ok { OnOk result (out.new.items ≡ out.old.items ++ sign ∷ spaced (decimal number)) }
    ensures err { OnErr result (GrewByFront out.old.items out.new.items (sign ∷ spaced (decimal number))) }
{
    out.push(sign)?;
    write_number(number, out)
}

/// Writes a space and a number.
pub fn write_number(number: u64, out: &mut Vec<u8>) -> Result<(), AllocError>
    ensures ok { OnOk result (out.new.items ≡ out.old.items ++ spaced (decimal number)) }
    ensures err { OnErr result (GrewByFront out.old.items out.new.items (spaced (decimal number))) }
{
    let mut digits = Buffer::new();
    write_word(digits.format(number).as_bytes(), out)
}

/// Writes a space and a word.
pub fn write_word(word: &[u8], out: &mut Vec<u8>) -> Result<(), AllocError>
    ensures ok { OnOk result (out.new.items ≡ out.old.items ++ spaced word.now) }
    ensures err { OnErr result (GrewByFront out.old.items out.new.items (spaced word.now)) }
{
    out.push(b' ')?;
    out.extend_from_slice(word)
}

/// Ends the line. At `AllocError` nothing was written.
pub fn end_line(out: &mut Vec<u8>) -> Result<(), AllocError>
    ensures ok { OnOk result (out.new.items ≡ out.old.items ++ 10 ∷ []) }
    ensures err { OnErr result (out.new.items ≡ out.old.items) }
{
    out.push(b'\n')?;
    Ok(())
}
