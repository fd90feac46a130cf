//! Numbers.
ghost use Rattle.std.specs.Prelude.{◌≡◌, ◌≤◌, length, Some, None, if◌then◌else◌};
ghost use Rattle.std.specs.List.{list_all};
ghost use Rattle.flux_model.specs.Reading.{is_digit, digits_value};
ghost use Rattle.line_grammar.specs.Parts.{number_in, most_digits};

const MOST_DIGITS: usize = 10;

/// The number in a word: 1 to 10 digits with a value below 2^32.
pub(crate) fn number(word: &[u8]) -> Option<u32>
    ensures { result ≡ number_in word.now }
{
    if word.is_empty() || word.len() > MOST_DIGITS {
        return None;
    }
    u32::try_from(digits(word)?).ok()
}

/// The value of a short word of digits.
fn digits(word: &[u8]) -> Option<u64>
    requires { length word.now ≤ most_digits }
    ensures { result ≡ (if list_all is_digit word.now then Some (digits_value word.now) else None) }
{
    let mut value = 0;
    for byte in word {
        if !byte.is_ascii_digit() {
            return None;
        }
        value = 10 * value + u64::from(*byte - b'0');
    }
    Some(value)
}
