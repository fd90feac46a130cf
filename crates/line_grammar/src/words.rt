//! The words of a line.
ghost use Rattle.std.specs.Prelude.{◌≡◌, ◌∷◌, ◌^◌, ◌<◌, ◌≤◌, length};
ghost use Rattle.std.specs.List.{position_or_len, prefix_len};
ghost use Rattle.flux_model.specs.Reading.{is_blank, words_of};

/// The words of a line that are left: its longest runs of bytes other than space and tab.
#[derive(Clone, Copy)]
pub(crate) struct Words<'a> {
    rest: &'a [u8],
    // So that a count of the words fits.
    ghost fits: { length (words_of rest.now) < 2 ^ 64 },
}

impl<'a> Words<'a> {
    ghost use Rattle.line_grammar.specs.Left.{words_left};

    /// All words of a line.
    pub(crate) fn new(line: &'a [u8]) -> Words<'a>
        ensures { words_left result ≡ words_of line.now }
    {
        Words { rest: line }
    }
}

impl<'a> Iterator for Words<'a> {
    ghost use Rattle.std.specs.Iterator.{YieldsFirstBy, item_count};
    ghost use Rattle.line_grammar.specs.Left.{words_left};

    type Item = &'a [u8];

    ghost next_gives = { YieldsFirstBy (λ word. word.now) words_left };

    ghost remaining = { item_count words_left };

    fn next(&mut self) -> Option<&'a [u8]> {
        let words = skip_blanks(self.rest);
        if words.is_empty() {
            return None;
        }
        let (word, rest) = split_word(words);
        self.rest = rest;
        Some(word)
    }
}

/// Whether a byte stands between words: a space or a tab.
fn is_blank(byte: u8) -> bool
    ensures { result ≡ is_blank byte }
{
    byte == b' ' || byte == b'\t'
}

/// The bytes from the first word on.
fn skip_blanks(bytes: &[u8]) -> &[u8]
    ensures words { words_of result.now ≡ words_of bytes.now }
    ensures begins { prefix_len is_blank result.now ≡ 0 }
{
    &bytes[blank_len(bytes)..]
}

/// The word that the bytes begin with, and the bytes after it.
fn split_word(bytes: &[u8]) -> (&[u8], &[u8])
    requires begins { prefix_len is_blank bytes.now ≡ 0 }
    requires some { 0 < length bytes.now }
    ensures { words_of bytes.now ≡ result.0.now ∷ words_of result.1.now }
{
    bytes.split_at(word_len(bytes))
}

/// How many blanks the bytes begin with.
fn blank_len(bytes: &[u8]) -> usize
    ensures len { result ≡ prefix_len is_blank bytes.now }
    ensures within { result ≤ length bytes.now }
{
    bytes.iter().take_while(|byte| is_blank(**byte)).count()
}

/// How many bytes stand before the first blank.
fn word_len(bytes: &[u8]) -> usize
    ensures len { result ≡ position_or_len is_blank bytes.now }
    ensures within { result ≤ length bytes.now }
{
    bytes.iter().take_while(|byte| !is_blank(**byte)).count()
}
