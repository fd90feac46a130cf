//! Laws of words and numbers.
ghost use Rattle.flux_laws.specs.WordsLaws.{NoBlankInWords, WordIsRead, WordsInParts, WordsAreReadBack, DecimalIsDigits, DecimalIsReadBack, IdIsANumber};

/// Each word of a line has bytes, and no space or tab among them.
pub fn no_blank_in_words()
    ensures { NoBlankInWords }
{}

/// A line that has bytes, and no space or tab among them, is one word.
pub fn word_is_read()
    ensures { WordIsRead }
{}

/// The words of a line are those before a space or tab, and then those after it.
pub fn words_in_parts()
    ensures { WordsInParts }
{}

/// Words with a space between each two are read back.
pub fn words_are_read_back()
    ensures { WordsAreReadBack }
{}

/// The text of a number is made of digits.
pub fn decimal_is_digits()
    ensures { DecimalIsDigits }
{}

/// The digits of a number have it as their value.
pub fn decimal_is_read_back()
    ensures { DecimalIsReadBack }
{}

/// The text of an id of 32 bits is read as a number.
pub fn id_is_a_number()
    ensures { IdIsANumber }
{}
