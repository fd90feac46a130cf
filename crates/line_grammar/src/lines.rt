//! The readers of whole lines.
ghost use Rattle.std.specs.Prelude.{◌≡◌, ◌∷◌, false, IfOk, MatchOption};
ghost use Rattle.flux_model.specs.LentLine.{seen_line};
ghost use Rattle.flux_model.specs.Reading.{words_of, is_comment, graph_reading, update_reading, pattern_reading};
ghost use Rattle.line_grammar.specs.Left.{words_left};
ghost use Rattle.line_grammar.specs.Parts.{IsSilent};

use crate::forms::{graph_form, pattern_form, update_form};
use crate::words::Words;
use flux_model::{Code, Line, PatternPart, Said, Update};
use std::alloc::{AllocError, Global};

/// What a line of a graph file says: `v ID LABEL..` or `e SRC DST LABEL`.
///
/// A blank line and a comment say nothing. Any other line has one meaning, or is refused with the first of the codes `Long`,
/// `Word`, `Arity`, `Number` and `Label` that fits. `AllocError` is want of memory for the labels.
pub fn read_graph_line(alloc: Global, line: &Line<'_>) -> Result<Said<Update>, AllocError>
    ensures { IfOk result (λ said. said ≡ graph_reading (seen_line line.now)) }
{
    match line {
        Line::Long => Ok(Said::Refused(Code::Long)),
        Line::Held(bytes) => match first_word(bytes) {
            None => Ok(Said::Nothing),
            Some((word, others)) => graph_form(alloc, word, others),
        },
    }
}

/// What a line of the updates says: as in a graph file, or `-e SRC DST LABEL` or `-v ID`.
///
/// A blank line and a comment say nothing. Any other line has one meaning, or is refused with the first of the codes `Long`,
/// `Word`, `Arity`, `Number` and `Label` that fits. `AllocError` is want of memory for the labels.
pub fn read_update_line(alloc: Global, line: &Line<'_>) -> Result<Said<Update>, AllocError>
    ensures { IfOk result (λ said. said ≡ update_reading (seen_line line.now)) }
{
    match line {
        Line::Long => Ok(Said::Refused(Code::Long)),
        Line::Held(bytes) => match first_word(bytes) {
            None => Ok(Said::Nothing),
            Some((word, others)) => update_form(alloc, word, others),
        },
    }
}

/// What a line of a pattern file says: `p NAME hom`, `p NAME iso`, `v N LABEL..` or `e N N LABEL`.
///
/// A blank line and a comment say nothing. Any other line has one meaning, or is refused with the first of the codes `Long`,
/// `Word`, `Arity`, `Number`, `Label` and `Mode` that fits. `AllocError` is want of memory for the name or the labels.
pub fn read_pattern_line(alloc: Global, line: &Line<'_>) -> Result<Said<PatternPart>, AllocError>
    ensures { IfOk result (λ said. said ≡ pattern_reading (seen_line line.now)) }
{
    match line {
        Line::Long => Ok(Said::Refused(Code::Long)),
        Line::Held(bytes) => match first_word(bytes) {
            None => Ok(Said::Nothing),
            Some((word, others)) => pattern_form(alloc, word, others),
        },
    }
}

/// The first word of a line and the words after it, unless the line is blank or a comment.
fn first_word(bytes: &[u8]) -> Option<(&[u8], Words<'_>)>
    ensures { MatchOption result (IsSilent (words_of bytes.now))
        (λ form. (words_of bytes.now ≡ form.0.now ∷ words_left form.1) × (is_comment form.0.now ≡ false)) }
{
    let mut words = Words::new(bytes);
    let word = words.next()?;
    if word.starts_with(b"#") {
        return None;
    }
    Some((word, words))
}
