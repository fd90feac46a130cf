//! Labels and names.
ghost use Rattle.std.specs.Prelude.{◌≡◌, ◌≤◌, length, IfOk};
ghost use Rattle.flux_model.specs.Labels.{most_labels};
ghost use Rattle.line_grammar.specs.Left.{words_left};
ghost use Rattle.line_grammar.specs.Parts.{label_in, labels_in};

use crate::words::Words;
use flux_model::{Labels, Text};
use std::alloc::{AllocError, Global};

/// The label or name in a word, if it is one.
pub(crate) fn label(alloc: Global, word: &[u8]) -> Result<Option<Text>, AllocError>
    ensures { IfOk result (λ label. label ≡ label_in word.now) }
{
    if !Text::is_text(word) {
        return Ok(None);
    }
    let text = Text::from_bytes(alloc, word)?;
    Ok(Some(text))
}

/// The set of the labels in a few words, if all are labels.
pub(crate) fn labels(alloc: Global, words: Words<'_>) -> Result<Option<Labels>, AllocError>
    requires { length (words_left words) ≤ most_labels }
    ensures { IfOk result (λ labels. labels ≡ labels_in (words_left words.entry)) }
{
    let mut labels = Labels::new(alloc);
    for word in words {
        let Some(label) = label(alloc, word)? else {
            return Ok(None);
        };
        labels.add(label)?;
    }
    Ok(Some(labels))
}
