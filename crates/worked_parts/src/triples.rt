//! Texts of words, and triples of their parts.
use crate::unmade::Unmade;
use flux_model::{Code, Text, Triple};
use graph_traits::KeepGraph;
use std::alloc::Global;

/// A source, a label and a target.
pub type Parts = (u32, &'static str, u32);

/// The text of this word.
pub fn text_of(alloc: Global, word: &str) -> Result<Text, Unmade> {
    if !Text::is_text(word.as_bytes()) {
        return Err(Unmade::Refused(Code::Label));
    }
    Ok(Text::from_bytes(alloc, word.as_bytes())?)
}

/// The triple of these parts.
pub fn triple_of(alloc: Global, parts: Parts) -> Result<Triple, Unmade> {
    let (src, label, dst) = parts;
    let label = text_of(alloc, label)?;
    Ok(Triple { src, label, dst })
}

/// Inserts the triple of these parts.
pub fn insert<G: KeepGraph>(alloc: Global, graph: &mut G, parts: Parts) -> Result<(), Unmade> {
    match graph.insert(&triple_of(alloc, parts)?)? {
        Ok(()) => Ok(()),
        Err(code) => Err(Unmade::Refused(code)),
    }
}
