//! The forms of a file: the first word of a line decides which it is.
ghost use Rattle.std.specs.Prelude.{◌≡◌, IfOk};
ghost use Rattle.flux_model.specs.Reading.{read_vertex, read_edge, read_id, added_edge, dropped_edge, pattern_edge};
ghost use Rattle.flux_model.specs.Reading.{read_graph_form, read_update_form, read_pattern_form};
ghost use Rattle.flux_model.specs.declared.graph.Update.TheVariants.{AddVertex, DropVertex};
ghost use Rattle.flux_model.specs.declared.pattern.PatternPart.TheVariants as part;
ghost use Rattle.line_grammar.specs.Left.{words_left};

use crate::parts::{edge, id, name, vertex};
use crate::words::Words;
use flux_model::{Code, PatternPart, Said, Update};
use std::alloc::{AllocError, Global};

/// What a line of a graph file says that begins with this word.
pub(crate) fn graph_form(
    alloc: Global,
    word: &[u8],
    others: Words<'_>,
) -> Result<Said<Update>, AllocError>
    ensures { IfOk result (λ said. said ≡ read_graph_form word.now (words_left others.entry)) }
{
    match word {
        b"v" => added_vertex(alloc, others),
        b"e" => added_edge(alloc, others),
        _ => Ok(Said::Refused(Code::Word)),
    }
}

/// What a line of the updates says that begins with this word.
pub(crate) fn update_form(
    alloc: Global,
    word: &[u8],
    others: Words<'_>,
) -> Result<Said<Update>, AllocError>
    ensures { IfOk result (λ said. said ≡ read_update_form word.now (words_left others.entry)) }
{
    match word {
        b"-e" => dropped_edge(alloc, others),
        b"-v" => Ok(dropped_vertex(others)),
        _ => graph_form(alloc, word, others),
    }
}

/// What a line of a pattern file says that begins with this word.
pub(crate) fn pattern_form(
    alloc: Global,
    word: &[u8],
    others: Words<'_>,
) -> Result<Said<PatternPart>, AllocError>
    ensures { IfOk result (λ said. said ≡ read_pattern_form word.now (words_left others.entry)) }
{
    match word {
        b"p" => name(alloc, others),
        b"v" => pattern_vertex(alloc, others),
        b"e" => pattern_edge(alloc, others),
        _ => Ok(Said::Refused(Code::Word)),
    }
}

fn added_vertex(alloc: Global, words: Words<'_>) -> Result<Said<Update>, AllocError>
    ensures { IfOk result (λ said. said ≡ read_vertex AddVertex (words_left words.entry)) }
{
    match vertex(alloc, words)? {
        Ok(vertex) => Ok(Said::Says(Update::AddVertex {
            id: vertex.id,
            labels: vertex.labels,
        })),
        Err(code) => Ok(Said::Refused(code)),
    }
}

fn dropped_vertex(words: Words<'_>) -> Said<Update>
    ensures { result ≡ read_id DropVertex (words_left words.entry) }
{
    match id(words) {
        Ok(id) => Said::Says(Update::DropVertex { id }),
        Err(code) => Said::Refused(code),
    }
}

fn added_edge(alloc: Global, words: Words<'_>) -> Result<Said<Update>, AllocError>
    ensures { IfOk result (λ said. said ≡ read_edge added_edge (words_left words.entry)) }
{
    match edge(alloc, words)? {
        Ok(triple) => Ok(Said::Says(Update::AddEdge(triple))),
        Err(code) => Ok(Said::Refused(code)),
    }
}

fn dropped_edge(alloc: Global, words: Words<'_>) -> Result<Said<Update>, AllocError>
    ensures { IfOk result (λ said. said ≡ read_edge dropped_edge (words_left words.entry)) }
{
    match edge(alloc, words)? {
        Ok(triple) => Ok(Said::Says(Update::DropEdge(triple))),
        Err(code) => Ok(Said::Refused(code)),
    }
}

fn pattern_vertex(alloc: Global, words: Words<'_>) -> Result<Said<PatternPart>, AllocError>
    ensures { IfOk result (λ said. said ≡ read_vertex part.Vertex (words_left words.entry)) }
{
    match vertex(alloc, words)? {
        Ok(vertex) => Ok(Said::Says(PatternPart::Vertex {
            n: vertex.id,
            labels: vertex.labels,
        })),
        Err(code) => Ok(Said::Refused(code)),
    }
}

fn pattern_edge(alloc: Global, words: Words<'_>) -> Result<Said<PatternPart>, AllocError>
    ensures { IfOk result (λ said. said ≡ read_edge pattern_edge (words_left words.entry)) }
{
    match edge(alloc, words)? {
        Ok(triple) => Ok(Said::Says(PatternPart::Edge {
            tail: triple.src,
            head: triple.dst,
            label: triple.label,
        })),
        Err(code) => Ok(Said::Refused(code)),
    }
}
