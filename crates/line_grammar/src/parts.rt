//! The parts of a form, from left to right. Their number is judged first, then the numbers, then the labels.
ghost use Rattle.std.specs.Prelude.{◌≡◌, IfOk};
ghost use Rattle.flux_model.specs.Reading.{read_vertex, read_edge, read_id, read_name};
ghost use Rattle.line_grammar.specs.Left.{words_left};
ghost use Rattle.line_grammar.specs.Parts.{said_by, vertex_of, triple_of};

use crate::labels::{label, labels};
use crate::number::number;
use crate::words::Words;
use flux_model::{Code, Mode, PatternPart, Said, Triple, Vertex};
use std::alloc::{AllocError, Global};

/// How many label words a line may have, repeated ones included.
const MOST_LABELS: usize = 16;

/// A vertex: its number and its labels.
pub(crate) fn vertex(
    alloc: Global,
    mut words: Words<'_>,
) -> Result<Result<Vertex, Code>, AllocError>
    ensures { IfOk result (λ vertex. said_by vertex ≡ read_vertex vertex_of (words_left words.entry)) }
{
    let Some(id) = words.next() else {
        return Ok(Err(Code::Arity));
    };
    if words.count() > MOST_LABELS {
        return Ok(Err(Code::Arity));
    }
    let Some(id) = number(id) else {
        return Ok(Err(Code::Number));
    };
    let Some(labels) = labels(alloc, words)? else {
        return Ok(Err(Code::Label));
    };
    Ok(Ok(Vertex { id, labels }))
}

/// An edge: the numbers of its ends, and its label.
pub(crate) fn edge(alloc: Global, mut words: Words<'_>) -> Result<Result<Triple, Code>, AllocError>
    ensures { IfOk result (λ edge. said_by edge ≡ read_edge triple_of (words_left words.entry)) }
{
    let (Some(src), Some(dst), Some(word), None) = (
        words.next(),
        words.next(),
        words.next(),
        words.next(),
    ) else {
        return Ok(Err(Code::Arity));
    };
    let (Some(src), Some(dst)) = (number(src), number(dst)) else {
        return Ok(Err(Code::Number));
    };
    let Some(label) = label(alloc, word)? else {
        return Ok(Err(Code::Label));
    };
    Ok(Ok(Triple { src, label, dst }))
}

/// One number.
pub(crate) fn id(mut words: Words<'_>) -> Result<u32, Code>
    ensures { said_by result ≡ read_id (λ id. id) (words_left words.entry) }
{
    let (Some(id), None) = (words.next(), words.next()) else {
        return Err(Code::Arity);
    };
    number(id).ok_or(Code::Number)
}

/// A name and a mode.
pub(crate) fn name(alloc: Global, mut words: Words<'_>) -> Result<Said<PatternPart>, AllocError>
    ensures { IfOk result (λ said. said ≡ read_name (words_left words.entry)) }
{
    let (Some(name), Some(mode), None) = (words.next(), words.next(), words.next()) else {
        return Ok(Said::Refused(Code::Arity));
    };
    let Some(name) = label(alloc, name)? else {
        return Ok(Said::Refused(Code::Label));
    };
    let mode = match mode {
        b"hom" => Mode::Hom,
        b"iso" => Mode::Iso,
        _ => return Ok(Said::Refused(Code::Mode)),
    };
    Ok(Said::Says(PatternPart::Name { name, mode }))
}
