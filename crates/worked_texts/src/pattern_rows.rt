//! Pattern files, given to a reader line by line.
use flux_model::{
    Bad, Code, Limits, Line, Mode, Pattern, PatternEdge, PatternPart, Patterns, Said,
};
use line_grammar::read_pattern_line;
use pattern_check::PatternReader;
use std::alloc::{AllocError, Global};
use std::test::Fail;
use worked_parts::{Unmade, are_labels};

/// What a line of a pattern file says.
fn part_of(alloc: Global, line: &str) -> Result<PatternPart, Unmade> {
    match read_pattern_line(alloc, &Line::Held(line.as_bytes()))? {
        Said::Says(part) => Ok(part),
        Said::Refused(code) => Err(Unmade::Refused(code)),
        Said::Nothing => Err(Unmade::Silent),
    }
}

/// What a reader makes of a file's lines.
#[derive(Drop)]
enum Made {
    Accepted(Patterns),
    Refused(Bad),
    /// It was spent before a refusal, or was not after one.
    Wrong,
}

/// What the reader makes at the end.
fn end_of(reader: PatternReader) -> Result<Made, AllocError> {
    if reader.is_spent() {
        return Ok(Made::Wrong);
    }
    match reader.finish()? {
        Ok(patterns) => Ok(Made::Accepted(patterns)),
        Err(bad) => Ok(Made::Refused(bad)),
    }
}

/// What a reader makes of these lines, which are numbered from 1.
fn read(alloc: Global, limits: &Limits, lines: &[&str]) -> Result<Made, Unmade> {
    if !limits.fair() {
        return Ok(Made::Wrong);
    }
    let mut reader = PatternReader::new(alloc, limits);
    for i in 0..lines.len() {
        if reader.is_spent() {
            return Ok(Made::Wrong);
        }
        if let Err(bad) = reader.take(i as u64 + 1, part_of(alloc, lines[i])?)? {
            return Ok(if reader.is_spent() {
                Made::Refused(bad)
            } else {
                Made::Wrong
            });
        }
    }
    Ok(end_of(reader)?)
}

/// The lines of a file that is refused, at which line, and by which code.
type Refusal = (&'static [&'static str], u64, Code);

const REFUSED: [Refusal; 15] = [
    (&["v 0"], 1, Code::NoName),
    (&["e 0 0 r"], 1, Code::NoName),
    (&["p a hom", "v 1"], 2, Code::Order),
    (&["p a hom", "v 0", "v 0"], 3, Code::Order),
    (&["p a hom", "p b hom", "v 0"], 1, Code::Empty),
    (&["p a hom", "p a hom"], 1, Code::Empty),
    (&["p a hom", "v 0", "p a iso"], 3, Code::Exists),
    (&["p a hom", "v 0", "e 0 1 r"], 3, Code::NoVertex),
    (&["p a hom", "v 0", "e 1 0 r"], 3, Code::NoVertex),
    (&["p a hom", "v 0", "e 0 0 r", "e 0 0 r"], 4, Code::Exists),
    (&["p a hom", "v 0", "p b hom"], 3, Code::Empty),
    (&["p a hom", "v 0", "v 1", "p b hom", "v 0"], 1, Code::Apart),
    (&["p a hom", "v 0", "p b hom", "v 0", "v 1"], 3, Code::Apart),
    (&["p a hom", "v 0", "v 1", "e 1 1 r"], 1, Code::Apart),
    (&["p a hom"], 1, Code::Empty),
];

/// Files that are refused where one pattern, one vertex and one edge is the limit.
const TOO_MANY: [Refusal; 3] = [
    (&["p a hom", "v 0", "v 1"], 3, Code::Full),
    (&["p a hom", "v 0", "e 0 0 r", "e 0 0 s"], 4, Code::Full),
    (&["p a hom", "v 0", "e 0 0 r", "p b hom"], 4, Code::Full),
];

/// Whether the file is refused at this line and by this code.
fn is_refused(alloc: Global, limits: &Limits, row: &Refusal) -> Result<bool, Unmade> {
    let (lines, line, code) = *row;
    match read(alloc, limits, lines)? {
        Made::Refused(bad) => Ok(bad == Bad { line, code }),
        _ => Ok(false),
    }
}

/// How many files, from the first on, are refused as they should be.
fn count_refused(alloc: Global, limits: &Limits, rows: &[Refusal]) -> Result<usize, Unmade> {
    for i in 0..rows.len() {
        if !is_refused(alloc, limits, &rows[i])? {
            return Ok(i);
        }
    }
    Ok(rows.len())
}

#[test]
fn refused_lines(rt: HostRuntime) -> Result<(), Fail> {
    assert_eq!(rt;
        count_refused(rt.alloc(), &Limits::standard(), &REFUSED)?,
        REFUSED.len()
    );
    Ok(())
}

#[test]
fn more_than_the_limits(rt: HostRuntime) -> Result<(), Fail> {
    let least = Limits {
        patterns: 1,
        pattern_vertices: 1,
        pattern_edges: 1,
        ..Limits::standard()
    };
    assert_eq!(rt;
        count_refused(rt.alloc(), &least, &TOO_MANY)?,
        TOO_MANY.len()
    );
    Ok(())
}

/// A pattern as it has to be read.
#[derive(Clone, Copy)]
struct Want {
    name: &'static str,
    mode: Mode,
    labels: &'static [&'static [&'static str]],
    edges: &'static [(usize, usize, &'static str)],
}

/// Whether the vertices have these labels.
fn have_labels(pattern: &Pattern, labels: &[&[&str]]) -> bool {
    if pattern.vertex_count() != labels.len() {
        return false;
    }
    for i in 0..labels.len() {
        if !are_labels(pattern.labels(i), labels[i]) {
            return false;
        }
    }
    true
}

fn is_edge(edge: &PatternEdge, tail: usize, head: usize, label: &str) -> bool {
    edge.tail == tail && edge.head == head && edge.label.bytes() == label.as_bytes()
}

/// Whether the edges are these.
fn has_edges(pattern: &Pattern, edges: &[(usize, usize, &str)]) -> bool {
    if pattern.edge_count() != edges.len() {
        return false;
    }
    for i in 0..edges.len() {
        let (tail, head, label) = edges[i];
        if !is_edge(pattern.edge(i), tail, head, label) {
            return false;
        }
    }
    true
}

fn is_pattern(pattern: &Pattern, want: &Want) -> bool {
    pattern.name().bytes() == want.name.as_bytes()
        && pattern.mode() == want.mode
        && have_labels(pattern, want.labels)
        && has_edges(pattern, want.edges)
}

fn are_patterns(patterns: &Patterns, wants: &[Want]) -> bool {
    if patterns.count() != wants.len() {
        return false;
    }
    for i in 0..wants.len() {
        if !is_pattern(patterns.get(i), &wants[i]) {
            return false;
        }
    }
    true
}

const CHAIN: Want = Want {
    name: "chain",
    mode: Mode::Hom,
    labels: &[&["A"], &[], &["B"]],
    edges: &[(1, 0, "r"), (1, 2, "s")],
};

const LOOP: Want = Want {
    name: "loop",
    mode: Mode::Iso,
    labels: &[&[]],
    edges: &[(0, 0, "r")],
};

/// The lines of a file, and the patterns that they make.
type Accepted = (&'static [&'static str], &'static [Want]);

const ACCEPTED: [Accepted; 2] = [
    (&[], &[]),
    (
        &[
            "p chain hom",
            "v 0 A",
            "v 1",
            "v 2 B",
            "e 1 0 r",
            "e 1 2 s",
            "p loop iso",
            "v 0",
            "e 0 0 r",
        ],
        &[CHAIN, LOOP],
    ),
];

/// How many files, from the first on, make the patterns that they should.
fn count_accepted(alloc: Global, rows: &[Accepted]) -> Result<usize, Unmade> {
    for i in 0..rows.len() {
        let (lines, wants) = rows[i];
        match read(alloc, &Limits::standard(), lines)? {
            Made::Accepted(patterns) if are_patterns(&patterns, wants) => {}
            _ => return Ok(i),
        }
    }
    Ok(rows.len())
}

#[test]
fn accepted_files(rt: HostRuntime) -> Result<(), Fail> {
    assert_eq!(rt; count_accepted(rt.alloc(), &ACCEPTED)?, ACCEPTED.len());
    Ok(())
}
