//! Lines, and what they say.
use flux_model::{Code, Line, Mode, PatternPart, Said, Triple, Update};
use line_grammar::{read_graph_line, read_pattern_line, read_update_line};
use std::alloc::{AllocError, Global};
use std::test::Fail;
use worked_parts::are_labels;

/// What a line has to say.
#[derive(Clone, Copy)]
enum Want {
    Nothing,
    Refused(Code),
    Name(&'static str, Mode),
    Vertex(u32, &'static [&'static str]),
    Edge(u32, u32, &'static str),
    NoVertex(u32),
    NoEdge(u32, u32, &'static str),
}

use Want::{Edge, Name, NoEdge, NoVertex, Nothing, Refused, Vertex};

/// Whether these are the triple's ends and label.
fn is_triple(triple: &Triple, src: u32, dst: u32, label: &str) -> bool {
    triple.src == src && triple.dst == dst && triple.label.bytes() == label.as_bytes()
}

fn is_update(update: &Update, want: &Want) -> bool {
    match (update, want) {
        (Update::AddVertex { id, labels }, Vertex(vertex, names)) => {
            id == vertex && are_labels(labels, names)
        }
        (Update::DropVertex { id }, NoVertex(vertex)) => id == vertex,
        (Update::AddEdge(edge), Edge(src, dst, label)) => is_triple(edge, *src, *dst, label),
        (Update::DropEdge(edge), NoEdge(src, dst, label)) => is_triple(edge, *src, *dst, label),
        _ => false,
    }
}

fn is_part(part: &PatternPart, want: &Want) -> bool {
    match (part, want) {
        (PatternPart::Name { name, mode }, Name(word, wanted)) => {
            name.bytes() == word.as_bytes() && mode == wanted
        }
        (PatternPart::Vertex { n, labels }, Vertex(number, names)) => {
            n == number && are_labels(labels, names)
        }
        (PatternPart::Edge { tail, head, label }, Edge(from, to, word)) => {
            tail == from && head == to && label.bytes() == word.as_bytes()
        }
        _ => false,
    }
}

fn says_update(said: &Said<Update>, want: &Want) -> bool {
    match (said, want) {
        (Said::Nothing, Nothing) => true,
        (Said::Refused(code), Refused(wanted)) => code == wanted,
        (Said::Says(update), _) => is_update(update, want),
        _ => false,
    }
}

fn says_part(said: &Said<PatternPart>, want: &Want) -> bool {
    match (said, want) {
        (Said::Nothing, Nothing) => true,
        (Said::Refused(code), Refused(wanted)) => code == wanted,
        (Said::Says(part), _) => is_part(part, want),
        _ => false,
    }
}

const SIXTEEN: [&str; 16] = [
    "a", "b", "c", "d", "e", "f", "g", "h", "i", "j", "k", "l", "m", "n", "o", "p",
];

/// A line, and what it has to say.
type Row = (Line<'static>, Want);

const GRAPH_LINES: [Row; 27] = [
    (Line::Held(b"e 1 2 r"), Edge(1, 2, "r")),
    (Line::Held(b"e\t1  2 r "), Edge(1, 2, "r")),
    (Line::Held(b"  e 01 \t 0000000002\tr"), Edge(1, 2, "r")),
    (Line::Held(b"v 2 B A A"), Vertex(2, &["A", "B"])),
    (Line::Held(b"v 4294967295"), Vertex(4294967295, &[])),
    (
        Line::Held(b"v 1 p o n m l k j i h g f e d c b a"),
        Vertex(1, &SIXTEEN),
    ),
    (Line::Held(b""), Nothing),
    (Line::Held(b" \t "), Nothing),
    (Line::Held(b"# note"), Nothing),
    (Line::Held(b"\t#"), Nothing),
    (Line::Held(b"#v 1"), Nothing),
    (Line::Long, Refused(Code::Long)),
    (Line::Held(b"x 1"), Refused(Code::Word)),
    (Line::Held(b"-e 1 2 r"), Refused(Code::Word)),
    (Line::Held(b"-v 1"), Refused(Code::Word)),
    (Line::Held(b"p a hom"), Refused(Code::Word)),
    (Line::Held(b"vv 1"), Refused(Code::Word)),
    (Line::Held(b"\r\r"), Refused(Code::Word)),
    (Line::Held(b"v"), Refused(Code::Arity)),
    (Line::Held(b"e 1 2"), Refused(Code::Arity)),
    (Line::Held(b"e x 2 r r"), Refused(Code::Arity)),
    (
        Line::Held(b"v x A A A A A A A A A A A A A A A A A"),
        Refused(Code::Arity),
    ),
    (Line::Held(b"v 4294967296"), Refused(Code::Number)),
    (Line::Held(b"v 00000000003"), Refused(Code::Number)),
    (Line::Held(b"e 1 x \x7f"), Refused(Code::Number)),
    (Line::Held(b"v +1 \x7f"), Refused(Code::Number)),
    (Line::Held(b"e 1 2 r\x7f"), Refused(Code::Label)),
];

const UPDATE_LINES: [Row; 14] = [
    (Line::Held(b"-e 7 9 knows"), NoEdge(7, 9, "knows")),
    (Line::Held(b"e 1 2 r"), Edge(1, 2, "r")),
    (Line::Held(b"-v 12"), NoVertex(12)),
    (Line::Held(b""), Nothing),
    (Line::Held(b" \t "), Nothing),
    (Line::Held(b"# note"), Nothing),
    (Line::Held(b"\t#"), Nothing),
    (Line::Held(b"#v 1"), Nothing),
    (Line::Long, Refused(Code::Long)),
    (Line::Held(b"x 1"), Refused(Code::Word)),
    (Line::Held(b"-v 1 A"), Refused(Code::Arity)),
    (Line::Held(b"-e 1 2"), Refused(Code::Arity)),
    (Line::Held(b"e 1 x r"), Refused(Code::Number)),
    (Line::Held(b"-v -1"), Refused(Code::Number)),
];

const PATTERN_LINES: [Row; 14] = [
    (Line::Held(b"p ab iso"), Name("ab", Mode::Iso)),
    (Line::Held(b"v 3 A"), Vertex(3, &["A"])),
    (Line::Held(b"e 0 31 r"), Edge(0, 31, "r")),
    (Line::Held(b""), Nothing),
    (Line::Held(b" \t "), Nothing),
    (Line::Held(b"# note"), Nothing),
    (Line::Held(b"\t#"), Nothing),
    (Line::Held(b"#v 1"), Nothing),
    (Line::Long, Refused(Code::Long)),
    (Line::Held(b"-e 1 2 r"), Refused(Code::Word)),
    (Line::Held(b"p a hom iso"), Refused(Code::Arity)),
    (Line::Held(b"v x"), Refused(Code::Number)),
    (Line::Held(b"p \x80 any"), Refused(Code::Label)),
    (Line::Held(b"p a any"), Refused(Code::Mode)),
];

/// How many lines of a graph file, from the first on, say what they should.
fn count_graph_lines(alloc: Global, rows: &[Row]) -> Result<usize, AllocError> {
    for i in 0..rows.len() {
        let (line, want) = rows[i];
        if !says_update(&read_graph_line(alloc, &line)?, &want) {
            return Ok(i);
        }
    }
    Ok(rows.len())
}

#[test]
fn graph_lines(rt: HostRuntime) -> Result<(), Fail> {
    assert_eq!(rt;
        count_graph_lines(rt.alloc(), &GRAPH_LINES)?,
        GRAPH_LINES.len()
    );
    Ok(())
}

/// How many lines of the updates, from the first on, say what they should.
fn count_update_lines(alloc: Global, rows: &[Row]) -> Result<usize, AllocError> {
    for i in 0..rows.len() {
        let (line, want) = rows[i];
        if !says_update(&read_update_line(alloc, &line)?, &want) {
            return Ok(i);
        }
    }
    Ok(rows.len())
}

#[test]
fn update_lines(rt: HostRuntime) -> Result<(), Fail> {
    assert_eq!(rt;
        count_update_lines(rt.alloc(), &UPDATE_LINES)?,
        UPDATE_LINES.len()
    );
    Ok(())
}

/// How many lines of a pattern file, from the first on, say what they should.
fn count_pattern_lines(alloc: Global, rows: &[Row]) -> Result<usize, AllocError> {
    for i in 0..rows.len() {
        let (line, want) = rows[i];
        if !says_part(&read_pattern_line(alloc, &line)?, &want) {
            return Ok(i);
        }
    }
    Ok(rows.len())
}

#[test]
fn pattern_lines(rt: HostRuntime) -> Result<(), Fail> {
    assert_eq!(rt;
        count_pattern_lines(rt.alloc(), &PATTERN_LINES)?,
        PATTERN_LINES.len()
    );
    Ok(())
}
