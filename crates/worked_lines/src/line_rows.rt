//! Lines of a graph file and what they make of a store, lines of the updates and what they come to, worked out by hand.
ghost use Rattle.std.specs.Prelude.{◌≡◌, codes, IfOk};

use flux_model::{
    Code, Deltas, Labels, Ledger, Limits, Line, Map, Maps, Mode, Pattern, PatternEdge, Patterns,
    Silent, Steps, Text,
};
use graph_traits::KeepGraph;
use label_graph::{HoldGraph, LabelGraph, ReadGraph};
use std::alloc::{AllocError, Global};
use std::test::Fail;
use watch_core::{Session, Taken, take_graph_line};

/// A line of a graph file, and what it is to be answered.
type Answered = (Line<'static>, Result<(), Code>);

/// How many lines, from the first on, are answered as they should be.
fn count_right<G: KeepGraph>(
    alloc: Global,
    graph: &mut G,
    lines: &[Answered],
) -> Result<usize, AllocError> {
    for i in 0..lines.len() {
        let (line, answer) = lines[i];
        if take_graph_line(alloc, graph, &line)? != answer {
            return Ok(i);
        }
    }
    Ok(lines.len())
}

/// Whether the labels are `A` and `B`.
fn are_two(labels: &Labels) -> bool {
    labels.len() == 2
        && labels.get(0).bytes() == b"A".as_slice()
        && labels.get(1).bytes() == b"B".as_slice()
}

/// Whether the graph has the vertices 1, and 2 with the labels `A` and `B`, and the edge `r` from 2 to 1 alone.
fn has_one_edge<G: ReadGraph<L>, L: Ledger>(graph: &G, label: &Text, steps: &mut Steps<L>) -> bool {
    if !graph.has_vertex(2, steps) {
        return false;
    }
    are_two(graph.labels_of(2, steps))
        && graph.has_vertex(1, steps)
        && graph.vertex_count() == 2
        && graph.edge_count() == 1
        && graph.has_edge(2, label, 1, steps)
}

const ACCEPTED: [Answered; 7] = [
    (Line::Held(b"v 2 B A A"), Ok(())),
    (Line::Held(b""), Ok(())),
    (Line::Held(b" \t"), Ok(())),
    (Line::Held(b"# v 3"), Ok(())),
    (Line::Held(b"v 1"), Ok(())),
    (Line::Held(b"e 2 1 r"), Ok(())),
    (Line::Held(b"e 2 1 r"), Ok(())),
];

const REFUSED: [Answered; 6] = [
    (Line::Held(b"v 2"), Err(Code::Exists)),
    (Line::Held(b"e 1 9 r"), Err(Code::NoVertex)),
    (Line::Held(b"x"), Err(Code::Word)),
    (Line::Held(b"v 2 B"), Err(Code::Exists)),
    (Line::Held(b"v 4294967296"), Err(Code::Number)),
    (Line::Long, Err(Code::Long)),
];

#[test]
fn lines_of_a_graph_file(rt: HostRuntime) -> Result<(), Fail> {
    let alloc = rt.alloc();
    let mut steps = Steps::new(Silent);
    let label = Text::from_bytes(alloc, b"r")?;
    let mut graph = LabelGraph::new(alloc, &Limits::standard());
    let accepted = count_right(alloc, &mut graph, &ACCEPTED)? == ACCEPTED.len();
    let refused = count_right(alloc, &mut graph, &REFUSED)? == REFUSED.len();
    assert!(rt; accepted && refused && has_one_edge(&graph, &label, &mut steps));
    Ok(())
}

/// Lists of ids.
type Lists = &'static [&'static [u32]];

/// What a line of the updates is to come to.
#[derive(Clone, Copy)]
enum Due {
    Ignored,
    Refused(Code),
    /// No pattern gains or loses.
    Unseen,
    /// The pattern at this place alone gains and loses these.
    Seen(usize, Lists, Lists),
}

/// Lines of the updates, one behind the other, where the patterns are a vertex alone, and an edge `r`.
const UPDATES: [(&[u8], Due); 12] = [
    (b"v 1", Due::Seen(0, &[&[1]], &[])),
    (b"v 2 A", Due::Seen(0, &[&[2]], &[])),
    (b"# e 1 2 r", Due::Ignored),
    (b"e 1 2 r", Due::Seen(1, &[&[1, 2]], &[])),
    (b"e 1 2 r", Due::Refused(Code::Exists)),
    (b"e 2 2 r", Due::Seen(1, &[&[2, 2]], &[])),
    (b"e 2 1 s", Due::Unseen),
    (b"", Due::Ignored),
    (b"-e 1 2 r", Due::Seen(1, &[], &[&[1, 2]])),
    (b"e 1 9 r", Due::Refused(Code::NoVertex)),
    (b"-v 1", Due::Refused(Code::Busy)),
    (b"x", Due::Refused(Code::Word)),
];

/// A vertex alone.
fn dot(alloc: Global) -> Result<Pattern, AllocError>
    ensures { IfOk result (λ pattern. pattern.name ≡ codes "dot") }
{
    let name = Text::from_bytes(alloc, b"dot")?;
    let labels = vec![in alloc; Labels::new(alloc)]?;
    Ok(Pattern::new(name, Mode::Hom, labels, Vec::new(alloc)))
}

/// An edge `r` from one vertex to another.
fn arc(alloc: Global) -> Result<Pattern, AllocError>
    ensures { IfOk result (λ pattern. pattern.name ≡ codes "arc") }
{
    let name = Text::from_bytes(alloc, b"arc")?;
    let label = Text::from_bytes(alloc, b"r")?;
    let labels = vec![in alloc; Labels::new(alloc), Labels::new(alloc)]?;
    let edges = vec![in alloc;
        PatternEdge {
            tail: 0,
            label,
            head: 1
        },
    ]?;
    Ok(Pattern::new(name, Mode::Hom, labels, edges))
}

/// Whether the map is this list of ids.
fn is_map(map: &Map, ids: &[u32]) -> bool {
    if map.len() != ids.len() {
        return false;
    }
    for u in 0..ids.len() {
        if map.get(u) != ids[u] {
            return false;
        }
    }
    true
}

/// Whether the maps are these lists of ids.
fn are_maps(maps: &Maps, lists: &[&[u32]]) -> bool {
    if maps.len() != lists.len() {
        return false;
    }
    for i in 0..lists.len() {
        if !is_map(maps.get(i), lists[i]) {
            return false;
        }
    }
    true
}

/// Whether the pattern at this place alone gains and loses these.
fn is_change(deltas: &Deltas, place: usize, gained: &[&[u32]], lost: &[&[u32]]) -> bool {
    if deltas.len() != 1 {
        return false;
    }
    let delta = deltas.get(0);
    delta.pattern == place && are_maps(&delta.gained, gained) && are_maps(&delta.lost, lost)
}

/// Whether this is what the line is to come to.
fn is_due(taken: &Taken, due: Due) -> bool {
    match (taken, due) {
        (Taken::Ignored, Due::Ignored) => true,
        (Taken::Refused(code), Due::Refused(other)) => *code == other,
        (Taken::Changed(deltas), Due::Unseen) => deltas.len() == 0,
        (Taken::Changed(deltas), Due::Seen(place, gained, lost)) => {
            is_change(deltas, place, gained, lost)
        }
        _ => false,
    }
}

/// Whether the session can take the line, and it comes to this.
fn takes<G: KeepGraph + ReadGraph<L>, L: Ledger>(
    session: &mut Session<G>,
    line: &Line<'_>,
    due: Due,
    steps: &mut Steps<L>,
) -> Result<bool, AllocError> {
    if session.is_broken() || session.lines() > 100 {
        return Ok(false);
    }
    let taken = session.take(line, steps)?;
    Ok(is_due(&taken, due))
}

/// How many lines, from the first on, come to what they should.
fn count_taken<G: KeepGraph + ReadGraph<L>, L: Ledger>(
    session: &mut Session<G>,
    lines: &[(&[u8], Due)],
    steps: &mut Steps<L>,
) -> Result<usize, AllocError> {
    for i in 0..lines.len() {
        let (line, due) = lines[i];
        if !takes(session, &Line::Held(line), due, steps)? {
            return Ok(i);
        }
    }
    Ok(lines.len())
}

/// Whether this is the session's end line.
fn has_end_line<G: KeepGraph>(
    alloc: Global,
    session: &Session<G>,
    line: &[u8],
) -> Result<bool, AllocError> {
    let mut report = Vec::new(alloc);
    session.end(&mut report)?;
    Ok(*report.as_slice() == *line)
}

#[test]
fn lines_that_are_taken(rt: HostRuntime) -> Result<(), Fail> {
    let alloc = rt.alloc();
    let graph = LabelGraph::new(alloc, &Limits::standard());
    let patterns = Patterns::new(vec![in alloc; dot(alloc)?, arc(alloc)?]?);
    let mut steps = Steps::new(Silent);
    let mut session = Session::start(alloc, graph, patterns, &mut steps)?;
    let taken = count_taken(&mut session, &UPDATES, &mut steps)?;
    assert!(rt; taken == UPDATES.len() && has_end_line(alloc, &session, b"= 12 6 4\n")?);
    Ok(())
}
