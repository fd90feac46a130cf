//! Lines of a session, and how many steps they may take.
use flux_model::{Limits, Line, Silent, Steps, Tally};
use graph_traits::HoldGraph;
use label_graph::LabelGraph;
use line_words::{start_line, write_number, write_word};
use std::alloc::Global;
use std::test::Fail;
use watch_core::{Session, take_graph_line};
use worked_parts::{Unmade, graph_of, patterns_of};

/// The degree of the vertex in the middle of a star.
const MANY: u64 = 10_000;

/// A graph.
#[derive(Clone, Copy)]
enum Start {
    /// The graph of a file.
    Text(&'static str),
    /// Vertices from 0 to `MANY`, and an edge of the label `s` from 0 to each other one: the label of 0, and that of the others.
    Star(&'static str, &'static str),
}

/// A line of a session, the block that is due for it, and how many steps it may take.
#[derive(Clone, Copy)]
struct Row {
    graph: Start,
    patterns: &'static str,
    line: &'static str,
    block: &'static str,
    most: u64,
}

const ROWS: [Row; 6] = [
    // No pattern has the label: the two steps of a line alone.
    Row {
        graph: Start::Star("", ""),
        patterns: "p path hom\nv 0\nv 1\nv 2\ne 0 1 s\ne 1 2 s\np ipath iso\nv 0\nv 1\nv 2\ne 0 1 s\ne 1 2 s\np loop hom\nv 0\ne 0 0 s",
        line: "e 0 1 z",
        block: "",
        most: 2,
    },
    // The edge fits no pattern edge, so no state moves: two steps, four for the pattern edge of its label, and two of the search from it.
    Row {
        graph: Start::Star("A", "B"),
        patterns: "p ac hom\nv 0 A\nv 1 C\ne 0 1 s",
        line: "e 1 0 s",
        block: "",
        most: 2 + 4 + 2,
    },
    // Both ends move, each of degree 1: 16 steps for each of the two pattern vertices, the two pairs, and the two turns of each. The search
    // from the edge reads no row: 5 steps for each of the two pairs, and for nothing more, times 2.
    Row {
        graph: Start::Text("v 1 A\nv 2 B"),
        patterns: "p ab hom\nv 0 A\nv 1 B\ne 0 1 r",
        line: "e 1 2 r",
        block: "+ 1 ab 1 2\n",
        most: 2 + 4 + 16 * 2 * 4 + 5 * 4,
    },
    // A refused line, and one that says nothing.
    Row {
        graph: Start::Text("v 0\nv 1\nv 2\ne 0 1 s\ne 0 2 s"),
        patterns: "p path hom\nv 0\nv 1\nv 2\ne 0 1 s\ne 1 2 s",
        line: "-e 1 0 s",
        block: "! 1 absent\n",
        most: 2,
    },
    Row {
        graph: Start::Text("v 0\nv 1\nv 2\ne 0 1 s\ne 0 2 s"),
        patterns: "p path hom\nv 0\nv 1\nv 2\ne 0 1 s\ne 1 2 s",
        line: "# s",
        block: "",
        most: 2,
    },
    // A vertex, for two patterns: two steps, and four for each.
    Row {
        graph: Start::Text("v 0 A\nv 1 B\ne 0 1 s"),
        patterns: "p one hom\nv 0 A\np ab hom\nv 0 A\nv 1 B\ne 0 1 s",
        line: "v 20000 A",
        block: "+ 1 one 20000\n",
        most: 2 + 4 * 2,
    },
];

/// Takes a line of a graph file.
fn takes(alloc: Global, graph: &mut LabelGraph, line: &[u8]) -> Result<(), Unmade> {
    match take_graph_line(alloc, graph, &Line::Held(line))? {
        Ok(()) => Ok(()),
        Err(code) => Err(Unmade::Refused(code)),
    }
}

/// A star.
fn star(alloc: Global, middle: &str, others: &str) -> Result<LabelGraph, Unmade> {
    let mut graph = LabelGraph::new(alloc, &Limits::standard());
    for k in 0..=MANY {
        let mut line = Vec::new(alloc);
        start_line(b'v', k, &mut line)?;
        let label = if k == 0 { middle } else { others };
        write_word(label.as_bytes(), &mut line)?;
        takes(alloc, &mut graph, line.as_slice())?;
    }
    for k in 1..=MANY {
        let mut line = Vec::new(alloc);
        start_line(b'e', 0, &mut line)?;
        write_number(k, &mut line)?;
        write_word(b"s", &mut line)?;
        takes(alloc, &mut graph, line.as_slice())?;
    }
    Ok(graph)
}

/// The graph of a row.
fn graph_at(alloc: Global, start: Start) -> Result<LabelGraph, Unmade> {
    match start {
        Start::Text(text) => graph_of(alloc, text),
        Start::Star(middle, others) => star(alloc, middle, others),
    }
}

/// Whether the line of a row has its block, and takes no more steps than it may.
fn is_right(alloc: Global, row: &Row) -> Result<bool, Unmade> {
    let graph = graph_at(alloc, row.graph)?;
    let patterns = patterns_of(alloc, row.patterns)?;
    let mut session = Session::start(alloc, graph, patterns, &mut Steps::new(Silent))?;
    let mut report = Vec::new(alloc);
    let mut steps = Steps::new(Tally::new());
    session.line(&Line::Held(row.line.as_bytes()), &mut report, &mut steps)?;
    Ok(report.as_slice() == row.block.as_bytes() && steps.ledger().read() <= row.most)
}

/// How many rows, from the first on, are as they should be.
fn count_right(alloc: Global, rows: &[Row]) -> Result<usize, Unmade> {
    for i in 0..rows.len() {
        if !is_right(alloc, &rows[i])? {
            return Ok(i);
        }
    }
    Ok(rows.len())
}

#[test]
fn lines_stay_within_their_costs(rt: HostRuntime) -> Result<(), Fail> {
    assert_eq!(rt; count_right(rt.alloc(), &ROWS)?, ROWS.len());
    Ok(())
}
