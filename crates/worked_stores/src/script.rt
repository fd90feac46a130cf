//! Scripts of calls, and what plays them.
use crate::calls;
use crate::calls::{Answer, Edge, Seen};
use crate::star::{Star, makes_star, takes_star};
use flux_model::{Steps, Tally};
use graph_traits::{KeepGraph, ReadGraph};
use std::alloc::{AllocError, Global};
use std::process::Abort;

/// A line of a script: calls of a store, with what they are due to answer. A read of a vertex first asks whether it is one.
#[derive(Clone, Copy)]
pub enum Line {
    /// A vertex with these labels.
    AddVertex(u32, &'static [u8], Answer),
    RemoveVertex(u32, Answer),
    Insert(Edge, Answer),
    Remove(Edge, Answer),
    /// How many vertices and triples there are.
    Sizes(u64, u64),
    /// The ids in the store's order.
    Ids(&'static [u32]),
    HasVertex(u32, bool),
    HasEdge(Edge, bool),
    /// Whether the triple stands by the number of its label, or nothing where the label has none.
    HasEdgeByLabel(Edge, Option<bool>),
    /// Whether the triple of these ends stands with the number in the middle.
    HasEdgeByNumber((u32, u32, u32), bool),
    /// The labels of a vertex, in ascending order.
    LabelsOf(u32, &'static [u8]),
    /// Whether a vertex has each of these labels.
    Fits(u32, &'static [u8], bool),
    /// How many triples begin at a vertex, and how many end there.
    Degrees(u32, u64, u64),
    /// The rows of a vertex, in ascending order. Each number in them has to be the label's.
    OutRow(u32, &'static [Seen]),
    InRow(u32, &'static [Seen]),
    /// How many steps the reads of the script have taken so far.
    Counted(u64),
    Seed(u64),
    /// The vertices of a star are added, and its edges.
    MakeStar(Star),
    /// The edges of the star are removed in its order, and its row is listed.
    TakeStar(Star),
}

/// Whether the reads of the line answer as it says.
fn reads<G: ReadGraph<Tally>>(
    rt: &impl Abort,
    alloc: Global,
    graph: &G,
    line: Line,
    steps: &mut Steps<Tally>,
) -> Result<bool, AllocError> {
    Ok(match line {
        Line::Sizes(vertices, edges) => calls::has_sizes(graph, vertices, edges),
        Line::Ids(due) => calls::has_ids(graph, due, steps),
        Line::HasVertex(v, due) => graph.has_vertex(v, steps) == due,
        Line::HasEdge(edge, due) => calls::has_edge(rt, alloc, graph, edge, steps)? == due,
        Line::HasEdgeByLabel(edge, due) => {
            calls::has_edge_by(rt, alloc, graph, edge, steps)? == due
        }
        Line::HasEdgeByNumber((src, number, dst), due) => {
            graph.has_edge_by(src, number, dst, steps) == due
        }
        Line::LabelsOf(v, letters) => calls::has_labels(graph, v, letters, steps),
        Line::Fits(v, letters, due) => {
            calls::fits(rt, alloc, graph, (v, letters), steps)? == Some(due)
        }
        Line::Degrees(v, outs, ins) => calls::has_degrees(graph, v, (outs, ins), steps),
        Line::OutRow(v, due) => calls::is_row(calls::out_row(alloc, graph, v, steps)?, due)?,
        Line::InRow(v, due) => calls::is_row(calls::in_row(alloc, graph, v, steps)?, due)?,
        Line::Counted(due) => steps.ledger().read() == due,
        Line::Seed(due) => graph.seed() == due,
        _ => false,
    })
}

/// Whether the calls of the line answer as it says.
fn answers<G: KeepGraph + ReadGraph<Tally>>(
    rt: &impl Abort,
    alloc: Global,
    graph: &mut G,
    line: Line,
    steps: &mut Steps<Tally>,
) -> Result<bool, AllocError> {
    match line {
        Line::AddVertex(id, letters, due) => {
            calls::adds_vertex(rt, alloc, graph, (id, letters), due)
        }
        Line::RemoveVertex(id, due) => Ok(calls::removes_vertex(graph, id, due)),
        Line::Insert(edge, due) => calls::inserts(rt, alloc, graph, edge, due),
        Line::Remove(edge, due) => calls::removes(rt, alloc, graph, edge, due),
        Line::MakeStar(star) => makes_star(rt, alloc, graph, star),
        Line::TakeStar(star) => takes_star(rt, alloc, graph, star, steps),
        line => reads(rt, alloc, graph, line, steps),
    }
}

/// Asserts that each line of a script answers as it says.
pub(crate) fn play<G: KeepGraph + ReadGraph<Tally>>(
    rt: &impl Abort,
    alloc: Global,
    graph: &mut G,
    (store, name): (&str, &str),
    script: &[Line],
) -> Result<(), AllocError> {
    let mut steps = Steps::new(Tally::new());
    for i in 0..script.len() {
        assert!(rt;
            answers(rt, alloc, graph, script[i], &mut steps)?,
            "{store}: {name}, line {i}"
        );
    }
    Ok(())
}
