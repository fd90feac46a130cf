//! Calls of a store through the bounds of its traits, and whether they answer what is due.
use flux_model::{Code, Labels, Ledger, Steps, Text, Triple};
use graph_traits::{HoldGraph, KeepGraph, ReadGraph, Spot};
use std::alloc::{AllocError, Global};
use std::process::Abort;

/// What a change answers.
pub type Answer = Result<(), Code>;

/// A triple. Each label of these tests is one letter.
pub type Edge = (u32, u8, u32);

/// What a row has of a triple: its label and its other end.
pub type Seen = (u8, u32);

fn text(rt: &impl Abort, alloc: Global, letter: u8) -> Result<Text, AllocError> {
    let bytes = [letter];
    assert!(rt; Text::is_text(&bytes));
    Text::from_bytes(alloc, &bytes)
}

/// Adds one label.
fn add(rt: &impl Abort, labels: &mut Labels, label: Text) -> Result<(), AllocError> {
    assert!(rt; labels.len() < 16);
    labels.add(label)
}

fn labels(rt: &impl Abort, alloc: Global, letters: &[u8]) -> Result<Labels, AllocError> {
    let mut labels = Labels::new(alloc);
    for letter in letters {
        add(rt, &mut labels, text(rt, alloc, *letter)?)?;
    }
    Ok(labels)
}

fn triple(rt: &impl Abort, alloc: Global, (src, letter, dst): Edge) -> Result<Triple, AllocError> {
    let label = text(rt, alloc, letter)?;
    Ok(Triple { src, label, dst })
}

// ---- changes

pub(crate) fn adds_vertex<G: KeepGraph>(
    rt: &impl Abort,
    alloc: Global,
    graph: &mut G,
    (id, letters): (u32, &[u8]),
    due: Answer,
) -> Result<bool, AllocError> {
    let labels = labels(rt, alloc, letters)?;
    Ok(graph.add_vertex(id, &labels)? == due)
}

pub(crate) fn removes_vertex<G: KeepGraph>(graph: &mut G, id: u32, due: Answer) -> bool {
    graph.remove_vertex(id) == due
}

pub(crate) fn inserts<G: KeepGraph>(
    rt: &impl Abort,
    alloc: Global,
    graph: &mut G,
    edge: Edge,
    due: Answer,
) -> Result<bool, AllocError> {
    let triple = triple(rt, alloc, edge)?;
    Ok(graph.insert(&triple)? == due)
}

pub(crate) fn removes<G: KeepGraph>(
    rt: &impl Abort,
    alloc: Global,
    graph: &mut G,
    edge: Edge,
    due: Answer,
) -> Result<bool, AllocError> {
    let triple = triple(rt, alloc, edge)?;
    Ok(graph.remove(&triple) == due)
}

// ---- rows and ids

/// What was seen of a triple. A number that is not its label's counts as the label `?`.
fn seen<G: HoldGraph>(graph: &G, label: &Text, number: u32, other: u32) -> Seen {
    if graph.label_number(label) == Some(number) {
        (label.bytes()[0], other)
    } else {
        (b'?', other)
    }
}

/// The out row of a vertex; nothing where it is no vertex.
pub(crate) fn out_row<G: ReadGraph<L>, L: Ledger>(
    alloc: Global,
    graph: &G,
    v: u32,
    steps: &mut Steps<L>,
) -> Result<Vec<Seen>, AllocError> {
    let mut row = Vec::new(alloc);
    if !graph.has_vertex(v, steps) {
        return Ok(row);
    }
    let mut at: Spot = graph.out_row(v);
    while let Some(turn) = graph.out_at(v, at, steps) {
        at = turn.next;
        row.push(seen(graph, turn.label, turn.number, turn.other))?;
    }
    Ok(row)
}

/// The in row of a vertex; nothing where it is no vertex.
pub(crate) fn in_row<G: ReadGraph<L>, L: Ledger>(
    alloc: Global,
    graph: &G,
    v: u32,
    steps: &mut Steps<L>,
) -> Result<Vec<Seen>, AllocError> {
    let mut row = Vec::new(alloc);
    if !graph.has_vertex(v, steps) {
        return Ok(row);
    }
    let mut at: Spot = graph.in_row(v);
    while let Some(turn) = graph.in_at(v, at, steps) {
        at = turn.next;
        row.push(seen(graph, turn.label, turn.number, turn.other))?;
    }
    Ok(row)
}

/// Whether the row is this one, which is in ascending order. The order of a row is the store's own.
pub(crate) fn is_row(mut row: Vec<Seen>, due: &[Seen]) -> Result<bool, AllocError> {
    row.sort()?;
    Ok(*row.as_slice() == *due)
}

/// Whether the ids are these, in this order.
pub(crate) fn has_ids<G: ReadGraph<L>, L: Ledger>(
    graph: &G,
    due: &[u32],
    steps: &mut Steps<L>,
) -> bool {
    if graph.vertex_count() != due.len() as u64 {
        return false;
    }
    for i in 0..due.len() {
        if graph.vertex_at(i as u64, steps) != due[i] {
            return false;
        }
    }
    true
}

// ---- vertices and edges

/// Whether these are the numbers of vertices and of triples.
pub(crate) fn has_sizes<G: HoldGraph>(graph: &G, vertices: u64, edges: u64) -> bool {
    graph.vertex_count() == vertices && graph.edge_count() == edges
}

/// Whether the labels of the vertex are these, in this order.
pub(crate) fn has_labels<G: ReadGraph<L>, L: Ledger>(
    graph: &G,
    v: u32,
    letters: &[u8],
    steps: &mut Steps<L>,
) -> bool {
    if !graph.has_vertex(v, steps) {
        return false;
    }
    let labels = graph.labels_of(v, steps);
    if labels.len() != letters.len() {
        return false;
    }
    for i in 0..letters.len() {
        if labels.get(i).bytes() != &letters[i..i + 1] {
            return false;
        }
    }
    true
}

/// Whether the vertex has each of these labels; nothing where it is no vertex.
pub(crate) fn fits<G: ReadGraph<L>, L: Ledger>(
    rt: &impl Abort,
    alloc: Global,
    graph: &G,
    (v, letters): (u32, &[u8]),
    steps: &mut Steps<L>,
) -> Result<Option<bool>, AllocError> {
    let labels = labels(rt, alloc, letters)?;
    if graph.has_vertex(v, steps) {
        Ok(Some(graph.fits(v, &labels, steps)))
    } else {
        Ok(None)
    }
}

/// Whether these are the degrees of a vertex, out and in.
pub(crate) fn has_degrees<G: ReadGraph<L>, L: Ledger>(
    graph: &G,
    v: u32,
    (outs, ins): (u64, u64),
    steps: &mut Steps<L>,
) -> bool {
    graph.has_vertex(v, steps) && graph.out_degree(v) == outs && graph.in_degree(v) == ins
}

/// Whether the triple stands.
pub(crate) fn has_edge<G: ReadGraph<L>, L: Ledger>(
    rt: &impl Abort,
    alloc: Global,
    graph: &G,
    edge: Edge,
    steps: &mut Steps<L>,
) -> Result<bool, AllocError> {
    let triple = triple(rt, alloc, edge)?;
    Ok(graph.has_edge(triple.src, &triple.label, triple.dst, steps))
}

/// Whether the triple stands, by the number of its label; nothing where the label has none.
pub(crate) fn has_edge_by<G: ReadGraph<L>, L: Ledger>(
    rt: &impl Abort,
    alloc: Global,
    graph: &G,
    (src, letter, dst): Edge,
    steps: &mut Steps<L>,
) -> Result<Option<bool>, AllocError> {
    let label = text(rt, alloc, letter)?;
    match graph.label_number(&label) {
        Some(number) => Ok(Some(graph.has_edge_by(src, number, dst, steps))),
        None => Ok(None),
    }
}
