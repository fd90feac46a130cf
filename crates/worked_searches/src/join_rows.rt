//! What is asked of one candidate of a search, worked out by hand.
ghost use Rattle.std.specs.Prelude.{◌≡◌, ◌≤◌, length};
ghost use Rattle.flux_model.specs.Tree.{BelongsTo};

use flux_model::{Mode, Partial, Pattern, Steps, Tally};
use graph_traits::ReadGraph;
use nontree_test::{earlier, free, joins, label_numbers};
use query_tree::QueryTree;
use std::alloc::Global;
use std::test::Fail;
use worked_parts::shapes::{HOOK, TRIANGLE};
use worked_parts::{Unmade, block_graph_of, first, graph_of, patterns_of, tree_of, triple_of};

/// A vertex of the pattern with an id.
type Given = (usize, u32);

/// A vertex that has an id, a candidate beside it, whether it joins, and how many steps tell that.
type Case = (Given, Given, bool, u64);

/// Candidates of a pattern over a graph.
#[derive(Clone, Copy)]
struct Row {
    graph: &'static str,
    pattern: &'static str,
    /// The cards by which the tree is chosen.
    edges: &'static [u64],
    vertices: &'static [u64],
    cases: &'static [Case],
}

const ROWS: [Row; 2] = [
    // The edge 0 -> 1 is left out.
    Row {
        graph: "v 1\nv 2\nv 3\ne 1 2 r\ne 3 1 r",
        pattern: TRIANGLE,
        edges: &[2, 1, 1],
        vertices: &[3, 3, 3],
        cases: &[
            ((0, 1), (1, 2), true, 1),
            ((0, 1), (1, 3), false, 1),
            ((1, 2), (0, 1), true, 1),
            ((1, 2), (0, 3), false, 1),
            // Vertex 2 is no end of the edge.
            ((0, 1), (2, 2), true, 0),
            // The other end has no id.
            ((2, 1), (1, 3), true, 0),
            ((2, 1), (0, 3), true, 0),
        ],
    },
    // The edge 1 -> 1 is left out. A loop is asked of its vertex alone.
    Row {
        graph: "v 1\nv 2\nv 3\ne 1 2 r\ne 2 2 r",
        pattern: HOOK,
        edges: &[2, 1],
        vertices: &[2, 2],
        cases: &[
            ((0, 1), (1, 2), true, 1),
            ((0, 1), (1, 1), false, 1),
            ((1, 1), (0, 1), true, 0),
        ],
    },
];

/// Whether what is told of one candidate is as it should be.
fn joins_as<G: ReadGraph<Tally>>(
    pattern: &Pattern,
    tree: &QueryTree,
    graph: &G,
    case: &Case,
) -> bool
    requires { BelongsTo pattern.now tree.now }
{
    let ((u, id), (w, x), answer, reads) = *case;
    let count = pattern.vertex_count();
    if u >= count || w >= count || u == w {
        return false;
    }
    let mut partial = Partial::new(count);
    partial.put(u, id);
    let numbers = label_numbers(pattern, graph);
    let mut steps = Steps::new(Tally::new());
    let joined = joins(pattern, tree, &numbers, &partial, w, x, graph, &mut steps);
    joined == answer && steps.ledger().read() == reads
}

/// Whether what is told of each candidate is as it should be.
fn joins_each<G: ReadGraph<Tally>>(
    pattern: &Pattern,
    tree: &QueryTree,
    graph: &G,
    cases: &[Case],
) -> bool
    requires { BelongsTo pattern.now tree.now }
{
    for i in 0..cases.len() {
        if !joins_as(pattern, tree, graph, &cases[i]) {
            return false;
        }
    }
    true
}

/// Whether what is told of the candidates of a row is as it should be, over a store of its graph.
fn is_right_over<G: ReadGraph<Tally>>(alloc: Global, graph: &G, row: &Row) -> Result<bool, Unmade> {
    let patterns = patterns_of(alloc, row.pattern)?;
    let pattern = first(&patterns)?;
    let tree = tree_of(alloc, pattern, row.edges, row.vertices)?;
    Ok(joins_each(pattern, &tree, graph, row.cases))
}

/// Whether it is so over the store of hashed triples.
fn is_right_in_labels(alloc: Global, row: &Row) -> Result<bool, Unmade> {
    let graph = graph_of(alloc, row.graph)?;
    is_right_over(alloc, &graph, row)
}

/// Whether it is so over the store of blocks.
fn is_right_in_blocks(alloc: Global, row: &Row) -> Result<bool, Unmade> {
    let graph = block_graph_of(alloc, row.graph)?;
    is_right_over(alloc, &graph, row)
}

/// How many rows, from the first on, are as they should be.
fn count_right(alloc: Global, rows: &[Row]) -> Result<usize, Unmade> {
    for i in 0..rows.len() {
        if !is_right_in_labels(alloc, &rows[i])? || !is_right_in_blocks(alloc, &rows[i])? {
            return Ok(i);
        }
    }
    Ok(rows.len())
}

#[test]
fn candidates_beside_a_given_id(rt: HostRuntime) -> Result<(), Fail> {
    assert_eq!(rt; count_right(rt.alloc(), &ROWS)?, ROWS.len());
    Ok(())
}

/// A mode, an id, and whether it may be given where 1 and 5 are.
const FREE: [(Mode, u32, bool); 5] = [
    (Mode::Hom, 5, true),
    (Mode::Hom, 4, true),
    (Mode::Iso, 1, false),
    (Mode::Iso, 5, false),
    (Mode::Iso, 4, true),
];

/// How many rows, from the first on, are told as they should be.
fn count_free_so(partial: &Partial, rows: &[(Mode, u32, bool)]) -> usize {
    for i in 0..rows.len() {
        let (mode, x, is_free) = rows[i];
        if free(mode, partial, x) != is_free {
            return i;
        }
    }
    rows.len()
}

#[test]
fn an_id_is_given_twice_in_mode_hom_alone(rt: HostRuntime) {
    let mut partial = Partial::new(3);
    partial.put(0, 1);
    partial.put(2, 5);
    assert_eq!(rt; count_free_so(&partial, &FREE), FREE.len());
}

/// A pattern, how many of its edges are looked at, a vertex that has an id, a candidate beside it, a triple of the label `r`,
/// and whether one of these edges is sent to it.
type Sent = (&'static str, usize, Given, Given, (u32, u32), bool);

const SENT: [Sent; 11] = [
    (TRIANGLE, 1, (0, 1), (1, 2), (1, 2), true),
    (TRIANGLE, 3, (1, 2), (0, 1), (1, 2), true),
    // The edge itself is not looked at.
    (TRIANGLE, 0, (0, 1), (1, 2), (1, 2), false),
    (TRIANGLE, 2, (2, 1), (0, 2), (1, 2), false),
    (TRIANGLE, 3, (2, 1), (0, 2), (1, 2), true),
    // It is sent elsewhere, or the other way round.
    (TRIANGLE, 3, (0, 1), (1, 3), (1, 2), false),
    (TRIANGLE, 3, (0, 1), (1, 2), (2, 1), false),
    // The other end of each edge has no id, or the candidate is no end of the edge.
    (TRIANGLE, 1, (2, 2), (0, 1), (1, 2), false),
    (TRIANGLE, 1, (0, 1), (2, 2), (1, 2), false),
    // A loop is sent with its vertex alone.
    (HOOK, 2, (0, 5), (1, 1), (1, 1), true),
    (HOOK, 1, (0, 5), (1, 1), (1, 1), false),
];

/// Whether such a triple of this label is told to be sent.
fn is_sent(
    alloc: Global,
    pattern: &Pattern,
    number: usize,
    partial: &Partial,
    given: Given,
    ends: (u32, u32),
    label: &'static str,
) -> Result<bool, Unmade>
    requires edges { number ≤ length pattern.now.edges }
    requires places { length partial.now ≡ length pattern.now.labels }
{
    let triple = triple_of(alloc, (ends.0, label, ends.1))?;
    Ok(earlier(pattern, number, partial, given.0, given.1, &triple))
}

/// Whether it is told as it should be whether an edge is sent, and none is sent to the triple of another label.
fn is_sent_so(alloc: Global, row: &Sent) -> Result<bool, Unmade> {
    let (text, number, (u, id), given, ends, answer) = *row;
    let patterns = patterns_of(alloc, text)?;
    let pattern = first(&patterns)?;
    if number > pattern.edge_count() || u >= pattern.vertex_count() {
        return Ok(false);
    }
    let mut partial = Partial::new(pattern.vertex_count());
    partial.put(u, id);
    let sent = is_sent(alloc, pattern, number, &partial, given, ends, "r")?;
    let other = is_sent(alloc, pattern, number, &partial, given, ends, "s")?;
    Ok(sent == answer && !other)
}

/// How many rows, from the first on, are told as they should be.
fn count_sent_so(alloc: Global, rows: &[Sent]) -> Result<usize, Unmade> {
    for i in 0..rows.len() {
        if !is_sent_so(alloc, &rows[i])? {
            return Ok(i);
        }
    }
    Ok(rows.len())
}

#[test]
fn edges_of_a_lower_number_that_are_sent(rt: HostRuntime) -> Result<(), Fail> {
    assert_eq!(rt; count_sent_so(rt.alloc(), &SENT)?, SENT.len());
    Ok(())
}
