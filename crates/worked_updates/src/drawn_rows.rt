//! Many changes of small graphs that are drawn, and the states after each beside those that are built anew.
ghost use Rattle.std.specs.Prelude.{◌≡◌, ◌<◌, length, false};
ghost use Rattle.flux_model.specs.Exact.{IsExact};
ghost use Rattle.flux_model.specs.Tree.{BelongsTo};

use crate::changes::make;
use dcg_store::Dcg;
use dcg_transition::build;
use flux_model::{Labels, Ledger, Pattern, Silent, Steps, Tally, Text, Triple, Update};
use graph_traits::{KeepGraph, ReadGraph};
use query_tree::QueryTree;
use std::alloc::{AllocError, Global};
use std::test::Fail;
use worked_parts::shapes::{BOTH, CHAIN, HOOK, RING, TRIANGLE};
use worked_parts::{Unmade, block_graph_of, first, graph_of, patterns_of, tree_of};

/// How many changes are drawn for a row, and how many of them have to be accepted.
const CHANGES: usize = 800;

const LEAST_MADE: usize = 100;

/// The ids are 1 to this.
const IDS: u32 = 6;

/// The graph before the first change.
const GRAPH: &str = "v 1 A\nv 2 B\nv 3 A B\nv 4\nv 5 A\nv 6 B";

/// A pattern over a graph, in which changes are drawn.
#[derive(Clone, Copy)]
struct Row {
    pattern: &'static str,
    /// The cards by which the tree is chosen.
    edges: &'static [u64],
    vertices: &'static [u64],
    /// Of eight triples that come or go, how many come.
    insertions: u32,
    /// Where the numbers begin.
    seed: u32,
}

/// Two edges from the root and one to it, all of one label.
const FORK: &str = "p fork hom\nv 0\nv 1 A\nv 2 B\nv 3\ne 0 1 r\ne 0 2 r\ne 3 0 r";

/// Four vertices in a row, the edges of which have one label and lead there and back.
const ZIGZAG: &str = "p zigzag hom\nv 0\nv 1 A\nv 2\nv 3\ne 0 1 r\ne 2 1 r\ne 2 3 r";

/// A square, one edge of which is left out of each tree.
const SQUARE: &str = "p square hom\nv 0 A\nv 1\nv 2\nv 3 B\ne 0 1 r\ne 1 2 s\ne 3 2 r\ne 3 0 s";

/// Two edges of one label, there and back, one of which is left out of each tree.
const BACK: &str = "p back iso\nv 0\nv 1\ne 0 1 r\ne 1 0 r";

const ROWS: [Row; 12] = [
    Row {
        pattern: CHAIN,
        edges: &[0, 1],
        vertices: &[1, 1, 1],
        insertions: 1,
        seed: 1,
    },
    Row {
        pattern: CHAIN,
        edges: &[1, 0],
        vertices: &[1, 1, 1],
        insertions: 2,
        seed: 2,
    },
    Row {
        pattern: CHAIN,
        edges: &[1, 0],
        vertices: &[1, 2, 1],
        insertions: 1,
        seed: 3,
    },
    Row {
        pattern: TRIANGLE,
        edges: &[2, 1, 1],
        vertices: &[1, 1, 1],
        insertions: 2,
        seed: 4,
    },
    Row {
        pattern: HOOK,
        edges: &[1, 1],
        vertices: &[1, 1],
        insertions: 1,
        seed: 5,
    },
    Row {
        pattern: RING,
        edges: &[1],
        vertices: &[1],
        insertions: 3,
        seed: 6,
    },
    Row {
        pattern: BOTH,
        edges: &[0, 1],
        vertices: &[2, 1],
        insertions: 2,
        seed: 7,
    },
    Row {
        pattern: FORK,
        edges: &[1, 1, 1],
        vertices: &[1, 2, 2, 2],
        insertions: 2,
        seed: 8,
    },
    Row {
        pattern: FORK,
        edges: &[1, 0, 2],
        vertices: &[2, 1, 1, 1],
        insertions: 3,
        seed: 9,
    },
    Row {
        pattern: ZIGZAG,
        edges: &[0, 1, 2],
        vertices: &[1, 2, 1, 1],
        insertions: 1,
        seed: 10,
    },
    Row {
        pattern: SQUARE,
        edges: &[1, 2, 0, 3],
        vertices: &[1, 1, 1, 1],
        insertions: 2,
        seed: 11,
    },
    Row {
        pattern: BACK,
        edges: &[0, 1],
        vertices: &[1, 1],
        insertions: 3,
        seed: 12,
    },
];

/// Numbers that follow one another by a linear congruence.
#[derive(Drop)]
struct Draw {
    number: u32,
}

impl Draw {
    /// A number below `most`, by the upper half of the next number.
    fn below(&mut self, most: u32) -> u32
        requires { 0 < most }
        ensures { result < most }
    {
        self.number = self.number.wrapping_mul(1664525).wrapping_add(1013904223);
        (self.number >> 16) % most
    }
}

/// The set of labels of this number: none, `A`, `B` or both.
fn labels_of(alloc: Global, number: u32) -> Result<Labels, AllocError> {
    let mut labels = Labels::new(alloc);
    if number % 2 == 1 {
        labels.add(Text::from_bytes(alloc, b"A")?)?;
    }
    if number / 2 == 1 {
        labels.add(Text::from_bytes(alloc, b"B")?)?;
    }
    Ok(labels)
}

/// A triple of the label `r` or, one time in three, of `s`.
fn draw_triple(alloc: Global, draw: &mut Draw) -> Result<Triple, AllocError> {
    let src = 1 + draw.below(IDS);
    let dst = 1 + draw.below(IDS);
    let label = if draw.below(3) == 0 {
        Text::from_bytes(alloc, b"s")?
    } else {
        Text::from_bytes(alloc, b"r")?
    };
    Ok(Triple { src, label, dst })
}

/// A change: of twelve, two are vertices that come and two are vertices that go, and so many of the others are triples that come.
fn draw_update(alloc: Global, draw: &mut Draw, insertions: u32) -> Result<Update, AllocError> {
    let kind = draw.below(12);
    if kind < 2 {
        let id = 1 + draw.below(IDS);
        let labels = labels_of(alloc, draw.below(4))?;
        return Ok(Update::AddVertex { id, labels });
    }
    if kind < 4 {
        let id = 1 + draw.below(IDS);
        return Ok(Update::DropVertex { id });
    }
    let triple = draw_triple(alloc, draw)?;
    if kind - 4 < insertions {
        Ok(Update::AddEdge(triple))
    } else {
        Ok(Update::DropEdge(triple))
    }
}

/// Whether the two have as many rows, and for each of so many pattern vertices the same states and as many explicit pairs.
fn are_same(one: &Dcg, other: &Dcg, count: usize) -> bool
    requires one_whole { one.now.is_broken ≡ false }
    requires other_whole { other.now.is_broken ≡ false }
    requires one_vertices { length one.now.children ≡ count }
    requires other_vertices { length other.now.children ≡ count }
{
    if one.stored() != other.stored() {
        return false;
    }
    for u in 0..count {
        if one.live_count(u) != other.live_count(u) || !are_same_at(one, other, u) {
            return false;
        }
    }
    true
}

/// Whether the two have the same states at a pattern vertex.
fn are_same_at(one: &Dcg, other: &Dcg, u: usize) -> bool
    requires one_whole { one.now.is_broken ≡ false }
    requires other_whole { other.now.is_broken ≡ false }
    requires one_vertex { u < length one.now.children }
    requires other_vertex { u < length other.now.children }
{
    let mut steps = Steps::new(Silent);
    for v in 0..IDS + 1 {
        if one.pair_state(u, v, &mut steps) != other.pair_state(u, v, &mut steps) {
            return false;
        }
    }
    true
}

/// Whether the states are those that are built anew.
fn is_as_built<G: ReadGraph<L>, L: Ledger>(
    alloc: Global,
    pattern: &Pattern,
    tree: &QueryTree,
    dcg: &Dcg,
    graph: &G,
    steps: &mut Steps<L>,
) -> Result<bool, AllocError>
    requires belongs { BelongsTo pattern.now tree.now }
    requires exact { IsExact pattern.now tree.now (G.graph graph.now) dcg.now }
{
    let built = build(alloc, pattern, tree, graph, steps)?;
    Ok(are_same(dcg, &built, tree.vertex_count()))
}

/// How many changes are accepted, or none where the states are at fault after one of them.
fn count_made<G: KeepGraph + ReadGraph<L>, L: Ledger>(
    alloc: Global,
    pattern: &Pattern,
    tree: &QueryTree,
    dcg: &mut Dcg,
    graph: &mut G,
    row: &Row,
    steps: &mut Steps<L>,
) -> Result<usize, AllocError>
    requires belongs { BelongsTo pattern.now tree.now }
    requires was { IsExact pattern.now tree.now (G.graph graph.old) dcg.old }
{
    let mut draw = Draw { number: row.seed };
    let mut made: usize = 0;
    for _ in 0..CHANGES {
        let update = draw_update(alloc, &mut draw, row.insertions)?;
        if make(pattern, tree, dcg, graph, &update, steps)?.is_ok() {
            made = made.saturating_add(1);
        }
        if !is_as_built(alloc, pattern, tree, dcg, graph, steps)? {
            return Ok(0);
        }
    }
    Ok(made)
}

/// Whether the states are those that are built anew after each change of a row, over a store of the graph before the first.
fn is_right_over<G: KeepGraph + ReadGraph<Tally>>(
    alloc: Global,
    graph: &mut G,
    row: &Row,
) -> Result<bool, Unmade> {
    let patterns = patterns_of(alloc, row.pattern)?;
    let pattern = first(&patterns)?;
    let tree = tree_of(alloc, pattern, row.edges, row.vertices)?;
    let mut steps = Steps::new(Tally::new());
    let mut dcg = build(alloc, pattern, &tree, graph, &mut steps)?;
    let made = count_made(alloc, pattern, &tree, &mut dcg, graph, row, &mut steps)?;
    Ok(made >= LEAST_MADE)
}

/// Whether it is so over the store of hashed triples.
fn is_right_in_labels(alloc: Global, row: &Row) -> Result<bool, Unmade> {
    let mut graph = graph_of(alloc, GRAPH)?;
    is_right_over(alloc, &mut graph, row)
}

/// Whether it is so over the store of blocks.
fn is_right_in_blocks(alloc: Global, row: &Row) -> Result<bool, Unmade> {
    let mut graph = block_graph_of(alloc, GRAPH)?;
    is_right_over(alloc, &mut graph, row)
}

/// How many rows, from the first on, are as they should be.
fn count_right(alloc: Global, rows: &[Row]) -> Result<usize, Unmade> {
    for i in 0..rows.len() {
        if !is_right_in_labels(alloc, &rows[i])? || !is_right_in_blocks(alloc, &rows[i])? {
            return Ok(i);
        }
    }
    Ok(rows.len())
}

#[test]
fn states_after_changes_that_are_drawn(rt: HostRuntime) -> Result<(), Fail> {
    assert_eq!(rt; count_right(rt.alloc(), &ROWS)?, ROWS.len());
    Ok(())
}
