//! Registries, worked out by hand.
ghost use Rattle.std.specs.Prelude.{◌≡◌, ◌<◌, length, false};
ghost use Rattle.pattern_registry.specs.States.{AreExact};

use flux_model::{Deltas, Ledger, Steps, Tally};
use graph_traits::ReadGraph;
use pattern_registry::Registry;
use std::alloc::{AllocError, Global};
use std::test::Fail;
use worked_parts::shapes::{LABELLED_CHAIN, TRIANGLE};
use worked_parts::{Unmade, are_maps, block_graph_of, graph_of, patterns_of};

/// A pattern, and the lists of ids that it gains, in ascending order.
type Gained = (usize, &'static [&'static [u32]]);

/// A registry of patterns over a graph.
#[derive(Clone, Copy)]
struct Row {
    graph: &'static str,
    patterns: &'static str,
    /// The root of the tree of each pattern, and how many rows are kept of it.
    kept: &'static [(usize, u64)],
    /// The patterns that have embeddings, with these.
    answers: &'static [Gained],
}

const CIRCLE: &str = "v 1\nv 2\nv 3\ne 1 2 r\ne 2 3 r\ne 3 1 r";

/// Three patterns, of which the first and the last have a root with the label `A` alone, and the other one a root with `B`.
const TWO_ROOTS: &str =
    "p from hom\nv 0 A\nv 1\ne 0 1 r\np end hom\nv 0 B\np to hom\nv 0\nv 1 A\ne 0 1 r";

const ROWS: [Row; 5] = [
    // A triangle is answered in three turns.
    Row {
        graph: CIRCLE,
        patterns: TRIANGLE,
        kept: &[(0, 9)],
        answers: &[(0, &[&[1, 2, 3], &[2, 3, 1], &[3, 1, 2]])],
    },
    // An empty graph has no answer.
    Row {
        graph: "",
        patterns: TRIANGLE,
        kept: &[(0, 0)],
        answers: &[],
    },
    // A pattern without an embedding is left out.
    Row {
        graph: CIRCLE,
        patterns: "p ring hom\nv 0\ne 0 0 r\np tri hom\nv 0\nv 1\nv 2\ne 0 1 r\ne 1 2 r\ne 2 0 r",
        kept: &[(0, 3), (0, 9)],
        answers: &[(1, &[&[1, 2, 3], &[2, 3, 1], &[3, 1, 2]])],
    },
    // A chain begins at the end of its rarer edge.
    Row {
        graph: "v 1 A\nv 2 B\nv 3 C\ne 1 2 r",
        patterns: LABELLED_CHAIN,
        kept: &[(1, 2)],
        answers: &[],
    },
    // Patterns whose roots have the same labels have rows of their own, whatever pattern stands between them.
    Row {
        graph: "v 1 A\nv 2 A B\nv 3 B\ne 1 2 r\ne 2 3 r",
        patterns: TWO_ROOTS,
        kept: &[(0, 4), (0, 2), (1, 3)],
        answers: &[
            (0, &[&[1, 2], &[2, 3]]),
            (1, &[&[2], &[3]]),
            (2, &[&[1, 2]]),
        ],
    },
];

/// Whether the registry of a row keeps and answers what it should, over a store of its graph.
fn is_right_over<G: ReadGraph<Tally>>(alloc: Global, graph: &G, row: &Row) -> Result<bool, Unmade> {
    let patterns = patterns_of(alloc, row.patterns)?;
    let mut steps = Steps::new(Tally::new());
    let registry = Registry::start(alloc, patterns, graph, &mut steps)?;
    Ok(answers_so(&registry, graph, row.answers, &mut steps)? && keeps(&registry, row.kept))
}

/// Whether it is so over the store of hashed triples.
fn is_right_in_labels(alloc: Global, row: &Row) -> Result<bool, Unmade> {
    let graph = graph_of(alloc, row.graph)?;
    is_right_over(alloc, &graph, row)
}

/// Whether it is so over the store of blocks.
fn is_right_in_blocks(alloc: Global, row: &Row) -> Result<bool, Unmade> {
    let graph = block_graph_of(alloc, row.graph)?;
    is_right_over(alloc, &graph, row)
}

/// Whether the registry answers this.
fn answers_so<G: ReadGraph<L>, L: Ledger>(
    registry: &Registry,
    graph: &G,
    due: &[Gained],
    steps: &mut Steps<L>,
) -> Result<bool, AllocError>
    requires { AreExact registry.now (G.graph graph.now) }
{
    let mut answers = registry.answers(graph, steps)?;
    answers.sort()?;
    Ok(are_answers(&answers, due))
}

/// Whether the registry keeps these trees and rows.
fn keeps(registry: &Registry, kept: &[(usize, u64)]) -> bool {
    if registry.is_broken() || registry.patterns().count() != kept.len() {
        return false;
    }
    for k in 0..kept.len() {
        let (root, stored) = kept[k];
        if !keeps_at(registry, k, root, stored) {
            return false;
        }
    }
    true
}

/// Whether the registry keeps a tree with this root, and so many rows, of the pattern at place `k`.
fn keeps_at(registry: &Registry, k: usize, root: usize, stored: u64) -> bool
    requires whole { registry.now.is_broken ≡ false }
    requires pattern { k < length registry.now.patterns }
{
    registry.tree(k).root() == root && registry.stored(k) == stored && !registry.dcg(k).is_broken()
}

/// Whether these are gained, and nothing is lost.
fn are_answers(deltas: &Deltas, answers: &[Gained]) -> bool {
    if deltas.len() != answers.len() {
        return false;
    }
    for i in 0..answers.len() {
        let (pattern, gained) = answers[i];
        let delta = deltas.get(i);
        if delta.pattern != pattern || delta.lost.len() != 0 {
            return false;
        }
        if !are_maps(&delta.gained, gained) {
            return false;
        }
    }
    true
}

/// How many rows, from the first on, are as they should be.
fn count_right(alloc: Global, rows: &[Row]) -> Result<usize, Unmade> {
    for i in 0..rows.len() {
        if !is_right_in_labels(alloc, &rows[i])? || !is_right_in_blocks(alloc, &rows[i])? {
            return Ok(i);
        }
    }
    Ok(rows.len())
}

#[test]
fn registries_of_patterns(rt: HostRuntime) -> Result<(), Fail> {
    assert_eq!(rt; count_right(rt.alloc(), &ROWS)?, ROWS.len());
    Ok(())
}
