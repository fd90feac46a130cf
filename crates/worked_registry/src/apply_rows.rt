//! Updates that a registry takes, worked out by hand.
ghost use Rattle.std.specs.Prelude.{OnOk};
ghost use Rattle.pattern_registry.specs.States.{AreExact};

use flux_model::{Code, Deltas, Ledger, Steps, Tally, Update};
use graph_traits::{KeepGraph, ReadGraph};
use pattern_registry::Registry;
use std::alloc::{AllocError, Global};
use std::test::Fail;
use worked_parts::shapes::TRIANGLE;
use worked_parts::{Unmade, are_maps, block_graph_of, graph_of, patterns_of, update_of};

/// Lists of ids, in ascending order.
type Lists = &'static [&'static [u32]];

/// A pattern, and what it gains and loses.
type Change = (usize, Lists, Lists);

/// A line of updates, and what the patterns gain and lose by it, or why it is refused.
type Turn = (&'static str, Result<&'static [Change], Code>);

/// A registry of patterns over a graph that changes line by line.
#[derive(Clone, Copy)]
struct Row {
    patterns: &'static str,
    graph: &'static str,
    turns: &'static [Turn],
}

const CIRCLE: &str = "v 1\nv 2\nv 3\ne 1 2 r\ne 2 3 r\ne 3 1 r";

/// One vertex of any labels, and one with the label `A`.
const LONE: &str = "p any hom\nv 0\np red iso\nv 0 A";

/// An edge of the label `r`, and two edges of the labels `r` and `s` between the same two vertices.
const ONE_AND_BOTH: &str = "p one hom\nv 0\nv 1\ne 0 1 r\np both hom\nv 0\nv 1\ne 0 1 r\ne 0 1 s";

const TURNS: Lists = &[&[1, 2, 3], &[2, 3, 1], &[3, 1, 2]];

const ROWS: [Row; 5] = [
    // A triangle comes and goes with its last edge, in three turns.
    Row {
        patterns: TRIANGLE,
        graph: "v 1\nv 2\nv 3\ne 1 2 r\ne 2 3 r",
        turns: &[
            ("e 3 1 r", Ok(&[(0, TURNS, &[])])),
            ("-e 3 1 r", Ok(&[(0, &[], TURNS)])),
        ],
    },
    // A vertex comes and goes as an embedding of each pattern of one vertex that it fits, and of no other.
    Row {
        patterns: LONE,
        graph: "v 1 A",
        turns: &[
            ("v 2 B", Ok(&[(0, &[&[2]], &[])])),
            ("v 3 B A", Ok(&[(0, &[&[3]], &[]), (1, &[&[3]], &[])])),
            ("e 2 3 r", Ok(&[])),
            ("-e 2 3 r", Ok(&[])),
            ("-v 3", Ok(&[(0, &[], &[&[3]]), (1, &[], &[&[3]])])),
            ("-v 2", Ok(&[(0, &[], &[&[2]])])),
        ],
    },
    // An edge whose label no pattern has brings nothing; a loop is a triangle of its own.
    Row {
        patterns: TRIANGLE,
        graph: CIRCLE,
        turns: &[
            ("e 1 2 s", Ok(&[])),
            ("e 1 1 r", Ok(&[(0, &[&[1, 1, 1]], &[])])),
            ("-e 1 2 s", Ok(&[])),
            ("-e 1 2 r", Ok(&[(0, &[], TURNS)])),
        ],
    },
    // A refusal changes nothing, so that the circle is still there to be opened.
    Row {
        patterns: TRIANGLE,
        graph: CIRCLE,
        turns: &[
            ("-e 1 3 r", Err(Code::Absent)),
            ("-e 1 2 s", Err(Code::Absent)),
            ("-e 1 9 r", Err(Code::NoVertex)),
            ("e 1 2 r", Err(Code::Exists)),
            ("e 9 1 r", Err(Code::NoVertex)),
            ("v 2", Err(Code::Exists)),
            ("-v 2", Err(Code::Busy)),
            ("-v 9", Err(Code::NoVertex)),
            ("-e 3 1 r", Ok(&[(0, &[], TURNS)])),
        ],
    },
    // An edge goes to each pattern that has its label, once.
    Row {
        patterns: ONE_AND_BOTH,
        graph: "v 1\nv 2",
        turns: &[
            ("e 1 2 s", Ok(&[])),
            ("e 1 2 r", Ok(&[(0, &[&[1, 2]], &[]), (1, &[&[1, 2]], &[])])),
            ("-e 1 2 s", Ok(&[(1, &[], &[&[1, 2]])])),
            ("-e 1 2 r", Ok(&[(0, &[], &[&[1, 2]])])),
        ],
    },
];

/// Whether the registry of a row answers each of its lines as it should, over a store of its graph.
fn is_right_over<G: KeepGraph + ReadGraph<Tally>>(
    alloc: Global,
    graph: &mut G,
    row: &Row,
) -> Result<bool, Unmade> {
    let patterns = patterns_of(alloc, row.patterns)?;
    let mut steps = Steps::new(Tally::new());
    let mut registry = Registry::start(alloc, patterns, graph, &mut steps)?;
    takes_each(alloc, &mut registry, graph, row.turns, &mut steps)
}

/// Whether it is so over the store of hashed triples.
fn is_right_in_labels(alloc: Global, row: &Row) -> Result<bool, Unmade> {
    let mut graph = graph_of(alloc, row.graph)?;
    is_right_over(alloc, &mut graph, row)
}

/// Whether it is so over the store of blocks.
fn is_right_in_blocks(alloc: Global, row: &Row) -> Result<bool, Unmade> {
    let mut graph = block_graph_of(alloc, row.graph)?;
    is_right_over(alloc, &mut graph, row)
}

/// Lets the registry take the update of each line: whether it answers so, and is whole behind the last.
fn takes_each<G: KeepGraph + ReadGraph<L>, L: Ledger>(
    alloc: Global,
    registry: &mut Registry,
    graph: &mut G,
    turns: &[Turn],
    steps: &mut Steps<L>,
) -> Result<bool, Unmade>
    requires { AreExact registry.old (G.graph graph.old) }
{
    for i in 0..turns.len() {
        let (line, due) = turns[i];
        let update = update_of(alloc, line)?;
        if !takes(registry, graph, &update, due, steps)? {
            return Ok(false);
        }
    }
    Ok(!registry.is_broken())
}

/// Lets the registry take the update: whether it answers so.
fn takes<G: KeepGraph + ReadGraph<L>, L: Ledger>(
    registry: &mut Registry,
    graph: &mut G,
    update: &Update,
    due: Result<&[Change], Code>,
    steps: &mut Steps<L>,
) -> Result<bool, AllocError>
    requires { AreExact registry.old (G.graph graph.old) }
    ensures { OnOk result (AreExact registry.new (G.graph graph.new)) }
{
    match registry.apply(graph, update, steps)? {
        Ok(mut deltas) => {
            deltas.sort()?;
            Ok(are_due(&deltas, due))
        }
        Err(code) => Ok(is_due(code, due)),
    }
}

/// Whether these deltas are what is due.
fn are_due(deltas: &Deltas, due: Result<&[Change], Code>) -> bool {
    match due {
        Ok(changes) => are_changes(deltas, changes),
        Err(_) => false,
    }
}

/// Whether this refusal is what is due.
fn is_due(code: Code, due: Result<&[Change], Code>) -> bool {
    match due {
        Ok(_) => false,
        Err(word) => code == word,
    }
}

/// Whether these are gained and lost.
fn are_changes(deltas: &Deltas, changes: &[Change]) -> bool {
    if deltas.len() != changes.len() {
        return false;
    }
    for i in 0..changes.len() {
        let (pattern, gained, lost) = changes[i];
        let delta = deltas.get(i);
        if delta.pattern != pattern || !are_maps(&delta.gained, gained) {
            return false;
        }
        if !are_maps(&delta.lost, lost) {
            return false;
        }
    }
    true
}

/// How many rows, from the first on, are as they should be.
fn count_right(alloc: Global, rows: &[Row]) -> Result<usize, Unmade> {
    for i in 0..rows.len() {
        if !is_right_in_labels(alloc, &rows[i])? || !is_right_in_blocks(alloc, &rows[i])? {
            return Ok(i);
        }
    }
    Ok(rows.len())
}

#[test]
fn updates_of_registries(rt: HostRuntime) -> Result<(), Fail> {
    assert_eq!(rt; count_right(rt.alloc(), &ROWS)?, ROWS.len());
    Ok(())
}
