//! The plain graph and the plain search.
use flux_model::{Code, Limits};
use plain_match::{PlainGraph, plain_all};
use std::alloc::Global;
use std::test::Fail;
use worked_parts::shapes::TRIANGLE;
use worked_parts::{Unmade, are_maps, first, patterns_of, update_of};

/// A line of updates, and its refusal where it is refused.
type Step = (&'static str, Result<(), Code>);

/// What is done to the empty graph under these limits, and then all embeddings of a triangle in each mode.
#[derive(Clone, Copy)]
struct Case {
    edges: u64,
    labels: u64,
    steps: &'static [Step],
    hom: &'static [&'static [u32]],
    iso: &'static [&'static [u32]],
}

const ISO_TRIANGLE: &str = "p tri iso\nv 0\nv 1\nv 2\ne 0 1 r\ne 1 2 r\ne 2 0 r";

/// No limit is come to, and a path is no triangle.
const PATH: Case = Case {
    edges: 65535,
    labels: 65535,
    steps: &[
        ("v 1 A", Ok(())),
        ("v 2 B", Ok(())),
        ("v 3 C", Ok(())),
        ("e 1 2 r", Ok(())),
        ("e 2 3 r", Ok(())),
    ],
    hom: &[],
    iso: &[],
};

const CASES: [Case; 6] = [
    PATH,
    // A triangle is found in each of its turns.
    Case {
        steps: &[
            ("v 1 A", Ok(())),
            ("v 2 B", Ok(())),
            ("v 3 C", Ok(())),
            ("e 1 2 r", Ok(())),
            ("e 2 3 r", Ok(())),
            ("e 3 1 r", Ok(())),
        ],
        hom: &[&[1, 2, 3], &[2, 3, 1], &[3, 1, 2]],
        iso: &[&[1, 2, 3], &[2, 3, 1], &[3, 1, 2]],
        ..PATH
    },
    // A loop is one only where ids may repeat.
    Case {
        steps: &[("v 7 A", Ok(())), ("e 7 7 r", Ok(()))],
        hom: &[&[7, 7, 7]],
        ..PATH
    },
    // The first reason counts.
    Case {
        steps: &[
            ("v 1 A", Ok(())),
            ("v 2 B", Ok(())),
            ("v 2 A", Err(Code::Exists)),
            ("-e 1 2 r", Err(Code::Absent)),
            ("-e 1 9 r", Err(Code::NoVertex)),
            ("e 9 2 r", Err(Code::NoVertex)),
            ("e 1 2 r", Ok(())),
            ("e 1 2 r", Err(Code::Exists)),
            ("-v 9", Err(Code::NoVertex)),
            ("-v 2", Err(Code::Busy)),
            ("-e 1 2 r", Ok(())),
            ("-v 2", Ok(())),
            ("-v 2", Err(Code::NoVertex)),
        ],
        ..PATH
    },
    // One edge is the limit.
    Case {
        edges: 1,
        steps: &[
            ("v 1 A", Ok(())),
            ("v 2 B", Ok(())),
            ("e 1 2 r", Ok(())),
            ("e 2 1 r", Err(Code::Full)),
            ("e 1 2 r", Err(Code::Exists)),
        ],
        ..PATH
    },
    // Two names are the limit.
    Case {
        labels: 2,
        steps: &[
            ("v 1 A", Ok(())),
            ("v 2 B", Ok(())),
            ("e 1 2 r", Err(Code::Full)),
            ("-v 2", Ok(())),
            ("v 3 C", Ok(())),
            ("e 1 3 r", Err(Code::Full)),
            ("v 2 A", Ok(())),
        ],
        ..PATH
    },
];

/// Whether each step, in turn, answers as it should.
fn answers_each(alloc: Global, graph: &mut PlainGraph, steps: &[Step]) -> Result<bool, Unmade> {
    for i in 0..steps.len() {
        let (line, answer) = steps[i];
        if graph.apply(&update_of(alloc, line)?)? != answer {
            return Ok(false);
        }
    }
    Ok(true)
}

/// Whether the embeddings of the pattern are exactly these, in this order.
fn finds(alloc: Global, graph: &PlainGraph, text: &str, maps: &[&[u32]]) -> Result<bool, Unmade> {
    let patterns = patterns_of(alloc, text)?;
    Ok(are_maps(&plain_all(alloc, first(&patterns)?, graph)?, maps))
}

/// Whether the steps of a case and its embeddings are as they should be.
fn is_right(alloc: Global, case: &Case) -> Result<bool, Unmade> {
    let limits = Limits {
        edges: case.edges,
        labels: case.labels,
        ..Limits::standard()
    };
    let mut graph = PlainGraph::new(alloc, &limits);
    Ok(
        answers_each(alloc, &mut graph, case.steps)?
            && finds(alloc, &graph, TRIANGLE, case.hom)?
            && finds(alloc, &graph, ISO_TRIANGLE, case.iso)?,
    )
}

/// How many cases, from the first on, are as they should be.
fn count_right(alloc: Global, cases: &[Case]) -> Result<usize, Unmade> {
    for i in 0..cases.len() {
        if !is_right(alloc, &cases[i])? {
            return Ok(i);
        }
    }
    Ok(cases.len())
}

#[test]
fn changes_and_their_triangles(rt: HostRuntime) -> Result<(), Fail> {
    assert_eq!(rt; count_right(rt.alloc(), &CASES)?, CASES.len());
    Ok(())
}
