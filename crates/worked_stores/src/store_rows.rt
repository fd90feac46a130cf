//! Answers worked out by hand, as scripts of calls. Each script is played in each store.
use crate::script::{Line, play};
use crate::star::Star;
use Line::{
    AddVertex, Counted, Degrees, Fits, HasEdge, HasEdgeByLabel, HasEdgeByNumber, HasVertex, Ids,
    InRow, Insert, LabelsOf, MakeStar, OutRow, Remove, RemoveVertex, Seed, Sizes, TakeStar,
};
use block_graph::BlockGraph;
use flux_model::{Code, Limits};
use label_graph::LabelGraph;
use std::alloc::{AllocError, Global};
use std::process::Abort;
use std::test::Fail;

/// A limit that is not the standard one.
#[derive(Clone, Copy)]
enum Lowered {
    Nothing,
    Vertices(u64),
    Edges(u64),
    Names(u64),
}

/// A script that is played in an empty store.
#[derive(Clone, Copy)]
struct Case {
    name: &'static str,
    lowered: Lowered,
    seed: u64,
    script: &'static [Line],
}

fn limits(lowered: Lowered) -> Limits {
    let mut limits = Limits::standard();
    match lowered {
        Lowered::Nothing => {}
        Lowered::Vertices(vertices) => limits.vertices = vertices,
        Lowered::Edges(edges) => limits.edges = edges,
        Lowered::Names(names) => limits.labels = names,
    }
    limits
}

fn play_in_labels(rt: &impl Abort, alloc: Global, case: Case) -> Result<(), AllocError> {
    let limits = limits(case.lowered);
    assert!(rt; limits.fair());
    let mut graph = LabelGraph::with_seed(alloc, &limits, case.seed);
    play(
        rt,
        alloc,
        &mut graph,
        ("LabelGraph", case.name),
        case.script,
    )
}

fn play_in_blocks(rt: &impl Abort, alloc: Global, case: Case) -> Result<(), AllocError> {
    let limits = limits(case.lowered);
    assert!(rt; limits.fair());
    let mut graph = BlockGraph::with_seed(alloc, &limits, case.seed);
    play(
        rt,
        alloc,
        &mut graph,
        ("BlockGraph", case.name),
        case.script,
    )
}

/// Plays each script in an empty store of its own, of each kind.
fn play_all(rt: &impl Abort, alloc: Global, cases: &[Case]) -> Result<(), AllocError> {
    for case in cases {
        play_in_labels(rt, alloc, *case)?;
        play_in_blocks(rt, alloc, *case)?;
    }
    Ok(())
}

// ---- refusals

const REFUSALS: &[Case] = &[
    Case {
        name: "more vertices than the limit are refused",
        lowered: Lowered::Vertices(2),
        seed: 0,
        script: &[
            AddVertex(1, b"A", Ok(())),
            AddVertex(2, b"A", Ok(())),
            AddVertex(3, b"A", Err(Code::Full)),
            AddVertex(2, b"A", Err(Code::Exists)),
            RemoveVertex(1, Ok(())),
            AddVertex(3, b"A", Ok(())),
            Sizes(2, 0),
        ],
    },
    Case {
        name: "more triples than the limit are refused",
        lowered: Lowered::Edges(1),
        seed: 0,
        script: &[
            AddVertex(1, b"A", Ok(())),
            AddVertex(2, b"B", Ok(())),
            Insert((1, b'r', 2), Ok(())),
            Insert((2, b'r', 1), Err(Code::Full)),
            Insert((1, b'r', 2), Err(Code::Exists)),
            Sizes(2, 1),
        ],
    },
    Case {
        name: "a name that nothing bears is not counted",
        lowered: Lowered::Names(2),
        seed: 7,
        script: &[
            AddVertex(1, b"A", Ok(())),
            AddVertex(2, b"B", Ok(())),
            Insert((1, b'r', 2), Err(Code::Full)),
            RemoveVertex(2, Ok(())),
            AddVertex(3, b"C", Ok(())),
            Insert((1, b'r', 3), Err(Code::Full)),
            AddVertex(4, b"B", Err(Code::Full)),
            RemoveVertex(3, Ok(())),
            Insert((1, b'r', 1), Ok(())),
            Insert((1, b's', 1), Err(Code::Full)),
            AddVertex(5, b"r", Ok(())),
            Remove((1, b'r', 1), Ok(())),
            Insert((1, b's', 1), Err(Code::Full)),
            RemoveVertex(5, Ok(())),
            Insert((1, b's', 1), Ok(())),
        ],
    },
    Case {
        name: "each refusal has its cause",
        lowered: Lowered::Nothing,
        seed: 0,
        script: &[
            AddVertex(1, b"A", Ok(())),
            AddVertex(2, b"B", Ok(())),
            Insert((1, b'r', 2), Ok(())),
            AddVertex(1, b"A", Err(Code::Exists)),
            RemoveVertex(2, Err(Code::Busy)),
            RemoveVertex(1, Err(Code::Busy)),
            RemoveVertex(9, Err(Code::NoVertex)),
            Insert((1, b'r', 9), Err(Code::NoVertex)),
            Insert((9, b'r', 1), Err(Code::NoVertex)),
            Remove((1, b'r', 9), Err(Code::NoVertex)),
            Remove((2, b'r', 1), Err(Code::Absent)),
            Remove((1, b's', 2), Err(Code::Absent)),
            HasEdge((1, b'r', 2), true),
            HasEdge((2, b'r', 1), false),
            HasEdge((1, b's', 2), false),
            HasEdge((1, b'r', 9), false),
        ],
    },
];

#[test]
fn each_refusal_is_the_one_that_is_due(rt: HostRuntime) -> Result<(), Fail> {
    play_all(&rt, rt.alloc(), REFUSALS)?;
    Ok(())
}

// ---- reads

const READS: &[Case] = &[
    Case {
        name: "a self loop stands in both rows once",
        lowered: Lowered::Nothing,
        seed: 7,
        script: &[
            AddVertex(1, b"A", Ok(())),
            AddVertex(2, b"B", Ok(())),
            Insert((1, b'r', 1), Ok(())),
            Insert((2, b's', 1), Ok(())),
            OutRow(1, &[(b'r', 1)]),
            InRow(1, &[(b'r', 1), (b's', 2)]),
            OutRow(2, &[(b's', 1)]),
            InRow(2, &[]),
            Remove((1, b'r', 1), Ok(())),
            Remove((1, b'r', 1), Err(Code::Absent)),
            OutRow(1, &[]),
            InRow(1, &[(b's', 2)]),
        ],
    },
    Case {
        name: "each read counts one step",
        lowered: Lowered::Nothing,
        seed: 7,
        script: &[
            AddVertex(1, b"A", Ok(())),
            AddVertex(2, b"B", Ok(())),
            Insert((1, b'r', 2), Ok(())),
            Insert((1, b's', 2), Ok(())),
            // A row: the test of the vertex, two entries and the row's end.
            OutRow(1, &[(b'r', 2), (b's', 2)]),
            Counted(4),
            InRow(2, &[(b'r', 1), (b's', 1)]),
            Counted(8),
            Ids(&[1, 2]),
            Counted(10),
            // Degrees count nothing beside the test of the vertex.
            Degrees(1, 2, 0),
            Counted(11),
            HasEdge((2, b'r', 1), false),
            Counted(12),
            // These test the vertex, and then read once.
            LabelsOf(1, b"A"),
            Fits(1, b"B", false),
            Counted(16),
            // The number of a label counts nothing, and neither do the sizes and the seed.
            HasEdgeByLabel((1, b'r', 2), Some(true)),
            HasEdgeByLabel((1, b't', 2), None),
            HasEdgeByNumber((1, 77, 2), false),
            Sizes(2, 2),
            Seed(7),
            Counted(18),
        ],
    },
    Case {
        name: "each vertex is listed once",
        lowered: Lowered::Nothing,
        seed: 7,
        script: &[
            AddVertex(1, b"A", Ok(())),
            AddVertex(2, b"B", Ok(())),
            Ids(&[1, 2]),
            Degrees(2, 0, 0),
            HasVertex(2, true),
            HasVertex(3, false),
        ],
    },
    Case {
        name: "a vertex fits by all of its labels",
        lowered: Lowered::Nothing,
        seed: 0,
        script: &[
            AddVertex(1, b"BA", Ok(())),
            AddVertex(2, b"B", Ok(())),
            AddVertex(3, b"", Ok(())),
            LabelsOf(1, b"AB"),
            LabelsOf(2, b"B"),
            LabelsOf(3, b""),
            HasVertex(4, false),
            Fits(1, b"AB", true),
            Fits(2, b"AB", false),
            Fits(3, b"AB", false),
            Fits(1, b"B", true),
            Fits(2, b"B", true),
            Fits(3, b"B", false),
            Fits(1, b"", true),
            Fits(2, b"", true),
            Fits(3, b"", true),
        ],
    },
    Case {
        name: "a number stands for a label while it is in use",
        lowered: Lowered::Nothing,
        seed: 7,
        script: &[
            AddVertex(1, b"A", Ok(())),
            AddVertex(2, b"B", Ok(())),
            HasEdgeByLabel((1, b'r', 2), None),
            Insert((1, b'r', 2), Ok(())),
            Insert((2, b's', 1), Ok(())),
            // By number as by text.
            HasEdge((1, b'r', 2), true),
            HasEdgeByLabel((1, b'r', 2), Some(true)),
            HasEdge((1, b's', 2), false),
            HasEdgeByLabel((1, b's', 2), Some(false)),
            HasEdgeByLabel((2, b's', 1), Some(true)),
            HasEdgeByLabel((1, b'r', 9), Some(false)),
            // The label of a vertex is no triple's.
            HasEdgeByLabel((1, b'A', 2), Some(false)),
            HasEdgeByLabel((1, b't', 2), None),
            HasEdgeByNumber((1, 4000000000, 2), false),
            // The label goes with its last triple, and its number may be the next label's.
            Remove((1, b'r', 2), Ok(())),
            HasEdgeByLabel((1, b'r', 2), None),
            Insert((1, b't', 2), Ok(())),
            HasEdgeByLabel((1, b'r', 2), None),
            HasEdgeByLabel((1, b't', 2), Some(true)),
            Insert((1, b'r', 2), Ok(())),
            HasEdgeByLabel((1, b'r', 2), Some(true)),
            HasEdgeByLabel((2, b'r', 1), Some(false)),
            OutRow(1, &[(b'r', 2), (b't', 2)]),
            InRow(2, &[(b'r', 1), (b't', 1)]),
        ],
    },
];

#[test]
fn each_read_is_what_was_put_in(rt: HostRuntime) -> Result<(), Fail> {
    play_all(&rt, rt.alloc(), READS)?;
    Ok(())
}

// ---- a vertex of a high degree

const FAN: Star = Star {
    degree: 40,
    stride: 1,
    one_label: true,
    listed_each: true,
};

const BIG_STAR: Star = Star {
    degree: 10000,
    stride: 3889,
    one_label: false,
    listed_each: false,
};

const MANY_EDGES: &[Case] = &[
    Case {
        name: "a row is taken down in the order in which it was made",
        lowered: Lowered::Nothing,
        seed: 0,
        script: &[
            MakeStar(FAN),
            Sizes(41, 40),
            Degrees(0, 40, 0),
            Degrees(40, 0, 1),
            TakeStar(FAN),
            Sizes(41, 0),
            Degrees(0, 0, 0),
            OutRow(0, &[]),
            // What was given back serves again.
            Insert((0, b's', 40), Ok(())),
            OutRow(0, &[(b's', 40)]),
            InRow(40, &[(b's', 0)]),
        ],
    },
    Case {
        name: "a high degree is taken down in another order",
        lowered: Lowered::Nothing,
        seed: 7,
        script: &[
            MakeStar(BIG_STAR),
            Sizes(10001, 10000),
            Degrees(0, 10000, 0),
            TakeStar(BIG_STAR),
            Sizes(10001, 0),
            Degrees(0, 0, 0),
        ],
    },
];

#[test]
fn many_edges_are_taken_down_in_any_order(rt: HostRuntime) -> Result<(), Fail> {
    play_all(&rt, rt.alloc(), MANY_EDGES)?;
    Ok(())
}
