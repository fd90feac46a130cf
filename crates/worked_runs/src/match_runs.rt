//! Runs of `match`.
use flux_model::Code;
use std::test::Fail;
use watch_cli::Status;
use worked_play::{Lower, MATCH, Run, count_right};

const TRIANGLE: Run = Run {
    graph: "v 1\nv 2\nv 3\ne 1 2 r\ne 2 3 r\ne 3 1 r\ne 3 1 r\n",
    patterns: "p tri hom\nv 0\nv 1\nv 2\ne 0 1 r\ne 1 2 r\ne 2 0 r\n",
    out: "m tri 1 2 3\nm tri 2 3 1\nm tri 3 1 2\n= 3\n",
    ..MATCH
};

const ROWS: [Run; 9] = [
    TRIANGLE,
    Run {
        graph: "",
        out: "= 0\n",
        ..MATCH
    },
    Run {
        graph: "v 1\nv 2\ne 1 2 r\ne 2 1 r\n",
        patterns: "p none iso\nv 0 A\np back hom\nv 0\nv 1\nv 2\ne 0 1 r\ne 1 2 r\np there iso\nv 0\nv 1\ne 1 0 r\n",
        out: "m back 1 2 1\nm back 2 1 2\nm there 1 2\nm there 2 1\n= 4\n",
        ..MATCH
    },
    Run {
        graph: "v 1\n",
        patterns: "",
        out: "= 0\n",
        ..MATCH
    },
    Run {
        graph: "v 1\ne 1 2 r\n",
        patterns: "p two hom\nv 0\nv 1\n",
        status: Status::BadGraph {
            line: 2,
            code: Code::NoVertex,
        },
        number: 3,
        err: "turboflux: graph line 2: novertex\n",
        ..MATCH
    },
    Run {
        graph: "v 1\n",
        patterns: "p two hom\nv 0\nv 1\n",
        status: Status::BadPatterns {
            line: 1,
            code: Code::Apart,
        },
        number: 4,
        err: "turboflux: patterns line 1: apart\n",
        ..MATCH
    },
    Run {
        room: 14,
        status: Status::WriteFault,
        number: 6,
        out: "m tri 1 2 3\nm ",
        err: "turboflux: write fault\n",
        ..TRIANGLE
    },
    // The pattern file has 29 bytes, and this graph file and the next have 32. A long file is refused in its front.
    Run {
        lower: Lower::InputBytes(29),
        graph: "v 1 A\nx\nv 2 B\nv 3 C\nv 4 D\nv 5 E\n",
        status: Status::BadGraph {
            line: 2,
            code: Code::Word,
        },
        number: 3,
        err: "turboflux: graph line 2: word\n",
        ..MATCH
    },
    Run {
        lower: Lower::InputBytes(29),
        graph: "v 1 A\nv 2 B\nv 3 C\nv 4 D\nv 5 E\nx\n",
        status: Status::TooMuch,
        number: 8,
        err: "turboflux: input too large\n",
        ..MATCH
    },
];

#[test]
fn answers_and_refusals(rt: HostRuntime) -> Result<(), Fail> {
    assert_eq!(rt; count_right(rt.alloc(), &ROWS)?, ROWS.len());
    Ok(())
}
