//! Runs of `watch` that end early, and of words of no shape.
use flux_model::Code;
use std::test::Fail;
use watch_cli::Status;
use worked_play::{Lower, Run, WATCH, count_right};

/// The words have no shape, and nothing can be told of it.
const NO_SHAPE: Run = Run {
    room: 99,
    err_room: 0,
    status: Status::Usage,
    number: 2,
    ..WATCH
};

const NO_SHAPES: [Run; 7] = [
    Run {
        words: &[],
        ..NO_SHAPE
    },
    Run {
        words: &["watch", "g"],
        ..NO_SHAPE
    },
    Run {
        words: &["demo", "x"],
        ..NO_SHAPE
    },
    Run {
        words: &["match", "g"],
        ..NO_SHAPE
    },
    Run {
        words: &["save"],
        ..NO_SHAPE
    },
    Run {
        words: &["save", "g", "p"],
        ..NO_SHAPE
    },
    Run {
        words: &["Save", "g"],
        ..NO_SHAPE
    },
];

#[test]
fn words_of_no_shape(rt: HostRuntime) -> Result<(), Fail> {
    assert_eq!(rt; count_right(rt.alloc(), &NO_SHAPES)?, NO_SHAPES.len());
    Ok(())
}

const REFUSED_FILES: [Run; 10] = [
    Run {
        graph: "v 1 A\ne 1 2 r\n",
        status: Status::BadGraph {
            line: 2,
            code: Code::NoVertex,
        },
        number: 3,
        err: "turboflux: graph line 2: novertex\n",
        ..WATCH
    },
    Run {
        patterns: "p two hom\nv 0\nv 1\n",
        status: Status::BadPatterns {
            line: 1,
            code: Code::Apart,
        },
        number: 4,
        err: "turboflux: patterns line 1: apart\n",
        ..WATCH
    },
    Run {
        patterns: "v 0\n",
        status: Status::BadPatterns {
            line: 1,
            code: Code::NoName,
        },
        number: 4,
        err: "turboflux: patterns line 1: noname\n",
        ..WATCH
    },
    Run {
        patterns: "p a hom\nv 1\n",
        status: Status::BadPatterns {
            line: 2,
            code: Code::Order,
        },
        number: 4,
        err: "turboflux: patterns line 2: order\n",
        ..WATCH
    },
    Run {
        patterns: "p a hom\np b hom\nv 0\n",
        status: Status::BadPatterns {
            line: 1,
            code: Code::Empty,
        },
        number: 4,
        err: "turboflux: patterns line 1: empty\n",
        ..WATCH
    },
    Run {
        patterns: "p a hom\nv 0\ne 0 1 r\n",
        status: Status::BadPatterns {
            line: 3,
            code: Code::NoVertex,
        },
        number: 4,
        err: "turboflux: patterns line 3: novertex\n",
        ..WATCH
    },
    Run {
        patterns: "p a hom\nv 0\np a iso\n",
        status: Status::BadPatterns {
            line: 3,
            code: Code::Exists,
        },
        number: 4,
        err: "turboflux: patterns line 3: exists\n",
        ..WATCH
    },
    Run {
        patterns: "p a any\n",
        status: Status::BadPatterns {
            line: 1,
            code: Code::Mode,
        },
        number: 4,
        err: "turboflux: patterns line 1: mode\n",
        ..WATCH
    },
    Run {
        patterns: "p a hom\nv 0\ne 0 0 r\ne 0 0 r\n",
        status: Status::BadPatterns {
            line: 4,
            code: Code::Exists,
        },
        number: 4,
        err: "turboflux: patterns line 4: exists\n",
        ..WATCH
    },
    Run {
        lower: Lower::PatternVertices(1),
        patterns: "p a hom\nv 0\nv 1\n",
        status: Status::BadPatterns {
            line: 3,
            code: Code::Full,
        },
        number: 4,
        err: "turboflux: patterns line 3: full\n",
        ..WATCH
    },
];

#[test]
fn refused_files(rt: HostRuntime) -> Result<(), Fail> {
    assert_eq!(rt;
        count_right(rt.alloc(), &REFUSED_FILES)?,
        REFUSED_FILES.len()
    );
    Ok(())
}

const FAULTS: [Run; 6] = [
    Run {
        words: &["watch", "h", "p"],
        status: Status::NoFile,
        number: 1,
        err: "turboflux: no such file\n",
        ..WATCH
    },
    Run {
        failing_files: &[0],
        status: Status::ReadFault,
        number: 5,
        err: "turboflux: read fault\n",
        ..WATCH
    },
    Run {
        room: 4,
        status: Status::WriteFault,
        number: 6,
        out: "+ 1 ",
        err: "turboflux: write fault\n",
        ..WATCH
    },
    Run {
        failing: &[1],
        status: Status::ReadFault,
        number: 5,
        out: "+ 1 ab 1 2\n",
        err: "turboflux: read fault\n",
        ..WATCH
    },
    Run {
        updates: "e 1 2 r\n-e 1 2 r\ne 2",
        cuts: &[12, 8],
        failing: &[2],
        status: Status::ReadFault,
        number: 5,
        out: "+ 1 ab 1 2\n- 2 ab 1 2\n",
        err: "turboflux: read fault\n",
        ..WATCH
    },
    Run {
        lower: Lower::InputBytes(29),
        updates: "e 1 2 r\n-e 1 2 r\ne 1 2 r\ne 2 1 r\n",
        status: Status::TooMuch,
        number: 8,
        out: "+ 1 ab 1 2\n- 2 ab 1 2\n+ 3 ab 1 2\n",
        err: "turboflux: input too large\n",
        ..WATCH
    },
];

#[test]
fn faults_and_limits(rt: HostRuntime) -> Result<(), Fail> {
    assert_eq!(rt; count_right(rt.alloc(), &FAULTS)?, FAULTS.len());
    Ok(())
}
