//! Runs of `save`.
use flux_model::Code;
use std::test::Fail;
use watch_cli::Status;
use worked_play::{Lower, Run, SAVE, count_right};

const GRAPH: &str = "v 2 B A A\nv 1\ne 2 1 s\ne 2 1 r\ne 2 1 s\n";

const TEXT: &str = "v 1\nv 2 A B\ne 2 1 r\ne 2 1 s\n";

const ROWS: [Run; 10] = [
    Run {
        graph: GRAPH,
        out: TEXT,
        ..SAVE
    },
    Run {
        graph: TEXT,
        out: TEXT,
        ..SAVE
    },
    Run { graph: "", ..SAVE },
    Run {
        graph: "# none\n\nv 007 B\r\n",
        out: "v 7 B\n",
        ..SAVE
    },
    Run {
        words: &["save", "h"],
        graph: GRAPH,
        status: Status::NoFile,
        number: 1,
        err: "turboflux: no such file\n",
        ..SAVE
    },
    Run {
        graph: "e 1 2 r\n",
        status: Status::BadGraph {
            line: 1,
            code: Code::NoVertex,
        },
        number: 3,
        err: "turboflux: graph line 1: novertex\n",
        ..SAVE
    },
    Run {
        graph: GRAPH,
        room: 4,
        status: Status::WriteFault,
        number: 6,
        out: "v 1\n",
        err: "turboflux: write fault\n",
        ..SAVE
    },
    Run {
        lower: Lower::InputBytes(8),
        graph: "v 1\nv 2\n",
        out: "v 1\nv 2\n",
        ..SAVE
    },
    Run {
        lower: Lower::InputBytes(7),
        graph: "v 1\nv 2\n",
        status: Status::TooMuch,
        number: 8,
        err: "turboflux: input too large\n",
        ..SAVE
    },
    Run {
        graph: GRAPH,
        failing_files: &[0],
        status: Status::ReadFault,
        number: 5,
        err: "turboflux: read fault\n",
        ..SAVE
    },
];

#[test]
fn texts_and_refusals(rt: HostRuntime) -> Result<(), Fail> {
    assert_eq!(rt; count_right(rt.alloc(), &ROWS)?, ROWS.len());
    Ok(())
}
