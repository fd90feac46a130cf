//! Runs of `watch` to their end.
use std::test::Fail;
use worked_play::{Lower, PATTERN, Run, WATCH, count_right, is_right};

const ONE_PATTERN: [Run; 8] = [
    Run {
        updates: "e 1 2 r\n",
        out: "+ 1 ab 1 2\n= 1 1 0\n",
        ..WATCH
    },
    Run {
        updates: "",
        out: "= 0 0 0\n",
        ..WATCH
    },
    Run {
        updates: "e 2 1 r\n",
        out: "= 1 1 0\n",
        ..WATCH
    },
    Run {
        updates: "e 1 2 r\ne 1 2 r\n",
        out: "+ 1 ab 1 2\n! 2 exists\n= 2 1 1\n",
        ..WATCH
    },
    Run {
        updates: "-e 1 2 r\n\n",
        out: "! 1 absent\n= 2 0 1\n",
        ..WATCH
    },
    Run {
        updates: "-e 1 2 r\n-e 1 9 r\n",
        out: "! 1 absent\n! 2 novertex\n= 2 0 2\n",
        ..WATCH
    },
    Run {
        updates: "# note\n\ne\t1  2 r\r",
        out: "+ 3 ab 1 2\n= 3 1 0\n",
        ..WATCH
    },
    Run {
        updates: "e 1 2 r\n-e 1 2 r\n",
        out: "+ 1 ab 1 2\n- 2 ab 1 2\n= 2 2 0\n",
        ..WATCH
    },
];

#[test]
fn one_pattern_with_labels(rt: HostRuntime) -> Result<(), Fail> {
    assert_eq!(rt; count_right(rt.alloc(), &ONE_PATTERN)?, ONE_PATTERN.len());
    Ok(())
}

const PATHS: &str =
    "p path hom\nv 0\nv 1\nv 2\ne 0 1 r\ne 1 2 r\np ipath iso\nv 0\nv 1\nv 2\ne 0 1 r\ne 1 2 r\np loop hom\nv 0\ne 0 0 r\n";

/// A triangle that the updates close and open again.
const TRIANGLE: Run = Run {
    graph: "v 1\nv 2\nv 3\ne 1 2 r\ne 2 3 r\n",
    patterns: "p tri hom\nv 0\nv 1\nv 2\ne 0 1 r\ne 1 2 r\ne 2 0 r\n",
    updates: "e 3 1 r\n-e 3 1 r\n",
    out: "+ 1 tri 1 2 3\n+ 1 tri 2 3 1\n+ 1 tri 3 1 2\n- 2 tri 1 2 3\n- 2 tri 2 3 1\n- 2 tri 3 1 2\n= 2 2 0\n",
    ..WATCH
};

const MANY_PATTERNS: [Run; 7] = [
    Run {
        graph: "v 1\n",
        patterns: PATHS,
        updates: "e 1 1 r\n",
        out: "+ 1 path 1 1 1\n+ 1 loop 1\n= 1 1 0\n",
        ..WATCH
    },
    Run {
        graph: "v 1\nv 2\ne 1 2 r\n",
        patterns: PATHS,
        updates: "e 2 1 r\n",
        out: "+ 1 path 1 2 1\n+ 1 path 2 1 2\n= 1 1 0\n",
        ..WATCH
    },
    TRIANGLE,
    // The same in pieces of one byte.
    Run {
        cuts: &[1; 17],
        ..TRIANGLE
    },
    Run {
        graph: "v 1 A\nv 2 B\nv 3 C\ne 1 2 r\n",
        patterns: "p chain hom\nv 0 A\nv 1 B\nv 2 C\ne 0 1 r\ne 1 2 r\n",
        updates: "e 2 3 r\n",
        out: "+ 1 chain 1 2 3\n= 1 1 0\n",
        ..WATCH
    },
    Run {
        graph: "v 1\nv 2\n",
        patterns: "p both hom\nv 0\nv 1\ne 0 1 r\ne 0 1 s\np duo iso\nv 0\nv 1\ne 0 1 r\n",
        updates: "e 1 2 r\ne 1 2 s\ne 1 1 s\ne 1 1 r\n-e 1 2 r\n",
        out: "+ 1 duo 1 2\n+ 2 both 1 2\n+ 4 both 1 1\n- 5 both 1 2\n- 5 duo 1 2\n= 5 5 0\n",
        ..WATCH
    },
    Run {
        graph: "v 100 Person\nv 101 Person\nv 102 Person Admin\nv 900 Post\ne 100 101 knows\ne 101 102 knows\ne 101 900 likes\n",
        patterns: "p tip iso\nv 0 Person\nv 1 Person\nv 2 Post\ne 0 1 knows\ne 1 2 likes\np staff hom\nv 0 Admin\nv 1 Post\ne 0 1 likes\n",
        updates: "e 102 900 likes\ne 102 100 knows\n-e 101 900 likes\nv 901 Post\n-v 901\n",
        out: "+ 1 tip 101 102 900\n+ 1 staff 102 900\n- 3 tip 100 101 900\n= 5 5 0\n",
        ..WATCH
    },
];

#[test]
fn many_patterns_in_both_modes(rt: HostRuntime) -> Result<(), Fail> {
    assert_eq!(rt;
        count_right(rt.alloc(), &MANY_PATTERNS)?,
        MANY_PATTERNS.len()
    );
    Ok(())
}

const VERTICES_AND_REFUSALS: [Run; 5] = [
    Run {
        graph: "",
        updates: "v 1 A\n",
        out: "= 1 1 0\n",
        ..WATCH
    },
    Run {
        graph: "",
        patterns: "p one hom\nv 0 A\n",
        updates: "v 5 A\n-v 5\n",
        out: "+ 1 one 5\n- 2 one 5\n= 2 2 0\n",
        ..WATCH
    },
    Run {
        graph: "v 1 A\nv 2 B\ne 1 2 r\n",
        patterns: PATTERN,
        updates: "v 1 A\n-v 2\n-v 9\nx 1\ne 1 2\ne 1 x r\ne 1 2 r\x7f\ne 1 9 r\n",
        out: "! 1 exists\n! 2 busy\n! 3 novertex\n! 4 word\n! 5 arity\n! 6 number\n! 7 label\n! 8 novertex\n= 8 0 8\n",
        ..WATCH
    },
    Run {
        lower: Lower::Edges(1),
        updates: "e 1 2 r\ne 2 1 r\ne 1 2 r\n",
        out: "+ 1 ab 1 2\n! 2 full\n! 3 exists\n= 3 1 2\n",
        ..WATCH
    },
    Run {
        lower: Lower::Labels(2),
        updates: "e 1 2 r\n-v 2\nv 3 C\ne 1 3 r\n",
        out: "! 1 full\n! 4 full\n= 4 2 2\n",
        ..WATCH
    },
];

#[test]
fn vertices_and_refused_lines(rt: HostRuntime) -> Result<(), Fail> {
    assert_eq!(rt;
        count_right(rt.alloc(), &VERTICES_AND_REFUSALS)?,
        VERTICES_AND_REFUSALS.len()
    );
    Ok(())
}

const LONG: Run = Run {
    out: "+ 1 ab 1 2\n! 2 long\n! 4 number\n! 5 number\n= 5 2 3\n",
    ..WATCH
};

// The first line has 4096 bytes without its byte 13, and the second 4097.
#[test]
fn long_lines_and_wide_numbers(rt: HostRuntime) -> Result<(), Fail> {
    let spaces = [b' '; 4089];
    let mut updates = Vec::new(rt.alloc());
    updates.extend_from_slice(b"e 1 2 r")?;
    updates.extend_from_slice(&spaces)?;
    updates.extend_from_slice(b"\r\n-e 1 2 r")?;
    updates.extend_from_slice(&spaces)?;
    updates.extend_from_slice(b"\nv 4294967295\nv 4294967296\nv 00000000003\n")?;
    assert!(rt; is_right(rt.alloc(), &LONG, &updates)?);
    Ok(())
}
