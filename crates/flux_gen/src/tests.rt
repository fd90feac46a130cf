//! Files at small sizes. The expected text was written by another reading of the same rules.

use crate::{Made, Sizes, make};
use std::alloc::{AllocError, Global};
use std::test::Fail;

/// The files of a number, with so many vertices, edges and updates.
fn made(
    alloc: Global,
    number: u64,
    vertices: u64,
    edges: u64,
    updates: u64,
) -> Result<Made, AllocError>
    requires vertices { (1 ≤ vertices) × (vertices ≤ 2 ^ 20) }
    requires edges { (1 ≤ edges) × (edges ≤ 2 ^ 22) }
    requires updates { updates ≤ 2 ^ 20 }
{
    make(
        alloc,
        number,
        &Sizes {
            vertices,
            edges,
            updates,
        },
    )
}

ghost use Rattle.std.specs.Prelude.{◌≤◌, ◌^◌};

const PATTERNS: &[u8] =
    b"p star hom\nv 0 L0\nv 1 L1\nv 2 L0\nv 3\ne 0 1 r0\ne 0 2 r1\ne 3 0 r2\np walk iso\nv 0\nv 1\nv 2\nv 3\nv 4\n\
e 0 1 r0\ne 1 2 r1\ne 2 3 r2\ne 3 4 r3\np fork hom\nv 0 L0\nv 1 L1\nv 2\nv 3 L0\nv 4\nv 5 L1\ne 0 1 r0\n\
e 0 2 r1\ne 2 3 r2\ne 4 2 r3\ne 3 5 r0\np ring hom\nv 0\nv 1\nv 2\nv 3\ne 0 1 r0\ne 1 2 r1\ne 2 3 r0\n\
e 3 0 r1\n";

#[test]
fn the_files_of_seven(rt: HostRuntime) -> Result<(), Fail> {
    let files = made(rt.alloc(), 7, 6, 12, 30)?;
    assert_eq!(rt;
        files.graph(),
        b"v 0 L0\nv 1 L1\nv 2 L1\nv 3 L0\nv 4 L0\nv 5 L0\ne 2 1 r3\ne 4 2 r2\ne 1 3 r0\ne 0 5 r0\ne 0 5 r3\ne 2 3 r0\n\
e 4 4 r0\ne 4 1 r2\ne 1 0 r1\ne 4 4 r1\ne 2 0 r0\ne 2 0 r0\n"
            .as_slice()
    );
    assert_eq!(rt; files.patterns(), PATTERNS);
    assert_eq!(rt;
        files.updates(),
        b"-e 4 4 r1\n-v 6\nv 6 L0\ne 3 1 r1\ne 0 3 r2\n-e 3 1 r1\ne 3 2 r1\ne 2 0 r0\ne 1 1 r1\n-e 0 5 r0\ne 5 3 r0\n\
e 0 0 r2\n-v 6\n-e 0 3 r2\n-e 4 4 r0\ne 3 3 r3\n-e 1 1 r1\ne 1 1 r1\ne 5 1 r0\ne 5 0 r1\ne 5 5 r1\n-e 4 2 r2\n\
e 1 2 r0\ne 3 2 r1\n-e 4 4 r1\ne 2 3 r0\ne 1 3 r1\ne 2 5 r0\ne 5 4 r0\n-v 6\n"
            .as_slice()
    );
    Ok(())
}

#[test]
fn the_files_of_the_largest_number(rt: HostRuntime) -> Result<(), Fail> {
    let files = made(rt.alloc(), 18446744073709551615, 1, 1, 8)?;
    assert_eq!(rt; files.graph(), b"v 0 L1\ne 0 0 r1\n".as_slice());
    assert_eq!(rt; files.patterns(), PATTERNS);
    assert_eq!(rt;
        files.updates(),
        b"-v 1\n-e 0 0 r1\n-e 0 0 r1\ne 0 0 r2\n-e 0 0 r2\ne 0 0 r2\ne 0 0 r2\ne 0 0 r0\n".as_slice()
    );
    Ok(())
}

#[test]
fn the_files_of_no_number(rt: HostRuntime) -> Result<(), Fail> {
    let files = made(rt.alloc(), 0, 25, 3, 12)?;
    assert_eq!(rt;
        files.graph(),
        b"v 0 L0\nv 1 L0\nv 2 L1\nv 3 L0\nv 4 L0\nv 5 L1\nv 6 L0\nv 7 L0\nv 8 L0\nv 9 L0\nv 10 L1\nv 11 L0\nv 12 L0\n\
v 13 L0\nv 14 L1\nv 15 L0\nv 16 L1\nv 17 L1\nv 18 L0\nv 19 L0\nv 20 L1\nv 21 L1\nv 22 L1\nv 23 L0\nv 24 L0\n\
e 11 4 r1\ne 1 15 r1\ne 1 16 r0\n"
            .as_slice()
    );
    assert_eq!(rt; files.patterns(), PATTERNS);
    assert_eq!(rt;
        files.updates(),
        b"-e 1 16 r0\n-e 1 15 r1\ne 3 2 r0\ne 3 12 r0\n-e 1 16 r0\ne 8 19 r3\nv 27 L1\ne 4 13 r1\ne 20 8 r2\ne 5 22 r1\n\
e 14 17 r0\ne 9 9 r0\n"
            .as_slice()
    );
    Ok(())
}

#[test]
fn the_standard_files_have_their_lines(rt: HostRuntime) -> Result<(), Fail> {
    let files = make(rt.alloc(), 7, &Sizes::standard())?;
    assert_eq!(rt; files.graph().len(), 1162143);
    assert_eq!(rt; files.patterns().len(), 285);
    assert_eq!(rt; files.updates().len(), 77896);
    Ok(())
}
