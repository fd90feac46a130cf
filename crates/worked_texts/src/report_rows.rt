//! Changes and answers, and the lines that a report has of them.
ghost use Rattle.std.specs.Prelude.{◌≡◌, length, IfOk};
ghost use Rattle.delta_report.specs.Block.{HavePatterns};

use delta_report::{write_answers, write_deltas, write_end, write_refusal};
use flux_model::{Code, Delta, Deltas, Maps, Patterns};
use std::alloc::{AllocError, Global};
use std::test::Fail;
use worked_parts::{Unmade, patterns_of};

/// A ring of three edges, and a vertex alone.
const PATTERNS: &str = "p tri hom\nv 0\nv 1\nv 2\ne 0 1 r\ne 1 2 r\ne 2 0 r\np dot hom\nv 0";

/// The patterns `tri` and `dot`, in this order.
fn two_patterns(alloc: Global) -> Result<Patterns, Unmade>
    ensures { IfOk result (λ patterns. length patterns ≡ 2) }
{
    let patterns = patterns_of(alloc, PATTERNS)?;
    if patterns.count() != 2 {
        return Err(Unmade::NoPattern);
    }
    Ok(patterns)
}

/// The maps that a pattern gained, and those that it lost.
#[derive(Clone, Copy)]
struct Change {
    gained: &'static [&'static [u32]],
    lost: &'static [&'static [u32]],
}

fn maps_of(alloc: Global, lists: &[&[u32]]) -> Result<Maps, AllocError> {
    let mut maps = Maps::new(alloc);
    for ids in lists {
        maps.add_ids(ids)?;
    }
    Ok(maps)
}

fn delta_of(alloc: Global, pattern: usize, change: &Change) -> Result<Delta, AllocError>
    ensures { IfOk result (λ delta. delta.pattern ≡ pattern) }
{
    let gained = maps_of(alloc, change.gained)?;
    let lost = maps_of(alloc, change.lost)?;
    Ok(Delta {
        pattern,
        gained,
        lost,
    })
}

/// What the two patterns gained and lost.
fn deltas_of(alloc: Global, tri: &Change, dot: &Change) -> Result<Deltas, AllocError>
    ensures { IfOk result (λ deltas. HavePatterns 2 deltas) }
{
    let mut deltas = Deltas::new(alloc);
    deltas.add_unless_empty(delta_of(alloc, 0, tri)?)?;
    deltas.add_unless_empty(delta_of(alloc, 1, dot)?)?;
    Ok(deltas)
}

const NOTHING: Change = Change {
    gained: &[],
    lost: &[],
};

/// What `tri` gains where `v 1 / v 2 / v 3 / e 1 2 r / e 2 3 r / e 3 1 r` is all that there is.
const RING: Change = Change {
    gained: &[&[3, 1, 2], &[1, 2, 3], &[2, 3, 1]],
    lost: &[],
};

/// The number of a line, what `tri` gained and lost by it, and the block.
type Block = (u64, Change, &'static [u8]);

const BLOCKS: [Block; 3] = [
    (1, NOTHING, b""),
    (1, RING, b"+ 1 tri 1 2 3\n+ 1 tri 2 3 1\n+ 1 tri 3 1 2\n"),
    (
        12,
        Change {
            gained: &[&[10, 9, 8]],
            lost: &[&[4294967295, 0, 7], &[5, 6, 7]],
        },
        b"+ 12 tri 10 9 8\n- 12 tri 5 6 7\n- 12 tri 4294967295 0 7\n",
    ),
];

/// Whether the block is this.
fn is_block(alloc: Global, patterns: &Patterns, row: &Block) -> Result<bool, AllocError>
    requires { length patterns.now ≡ 2 }
{
    let (number, tri, text) = row;
    let mut deltas = deltas_of(alloc, tri, &NOTHING)?;
    let mut out = Vec::new(alloc);
    write_deltas(*number, patterns, &mut deltas, &mut out)?;
    Ok(*out.as_slice() == **text)
}

/// How many blocks, from the first on, are as they should be.
fn count_blocks(alloc: Global, patterns: &Patterns, rows: &[Block]) -> Result<usize, AllocError>
    requires { length patterns.now ≡ 2 }
{
    for i in 0..rows.len() {
        if !is_block(alloc, patterns, &rows[i])? {
            return Ok(i);
        }
    }
    Ok(rows.len())
}

#[test]
fn blocks(rt: HostRuntime) -> Result<(), Fail> {
    let patterns = two_patterns(rt.alloc())?;
    assert_eq!(rt; count_blocks(rt.alloc(), &patterns, &BLOCKS)?, BLOCKS.len());
    Ok(())
}

/// What `tri` and `dot` gained and lost, and what is listed of it.
type Listing = (Change, Change, &'static [u8]);

const ANSWERS: [Listing; 3] = [
    (NOTHING, NOTHING, b"= 0\n"),
    (
        RING,
        NOTHING,
        b"m tri 1 2 3\nm tri 2 3 1\nm tri 3 1 2\n= 3\n",
    ),
    (
        Change {
            gained: &[&[9, 10, 8], &[9, 9, 9]],
            lost: &[],
        },
        Change {
            gained: &[&[10], &[8], &[9]],
            lost: &[&[7]],
        },
        b"m tri 9 9 9\nm tri 9 10 8\nm dot 8\nm dot 9\nm dot 10\n= 5\n",
    ),
];

/// Whether the listing is this.
fn is_listing(alloc: Global, patterns: &Patterns, row: &Listing) -> Result<bool, AllocError>
    requires { length patterns.now ≡ 2 }
{
    let (tri, dot, text) = row;
    let mut deltas = deltas_of(alloc, tri, dot)?;
    let mut out = Vec::new(alloc);
    write_answers(patterns, &mut deltas, &mut out)?;
    Ok(*out.as_slice() == **text)
}

/// How many listings, from the first on, are as they should be.
fn count_listings(alloc: Global, patterns: &Patterns, rows: &[Listing]) -> Result<usize, AllocError>
    requires { length patterns.now ≡ 2 }
{
    for i in 0..rows.len() {
        if !is_listing(alloc, patterns, &rows[i])? {
            return Ok(i);
        }
    }
    Ok(rows.len())
}

#[test]
fn answers(rt: HostRuntime) -> Result<(), Fail> {
    let patterns = two_patterns(rt.alloc())?;
    assert_eq!(rt;
        count_listings(rt.alloc(), &patterns, &ANSWERS)?,
        ANSWERS.len()
    );
    Ok(())
}

/// Whether a refusal and the last line of a report behind it are written so.
fn are_single_lines(alloc: Global, text: &[u8]) -> Result<bool, AllocError> {
    let mut out = Vec::new(alloc);
    write_refusal(2, Code::Exists, &mut out)?;
    write_end(3, 2, 1, &mut out)?;
    Ok(*out.as_slice() == *text)
}

#[test]
fn a_refusal_and_the_end(rt: HostRuntime) -> Result<(), Fail> {
    assert!(rt; are_single_lines(rt.alloc(), b"! 2 exists\n= 3 2 1\n")?);
    Ok(())
}
