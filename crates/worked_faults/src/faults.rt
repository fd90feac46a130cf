//! Each read that fails, and each room that an output may have.
use crate::play::{Outside, Run, STEADY, done, is_right, read_fault, write_fault};
use std::alloc::{AllocError, Global};
use std::test::Fail;

/// Two edges of a triangle. It is the text of its graph.
const TWO_EDGES: &[u8] = b"v 1\nv 2\nv 3\ne 1 2 r\ne 2 3 r\n";

/// A triangle that the updates close and open again.
const TRIANGLE: Run<'static> = Run {
    words: &["watch", "g", "p"],
    graph: TWO_EDGES,
    patterns: b"p tri hom\nv 0\nv 1\nv 2\ne 0 1 r\ne 1 2 r\ne 2 0 r\n",
    updates: b"e 3 1 r\n-e 3 1 r\n",
};

/// What it writes: a block of 42 bytes for each of the two lines, and 8 bytes at the end.
const TRIANGLE_TEXT: &[u8] =
    b"+ 1 tri 1 2 3\n+ 1 tri 2 3 1\n+ 1 tri 3 1 2\n- 2 tri 1 2 3\n- 2 tri 2 3 1\n- 2 tri 3 1 2\n= 2 2 0\n";

/// People who know each other and like what others write.
const PEOPLE: Run<'static> = Run {
    words: &["watch", "g", "p"],
    graph: b"v 100 Person\nv 101 Person\nv 102 Person Admin\nv 900 Post\ne 100 101 knows\ne 101 102 knows\ne 101 900 likes\n",
    patterns: b"p tip iso\nv 0 Person\nv 1 Person\nv 2 Post\ne 0 1 knows\ne 1 2 likes\np staff hom\nv 0 Admin\nv 1 Post\ne 0 1 likes\n",
    updates: b"e 102 900 likes\ne 102 100 knows\n-e 101 900 likes\nv 901 Post\n-v 901\n",
};

/// A run with the text that it writes where nothing fails, and how many reads of files it makes.
#[derive(Clone, Copy)]
struct Row {
    run: Run<'static>,
    text: &'static [u8],
    file_reads: u64,
}

const ROWS: [Row; 4] = [
    Row {
        run: TRIANGLE,
        text: TRIANGLE_TEXT,
        file_reads: 4,
    },
    Row {
        run: PEOPLE,
        text: b"+ 1 tip 101 102 900\n+ 1 staff 102 900\n- 3 tip 100 101 900\n= 5 5 0\n",
        file_reads: 4,
    },
    Row {
        run: Run {
            words: &["match", "g", "p"],
            ..PEOPLE
        },
        text: b"m tip 100 101 900\n= 1\n",
        file_reads: 4,
    },
    Row {
        run: Run {
            words: &["save", "g"],
            ..TRIANGLE
        },
        text: TWO_EDGES,
        file_reads: 2,
    },
];

/// Whether an output of any room takes what fits of the text, and the run is done where all of it does.
fn is_right_in_all_rooms(alloc: Global, row: &Row) -> Result<bool, AllocError> {
    let length = row.text.len();
    for room in 0..length {
        let outside = Outside { room, ..STEADY };
        if !is_right(alloc, &row.run, &outside, &write_fault(&row.text[..room]))? {
            return Ok(false);
        }
    }
    let outside = Outside {
        room: length,
        ..STEADY
    };
    is_right(alloc, &row.run, &outside, &done(row.text))
}

/// Whether nothing is written where any read of a file fails, and the run is done where a later one would.
fn is_right_at_file_faults(alloc: Global, row: &Row) -> Result<bool, AllocError> {
    for read in 0..row.file_reads {
        if !is_right(alloc, &row.run, &failing_file(&[read]), &read_fault(b""))? {
            return Ok(false);
        }
    }
    is_right(
        alloc,
        &row.run,
        &failing_file(&[row.file_reads]),
        &done(row.text),
    )
}

/// These reads of files fail.
fn failing_file(failing_files: &[u64]) -> Outside<'_> {
    Outside {
        failing_files,
        ..STEADY
    }
}

/// The block of its first line.
const FIRST_BLOCK: &[u8] = b"+ 1 tri 1 2 3\n+ 1 tri 2 3 1\n+ 1 tri 3 1 2\n";

/// The blocks of both lines, without the end line.
const BOTH_BLOCKS: &[u8] =
    b"+ 1 tri 1 2 3\n+ 1 tri 2 3 1\n+ 1 tri 3 1 2\n- 2 tri 1 2 3\n- 2 tri 2 3 1\n- 2 tri 3 1 2\n";

/// What stands of the triangle's text where this read of its updates fails, of one byte each: the first line has 8 bytes, and both have 17.
fn written_before(read: u64) -> &'static [u8] {
    match read {
        0..=7 => b"",
        8..=16 => FIRST_BLOCK,
        _ => BOTH_BLOCKS,
    }
}

/// Whether the blocks of the whole lines stand where a read of the updates fails, of one byte each. Of 17 bytes the last read, which
/// gives none, has number 17, and no later one is made.
fn is_right_at_update_faults(alloc: Global) -> Result<bool, AllocError> {
    for read in 0..18 {
        let due = read_fault(written_before(read));
        if !is_right(alloc, &TRIANGLE, &failing_update(&[read]), &due)? {
            return Ok(false);
        }
    }
    is_right(
        alloc,
        &TRIANGLE,
        &failing_update(&[18]),
        &done(TRIANGLE_TEXT),
    )
}

/// These reads of the updates fail, which come byte by byte.
fn failing_update(failing: &[u64]) -> Outside<'_> {
    Outside {
        failing,
        cuts: &[1; 17],
        ..STEADY
    }
}

#[test]
fn an_output_of_any_room(rt: HostRuntime) -> Result<(), Fail> {
    for row in &ROWS {
        assert!(rt; is_right_in_all_rooms(rt.alloc(), row)?);
    }
    Ok(())
}

#[test]
fn any_read_of_a_file_fails(rt: HostRuntime) -> Result<(), Fail> {
    for row in &ROWS {
        assert!(rt; is_right_at_file_faults(rt.alloc(), row)?);
    }
    Ok(())
}

#[test]
fn any_read_of_the_updates_fails(rt: HostRuntime) -> Result<(), Fail> {
    assert!(rt; is_right_at_update_faults(rt.alloc())?);
    Ok(())
}
