//! Blocks of more bytes than a piece of the output has.
use crate::play::{Outside, Run, STEADY, done, is_right, write_fault};
use line_words::{end_line, start_line, write_number, write_word};
use std::alloc::{AllocError, Global};
use std::test::Fail;

/// How many vertices vertex 0 has an edge to, before the updates.
const ENDS: u64 = 450;

/// The longest name that a pattern may have.
const NAME: &[u8] = b"abcdefghijklmnopqrstuvwxyzabcdefghijklmnopqrstuvwxyzabcdefghijkl";

/// Two edges that begin at one vertex.
const FORK: &[u8] =
    b"p abcdefghijklmnopqrstuvwxyzabcdefghijklmnopqrstuvwxyzabcdefghijkl hom\nv 0\nv 1\nv 2\ne 0 1 r\ne 0 2 r\n";

/// The vertices 0 to 451, and the edges from vertex 0 to those from 1 to 450.
fn star(alloc: Global) -> Result<Vec<u8>, AllocError> {
    let mut text = Vec::new(alloc);
    for id in 0..=ENDS + 1 {
        start_line(b'v', id, &mut text)?;
        end_line(&mut text)?;
    }
    for id in 1..=ENDS {
        start_line(b'e', 0, &mut text)?;
        write_number(id, &mut text)?;
        write_word(b"r", &mut text)?;
        end_line(&mut text)?;
    }
    Ok(text)
}

/// What a line gives or takes: both edges of the fork go to ends of the star, and one of them to vertex 451.
fn write_block(sign: u8, line: u64, text: &mut Vec<u8>) -> Result<(), AllocError> {
    for end in 1..=ENDS {
        write_fork(sign, line, end, ENDS + 1, text)?;
    }
    for end in 1..=ENDS + 1 {
        write_fork(sign, line, ENDS + 1, end, text)?;
    }
    Ok(())
}

fn write_fork(
    sign: u8,
    line: u64,
    first: u64,
    second: u64,
    text: &mut Vec<u8>,
) -> Result<(), AllocError> {
    start_line(sign, line, text)?;
    write_word(NAME, text)?;
    write_number(0, text)?;
    write_number(first, text)?;
    write_number(second, text)?;
    end_line(text)
}

/// Whether an output with some bytes less than the text takes what fits, and one that has as many takes all.
fn is_right_in_rooms(
    alloc: Global,
    run: &Run<'_>,
    text: &[u8],
    rooms: &[usize],
) -> Result<bool, AllocError> {
    for less in rooms {
        let room = text.len().saturating_sub(*less);
        let outside = Outside { room, ..STEADY };
        let front = &text[..room];
        let due = if room < text.len() {
            write_fault(front)
        } else {
            done(front)
        };
        if !is_right(alloc, run, &outside, &due)? {
            return Ok(false);
        }
    }
    Ok(true)
}

#[test]
fn blocks_of_several_pieces(rt: HostRuntime) -> Result<(), Fail> {
    let alloc = rt.alloc();
    let graph = star(alloc)?;
    let run = Run {
        words: &["watch", "g", "p"],
        graph: &graph,
        patterns: FORK,
        updates: b"e 0 451 r\n-e 0 451 r\n",
    };
    let mut text = Vec::new(alloc);
    write_block(b'+', 1, &mut text)?;
    let block = text.len();
    write_block(b'-', 2, &mut text)?;
    text.extend_from_slice(b"= 2 2 0\n")?;
    let rooms = [
        0,
        1,
        8,
        9,
        block,
        block + 7,
        block + 8,
        block + 9,
        text.len(),
    ];
    assert!(rt; is_right_in_rooms(alloc, &run, &text, &rooms)?);
    Ok(())
}
