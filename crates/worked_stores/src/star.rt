//! Stars: a vertex with many edges, made and taken down.
use crate::calls::{Seen, adds_vertex, inserts, out_row, removes};
use flux_model::{Ledger, Steps};
use graph_traits::{KeepGraph, ReadGraph};
use std::alloc::{AllocError, Global};
use std::process::Abort;

/// Edges from the vertex 0 to each of the vertices 1 to `degree`.
#[derive(Clone, Copy)]
pub struct Star {
    pub degree: u32,
    /// Edge number i to be removed leads to i * `stride` modulo `degree` + 1. The two have no common divisor, so each comes once.
    pub stride: u32,
    /// Whether the edges have one label, or one of three in turn.
    pub one_label: bool,
    /// Whether the row of 0 is listed after each removal, or after each thousandth.
    pub listed_each: bool,
}

impl Star {
    /// The label of the edge to `k`.
    fn letter_of(&self, k: u32) -> u8 {
        if self.one_label {
            b'r'
        } else {
            b"rst"[k as usize % 3]
        }
    }

    /// Where edge number `i` to be removed leads.
    fn removed(&self, i: u32) -> u32 {
        (i as u64 * self.stride as u64 % (self.degree as u64 + 1)) as u32
    }

    fn is_listed(&self, i: u32) -> bool {
        self.listed_each || i % 1000 == 0
    }
}

/// Takes the edge of an entry off those that are left, if it is there.
fn tick_off(star: Star, left: &mut [bool], (letter, other): Seen) -> bool {
    match left.get_mut(other as usize) {
        Some(stands) if *stands && letter == star.letter_of(other) => {
            *stands = false;
            true
        }
        _ => false,
    }
}

/// Whether the row is what stands: each entry leads with its label to a vertex that stands for it, none twice, and there are
/// as many as stand.
fn lists_what_stands(star: Star, row: Vec<Seen>, standing: Vec<bool>) -> bool {
    let mut left = standing;
    for entry in row.as_slice() {
        if !tick_off(star, left.as_mut_slice(), *entry) {
            return false;
        }
    }
    !left.as_slice().contains(&true)
}

/// Adds the vertices of a star and its edges; whether all were accepted.
pub(crate) fn makes_star<G: KeepGraph>(
    rt: &impl Abort,
    alloc: Global,
    graph: &mut G,
    star: Star,
) -> Result<bool, AllocError> {
    for k in 0..=star.degree {
        if !adds_vertex(rt, alloc, graph, (k, b""), Ok(()))? {
            return Ok(false);
        }
    }
    for k in 1..=star.degree {
        if !inserts(rt, alloc, graph, (0, star.letter_of(k), k), Ok(()))? {
            return Ok(false);
        }
    }
    Ok(true)
}

/// Removes the edges of a star in its order; whether all were accepted, and each list of the row of 0 was what stood.
pub(crate) fn takes_star<G: KeepGraph + ReadGraph<L>, L: Ledger>(
    rt: &impl Abort,
    alloc: Global,
    graph: &mut G,
    star: Star,
    steps: &mut Steps<L>,
) -> Result<bool, AllocError> {
    let mut standing = vec![in alloc; true; star.degree as usize + 1]?;
    standing[0] = false;
    for i in 1..=star.degree {
        let k = star.removed(i);
        if !removes(rt, alloc, graph, (0, star.letter_of(k), k), Ok(()))? {
            return Ok(false);
        }
        tick_off(star, standing.as_mut_slice(), (star.letter_of(k), k));
        if star.is_listed(i) {
            let row = out_row(alloc, graph, 0, steps)?;
            if !lists_what_stands(star, row, standing.clone()?) {
                return Ok(false);
            }
        }
    }
    Ok(true)
}
