//! Lines of updates over the vertices 0 to 4, drawn by a number.
use std::alloc::{AllocError, Global};

/// Lines that say nothing, that no grammar takes, and that no small graph takes.
const HOSTILE: [&str; 16] = [
    "",
    "#",
    "\r",
    "x",
    "e 1 2",
    "e 1 2 r s",
    "e 1 2 r\r",
    "e 1 x r",
    "v",
    "v 4294967296",
    "v 1 B",
    "-v 1 2",
    "-v 7",
    "-e 9 1 r",
    "e 1 9 r",
    "\tv  3\tA B A ",
];

/// Numbers that look drawn: those of a linear congruential generator, of which the high half is taken.
#[derive(Clone, Copy)]
pub(crate) struct Draw {
    state: u64,
}

impl Draw {
    /// The draw of this number.
    pub(crate) fn new(number: u64) -> Draw {
        Draw { state: number }
    }

    /// A number below `bound`, and 0 where that is 0.
    fn below(&mut self, bound: u32) -> u32 {
        let next = self.state.wrapping_mul(6_364_136_223_846_793_005);
        self.state = next.wrapping_add(1_442_695_040_888_963_407);
        ((self.state >> 32).wrapping_mul(u64::from(bound)) >> 32) as u32
    }

    /// The digit of a vertex.
    fn vertex(&mut self) -> u8 {
        match b"01234".get(self.below(5) as usize) {
            Some(digit) => *digit,
            None => b'0',
        }
    }

    /// One of two labels of edges.
    fn label(&mut self) -> u8 {
        match self.below(4) {
            0 => b's',
            _ => b'r',
        }
    }

    /// A line: most often an edge that comes or goes, now and then a vertex, and of each twenty one that is hostile.
    pub(crate) fn line(&mut self, alloc: Global) -> Result<Vec<u8>, AllocError> {
        match self.below(20) {
            0..10 => self.edge(alloc, b"e "),
            10..16 => self.edge(alloc, b"-e "),
            16..18 => self.new_vertex(alloc),
            18 => self.old_vertex(alloc),
            _ => self.hostile(alloc),
        }
    }

    /// `e SRC DST LABEL` or `-e SRC DST LABEL`, by the word that it begins with.
    fn edge(&mut self, alloc: Global, word: &[u8]) -> Result<Vec<u8>, AllocError> {
        let mut line = word.to_vec(alloc)?;
        for _ in 0..2 {
            line.push(self.vertex())?;
            line.push(b' ')?;
        }
        line.push(self.label())?;
        Ok(line)
    }

    /// `v ID LABEL..`.
    fn new_vertex(&mut self, alloc: Global) -> Result<Vec<u8>, AllocError> {
        let mut line = b"v ".to_vec(alloc)?;
        line.push(self.vertex())?;
        for label in [b" A", b" B"] {
            if self.below(2) == 0 {
                line.extend_from_slice(label)?;
            }
        }
        Ok(line)
    }

    /// `-v ID`.
    fn old_vertex(&mut self, alloc: Global) -> Result<Vec<u8>, AllocError> {
        let mut line = b"-v ".to_vec(alloc)?;
        line.push(self.vertex())?;
        Ok(line)
    }

    /// One of the hostile lines.
    fn hostile(&mut self, alloc: Global) -> Result<Vec<u8>, AllocError> {
        let place = self.below(16) as usize;
        match HOSTILE.get(place) {
            Some(line) => line.as_bytes().to_vec(alloc),
            None => Ok(Vec::new(alloc)),
        }
    }
}
