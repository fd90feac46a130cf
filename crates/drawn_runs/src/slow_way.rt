//! `watch` the slow way: all embeddings of every pattern are listed after each line that changes the graph, and what differs
//! from those before it is written.
use delta_report::{write_end, write_refusal};
use flux_model::{Code, Limits, Line, Map, Maps, Pattern, Patterns, Said, Update};
use line_grammar::read_update_line;
use line_words::{end_line, start_line, write_number, write_word};
use plain_match::{PlainGraph, plain_all};
use std::alloc::{AllocError, Global};

/// A graph as two lists, the patterns, and what the lines came to.
#[derive(Drop)]
pub(crate) struct SlowWatch {
    alloc: Global,
    graph: PlainGraph,
    patterns: Patterns,
    /// All embeddings of each pattern in the graph, in ascending order.
    found: Vec<Maps>,
    lines: u64,
    accepted: u64,
    refused: u64,
}

impl SlowWatch {
    /// The empty graph, before the first line.
    pub(crate) fn new(alloc: Global, patterns: Patterns) -> Result<SlowWatch, AllocError> {
        let graph = PlainGraph::new(alloc, &Limits::standard());
        let found = all_of_each(alloc, &patterns, &graph)?;
        Ok(SlowWatch {
            alloc,
            graph,
            patterns,
            found,
            lines: 0,
            accepted: 0,
            refused: 0,
        })
    }

    /// Takes a line of the graph file, before the first line of the updates. A repeated edge changes nothing.
    pub(crate) fn graph_line(&mut self, line: &[u8]) -> Result<(), AllocError> {
        if let Said::Says(update) = read_update_line(self.alloc, &Line::Held(line))? {
            let _ = self.graph.apply(&update)?;
        }
        Ok(())
    }

    /// Lists what stands before the first line of the updates.
    pub(crate) fn begin(&mut self) -> Result<(), AllocError> {
        self.found = all_of_each(self.alloc, &self.patterns, &self.graph)?;
        Ok(())
    }

    /// Takes a line, of which one byte 13 at its end is dropped, and writes its block.
    pub(crate) fn line(&mut self, line: &[u8], report: &mut Vec<u8>) -> Result<(), AllocError> {
        self.lines = self.lines.saturating_add(1);
        match read_update_line(self.alloc, &Line::Held(without_return(line)))? {
            Said::Nothing => Ok(()),
            Said::Refused(code) => self.refuse(code, report),
            Said::Says(update) => self.change(&update, report),
        }
    }

    /// Writes the end line.
    pub(crate) fn end(&self, report: &mut Vec<u8>) -> Result<(), AllocError> {
        write_end(self.lines, self.accepted, self.refused, report)
    }

    fn refuse(&mut self, code: Code, report: &mut Vec<u8>) -> Result<(), AllocError> {
        self.refused = self.refused.saturating_add(1);
        write_refusal(self.lines, code, report)
    }

    fn change(&mut self, update: &Update, report: &mut Vec<u8>) -> Result<(), AllocError> {
        if let Err(code) = self.graph.apply(update)? {
            return self.refuse(code, report);
        }
        self.accepted = self.accepted.saturating_add(1);
        let found = all_of_each(self.alloc, &self.patterns, &self.graph)?;
        self.write_changes(&found, report)?;
        self.found = found;
        Ok(())
    }

    /// Writes, pattern by pattern, what was gained and then what was lost.
    fn write_changes(&self, found: &[Maps], report: &mut Vec<u8>) -> Result<(), AllocError> {
        for k in 0..self.patterns.count() {
            let (Some(old), Some(new)) = (self.found.get(k), found.get(k)) else {
                return Ok(());
            };
            let pattern = self.patterns.get(k);
            self.write_missing(b'+', pattern, new, old, report)?;
            self.write_missing(b'-', pattern, old, new, report)?;
        }
        Ok(())
    }

    /// Writes each of the maps that is not among the others.
    fn write_missing(
        &self,
        sign: u8,
        pattern: &Pattern,
        maps: &Maps,
        others: &Maps,
        report: &mut Vec<u8>,
    ) -> Result<(), AllocError> {
        for i in 0..maps.len() {
            if !is_among(maps.get(i), others) {
                start_line(sign, self.lines, report)?;
                write_word(pattern.name().bytes(), report)?;
                write_ids(maps.get(i), report)?;
                end_line(report)?;
            }
        }
        Ok(())
    }
}

/// All embeddings of each pattern in the graph, in ascending order.
fn all_of_each(
    alloc: Global,
    patterns: &Patterns,
    graph: &PlainGraph,
) -> Result<Vec<Maps>, AllocError> {
    let mut found = Vec::new(alloc);
    for k in 0..patterns.count() {
        found.push(plain_all(alloc, patterns.get(k), graph)?)?;
    }
    Ok(found)
}

/// The line without one byte 13 at its end.
fn without_return(line: &[u8]) -> &[u8] {
    match line {
        [front @ .., b'\r'] => front,
        _ => line,
    }
}

/// Whether the map is one of these.
fn is_among(map: &Map, maps: &Maps) -> bool {
    for i in 0..maps.len() {
        if map == maps.get(i) {
            return true;
        }
    }
    false
}

/// Writes the ids of a map.
fn write_ids(map: &Map, report: &mut Vec<u8>) -> Result<(), AllocError> {
    for u in 0..map.len() {
        write_number(u64::from(map.get(u)), report)?;
    }
    Ok(())
}
