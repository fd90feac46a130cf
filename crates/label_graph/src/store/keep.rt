//! The changes of a `LabelGraph`.
ghost use Rattle.std.specs.Prelude.{◌≡◌, ◌||◌, ◌+◌, nat_le, nat_lt, if◌then◌else◌};
ghost use Rattle.label_graph.specs.Known.{known_stands};

use crate::link::{Link, Places};
use crate::links::{join, part};
use crate::store::LabelGraph;
use crate::store::vertices::{bare_node, has_entries, index_of, lacks_room, put_node};
use flux_model::{Code, Labels, Triple};
use graph_traits::KeepGraph;
use seeded_hash::SeededState;
use std::alloc::AllocError;
use std::collections::HashMap;

impl KeepGraph for LabelGraph {
    fn add_vertex(&mut self, id: u32, labels: &Labels) -> Result<Result<(), Code>, AllocError> {
        if self.nodes.contains_key(&id) {
            return Ok(Err(Code::Exists));
        }
        // For the proof: the labels are a set.
        let _ = labels.len();
        let unknown = self.names.count_unknown(labels);
        if lacks_room(
            self.limits.vertices,
            self.nodes.len(),
            self.limits.labels,
            self.names.len(),
            unknown,
        ) {
            return Ok(Err(Code::Full));
        }
        let node = bare_node(*self.nodes.allocator(), labels)?;
        self.nodes.reserve(1)?;
        self.names.raise_all(labels)?;
        put_node(&mut self.nodes, id, node);
        Ok(Ok(()))
    }

    fn remove_vertex(&mut self, id: u32) -> Result<(), Code> {
        if !self.nodes.contains_key(&id) {
            return Err(Code::NoVertex);
        }
        if has_entries(&self.nodes, id) {
            return Err(Code::Busy);
        }
        let node = self.nodes.swap_remove(&id).unwrap();
        self.names.lower_all(&node.labels);
        Ok(())
    }

    fn insert(&mut self, triple: &Triple) -> Result<Result<(), Code>, AllocError> {
        let Some(src) = index_of(&self.nodes, triple.src) else {
            return Ok(Err(Code::NoVertex));
        };
        let Some(dst) = index_of(&self.nodes, triple.dst) else {
            return Ok(Err(Code::NoVertex));
        };
        let known = self.names.find(&triple.label);
        if stands(&self.places, known, triple.src, triple.dst) {
            return Ok(Err(Code::Exists));
        }
        if is_full(
            self.limits.edges,
            self.places.len(),
            self.limits.labels,
            self.names.len(),
            known.is_some(),
        ) {
            return Ok(Err(Code::Full));
        }
        // For the proof: the bytes of a label are those of a text.
        let _ = triple.label.bytes();
        let label = self.names.raise_found(&triple.label, known)?;
        let link = Link {
            src: triple.src,
            label,
            dst: triple.dst,
        };
        match join(&mut self.nodes, &mut self.places, link, src, dst) {
            Ok(()) => Ok(Ok(())),
            Err(e) => {
                self.names.lower(label);
                Err(e)
            }
        }
    }

    fn remove(&mut self, triple: &Triple) -> Result<(), Code> {
        let Some(src) = index_of(&self.nodes, triple.src) else {
            return Err(Code::NoVertex);
        };
        let Some(dst) = index_of(&self.nodes, triple.dst) else {
            return Err(Code::NoVertex);
        };
        let Some(label) = self.names.find(&triple.label) else {
            return Err(Code::Absent);
        };
        let link = Link {
            src: triple.src,
            label,
            dst: triple.dst,
        };
        if !part(&mut self.nodes, &mut self.places, link, src, dst) {
            return Err(Code::Absent);
        }
        self.names.lower(label);
        Ok(())
    }
}

/// Whether the triple with this number of its label, if it has one, stands.
pub fn stands<P>(
    places: &HashMap<Link, Places<P>, SeededState>,
    known: Option<u32>,
    src: u32,
    dst: u32,
) -> bool
    ensures { result ≡ known_stands places.now.entries known src dst }
{
    match known {
        Some(label) => places.contains_key(&Link { src, label, dst }),
        None => false,
    }
}

/// Whether the triples are as many as their limit, or the names, with one more where it is new, more than theirs.
pub fn is_full(limit: u64, count: usize, name_limit: u64, names: usize, known: bool) -> bool
    ensures { result ≡ (nat_le limit count || nat_lt name_limit (names + (if known then 0 else 1))) }
{
    let many = if known {
        name_limit < names as u64
    } else {
        name_limit <= names as u64
    };
    limit <= count as u64 || many
}
