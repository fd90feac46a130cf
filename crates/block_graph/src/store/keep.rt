//! The changes of a `BlockGraph`.
ghost use Rattle.std.specs.Prelude.{◌≡◌, ◌||◌, true, false, nat_eq, nat_lt, IsSome, IfOk};
ghost use Rattle.std.specs.Map.{lookup};
ghost use Rattle.block_graph.specs.Chains.{chain_at, no_chain};

use crate::chain::Chain;
use crate::hashed::{Nodes, node_of};
use crate::links::{join, part};
use crate::store::BlockGraph;
use flux_model::{Code, Labels, Triple};
use graph_traits::KeepGraph;
use label_graph::link::{Link, Node};
use label_graph::store::keep::{is_full, stands};
use label_graph::store::vertices::{index_of, lacks_room, put_node};
use std::alloc::AllocError;

/// Whether a row of the vertex has an entry.
fn has_entries(nodes: &Nodes, v: u32) -> bool
    requires { IsSome (lookup (nat_eq v) nodes.now.entries) }
    ensures { result ≡ (nat_lt 0 (chain_at nodes.now.entries (false, v)).blocks
        || nat_lt 0 (chain_at nodes.now.entries (true, v)).blocks) }
{
    let node = node_of(nodes, v);
    node.outs.blocks > 0 || node.ins.blocks > 0
}

/// A vertex with these labels and no triples.
fn bare_node(labels: &Labels) -> Result<Node<Chain>, AllocError>
    ensures labels { IfOk result (λ node. node.labels ≡ labels.now) }
    ensures outs { IfOk result (λ node. node.outs ≡ no_chain) }
    ensures ins { IfOk result (λ node. node.ins ≡ no_chain) }
{
    Ok(Node {
        labels: labels.copy()?,
        outs: Chain {
            first: 0,
            blocks: 0,
        },
        ins: Chain {
            first: 0,
            blocks: 0,
        },
    })
}

impl KeepGraph for BlockGraph {
    fn add_vertex(&mut self, id: u32, labels: &Labels) -> Result<Result<(), Code>, AllocError> {
        if self.nodes.contains_key(&id) {
            return Ok(Err(Code::Exists));
        }
        // For the proof: the labels are a set.
        let _ = labels.len();
        let unknown = self.names.count_unknown(labels);
        if lacks_room(
            self.limits.vertices,
            self.nodes.len(),
            self.limits.labels,
            self.names.len(),
            unknown,
        ) {
            return Ok(Err(Code::Full));
        }
        let node = bare_node(labels)?;
        self.nodes.reserve(1)?;
        self.names.raise_all(labels)?;
        put_node(&mut self.nodes, id, node);
        Ok(Ok(()))
    }

    fn remove_vertex(&mut self, id: u32) -> Result<(), Code> {
        if !self.nodes.contains_key(&id) {
            return Err(Code::NoVertex);
        }
        if has_entries(&self.nodes, id) {
            return Err(Code::Busy);
        }
        let node = self.nodes.swap_remove(&id).unwrap();
        self.names.lower_all(&node.labels);
        Ok(())
    }

    fn insert(&mut self, triple: &Triple) -> Result<Result<(), Code>, AllocError> {
        let Some(src) = index_of(&self.nodes, triple.src) else {
            return Ok(Err(Code::NoVertex));
        };
        let Some(dst) = index_of(&self.nodes, triple.dst) else {
            return Ok(Err(Code::NoVertex));
        };
        let known = self.names.find(&triple.label);
        if stands(&self.places, known, triple.src, triple.dst) {
            return Ok(Err(Code::Exists));
        }
        if is_full(
            self.limits.edges,
            self.places.len(),
            self.limits.labels,
            self.names.len(),
            known.is_some(),
        ) {
            return Ok(Err(Code::Full));
        }
        // For the proof: the bytes of a label are those of a text.
        let _ = triple.label.bytes();
        let label = self.names.raise_found(&triple.label, known)?;
        let link = Link {
            src: triple.src,
            label,
            dst: triple.dst,
        };
        match join(
            &mut self.nodes,
            &mut self.blocks,
            &mut self.places,
            link,
            src,
            dst,
        ) {
            Ok(()) => Ok(Ok(())),
            Err(e) => {
                self.names.lower(label);
                Err(e)
            }
        }
    }

    fn remove(&mut self, triple: &Triple) -> Result<(), Code> {
        let Some(src) = index_of(&self.nodes, triple.src) else {
            return Err(Code::NoVertex);
        };
        let Some(dst) = index_of(&self.nodes, triple.dst) else {
            return Err(Code::NoVertex);
        };
        let Some(label) = self.names.find(&triple.label) else {
            return Err(Code::Absent);
        };
        let link = Link {
            src: triple.src,
            label,
            dst: triple.dst,
        };
        if !part(
            &mut self.nodes,
            &mut self.blocks,
            &mut self.places,
            link,
            src,
            dst,
        ) {
            return Err(Code::Absent);
        }
        self.names.lower(label);
        Ok(())
    }
}
