//! The reads of a `BlockGraph`.
ghost use Rattle.std.specs.Prelude.{◌≡◌, ◌∷◌, [], Some, nat_eq, IsTrue, IfSome, MatchOption};
ghost use Rattle.std.specs.Map.{lookup};
ghost use Rattle.flux_model.specs.Graph.{has_vertex};
ghost use Rattle.block_graph.specs.Meaning.{graph_in, row_left, IsPlaceIn, IsEntryIn};

use crate::chain::Chain;
use crate::hashed::node_of;
use crate::store::BlockGraph;
use flux_model::{Labels, Ledger, Steps, Text};
use graph_traits::{ReadGraph, Spot, Turn};
use label_graph::link::{Link, Node, RowEntry};

/// An entry of a row, and where the row goes on.
#[derive(Clone, Copy)]
pub struct Step {
    pub entry: RowEntry,
    pub next: Spot,
}

impl BlockGraph {
    /// What is kept of `v`, which has to be a vertex.
    fn node(&self, v: u32) -> &Node<Chain>
        requires { IsTrue (has_vertex (graph_in self.now) v) }
        ensures { lookup (nat_eq v) self.now.nodes.entries ≡ Some result.now }
    {
        node_of(&self.nodes, v)
    }

    /// The entry at a place of a row of the vertex, or `None` at the row's end.
    fn step_at(&self, _v: u32, _incoming: bool, at: Spot) -> Option<Step>
        requires { IsPlaceIn self.now (_incoming, _v) at }
        ensures entry { MatchOption result (row_left self.now (_incoming, _v) at ≡ [])
            (λ x. row_left self.now (_incoming, _v) at ≡ x.entry ∷ row_left self.now (_incoming, _v) x.next) }
        ensures next { IfSome result (λ x. IsPlaceIn self.now (_incoming, _v) x.next) }
        ensures among { IfSome result (λ x. IsEntryIn self.now (_incoming, _v) x.entry) }
    {
        if at.place == 0 {
            return None;
        }
        let number = at.place - 1;
        let block = &self.blocks[at.node];
        let entry = block.entries[number];
        if number > 0 {
            return Some(Step {
                entry,
                next: Spot {
                    node: at.node,
                    place: number,
                },
            });
        }
        if !block.more {
            return Some(Step {
                entry,
                next: Spot {
                    node: at.node,
                    place: number,
                },
            });
        }
        let node = block.next as usize;
        let behind = &self.blocks[node];
        Some(Step {
            entry,
            next: Spot {
                node,
                place: behind.len as usize,
            },
        })
    }
}

impl<L: Ledger> ReadGraph<L> for BlockGraph {
    fn vertex_at(&self, i: u64, steps: &mut Steps<L>) -> u32 {
        steps.tick();
        *self.nodes.get_index(i as usize).unwrap().0
    }

    fn has_vertex(&self, v: u32, steps: &mut Steps<L>) -> bool {
        steps.tick();
        self.nodes.contains_key(&v)
    }

    fn labels_of(&self, v: u32, steps: &mut Steps<L>) -> &Labels {
        steps.tick();
        &self.node(v).labels
    }

    fn fits(&self, v: u32, labels: &Labels, steps: &mut Steps<L>) -> bool {
        steps.tick();
        labels.within(&self.node(v).labels)
    }

    fn has_edge(&self, src: u32, label: &Text, dst: u32, steps: &mut Steps<L>) -> bool {
        steps.tick();
        match self.names.find(label) {
            Some(label) => self.places.contains_key(&Link { src, label, dst }),
            None => false,
        }
    }

    fn has_edge_by(&self, src: u32, number: u32, dst: u32, steps: &mut Steps<L>) -> bool {
        steps.tick();
        // For the proof: no two names are the same.
        let _names = self.names.len();
        self.places.contains_key(&Link {
            src,
            label: number,
            dst,
        })
    }

    fn out_at(&self, v: u32, at: Spot, steps: &mut Steps<L>) -> Option<Turn<'_>> {
        steps.tick();
        let step = self.step_at(v, false, at)?;
        Some(Turn {
            label: self.names.text(step.entry.label),
            number: step.entry.label,
            other: step.entry.other,
            next: step.next,
        })
    }

    fn in_at(&self, v: u32, at: Spot, steps: &mut Steps<L>) -> Option<Turn<'_>> {
        steps.tick();
        let step = self.step_at(v, true, at)?;
        Some(Turn {
            label: self.names.text(step.entry.label),
            number: step.entry.label,
            other: step.entry.other,
            next: step.next,
        })
    }
}
