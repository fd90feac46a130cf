//! The reads of a `LabelGraph`.
use crate::link::Link;
use crate::store::LabelGraph;
use flux_model::{Labels, Ledger, Steps, Text};
use graph_traits::{ReadGraph, Spot, Turn};

impl<L: Ledger> ReadGraph<L> for LabelGraph {
    fn vertex_at(&self, i: u64, steps: &mut Steps<L>) -> u32 {
        steps.tick();
        *self.nodes.get_index(i as usize).unwrap().0
    }

    fn has_vertex(&self, v: u32, steps: &mut Steps<L>) -> bool {
        steps.tick();
        self.nodes.contains_key(&v)
    }

    fn labels_of(&self, v: u32, steps: &mut Steps<L>) -> &Labels {
        steps.tick();
        &self.node(v).labels
    }

    fn fits(&self, v: u32, labels: &Labels, steps: &mut Steps<L>) -> bool {
        steps.tick();
        labels.within(&self.node(v).labels)
    }

    fn has_edge(&self, src: u32, label: &Text, dst: u32, steps: &mut Steps<L>) -> bool {
        steps.tick();
        match self.names.find(label) {
            Some(label) => self.places.contains_key(&Link { src, label, dst }),
            None => false,
        }
    }

    fn has_edge_by(&self, src: u32, number: u32, dst: u32, steps: &mut Steps<L>) -> bool {
        steps.tick();
        // For the proof: no two names are the same.
        let _names = self.names.len();
        self.places.contains_key(&Link {
            src,
            label: number,
            dst,
        })
    }

    fn out_at(&self, v: u32, at: Spot, steps: &mut Steps<L>) -> Option<Turn<'_>> {
        steps.tick();
        let entry = self.node_at(v, at).outs.get(at.place)?;
        Some(Turn {
            label: self.names.text(entry.label),
            number: entry.label,
            other: entry.other,
            next: Spot {
                node: at.node,
                place: at.place + 1,
            },
        })
    }

    fn in_at(&self, v: u32, at: Spot, steps: &mut Steps<L>) -> Option<Turn<'_>> {
        steps.tick();
        let entry = self.node_at(v, at).ins.get(at.place)?;
        Some(Turn {
            label: self.names.text(entry.label),
            number: entry.label,
            other: entry.other,
            next: Spot {
                node: at.node,
                place: at.place + 1,
            },
        })
    }
}
