//! The sizes and the rows of a `LabelGraph`.
ghost use Rattle.std.specs.Prelude.{◌≡◌, ◌≤◌, Some, nat_eq, length, slice_get, IsTrue};
ghost use Rattle.std.specs.Map.{lookup, keys_of};
ghost use Rattle.flux_model.specs.Graph.{has_vertex};
ghost use Rattle.label_graph.specs.Names.{text_at};
ghost use Rattle.label_graph.specs.Places.{outs, ins};
ghost use Rattle.label_graph.specs.Meaning.{graph_in, outs_in, ins_in, IsOfVertex};

use crate::link::{Node, RowEntry};
use crate::store::LabelGraph;
use crate::store::vertices::index_of;
use flux_model::Text;
use graph_traits::{HoldGraph, Spot};

impl LabelGraph {
    /// What is kept of `v`, which has to be a vertex.
    pub(super) fn node(&self, v: u32) -> &Node<Vec<RowEntry>>
        requires { IsTrue (has_vertex (graph_in self.now) v) }
        ensures { lookup (nat_eq v) self.now.nodes.entries ≡ Some result.now }
    {
        &self.nodes[&v]
    }

    /// What is kept of the vertex `v`, by a place of one of its rows.
    pub(super) fn node_at(&self, _v: u32, at: Spot) -> &Node<Vec<RowEntry>>
        requires { IsOfVertex self.now _v at }
        ensures { lookup (nat_eq _v) self.now.nodes.entries ≡ Some result.now }
    {
        self.nodes.get_index(at.node).unwrap().1
    }

    /// Where `v`, which has to be a vertex, stands among the vertices.
    fn index(&self, v: u32) -> usize
        requires { IsTrue (has_vertex (graph_in self.now) v) }
        ensures { slice_get (keys_of self.now.nodes.entries) result ≡ Some v }
    {
        index_of(&self.nodes, v).unwrap()
    }
}

impl HoldGraph for LabelGraph {
    ghost graph = { graph_in };

    ghost limits = { λ s. s.limits };

    ghost listed = { λ s. keys_of s.nodes.entries };

    ghost outs_from = { outs_in };

    ghost ins_from = { ins_in };

    ghost is_out_place = { λ s v at. IsOfVertex s v at × (at.place ≤ length (outs s.nodes.entries v)) };

    ghost is_in_place = { λ s v at. IsOfVertex s v at × (at.place ≤ length (ins s.nodes.entries v)) };

    ghost label_text = { λ s. text_at s.names };

    fn vertex_count(&self) -> u64 {
        self.nodes.len() as u64
    }

    fn edge_count(&self) -> u64 {
        // For the proof: no two names are the same.
        let _names = self.names.len();
        self.places.len() as u64
    }

    fn out_degree(&self, v: u32) -> u64 {
        // For the proof: no two names are the same.
        let _names = self.names.len();
        self.node(v).outs.as_slice().len() as u64
    }

    fn in_degree(&self, v: u32) -> u64 {
        // For the proof: no two names are the same.
        let _names = self.names.len();
        self.node(v).ins.as_slice().len() as u64
    }

    fn out_row(&self, v: u32) -> Spot {
        // For the proof: no two names are the same.
        let _names = self.names.len();
        Spot {
            node: self.index(v),
            place: 0,
        }
    }

    fn in_row(&self, v: u32) -> Spot {
        // For the proof: no two names are the same.
        let _names = self.names.len();
        Spot {
            node: self.index(v),
            place: 0,
        }
    }

    fn label_number(&self, label: &Text) -> Option<u32> {
        self.names.find(label)
    }

    fn seed(&self) -> u64 {
        self.seed
    }
}
