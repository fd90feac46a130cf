//! The sizes and the rows of a `BlockGraph`.
ghost use Rattle.std.specs.Prelude.{◌≡◌, true, false, length, IsTrue};
ghost use Rattle.std.specs.Map.{keys_of};
ghost use Rattle.flux_model.specs.Graph.{has_vertex};
ghost use Rattle.label_graph.specs.Names.{text_at};
ghost use Rattle.block_graph.specs.Meaning.{graph_in, row_in, row_left, triples_in, IsPlaceIn};

use crate::chain::chain_of_row;
use crate::store::BlockGraph;
use flux_model::Text;
use graph_traits::{HoldGraph, Spot};

impl BlockGraph {
    /// How many entries a row of `v`, which has to be a vertex, has.
    fn degree(&self, v: u32, incoming: bool) -> u64
        requires { IsTrue (has_vertex (graph_in self.now) v) }
        ensures { result ≡ length (row_in self.now (incoming, v)) }
    {
        let chain = chain_of_row(&self.nodes, v, incoming);
        if chain.blocks == 0 {
            return 0;
        }
        let first = &self.blocks[chain.first as usize];
        6 * (chain.blocks as u64 - 1) + first.len as u64
    }

    /// The first place of a row of `v`, which has to be a vertex.
    fn first_spot(&self, v: u32, incoming: bool) -> Spot
        requires { IsTrue (has_vertex (graph_in self.now) v) }
        ensures place { IsPlaceIn self.now (incoming, v) result }
        ensures all { row_left self.now (incoming, v) result ≡ row_in self.now (incoming, v) }
    {
        let chain = chain_of_row(&self.nodes, v, incoming);
        if chain.blocks == 0 {
            return Spot { node: 0, place: 0 };
        }
        let first = &self.blocks[chain.first as usize];
        Spot {
            node: chain.first as usize,
            place: first.len as usize,
        }
    }
}

impl HoldGraph for BlockGraph {
    ghost graph = { graph_in };

    ghost limits = { λ s. s.limits };

    ghost listed = { λ s. keys_of s.nodes.entries };

    ghost outs_from = { λ s v at. triples_in s (false, v) at };

    ghost ins_from = { λ s v at. triples_in s (true, v) at };

    ghost is_out_place = { λ s v at. IsPlaceIn s (false, v) at };

    ghost is_in_place = { λ s v at. IsPlaceIn s (true, v) at };

    ghost label_text = { λ s. text_at s.names };

    fn vertex_count(&self) -> u64 {
        self.nodes.len() as u64
    }

    fn edge_count(&self) -> u64 {
        // For the proof: no two names are the same.
        let _names = self.names.len();
        self.places.len() as u64
    }

    fn out_degree(&self, v: u32) -> u64 {
        // For the proof: no two names are the same.
        let _names = self.names.len();
        self.degree(v, false)
    }

    fn in_degree(&self, v: u32) -> u64 {
        // For the proof: no two names are the same.
        let _names = self.names.len();
        self.degree(v, true)
    }

    fn out_row(&self, v: u32) -> Spot {
        // For the proof: no two names are the same.
        let _names = self.names.len();
        self.first_spot(v, false)
    }

    fn in_row(&self, v: u32) -> Spot {
        // For the proof: no two names are the same.
        let _names = self.names.len();
        self.first_spot(v, true)
    }

    fn label_number(&self, label: &Text) -> Option<u32> {
        self.names.find(label)
    }

    fn seed(&self) -> u64 {
        self.seed
    }
}
