//! `BlockGraph`: a graph with rows of blocks and a hashed look-up of its triples.
ghost use Rattle.std.specs.Prelude.{◌≡◌, map};
ghost use Rattle.std.specs.Map.{keys_of};
ghost use Rattle.std.proofs.Props.{props};
ghost use Rattle.flux_model.specs.Graph.{empty_graph};
ghost use Rattle.flux_model.specs.Limits.{IsFair};
ghost use Rattle.graph_traits.specs.WithinLimits.{IsWithinLimits};
ghost use Rattle.label_graph.specs.Places.{vertex_of};
ghost use Rattle.label_graph.specs.Store.{IsNamed, node_graph};
ghost use Rattle.block_graph.specs.Places.{ArePlaced};
ghost use Rattle.block_graph.specs.Props.{ArePlaced-prop};

use crate::block::{Block, Blocks};
use crate::chain::Chain;
use crate::hashed::{Nodes, Standing};
use crate::row::Place;
use flux_model::Limits;
use label_graph::link::{Link, Node, Places};
use label_graph::names::Names;
use seeded_hash::SeededState;
use std::alloc::Global;

mod hold;
mod keep;
mod read;

/// A graph under limits. Each vertex has its rows as chains of blocks in one slab, and each triple knows its places in them.
///
/// An insertion, a removal and a test of a triple cost one hashed look-up of the triple and a fixed number of others,
/// whatever the degrees of its ends.
#[derive(Drop)]
pub struct BlockGraph {
    limits: Limits,
    seed: u64,
    names: Names,
    nodes: Nodes,
    blocks: Blocks,
    places: Standing,
    ghost placed: { ArePlaced nodes.entries blocks.slots places.entries } by { ArePlaced-prop _ _ _ },
    ghost named: { IsNamed names (map vertex_of nodes.entries) (keys_of places.entries) },
    ghost held: { IsWithinLimits limits (node_graph names nodes.entries places.entries) } by { Prim.hlevel props },
}

impl BlockGraph {
    ghost use Rattle.block_graph.specs.Meaning.{graph_in};

    /// The empty graph under these limits, which have to be fair, with seed 0.
    pub fn new(alloc: Global, limits: &Limits) -> BlockGraph
        requires { IsFair limits.now }
        ensures graph { graph_in result ≡ empty_graph }
        ensures limits { result.limits ≡ limits.now }
    {
        BlockGraph::with_seed(alloc, limits, 0)
    }

    /// The empty graph under these limits, which have to be fair. Its ids, triples and label names hash from `seed`.
    pub fn with_seed(alloc: Global, limits: &Limits, seed: u64) -> BlockGraph
        requires { IsFair limits.now }
        ensures graph { graph_in result ≡ empty_graph }
        ensures limits { result.limits ≡ limits.now }
    {
        let hasher = SeededState::new(seed);
        BlockGraph {
            limits: *limits,
            seed,
            names: Names::new(alloc, hasher),
            nodes: Nodes::with_hasher(alloc, hasher),
            blocks: Blocks::new(alloc),
            places: Standing::with_hasher(alloc, hasher),
        }
    }
}
