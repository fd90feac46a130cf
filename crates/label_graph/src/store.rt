//! `LabelGraph`: a graph with rows and a hashed look-up of its triples.
ghost use Rattle.std.specs.Prelude.{◌≡◌, map};
ghost use Rattle.std.specs.Map.{keys_of};
ghost use Rattle.std.proofs.Props.{props};
ghost use Rattle.flux_model.specs.Graph.{empty_graph};
ghost use Rattle.flux_model.specs.Limits.{IsFair};
ghost use Rattle.graph_traits.specs.WithinLimits.{IsWithinLimits};
ghost use Rattle.label_graph.specs.Places.{ArePlaced, vertex_of};
ghost use Rattle.label_graph.specs.Store.{IsNamed, node_graph};

use crate::hashed::{Nodes, Standing};
use crate::link::{Link, Node, Places};
use crate::names::Names;
use flux_model::Limits;
use seeded_hash::SeededState;
use std::alloc::Global;

mod hold;
pub mod keep;
mod read;
pub mod vertices;

/// A graph under limits. Each vertex has its rows as vectors, and each triple knows its places in them.
///
/// An insertion, a removal and a test of a triple cost one hashed look-up of the triple and a fixed number of others,
/// whatever the degrees of its ends.
#[derive(Drop)]
pub struct LabelGraph {
    limits: Limits,
    seed: u64,
    names: Names,
    nodes: Nodes,
    places: Standing,
    ghost placed: { ArePlaced nodes.entries places.entries },
    ghost named: { IsNamed names (map vertex_of nodes.entries) (keys_of places.entries) },
    ghost held: { IsWithinLimits limits (node_graph names nodes.entries places.entries) } by { Prim.hlevel props },
}

impl LabelGraph {
    ghost use Rattle.label_graph.specs.Meaning.{graph_in};

    /// The empty graph under these limits, which have to be fair, with seed 0.
    pub fn new(alloc: Global, limits: &Limits) -> LabelGraph
        requires { IsFair limits.now }
        ensures graph { graph_in result ≡ empty_graph }
        ensures limits { result.limits ≡ limits.now }
    {
        LabelGraph::with_seed(alloc, limits, 0)
    }

    /// The empty graph under these limits, which have to be fair. Its ids, triples and label names hash from `seed`.
    pub fn with_seed(alloc: Global, limits: &Limits, seed: u64) -> LabelGraph
        requires { IsFair limits.now }
        ensures graph { graph_in result ≡ empty_graph }
        ensures limits { result.limits ≡ limits.now }
    {
        let hasher = SeededState::new(seed);
        LabelGraph {
            limits: *limits,
            seed,
            names: Names::new(alloc, hasher),
            nodes: Nodes::with_hasher(alloc, hasher),
            places: Standing::with_hasher(alloc, hasher),
        }
    }
}
