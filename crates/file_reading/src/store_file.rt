//! A graph file: its lines go into a store.
ghost use Rattle.std.specs.Prelude.{false};
ghost use Rattle.file_reading.specs.AfterLine.{after_graph_line};

use crate::take::TakeLine;
use flux_model::{Bad, Line};
use graph_traits::KeepGraph;
use std::alloc::{AllocError, Global};
use std::marker::Model;
use watch_core::take_graph_line;

/// A store that takes the lines of a graph file.
#[derive(Drop)]
pub struct StoreReader<G: KeepGraph> {
    pub graph: G,
}

impl<G: KeepGraph> Model for StoreReader<G> {
    ghost use Rattle.flux_model.specs.Graph.{LimitedGraph};

    ghost Value = { LimitedGraph };

    ghost view = { λ s. record { limits = G.limits s.graph; graph = G.graph s.graph } };
}

impl<G: KeepGraph> TakeLine for StoreReader<G> {
    ghost after_line = { after_graph_line };

    ghost is_spent = { λ _. false };

    fn accept(
        &mut self,
        alloc: Global,
        number: u64,
        line: &Line<'_>,
    ) -> Result<Result<(), Bad>, AllocError> {
        if let Err(code) = take_graph_line(alloc, &mut self.graph, line)? {
            return Ok(Err(Bad { line: number, code }));
        }
        Ok(Ok(()))
    }
}
