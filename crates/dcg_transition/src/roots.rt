//! The vertices that fit a set of labels.
ghost use Rattle.std.specs.Prelude.{◌≡◌, ◌≤◌, ◌+◌, ◌*◌, length, IfOk, OnOk};
ghost use Rattle.dcg_transition.specs.Roots.{with_labels};

use flux_model::{Labels, Ledger, Steps};
use graph_traits::{HoldGraph, ReadGraph};
use std::alloc::{AllocError, Global};

/// The vertices of the graph that have each of the labels, in the order in which the graph has its vertices.
///
/// It takes at most two steps for each vertex of the graph. `AllocError` where no memory is left.
pub fn fitting<G: ReadGraph<L>, L: Ledger>(
    alloc: Global,
    graph: &G,
    labels: &Labels,
    steps: &mut Steps<L>,
) -> Result<Vec<u32>, AllocError>
    ensures vertices { IfOk result (λ vertices. vertices.items ≡ with_labels (G.graph graph.now) labels.now (G.listed graph.now)) }
    ensures steps { OnOk result (steps.new ≤ steps.old + 2 * length (G.graph graph.now).vertices) }
{
    let mut vertices = Vec::new(alloc);
    for i in 0..graph.vertex_count() {
        let v = graph.vertex_at(i, steps);
        if graph.fits(v, labels, steps) {
            vertices.push(v)?;
        }
    }
    Ok(vertices)
}
