//! The cards of one pattern, and of all patterns of a run.
ghost use Rattle.std.specs.Prelude.{◌≡◌, ◌+◌, ◌*◌, ◌≤◌, map, IfOk, OnOk};
ghost use Rattle.std.specs.List.{sum_by};
ghost use Rattle.flux_model.specs.Costs.{start_cost};
ghost use Rattle.flux_model.specs.Tree.{cards};

use crate::pass::Counts;
use crate::plan::Plan;
use flux_model::{Cards, Ledger, Pattern, Patterns, Steps};
use graph_traits::{HoldGraph, ReadGraph};
use std::alloc::{AllocError, Global};

/// How many triples of the graph fit each edge of the pattern, and how many of its vertices fit each vertex of the pattern.
///
/// `AllocError` comes where memory is wanting. The graph is not copied: only what the pattern asks for and the counts take memory.
/// It takes at most a quarter of the steps of a start.
pub fn cards<G: ReadGraph<L>, L: Ledger>(
    alloc: Global,
    graph: &G,
    pattern: &Pattern,
    steps: &mut Steps<L>,
) -> Result<Cards, AllocError>
    ensures cards { IfOk result (λ answer. answer ≡ cards pattern.now (G.graph graph.now)) }
    ensures steps { OnOk result (4 * steps.new ≤ 4 * steps.old + start_cost pattern.now (G.graph graph.now)) }
{
    // For the proof: a pattern has a vertex.
    let _count = pattern.vertex_count();
    let mut plan = Plan::new(alloc);
    let places = plan.add(alloc, graph, pattern)?;
    let counts = Counts::of(alloc, graph, &plan, steps)?;
    let found = counts.cards(alloc, &places)?;
    Ok(found)
}

/// The cards of each pattern, in the order of the patterns.
///
/// The vertices of the graph and their out rows are read once for all patterns together, and not at all where there is no pattern:
/// that takes at most a quarter of the steps of the starts. `AllocError` comes where memory is wanting.
pub fn all_cards<G: ReadGraph<L>, L: Ledger>(
    alloc: Global,
    graph: &G,
    patterns: &Patterns,
    steps: &mut Steps<L>,
) -> Result<Vec<Cards>, AllocError>
    ensures cards { IfOk result (λ answers. answers.items ≡ map (λ q. cards q (G.graph graph.now)) patterns.now) }
    ensures steps { let starts = sum_by (λ q. start_cost q (G.graph graph.now)) patterns.now in
        OnOk result (4 * steps.new ≤ 4 * steps.old + starts) }
{
    if patterns.count() == 0 {
        return Ok(Vec::new(alloc));
    }
    let mut plan = Plan::new(alloc);
    let mut places = Vec::new(alloc);
    for k in 0..patterns.count() {
        let pattern = patterns.get(k);
        // For the proof: a pattern has a vertex.
        let _count = pattern.vertex_count();
        places.push(plan.add(alloc, graph, pattern)?)?;
    }
    let counts = Counts::of(alloc, graph, &plan, steps)?;
    let mut all = Vec::new(alloc);
    for i in 0..places.len() {
        all.push(counts.cards(alloc, &places[i])?)?;
    }
    Ok(all)
}
