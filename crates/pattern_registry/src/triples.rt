//! How the rows of the patterns move with a triple, along the route of its label, and what the patterns gain or lose by it.
ghost use Rattle.std.specs.Prelude.{◌≡◌, ◌≤◌, ◌+◌, sum_by, true, false, IfOk, OnOk};
ghost use Rattle.std.specs.List.{zip};
ghost use Rattle.flux_model.specs.Deltas.{AreReordered};
ghost use Rattle.flux_model.specs.Graph.{has_both_ends, has_triple, with_triple, without_triple};
ghost use Rattle.pattern_registry.specs.MovedRows.{trees_of, AreKept, deltas_of, gain, loss};
ghost use Rattle.pattern_registry.specs.Routes.{places_with};
ghost use Rattle.pattern_registry.specs.UpdateCosts.{both_costs, looks_cost, rows_cost};

use crate::index::PatternIndex;
use flux_model::{Delta, Deltas, Ledger, Maps, Patterns, Steps, Triple};
use graph_traits::{HoldGraph, ReadGraph};
use std::alloc::{AllocError, Global};

/// Makes the rows exact over the graph, where they are so over the graph without the triple, which it has: what the patterns
/// gain by it.
///
/// The trees stay, also at `AllocError`.
pub(crate) fn insert_along<G: ReadGraph<L>, L: Ledger>(
    alloc: Global,
    patterns: &Patterns,
    indexes: &mut Vec<PatternIndex>,
    route: &[usize],
    graph: &G,
    triple: &Triple,
    steps: &mut Steps<L>,
) -> Result<Deltas, AllocError>
    requires route { route.now ≡ places_with 0 triple.now.label patterns.now }
    requires ends { has_both_ends (G.graph graph.now) triple.now ≡ true }
    requires stands { has_triple (G.graph graph.now) triple.now ≡ true }
    requires was { AreKept (without_triple (G.graph graph.now) triple.now) patterns.now indexes.old.items }
    ensures kept { OnOk result (AreKept (G.graph graph.now) patterns.now indexes.new.items) }
    ensures deltas { let g = G.graph graph.now in
        IfOk result (λ deltas. AreReordered (deltas_of (gain (without_triple g triple.now) g) 0 patterns.now) deltas) }
    ensures trees { trees_of indexes.new.items ≡ trees_of indexes.old.items }
    ensures steps { let g = G.graph graph.now in let indexed = zip patterns.now (trees_of indexes.old.items) in
        OnOk result (steps.new ≤ steps.old + sum_by (both_costs (without_triple g triple.now) g triple.now) indexed) }
{
    // For the proof: what every graph keeps.
    let _count = graph.edge_count();
    let mut deltas = Deltas::new(alloc);
    for i in 0..route.len() {
        let k = route[i];
        let pattern = patterns.get(k);
        let gained = indexes[k].insert(alloc, pattern, graph, triple, steps)?;
        let delta = Delta {
            pattern: k,
            gained,
            lost: Maps::new(alloc),
        };
        deltas.add_unless_empty(delta)?;
    }
    Ok(deltas)
}

/// What the patterns lose where the triple, which the graph has, is taken from it. The rows have to be exact over the graph.
pub(crate) fn losses_along<G: ReadGraph<L>, L: Ledger>(
    alloc: Global,
    patterns: &Patterns,
    indexes: &Vec<PatternIndex>,
    route: &[usize],
    graph: &G,
    triple: &Triple,
    steps: &mut Steps<L>,
) -> Result<Deltas, AllocError>
    requires route { route.now ≡ places_with 0 triple.now.label patterns.now }
    requires stands { has_triple (G.graph graph.now) triple.now ≡ true }
    requires kept { AreKept (G.graph graph.now) patterns.now indexes.now.items }
    ensures deltas { let g = G.graph graph.now in
        IfOk result (λ deltas. AreReordered (deltas_of (loss g (without_triple g triple.now)) 0 patterns.now) deltas) }
    ensures steps { let indexed = zip patterns.now (trees_of indexes.now.items) in
        OnOk result (steps.new ≤ steps.old + sum_by (looks_cost (G.graph graph.now) triple.now) indexed) }
{
    // For the proof: what every graph keeps.
    let _count = graph.edge_count();
    let mut deltas = Deltas::new(alloc);
    for i in 0..route.len() {
        let k = route[i];
        let pattern = patterns.get(k);
        let lost = indexes[k].embeddings_using(alloc, pattern, graph, triple, steps)?;
        let delta = Delta {
            pattern: k,
            gained: Maps::new(alloc),
            lost,
        };
        deltas.add_unless_empty(delta)?;
    }
    Ok(deltas)
}

/// Makes the rows exact over the graph, where they are so over the graph with the triple, which it does not have.
pub(crate) fn delete_along<G: ReadGraph<L>, L: Ledger>(
    patterns: &Patterns,
    indexes: &mut Vec<PatternIndex>,
    route: &[usize],
    graph: &G,
    triple: &Triple,
    steps: &mut Steps<L>,
)
    requires route { route.now ≡ places_with 0 triple.now.label patterns.now }
    requires ends { has_both_ends (G.graph graph.now) triple.now ≡ true }
    requires gone { has_triple (G.graph graph.now) triple.now ≡ false }
    requires was { AreKept (with_triple (G.graph graph.now) triple.now) patterns.now indexes.old.items }
    ensures kept { AreKept (G.graph graph.now) patterns.now indexes.new.items }
    ensures trees { trees_of indexes.new.items ≡ trees_of indexes.old.items }
    ensures steps { let g = G.graph graph.now in let indexed = zip patterns.now (trees_of indexes.old.items) in
        steps.new ≤ steps.old + sum_by (rows_cost g (with_triple g triple.now) triple.now) indexed }
{
    for i in 0..route.len() {
        let k = route[i];
        let pattern = patterns.get(k);
        indexes[k].delete(pattern, graph, triple, steps);
    }
}
