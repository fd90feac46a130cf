//! How the rows of the patterns move with a vertex at which no triple ends, and what the patterns gain or lose by it.
ghost use Rattle.std.specs.Prelude.{◌≡◌, ◌≤◌, ◌+◌, ◌*◌, ℕ, length, ◌∷◌, [], slice_get, Some, IfOk, OnOk};
ghost use Rattle.dcg_updates.specs.VertexApart.{IsVertexApart};
ghost use Rattle.flux_model.specs.Deltas.{AreReordered};
ghost use Rattle.flux_model.specs.Exact.{IsExact};
ghost use Rattle.flux_model.specs.Graph.{Graph};
ghost use Rattle.flux_model.specs.Pattern.{PatternGraph, IsPattern};
ghost use Rattle.flux_model.specs.Tree.{BelongsTo};
ghost use Rattle.pattern_registry.specs.MovedRows.{trees_of, AreKept, deltas_of};
ghost use Rattle.pattern_registry.specs.SoleVertex.{is_sole, sole_maps, sole_gain, sole_loss};

use crate::index::PatternIndex;
use flux_model::{Delta, Deltas, Ledger, Maps, Pattern, Patterns, State, Steps};
use graph_traits::{HoldGraph, ReadGraph};
use std::alloc::{AllocError, Global};

/// Makes the rows exact over the graph, where they are so over the graph with the vertex `id` more or fewer.
///
/// The trees stay, also at `AllocError`.
pub(crate) fn move_all<G: ReadGraph<L>, L: Ledger>(
    patterns: &Patterns,
    indexes: &mut Vec<PatternIndex>,
    graph: &G,
    id: u32,
    steps: &mut Steps<L>,
) -> Result<(), AllocError>
    requires was { (old : Graph) × IsVertexApart id old (G.graph graph.now) × AreKept old patterns.now indexes.old.items }
    ensures kept { OnOk result (AreKept (G.graph graph.now) patterns.now indexes.new.items) }
    ensures trees { trees_of indexes.new.items ≡ trees_of indexes.old.items }
    ensures steps { OnOk result (steps.new ≤ steps.old + 3 * length patterns.now) }
{
    for k in 0..patterns.count() {
        indexes[k].move_vertex(patterns.get(k), graph, id, steps)?;
    }
    Ok(())
}

/// What the patterns gain where the vertex came. The rows have to be exact over the graph that has it.
pub(crate) fn gains_at<L: Ledger>(
    alloc: Global,
    patterns: &Patterns,
    indexes: &Vec<PatternIndex>,
    id: u32,
    steps: &mut Steps<L>,
) -> Result<Deltas, AllocError>
    requires { (g : Graph) × AreKept g patterns.now indexes.now.items }
    ensures patterns { OnOk result ((k : ℕ) (q : PatternGraph) → slice_get patterns.now k ≡ Some q → IsPattern q) }
    ensures deltas { IfOk result (λ deltas. (g : Graph) → AreKept g patterns.now indexes.now.items
        → AreReordered (deltas_of (sole_gain g id) 0 patterns.now) deltas) }
    ensures steps { OnOk result (steps.new ≤ steps.old + length patterns.now) }
{
    let mut deltas = Deltas::new(alloc);
    for k in 0..patterns.count() {
        let gained = maps_at(alloc, patterns.get(k), &indexes[k], id, steps)?;
        let delta = Delta {
            pattern: k,
            gained,
            lost: Maps::new(alloc),
        };
        deltas.add_unless_empty(delta)?;
    }
    Ok(deltas)
}

/// What the patterns lose where the vertex goes. The rows have to be exact over the graph that has it.
pub(crate) fn losses_at<L: Ledger>(
    alloc: Global,
    patterns: &Patterns,
    indexes: &Vec<PatternIndex>,
    id: u32,
    steps: &mut Steps<L>,
) -> Result<Deltas, AllocError>
    requires { (g : Graph) × AreKept g patterns.now indexes.now.items }
    ensures patterns { OnOk result ((k : ℕ) (q : PatternGraph) → slice_get patterns.now k ≡ Some q → IsPattern q) }
    ensures deltas { IfOk result (λ deltas. (g : Graph) → AreKept g patterns.now indexes.now.items
        → AreReordered (deltas_of (sole_loss g id) 0 patterns.now) deltas) }
    ensures steps { OnOk result (steps.new ≤ steps.old + length patterns.now) }
{
    let mut deltas = Deltas::new(alloc);
    for k in 0..patterns.count() {
        let lost = maps_at(alloc, patterns.get(k), &indexes[k], id, steps)?;
        let delta = Delta {
            pattern: k,
            gained: Maps::new(alloc),
            lost,
        };
        deltas.add_unless_empty(delta)?;
    }
    Ok(deltas)
}

/// The embeddings of the pattern that have the vertex `id`, at which no triple ends: one at most, and only where the pattern has
/// one vertex and no edge.
fn maps_at<L: Ledger>(
    alloc: Global,
    pattern: &Pattern,
    index: &PatternIndex,
    id: u32,
    steps: &mut Steps<L>,
) -> Result<Maps, AllocError>
    requires belongs { BelongsTo pattern.now index.now.tree }
    requires exact { (g : Graph) × IsExact pattern.now index.now.tree g index.now.dcg }
    ensures pattern { IsPattern pattern.now }
    ensures maps { IfOk result (λ maps. (g : Graph) → IsExact pattern.now index.now.tree g index.now.dcg
        → maps ≡ sole_maps pattern.now g id) }
    ensures steps { steps.new ≤ steps.old + 1 }
{
    if !is_sole(pattern) {
        return Ok(Maps::new(alloc));
    }
    let root = index.tree.root();
    match index.dcg.pair_state(root, id, steps) {
        State::Explicit => one_map(alloc, id),
        _ => Ok(Maps::new(alloc)),
    }
}

/// The map of one vertex to the id.
fn one_map(alloc: Global, id: u32) -> Result<Maps, AllocError>
    ensures { IfOk result (λ maps. maps ≡ (id ∷ []) ∷ []) }
{
    let mut maps = Maps::new(alloc);
    maps.add_ids(&[id])?;
    Ok(maps)
}

/// Whether the pattern has one vertex and no edge.
fn is_sole(pattern: &Pattern) -> bool
    ensures value { result ≡ is_sole pattern.now }
    ensures pattern { IsPattern pattern.now }
{
    !(pattern.vertex_count() > 1 || pattern.edge_count() > 0)
}
