//! A change of a graph, and of its states with it, over any store.
ghost use Rattle.std.specs.Prelude.{OnOk};
ghost use Rattle.flux_model.specs.Exact.{IsExact};
ghost use Rattle.flux_model.specs.Tree.{BelongsTo};

use dcg_store::Dcg;
use dcg_updates::{after_delete, after_insert, after_vertex};
use flux_model::{Code, Labels, Ledger, Pattern, Steps, Triple, Update};
use graph_traits::{KeepGraph, ReadGraph};
use query_tree::QueryTree;
use std::alloc::AllocError;

/// Makes the change of an update in the graph, and then in the states. A refusal changes neither.
pub(crate) fn make<G: KeepGraph + ReadGraph<L>, L: Ledger>(
    pattern: &Pattern,
    tree: &QueryTree,
    dcg: &mut Dcg,
    graph: &mut G,
    update: &Update,
    steps: &mut Steps<L>,
) -> Result<Result<(), Code>, AllocError>
    requires belongs { BelongsTo pattern.now tree.now }
    requires was { IsExact pattern.now tree.now (G.graph graph.old) dcg.old }
    ensures exact { OnOk result (IsExact pattern.now tree.now (G.graph graph.new) dcg.new) }
{
    match update {
        Update::AddVertex { id, labels } => {
            add_vertex(pattern, tree, dcg, graph, *id, labels, steps)
        }
        Update::DropVertex { id } => remove_vertex(pattern, tree, dcg, graph, *id, steps),
        Update::AddEdge(triple) => insert(pattern, tree, dcg, graph, triple, steps),
        Update::DropEdge(triple) => Ok(remove(pattern, tree, dcg, graph, triple, steps)),
    }
}

/// Adds a vertex to the graph, and then to the states.
fn add_vertex<G: KeepGraph + ReadGraph<L>, L: Ledger>(
    pattern: &Pattern,
    tree: &QueryTree,
    dcg: &mut Dcg,
    graph: &mut G,
    id: u32,
    labels: &Labels,
    steps: &mut Steps<L>,
) -> Result<Result<(), Code>, AllocError>
    requires belongs { BelongsTo pattern.now tree.now }
    requires was { IsExact pattern.now tree.now (G.graph graph.old) dcg.old }
    ensures exact { OnOk result (IsExact pattern.now tree.now (G.graph graph.new) dcg.new) }
{
    // For the proof: what every graph keeps.
    let _count = graph.edge_count();
    if let Err(code) = graph.add_vertex(id, labels)? {
        return Ok(Err(code));
    }
    after_vertex(pattern, tree, dcg, graph, id, steps)?;
    Ok(Ok(()))
}

/// Takes a vertex from the graph, and then from the states.
fn remove_vertex<G: KeepGraph + ReadGraph<L>, L: Ledger>(
    pattern: &Pattern,
    tree: &QueryTree,
    dcg: &mut Dcg,
    graph: &mut G,
    id: u32,
    steps: &mut Steps<L>,
) -> Result<Result<(), Code>, AllocError>
    requires belongs { BelongsTo pattern.now tree.now }
    requires was { IsExact pattern.now tree.now (G.graph graph.old) dcg.old }
    ensures exact { OnOk result (IsExact pattern.now tree.now (G.graph graph.new) dcg.new) }
{
    if let Err(code) = graph.remove_vertex(id) {
        return Ok(Err(code));
    }
    after_vertex(pattern, tree, dcg, graph, id, steps)?;
    Ok(Ok(()))
}

/// Adds a triple to the graph, and then to the states.
fn insert<G: KeepGraph + ReadGraph<L>, L: Ledger>(
    pattern: &Pattern,
    tree: &QueryTree,
    dcg: &mut Dcg,
    graph: &mut G,
    triple: &Triple,
    steps: &mut Steps<L>,
) -> Result<Result<(), Code>, AllocError>
    requires belongs { BelongsTo pattern.now tree.now }
    requires was { IsExact pattern.now tree.now (G.graph graph.old) dcg.old }
    ensures exact { OnOk result (IsExact pattern.now tree.now (G.graph graph.new) dcg.new) }
{
    if let Err(code) = graph.insert(triple)? {
        return Ok(Err(code));
    }
    after_insert(pattern, tree, dcg, graph, triple, steps)?;
    Ok(Ok(()))
}

/// Takes a triple from the graph, and then from the states.
fn remove<G: KeepGraph + ReadGraph<L>, L: Ledger>(
    pattern: &Pattern,
    tree: &QueryTree,
    dcg: &mut Dcg,
    graph: &mut G,
    triple: &Triple,
    steps: &mut Steps<L>,
) -> Result<(), Code>
    requires belongs { BelongsTo pattern.now tree.now }
    requires was { IsExact pattern.now tree.now (G.graph graph.old) dcg.old }
    ensures exact { IsExact pattern.now tree.now (G.graph graph.new) dcg.new }
{
    // For the proof: what every graph keeps.
    let _count = graph.edge_count();
    graph.remove(triple)?;
    after_delete(pattern, tree, dcg, graph, triple, steps);
    Ok(())
}
