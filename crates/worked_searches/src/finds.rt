//! Searches over any store of a graph.
ghost use Rattle.flux_model.specs.Tree.{BelongsTo};

use dcg_transition::build;
use flux_model::{Maps, Pattern, Steps, Tally};
use graph_traits::ReadGraph;
use query_tree::QueryTree;
use std::alloc::{AllocError, Global};
use tree_search::all;
use worked_parts::are_maps;

/// Adds all that is found.
pub(crate) fn add_found<G: ReadGraph<Tally>>(
    alloc: Global,
    pattern: &Pattern,
    tree: &QueryTree,
    graph: &G,
    maps: &mut Maps,
) -> Result<(), AllocError>
    requires { BelongsTo pattern.now tree.now }
{
    let mut steps = Steps::new(Tally::new());
    let dcg = build(alloc, pattern, tree, graph, &mut steps)?;
    all(pattern, tree, &dcg, graph, maps, &mut steps)
}

/// All that is found, in ascending order.
pub(crate) fn found_in<G: ReadGraph<Tally>>(
    alloc: Global,
    pattern: &Pattern,
    tree: &QueryTree,
    graph: &G,
) -> Result<Maps, AllocError>
    requires { BelongsTo pattern.now tree.now }
{
    let mut maps = Maps::new(alloc);
    add_found(alloc, pattern, tree, graph, &mut maps)?;
    maps.sort()?;
    Ok(maps)
}

/// Whether this is all that is found, in ascending order.
pub(crate) fn finds<G: ReadGraph<Tally>>(
    alloc: Global,
    pattern: &Pattern,
    tree: &QueryTree,
    graph: &G,
    expected: &[&[u32]],
) -> Result<bool, AllocError>
    requires { BelongsTo pattern.now tree.now }
{
    let maps = found_in(alloc, pattern, tree, graph)?;
    Ok(are_maps(&maps, expected))
}
