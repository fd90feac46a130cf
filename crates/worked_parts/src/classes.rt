//! What a search finds at a triple.
ghost use Rattle.flux_model.specs.Tree.{BelongsTo};

use dcg_transition::build;
use flux_model::{Maps, Pattern, Steps, Tally, Triple};
use graph_traits::ReadGraph;
use query_tree::QueryTree;
use std::alloc::{AllocError, Global};
use tree_search::at_edge;

/// Adds what sends some edge of the pattern to the triple: the classes of all edges. Then the maps ascend.
pub fn add_classes<G: ReadGraph<Tally>>(
    alloc: Global,
    pattern: &Pattern,
    tree: &QueryTree,
    graph: &G,
    triple: &Triple,
    maps: &mut Maps,
) -> Result<(), AllocError>
    requires { BelongsTo pattern.now tree.now }
{
    let mut steps = Steps::new(Tally::new());
    let dcg = build(alloc, pattern, tree, graph, &mut steps)?;
    for i in 0..pattern.edge_count() {
        at_edge(pattern, tree, &dcg, graph, i, triple, maps, &mut steps)?;
    }
    maps.sort()
}
