//! Searches at a triple beside a vertex of many triples, which go along the shorter row of another neighbour.
ghost use Rattle.flux_model.specs.Tree.{BelongsTo};

use dcg_transition::build;
use flux_model::{Labels, Maps, Pattern, Steps, Tally};
use graph_traits::{KeepGraph, ReadGraph};
use query_tree::QueryTree;
use std::alloc::Global;
use std::test::Fail;
use tree_search::at_edge;
use worked_parts::{
    Parts, Unmade, are_maps, block_graph_of, first, graph_of, insert, patterns_of, tree_of,
    triple_of,
};

/// Two edges from a vertex, and one from the head of the first to that of the second.
const FAN: &str = "p fan hom\nv 0\nv 1\nv 2\ne 0 1 r\ne 0 2 s\ne 1 2 t";

/// The same with the third edge the other way round.
const FAN_BACK: &str = "p fan hom\nv 0\nv 1\nv 2\ne 0 1 r\ne 0 2 s\ne 2 1 t";

/// A search at a triple over the graph that `add_fan` makes, which finds one embedding.
#[derive(Clone, Copy)]
struct Fan {
    pattern: &'static str,
    /// The triple between the ends of the first two edges.
    between: Parts,
    number: usize,
    triple: Parts,
}

/// The third vertex is reached from vertex 1, which has a thousand triples, or from vertex 2, which has two.
const ALONG: Fan = Fan {
    pattern: FAN,
    between: (2, "t", 3),
    number: 0,
    triple: (1, "r", 2),
};

const FANS: [Fan; 4] = [
    ALONG,
    Fan {
        number: 2,
        triple: (2, "t", 3),
        ..ALONG
    },
    Fan {
        pattern: FAN_BACK,
        between: (3, "t", 2),
        ..ALONG
    },
    Fan {
        pattern: FAN_BACK,
        between: (3, "t", 2),
        number: 2,
        triple: (3, "t", 2),
    },
];

/// Adds the vertices 3 to 1,002, each with a triple of the label `s` to it from vertex 1, and a triple between two of these.
fn add_fan<G: KeepGraph>(alloc: Global, graph: &mut G, between: Parts) -> Result<(), Unmade> {
    let labels = Labels::new(alloc);
    for id in 3..1003 {
        if let Err(code) = graph.add_vertex(id, &labels)? {
            return Err(Unmade::Refused(code));
        }
        insert(alloc, graph, (1, "s", id))?;
    }
    insert(alloc, graph, between)
}

/// Whether the class of one edge is that of the vertices 1, 2 and 3, and is found in few steps.
fn is_near<G: ReadGraph<Tally>>(
    alloc: Global,
    pattern: &Pattern,
    tree: &QueryTree,
    graph: &G,
    fan: &Fan,
) -> Result<bool, Unmade>
    requires { BelongsTo pattern.now tree.now }
{
    if fan.number >= pattern.edge_count() {
        return Ok(false);
    }
    let triple = triple_of(alloc, fan.triple)?;
    let dcg = build(alloc, pattern, tree, graph, &mut Steps::new(Tally::new()))?;
    let mut maps = Maps::new(alloc);
    let mut steps = Steps::new(Tally::new());
    at_edge(
        pattern, tree, &dcg, graph, fan.number, &triple, &mut maps, &mut steps,
    )?;
    Ok(are_maps(&maps, &[&[1, 2, 3]]) && steps.ledger().read() < 20)
}

/// The graph before a fan is added.
const HEAD: &str = "v 1\nv 2\ne 1 2 r";

/// Whether a search over a fan, which is added to a store of its head, is as it should be.
fn is_right_over<G: KeepGraph + ReadGraph<Tally>>(
    alloc: Global,
    graph: &mut G,
    fan: &Fan,
) -> Result<bool, Unmade> {
    add_fan(alloc, graph, fan.between)?;
    let patterns = patterns_of(alloc, fan.pattern)?;
    let pattern = first(&patterns)?;
    let tree = tree_of(alloc, pattern, &[1, 1, 2], &[1, 1, 1])?;
    is_near(alloc, pattern, &tree, graph, fan)
}

/// Whether it is so over the store of hashed triples.
fn is_right_in_labels(alloc: Global, fan: &Fan) -> Result<bool, Unmade> {
    let mut graph = graph_of(alloc, HEAD)?;
    is_right_over(alloc, &mut graph, fan)
}

/// Whether it is so over the store of blocks.
fn is_right_in_blocks(alloc: Global, fan: &Fan) -> Result<bool, Unmade> {
    let mut graph = block_graph_of(alloc, HEAD)?;
    is_right_over(alloc, &mut graph, fan)
}

/// How many fans, from the first on, are as they should be.
fn count_right(alloc: Global, fans: &[Fan]) -> Result<usize, Unmade> {
    for i in 0..fans.len() {
        if !is_right_in_labels(alloc, &fans[i])? || !is_right_in_blocks(alloc, &fans[i])? {
            return Ok(i);
        }
    }
    Ok(fans.len())
}

#[test]
fn the_short_row_of_another_neighbour_is_walked(rt: HostRuntime) -> Result<(), Fail> {
    assert_eq!(rt; count_right(rt.alloc(), &FANS)?, FANS.len());
    Ok(())
}
