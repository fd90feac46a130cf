//! What sends one edge of a pattern to a triple, and no edge of a lower number, worked out by hand.
ghost use Rattle.flux_model.specs.Tree.{BelongsTo};

use dcg_transition::build;
use flux_model::{Labels, Maps, Pattern, Steps, Tally, Text};
use graph_traits::{KeepGraph, ReadGraph};
use query_tree::QueryTree;
use std::alloc::Global;
use std::test::Fail;
use tree_search::at_edge;
use worked_parts::shapes::{BOTH, CHAIN, HOOK, TRIANGLE};
use worked_parts::{
    Parts, Unmade, are_maps, block_graph_of, first, graph_of, insert, patterns_of, tree_of,
    triple_of,
};

const ISO_CHAIN: &str = "p chain iso\nv 0\nv 1\nv 2\ne 0 1 r\ne 1 2 r";

/// The embeddings of a pattern that send one edge to a triple, and no edge of a lower number.
#[derive(Clone, Copy)]
struct Class {
    graph: &'static str,
    pattern: &'static str,
    /// The cards by which the tree is chosen.
    edges: &'static [u64],
    vertices: &'static [u64],
    number: usize,
    triple: Parts,
    /// The embeddings, in ascending order.
    class: &'static [&'static [u32]],
    /// Where the search goes on, 4 more than the number of edges, times 2 and each row that it may read with one more.
    most_steps: u64,
}

/// A path over a loop.
const AT_LOOP: Class = Class {
    graph: "v 1\ne 1 1 r",
    pattern: CHAIN,
    edges: &[1, 1],
    vertices: &[1, 1, 1],
    number: 0,
    triple: (1, "r", 1),
    class: &[],
    most_steps: (2 + 4) * (2 + 3 + 3),
};

/// A path over one triple, whose ends are not explicit.
const AT_IMPLICIT: Class = Class {
    graph: "v 1\nv 2\ne 1 2 r",
    triple: (1, "r", 2),
    most_steps: 2,
    ..AT_LOOP
};

/// A triangle over a triangle. The edge 0 -> 1 is left out of the tree.
const AT_TRIANGLE: Class = Class {
    graph: "v 1\nv 2\nv 3\ne 1 2 r\ne 2 3 r\ne 3 1 r",
    pattern: TRIANGLE,
    edges: &[2, 1, 1],
    vertices: &[1, 1, 1],
    number: 0,
    triple: (3, "r", 1),
    class: &[],
    most_steps: (3 + 4) * (2 + 3 + 3),
};

const CLASSES: [Class; 15] = [
    // A path that goes round a loop is listed under its first edge alone.
    Class {
        class: &[&[1, 1, 1]],
        ..AT_LOOP
    },
    Class {
        number: 1,
        ..AT_LOOP
    },
    // It goes round none in mode iso.
    Class {
        pattern: ISO_CHAIN,
        ..AT_LOOP
    },
    Class {
        pattern: ISO_CHAIN,
        number: 1,
        ..AT_LOOP
    },
    // Nothing is searched where an end is implicit.
    AT_IMPLICIT,
    Class {
        number: 1,
        ..AT_IMPLICIT
    },
    // Each edge of a triangle has its turn.
    Class {
        class: &[&[3, 1, 2]],
        ..AT_TRIANGLE
    },
    Class {
        number: 1,
        class: &[&[2, 3, 1]],
        ..AT_TRIANGLE
    },
    Class {
        number: 2,
        class: &[&[1, 2, 3]],
        ..AT_TRIANGLE
    },
    // A triple that serves all three is listed under the first.
    Class {
        graph: "v 1\ne 1 1 r",
        triple: (1, "r", 1),
        class: &[&[1, 1, 1]],
        ..AT_TRIANGLE
    },
    Class {
        graph: "v 1\ne 1 1 r",
        triple: (1, "r", 1),
        number: 1,
        ..AT_TRIANGLE
    },
    Class {
        graph: "v 1\ne 1 1 r",
        triple: (1, "r", 1),
        number: 2,
        ..AT_TRIANGLE
    },
    // A loop is not entered by a triple of two ends.
    Class {
        graph: "v 1\nv 2\ne 1 2 r\ne 2 2 r",
        pattern: HOOK,
        vertices: &[1, 1],
        number: 1,
        triple: (1, "r", 2),
        most_steps: 2,
        ..AT_LOOP
    },
    // An edge of another label takes no step.
    Class {
        graph: "v 1\nv 2\ne 1 2 r\ne 1 2 s",
        pattern: BOTH,
        vertices: &[1, 1],
        number: 1,
        triple: (1, "r", 2),
        most_steps: 0,
        ..AT_LOOP
    },
    // Where the triple does not stand, nothing is found.
    Class {
        triple: (1, "r", 3),
        ..AT_TRIANGLE
    },
];

/// A vertex with the label `x`, from which an edge of the label `r` leads to one of the label `s`.
const ENTRY: &str = "p entry hom\nv 0 x\nv 1\nv 2\ne 0 1 r\ne 1 2 s";

/// Such a path over the graph that `add_spokes` makes: the rows that it may read have more than a thousand turns, the index two vertices.
const AT_HUB: Class = Class {
    graph: "v 1\ne 1 1 s",
    pattern: ENTRY,
    edges: &[0, 1],
    vertices: &[1, 1, 1],
    number: 1,
    triple: (1, "s", 1),
    class: &[&[2, 1, 1], &[3, 1, 1]],
    most_steps: 19,
};

/// Adds a triple of the label `r` to vertex 1 from each of the vertices 2 to 1,001, the first two of which have the label `x`.
fn add_spokes<G: KeepGraph>(alloc: Global, graph: &mut G) -> Result<(), Unmade> {
    for id in 2..1002 {
        add_spoke(alloc, graph, id)?;
    }
    Ok(())
}

/// Adds a vertex, which has the label `x` where its id is below 4, and a triple of the label `r` from it to vertex 1.
fn add_spoke<G: KeepGraph>(alloc: Global, graph: &mut G, id: u32) -> Result<(), Unmade> {
    let mut labels = Labels::new(alloc);
    if id < 4 {
        labels.add(Text::from_bytes(alloc, b"x")?)?;
    }
    if let Err(code) = graph.add_vertex(id, &labels)? {
        return Err(Unmade::Refused(code));
    }
    insert(alloc, graph, (id, "r", 1))
}

/// Whether the class of one edge is as it should be, and is found in few steps.
fn is_class<G: ReadGraph<Tally>>(
    alloc: Global,
    pattern: &Pattern,
    tree: &QueryTree,
    graph: &G,
    row: &Class,
) -> Result<bool, Unmade>
    requires { BelongsTo pattern.now tree.now }
{
    if row.number >= pattern.edge_count() {
        return Ok(false);
    }
    let triple = triple_of(alloc, row.triple)?;
    let dcg = build(alloc, pattern, tree, graph, &mut Steps::new(Tally::new()))?;
    let mut maps = Maps::new(alloc);
    let mut steps = Steps::new(Tally::new());
    at_edge(
        pattern, tree, &dcg, graph, row.number, &triple, &mut maps, &mut steps,
    )?;
    maps.sort()?;
    Ok(are_maps(&maps, row.class) && steps.ledger().read() <= row.most_steps)
}

/// Whether the class of a row over a graph is as it should be.
fn is_right_over<G: ReadGraph<Tally>>(
    alloc: Global,
    graph: &G,
    row: &Class,
) -> Result<bool, Unmade> {
    let patterns = patterns_of(alloc, row.pattern)?;
    let pattern = first(&patterns)?;
    let tree = tree_of(alloc, pattern, row.edges, row.vertices)?;
    is_class(alloc, pattern, &tree, graph, row)
}

/// Whether it is so over the store of hashed triples.
fn is_right_in_labels(alloc: Global, row: &Class) -> Result<bool, Unmade> {
    let graph = graph_of(alloc, row.graph)?;
    is_right_over(alloc, &graph, row)
}

/// Whether it is so over the store of blocks.
fn is_right_in_blocks(alloc: Global, row: &Class) -> Result<bool, Unmade> {
    let graph = block_graph_of(alloc, row.graph)?;
    is_right_over(alloc, &graph, row)
}

/// How many rows, from the first on, are as they should be.
fn count_right(alloc: Global, rows: &[Class]) -> Result<usize, Unmade> {
    for i in 0..rows.len() {
        if !is_right_in_labels(alloc, &rows[i])? || !is_right_in_blocks(alloc, &rows[i])? {
            return Ok(i);
        }
    }
    Ok(rows.len())
}

/// Whether the class of a row over a store of its graph, to which the hub is added, is as it should be.
fn is_right_at_hub<G: KeepGraph + ReadGraph<Tally>>(
    alloc: Global,
    graph: &mut G,
    row: &Class,
) -> Result<bool, Unmade> {
    add_spokes(alloc, graph)?;
    is_right_over(alloc, graph, row)
}

#[test]
fn embeddings_that_send_an_edge_to_a_triple(rt: HostRuntime) -> Result<(), Fail> {
    assert_eq!(rt; count_right(rt.alloc(), &CLASSES)?, CLASSES.len());
    Ok(())
}

/// Whether it is so over the store of hashed triples.
fn is_right_at_hub_in_labels(alloc: Global, row: &Class) -> Result<bool, Unmade> {
    let mut graph = graph_of(alloc, row.graph)?;
    is_right_at_hub(alloc, &mut graph, row)
}

/// Whether it is so over the store of blocks.
fn is_right_at_hub_in_blocks(alloc: Global, row: &Class) -> Result<bool, Unmade> {
    let mut graph = block_graph_of(alloc, row.graph)?;
    is_right_at_hub(alloc, &mut graph, row)
}

#[test]
fn at_a_hub_the_few_vertices_of_the_index_are_walked(rt: HostRuntime) -> Result<(), Fail> {
    let alloc = rt.alloc();
    assert!(rt;
        is_right_at_hub_in_labels(alloc, &AT_HUB)? && is_right_at_hub_in_blocks(alloc, &AT_HUB)?
    );
    Ok(())
}
