//! Graphs, patterns, updates and trees, made of short texts.
ghost use Rattle.std.specs.Prelude.{◌≡◌, Ok, Some, IfOk, slice_get};
ghost use Rattle.flux_model.specs.Lines.{held};
ghost use Rattle.flux_model.specs.Graph.{empty_graph};
ghost use Rattle.flux_model.specs.Limits.{standard};
ghost use Rattle.flux_model.specs.Reading.{update_reading};
ghost use Rattle.flux_model.specs.Tree.{BelongsTo, tree_for};
ghost use Rattle.flux_model.specs.Verdict.{graph_file, pattern_file};
ghost use Rattle.flux_model.specs.declared.said.Said.TheVariants.{Says};
ghost use Rattle.flux_outside.specs.MemShelf.{bytes_of};
ghost use Rattle.block_graph.specs.Meaning.{graph_in as graph_in_blocks};
ghost use Rattle.label_graph.specs.Meaning.{graph_in as graph_in_labels};

use crate::unmade::Unmade;
use block_graph::BlockGraph;
use file_reading::{read_patterns, read_store};
use flux_model::{Cards, Limits, Line, Pattern, Patterns, Said, Update};
use flux_outside::MemShelf;
use graph_traits::KeepGraph;
use label_graph::LabelGraph;
use line_grammar::read_update_line;
use query_tree::QueryTree;
use std::alloc::{AllocError, Global};

/// The name of the only file of a shelf.
const NAME: &str = "text";

/// A shelf with one file, which has this name and this text.
fn shelf_of(alloc: Global, name: &str, text: &str) -> Result<MemShelf, AllocError>
    ensures { IfOk result (λ shelf. bytes_of shelf.entries name.now ≡ Some text.now) }
{
    let mut shelf = MemShelf::new(alloc);
    shelf.add(name, text.as_bytes())?;
    Ok(shelf)
}

/// The store, which was empty, with the graph that a graph file of this text is accepted as.
fn graph_in<G: KeepGraph>(alloc: Global, text: &str, empty: G) -> Result<G, Unmade>
    requires limits { G.limits empty ≡ standard }
    requires empty { G.graph empty ≡ empty_graph }
    ensures { IfOk result (λ graph. graph_file standard (Some text.now) ≡ Ok (G.graph graph)) }
{
    let limits = Limits::standard();
    let mut shelf = shelf_of(alloc, NAME, text)?;
    let graph = read_store(alloc, &limits, &mut shelf, NAME, empty)?;
    Ok(graph)
}

/// The graph that a graph file of this text is accepted as, in a store of hashed triples.
pub fn graph_of(alloc: Global, text: &str) -> Result<LabelGraph, Unmade>
    ensures { IfOk result (λ graph. graph_file standard (Some text.now) ≡ Ok (graph_in_labels graph)) }
{
    graph_in(alloc, text, LabelGraph::new(alloc, &Limits::standard()))
}

/// The same graph, in a store of blocks.
pub fn block_graph_of(alloc: Global, text: &str) -> Result<BlockGraph, Unmade>
    ensures { IfOk result (λ graph. graph_file standard (Some text.now) ≡ Ok (graph_in_blocks graph)) }
{
    graph_in(alloc, text, BlockGraph::new(alloc, &Limits::standard()))
}

/// The patterns that a pattern file of this text is accepted as.
pub fn patterns_of(alloc: Global, text: &str) -> Result<Patterns, Unmade>
    ensures { IfOk result (λ patterns. pattern_file standard (Some text.now) ≡ Ok patterns) }
{
    let limits = Limits::standard();
    let mut shelf = shelf_of(alloc, NAME, text)?;
    let patterns = read_patterns(alloc, &limits, &mut shelf, NAME)?;
    Ok(patterns)
}

/// The first pattern.
pub fn first(patterns: &Patterns) -> Result<&Pattern, Unmade>
    ensures { IfOk result (λ pattern. slice_get patterns.now 0 ≡ Some pattern.now) }
{
    if patterns.count() == 0 {
        return Err(Unmade::NoPattern);
    }
    Ok(patterns.get(0))
}

/// What a line of updates says.
pub fn update_of(alloc: Global, line: &str) -> Result<Update, Unmade>
    ensures { IfOk result (λ update. update_reading (held line.now) ≡ Says update) }
{
    match read_update_line(alloc, &Line::Held(line.as_bytes()))? {
        Said::Says(update) => Ok(update),
        Said::Refused(code) => Err(Unmade::Refused(code)),
        Said::Nothing => Err(Unmade::Silent),
    }
}

/// The tree of the pattern that these cards of its edges and of its vertices choose.
pub fn tree_of(
    alloc: Global,
    pattern: &Pattern,
    edges: &[u64],
    vertices: &[u64],
) -> Result<QueryTree, Unmade>
    ensures tree { IfOk result (λ tree. tree ≡ tree_for pattern.now edges.now vertices.now) }
    ensures belongs { IfOk result (λ tree. BelongsTo pattern.now tree) }
{
    if edges.len() != pattern.edge_count() || vertices.len() != pattern.vertex_count() {
        return Err(Unmade::NoCard);
    }
    let cards = Cards::new(edges.to_vec(alloc)?, vertices.to_vec(alloc)?);
    let tree = QueryTree::choose(alloc, pattern, &cards)?;
    Ok(tree)
}
