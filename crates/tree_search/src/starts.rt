//! Where a search starts: `all` at the root, and `at_edge` at the tail of an edge that is sent to a triple; and `has_none`, where
//! there is nothing to search for.
ghost use Rattle.std.specs.Prelude.{◌≡◌, ◌≤◌, ◌+◌, ◌<◌, [], true, OnOk, OnErr, length};
ghost use Rattle.flux_model.specs.Classes.{edge_class};
ghost use Rattle.flux_model.specs.Costs.{no_dead_end_cost, edge_cost, are_explicit, may_be_sent};
ghost use Rattle.flux_model.specs.Embedding.{embeddings};
ghost use Rattle.flux_model.specs.Exact.{IsExact};
ghost use Rattle.flux_model.specs.Pattern.{HasEnds};
ghost use Rattle.flux_model.specs.States.{joined};
ghost use Rattle.flux_model.specs.Tree.{BelongsTo, edge_at};
ghost use Rattle.tree_search.specs.Members.{GrewByAll, GrewBySome};
ghost use Rattle.tree_search.specs.SearchCosts.{MeetsNoDeadEnd};

use crate::aim::Aim;
use crate::explicit_pairs::{is_barren, is_explicit, order_by_live};
use crate::found::Found;
use crate::search::{Search, extend, may_have, may_take};
use dcg_store::Dcg;
use flux_model::{Ledger, Partial, Pattern, PatternEdge, Steps, Triple};
use graph_traits::{HoldGraph, ReadGraph};
use nontree_test::label_numbers;
use query_tree::QueryTree;
use std::alloc::AllocError;

/// Whether some vertex of the pattern has no explicit pair, so that the pattern has no embedding in the graph. It takes no step.
///
/// The tree has to be the pattern's, and the index exact over the graph.
pub fn has_none<G: HoldGraph>(pattern: &Pattern, _tree: &QueryTree, dcg: &Dcg, graph: &G) -> bool
    requires belongs { BelongsTo pattern.now _tree.now }
    requires exact { IsExact pattern.now _tree.now (G.graph graph.now) dcg.now }
    ensures none { result ≡ true → embeddings pattern.now (G.graph graph.now) ≡ [] }
{
    // For the proof: the graph is one.
    let _count = graph.vertex_count();
    is_barren(pattern, dcg)
}

/// Hands every embedding of the pattern in the graph to `found`, each once.
///
/// The tree has to be the pattern's, and the index exact over the graph. In mode `Hom`, where the tree leaves out no edge, the
/// search has no dead end: it takes no more steps than the vertices of the graph and the rows that lead to the embeddings
/// account for. Fails only for want of memory; what was handed over until then are embeddings, none of them twice.
pub fn all<G: ReadGraph<L>, F: Found, L: Ledger>(
    pattern: &Pattern,
    tree: &QueryTree,
    dcg: &Dcg,
    graph: &G,
    found: &mut F,
    steps: &mut Steps<L>,
) -> Result<(), AllocError>
    requires belongs { BelongsTo pattern.now tree.now }
    requires exact { IsExact pattern.now tree.now (G.graph graph.now) dcg.now }
    ensures found { OnOk result (GrewByAll (F.list found.old) (F.list found.new) (embeddings pattern.now (G.graph graph.now))) }
    ensures some { OnErr result (GrewBySome (F.list found.old) (F.list found.new) (embeddings pattern.now (G.graph graph.now))) }
    ensures steps { OnOk result (MeetsNoDeadEnd pattern.now tree.now
        → steps.new ≤ steps.old + no_dead_end_cost pattern.now tree.now (G.graph graph.now)) }
{
    // For the proof: the graph is one.
    let _count = graph.vertex_count();
    if is_barren(pattern, dcg) {
        return Ok(());
    }
    let root = tree.root();
    let search = Search {
        pattern,
        tree,
        dcg,
        graph,
        aim: Aim::All,
        order: order_by_live(pattern, tree, dcg, root),
        numbers: label_numbers(pattern, graph),
    };
    let mut partial = Partial::new(pattern.vertex_count());
    let roots = dcg.row_vertices(root);
    for i in 0..roots.len() {
        let v = roots[i];
        if may_have(&search, root, v, &partial, steps) {
            partial.put(root, v);
            extend(&search, 1, &mut partial, found, steps)?;
            partial.clear(root);
        }
    }
    Ok(())
}

/// Hands the embeddings that send the edge of this number to the triple, and no edge of a lower number, to `found`, each once.
///
/// The edge has to be one of the pattern's, the tree the pattern's, and the index exact over the graph. The search starts at
/// the edge's tail. It takes no step where the edge has another label than the triple, and at most two where the pair of an
/// end is not explicit, or where the edge is a loop and the triple is none. Fails only for want of memory; what was handed
/// over until then are some of these embeddings, none of them twice.
pub fn at_edge<G: ReadGraph<L>, F: Found, L: Ledger>(
    pattern: &Pattern,
    tree: &QueryTree,
    dcg: &Dcg,
    graph: &G,
    number: usize,
    triple: &Triple,
    found: &mut F,
    steps: &mut Steps<L>,
) -> Result<(), AllocError>
    requires belongs { BelongsTo pattern.now tree.now }
    requires exact { IsExact pattern.now tree.now (G.graph graph.now) dcg.now }
    requires edge { number < length pattern.now.edges }
    ensures found { OnOk result (GrewByAll (F.list found.old) (F.list found.new)
        (edge_class pattern.now (G.graph graph.now) triple.now number)) }
    ensures some { OnErr result (GrewBySome (F.list found.old) (F.list found.new)
        (edge_class pattern.now (G.graph graph.now) triple.now number)) }
    ensures steps { OnOk result (steps.new ≤ steps.old
        + edge_cost pattern.now tree.now (G.graph graph.now) (edge_at pattern.now number) triple.now) }
{
    let edge = pattern.edge(number);
    if !may_be_sent(edge, triple) {
        return Ok(());
    }
    // For the proof: the graph is one.
    let _count = graph.vertex_count();
    if is_barren(pattern, dcg) {
        return Ok(());
    }
    if !is_entered(pattern, tree, dcg, graph, edge, triple, steps) {
        return Ok(());
    }
    search_from(pattern, tree, dcg, graph, number, triple, found, steps)
}

/// `at_edge` where the edge may be sent to the triple, and the pairs of their ends are explicit. What it needs of room stands
/// here, so that a call that goes no further does not clear it.
fn search_from<G: ReadGraph<L>, F: Found, L: Ledger>(
    pattern: &Pattern,
    tree: &QueryTree,
    dcg: &Dcg,
    graph: &G,
    number: usize,
    triple: &Triple,
    found: &mut F,
    steps: &mut Steps<L>,
) -> Result<(), AllocError>
    requires belongs { BelongsTo pattern.now tree.now }
    requires exact { IsExact pattern.now tree.now (G.graph graph.now) dcg.now }
    requires edge { number < length pattern.now.edges }
    requires sent { may_be_sent (edge_at pattern.now number) triple.now ≡ true }
    requires entered { are_explicit (joined pattern.now tree.now (G.graph graph.now)) (edge_at pattern.now number) triple.now ≡ true }
    ensures found { OnOk result (GrewByAll (F.list found.old) (F.list found.new)
        (edge_class pattern.now (G.graph graph.now) triple.now number)) }
    ensures some { OnErr result (GrewBySome (F.list found.old) (F.list found.new)
        (edge_class pattern.now (G.graph graph.now) triple.now number)) }
    ensures steps { OnOk result (steps.new + 2 ≤ steps.old
        + edge_cost pattern.now tree.now (G.graph graph.now) (edge_at pattern.now number) triple.now) }
{
    // For the proof: the graph is one.
    let _count = graph.vertex_count();
    let edge = pattern.edge(number);
    let tail = edge.tail;
    let search = Search {
        pattern,
        tree,
        dcg,
        graph,
        aim: Aim::Edge { number, triple },
        order: order_by_live(pattern, tree, dcg, tail),
        numbers: label_numbers(pattern, graph),
    };
    let mut partial = Partial::new(pattern.vertex_count());
    if !may_take(&search, tail, triple.src, &partial, steps) {
        return Ok(());
    }
    partial.put(tail, triple.src);
    extend(&search, 1, &mut partial, found, steps)
}

/// Whether the edge has the triple's label, and is no loop or the triple is one.
fn may_be_sent(edge: &PatternEdge, triple: &Triple) -> bool
    ensures { result ≡ may_be_sent edge.now triple.now }
{
    edge.label == triple.label && (edge.tail != edge.head || triple.src == triple.dst)
}

/// Whether the pairs of the edge's ends and the triple's are explicit.
fn is_entered<G: ReadGraph<L>, L: Ledger>(
    pattern: &Pattern,
    tree: &QueryTree,
    dcg: &Dcg,
    graph: &G,
    edge: &PatternEdge,
    triple: &Triple,
    steps: &mut Steps<L>,
) -> bool
    requires belongs { BelongsTo pattern.now tree.now }
    requires exact { IsExact pattern.now tree.now (G.graph graph.now) dcg.now }
    requires ends { HasEnds (length pattern.now.labels) edge.now }
    ensures value { result ≡ are_explicit (joined pattern.now tree.now (G.graph graph.now)) edge.now triple.now }
    ensures steps { steps.new ≤ steps.old + 2 }
{
    is_explicit(pattern, tree, dcg, graph, edge.tail, triple.src, steps)
        && is_explicit(pattern, tree, dcg, graph, edge.head, triple.dst, steps)
}
