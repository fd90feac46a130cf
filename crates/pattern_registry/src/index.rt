//! `PatternIndex`: the tree and the rows of one pattern, and those of all.
ghost use Rattle.std.specs.Prelude.{◌≡◌, ◌≤◌, ◌+◌, ◌*◌, true, false, IfOk, OnOk, IsPermutation};
ghost use Rattle.std.specs.List.{AllZip, sum_by};
ghost use Rattle.dcg_updates.specs.VertexApart.{IsVertexApart};
ghost use Rattle.flux_model.specs.Change.{gained};
ghost use Rattle.flux_model.specs.Costs.{no_dead_end_cost, start_cost};
ghost use Rattle.flux_model.specs.Embedding.{embeddings};
ghost use Rattle.flux_model.specs.Exact.{IsExact};
ghost use Rattle.flux_model.specs.Graph.{Graph, has_both_ends, has_triple, with_triple, without_triple};
ghost use Rattle.flux_model.specs.Tree.{cards as cards_over, tree, BelongsTo};
ghost use Rattle.pattern_registry.specs.Indexes.{IsStarted};
ghost use Rattle.pattern_registry.specs.RootLists.{AreRootLists};
ghost use Rattle.pattern_registry.specs.UpdateCosts.{both_costs, rows_cost, looks_cost};
ghost use Rattle.tree_search.specs.SearchCosts.{MeetsNoDeadEnd};

use crate::roots::RootLists;
use dcg_store::Dcg;
use dcg_transition::{after_delete, after_insert, after_vertex, build_from};
use flux_model::{Cards, Ledger, Maps, Pattern, Patterns, Steps, Triple};
use graph_traits::{HoldGraph, ReadGraph};
use label_cards::all_cards;
use query_tree::QueryTree;
use std::alloc::{AllocError, Global};
use tree_search::{all, at_edge, has_none};

/// What is kept of one pattern.
#[derive(Drop)]
pub struct PatternIndex {
    /// The pattern's tree.
    pub tree: QueryTree,
    /// The rows of its states along this tree.
    pub dcg: Dcg,
}

impl PatternIndex {
    /// The tree that the cards of the pattern over the graph choose, and its exact rows over the graph.
    ///
    /// `lists` has the vertices that fit some sets of labels, and gets those that fit the root's, unless it has them. It takes at most
    /// three quarters of the steps of a start.
    pub fn build<'a, G: ReadGraph<L>, L: Ledger>(
        alloc: Global,
        pattern: &'a Pattern,
        cards: &Cards,
        graph: &G,
        lists: &mut RootLists<'a>,
        steps: &mut Steps<L>,
    ) -> Result<PatternIndex, AllocError>
        requires cards { cards.now ≡ cards_over pattern.now (G.graph graph.now) }
        requires lists { AreRootLists (G.graph graph.now) (G.listed graph.now) lists.old.lists.items }
        ensures tree { IfOk result (λ index. index.tree ≡ tree pattern.now (G.graph graph.now)) }
        ensures belongs { IfOk result (λ index. BelongsTo pattern.now index.tree) }
        ensures exact { IfOk result (λ index. IsExact pattern.now index.tree (G.graph graph.now) index.dcg) }
        ensures lists { OnOk result (AreRootLists (G.graph graph.now) (G.listed graph.now) lists.new.lists.items) }
        ensures steps { OnOk result (4 * steps.new ≤ 4 * steps.old + 3 * start_cost pattern.now (G.graph graph.now)) }
    {
        let tree = QueryTree::choose(alloc, pattern, cards)?;
        let place = lists.place(alloc, pattern.labels(tree.root()), graph, steps)?;
        let roots = lists.vertices(place);
        let dcg = build_from(alloc, pattern, &tree, graph, roots, steps)?;
        Ok(PatternIndex { tree, dcg })
    }

    /// All embeddings of the pattern in the graph, over which the rows have to be exact, in some order.
    pub fn embeddings<G: ReadGraph<L>, L: Ledger>(
        &self,
        alloc: Global,
        pattern: &Pattern,
        graph: &G,
        steps: &mut Steps<L>,
    ) -> Result<Maps, AllocError>
        requires belongs { BelongsTo pattern.now self.now.tree }
        requires exact { IsExact pattern.now self.now.tree (G.graph graph.now) self.now.dcg }
        ensures all { IfOk result (λ maps. IsPermutation (embeddings pattern.now (G.graph graph.now)) maps) }
        ensures steps { OnOk result (MeetsNoDeadEnd pattern.now self.now.tree
            → steps.new ≤ steps.old + no_dead_end_cost pattern.now self.now.tree (G.graph graph.now)) }
    {
        let mut maps = Maps::new(alloc);
        all(pattern, &self.tree, &self.dcg, graph, &mut maps, steps)?;
        Ok(maps)
    }

    /// Makes the rows exact over the graph, which has the triple, where they are so over the graph without it: what the pattern
    /// gains by it, in some order.
    pub fn insert<G: ReadGraph<L>, L: Ledger>(
        &mut self,
        alloc: Global,
        pattern: &Pattern,
        graph: &G,
        triple: &Triple,
        steps: &mut Steps<L>,
    ) -> Result<Maps, AllocError>
        requires belongs { BelongsTo pattern.now self.old.tree }
        requires ends { has_both_ends (G.graph graph.now) triple.now ≡ true }
        requires stands { has_triple (G.graph graph.now) triple.now ≡ true }
        requires was { IsExact pattern.now self.old.tree (without_triple (G.graph graph.now) triple.now) self.old.dcg }
        ensures tree { self.new.tree ≡ self.old.tree }
        ensures exact { OnOk result (IsExact pattern.now self.old.tree (G.graph graph.now) self.new.dcg) }
        ensures gained { let g = G.graph graph.now in
            IfOk result (λ maps. IsPermutation (gained pattern.now (without_triple g triple.now) g) maps) }
        ensures steps { let g = G.graph graph.now in
            OnOk result (steps.new ≤ steps.old + both_costs (without_triple g triple.now) g triple.now (pattern.now, self.old.tree)) }
    {
        after_insert(pattern, &self.tree, &mut self.dcg, graph, triple, steps)?;
        self.embeddings_using(alloc, pattern, graph, triple, steps)
    }

    /// Makes the rows exact over the graph, which does not have the triple, where they are so over the graph with it.
    pub fn delete<G: ReadGraph<L>, L: Ledger>(
        &mut self,
        pattern: &Pattern,
        graph: &G,
        triple: &Triple,
        steps: &mut Steps<L>,
    )
        requires belongs { BelongsTo pattern.now self.old.tree }
        requires ends { has_both_ends (G.graph graph.now) triple.now ≡ true }
        requires gone { has_triple (G.graph graph.now) triple.now ≡ false }
        requires was { IsExact pattern.now self.old.tree (with_triple (G.graph graph.now) triple.now) self.old.dcg }
        ensures tree { self.new.tree ≡ self.old.tree }
        ensures exact { IsExact pattern.now self.old.tree (G.graph graph.now) self.new.dcg }
        ensures steps { let g = G.graph graph.now in
            steps.new ≤ steps.old + rows_cost g (with_triple g triple.now) triple.now (pattern.now, self.old.tree) }
    {
        after_delete(pattern, &self.tree, &mut self.dcg, graph, triple, steps);
    }

    /// Makes the rows exact over the graph, where they are so over the graph with the vertex `id` more or fewer.
    pub fn move_vertex<G: ReadGraph<L>, L: Ledger>(
        &mut self,
        pattern: &Pattern,
        graph: &G,
        id: u32,
        steps: &mut Steps<L>,
    ) -> Result<(), AllocError>
        requires belongs { BelongsTo pattern.now self.old.tree }
        requires was { (old : Graph) × IsVertexApart id old (G.graph graph.now) × IsExact pattern.now self.old.tree old self.old.dcg }
        ensures tree { self.new.tree ≡ self.old.tree }
        ensures exact { OnOk result (IsExact pattern.now self.old.tree (G.graph graph.now) self.new.dcg) }
        ensures steps { steps.new ≤ steps.old + 3 }
    {
        after_vertex(pattern, &self.tree, &mut self.dcg, graph, id, steps)
    }

    /// The embeddings of the graph that use the triple, which are those that are none without it, in some order.
    ///
    /// The rows have to be exact over the graph, which has the triple.
    pub fn embeddings_using<G: ReadGraph<L>, L: Ledger>(
        &self,
        alloc: Global,
        pattern: &Pattern,
        graph: &G,
        triple: &Triple,
        steps: &mut Steps<L>,
    ) -> Result<Maps, AllocError>
        requires belongs { BelongsTo pattern.now self.now.tree }
        requires stands { has_triple (G.graph graph.now) triple.now ≡ true }
        requires exact { IsExact pattern.now self.now.tree (G.graph graph.now) self.now.dcg }
        ensures gained { let g = G.graph graph.now in
            IfOk result (λ maps. IsPermutation (gained pattern.now (without_triple g triple.now) g) maps) }
        ensures steps { OnOk result (steps.new ≤ steps.old + looks_cost (G.graph graph.now) triple.now (pattern.now, self.now.tree)) }
    {
        // For the proof: what every graph keeps.
        let _count = graph.edge_count();
        let mut maps = Maps::new(alloc);
        if has_none(pattern, &self.tree, &self.dcg, graph) {
            return Ok(maps);
        }
        for i in 0..pattern.edge_count() {
            at_edge(
                pattern, &self.tree, &self.dcg, graph, i, triple, &mut maps, steps,
            )?;
        }
        Ok(maps)
    }
}

/// What is kept of each pattern, in the same order, as it starts over the graph.
///
/// It takes no more steps than the starts of the patterns. `AllocError` where no memory is left.
pub fn indexes_over<G: ReadGraph<L>, L: Ledger>(
    alloc: Global,
    patterns: &Patterns,
    graph: &G,
    steps: &mut Steps<L>,
) -> Result<Vec<PatternIndex>, AllocError>
    ensures started { IfOk result (λ indexes. AllZip (IsStarted (G.graph graph.now)) patterns.now indexes.items) }
    ensures steps { let starts = sum_by (λ q. start_cost q (G.graph graph.now)) patterns.now in
        OnOk result (steps.new ≤ steps.old + starts) }
{
    let cards = all_cards(alloc, graph, patterns, steps)?;
    let mut lists = RootLists::new(alloc);
    let mut indexes = Vec::new(alloc);
    for k in 0..patterns.count() {
        let (pattern, cards) = (patterns.get(k), &cards[k]);
        let index = PatternIndex::build(alloc, pattern, cards, graph, &mut lists, steps)?;
        indexes.push(index)?;
    }
    Ok(indexes)
}
