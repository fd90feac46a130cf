//! `Registry`: the patterns of a run, and what is kept of each.
ghost use Rattle.std.specs.Prelude.{◌≡◌, ◌<◌, ◌≤◌, ◌+◌, ◌*◌, ℕ, length, slice_get, false, true};
ghost use Rattle.std.specs.Prelude.{Some, Ok, Err, IfOk, IfErr, OnOk, OnErr, IsPermutation};
ghost use Rattle.std.specs.FinMap.{len};
ghost use Rattle.std.specs.List.{zip, sum_by};
ghost use Rattle.std.specs.Option.{option_map};
ghost use Rattle.flux_model.specs.Costs.{start_cost, update_cost};
ghost use Rattle.flux_model.specs.Deltas.{answer_deltas, change_deltas, AreReordered};
ghost use Rattle.flux_model.specs.Embedding.{embeddings};
ghost use Rattle.flux_model.specs.Graph.{Graph, IsGraph, apply, has_triple};
ghost use Rattle.flux_model.specs.declared.graph.Update.TheVariants.{AddVertex, DropVertex, AddEdge, DropEdge};
ghost use Rattle.flux_model.specs.Pattern.{PatternGraph, vertex_count};
ghost use Rattle.flux_model.specs.Tree.{BelongsTo};
ghost use Rattle.pattern_registry.specs.States.{trees_over, IsIndexed, AreExact};
ghost use Rattle.pattern_registry.specs.AnswerCosts.{AnswerStaysWithin, MeetNoDeadEnd, no_dead_end_costs};

use crate::index::{PatternIndex, indexes_over};
use crate::routes::{Routes, route_of, routes_to};
use crate::triples::{delete_along, insert_along, losses_along};
use crate::vertices::{gains_at, losses_at, move_all};
use dcg_store::Dcg;
use flux_model::{Code, Delta, Deltas, Labels, Ledger, Maps, Patterns, Steps, Triple, Update};
use graph_traits::{HoldGraph, KeepGraph, ReadGraph};
use query_tree::QueryTree;
use std::alloc::{AllocError, Global};
use std::marker::Model;

/// The patterns of a run, each with its spanning tree and the rows of its states.
///
/// The rows are exact over a graph where those of each pattern are what its states over that graph say. Once the registry is
/// broken, nothing is known of them.
#[derive(Drop)]
pub struct Registry {
    alloc: Global,
    patterns: Patterns,
    /// For each pattern, in the same order.
    indexes: Vec<PatternIndex>,
    routes: Routes,
    is_broken: bool,
}

impl Model for Registry {
    ghost use Rattle.pattern_registry.specs.States.{PatternStates};
    ghost use Rattle.pattern_registry.specs.Codes.{pattern_states_code};

    ghost Value = { PatternStates };

    ghost coded = { pattern_states_code };

    ghost use Rattle.pattern_registry.specs.Indexes.{pattern_states, IsRegistry};

    ghost view = { λ r. pattern_states r.patterns r.indexes.items r.is_broken };

    ghost invariant = { λ r. IsRegistry (pattern_states r.patterns r.indexes.items r.is_broken) r.routes.entries };
}

impl Registry {
    /// These patterns, each with the tree that its cards over the graph choose, and with rows that are exact over the graph.
    ///
    /// It takes no more steps than the starts of the patterns. `AllocError` where no memory is left.
    pub fn start<G: ReadGraph<L>, L: Ledger>(
        alloc: Global,
        patterns: Patterns,
        graph: &G,
        steps: &mut Steps<L>,
    ) -> Result<Registry, AllocError>
        ensures patterns { IfOk result (λ registry. registry.patterns ≡ patterns) }
        ensures trees { IfOk result (λ registry. registry.trees ≡ trees_over (G.graph graph.now) patterns) }
        ensures exact { IfOk result (λ registry. AreExact registry (G.graph graph.now)) }
        ensures whole { IfOk result (λ registry. registry.is_broken ≡ false) }
        ensures steps { let starts = sum_by (λ q. start_cost q (G.graph graph.now)) patterns in
            OnOk result (steps.new ≤ steps.old + starts) }
    {
        let indexes = indexes_over(alloc, &patterns, graph, steps)?;
        let routes = routes_to(alloc, &patterns, graph.seed())?;
        Ok(Registry {
            alloc,
            patterns,
            indexes,
            routes,
            is_broken: false,
        })
    }

    /// All embeddings of the patterns in the graph, over which the rows have to be exact, as gained.
    ///
    /// Those of one pattern stand in some order, and a pattern without an embedding has no delta. Where each pattern is of mode
    /// `Hom` and its tree leaves out no edge, no search has a dead end: they take no more steps than the vertices of the graph
    /// and the rows that lead to the embeddings account for. `AllocError` where no memory is left.
    pub fn answers<G: ReadGraph<L>, L: Ledger>(
        &self,
        graph: &G,
        steps: &mut Steps<L>,
    ) -> Result<Deltas, AllocError>
        requires { AreExact self.now (G.graph graph.now) }
        ensures answers { IfOk result (λ deltas. AreReordered (answer_deltas 0 (G.graph graph.now) self.now.patterns) deltas) }
        ensures steps { OnOk result (MeetNoDeadEnd self.now.patterns self.now.trees
            → steps.new ≤ steps.old + no_dead_end_costs (G.graph graph.now) self.now.patterns self.now.trees) }
    {
        let mut deltas = Deltas::new(self.alloc);
        for k in 0..self.patterns.count() {
            let gained = self.answers_of(k, graph, steps)?;
            let delta = Delta {
                pattern: k,
                gained,
                lost: Maps::new(self.alloc),
            };
            deltas.add_unless_empty(delta)?;
        }
        Ok(deltas)
    }

    /// All embeddings of the pattern at place `k`, counted from 0, which has to be below the number of patterns, in the graph, over which
    /// the rows have to be exact.
    ///
    /// They stand in some order. Where the pattern is of mode `Hom` and its tree leaves out no edge, the search has no dead end: it takes
    /// no more steps than the vertices of the graph and the rows that lead to the embeddings account for. `AllocError` where no memory
    /// is left.
    pub fn answers_of<G: ReadGraph<L>, L: Ledger>(
        &self,
        k: usize,
        graph: &G,
        steps: &mut Steps<L>,
    ) -> Result<Maps, AllocError>
        requires exact { AreExact self.now (G.graph graph.now) }
        requires pattern { k < length self.now.patterns }
        ensures answers { IfOk result (λ maps. (q : PatternGraph) → slice_get self.now.patterns k ≡ Some q
            → IsPermutation (embeddings q (G.graph graph.now)) maps) }
        ensures steps { OnOk result (AnswerStaysWithin self.now k (G.graph graph.now) steps.old steps.new) }
    {
        let pattern = self.patterns.get(k);
        let index = self.index_of(k);
        index.embeddings(self.alloc, pattern, graph, steps)
    }

    /// Changes the graph, over which the rows have to be exact, and the rows with it: what each pattern gains and loses by the
    /// update, or its first refusal.
    ///
    /// What one pattern gains or loses stands in some order, and a pattern that gains and loses nothing has no delta. A refusal
    /// changes nothing. At `AllocError` the registry is broken, and the graph is as before or changed.
    pub fn apply<G: KeepGraph + ReadGraph<L>, L: Ledger>(
        &mut self,
        graph: &mut G,
        update: &Update,
        steps: &mut Steps<L>,
    ) -> Result<Result<Deltas, Code>, AllocError>
        requires { AreExact self.old (G.graph graph.old) }
        ensures made { let due = apply (G.limits graph.old) (G.graph graph.old) update.now in
            IfOk result (λ answer. OnOk answer (due ≡ Ok (G.graph graph.new))) }
        ensures deltas { let due = change_deltas 0 (G.graph graph.old) (G.graph graph.new) self.old.patterns in
            IfOk result (λ answer. IfOk answer (λ deltas. AreReordered due deltas)) }
        ensures exact { IfOk result (λ answer. OnOk answer (AreExact self.new (G.graph graph.new))) }
        ensures refused { let due = apply (G.limits graph.old) (G.graph graph.old) update.now in
            IfOk result (λ answer. IfErr answer (λ code. due ≡ Err code)) }
        ensures unchanged { IfOk result (λ answer. OnErr answer (self.new ≡ self.old)) }
        ensures same_graph { IfOk result (λ answer. OnErr answer (G.graph graph.new ≡ G.graph graph.old)) }
        ensures limits { G.limits graph.new ≡ G.limits graph.old }
        ensures patterns { OnOk result (self.new.patterns ≡ self.old.patterns) }
        ensures trees { OnOk result (self.new.trees ≡ self.old.trees) }
        ensures broken { OnErr result (self.new.is_broken ≡ true) }
        ensures graphs { IfOk result (λ answer. IsGraph (G.graph graph.old) × IsGraph (G.graph graph.new)) }
        ensures steps { let g = G.graph graph.old in let due = apply (G.limits graph.old) g update.now in
            OnOk result (steps.new ≤ steps.old + update_cost (zip self.old.patterns self.old.trees) g update.now due) }
    {
        match update {
            Update::AddVertex { id, labels } => self.add_vertex(graph, *id, labels, steps),
            Update::DropVertex { id } => self.remove_vertex(graph, *id, steps),
            Update::AddEdge(triple) => self.insert(graph, triple, steps),
            Update::DropEdge(triple) => self.remove(graph, triple, steps),
        }
    }

    /// The patterns. Each has a tree and rows.
    pub fn patterns(&self) -> &Patterns
        ensures patterns { result.now ≡ self.now.patterns }
        ensures indexed { IsIndexed self.now }
    {
        &self.patterns
    }

    /// The tree of the pattern at place `k`, counted from 0, which has to be below the number of patterns.
    pub fn tree(&self, k: usize) -> &QueryTree
        requires { k < length self.now.patterns }
        ensures tree { slice_get self.now.trees k ≡ Some result.now }
        ensures belongs { (q : PatternGraph) → slice_get self.now.patterns k ≡ Some q → BelongsTo q result.now }
    {
        &self.index_of(k).tree
    }

    /// The rows of the pattern at place `k`, counted from 0, which has to be below the number of patterns.
    pub fn dcg(&self, k: usize) -> &Dcg
        requires { k < length self.now.patterns }
        ensures { slice_get self.now.rows k ≡ Some result.now }
    {
        &self.index_of(k).dcg
    }

    /// How many rows are kept of the pattern at place `k`, counted from 0, which has to be below the number of patterns.
    ///
    /// The registry must not be broken.
    pub fn stored(&self, k: usize) -> u64
        requires whole { self.now.is_broken ≡ false }
        requires pattern { k < length self.now.patterns }
        ensures count { option_map (λ d. len d.rows) (slice_get self.now.rows k) ≡ Some result }
        ensures few { (g : Graph) (q : PatternGraph) → AreExact self.now g → slice_get self.now.patterns k ≡ Some q
            → result ≤ length g.triples * vertex_count q + length g.vertices }
    {
        self.index_of(k).dcg.stored()
    }

    /// Whether an update stopped in its midst, after which rows may be wrong.
    pub fn is_broken(&self) -> bool
        ensures { result ≡ self.now.is_broken }
    {
        self.is_broken
    }

    /// `apply` where a vertex is added.
    fn add_vertex<G: KeepGraph + ReadGraph<L>, L: Ledger>(
        &mut self,
        graph: &mut G,
        id: u32,
        labels: &Labels,
        steps: &mut Steps<L>,
    ) -> Result<Result<Deltas, Code>, AllocError>
        requires { AreExact self.old (G.graph graph.old) }
        ensures made { let due = apply (G.limits graph.old) (G.graph graph.old) (AddVertex id labels.now) in
            IfOk result (λ answer. OnOk answer (due ≡ Ok (G.graph graph.new))) }
        ensures deltas { let due = change_deltas 0 (G.graph graph.old) (G.graph graph.new) self.old.patterns in
            IfOk result (λ answer. IfOk answer (λ deltas. AreReordered due deltas)) }
        ensures exact { IfOk result (λ answer. OnOk answer (AreExact self.new (G.graph graph.new))) }
        ensures refused { let due = apply (G.limits graph.old) (G.graph graph.old) (AddVertex id labels.now) in
            IfOk result (λ answer. IfErr answer (λ code. due ≡ Err code)) }
        ensures unchanged { IfOk result (λ answer. OnErr answer (self.new ≡ self.old)) }
        ensures same_graph { IfOk result (λ answer. OnErr answer (G.graph graph.new ≡ G.graph graph.old)) }
        ensures limits { G.limits graph.new ≡ G.limits graph.old }
        ensures patterns { OnOk result (self.new.patterns ≡ self.old.patterns) }
        ensures trees { OnOk result (self.new.trees ≡ self.old.trees) }
        ensures broken { OnErr result (self.new.is_broken ≡ true) }
        ensures graphs { IfOk result (λ answer. IsGraph (G.graph graph.old) × IsGraph (G.graph graph.new)) }
        ensures steps { let g = G.graph graph.old in let due = apply (G.limits graph.old) g (AddVertex id labels.now) in
            OnOk result (steps.new ≤ steps.old + update_cost (zip self.old.patterns self.old.trees) g (AddVertex id labels.now) due) }
    {
        // For the proof: what every graph keeps.
        let _before = graph.edge_count();
        self.is_broken = true;
        if let Err(code) = graph.add_vertex(id, labels)? {
            self.is_broken = false;
            return Ok(Err(code));
        }
        let _after = graph.edge_count();
        move_all(&self.patterns, &mut self.indexes, graph, id, steps)?;
        let deltas = gains_at(self.alloc, &self.patterns, &self.indexes, id, steps)?;
        self.is_broken = false;
        Ok(Ok(deltas))
    }

    /// `apply` where a vertex is removed. What is lost is read off the rows before they move.
    fn remove_vertex<G: KeepGraph + ReadGraph<L>, L: Ledger>(
        &mut self,
        graph: &mut G,
        id: u32,
        steps: &mut Steps<L>,
    ) -> Result<Result<Deltas, Code>, AllocError>
        requires { AreExact self.old (G.graph graph.old) }
        ensures made { let due = apply (G.limits graph.old) (G.graph graph.old) (DropVertex id) in
            IfOk result (λ answer. OnOk answer (due ≡ Ok (G.graph graph.new))) }
        ensures deltas { let due = change_deltas 0 (G.graph graph.old) (G.graph graph.new) self.old.patterns in
            IfOk result (λ answer. IfOk answer (λ deltas. AreReordered due deltas)) }
        ensures exact { IfOk result (λ answer. OnOk answer (AreExact self.new (G.graph graph.new))) }
        ensures refused { let due = apply (G.limits graph.old) (G.graph graph.old) (DropVertex id) in
            IfOk result (λ answer. IfErr answer (λ code. due ≡ Err code)) }
        ensures unchanged { IfOk result (λ answer. OnErr answer (self.new ≡ self.old)) }
        ensures same_graph { IfOk result (λ answer. OnErr answer (G.graph graph.new ≡ G.graph graph.old)) }
        ensures limits { G.limits graph.new ≡ G.limits graph.old }
        ensures patterns { OnOk result (self.new.patterns ≡ self.old.patterns) }
        ensures trees { OnOk result (self.new.trees ≡ self.old.trees) }
        ensures broken { OnErr result (self.new.is_broken ≡ true) }
        ensures graphs { IfOk result (λ answer. IsGraph (G.graph graph.old) × IsGraph (G.graph graph.new)) }
        ensures steps { let g = G.graph graph.old in let due = apply (G.limits graph.old) g (DropVertex id) in
            OnOk result (steps.new ≤ steps.old + update_cost (zip self.old.patterns self.old.trees) g (DropVertex id) due) }
    {
        // For the proof: what every graph keeps.
        let _before = graph.edge_count();
        self.is_broken = true;
        if let Err(code) = graph.remove_vertex(id) {
            self.is_broken = false;
            return Ok(Err(code));
        }
        let _after = graph.edge_count();
        let deltas = losses_at(self.alloc, &self.patterns, &self.indexes, id, steps)?;
        move_all(&self.patterns, &mut self.indexes, graph, id, steps)?;
        self.is_broken = false;
        Ok(Ok(deltas))
    }

    /// `apply` where a triple is added.
    fn insert<G: KeepGraph + ReadGraph<L>, L: Ledger>(
        &mut self,
        graph: &mut G,
        triple: &Triple,
        steps: &mut Steps<L>,
    ) -> Result<Result<Deltas, Code>, AllocError>
        requires { AreExact self.old (G.graph graph.old) }
        ensures made { let due = apply (G.limits graph.old) (G.graph graph.old) (AddEdge triple.now) in
            IfOk result (λ answer. OnOk answer (due ≡ Ok (G.graph graph.new))) }
        ensures deltas { let due = change_deltas 0 (G.graph graph.old) (G.graph graph.new) self.old.patterns in
            IfOk result (λ answer. IfOk answer (λ deltas. AreReordered due deltas)) }
        ensures exact { IfOk result (λ answer. OnOk answer (AreExact self.new (G.graph graph.new))) }
        ensures refused { let due = apply (G.limits graph.old) (G.graph graph.old) (AddEdge triple.now) in
            IfOk result (λ answer. IfErr answer (λ code. due ≡ Err code)) }
        ensures unchanged { IfOk result (λ answer. OnErr answer (self.new ≡ self.old)) }
        ensures same_graph { IfOk result (λ answer. OnErr answer (G.graph graph.new ≡ G.graph graph.old)) }
        ensures limits { G.limits graph.new ≡ G.limits graph.old }
        ensures patterns { OnOk result (self.new.patterns ≡ self.old.patterns) }
        ensures trees { OnOk result (self.new.trees ≡ self.old.trees) }
        ensures broken { OnErr result (self.new.is_broken ≡ true) }
        ensures graphs { IfOk result (λ answer. IsGraph (G.graph graph.old) × IsGraph (G.graph graph.new)) }
        ensures steps { let g = G.graph graph.old in let due = apply (G.limits graph.old) g (AddEdge triple.now) in
            OnOk result (steps.new ≤ steps.old + update_cost (zip self.old.patterns self.old.trees) g (AddEdge triple.now) due) }
    {
        // For the proof: what every graph keeps.
        let _before = graph.edge_count();
        self.is_broken = true;
        if let Err(code) = graph.insert(triple)? {
            self.is_broken = false;
            return Ok(Err(code));
        }
        let _after = graph.edge_count();
        let route = route_of(&self.routes, &triple.label);
        let deltas = insert_along(
            self.alloc,
            &self.patterns,
            &mut self.indexes,
            route,
            graph,
            triple,
            steps,
        )?;
        self.is_broken = false;
        Ok(Ok(deltas))
    }

    /// `apply` where a triple is removed. What is lost is searched for before the triple goes and the rows move.
    fn remove<G: KeepGraph + ReadGraph<L>, L: Ledger>(
        &mut self,
        graph: &mut G,
        triple: &Triple,
        steps: &mut Steps<L>,
    ) -> Result<Result<Deltas, Code>, AllocError>
        requires { AreExact self.old (G.graph graph.old) }
        ensures made { let due = apply (G.limits graph.old) (G.graph graph.old) (DropEdge triple.now) in
            IfOk result (λ answer. OnOk answer (due ≡ Ok (G.graph graph.new))) }
        ensures deltas { let due = change_deltas 0 (G.graph graph.old) (G.graph graph.new) self.old.patterns in
            IfOk result (λ answer. IfOk answer (λ deltas. AreReordered due deltas)) }
        ensures exact { IfOk result (λ answer. OnOk answer (AreExact self.new (G.graph graph.new))) }
        ensures refused { let due = apply (G.limits graph.old) (G.graph graph.old) (DropEdge triple.now) in
            IfOk result (λ answer. IfErr answer (λ code. due ≡ Err code)) }
        ensures unchanged { IfOk result (λ answer. OnErr answer (self.new ≡ self.old)) }
        ensures same_graph { IfOk result (λ answer. OnErr answer (G.graph graph.new ≡ G.graph graph.old)) }
        ensures limits { G.limits graph.new ≡ G.limits graph.old }
        ensures patterns { OnOk result (self.new.patterns ≡ self.old.patterns) }
        ensures trees { OnOk result (self.new.trees ≡ self.old.trees) }
        ensures broken { OnErr result (self.new.is_broken ≡ true) }
        ensures graphs { IfOk result (λ answer. IsGraph (G.graph graph.old) × IsGraph (G.graph graph.new)) }
        ensures steps { let g = G.graph graph.old in let due = apply (G.limits graph.old) g (DropEdge triple.now) in
            OnOk result (steps.new ≤ steps.old + update_cost (zip self.old.patterns self.old.trees) g (DropEdge triple.now) due) }
    {
        // For the proof: what every graph keeps.
        let _before = graph.edge_count();
        if !graph.has_edge(triple.src, &triple.label, triple.dst, steps) {
            return Ok(Err(refuse_removal(graph, triple)));
        }
        self.is_broken = true;
        let route = route_of(&self.routes, &triple.label);
        let deltas = losses_along(
            self.alloc,
            &self.patterns,
            &self.indexes,
            route,
            graph,
            triple,
            steps,
        )?;
        if let Err(code) = graph.remove(triple) {
            self.is_broken = false;
            return Ok(Err(code));
        }
        let _after = graph.edge_count();
        delete_along(
            &self.patterns,
            &mut self.indexes,
            route,
            graph,
            triple,
            steps,
        );
        self.is_broken = false;
        Ok(Ok(deltas))
    }

    /// What is kept of the pattern at place `k`, which has to be below the number of patterns.
    fn index_of(&self, k: usize) -> &PatternIndex
        requires { k < length self.now.patterns }
        ensures tree { slice_get self.now.trees k ≡ Some result.now.tree }
        ensures rows { slice_get self.now.rows k ≡ Some result.now.dcg }
        ensures belongs { (q : PatternGraph) → slice_get self.now.patterns k ≡ Some q → BelongsTo q result.now.tree }
        ensures whole { self.now.is_broken ≡ false → result.now.dcg.is_broken ≡ false }
    {
        &self.indexes[k]
    }
}

/// The refusal of a removal of a triple that does not stand.
fn refuse_removal<G: KeepGraph>(graph: &mut G, triple: &Triple) -> Code
    requires { has_triple (G.graph graph.old) triple.now ≡ false }
    ensures refused { apply (G.limits graph.old) (G.graph graph.old) (DropEdge triple.now) ≡ Err result }
    ensures same { G.graph graph.new ≡ G.graph graph.old }
    ensures limits { G.limits graph.new ≡ G.limits graph.old }
{
    match graph.remove(triple) {
        Ok(()) => unreachable!(),
        Err(code) => code,
    }
}
