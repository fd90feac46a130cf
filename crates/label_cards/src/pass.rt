//! The pass over the vertices of a graph.
ghost use Rattle.std.specs.Prelude.{◌≡◌, ◌+◌, ◌*◌, ◌<◌, ◌≤◌, length, map, slice_index, Some, IsTrue, IfOk, EachIndex};
ghost use Rattle.flux_model.specs.Graph.{has_vertex, IsGraph};
ghost use Rattle.graph_traits.specs.Rows.{vertex_of_id};
ghost use Rattle.label_cards.specs.Counted.{vertex_adds, cards_at, AreCounts, AreFits, GrownBy, HasPlaces, HasRoom};
ghost use Rattle.label_cards.specs.Plans.{IsPlan};

use crate::plan::{LabelSet, Places, Plan};
use crate::row::{add_if, count_row};
use flux_model::{Cards, Labels, Ledger, Steps};
use graph_traits::{HoldGraph, ReadGraph};
use std::alloc::{AllocError, Global};

/// How many triples of a graph pass each test of a plan, and how many of its vertices fit each set.
#[derive(Drop)]
pub(crate) struct Counts {
    pub tests: Vec<u64>,
    pub sets: Vec<u64>,
}

impl Counts {
    /// The counts of a plan over a graph, which has the numbers that the plan has for labels.
    ///
    /// It takes three steps for each vertex, and for each triple one and at most one for each test.
    pub(crate) fn of<G: ReadGraph<L>, L: Ledger>(
        alloc: Global,
        graph: &G,
        plan: &Plan<'_>,
        steps: &mut Steps<L>,
    ) -> Result<Counts, AllocError>
        requires { IsPlan (G.label_text graph.now) plan.now }
        ensures counts { IfOk result (λ counts. AreCounts (G.label_text graph.now) (G.graph graph.now) plan.now counts) }
        ensures steps { let g = G.graph graph.now in
            steps.new ≤ steps.old + 3 * length g.vertices + length g.triples * (1 + length plan.now.tests.items) }
    {
        let mut tests = vec![in alloc; 0; plan.tests.len()]?;
        let mut sets = vec![in alloc; 0; plan.sets.len()]?;
        let mut fitted = vec![in alloc; false; plan.sets.len()]?;
        for i in 0..graph.vertex_count() {
            let v = graph.vertex_at(i, steps);
            count_vertex(
                graph,
                plan.sets.as_slice(),
                v,
                fitted.as_mut_slice(),
                sets.as_mut_slice(),
                steps,
            );
            count_row(
                graph,
                plan,
                v,
                fitted.as_slice(),
                tests.as_mut_slice(),
                steps,
            );
        }
        Ok(Counts { tests, sets })
    }

    /// The counts at these places, which have to be places of counts.
    pub(crate) fn cards(&self, alloc: Global, places: &Places) -> Result<Cards, AllocError>
        requires { HasPlaces self.now places.now }
        ensures { IfOk result (λ cards. cards ≡ cards_at self.now places.now) }
    {
        let edges = at_places(alloc, self.tests.as_slice(), places.edges.as_slice())?;
        let vertices = at_places(alloc, self.sets.as_slice(), places.vertices.as_slice())?;
        Ok(Cards::new(edges, vertices))
    }
}

/// Writes down which sets the vertex `v` fits, and adds one to the counts of these.
fn count_vertex<G: ReadGraph<L>, L: Ledger>(
    graph: &G,
    sets: &[LabelSet<'_>],
    v: u32,
    fitted: &mut [bool],
    counts: &mut [u64],
    steps: &mut Steps<L>,
)
    requires stands { IsTrue (has_vertex (G.graph graph.now) v) }
    requires graph { IsGraph (G.graph graph.now) }
    requires len { length fitted.old ≡ length sets.now }
    requires size { length counts.old ≡ length sets.now }
    requires room { HasRoom 1 counts.old }
    ensures fits { AreFits (G.graph graph.now) sets.now v fitted.new }
    ensures counts { GrownBy (vertex_adds (G.graph graph.now) sets.now v) counts.old counts.new }
    ensures step { steps.new ≡ steps.old + 1 }
{
    let labels = graph.labels_of(v, steps);
    for c in 0..sets.len() {
        let fits = sets[c].labels.within(labels);
        fitted[c] = fits;
        add_if(fits, counts, c);
    }
}

/// The counts at these places.
fn at_places(alloc: Global, counts: &[u64], places: &[usize]) -> Result<Vec<u64>, AllocError>
    requires { EachIndex places.now (λ k. slice_index places.now k < length counts.now) }
    ensures { IfOk result (λ found. found.items ≡ map (slice_index counts.now) places.now) }
{
    let mut found = Vec::with_capacity(alloc, places.len())?;
    for place in places {
        found.push(counts[*place])?;
    }
    Ok(found)
}
