//! The pass over the out row of a vertex.
ghost use Rattle.std.specs.Prelude.{◌≡◌, ◌+◌, ◌*◌, ◌<◌, ◌≤◌, ◌^◌, ◌==◌, ◌&&◌, Some, length, slice_index, IsTrue};
ghost use Rattle.std.specs.Prelude.{if◌then◌else◌};
ghost use Rattle.flux_model.specs.Graph.{has_vertex};
ghost use Rattle.flux_model.specs.declared.graph.Triple.{Triple};
ghost use Rattle.graph_traits.specs.Rows.{triples_from};
ghost use Rattle.label_cards.specs.Counted.{triple_adds, row_adds, GrownBy, HasRoom, AreFits};
ghost use Rattle.label_cards.specs.Plans.{passes, IsPlan, IsTestIn};

use crate::plan::{Plan, TripleTest};
use flux_model::{Ledger, Steps};
use graph_rows::{Direction, WholeRow};
use graph_traits::{HoldGraph, ReadGraph, Turn};

/// Adds to the count of each test of the plan how many triples that begin at `v` pass it.
///
/// It takes one step at the row's end, and for each triple one and at most one for each test.
/// `fitted` has to tell which sets of the plan `v` fits.
pub(crate) fn count_row<G: ReadGraph<L>, L: Ledger>(
    graph: &G,
    plan: &Plan<'_>,
    v: u32,
    fitted: &[bool],
    counts: &mut [u64],
    steps: &mut Steps<L>,
)
    requires stands { IsTrue (has_vertex (G.graph graph.now) v) }
    requires plan { IsPlan (G.label_text graph.now) plan.now }
    requires fits { AreFits (G.graph graph.now) plan.now.sets.items v fitted.now }
    requires size { length counts.old ≡ length plan.now.tests.items }
    requires room { HasRoom (length (triples_from (G.graph graph.now) v)) counts.old }
    ensures counts { GrownBy (row_adds (G.label_text graph.now) (G.graph graph.now) plan.now v) counts.old counts.new }
    ensures steps { let row = length (triples_from (G.graph graph.now) v) in
        steps.new ≤ steps.old + 1 + row * (1 + length plan.now.tests.items) }
{
    let row = WholeRow {
        vertex: v,
        direction: Direction::Out,
    };
    let mut at = row.first(graph);
    while let Some(turn) = row.next(graph, at, steps) {
        at = turn.next;
        count_turn(graph, plan, v, fitted, &turn, counts, steps);
    }
}

/// Adds one to the count of each test that a triple passes which begins at `v`.
fn count_turn<G: ReadGraph<L>, L: Ledger>(
    graph: &G,
    plan: &Plan<'_>,
    v: u32,
    fitted: &[bool],
    turn: &Turn<'_>,
    counts: &mut [u64],
    steps: &mut Steps<L>,
)
    requires end { IsTrue (has_vertex (G.graph graph.now) turn.now.other) }
    requires number { G.label_text graph.now turn.now.number ≡ Some turn.now.label.now }
    requires plan { IsPlan (G.label_text graph.now) plan.now }
    requires fits { AreFits (G.graph graph.now) plan.now.sets.items v fitted.now }
    requires size { length counts.old ≡ length plan.now.tests.items }
    requires room { HasRoom 1 counts.old }
    ensures counts { let triple : Triple = record { src = v; label = turn.now.label.now; dst = turn.now.other } in
        GrownBy (triple_adds (G.label_text graph.now) (G.graph graph.now) plan.now triple) counts.old counts.new }
    ensures steps { steps.new ≤ steps.old + length plan.now.tests.items }
{
    let places = plan.row(turn.number);
    for place in places {
        let passed = passes(graph, plan, &plan.tests[*place], v, fitted, turn, steps);
        add_if(passed, counts, *place);
    }
}

/// Adds one to the count at a place, if that is so.
pub(crate) fn add_if(so: bool, counts: &mut [u64], place: usize)
    requires place { place < length counts.old }
    requires room { IsTrue so → slice_index counts.old place + 1 < 2 ^ 64 }
    ensures { GrownBy (λ p. if place == p && so then 1 else 0) counts.old counts.new }
{
    if so {
        counts[place] += 1;
    }
}

/// Whether a triple that begins at `v` passes a test that asks for its label. The target is read only where all else is so.
fn passes<G: ReadGraph<L>, L: Ledger>(
    graph: &G,
    plan: &Plan<'_>,
    test: &TripleTest,
    v: u32,
    fitted: &[bool],
    turn: &Turn<'_>,
    steps: &mut Steps<L>,
) -> bool
    requires stands { IsTestIn (G.label_text graph.now) plan.now.sets.items test.now }
    requires asks { test.now.label ≡ Some turn.now.number }
    requires number { G.label_text graph.now turn.now.number ≡ Some turn.now.label.now }
    requires end { IsTrue (has_vertex (G.graph graph.now) turn.now.other) }
    requires fits { AreFits (G.graph graph.now) plan.now.sets.items v fitted.now }
    ensures value { let triple : Triple = record { src = v; label = turn.now.label.now; dst = turn.now.other } in
        result ≡ passes (G.label_text graph.now) (G.graph graph.now) plan.now.sets.items test.now triple }
    ensures steps { steps.new ≤ steps.old + 1 }
{
    fitted[test.tail]
        && test.allows(v, turn.other)
        && graph.fits(turn.other, plan.sets[test.head].labels, steps)
}
