//! `Plan`: what a pass over a graph counts, for any number of patterns together.
ghost use Rattle.std.specs.Prelude.{◌≡◌, ◌+◌, ◌≤◌, ◌==◌, ◌||◌, not, ℕ, List, [], ◌∷◌, ◌++◌, length, slice_get, if◌then◌else◌};
ghost use Rattle.std.specs.Prelude.{Option, Some, None, IsTrue, IfOk, IfSome, OnOk};
ghost use Rattle.label_cards.specs.declared.plan.TripleTest.{TripleTest};
ghost use Rattle.label_cards.specs.Plans.{set_at, AreSetsKept, AreSetsOf, AreTestsKept, AreTestsOf};
ghost use Rattle.label_cards.specs.Plans.{row_at, AreRowsOf, IsPlan, IsKept, IsFound};

use flux_model::{Labels, Pattern};
use graph_traits::HoldGraph;
use std::alloc::{AllocError, Global};

/// A set of labels that vertices of patterns have.
#[derive(Drop)]
pub(crate) struct LabelSet<'a> {
    pub labels: &'a Labels,
}

/// What a triple has to be to fit a pattern edge.
#[derive(Clone, Copy)]
pub(crate) struct TripleTest {
    /// The number that the graph has for the label. Where it has none, no triple passes.
    pub label: Option<u32>,
    /// The place of the set that the source has to have.
    pub tail: usize,
    /// The place of the set that the target has to have.
    pub head: usize,
    /// Whether source and target have to be one vertex.
    pub is_loop: bool,
}

impl TripleTest {
    /// Whether it lets a triple have these ends, whatever their labels are.
    pub(crate) fn allows(&self, source: u32, target: u32) -> bool
        ensures { result ≡ (not self.now.is_loop || source == target) }
    {
        !self.is_loop || source == target
    }

    /// Whether another test that asks for the same label asks the same of a triple.
    fn agrees(&self, other: &TripleTest) -> bool
        ensures tail { IsTrue result → self.now.tail ≡ other.now.tail }
        ensures head { IsTrue result → self.now.head ≡ other.now.head }
        ensures is_loop { IsTrue result → self.now.is_loop ≡ other.now.is_loop }
    {
        self.tail == other.tail && self.head == other.head && self.is_loop == other.is_loop
    }
}

/// Where the counts of a pattern stand.
#[derive(Drop)]
pub(crate) struct Places {
    /// For each edge the place of its test.
    pub edges: Vec<usize>,
    /// For each vertex the place of its set.
    pub vertices: Vec<usize>,
}

/// The distinct sets of labels that the vertices of some patterns have, and the distinct tests of triples that their edges make.
#[derive(Drop)]
pub(crate) struct Plan<'a> {
    pub sets: Vec<LabelSet<'a>>,
    pub tests: Vec<TripleTest>,
    /// For each number of a label, the places of the tests that ask for the label.
    pub rows: Vec<Vec<usize>>,
}

impl<'a> Plan<'a> {
    /// The plan of no pattern.
    pub(crate) fn new(alloc: Global) -> Plan<'a>
        ensures plan { (texts : ℕ → Option (List ℕ)) → IsPlan texts result }
        ensures empty { result.tests.items ≡ [] }
    {
        Plan {
            sets: Vec::new(alloc),
            tests: Vec::new(alloc),
            rows: Vec::new(alloc),
        }
    }

    /// Takes in the vertices and edges of a pattern.
    pub(crate) fn add<G: HoldGraph>(
        &mut self,
        alloc: Global,
        graph: &G,
        pattern: &'a Pattern,
    ) -> Result<Places, AllocError>
        requires { IsPlan (G.label_text graph.now) self.old }
        ensures plan { OnOk result (IsPlan (G.label_text graph.now) self.new) }
        ensures kept { OnOk result (IsKept self.old self.new) }
        ensures few { OnOk result (length self.new.tests.items ≤ length self.old.tests.items + length pattern.now.edges) }
        ensures found { IfOk result (λ places. IsFound (G.label_text graph.now) (G.graph graph.now) self.new pattern.now places) }
    {
        let vertices = set_places(alloc, &mut self.sets, pattern)?;
        let edges = self.test_places(alloc, graph, pattern, vertices.as_slice())?;
        Ok(Places { edges, vertices })
    }

    /// The places of the tests that the pattern's edges make. Those that are wanting are put in.
    fn test_places<G: HoldGraph>(
        &mut self,
        alloc: Global,
        graph: &G,
        pattern: &Pattern,
        sets: &[usize],
    ) -> Result<Vec<usize>, AllocError>
        requires plan { IsPlan (G.label_text graph.now) self.old }
        requires sets { AreSetsOf self.old.sets.items pattern.now.labels sets.now }
        requires long { length sets.now ≡ length pattern.now.labels }
        ensures plan { OnOk result (IsPlan (G.label_text graph.now) self.new) }
        ensures kept { OnOk result (AreTestsKept self.old.tests.items self.new.tests.items) }
        ensures few { OnOk result (length self.new.tests.items ≤ length self.old.tests.items + length pattern.now.edges) }
        ensures sets { self.new.sets ≡ self.old.sets }
        ensures edges { IfOk result (λ places.
            AreTestsOf (G.label_text graph.now) (G.graph graph.now) self.new.tests.items sets.now pattern.now.edges places.items) }
    {
        let mut places = Vec::new(alloc);
        for k in 0..pattern.edge_count() {
            let edge = pattern.edge(k);
            let test = TripleTest {
                label: graph.label_number(&edge.label),
                tail: sets[edge.tail],
                head: sets[edge.head],
                is_loop: edge.tail == edge.head,
            };
            places.push(self.test_place(alloc, test)?)?;
        }
        Ok(places)
    }

    /// The place of a test, which is put in where it is wanting.
    fn test_place(&mut self, alloc: Global, test: TripleTest) -> Result<usize, AllocError>
        requires { AreRowsOf self.old.tests.items self.old.rows.items }
        ensures is { IfOk result (λ p. slice_get self.new.tests.items p ≡ Some test) }
        ensures rows { OnOk result (AreRowsOf self.new.tests.items self.new.rows.items) }
        ensures kept { OnOk result (AreTestsKept self.old.tests.items self.new.tests.items) }
        ensures fresh { OnOk result ((p : ℕ) (other : TripleTest) → slice_get self.new.tests.items p ≡ Some other
            → slice_get self.old.tests.items p ≡ None → other ≡ test) }
        ensures few { OnOk result (length self.new.tests.items ≤ length self.old.tests.items + 1) }
        ensures sets { self.new.sets ≡ self.old.sets }
    {
        let Some(number) = test.label else {
            let place = self.append(test)?;
            return Ok(place);
        };
        if let Some(known) = self.find(number, &test) {
            return Ok(known);
        }
        put_in_row(alloc, &mut self.rows, number as usize, self.tests.len())?;
        let place = self.append(test)?;
        Ok(place)
    }

    /// Puts a test after the others, and answers its place.
    fn append(&mut self, test: TripleTest) -> Result<usize, AllocError>
        ensures place { IfOk result (λ p. p ≡ length self.old.tests.items) }
        ensures tests { OnOk result (self.new.tests.items ≡ self.old.tests.items ++ test ∷ []) }
        ensures rows { self.new.rows ≡ self.old.rows }
        ensures sets { self.new.sets ≡ self.old.sets }
    {
        let place = self.tests.len();
        self.tests.push(test)?;
        Ok(place)
    }

    /// The place of a test that asks for the label of this number.
    fn find(&self, number: u32, test: &TripleTest) -> Option<usize>
        requires rows { AreRowsOf self.now.tests.items self.now.rows.items }
        requires number { test.now.label ≡ Some number }
        ensures { IfSome result (λ p. slice_get self.now.tests.items p ≡ Some test.now) }
    {
        let places = self.row(number);
        for place in places {
            let known = &self.tests[*place];
            if known.agrees(test) {
                return Some(*place);
            }
        }
        None
    }

    /// The places of the tests that ask for the label of this number.
    pub(crate) fn row(&self, number: u32) -> &[usize]
        ensures { result.now ≡ row_at self.now.rows.items number }
    {
        match self.rows.get(number as usize) {
            Some(places) => places.as_slice(),
            None => &[],
        }
    }
}

/// Puts a place at the end of the row of a number.
fn put_in_row(
    alloc: Global,
    rows: &mut Vec<Vec<usize>>,
    number: usize,
    place: usize,
) -> Result<(), AllocError>
    ensures { OnOk result ((n : ℕ) → row_at rows.new.items n ≡
        (if number == n then row_at rows.old.items n ++ place ∷ [] else row_at rows.old.items n)) }
{
    while rows.len() <= number {
        rows.push(Vec::new(alloc))?;
    }
    rows[number].push(place)?;
    Ok(())
}

/// The places of the sets that the pattern's vertices have. Those that are wanting are put in.
fn set_places<'a>(
    alloc: Global,
    sets: &mut Vec<LabelSet<'a>>,
    pattern: &'a Pattern,
) -> Result<Vec<usize>, AllocError>
    ensures kept { OnOk result (AreSetsKept sets.old.items sets.new.items) }
    ensures places { IfOk result (λ places. AreSetsOf sets.new.items pattern.now.labels places.items) }
{
    let mut places = Vec::new(alloc);
    for u in 0..pattern.vertex_count() {
        places.push(set_place(sets, pattern.labels(u))?)?;
    }
    Ok(places)
}

/// The place of a set, which is put in where it is wanting.
fn set_place<'a>(sets: &mut Vec<LabelSet<'a>>, labels: &'a Labels) -> Result<usize, AllocError>
    ensures kept { OnOk result (AreSetsKept sets.old.items sets.new.items) }
    ensures is { IfOk result (λ c. set_at sets.new.items c ≡ Some labels.now) }
{
    for (c, set) in sets.iter().enumerate() {
        if are_same(set.labels, labels) {
            return Ok(c);
        }
    }
    let place = sets.len();
    sets.push(LabelSet { labels })?;
    Ok(place)
}

/// Whether two sets of labels are the same.
fn are_same(labels: &Labels, others: &Labels) -> bool
    ensures { IsTrue result → labels.now ≡ others.now }
{
    if labels.len() != others.len() {
        return false;
    }
    for i in 0..labels.len() {
        if *labels.get(i) != *others.get(i) {
            return false;
        }
    }
    true
}
