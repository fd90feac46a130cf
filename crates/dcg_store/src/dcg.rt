//! `Dcg`: the rows of a pattern.
ghost use Rattle.std.specs.Prelude.{◌≡◌, ℕ, ◌+◌, ◌-◌, ◌<◌, ◌^◌, length, nat_eq, slice_index, true, false, is_some, None, IsSome, IfOk, OnOk, OnErr};
ghost use Rattle.std.specs.List.{list_any, IsDistinct};
ghost use Rattle.std.specs.Option.{ForSome, IsSomeAnd};
ghost use Rattle.std.specs.FinMap.{empty, len};
ghost use Rattle.flux_model.specs.Exact.{row_at};
ghost use Rattle.dcg_store.specs.Counters.{state_of_row, state_below};
ghost use Rattle.dcg_store.specs.Moves.{in_raised, in_lowered, out_raised, out_lowered};
ghost use Rattle.dcg_store.specs.SoundRows.{HasSoundRows, live_count};

use crate::layer::Layer;
use flux_model::{Ledger, State, Steps};
use seeded_hash::SeededState;
use std::alloc::{AllocError, Global};
use std::marker::Model;

/// The rows of the pairs of a pattern's vertices and a graph's.
///
/// Each call but `is_broken` needs it not to be broken, and a pattern vertex below the number of pattern vertices. Only `new`
/// and `raise_in` take memory.
#[derive(Drop)]
pub struct Dcg {
    broken: bool,
    children: Vec<usize>,
    layers: Vec<Layer>,
    /// How many rows there are.
    stored: u64,
}

impl Model for Dcg {
    ghost use Rattle.flux_model.specs.Exact.{StateRows};
    ghost use Rattle.dcg_store.specs.SoundRows.{state_rows_code};
    ghost use Rattle.dcg_store.specs.Layers.{rows_of, state_rows, IsStored};

    ghost Value = { StateRows };

    ghost coded = { state_rows_code };

    ghost view = { λ d. state_rows d.broken d.children.items d.layers.items };

    ghost invariant = { λ d. IsStored d.layers.items d.stored (state_rows d.broken d.children.items d.layers.items) };
}

impl Dcg {
    /// No rows, for a pattern whose vertices have so many children each in its tree, with seed 0.
    pub fn new(alloc: Global, children: &[usize]) -> Result<Dcg, AllocError>
        ensures { IfOk result (λ dcg. dcg ≡ record { is_broken = false; children = children.now; rows = empty }) }
    {
        Dcg::with_seed(alloc, children, 0)
    }

    /// As `new`, with look-ups of graph vertices that hash from `seed`.
    pub fn with_seed(alloc: Global, children: &[usize], seed: u64) -> Result<Dcg, AllocError>
        ensures { IfOk result (λ dcg. dcg ≡ record { is_broken = false; children = children.now; rows = empty }) }
    {
        let layers = empty_layers(alloc, children.len(), SeededState::new(seed))?;
        Ok(Dcg {
            broken: false,
            children: Vec::from_slice(alloc, children)?,
            layers,
            stored: 0,
        })
    }

    /// How many children the pattern vertex `u` has.
    pub fn children_of(&self, u: usize) -> usize
        requires whole { self.now.is_broken ≡ false }
        requires vertex { u < length self.now.children }
        ensures { result ≡ slice_index self.now.children u }
    {
        // For the proof: the rows that are kept.
        let _stored = self.stored;
        self.children[u]
    }

    /// The state of the pair of `u` and `v`. It takes one step.
    pub fn pair_state<L: Ledger>(&self, u: usize, v: u32, steps: &mut Steps<L>) -> State
        requires whole { self.now.is_broken ≡ false }
        requires vertex { u < length self.now.children }
        ensures state { result ≡ state_of_row (row_at self.now u v) }
        ensures step { steps.new ≡ steps.old + 1 }
    {
        steps.tick();
        // For the proof: the rows that are kept.
        let _stored = self.stored;
        self.layers[u].state(v)
    }

    /// The state of the edge between the pair of `parent` and `v` and the pair of its child `u` and `w`. It takes two steps.
    pub fn edge_state<L: Ledger>(
        &self,
        parent: usize,
        u: usize,
        v: u32,
        w: u32,
        steps: &mut Steps<L>,
    ) -> State
        requires whole { self.now.is_broken ≡ false }
        requires parent { parent < length self.now.children }
        requires vertex { u < length self.now.children }
        ensures state { result ≡ state_below (state_of_row (row_at self.now parent v)) (state_of_row (row_at self.now u w)) }
        ensures steps { steps.new ≡ steps.old + 2 }
    {
        let above = self.pair_state(parent, v, steps);
        let below = self.pair_state(u, w, steps);
        match above {
            State::Null => State::Null,
            State::Implicit | State::Explicit => below,
        }
    }

    /// How many pairs of `u` are explicit.
    pub fn live_count(&self, u: usize) -> u64
        requires whole { self.now.is_broken ≡ false }
        requires vertex { u < length self.now.children }
        ensures { result ≡ live_count self.now u }
    {
        // For the proof: the rows that are kept.
        let _stored = self.stored;
        self.layers[u].live()
    }

    /// The graph vertices that have a row with `u`, each once, in no told order.
    pub fn row_vertices(&self, u: usize) -> &[u32]
        requires whole { self.now.is_broken ≡ false }
        requires vertex { u < length self.now.children }
        ensures once { IsDistinct nat_eq result.now }
        ensures rows { (v : ℕ) → list_any (nat_eq v) result.now ≡ is_some (row_at self.now u v) }
    {
        // For the proof: the rows that are kept.
        let _stored = self.stored;
        self.layers[u].vertices()
    }

    /// How many rows there are.
    pub fn stored(&self) -> u64
        requires { self.now.is_broken ≡ false }
        ensures count { result ≡ len self.now.rows }
        ensures kept { HasSoundRows self.now }
    {
        self.stored
    }

    /// One joint more leads into the pair of `u` and `v`. Where it had no row, one begins, with all out counters 0.
    ///
    /// It takes one step. Memory is wanted only for a row that begins; at `AllocError` nothing has changed.
    pub fn raise_in<L: Ledger>(
        &mut self,
        u: usize,
        v: u32,
        steps: &mut Steps<L>,
    ) -> Result<(), AllocError>
        requires whole { self.old.is_broken ≡ false }
        requires vertex { u < length self.old.children }
        requires room { ForSome (row_at self.old u v) (λ row. row.ins < 2 ^ 32 - 1) }
        ensures ok { OnOk result (self.new ≡ in_raised self.old u v) }
        ensures err { OnErr result (self.new ≡ self.old) }
        ensures missing { OnErr result (row_at self.old u v ≡ None) }
        ensures step { steps.new ≡ steps.old + 1 }
    {
        steps.tick();
        if self.layers[u].raise_in(v) {
            return Ok(());
        }
        self.begin(u, v)
    }

    /// Begins the row of the pair of `u` and `v`, which has none.
    fn begin(&mut self, u: usize, v: u32) -> Result<(), AllocError>
        requires vertex { u < length self.old.children }
        requires missing { row_at self.old u v ≡ None }
        ensures ok { OnOk result (self.new ≡ in_raised self.old u v) }
        ensures err { OnErr result (self.new ≡ self.old) }
    {
        let width = self.children[u];
        // As many rows as that find no memory in any case.
        let stored = self.stored.checked_add(1).ok_or(AllocError)?;
        self.layers[u].begin(v, width)?;
        self.stored = stored;
        Ok(())
    }

    /// One joint less leads into the pair of `u` and `v`, which has a row. The row goes with its last joint. It takes one step.
    pub fn lower_in<L: Ledger>(&mut self, u: usize, v: u32, steps: &mut Steps<L>)
        requires whole { self.old.is_broken ≡ false }
        requires vertex { u < length self.old.children }
        requires row { IsSome (row_at self.old u v) }
        ensures lowered { self.new ≡ in_lowered self.old u v }
        ensures step { steps.new ≡ steps.old + 1 }
    {
        steps.tick();
        if self.layers[u].lower_in(v) {
            self.stored -= 1;
        }
    }

    /// One joint more leads from the pair of `u` and `v`, which has a row, to an explicit pair of the child of number `j`.
    ///
    /// It takes one step.
    pub fn raise_out<L: Ledger>(&mut self, u: usize, v: u32, j: usize, steps: &mut Steps<L>)
        requires whole { self.old.is_broken ≡ false }
        requires vertex { u < length self.old.children }
        requires child { j < slice_index self.old.children u }
        requires room { IsSomeAnd (row_at self.old u v) (λ row. slice_index row.outs j < 2 ^ 32 - 1) }
        ensures raised { self.new ≡ out_raised self.old u v j }
        ensures step { steps.new ≡ steps.old + 1 }
    {
        steps.tick();
        // For the proof: the rows that are kept.
        let _stored = self.stored;
        self.layers[u].raise_out(v, j);
    }

    /// One joint less leads from the pair of `u` and `v`, which has a row, to an explicit pair of the child of number `j`.
    ///
    /// It takes one step.
    pub fn lower_out<L: Ledger>(&mut self, u: usize, v: u32, j: usize, steps: &mut Steps<L>)
        requires whole { self.old.is_broken ≡ false }
        requires vertex { u < length self.old.children }
        requires child { j < slice_index self.old.children u }
        requires counted { IsSomeAnd (row_at self.old u v) (λ row. 0 < slice_index row.outs j) }
        ensures lowered { self.new ≡ out_lowered self.old u v j }
        ensures step { steps.new ≡ steps.old + 1 }
    {
        steps.tick();
        // For the proof: the rows that are kept.
        let _stored = self.stored;
        self.layers[u].lower_out(v, j);
    }

    /// Says that the rows may be wrong, as after a change that stopped in its midst.
    pub fn mark_broken(&mut self)
        requires { self.old.is_broken ≡ false }
        ensures { self.new ≡ record self.old { is_broken = true } }
    {
        self.broken = true;
    }

    /// Whether `mark_broken` was called.
    pub fn is_broken(&self) -> bool
        ensures { result ≡ self.now.is_broken }
    {
        self.broken
    }
}

ghost use Rattle.std.specs.Prelude.{replicate};

/// So many layers with no rows.
fn empty_layers(alloc: Global, count: usize, hasher: SeededState) -> Result<Vec<Layer>, AllocError>
    ensures { IfOk result (λ layers. layers.items ≡ replicate count empty) }
{
    let mut layers = Vec::with_capacity(alloc, count)?;
    for _ in 0..count {
        layers.push(Layer::new(alloc, hasher))?;
    }
    Ok(layers)
}
