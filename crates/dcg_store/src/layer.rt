//! `Layer`: the rows of one pattern vertex.
ghost use Rattle.std.specs.Prelude.{◌≡◌, ℕ, ◌+◌, ◌-◌, ◌<◌, ◌≤◌, ◌*◌, ◌^◌, length, take, drop, nat_eq, nat_lt, slice_index, is_some, IsSome, None, OnOk, OnErr, if◌then◌else◌};
ghost use Rattle.std.specs.List.{list_all, list_any, IsDistinct};
ghost use Rattle.std.specs.Option.{ForSome, IsSomeAnd};
ghost use Rattle.std.specs.FinMap.{empty, get, insert, remove};
ghost use Rattle.dcg_store.specs.Counters.{first_row, state_of_row, more_ins, fewer_ins, more_outs, fewer_outs, has_last_in};
ghost use Rattle.dcg_store.specs.Moves.{with_changed, with_fewer_ins};
ghost use Rattle.dcg_store.specs.Layers.{live_in, HasWidth};

use flux_model::State;
use indexmap::IndexMap;
use seeded_hash::SeededState;
use std::alloc::{AllocError, Global};
use std::marker::Model;

/// The rows of one pattern vertex, by graph vertex.
///
/// The out counters lie in one list, row after row, in the order of the in counters: a row takes no allocation of its own.
#[derive(Drop)]
pub(crate) struct Layer {
    /// How many joints lead into each pair that has a row.
    ins: IndexMap<u32, u32, SeededState>,
    /// For each row in turn, how many joints lead on to each child.
    outs: Vec<u32>,
    /// How many out counters a row has. Without rows it may be any number.
    width: usize,
    /// How many rows are explicit.
    live: u64,
}

impl Model for Layer {
    ghost use Rattle.std.specs.Prelude.{◌≡◌};
    ghost use Rattle.std.specs.FinMap.{FinMap, from_entries};
    ghost use Rattle.std.specs.Ordering.{nat_cmp};
    ghost use Rattle.flux_model.specs.Exact.{Row};
    ghost use Rattle.dcg_store.specs.SoundRows.{layer_code};
    ghost use Rattle.dcg_store.specs.Flat.{flat_rows, IsFlat};

    ghost Value = { FinMap nat_cmp Row };

    ghost coded = { layer_code };

    ghost view = { λ l. from_entries (flat_rows l.width l.ins.entries l.outs.items) };

    ghost invariant = { λ l. IsFlat l.width l.ins.entries l.outs.items l.live };
}

impl Layer {
    /// No rows. Graph vertices are to be hashed so.
    pub(crate) fn new(alloc: Global, hasher: SeededState) -> Layer
        ensures { result ≡ empty }
    {
        Layer {
            ins: IndexMap::with_hasher(alloc, hasher),
            outs: Vec::new(alloc),
            width: 0,
            live: 0,
        }
    }

    /// How many rows are explicit.
    pub(crate) fn live(&self) -> u64
        ensures { result ≡ live_in self.now }
    {
        self.live
    }

    /// The vertices that have a row.
    pub(crate) fn vertices(&self) -> &[u32]
        ensures once { IsDistinct nat_eq result.now }
        ensures rows { (v : ℕ) → list_any (nat_eq v) result.now ≡ is_some (get self.now v) }
    {
        self.ins.keys().as_slice()
    }

    /// The state of the pair with `v`.
    pub(crate) fn state(&self, v: u32) -> State
        ensures { result ≡ state_of_row (get self.now v) }
    {
        let Some(i) = self.ins.get_index_of(&v) else {
            return State::Null;
        };
        if is_full_at(self.outs.as_slice(), self.width, i) {
            State::Explicit
        } else {
            State::Implicit
        }
    }

    /// One joint more leads to `v`, where it has a row. Whether it has one.
    pub(crate) fn raise_in(&mut self, v: u32) -> bool
        requires { ForSome (get self.old v) (λ row. row.ins < 2 ^ 32 - 1) }
        ensures found { result ≡ is_some (get self.old v) }
        ensures raised { self.new ≡ with_changed more_ins self.old v }
    {
        let Some(ins) = self.ins.get_mut(&v) else {
            return false;
        };
        *ins += 1;
        true
    }

    /// Begins the row of `v`, which has none, with a counter for each of `width` children. Each row has as many.
    pub(crate) fn begin(&mut self, v: u32, width: usize) -> Result<(), AllocError>
        requires missing { get self.old v ≡ None }
        requires width { HasWidth width self.old }
        ensures ok { OnOk result (self.new ≡ insert self.old v (first_row width)) }
        ensures err { OnErr result (self.new ≡ self.old) }
    {
        let len = self.outs.len().checked_add(width).ok_or(AllocError)?;
        self.ins.reserve(1)?;
        self.outs.resize(len, 0)?;
        match self.ins.insert(v, 1) {
            Ok(_) => {}
            Err(_) => unreachable!(),
        }
        self.width = width;
        // For the proof: a map has fewer than 2^64 rows.
        let _len = self.ins.len();
        self.live += one_if(width == 0);
        Ok(())
    }

    /// One joint less leads to `v`, which has a row. The row goes with its last joint, and the answer is whether it has gone.
    pub(crate) fn lower_in(&mut self, v: u32) -> bool
        requires { IsSomeAnd (get self.old v) (λ row. 0 < row.ins) }
        ensures gone { result ≡ has_last_in (get self.old v) }
        ensures lowered { self.new ≡ with_fewer_ins self.old v }
    {
        let is_last = self.take_in(v);
        if is_last {
            self.end(v);
        }
        is_last
    }

    /// One joint less leads to `v`, which has a row that stays. Whether none is left.
    fn take_in(&mut self, v: u32) -> bool
        requires { IsSomeAnd (get self.old v) (λ row. 0 < row.ins) }
        ensures last { result ≡ has_last_in (get self.old v) }
        ensures lowered { self.new ≡ with_changed fewer_ins self.old v }
    {
        let Some(ins) = self.ins.get_mut(&v) else {
            return false;
        };
        let is_last = *ins == 1;
        *ins -= 1;
        is_last
    }

    /// Ends the row of `v`, which has one. The last row moves into its place.
    fn end(&mut self, v: u32)
        requires { IsSome (get self.old v) }
        ensures { self.new ≡ remove self.old v }
    {
        // For the proof: no vertex has two rows.
        let _len = self.ins.len();
        let Some((i, _, _)) = self.ins.swap_remove_full(&v) else {
            return;
        };
        let was = one_if(is_full_at(self.outs.as_slice(), self.width, i));
        let last = self.width * self.ins.len();
        self.outs.copy_within(last.., self.width * i);
        self.outs.truncate(last);
        self.live -= was;
    }

    /// One joint more leads from `v`, which has a row, to an explicit pair of the child of number `j`.
    pub(crate) fn raise_out(&mut self, v: u32, j: usize)
        requires { IsSomeAnd (get self.old v) (λ row. (j < length row.outs) × (slice_index row.outs j < 2 ^ 32 - 1)) }
        ensures { self.new ≡ with_changed (more_outs j) self.old v }
    {
        let Some(i) = self.ins.get_index_of(&v) else {
            return;
        };
        let was = one_if(is_full_at(self.outs.as_slice(), self.width, i));
        self.outs[self.width * i + j] += 1;
        let now = one_if(is_full_at(self.outs.as_slice(), self.width, i));
        // For the proof: a map has fewer than 2^64 rows.
        let _len = self.ins.len();
        self.live = self.live - was + now;
    }

    /// One joint less leads from `v`, which has a row, to an explicit pair of the child of number `j`.
    pub(crate) fn lower_out(&mut self, v: u32, j: usize)
        requires { IsSomeAnd (get self.old v) (λ row. (j < length row.outs) × (0 < slice_index row.outs j)) }
        ensures { self.new ≡ with_changed (fewer_outs j) self.old v }
    {
        let Some(i) = self.ins.get_index_of(&v) else {
            return;
        };
        let was = one_if(is_full_at(self.outs.as_slice(), self.width, i));
        self.outs[self.width * i + j] -= 1;
        let now = one_if(is_full_at(self.outs.as_slice(), self.width, i));
        // For the proof: a map has fewer than 2^64 rows.
        let _len = self.ins.len();
        self.live = self.live - was + now;
    }
}

/// Whether each counter of the row of number `i` is at least 1.
fn is_full_at(outs: &[u32], width: usize, i: usize) -> bool
    requires { width * i + width ≤ length outs.now }
    ensures { result ≡ list_all (nat_lt 0) (take width (drop (width * i) outs.now)) }
{
    // For the proof: a slice has fewer than 2^64 items.
    let _len = outs.len();
    let from = width * i;
    are_positive(&outs[from..from + width])
}

/// Whether each counter is at least 1.
fn are_positive(counters: &[u32]) -> bool
    ensures { result ≡ list_all (nat_lt 0) counters.now }
{
    counters.iter().all(|n| *n > 0)
}

/// 1 for true, and 0 for false.
fn one_if(test: bool) -> u64
    ensures { result ≡ (if test then 1 else 0) }
{
    if test { 1 } else { 0 }
}
