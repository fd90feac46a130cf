//! `Map`, `Maps`, `Delta` and `Deltas`: maps of a pattern's vertices to ids, and which of them an update gained and lost.
ghost use Rattle.std.specs.Prelude.{◌≡◌, [], ◌∷◌, ◌++◌, ◌<◌, length, IfOk, OnOk, OnErr, slice_index, slice_get};
ghost use Rattle.std.specs.Prelude.{ℕ, nat_eq, refl, IsPermutation, IsSorted, slice_index_or};
ghost use Rattle.std.specs.Ordering.{nat_cmp, as_partial_cmp};
ghost use Rattle.std.specs.Cmp.{partial_equiv_from_equiv, partial_order_from_agreeing_total, unsigned_ties};
ghost use Rattle.std.specs.Cmp.Lexicographic.{pointwise, slice_cmp, nat_list_eq_equiv, nat_list_cmp_total, lists_ties};

use crate::sorting::sort_all;
use smallvec::SmallVec;
use std::alloc::{AllocError, Global};
use std::cmp::Ordering;
use std::marker::Model;

/// A map of a pattern's vertices to ids of a graph: the list of the ids, one for each vertex.
///
/// Maps are ordered id by id, as numbers, and a proper prefix comes first.
#[derive(Drop)]
pub struct Map {
    ids: SmallVec<u32, 8>,
}

impl Model for Map {
    ghost use Rattle.std.specs.Prelude.{List, ℕ};

    ghost Value = { List ℕ };

    ghost view = { λ m. m.ids.items };
}

impl Map {
    /// The empty list.
    pub fn new(alloc: Global) -> Map
        ensures { result ≡ [] }
    {
        Map {
            ids: SmallVec::new(alloc),
        }
    }

    /// The list of these ids.
    pub fn from_ids(alloc: Global, ids: &[u32]) -> Result<Map, AllocError>
        ensures { IfOk result (λ map. map ≡ ids.now) }
    {
        let mut list = SmallVec::new(alloc);
        list.extend_from_slice(ids)?;
        Ok(Map { ids: list })
    }

    /// Appends an id at the end. At `AllocError` the list is as before.
    pub fn add(&mut self, id: u32) -> Result<(), AllocError>
        ensures ok { OnOk result (self.new ≡ self.old ++ id ∷ []) }
        ensures err { OnErr result (self.new ≡ self.old) }
    {
        self.ids.push(id)?;
        Ok(())
    }

    /// How many ids there are.
    pub fn len(&self) -> usize
        ensures { result ≡ length self.now }
    {
        self.ids.len()
    }

    /// The id of vertex `i`, which has to be below `len`.
    pub fn get(&self, i: usize) -> u32
        requires { i < length self.now }
        ensures { result ≡ slice_index self.now i }
    {
        self.ids.as_slice()[i]
    }
}

impl PartialEq for Map {
    ghost eq = { pointwise nat_eq };

    ghost laws = { partial_equiv_from_equiv nat_list_eq_equiv };

    fn eq(&self, other: &Map) -> bool {
        self.ids.as_slice() == other.ids.as_slice()
    }
}

impl Eq for Map {
    ghost laws = { nat_list_eq_equiv };
}

impl PartialOrd for Map {
    ghost partial_cmp = { as_partial_cmp (slice_cmp nat_cmp) };

    ghost laws = { partial_order_from_agreeing_total (slice_cmp nat_cmp) nat_list_cmp_total (λ _ _. refl)
        (lists_ties nat_cmp unsigned_ties) };

    fn partial_cmp(&self, other: &Map) -> Option<Ordering> {
        Some(self.cmp(other))
    }
}

impl Ord for Map {
    ghost cmp = { slice_cmp nat_cmp };

    ghost total = { nat_list_cmp_total };

    ghost matches_partial_cmp = { λ _ _. refl };

    ghost matches_eq = { lists_ties nat_cmp unsigned_ties };

    fn cmp(&self, other: &Map) -> Ordering {
        self.ids.as_slice().cmp(&other.ids.as_slice())
    }
}

/// A list of maps.
#[derive(Drop)]
pub struct Maps {
    maps: Vec<Map>,
}

impl Model for Maps {
    ghost use Rattle.std.specs.Prelude.{List, ℕ};

    ghost Value = { List (List ℕ) };

    ghost view = { λ m. m.maps.items };
}

impl Maps {
    ghost use Rattle.std.specs.Prelude.{Some};

    /// The empty list.
    pub fn new(alloc: Global) -> Maps
        ensures { result ≡ [] }
    {
        Maps {
            maps: Vec::new(alloc),
        }
    }

    /// Appends a map at the end. At `AllocError` the list is as before.
    pub fn add(&mut self, m: Map) -> Result<(), AllocError>
        ensures ok { OnOk result (self.new ≡ self.old ++ m ∷ []) }
        ensures err { OnErr result (self.new ≡ self.old) }
    {
        self.maps.push(m)?;
        Ok(())
    }

    /// Appends the map of these ids at the end. At `AllocError` the list is as before.
    pub fn add_ids(&mut self, ids: &[u32]) -> Result<(), AllocError>
        ensures ok { OnOk result (self.new ≡ self.old ++ ids.now ∷ []) }
        ensures err { OnErr result (self.new ≡ self.old) }
    {
        let map = Map::from_ids(*self.maps.allocator(), ids)?;
        self.add(map)
    }

    /// How many maps there are.
    pub fn len(&self) -> usize
        ensures { result ≡ length self.now }
    {
        self.maps.len()
    }

    /// Puts the maps in ascending order. At `AllocError` they are all there still, in some order.
    pub fn sort(&mut self) -> Result<(), AllocError>
        ensures permutation { IsPermutation self.old self.new }
        ensures sorted { OnOk result (IsSorted (slice_cmp nat_cmp) self.new) }
    {
        self.maps.sort()
    }

    /// The map at place `i`, counted from 0, which has to be below `len`.
    pub fn get(&self, i: usize) -> &Map
        requires { i < length self.now }
        ensures { slice_get self.now i ≡ Some result.now }
    {
        &self.maps[i]
    }
}

/// The embeddings that one pattern gained and lost by an update.
#[derive(Drop)]
pub struct Delta {
    /// The pattern's place in the list of patterns, counted from 0.
    pub pattern: usize,
    pub gained: Maps,
    pub lost: Maps,
}

impl Delta {
    ghost use Rattle.std.specs.Prelude.{nat_lt};

    /// Whether something was gained or lost.
    pub fn has_map(&self) -> bool
        ensures { result ≡ nat_lt 0 (length (self.now.gained ++ self.now.lost)) }
    {
        self.gained.len() > 0 || self.lost.len() > 0
    }
}

/// The deltas of an update, ascending by pattern. Each has gained or lost a map.
#[derive(Drop)]
pub struct Deltas {
    deltas: Vec<Delta>,
}

impl Model for Deltas {
    ghost use Rattle.std.specs.Prelude.{List};
    ghost use Rattle.flux_model.specs.declared.maps.Delta.{Delta};
    ghost use Rattle.flux_model.specs.Deltas.{AreDeltas};

    ghost Value = { List Delta };

    ghost view = { λ d. d.deltas.items };

    ghost invariant = { λ d. AreDeltas d.deltas.items };
}

impl Deltas {
    ghost use Rattle.std.specs.Prelude.{Some};
    ghost use Rattle.flux_model.specs.Deltas.{HasMap, IsAbove, with_delta};

    /// The empty list.
    pub fn new(alloc: Global) -> Deltas
        ensures { result ≡ [] }
    {
        Deltas {
            deltas: Vec::new(alloc),
        }
    }

    /// Appends a delta at the end. It has to have a map, and its pattern has to be above all that are there.
    ///
    /// At `AllocError` the list is as before.
    pub fn add(&mut self, d: Delta) -> Result<(), AllocError>
        requires map { HasMap d }
        requires above { IsAbove self.old d }
        ensures ok { OnOk result (self.new ≡ self.old ++ d ∷ []) }
        ensures err { OnErr result (self.new ≡ self.old) }
    {
        self.deltas.push(d)?;
        Ok(())
    }

    /// Appends a delta at the end, where it has a map. Its pattern has to be above all that are there.
    ///
    /// At `AllocError` the list is as before.
    pub fn add_unless_empty(&mut self, d: Delta) -> Result<(), AllocError>
        requires { IsAbove self.old d }
        ensures ok { OnOk result (self.new ≡ self.old ++ with_delta d []) }
        ensures err { OnErr result (self.new ≡ self.old) }
    {
        if d.has_map() {
            self.add(d)?;
        }
        Ok(())
    }

    /// How many deltas there are.
    pub fn len(&self) -> usize
        ensures { result ≡ length self.now }
    {
        self.deltas.len()
    }

    /// The delta at place `i`, counted from 0, which has to be below `len`.
    pub fn get(&self, i: usize) -> &Delta
        requires { i < length self.now }
        ensures { slice_get self.now i ≡ Some result.now }
    {
        &self.deltas[i]
    }
}

impl Deltas {
    ghost use Rattle.flux_model.specs.declared.maps.Delta.{Delta};
    ghost use Rattle.flux_model.specs.Deltas.{IsReordered, IsInOrder};

    /// Puts the gained and the lost maps of each delta in ascending order.
    ///
    /// At `AllocError` each delta has the same maps still, in some order.
    pub fn sort(&mut self) -> Result<(), AllocError>
        ensures len { length self.new ≡ length self.old }
        ensures same { (k : ℕ) (d : Delta) → k < length self.old → IsReordered (slice_index_or self.old k d) (slice_index_or self.new k d) }
        ensures sorted { OnOk result ((k : ℕ) (d : Delta) → k < length self.old → IsInOrder (slice_index_or self.new k d)) }
    {
        sort_all(&mut self.deltas)
    }
}
