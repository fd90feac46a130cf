//! The table of label names.
ghost use Rattle.std.specs.Prelude.{◌≡◌, ◌≢◌, ℕ, ◌+◌, ◌<◌, None, Some, IsSome, MatchOption, count_by, is_some, OnOk, OnErr, IfOk, IfSome};

use crate::hashed::Numbers;
use flux_model::Text;
use seeded_hash::SeededState;
use slab::Slab;
use std::alloc::{AllocError, Global};
use std::marker::Model;

mod sets;

/// A name, and how often it is used.
#[derive(Drop)]
pub struct Name {
    pub text: Text,
    pub uses: u64,
}

/// The names in use, each under a number that it keeps while it is in use.
#[derive(Drop)]
pub struct Names {
    numbers: Numbers,
    slots: Slab<Name>,
}

impl Model for Names {
    ghost use Rattle.std.specs.Prelude.{List, Option};
    ghost use Rattle.label_graph.specs.declared.names.Name.{Name};
    ghost use Rattle.label_graph.specs.Table.{IsInside};

    ghost Value = { List (Option Name) };

    ghost view = { λ n. n.slots.slots };

    ghost invariant = { λ n. IsInside n.numbers.entries n.slots.slots };
}

impl Names {
    ghost use Rattle.label_graph.specs.Names.{slot, text_at, uses_of, lowered, IsUnknown, IsTable};

    /// No names, which are to be hashed so.
    pub fn new(alloc: Global, hasher: SeededState) -> Names
        ensures { (n : ℕ) → slot result n ≡ None }
    {
        Names {
            numbers: Numbers::with_hasher(alloc, hasher),
            slots: Slab::new(alloc),
        }
    }

    /// How many names there are.
    pub fn len(&self) -> usize
        ensures value { result ≡ count_by is_some self.now }
        ensures table { IsTable self.now }
    {
        // For the proof: the numbers are those of a table.
        let _ = &self.numbers;
        self.slots.len()
    }

    /// The number of a name.
    pub fn find(&self, text: &Text) -> Option<u32>
        ensures table { IsTable self.now }
        ensures found { MatchOption result (IsUnknown self.now text.now) (λ n. text_at self.now n ≡ Some text.now) }
    {
        self.numbers.get(text).copied()
    }

    /// The name of a number.
    pub fn text(&self, n: u32) -> &Text
        requires { IsSome (slot self.now n) }
        ensures { text_at self.now n ≡ Some result.now }
    {
        &self.slots.get(n as usize).unwrap().text
    }

    /// The number of a name, which is used once more.
    pub fn raise(&mut self, text: &Text) -> Result<u32, AllocError>
        ensures here { IfOk result (λ n. slot self.new n ≡ Some (record { text = text.now; uses = uses_of (slot self.old n) + 1 })) }
        ensures was { IfOk result (λ n. MatchOption (slot self.old n) (IsUnknown self.old text.now) (λ x. x.text ≡ text.now)) }
        ensures others { IfOk result (λ n. (q : ℕ) → q ≢ n → slot self.new q ≡ slot self.old q) }
        ensures err { OnErr result (self.new ≡ self.old) }
    {
        let known = self.find(text);
        self.raise_found(text, known)
    }

    /// As `raise`, where `find` has just answered `known` for the name.
    pub fn raise_found(&mut self, text: &Text, known: Option<u32>) -> Result<u32, AllocError>
        requires { MatchOption known (IsUnknown self.old text.now) (λ n. text_at self.old n ≡ Some text.now) }
        ensures here { IfOk result (λ n. slot self.new n ≡ Some (record { text = text.now; uses = uses_of (slot self.old n) + 1 })) }
        ensures was { IfOk result (λ n. MatchOption (slot self.old n) (IsUnknown self.old text.now) (λ x. x.text ≡ text.now)) }
        ensures others { IfOk result (λ n. (q : ℕ) → q ≢ n → slot self.new q ≡ slot self.old q) }
        ensures err { OnErr result (self.new ≡ self.old) }
    {
        match known {
            Some(n) => {
                let name = self.slots.get_mut(n as usize).unwrap();
                let Some(uses) = name.uses.checked_add(1) else {
                    return Err(AllocError);
                };
                name.uses = uses;
                Ok(n)
            }
            None => {
                let Ok(n) = u32::try_from(self.slots.vacant_key()) else {
                    return Err(AllocError);
                };
                let key = text.copy()?;
                let text = text.copy()?;
                self.slots.reserve(1)?;
                match self.numbers.insert(key, n) {
                    Ok(_) => {}
                    Err(_) => return Err(AllocError),
                }
                self.slots.insert_reserved(Name { text, uses: 1 });
                Ok(n)
            }
        }
    }

    /// The name of the number is used once less.
    pub fn lower(&mut self, n: u32)
        requires { IsSome (slot self.old n) }
        ensures here { slot self.new n ≡ lowered (slot self.old n) }
        ensures others { (q : ℕ) → q ≢ n → slot self.new q ≡ slot self.old q }
    {
        let name = self.slots.get_mut(n as usize).unwrap();
        if name.uses > 1 {
            name.uses -= 1;
        } else {
            let Name { text, .. } = self.slots.remove(n as usize);
            self.numbers.remove(&text);
        }
    }
}
