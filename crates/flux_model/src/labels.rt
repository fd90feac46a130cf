//! `Labels`: a set of labels.
ghost use Rattle.std.specs.Prelude.{◌≡◌, [], ◌<◌, length, Some, IfOk, OnOk, OnErr, slice_get};
ghost use Rattle.flux_model.specs.Text.{text_cmp};
ghost use Rattle.flux_model.specs.Ordered.{is_in, put};
ghost use Rattle.flux_model.specs.Labels.{is_within};

use crate::ordered::place;
use crate::text::Text;
use smallvec::SmallVec;
use std::alloc::{AllocError, Global};
use std::marker::Model;

/// A set of at most 16 labels, in ascending order.
#[derive(Drop)]
pub struct Labels {
    labels: SmallVec<Text, 2>,
}

impl Model for Labels {
    ghost use Rattle.std.specs.Prelude.{List, ℕ};
    ghost use Rattle.flux_model.specs.Labels.{IsLabelSet};

    ghost Value = { List (List ℕ) };

    ghost view = { λ s. s.labels.items };

    ghost invariant = { λ s. IsLabelSet s.labels.items };
}

impl Labels {
    ghost use Rattle.flux_model.specs.Labels.{CanAdd, IsLabelSet};

    /// The empty set.
    pub fn new(alloc: Global) -> Labels
        ensures { result ≡ [] }
    {
        Labels {
            labels: SmallVec::new(alloc),
        }
    }

    /// Puts a label into the set. One that is there already changes nothing; else fewer than 16 have to be there.
    ///
    /// At `AllocError` the set is as before.
    pub fn add(&mut self, t: Text) -> Result<(), AllocError>
        requires { CanAdd self.old t }
        ensures ok { OnOk result (self.new ≡ put text_cmp t self.old) }
        ensures err { OnErr result (self.new ≡ self.old) }
    {
        match place(self.labels.as_slice(), &t) {
            Ok(_) => Ok(()),
            Err(at) => {
                // For the proof: the bytes of `t` are those of a text.
                let _ = t.bytes();
                self.labels.insert(at, t)?;
                Ok(())
            }
        }
    }

    /// How many labels there are, at most 16.
    pub fn len(&self) -> usize
        ensures len { result ≡ length self.now }
        ensures set { IsLabelSet self.now }
    {
        self.labels.len()
    }

    /// The label at place `i`, counted from 0, which has to be below `len`.
    pub fn get(&self, i: usize) -> &Text
        requires { i < length self.now }
        ensures { slice_get self.now i ≡ Some result.now }
    {
        &self.labels.as_slice()[i]
    }

    /// Whether each label of this set is in the other one.
    pub fn within(&self, other: &Labels) -> bool
        ensures { result ≡ is_within self.now other.now }
    {
        are_within(self.labels.as_slice(), other.labels.as_slice())
    }

    /// An equal set, or `AllocError` where memory is wanting.
    pub fn copy(&self) -> Result<Labels, AllocError>
        ensures { IfOk result (λ labels. labels ≡ self.now) }
    {
        let labels = copies(*self.labels.allocator(), self.labels.as_slice())?;
        Ok(Labels { labels })
    }
}

/// Whether a label is among others.
fn is_among(t: &Text, labels: &[Text]) -> bool
    ensures { result ≡ is_in text_cmp t.now labels.now }
{
    labels.iter().any(|label| t.cmp(label).is_eq())
}

/// Whether each label is among others.
fn are_within(labels: &[Text], others: &[Text]) -> bool
    ensures { result ≡ is_within labels.now others.now }
{
    labels.iter().all(|label| is_among(label, others))
}

/// Equal labels.
fn copies(alloc: Global, labels: &[Text]) -> Result<SmallVec<Text, 2>, AllocError>
    ensures { IfOk result (λ copies. copies.items ≡ labels.now) }
{
    let mut copies = SmallVec::new(alloc);
    for label in labels {
        copies.push(label.copy()?)?;
    }
    Ok(copies)
}
