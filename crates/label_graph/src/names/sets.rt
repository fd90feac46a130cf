//! Sets of label names in the table.
ghost use Rattle.std.specs.Prelude.{◌≡◌, ℕ, ◌≤◌, [], ◌∷◌, length, drop, not, count_by, OnOk, OnErr};
ghost use Rattle.label_graph.specs.Names.{slot};
ghost use Rattle.label_graph.specs.SetNames.{is_known, lowered_in, IsRaised};

use crate::names::Names;
use flux_model::{Labels, Text};
use std::alloc::AllocError;

impl Names {
    /// How many names of the set have no number.
    pub fn count_unknown(&self, labels: &Labels) -> usize
        ensures { result ≡ count_by (λ text. not (is_known self.now text)) labels.now }
    {
        let mut count = 0;
        for i in 0..labels.len() {
            if self.is_unknown(labels.get(i)) {
                count += 1;
            }
        }
        count
    }

    /// Each name of the set is used once more. At `AllocError` each number stands for what it stood for.
    pub fn raise_all(&mut self, labels: &Labels) -> Result<(), AllocError>
        ensures raised { OnOk result (IsRaised labels.now self.old self.new) }
        ensures same { OnErr result ((q : ℕ) → slot self.new q ≡ slot self.old q) }
    {
        self.raise_from(labels, 0)
    }

    /// Each name of the set is used once less, if it has a number.
    pub fn lower_all(&mut self, labels: &Labels)
        ensures { (q : ℕ) → slot self.new q ≡ lowered_in labels.now (slot self.old q) }
    {
        for i in 0..labels.len() {
            self.lower_text(labels.get(i));
        }
    }

    /// Whether no number stands for the text.
    fn is_unknown(&self, text: &Text) -> bool
        ensures { result ≡ not (is_known self.now text.now) }
    {
        self.find(text).is_none()
    }

    /// Each name of the set from a place on is used once more, or none of them.
    fn raise_from(&mut self, labels: &Labels, i: usize) -> Result<(), AllocError>
        requires { i ≤ length labels.now }
        ensures raised { OnOk result (IsRaised (drop i labels.now) self.old self.new) }
        ensures same { OnErr result ((q : ℕ) → slot self.new q ≡ slot self.old q) }
    {
        // For the proof: no two numbers stand for one text.
        let _ = self.len();
        if i == labels.len() {
            return Ok(());
        }
        let n = self.raise(labels.get(i))?;
        match self.raise_from(labels, i + 1) {
            Ok(()) => Ok(()),
            Err(e) => {
                self.lower(n);
                Err(e)
            }
        }
    }

    /// The name is used once less, if it has a number.
    fn lower_text(&mut self, text: &Text)
        ensures { (q : ℕ) → slot self.new q ≡ lowered_in (text.now ∷ []) (slot self.old q) }
    {
        if let Some(n) = self.find(text) {
            self.lower(n);
        }
    }
}
