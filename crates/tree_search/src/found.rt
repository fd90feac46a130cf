//! `Found`: what takes the embeddings that a search finds.
ghost use Rattle.std.specs.Prelude.{◌≡◌, ℕ, List, [], ◌∷◌, ◌++◌, OnOk, OnErr};

use flux_model::Maps;
use std::alloc::AllocError;

/// Takes embeddings, each as the list of the ids, by pattern vertex.
pub trait Found {
    /// What was taken so far.
    ghost list: { Self → List (List ℕ) };

    /// Takes one more. Fails only for want of memory, and then nothing has changed.
    fn take(&mut self, m: &[u32]) -> Result<(), AllocError>
        ensures ok { OnOk result (list self.new ≡ list self.old ++ m.now ∷ []) }
        ensures err { OnErr result (list self.new ≡ list self.old) };
}

impl Found for Maps {
    ghost list = { λ maps. maps };

    fn take(&mut self, m: &[u32]) -> Result<(), AllocError> {
        self.add_ids(m)
    }
}
