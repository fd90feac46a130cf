//! `Aim`: which embeddings a search is for.
ghost use Rattle.std.specs.Prelude.{◌≡◌, ℕ, List, IfSome, length, slice_index};
ghost use Rattle.flux_model.specs.Graph.{Graph};
ghost use Rattle.flux_model.specs.Members.{In};
ghost use Rattle.flux_model.specs.Pattern.{vertex_count};
ghost use Rattle.tree_search.specs.Aim.{IsAim, aimed, keeps_aim};

use flux_model::{Partial, Pattern, Triple};
use nontree_test::earlier;

/// Which embeddings a search is for.
#[derive(Clone, Copy)]
pub enum Aim<'a> {
    /// All of them.
    All,
    /// Those that send the edge of this number to the triple, and no edge of a lower number.
    Edge { number: usize, triple: &'a Triple },
}

/// The id that vertex `w` has to have, where it is the head of an edge that is sent to a triple. It takes no step.
pub fn target<'a>(pattern: &Pattern, aim: Aim<'a>, w: usize) -> Option<&'a u32>
    requires { IsAim pattern.now aim }
    ensures { IfSome result (λ x. (g : Graph) (m : List ℕ) → In (aimed pattern.now g aim.entry) m → slice_index m w ≡ x.now) }
{
    match aim {
        Aim::All => None,
        Aim::Edge { number, triple } => {
            if pattern.edge(number).head == w {
                Some(&triple.dst)
            } else {
                None
            }
        }
    }
}

/// Whether, with `x` for `w`, what is aimed at can still be met. It takes no step.
pub fn keeps_aim(pattern: &Pattern, aim: Aim<'_>, partial: &Partial, w: usize, x: u32) -> bool
    requires aim { IsAim pattern.now aim }
    requires places { length partial.now ≡ vertex_count pattern.now }
    ensures { result ≡ keeps_aim pattern.now aim.entry partial.now w x }
{
    match aim {
        Aim::All => true,
        Aim::Edge { number, triple } => {
            (w != pattern.edge(number).head || x == triple.dst)
                && !earlier(pattern, number, partial, w, x, triple)
        }
    }
}
