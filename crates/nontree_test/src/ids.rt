//! The test of the mode.
ghost use Rattle.std.specs.Prelude.{◌≡◌, ◌<◌, Some, length};
ghost use Rattle.std.specs.List.{list_any};
ghost use Rattle.flux_model.specs.Partial.{id_of, is_free, same_id};

use flux_model::{Mode, Partial};

/// Whether `x` may be given: always in mode `Hom`, and in mode `Iso` where no vertex has it.
pub fn free(mode: Mode, partial: &Partial, x: u32) -> bool
    ensures { result ≡ is_free mode partial.now x }
{
    match mode {
        Mode::Hom => true,
        Mode::Iso => !is_given(partial, x),
    }
}

/// Whether some vertex has the id `x`.
fn is_given(partial: &Partial, x: u32) -> bool
    ensures { result ≡ list_any (same_id (Some x)) partial.now }
{
    (0..partial.len()).any(|u| has_id(partial, u, x))
}

/// Whether vertex `u` has the id `x`.
fn has_id(partial: &Partial, u: usize, x: u32) -> bool
    requires { u < length partial.now }
    ensures { result ≡ same_id (Some x) (id_of partial.now u) }
{
    partial.get(u) == Some(x)
}
