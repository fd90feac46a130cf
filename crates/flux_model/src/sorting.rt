//! The maps of deltas, put in ascending order.
ghost use Rattle.std.specs.Prelude.{◌≡◌, ◌<◌, ℕ, length, OnOk, slice_index_or};
ghost use Rattle.flux_model.specs.declared.maps.Delta.{Delta};
ghost use Rattle.flux_model.specs.Deltas.{IsReordered, IsInOrder};

use crate::maps::Delta;
use std::alloc::AllocError;

/// Puts each list of maps in ascending order. At `AllocError` each has its maps in some order.
pub(crate) fn sort_all(deltas: &mut Vec<Delta>) -> Result<(), AllocError>
    ensures len { length deltas.new.items ≡ length deltas.old.items }
    ensures same { (k : ℕ) (d : Delta) → k < length deltas.old.items
        → IsReordered (slice_index_or deltas.old.items k d) (slice_index_or deltas.new.items k d) }
    ensures sorted { OnOk result ((k : ℕ) (d : Delta) → k < length deltas.old.items
        → IsInOrder (slice_index_or deltas.new.items k d)) }
{
    for i in 0..deltas.len() {
        sort_one(&mut deltas[i])?;
    }
    Ok(())
}

/// Puts both lists of maps in ascending order. At `AllocError` each has its maps in some order.
fn sort_one(d: &mut Delta) -> Result<(), AllocError>
    ensures same { IsReordered d.old d.new }
    ensures sorted { OnOk result (IsInOrder d.new) }
{
    d.gained.sort()?;
    d.lost.sort()?;
    Ok(())
}
