// The counts that the objects keep.
ghost use Rattle.std.specs.Prelude.{◌≡◌};
ghost use Rattle.flux_outside.specs.Causes.{next_count};

use crate::traits::Failed;

/// Counts one more fault.
pub fn count_fault(faults: &mut u64) -> Failed
    ensures { faults.new ≡ next_count faults.old }
{
    *faults = faults.saturating_add(1);
    Failed
}
