//! `Taken`: what a line of the updates came to, and the block that is written of it.
ghost use Rattle.std.specs.Prelude.{◌≡◌, ◌++◌, OnOk, OnErr};
ghost use Rattle.flux_model.specs.Graph.{Graph};
ghost use Rattle.flux_model.specs.Grown.{GrewByFront};
ghost use Rattle.flux_model.specs.Report.{Outcome, block_of};
ghost use Rattle.watch_core.specs.Taken.{IsTakenOver};

use delta_report::{write_deltas, write_refusal};
use flux_model::{Code, Deltas, Patterns};
use std::alloc::AllocError;

/// What a line of the updates came to.
#[derive(Drop)]
pub enum Taken {
    /// It says nothing.
    Ignored,
    /// It is refused, for this reason.
    Refused(Code),
    /// It changed the graph; what each pattern gained and lost by it.
    Changed(Deltas),
}

/// Writes the block of the line of this number, which came to this. At `AllocError` a front part of it is written.
pub(crate) fn write_block(
    number: u64,
    patterns: &Patterns,
    taken: Taken,
    report: &mut Vec<u8>,
) -> Result<(), AllocError>
    requires taken { (g : Graph) × (came_to : Outcome) × IsTakenOver patterns.now g came_to taken }
    ensures ok { OnOk result ((g : Graph) (came_to : Outcome) → IsTakenOver patterns.now g came_to taken
        → report.new.items ≡ report.old.items ++ block_of number patterns.now g came_to) }
    ensures err { OnErr result ((g : Graph) (came_to : Outcome) → IsTakenOver patterns.now g came_to taken
        → GrewByFront report.old.items report.new.items (block_of number patterns.now g came_to)) }
{
    match taken {
        Taken::Ignored => Ok(()),
        Taken::Refused(code) => write_refusal(number, code, report),
        Taken::Changed(mut deltas) => write_deltas(number, patterns, &mut deltas, report),
    }
}
