//! The block of an update: what each pattern gained and lost.
ghost use Rattle.std.specs.Prelude.{◌≡◌, [], ◌∷◌, ◌++◌, List, length, flat_map, OnOk, OnErr};
ghost use Rattle.flux_model.specs.Grown.{GrewByFront};
ghost use Rattle.flux_model.specs.Report.{map_line};
ghost use Rattle.flux_model.specs.declared.maps.Delta.{Delta};
ghost use Rattle.delta_report.specs.Block.{delta_lines, deltas_text, HavePatterns};
ghost use Rattle.delta_report.specs.Sorted.{AreSorted};
ghost use Rattle.flux_model.specs.Deltas.{AreReordered};

use crate::map_words::end_map_lines;
use flux_model::{Delta, Deltas, Maps, Patterns};
use line_words::{start_line, write_word};
use std::alloc::AllocError;

/// Sorts the maps of each delta, and writes for each delta a line `+ NUMBER NAME IDS` for each map that was gained, and
/// then a line `- NUMBER NAME IDS` for each that was lost. The name is that of the delta's pattern.
///
/// At `AllocError` a front part of these lines was written, and the deltas have the same maps as before, in some order.
pub fn write_deltas(
    number: u64,
    patterns: &Patterns,
    deltas: &mut Deltas,
    out: &mut Vec<u8>,
) -> Result<(), AllocError>
    requires { HavePatterns (length patterns.now) deltas.old }
    ensures same { AreReordered deltas.old deltas.new }
    ensures sorted { OnOk result (AreSorted deltas.old deltas.new) }
    ensures ok { OnOk result ((sorted : List Delta) → AreSorted deltas.old sorted
        → out.new.items ≡ out.old.items ++ deltas_text number patterns.now sorted) }
    ensures err { OnErr result ((sorted : List Delta) → AreSorted deltas.old sorted
        → GrewByFront out.old.items out.new.items (deltas_text number patterns.now sorted)) }
{
    deltas.sort()?;
    write_each(number, patterns, deltas, out)
}

/// Writes the lines of each delta, the maps as they stand.
fn write_each(
    number: u64,
    patterns: &Patterns,
    deltas: &Deltas,
    out: &mut Vec<u8>,
) -> Result<(), AllocError>
    requires { HavePatterns (length patterns.now) deltas.now }
    ensures ok { OnOk result (out.new.items ≡ out.old.items ++ deltas_text number patterns.now deltas.now) }
    ensures err { OnErr result (GrewByFront out.old.items out.new.items (deltas_text number patterns.now deltas.now)) }
{
    for i in 0..deltas.len() {
        let delta = deltas.get(i);
        let name = patterns.get(delta.pattern).name();
        write_delta(number, name.bytes(), delta, out)?;
    }
    Ok(())
}

/// Writes what a pattern of this name gained, and then what it lost.
fn write_delta(number: u64, name: &[u8], delta: &Delta, out: &mut Vec<u8>) -> Result<(), AllocError>
    ensures ok { OnOk result (out.new.items ≡ out.old.items ++ delta_lines number name.now delta.now) }
    ensures err { OnErr result (GrewByFront out.old.items out.new.items (delta_lines number name.now delta.now)) }
{
    write_maps(b'+', number, name, &delta.gained, out)?;
    write_maps(b'-', number, name, &delta.lost, out)
}

/// Writes a line for each map.
fn write_maps(
    sign: u8,
    number: u64,
    name: &[u8],
    maps: &Maps,
    out: &mut Vec<u8>,
) -> Result<(), AllocError>
    ensures ok { OnOk result (out.new.items ≡ out.old.items ++ flat_map (map_line (sign ∷ []) number name.now) maps.now) }
    ensures err { OnErr result (GrewByFront out.old.items out.new.items (flat_map (map_line (sign ∷ []) number name.now) maps.now)) }
{
    if maps.len() == 0 {
        return Ok(());
    }
    let from = out.as_slice().len();
    start_line(sign, number, out)?;
    write_word(name, out)?;
    end_map_lines(from, maps, out)
}
