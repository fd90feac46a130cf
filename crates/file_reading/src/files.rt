//! Files, read piece by piece and line by line.
ghost use Rattle.std.specs.Prelude.{◌≡◌, ◌≤◌, ◌<◌, ◌+◌, ◌^◌, [], false, List, ℕ, length, take, Ok, Err, OnOk, IfErr, IfOk};
ghost use Rattle.flux_model.specs.Lines.{InputLine, whole};
ghost use Rattle.flux_model.specs.LentLine.{seen_line};
ghost use Rattle.flux_model.specs.Limits.{IsFair};
ghost use Rattle.flux_model.specs.FileReading.{read_from};
ghost use Rattle.flux_model.specs.Verdict.{Verdict};
ghost use Rattle.flux_model.specs.declared.code.Bad.{Bad};
ghost use Rattle.flux_outside.specs.Causes.{Rose};
ghost use Rattle.flux_outside.specs.Reads.{AskedOfInput, FileReads};
ghost use Rattle.file_reading.specs.AskedOfFile.{WentOn, StopsAtFault, NoLineRefused};
ghost use Rattle.file_reading.specs.FileContents.{FileIs};
ghost use Rattle.file_reading.specs.ReadingStops.{read_as, LinesStop, StopWhere};

use crate::piece::{ask_for, make_buffer};
use crate::stop::Stop;
use crate::take::TakeLine;
use flux_model::{Limits, Line};
use flux_outside::Shelf;
use std::alloc::Global;
use stream_lines::Lines;

/// Takes one line.
fn take_line<T: TakeLine>(
    alloc: Global,
    number: u64,
    line: &Line<'_>,
    file: &mut T,
) -> Result<(), Stop>
    requires { T.is_spent file.old ≡ false }
    ensures ok { OnOk result (T.after_line number file.old (seen_line line.now) ≡ Ok file.new) }
    ensures ready { OnOk result (T.is_spent file.new ≡ false) }
    ensures stop { IfErr result (LinesStop (T.after_line number file.old (seen_line line.now))) }
{
    match file.accept(alloc, number, line) {
        Ok(Ok(())) => Ok(()),
        Ok(Err(bad)) => Err(Stop::Bad(bad)),
        Err(_) => Err(Stop::Memory),
    }
}

/// Takes every line that waits, after so many lines, and answers how many lines there were then.
fn take_waiting<T: TakeLine>(
    alloc: Global,
    before: u64,
    lines: &mut Lines,
    file: &mut T,
) -> Result<u64, Stop>
    requires ready { T.is_spent file.old ≡ false }
    requires fits { before + length lines.old.queue < 2 ^ 64 }
    ensures ok { OnOk result (read_from T.after_line (before + 1) file.old lines.old.queue ≡ Ok file.new) }
    ensures ready { OnOk result (T.is_spent file.new ≡ false) }
    ensures number { IfOk result (λ number. number ≡ before + length lines.old.queue) }
    ensures waiting { OnOk result (lines.new ≡ record lines.old { queue = [] }) }
    ensures stop { IfErr result (LinesStop (read_from T.after_line (before + 1) file.old lines.old.queue)) }
{
    let mut number = before;
    while let Some(line) = lines.first() {
        number += 1;
        take_line(alloc, number, &line, file)?;
        lines.pass();
    }
    Ok(number)
}

/// Takes every line of the file of this name. The contract speaks of any name, `bad`, that the refusal of a line may have.
pub fn read_file<F: Shelf, T: TakeLine>(
    alloc: Global,
    limits: &Limits,
    shelf: &mut F,
    name: &str,
    file: &mut T,
) -> Result<(), Stop>
    requires fair { IsFair limits.now }
    requires ready { T.is_spent file.old ≡ false }
    ensures ok { OnOk result ((bad : Bad → Verdict) →
        FileIs (F.files shelf.old) name.now (read_as T.after_line limits.now file.old bad) (Ok file.new)) }
    ensures taken { OnOk result ((lines : List InputLine) × (read_from T.after_line 1 file.old lines ≡ Ok file.new)) }
    ensures ready { OnOk result (T.is_spent file.new ≡ false) }
    ensures same { F.files shelf.new ≡ F.files shelf.old }
    ensures later { F.faults shelf.old ≤ F.faults shelf.new }
    ensures stop { IfErr result (λ stop. (bad : Bad → Verdict) → StopWhere
        (λ verdict. FileIs (F.files shelf.old) name.now (read_as T.after_line limits.now file.old bad) (Err verdict))
        bad (Rose (F.faults shelf.old) (F.faults shelf.new)) stop) }
    ensures asked { AskedOfInput limits.now.input_bytes (StopsAtFault result) (WentOn result)
        (NoLineRefused (F.files shelf.old) name.now (λ b. read_from T.after_line 1 file.old (whole limits.now.line_bytes b)))
        (FileReads name.now (F.reads shelf.old) (F.reads shelf.new)) }
{
    let mut lines = Lines::new(alloc, limits.line_bytes);
    let Ok(mut buffer) = make_buffer(alloc) else {
        return Err(Stop::Memory);
    };
    let mut given = 0;
    let mut number = 0;
    loop {
        let room = limits.input_bytes - given;
        let window = &mut buffer[..ask_for(room)];
        let count = match shelf.read(name, given, window) {
            Ok(Some(count)) => count,
            Ok(None) => return Err(Stop::NoFile),
            Err(_) => return Err(Stop::Read),
        };
        if count == 0 {
            break;
        }
        if count as u64 > room {
            return Err(Stop::TooMuch);
        }
        given += count as u64;
        let Ok(()) = lines.push(&window[..count]) else {
            return Err(Stop::Memory);
        };
        number = take_waiting(alloc, number, &mut lines, file)?;
    }
    match lines.last() {
        None => Ok(()),
        Some(line) => take_line(alloc, number + 1, &line, file),
    }
}
