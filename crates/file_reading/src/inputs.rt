//! The readers of a graph file and of a pattern file.
ghost use Rattle.std.specs.Prelude.{◌≡◌, ◌≤◌, Ok, Err, IfOk, IfErr};
ghost use Rattle.flux_outside.specs.Causes.{Rose};
ghost use Rattle.flux_outside.specs.Reads.{AskedOfInput, FileReads};
ghost use Rattle.flux_model.specs.Graph.{empty_graph};
ghost use Rattle.flux_model.specs.Limits.{IsFair};
ghost use Rattle.flux_model.specs.Verdict.{BadGraph, BadPatterns, graph_file, pattern_file};
ghost use Rattle.file_reading.specs.AskedOfFile.{WentOn, StopsAtFault, NoLineRefused, graph_front, pattern_front};
ghost use Rattle.file_reading.specs.FileContents.{FileIs};
ghost use Rattle.file_reading.specs.ReadingStops.{StopWhere};

use crate::files::read_file;
use crate::stop::Stop;
use crate::store_file::StoreReader;
use flux_model::{Limits, Patterns};
use flux_outside::Shelf;
use graph_traits::KeepGraph;
use pattern_check::PatternReader;
use std::alloc::Global;

/// The store, which was empty, with the graph of the file of this name.
pub fn read_store<F: Shelf, G: KeepGraph>(
    alloc: Global,
    limits: &Limits,
    shelf: &mut F,
    name: &str,
    empty: G,
) -> Result<G, Stop>
    requires fair { IsFair limits.now }
    requires limits { G.limits empty ≡ limits.now }
    requires empty { G.graph empty ≡ empty_graph }
    ensures ok { IfOk result (λ graph. FileIs (F.files shelf.old) name.now (graph_file limits.now) (Ok (G.graph graph))) }
    ensures limits { IfOk result (λ graph. G.limits graph ≡ limits.now) }
    ensures same { F.files shelf.new ≡ F.files shelf.old }
    ensures later { F.faults shelf.old ≤ F.faults shelf.new }
    ensures stop { IfErr result (StopWhere
        (λ verdict. FileIs (F.files shelf.old) name.now (graph_file limits.now) (Err verdict))
        BadGraph (Rose (F.faults shelf.old) (F.faults shelf.new))) }
    ensures asked { AskedOfInput limits.now.input_bytes (StopsAtFault result) (WentOn result)
        (NoLineRefused (F.files shelf.old) name.now (graph_front limits.now)) (FileReads name.now (F.reads shelf.old) (F.reads shelf.new)) }
{
    let mut reader = StoreReader { graph: empty };
    read_file(alloc, limits, shelf, name, &mut reader)?;
    Ok(reader.graph)
}

/// The patterns of the file of this name.
pub fn read_patterns<F: Shelf>(
    alloc: Global,
    limits: &Limits,
    shelf: &mut F,
    name: &str,
) -> Result<Patterns, Stop>
    requires { IsFair limits.now }
    ensures ok { IfOk result (λ patterns. FileIs (F.files shelf.old) name.now (pattern_file limits.now) (Ok patterns)) }
    ensures same { F.files shelf.new ≡ F.files shelf.old }
    ensures later { F.faults shelf.old ≤ F.faults shelf.new }
    ensures stop { IfErr result (StopWhere
        (λ verdict. FileIs (F.files shelf.old) name.now (pattern_file limits.now) (Err verdict))
        BadPatterns (Rose (F.faults shelf.old) (F.faults shelf.new))) }
    ensures asked { AskedOfInput limits.now.input_bytes (StopsAtFault result) (WentOn result)
        (NoLineRefused (F.files shelf.old) name.now (pattern_front limits.now))
        (FileReads name.now (F.reads shelf.old) (F.reads shelf.new)) }
{
    let mut reader = PatternReader::new(alloc, limits);
    read_file(alloc, limits, shelf, name, &mut reader)?;
    match reader.finish() {
        Ok(Ok(patterns)) => Ok(patterns),
        Ok(Err(bad)) => Err(Stop::Bad(bad)),
        Err(_) => Err(Stop::Memory),
    }
}
