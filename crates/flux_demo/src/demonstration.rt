//! `demonstrate`: a watch over the files of a number.
ghost use Rattle.std.specs.Prelude.{◌≡◌, ◌≤◌, ◌+◌, ◌^◌, false, length, IfOk, OnOk, IfErr};
ghost use Rattle.flux_model.specs.Demo.{demo_text};
ghost use Rattle.flux_model.specs.Graph.{Graph, empty_graph};
ghost use Rattle.flux_model.specs.Limits.{standard};
ghost use Rattle.flux_model.specs.Lines.{lines};
ghost use Rattle.flux_model.specs.Pattern.{PatternGraph};
ghost use Rattle.watch_core.specs.Session.{said_by};
ghost use Rattle.flux_demo.specs.Files.{IsGraphFile, IsPatternFile, IsNoVerdict};
ghost use Rattle.flux_demo.specs.Summary.{IsTallyOf};
ghost use Rattle.std.specs.Prelude.{List};

use crate::summary::write_summary;
use crate::tally::Tally;
use file_reading::{Stop, read_patterns, read_store};
use flux_gen::{Sizes, make};
use flux_model::{Ledger, Limits, Patterns, Steps};
use flux_outside::MemShelf;
use graph_traits::{HoldGraph, KeepGraph, ReadGraph};
use std::alloc::{AllocError, Global};
use stream_lines::Lines;
use watch_core::Session;

/// The summary of a watch over the files of this number, kept in this store, which has to be empty and under the standard limits.
///
/// `AllocError` where no memory is left.
pub fn demonstrate<G: KeepGraph + ReadGraph<L>, L: Ledger>(
    alloc: Global,
    number: u64,
    empty: G,
    steps: &mut Steps<L>,
) -> Result<Vec<u8>, AllocError>
    requires limits { G.limits empty ≡ standard }
    requires empty { G.graph empty ≡ empty_graph }
    ensures text { IfOk result (λ text. text.items ≡ demo_text number) }
{
    let made = make(alloc, number, &Sizes::standard())?;
    // Both files are accepted, and no read of a shelf in memory is made to fail: only want of memory stops the reading.
    let Ok(graph) = load_graph(alloc, made.graph(), empty) else {
        return Err(AllocError);
    };
    let Ok(patterns) = load_patterns(alloc, made.patterns()) else {
        return Err(AllocError);
    };
    let vertices = graph.vertex_count();
    let triples = graph.edge_count();
    let mut session = Session::start(alloc, graph, patterns, steps)?;
    let tally = take_updates(alloc, &mut session, made.updates(), steps)?;
    let patterns = session.registry().patterns();
    write_summary(alloc, number, vertices, triples, patterns, &tally)
}

/// The store, which was empty, with the graph of a graph file of these bytes. An accepted file stops at want of memory, or where
/// the shelf fails.
fn load_graph<G: KeepGraph>(alloc: Global, file: &[u8], empty: G) -> Result<G, Stop>
    requires size { length file.now ≤ standard.input_bytes }
    requires limits { G.limits empty ≡ standard }
    requires empty { G.graph empty ≡ empty_graph }
    ensures ok { (g : Graph) → IsGraphFile file.now g → IfOk result (λ graph. G.graph graph ≡ g) }
    ensures limits { IfOk result (λ graph. G.limits graph ≡ standard) }
    ensures stop { (g : Graph) → IsGraphFile file.now g → IfErr result IsNoVerdict }
{
    let mut shelf = MemShelf::new(alloc);
    let Ok(()) = shelf.add("graph", file) else {
        return Err(Stop::Memory);
    };
    read_store(alloc, &Limits::standard(), &mut shelf, "graph", empty)
}

/// The patterns of a pattern file of these bytes. An accepted file stops at want of memory, or where the shelf fails.
fn load_patterns(alloc: Global, file: &[u8]) -> Result<Patterns, Stop>
    requires size { length file.now ≤ standard.input_bytes }
    ensures ok { (qs : List PatternGraph) → IsPatternFile file.now qs → IfOk result (λ patterns. patterns ≡ qs) }
    ensures stop { (qs : List PatternGraph) → IsPatternFile file.now qs → IfErr result IsNoVerdict }
{
    let mut shelf = MemShelf::new(alloc);
    let Ok(()) = shelf.add("patterns", file) else {
        return Err(Stop::Memory);
    };
    read_patterns(alloc, &Limits::standard(), &mut shelf, "patterns")
}

/// Takes every line of the updates, and counts what they come to.
fn take_updates<G: KeepGraph + ReadGraph<L>, L: Ledger>(
    alloc: Global,
    session: &mut Session<G>,
    updates: &[u8],
    steps: &mut Steps<L>,
) -> Result<Tally, AllocError>
    requires whole { session.old.is_broken ≡ false }
    requires limits { session.old.limits ≡ standard }
    requires few { session.old.lines + length (lines standard.line_bytes updates.now) ≤ 2 ^ 60 }
    ensures tally { let s = session.old in let saids = said_by (lines standard.line_bytes updates.now) in
        IfOk result (λ tally. IsTallyOf s.limits s.registry.patterns s.graph saids tally) }
    ensures patterns { OnOk result (session.new.registry.patterns ≡ session.old.registry.patterns) }
{
    let mut lines = Lines::new(alloc, Limits::standard().line_bytes);
    lines.push(updates)?;
    let mut tally = Tally::new(alloc, session.registry().patterns().count())?;
    while let Some(line) = lines.first() {
        let taken = session.take(&line, steps)?;
        tally.take(&taken);
        lines.pass();
    }
    let Some(line) = lines.last() else {
        return Ok(tally);
    };
    let taken = session.take(&line, steps)?;
    tally.take(&taken);
    Ok(tally)
}
