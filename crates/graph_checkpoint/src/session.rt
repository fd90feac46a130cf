//! The session of a watch without patterns.
ghost use Rattle.std.specs.Prelude.{◌≡◌, ◌≢◌, ◌⊎◌, [], ◌∷◌, codes, string_bytes, Some, IfOk, IfErr, OnOk};
ghost use Rattle.std.specs.Io.KnownBytes.{IsAtEnd};
ghost use Rattle.flux_outside.specs.Causes.{Rose};
ghost use Rattle.flux_model.specs.GraphText.{graph_text};
ghost use Rattle.flux_model.specs.Limits.{IsFair};
ghost use Rattle.flux_model.specs.Verdict.{Done};
ghost use Rattle.watch_cli.specs.CommandWords.{texts};
ghost use Rattle.watch_cli.specs.EarlyEnds.{IsEarly};
ghost use Rattle.watch_cli.specs.RunEnds.{StatusWhere};
ghost use Rattle.graph_checkpoint.specs.Checkpoint.{OfDue};

use crate::no_report::NoReport;
use crate::one_file::OneFile;
use block_graph::BlockGraph;
use flux_model::{Ledger, Limits, Steps};
use flux_outside::{Shelf, Source};
use std::alloc::{AllocError, Global};
use watch_cli::{Kept, Status, run};
use watch_core::Session;

/// The words `watch GRAPH PATTERNS` of these names.
fn watch_words(alloc: Global, graph: &str, patterns: &str) -> Result<Vec<String>, AllocError>
    ensures { IfOk result (λ words. texts words.items ≡ codes "watch" ∷ graph.now ∷ patterns.now ∷ []) }
{
    let mut words = Vec::with_capacity(alloc, 3)?;
    words.push(String::from_str(alloc, "watch")?)?;
    words.push(String::from_str(alloc, graph)?)?;
    words.push(String::from_str(alloc, patterns)?)?;
    Ok(words)
}

/// The session of a watch over the graph file of this name and the empty file of the shelf, after all lines of the updates.
///
/// The report is dropped. The name has to be another one than the empty file's.
pub fn session_after<F: Shelf + Drop, S: Source, L: Ledger>(
    alloc: Global,
    limits: &Limits,
    graph: &str,
    shelf: &mut OneFile<F>,
    updates: &mut S,
    steps: &mut Steps<L>,
) -> Result<Session<BlockGraph>, Status>
    requires fair { IsFair limits.now }
    requires other { graph.now ≢ string_bytes shelf.old.name }
    ensures session { IfOk result (λ session. OfDue limits.now (F.files shelf.old.shelf) (S.left updates.old) (Some graph.now)
        (λ due. due ≡ record { verdict = Done; text = graph_text session.graph })) }
    ensures status { IfErr result (StatusWhere (λ v. OfDue limits.now (F.files shelf.old.shelf) (S.left updates.old) (Some graph.now)
        (λ due. due ≡ record { verdict = v; text = [] }))
        (Rose (F.faults shelf.old.shelf) (F.faults shelf.new.shelf) ⊎ Rose (S.faults updates.old) (S.faults updates.new)) ⊥) }
    ensures early { IfErr result IsEarly }
    ensures end { OnOk result (IsAtEnd (S.left updates.new)) }
{
    let Ok(words) = watch_words(alloc, graph, shelf.name()) else {
        return Err(Status::Memory);
    };
    let mut report = NoReport::new();
    let mut told = NoReport::new();
    let ended = run(
        alloc,
        &words,
        limits,
        shelf,
        updates,
        &mut report,
        &mut told,
        steps,
    );
    match ended.kept {
        Kept::Watch(session) => Ok(session),
        Kept::Nothing => Err(ended.status),
    }
}
