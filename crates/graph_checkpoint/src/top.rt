//! The one call that the program makes.
ghost use Rattle.std.specs.Prelude.{◌≡◌, ◌≢◌, ◌⊎◌, ◌↔◌, [], string_bytes, None, Some, OnOk, IfErr, IfOk, IfSome, MatchOption};
ghost use Rattle.std.specs.Io.KnownBytes.{Appends, IsAtEnd};
ghost use Rattle.flux_outside.specs.Causes.{Rose};
ghost use Rattle.flux_outside.specs.Reads.{NoEmptyPut};
ghost use Rattle.flux_outside.specs.Told.{AppendsFront};
ghost use Rattle.flux_model.specs.Limits.{IsFair};
ghost use Rattle.flux_model.specs.Verdict.{Done};
ghost use Rattle.watch_cli.specs.CommandWords.{texts};
ghost use Rattle.watch_cli.specs.EarlyEnds.{IsEarly};
ghost use Rattle.watch_cli.specs.RunEnds.{StatusWhere, verdict_of};
ghost use Rattle.watch_cli.specs.Status.{status_text};
ghost use Rattle.graph_checkpoint.specs.Checkpoint.{graph_name, OfDue};

use crate::one_file::OneFile;
use crate::session::session_after;
use flux_model::{Ledger, Limits, Steps};
use flux_outside::{Shelf, Sink, Source};
use snapshot_text::write_graph;
use std::alloc::{AllocError, Global};
use watch_cli::{Status, tell};

/// How a checkpoint ended, and the shelf that was read.
#[derive(Drop)]
pub struct Ended<F: Shelf + Drop> {
    pub status: Status,
    pub shelf: F,
}

/// The one word, if there is one and no more.
fn one_word(words: &[String]) -> Option<&str>
    ensures { MatchOption result (graph_name (texts words.now) ≡ None) (λ word. graph_name (texts words.now) ≡ Some word.now) }
{
    match words {
        [word] => Some(word.as_str()),
        _ => None,
    }
}

/// A name that is not this one.
fn other_name(alloc: Global, name: &str) -> Result<String, AllocError>
    ensures { IfOk result (λ other. name.now ≢ string_bytes other) }
{
    let mut other = String::from_str(alloc, name)?;
    other.push_str("+")?;
    Ok(other)
}

/// Puts a text in one piece, and nothing where it is empty.
fn put_text<W: Sink>(text: &[u8], out: &mut W) -> Result<(), Status>
    ensures ok { OnOk result (Appends (W.taken out.old) (W.taken out.new) text.now) }
    ensures front { AppendsFront (W.taken out.old) (W.taken out.new) text.now }
    ensures status { IfErr result (λ status. (status ≡ Status.WriteFault) × Rose (W.faults out.old) (W.faults out.new)) }
    ensures puts { NoEmptyPut (W.puts out.old) (W.puts out.new) }
{
    if text.is_empty() {
        return Ok(());
    }
    match out.put(text) {
        Ok(()) => Ok(()),
        Err(_) => Err(Status::WriteFault),
    }
}

/// Puts the text of the graph after the updates, which is made whole before.
fn write_after<F: Shelf + Drop, S: Source, W: Sink, L: Ledger>(
    alloc: Global,
    limits: &Limits,
    graph: &str,
    shelf: &mut OneFile<F>,
    updates: &mut S,
    out: &mut W,
    steps: &mut Steps<L>,
) -> Result<(), Status>
    requires fair { IsFair limits.now }
    requires other { graph.now ≢ string_bytes shelf.old.name }
    ensures ok { OnOk result (OfDue limits.now (F.files shelf.old.shelf) (S.left updates.old) (Some graph.now)
        (λ due. (due.verdict ≡ Done) × Appends (W.taken out.old) (W.taken out.new) due.text)) }
    ensures status { IfErr result (StatusWhere (λ v. OfDue limits.now (F.files shelf.old.shelf) (S.left updates.old) (Some graph.now)
        (λ due. (due.verdict ≡ v) × Appends (W.taken out.old) (W.taken out.new) due.text))
        (Rose (F.faults shelf.old.shelf) (F.faults shelf.new.shelf) ⊎ Rose (S.faults updates.old) (S.faults updates.new))
        (Rose (W.faults out.old) (W.faults out.new))) }
    ensures front { OfDue limits.now (F.files shelf.old.shelf) (S.left updates.old) (Some graph.now)
        (λ due. AppendsFront (W.taken out.old) (W.taken out.new) due.text) }
    ensures unwritten { IfErr result (λ status. ¬ (status ≡ Status.WriteFault) → Appends (W.taken out.old) (W.taken out.new) []) }
    ensures early { IfErr result IsEarly }
    ensures end { OnOk result (IsAtEnd (S.left updates.new)) }
    ensures puts { NoEmptyPut (W.puts out.old) (W.puts out.new) }
{
    let session = session_after(alloc, limits, graph, shelf, updates, steps)?;
    let mut text = Vec::new(alloc);
    let Ok(()) = write_graph(alloc, session.graph(), &mut text, steps) else {
        return Err(Status::Memory);
    };
    put_text(text.as_slice(), out)
}

// How it ends. Nothing is told of it yet.
fn judge<F: Shelf + Drop, S: Source, W: Sink, L: Ledger>(
    alloc: Global,
    words: &[String],
    limits: &Limits,
    shelf: F,
    updates: &mut S,
    out: &mut W,
    steps: &mut Steps<L>,
) -> Ended<F>
    requires { IsFair limits.now }
    ensures usage { (result.status ≡ Status.Usage) ↔ (graph_name (texts words.now) ≡ None) }
    ensures status { StatusWhere (λ v. OfDue limits.now (F.files shelf) (S.left updates.old) (graph_name (texts words.now))
        (λ due. (due.verdict ≡ v) × Appends (W.taken out.old) (W.taken out.new) due.text))
        (Rose (F.faults shelf) (F.faults result.shelf) ⊎ Rose (S.faults updates.old) (S.faults updates.new))
        (Rose (W.faults out.old) (W.faults out.new)) result.status }
    ensures front { OfDue limits.now (F.files shelf) (S.left updates.old) (graph_name (texts words.now))
        (λ due. AppendsFront (W.taken out.old) (W.taken out.new) due.text) }
    ensures unwritten { ¬ (result.status ≡ Status.Done) → ¬ (result.status ≡ Status.WriteFault)
        → Appends (W.taken out.old) (W.taken out.new) [] }
    ensures end { result.status ≡ Status.Done → IsAtEnd (S.left updates.new) }
    ensures puts { NoEmptyPut (W.puts out.old) (W.puts out.new) }
{
    let Some(graph) = one_word(words) else {
        return Ended {
            status: Status::Usage,
            shelf,
        };
    };
    let Ok(name) = other_name(alloc, graph) else {
        return Ended {
            status: Status::Memory,
            shelf,
        };
    };
    let mut shelf = OneFile::new(shelf, name);
    match write_after(alloc, limits, graph, &mut shelf, updates, out, steps) {
        Ok(()) => Ended {
            status: Status::Done,
            shelf: shelf.into_shelf(),
        },
        Err(status) => Ended {
            status,
            shelf: shelf.into_shelf(),
        },
    }
}

/// Writes the graph as it stands after the updates, in the form of `save`, to `out`, in one piece. The status says how it ended, and
/// `err` gets the line that tells it.
///
/// The one word names the graph file. The updates are taken as `watch` takes them, with no pattern: a line that is refused changes
/// nothing, and nothing is written of it. Only where all was read is a text written, so what stands in `out` at another status than
/// Done is no graph: nothing, or a front part of one where writing failed. The statuses are those of `watch`.
pub fn checkpoint<F: Shelf + Drop, S: Source, W: Sink, E: Sink, L: Ledger>(
    alloc: Global,
    words: &[String],
    limits: &Limits,
    shelf: F,
    updates: &mut S,
    out: &mut W,
    err: &mut E,
    steps: &mut Steps<L>,
) -> Ended<F>
    requires { IsFair limits.now }
    ensures usage { (result.status ≡ Status.Usage) ↔ (graph_name (texts words.now) ≡ None) }
    ensures verdict { IfSome (verdict_of result.status) (λ v.
        OfDue limits.now (F.files shelf) (S.left updates.old) (graph_name (texts words.now))
        (λ due. (due.verdict ≡ v) × Appends (W.taken out.old) (W.taken out.new) due.text)) }
    ensures complete { OfDue limits.now (F.files shelf) (S.left updates.old) (graph_name (texts words.now)) (λ due.
        ¬ (Rose (F.faults shelf) (F.faults result.shelf) ⊎ Rose (S.faults updates.old) (S.faults updates.new))
        → ¬ Rose (W.faults out.old) (W.faults out.new)
        → (verdict_of result.status ≡ Some due.verdict) ⊎ (result.status ≡ Status.Memory)) }
    ensures front { OfDue limits.now (F.files shelf) (S.left updates.old) (graph_name (texts words.now))
        (λ due. AppendsFront (W.taken out.old) (W.taken out.new) due.text) }
    ensures unwritten { ¬ (result.status ≡ Status.Done) → ¬ (result.status ≡ Status.WriteFault)
        → Appends (W.taken out.old) (W.taken out.new) [] }
    ensures read_fault { result.status ≡ Status.ReadFault
        → Rose (F.faults shelf) (F.faults result.shelf) ⊎ Rose (S.faults updates.old) (S.faults updates.new) }
    ensures write_fault { result.status ≡ Status.WriteFault → Rose (W.faults out.old) (W.faults out.new) }
    ensures end { result.status ≡ Status.Done → IsAtEnd (S.left updates.new) }
    ensures told { Appends (E.taken err.old) (E.taken err.new) (status_text result.status)
        ⊎ (Rose (E.faults err.old) (E.faults err.new) × AppendsFront (E.taken err.old) (E.taken err.new) (status_text result.status)) }
    ensures puts { NoEmptyPut (W.puts out.old) (W.puts out.new) × NoEmptyPut (E.puts err.old) (E.puts err.new) }
{
    let ended = judge(alloc, words, limits, shelf, updates, out, steps);
    tell(ended.status, err);
    ended
}
