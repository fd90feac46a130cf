//! The one call that the program makes.
ghost use Rattle.std.specs.Prelude.{◌≡◌, ◌⊎◌, ◌↔◌, [], None, Some, IsOk, IsErr, ⊤, IfOk, OnOk, IfErr, IfSome, MatchOption};
ghost use Rattle.std.specs.Io.KnownBytes.{Appends, IsAtEnd};
ghost use Rattle.flux_outside.specs.Causes.{Rose};
ghost use Rattle.flux_outside.specs.Reads.{NoEmptyPut};
ghost use Rattle.flux_outside.specs.Told.{AppendsFront};
ghost use Rattle.flux_model.specs.Limits.{IsFair};
ghost use Rattle.flux_model.specs.Verdict.{shape_of, verdict, due, Done};
ghost use Rattle.watch_cli.specs.CommandWords.{seen_shape, texts, ReadsUpdates};
ghost use Rattle.watch_cli.specs.Status.{status_text};
ghost use Rattle.watch_cli.specs.AskedByRun.{IsReadStatus, IsFileStatus, EndsAtReadFault, EndsAtFile, AskedByRun};
ghost use Rattle.watch_cli.specs.RunEnds.{KnownOrSome, verdict_of, inputs, written_of, OneRose, EndsAtFault};
ghost use Rattle.watch_cli.specs.RunEnds.{RunEndsAs, RunEndsBefore, ReadFails, StatusWhere};
ghost use Rattle.watch_cli.specs.EarlyEnds.{IsEarly};
ghost use Rattle.watch_cli.specs.Kept.{HasKept};
ghost use Rattle.watch_cli.specs.RunCosts.{RunStaysWithin};

use crate::answers::list_answers;
use crate::demo::show_demo;
use crate::save::save_graph;
use crate::status::Status;
use crate::watch::watch_updates;
use crate::words::{Shape, parse_shape};
use block_graph::BlockGraph;
use flux_model::{Ledger, Limits, Steps};
use flux_outside::{Shelf, Sink, Source};
use std::alloc::Global;
use watch_core::Session;

/// What a run hands back besides its status.
#[derive(Drop)]
pub enum Kept {
    /// Nothing is handed back.
    Nothing,
    /// The session of a watch, which stands after all lines of the updates.
    Watch(Session<BlockGraph>),
}

/// How a run ended, and what it hands back.
#[derive(Drop)]
pub struct Ended {
    pub status: Status,
    pub kept: Kept,
}

/// Does what the words of this shape ask for, and hands back what it keeps.
fn work<F: Shelf, S: Source, W: Sink, L: Ledger>(
    alloc: Global,
    limits: &Limits,
    shape: Shape<'_>,
    shelf: &mut F,
    updates: &mut S,
    out: &mut W,
    steps: &mut Steps<L>,
) -> Result<Kept, Status>
    requires { IsFair limits.now }
    ensures end { OnOk result (ReadsUpdates (seen_shape shape.entry) → IsAtEnd (S.left updates.new)) }
    ensures unread { ¬ ReadsUpdates (seen_shape shape.entry) → updates.new ≡ updates.old }
    ensures kept { IfOk result (λ kept. HasKept limits.now (F.files shelf.old) (Some (seen_shape shape.entry))
        (S.left updates.old) Status.Done kept) }
    ensures steps { OnOk result (RunStaysWithin limits.now (F.files shelf.old) (Some (seen_shape shape.entry))
        (S.left updates.old) steps.old steps.new) }
    ensures ok { OnOk result (RunEndsAs limits.now (F.files shelf.old) (Some (seen_shape shape.entry))
        (S.left updates.old) (W.taken out.old) (W.taken out.new) Done) }
    ensures front { RunEndsBefore limits.now (F.files shelf.old) (Some (seen_shape shape.entry))
        (S.left updates.old) (W.taken out.old) (W.taken out.new) }
    ensures status { IfErr result (StatusWhere
        (RunEndsAs limits.now (F.files shelf.old) (Some (seen_shape shape.entry)) (S.left updates.old) (W.taken out.old) (W.taken out.new))
        (ReadFails limits.now (F.files shelf.old) (Some (seen_shape shape.entry))
        (F.faults shelf.old) (F.faults shelf.new) (S.faults updates.old) (S.faults updates.new)
        (S.left updates.old) (S.left updates.new) (W.taken out.old) (W.taken out.new))
        (Rose (W.faults out.old) (W.faults out.new))) }
    ensures early { IfErr result IsEarly }
    ensures asked { AskedByRun limits.now (F.files shelf.old) (seen_shape shape.entry) (EndsAtReadFault result)
        (F.reads shelf.old) (F.reads shelf.new) (S.reads updates.old) (S.reads updates.new) }
    ensures untouched { (updates.new ≡ updates.old) ⊎ (¬ EndsAtFile result
        × IfSome (F.files shelf.old) (λ m. IsOk (inputs limits.now m (Some (seen_shape shape.entry))))) }
    ensures puts { NoEmptyPut (W.puts out.old) (W.puts out.new) }
{
    match shape {
        Shape::Watch { graph, patterns } => {
            let empty = BlockGraph::with_seed(alloc, limits, shelf.seed());
            let session = watch_updates(
                alloc, limits, graph, patterns, empty, shelf, updates, out, steps,
            )?;
            Ok(Kept::Watch(session))
        }
        Shape::Match { graph, patterns } => {
            let empty = BlockGraph::with_seed(alloc, limits, shelf.seed());
            list_answers(alloc, limits, graph, patterns, empty, shelf, out, steps)?;
            Ok(Kept::Nothing)
        }
        Shape::Save { graph } => {
            let empty = BlockGraph::with_seed(alloc, limits, shelf.seed());
            save_graph(alloc, limits, graph, empty, shelf, out, steps)?;
            Ok(Kept::Nothing)
        }
        Shape::Demo { number } => {
            let empty = BlockGraph::with_seed(alloc, &Limits::standard(), shelf.seed());
            show_demo(alloc, number, empty, out, steps)?;
            Ok(Kept::Nothing)
        }
    }
}

// How it ends. It is a function of its own, so that no fact is lost where the cases join.
fn judge<F: Shelf, S: Source, W: Sink, L: Ledger>(
    alloc: Global,
    words: &[String],
    limits: &Limits,
    shelf: &mut F,
    updates: &mut S,
    out: &mut W,
    steps: &mut Steps<L>,
) -> Ended
    requires { IsFair limits.now }
    ensures usage { (result.status ≡ Status.Usage) ↔ (shape_of (texts words.now) ≡ None) }
    ensures unasked { MatchOption (shape_of (texts words.now)) (Appends (W.taken out.old) (W.taken out.new) []) (λ _. ⊤) }
    ensures end { result.status ≡ Status.Done
        → IfSome (shape_of (texts words.now)) (λ shape. ReadsUpdates shape → IsAtEnd (S.left updates.new)) }
    ensures unread { MatchOption (shape_of (texts words.now)) (updates.new ≡ updates.old)
        (λ shape. ¬ ReadsUpdates shape → updates.new ≡ updates.old) }
    ensures front { RunEndsBefore limits.now (F.files shelf.old) (shape_of (texts words.now))
        (S.left updates.old) (W.taken out.old) (W.taken out.new) }
    ensures status { StatusWhere
        (RunEndsAs limits.now (F.files shelf.old) (shape_of (texts words.now)) (S.left updates.old) (W.taken out.old) (W.taken out.new))
        (ReadFails limits.now (F.files shelf.old) (shape_of (texts words.now))
        (F.faults shelf.old) (F.faults shelf.new) (S.faults updates.old) (S.faults updates.new)
        (S.left updates.old) (S.left updates.new) (W.taken out.old) (W.taken out.new))
        (Rose (W.faults out.old) (W.faults out.new)) result.status }
    ensures kept { HasKept limits.now (F.files shelf.old) (shape_of (texts words.now)) (S.left updates.old) result.status result.kept }
    ensures steps { result.status ≡ Status.Done
        → RunStaysWithin limits.now (F.files shelf.old) (shape_of (texts words.now)) (S.left updates.old) steps.old steps.new }
    ensures asked { MatchOption (shape_of (texts words.now)) (F.reads shelf.new ≡ F.reads shelf.old)
        (λ shape. AskedByRun limits.now (F.files shelf.old) shape (IsReadStatus result.status)
        (F.reads shelf.old) (F.reads shelf.new) (S.reads updates.old) (S.reads updates.new)) }
    ensures untouched { (updates.new ≡ updates.old) ⊎ (¬ IsFileStatus result.status
        × IfSome (F.files shelf.old) (λ m. IsOk (inputs limits.now m (shape_of (texts words.now))))) }
    ensures puts { NoEmptyPut (W.puts out.old) (W.puts out.new) }
{
    let Some(shape) = parse_shape(words) else {
        return Ended {
            status: Status::Usage,
            kept: Kept::Nothing,
        };
    };
    match work(alloc, limits, shape, shelf, updates, out, steps) {
        Ok(kept) => Ended {
            status: Status::Done,
            kept,
        },
        Err(status) => Ended {
            status,
            kept: Kept::Nothing,
        },
    }
}

/// Tells the status by its line, if it has one. Where that cannot be written, nothing more is said of it.
pub fn tell<E: Sink>(status: Status, err: &mut E)
    ensures told { Appends (E.taken err.old) (E.taken err.new) (status_text status)
        ⊎ (Rose (E.faults err.old) (E.faults err.new) × AppendsFront (E.taken err.old) (E.taken err.new) (status_text status)) }
    ensures puts { NoEmptyPut (E.puts err.old) (E.puts err.new) }
{
    let text = status.text();
    let bytes = text.as_bytes();
    if !bytes.is_empty() {
        let _ = err.put(bytes);
    }
}

/// Does what the words ask for. The status says how it ended, and `err` gets the line that tells it.
///
/// `watch GRAPH PATTERNS` reads the two files, takes the updates line by line, and writes the block of each line and at last the end
/// line to `out`. Each input is read in pieces of at most 64 KiB. The blocks of all whole lines of a piece are put before the next read.
///
/// `match GRAPH PATTERNS` reads the two files, and writes all embeddings and how many these are to `out`, pattern by pattern and in
/// pieces of about 64 KiB.
///
/// `save GRAPH` reads the graph file, and writes the one text of its graph to `out`, in one piece. `match` and `save` take nothing of
/// the updates.
///
/// `demo NUMBER` makes the files of the number, watches them under the standard limits, and writes the summary to `out`, in one piece. Of
/// the shelf it takes the seed alone, and nothing of the updates.
pub fn run<F: Shelf, S: Source, W: Sink, E: Sink, L: Ledger>(
    alloc: Global,
    words: &[String],
    limits: &Limits,
    shelf: &mut F,
    updates: &mut S,
    out: &mut W,
    err: &mut E,
    steps: &mut Steps<L>,
) -> Ended
    requires { IsFair limits.now }
    ensures usage { (result.status ≡ Status.Usage) ↔ (shape_of (texts words.now) ≡ None) }
    ensures unasked { MatchOption (shape_of (texts words.now)) (Appends (W.taken out.old) (W.taken out.new) []) (λ _. ⊤) }
    ensures verdict { IfSome (verdict_of result.status) (λ v. IfSome (F.files shelf.old) (λ m. KnownOrSome (S.left updates.old) (λ s.
        (verdict limits.now m (texts words.now) s ≡ v)
        × Appends (W.taken out.old) (W.taken out.new) (due limits.now m (texts words.now) s)))) }
    ensures complete { IfSome (F.files shelf.old) (λ m. KnownOrSome (S.left updates.old) (λ s.
        ¬ OneRose (shape_of (texts words.now)) (F.faults shelf.old) (F.faults shelf.new) (S.faults updates.old) (S.faults updates.new)
        → ¬ Rose (W.faults out.old) (W.faults out.new)
        → (verdict_of result.status ≡ Some (verdict limits.now m (texts words.now) s)) ⊎ (result.status ≡ Status.Memory))) }
    ensures front { IfSome (F.files shelf.old) (λ m. KnownOrSome (S.left updates.old) (λ s.
        AppendsFront (W.taken out.old) (W.taken out.new) (due limits.now m (texts words.now) s))) }
    ensures read_fault { result.status ≡ Status.ReadFault
        → OneRose (shape_of (texts words.now)) (F.faults shelf.old) (F.faults shelf.new) (S.faults updates.old) (S.faults updates.new) }
    ensures read_accepted { result.status ≡ Status.ReadFault → ¬ Rose (F.faults shelf.old) (F.faults shelf.new)
        → IfSome (F.files shelf.old) (λ m. IsOk (inputs limits.now m (shape_of (texts words.now)))) }
    ensures read_text { result.status ≡ Status.ReadFault → IfSome (F.files shelf.old) (λ m.
        EndsAtFault (S.left updates.old) (S.left updates.new)
        (written_of limits.now (inputs limits.now m (shape_of (texts words.now)))) (W.taken out.old) (W.taken out.new)) }
    ensures write_fault { result.status ≡ Status.WriteFault → Rose (W.faults out.old) (W.faults out.new) }
    ensures end { result.status ≡ Status.Done
        → IfSome (shape_of (texts words.now)) (λ shape. ReadsUpdates shape → IsAtEnd (S.left updates.new)) }
    ensures unread { MatchOption (shape_of (texts words.now)) (updates.new ≡ updates.old)
        (λ shape. ¬ ReadsUpdates shape → updates.new ≡ updates.old) }
    ensures kept { HasKept limits.now (F.files shelf.old) (shape_of (texts words.now)) (S.left updates.old) result.status result.kept }
    ensures steps { result.status ≡ Status.Done
        → RunStaysWithin limits.now (F.files shelf.old) (shape_of (texts words.now)) (S.left updates.old) steps.old steps.new }
    ensures told { Appends (E.taken err.old) (E.taken err.new) (status_text result.status)
        ⊎ (Rose (E.faults err.old) (E.faults err.new) × AppendsFront (E.taken err.old) (E.taken err.new) (status_text result.status)) }
    ensures asked { MatchOption (shape_of (texts words.now)) (F.reads shelf.new ≡ F.reads shelf.old)
        (λ shape. AskedByRun limits.now (F.files shelf.old) shape (result.status ≡ Status.ReadFault)
        (F.reads shelf.old) (F.reads shelf.new) (S.reads updates.old) (S.reads updates.new)) }
    ensures untouched { IsFileStatus result.status → updates.new ≡ updates.old }
    ensures unaccepted { IfSome (F.files shelf.old) (λ m.
        IsErr (inputs limits.now m (shape_of (texts words.now))) → updates.new ≡ updates.old) }
    ensures puts { NoEmptyPut (W.puts out.old) (W.puts out.new) × NoEmptyPut (E.puts err.old) (E.puts err.new) }
{
    let ended = judge(alloc, words, limits, shelf, updates, out, steps);
    tell(ended.status, err);
    ended
}
