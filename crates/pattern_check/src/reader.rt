//! `PatternReader`: patterns from the parts of a pattern file.
ghost use Rattle.std.specs.Prelude.{◌≡◌, true, false, is_err, Ok, Err, IfOk, OnOk, OnErr, IfErr, None};
ghost use Rattle.std.specs.List.{list_any};
ghost use Rattle.std.specs.Str.{bytes_eq};
ghost use Rattle.flux_model.specs.Limits.{IsFair};

use crate::open::Open;
use crate::refusal::refused;
use flux_model::{
    Bad, Code, Labels, Limits, Mode, Pattern, PatternEdge, PatternPart, Patterns, Text,
};
use std::alloc::{AllocError, Global};
use std::marker::Model;

/// Makes patterns of what the lines of a pattern file say, one after another.
#[derive(Drop)]
pub struct PatternReader {
    limits: Limits,
    complete: Vec<Pattern>,
    last: Option<Open>,
    spent: bool,
}

impl Model for PatternReader {
    ghost use Rattle.flux_model.specs.Limits.{IsFair};
    ghost use Rattle.flux_model.specs.Pattern.{HaveDistinctNames};
    ghost use Rattle.pattern_check.specs.Reading.{PatternReading, all_patterns};

    ghost Value = { PatternReading };

    ghost view = { λ r. record { limits = r.limits; draft = record { complete = r.complete.items; last = r.last }; spent = r.spent } };

    ghost invariant = { λ r. IsFair r.limits × HaveDistinctNames (all_patterns r.complete.items r.last) };
}

impl PatternReader {
    ghost use Rattle.flux_model.specs.PatternFile.{empty_draft, take_part, close, change_last};
    ghost use Rattle.flux_model.specs.PatternFile.{begin_pattern, add_pattern_vertex, add_pattern_edge};

    /// A reader that has taken nothing yet.
    pub fn new(alloc: Global, limits: &Limits) -> PatternReader
        requires { IsFair limits.now }
        ensures { result ≡ record { limits = limits.now; draft = empty_draft; spent = false } }
    {
        PatternReader {
            limits: *limits,
            complete: Vec::new(alloc),
            last: None,
            spent: false,
        }
    }

    /// Whether the reading has ended early, as a part was refused or memory was wanting.
    pub fn is_spent(&self) -> bool
        ensures { result ≡ self.now.spent }
    {
        self.spent
    }

    /// Takes what the line of this number says, or says why it is refused. A name line closes the
    /// pattern before it, so its refusal may name the line that began that pattern. The reader is
    /// spent after a refusal, and after an `Err`.
    pub fn take(&mut self, line: u64, part: PatternPart) -> Result<Result<(), Bad>, AllocError>
        requires { self.old.spent ≡ false }
        ensures limits { self.new.limits ≡ self.old.limits }
        ensures taken { let step = take_part self.old.limits line self.old.draft part in
            IfOk result (λ answer. OnOk answer (step ≡ Ok self.new.draft)) }
        ensures refused { let step = take_part self.old.limits line self.old.draft part in
            IfOk result (λ answer. IfErr answer (λ bad. step ≡ Err bad)) }
        ensures spent { IfOk result (λ answer. self.new.spent ≡ is_err answer) }
        ensures err { OnErr result (self.new.spent ≡ true) }
    {
        let result = self.take_part(line, part);
        self.spent = !matches!(result, Ok(Ok(())));
        result
    }

    /// All patterns, or why the last one may not end as it stands: it has no vertex or is not
    /// connected. No pattern at all is accepted.
    pub fn finish(mut self) -> Result<Result<Patterns, Bad>, AllocError>
        requires { self.spent ≡ false }
        ensures { IfOk result (λ answer. answer ≡ close self.draft) }
    {
        match self.close()? {
            Ok(()) => Ok(Ok(Patterns::new(self.complete))),
            Err(bad) => Ok(Err(bad)),
        }
    }

    /// Takes a part, by its form.
    fn take_part(&mut self, line: u64, part: PatternPart) -> Result<Result<(), Bad>, AllocError>
        ensures limits { self.new.limits ≡ self.old.limits }
        ensures taken { let step = take_part self.old.limits line self.old.draft part in
            IfOk result (λ answer. OnOk answer (step ≡ Ok self.new.draft)) }
        ensures refused { let step = take_part self.old.limits line self.old.draft part in
            IfOk result (λ answer. IfErr answer (λ bad. step ≡ Err bad)) }
    {
        match part {
            PatternPart::Name { name, mode } => self.begin(line, name, mode),
            PatternPart::Vertex { n, labels } => self.add_vertex(line, n, labels),
            PatternPart::Edge { tail, head, label } => {
                let edge = PatternEdge {
                    tail: tail as usize,
                    label,
                    head: head as usize,
                };
                self.add_edge(line, edge)
            }
        }
    }

    /// Closes the open pattern, and opens one without vertices.
    fn begin(&mut self, line: u64, name: Text, mode: Mode) -> Result<Result<(), Bad>, AllocError>
        ensures limits { self.new.limits ≡ self.old.limits }
        ensures taken { let step = take_part self.old.limits line self.old.draft (PatternPart.Name name mode) in
            IfOk result (λ answer. OnOk answer (step ≡ Ok self.new.draft)) }
        ensures refused { let step = take_part self.old.limits line self.old.draft (PatternPart.Name name mode) in
            IfOk result (λ answer. IfErr answer (λ bad. step ≡ Err bad)) }
    {
        match self.close()? {
            Ok(()) => Ok(self.start(line, name, mode)),
            Err(bad) => Ok(Err(bad)),
        }
    }

    /// Opens a pattern without vertices behind the complete ones.
    fn start(&mut self, line: u64, name: Text, mode: Mode) -> Result<(), Bad>
        requires { self.old.draft.last ≡ None }
        ensures limits { self.new.limits ≡ self.old.limits }
        ensures started { OnOk result (begin_pattern self.old.limits line name mode self.old.draft.complete ≡ Ok self.new.draft) }
        ensures refused { IfErr result (λ bad. begin_pattern self.old.limits line name mode self.old.draft.complete ≡ Err bad) }
    {
        if has_name(&self.complete, &name) {
            return refused(line, Code::Exists);
        }
        if self.limits.patterns <= self.complete.len() as u64 {
            return refused(line, Code::Full);
        }
        let alloc = *self.complete.allocator();
        self.last = Some(Open::new(alloc, line, name, mode));
        Ok(())
    }

    /// Closes the open pattern, if there is one.
    fn close(&mut self) -> Result<Result<(), Bad>, AllocError>
        ensures limits { self.new.limits ≡ self.old.limits }
        ensures closed { IfOk result (λ answer. OnOk answer (close self.old.draft ≡ Ok self.new.draft.complete)) }
        ensures refused { IfOk result (λ answer. IfErr answer (λ bad. close self.old.draft ≡ Err bad)) }
        ensures last { self.new.draft.last ≡ None }
    {
        let Some(open) = self.last.take() else {
            return Ok(Ok(()));
        };
        match open.close() {
            Ok(pattern) => {
                self.complete.push(pattern)?;
                Ok(Ok(()))
            }
            Err(bad) => Ok(Err(bad)),
        }
    }

    /// Adds a vertex to the open pattern.
    fn add_vertex(
        &mut self,
        line: u64,
        n: u32,
        labels: Labels,
    ) -> Result<Result<(), Bad>, AllocError>
        ensures limits { self.new.limits ≡ self.old.limits }
        ensures taken { let step = change_last line self.old.draft (add_pattern_vertex self.old.limits line n labels) in
            IfOk result (λ answer. OnOk answer (step ≡ Ok self.new.draft)) }
        ensures refused { let step = change_last line self.old.draft (add_pattern_vertex self.old.limits line n labels) in
            IfOk result (λ answer. IfErr answer (λ bad. step ≡ Err bad)) }
    {
        let Some(open) = &mut self.last else {
            return Ok(refused(line, Code::NoName));
        };
        open.add_vertex(&self.limits, line, n, labels)
    }

    /// Adds an edge to the open pattern.
    fn add_edge(&mut self, line: u64, edge: PatternEdge) -> Result<Result<(), Bad>, AllocError>
        ensures limits { self.new.limits ≡ self.old.limits }
        ensures taken { let step = change_last line self.old.draft (add_pattern_edge self.old.limits line edge) in
            IfOk result (λ answer. OnOk answer (step ≡ Ok self.new.draft)) }
        ensures refused { let step = change_last line self.old.draft (add_pattern_edge self.old.limits line edge) in
            IfOk result (λ answer. IfErr answer (λ bad. step ≡ Err bad)) }
    {
        let Some(open) = &mut self.last else {
            return Ok(refused(line, Code::NoName));
        };
        open.add_edge(&self.limits, line, edge)
    }
}

/// Whether a pattern has this name.
fn has_name(patterns: &[Pattern], name: &Text) -> bool
    ensures { result ≡ list_any (λ q. bytes_eq q.name name.now) patterns.now }
{
    patterns.iter().any(|pattern| pattern.name() == name)
}
