// A text that comes in pieces. Each line is read once its line feed is there, and only what follows
// the last line feed is kept.
ghost use Rattle.std.specs.Prelude.{◌≡◌, ℕ, List, [], ◌∷◌, ◌++◌, ◌+◌, Ok, IfOk, IfErr, OnOk, ◌⊎◌};
ghost use Rattle.text.specs.Text.{IsNoFeed, tokens_of};
ghost use Rattle.wcnf.specs.Wcnf.{Reads};
ghost use Rattle.wcnf.specs.Reading.{IsFirstFault};
ghost use Rattle.wcnf.specs.Drafts.{drafted_line};
ghost use Rattle.wcnf.specs.Parsing.{HasRead, Ends, IsLineFault, Refuses, NoMemory};

use crate::faults::{FaultKind, NO_MEMORY, ReadFault};
use crate::rows::Draft;
use cnf::types::Instance;
use std::alloc::{AllocError, Global};
use text::buffer::LineBuffer;
use text::pieces::split_line;

/// What the pieces so far leave.
#[derive(Drop)]
pub(crate) struct Parser {
    /// What the lines make that a line feed has ended.
    pub draft: Draft,
    /// The number of the next line, from 1.
    pub number: u64,
    /// What follows the last line feed.
    pub rest: LineBuffer,
}

impl Parser {
    /// The parser of no bytes.
    pub(crate) fn new(alloc: Global) -> Self
        ensures { HasRead result [] }
    {
        Parser {
            draft: Draft::new(alloc),
            number: 1,
            rest: LineBuffer::new(alloc),
        }
    }

    /// Reads the piece, up to its first faulty line.
    pub(crate) fn feed(&mut self, piece: &[u8]) -> Result<(), ReadFault>
        ensures read { OnOk result
            ((bytes : List ℕ) → HasRead self.old bytes → HasRead self.new (bytes ++ piece.now)) }
        ensures fault { IfErr result (Refuses self.old piece.now) }
    {
        let mut left = piece;
        while let Some((end, after)) = split_line(left) {
            self.end_line(end)?;
            left = after;
        }
        match self.rest.keep(left) {
            Ok(()) => Ok(()),
            Err(AllocError) => Err(NO_MEMORY),
        }
    }

    /// Reads the line that these bytes and a line feed end.
    fn end_line(&mut self, end: &[u8]) -> Result<(), ReadFault>
        requires { IsNoFeed end.now }
        ensures read { OnOk result ((bytes : List ℕ) → HasRead self.old bytes
            → HasRead self.new (bytes ++ (end.now ++ 10 ∷ []))) }
        ensures fault { IfErr result (Refuses self.old (end.now ++ 10 ∷ [])) }
    {
        let Ok(line) = self.rest.line_ended_by(end) else {
            return Err(NO_MEMORY);
        };
        read_line(&mut self.draft, &mut self.number, line)?;
        self.rest.clear();
        Ok(())
    }

    /// The instance, where nothing follows.
    pub(crate) fn finish(mut self) -> Result<Instance, ReadFault>
        requires { (bytes : List ℕ) × HasRead self bytes }
        ensures instance { IfOk result
            (λ i. (bytes : List ℕ) → HasRead self bytes → Reads bytes i) }
        ensures fault { IfErr result (λ f. NoMemory f
            ⊎ ((bytes : List ℕ) → HasRead self bytes → IsFirstFault bytes f.kind f.line)) }
    {
        self.end_text()?;
        finish_draft(self.draft)
    }

    /// Reads what follows the last line feed, if it is not empty, as one more line.
    fn end_text(&mut self) -> Result<(), ReadFault>
        ensures ends { OnOk result
            ((bytes : List ℕ) → HasRead self.old bytes → Ends self.new.draft bytes) }
        ensures fault { IfErr result (λ f. NoMemory f
            ⊎ ((bytes : List ℕ) → HasRead self.old bytes → IsFirstFault bytes f.kind f.line)) }
    {
        if self.rest.is_empty() {
            return Ok(());
        }
        read_line(&mut self.draft, &mut self.number, self.rest.bytes())?;
        Ok(())
    }
}

/// Reads the line of this number, and counts it.
fn read_line(draft: &mut Draft, number: &mut u64, line: &[u8]) -> Result<(), ReadFault>
    ensures read { OnOk result
        (drafted_line number.old draft.old (tokens_of line.now) ≡ Ok draft.new) }
    ensures counted { OnOk result (number.new ≡ number.old + 1) }
    ensures fault { IfErr result (IsLineFault draft.old number.old line.now) }
{
    if let Err(kind) = draft.read_line(*number, line) {
        return Err(fault_at(kind, *number));
    }
    *number = number.checked_add(1).ok_or(NO_MEMORY)?;
    Ok(())
}

/// The fault that a line met; refused memory is of no line.
fn fault_at(kind: FaultKind, line: u64) -> ReadFault
    ensures memory { kind ≡ FaultKind.Memory → NoMemory result }
    ensures other { (kind ≡ FaultKind.Memory → ⊥)
        → result ≡ record { kind = kind; line = line } }
{
    match kind {
        FaultKind::Memory => NO_MEMORY,
        _ => ReadFault { kind, line },
    }
}

/// The instance that all lines make.
fn finish_draft(draft: Draft) -> Result<Instance, ReadFault>
    requires { (bytes : List ℕ) × Ends draft bytes }
    ensures instance { IfOk result (λ i. (bytes : List ℕ) → Ends draft bytes → Reads bytes i) }
    ensures fault { IfErr result
        (λ f. (bytes : List ℕ) → Ends draft bytes → IsFirstFault bytes f.kind f.line) }
{
    match draft.short() {
        Some(line) => Err(ReadFault {
            kind: FaultKind::Count,
            line,
        }),
        None => Ok(draft.finish()),
    }
}
