// The checker between lines: what is live, and whether the empty clause was added.
ghost use Rattle.std.specs.Prelude.{◌≡◌, ℕ, ◌+◌, ◌<◌, ◌^◌, List, [], map, length, false};
ghost use Rattle.std.specs.Prelude.{IfOk, OnErr, MatchOption, Some, None};
ghost use Rattle.cnf.specs.Formula.{IsFormula};
ghost use Rattle.text.specs.Text.{tokens_of};
ghost use Rattle.lrat_live.specs.Listed.{listed_from};
ghost use Rattle.lrat_machine.specs.Machine.{StepsTo, IsApplied, after_lines, verdict_after};
ghost use Rattle.lrat_machine.specs.Steps.{Adds, IsBase, IsFaultOf, live_of};
ghost use Rattle.lrat_machine.specs.Verdict.{deleted};
ghost use Rattle.lrat_read.specs.Reader.{IsReadAs};

use crate::additions::addition_fault;
use crate::ahead::read_ahead;
use crate::assumed::AssumedLits;
use crate::deletions::delete_all;
use crate::state::{ClauseBase, Scratch};
use crate::verdicts::{Cause, Verdict};
use cnf::types::Formula;
use lrat_live::live::LiveClauses;
use lrat_read::batch::Batch;
use lrat_read::line::{LineView, ReadLine};
use lrat_read::reader::LineReader;
use lrat_read::types::Form;
use std::alloc::AllocError;
use std::marker::Model;

/// Checks the lines of an LRAT certificate one after another (Cruz-Filipe et al. 2017). Between
/// lines it is seen as the live clauses with their ids, the last id, whether the empty clause was
/// added, and the number of lines.
#[derive(Drop)]
pub struct Machine {
    /// Reads a line, in buffers that are used for each.
    reader: LineReader,
    /// What is live, the last id, and whether the empty clause was added.
    base: ClauseBase,
    /// What a line assumes, and the candidates that it names.
    scratch: Scratch,
    /// How many lines were read.
    lines: u64,
    /// What was read ahead, in one number. Nothing rests on it: so the compiler keeps the reading.
    seen: usize,
}

impl Model for Machine {
    ghost use Rattle.lrat_machine.specs.Machine.{MachineState, state_with};
    ghost use Rattle.lrat_machine.specs.Steps.{IsBase};

    ghost Value = { MachineState };

    ghost view = { λ m. state_with m.base m.lines };

    ghost invariant = { λ m. IsBase m.scratch.assumed.variables m.base.last m.base.live };
}

// Adds the line's clause, if its hints allow it.
fn add(
    line: &LineView,
    base: &mut ClauseBase,
    scratch: &mut Scratch,
) -> Result<Option<Cause>, AllocError>
    requires { IsBase scratch.old.assumed.variables base.old.last base.old.live }
    ensures fault { IfOk result (λ f. IsFaultOf (live_of base.old.last base.old.live) line.now f) }
    ensures added { IfOk result (λ f. f ≡ None
        → Adds base.old.live base.old.last line.now base.new.live base.new.last
        base.new.ended) }
    ensures base { IsBase scratch.new.assumed.variables base.new.last base.new.live }
    ensures err { OnErr result (base.new ≡ base.old) }
{
    let fault = addition_fault(line, base, scratch)?;
    if fault.is_none() {
        base.live.add(line.id(), line.lits())?;
        base.last = line.id();
        base.ended = line.lits().is_empty();
    }
    Ok(fault)
}

// Does what the line says, if it may. A line without tokens is always let be.
fn apply_line(
    form: Form,
    line: &LineView,
    base: &mut ClauseBase,
    scratch: &mut Scratch,
) -> Result<Option<Cause>, AllocError>
    requires { IsBase scratch.old.assumed.variables base.old.last base.old.live }
    ensures applied { (n : ℕ) → IsApplied form line.now base.old n base.new (n + 1) result }
    ensures base { IsBase scratch.new.assumed.variables base.new.last base.new.live }
{
    match (form, base.ended) {
        (Form::Blank, _) => Ok(None),
        (_, true) => Ok(Some(Cause::TrailingLine)),
        (Form::Malformed, false) => Ok(Some(Cause::LineForm)),
        (Form::Deletion, false) => Ok(delete_all(&mut base.live, line.hints())),
        (Form::Addition, false) => add(line, base, scratch),
    }
}

// As `apply_line`, and counts the line.
#[inline(always)]
fn apply_next(
    form: Form,
    line: &LineView,
    base: &mut ClauseBase,
    scratch: &mut Scratch,
    lines: &mut u64,
) -> Result<Option<Cause>, AllocError>
    requires base { IsBase scratch.old.assumed.variables base.old.last base.old.live }
    requires room { lines.old + 1 < 2 ^ 64 }
    ensures applied { IsApplied form line.now base.old lines.old base.new lines.new result }
    ensures base { IsBase scratch.new.assumed.variables base.new.last base.new.live }
    ensures lines { IfOk result (λ f. lines.new ≡ lines.old + 1) }
    ensures err { OnErr result (lines.new ≡ lines.old) }
{
    let fault = apply_line(form, line, base, scratch)?;
    *lines += 1;
    Ok(fault)
}

impl Machine {
    /// The checker before the first line: the formula's clauses are live under the ids from 1, in
    /// the formula's own memory. An AllocError comes where memory was refused, or where the formula
    /// has more than 2^32 - 2 literals.
    pub fn new(formula: Formula) -> Result<Self, AllocError>
        ensures state { IfOk result (λ m. m
            ≡ record {
              clauses = listed_from 1 formula.clauses;
              last = length formula.clauses;
              ended = false;
              lines = 0;
            }) }
        ensures limits { IsFormula formula }
    {
        let alloc = formula.allocator();
        let last = formula.clauses().len() as u64;
        let mut assumed = AssumedLits::new(alloc);
        assumed.grow(formula.vars())?;
        Ok(Machine {
            reader: LineReader::new(alloc),
            base: ClauseBase {
                live: LiveClauses::new(formula)?,
                last,
                ended: false,
            },
            scratch: Scratch {
                assumed,
                candidates: Vec::new(alloc),
            },
            lines: 0,
            seen: 0,
        })
    }

    /// Reads what the look-ups of the hints of sixteen lines, from a place on, will read, where
    /// that pays. Nothing that is seen of the machine changes.
    #[inline]
    pub fn read_ahead(&mut self, batch: &Batch, from: usize)
        ensures unchanged { self.new ≡ self.old }
    {
        self.seen = read_ahead(&self.base.live, batch, from);
    }

    /// Counts lines without a token, of which nothing else comes.
    #[inline]
    pub fn pass_over(&mut self, lines: u64)
        requires { self.old.lines + lines < 2 ^ 64 }
        ensures { self.new ≡ after_lines self.old lines }
    {
        self.lines += lines;
    }

    /// How many lines were read, those without tokens among them.
    pub fn lines(&self) -> u64
        ensures { result ≡ self.now.lines }
    {
        self.lines
    }

    /// Reads one line more, without its line end. Answers why the certificate fails at it, if it
    /// does; no later line changes that. An AllocError comes where memory was refused, and the
    /// line then counts as not read.
    pub fn step(&mut self, line: &[u8]) -> Result<Option<Cause>, AllocError>
        requires room { self.old.lines + 1 < 2 ^ 64 }
        ensures steps { IfOk result (λ f. StepsTo self.old (tokens_of line.now) f self.new) }
        ensures lines { IfOk result (λ f. self.new.lines ≡ self.old.lines + 1) }
        ensures err { OnErr result (self.new ≡ self.old) }
    {
        let form = self.reader.read(line)?;
        let line = self.reader.line();
        apply_next(
            form,
            &line,
            &mut self.base,
            &mut self.scratch,
            &mut self.lines,
        )
    }

    /// As `step`, with a line that was read already.
    #[inline(always)]
    pub fn step_read(&mut self, read: &ReadLine) -> Result<Option<Cause>, AllocError>
        requires room { self.old.lines + 1 < 2 ^ 64 }
        ensures steps { IfOk result (λ f. (ts : List (List ℕ))
            → IsReadAs ts read.now.form read.now.line → StepsTo self.old ts f self.new) }
        ensures lines { IfOk result (λ f. self.new.lines ≡ self.old.lines + 1) }
        ensures err { OnErr result (self.new ≡ self.old) }
    {
        apply_next(
            read.form,
            &read.line,
            &mut self.base,
            &mut self.scratch,
            &mut self.lines,
        )
    }

    /// The verdict where no further line follows.
    pub fn verdict(&self) -> Verdict
        ensures { result ≡ verdict_after self.now [] }
    {
        if self.has_ended() {
            Verdict::Yes
        } else {
            Verdict::No(Cause::NoEmptyClause, 0)
        }
    }

    /// Whether the empty clause was added.
    pub fn has_ended(&self) -> bool
        ensures { result ≡ self.now.ended }
    {
        self.base.ended
    }
}
