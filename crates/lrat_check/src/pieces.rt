//! A certificate in pieces.
//!
//! Each line is judged once its line feed is there, and only what follows the last line feed is
//! kept. Where no line has begun, the lines that come next are read many at a time and then judged
//! in turn, up to the first fault: this takes a tenth off the time of a whole check. A line that
//! cannot be read with others is read by itself, and lines without a token are skipped.
ghost use Rattle.std.specs.Prelude.{◌≡◌, ℕ, ◌+◌, ◌<◌, ◌≤◌, ◌^◌, true, false, List, [], ◌∷◌, ◌++◌};
ghost use Rattle.std.specs.Prelude.{length, take, None, Err, IfOk, OnOk, IfSome, IsErr};
ghost use Rattle.std.specs.Prelude.{IsOk, IsSome, ◌↔◌};
ghost use Rattle.cnf.specs.Literal.{Literal};
ghost use Rattle.text.specs.Text.{IsNoFeed};
ghost use Rattle.lrat_check.specs.Pieces.{HasJudged, Holds};
ghost use Rattle.lrat_check.specs.Verdict.{proof_verdict};

use crate::lines::{judge_batch, judge_ended, judge_line};
use crate::verdicts::{FeedFault, Verdict};
use cnf::types::Formula;
use lrat_machine::machine::Machine;
use lrat_read::batch::Batch;
use lrat_read::blanks::blank_lines;
use std::alloc::AllocError;
use std::marker::Model;
use text::buffer::LineBuffer;
use text::pieces::split_line;

/// Judges an LRAT certificate while it comes in, in pieces of any size (Cruz-Filipe et al. 2017). A
/// line is judged once its line feed is there; what follows the last line feed is all of the text
/// that is kept.
#[derive(Drop)]
pub struct Checker {
    // The lines that a line feed has ended.
    machine: Machine,
    // What follows the last line feed.
    rest: LineBuffer,
    // The first fault. No piece that comes after it is read.
    refused: Option<Verdict>,
    // The lines that were read together last. Nothing of it lasts but its memory.
    batch: Batch,
    // How many bytes came in, below 2^64.
    fed: u64,
    // Whether memory was refused. It stays so.
    failed: bool,
}

impl Model for Checker {
    ghost use Rattle.std.specs.Prelude.{◌≡◌, ◌+◌, ◌≤◌, true, None, length};
    ghost use Rattle.lrat_check.specs.Pieces.{CheckerState};

    ghost Value = { CheckerState };

    ghost view = { λ c. record {
      reading = record { machine = c.machine; rest = c.rest; refused = c.refused };
      fed = c.fed;
      failed = c.failed;
    } };

    ghost invariant = { λ c. ((c.machine).lines + length c.rest ≤ c.fed)
        × (c.failed ≡ true → c.refused ≡ None) };
}

impl Checker {
    /// The checker before the first byte.
    ///
    /// # Errors
    ///
    /// `AllocError` where memory was refused, or where the formula has more than 2^32 - 2 literals.
    pub fn new(formula: &Formula) -> Result<Self, AllocError>
        ensures judged { IfOk result (λ c. HasJudged c formula.now.clauses []) }
        ensures works { IfOk result (λ c. c.failed ≡ false) }
    {
        Checker::over(formula.try_clone()?)
    }

    /// As `new`, over a formula whose memory the checker takes.
    pub(crate) fn over(formula: Formula) -> Result<Self, AllocError>
        ensures judged { IfOk result (λ c. HasJudged c formula.clauses []) }
        ensures works { IfOk result (λ c. c.failed ≡ false) }
    {
        let alloc = formula.allocator();
        Ok(Checker {
            machine: Machine::new(formula)?,
            rest: LineBuffer::new(alloc),
            refused: None,
            batch: Batch::new(alloc),
            fed: 0,
            failed: false,
        })
    }

    /// How many bytes it was handed, whatever it answered.
    pub fn fed(&self) -> u64
        ensures { result ≡ self.now.fed }
    {
        self.fed
    }

    /// Takes the piece after those before. After a fault of the certificate, what comes is dropped.
    ///
    /// # Errors
    ///
    /// `Memory` where memory was refused, and `Failed` after that.
    pub fn feed(&mut self, piece: &[u8]) -> Result<(), FeedFault>
        requires { self.old.fed + length piece.now < 2 ^ 64 }
        ensures judged { OnOk result ((formula : List (List Literal)) (bytes : List ℕ)
            → HasJudged self.old formula bytes → HasJudged self.new formula (bytes ++ piece.now)) }
        ensures fed { self.new.fed ≡ self.old.fed + length piece.now }
        ensures failed { (result ≡ Err FeedFault.Failed) ↔ (self.old.failed ≡ true) }
        ensures fails { IsErr result ↔ (self.new.failed ≡ true) }
        ensures after_no { IsSome (self.old.reading).refused
            → IsOk result × ((self.new.reading).refused ≡ (self.old.reading).refused) }
    {
        self.fed += piece.len() as u64;
        if self.failed {
            return Err(FeedFault::Failed);
        }
        if self.refused.is_some() {
            return Ok(());
        }
        match self.take(piece) {
            Ok(()) => Ok(()),
            Err(AllocError) => {
                self.failed = true;
                self.refused = None;
                Err(FeedFault::Memory)
            }
        }
    }

    /// Reads the piece, which was counted, up to the first fault.
    fn take(&mut self, piece: &[u8]) -> Result<(), AllocError>
        requires works { self.old.failed ≡ false }
        requires small { self.old.fed < 2 ^ 64 }
        requires room { ((self.old.reading).machine).lines + length (self.old.reading).rest
            + length piece.now ≤ self.old.fed }
        ensures holds { OnOk result ((formula : List (List Literal)) (bytes : List ℕ)
            → Holds self.old.reading formula bytes
            → Holds self.new.reading formula (bytes ++ piece.now)) }
        ensures works { self.new.failed ≡ false }
        ensures fed { self.new.fed ≡ self.old.fed }
    {
        let mut left = piece;
        while self.refused.is_none() {
            let count = self.take_batch(left)?;
            if count > 0 {
                left = &left[count..];
                continue;
            }
            match split_line(left) {
                Some((end, after)) => {
                    self.end_line(end)?;
                    left = after;
                }
                None => {
                    self.rest.keep(left)?;
                    return Ok(());
                }
            }
        }
        Ok(())
    }

    /// Judges lines at the front of the text that can be read together, or passes over those that
    /// have no token, unless a line has begun before it. Answers how many bytes they take.
    fn take_batch(&mut self, text: &[u8]) -> Result<usize, AllocError>
        requires works { self.old.failed ≡ false }
        requires open { (self.old.reading).refused ≡ None }
        requires small { self.old.fed < 2 ^ 64 }
        requires room { ((self.old.reading).machine).lines + length (self.old.reading).rest
            + length text.now ≤ self.old.fed }
        ensures within { IfOk result (λ count. count ≤ length text.now) }
        ensures holds { IfOk result (λ count. (formula : List (List Literal)) (bytes : List ℕ)
            → Holds self.old.reading formula bytes
            → Holds self.new.reading formula (bytes ++ take count text.now)) }
        ensures open { IfOk result (λ count. count ≡ 0 → (self.new.reading).refused ≡ None) }
        ensures rest { (self.new.reading).rest ≡ (self.old.reading).rest }
        ensures lines { IfOk result (λ count. ((self.new.reading).machine).lines
            ≤ ((self.old.reading).machine).lines + count) }
        ensures works { self.new.failed ≡ false }
        ensures fed { self.new.fed ≡ self.old.fed }
    {
        if !self.rest.is_empty() {
            return Ok(0);
        }
        let blank = blank_lines(text);
        if blank.bytes > 0 {
            self.machine.pass_over(blank.count);
            return Ok(blank.bytes);
        }
        let count = self.batch.read(text)?;
        if count > 0 {
            self.refused = judge_batch(&mut self.machine, &self.batch)?;
        }
        Ok(count)
    }

    /// Judges the line that these bytes and a line feed end.
    fn end_line(&mut self, end: &[u8]) -> Result<(), AllocError>
        requires works { self.old.failed ≡ false }
        requires open { (self.old.reading).refused ≡ None }
        requires small { self.old.fed < 2 ^ 64 }
        requires room { ((self.old.reading).machine).lines + length (self.old.reading).rest
            + length end.now + 1 ≤ self.old.fed }
        requires no_feed { IsNoFeed end.now }
        ensures holds { OnOk result ((formula : List (List Literal)) (bytes : List ℕ)
            → Holds self.old.reading formula bytes
            → Holds self.new.reading formula (bytes ++ (end.now ++ 10 ∷ []))) }
        ensures rest { (self.new.reading).rest ≡ [] }
        ensures lines { OnOk result (((self.new.reading).machine).lines
            ≡ ((self.old.reading).machine).lines + 1) }
        ensures works { self.new.failed ≡ false }
        ensures fed { self.new.fed ≡ self.old.fed }
    {
        let judged = judge_ended(&mut self.machine, &mut self.rest, end);
        // Here after a failure too, when no contract tells what it left.
        self.rest.clear();
        self.refused = judged?;
        Ok(())
    }

    /// The fault of the first faulty line that a line feed has ended, where there is one. It is the
    /// verdict whatever comes. After refused memory there is none.
    pub fn refused(&self) -> Option<Verdict>
        ensures refused { result ≡ (self.now.reading).refused }
        ensures stays { IfSome result
            (λ v. (formula : List (List Literal)) (bytes more : List ℕ)
            → HasJudged self.now formula bytes → v ≡ proof_verdict formula (bytes ++ more)) }
        ensures failed { self.now.failed ≡ true → result ≡ None }
    {
        self.refused
    }

    /// The verdict on all that it was handed.
    ///
    /// # Errors
    ///
    /// `Memory` where memory was refused, and `Failed` where `feed` answered that before.
    pub fn finish(self) -> Result<Verdict, FeedFault>
        ensures verdict { IfOk result (λ v. (formula : List (List Literal)) (bytes : List ℕ)
            → HasJudged self formula bytes → v ≡ proof_verdict formula bytes) }
        ensures failed { (result ≡ Err FeedFault.Failed) ↔ (self.failed ≡ true) }
    {
        let mut checker = self;
        let verdict = checker.judge_end();
        // By a call: that is proved once, and not field by field here.
        drop(checker);
        verdict
    }

    /// As `finish`. It borrows the checker, which is of no use afterwards, so that none of its
    /// exits has to drop it.
    fn judge_end(&mut self) -> Result<Verdict, FeedFault>
        ensures verdict { IfOk result (λ v. (formula : List (List Literal)) (bytes : List ℕ)
            → HasJudged self.old formula bytes → v ≡ proof_verdict formula bytes) }
        ensures failed { (result ≡ Err FeedFault.Failed) ↔ (self.old.failed ≡ true) }
    {
        if self.failed {
            return Err(FeedFault::Failed);
        }
        if let Some(refused) = self.refused {
            return Ok(refused);
        }
        let judged = judge_rest(&mut self.machine, &self.rest);
        // It may be counted as a line now: kept as well, there would be more than was fed.
        self.rest.clear();
        judged.map_err(|_| FeedFault::Memory)
    }
}

/// The verdict where nothing follows the rest, and no line before it is faulty.
fn judge_rest(machine: &mut Machine, rest: &LineBuffer) -> Result<Verdict, AllocError>
    requires { machine.old.lines + length rest.now < 2 ^ 64 }
    ensures verdict { IfOk result (λ v. (formula : List (List Literal)) (bytes : List ℕ)
        → Holds (record { machine = machine.old; rest = rest.now; refused = None }) formula bytes
        → v ≡ proof_verdict formula bytes) }
    ensures lines { machine.new.lines ≤ machine.old.lines + length rest.now }
{
    if rest.is_empty() {
        return Ok(machine.verdict());
    }
    match judge_line(machine, rest.bytes())? {
        Some(refused) => Ok(refused),
        None => Ok(machine.verdict()),
    }
}
