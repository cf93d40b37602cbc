//! A certificate of forms and cuts in pieces.
//!
//! Each line is judged once its line feed is there, and only what follows the last line feed is
//! kept.
ghost use Rattle.std.specs.Prelude.{◌≡◌, ℕ, ◌+◌, ◌<◌, ◌≤◌, ◌^◌, true, false, List, [], ◌∷◌, ◌++◌};
ghost use Rattle.std.specs.Prelude.{length, Option, None, Ok, Err, IfOk, OnOk, OnErr, IfSome};
ghost use Rattle.std.specs.Prelude.{IfNone, IsErr, IsOk, IsSome, ◌↔◌};
ghost use Rattle.std.specs.Str.Lines.{strip_carriage_return};
ghost use Rattle.cnf.specs.Problem.{Problem};
ghost use Rattle.cnf.specs.declared.limits.TheConstants.{NUMBER_LIMIT};
ghost use Rattle.text.specs.Text.{IsNoFeed};
ghost use Rattle.lrat_cuts.specs.Pieces.{HasJudged, Holds, Judges};
ghost use Rattle.lrat_cuts.specs.Verdict.{cuts_lower, cuts_verdict, ended_part, judged_text};
ghost use Rattle.lrat_cuts.specs.Verdict.{verdict_of};

use crate::machine::CutsMachine;
use crate::verdicts::{Cause, FeedFault, LowerVerdict, Verdict};
use cnf::types::Instance;
use std::alloc::AllocError;
use std::marker::Model;
use text::buffer::LineBuffer;
use text::pieces::split_line;

/// Judges a certificate of forms and cuts while it comes in, in pieces of any size. A line is
/// judged once its line feed is there; what follows the last line feed is all of the text that is
/// kept.
#[derive(Drop)]
pub struct CutsChecker {
    // The lines that a line feed has ended.
    machine: CutsMachine,
    // What follows the last line feed.
    rest: LineBuffer,
    // The first fault, and its line. No piece that comes after it is read.
    refused: Option<(Cause, u64)>,
    // How many bytes came in, below 2^64.
    fed: u64,
    // Whether memory was refused. It stays so.
    failed: bool,
}

impl Model for CutsChecker {
    ghost use Rattle.std.specs.Prelude.{◌≡◌, ◌+◌, ◌≤◌, true, None, length};
    ghost use Rattle.std.specs.Coded.{codes};
    ghost use Rattle.totalizer.specs.TreeCode.{tree_code};
    ghost use Rattle.lrat_cuts.specs.Pieces.{CheckerState};

    ghost Value = { CheckerState };

    ghost coded = { Prim.hlevel (codes, tree_code) };

    ghost view = { λ c. record {
      reading = record { machine = c.machine; rest = c.rest; refused = c.refused };
      fed = c.fed;
      failed = c.failed;
    } };

    ghost invariant = { λ c. ((c.machine).lines + length c.rest ≤ c.fed)
        × (c.failed ≡ true → c.refused ≡ None) };
}

/// Judges the line. Answers why the certificate fails at it, and its number.
pub(crate) fn judge_line(
    machine: &mut CutsMachine,
    line: &[u8],
) -> Result<Option<(Cause, u64)>, AllocError>
    requires { machine.old.lines + 1 < 2 ^ 64 }
    ensures judges { IfOk result (Judges machine.old line.now machine.new) }
    ensures lines { OnOk result (machine.new.lines ≡ machine.old.lines + 1) }
    ensures err { OnErr result (machine.new.lines ≡ machine.old.lines) }
{
    match machine.step(line)? {
        Some(cause) => Ok(Some((cause, machine.lines()))),
        None => Ok(None),
    }
}

/// As `judge_line`, with the line that these bytes and a line feed end. What is kept then is not
/// told: `clear` has to follow.
fn judge_ended(
    machine: &mut CutsMachine,
    rest: &mut LineBuffer,
    end: &[u8],
) -> Result<Option<(Cause, u64)>, AllocError>
    requires { machine.old.lines + 1 < 2 ^ 64 }
    ensures judges { IfOk result
        (Judges machine.old (strip_carriage_return (rest.old ++ end.now)) machine.new) }
    ensures lines { OnOk result (machine.new.lines ≡ machine.old.lines + 1) }
    ensures err { OnErr result (machine.new.lines ≡ machine.old.lines) }
{
    let line = rest.line_ended_by(end)?;
    judge_line(machine, line)
}

impl CutsChecker {
    /// The checker before the first byte. Where there is a cost, cuts have to hold for it.
    ///
    /// # Errors
    ///
    /// `AllocError` where memory was refused, or where the formula has more than 2^32 - 2 literals.
    pub fn new(instance: &Instance, cost: Option<u64>) -> Result<Self, AllocError>
        ensures judged { IfOk result (λ c. HasJudged c cost instance.now []) }
        ensures works { IfOk result (λ c. c.failed ≡ false) }
    {
        let rest = LineBuffer::new(instance.allocator());
        Ok(CutsChecker {
            machine: CutsMachine::new(instance, cost)?,
            rest,
            refused: None,
            fed: 0,
            failed: false,
        })
    }

    /// How many bytes it was handed, whatever it answered.
    pub fn fed(&self) -> u64
        ensures { result ≡ self.now.fed }
    {
        self.fed
    }

    /// Takes the piece after those before. After a fault of the certificate, what comes is dropped.
    ///
    /// # Errors
    ///
    /// `Memory` where memory was refused, and `Failed` after that.
    pub fn feed(&mut self, piece: &[u8]) -> Result<(), FeedFault>
        requires { self.old.fed + length piece.now < 2 ^ 64 }
        ensures judged { OnOk result ((cost : Option ℕ) (p : Problem) (bytes : List ℕ)
            → HasJudged self.old cost p bytes → HasJudged self.new cost p (bytes ++ piece.now)) }
        ensures fed { self.new.fed ≡ self.old.fed + length piece.now }
        ensures failed { (result ≡ Err FeedFault.Failed) ↔ (self.old.failed ≡ true) }
        ensures fails { IsErr result ↔ (self.new.failed ≡ true) }
        ensures after_no { IsSome (self.old.reading).refused
            → IsOk result × ((self.new.reading).refused ≡ (self.old.reading).refused) }
    {
        self.fed += piece.len() as u64;
        if self.failed {
            return Err(FeedFault::Failed);
        }
        if self.refused.is_some() {
            return Ok(());
        }
        match self.take(piece) {
            Ok(()) => Ok(()),
            Err(AllocError) => {
                self.failed = true;
                self.refused = None;
                Err(FeedFault::Memory)
            }
        }
    }

    /// Reads the piece, which was counted, up to the first fault.
    fn take(&mut self, piece: &[u8]) -> Result<(), AllocError>
        requires works { self.old.failed ≡ false }
        requires small { self.old.fed < 2 ^ 64 }
        requires room { ((self.old.reading).machine).lines + length (self.old.reading).rest
            + length piece.now ≤ self.old.fed }
        ensures holds { OnOk result ((cost : Option ℕ) (p : Problem) (bytes : List ℕ)
            → Holds self.old.reading cost p bytes
            → Holds self.new.reading cost p (bytes ++ piece.now)) }
        ensures works { self.new.failed ≡ false }
        ensures fed { self.new.fed ≡ self.old.fed }
    {
        let mut left = piece;
        while self.refused.is_none() {
            match split_line(left) {
                Some((end, after)) => {
                    self.end_line(end)?;
                    left = after;
                }
                None => {
                    self.rest.keep(left)?;
                    return Ok(());
                }
            }
        }
        Ok(())
    }

    /// Judges the line that these bytes and a line feed end.
    fn end_line(&mut self, end: &[u8]) -> Result<(), AllocError>
        requires works { self.old.failed ≡ false }
        requires open { (self.old.reading).refused ≡ None }
        requires small { self.old.fed < 2 ^ 64 }
        requires room { ((self.old.reading).machine).lines + length (self.old.reading).rest
            + length end.now + 1 ≤ self.old.fed }
        requires no_feed { IsNoFeed end.now }
        ensures holds { OnOk result ((cost : Option ℕ) (p : Problem) (bytes : List ℕ)
            → Holds self.old.reading cost p bytes
            → Holds self.new.reading cost p (bytes ++ (end.now ++ 10 ∷ []))) }
        ensures rest { (self.new.reading).rest ≡ [] }
        ensures lines { OnOk result (((self.new.reading).machine).lines
            ≡ ((self.old.reading).machine).lines + 1) }
        ensures works { self.new.failed ≡ false }
        ensures fed { self.new.fed ≡ self.old.fed }
    {
        let judged = judge_ended(&mut self.machine, &mut self.rest, end);
        // Here after a failure too, when no contract tells what it left.
        self.rest.clear();
        self.refused = judged?;
        Ok(())
    }

    /// The fault of the first faulty line that a line feed has ended, where there is one, and its
    /// line. It is the first fault whatever comes. After refused memory there is none.
    pub fn refused(&self) -> Option<(Cause, u64)>
        ensures refused { result ≡ (self.now.reading).refused }
        ensures stays { IfSome result
            (λ e. (cost : Option ℕ) (p : Problem) (bytes more : List ℕ)
            → HasJudged self.now cost p bytes → judged_text cost p (bytes ++ more) ≡ Err e) }
        ensures failed { self.now.failed ≡ true → result ≡ None }
    {
        self.refused
    }

    /// The verdict on all that it was handed: what follows the last line feed is one more line.
    ///
    /// # Errors
    ///
    /// `Memory` where memory was refused, and `Failed` where `feed` answered that before.
    pub fn finish(self) -> Result<Verdict, FeedFault>
        ensures verdict { IfOk result (λ v. (cost : Option ℕ) (p : Problem) (bytes : List ℕ)
            → HasJudged self cost p bytes → v ≡ cuts_verdict cost p bytes) }
        ensures failed { (result ≡ Err FeedFault.Failed) ↔ (self.failed ≡ true) }
    {
        let mut checker = self;
        let verdict = checker.judge_end();
        // By a call: that is proved once, and not field by field here.
        drop(checker);
        verdict
    }

    /// As `finish`. It borrows the checker, which is of no use afterwards, so that none of its
    /// exits has to drop it.
    fn judge_end(&mut self) -> Result<Verdict, FeedFault>
        ensures verdict { IfOk result (λ v. (cost : Option ℕ) (p : Problem) (bytes : List ℕ)
            → HasJudged self.old cost p bytes → v ≡ cuts_verdict cost p bytes) }
        ensures failed { (result ≡ Err FeedFault.Failed) ↔ (self.old.failed ≡ true) }
    {
        if self.failed {
            return Err(FeedFault::Failed);
        }
        if let Some((cause, line)) = self.refused {
            return Ok(Verdict::No(cause, line));
        }
        let judged = judge_rest(&mut self.machine, &self.rest);
        // It may be counted as a line now: kept as well, there would be more than was fed.
        self.rest.clear();
        judged.map_err(|_| FeedFault::Memory)
    }

    /// The checker behind the lines that a line feed has ended; what follows the last one is
    /// dropped. None where one of them is faulty.
    ///
    /// # Errors
    ///
    /// `Failed` where memory was refused before.
    pub fn into_ended(self) -> Result<Option<CutsMachine>, FeedFault>
        ensures state { IfOk result (λ ended. IfSome ended (λ m. (p : Problem) (bytes : List ℕ)
            → HasJudged self None p bytes
            → judged_text None p (ended_part bytes) ≡ Ok m.state)) }
        ensures faulty { IfOk result (λ ended. IfNone ended (IsSome (self.reading).refused)) }
        ensures failed { (result ≡ Err FeedFault.Failed) ↔ (self.failed ≡ true) }
        ensures only { OnErr result (result ≡ Err FeedFault.Failed) }
    {
        // Dropped by calls: that is proved once, and not field by field here.
        if self.failed {
            drop(self);
            return Err(FeedFault::Failed);
        }
        match self.refused {
            Some(_) => {
                drop(self);
                Ok(None)
            }
            None => Ok(Some(self.into_machine())),
        }
    }

    /// The machine; the rest is dropped.
    fn into_machine(self) -> CutsMachine
        ensures { result ≡ (self.reading).machine }
    {
        self.machine
    }

    /// What the lines prove that a line feed has ended. What follows the last one is dropped.
    ///
    /// # Errors
    ///
    /// `Failed` where memory was refused before.
    pub fn finish_ended(&self) -> Result<LowerVerdict, FeedFault>
        ensures verdict { IfOk result (λ v. (p : Problem) (bytes : List ℕ)
            → HasJudged self.now None p bytes → v ≡ cuts_lower p bytes) }
        ensures failed { (result ≡ Err FeedFault.Failed) ↔ (self.now.failed ≡ true) }
        ensures only { OnErr result (result ≡ Err FeedFault.Failed) }
        ensures most { IfOk result
            (λ v. (lower : ℕ) → v ≡ LowerVerdict.AtLeast lower → lower ≤ NUMBER_LIMIT) }
    {
        if self.failed {
            return Err(FeedFault::Failed);
        }
        Ok(match self.refused {
            Some((cause, line)) => LowerVerdict::No(cause, line),
            None => LowerVerdict::AtLeast(self.machine.proved()),
        })
    }
}

/// The verdict where no line is left.
fn end_verdict(machine: &CutsMachine) -> Verdict
    ensures { result ≡ verdict_of (Ok machine.now.state) }
{
    if machine.has_ended() {
        Verdict::Yes
    } else {
        Verdict::No(Cause::NoEmptyClause, 0)
    }
}

/// The verdict where nothing follows the rest, and no line before it is faulty.
fn judge_rest(machine: &mut CutsMachine, rest: &LineBuffer) -> Result<Verdict, AllocError>
    requires { machine.old.lines + length rest.now < 2 ^ 64 }
    ensures verdict { IfOk result (λ v. (cost : Option ℕ) (p : Problem) (bytes : List ℕ)
        → Holds (record { machine = machine.old; rest = rest.now; refused = None }) cost p bytes
        → v ≡ cuts_verdict cost p bytes) }
    ensures lines { machine.new.lines ≤ machine.old.lines + length rest.now }
{
    if rest.is_empty() {
        return Ok(end_verdict(machine));
    }
    match judge_line(machine, rest.bytes())? {
        Some((cause, line)) => Ok(Verdict::No(cause, line)),
        None => Ok(end_verdict(machine)),
    }
}
