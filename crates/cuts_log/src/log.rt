// The log of a search by forms and cuts.
//
// The state of forms stands beside the text, and each line that begins with a word is put to it
// first: what the state refuses is not written. The state is the one that the checker keeps, so a
// search need prove nothing of what it proposes.
ghost use Rattle.std.specs.Prelude.{◌≡◌, false, [], map, min, IfNone, IfOk, IfSome, OnOk};
ghost use Rattle.std.specs.Prelude.{◌<◌, ◌≤◌, All, sum_by};
ghost use Rattle.cnf.specs.declared.limits.TheConstants.{NUMBER_LIMIT};
ghost use Rattle.adder.specs.Network.{relaxed_variables};
ghost use Rattle.adder.specs.Parts.{weight_in};
ghost use Rattle.adder.specs.declared.profiles.Profile.TheVariants.{Two};
ghost use Rattle.bound.specs.Weighted.{weighted_cnf, weights_of};
ghost use Rattle.cuts_log.specs.Starts.{IsReached, IsStart};

mod beginning;
mod proposing;
mod resuming;

use crate::book::Book;
use crate::log::beginning::standing_of;
use crate::log::resuming::go_on;
use crate::standing::Standing;
use adder::relaxations::Relaxation;
use bound::weighted::{weighted_formula, weights};
use cnf::limits::NUMBER_LIMIT;
use cnf::types::{Formula, Instance, Lit};
use forms::state::Forms;
use lrat_cuts::machine::CutsMachine;
use lrat_log::lines::{Hint, Kind};
use lrat_log::sink::Sink;
use std::alloc::AllocError;
use std::io::Write;
use std::marker::Model;

/// A log that is written as a certificate of forms and cuts while it grows. It keeps none of its
/// lines: its memory is that of the formula, of the counts and of the present form, and a block of
/// text.
///
/// A line is right or refused. After a refusal nothing has changed. Where memory is refused or a
/// write fails, the log has failed: it takes no line any more, and each call answers `AllocError`.
#[derive(Drop)]
pub struct CutsLog<W: Write> {
    // The lines so far, and their text.
    book: Book<W>,
    // What the lines leave; after a failure it means nothing.
    standing: Standing,
    // Each cut holds in all solutions that cost less: at most 2^62.
    cost: u64,
}

/// A log before its first line, and what it was made of.
#[derive(Drop)]
pub struct Begun<W: Write> {
    /// The log.
    pub log: CutsLog<W>,
    /// The clauses of the instance and of its relaxation.
    pub formula: Formula,
    /// What each soft clause costs.
    pub weights: Vec<Relaxation>,
}

impl<W: Write> Model for CutsLog<W> {
    ghost use Rattle.std.specs.Coded.{codes};
    ghost use Rattle.totalizer.specs.TreeCode.{tree_code};
    ghost use Rattle.cuts_log.specs.Logs.{LogState, IsKept};

    ghost Value = { LogState };

    ghost coded = { Prim.hlevel (codes, tree_code) };

    ghost view = { λ l. record { book = l.book; standing = l.standing; cost = l.cost } };

    ghost invariant = { λ l.
        IsKept (record { book = l.book; standing = l.standing; cost = l.cost }) };
}

impl<W: Write + Drop> CutsLog<W> {
    ghost use Rattle.cuts_log.specs.Books.{IsBook};
    ghost use Rattle.cuts_log.specs.Logs.{HasBegun, HasResumed, IsKept, SameLog, lines_seen};

    /// A log over the clauses of the instance and of its relaxation. Cuts have to hold in all
    /// solutions, until there is one.
    ///
    /// # Errors
    ///
    /// `AllocError` where memory was refused.
    pub fn begin(instance: &Instance, writer: W) -> Result<Begun<W>, AllocError>
        ensures log { IfOk result (λ b. HasBegun instance.now (W.contents writer) b.log) }
        ensures formula { IfOk result (λ b. b.formula ≡ weighted_cnf instance.now) }
        ensures weights { IfOk result
            (λ b. map weight_in b.weights.items ≡ weights_of instance.now) }
    {
        let formula = weighted_formula(instance)?;
        let weights = weights(instance)?;
        let log = Self::over(instance, &formula, &weights, writer)?;
        Ok(Begun {
            log,
            formula,
            weights,
        })
    }

    /// A log before its first line, over the formula and the weights of the instance.
    fn over(
        instance: &Instance,
        formula: &Formula,
        weights: &[Relaxation],
        writer: W,
    ) -> Result<Self, AllocError>
        requires formula { formula.now ≡ weighted_cnf instance.now }
        requires weights { map weight_in weights.now ≡ weights_of instance.now }
        requires within { All (λ r. r.lit.variable ≤ relaxed_variables Two instance.now)
            weights.now }
        requires sum { sum_by (λ r. r.weight) weights.now < NUMBER_LIMIT }
        ensures { IfOk result (HasBegun instance.now (W.contents writer)) }
    {
        let book = Book::new(instance, formula.clauses().len(), writer)?;
        let standing = standing_of(instance, formula, weights)?;
        Ok(CutsLog {
            book,
            standing,
            cost: NUMBER_LIMIT,
        })
    }

    /// A log that goes on with what a checker has judged, for a writer that puts its lines behind
    /// that. Cuts have to hold in the solutions for which those before hold. None where no log may
    /// start there: where no line can follow, where a cut holds for no cost, where a clause of the
    /// formula is live no more, or where an empty clause is.
    ///
    /// # Errors
    ///
    /// `AllocError` where memory was refused, or where ids would be 2^61 or more.
    pub fn resume(
        instance: &Instance,
        machine: CutsMachine,
        writer: W,
    ) -> Result<Option<Self>, AllocError>
        requires reached { IsReached instance.now machine.state }
        ensures resumed { IfOk result (λ found. IfSome found
            (HasResumed instance.now machine.state (W.contents writer))) }
        ensures start { IfOk result (λ found. IfSome found
            (λ _. IsStart instance.now machine.state)) }
        ensures refused { IfOk result (λ found. IfNone found
            (IsStart instance.now machine.state → ⊥)) }
    {
        let begun = go_on(instance, &machine, writer);
        let cost = machine.worth();
        let forms = machine.into_forms();
        let Some((book, formula)) = begun? else {
            return Ok(None);
        };
        Ok(Some(CutsLog {
            book,
            standing: Standing {
                forms,
                ended: false,
                formula,
            },
            cost,
        }))
    }

    /// Says what holds of each log; it does nothing. `Instance::limits` has the reason.
    pub fn limits(&self)
        ensures kept { IsKept self.now }
        ensures book { IsBook self.now.book }
    {
        self.book.limits();
    }

    /// What the lines so far leave: counts and the present form. After a failure it means nothing.
    pub fn forms(&self) -> &Forms
        ensures { result.now ≡ self.now.standing.forms }
    {
        &self.standing.forms
    }

    /// The cost for which each cut has to hold, at most 2^62.
    pub fn cost(&self) -> u64
        ensures { result ≡ self.now.cost }
    {
        self.cost
    }

    /// Whether the empty clause was the last one that came: no line may follow. After a failure it
    /// means nothing.
    pub fn has_ended(&self) -> bool
        ensures { result ≡ self.now.standing.ended }
    {
        self.standing.ended
    }

    /// Whether the log takes no line any more, since memory was refused or a write has failed.
    pub fn has_failed(&self) -> bool
        ensures { result ≡ self.now.book.failed }
    {
        self.book.has_failed()
    }

    /// Whether a write has failed.
    pub fn has_write_failed(&self) -> bool
        ensures { result ≡ self.now.book.out.failed }
    {
        self.book.has_write_failed()
    }

    /// From now on cuts have to hold in the solutions that cost less than this, if it is less than
    /// what they had to hold for.
    pub fn set_cost(&mut self, cost: u64)
        ensures { self.new ≡ record self.old { cost = min cost self.old.cost } }
    {
        if cost < self.cost {
            self.cost = cost;
        }
    }

    /// Writes what was put out and not written. The writer is not flushed.
    ///
    /// # Errors
    ///
    /// `AllocError` where the log has failed, or where the writer fails.
    pub fn flush(&mut self) -> Result<(), AllocError>
        ensures lines { lines_seen self.new ≡ lines_seen self.old }
        ensures empty { OnOk result (self.new.book.out.held ≡ []) }
        ensures works { OnOk result (self.new.book.failed ≡ false) }
        ensures rest { self.new ≡ record self.old {
          book = record self.old.book {
            out = self.new.book.out;
            failed = self.new.book.failed;
          };
        } }
        ensures same { SameLog self.old self.new }
    {
        if self.book.has_failed() {
            return Err(AllocError);
        }
        self.book.flush()
    }

    /// The writer. What was put out and not written is lost.
    pub fn into_writer(self) -> W
        ensures { W.contents result ≡ self.book.out.had }
    {
        self.book.into_writer()
    }
}

impl<W: Write + Drop> Sink for CutsLog<W> {
    ghost use Rattle.cuts_log.specs.Logs.{SameLog, lines_seen};

    ghost lines = { lines_seen };

    ghost follows = { SameLog };

    fn append(&mut self, kind: Kind, lits: &[Lit], hints: &[Hint]) -> Result<(), AllocError> {
        self.take_line(kind, lits, hints)
    }

    fn cut(&mut self, lits: &[Lit]) -> Result<bool, AllocError> {
        self.take_cut(lits)
    }

    fn is_short(&self) {
        self.book.limits();
    }
}
