// Lines that are proposed to the log: it takes those that are right, and refuses all others.
ghost use Rattle.std.specs.Prelude.{◌≡◌, ◌∷◌, ◌++◌, true, false, [], map, IfOk, OnErr, OnOk};
ghost use Rattle.lrat_log.specs.Log.{IsLine, axiom_line, is_axiom};
ghost use Rattle.lrat_log.specs.Axioms.{IsNewClause};

use super::CutsLog;
use crate::events::{BoundLine, CountLine, CutLine, FormLine, GroupLine, MoreLine, PlainLine};
use cnf::clause_list::ClauseList;
use cnf::types::Lit;
use forms::types::NamedFact;
use lrat_log::lines::{Hint, Kind};
use std::alloc::AllocError;
use std::io::Write;

impl<W: Write + Drop> CutsLog<W> {
    ghost use Rattle.cuts_log.specs.Logs.{Brings, SameLog, lines_seen};
    ghost use Rattle.std.specs.List.{AllByRecursion};
    ghost use Rattle.cuts_log.specs.Made.{IsMadeClause};

    /// A count of these literals with `outputs` outputs, if the state takes it; its clauses, and no
    /// others, are in `made` then, and the log has their lines last. Answers whether it does. The
    /// literals of each clause have different variables, up to the greatest one of the forms.
    ///
    /// # Errors
    ///
    /// `AllocError` where memory was refused, or the log has failed. The lines stay as they were.
    pub fn count(
        &mut self,
        outputs: u64,
        inputs: &[Lit],
        made: &mut ClauseList,
    ) -> Result<bool, AllocError>
        ensures taken { IfOk result (λ taken. taken ≡ true
            → Brings (map axiom_line made.new) self.old self.new) }
        ensures made { IfOk result (λ taken. taken ≡ true
            → AllByRecursion (IsMadeClause self.new.standing.forms.variables) made.new) }
        ensures refused { IfOk result (λ taken. taken ≡ false → self.new ≡ self.old) }
        ensures err { OnErr result (lines_seen self.new ≡ lines_seen self.old) }
        ensures same { SameLog self.old self.new }
    {
        if self.book.has_failed() {
            return Err(AllocError);
        }
        let Ok(is_taken) = self.standing.count(outputs, inputs, made) else {
            self.book.fail();
            return Err(AllocError);
        };
        if !is_taken {
            return Ok(false);
        }
        if !self.book.has_room(made.len()) {
            self.book.fail();
            return Err(AllocError);
        }
        self.book.note(&CountLine {
            outputs,
            inputs,
            made,
        })?;
        Ok(true)
    }

    /// One more output of the count with this number, if the state takes it; its clauses, and no
    /// others, are in `made` then, and the log has their lines last. Answers whether it does. The
    /// literals of each clause have different variables, up to the greatest one of the forms.
    ///
    /// # Errors
    ///
    /// `AllocError` where memory was refused, or the log has failed. The lines stay as they were.
    pub fn more(&mut self, number: u64, made: &mut ClauseList) -> Result<bool, AllocError>
        ensures taken { IfOk result (λ taken. taken ≡ true
            → Brings (map axiom_line made.new) self.old self.new) }
        ensures made { IfOk result (λ taken. taken ≡ true
            → AllByRecursion (IsMadeClause self.new.standing.forms.variables) made.new) }
        ensures refused { IfOk result (λ taken. taken ≡ false → self.new ≡ self.old) }
        ensures err { OnErr result (lines_seen self.new ≡ lines_seen self.old) }
        ensures same { SameLog self.old self.new }
    {
        if self.book.has_failed() {
            return Err(AllocError);
        }
        let Ok(is_taken) = self.standing.more(number, made) else {
            self.book.fail();
            return Err(AllocError);
        };
        if !is_taken {
            return Ok(false);
        }
        if !self.book.has_room(made.len()) {
            self.book.fail();
            return Err(AllocError);
        }
        self.book.note(&MoreLine { number, made })?;
        Ok(true)
    }

    /// `scale` times the cost, less these facts, in place of the present form, if the state takes
    /// it. Answers whether it does. Facts are those of counts, of groups, and of the clauses of the
    /// formula that are live, by their numbers from 1: others are refused.
    ///
    /// # Errors
    ///
    /// `AllocError` where memory was refused, or the log has failed. The lines stay as they were.
    pub fn form(&mut self, scale: u64, facts: &[NamedFact]) -> Result<bool, AllocError>
        ensures taken { IfOk result (λ taken. taken ≡ true → Brings [] self.old self.new) }
        ensures refused { IfOk result (λ taken. taken ≡ false → self.new ≡ self.old) }
        ensures err { OnErr result (lines_seen self.new ≡ lines_seen self.old) }
        ensures same { SameLog self.old self.new }
    {
        self.say_form(Some(scale), facts)
    }

    /// The present form less these facts, if the state takes it. Answers whether it does. Facts are
    /// those that `form` takes: others are refused.
    ///
    /// # Errors
    ///
    /// `AllocError` where memory was refused, or the log has failed. The lines stay as they were.
    pub fn form_more(&mut self, facts: &[NamedFact]) -> Result<bool, AllocError>
        ensures taken { IfOk result (λ taken. taken ≡ true → Brings [] self.old self.new) }
        ensures refused { IfOk result (λ taken. taken ≡ false → self.new ≡ self.old) }
        ensures err { OnErr result (lines_seen self.new ≡ lines_seen self.old) }
        ensures same { SameLog self.old self.new }
    {
        self.say_form(None, facts)
    }

    /// A form of this scale, or further facts where there is none, if the state takes it.
    fn say_form(&mut self, scale: Option<u64>, facts: &[NamedFact]) -> Result<bool, AllocError>
        ensures taken { IfOk result (λ taken. taken ≡ true → Brings [] self.old self.new) }
        ensures refused { IfOk result (λ taken. taken ≡ false → self.new ≡ self.old) }
        ensures err { OnErr result (lines_seen self.new ≡ lines_seen self.old) }
        ensures same { SameLog self.old self.new }
    {
        if self.book.has_failed() {
            return Err(AllocError);
        }
        let Ok(is_taken) = self.standing.form(scale, facts) else {
            self.book.fail();
            return Err(AllocError);
        };
        if !is_taken {
            return Ok(false);
        }
        self.book.note(&FormLine { scale, facts })?;
        Ok(true)
    }

    /// A group of these literals, at most one of which is true, if the state takes it; its number
    /// follows that of the last count or group. The ids are numbers from 1 of live clauses of the
    /// formula, for the pairs (1, 2), (1, 3), (2, 3), (1, 4), .. in turn: each has no literals
    /// but the negations of its pair. Answers whether it does.
    ///
    /// # Errors
    ///
    /// `AllocError` where memory was refused, or the log has failed. The lines stay as they were.
    pub fn group(&mut self, inputs: &[Lit], ids: &[u64]) -> Result<bool, AllocError>
        ensures taken { IfOk result (λ taken. taken ≡ true → Brings [] self.old self.new) }
        ensures refused { IfOk result (λ taken. taken ≡ false → self.new ≡ self.old) }
        ensures err { OnErr result (lines_seen self.new ≡ lines_seen self.old) }
        ensures same { SameLog self.old self.new }
    {
        if self.book.has_failed() {
            return Err(AllocError);
        }
        let Ok(is_taken) = self.standing.group(inputs, ids) else {
            self.book.fail();
            return Err(AllocError);
        };
        if !is_taken {
            return Ok(false);
        }
        self.book.note(&GroupLine { inputs, ids })?;
        Ok(true)
    }

    /// A lower bound of the cost, if the present form is worth it. Answers whether it is.
    ///
    /// # Errors
    ///
    /// `AllocError` where the log has failed, or fails now.
    pub fn bound(&mut self, lower: u64) -> Result<bool, AllocError>
        ensures taken { IfOk result (λ taken. taken ≡ true → Brings [] self.old self.new) }
        ensures refused { IfOk result (λ taken. taken ≡ false → self.new ≡ self.old) }
        ensures err { OnErr result (lines_seen self.new ≡ lines_seen self.old) }
        ensures same { SameLog self.old self.new }
    {
        if self.book.has_failed() {
            return Err(AllocError);
        }
        if !self.standing.bound(lower) {
            return Ok(false);
        }
        self.book.note(&BoundLine { lower })?;
        Ok(true)
    }

    /// A cut of these literals under the present form, if the state takes it; its clause is the
    /// last line then. Answers whether it does.
    ///
    /// # Errors
    ///
    /// `AllocError` where memory was refused, or the log has failed. The lines stay as they were.
    pub fn take_cut(&mut self, lits: &[Lit]) -> Result<bool, AllocError>
        requires new { IsNewClause lits.now }
        ensures taken { IfOk result (λ taken. taken ≡ true
            → Brings (axiom_line lits.now ∷ []) self.old self.new) }
        ensures refused { IfOk result (λ taken. taken ≡ false → self.new ≡ self.old) }
        ensures err { OnErr result (lines_seen self.new ≡ lines_seen self.old) }
        ensures same { SameLog self.old self.new }
    {
        if !self.book.has_room(1) {
            return Err(AllocError);
        }
        if !self.standing.cut(lits, self.cost)? {
            return Ok(false);
        }
        self.book.note(&CutLine { lits })?;
        Ok(true)
    }

    /// An addition by hints, or a deletion. It is the last line then.
    pub(super) fn take_line(
        &mut self,
        kind: Kind,
        lits: &[Lit],
        hints: &[Hint],
    ) -> Result<(), AllocError>
        requires line { IsLine (record { kind = kind; clause = lits.now; hints = hints.now }) }
        ensures ok { OnOk result (lines_seen self.new ≡ lines_seen self.old ++ record {
          kind = kind;
          clause = lits.now;
          hints = hints.now;
        } ∷ []) }
        ensures err { OnErr result (lines_seen self.new ≡ lines_seen self.old) }
        ensures same { SameLog self.old self.new }
    {
        if is_axiom(kind) || !self.book.has_room(1) {
            return Err(AllocError);
        }
        self.standing.take_line(kind, lits, hints)?;
        self.book.note(&PlainLine { kind, lits, hints })?;
        Ok(())
    }
}

/// Whether lines of this kind bring a clause from outside.
fn is_axiom(kind: Kind) -> bool
    ensures { result ≡ is_axiom kind }
{
    matches!(kind, Kind::Axiom)
}
