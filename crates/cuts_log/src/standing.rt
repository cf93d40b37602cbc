// What the lines of a log leave for the lines that begin with a word.
ghost use Rattle.std.specs.Prelude.{◌≡◌, ◌<◌, ℕ, [], ◌∷◌, All, true, false, map};
ghost use Rattle.std.specs.Prelude.{IfSome, IfOk, OnOk, OnErr};
ghost use Rattle.cnf.specs.declared.limits.TheConstants.{NUMBER_LIMIT};
ghost use Rattle.lrat_read.specs.Words.{CountLine, MoreLine, GroupLine, FormLine, CutLine};
ghost use Rattle.lrat_read.specs.Words.{BoundLine};
ghost use Rattle.cnf.specs.Lrat.{IsId};
ghost use Rattle.forms.specs.Forms.{heard};
ghost use Rattle.std.specs.List.{AllByRecursion};
ghost use Rattle.cuts_log.specs.Facts.{CanBeSaid, is_worth, spelled};

use crate::given::FormulaClauses;
use cnf::clause_list::ClauseList;
use cnf::limits::NUMBER_LIMIT;
use cnf::types::Lit;
use forms::faults::LineFault;
use forms::state::Forms;
use forms::types::NamedFact;
use lrat_log::lines::{Hint, Kind};
use std::alloc::AllocError;

/// The state of forms, whether the empty clause was the last one that came, and the formula.
#[derive(Drop)]
pub(crate) struct Standing {
    /// What the lines leave; it is the checker's.
    pub(crate) forms: Forms,
    /// Whether the last clause that came is the empty one: no line may follow.
    pub(crate) ended: bool,
    /// The clauses of the formula that are live.
    pub(crate) formula: FormulaClauses,
}

/// Whether what a line is worth is at least this much.
fn is_worth(worth: Result<Option<u64>, LineFault>, least: u64) -> bool
    ensures { result ≡ is_worth worth least }
{
    match worth {
        Ok(Some(worth)) => least <= worth,
        Ok(None) | Err(_) => false,
    }
}

/// Whether a form line can say the scale and the facts: they are below 2^62.
fn can_say(scale: Option<u64>, facts: &[NamedFact]) -> bool
    ensures scale { result ≡ true → IfSome scale (λ d. d < NUMBER_LIMIT) }
    ensures facts { result ≡ true → All CanBeSaid facts.now }
{
    let is_small = match scale {
        Some(scale) => scale < NUMBER_LIMIT,
        None => true,
    };
    is_small && facts.iter().all(|fact| can_be_said(fact))
}

/// Whether the numbers of a fact can be spelled.
fn can_be_said(fact: &NamedFact) -> bool
    ensures { result ≡ true → CanBeSaid fact.now }
{
    is_id(fact.weight) && is_id(fact.number)
}

/// Whether a line can have this number: from 1, below 2^62.
fn is_id(number: u64) -> bool
    ensures { result ≡ true → IsId number }
{
    0 < number && number < NUMBER_LIMIT
}

/// Whether a line can have these numbers.
fn are_ids(numbers: &[u64]) -> bool
    ensures { result ≡ true → All IsId numbers.now }
{
    numbers.iter().all(|number| is_id(*number))
}

/// Says that the variables of literals are from 1 and can be spelled; it does nothing.
/// `Instance::limits` has the reason.
fn limits(lits: &[Lit])
    ensures { All (λ l. IsId l.variable) lits.now }
{
    for lit in lits {
        let _variable = lit.variable();
    }
}

/// Says that of the literals of each clause; it does nothing.
fn limits_of_each(clauses: &ClauseList)
    ensures { AllByRecursion (λ c. All (λ l. IsId l.variable) c) clauses.now }
{
    for clause in clauses.iter() {
        limits(clause);
    }
}

/// A clause is live from now on: a unit clause gives its variable a value.
fn hear(forms: &mut Forms, clause: &[Lit]) -> Result<(), AllocError>
    ensures ok { OnOk result (forms.new ≡ heard clause.now forms.old) }
    ensures err { OnErr result (forms.new ≡ forms.old) }
{
    match clause {
        [unit] => forms.hear(*unit),
        _ => Ok(()),
    }
}

impl Standing {
    ghost use Rattle.cuts_log.specs.Made.{IsMadeClause};
    ghost use Rattle.cuts_log.specs.Stands.{TakesWord, with_clause, with_clauses, with_line};

    /// A clause is live from now on.
    ///
    /// # Errors
    ///
    /// `AllocError` where memory was refused; then nothing has changed.
    pub(crate) fn take(&mut self, clause: &[Lit]) -> Result<(), AllocError>
        ensures ok { OnOk result (self.new ≡ with_clause clause.now self.old) }
        ensures err { OnErr result (self.new ≡ self.old) }
    {
        hear(&mut self.forms, clause)?;
        self.ended = clause.is_empty();
        Ok(())
    }

    /// The clause that a line of this kind adds is live from now on, if it adds one; those of the
    /// formula that one names which deletes are live no more.
    ///
    /// # Errors
    ///
    /// `AllocError` where memory was refused; then nothing has changed.
    pub(crate) fn take_line(
        &mut self,
        kind: Kind,
        clause: &[Lit],
        hints: &[Hint],
    ) -> Result<(), AllocError>
        ensures ok { OnOk result (self.new ≡ with_line
            (record { kind = kind; clause = clause.now; hints = hints.now }) self.old) }
        ensures err { OnErr result (self.new ≡ self.old) }
    {
        if kind.is_delete() {
            self.formula.delete(hints);
            return Ok(());
        }
        self.take(clause)
    }

    /// These clauses are live from now on, one after the other.
    ///
    /// # Errors
    ///
    /// `AllocError` where memory was refused; then some may be.
    pub(crate) fn take_all(&mut self, clauses: &ClauseList) -> Result<(), AllocError>
        ensures { OnOk result (self.new ≡ with_clauses clauses.now self.old) }
    {
        for clause in clauses.iter() {
            self.take(clause)?;
        }
        Ok(())
    }

    /// A count of these literals with `outputs` outputs, if it is right; its clauses, and no
    /// others, are in `made` then. Answers whether it is.
    ///
    /// # Errors
    ///
    /// `AllocError` where memory was refused; then nothing is said of what is left.
    pub(crate) fn count(
        &mut self,
        outputs: u64,
        inputs: &[Lit],
        made: &mut ClauseList,
    ) -> Result<bool, AllocError>
        ensures taken { IfOk result (λ taken. taken ≡ true → (cost : ℕ)
            → TakesWord cost self.old (CountLine outputs inputs.now) made.new self.new) }
        ensures made { IfOk result (λ taken. taken ≡ true
            → AllByRecursion (IsMadeClause self.new.forms.variables) made.new) }
        ensures refused { IfOk result (λ taken. taken ≡ false → self.new ≡ self.old) }
    {
        if self.ended || outputs >= NUMBER_LIMIT || inputs.is_empty() {
            return Ok(false);
        }
        limits(inputs);
        self.forms.clause_limits();
        let fault = self.forms.count(outputs, inputs, made)?;
        if fault.is_some() {
            return Ok(false);
        }
        self.take_all(made)?;
        self.forms.limits();
        limits_of_each(made);
        Ok(true)
    }

    /// One more output of the count with this number, if it is right; its clauses, and no others,
    /// are in `made` then. Answers whether it is.
    ///
    /// # Errors
    ///
    /// `AllocError` where memory was refused; then nothing is said of what is left.
    pub(crate) fn more(&mut self, number: u64, made: &mut ClauseList) -> Result<bool, AllocError>
        ensures taken { IfOk result (λ taken. taken ≡ true
            → (cost : ℕ) → TakesWord cost self.old (MoreLine number) made.new self.new) }
        ensures made { IfOk result (λ taken. taken ≡ true
            → AllByRecursion (IsMadeClause self.new.forms.variables) made.new) }
        ensures refused { IfOk result (λ taken. taken ≡ false → self.new ≡ self.old) }
    {
        if self.ended || number == 0 || number >= NUMBER_LIMIT {
            return Ok(false);
        }
        self.forms.clause_limits();
        let fault = self.forms.more(number, made)?;
        if fault.is_some() {
            return Ok(false);
        }
        self.take_all(made)?;
        self.forms.limits();
        limits_of_each(made);
        Ok(true)
    }

    /// A form of this scale, or where there is none the present one, less these facts, if it is
    /// right. Answers whether it is.
    ///
    /// # Errors
    ///
    /// `AllocError` where memory was refused; then nothing is said of what is left.
    pub(crate) fn form(
        &mut self,
        scale: Option<u64>,
        facts: &[NamedFact],
    ) -> Result<bool, AllocError>
        ensures taken { IfOk result (λ taken. taken ≡ true
            → (cost : ℕ) → TakesWord cost self.old (FormLine scale (map spelled facts.now)) []
            self.new) }
        ensures refused { IfOk result (λ taken. taken ≡ false → self.new ≡ self.old) }
    {
        if self.ended || !can_say(scale, facts) {
            return Ok(false);
        }
        let fault = self.forms.form(&self.formula, scale, facts)?;
        Ok(fault.is_none())
    }

    /// A group of these literals, at most one of which is true, as clauses of the formula with
    /// these ids say, if it is right. Answers whether it is.
    ///
    /// # Errors
    ///
    /// `AllocError` where memory was refused; then nothing is said of what is left.
    pub(crate) fn group(&mut self, inputs: &[Lit], ids: &[u64]) -> Result<bool, AllocError>
        ensures taken { IfOk result (λ taken. taken ≡ true → (cost : ℕ)
            → TakesWord cost self.old (GroupLine inputs.now ids.now) [] self.new) }
        ensures refused { IfOk result (λ taken. taken ≡ false → self.new ≡ self.old) }
    {
        if self.ended || !are_ids(ids) {
            return Ok(false);
        }
        limits(inputs);
        let fault = self.forms.group(&self.formula, inputs, ids)?;
        Ok(fault.is_none())
    }

    /// A cut of these literals, if it holds in all solutions that cost less than this. Answers
    /// whether it does.
    ///
    /// # Errors
    ///
    /// `AllocError` where memory was refused; then nothing has changed.
    pub(crate) fn cut(&mut self, lits: &[Lit], cost: u64) -> Result<bool, AllocError>
        ensures taken { IfOk result (λ taken. taken ≡ true
            → TakesWord cost self.old (CutLine lits.now) (lits.now ∷ []) self.new) }
        ensures refused { IfOk result (λ taken. taken ≡ false → self.new ≡ self.old) }
        ensures err { OnErr result (self.new ≡ self.old) }
    {
        if self.ended || !is_worth(self.forms.cut(lits), cost) {
            return Ok(false);
        }
        limits(lits);
        self.take(lits)?;
        Ok(true)
    }

    /// Whether the present form is worth at least `lower`: nothing costs less.
    pub(crate) fn bound(&self, lower: u64) -> bool
        ensures { result ≡ true
            → (cost : ℕ) → TakesWord cost self.now (BoundLine lower) [] self.now }
    {
        !self.ended && lower < NUMBER_LIMIT && is_worth(self.forms.bound(), lower)
    }
}
