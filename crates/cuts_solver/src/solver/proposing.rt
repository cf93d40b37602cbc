// Lines that are proposed to the solver: what the log makes of them goes to the engine.
ghost use Rattle.std.specs.Prelude.{◌≡◌, ◌+◌, ◌<◌, [], ◌∷◌, ◌++◌, List, true, false};
ghost use Rattle.std.specs.Prelude.{IfOk, OnErr, OnOk, length, map};
ghost use Rattle.cnf.specs.Literal.{Literal};
ghost use Rattle.std.specs.List.{AllByRecursion};
ghost use Rattle.lrat_log.specs.Log.{LogLine, axiom_line};
ghost use Rattle.lrat_log.specs.Axioms.{IsNewClause};
ghost use Rattle.propagate.specs.Fits.{IsWithin};
ghost use Rattle.cdcl_search.specs.Running.{Runs};
ghost use Rattle.cuts_log.specs.Logs.{Brings, SameLog, lines_seen};
ghost use Rattle.cuts_log.specs.Made.{IsMadeClause};

use super::CutsSolver;
use cdcl::budget::Budget;
use cdcl::guided::{are_apart, make_room};
use cdcl_search::axioms::take_axiom;
use cdcl_search::input::Input;
use cdcl_search::search::Search;
use cnf::clause_list::ClauseList;
use cnf::types::Lit;
use cuts_log::law::texts_are_right;
use cuts_log::log::CutsLog;
use forms::types::NamedFact;
use lrat_log::sink::Sink;
use std::alloc::AllocError;
use std::io::Write;

/// The clauses that the log has made go to the engine, where they stay.
fn give_made<W: Write + Drop>(
    search: &mut Search,
    input: &Input,
    log: &CutsLog<W>,
    made: &ClauseList,
) -> Result<(), AllocError>
    requires runs { (ls : List LogLine) × Runs search.old input.now ls
        × (lines_seen log.now ≡ ls ++ map axiom_line made.now) }
    requires made { AllByRecursion (IsMadeClause log.now.standing.forms.variables) made.now }
    ensures { OnOk result (Runs search.new input.now (lines_seen log.now)) }
{
    log.is_short();
    // There was room for what the line might need.
    if log.forms().variables() > search.engine.variables() {
        return Err(AllocError);
    }
    for clause in made.iter() {
        take_axiom(search, clause, None)?;
    }
    Ok(())
}

/// A cut goes to the engine, which may delete it later. Its line is the last one.
fn give_cut<W: Write + Drop>(
    search: &mut Search,
    input: &Input,
    log: &CutsLog<W>,
    lits: &[Lit],
) -> Result<(), AllocError>
    requires runs { (ls : List LogLine) × Runs search.old input.now ls
        × (lines_seen log.now ≡ ls ++ axiom_line lits.now ∷ []) }
    requires new { IsNewClause lits.now }
    requires within { IsWithin search.old.engine.variables lits.now }
    requires some { 0 < length lits.now }
    ensures { OnOk result (Runs search.new input.now (lines_seen log.now)) }
{
    log.is_short();
    take_axiom(search, lits, Some(lits.len().min(u32::MAX as usize) as u32))
}

/// A line of which the log makes clauses.
#[derive(Drop)]
enum MadeLine<'a> {
    /// A count with so many outputs of these literals.
    Count(u64, &'a [Lit]),
    /// One more output of the count with this number.
    More(u64),
}

/// The log takes the line, or refuses it.
fn put_made<W: Write + Drop>(
    log: &mut CutsLog<W>,
    line: MadeLine<'_>,
    made: &mut ClauseList,
) -> Result<bool, AllocError>
    ensures taken { IfOk result (λ taken. taken ≡ true
        → Brings (map axiom_line made.new) log.old log.new) }
    ensures made { IfOk result (λ taken. taken ≡ true
        → AllByRecursion (IsMadeClause log.new.standing.forms.variables) made.new) }
    ensures refused { IfOk result (λ taken. taken ≡ false → log.new ≡ log.old) }
    ensures err { OnErr result (lines_seen log.new ≡ lines_seen log.old) }
    ensures same { SameLog log.old log.new }
{
    match line {
        MadeLine::Count(outputs, inputs) => log.count(outputs, inputs, made),
        MadeLine::More(number) => log.more(number, made),
    }
}

/// A line of which the log makes no clauses.
#[derive(Drop)]
enum PlainLine<'a> {
    /// `scale` times the cost, less these facts.
    Form(u64, &'a [NamedFact]),
    /// The present form less these facts.
    FormMore(&'a [NamedFact]),
    /// A group of these literals, by clauses with these ids.
    Group(&'a [Lit], &'a [u64]),
    /// A lower bound of the cost.
    Bound(u64),
}

/// The log takes the line, or refuses it.
fn put<W: Write + Drop>(log: &mut CutsLog<W>, line: PlainLine<'_>) -> Result<bool, AllocError>
    ensures taken { IfOk result (λ taken. taken ≡ true → Brings [] log.old log.new) }
    ensures refused { IfOk result (λ taken. taken ≡ false → log.new ≡ log.old) }
    ensures err { OnErr result (lines_seen log.new ≡ lines_seen log.old) }
    ensures same { SameLog log.old log.new }
{
    match line {
        PlainLine::Form(scale, facts) => log.form(scale, facts),
        PlainLine::FormMore(facts) => log.form_more(facts),
        PlainLine::Group(inputs, ids) => log.group(inputs, ids),
        PlainLine::Bound(lower) => log.bound(lower),
    }
}

impl<W: Write + Drop> CutsSolver<W> {
    ghost use Rattle.cuts_solver.specs.Solving.{PaysLines, SameSolver};

    /// The line goes to the log, and the clauses that it makes of it to the engine. There has to be
    /// room for `most` variables.
    fn take_made(&mut self, most: u64, line: MadeLine<'_>) -> Result<bool, AllocError>
        ensures taken { IfOk result (λ taken. taken ≡ true → (made : List (List Literal))
            × Brings (map axiom_line made) self.old.log self.new.log) }
        ensures refused { IfOk result (λ taken. taken ≡ false → self.new ≡ self.old) }
        ensures same { SameSolver self.old self.new }
    {
        if !self.is_open()? || !self.has_room(most) {
            return Ok(false);
        }
        self.failed = true;
        let is_taken = put_made(&mut self.log, line, &mut self.made)?;
        if !is_taken {
            self.failed = false;
            return Ok(false);
        }
        give_made(&mut self.search, &self.input, &self.log, &self.made)?;
        self.failed = false;
        Ok(true)
    }

    /// The line goes to the log.
    fn take_plain(&mut self, line: PlainLine<'_>) -> Result<bool, AllocError>
        ensures taken { IfOk result (λ taken. taken ≡ true
            → Brings [] self.old.log self.new.log) }
        ensures refused { IfOk result (λ taken. taken ≡ false → self.new ≡ self.old) }
        ensures same { SameSolver self.old self.new }
    {
        if !self.is_open()? {
            return Ok(false);
        }
        self.failed = true;
        let is_taken = put(&mut self.log, line)?;
        self.failed = false;
        Ok(is_taken)
    }

    /// A count of these literals with `outputs` outputs. False where the log refuses it, where
    /// there is no room for its variables, and where the empty clause was added.
    ///
    /// # Errors
    ///
    /// Those of `search`.
    pub fn count(&mut self, outputs: u64, inputs: &[Lit]) -> Result<bool, AllocError>
        ensures taken { IfOk result (λ taken. taken ≡ true → (made : List (List Literal))
            × Brings (map axiom_line made) self.old.log self.new.log) }
        ensures refused { IfOk result (λ taken. taken ≡ false → self.new ≡ self.old) }
        ensures same { SameSolver self.old self.new }
    {
        let most = outputs.saturating_mul(inputs.len() as u64);
        self.take_made(most, MadeLine::Count(outputs, inputs))
    }

    /// One more output of the count with this number. False where the log refuses it, where there
    /// is no room for its variables, and where the empty clause was added.
    ///
    /// # Errors
    ///
    /// Those of `search`.
    pub fn more(&mut self, number: u64) -> Result<bool, AllocError>
        ensures taken { IfOk result (λ taken. taken ≡ true → (made : List (List Literal))
            × Brings (map axiom_line made) self.old.log self.new.log) }
        ensures refused { IfOk result (λ taken. taken ≡ false → self.new ≡ self.old) }
        ensures same { SameSolver self.old self.new }
    {
        let inputs = self.log.forms().inputs(number);
        let most = inputs.map_or(0, |lits| lits.len() as u64);
        self.take_made(most, MadeLine::More(number))
    }

    /// `scale` times the cost, less these facts, in place of the present form. False where the log
    /// refuses it, and where the empty clause was added.
    ///
    /// # Errors
    ///
    /// Those of `search`.
    pub fn form(&mut self, scale: u64, facts: &[NamedFact]) -> Result<bool, AllocError>
        ensures taken { IfOk result (λ taken. taken ≡ true
            → Brings [] self.old.log self.new.log) }
        ensures refused { IfOk result (λ taken. taken ≡ false → self.new ≡ self.old) }
        ensures same { SameSolver self.old self.new }
    {
        self.take_plain(PlainLine::Form(scale, facts))
    }

    /// The present form less these facts. False where the log refuses it, and where the empty
    /// clause was added.
    ///
    /// # Errors
    ///
    /// Those of `search`.
    pub fn form_more(&mut self, facts: &[NamedFact]) -> Result<bool, AllocError>
        ensures taken { IfOk result (λ taken. taken ≡ true
            → Brings [] self.old.log self.new.log) }
        ensures refused { IfOk result (λ taken. taken ≡ false → self.new ≡ self.old) }
        ensures same { SameSolver self.old self.new }
    {
        self.take_plain(PlainLine::FormMore(facts))
    }

    /// A group of these literals, at most one of which is true; its number follows that of the last
    /// count or group. The ids are numbers of clauses of the formula that are live, one for each
    /// pair, as `CutsLog::group` has them. False where the log refuses it, and where the empty
    /// clause was added.
    ///
    /// # Errors
    ///
    /// Those of `search`.
    pub fn group(&mut self, inputs: &[Lit], ids: &[u64]) -> Result<bool, AllocError>
        ensures taken { IfOk result (λ taken. taken ≡ true
            → Brings [] self.old.log self.new.log) }
        ensures refused { IfOk result (λ taken. taken ≡ false → self.new ≡ self.old) }
        ensures same { SameSolver self.old self.new }
    {
        self.take_plain(PlainLine::Group(inputs, ids))
    }

    /// A lower bound of the cost, if the present form is worth it. False where the log refuses it,
    /// and where the empty clause was added.
    ///
    /// # Errors
    ///
    /// Those of `search`.
    pub fn bound(&mut self, lower: u64) -> Result<bool, AllocError>
        ensures taken { IfOk result (λ taken. taken ≡ true
            → Brings [] self.old.log self.new.log) }
        ensures refused { IfOk result (λ taken. taken ≡ false → self.new ≡ self.old) }
        ensures same { SameSolver self.old self.new }
    {
        self.take_plain(PlainLine::Bound(lower))
    }

    /// A cut of these literals under the present form, for a unit of the budget; the empty one ends
    /// the log. False where the log refuses it, where a variable stands twice or is not there,
    /// where nothing is left of the budget, and where the empty clause was added.
    ///
    /// # Errors
    ///
    /// Those of `search`.
    pub fn cut(&mut self, lits: &[Lit], budget: &mut Budget) -> Result<bool, AllocError>
        ensures taken { IfOk result (λ taken. taken ≡ true
            → Brings (axiom_line lits.now ∷ []) self.old.log self.new.log) }
        ensures paid { IfOk result (λ taken. taken ≡ true
            → budget.new ≡ record budget.old { learned = budget.old.learned + 1 }) }
        ensures refused { IfOk result (λ taken. taken ≡ false → self.new ≡ self.old) }
        ensures unpaid { IfOk result (λ taken. taken ≡ false → budget.new ≡ budget.old) }
        ensures pays { PaysLines self.old self.new budget.old budget.new }
        ensures kept { budget.new.waived ≡ budget.old.waived }
        ensures same { SameSolver self.old self.new }
    {
        if !self.is_open()? || budget.left() == 0 {
            return Ok(false);
        }
        self.failed = true;
        let variables = self.search.engine.variables();
        make_room(&mut self.marks, variables)?;
        if !are_apart(&mut self.marks, variables, lits) {
            self.failed = false;
            return Ok(false);
        }
        let is_taken = self.log.take_cut(lits)?;
        if !is_taken {
            self.failed = false;
            return Ok(false);
        }
        budget.count_learned();
        if lits.is_empty() {
            texts_are_right();
            self.log.limits();
            self.refuted = true;
            self.failed = false;
            return Ok(true);
        }
        give_cut(&mut self.search, &self.input, &self.log, lits)?;
        self.failed = false;
        Ok(true)
    }
}
