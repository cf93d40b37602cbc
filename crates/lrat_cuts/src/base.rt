// What the lines so far leave: the live clauses, and the forms over them.
ghost use Rattle.std.specs.Prelude.{◌≡◌, ◌+◌, ◌<◌, ◌≤◌, List, map, None, IfOk, OnOk};
ghost use Rattle.std.specs.Prelude.{All, IfSome, false};
ghost use Rattle.std.specs.Option.{option_copied};
ghost use Rattle.cnf.specs.Literal.{Literal};
ghost use Rattle.cnf.specs.declared.limits.TheConstants.{NUMBER_LIMIT, VARIABLE_LIMIT};
ghost use Rattle.bound.specs.Weighted.{weighted_cnf};
ghost use Rattle.forms.specs.Forms.{heard, count_line, more_line, group_line, form_line};
ghost use Rattle.forms.specs.Answers.{IsFact};
ghost use Rattle.lrat_live.specs.Listed.{listed_at};
ghost use Rattle.lrat_read.specs.Form.{Addition, Deletion};
ghost use Rattle.lrat_read.specs.Reader.{is_large_clause};
ghost use Rattle.lrat_cuts.specs.Cuts.{cause_of, cuts_start, fact_of, judged_bound, judged_cut};
ghost use Rattle.lrat_cuts.specs.Cuts.{judged_plain, on_clauses, on_forms, put, put_all};
ghost use Rattle.lrat_cuts.specs.Cuts.{taken_worth};
ghost use Rattle.lrat_cuts.specs.Machine.{LeadsTo, Puts, heard_all, took};

use crate::table::LiveTable;
use bound::weighted::{weighted_formula, weights};
use cnf::clause_list::ClauseList;
use cnf::limits::NUMBER_LIMIT;
use cnf::types::{Formula, Instance, Lit};
use forms::faults::LineFault;
use forms::state::Forms;
use forms::types::NamedFact;
use lrat_machine::rup::RupBase;
use lrat_machine::verdicts::Cause;
use lrat_read::facts::WeightedFact;
use lrat_read::line::LineView;
use lrat_read::types::SignedId;
use std::alloc::AllocError;
use std::marker::Model;

/// What the lines so far leave. A line that is refused may leave anything, and so may one for which
/// memory was refused.
#[derive(Drop)]
pub(crate) struct CutsBase {
    // The live clauses with their ids, and the last id.
    clauses: RupBase,
    // Counts, groups and the present form, and what unit clauses say of its variables.
    forms: Forms,
    // Whether the last clause that came is the empty one.
    ended: bool,
    // The least that a cut so far is worth: at most 2^62.
    worth: u64,
    // The greatest lower bound of the cost that was proved: at most 2^62.
    proved: u64,
    // The facts of the form line that is looked at; between two lines it may hold any.
    facts: Vec<NamedFact>,
}

impl Model for CutsBase {
    ghost use Rattle.std.specs.Coded.{codes};
    ghost use Rattle.totalizer.specs.TreeCode.{tree_code};
    ghost use Rattle.lrat_cuts.specs.Cuts.{CutsState};

    ghost Value = { CutsState };

    ghost coded = { Prim.hlevel (codes, tree_code) };

    ghost view = { λ b. record {
      live = (b.clauses).clauses;
      last = (b.clauses).last;
      forms = b.forms;
      ended = b.ended;
      worth = b.worth;
      proved = b.proved;
    } };

    ghost use Rattle.std.specs.Prelude.{◌≤◌};
    ghost use Rattle.cnf.specs.declared.limits.TheConstants.{NUMBER_LIMIT};

    ghost invariant = { λ b. (b.worth ≤ NUMBER_LIMIT) × (b.proved ≤ NUMBER_LIMIT) };
}

/// Why a line that speaks of forms is refused.
fn cause_of(fault: LineFault) -> Cause
    ensures { result ≡ cause_of fault }
{
    match fault {
        LineFault::Name => Cause::LineName,
        LineFault::Limit => Cause::LineLimit,
        LineFault::Worth => Cause::CutWorth,
    }
}

/// What a cut is taken for that is worth `worth` under a form of this scale. Where it has to hold
/// for a cost, it has to be worth that.
fn taken_worth(cost: Option<u64>, scale: u64, worth: Option<u64>) -> Option<u64>
    ensures { result ≡ taken_worth cost scale worth }
{
    match (cost, worth) {
        (Some(cost), Some(worth)) => (cost <= worth).then_some(worth),
        (Some(_), None) => None,
        (None, Some(worth)) => Some(worth),
        (None, None) => (scale > 0).then_some(0),
    }
}

/// A clause is live from now on: a unit clause gives its variable a value, unless it has one.
fn hear(forms: &mut Forms, clause: &[Lit]) -> Result<(), AllocError>
    ensures { OnOk result (forms.new ≡ heard clause.now forms.old) }
{
    match clause {
        [unit] => forms.hear(*unit),
        _ => Ok(()),
    }
}

/// These clauses are live from now on.
fn hear_all(forms: &mut Forms, clauses: &ClauseList) -> Result<(), AllocError>
    ensures { OnOk result (forms.new ≡ heard_all clauses.now forms.old) }
{
    for clause in clauses.iter() {
        hear(forms, clause)?;
    }
    Ok(())
}

/// The fact, as forms name it.
fn name_fact(fact: WeightedFact) -> NamedFact
    ensures named { result ≡ fact_of fact }
    ensures small { IsFact result }
{
    NamedFact {
        weight: fact.weight(),
        is_numbered: fact.is_numbered(),
        number: fact.number(),
    }
}

/// The facts, as forms name them.
fn name_facts(names: &mut Vec<NamedFact>, facts: &[WeightedFact]) -> Result<(), AllocError>
    ensures facts { OnOk result (names.new.items ≡ map fact_of facts.now) }
    ensures small { OnOk result (All IsFact names.new.items) }
{
    names.clear();
    for fact in facts {
        names.push(name_fact(*fact))?;
    }
    Ok(())
}

/// No counts, groups or form yet: the clauses of this formula, which is that of the instance, were
/// heard.
fn forms_over(instance: &Instance, formula: &Formula) -> Result<Forms, AllocError>
    requires { formula.now ≡ weighted_cnf instance.now }
    ensures { IfOk result (λ f. f ≡ (cuts_start instance.now).forms) }
{
    instance.limits();
    let weights = weights(instance)?;
    let mut forms = Forms::new(instance.allocator(), formula.vars(), &weights)?;
    match hear_all(&mut forms, formula.clauses()) {
        Ok(()) => Ok(forms),
        Err(fault) => {
            // By a call: that is proved once, and not field by field here.
            drop(forms);
            Err(fault)
        }
    }
}

impl CutsBase {
    /// Before the first line: the clauses of the instance and of its relaxation are live.
    pub(crate) fn new(instance: &Instance) -> Result<Self, AllocError>
        ensures { IfOk result (λ b. b ≡ cuts_start instance.now) }
    {
        let formula = weighted_formula(instance)?;
        let forms = forms_over(instance, &formula)?;
        match RupBase::new(formula) {
            Ok(clauses) => Ok(CutsBase {
                clauses,
                forms,
                ended: false,
                worth: NUMBER_LIMIT,
                proved: 0,
                facts: Vec::new(instance.allocator()),
            }),
            Err(fault) => {
                // By a call: that is proved once, and not field by field here.
                drop(forms);
                Err(fault)
            }
        }
    }

    /// Whether the empty clause was added.
    pub(crate) fn has_ended(&self) -> bool
        ensures { result ≡ self.now.ended }
    {
        self.ended
    }

    /// The least that a cut so far is worth, at most 2^62.
    pub(crate) fn worth(&self) -> u64
        ensures worth { result ≡ self.now.worth }
        ensures most { result ≤ NUMBER_LIMIT }
    {
        self.worth
    }

    /// The greatest lower bound of the cost that was proved, at most 2^62.
    pub(crate) fn proved(&self) -> u64
        ensures proved { result ≡ self.now.proved }
        ensures most { result ≤ NUMBER_LIMIT }
    {
        self.proved
    }

    /// The live clause with an id, if there is one.
    pub(crate) fn find(&self, id: u64) -> Option<&[Lit]>
        ensures { option_copied result ≡ listed_at self.now.live id }
    {
        self.clauses.find(id)
    }

    /// The counts and groups, and the present form.
    pub(crate) fn forms(&self) -> &Forms
        ensures { result.now ≡ self.now.forms }
    {
        &self.forms
    }

    /// The id of the last clause that came.
    pub(crate) fn last(&self) -> u64
        ensures { result ≡ self.now.last }
    {
        self.clauses.last()
    }

    /// The counts and groups, and the present form. The live clauses are dropped.
    pub(crate) fn into_forms(self) -> Forms
        ensures { result ≡ self.forms }
    {
        self.forms
    }

    /// Says the limits of the state; it does nothing.
    pub(crate) fn limits(&self)
        ensures { self.now.forms.variables < VARIABLE_LIMIT }
    {
        self.forms.limits();
    }

    /// A clause is live from now on: a unit clause gives its variable a value, and the empty one
    /// refutes all that costs less than the cuts are worth.
    fn take(&mut self, lits: &[Lit]) -> Result<(), AllocError>
        ensures { OnOk result (self.new ≡ took lits.now self.old) }
    {
        hear(&mut self.forms, lits)?;
        self.ended = lits.is_empty();
        if self.ended && self.proved < self.worth {
            self.proved = self.worth;
        }
        Ok(())
    }

    /// A clause is live under the id that follows the last one.
    fn put(&mut self, lits: &[Lit]) -> Result<(), AllocError>
        ensures { OnOk result (self.new ≡ put (self.old.last + 1) lits.now self.old) }
    {
        self.clauses.put(lits)?;
        self.take(lits)
    }

    /// These clauses are live under the ids that follow the last one.
    fn put_all(&mut self, clauses: &ClauseList) -> Result<(), AllocError>
        ensures { OnOk result (self.new ≡ put_all clauses.now self.old) }
    {
        for clause in clauses.iter() {
            self.put(clause)?;
        }
        Ok(())
    }

    /// An addition. Answers its fault, if it has one.
    pub(crate) fn add(&mut self, line: &LineView) -> Result<Option<Cause>, AllocError>
        ensures { IfOk result (λ fault. (c : List Literal) → is_large_clause c ≡ line.now.is_large
            → (line.now.is_large ≡ false → c ≡ line.now.clause)
            → LeadsTo (judged_plain (Addition line.now.id c line.now.hints) self.old) self.new
            fault) }
    {
        let fault = self.clauses.add(line)?;
        if fault.is_none() {
            self.take(line.lits())?;
        }
        Ok(fault)
    }

    /// A deletion of the clauses with these ids. Answers its fault, if it has one.
    pub(crate) fn delete(&mut self, ids: &[SignedId]) -> Option<Cause>
        ensures { LeadsTo (judged_plain (Deletion (map (λ i. i.1) ids.now)) self.old) self.new
            result }
    {
        self.clauses.delete(ids)
    }
}

impl CutsBase {
    /// A count over the literals with `outputs` outputs, whose clauses are in `made` then. Answers
    /// the fault of the line, if it has one.
    pub(crate) fn count(
        &mut self,
        outputs: u64,
        inputs: &[Lit],
        made: &mut ClauseList,
    ) -> Result<Option<Cause>, AllocError>
        ensures judged { IfOk result (λ fault. LeadsTo
            (on_clauses self.old (count_line outputs inputs.now self.old.forms)) self.new fault) }
        ensures puts { IfOk result (λ fault. fault ≡ None → Puts self.old made.new self.new) }
    {
        if let Some(fault) = self.forms.count(outputs, inputs, made)? {
            return Ok(Some(cause_of(fault)));
        }
        self.put_all(made)?;
        Ok(None)
    }

    /// One more output of the count with this number, whose clauses are in `made` then. Answers
    /// the fault of the line, if it has one.
    pub(crate) fn more(
        &mut self,
        number: u64,
        made: &mut ClauseList,
    ) -> Result<Option<Cause>, AllocError>
        ensures judged { IfOk result (λ fault. LeadsTo
            (on_clauses self.old (more_line number self.old.forms)) self.new fault) }
        ensures puts { IfOk result (λ fault. fault ≡ None → Puts self.old made.new self.new) }
    {
        if let Some(fault) = self.forms.more(number, made)? {
            return Ok(Some(cause_of(fault)));
        }
        self.put_all(made)?;
        Ok(None)
    }

    /// A group of these literals, as the clauses with these ids say. Answers the fault of the line,
    /// if it has one.
    pub(crate) fn group(&mut self, lits: &[Lit], ids: &[u64]) -> Result<Option<Cause>, AllocError>
        ensures { IfOk result (λ fault. LeadsTo (on_forms self.old
            (group_line (listed_at self.old.live) lits.now ids.now self.old.forms)) self.new
            fault) }
    {
        let table = LiveTable {
            clauses: &self.clauses,
        };
        let fault = self.forms.group(&table, lits, ids)?;
        Ok(fault.map(cause_of))
    }

    /// A form of this scale, or where there is none the present one, less these facts. Answers the
    /// fault of the line, if it has one.
    pub(crate) fn form(
        &mut self,
        scale: Option<u64>,
        facts: &[WeightedFact],
    ) -> Result<Option<Cause>, AllocError>
        requires { IfSome scale (λ d. d < NUMBER_LIMIT) }
        ensures { IfOk result (λ fault. LeadsTo (on_forms self.old (form_line
            (listed_at self.old.live) scale (map fact_of facts.now) self.old.forms)) self.new
            fault) }
    {
        name_facts(&mut self.facts, facts)?;
        let table = LiveTable {
            clauses: &self.clauses,
        };
        let fault = self.forms.form(&table, scale, &self.facts)?;
        Ok(fault.map(cause_of))
    }

    /// A cut of these literals, which has to hold for a cost, if there is one; its clause is last
    /// in `made` then. Answers the fault of the line, if it has one.
    pub(crate) fn cut(
        &mut self,
        lits: &[Lit],
        cost: Option<u64>,
        made: &mut ClauseList,
    ) -> Result<Option<Cause>, AllocError>
        ensures judged { IfOk result
            (λ fault. LeadsTo (judged_cut cost lits.now self.old) self.new fault) }
        ensures puts { IfOk result (λ fault. fault ≡ None → Puts self.old made.new self.new) }
    {
        made.clear();
        let worth = match self.forms.cut(lits) {
            Ok(worth) => taken_worth(cost, self.forms.scale(), worth),
            Err(fault) => return Ok(Some(cause_of(fault))),
        };
        let Some(worth) = worth else {
            return Ok(Some(Cause::CutWorth));
        };
        if worth < self.worth {
            self.worth = worth;
        }
        self.put(lits)?;
        made.push(lits)?;
        Ok(None)
    }

    /// A lower bound of the cost. Answers the fault of the line, if it has one.
    pub(crate) fn bound(&mut self, lower: u64) -> Option<Cause>
        ensures { LeadsTo (judged_bound lower self.old) self.new result }
    {
        match self.forms.bound() {
            Err(fault) => return Some(cause_of(fault)),
            Ok(Some(worth)) if lower <= worth => {}
            Ok(_) => return Some(Cause::CutWorth),
        }
        let lower = if lower < self.worth {
            lower
        } else {
            self.worth
        };
        if self.proved < lower {
            self.proved = lower;
        }
        None
    }
}
