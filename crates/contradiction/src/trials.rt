// Whether some of the hard clauses contradict each other, by a run of the solver on them alone,
// whose certificate is checked.
ghost use Rattle.std.specs.Prelude.{◌≡◌, ◌+◌, ◌<◌, ◌≤◌, [], All, IfOk, IsTrue, length};
ghost use Rattle.cnf.specs.declared.limits.TheConstants.{MOST_PLACES, NUMBER_LIMIT};
ghost use Rattle.lrat_log.specs.Log.{HasSmallIds};
ghost use Rattle.contradiction.specs.Contradictions.{IsTrueTrial, IsRefuted, clauses_at};

use bound::formulas::hard_formula;
use cdcl::budget::Budget;
use cdcl::outcome::Outcome;
use cdcl::solver::Solver;
use cnf::clause_list::ClauseList;
use cnf::types::{Formula, Instance, Lit};
use lrat_check::certificate::check_lines;
use lrat_check::verdicts::Verdict;
use lrat_log::log::{Log, render};
use lrat_log::sink::Sink;
use std::alloc::{AllocError, Global};
use text::output::{Block, WriteFault};
use wcnf::reading::read;

/// What a run on some clauses comes to.
#[derive(Drop)]
pub(crate) enum Trial {
    /// They contradict each other: the certificate.
    Contradiction(Vec<u8>),
    /// These bits satisfy them.
    Solution(Vec<bool>),
    /// The effort was not enough.
    Open,
}

/// What is left to spend.
#[derive(Drop)]
pub(crate) struct Effort {
    // How many clauses may be learned.
    learned: u64,
    // How many a single run may learn, at most.
    most: u64,
    // How many literals and clauses may be read.
    literals: u64,
}

/// How many clauses may be learned until all hard clauses are refuted.
const LEARNED_OF_ALL: u64 = 300_000;

/// How many clauses may be learned while clauses are left out, and by one run.
const LEARNED: u64 = 200_000;

const LEARNED_BY_ONE: u64 = 20_000;

/// How many literals and clauses may be read while clauses are left out.
const LITERALS: u64 = 50_000_000;

impl Effort {
    /// Enough to read all hard clauses once.
    pub(crate) fn of_all() -> Self {
        Effort {
            learned: LEARNED_OF_ALL,
            most: LEARNED_OF_ALL,
            literals: u64::MAX,
        }
    }

    /// That of leaving clauses out.
    pub(crate) fn of_shrinking() -> Self {
        Effort {
            learned: LEARNED,
            most: LEARNED_BY_ONE,
            literals: LITERALS,
        }
    }

    /// Runs the solver on the hard clauses at these places.
    pub(crate) fn try_clauses(
        &mut self,
        instance: &Instance,
        places: &[u32],
    ) -> Result<Trial, AllocError>
        ensures { IfOk result (λ trial. IsTrueTrial instance.now places.now trial) }
    {
        let size = size_of(instance.hard(), places);
        if size > self.literals {
            self.literals = 0;
            return Ok(Trial::Open);
        }
        self.literals -= size;
        let limit = self.learned.min(self.most).min(LEARNED_OF_ALL);
        let mut budget = Budget::new(limit);
        let trial = try_within(instance, places, &mut budget)?;
        self.learned = self.learned.saturating_sub(budget.learned());
        Ok(trial)
    }
}

/// How many literals and clauses there are at these places.
fn size_of(hard: &ClauseList, places: &[u32]) -> u64 {
    let mut size: u64 = 0;
    for place in places {
        size = size.saturating_add(1);
        if (*place as usize) < hard.len() {
            size = size.saturating_add(hard.get(*place as usize).len() as u64);
        }
    }
    size
}

/// Runs the solver on the hard clauses at these places, within this budget. The text is read back,
/// and the clauses are compared: so nothing rests on how they are spelled.
fn try_within(instance: &Instance, places: &[u32], budget: &mut Budget) -> Result<Trial, AllocError>
    ensures { IfOk result (λ trial. IsTrueTrial instance.now places.now trial) }
{
    let alloc = instance.allocator();
    let text = spell(alloc, instance.hard(), places)?;
    let Ok(part) = read(alloc, &text) else {
        return Err(AllocError);
    };
    part.limits();
    if !are_same(part.hard(), instance.hard(), places) {
        return Ok(Trial::Open);
    }
    run_on(&part, budget)
}

/// Runs the solver on the hard clauses, and checks its certificate: it has to refute them.
fn run_on(instance: &Instance, budget: &mut Budget) -> Result<Trial, AllocError>
    ensures { IfOk result (IsRefuted instance.now) }
{
    let formula = hard_formula(instance)?;
    match solve(&formula, budget)? {
        Trial::Contradiction(proof) => match check_lines(&formula, &proof)? {
            Verdict::Yes => Ok(Trial::Contradiction(proof)),
            Verdict::No(_, _) => Ok(Trial::Open),
        },
        Trial::Solution(bits) => Ok(Trial::Solution(bits)),
        Trial::Open => Ok(Trial::Open),
    }
}

/// What the solver says of these clauses, with the text of its certificate, which is not checked
/// yet.
fn solve(formula: &Formula, budget: &mut Budget) -> Result<Trial, AllocError> {
    let mut solver = solver_of(formula)?;
    let answer = solver.solve(budget);
    let clauses = solver.given().len() as u64;
    // The log is dropped by calls: that is proved once, and not field by field here.
    let log = solver.into_sink();
    match answer {
        Ok(Outcome::Unsat) => spell_refutation(log, clauses),
        Ok(Outcome::Sat(bits)) => {
            drop(log);
            Ok(Trial::Solution(bits))
        }
        Ok(Outcome::Limit) => {
            drop(log);
            Ok(Trial::Open)
        }
        Err(_) => {
            drop(log);
            Err(AllocError)
        }
    }
}

/// A solver of these clauses.
fn solver_of(formula: &Formula) -> Result<Solver<Log>, AllocError>
    ensures { IfOk result (λ s. (s.formula ≡ formula.now) × (s.added ≡ [])) }
{
    let alloc = formula.allocator();
    let frozen = Vec::from_elem(alloc, false, formula.vars() as usize)?;
    Solver::of(formula.try_clone()?, frozen, Log::new(alloc))
}

/// The text of the log, over so many clauses, as the certificate of a contradiction.
fn spell_refutation(log: Log, clauses: u64) -> Result<Trial, AllocError>
    requires few { clauses ≤ MOST_PLACES }
    requires ids { clauses + length log < NUMBER_LIMIT → HasSmallIds clauses log }
{
    log.is_short();
    let text = render(&log, clauses);
    drop(log);
    Ok(Trial::Contradiction(text?))
}

/// Whether the clauses of the part are those at these places, in their order.
fn are_same(part: &ClauseList, hard: &ClauseList, places: &[u32]) -> bool
    ensures clauses { IsTrue result → part.now ≡ clauses_at hard.now places.now }
    ensures within { IsTrue result → All (λ k. k < length hard.now) places.now }
{
    let mut rest = part.iter();
    for place in places {
        let Some(clause) = rest.next() else {
            return false;
        };
        if *place as usize >= hard.len() || !is_same(clause, hard.get(*place as usize)) {
            return false;
        }
    }
    rest.next().is_none()
}

/// Whether the clauses have the same literals in one order.
fn is_same(clause: &[Lit], other: &[Lit]) -> bool
    ensures { IsTrue result → clause.now ≡ other.now }
{
    clause == other
}

/// A text with the hard clauses at these places alone.
fn spell(alloc: Global, hard: &ClauseList, places: &[u32]) -> Result<Vec<u8>, AllocError> {
    let mut text = Vec::new(alloc);
    match put_clauses(&mut text, hard, places) {
        Ok(()) => Ok(text),
        Err(WriteFault) => Err(AllocError),
    }
}

/// Writes these clauses, each on a line.
fn put_clauses(text: &mut Vec<u8>, hard: &ClauseList, places: &[u32]) -> Result<(), WriteFault> {
    let mut block = Block::new();
    for place in places {
        if (*place as usize) < hard.len() {
            block.put(text, b"h ")?;
            for lit in hard.get(*place as usize) {
                block.put_spaced(text, *lit)?;
            }
            block.put(text, b"0\n")?;
        }
    }
    block.flush(text)
}
