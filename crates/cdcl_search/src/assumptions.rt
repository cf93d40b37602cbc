// A guide that assumes literals: they are decided first, in their order, one level each, and a
// restart keeps these levels. Where one is false, the search stops there, for whoever wants to know
// why; or it is passed over, as long as there is room for what explains it.
ghost use Rattle.std.specs.Prelude.{◌≡◌, []};

use crate::guide::{Advice, Guide};
use crate::search::Search;
use cnf::clause_list::ClauseList;
use cnf::types::Lit;
use propagate::engine::Engine;
use std::alloc::{AllocError, Global};
use std::marker::Model;

/// How much one search under assumptions may do beside its budget.
#[derive(Clone, Copy, Debug, PartialEq, Eq, Drop)]
pub struct Share {
    /// It stops where no clause is false or unit and it has learned more clauses than this;
    /// `u64::MAX` sets no bound.
    pub learned: u64,
    /// How many decisions it may make beside the assumptions until it goes back; `u64::MAX` sets no
    /// bound.
    pub decisions: u64,
    /// It stops once the search has more propagations than this in all, as its policy counts them;
    /// `u64::MAX` sets no bound.
    pub until: u64,
}

/// Assumptions that a search skipped, as they are false where others hold. No answer depends on it.
#[derive(Drop)]
pub struct Passed {
    /// For each of them a clause that explains it, as far as the search saw: negations of
    /// assumptions, its own among them.
    pub clauses: ClauseList,
    /// How many literals such clauses may still take: where none is left, no assumption is passed
    /// over.
    pub room: usize,
}

impl Passed {
    /// None, with room for clauses of `room` literals together, the last of which may be longer.
    pub fn new(alloc: Global, room: usize) -> Self
        ensures { (result.clauses ≡ []) × (result.room ≡ room) }
    {
        Passed {
            clauses: ClauseList::new(alloc),
            room,
        }
    }
}

/// Literals to assume, and how far a search under them has come. It stops the search where one of
/// them is false or not there, where its share is spent, and where all are true but for those that
/// it passed over.
#[derive(Drop)]
pub struct Assumptions {
    // The literals, in the order in which they are decided.
    lits: Vec<Lit>,
    // Those before this place are true or were passed over, unless levels were undone since.
    next: usize,
    // By level, that of 1 first, as far as assumptions opened them: the place of that assumption.
    opened: Vec<usize>,
    // What the search may do.
    share: Share,
    // How many clauses it has learned, up to 2^64 - 1.
    learned: u64,
    // How many decisions beside the assumptions are left until the search goes back.
    decisions: u64,
    // Those that were passed over, and how much more may be.
    passed: Passed,
    // The assumption that was false when it last stopped the search; none if it did so otherwise.
    falsified: Option<Lit>,
}

impl Model for Assumptions {
    ghost use Rattle.std.specs.Prelude.{List};
    ghost use Rattle.cnf.specs.Literal.{Literal};

    ghost Value = { List Literal };

    ghost view = { λ a. a.lits.items };
}

impl Assumptions {
    /// These literals, of which none was decided. The search stops at the first fixpoint at which
    /// it has learned more clauses than its share has, so that a share of none lets it propagate
    /// all of them, up to a conflict.
    pub fn new(alloc: Global, lits: Vec<Lit>, share: Share, passed: Passed) -> Self
        ensures { result ≡ lits.items }
    {
        Assumptions {
            lits,
            next: 0,
            opened: Vec::new(alloc),
            share,
            learned: 0,
            decisions: share.decisions,
            passed,
            falsified: None,
        }
    }

    /// The literals, in the order in which they are decided.
    pub fn lits(&self) -> &[Lit]
        ensures { result.now ≡ self.now }
    {
        self.lits.as_slice()
    }

    /// The assumption at which it stopped the search, as it was false; none if it stopped it
    /// otherwise.
    pub fn falsified(&self) -> Option<Lit> {
        self.falsified
    }

    /// The assumptions that were passed over.
    pub fn passed(&self) -> &Passed {
        &self.passed
    }

    /// The assumptions that were passed over, once it is done with.
    pub fn into_passed(self) -> Passed {
        self.passed
    }

    /// Of the assumptions that opened levels those up to this level are left.
    fn forget(&mut self, level: u32)
        ensures same_view { self.new ≡ self.old }
    {
        if let Some(first) = self.opened.get(level as usize) {
            self.next = *first;
            self.opened.truncate(level as usize);
        }
    }

    /// What it says where an assumption is false.
    fn at_false(&mut self, lit: Lit) -> Advice
        ensures same_view { self.new ≡ self.old }
    {
        if self.passed.room > 0 {
            return Advice::Explain(lit);
        }
        if self.passed.clauses.len() == 0 {
            self.falsified = Some(lit);
        }
        Advice::Stop
    }

    /// What it says where all assumptions are true, but for those that were passed over.
    fn beside(&mut self, search: &Search) -> Advice
        ensures same_view { self.new ≡ self.old }
    {
        if self.passed.clauses.len() > 0 {
            return Advice::Stop;
        }
        let variables = search.engine.variables() as usize;
        if self.decisions == 0 && search.engine.assigned() < variables {
            return Advice::Stop;
        }
        self.decisions = self.decisions.saturating_sub(1);
        Advice::Free
    }

    /// What it says of its next assumption.
    fn follow(&mut self, search: &Search) -> Result<Advice, AllocError>
        ensures same_view { self.new ≡ self.old }
    {
        self.next = untrue_from(&search.engine, self.lits.as_slice(), self.next);
        if self.next >= self.lits.len() {
            return Ok(self.beside(search));
        }
        let lit = self.lits[self.next];
        if lit.variable() > search.engine.variables() {
            return Ok(Advice::Stop);
        }
        if search.engine.value(lit) == Some(false) {
            return Ok(self.at_false(lit));
        }
        self.opened.push(self.next)?;
        Ok(Advice::Decide(lit))
    }
}

/// The first place from this one on at which a literal is not true, or is not there; their number
/// where there is none.
fn untrue_from(engine: &Engine, lits: &[Lit], from: usize) -> usize {
    for place in from..lits.len() {
        let lit = lits[place];
        if lit.variable() > engine.variables() || engine.value(lit) != Some(true) {
            return place;
        }
    }
    lits.len()
}

impl Guide for Assumptions {
    ghost follows = { λ a b. b ≡ a };

    fn advise(&mut self, search: &Search) -> Result<Advice, AllocError> {
        self.falsified = None;
        self.forget(search.engine.depth());
        if self.learned > self.share.learned || search.policy.propagations() > self.share.until {
            return Ok(Advice::Stop);
        }
        self.follow(search)
    }

    fn explained(&mut self, _falsified: Lit, clause: &[Lit]) -> Result<(), AllocError> {
        self.next = self.next.saturating_add(1);
        self.passed.room = self.passed.room.saturating_sub(clause.len());
        self.passed.clauses.push(clause)
    }

    fn went_back(&mut self, _assigned: usize) {
        self.decisions = self.share.decisions;
    }

    fn learned(&mut self) {
        self.learned = self.learned.saturating_add(1);
    }

    fn kept_levels(&self) -> usize {
        self.opened.len()
    }
}
