//! The solver of the search by forms and cuts.
//!
//! Whoever searches proposes lines: a count, one more of its outputs, a form, a cut, a bound. The
//! log takes them where they are right and refuses them else, and the clauses that it makes of them
//! go to the engine at once. So no proof rests on what is proposed.
ghost use Rattle.std.specs.Prelude.{◌≡◌, ◌+◌, ◌<◌, ◌≤◌, true, false, min};
ghost use Rattle.std.specs.Prelude.{IfNone, IfOk, IfSome, Some, None, map};
ghost use Rattle.adder.specs.Parts.{weight_in};
ghost use Rattle.bound.specs.Weighted.{weights_of};
ghost use Rattle.cnf.specs.declared.limits.TheConstants.{NUMBER_LIMIT};
ghost use Rattle.propagate.specs.Trail.{level_in, value_in};
ghost use Rattle.cdcl.specs.declared.guided.GuidedEnd.TheVariants.{Refuted};
ghost use Rattle.lrat_cuts.specs.Cuts.{cuts_start};
ghost use Rattle.cuts_log.specs.Starts.{IsReached};

mod proposing;
mod resuming;
mod searching;
mod writing;

pub use crate::solver::resuming::{IDS_A_LINE, IDS_OF_COUNTS, LINES_A_CONFLICT, conflicts_before};
use crate::solver::resuming::{has_leaps, start_behind};
use adder::relaxations::Relaxation;
use cdcl::whole::{MOST_ROOM, start_whole};
use cdcl_search::input::Input;
use cdcl_search::search::Search;
use cnf::clause_list::ClauseList;
use cnf::marks::Marks;
use cnf::types::{Instance, Lit};
use cuts_log::log::{Begun, CutsLog};
use forms::state::Forms;
use lrat_cuts::machine::CutsMachine;
use std::alloc::{AllocError, Global};
use std::io::Write;
use std::marker::Model;

/// How a search ended.
#[derive(Drop)]
pub enum SolverEnd {
    /// These bits, one for each variable from 1, begin with a solution of the instance. Something
    /// is left of the budget.
    Satisfied(Vec<bool>),
    /// The empty clause was added: nothing costs less than the cost that cuts have to hold for.
    Refuted,
    /// The guide stopped it.
    Stopped,
    /// Nothing is left of the budget.
    Spent,
}

/// How a search under assumptions ended.
#[derive(Drop)]
pub enum Assumed {
    /// As `SolverEnd::Satisfied`.
    Satisfied(Vec<bool>),
    /// As `SolverEnd::Refuted`.
    Refuted,
    /// These assumptions cannot hold together. A clause of the log says so.
    Core(Vec<Lit>),
    /// It was stopped otherwise: what is passed over is in `Assumptions::passed`.
    Stopped,
    /// Nothing is left of the budget.
    Spent,
}

/// What a solver has written.
#[derive(Drop)]
pub struct Written<W: Write> {
    /// Where the certificate went.
    pub writer: W,
    /// Whether it has all lines. Else memory was refused or a write has failed, and it has a
    /// beginning of them.
    pub is_whole: bool,
}

/// A solver before its first line, and what was made on the way.
#[derive(Drop)]
pub struct Started<W: Write> {
    /// The solver.
    pub solver: CutsSolver<W>,
    /// What each soft clause costs, by `bound::weighted::weights`.
    pub weights: Vec<Relaxation>,
}

/// A solver over the hard clauses and the relaxed soft ones of an instance, and the certificate
/// that its log is.
#[derive(Drop)]
pub struct CutsSolver<W: Write> {
    // What it works on; after `refuted` or `failed` it is not used.
    search: Search,
    // The clauses of the formula.
    input: Input,
    // What it has written.
    log: CutsLog<W>,
    // The clauses of the last count, on their way to the engine.
    made: ClauseList,
    // For the literals of a cut.
    marks: Marks,
    // Whether the empty clause was added. It stays so.
    refuted: bool,
    // Whether memory was refused, or the writer has failed. It stays so.
    failed: bool,
}

impl<W: Write> Model for CutsSolver<W> {
    ghost use Rattle.cuts_solver.specs.Solving.{IsSolver, SolverState};
    ghost use Rattle.std.specs.Coded.{codes};
    ghost use Rattle.totalizer.specs.TreeCode.{tree_code};

    ghost Value = { SolverState };

    ghost coded = { Prim.hlevel (codes, tree_code) };

    ghost view = { λ s. record {
      search = s.search;
      input = s.input;
      log = s.log;
      refuted = s.refuted;
      failed = s.failed;
    } };

    ghost invariant = { λ s. IsSolver (record {
      search = s.search;
      input = s.input;
      log = s.log;
      refuted = s.refuted;
      failed = s.failed;
    }) };
}

impl<W: Write + Drop> CutsSolver<W> {
    ghost use Rattle.cuts_solver.specs.Solving.{CanResume, IsLeast, instance_of};
    ghost use Rattle.cuts_log.specs.Logs.{start_of};

    /// The solver of an instance, with `room` variables to count with; it takes 2^20 of them at
    /// most. Cuts have to hold in all solutions, until there is one.
    ///
    /// # Errors
    ///
    /// `AllocError` where memory was refused.
    pub fn new(instance: &Instance, room: u32, writer: W) -> Result<Started<W>, AllocError>
        ensures problem { IfOk result (λ s. instance_of s.solver ≡ instance.now) }
        ensures start { IfOk result (λ s. start_of s.solver.log ≡ cuts_start instance.now) }
        ensures origin { IfOk result
            (λ s. (((s.solver.log).book).seen).origin ≡ W.contents writer) }
        ensures cost { IfOk result (λ s. (s.solver.log).cost ≡ NUMBER_LIMIT) }
        ensures works { IfOk result
            (λ s. (s.solver.refuted ≡ false) × (s.solver.failed ≡ false)) }
        ensures weights { IfOk result
            (λ s. map weight_in s.weights.items ≡ weights_of instance.now) }
    {
        instance.limits();
        let Begun {
            log,
            formula,
            weights,
        } = CutsLog::begin(instance, writer)?;
        let Ok((search, input)) = start_whole(formula, room.min(MOST_ROOM)) else {
            // By calls: that is proved once, and not field by field here.
            drop(weights);
            drop(log);
            return Err(AllocError);
        };
        let solver = CutsSolver {
            search,
            input,
            log,
            made: ClauseList::new(instance.allocator()),
            marks: Marks::empty(instance.allocator()),
            refuted: false,
            failed: false,
        };
        Ok(Started { solver, weights })
    }

    /// The solver of an instance that goes on with what a checker has judged, for a writer that
    /// puts its lines behind that; its room is that of `new`. Cuts have to hold in the solutions
    /// for which those before hold. None just where `CutsLog::resume` answers that, where a live
    /// clause behind the formula has no literals, one variable twice, or one for which there is no
    /// room, and where ids leap far ahead of the lines: an id costs a look, whether a clause has it
    /// or not.
    ///
    /// # Errors
    ///
    /// `AllocError` where memory was refused, or where ids would be 2^61 or more.
    pub fn resume(
        instance: &Instance,
        machine: CutsMachine,
        room: u32,
        writer: W,
    ) -> Result<Option<Self>, AllocError>
        requires reached { IsReached instance.now machine.state }
        ensures problem { IfOk result (λ found. IfSome found
            (λ s. instance_of s ≡ instance.now)) }
        ensures start { IfOk result (λ found. IfSome found (λ s. start_of s.log ≡ machine.state)) }
        ensures origin { IfOk result (λ found. IfSome found
            (λ s. ((s.log.book).seen).origin ≡ W.contents writer)) }
        ensures cost { IfOk result (λ found. IfSome found
            (λ s. (s.log).cost ≡ machine.state.worth)) }
        ensures works { IfOk result (λ found. IfSome found
            (λ s. (s.refuted ≡ false) × (s.failed ≡ false))) }
        ensures can { IfOk result (λ found. IfSome found
            (λ _. CanResume instance.now machine room)) }
        ensures refused { IfOk result (λ found. IfNone found
            (CanResume instance.now machine room → ⊥)) }
    {
        instance.limits();
        let alloc = instance.allocator();
        if has_leaps(instance, &machine) {
            drop(machine);
            drop(writer);
            return Ok(None);
        }
        let begun = start_behind(instance, &machine, room);
        let resumed = CutsLog::resume(instance, machine, writer);
        // By a call where one is dropped: that is proved once, and not field by field here.
        let log = match resumed {
            Ok(Some(log)) => log,
            Ok(None) => {
                drop(begun);
                return Ok(None);
            }
            Err(AllocError) => {
                drop(begun);
                return Err(AllocError);
            }
        };
        let (search, input) = match begun {
            Ok(Some(pair)) => pair,
            Ok(None) => {
                drop(log);
                return Ok(None);
            }
            Err(AllocError) => {
                drop(log);
                return Err(AllocError);
            }
        };
        Ok(Some(CutsSolver {
            search,
            input,
            log,
            made: ClauseList::new(alloc),
            marks: Marks::empty(alloc),
            refuted: false,
            failed: false,
        }))
    }

    /// Says what holds of each solver; it does nothing. `Instance::limits` has the reason.
    pub fn limits(&self)
        ensures least { self.now.refuted ≡ true → IsLeast self.now.log }
    {
        let _ = &self.refuted;
    }

    /// What the lines so far leave: counts and the present form. After a failure it means nothing.
    pub fn forms(&self) -> &Forms
        ensures { result.now ≡ self.now.log.standing.forms }
    {
        self.log.forms()
    }

    /// The last variable that the engine has: no count gets a greater one.
    pub fn last(&self) -> u32
        ensures { result ≡ self.now.search.engine.variables }
    {
        self.search.engine.variables()
    }

    /// What its memory comes from.
    pub fn allocator(&self) -> Global {
        self.search.store.allocator()
    }

    /// Whether the empty clause was added: nothing costs less than the cost that cuts have to hold
    /// for.
    pub fn is_refuted(&self) -> bool
        ensures { result ≡ self.now.refuted }
    {
        self.refuted
    }

    /// Whether a write has failed.
    pub fn has_write_failed(&self) -> bool
        ensures { result ≡ self.now.log.book.out.failed }
    {
        self.log.has_write_failed()
    }

    /// How many literals the searches have assigned, but for those with a value now: a measure
    /// of work.
    pub fn propagations(&self) -> u64 {
        self.search.policy.propagations()
    }

    /// The value of the literal at level 0, where it has one there.
    pub fn fixed(&self, lit: Lit) -> Option<bool>
        ensures fixed { level_in self.now.search.engine.trail lit.variable ≡ Some 0
            → lit.variable ≤ self.now.search.engine.variables
            → result ≡ value_in self.now.search.engine.trail lit }
        ensures above { (level_in self.now.search.engine.trail lit.variable ≡ Some 0 → ⊥)
            → result ≡ None }
        ensures beyond { self.now.search.engine.variables < lit.variable → result ≡ None }
    {
        if lit.variable() > self.last() || self.search.engine.level(lit.variable()) != Some(0) {
            return None;
        }
        self.search.engine.value(lit)
    }

    /// The value of the literal where the last search has ended, if it has one.
    pub fn value(&self, lit: Lit) -> Option<bool>
        ensures here { lit.variable ≤ self.now.search.engine.variables
            → result ≡ value_in self.now.search.engine.trail lit }
        ensures beyond { self.now.search.engine.variables < lit.variable → result ≡ None }
    {
        if lit.variable() > self.last() {
            return None;
        }
        self.search.engine.value(lit)
    }

    /// From now on cuts have to hold in the solutions that cost less than this, if it is less than
    /// what they had to hold for.
    pub fn set_cost(&mut self, cost: u64)
        ensures { self.new ≡ record self.old {
          log = record self.old.log { cost = min cost self.old.log.cost };
        } }
    {
        self.log.set_cost(cost);
    }

    /// Decisions try these values first, by variable from 1, until a variable has another.
    pub fn suggest(&mut self, values: &[bool])
        ensures { self.new ≡ record self.old { search = self.new.search } }
    {
        if !self.failed && !self.refuted {
            self.search.suggest(values);
        }
    }

    /// Whether a line may be proposed: not once the empty clause was added.
    ///
    /// # Errors
    ///
    /// `AllocError` where the solver has failed.
    fn is_open(&self) -> Result<bool, AllocError>
        ensures works { IfOk result (λ _. self.now.failed ≡ false) }
        ensures open_end { IfOk result (λ ready. ready ≡ true → self.now.refuted ≡ false) }
        ensures end { IfOk result (λ ready. ready ≡ false → self.now.refuted ≡ true) }
    {
        if self.failed {
            return Err(AllocError);
        }
        Ok(!self.refuted)
    }

    /// Whether `more` variables more would be variables of the engine.
    fn has_room(&self, more: u64) -> bool {
        (self.log.forms().variables() as u64).saturating_add(more) <= self.last() as u64
    }
}
