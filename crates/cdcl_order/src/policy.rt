// The policy of a search: which variable it decides, and at which value, when it restarts, when it
// deletes learned clauses, and which. A search relies on little of it, so another policy changes
// only this crate: `next` answers a literal without a value, and none only where each variable has
// one; a restart is due only after a conflict; what is chosen for deletion is any list of clauses,
// each of which the search tests.
ghost use Rattle.std.specs.Prelude.{◌≡◌, ◌<◌, ◌≤◌, true, false, All, IfOk, IfSome, IfNone};
ghost use Rattle.cnf.specs.declared.limits.TheConstants.{VARIABLE_LIMIT};
ghost use Rattle.propagate.specs.Watches.{is_attached};
ghost use Rattle.propagate.specs.Fits.{Fits};
ghost use Rattle.cdcl_order.specs.Orders.{IsOpenVariable, AreClosed};

use crate::budget::Budget;
use crate::deletions::{Candidate, choose, deletions_within, is_due};
use crate::levels::Levels;
use crate::order::Order;
use crate::phases::Phases;
use crate::restarts::Pace;
use crate::standings::{ClauseStanding, KEPT, Standings};
use crate::watch::SearchReport;
use clauses::store::{CRef, Moves, Store};
use cnf::types::Lit;
use propagate::engine::Engine;
use std::alloc::{AllocError, Global};
use std::marker::Model;

/// What a search goes by.
#[derive(Drop)]
pub struct Policy {
    // Which variable is decided next.
    order: Order,
    // At which value: saved phases.
    phases: Phases,
    // When to restart.
    pace: Pace,
    // Counts LBDs.
    levels: Levels,
    // What is known of the worth of learned clauses.
    standings: Standings,
    // How many learned clauses of more than two literals are live.
    long: usize,
    // How often clauses were chosen for deletion.
    deletions: u64,
    // How many conflicts came since then, up to 2^64 - 1.
    since: u64,
    // How many literals were put back, up to 2^64 - 1.
    undone: u64,
    // How often the search has restarted, up to 2^64 - 1.
    restarts: u64,
}

impl Model for Policy {
    ghost use Rattle.std.specs.Prelude.{◌≡◌, ◌+◌, nat_lt, length};
    ghost use Rattle.cdcl_order.specs.Policies.{PolicyState};

    ghost Value = { PolicyState };

    ghost view = { λ p. record {
      variables = p.order;
      has_learned = nat_lt 0 p.pace.conflicts;
    } };

    ghost invariant = { λ p. (length p.phases.last ≡ p.order)
        × (length p.levels.stamps ≡ p.order + 1) };
}

impl Policy {
    /// The policy of a search over the variables from 1 to `variables` before it has learned
    /// anything.
    ///
    /// # Errors
    ///
    /// `AllocError` where memory was refused.
    pub fn new(alloc: Global, variables: u32) -> Result<Self, AllocError>
        requires { variables < VARIABLE_LIMIT }
        ensures { IfOk result (λ p. p ≡ record { variables = variables; has_learned = false }) }
    {
        let order = Order::new(alloc, variables)?;
        let phases = Phases::new(alloc, variables)?;
        let levels = Levels::new(alloc, variables)?;
        Ok(Policy {
            order,
            phases,
            pace: Pace::new(),
            levels,
            standings: Standings::new(alloc),
            long: 0,
            deletions: 0,
            since: 0,
            undone: 0,
            restarts: 0,
        })
    }

    /// A hint: the variable starts at the share that its weight has of the greatest weight so far.
    /// One that is not of the policy is ignored.
    pub fn weigh(&mut self, variable: u32, weight: u64)
        ensures same_view { self.new ≡ self.old }
    {
        self.order.weigh(variable, weight);
    }

    /// A hint: decisions try these values first, by variable from 1, until a variable has another.
    /// Variables without one keep theirs, and values of no variable are ignored.
    pub fn suggest(&mut self, values: &[bool])
        ensures same_view { self.new ≡ self.old }
    {
        self.phases.suggest(values);
    }

    /// A search begins.
    pub fn begin(&mut self)
        ensures { self.new ≡ record self.old { has_learned = false } }
    {
        self.pace = Pace::new();
    }

    /// The literal is not true any more, so its variable may be decided again.
    #[inline]
    pub fn put_back(&mut self, lit: Lit)
        requires { lit.variable ≤ self.old.variables }
        ensures same_view { self.new ≡ self.old }
    {
        let variable = lit.variable();
        self.undone = self.undone.saturating_add(1);
        self.phases.save(lit);
        self.order.put_back(variable);
    }

    /// The literal to decide; none where each variable has a value.
    pub fn next(&mut self, engine: &Engine) -> Option<Lit>
        requires { engine.now.variables ≡ self.old.variables }
        ensures some { IfSome result
            (λ l. IsOpenVariable engine.now.trail self.old.variables l.variable) }
        ensures none { IfNone result (AreClosed engine.now.trail self.old.variables) }
        ensures same_view { self.new ≡ self.old }
    {
        match self.order.next(engine) {
            Some(variable) => Some(Lit::new(variable, !self.phases.value(variable))),
            None => {
                self.phases.keep_solution(engine.trail());
                None
            }
        }
    }

    /// These variables are bumped: the analysis of a conflict met them, or they stand in the
    /// reasons of the literals of the clause that it taught.
    pub fn bump(&mut self, variables: &[u32])
        ensures same_view { self.new ≡ self.old }
    {
        self.order.bump_all(variables);
    }

    /// A conflict taught a clause: by these reasons, the conflict among them. The variables of its
    /// analysis were bumped before. The engine is still as it was at the conflict. It answers the
    /// clause's LBD: the number of levels above 0 among its literals.
    pub fn learn_from(
        &mut self,
        engine: &Engine,
        store: &Store,
        reasons: &[CRef],
        lits: &[Lit],
    ) -> u32
        requires variables { engine.now.variables ≡ self.old.variables }
        requires fits { Fits engine.now store.now.slots }
        requires attached { All (λ r. is_attached engine.now r ≡ true) reasons.now }
        requires within { All (λ l. l.variable ≤ engine.now.variables) lits.now }
        ensures { self.new ≡ record self.old { has_learned = true } }
    {
        self.order.decay();
        self.phases.count();
        self.pace.count();
        self.since = self.since.saturating_add(1);
        for reason in reasons {
            self.note_use(engine, store, *reason);
        }
        self.levels.count_lbd(engine, lits)
    }

    /// The clause served in an analysis. Its LBD is counted again where it may be less now.
    fn note_use(&mut self, engine: &Engine, store: &Store, reference: CRef)
        requires variables { engine.now.variables ≡ self.old.variables }
        requires fits { Fits engine.now store.now.slots }
        requires attached { is_attached engine.now reference ≡ true }
        ensures same_view { self.new ≡ self.old }
    {
        let standing = self.standings.get(reference);
        if !standing.is_known() {
            return;
        }
        let mut lbd = standing.lbd;
        if lbd > KEPT {
            lbd = lbd.min(self.levels.count_lbd(engine, store.lits(reference)));
        }
        self.standings.set(reference, ClauseStanding::fresh(lbd));
    }

    /// The learned clause came to the store, with `length` literals, and this LBD.
    pub fn note_learned(&mut self, reference: CRef, length: usize, lbd: u32)
        ensures same_view { self.new ≡ self.old }
    {
        if length > 2 {
            self.long = self.long.saturating_add(1);
        }
        self.standings.add(reference, ClauseStanding::fresh(lbd));
    }

    /// A clause that stays came to the search.
    pub fn note_kept(&mut self, reference: CRef)
        ensures same_view { self.new ≡ self.old }
    {
        self.standings.add(reference, ClauseStanding::fresh(0));
    }

    /// Whether it is time to restart.
    pub fn is_restart_due(&self) -> bool
        ensures { result ≡ true → self.now.has_learned ≡ true }
    {
        self.pace.is_due()
    }

    /// The search has restarted: no level is left but those of assumptions.
    pub fn restart(&mut self)
        ensures { self.new ≡ record self.old { has_learned = false } }
    {
        self.pace.restart();
        self.phases.restart();
        self.restarts = self.restarts.saturating_add(1);
    }

    /// How far the search has come.
    pub fn report(&self, budget: &Budget) -> SearchReport
        ensures conflicts { result.conflicts ≡ budget.now.learned }
    {
        SearchReport {
            conflicts: budget.learned(),
            propagations: self.undone,
            learned: self.long,
            restarts: self.restarts,
        }
    }

    /// How much the variable stood in conflicts, the later ones counting more, in units of what the
    /// next one counts; 0 where it is none of the search.
    pub fn activity(&self, variable: u32) -> f64 {
        self.order.activity(variable)
    }

    /// How many literals were assigned and are so no more: a measure of work.
    pub fn propagations(&self) -> u64 {
        self.undone
    }

    /// The search goes on with one that has had so many conflicts: from now on deletions come as
    /// late as there. As often as at a beginning, they would leave it half of its clauses.
    pub fn count_earlier(&mut self, conflicts: u64)
        ensures same_view { self.new ≡ self.old }
    {
        self.deletions = deletions_within(conflicts);
        self.since = 0;
    }

    /// Whether it is time to delete learned clauses.
    pub fn is_deletion_due(&self) -> bool {
        is_due(self.since, self.deletions)
    }

    /// Those to delete of these learned clauses, the older first, of more than two literals each.
    ///
    /// # Errors
    ///
    /// `AllocError` where memory was refused.
    pub fn choose(
        &mut self,
        alloc: Global,
        candidates: &[Candidate],
    ) -> Result<Vec<CRef>, AllocError>
        ensures same_view { self.new ≡ self.old }
    {
        self.deletions = self.deletions.saturating_add(1);
        self.since = 0;
        choose(alloc, &mut self.standings, candidates)
    }

    /// A learned clause of more than two literals was deleted.
    pub fn count_deleted(&mut self)
        ensures same_view { self.new ≡ self.old }
    {
        self.long = self.long.saturating_sub(1);
    }

    /// The clauses have new references.
    pub fn rename(&mut self, moves: &Moves)
        ensures same_view { self.new ≡ self.old }
    {
        self.standings.rename(moves.pairs());
    }
}
