// The state of a search, and the moves of its engine.
ghost use Rattle.std.specs.Prelude.{◌≡◌, true, false, ◌+◌, ◌<◌, ◌≤◌, [], ◌∷◌, ◌++◌, Some, None};
ghost use Rattle.std.specs.Prelude.{length, min, All, IfOk, OnOk, IfSome, IfNone};
ghost use Rattle.cnf.specs.declared.limits.TheConstants.{VARIABLE_LIMIT};
ghost use Rattle.propagate.specs.Trail.{literals_of, depth_of, kept_to};
ghost use Rattle.propagate.specs.Watches.{is_attached, IsBare};
ghost use Rattle.propagate.specs.Fits.{IsFalseClause, IsWithin, GrowsByUnits};
ghost use Rattle.analyze.specs.Analyzer.{IsFixpoint};
ghost use Rattle.cdcl_order.specs.Orders.{IsOpenVariable, AreClosed};
ghost use Rattle.cdcl_search.specs.Running.{CanDecide, EngineMoves, IsReady, KeepsRunning, MovesTo};
ghost use Rattle.cdcl_search.specs.Moves.{KeepsState};

use crate::subsets::Subsets;
use analyze::analyzer::{Analyzer, Learned};
use cdcl_order::policy::Policy;
use clauses::store::{CRef, MaybeCRef, Store};
use cnf::types::Lit;
use lrat_log::packed_name::PackedName;
use propagate::engine::Engine;
use std::alloc::{AllocError, Global};

/// What a search works on, between its moves.
#[derive(Drop)]
pub struct Search {
    /// The live clauses.
    pub store: Store,
    /// The trail. All live clauses are attached.
    pub engine: Engine,
    /// The name of the clause in each place of the store.
    pub names: Vec<PackedName>,
    /// By variable, that of 1 first: the reference of the clause of one literal that it has from
    /// level 0, or none.
    pub units: Vec<MaybeCRef>,
    /// How many literals of level 0 have such a clause: the first ones of the trail.
    pub noted: usize,
    /// How many additions elimination made, at most `additions`. Their clauses are never deleted,
    /// nor are those given.
    pub kept: u64,
    /// How many additions the log has, below 2^61.
    pub additions: u64,
    /// By variable, that of 1 first: the number of the last addition that has its unit clause among
    /// the hints, at most `additions`; 0 where none has.
    pub stamps: Vec<u64>,
    /// What it decides, when it restarts, and what it deletes.
    pub policy: Policy,
    /// The memory of conflict analysis.
    pub analyzer: Analyzer,
    /// The memory of the search for clauses that are subsets of a core's.
    pub subsets: Subsets,
}

impl Search {
    /// A search over no clauses and no variables.
    ///
    /// # Errors
    ///
    /// `AllocError` where memory was refused.
    pub fn empty(alloc: Global) -> Result<Self, AllocError>
        ensures clauses { IfOk result (λ s. (s.store.slots ≡ []) × (s.names.items ≡ [])) }
        ensures engine { IfOk result (λ s. IsBare 0 s.engine) }
        ensures units { IfOk result (λ s. (s.units.items ≡ []) × (s.noted ≡ 0)) }
        ensures additions { IfOk result (λ s. (s.kept ≡ 0) × (s.additions ≡ 0)) }
        ensures stamps { IfOk result (λ s. s.stamps.items ≡ []) }
        ensures policy { IfOk result (λ s.
            s.policy ≡ record { variables = 0; has_learned = false }) }
        ensures analyzer { IfOk result (λ s. s.analyzer ≡ 1) }
    {
        let engine = Engine::new(alloc, 0)?;
        let (policy, analyzer) = match memory_of(alloc, 0) {
            Ok(pair) => pair,
            Err(AllocError) => {
                // By a call: that is proved once, and not field by field here.
                drop(engine);
                return Err(AllocError);
            }
        };
        Ok(Search {
            store: Store::new(alloc),
            engine,
            names: Vec::new(alloc),
            units: Vec::new(alloc),
            noted: 0,
            kept: 0,
            additions: 0,
            stamps: Vec::new(alloc),
            policy,
            analyzer,
            subsets: Subsets::new(alloc),
        })
    }

    /// Unit propagation, up to a conflict or the fixpoint: answers a clause that is false, or none,
    /// and then no clause is false or unit.
    ///
    /// # Errors
    ///
    /// `AllocError` where memory was refused: the search cannot go on.
    pub fn propagate(&mut self) -> Result<Option<CRef>, AllocError>
        requires { IsReady self.old }
        ensures runs { OnOk result (KeepsRunning self.old self.new) }
        ensures ready { OnOk result (IsReady self.new) }
        ensures conflict { IfOk result (λ found.
            IfSome found (IsFalseClause self.new.store.slots self.new.engine)) }
        ensures fixpoint { IfOk result (λ found. IfNone found
            (IsFixpoint self.new.store.slots (literals_of self.new.engine.trail))) }
        ensures depth { OnOk result (depth_of self.new.engine.trail
            ≡ depth_of self.old.engine.trail) }
        ensures grows { OnOk result (length self.old.engine.trail ≤ length self.new.engine.trail) }
        ensures by_units { GrowsByUnits self.old.store.slots self.old.engine self.new.engine }
        ensures engine { EngineMoves self.old self.new }
    {
        match self.engine.propagate(&self.store) {
            Ok(found) => Ok(found),
            Err(_) => Err(AllocError),
        }
    }

    /// Undoes the levels above this one. Their variables may be decided again.
    pub(crate) fn backtrack(&mut self, level: u32)
        requires ready { IsReady self.old }
        requires level { level ≤ depth_of self.old.engine.trail }
        ensures state { KeepsState self.old self.new }
        ensures moves { MovesTo self.old self.new (kept_to level self.old.engine.trail) }
    {
        put_back(&mut self.policy, &self.engine, level);
        self.engine.backtrack(level);
    }

    /// Begins at level 0.
    pub fn begin(&mut self)
        requires { IsReady self.old }
        ensures runs { KeepsRunning self.old self.new }
        ensures ready { IsReady self.new }
        ensures trail { self.new.engine.trail ≡ kept_to 0 self.old.engine.trail }
        ensures policy { self.new.policy ≡ record self.old.policy { has_learned = false } }
        ensures rest { self.new
            ≡ record self.old { engine = self.new.engine; policy = self.new.policy } }
    {
        self.backtrack(0);
        self.policy.begin();
    }

    /// Decisions try these values first, by variable from 1, until a variable has another. It goes
    /// back to level 0, since each value that is undone is tried first from then on.
    pub fn suggest(&mut self, values: &[bool])
        requires { IsReady self.old }
        ensures { MovesTo self.old self.new (kept_to 0 self.old.engine.trail) }
    {
        self.backtrack(0);
        self.policy.suggest(values);
    }

    /// Restarts from this level, or goes on from the current one where that is lower.
    pub fn restart(&mut self, level: usize)
        requires { IsReady self.old }
        ensures runs { KeepsRunning self.old self.new }
        ensures trail { self.new.engine.trail
            ≡ kept_to (min level (depth_of self.old.engine.trail)) self.old.engine.trail }
        ensures variables { self.new.engine.variables ≡ self.old.engine.variables }
        ensures policy { self.new.policy ≡ record self.old.policy { has_learned = false } }
        ensures rest { self.new
            ≡ record self.old { engine = self.new.engine; policy = self.new.policy } }
    {
        let depth = self.engine.depth();
        self.backtrack(level.min(depth as usize) as u32);
        self.policy.restart();
    }

    /// The policy sees what the last analysis taught, before backtracking. It answers the clause's
    /// LBD.
    pub(crate) fn learn_from(&mut self, learned: &Learned) -> u32
        requires ready { IsReady self.old }
        requires hints { All (λ r. is_attached self.old.engine r ≡ true) learned.now.hints.items }
        requires within { IsWithin self.old.engine.variables learned.now.lits.items }
        ensures variables { self.new.policy.variables ≡ self.old.policy.variables }
        ensures only_policy { self.new ≡ record self.old { policy = self.new.policy } }
    {
        self.policy.bump(self.analyzer.met());
        self.policy.bump(self.analyzer.beside());
        self.policy.learn_from(
            &self.engine,
            &self.store,
            learned.hints.as_slice(),
            learned.lits.as_slice(),
        )
    }

    /// Decides a variable without a value; it answers whether there was one.
    pub fn branch(&mut self) -> bool
        requires { CanDecide self.old }
        ensures runs { KeepsRunning self.old self.new }
        ensures longer { result ≡ true
            → length self.new.engine.trail ≡ length self.old.engine.trail + 1 }
        ensures within { length self.old.engine.trail ≤ self.old.engine.variables }
        ensures closed { result ≡ false
            → AreClosed self.old.engine.trail self.old.engine.variables }
        ensures stays { result ≡ false → self.new.engine ≡ self.old.engine }
        ensures engine { EngineMoves self.old self.new }
    {
        // There are at most as many literals as variables.
        let _ = self.engine.assigned();
        match self.policy.next(&self.engine) {
            Some(lit) => {
                self.decide(lit);
                true
            }
            None => false,
        }
    }

    /// Opens a level with the literal.
    pub fn decide(&mut self, lit: Lit)
        requires can { CanDecide self.old }
        requires open { IsOpenVariable self.old.engine.trail self.old.engine.variables
            lit.variable }
        ensures { MovesTo self.old self.new (self.old.engine.trail ++ record {
          literal = lit;
          reason = None;
        } ∷ []) }
    {
        self.engine.decide(lit);
    }
}

/// The policy of a search that begins, and the memory of its conflict analysis.
pub(crate) fn memory_of(alloc: Global, variables: u32) -> Result<(Policy, Analyzer), AllocError>
    requires { variables < VARIABLE_LIMIT }
    ensures policy { IfOk result (λ m.
        m.0 ≡ record { variables = variables; has_learned = false }) }
    ensures analyzer { IfOk result (λ m. m.1 ≡ variables + 1) }
{
    let analyzer = Analyzer::new(alloc, variables)?;
    match Policy::new(alloc, variables) {
        Ok(policy) => Ok((policy, analyzer)),
        Err(AllocError) => {
            // By a call: that is proved once, and not field by field here.
            drop(analyzer);
            Err(AllocError)
        }
    }
}

/// The variables above this level may be decided again.
fn put_back(policy: &mut Policy, engine: &Engine, level: u32)
    requires room { policy.old.variables ≡ engine.now.variables }
    requires within { All (λ l. l.variable ≤ policy.old.variables) (literals_of engine.now.trail) }
    ensures same_view { policy.new ≡ policy.old }
{
    let trail = engine.trail();
    let first = engine.first_above(level);
    let mut place = trail.len();
    while place > first {
        place -= 1;
        policy.put_back(trail[place]);
    }
}
