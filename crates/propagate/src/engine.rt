// The trail and the clauses that are attached to it.
ghost use Rattle.std.specs.Prelude.{◌≡◌, ℕ, ◌<◌, ◌≤◌, true, false, [], ◌∷◌, ◌++◌, Some, None};
ghost use Rattle.std.specs.Prelude.{length, take, All, OnOk, OnErr, IfOk};
ghost use Rattle.std.specs.Prelude.{IfSome, IfNone, IsErr, ◌↔◌};
ghost use Rattle.clauses.specs.Slots.{Slots, IsLive, clause_at};
ghost use Rattle.propagate_watches.specs.Table.{attachment_in};
ghost use Rattle.propagate_trail.specs.Trail.{literals_of, depth_of, value_in, level_in};
ghost use Rattle.propagate_trail.specs.Trail.{position_in, reason_in, kept_to};
ghost use Rattle.propagate.specs.Watches.{is_attached, SameAttached, SetsAttached, SameFrame};
ghost use Rattle.propagate.specs.Watches.{IsBare};
ghost use Rattle.propagate.specs.Steps.{with_trail, GoesOn, Settles};
ghost use Rattle.propagate.specs.Fits.{Fits, StaysFit, IsWithin, GrowsByUnits, IsFalseClause};
ghost use Rattle.propagate.specs.Fits.{IsAttachedFixpoint};

mod attaching;
mod compacting;
mod detaching;
mod queue;
mod renaming;
mod rooms;
mod subsets;
mod waiting;

use clauses::store::{CRef, Store};
use cnf::types::Lit;
use propagate_trail::trail::Trail;
use propagate_watches::pool::WatchPool;
use propagate_watches::table::{Attachment, Table};
use std::alloc::{AllocError, Global};
use std::marker::Model;

/// Why an engine gave no answer.
#[derive(Clone, Copy, Debug, PartialEq, Eq, Drop)]
pub enum EngineFault {
    /// A growth was refused in this call. The engine has failed from then on.
    Memory,
    /// An earlier call answered `Memory`. It is answered then by each later call that can, and
    /// never else.
    Failed,
}

/// Keeps the trail of the literals that are true, and makes true what the attached clauses leave no
/// choice on: unit propagation (Handbook of Satisfiability, chapter 4) by two watched literals a
/// clause (Moskewicz et al. 2001), each entry with another literal of its clause beside it, as in
/// MiniSat 2.1 (Sörensson and Eén 2008).
///
/// It serves any order of calls: a clause may be attached while it is unit or false, and a literal
/// may be decided before propagation has finished.
#[derive(Drop)]
pub struct Engine {
    // The literals that are true, with levels, positions and reasons, over at most 2^32 - 2
    // variables.
    trail: Trail,
    // By reference, whether the clause is attached, and what it watches; shorter than the store
    // where the clauses at the end were never attached.
    table: Table,
    // By literal, the clauses that watch it: two rows for each variable.
    pool: WatchPool,
    // The clauses that were attached and are to get watches, and others that need none any more.
    waiting: Vec<CRef>,
    // How many literals of the trail were propagated and stay so after any levels are undone; at
    // most `qhead`.
    stable_qhead: usize,
    // How many literals of the trail were propagated; at most the trail's length.
    qhead: usize,
    // Whether a growth was refused. It stays so.
    failed: bool,
}

impl Model for Engine {
    ghost use Rattle.propagate.specs.Watches.{EngineState, engine_state, IsEngine};

    ghost Value = { EngineState };

    ghost view = { λ e. engine_state e.trail e.table e.pool e.waiting.items e.stable_qhead e.qhead
        e.failed };

    ghost invariant = { λ e. IsEngine (engine_state e.trail e.table e.pool e.waiting.items
        e.stable_qhead e.qhead e.failed) };
}

impl Engine {
    /// An engine over the variables from 1 to `vars`, in which nothing is true or attached.
    ///
    /// # Errors
    ///
    /// `AllocError` where memory was refused; for 2^32 - 1 variables it always is.
    pub fn new(alloc: Global, vars: u32) -> Result<Self, AllocError>
        ensures empty { IfOk result (IsBare vars) }
        ensures fits { IfOk result (λ e. (slots : Slots) → Fits e slots) }
        ensures unattached { IfOk result (λ e. (r : ℕ) → is_attached e r ≡ false) }
    {
        let trail = Trail::new(alloc, vars)?;
        let pool = WatchPool::new(alloc, 2 * vars as usize)?;
        Ok(Engine {
            trail,
            table: Table::new(alloc),
            pool,
            waiting: Vec::new(alloc),
            stable_qhead: 0,
            qhead: 0,
            failed: false,
        })
    }

    /// As `new`, with room for the watches of the store's clauses, which are not attached yet.
    ///
    /// # Errors
    ///
    /// `AllocError` where memory was refused; for 2^32 - 1 variables it always is.
    pub fn with_room(alloc: Global, vars: u32, store: &Store) -> Result<Self, AllocError>
        ensures empty { IfOk result (IsBare vars) }
        ensures fits { IfOk result (λ e. (slots : Slots) → Fits e slots) }
        ensures unattached { IfOk result (λ e. (r : ℕ) → is_attached e r ≡ false) }
    {
        let mut engine = Engine::new(alloc, vars)?;
        engine.make_rooms(store)?;
        Ok(engine)
    }

    /// The number of variables.
    pub fn variables(&self) -> u32
        ensures { result ≡ self.now.variables }
    {
        self.trail.variables()
    }

    /// Whether a literal is true; none where it is open. In constant time.
    pub fn value(&self, lit: Lit) -> Option<bool>
        requires { lit.variable ≤ self.now.variables }
        ensures { result ≡ value_in self.now.trail lit }
    {
        self.trail.value(lit)
    }

    /// From now on `propagate` looks at the clause, which may be unit or false already, and may
    /// have any number of literals.
    ///
    /// # Errors
    ///
    /// `Memory` where a growth was refused: the clause is not attached, and the engine has failed.
    /// `Failed` where it had failed before.
    pub fn attach(&mut self, store: &Store, reference: CRef) -> Result<(), EngineFault>
        requires fits { Fits self.old store.now.slots }
        requires live { IsLive store.now.slots reference }
        requires small { IfSome (clause_at store.now.slots reference)
            (IsWithin self.old.variables) }
        requires once { is_attached self.old reference ≡ false }
        ensures attached { OnOk result (SetsAttached self.old self.new reference true) }
        ensures trail { OnOk result ((self.new.trail ≡ self.old.trail)
            × (self.new.variables ≡ self.old.variables)) }
        ensures fits { OnOk result (Fits self.new store.now.slots) }
        ensures err { OnErr result (self.new ≡ record self.old { failed = true }) }
        ensures failed { (result ≡ Err EngineFault.Failed) ↔ (self.old.failed ≡ true) }
        ensures fails { IsErr result ↔ (self.new.failed ≡ true) }
    {
        if self.failed {
            return Err(EngineFault::Failed);
        }
        match self.take_in(store, reference) {
            Ok(()) => Ok(()),
            Err(_) => {
                self.failed = true;
                Err(EngineFault::Memory)
            }
        }
    }

    /// From now on `propagate` looks past the clause, which is no reason of a literal.
    pub fn detach(&mut self, reference: CRef)
        requires attached { is_attached self.old reference ≡ true }
        requires no_reason { All (λ a. a.reason ≡ Some reference → ⊥) self.old.trail }
        ensures detached { SetsAttached self.old self.new reference false }
        ensures trail { self.new.trail ≡ self.old.trail }
        ensures frame { SameFrame self.old self.new }
        ensures fits { StaysFit self.old self.new }
    {
        let attachment = self.attachment(reference);
        self.table.set(reference.index(), Attachment::Detached);
        match attachment {
            Attachment::Detached => {}
            Attachment::Waiting => self.waiting.retain(|r| *r != reference),
            Attachment::Satisfied => {}
            Attachment::Watching(one, other, _) => {
                self.pool.remove(one.index(), reference);
                self.pool.remove(other.index(), reference);
            }
        }
    }

    /// Opens a level with a literal that has no value. It takes no memory.
    pub fn decide(&mut self, lit: Lit)
        requires small { lit.variable ≤ self.old.variables }
        requires open { value_in self.old.trail lit ≡ None }
        ensures trail { self.new.trail ≡ self.old.trail ++ record { literal = lit; reason = None }
            ∷ [] }
        ensures attached { SameAttached self.old self.new }
        ensures frame { SameFrame self.old self.new }
        ensures fits { StaysFit self.old self.new }
    {
        self.promote();
        self.trail.push(lit, None);
    }

    /// Keeps the literals of the levels up to `level`, at the cost of those that it undoes. It
    /// takes no memory.
    pub fn backtrack(&mut self, level: u32)
        requires { level ≤ depth_of self.old.trail }
        ensures trail { self.new.trail ≡ kept_to level self.old.trail }
        ensures attached { SameAttached self.old self.new }
        ensures frame { SameFrame self.old self.new }
        ensures fits { StaysFit self.old self.new }
    {
        self.promote();
        self.trail.backtrack(level);
        self.stable_qhead = self.stable_qhead.min(self.trail.len());
        self.qhead = self.stable_qhead;
    }

    /// The level of a variable that has a value, from 0: the number of decisions up to it. In
    /// constant time.
    pub fn level(&self, variable: u32) -> Option<u32>
        requires { variable ≤ self.now.variables }
        ensures { result ≡ level_in self.now.trail variable }
    {
        self.trail.level(variable)
    }

    /// How many literals stand before that of a variable on the trail, where it has a value. In
    /// constant time.
    pub fn position(&self, variable: u32) -> Option<u32>
        requires { variable ≤ self.now.variables }
        ensures { result ≡ position_in self.now.trail variable }
    {
        self.trail.position(variable)
    }

    /// The clause that left no choice; none for a decision and where there is no value.
    pub fn reason(&self, variable: u32) -> Option<CRef>
        requires { variable ≤ self.now.variables }
        ensures { result ≡ reason_in self.now.trail variable }
    {
        self.trail.reason(variable)
    }

    /// The literals that are true, in the order in which they became so.
    pub fn trail(&self) -> &[Lit]
        ensures { result.now ≡ literals_of self.now.trail }
    {
        self.trail.literals()
    }

    /// How many literals the levels up to `level` have: the first ones of the trail. In logarithmic
    /// time.
    pub fn first_above(&self, level: u32) -> usize
        ensures kept { kept_to level self.now.trail ≡ take result self.now.trail }
        ensures within { result ≤ length self.now.trail }
    {
        self.trail.first_above(level)
    }

    /// How many literals are true: at most one for each variable.
    pub fn assigned(&self) -> usize
        ensures len { result ≡ length self.now.trail }
        ensures within { result ≤ self.now.variables }
    {
        self.trail.len()
    }

    /// The current level: the number of decisions.
    pub fn depth(&self) -> u32
        ensures { result ≡ depth_of self.now.trail }
    {
        self.trail.depth()
    }

    /// Unit propagation, up to a conflict or the fixpoint: answers an attached clause that is
    /// false, or none, and then no attached clause is false or unit. What became true stands at the
    /// end of the trail, at the current level.
    ///
    /// # Errors
    ///
    /// `Memory` where a growth was refused: the engine has failed, and still belongs to the store.
    /// The trail may have grown, by literals that are units all the same. `Failed` where it had
    /// failed before: nothing has changed.
    pub fn propagate(&mut self, store: &Store) -> Result<Option<CRef>, EngineFault>
        requires fits { Fits self.old store.now.slots }
        ensures grows { GrowsByUnits store.now.slots self.old self.new }
        ensures conflict { IfOk result (λ found. IfSome found
            (λ r. (is_attached self.new r ≡ true) × IsFalseClause store.now.slots self.new r)) }
        ensures fixpoint { IfOk result (λ found. IfNone found
            (IsAttachedFixpoint store.now.slots (is_attached self.new) self.new.trail)) }
        ensures attached { SameAttached self.old self.new }
        ensures variables { self.new.variables ≡ self.old.variables }
        ensures fits { Fits self.new store.now.slots }
        ensures failed { (result ≡ Err EngineFault.Failed) ↔ (self.old.failed ≡ true) }
        ensures fails { IsErr result ↔ (self.new.failed ≡ true) }
    {
        if self.failed {
            return Err(EngineFault::Failed);
        }
        match self.propagate_all(store) {
            Ok(found) => Ok(found),
            Err(_) => {
                self.failed = true;
                Err(EngineFault::Memory)
            }
        }
    }

    /// Where the trail past `stable_qhead` is of the current level, what was propagated stays so
    /// when levels are undone.
    fn promote(&mut self)
        ensures shape { self.new ≡ record self.old
            { watches = record self.old.watches { stable_qhead = self.new.watches.stable_qhead } } }
        ensures fits { StaysFit self.old self.new }
    {
        if self.stable_qhead < self.qhead {
            let lit = self.trail.literals()[self.stable_qhead];
            if self.trail.level(lit.variable()) == Some(self.trail.depth()) {
                self.stable_qhead = self.qhead;
            }
        }
    }

    /// Whether the clause is attached, and how.
    fn attachment(&self, reference: CRef) -> Attachment
        ensures { result ≡ attachment_in self.now.watches.table reference }
    {
        self.table.get(reference.index())
    }

    /// Makes an open literal true, by the clause that leaves no choice.
    fn imply(&mut self, lit: Lit, reference: CRef)
        requires small { lit.variable ≤ self.old.variables }
        requires open { value_in self.old.trail lit ≡ None }
        ensures pushed { self.new ≡ with_trail self.old
            (self.old.trail ++ record { literal = lit; reason = Some reference } ∷ []) }
        ensures from_one { 0 < lit.variable }
    {
        self.trail.push(lit, Some(reference));
    }

    /// The waiting clauses first, then the queue.
    fn propagate_all(&mut self, store: &Store) -> Result<Option<CRef>, AllocError>
        requires { Fits self.old store.now.slots }
        ensures goes_on { GoesOn store.now.slots self.old self.new }
        ensures settles { IfOk result (Settles store.now.slots self.new) }
    {
        match self.look_at_waiting(store)? {
            Some(conflict) => Ok(Some(conflict)),
            None => self.look_at_queue(store),
        }
    }
}
