//! What the parts of the search ask for: the solver and its log, what may be spent, and the best
//! solution.
ghost use Rattle.std.specs.Prelude.{◌≡◌, ℕ, ◌≤◌, true, IsTrue};

use cdcl_order::watch::Way;
use cdcl_search::assumptions::Assumptions;
use cdcl_search::guide::Guide;
use cnf::types::{Formula, Lit};
use forms::state::Forms;
use forms::types::NamedFact;
use improve_local::kinds::WalkKind;
use std::alloc::{AllocError, Global};

/// How a search that a guide leads has ended.
#[derive(Clone, Copy, Debug, PartialEq, Eq, Drop)]
pub enum Descent {
    /// It met a solution that is cheaper than the best one, which is the best one now.
    Cheaper,
    /// It met a solution that is not.
    NoCheaper,
    /// Nothing is cheaper than the best solution, or there is none at all.
    Refuted,
    /// The guide stopped it.
    Stopped,
    /// Nothing is left of the budget.
    Spent,
}

/// How a search under assumptions has ended.
#[derive(Drop)]
pub enum Trial {
    /// It met a solution under all assumptions; it is the best one now if it is cheaper.
    Met,
    /// Nothing is cheaper than the best solution, or there is none at all.
    Refuted,
    /// These assumptions cannot hold together, as a clause of the log says.
    Core(Vec<Lit>),
    /// It was stopped otherwise.
    Stopped,
    /// Nothing is left of the budget.
    Spent,
}

/// What came of a walk.
#[derive(Clone, Copy, Debug, PartialEq, Eq, Drop)]
pub struct Walked {
    /// How many literals and clauses it has visited; 0 where there was no walk.
    pub visits: u64,
    /// Whether the best solution is a cheaper one now.
    pub is_cheaper: bool,
}

/// Why a search ended without an answer.
#[derive(Clone, Copy, Debug, PartialEq, Eq, Drop)]
pub enum DeskFault {
    /// Memory was refused, or a write of the log has failed.
    Memory,
    /// A cost could not be told.
    Progress,
}

impl From<AllocError> for DeskFault {
    ghost use Rattle.cuts_cores.specs.declared.desk.DeskFault.TheVariants.{Memory};

    ghost from_gives = { λ _ fault. fault ≡ Memory };

    fn from(_error: AllocError) -> Self {
        DeskFault::Memory
    }
}

/// What the parts of the search work on. Each solution that a search meets is kept, told and paid
/// for at once, if it is cheaper than the best one. A line that is proposed is right, or refused.
///
/// # Errors
///
/// Each call that changes something answers `Memory` where memory was refused, or a write of the
/// log has failed, and `Progress` where a cost could not be told. It does so from then on.
pub trait Desk: Drop {
    /// Whether the second came from the first by these calls alone.
    ghost follows: { Self → Self → Type 0 };

    /// Whether the empty clause was added.
    ghost refuted: { Self → Type 0 };

    /// How many units are left of the budget.
    ghost left: { Self → ℕ };

    /// What memory comes from.
    fn allocator(&self) -> Global;

    /// The clauses that lines name by their numbers, from 1: the hard ones, and the soft ones with
    /// their relaxation variables, but for those of one literal, which need none.
    ///
    /// # Errors
    ///
    /// `AllocError` where memory was refused.
    fn formula(&self) -> Result<Formula, AllocError>;

    /// The counts and the present form.
    fn forms(&self) -> &Forms;

    /// The last variable that the engine has: no count gets a greater one.
    fn last(&self) -> u32;

    /// What lines before this search have proved that no solution costs less than, up to 2^62; 0
    /// where the log is new.
    fn proved(&self) -> u64;

    /// What the best solution costs; 2^62 while there is none.
    fn cost(&self) -> u64;

    /// Whether there is a solution.
    fn has_solution(&self) -> bool;

    /// How many literals the clauses of the instance have.
    fn size(&self) -> u64;

    /// How many clauses were learned or cut, with about as many as lines before this search say.
    fn learned(&self) -> u64;

    /// How many literals the searches have assigned, but for those with a value now: a measure
    /// of work.
    fn propagations(&self) -> u64;

    /// Whether the empty clause was added: nothing is cheaper than the best solution, or there is
    /// none.
    fn is_refuted(&self) -> bool
        ensures { IsTrue result → refuted self.now };

    /// How many units are left of the budget.
    fn left(&self) -> u64
        ensures { result ≡ left self.now };

    /// The value of the literal at level 0, where it has one.
    fn fixed(&self, lit: Lit) -> Option<bool>;

    /// The value of the literal where the last search has ended, if it has one.
    fn value(&self, lit: Lit) -> Option<bool>;

    /// Spends units until at most `most` are left, and no more.
    fn charge(&mut self, most: u64)
        ensures left { left self.new ≤ most }
        ensures just { most ≤ left self.old → left self.new ≡ most }
        ensures none { left self.old ≤ most → left self.new ≡ left self.old }
        ensures follows { (first : Self) → follows first self.old → follows first self.new };

    /// Searches under assumptions.
    fn assume(&mut self, guide: &mut Assumptions) -> Result<Trial, DeskFault>
        ensures follows { (first : Self) → follows first self.old → follows first self.new };

    /// Searches, led by the guide.
    fn descend<G: Guide>(&mut self, guide: &mut G) -> Result<Descent, DeskFault>
        ensures follows { (first : Self) → follows first self.old → follows first self.new };

    /// Walks from the best solution for about `visits` visits: a cheaper one that is met is the
    /// best one then. There is no walk where there is no solution, nothing is left of the budget,
    /// memory is refused for its tables, or the visits are too few. It costs only what is met.
    fn walk(&mut self, kind: WalkKind, visits: u64) -> Result<Walked, DeskFault>
        ensures follows { (first : Self) → follows first self.old → follows first self.new };

    /// Decisions try the values of the best solution first.
    fn suggest_best(&mut self)
        ensures follows { (first : Self) → follows first self.old → follows first self.new };

    /// Decisions try these values first, by variable from 1.
    fn suggest(&mut self, values: &[bool])
        ensures follows { (first : Self) → follows first self.old → follows first self.new };

    /// A count of these literals with `outputs` outputs, if it is right and there is room for its
    /// variables; its number, from 1.
    fn count(&mut self, outputs: u64, inputs: &[Lit]) -> Result<Option<u64>, DeskFault>
        ensures follows { (first : Self) → follows first self.old → follows first self.new };

    /// One more output of the count with this number, if there can be one: that output.
    fn more(&mut self, number: u64) -> Result<Option<Lit>, DeskFault>
        ensures follows { (first : Self) → follows first self.old → follows first self.new };

    /// A group of these literals, of which at most one is true, as the clauses with these numbers
    /// say for the pairs (1, 2), (1, 3), (2, 3), (1, 4), .. in turn. The answer is its number, one
    /// above that of the last count or group, if it is right.
    fn group(&mut self, inputs: &[Lit], ids: &[u64]) -> Result<Option<u64>, DeskFault>
        ensures follows { (first : Self) → follows first self.old → follows first self.new };

    /// `scale` times the cost, less these facts, in place of the present form; whether that is
    /// right.
    fn form(&mut self, scale: u64, facts: &[NamedFact]) -> Result<bool, DeskFault>
        ensures follows { (first : Self) → follows first self.old → follows first self.new };

    /// The present form less these facts; whether that is right.
    fn form_more(&mut self, facts: &[NamedFact]) -> Result<bool, DeskFault>
        ensures follows { (first : Self) → follows first self.old → follows first self.new };

    /// A cut of these literals under the present form, for one unit of the budget; whether it is
    /// right. The empty one refutes.
    fn cut(&mut self, lits: &[Lit]) -> Result<bool, DeskFault>
        ensures follows { (first : Self) → follows first self.old → follows first self.new };

    /// Says that nothing costs less than this; whether the present form, which is such a one, is
    /// worth it.
    fn bound(&mut self, lower: u64, way: Way) -> Result<bool, DeskFault>
        ensures follows { (first : Self) → follows first self.old → follows first self.new };
}
