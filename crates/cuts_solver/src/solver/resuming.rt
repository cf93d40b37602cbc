// A solver that goes on with what a checker has judged: what is live comes to the engine.
ghost use Rattle.std.specs.Prelude.{◌≡◌, ◌+◌, ◌/◌, ◌<◌, ◌≤◌, [], ◌∷◌, ◌++◌, List, true, false, min};
ghost use Rattle.std.specs.Prelude.{IfNone, IfOk, IfSome, length, None};
ghost use Rattle.lrat_log.specs.Log.{LogLine, axiom_line};
ghost use Rattle.cdcl_search.specs.Running.{Runs};
ghost use Rattle.lrat_live.specs.Listed.{listed_at};
ghost use Rattle.lrat_log.specs.declared.log.TheConstants.{LINE_LIMIT};
ghost use Rattle.cuts_log.specs.Starts.{earlier_lines, lines_for};
ghost use Rattle.bound.specs.Weighted.{weighted_cnf};
ghost use Rattle.cdcl.specs.declared.whole.TheConstants.{MOST_ROOM};
ghost use Rattle.cuts_solver.specs.Solving.{AllCanCome, CanCome, IsDense, StartsBehind};
ghost use Rattle.cuts_solver.specs.declared.solver.resuming.TheConstants.{LINES_A_CONFLICT};

use bound::weighted::weighted_formula;
use cdcl::guided::{are_apart, make_room};
use cdcl::whole::{MOST_ROOM, start_whole};
use cdcl_search::axioms::take_axiom;
use cdcl_search::input::Input;
use cdcl_search::search::Search;
use cnf::marks::Marks;
use cnf::types::{Instance, Lit};
use lrat_cuts::machine::CutsMachine;
use lrat_log::log::LINE_LIMIT;
use std::alloc::AllocError;

/// The ids that may come for each line of a certificate that is gone on with.
pub const IDS_A_LINE: u64 = 64;

/// The ids that may come for clauses of a certificate's counts, twice as many as there may be.
pub const IDS_OF_COUNTS: u64 = 1 << 23;

/// A conflict has about so many lines: what it learns comes, and mostly goes.
pub const LINES_A_CONFLICT: u64 = 2;

/// The most literals that a clause of a count has.
const MOST_COUNTED: usize = 3;

/// Whether ids leap far ahead of the lines that the checker has judged.
pub(super) fn has_leaps(instance: &Instance, machine: &CutsMachine) -> bool
    ensures yes { result ≡ true → IsDense instance.now machine.now → ⊥ }
    ensures no { result ≡ false → IsDense instance.now machine.now }
{
    let clauses = instance.hard().len().saturating_add(instance.soft().len()) as u64;
    let lines = machine.lines().saturating_mul(IDS_A_LINE);
    machine.last() > clauses.saturating_add(lines).saturating_add(IDS_OF_COUNTS)
}

/// A search over the weighted formula of an instance and all else that is live for a checker, with
/// its input. None where a clause cannot come to the engine.
pub(super) fn start_behind(
    instance: &Instance,
    machine: &CutsMachine,
    room: u32,
) -> Result<Option<(Search, Input)>, AllocError>
    ensures begun { IfOk result (λ found. IfSome found
        (λ begun. StartsBehind instance.now machine.now.state begun.0 begun.1)) }
    ensures can { IfOk result (λ found. IfSome found (λ _.
        AllCanCome ((weighted_cnf instance.now).variables + min room MOST_ROOM)
        (length (weighted_cnf instance.now).clauses) machine.now.state)) }
    ensures refused { IfOk result (λ found. IfNone found
        (length (weighted_cnf instance.now).clauses ≤ machine.now.state.last
        → AllCanCome ((weighted_cnf instance.now).variables + min room MOST_ROOM)
        (length (weighted_cnf instance.now).clauses) machine.now.state → ⊥)) }
{
    let formula = weighted_formula(instance)?;
    let base = formula.clauses().len() as u64;
    let (mut search, input) = start_whole(formula, room.min(MOST_ROOM))?;
    search.policy.count_earlier(conflicts_before(machine));
    match take_earlier(&mut search, &input, machine, base) {
        Ok(true) => Ok(Some((search, input))),
        Ok(false) => {
            drop(search);
            drop(input);
            Ok(None)
        }
        Err(AllocError) => {
            drop(search);
            drop(input);
            Err(AllocError)
        }
    }
}

/// About how many conflicts the search has had whose lines the checker has judged.
pub fn conflicts_before(machine: &CutsMachine) -> u64
    ensures { result ≡ machine.now.lines / LINES_A_CONFLICT }
{
    machine.lines() / LINES_A_CONFLICT
}

/// Clauses that are live come to the engine under the names that they have in the log, where those
/// of the formula are. Answers whether all could come; else the search is of no use.
///
/// # Errors
///
/// `AllocError` where memory was refused, or where ids would be 2^61 or more.
fn take_earlier(
    search: &mut Search,
    input: &Input,
    machine: &CutsMachine,
    base: u64,
) -> Result<bool, AllocError>
    requires runs { Runs search.old input.now [] }
    ensures runs { IfOk result (λ taken. taken ≡ true
        → Runs search.new input.now (earlier_lines base machine.now.state)) }
    ensures can { IfOk result (λ taken. taken ≡ true
        → AllCanCome search.old.engine.variables base machine.now.state) }
    ensures refused { IfOk result (λ taken. taken ≡ false → base ≤ machine.now.state.last
        → AllCanCome search.old.engine.variables base machine.now.state → ⊥) }
{
    let last = machine.last();
    if last >= LINE_LIMIT as u64 {
        return Err(AllocError);
    }
    if last < base {
        return Ok(false);
    }
    let mut marks = Marks::empty(search.store.allocator());
    for number in 0..last - base {
        if !take_addition(search, input, machine, &mut marks, base + number + 1)? {
            return Ok(false);
        }
    }
    Ok(true)
}

/// The addition with an id comes to the engine, if it may.
fn take_addition(
    search: &mut Search,
    input: &Input,
    machine: &CutsMachine,
    marks: &mut Marks,
    id: u64,
) -> Result<bool, AllocError>
    requires runs { (ls : List LogLine) × Runs search.old input.now ls }
    requires few { search.old.additions + 1 < LINE_LIMIT }
    ensures takes { IfOk result (λ taken. taken ≡ true → (ls : List LogLine)
        → Runs search.old input.now ls → Runs search.new input.now
        (ls ++ lines_for (listed_at machine.now.state.live id) (search.old.additions + 1))) }
    ensures additions { IfOk result (λ taken. taken ≡ true
        → search.new.additions ≡ search.old.additions + 1) }
    ensures can { IfOk result (λ taken. taken ≡ true
        → IfSome (listed_at machine.now.state.live id) (CanCome search.old.engine.variables)) }
    ensures refused { IfOk result (λ taken. taken ≡ false
        → IfSome (listed_at machine.now.state.live id) (CanCome search.old.engine.variables) → ⊥) }
    ensures variables { IfOk result (λ taken. taken ≡ true
        → search.new.engine.variables ≡ search.old.engine.variables) }
{
    match machine.find(id) {
        Some(lits) => take_live(search, input, marks, lits),
        None => {
            skip(search);
            Ok(true)
        }
    }
}

/// A live clause comes to the engine, if it may. The policy may delete it later, unless it is as
/// short as those of counts are.
fn take_live(
    search: &mut Search,
    input: &Input,
    marks: &mut Marks,
    lits: &[Lit],
) -> Result<bool, AllocError>
    requires runs { (ls : List LogLine) × Runs search.old input.now ls }
    requires few { search.old.additions + 1 < LINE_LIMIT }
    ensures takes { IfOk result (λ taken. taken ≡ true → (ls : List LogLine)
        → Runs search.old input.now ls
        → Runs search.new input.now (ls ++ axiom_line lits.now ∷ [])) }
    ensures additions { IfOk result (λ taken. taken ≡ true
        → search.new.additions ≡ search.old.additions + 1) }
    ensures can { IfOk result (λ taken. taken ≡ true
        → CanCome search.old.engine.variables lits.now) }
    ensures refused { IfOk result (λ taken. taken ≡ false
        → CanCome search.old.engine.variables lits.now → ⊥) }
    ensures variables { IfOk result (λ taken. taken ≡ true
        → search.new.engine.variables ≡ search.old.engine.variables) }
{
    let variables = search.engine.variables();
    make_room(marks, variables)?;
    if lits.is_empty() || !are_apart(marks, variables, lits) {
        return Ok(false);
    }
    let lbd = (lits.len() > MOST_COUNTED).then_some(lits.len().min(u32::MAX as usize) as u32);
    take_axiom(search, lits, lbd)?;
    Ok(true)
}

/// An addition came and went.
fn skip(search: &mut Search)
    requires few { search.old.additions + 1 < LINE_LIMIT }
    ensures skips { (p : Input) (ls : List LogLine) → Runs search.old p ls
        → Runs search.new p (ls ++ lines_for None (search.old.additions + 1)) }
    ensures additions { search.new.additions ≡ search.old.additions + 1 }
    ensures variables { search.new.engine.variables ≡ search.old.engine.variables }
{
    search.additions += 1;
}
