// Elimination.
ghost use Rattle.std.specs.Prelude.{◌≡◌, [], length, Contains};
ghost use Rattle.std.specs.Prelude.{IfOk, OnOk, OnErr};
ghost use Rattle.cnf.specs.Formula.{IsFormula};
ghost use Rattle.cnf.specs.Refute.{IsRefutedByHints};
ghost use Rattle.clauses.specs.Slots.{live_clauses};
ghost use Rattle.lrat_log.specs.Steps.{StaysLogOver, learned_count, given_of};
ghost use Rattle.eliminate_pairs.specs.Pairs.{stage_of};
ghost use Rattle.eliminate.specs.State.{Start};
ghost use Rattle.eliminate.specs.Simplifier.{IsSimplified};
ghost use Rattle.eliminate.specs.Variables.{IsOpenOver, LeavesLogOver};
ghost use Rattle.eliminate.specs.Ending.{IsResult};
ghost use Rattle.eliminate.specs.Elimination.{EliminationLeaves, IsWhole};

use crate::ending::define_where_open;
use crate::rounds::simplify;
use crate::simplifier::Simplifier;
use crate::units::propagate_units;
use clauses::store::Store;
use eliminate_names::names::{Names, move_together};
use lrat_log::sink::Sink;
use reconstruction::removals::Removals;
use reconstruction::stack::Stack;
use std::alloc::AllocError;

/// Eliminates variables that are not frozen, and writes down what it adds and deletes. What is left
/// is moved together, so that a search sizes its tables by clauses that are there.
///
/// The i-th live clause is the clause i of a formula. After an `Err` nothing is known of the store.
pub fn eliminate<S: Sink>(
    store: &mut Store,
    frozen: &[bool],
    sink: &mut S,
) -> Result<Stack, AllocError>
    requires formula { IsFormula (record {
      variables = length frozen.now;
      clauses = live_clauses store.old.slots;
    }) }
    requires empty { S.lines sink.old ≡ [] }

    // The lines, also after an error.
    ensures lines { StaysLogOver (length frozen.now) (given_of (live_clauses store.old.slots))
        (S.lines sink.new) }
    ensures none_learned { learned_count (S.lines sink.new) ≡ 0 }

    ensures leaves { IfOk result (λ stack. EliminationLeaves frozen.now
        (live_clauses store.old.slots) (S.lines sink.new) stack store.new.slots) }
{
    let mut simplifier = Simplifier::new(store.allocator(), store, frozen.len() as u32)?;
    // Dropped by calls: that is proved once, and not field by field here.
    let vars = match run_passes(&mut simplifier, store, frozen, sink) {
        Ok(vars) => vars,
        Err(AllocError) => {
            drop(simplifier);
            return Err(AllocError);
        }
    };
    move_together(store, &mut simplifier.names);
    let (names, removed) = simplifier.into_left();
    let names = match names.into_packed() {
        Ok(names) => names,
        Err(AllocError) => {
            drop(removed);
            return Err(AllocError);
        }
    };
    Ok(Stack::new(vars, removed, names))
}

/// Eliminates nothing: what is left is the formula itself, with room for variables up to this one.
/// Its clauses are moved together as `eliminate` does it.
///
/// # Errors
///
/// `AllocError` where memory was refused. Then nothing is known of the store.
pub fn keep_whole(store: &mut Store, variables: u32) -> Result<Stack, AllocError>
    ensures { IfOk result (IsWhole variables (live_clauses store.old.slots) store.new.slots) }
{
    let alloc = store.allocator();
    let mut names = Names::of(alloc, store)?;
    move_together(store, &mut names);
    let packed = names.into_packed()?;
    Ok(Stack::new(variables, Removals::new(alloc), packed))
}

/// The passes, one after another. The answer is the number of variables. The store and the names
/// are then those of what is left; the other tables are not.
fn run_passes<S: Sink>(
    simplifier: &mut Simplifier,
    store: &mut Store,
    frozen: &[bool],
    sink: &mut S,
) -> Result<u32, AllocError>
    requires { IsOpenOver frozen.now simplifier.old store.old.slots (S.lines sink.old) }
    ensures result { IfOk result (λ v. (start : Start) → start.frozen ≡ frozen.now
        → IsSimplified start simplifier.old store.old.slots (S.lines sink.old)
        → IsResult start simplifier.new.removals
        (stage_of v store.new.slots simplifier.new.names (S.lines sink.new))) }
    ensures refuted { OnOk result (IsRefutedByHints (live_clauses store.old.slots)
        → Contains (live_clauses store.new.slots) []) }
    ensures err { OnErr result (LeavesLogOver frozen.now simplifier.old store.old.slots
        (S.lines sink.old) (S.lines sink.new)) }
{
    propagate_units(simplifier, store, sink)?;
    simplify(simplifier, store, frozen, sink)?;
    define_where_open(simplifier, store, frozen, sink)
}
