// The last pass: fresh variables for pairs. It needs the names of the clauses, and no other table.
// So the clauses that are left can move together before it: mostly more are dead than live, and
// their room goes to the table of pairs.
ghost use Rattle.std.specs.Prelude.{◌≡◌, ◌+◌, true, IfOk, OnErr, OnOk};
ghost use Rattle.eliminate.specs.State.{Start};
ghost use Rattle.eliminate.specs.Simplifier.{IsSimplified};
ghost use Rattle.eliminate.specs.Variables.{IsSimplifierOver, LeavesLogOver};
ghost use Rattle.eliminate_pairs.specs.Pairs.{stage_of};
ghost use Rattle.eliminate.specs.Ending.{IsResult};

use crate::simplifier::Simplifier;
use clauses::store::Store;
use eliminate_names::names::move_together;
use eliminate_pairs::pairs::define_pairs;
use eliminate_tables::bins::Bins;
use eliminate_tables::rows::Rows;
use eliminate_tables::schedule::Schedule;
use lrat_log::sink::Sink;
use std::alloc::{AllocError, Global};

/// The most variables that are fresh.
const MOST_FRESH: u32 = 1 << 20;

/// Frees the tables that the last pass does not need: on large formulas its pairs take their room.
fn give_back(occurrences: &mut Rows, bins: &mut Bins, schedule: &mut Schedule, alloc: Global) {
    if let Ok(none) = Rows::new(alloc, 0) {
        *occurrences = none;
    }
    if let Ok(none) = Bins::new(alloc, 0) {
        *bins = none;
    }
    if let Ok(none) = Schedule::new(alloc, 0) {
        *schedule = none;
    }
}

/// Replaces pairs of literals by fresh variables, unless the empty clause was added. The answer is
/// the number of variables. The store and the names are then those of what is left; the other
/// tables are not.
pub(crate) fn define_where_open<S: Sink>(
    simplifier: &mut Simplifier,
    store: &mut Store,
    frozen: &[bool],
    sink: &mut S,
) -> Result<u32, AllocError>
    requires { IsSimplifierOver frozen.now simplifier.old store.old.slots (S.lines sink.old) }
    ensures result { IfOk result (λ v. (start : Start) → start.frozen ≡ frozen.now
        → IsSimplified start simplifier.old store.old.slots (S.lines sink.old)
        → IsResult start simplifier.new.removals
        (stage_of v store.new.slots simplifier.new.names (S.lines sink.new))) }
    ensures refuted { OnOk result (simplifier.old.is_refuted ≡ true
        → store.new.slots ≡ store.old.slots) }
    ensures err { OnErr result (LeavesLogOver frozen.now simplifier.old store.old.slots
        (S.lines sink.old) (S.lines sink.new)) }
{
    if simplifier.is_refuted {
        return Ok(simplifier.vars);
    }
    give_back(
        &mut simplifier.occurrences,
        &mut simplifier.bins,
        &mut simplifier.schedule,
        store.allocator(),
    );
    move_together(store, &mut simplifier.names);
    let most = frozen.len() as u32 + MOST_FRESH;
    define_pairs(store, &mut simplifier.names, sink, simplifier.vars, most)
}
