// Which assumptions cannot hold together, where a search stopped at one that is false.
ghost use Rattle.std.specs.Prelude.{◌≡◌, ◌<◌, ◌≤◌, true, false, Some, length, Contains};
ghost use Rattle.propagate.specs.Trail.{value_in};
ghost use Rattle.cdcl_order.specs.Budgets.{left_of};
ghost use Rattle.cdcl_search.specs.Invariant.{zero_of};
ghost use Rattle.cdcl_search.specs.Running.{Runs};
ghost use Rattle.cdcl.specs.Guiding.{FindsCore};

use crate::budget::Budget;
use cdcl_search::assumptions::Assumptions;
use cdcl_search::cores::{Refusal, learn_core};
use cdcl_search::input::Input;
use cdcl_search::search::Search;
use cnf::types::Lit;
use lrat_log::sink::Sink;
use propagate::engine::Engine;
use std::alloc::AllocError;

/// The core that an assumption gives which is false: some of the assumptions, which cannot hold
/// together. Its clause is learned at level 0, for a unit of the budget, unless some live clause
/// has no literals but its. None where they did not stop the search at one that is false, and where
/// that rests on more than assumptions.
///
/// # Errors
///
/// `AllocError` where memory was refused: the search cannot go on. The log stays open.
pub fn find_core<S: Sink>(
    search: &mut Search,
    input: &Input,
    sink: &mut S,
    budget: &mut Budget,
    assumptions: &Assumptions,
) -> Result<Option<Vec<Lit>>, AllocError>
    requires runs { Runs search.old input.now (S.lines sink.old) }
    requires noted { length (zero_of search.old.engine.trail) ≤ search.old.noted }
    requires left { 0 < left_of budget.old }
    ensures finds { FindsCore result search.new input.now assumptions.now (S.lines sink.old)
        (S.lines sink.new) budget.old budget.new }
    ensures follows { (first : S) → S.follows first sink.old → S.follows first sink.new }
{
    let Some(falsified) = assumptions.falsified() else {
        return Ok(None);
    };
    if !is_refused(&search.engine, assumptions.lits(), falsified) {
        return Ok(None);
    }
    let refusal = search.refuse(assumptions.lits(), falsified)?;
    match refusal {
        Refusal::Shown(core) => Ok(Some(core)),
        Refusal::Follows(core, clause) => {
            learn_core(search, input, sink, &clause)?;
            budget.count_learned();
            Ok(Some(core))
        }
        Refusal::Unknown => Ok(None),
    }
}

/// Whether the literal is one of the assumptions, and false.
fn is_refused(engine: &Engine, assumptions: &[Lit], lit: Lit) -> bool
    ensures assumed { result ≡ true → Contains assumptions.now lit }
    ensures small { result ≡ true → lit.variable ≤ engine.now.variables }
    ensures falsified { result ≡ true → value_in engine.now.trail lit ≡ Some false }
{
    if lit.variable() > engine.variables() {
        return false;
    }
    engine.value(lit) == Some(false) && assumptions.contains(&lit)
}
