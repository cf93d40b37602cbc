// The bits of a satisfying assignment.
ghost use Rattle.std.specs.Prelude.{◌≡◌, ◌<◌, true, Some, List, length, take, IfOk};
ghost use Rattle.cnf.specs.Literal.{Literal};
ghost use Rattle.cnf.specs.declared.limits.TheConstants.{VARIABLE_LIMIT};
ghost use Rattle.propagate.specs.Trail.{literals_of, value_in};
ghost use Rattle.analyze.specs.Analyzer.{IsFixpoint};
ghost use Rattle.cdcl_order.specs.Orders.{AreClosed};
ghost use Rattle.lrat_log.specs.Log.{LogLine};
ghost use Rattle.reconstruction.specs.Removals.{extended};
ghost use Rattle.cdcl.specs.Outcomes.{AreValues};
ghost use Rattle.cdcl.specs.Solving.{SatisfyGiven};
ghost use Rattle.cdcl_search.specs.Giving.{IsFrozen};
ghost use Rattle.cdcl.specs.Outcomes.{IsTrueUnder};
ghost use Rattle.cdcl_search.specs.Running.{Runs, IsInput};

use cdcl_search::input::Input;
use cdcl_search::search::Search;
use cnf::types::Lit;
use std::alloc::AllocError;

/// The values of the formula's variables: those of the trail, with the eliminated ones set by
/// reconstruction.
pub fn bits(search: &Search, input: &Input) -> Result<Vec<bool>, AllocError>
    requires runs { (ls : List LogLine) × Runs search.now input.now ls }
    requires input { IsInput input.now }
    requires fixpoint { IsFixpoint search.now.store.slots (literals_of search.now.engine.trail) }
    requires closed { AreClosed search.now.engine.trail search.now.engine.variables }
    ensures long { IfOk result (λ bits. length bits.items ≡ length input.now.frozen.items) }
    ensures satisfied { IfOk result (λ bits. SatisfyGiven bits.items input.now.given) }
    ensures frozen { IfOk result (λ bits. (l : Literal) → 0 < l.variable
        → IsFrozen input.now.frozen.items l → value_in search.now.engine.trail l ≡ Some true
        → IsTrueUnder bits.items l) }
{
    let mut bits = read_values(search)?;
    set_eliminated(input, &mut bits);
    Ok(bits)
}

/// The values of the trail, by variable, that of 1 first.
fn read_values(search: &Search) -> Result<Vec<bool>, AllocError>
    requires closed { AreClosed search.now.engine.trail search.now.engine.variables }
    requires few { search.now.engine.variables < VARIABLE_LIMIT }
    ensures long { IfOk result (λ bits. length bits.items ≡ search.now.engine.variables) }
    ensures values { IfOk result (λ bits. AreValues search.now.engine.trail bits.items) }
{
    let mut bits = Vec::new(search.store.allocator());
    for variable in 1..search.engine.variables() + 1 {
        let value = search.engine.value(Lit::new(variable, false));
        bits.push(value.unwrap_or(false))?;
    }
    Ok(bits)
}

/// Sets the eliminated variables by reconstruction, and keeps those of the formula.
fn set_eliminated(input: &Input, bits: &mut Vec<bool>)
    requires { length bits.old.items ≡ input.now.stack.variables }
    ensures { bits.new.items ≡ take (length input.now.frozen.items)
        (extended input.now.stack.removed bits.old.items) }
{
    input.stack.extend(bits);
    bits.truncate(input.frozen.len());
}
