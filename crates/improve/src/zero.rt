// The end where a solution costs nothing. The formula for 'cost below 0' has the empty clause, as
// its last one, so a log of one line refutes it and no solver is asked.
ghost use Rattle.std.specs.Prelude.{◌≡◌, IfOk};
ghost use Rattle.cnf.specs.Lrat.{IsId};
ghost use Rattle.bound.specs.Bound.{bound_as};
ghost use Rattle.improve.specs.Improving.{IsAcceptedOver, IsClauseCount, repeats_empty};

use adder::profiles::Profile;
use bound::formulas::formula_as;
use cnf::types::Instance;
use lrat_log::lines::{Hint, Kind, Name, Number};
use lrat_log::log::Log;
use lrat_log::sink::Sink;
use std::alloc::{AllocError, Global};

/// A log that refutes a formula.
#[derive(Drop)]
pub struct RefutingLog {
    /// It ends with a line that adds the empty clause.
    pub log: Log,
    /// How many clauses the formula has, fewer than 2^28.
    pub clauses: u64,
}

/// Refutes the formula for 'cost below 0'.
pub fn refute_zero(instance: &Instance, profile: Profile) -> Result<RefutingLog, AllocError>
    ensures accepted { IfOk result
        (λ r. IsAcceptedOver (bound_as profile instance.now 0).clauses r.log) }
    ensures counted { IfOk result
        (λ r. IsClauseCount r.clauses (bound_as profile instance.now 0).clauses) }
{
    let formula = formula_as(instance, 0, profile)?;
    let clauses = formula.clauses().len() as u64;
    let log = repeat_empty(instance.allocator(), clauses)?;
    Ok(RefutingLog { log, clauses })
}

/// A log whose one line adds the empty clause, since the formula has it under this number.
fn repeat_empty(alloc: Global, number: u64) -> Result<Log, AllocError>
    requires { IsId number }
    ensures { IfOk result (λ log. log ≡ repeats_empty number) }
{
    let hint = Hint::Plain(Name::Formula(Number::new(number)));
    let mut log = Log::new(alloc);
    log.append(Kind::Empty, &[], &[hint])?;
    Ok(log)
}
