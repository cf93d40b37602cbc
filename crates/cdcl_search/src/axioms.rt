// Clauses from outside the log: a sink has taken their lines, which have no hints.
ghost use Rattle.std.specs.Prelude.{◌≡◌, ◌+◌, ◌<◌, length, OnOk};
ghost use Rattle.lrat_log.specs.declared.log.TheConstants.{LINE_LIMIT};
ghost use Rattle.lrat_log.specs.Axioms.{IsNewClause};
ghost use Rattle.cdcl_search.specs.Axioms.{TakesAxiom};
ghost use Rattle.cdcl_search.specs.Running.{CanAttach};

use crate::levelling::level_for;
use crate::search::Search;
use clauses::store::CRef;
use cnf::types::Lit;
use lrat_log::lines::{Name, Number};
use std::alloc::AllocError;

/// Searches on with a clause from outside, whose line is written. It goes back to the highest level
/// below which no level ends with the clause false or unit: that of a single literal is 0. What is
/// to follow from the clause, or that it is false, the next `propagate` finds. With an LBD the
/// policy may delete it later, like a learned clause; without one it stays.
///
/// # Errors
///
/// `AllocError` where memory was refused: the search cannot go on.
pub fn take_axiom(search: &mut Search, lits: &[Lit], lbd: Option<u32>) -> Result<(), AllocError>
    requires can { CanAttach search.old lits.now }
    requires new { IsNewClause lits.now }
    requires some { 0 < length lits.now }
    requires few { search.old.additions + 1 < LINE_LIMIT }
    ensures takes { OnOk result (TakesAxiom search.old search.new lits.now) }
    ensures variables { OnOk result
        (search.new.engine.variables ≡ search.old.engine.variables) }
    ensures additions { OnOk result (search.new.additions ≡ search.old.additions + 1) }
{
    let reference = attach_axiom(search, lits)?;
    match lbd {
        Some(lbd) => search.policy.note_learned(reference, lits.len(), lbd),
        None => search.policy.note_kept(reference),
    }
    Ok(())
}

/// Attaches the clause under the name of the next addition, at the highest level that is possible.
fn attach_axiom(search: &mut Search, lits: &[Lit]) -> Result<CRef, AllocError>
    requires can { CanAttach search.old lits.now }
    requires new { IsNewClause lits.now }
    requires some { 0 < length lits.now }
    requires few { search.old.additions + 1 < LINE_LIMIT }
    ensures takes { OnOk result (TakesAxiom search.old search.new lits.now) }
    ensures variables { OnOk result
        (search.new.engine.variables ≡ search.old.engine.variables) }
    ensures additions { OnOk result (search.new.additions ≡ search.old.additions + 1) }
{
    let level = level_for(&search.engine, lits);
    search.backtrack(level);
    let name = Name::Added(Number::new(search.additions + 1));
    let reference = search.attach_clause(name, lits)?;
    search.additions += 1;
    Ok(reference)
}
