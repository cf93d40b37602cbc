// Clauses that come after the formula.
ghost use Rattle.std.specs.Prelude.{◌≡◌, ◌<◌, false, All, OnOk, OnErr};
ghost use Rattle.cnf.specs.declared.limits.TheConstants.{NUMBER_LIMIT};
ghost use Rattle.lrat_log.specs.declared.lines.Name.TheVariants.{Formula};
ghost use Rattle.cdcl_search.specs.Running.{CanAttach};
ghost use Rattle.cdcl_search.specs.Giving.{TakesClause, TakesGiven, GivesOne};

use crate::input::Input;
use crate::search::Search;
use cnf::types::Lit;
use lrat_log::lines::{Name, Number};
use std::alloc::AllocError;

/// Searches on with one clause more, from level 0.
fn take_clause(search: &mut Search, number: u64, lits: &[Lit]) -> Result<(), AllocError>
    requires number { (0 < number) × (number < NUMBER_LIMIT) }
    requires can { CanAttach search.old lits.now }
    ensures { OnOk result (TakesClause search.old search.new (Formula number) lits.now) }
{
    search.backtrack(0);
    search.attach_clause(Name::Formula(Number::new(number)), lits)?;
    Ok(())
}

/// Keeps the clause among those given.
fn keep_clause(input: &mut Input, number: u64, lits: &[Lit]) -> Result<(), AllocError>
    requires number { (0 < number) × (number < NUMBER_LIMIT) }
    ensures given { OnOk result (GivesOne input.old input.new (Formula number) lits.now) }
    ensures unchanged { OnErr result (input.new ≡ input.old) }
{
    input.given.push(Number::new(number), lits)
}

/// Gives the clause to the search, unless that has ended with the empty clause, and keeps it among
/// those given.
pub fn give(
    search: &mut Search,
    input: &mut Input,
    refuted: bool,
    number: u64,
    lits: &[Lit],
) -> Result<(), AllocError>
    requires number { (0 < number) × (number < NUMBER_LIMIT) }
    requires can { refuted ≡ false → CanAttach search.old lits.now }
    ensures takes { OnOk result (refuted ≡ false
        → TakesGiven search.old search.new input.old input.new (Formula number) lits.now) }
    ensures given { OnOk result (GivesOne input.old input.new (Formula number) lits.now) }
    ensures unchanged { OnErr result (input.new ≡ input.old) }
{
    if refuted {
        return keep_clause(input, number, lits);
    }
    take_clause(search, number, lits)?;
    keep_clause(input, number, lits)
}

/// Asks each literal its variable, which is from 1. A proof learns this of a literal that the code
/// asks, and of no others.
pub fn ask_variables(lits: &[Lit])
    ensures { All (λ l. 0 < l.variable) lits.now }
{
    for lit in lits {
        lit.variable();
    }
}
