// How many terms facts have.
ghost use Rattle.std.specs.Prelude.{◌≡◌, ℕ};
ghost use Rattle.forms.specs.Forms.{clause_size, fact_size, facts_size};
ghost use Rattle.forms.specs.Stamped.{numbered_in};

use crate::numbered::{Numbered, find, numbered_size};
use crate::table::ClauseTable;
use crate::types::NamedFact;
use cnf::types::Lit;

/// How many terms the facts have together. None where one of them is not there.
pub(crate) fn facts_size<T: ClauseTable>(
    numbered: &[Numbered],
    table: &T,
    facts: &[NamedFact],
) -> Option<u128>
    ensures { (present : ℕ) → result
        ≡ facts_size (T.at table.now) (numbered_in present numbered.now) facts.now }
{
    let mut total = 0;
    for fact in facts {
        total += fact_size(numbered, table, fact)? as u128;
    }
    Some(total)
}

/// How many terms the fact has. None where it is not there.
fn fact_size<T: ClauseTable>(numbered: &[Numbered], table: &T, fact: &NamedFact) -> Option<u64>
    ensures { (present : ℕ) → result
        ≡ fact_size (T.at table.now) (numbered_in present numbered.now) fact.now }
{
    if fact.is_numbered {
        Some(numbered_size(find(numbered, fact.number)?))
    } else {
        Some(clause_size(table.find(fact.number)?))
    }
}

/// How many terms the fact of a clause has.
pub(crate) fn clause_size(clause: &[Lit]) -> u64
    ensures { result ≡ clause_size clause.now }
{
    if clause.is_empty() {
        1
    } else {
        clause.len() as u64
    }
}
