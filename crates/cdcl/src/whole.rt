// A search over a formula that is left as it is.
//
// Where clauses come from outside the log, no variable can be eliminated: its definition would have
// to hold in each of them. So the search begins with the clauses of the formula, under their
// numbers.
ghost use Rattle.std.specs.Prelude.{◌≡◌, ◌+◌, ◌≤◌, [], length, IfOk};
ghost use Rattle.lrat_log.specs.Steps.{given_of};
ghost use Rattle.cdcl_search.specs.Running.{Runs, IsInput};
ghost use Rattle.cdcl.specs.declared.whole.TheConstants.{MOST_ROOM};

use cdcl_search::given::GivenClauses;
use cdcl_search::input::Input;
use cdcl_search::search::Search;
use cdcl_search::starting::{start, store_of};
use cnf::types::Formula;
use eliminate::elimination::keep_whole;
use std::alloc::{AllocError, Global};

/// The most variables that a search has room for in addition to those of the formula.
pub const MOST_ROOM: u32 = 1 << 20;

/// A search at level 0 over the clauses of the formula, and `room` variables more.
///
/// # Errors
///
/// `AllocError` where memory was refused.
pub fn start_whole(formula: Formula, room: u32) -> Result<(Search, Input), AllocError>
    requires room { room ≤ MOST_ROOM }
    ensures runs { IfOk result (λ r. Runs r.0 r.1 []) }
    ensures input { IfOk result (λ r. IsInput r.1) }
    ensures given { IfOk result (λ r. (r.1).given ≡ given_of formula.clauses) }
    ensures variables { IfOk result (λ r.
        length ((r.1).frozen).items ≡ formula.variables) }
    ensures room { IfOk result (λ r.
        (r.0).engine.variables ≡ formula.variables + room) }
{
    let variables = formula.vars();
    let clauses = formula.into_clauses();
    let frozen = freeze_all(clauses.allocator(), variables)?;
    let mut store = store_of(&clauses)?;
    let given = GivenClauses::of(clauses)?;
    // There are fewer of them than numbers.
    let _ = given.len();
    let mut stack = keep_whole(&mut store, variables + room)?;
    let search = start(store, &mut stack, 0)?;
    let input = Input {
        stack,
        frozen,
        first: 0,
        given,
    };
    Ok((search, input))
}

/// No variable up to this one may be eliminated.
fn freeze_all(alloc: Global, variables: u32) -> Result<Vec<bool>, AllocError>
    ensures { IfOk result (λ v. length v.items ≡ variables) }
{
    Vec::from_elem(alloc, true, variables as usize)
}
