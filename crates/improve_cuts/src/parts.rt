// What a session does with one of its parts.
ghost use Rattle.std.specs.Prelude.{◌≡◌, ◌≤◌, ◌*◌};
ghost use Rattle.cdcl_order.specs.Budgets.{left_of};
ghost use Rattle.improve_cuts.specs.Sessions.{cost_of};

use cdcl::budget::Budget;
use cdcl::watch::Way;
use cnf::limits::NUMBER_LIMIT;
use cnf::types::Lit;
use forms::state::Forms;
use improve_found::solutions::Solution;
use improve_found::watch::Raised;

/// What the best solution costs; 2^62 while there is none.
pub fn cost_in(best: &Option<Solution>) -> u64
    ensures { result ≡ cost_of best.now }
{
    match best {
        Some(solution) => solution.cost,
        None => NUMBER_LIMIT,
    }
}

/// The last output of the count with this number, if there is one.
pub fn last_output(forms: &Forms, number: u64) -> Option<Lit> {
    let outputs = forms.outputs(number)?;
    outputs.last().copied()
}

/// How many counts and groups there are.
pub fn numbered_in(forms: &Forms) -> u64 {
    for number in 0..u64::MAX {
        if forms.inputs(number + 1).is_none() {
            return number;
        }
    }
    u64::MAX
}

/// Spends units, as if for clauses that are learned, until at most `most` are left.
pub fn spend_to(budget: &mut Budget, most: u64)
    ensures left { left_of budget.new ≤ most }
    ensures just { most ≤ left_of budget.old → left_of budget.new ≡ most }
    ensures none { left_of budget.old ≤ most → budget.new ≡ budget.old }
    ensures paid { budget.new ≡ record budget.old { learned = budget.new.learned } }
{
    while budget.left() > most {
        budget.count_learned();
    }
}

/// A lower bound that the present form shows, as the watch is told of it.
pub fn raised_by(forms: &Forms, lower: u64, way: Way) -> Raised
    ensures lower { result.lower ≡ lower }
    ensures tenths { result.tenths ≤ 10 * lower }
{
    Raised {
        lower,
        tenths: tenths_of(forms, lower),
        way,
    }
}

/// What the present form is worth in tenths, rounded up: at most ten times `lower`.
fn tenths_of(forms: &Forms, lower: u64) -> u64
    ensures { result ≤ 10 * lower }
{
    let most = lower.saturating_mul(10);
    let scale = forms.scale() as u128;
    let least = forms.least();
    if least <= 0 {
        return 0;
    }
    if scale == 0 {
        return most;
    }
    let least = least as u128;
    let whole = least / scale;
    if whole >= lower as u128 {
        return most;
    }
    let part = least % scale * 10;
    let tenths = part / scale;
    let more = if part % scale == 0 { 0 } else { 1 };
    (whole as u64)
        .saturating_mul(10)
        .saturating_add(tenths as u64)
        .saturating_add(more)
        .min(most)
}
