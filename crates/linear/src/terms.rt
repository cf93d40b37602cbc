// What a variable adds to the cost and to what stands beside it, and sums of what is added.
ghost use Rattle.std.specs.Prelude.{◌≡◌, ◌+◌, ◌<◌, ◌≤◌, ◌^◌, ◌*◌, pos, ◌+ℤ◌, ◌-ℤ◌, ◌*ℤ◌};
ghost use Rattle.std.specs.Int.RustNames.{unsigned_abs};
ghost use Rattle.linear.specs.Linear.{least_term, shortfall};
ghost use Rattle.std.specs.Prelude.{All, if◌then◌else◌};
ghost use Rattle.linear.specs.Terms.{AreSmall, added_of, costs, values};

/// What stands at a variable.
#[derive(Clone, Copy, Drop)]
pub struct Term {
    // The coefficient beside the cost, if the stamp is the present one; else that is 0.
    pub added: i128,
    // The coefficient of the cost: its absolute value is below 2^62.
    pub cost: i64,
    // From when the coefficient beside the cost is: at most the present stamp.
    pub stamp: u32,
    // The variable's value, if it has one.
    pub value: Option<bool>,
}

const _: () = prove!(size_of::<Term>() == 32);

/// What is of no account yet: nothing is added, and there is no value.
pub const NOTHING: Term = Term {
    added: 0,
    cost: 0,
    stamp: 0,
    value: None,
};

/// The coefficient beside the cost.
pub fn added_at(term: &Term, present: u32) -> i128
    ensures { result ≡ added_of present term.now }
{
    if term.stamp == present { term.added } else { 0 }
}

/// The coefficient of `scale` times the cost, with `added` on top.
pub fn coefficient(scale: u64, cost: i64, added: i128) -> i128
    requires { AreSmall scale cost added }
    ensures value { result ≡ (pos scale *ℤ cost) +ℤ added }
    ensures bound { unsigned_abs result ≤ 2 ^ 125 }
{
    scale as i128 * cost as i128 + added
}

/// The least that a coefficient gives, where its variable may have a value.
pub fn least_of(coefficient: i128, value: Option<bool>) -> i128
    requires { unsigned_abs coefficient ≤ 2 ^ 125 }
    ensures value { result ≡ least_term coefficient value }
    ensures bound { unsigned_abs result ≤ 2 ^ 125 }
{
    match value {
        None => part_below(coefficient),
        Some(true) => coefficient,
        Some(false) => 0,
    }
}

/// The coefficient where it is below 0, and else 0.
fn part_below(coefficient: i128) -> i128
    ensures value { result ≡ pos 0 -ℤ pos (shortfall coefficient) }
    ensures bound { unsigned_abs result ≤ unsigned_abs coefficient }
{
    if coefficient < 0 { coefficient } else { 0 }
}

/// A sum of which one part changes.
pub fn moved(sum: i128, old: i128, new: i128) -> i128
    requires sum { unsigned_abs sum < 2 ^ 126 }
    requires old { unsigned_abs old ≤ 2 ^ 125 }
    requires new { unsigned_abs new ≤ 2 ^ 125 }
    ensures { result +ℤ old ≡ sum +ℤ new }
{
    sum - old + new
}

/// A sum with `by` added.
pub fn raised(sum: i128, by: i128) -> i128
    requires sum { unsigned_abs sum < 2 ^ 126 }
    requires by { unsigned_abs by < 2 ^ 126 }
    ensures value { result ≡ sum +ℤ by }
    ensures bound { unsigned_abs result ≤ unsigned_abs sum + unsigned_abs by }
{
    sum + by
}

/// The least that a variable gives: `scale` times its coefficient of the cost, plus `added`.
pub fn least_at(scale: u64, term: &Term, added: i128) -> i128
    requires { AreSmall scale term.now.cost added }
    ensures value { result ≡ least_term ((pos scale *ℤ term.now.cost) +ℤ added) term.now.value }
    ensures bound { unsigned_abs result ≤ 2 ^ 125 }
{
    least_of(coefficient(scale, term.cost, added), term.value)
}

/// The coefficient of the cost with `weight` added.
pub fn raised_cost(cost: i64, weight: i64) -> i64
    requires cost { unsigned_abs cost < 2 ^ 62 }
    requires weight { unsigned_abs weight < 2 ^ 62 }
    ensures value { result ≡ cost +ℤ weight }
    ensures bound { unsigned_abs result ≤ unsigned_abs cost + unsigned_abs weight }
{
    cost + weight
}

/// What a literal's weight adds to the coefficient of its variable.
pub fn coefficient_part(weight: u64, negated: bool) -> i64
    requires { weight < 2 ^ 62 }
    ensures value { result ≡ (if negated then pos 0 -ℤ pos weight else pos weight) }
    ensures bound { unsigned_abs result ≤ weight }
{
    if negated {
        -(weight as i64)
    } else {
        weight as i64
    }
}

/// What a literal's weight adds to the constant.
pub fn constant_part(weight: u64, negated: bool) -> i128
    ensures value { result ≡ (if negated then pos weight else pos 0) }
    ensures bound { unsigned_abs result ≤ weight }
{
    if negated { weight as i128 } else { 0 }
}

/// A stamp that no term has. It takes constant time, but for one call in 2^32.
pub fn next_stamp(terms: &mut [Term], present: u32) -> u32
    requires { All (λ t. t.stamp ≤ present) terms.old }
    ensures costs { costs terms.new ≡ costs terms.old }
    ensures values { values terms.new ≡ values terms.old }
    ensures above { All (λ t. t.stamp < result) terms.new }
{
    if present == u32::MAX {
        take_stamps(terms);
        return 1;
    }
    present + 1
}

/// Takes all stamps away.
fn take_stamps(terms: &mut [Term])
    ensures costs { costs terms.new ≡ costs terms.old }
    ensures values { values terms.new ≡ values terms.old }
    ensures none { All (λ t. t.stamp < 1) terms.new }
{
    for term in terms.iter_mut() {
        term.stamp = 0;
    }
}

/// `scale` times a least cost.
pub fn scaled(scale: u64, least: i128) -> i128
    requires scale { scale < 2 ^ 62 }
    requires least { unsigned_abs least < 2 ^ 63 }
    ensures { result ≡ pos scale *ℤ least }
{
    scale as i128 * least
}

/// A least value where a variable's literal, negated or not, becomes false.
pub fn where_false(least: i128, scale: u64, term: &Term, present: u32, negated: bool) -> i128
    requires least { unsigned_abs least < 2 ^ 126 }
    requires parts { AreSmall scale term.now.cost (added_of present term.now) }
    ensures { let c = (pos scale *ℤ term.now.cost) +ℤ added_of present term.now in
        result +ℤ least_term c term.now.value ≡ least +ℤ least_term c (Some negated) }
{
    let coefficient = coefficient(scale, term.cost, added_at(term, present));
    let before = least_of(coefficient, term.value);
    let after = least_of(coefficient, Some(negated));
    moved(least, before, after)
}
