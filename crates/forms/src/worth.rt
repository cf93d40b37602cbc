// What a least value is worth.
ghost use Rattle.std.specs.Prelude.{◌≡◌, ◌^◌, ◌≤◌, ◌<◌, min};
ghost use Rattle.std.specs.Int.RustNames.{unsigned_abs};
ghost use Rattle.cnf.specs.declared.limits.TheConstants.{NUMBER_LIMIT};
ghost use Rattle.forms.specs.Forms.{worth_of};

use cnf::limits::NUMBER_LIMIT;

/// The greatest cost up to 2^62 for which the least value of a form is above the scale times the
/// cost less 1: the quotient, rounded up. None where there is no such cost.
pub(crate) fn worth_of(scale: u64, least: i128) -> Option<u64>
    requires scale { scale < NUMBER_LIMIT }
    requires least { unsigned_abs least ≤ 2 ^ 126 }
    ensures { result ≡ worth_of scale least }
{
    if scale == 0 {
        return if least > 0 { Some(NUMBER_LIMIT) } else { None };
    }
    let lifted = least + (scale - 1) as i128;
    if lifted < 0 {
        return None;
    }
    Some(capped(lifted as u128 / scale as u128))
}

/// The number, if it is at most 2^62, and else that.
fn capped(number: u128) -> u64
    ensures { result ≡ min NUMBER_LIMIT number }
{
    if number < NUMBER_LIMIT as u128 {
        number as u64
    } else {
        NUMBER_LIMIT
    }
}
