// Tables that are read and written at any place, and what counts for a number that is none.

/// What stands there, or a value for what does not.
pub(crate) fn at_or<T: Copy>(table: &[T], place: usize, other: T) -> T {
    table.get(place).copied().unwrap_or(other)
}

/// Writes there; nothing where there is no such place.
pub(crate) fn set<T: Drop>(table: &mut [T], place: usize, value: T) {
    if let Some(slot) = table.get_mut(place) {
        *slot = value;
    }
}

/// Writes at each place.
pub(crate) fn fill(table: &mut [f64], value: f64) {
    for slot in table.iter_mut() {
        *slot = value;
    }
}

/// The number, at least 0; 0 where it is none.
#[inline]
pub(crate) fn from_zero(number: f64) -> f64 {
    if number > 0.0 { number } else { 0.0 }
}

/// The number, at most 0; 0 where it is none.
#[inline]
pub(crate) fn to_zero(number: f64) -> f64 {
    if number < 0.0 { number } else { 0.0 }
}

/// The number, from `low` to `high`; `low` where it is none.
#[inline]
pub(crate) fn between(number: f64, low: f64, high: f64) -> f64 {
    let above = if number > low { number } else { low };
    if above < high { above } else { high }
}

/// A multiplier: the number, if it is finite and at least 0, and else 0.
pub(crate) fn multiplier(number: f64) -> f64 {
    if number.is_finite() {
        from_zero(number)
    } else {
        0.0
    }
}
