// Tables that are read and written at any place. A place outside has the value 0, and writing there
// does nothing.

/// What stands there.
pub(crate) fn at<T: Copy + Default>(table: &[T], place: usize) -> T {
    table.get(place).copied().unwrap_or_default()
}

/// Writes there.
pub(crate) fn set<T: Drop>(table: &mut [T], place: usize, value: T) {
    if let Some(slot) = table.get_mut(place) {
        *slot = value;
    }
}

/// Adds there; sums stop at the ends of the range.
pub(crate) fn add(table: &mut [i128], place: usize, number: i128) {
    if let Some(slot) = table.get_mut(place) {
        *slot = slot.saturating_add(number);
    }
}
