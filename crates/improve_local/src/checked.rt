// Tables that are read and written at any place. A place outside has the value 0 or `false`, and
// writing there does nothing, so no proof needs to know that a table is long enough.

/// What stands there.
pub(crate) fn at<T: Copy + Default>(table: &[T], place: usize) -> T {
    table.get(place).copied().unwrap_or_default()
}

/// Writes there.
pub(crate) fn set<T: Drop>(table: &mut [T], place: usize, value: T) {
    if let Some(slot) = table.get_mut(place) {
        *slot = value;
    }
}

/// Writes at each place.
pub(crate) fn fill<T: Copy + Drop>(table: &mut [T], value: T) {
    for slot in table.iter_mut() {
        *slot = value;
    }
}

/// Writes at each place what stands there in the other table.
pub(crate) fn copy(table: &mut [bool], other: &[bool]) {
    for (place, bit) in table.iter_mut().enumerate() {
        *bit = at(other, place);
    }
}

/// The number in four bytes; the greatest of those where it has no room.
pub(crate) fn narrow(number: usize) -> u32 {
    u32::try_from(number).unwrap_or(u32::MAX)
}
