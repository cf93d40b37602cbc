//! Tables that are read and written at any place. A place outside has the value 0 or `false`, and
//! writing there does nothing, so no proof needs to know that a table is long enough. What the
//! search does with them decides how soon it ends, and nothing that is promised of it.
ghost use Rattle.std.specs.Prelude.{◌≡◌, slice_get, slice_set};
ghost use Rattle.std.specs.Option.{UnwrapsOrElse};

/// What stands there; beyond the end the default.
pub fn at<T: Copy + Default>(table: &[T], place: usize) -> T
    ensures { UnwrapsOrElse (slice_get table.now place) T.is_default result }
{
    table.get(place).copied().unwrap_or_default()
}

/// Writes there; beyond the end nothing changes.
pub fn set<T: Drop>(table: &mut [T], place: usize, value: T)
    ensures { table.new ≡ slice_set table.old place value }
{
    if place < table.len() {
        table[place] = value;
    }
}
