// Room for the watches of clauses that are about to be attached. Without values a clause watches
// its first two literals, so these are counted beforehand: rows that grow one by one leave their
// old places empty, and end with up to half of their own room unused.
ghost use Rattle.std.specs.Prelude.{◌≡◌};

use super::Engine;
use clauses::store::Store;
use cnf::types::Lit;
use propagate_watches::pool::WatchEntry;
use std::alloc::AllocError;

/// By literal, how many live clauses have it as one of their first two.
fn count_watches(store: &Store, rows: usize) -> Result<Vec<u32>, AllocError> {
    let mut counts = Vec::from_elem(store.allocator(), 0, rows)?;
    for place in 0..store.places() {
        if let Some(reference) = store.live_at(place) {
            count_first(&mut counts, store.lits(reference));
        }
    }
    Ok(counts)
}

/// Counts the first two literals of a clause.
fn count_first(counts: &mut [u32], lits: &[Lit]) {
    for at in 0..lits.len().min(2) {
        if let Some(count) = counts.get_mut(lits[at].index()) {
            *count = count.saturating_add(1);
        }
    }
}

impl Engine {
    /// Gives the rows room for the watches of the store's clauses.
    pub(super) fn make_rooms(&mut self, store: &Store) -> Result<(), AllocError>
        ensures unchanged { self.new ≡ self.old }
    {
        let Some(reference) = (0..store.places()).find_map(|place| store.live_at(place)) else {
            return Ok(());
        };
        let counts = count_watches(store, self.pool.rows())?;
        let blocker = Lit::new(1, false);
        self.pool
            .make_rooms(&counts, &WatchEntry { reference, blocker })
    }
}
