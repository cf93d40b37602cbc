// Where pairs are looked for: which clauses, and which of their literals. Long clauses and literals
// that stand in few clauses are skipped, so the work stays near linear.
use clauses::store::Store;
use cnf::types::Lit;
use std::alloc::{AllocError, Global};

/// The fewest clauses with a pair that may be worth a variable.
pub(crate) const FEWEST: usize = 4;

/// The fewest clauses with a pair that may be worth a variable in a large store: each saves one
/// literal, and a definition takes seven. So a large formula does not get longer.
const FEWEST_IN_A_LARGE_STORE: usize = 8;

/// A store with more literals and clauses, dead ones too, is large.
const LARGE: usize = 1 << 20;

/// The shortest clauses in which pairs are looked for.
pub(crate) const SHORTEST: usize = 3;

/// The longest ones.
pub(crate) const LONGEST: usize = 32;

/// Whether pairs are looked for in a clause of this length.
fn is_looked_at(length: usize) -> bool {
    SHORTEST <= length && length <= LONGEST
}

/// Whether the store is large.
fn is_large(store: &Store) -> bool {
    store.used() > LARGE
}

/// In how many clauses a pair must stand to be worth a variable, `FEWEST` or more.
fn fewest_in(store: &Store) -> usize {
    if is_large(store) {
        FEWEST_IN_A_LARGE_STORE
    } else {
        FEWEST
    }
}

/// The first place of those where a round after the first one looks for pairs: as many clauses as
/// `new` came last.
pub(crate) fn first_looked_at(store: &Store, new: usize) -> usize {
    if is_large(store) {
        store.places().saturating_sub(new)
    } else {
        0
    }
}

/// Which literals stand in enough clauses.
#[derive(Drop)]
pub(crate) struct Frequencies {
    /// The first place of the store where pairs are looked for.
    pub(crate) first: usize,
    // By literal, in how many of the clauses in which pairs are looked for it stands.
    counts: Vec<u32>,
    /// In how many of them a pair must stand.
    pub(crate) fewest: usize,
}

impl Frequencies {
    /// The literals of the clauses from a place on, over the variables up to `vars`.
    pub(crate) fn of(
        alloc: Global,
        store: &Store,
        first: usize,
        vars: u32,
    ) -> Result<Self, AllocError> {
        let mut counts = Vec::from_elem(alloc, 0u32, 2 * vars as usize)?;
        for place in first..store.places() {
            for lit in lits_looked_at(store, place) {
                if let Some(count) = counts.get_mut(lit.index()) {
                    *count = count.saturating_add(1);
                }
            }
        }
        Ok(Frequencies {
            first,
            counts,
            fewest: fewest_in(store),
        })
    }

    /// Whether the literal stands in enough clauses.
    fn is_frequent(&self, lit: Lit) -> bool {
        match self.counts.get(lit.index()) {
            Some(count) => *count as usize >= self.fewest,
            None => false,
        }
    }

    /// Over how many literals the counts are.
    pub(crate) fn literals(&self) -> usize {
        self.counts.len()
    }

    /// Puts the indices of the frequent literals of a clause into `out`.
    pub(crate) fn list(
        &self,
        store: &Store,
        place: usize,
        out: &mut Vec<u32>,
    ) -> Result<(), AllocError> {
        out.clear();
        for lit in lits_looked_at(store, place) {
            if self.is_frequent(*lit) {
                out.push(lit.index() as u32)?;
            }
        }
        Ok(())
    }
}

/// The literals of the clause at a place, where pairs are looked for in it; else none.
fn lits_looked_at(store: &Store, place: usize) -> &[Lit] {
    match store.live_at(place) {
        Some(reference) => {
            let lits = store.lits(reference);
            if is_looked_at(lits.len()) { lits } else { &[] }
        }
        None => &[],
    }
}
