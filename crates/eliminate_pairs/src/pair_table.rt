// Which pairs of literals occur together in many clauses, by counting, and where each stands now. A
// clause that has not moved has its pairs still, and the literals of the others are read only while
// the pair can still stand in enough clauses.
ghost use Rattle.std.specs.Prelude.{IfSome};
ghost use Rattle.clauses.specs.Slots.{IsLive};

use crate::frequencies::{Frequencies, SHORTEST};
use crate::meeting_rows::{place_of, right_of, rows_of};
use crate::runs::{Run, runs_of};
use clauses::store::{CRef, Store};
use cnf::types::Lit;
use std::alloc::AllocError;

/// A pair that may be worth a variable.
#[derive(Drop)]
pub(crate) struct PairCandidate {
    /// The one of lower index.
    pub(crate) left: Lit,
    /// The one of higher index.
    pub(crate) right: Lit,
    // The place of its first meeting among those of the table.
    start: usize,
    // The place after its last one.
    end: usize,
    // In how many clauses every pair must stand.
    least: usize,
}

impl PairCandidate {
    /// In how many clauses it must still stand.
    pub(crate) fn fewest(&self) -> usize {
        self.least.max(self.end.saturating_sub(self.start) / 2)
    }
}

/// The pairs of a store that stand together in many clauses.
#[derive(Drop)]
pub(crate) struct PairTable {
    // A row for each lower literal, those that hold a run sorted: the index of the higher literal
    // in the upper half of a word, and the place of the clause in the lower one.
    meetings: Vec<u64>,
    // The pairs that were met often enough, in their order.
    runs: Vec<Run>,
    // In how many clauses a pair must stand.
    fewest: usize,
    // By place at the time of the walks, where the clause stands now.
    moved: Vec<u32>,
    // The clauses of the pair in hand: the place now, and the place at the time of the walks.
    found: Vec<(u32, u32)>,
}

impl PairTable {
    /// The pairs of the clauses from the place `first` on, over the variables up to `vars`.
    pub(crate) fn new(store: &Store, first: usize, vars: u32) -> Result<Self, AllocError> {
        let alloc = store.allocator();
        let frequencies = Frequencies::of(alloc, store, first, vars)?;
        let fewest = frequencies.fewest;
        let (mut meetings, ends) = rows_of(alloc, store, &frequencies)?;
        let mut runs = runs_of(alloc, &mut meetings, &ends, fewest)?;
        runs.sort_unstable();
        let mut moved = Vec::with_capacity(alloc, store.places())?;
        for place in 0..store.places() {
            moved.push(u32::try_from(place).unwrap_or(u32::MAX))?;
        }
        Ok(PairTable {
            meetings,
            runs,
            fewest,
            moved,
            found: Vec::new(alloc),
        })
    }

    /// How many pairs there are.
    pub(crate) fn len(&self) -> usize {
        self.runs.len()
    }

    /// The pair with this number, from 0.
    pub(crate) fn candidate(&self, k: usize) -> Option<PairCandidate> {
        let run = self.runs.get(k)?;
        let start = run.start as usize;
        let meeting = self.meetings.get(start)?;
        Some(PairCandidate {
            left: literal_at(run.left)?,
            right: literal_at(right_of(*meeting))?,
            start,
            end: run.end as usize,
            least: self.fewest,
        })
    }

    /// Finds the clauses in which the pair still stands, in rising reference; fewer than all where
    /// they are fewer than it must still stand in.
    pub(crate) fn find(
        &mut self,
        store: &Store,
        candidate: &PairCandidate,
    ) -> Result<(), AllocError> {
        self.found.clear();
        let fewest = candidate.fewest();
        let mut is_moved = false;
        for k in candidate.start..candidate.end {
            let left = candidate.end.saturating_sub(k);
            if self.found.len().saturating_add(left) < fewest {
                return Ok(());
            }
            let before = place_of(self.meetings.get(k).copied().unwrap_or(u64::MAX));
            let Some(place) = self.moved.get(before as usize) else {
                continue;
            };
            if *place == before {
                self.found.push((before, before))?;
            } else if stands_in(store, *place, candidate) {
                is_moved = true;
                self.found.push((*place, before))?;
            }
        }
        if is_moved {
            self.found.sort_unstable();
        }
        Ok(())
    }

    /// The clauses that were found: the place now, and the place at the time of the walks.
    pub(crate) fn found(&self) -> &[(u32, u32)] {
        &self.found
    }

    /// One of the clauses that were found, where it is still there.
    pub(crate) fn found_at(&self, k: usize, store: &Store) -> Option<CRef>
        ensures { IfSome result (λ r. IsLive store.now.slots r) }
    {
        let (place, _) = self.found.get(k)?;
        store.live_at(*place as usize)
    }

    /// Notes that another clause stands for one of those that were found.
    pub(crate) fn note(&mut self, k: usize, new: CRef) {
        if let Some((_, before)) = self.found.get(k) {
            if let Some(place) = self.moved.get_mut(*before as usize) {
                *place = u32::try_from(new.index()).unwrap_or(u32::MAX);
            }
        }
    }
}

/// Whether a clause at this place has both literals and enough others.
fn stands_in(store: &Store, place: u32, candidate: &PairCandidate) -> bool {
    let Some(reference) = store.live_at(place as usize) else {
        return false;
    };
    let lits = store.lits(reference);
    let mut count = 0u32;
    for lit in lits {
        if *lit == candidate.left || *lit == candidate.right {
            count = count.saturating_add(1);
        }
    }
    count == 2 && lits.len() >= SHORTEST
}

/// The literal with this index.
fn literal_at(index: u32) -> Option<Lit> {
    if index < (1 << 28) - 2 {
        Some(Lit::new(index / 2 + 1, index % 2 == 1))
    } else {
        None
    }
}
