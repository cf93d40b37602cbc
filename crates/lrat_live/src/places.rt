// Where the literals of long candidates stand. A line may name a clause of n literals as its
// candidate, and n lines may, so that to go over the clause for each takes n^2 steps. Hence a long
// clause is sorted once, when it is first named, and a literal is then looked for by halving. What
// is found is looked up in the clause itself: so no proof needs to know what is kept here.
//
// A long candidate takes 8 bytes more for each of its literals, until it is deleted. To remember
// only the place found last would not help with lines that ask for two literals in turn.
// Still slow: a clause of the formula that has the literal itself more than once is gone over.
ghost use Rattle.std.specs.Prelude.{◌≡◌, ◌≤◌, true, IfOk};
ghost use Rattle.cnf.specs.Clause.{contains_literal};
ghost use Rattle.lrat_live.specs.Counts.{times_in};

use crate::counts::times_in;
use cnf::types::Lit;
use std::alloc::{AllocError, Global};
use std::collections::BTreeMap;

/// A clause of no more literals is gone over.
const SHORT: usize = 64;

/// Where the literals of the long clauses that were named stand, as far as it is known.
#[derive(Drop)]
pub(crate) struct KnownPlaces {
    /// By a clause's id, its literals' indices with their places behind them, in rising order.
    by_id: BTreeMap<u64, Vec<u64>>,
    /// Where memory comes from.
    alloc: Global,
}

/// The literal's index, with a place behind it.
fn key_of(lit: Lit, place: usize) -> u64 {
    ((lit.index() as u64) << 32) | place as u64
}

/// Whether the literal stands at this place.
fn stands_at(clause: &[Lit], place: usize, lit: Lit) -> bool
    ensures { result ≡ true → contains_literal lit clause.now ≡ true }
{
    if place >= clause.len() {
        return false;
    }
    if clause[place] != lit {
        return false;
    }
    true
}

impl KnownPlaces {
    /// None so far.
    pub(crate) fn new(alloc: Global) -> Self {
        KnownPlaces {
            by_id: BTreeMap::new(alloc),
            alloc,
        }
    }

    /// Whether the literal is known to stand in the clause under an id.
    pub(crate) fn shows(&self, id: u64, lit: Lit, clause: &[Lit]) -> bool
        ensures { result ≡ true → contains_literal lit clause.now ≡ true }
    {
        let Some(keys) = self.by_id.get(&id) else {
            return false;
        };
        let from = key_of(lit, 0);
        let at = keys.as_slice().partition_point(|key| *key < from);
        match keys.as_slice().get(at) {
            Some(key) => stands_at(clause, (*key & 4_294_967_295) as usize, lit),
            None => false,
        }
    }

    /// At how many places of the clause under an id the literal stands, or one where it stands at
    /// more of a long clause.
    pub(crate) fn times(&mut self, id: u64, lit: Lit, clause: &[Lit]) -> Result<usize, AllocError>
        ensures { IfOk result (λ n. n ≤ times_in lit clause.now) }
    {
        if clause.len() <= SHORT {
            return Ok(times_in(lit, clause));
        }
        if self.shows(id, lit, clause) {
            return Ok(1);
        }
        self.sort(id, clause)?;
        Ok(times_in(lit, clause))
    }

    /// Sorts the literals of a clause, unless they are.
    fn sort(&mut self, id: u64, clause: &[Lit]) -> Result<(), AllocError> {
        if self.by_id.contains_key(&id) {
            return Ok(());
        }
        let mut keys = Vec::new(self.alloc);
        for (place, lit) in clause.iter().enumerate() {
            keys.push(key_of(*lit, place))?;
        }
        keys.sort_unstable();
        self.by_id.insert(id, keys)?;
        Ok(())
    }

    /// Drops what is known of the clause under an id.
    pub(crate) fn forget(&mut self, id: u64) {
        if self.by_id.is_empty() {
            return;
        }
        self.by_id.remove(&id);
    }
}
