// The clauses of an instance by number: the hard ones from 0, and then the soft ones; and where
// each literal occurs.
use crate::checked::{at, narrow, set};
use cnf::types::{Instance, Lit};
use std::alloc::{AllocError, Global};

/// How many clauses there are.
pub(crate) fn count(instance: &Instance) -> usize {
    instance.hard().len().saturating_add(instance.soft().len())
}

/// The literals of a clause.
pub(crate) fn lits(instance: &Instance, number: u32) -> &[Lit] {
    let hard = instance.hard();
    let place = number as usize;
    if place < hard.len() {
        return hard.get(place);
    }
    match instance.soft().get(place - hard.len()) {
        Some(soft) => soft.clause().lits(),
        None => &[],
    }
}

/// What it costs to make a clause false; 0 for a hard one.
pub(crate) fn price(instance: &Instance, number: u32) -> u64 {
    let hard = instance.hard().len();
    let place = number as usize;
    if place < hard {
        return 0;
    }
    match instance.soft().get(place - hard) {
        Some(soft) => soft.weight(),
        None => 0,
    }
}

/// The clauses of each literal, all in one vector.
#[derive(Drop)]
pub(crate) struct Occurrences {
    // The numbers of clauses: those of the literal with index 0, then those of index 1, and so on.
    clauses: Vec<u32>,
    // By the index of a literal, where its clauses begin; they end where those of the next begin.
    starts: Vec<u32>,
}

impl Occurrences {
    /// Where the literals of the instance stand, in time linear in their number.
    pub(crate) fn new(alloc: Global, instance: &Instance) -> Result<Self, AllocError> {
        // One place more than starts and end: the clauses of index i are counted at i + 2, and the
        // place i + 1 goes from their beginning to their end while they are filled in.
        let places = (instance.vars() as usize)
            .saturating_mul(2)
            .saturating_add(2);
        let mut starts = Vec::from_elem(alloc, 0, places)?;
        let total = count_literals(instance, &mut starts);
        let mut clauses = Vec::from_elem(alloc, 0, total as usize)?;
        fill(instance, &mut starts, &mut clauses);
        Ok(Occurrences { clauses, starts })
    }

    /// How many literals all clauses have.
    pub(crate) fn len(&self) -> usize {
        self.clauses.len()
    }

    /// The clauses with the literal of this index.
    pub(crate) fn of(&self, index: usize) -> &[u32] {
        let start = at(&self.starts, index) as usize;
        let end = at(&self.starts, index.saturating_add(1)) as usize;
        if start <= end && end <= self.clauses.len() {
            &self.clauses[start..end]
        } else {
            &[]
        }
    }
}

/// Counts the literals of all clauses: each place, two after a literal's index, gets how many stand
/// up to that literal. The answer is how many there are.
fn count_literals(instance: &Instance, starts: &mut [u32]) -> u32 {
    for number in 0..count(instance) {
        for lit in lits(instance, narrow(number)) {
            raise(starts, lit.index().saturating_add(2));
        }
    }
    let mut sum = 0u32;
    for start in starts.iter_mut() {
        sum = sum.saturating_add(*start);
        *start = sum;
    }
    sum
}

/// Puts each clause where the next one of each of its literals belongs.
fn fill(instance: &Instance, starts: &mut [u32], clauses: &mut [u32]) {
    for number in 0..count(instance) {
        for lit in lits(instance, narrow(number)) {
            let next = lit.index().saturating_add(1);
            set(clauses, at(starts, next) as usize, narrow(number));
            raise(starts, next);
        }
    }
}

/// One more at this place.
fn raise(counts: &mut [u32], place: usize) {
    if let Some(count) = counts.get_mut(place) {
        *count = count.saturating_add(1);
    }
}
