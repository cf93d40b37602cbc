// How often pairs meet, by a table of small counters by a hash (a counting filter, Fan et al.
// 2000): a counter is never below the number of the clauses with one of its pairs.
ghost use Rattle.std.specs.Prelude.{◌≤◌};

use std::alloc::{AllocError, Global};
use std::cmp::Ordering;

/// Small counters of pairs, by a hash.
#[derive(Drop)]
pub(crate) struct Sketch {
    // A power of two of them; each stays at 255.
    counters: Vec<u8>,
    // By how many bits a hash is shifted right to the place of a counter.
    shift: u32,
    // The least value of a large counter.
    fewest: usize,
    /// How many of the pairs that were counted have a large counter.
    pub(crate) many: usize,
}

impl Sketch {
    /// No pair is counted yet, and there is room for `pairs`; `fewest` make a large counter.
    pub(crate) fn new(alloc: Global, pairs: usize, fewest: usize) -> Result<Self, AllocError> {
        let bits = bits_for(pairs);
        Ok(Sketch {
            counters: Vec::from_elem(alloc, 0u8, 1 << bits)?,
            shift: 64 - bits,
            fewest,
            many: 0,
        })
    }

    /// The place of a pair's counter, by Fibonacci's multiplier (Knuth, The Art of Computer
    /// Programming 3).
    fn slot(&self, left: u32, right: u32) -> usize {
        let pair = u64::from(left) << 32 | u64::from(right);
        let mixed = (pair ^ pair >> 29).wrapping_mul(0x9E37_79B9_7F4A_7C15);
        (mixed >> self.shift.min(63)) as usize
    }

    /// Counts a meeting of the pair.
    pub(crate) fn count(&mut self, left: u32, right: u32) {
        let place = self.slot(left, right);
        if let Some(counter) = self.counters.get_mut(place) {
            *counter = counter.saturating_add(1);
            let more = match (*counter as usize).cmp(&self.fewest) {
                Ordering::Less => 0,
                Ordering::Equal => self.fewest,
                Ordering::Greater => 1,
            };
            self.many = self.many.saturating_add(more);
        }
    }

    /// Whether the pair has a large counter.
    pub(crate) fn is_many(&self, left: u32, right: u32) -> bool {
        match self.counters.get(self.slot(left, right)) {
            Some(counter) => *counter as usize >= self.fewest,
            None => false,
        }
    }
}

/// How many bits the places of a table with a counter for each pair have, within bounds.
fn bits_for(pairs: usize) -> u32
    ensures { result ≤ 25 }
{
    for bits in 12..25u32 {
        if 1usize << bits >= pairs {
            return bits;
        }
    }
    25
}
