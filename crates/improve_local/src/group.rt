// Some of the numbers below a bound, in any order: one is put in, taken out or met by its place in
// one step.
use crate::checked::{at, narrow, set};
use std::alloc::{AllocError, Global};

/// Some of the numbers from 0 on that lie below a bound, each at most once.
#[derive(Drop)]
pub(crate) struct Group {
    // The numbers that are in it, each once; there is room for all.
    members: Vec<u32>,
    // By number, its place among the members, where it is one.
    places: Vec<u32>,
}

impl Group {
    /// None of the numbers below 0.
    pub(crate) fn new(alloc: Global) -> Self {
        Group {
            members: Vec::new(alloc),
            places: Vec::new(alloc),
        }
    }

    /// A group of none gets room for the numbers below the bound.
    pub(crate) fn size(&mut self, bound: usize) -> Result<(), AllocError> {
        self.members.reserve(bound)?;
        self.places.resize(bound, 0)
    }

    /// Takes all out.
    pub(crate) fn clear(&mut self) {
        self.members.clear();
    }

    /// How many are in it.
    pub(crate) fn len(&self) -> usize {
        self.members.len()
    }

    /// The one at this place.
    pub(crate) fn at(&self, place: usize) -> u32 {
        at(&self.members, place)
    }

    /// Puts one in that is not there.
    pub(crate) fn put(&mut self, number: u32) {
        let place = self.members.len();
        if self.members.push(number).is_ok() {
            set(&mut self.places, number as usize, narrow(place));
        }
    }

    /// Takes one out that is there: the last one takes its place.
    pub(crate) fn take(&mut self, number: u32) {
        if let Some(last) = self.members.pop() {
            let place = at(&self.places, number as usize);
            set(&mut self.members, place as usize, last);
            set(&mut self.places, last as usize, place);
        }
    }
}
