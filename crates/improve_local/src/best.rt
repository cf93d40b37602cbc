// The best bits that a search met. Bits that are better take the place of these by the flips that
// led to them: if each better solution of 200,000 variables is copied, 42 copies use up all visits.
use crate::checked::{at, copy, set};
use std::alloc::{AllocError, Global};

/// The best bits so far, and the flips that lead from them to those of the search.
#[derive(Drop)]
pub(crate) struct Best {
    // The best bits, one for each variable from 0 on.
    bits: Vec<bool>,
    // The variables that were flipped since, in their order, as many as there is room for. There
    // is room for as many as variables.
    flipped: Vec<u32>,
    // How many flips there were since, also such as had no room.
    flips: usize,
}

impl Best {
    /// Room for the bits of `variables` variables, each of them false.
    pub(crate) fn new(alloc: Global, variables: usize) -> Result<Self, AllocError> {
        Ok(Best {
            bits: Vec::from_elem(alloc, false, variables)?,
            flipped: Vec::from_elem(alloc, 0, variables)?,
            flips: 0,
        })
    }

    /// A search begins, of which these bits are the best so far.
    pub(crate) fn begin(&mut self, bits: &[bool]) {
        copy(&mut self.bits, bits);
        self.flips = 0;
    }

    /// The best bits so far, one for each variable from 0 on.
    pub(crate) fn bits(&self) -> &[bool] {
        &self.bits
    }

    /// The search goes on from the best bits.
    pub(crate) fn go_back(&mut self) {
        self.flips = 0;
    }

    /// The search flipped a variable.
    pub(crate) fn follow(&mut self, variable: u32) {
        set(&mut self.flipped, self.flips, variable);
        self.flips = self.flips.saturating_add(1);
    }

    /// The bits of the search are the best so far. The answer is how many were written.
    pub(crate) fn take(&mut self, bits: &[bool]) -> u64 {
        let flips = self.flips;
        self.flips = 0;
        if flips > self.flipped.len() {
            copy(&mut self.bits, bits);
            return self.bits.len() as u64;
        }
        for place in 0..flips {
            if let Some(bit) = self.bits.get_mut(at(&self.flipped, place) as usize) {
                *bit = !*bit;
            }
        }
        flips as u64
    }
}
