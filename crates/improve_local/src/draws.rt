// Numbers that look as if they were drawn, the same in each run: Lehmer's generator with the factor
// of Park and Miller, "Random number generators: good ones are hard to find" (CACM 1988).

const FACTOR: u64 = 48_271;

const MODULUS: u64 = 2_147_483_647;

/// A row of numbers that goes on with each draw.
#[derive(Drop)]
pub(crate) struct Draws {
    // What was drawn last, from 1 below the modulus.
    last: u64,
}

impl Draws {
    /// Each row begins in the same place, so that two runs draw the same numbers.
    pub(crate) fn new() -> Self {
        Draws { last: 12_345 }
    }

    /// A number below the bound; 0 where that is 0.
    pub(crate) fn below(&mut self, bound: usize) -> usize {
        self.last = self.last.wrapping_mul(FACTOR) % MODULUS;
        if bound == 0 {
            return 0;
        }
        self.last as usize % bound
    }
}
