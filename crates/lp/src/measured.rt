// What a pair of points is worth.
use crate::tables::from_zero;

/// What multipliers and values are worth, both at once.
#[derive(Clone, Copy, Drop)]
pub(crate) struct Measured {
    // The lower bound of the multipliers.
    pub(crate) bound: f64,
    // What the values cost.
    pub(crate) cost: f64,
    // The sum of the squares of what rows lack.
    lack: f64,
    // The sum of what rows lack, each times its multiplier.
    penalty: f64,
}

impl Measured {
    /// Without rows and columns: what is paid already.
    pub(crate) fn of_constant(constant: f64) -> Self {
        Measured {
            bound: constant,
            cost: constant,
            lack: 0.0,
            penalty: 0.0,
        }
    }

    /// With one more row, which has this bound, lack and multiplier.
    #[inline]
    pub(crate) fn add_row(&mut self, bound: f64, lack: f64, multiplier: f64) {
        self.bound += bound * multiplier;
        let lack = from_zero(lack);
        self.lack += lack * lack;
        self.penalty += lack * multiplier;
    }

    /// About what values cost that lack nothing.
    pub(crate) fn estimate(&self) -> f64 {
        self.cost + 2.0 * self.penalty
    }

    /// How far it is from an optimum: what rows lack in all, in units of the cost, and how far the
    /// bound is from the cost.
    pub(crate) fn error(&self, balance: f64) -> f64 {
        let gap = self.cost - self.bound;
        (balance * balance * self.lack + gap * gap).sqrt()
    }
}
