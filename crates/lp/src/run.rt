// How far a run of the method has come, when it begins anew, and when it is over.
use crate::limits::{Limits, Relaxed};
use crate::measured::Measured;
use crate::open::Norms;
use crate::steps::Pace;
use crate::tables::between;

/// What is not known is taken for that much.
const UNKNOWN: f64 = 1e300;

/// The scale stays within this factor of the balance of costs and bounds.
const RANGE: f64 = 1e3;

/// It restarts once the error is this part of that of the last restart.
const FAST: f64 = 0.2;

/// It restarts once the error is this part of that of the last restart, and grows again.
const SLOW: f64 = 0.8;

/// It restarts once this part of all iterations was made since the last restart.
const LONG: f64 = 0.36;

/// It has converged where the error is this part of the bound.
const PRECISION: f64 = 1e-5;

/// It is given up where the bound is nearer to the cost than by this part of what is missing.
const HOPELESS: f64 = 0.3;

/// Steps shorter than this say nothing of the scale (the square of a length).
const TINY: f64 = 1e-14;

/// A run: what it has come to.
#[derive(Clone, Copy, Drop)]
pub(crate) struct Run {
    // The best bound so far; finite.
    pub(crate) best: f64,
    // About what the optimum is at most.
    estimate: f64,
    // How many iterations there were.
    iterations: u32,
    // How many there were since the last restart.
    since: u32,
    // How great costs are beside bounds; above 0.
    balance: f64,
    // How long steps of multipliers are beside those of values.
    pub(crate) scale: f64,
    // The error at the last restart; below 0 where there was none.
    restart_error: f64,
    // The error when it was measured last, since then.
    last_error: f64,
    // How many coefficients were visited.
    pub(crate) visited: u64,
}

impl Run {
    /// A run that begins with the least bound. The scale is that of an earlier run, or 0.
    pub(crate) fn new(norms: &Norms, scale: f64) -> Self {
        let balance = if norms.costs > 0.0 {
            norms.costs / norms.bounds.max(1.0)
        } else {
            1.0
        };
        let mut run = Run {
            best: norms.least,
            estimate: UNKNOWN,
            iterations: 0,
            since: 0,
            balance,
            scale: balance,
            restart_error: -1.0,
            last_error: UNKNOWN,
            visited: 0,
        };
        if scale > 0.0 {
            run.set_scale(scale);
        }
        run
    }

    /// How long the next step is.
    pub(crate) fn pace(&self) -> Pace {
        let since = f64::from(self.since);
        let weight = (since + 1.0) / (since + 2.0);
        Pace {
            scale: self.scale,
            inverse: 1.0 / self.scale,
            weight,
            rest: 1.0 - weight,
        }
    }

    /// A step was made over `coefficients` coefficients.
    pub(crate) fn stepped(&mut self, coefficients: u64) {
        self.iterations = self.iterations.saturating_add(1);
        self.since = self.since.saturating_add(1);
        self.visit(coefficients);
    }

    /// `coefficients` coefficients were visited.
    pub(crate) fn visit(&mut self, coefficients: u64) {
        self.visited = self.visited.saturating_add(coefficients);
    }

    /// Whether this bound is better than those before, and the best one from now on.
    pub(crate) fn takes(&mut self, measured: &Measured) -> bool {
        let is_better = measured.bound.is_finite() && measured.bound > self.best;
        if is_better {
            self.best = measured.bound;
        }
        is_better
    }

    /// Whether it is over: the bound suffices, or is as good as it gets, or will not suffice.
    pub(crate) fn is_over(&mut self, measured: &Measured, limits: &Limits) -> bool {
        if self.best > limits.target {
            return true;
        }
        self.estimate = measured.estimate();
        let missing = limits.target - measured.cost;
        let is_hopeless = self.estimate < limits.target
            && measured.cost - measured.bound < HOPELESS * missing;
        limits.may_stop && self.iterations >= limits.least && is_hopeless
            || measured.error(self.balance) < PRECISION * (1.0 + self.best.abs())
    }

    /// Whether it is time to begin anew from where the last step has ended.
    pub(crate) fn restarts(&mut self, measured: &Measured) -> bool {
        let error = measured.error(self.balance);
        let is_due = self.restart_error < 0.0
            || error < FAST * self.restart_error
            || error < SLOW * self.restart_error && error > self.last_error
            || f64::from(self.since) > LONG * f64::from(self.iterations);
        self.last_error = error;
        if is_due {
            self.since = 0;
            self.restart_error = error;
            self.last_error = UNKNOWN;
        }
        is_due
    }

    /// Since the last restart values and multipliers went so far (squares of lengths): the scale
    /// comes nearer to the one at which both go as far.
    pub(crate) fn rescale(&mut self, values: f64, multipliers: f64) {
        let least = TINY * self.balance * self.balance;
        if values > TINY && multipliers > least {
            self.set_scale(((multipliers / values).sqrt() * self.scale).sqrt());
        }
    }

    /// What has come of it.
    pub(crate) fn relaxed(&self) -> Relaxed {
        Relaxed {
            bound: self.best,
            estimate: self.estimate,
            iterations: self.iterations,
            visited: self.visited,
        }
    }

    // The scale becomes this, or what is nearest to it.
    fn set_scale(&mut self, scale: f64) {
        self.scale = between(scale, self.balance / RANGE, self.balance * RANGE);
    }
}
