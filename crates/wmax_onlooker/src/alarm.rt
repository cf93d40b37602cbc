//! The end that `--time-limit` sets: when a search waives the effort that is left.
ghost use Rattle.std.specs.Prelude.{◌≡◌, ◌+◌, ◌≤◌};

use std::rt::Clock;
use std::time::{Duration, Instant};

/// How long a run may take.
#[derive(Clone, Copy, Drop)]
pub struct Deadline {
    /// When it began; none where no clock is looked at, or it cannot be read.
    begun: Option<Instant>,
    /// How much time it has; none where it may take any.
    limit: Option<Duration>,
}

impl Deadline {
    /// A run begins now, with this limit of time.
    pub fn start<R: Clock>(rt: &R, limit: Option<Duration>) -> Self {
        if limit.is_none() {
            return Deadline { begun: None, limit };
        }
        Deadline {
            begun: Instant::now(rt).ok(),
            limit,
        }
    }

    /// Whether the time is over. It is where a limit was set, and the clock cannot be read.
    fn is_over<R: Clock>(&self, rt: &R) -> bool {
        let Some(limit) = self.limit else {
            return false;
        };
        match (self.begun, Instant::now(rt)) {
            (Some(begun), Ok(now)) => now.duration_since(begun) >= limit,
            _ => true,
        }
    }
}

/// Waives the effort that is left once the time of a run is over.
#[derive(Drop)]
pub struct Alarm<'a, R: Clock> {
    /// The clock.
    rt: &'a R,
    /// How long the run may take.
    deadline: Deadline,
    /// How many units it has waived: 0 until the time is over.
    pub(crate) waived: u64,
}

impl<'a, R: Clock> Alarm<'a, R> {
    /// Nothing is waived yet.
    pub fn new(rt: &'a R, deadline: Deadline) -> Self
        ensures { result.waived ≡ 0 }
    {
        Alarm {
            rt,
            deadline,
            waived: 0,
        }
    }

    /// How many of the units that are left it waives: all, the first time that the time is over.
    pub(crate) fn waives(&mut self, left: u64) -> u64
        ensures within { result ≤ left }
        ensures waives { self.new.waived ≡ self.old.waived + result }
    {
        if self.waived > 0 || !self.deadline.is_over(self.rt) {
            return 0;
        }
        self.waived = left;
        left
    }
}
