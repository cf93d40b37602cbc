// How long a relaxation is solved, and what comes of it.

/// How long a relaxation is solved.
#[derive(Clone, Copy, Drop)]
pub struct Limits {
    /// The most iterations that are made.
    pub most: u32,
    /// The fewest iterations after which it is given up.
    pub least: u32,
    /// A bound above this is enough.
    pub target: f64,
    /// Whether it is given up once the bound seems not to come above `target`.
    pub may_stop: bool,
}

/// What came of it. Nothing may rest on its numbers.
#[derive(Clone, Copy, Drop)]
pub struct Relaxed {
    /// The best lower bound, which is that of the multipliers of the point. It is finite.
    pub bound: f64,
    /// About what the optimum of the relaxation is at most; 1e300 where nothing is known.
    pub estimate: f64,
    /// How many iterations were made.
    pub iterations: u32,
    /// How many coefficients were visited.
    pub visited: u64,
}
