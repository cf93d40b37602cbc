//! A result as it is read.
ghost use Rattle.std.specs.Prelude.{◌<◌};
ghost use Rattle.cnf.specs.declared.limits.TheConstants.{NUMBER_LIMIT};

/// What an `s` line says.
#[derive(Clone, Copy, Debug, PartialEq, Eq, Drop)]
pub(crate) enum Claim {
    /// `OPTIMUM FOUND`
    Optimum,
    /// `UNSATISFIABLE`
    Unsat,
    /// `SATISFIABLE`: a solution, and nothing of its being optimal.
    Sat,
    /// `UNKNOWN`: a limit was met before a solution.
    Limit,
}

/// A cost below 2^62 and the line that tells it.
#[derive(Clone, Copy)]
pub struct Cost {
    /// Below 2^62.
    pub cost: u64,
    /// From 1.
    pub line: u64,
    ghost small: { cost < NUMBER_LIMIT },
}

/// A solution: the last cost that was told, and the bits, from variable 1 on, with their line.
#[derive(Drop)]
pub struct ClaimedSolution {
    /// The last one that was told, with its line.
    pub cost: Cost,
    /// By variable, that of 1 first.
    pub bits: Vec<bool>,
    /// From 1.
    pub bits_line: u64,
}

/// What a result says, with the lines of its solution where it has one.
#[derive(Drop)]
pub enum Said {
    /// No solution costs less than this one.
    Optimum(ClaimedSolution),
    /// There is no solution.
    Unsat,
    /// This solution, and nothing of its being optimal.
    Sat(ClaimedSolution),
    /// Nothing: a limit was met before a solution.
    Limit,
}

/// A whole result as it was read: what it says, with the lines that a verdict names.
#[derive(Drop)]
pub struct Report {
    /// The status, with what stands before and after it.
    pub said: Said,
    /// From 1.
    pub status_line: u64,
}

/// What stands before the bits: the last cost, and the status of an optimum or of another solution.
#[derive(Clone, Copy)]
pub(crate) struct Heading {
    /// Whether the status is that of an optimum.
    pub(crate) is_optimum: bool,
    /// The last one that was told, with its line.
    pub(crate) cost: Cost,
    /// From 1.
    pub(crate) status_line: u64,
}

/// How far a result was read.
#[derive(Drop)]
pub(crate) enum Reading {
    /// `o` lines, of which the last is kept.
    Costs(Option<Cost>),
    /// The status was read, and the bits must come.
    Bits(Heading),
    /// Nothing more may come.
    End(Report),
}

/// Why a text is no result.
#[derive(Clone, Copy, Debug, PartialEq, Eq, Drop)]
pub enum ReportFault {
    /// The first line that cannot stand there, or 0 where the text ends too soon.
    Form(u64),
    /// Memory was refused.
    Memory,
}
