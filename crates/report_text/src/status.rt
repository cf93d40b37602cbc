//! How a run ends that met no fault.
ghost use Rattle.std.specs.Prelude.{◌≡◌};
ghost use Rattle.report_text.specs.Answering.{status_by, status_of};
ghost use Rattle.report_text.specs.Best.{said_by};
ghost use Rattle.report_text.specs.Codes.{code_of_cuts, code_of_status};

use crate::finding::Finding;
use improve_found::found::{Found, Work};

/// What a run found out.
#[derive(Drop)]
pub enum Status {
    /// The bits that were written are a solution, and none is cheaper.
    OptimumFound,
    /// No assignment satisfies the hard clauses.
    Unsatisfiable,
    /// The budget is spent, on this work. The bits that were written are a solution, and a cheaper
    /// one may be there.
    Satisfiable(Work),
    /// The budget is spent, on this work, and no solution was met.
    Unknown(Work),
}

impl Status {
    /// How a run ends that found this.
    pub fn of(found: Found) -> Self
        ensures { result ≡ status_of found }
    {
        match found {
            Found::Optimum { .. } => Status::OptimumFound,
            Found::Unsat { .. } => Status::Unsatisfiable,
            Found::Best { work, .. } => Status::Satisfiable(work),
            Found::Nothing { work } => Status::Unknown(work),
        }
    }

    /// The exit status: 30 for an optimum, 20 where there is no solution, 10 for a solution, 0
    /// where nothing is known.
    pub fn code(&self) -> u8
        ensures { result ≡ code_of_status self.now }
    {
        match self {
            Status::OptimumFound => 30,
            Status::Unsatisfiable => 20,
            Status::Satisfiable(_) => 10,
            Status::Unknown(_) => 0,
        }
    }
}

/// What a run by forms and cuts found out.
#[derive(Clone, Copy, Drop)]
pub enum CutsStatus {
    /// The bits that were written are a solution, and none is cheaper.
    OptimumFound,
    /// No assignment satisfies the hard clauses.
    Unsatisfiable,
    /// The budget is spent. The bits that were written are a solution, and a cheaper one may be
    /// there.
    Satisfiable,
    /// The budget is spent, and no solution was met.
    Unknown,
}

impl CutsStatus {
    /// How a run ends that found this.
    pub fn of(finding: &Finding<'_>) -> Self
        ensures { result ≡ status_by (said_by finding.now) }
    {
        match finding {
            Finding::Optimum { .. } => CutsStatus::OptimumFound,
            Finding::Unsat => CutsStatus::Unsatisfiable,
            Finding::Best { .. } => CutsStatus::Satisfiable,
            Finding::Nothing => CutsStatus::Unknown,
        }
    }

    /// The exit status, as `Status::code` has it.
    pub fn code(&self) -> u8
        ensures { result ≡ code_of_cuts self.now }
    {
        match self {
            CutsStatus::OptimumFound => 30,
            CutsStatus::Unsatisfiable => 20,
            CutsStatus::Satisfiable => 10,
            CutsStatus::Unknown => 0,
        }
    }
}
