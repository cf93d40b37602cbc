//! What a run found out, for those who look on: the same of each kind of search.
ghost use Rattle.std.specs.Prelude.{◌≡◌};
ghost use Rattle.report_text.specs.Best.{said_by, said_of, said_of_cuts};

use improve_found::found::{CutsFound, Found};

/// What a run found out.
#[derive(Clone, Copy, Drop)]
pub enum Finding<'a> {
    /// These bits, one for each variable, are a solution of this cost, below 2^62. None is cheaper.
    Optimum { cost: u64, bits: &'a [bool] },
    /// No assignment satisfies the hard clauses.
    Unsat,
    /// These bits are a solution of this cost. A cheaper one may be there.
    Best { cost: u64, bits: &'a [bool] },
    /// No solution was met.
    Nothing,
}

impl<'a> Finding<'a> {
    /// What a search with logs found.
    pub fn of(found: &'a Found) -> Self
        ensures { said_by result ≡ said_of found.now }
    {
        match found {
            Found::Optimum { cost, bits, .. } => Finding::Optimum {
                cost: *cost,
                bits: bits.as_slice(),
            },
            Found::Unsat { .. } => Finding::Unsat,
            Found::Best { cost, bits, .. } => Finding::Best {
                cost: *cost,
                bits: bits.as_slice(),
            },
            Found::Nothing { .. } => Finding::Nothing,
        }
    }

    /// What a search by forms and cuts found.
    pub fn of_cuts(found: &'a CutsFound) -> Self
        ensures { said_by result ≡ said_of_cuts found.now }
    {
        match (&found.best, found.is_proved) {
            (Some(best), true) => Finding::Optimum {
                cost: best.cost,
                bits: best.bits.as_slice(),
            },
            (Some(best), false) => Finding::Best {
                cost: best.cost,
                bits: best.bits.as_slice(),
            },
            (None, true) => Finding::Unsat,
            (None, false) => Finding::Nothing,
        }
    }
}
