// A sink that counts what passes through it, and takes no clause from outside.
ghost use Rattle.std.specs.Prelude.{◌≡◌, ◌<◌};
ghost use Rattle.lrat_log.specs.Log.{is_axiom};
ghost use Rattle.lrat_log.specs.Steps.{added_count};
ghost use Rattle.cdcl_search.specs.Running.{is_refuted};
ghost use Rattle.cdcl.specs.Guiding.{axiom_count};

use cnf::types::Lit;
use lrat_log::lines::{Hint, Kind};
use lrat_log::sink::Sink;
use std::alloc::AllocError;

/// The sink of a solver. It takes no clause from outside. It knows how many additions it has taken,
/// and whether the empty clause was one of them.
#[derive(Drop)]
pub(crate) struct Tally<S: Sink> {
    /// What the lines go to.
    pub(crate) sink: S,
    /// How many additions it took, below 2^61.
    pub(crate) additions: u64,
    /// Whether the empty clause was one of them. It stays so.
    pub(crate) refuted: bool,
    ghost counted: { additions ≡ added_count (S.lines sink) },
    ghost told: { refuted ≡ is_refuted (S.lines sink) },
    ghost own: { axiom_count (S.lines sink) ≡ 0 },
}

impl<S: Sink> Sink for Tally<S> {
    ghost lines = { λ t. S.lines t.sink };

    ghost follows = { λ first now. S.follows first.sink now.sink };

    /// # Errors
    ///
    /// `AllocError` for a line that brings a clause from outside, and where the sink below refuses
    /// the line. The lines stay as they were.
    fn append(&mut self, kind: Kind, lits: &[Lit], hints: &[Hint]) -> Result<(), AllocError> {
        if is_axiom(kind) {
            return Err(AllocError);
        }
        self.sink.is_short();
        self.sink.append(kind, lits, hints)?;
        if !kind.is_delete() {
            self.additions += 1;
            self.refuted = self.refuted || lits.is_empty();
        }
        Ok(())
    }

    fn cut(&mut self, _lits: &[Lit]) -> Result<bool, AllocError> {
        Ok(false)
    }

    fn is_short(&self) {
        self.sink.is_short();
    }
}

/// Whether lines of this kind bring a clause from outside.
fn is_axiom(kind: Kind) -> bool
    ensures { result ≡ is_axiom kind }
{
    matches!(kind, Kind::Axiom)
}
