// What takes the lines of a solver: a log in memory, or a writer that passes them on.
ghost use Rattle.std.specs.Prelude.{◌≡◌, ◌<◌, true, false, List, [], ◌∷◌, ◌++◌, length};
ghost use Rattle.std.specs.Prelude.{IfOk, OnOk, OnErr};
ghost use Rattle.lrat_log.specs.declared.log.TheConstants.{LINE_LIMIT};
ghost use Rattle.lrat_log.specs.Log.{LogLine, IsLine, axiom_line};
ghost use Rattle.lrat_log.specs.Axioms.{IsNewClause};

use crate::lines::{Hint, Kind};
use cnf::types::Lit;
use std::alloc::AllocError;

/// Takes lines, one after another. It has always fewer than 2^61 of them.
pub trait Sink: Drop {
    /// The lines that it has.
    ghost lines: { Self → List LogLine };

    /// Whether the second came from the first by these calls alone. Who hands a sink to a search
    /// learns by it what the sink keeps.
    ghost follows: { Self → Self → Type 0 };

    /// Takes a line, after those that it has: the clause that it adds, with the hints by which it
    /// follows; or a deletion, which has no literals, and whose hints name the clauses that it
    /// deletes, each a plain one.
    ///
    /// # Errors
    ///
    /// `AllocError` where memory was refused, or the line would be the 2^61st. The lines stay as
    /// they were.
    fn append(&mut self, kind: Kind, lits: &[Lit], hints: &[Hint]) -> Result<(), AllocError>
        requires line { IsLine (record { kind = kind; clause = lits.now; hints = hints.now }) }
        ensures ok { OnOk result (lines self.new ≡ lines self.old ++ record {
          kind = kind;
          clause = lits.now;
          hints = hints.now;
        } ∷ []) }
        ensures err { OnErr result (lines self.new ≡ lines self.old) }
        ensures follows { (first : Self) → follows first self.old → follows first self.new };

    /// Brings a clause from outside, if it may, and answers whether it did: then its line is the
    /// last one. A log in memory takes none.
    ///
    /// # Errors
    ///
    /// `AllocError` where memory was refused, or the line would be the 2^61st. The lines stay as
    /// they were.
    fn cut(&mut self, lits: &[Lit]) -> Result<bool, AllocError>
        requires new { IsNewClause lits.now }
        ensures taken { IfOk result (λ taken. taken ≡ true
            → lines self.new ≡ lines self.old ++ axiom_line lits.now ∷ []) }
        ensures refused { IfOk result (λ taken. taken ≡ false → lines self.new ≡ lines self.old) }
        ensures err { OnErr result (lines self.new ≡ lines self.old) }
        ensures follows { (first : Self) → follows first self.old → follows first self.new };

    /// Says that it has fewer than 2^61 lines; it does nothing. It is a call and no law of the
    /// trait: a law has to hold of every list of lines, and this holds of those that were built, by
    /// the invariant of the type, which only a call hands on.
    fn is_short(&self)
        ensures { length (lines self.now) < LINE_LIMIT };
}
