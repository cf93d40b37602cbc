// Where clauses are found.
ghost use Rattle.std.specs.Prelude.{◌≡◌};
ghost use Rattle.std.specs.Option.{option_copied};
ghost use Rattle.cnf.specs.Refute.{Clauses};

use cnf::types::Lit;

/// Live clauses by their numbers.
pub trait ClauseTable {
    /// The clause with each number, if one is live.
    ghost at: { Self → Clauses };

    /// The clause with this number, if one is live.
    fn find(&self, id: u64) -> Option<&[Lit]>
        ensures { option_copied result ≡ at self.now id };
}
