// Where a search reports the cost of each better solution.
ghost use Rattle.std.specs.Prelude.{◌≡◌, OnOk, OnErr};
ghost use Rattle.improve_found.specs.Progress.{Telling, CanFail, with_told, with_failed};

/// A cost could not be told.
#[derive(Clone, Copy, Debug, PartialEq, Eq, Drop)]
pub struct ProgressFault;

/// Is told the cost of each solution that is cheaper than those before.
pub trait Progress {
    /// The costs told, and those that it failed to tell.
    ghost state: { Self → Telling };

    /// Whether the second came from the first by calls of `improved` alone. A caller of the search
    /// learns by it what was told to.
    ghost follows: { Self → Self → Type 0 };

    /// Tells the cost, which is below 2^62.
    ///
    /// # Errors
    ///
    /// `ProgressFault` where it could not be told.
    fn improved(&mut self, cost: u64) -> Result<(), ProgressFault>
        requires { CanFail (state self.old) }
        ensures ok { OnOk result (state self.new ≡ with_told cost (state self.old)) }
        ensures err { OnErr result (state self.new ≡ with_failed cost (state self.old)) }
        ensures follows { (first : Self) → follows first self.old → follows first self.new };
}
