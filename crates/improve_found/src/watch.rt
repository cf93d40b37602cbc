// What observes a search. What it is shown is proved where its `seen` is known; what it does with
// that is not.
ghost use Rattle.std.specs.Prelude.{◌≡◌, [], ◌∷◌, OnOk, OnErr};
ghost use Rattle.cdcl_order.specs.Watch.{Better, with_seen};
ghost use Rattle.improve_found.specs.Progress.{CanFail, with_told, with_failed};
ghost use Rattle.improve_found.specs.Solutions.{IsSolution};

use crate::progress::{Progress, ProgressFault};
use crate::solutions::Solution;
use cdcl_order::watch::{SearchWatch, Unwatched, Way};
use cnf::types::Instance;

/// A lower bound of the cost, as a line of the certificate proves it.
#[derive(Clone, Copy, Debug, PartialEq, Eq, Drop)]
pub struct Raised {
    /// No solution costs less than this.
    pub lower: u64,
    /// What its form is worth in tenths, rounded up: at most ten times `lower`.
    pub tenths: u64,
    /// Which form that is.
    pub way: Way,
}

/// Looks on while a search runs, and is told how far it has come. It stops the search only as it
/// waives what is left of the budget, and no failure of it is one of the search.
pub trait Watch: SearchWatch {
    /// Is shown a solution that is cheaper than those before, and what it costs, below 2^62.
    fn better(&mut self, instance: &Instance, cost: u64, bits: &[bool])
        requires { IsSolution instance.now bits.now cost }
        ensures shown { Self.seen self.new
            ≡ with_seen (Better instance.now cost bits.now ∷ []) (Self.seen self.old) }
        ensures same_waived { Self.waived self.new ≡ Self.waived self.old };

    /// Is told of a lower bound that a line of the certificate proves.
    fn raised(&mut self, bound: Raised)
        ensures same_seen { Self.seen self.new ≡ Self.seen self.old }
        ensures same_waived { Self.waived self.new ≡ Self.waived self.old };
}

impl Watch for Unwatched {
    fn better(&mut self, _instance: &Instance, _cost: u64, _bits: &[bool]) {}

    fn raised(&mut self, _bound: Raised) {}
}

/// Shows the solution, and then tells what it costs: whoever is told a cost finds what it belongs
/// to.
pub fn tell<T: Progress, W: Watch>(
    instance: &Instance,
    progress: &mut T,
    watch: &mut W,
    solution: &Solution,
) -> Result<(), ProgressFault>
    requires failures { CanFail (T.state progress.old) }
    requires solution { IsSolution instance.now solution.now.bits.items solution.now.cost }
    ensures ok { OnOk result
        (T.state progress.new ≡ with_told solution.now.cost (T.state progress.old)) }
    ensures err { OnErr result
        (T.state progress.new ≡ with_failed solution.now.cost (T.state progress.old)) }
    ensures follows { (first : T) → T.follows first progress.old → T.follows first progress.new }
    ensures shown { W.seen watch.new
        ≡ with_seen (Better instance.now solution.now.cost solution.now.bits.items ∷ [])
        (W.seen watch.old) }
    ensures same_waived { W.waived watch.new ≡ W.waived watch.old }
{
    watch.better(instance, solution.cost, &solution.bits);
    progress.improved(solution.cost)
}
