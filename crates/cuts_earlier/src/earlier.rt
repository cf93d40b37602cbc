// A certificate of forms and cuts that an earlier run has left, for a run that goes on with it.
ghost use Rattle.std.specs.Prelude.{◌≡◌, ◌≤◌, ◌/◌, true, false, IfOk, IfSome};
ghost use Rattle.cnf.specs.declared.limits.TheConstants.{NUMBER_LIMIT};
ghost use Rattle.cuts_solver.specs.Solving.{IsRightText};
ghost use Rattle.cuts_solver.specs.declared.solver.resuming.TheConstants.{LINES_A_CONFLICT};
ghost use Rattle.cuts_earlier.specs.Earlier.{IsJudgedAs};

use cnf::types::Instance;
use cuts_solver::solver::conflicts_before;
use lrat_check::verdicts::{Cause, CheckFault, Verdict};
use lrat_cuts::machine::CutsMachine;
use lrat_cuts::pieces::CutsChecker;
use lrat_cuts::streams::judge;
use std::io::Read;

/// Why a run cannot go on with a certificate.
#[derive(Clone, Copy, Debug, PartialEq, Eq, Drop)]
pub enum CannotResume {
    /// No solution is at hand that costs at most this. Its cuts hold only in solutions that cost
    /// less.
    Lacking(u64),
    /// A cut of it holds for no cost, it deletes a clause of the formula, or it has a clause that a
    /// search cannot take: without a literal, with one variable twice, or with one for which there
    /// is no room. Or its ids leap far ahead of its lines.
    Unfit,
}

/// What a certificate was judged as.
#[derive(Drop)]
pub enum Judged {
    /// All lines are right that a line feed has ended.
    Right(Earlier),
    /// The first fault of them, and its line from 1.
    Wrong(Cause, u64),
}

/// The right lines of a certificate, as a checker stands behind them.
#[derive(Drop)]
pub struct Earlier {
    /// The checker.
    pub machine: CutsMachine,
}

impl Earlier {
    /// Judges a certificate line by line, up to its last line feed or its first fault.
    ///
    /// # Errors
    ///
    /// `Memory` where memory was refused, or where the formula, or what the certificate adds, has
    /// more than 2^32 - 2 literals or clauses; `Read` where the reader failed.
    pub fn read<R: Read>(instance: &Instance, proof: &mut R) -> Result<Judged, CheckFault>
        ensures { IfOk result (IsJudgedAs instance.now (R.remaining proof.old)) }
    {
        let mut checker = CutsChecker::new(instance, None)?;
        // By calls where it is dropped: that is proved once, and not field by field at each exit.
        match judge(&mut checker, proof) {
            Ok(()) => {}
            Err(fault) => {
                drop(checker);
                return Err(CheckFault::from(fault));
            }
        }
        if let Some((cause, line)) = checker.refused() {
            drop(checker);
            return Ok(Judged::Wrong(cause, line));
        }
        match checker.into_ended()? {
            Some(machine) => Ok(Judged::Right(Earlier { machine })),
            None => unreachable!(),
        }
    }

    /// What its cuts hold for: all solutions that cost less. It is 2^62 where they hold in all.
    pub fn worth(&self) -> u64
        ensures worth { result ≡ self.now.machine.state.worth }
        ensures most { result ≤ NUMBER_LIMIT }
    {
        self.machine.worth()
    }

    /// No solution costs less than this, as it proves: at most 2^62, and that much where there is
    /// none.
    pub fn proved(&self) -> u64
        ensures { result ≡ self.now.machine.state.proved }
    {
        self.machine.proved()
    }

    /// About how many conflicts the run had that has left it.
    pub fn learned(&self) -> u64
        ensures { result ≡ self.now.machine.lines / LINES_A_CONFLICT }
    {
        conflicts_before(&self.machine)
    }

    /// Whether it ends with the empty clause: nothing costs less than what its cuts hold for.
    pub fn has_ended(&self) -> bool
        ensures { result ≡ self.now.machine.state.ended }
    {
        self.machine.has_ended()
    }
}

/// Whether a certificate ends with the empty clause and is right where cuts have to hold for the
/// cost 0. `Earlier` does not tell: it takes a cut that is worth less for one that is worth 0.
///
/// # Errors
///
/// Those of `Earlier::read`.
pub fn is_right_for_zero<R: Read>(instance: &Instance, proof: &mut R) -> Result<bool, CheckFault>
    ensures right { IfOk result (λ right. right ≡ true
        → IfSome (R.remaining proof.old) (IsRightText instance.now 0 true)) }
    ensures wrong { IfOk result (λ right. right ≡ false
        → IfSome (R.remaining proof.old) (λ text. IsRightText instance.now 0 true text → ⊥)) }
{
    let mut checker = CutsChecker::new(instance, Some(0))?;
    match judge(&mut checker, proof) {
        Ok(()) => Ok(is_yes(checker.finish()?)),
        Err(fault) => {
            // By a call: that is proved once, and not field by field here.
            drop(checker);
            Err(CheckFault::from(fault))
        }
    }
}

/// Whether the verdict is yes.
fn is_yes(verdict: Verdict) -> bool
    ensures yes { result ≡ true → verdict ≡ Verdict.Yes }
    ensures no { result ≡ false → verdict ≡ Verdict.Yes → ⊥ }
{
    match verdict {
        Verdict::Yes => true,
        Verdict::No(_, _) => false,
    }
}
