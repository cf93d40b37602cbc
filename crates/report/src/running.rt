// The run: a text in, a result and its certificate out.
ghost use Rattle.std.specs.Prelude.{◌≡◌, IfOk, IfErr};
ghost use Rattle.report.specs.Running.{EndsAs, Leaves};

use crate::solving::Run;
use adder::profiles::Profile;
use cdcl::budget::Budget;
use cdcl::watch::Unwatched;
use report_text::fault::RunFault;
use report_text::status::Status;
use std::alloc::Global;
use std::io::{Read, Write};

/// Reads an instance, looks for an optimum, and writes the result and the certificate that proves
/// it.
///
/// The text is in the WCNF of the MaxSAT Evaluation 2022, and so is the result: a line `o C` for
/// each solution that is better than all before, as soon as it is known; one line `s`; and for a
/// solution a line `v` with a digit for each variable. The certificate is LRAT as text (Cruz-Filipe
/// et al. 2017). For `OPTIMUM FOUND` it refutes the formula for 'cheaper than that', for
/// `UNSATISFIABLE` the hard clauses; `SATISFIABLE` and `UNKNOWN` have none. It is whole and flushed
/// before the first byte of the `s` line.
///
/// If this answers Ok and what it wrote says `OPTIMUM FOUND` with a cost and bits, then the bits
/// are a solution of this cost, no solution is cheaper, and `lrat_check` says yes to what was read
/// and written; and likewise for `UNSATISFIABLE`.
///
/// # Errors
///
/// - `Read`: the reader failed, or the text is faulty. Nothing is written.
/// - `Memory`: a growth was refused. The result has whole `o` lines, and no `s` line; the
///   certificate has nothing.
/// - `Output`: the result's writer failed. It has a beginning of a result; where that reaches an
///   `s` line that needs a certificate, the certificate is whole.
/// - `ProofOutput`: the certificate's writer failed. The result has whole `o` lines, and no `s`
///   line.
///
/// No failed read, write or flush is tried again.
pub fn run<R: Read, O: Write, P: Write>(
    alloc: Global,
    input: &mut R,
    budget: &mut Budget,
    out: &mut O,
    proof: &mut P,
) -> Result<Status, RunFault>
    ensures ok { IfOk result (λ status. EndsAs Profile.One (R.remaining input.old)
        (O.contents out.old) (O.contents out.new) (P.contents proof.old) (P.contents proof.new)
        status budget.old budget.new) }
    ensures fault { IfErr result (λ fault. Leaves Profile.One fault (R.remaining input.old)
        (O.contents out.old) (O.contents out.new) (P.contents proof.old) (P.contents proof.new)
        budget.new) }
    ensures same_limit { budget.new.limit ≡ budget.old.limit }
    ensures same_waived { budget.new.waived ≡ budget.old.waived }
{
    run_as(alloc, input, budget, out, proof, Profile::One)
}

/// As `run`, where soft clauses are relaxed as the profile says. `check` wants the profile that the
/// certificate was made in.
///
/// # Errors
///
/// Those of `run`.
pub fn run_as<R: Read, O: Write, P: Write>(
    alloc: Global,
    input: &mut R,
    budget: &mut Budget,
    out: &mut O,
    proof: &mut P,
    profile: Profile,
) -> Result<Status, RunFault>
    ensures ok { IfOk result (λ status. EndsAs profile (R.remaining input.old)
        (O.contents out.old) (O.contents out.new) (P.contents proof.old) (P.contents proof.new)
        status budget.old budget.new) }
    ensures fault { IfErr result (λ fault. Leaves profile fault (R.remaining input.old)
        (O.contents out.old) (O.contents out.new) (P.contents proof.old) (P.contents proof.new)
        budget.new) }
    ensures same_limit { budget.new.limit ≡ budget.old.limit }
    ensures same_waived { budget.new.waived ≡ budget.old.waived }
{
    let mut run = Run {
        start: &mut None,
        budget,
        out,
        watch: &mut Unwatched,
    };
    run.solve(alloc, input, proof, profile)
}
