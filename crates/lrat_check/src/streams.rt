// A certificate that a reader gives.
ghost use Rattle.std.specs.Prelude.{◌≡◌, List, [], IfOk, IfSome, OnOk, None};
ghost use Rattle.std.specs.Io.KnownBytes.{IsAtEnd};
ghost use Rattle.cnf.specs.Literal.{Literal};
ghost use Rattle.cnf.specs.Formula.{IsUnsatisfiable};
ghost use Rattle.lrat_check.specs.Pieces.{HasJudged, IsJudged, JudgesGiven};
ghost use Rattle.lrat_check.specs.Stopping.{StopsInTime};
ghost use Rattle.lrat_check.specs.Verdict.{proof_verdict};

use crate::pieces::Checker;
use crate::verdicts::{CheckFault, Verdict};
use cnf::types::Formula;
use std::io::Read;
use text::watched::READ_SIZE;

/// The verdict on the certificate of a reader, over a formula whose memory the checker takes.
pub(crate) fn check_stream<R: Read>(formula: Formula, proof: &mut R) -> Result<Verdict, CheckFault>
    ensures verdict { IfOk result (λ v.
        IfSome (R.remaining proof.old) (λ bytes. v ≡ proof_verdict formula.clauses bytes)) }
    ensures stops { OnOk result (StopsInTime (proof_verdict formula.clauses)
        (R.remaining proof.old) (R.remaining proof.new)) }
    ensures sound { IfOk result (λ v. v ≡ Verdict.Yes → IsUnsatisfiable formula.clauses) }
{
    formula.limits();
    judge_stream(Checker::over(formula)?, proof)
}

/// The verdict on the bytes of the reader, where nothing was read before. The reader is read up to
/// the first faulty line. A certificate of 2^64 bytes or more counts as a failed read.
pub(crate) fn judge_stream<R: Read>(checker: Checker, proof: &mut R) -> Result<Verdict, CheckFault>
    ensures { IfOk result (λ v. (formula : List (List Literal)) → HasJudged checker formula []
        → IsJudged (R.remaining proof.old) (R.remaining proof.new) formula v) }
{
    let mut checker = checker;
    match judge_pieces(&mut checker, proof) {
        Ok(()) => Ok(checker.finish()?),
        Err(fault) => {
            // By a call: that is proved once, and not field by field here.
            drop(checker);
            Err(fault)
        }
    }
}

/// Hands the checker what the reader gives, up to the first faulty line. It borrows the checker, so
/// that none of its exits has to drop it.
fn judge_pieces<R: Read>(checker: &mut Checker, proof: &mut R) -> Result<(), CheckFault>
    ensures judges { OnOk result (JudgesGiven checker.old checker.new
        (R.remaining proof.old) (R.remaining proof.new)) }
    ensures whole { OnOk result ((checker.new.reading).refused ≡ None
        → IsAtEnd (R.remaining proof.new)) }
{
    let mut chunk = [0u8; READ_SIZE];
    'pieces: while checker.refused().is_none() {
        let count = match proof.read(&mut chunk) {
            Ok(0) => return Ok(()),
            Ok(count) => count,
            Err(_) => return Err(CheckFault::Read),
        };
        if checker.fed() > u64::MAX - count as u64 {
            return Err(CheckFault::Read);
        }
        checker.feed(&chunk[..count])?;
    }
    Ok(())
}
