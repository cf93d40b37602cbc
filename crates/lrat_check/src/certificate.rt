//! Whole certificates over a formula.
ghost use Rattle.std.specs.Prelude.{◌≡◌, IfOk, ◌↔◌, List};
ghost use Rattle.cnf.specs.Formula.{IsUnsatisfiable};
ghost use Rattle.cnf.specs.Lrat.{ProofLine, Accepts};
ghost use Rattle.lrat_check.specs.Checks.{IsProofOver};
ghost use Rattle.lrat_check.specs.Verdict.{proof_verdict};

use crate::pieces::Checker;
use crate::streams::judge_stream;
use crate::verdicts::Verdict;
use cnf::types::Formula;
use std::alloc::AllocError;

/// Whether the proof, an LRAT certificate over the formula's clauses under the ids from 1, shows
/// that they have no common solution (Cruz-Filipe et al. 2017). The first fault decides, with the
/// number of its line from 1; a certificate that ends without the empty clause has its fault at
/// line 0. An AllocError comes only where memory was refused, or where the formula, or what the
/// certificate adds, has more than 2^32 - 2 literals or clauses.
pub fn check_lines(formula: &Formula, proof: &[u8]) -> Result<Verdict, AllocError>
    ensures verdict { IfOk result (λ v. v ≡ proof_verdict formula.now.clauses proof.now) }
    ensures yes { IfOk result (λ v. (v ≡ Verdict.Yes) ↔ IsProofOver formula.now.clauses proof.now) }
    ensures accepted { (ls : List ProofLine) → Accepts formula.now.clauses ls
        → IsUnsatisfiable formula.now.clauses }
    ensures sound { IfOk result (λ v. v ≡ Verdict.Yes → IsUnsatisfiable formula.now.clauses) }
{
    formula.limits();
    let checker = Checker::new(formula)?;
    let mut left = proof;
    match judge_stream(checker, &mut left) {
        Ok(verdict) => Ok(verdict),
        Err(_) => Err(AllocError),
    }
}
