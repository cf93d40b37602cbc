// The end of a run by forms and cuts: first its certificate, then its result.
ghost use Rattle.std.specs.Prelude.{◌≡◌, [], ◌∷◌, IfOk, IfErr, IfSome, IsSome, OnOk};
ghost use Rattle.cdcl_order.specs.Watch.{with_seen};
ghost use Rattle.text.specs.Writing.{Writes};
ghost use Rattle.report_text.specs.Best.{IsTrueOf, end_of, said_by};
ghost use Rattle.report_text.specs.Answering.{status_by};
ghost use Rattle.report.specs.ByCuts.{AnswersByCuts, LeavesAnswerByCuts, said_text};

use super::CutsRun;
use cnf::types::Instance;
use cuts_solver::solver::Written;
use report_text::answering::{deliver_end, spell_optimum, spell_satisfiable};
use report_text::best::RunWatch;
use report_text::fault::RunFault;
use report_text::finding::Finding;
use report_text::status::CutsStatus;
use std::io::Write;

/// Ends the certificate, of which this was written, and then the result, of a search that found
/// this.
pub(super) fn end_by_cuts<O: Write, P: Write + Drop, K: RunWatch>(
    instance: &Instance,
    finding: &Finding<'_>,
    written: Written<P>,
    out: &mut O,
    watch: &mut K,
) -> CutsRun<P>
    requires { IsTrueOf instance.now (said_by finding.now) }
    ensures ok { IfOk result.ended (λ status. IfSome result.proof (λ writer.
        AnswersByCuts written.is_whole (said_by finding.now)
        (O.contents out.old) (O.contents out.new)
        (P.contents written.writer) (P.contents writer))) }
    ensures fault { IfErr result.ended (λ fault. IfSome result.proof (λ writer.
        LeavesAnswerByCuts fault written.is_whole (said_by finding.now)
        (O.contents out.old) (O.contents out.new)
        (P.contents written.writer) (P.contents writer))) }
    ensures writer { IsSome result.proof }
    ensures status { IfOk result.ended (λ status. status ≡ status_by (said_by finding.now)) }
    ensures seen { IfOk result.ended (λ status. K.seen watch.new
        ≡ with_seen (end_of instance.now (said_by finding.now) ∷ []) (K.seen watch.old)) }
    ensures same_waived { K.waived watch.new ≡ K.waived watch.old }
{
    let Written { writer, is_whole } = written;
    let mut proof = writer;
    if let Err(fault) = answer_by_cuts(finding, is_whole, out, &mut proof) {
        return CutsRun {
            proof: Some(proof),
            ended: Err(fault),
        };
    }
    watch.ended(instance, finding);
    CutsRun {
        proof: Some(proof),
        ended: Ok(CutsStatus::of(finding)),
    }
}

/// Flushes the certificate, which has all its lines or not, and writes the end of the result where
/// it has.
fn answer_by_cuts<O: Write, P: Write>(
    finding: &Finding<'_>,
    is_whole: bool,
    out: &mut O,
    proof: &mut P,
) -> Result<(), RunFault>
    ensures ok { OnOk result (AnswersByCuts is_whole (said_by finding.now)
        (O.contents out.old) (O.contents out.new) (P.contents proof.old) (P.contents proof.new)) }
    ensures fault { IfErr result (λ fault. LeavesAnswerByCuts fault is_whole
        (said_by finding.now) (O.contents out.old) (O.contents out.new)
        (P.contents proof.old) (P.contents proof.new)) }
{
    if !is_whole {
        return Err(RunFault::ProofOutput);
    }
    proof.flush().map_err(|_| RunFault::ProofOutput)?;
    deliver_said(finding, out)
}

/// Writes the end of the result, and flushes.
fn deliver_said<O: Write>(finding: &Finding<'_>, out: &mut O) -> Result<(), RunFault>
    ensures writes { Writes result (O.contents out.old) (said_text (said_by finding.now))
        (O.contents out.new) }
    ensures fault { IfErr result (λ fault. fault ≡ RunFault.Output) }
{
    match finding {
        Finding::Optimum { bits, .. } => deliver_end(spell_optimum(bits), bits, out),
        Finding::Unsat => deliver_end(b"s UNSATISFIABLE", &[], out),
        Finding::Best { bits, .. } => deliver_end(spell_satisfiable(bits), bits, out),
        Finding::Nothing => deliver_end(b"s UNKNOWN", &[], out),
    }
}
