//! A run of `wmax solve` once its files are open: FILE is read, and the search begins.
ghost use Rattle.std.specs.Prelude.{Some};
ghost use Rattle.wmax_opening.specs.Resuming.{IsFor};

use crate::solving::Plan;
use cdcl::budget::Budget;
use cnf::types::Instance;
use command_line::words::MOST_CONFLICTS;
use report::solving::Run;
use report_text::best::RunWatch;
use report_text::fault::RunFault;
use std::alloc::Global;
use std::io::Write;
use std::rt::{Clock, Files};
use wmax_commands::faults::end_output;
use wmax_commands::profiles::Certifying;
use wmax_onlooker::alarm::Alarm;
use wmax_onlooker::onlooker::Onlooker;
use wmax_onlooker::progress::Meter;
use wmax_onlooker::standard_error::Messages;
use wmax_onlooker::standard_output::standard_output;
use wmax_opening::inputs::Inputs;
use wmax_opening::outputs::RunOutputs;
use wmax_opening::refusals::{Refused, ResumeFault};
use wmax_opening::resuming::Origin;

/// Solves, with what is to be written at hand. FILE is read here, unless something was judged by it
/// before.
///
/// # Errors
///
/// Why there is no run, or no answer.
pub(crate) fn solve_over<'a, R: Files + AllocGlobal + Print + Clock, E: Write, P: Write + Drop>(
    rt: &'a R,
    messages: &mut Messages<'_, E>,
    plan: Plan<'a>,
    inputs: &mut Inputs<'a, R::File>,
    outputs: RunOutputs<'a, R, P>,
) -> Result<u8, Refused<'a>>
    requires { IsFor (inputs.old.source).instance outputs.origin }
{
    let RunOutputs {
        origin,
        proof,
        keeper,
    } = outputs;
    // `clap` lets no greater one pass; said again, since nothing is known of that here.
    let budget = Budget::new(plan.request.limit.min(MOST_CONFLICTS));
    let mut onlooker = Onlooker {
        keeper,
        meter: start_meter(rt, plan, budget.left(), &origin),
        alarm: Alarm::new(rt, plan.deadline),
        messages,
    };
    if let Err(fault) = inputs.source.read(rt) {
        // Here and below by calls: that is proved once, and not field by field.
        drop(onlooker);
        drop(proof);
        drop(origin);
        return Err(Refused::from(fault));
    }
    let start = inputs.start.take().map(|start| start.bits);
    let search = Search {
        instance: inputs.source.instance(),
        start,
        origin,
        certifying: plan.certifying,
        budget,
    };
    let mut out = standard_output(rt);
    let ended = run_search(rt.alloc(), search, &mut out, proof, &mut onlooker);
    drop(onlooker);
    match ended {
        Ok(ended) => end_output(ended, out.is_closed()).map_err(|fault| Refused::Fault(fault)),
        Err(why) => Err(Refused::Resume(why)),
    }
}

/// What tells how far the run is, if it is to be told. It begins with what an earlier one proved.
fn start_meter<'a, R: Clock + Files + AllocGlobal>(
    rt: &'a R,
    plan: Plan<'_>,
    limit: u64,
    origin: &Origin,
) -> Option<Meter<'a, R>> {
    if !plan.request.is_told {
        return None;
    }
    // A certificate of forms and cuts is not written at the end, but all along.
    let writes_last = plan.request.proof.is_some() && !plan.certifying.is_cuts();
    let mut meter = Meter::start(rt, limit, writes_last)?;
    if let Origin::Behind(earlier) = origin {
        meter.begin_at(earlier.proved());
    }
    Some(meter)
}

/// What is searched for, and how.
#[derive(Drop)]
struct Search<'i> {
    /// A solution of this, as cheap as can be.
    instance: &'i Instance,
    /// The bits with which it begins, if there are any.
    start: Option<Vec<bool>>,
    /// Where it begins.
    origin: Origin,
    /// How its certificate shows that nothing is cheaper.
    certifying: Certifying,
    /// The effort that it may take.
    budget: Budget,
}

/// Searches, with the result on a writer; the exit status, or why there is none.
///
/// # Errors
///
/// `ResumeFault` where the certificate cannot go on: then nothing was written.
fn run_search<O: Write, P: Write + Drop, K: RunWatch>(
    alloc: Global,
    search: Search<'_>,
    out: &mut O,
    proof: P,
    watch: &mut K,
) -> Result<Result<u8, RunFault>, ResumeFault>
    requires { IsFor (Some search.instance.now) search.origin }
{
    let Search {
        instance,
        mut start,
        origin,
        certifying,
        mut budget,
    } = search;
    let mut run = Run {
        start: &mut start,
        budget: &mut budget,
        out,
        watch,
    };
    match certifying {
        Certifying::Formula(profile) => {
            // Here and below by a call: that is proved once, and not field by field.
            drop(origin);
            let mut proof = proof;
            let ended = run.solve_read(alloc, instance, &mut proof, profile);
            Ok(ended.map(|status| {
                let code = status.code();
                drop(status);
                code
            }))
        }
        Certifying::Cuts => run_by_cuts(&mut run, alloc, instance, origin, proof),
    }
}

/// Searches by forms and cuts, behind the lines of an earlier certificate if it begins there; the
/// exit status.
///
/// # Errors
///
/// `ResumeFault` where that cannot go on.
fn run_by_cuts<O: Write, P: Write + Drop, K: RunWatch>(
    run: &mut Run<'_, '_, '_, '_, O, K>,
    alloc: Global,
    instance: &Instance,
    origin: Origin,
    proof: P,
) -> Result<Result<u8, RunFault>, ResumeFault>
    requires { IsFor (Some instance.now) origin }
{
    let ended = match origin {
        Origin::Blank => run.solve_read_by_cuts(alloc, instance, proof),
        Origin::Behind(earlier) => run.resume_read_by_cuts(alloc, instance, earlier, proof)?,
        Origin::Shown => run.tell_free_by_cuts(alloc, instance, proof)?,
    };
    Ok(ended.ended.map(|status| status.code()))
}
