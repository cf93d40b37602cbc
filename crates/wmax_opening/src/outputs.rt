//! What a run writes: its certificate, and the file that keeps the best solution.
ghost use Rattle.std.specs.Prelude.{◌≡◌, IfOk};
ghost use Rattle.wmax_opening.specs.Resuming.{IsFor};

use crate::inputs::Inputs;
use crate::refusals::{KeptFileFault, Refused};
use crate::resuming::{Origin, Resumed, take_certificate};
use report_text::fault::RunFault;
use std::io::{self, Sink};
use std::rt::Files;
use wmax_commands::faults::Fault;
use wmax_onlooker::file_id::{FileId, empty, find_file_id, open_proof};
use wmax_onlooker::keeper::{BestPaths, FirstText, Keeper};
use wmax_onlooker::resumed_file::ResumedFile;

/// What is written.
#[derive(Drop)]
pub struct RunOutputs<'a, R: Files, P> {
    /// Where the search begins.
    pub origin: Origin,
    /// Where the certificate goes on, or a new one goes.
    pub proof: P,
    /// What keeps the best solution.
    pub keeper: Keeper<'a, R>,
}

/// The certificate goes nowhere.
pub fn drop_certificate<'a, R: Files>(
    rt: &'a R,
    inputs: &mut Inputs<'a, R::File>,
    read: [FileId; 2],
) -> Result<RunOutputs<'a, R, Sink>, Refused<'a>>
    ensures { IfOk result (λ outputs. outputs.origin ≡ Origin.Blank) }
{
    let [here, _] = read;
    let keeper = start_keeper(rt, inputs.kept.take(), [here, here], FirstText::Now)?;
    Ok(RunOutputs {
        origin: Origin::Blank,
        proof: io::sink(),
        keeper,
    })
}

/// Opens the file of the certificate, which is emptied once all else that is to be written can be.
pub fn open_outputs<'a, R: Files>(
    rt: &'a R,
    path: &str,
    inputs: &mut Inputs<'a, R::File>,
    read: [FileId; 2],
) -> Result<RunOutputs<'a, R, R::File>, Refused<'a>>
    ensures { IfOk result (λ outputs. outputs.origin ≡ Origin.Blank) }
{
    let [here, _] = read;
    let proof = open_proof(rt, path, read)?;
    let Some(there) = find_file_id(&proof) else {
        return Err(Refused::from(RunFault::ProofOutput));
    };
    let keeper = start_keeper(rt, inputs.kept.take(), [here, there], FirstText::Now)?;
    if !empty(&proof) {
        // By a call: that is proved once, and not field by field here.
        drop(keeper);
        return Err(Refused::Fault(Fault::Run(RunFault::ProofOutput)));
    }
    Ok(RunOutputs {
        origin: Origin::Blank,
        proof,
        keeper,
    })
}

/// Opens the file of the certificate, which goes on behind its whole lines, once all else that is
/// to be written can be.
pub fn resume_outputs<'a, R: Files + AllocGlobal>(
    rt: &'a R,
    path: &'a str,
    inputs: &mut Inputs<'a, R::File>,
    read: [FileId; 2],
) -> Result<RunOutputs<'a, R, ResumedFile<R::File>>, Refused<'a>>
    ensures { IfOk result
        (λ outputs. IsFor (inputs.new.source).instance outputs.origin) }
{
    let [here, _] = read;
    let Resumed {
        origin,
        proof,
        there,
    } = take_certificate(rt, path, inputs, read)?;
    // Whether a search can go on with the lines is not known yet.
    match start_keeper(rt, inputs.kept.take(), [here, there], FirstText::Later) {
        Ok(keeper) => Ok(RunOutputs {
            origin,
            proof,
            keeper,
        }),
        Err(refused) => {
            // By a call: that is proved once, and not field by field here.
            drop(origin);
            Err(refused)
        }
    }
}

/// What keeps the best solution. That its files are none of the others is looked at once more, now
/// that the certificate has a file.
fn start_keeper<'a, R: Files>(
    rt: &'a R,
    kept: Option<BestPaths<'a>>,
    others: [FileId; 2],
    first: FirstText,
) -> Result<Keeper<'a, R>, Refused<'a>> {
    if let Some(kept) = &kept {
        if kept.paths.are_taken(rt, &others) {
            return Err(Refused::Best(KeptFileFault::Taken));
        }
    }
    Keeper::start(rt, kept, others, first).ok_or(Refused::Best(KeptFileFault::Unwritable))
}
