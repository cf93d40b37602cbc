//! The certificate of an earlier run, with which a search goes on.
ghost use Rattle.std.specs.Prelude.{◌≡◌, IfOk, IsSome};
ghost use Rattle.wmax_opening.specs.Resuming.{IsFor, is_enough};

use crate::inputs::{FirstSolution, Inputs, Source};
use crate::refusals::{Refused, ResumeFault};
use cnf::limits::NUMBER_LIMIT;
use cnf::types::Instance;
use cuts_earlier::earlier::{Earlier, Judged, is_right_for_zero};
use lrat_check::verdicts::{CheckFault, Verdict};
use report_text::fault::RunFault;
use std::fs::OpenFile;
use std::io::{Read, Seek, SeekFrom, Write};
use std::rt::Files;
use wmax_onlooker::file_id::{FileId, find_file_id, is_regular, open_resumed};
use wmax_onlooker::files::UNREADABLE;
use wmax_onlooker::resumed_file::{ResumedFile, WholeLines};

/// Where a search begins.
#[derive(Drop)]
pub enum Origin {
    /// Before the first line of its certificate.
    Blank,
    /// Behind these lines.
    Behind(Earlier),
    /// Where all is shown: its certificate proves that the first solution is an optimum, which
    /// costs nothing.
    Shown,
}

/// A certificate that a run goes on with.
#[derive(Drop)]
pub(crate) struct Resumed<F: Write + Seek + OpenFile> {
    /// Where the search begins: before the first line where those that are there are of no use.
    pub(crate) origin: Origin,
    /// Where it goes on.
    pub(crate) proof: ResumedFile<F>,
    /// Which file that is.
    pub(crate) there: FileId,
}

/// Reads FILE, opens the certificate at this path, and reads it: FILE judges it. Nothing is written
/// yet.
///
/// # Errors
///
/// `Wrong` with its first fault; `Resume`; `Fault` where a file cannot be read, where that of the
/// certificate cannot be written or looked at, or is one of those that are read, with a fault of
/// FILE, or with `Memory`.
pub(crate) fn take_certificate<'a, R: Files + AllocGlobal>(
    rt: &R,
    path: &'a str,
    inputs: &mut Inputs<'a, R::File>,
    read: [FileId; 2],
) -> Result<Resumed<R::File>, Refused<'a>>
    ensures { IfOk result (λ r. IsFor (inputs.new.source).instance r.origin) }
{
    // First, since the file of the certificate may be created then.
    inputs.source.read(rt)?;
    let (file, there) = open_earlier(rt, path, read)?;
    let mut lines = WholeLines::new(file);
    let earlier = read_earlier(path, &inputs.source, &mut lines)?;
    let kept = lines.ended();
    let mut file = lines.into_file();
    let origin = choose_origin(path, inputs, earlier, &mut file, kept)?;
    let kept = if is_blank(&origin) { 0 } else { kept };
    Ok(Resumed {
        origin,
        proof: ResumedFile::new(file, kept),
        there,
    })
}

/// Opens the certificate at this path, which goes on. It answers which file that is, too.
///
/// # Errors
///
/// Those of `take_certificate` that are none of its text.
fn open_earlier<'a, R: Files>(
    rt: &R,
    path: &'a str,
    read: [FileId; 2],
) -> Result<(R::File, FileId), Refused<'a>> {
    let file = match open_resumed(rt, path, read) {
        Ok(file) => file,
        Err(fault) => return Err(Refused::of_file(fault, path)),
    };
    if !is_regular(&file) {
        return Err(Refused::Resume(ResumeFault::NotRegular));
    }
    let Some(there) = find_file_id(&file) else {
        return Err(Refused::from(RunFault::ProofOutput));
    };
    Ok((file, there))
}

/// Judges the certificate, which is at this path, by FILE.
///
/// # Errors
///
/// `Wrong` with its first fault; `Fault` where it cannot be read, or with `Memory`.
fn read_earlier<'a, F: Read, P: Read>(
    path: &'a str,
    source: &Source<F>,
    proof: &mut P,
) -> Result<Earlier, Refused<'a>>
    requires { IsSome source.now.instance }
    ensures { IfOk result (λ e. IsFor source.now.instance (Origin.Behind e)) }
{
    match Earlier::read(source.instance(), proof) {
        Ok(Judged::Right(earlier)) => Ok(earlier),
        Ok(Judged::Wrong(cause, line)) => Err(Refused::Wrong(Verdict::No(cause, line))),
        Err(fault) => Err(refuse_unread(fault, path)),
    }
}

/// Why there is no run where the certificate at this path could not be judged.
fn refuse_unread<'a>(fault: CheckFault, path: &'a str) -> Refused<'a> {
    match fault {
        CheckFault::Memory => Refused::from(RunFault::Memory),
        CheckFault::Read => Refused::of_file(UNREADABLE, path),
    }
}

/// Where a search begins with what the certificate leaves, whose whole lines are the first `kept`
/// bytes of its file.
///
/// # Errors
///
/// `Resume` where no solution is at hand for which its cuts hold; `Fault` where the file cannot be
/// read, or with `Memory`.
fn choose_origin<'a, F: Read, P: Read + Seek>(
    path: &'a str,
    inputs: &Inputs<'a, F>,
    earlier: Earlier,
    file: &mut P,
    kept: u64,
) -> Result<Origin, Refused<'a>>
    requires read { IsSome (inputs.now.source).instance }
    requires judged { IsFor (inputs.now.source).instance (Origin.Behind earlier) }
    ensures { IfOk result (IsFor (inputs.now.source).instance) }
{
    let worth = earlier.worth();
    let is_usable = is_enough(&inputs.start, worth);
    if is_usable && worth > 0 && kept > 0 {
        return Ok(Origin::Behind(earlier));
    }
    let has_ended = earlier.has_ended();
    // By a call: that is proved once, and not field by field at each exit.
    drop(earlier);
    if !is_usable {
        return Err(Refused::Resume(ResumeFault::Lacking(worth)));
    }
    // There are no whole lines, or the solution costs nothing and their cuts hold for no cost: the
    // search begins anew, unless they show already that this is an optimum.
    if has_ended && is_right(path, inputs.source.instance(), file, kept)? {
        return Ok(Origin::Shown);
    }
    Ok(Origin::Blank)
}

/// Whether the first `kept` bytes of the certificate are right for the cost 0, and end it.
///
/// # Errors
///
/// `Fault` where the file cannot be read, or with `Memory`.
fn is_right<'a, P: Read + Seek>(
    path: &'a str,
    instance: &Instance,
    file: &mut P,
    kept: u64,
) -> Result<bool, Refused<'a>> {
    if file.seek(SeekFrom::Start(0)).is_err() {
        return Err(Refused::of_file(UNREADABLE, path));
    }
    match is_right_for_zero(instance, &mut file.by_ref().take(kept)) {
        Ok(is_right) => Ok(is_right),
        Err(fault) => Err(refuse_unread(fault, path)),
    }
}

/// Whether a search begins before the first line.
fn is_blank(origin: &Origin) -> bool {
    match origin {
        Origin::Blank => true,
        Origin::Behind(_) | Origin::Shown => false,
    }
}

/// Whether a search can begin with this solution, where lines of the certificate hold only for what
/// costs less than `worth`. Where that is 2^62, they hold for all, and none is needed.
fn is_enough(start: &Option<FirstSolution>, worth: u64) -> bool
    ensures { result ≡ is_enough start.now worth }
{
    match start {
        Some(start) => start.cost <= worth,
        None => worth >= NUMBER_LIMIT,
    }
}
