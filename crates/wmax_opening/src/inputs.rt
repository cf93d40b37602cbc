//! What is at hand before a search begins: FILE, the solution with which it begins, and the file of
//! an earlier run that it replaces.
ghost use Rattle.std.specs.Prelude.{◌≡◌, IfOk, IfErr, IfSome, IsSome, OnOk, Some, option_map};
ghost use Rattle.explain.specs.Judging.{TellsBits};
ghost use Rattle.wmax_opening.specs.Inputs.{undercuts};

use crate::refusals::{KeptFileFault, Refused};
use adder::profiles::Profile;
use cnf::types::Instance;
use explain::judging::{Judgement, read_bits};
use lrat_check::checking::check_read_as;
use lrat_check::verdicts::{Cause, Verdict};
use lrat_result::report::ReportFault;
use lrat_result::result::read_report;
use report_text::fault::RunFault;
use std::alloc::Global;
use std::fs::{File, OpenFile};
use std::io::Read;
use std::rt::Files;
use wcnf::reading::read_from;
use wmax_commands::arguments::SolveRequest;
use wmax_onlooker::beginning::Beginning;
use wmax_onlooker::file_id::{FileId, find_file_id, find_path_id, find_place};
use wmax_onlooker::files::{UNREADABLE, read_file};
use wmax_onlooker::keeper::{BestPaths, judge_left};
use wmax_onlooker::whole_file::WholePaths;

/// What is at hand before a search begins.
#[derive(Drop)]
pub struct Inputs<'a, F: Read> {
    /// FILE.
    pub source: Source<F>,
    /// RESULT, if there is one: it stays open, so that no other file gets its identity.
    result: Option<F>,
    /// Where the search begins, if it has such a solution.
    pub start: Option<FirstSolution>,
    /// Where the best solution is kept, if it is to be kept.
    pub(crate) kept: Option<BestPaths<'a>>,
}

/// FILE, which may be a pipe.
#[derive(Drop)]
pub struct Source<F: Read> {
    /// What is left of it.
    pub(crate) file: Beginning<F>,
    /// Which file it is; none where it cannot be looked at.
    here: Option<FileId>,
    /// What it reads as, once it was read.
    instance: Option<Instance>,
}

impl<F: Read> Source<F> {
    /// Reads it, unless it was read before.
    ///
    /// # Errors
    ///
    /// `Read` with its first fault, or where it cannot be read; `Memory`.
    pub fn read<R: AllocGlobal>(&mut self, rt: &R) -> Result<(), RunFault>
        ensures read { OnOk result (IsSome self.new.instance) }
        ensures once { IfSome self.old.instance (λ p. self.new.instance ≡ Some p) }
    {
        if self.instance.is_none() {
            self.instance = Some(read_from(rt.alloc(), &mut self.file)?);
        }
        Ok(())
    }

    /// What it reads as, once it was read.
    pub fn instance(&self) -> &Instance
        requires { IsSome self.now.instance }
        ensures { self.now.instance ≡ Some result.now }
    {
        match &self.instance {
            Some(instance) => instance,
            None => unreachable!(),
        }
    }

    /// The first bytes that were read of it.
    pub fn first(&self) -> &[u8] {
        self.file.first()
    }
}

/// A solution with which a search begins.
#[derive(Drop)]
pub struct FirstSolution {
    /// What it costs.
    pub(crate) cost: u64,
    /// Its bits.
    pub bits: Vec<bool>,
}

impl<'a, F: OpenFile + Read> Inputs<'a, F> {
    /// FILE alone, of which nothing is read yet.
    pub fn of_file(file: F) -> Self {
        let here = find_file_id(&file);
        Inputs {
            source: Source {
                file: Beginning::new(file),
                here,
                instance: None,
            },
            result: None,
            start: None,
            kept: None,
        }
    }
}

/// Takes what stands in the files of `--from` and `--best`; nothing is written yet. It answers
/// which files are read: FILE and RESULT, or FILE twice.
///
/// # Errors
///
/// `Wrong`, `Best`, and `Fault` where a file cannot be read, with a fault of FILE, or with
/// `Memory`: the first that is met.
pub fn prepare<'a, R: Files + AllocGlobal>(
    rt: &R,
    request: SolveRequest<'a>,
    inputs: &mut Inputs<'a, R::File>,
) -> Result<[FileId; 2], Refused<'a>> {
    let read = match request.from {
        Some(path) => take_start(rt, path, inputs)?,
        None => {
            let Some(here) = inputs.source.here else {
                return Err(Refused::from(UNREADABLE));
            };
            [here, here]
        }
    };
    if let Some(path) = request.best {
        take_best(rt, request, path, read, inputs)?;
    }
    Ok(read)
}

/// Takes the solution of RESULT, if it has one, which FILE judges. It answers which files these
/// are.
fn take_start<'a, R: Files + AllocGlobal>(
    rt: &R,
    path: &'a str,
    inputs: &mut Inputs<'a, R::File>,
) -> Result<[FileId; 2], Refused<'a>> {
    let Ok(mut result) = File::open(rt, path) else {
        return Err(Refused::of_file(UNREADABLE, path));
    };
    let Some(here) = inputs.source.here else {
        return Err(Refused::from(UNREADABLE));
    };
    let Some(there) = find_file_id(&result) else {
        return Err(Refused::of_file(UNREADABLE, path));
    };
    inputs.source.read(rt)?;
    let said = match read_file(rt, &mut result) {
        Ok(said) => said,
        Err(fault) => return Err(Refused::of_file(fault, path)),
    };
    inputs.start = judge_start(rt.alloc(), inputs.source.instance(), &said)?;
    inputs.result = Some(result);
    Ok([here, there])
}

/// The solution that a result has, if it has one, as the instance judges it.
///
/// # Errors
///
/// `Wrong`, and `Fault` with `Memory`.
fn judge_start<'a>(
    alloc: Global,
    instance: &Instance,
    said: &[u8],
) -> Result<Option<FirstSolution>, Refused<'a>> {
    match judge_left(alloc, instance, said)? {
        Judgement::Unknown | Judgement::Unsatisfiable => Ok(None),
        Judgement::Right(cost) => Ok(read_start(alloc, said, cost)?),
        Judgement::Wrong => Err(Refused::Wrong(find_fault(alloc, instance, said)?)),
    }
}

/// What `check` says of a result that is wrong, whatever its certificate is.
fn find_fault(alloc: Global, instance: &Instance, said: &[u8]) -> Result<Verdict, RunFault> {
    let report = match read_report(alloc, said) {
        Ok(report) => report,
        Err(ReportFault::Form(line)) => return Ok(Verdict::No(Cause::ResultForm, line)),
        Err(ReportFault::Memory) => return Err(RunFault::Memory),
    };
    let mut proof: &[u8] = &[];
    match check_read_as(instance, &report, &mut proof, Profile::One) {
        Ok(verdict) => Ok(verdict),
        Err(_) => Err(RunFault::Memory),
    }
}

/// The solution of a result, with which a search begins; it costs this.
fn read_start(alloc: Global, said: &[u8], cost: u64) -> Result<Option<FirstSolution>, RunFault>
    ensures bits { IfOk result
        (λ start. TellsBits said.now (option_map (λ s. s.bits.items) start)) }
    ensures cost { IfOk result (λ start. IfSome start (λ s. s.cost ≡ cost)) }
    ensures fault { IfErr result (λ fault. fault ≡ RunFault.Memory) }
{
    match read_bits(alloc, said) {
        Ok(Some(bits)) => Ok(Some(FirstSolution { cost, bits })),
        Ok(None) => Ok(None),
        Err(_) => Err(RunFault::Memory),
    }
}

/// Whether these paths are those of FILE, of the certificate, which is at `proof`, or of what is no
/// regular file.
fn are_named<R: Files>(rt: &R, paths: &WholePaths<'_>, proof: Option<&str>, here: FileId) -> bool {
    if paths.are_taken(rt, &[here]) {
        return true;
    }
    let Some(proof) = proof else {
        return false;
    };
    if paths.meets(&find_place(rt, proof)) {
        return true;
    }
    match find_path_id(rt, proof) {
        Some(there) => paths.are_taken(rt, &[there]),
        None => false,
    }
}

/// Takes the file of `--best`. It may be RESULT, but neither it nor the file by way of which it is
/// written may be any other of the run. Where it has something already, that is judged by FILE.
fn take_best<'a, R: Files + AllocGlobal>(
    rt: &R,
    request: SolveRequest<'a>,
    path: &'a str,
    read: [FileId; 2],
    inputs: &mut Inputs<'a, R::File>,
) -> Result<(), Refused<'a>> {
    let [here, result] = read;
    let Ok(paths) = WholePaths::new(rt, path) else {
        return Err(Refused::from(RunFault::Memory));
    };
    let is_named = are_named(rt, &paths, request.proof, here);
    if is_named || paths.is_part_taken(rt, &[result]) {
        return Err(Refused::Best(KeptFileFault::Taken));
    }
    let (is_free, cost) = take_left(rt, path, inputs, &paths)?;
    inputs.kept = Some(BestPaths {
        paths,
        cost,
        is_free,
    });
    Ok(())
}

/// Takes what is in the file of `--best`, which is at this path. It answers whether that is
/// nothing, and what the solution costs that is there, if one is.
fn take_left<'a, R: Files + AllocGlobal>(
    rt: &R,
    path: &'a str,
    inputs: &mut Inputs<'a, R::File>,
    paths: &WholePaths<'a>,
) -> Result<(bool, Option<u64>), Refused<'a>> {
    let left = match paths.read_earlier(rt) {
        Ok(left) => left,
        Err(fault) => return Err(Refused::of_file(fault, path)),
    };
    if left.is_empty() {
        return Ok((true, None));
    }
    Ok((false, take_earlier(rt, inputs, &left)?))
}

/// Takes the solution that an earlier run left, which FILE judges; what it costs. The search begins
/// with it, unless it has a cheaper one.
///
/// # Errors
///
/// `Best` where something else would be lost; `Read` with the first fault of FILE; `Memory`.
fn take_earlier<'a, R: AllocGlobal, F: Read>(
    rt: &R,
    inputs: &mut Inputs<'_, F>,
    left: &[u8],
) -> Result<Option<u64>, Refused<'a>> {
    inputs.source.read(rt)?;
    match judge_left(rt.alloc(), inputs.source.instance(), left)? {
        Judgement::Unknown | Judgement::Unsatisfiable => Ok(None),
        Judgement::Right(cost) => {
            if is_cheaper(cost, &inputs.start) {
                inputs.start = read_start(rt.alloc(), left, cost)?;
            }
            Ok(Some(cost))
        }
        Judgement::Wrong => Err(Refused::Best(KeptFileFault::Other)),
    }
}

/// Whether this cost is less than that of the solution with which the search begins, if it has one.
fn is_cheaper(cost: u64, start: &Option<FirstSolution>) -> bool
    ensures { result ≡ undercuts cost start.now }
{
    match start {
        Some(start) => cost < start.cost,
        None => true,
    }
}
