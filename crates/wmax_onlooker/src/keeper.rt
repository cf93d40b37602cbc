//! The file of `--best`: at each moment a whole result text, which only a better one replaces. What
//! an earlier run left there stays byte for byte until this run has a cheaper solution, or has
//! proved that none is cheaper or that there is none.
ghost use Rattle.std.specs.Prelude.{◌≡◌, IfOk, IfErr, IfSome, IsNone, IsSome};
ghost use Rattle.improve_found.specs.Solutions.{IsSolution};
ghost use Rattle.report_text.specs.Best.{IsTrueOf, said_by};
ghost use Rattle.wmax_onlooker.specs.Keeper.{IsImproved, IsLeft, is_better, undercuts};

use crate::file_id::FileId;
use crate::standard_error::Messages;
use crate::whole_file::{WholeFile, WholePaths};
use cnf::types::Instance;
use explain::explaining::ExplainFault;
use explain::judging::{Judgement, judge_answer};
use report_text::best::{write_best, write_found, write_unknown};
use report_text::fault::RunFault;
use report_text::finding::Finding;
use std::alloc::Global;
use std::io::Write;
use std::rt::Files;

/// Judges what an earlier run left, for the instance. What is no result is wrong.
///
/// # Errors
///
/// `Memory`.
pub fn judge_left(alloc: Global, instance: &Instance, left: &[u8]) -> Result<Judgement, RunFault>
    ensures ok { IfOk result (λ judgement. IsLeft instance.now left.now judgement) }
    ensures fault { IfErr result (λ fault. fault ≡ RunFault.Memory) }
{
    match judge_answer(alloc, instance, left) {
        Ok(judgement) => Ok(judgement),
        Err(ExplainFault::Result(_)) => Ok(Judgement::Wrong),
        Err(_) => Err(RunFault::Memory),
    }
}

/// Where the best solution is kept.
#[derive(Drop)]
pub struct BestPaths<'a> {
    /// The files.
    pub paths: WholePaths<'a>,
    /// What the solution costs that stands there, below 2^62; none where none does.
    pub cost: Option<u64>,
    /// Whether there is nothing that would be lost.
    pub is_free: bool,
}

/// Keeps the best solution in a file, or nowhere.
#[derive(Drop)]
pub struct Keeper<'a, R: Files> {
    /// The file; without it nothing is kept.
    file: Option<WholeFile<'a, R>>,
    /// What the solution costs that stands there, as in `BestPaths`. While the search goes on only
    /// a cheaper one replaces it.
    cost: Option<u64>,
    /// Whether a first text is still to be written, once the search begins.
    is_due: bool,
}

/// When a first text is put where nothing stands.
#[derive(Clone, Copy, Drop)]
pub enum FirstText {
    /// At once: there will be a search.
    Now,
    /// Once a search has begun: the run may still be refused, and then changes nothing.
    Later,
}

impl<'a, R: Files> Keeper<'a, R> {
    /// Writes a first text, which says that nothing is known, to see that it can be written. If
    /// nothing stands there, it stays: at once, or once the search begins. None where nothing can
    /// be written.
    pub fn start(
        rt: &'a R,
        kept: Option<BestPaths<'a>>,
        others: [FileId; 2],
        first: FirstText,
    ) -> Option<Self>
        ensures nowhere { IsNone kept.entry → IsSome result }
        ensures cost { IfSome kept.entry (λ kept. IfSome result (λ keeper.
            keeper.cost ≡ kept.cost)) }
    {
        let Some(kept) = kept else {
            return Some(Keeper {
                file: None,
                cost: None,
                is_due: false,
            });
        };
        let BestPaths {
            paths,
            cost,
            is_free,
        } = kept;
        let is_put = is_free && is_now(first);
        let file = WholeFile::new(rt, paths, others);
        if !can_write(&file, is_put) {
            return None;
        }
        Some(Keeper {
            file: Some(file),
            cost,
            is_due: is_free && !is_put,
        })
    }

    /// Writes the first text, if that was left until the search has begun.
    pub(crate) fn begin<E: Write>(&mut self, messages: &mut Messages<'_, E>)
        ensures cost { self.new.cost ≡ self.old.cost }
    {
        if !self.is_due {
            return;
        }
        self.is_due = false;
        let Some(file) = &mut self.file else {
            return;
        };
        if let Some(mut part) = file.begin(messages) {
            let written = write_unknown(&mut part);
            file.end(written, messages);
        }
    }

    /// Whether a solution of this cost is cheaper than the one that stands there.
    fn is_cheaper(&self, cost: u64) -> bool
        ensures { result ≡ undercuts cost self.now.cost }
    {
        match self.cost {
            Some(least) => cost < least,
            None => true,
        }
    }

    /// Whether what was found at the end says more than what stands there.
    fn is_better(&self, finding: &Finding<'_>) -> bool
        ensures { result ≡ is_better (said_by finding.now) self.now.cost }
    {
        match finding {
            Finding::Optimum { .. } | Finding::Unsat => true,
            Finding::Best { cost, .. } => self.is_cheaper(*cost),
            Finding::Nothing => false,
        }
    }

    /// Keeps a solution that is cheaper than the one that stands there.
    pub(crate) fn better<E: Write>(
        &mut self,
        instance: &Instance,
        cost: u64,
        bits: &[bool],
        messages: &mut Messages<'_, E>,
    )
        requires { IsSolution instance.now bits.now cost }
        ensures cost { IsImproved self.old.cost self.new.cost cost }
    {
        if !self.is_cheaper(cost) {
            return;
        }
        self.is_due = false;
        let Some(file) = &mut self.file else {
            return;
        };
        if let Some(mut part) = file.begin(messages) {
            let written = write_best(instance, cost, bits, &mut part);
            if file.end(written, messages) {
                self.cost = Some(cost);
            }
        }
    }

    /// Keeps what was found at the end, where that says more than what stands there: a proof, or a
    /// cheaper solution that could not be written before.
    pub(crate) fn ended<E: Write>(
        &mut self,
        instance: &Instance,
        finding: &Finding<'_>,
        messages: &mut Messages<'_, E>,
    )
        requires { IsTrueOf instance.now (said_by finding.now) }
        ensures cost { self.new.cost ≡ self.old.cost }
    {
        if !self.is_better(finding) {
            return;
        }
        let Some(file) = &mut self.file else {
            return;
        };
        if let Some(mut part) = file.begin(messages) {
            let written = write_found(instance, finding, &mut part);
            file.end(written, messages);
        }
    }
}

/// Whether a first text is put now.
fn is_now(first: FirstText) -> bool {
    match first {
        FirstText::Now => true,
        FirstText::Later => false,
    }
}

/// Writes a first text, which is put in its place or taken away again. Whether it could.
fn can_write<R: Files>(file: &WholeFile<'_, R>, is_put: bool) -> bool {
    let Some(mut part) = file.try_begin() else {
        return false;
    };
    let is_written = write_unknown(&mut part).is_ok();
    if is_written && is_put && file.try_end() {
        return true;
    }
    let is_removed = file.try_drop();
    is_written && !is_put && is_removed
}
