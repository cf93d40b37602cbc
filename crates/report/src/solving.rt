//! What a run is made of, and its course: it reads, searches and writes.
ghost use Rattle.std.specs.Prelude.{◌≡◌, ◌<◌, ℕ, false, List, Option, IfOk, IfErr, IsTrue};
ghost use Rattle.improve.specs.Improving.{Improves};
ghost use Rattle.improve_found.specs.Solutions.{IsSolution, AreFeasible};
ghost use Rattle.improve_found.specs.Progress.{CanFail};
ghost use Rattle.improve_found.specs.Watch.{AreShown};
ghost use Rattle.report.specs.Running.{EndsAs, ReadsOnlyAs, Leaves, Searches, outcome_of};
ghost use Rattle.report.specs.Seen.{IsSeenAs, IsShownFor};
ghost use Rattle.cdcl_order.specs.Budgets.{WaivesAs};

use adder::profiles::Profile;
use cdcl::budget::Budget;
use cnf::types::Instance;
use improve::search::{Beginning, improve_from, improve_watched};
use improve_found::found::{Found, ImproveFault};
use improve_found::progress::Progress;
use report_text::answering::write_answer;
use report_text::best::RunWatch;
use report_text::fault::RunFault;
use report_text::finding::Finding;
use report_text::status::Status;
use report_text::told::{Finished, Told};
use std::alloc::Global;
use std::io::{Read, Write};
use wcnf::reading::read_from;

/// What a run is made of, beside what it reads and its certificate.
#[derive(Drop)]
pub struct Run<'s, 'b, 'o, 'w, O: Write, K: RunWatch> {
    /// The bits with which the search begins, if they are a solution: then its first `o` line tells
    /// what they cost, or less. They are taken out of here.
    pub start: &'s mut Option<Vec<bool>>,
    /// How much may be spent.
    pub budget: &'b mut Budget,
    /// Where the result is written.
    pub out: &'o mut O,
    /// What looks on. It is told of each clause that is learned, and of the end of the search. Each
    /// solution is shown to it before its `o` line is written, and what was found once the result
    /// is written and flushed. After a fault it is shown no more.
    pub watch: &'w mut K,
}

impl<'s, 'b, 'o, 'w, O: Write, K: RunWatch> Run<'s, 'b, 'o, 'w, O, K> {
    /// As `run_as`, with all that this run is made of.
    ///
    /// # Errors
    ///
    /// Those of `run`.
    pub fn solve<R: Read, P: Write>(
        &mut self,
        alloc: Global,
        input: &mut R,
        proof: &mut P,
        profile: Profile,
    ) -> Result<Status, RunFault>
        ensures names { (self.new.budget.ghost_name ≡ self.old.budget.ghost_name)
            × (self.new.out.ghost_name ≡ self.old.out.ghost_name)
            × (self.new.watch.ghost_name ≡ self.old.watch.ghost_name) }
        ensures ok { IfOk result (λ status. EndsAs profile (R.remaining input.old)
            (O.contents self.old.out.now) (O.contents self.new.out.now)
            (P.contents proof.old) (P.contents proof.new)
            status self.old.budget.now self.new.budget.now) }
        ensures fault { IfErr result (λ fault. Leaves profile fault (R.remaining input.old)
            (O.contents self.old.out.now) (O.contents self.new.out.now)
            (P.contents proof.old) (P.contents proof.new) self.new.budget.now) }
        ensures same_limit { self.new.budget.now.limit ≡ self.old.budget.now.limit }
        ensures seen { IfOk result (λ status. IsSeenAs profile (R.remaining input.old)
            (O.contents self.old.out.now) (O.contents self.new.out.now) status
            (K.seen self.old.watch.now) (K.seen self.new.watch.now)) }
        ensures waives { WaivesAs self.old.budget.now self.new.budget.now
            (K.waived self.old.watch.now) (K.waived self.new.watch.now) }
    {
        let instance = read_from(alloc, input)?;
        self.solve_read(alloc, &instance, proof, profile)
    }

    /// As `solve`, of an instance that was read.
    ///
    /// # Errors
    ///
    /// Those of `run`, but for `Read`.
    pub fn solve_read<P: Write>(
        &mut self,
        alloc: Global,
        instance: &Instance,
        proof: &mut P,
        profile: Profile,
    ) -> Result<Status, RunFault>
        ensures names { (self.new.budget.ghost_name ≡ self.old.budget.ghost_name)
            × (self.new.out.ghost_name ≡ self.old.out.ghost_name)
            × (self.new.watch.ghost_name ≡ self.old.watch.ghost_name) }
        ensures ok { (text : Option (List ℕ)) → ReadsOnlyAs text instance.now
            → IfOk result (λ status. EndsAs profile text
            (O.contents self.old.out.now) (O.contents self.new.out.now)
            (P.contents proof.old) (P.contents proof.new)
            status self.old.budget.now self.new.budget.now) }
        ensures fault { (text : Option (List ℕ)) → ReadsOnlyAs text instance.now
            → IfErr result (λ fault. Leaves profile fault text
            (O.contents self.old.out.now) (O.contents self.new.out.now)
            (P.contents proof.old) (P.contents proof.new) self.new.budget.now) }
        ensures same_limit { self.new.budget.now.limit ≡ self.old.budget.now.limit }
        ensures seen { (text : Option (List ℕ)) → ReadsOnlyAs text instance.now
            → IfOk result (λ status. IsSeenAs profile text
            (O.contents self.old.out.now) (O.contents self.new.out.now) status
            (K.seen self.old.watch.now) (K.seen self.new.watch.now)) }
        ensures waives { WaivesAs self.old.budget.now self.new.budget.now
            (K.waived self.old.watch.now) (K.waived self.new.watch.now) }
    {
        let task = Task {
            alloc,
            instance,
            start: self.start.take(),
        };
        let found = find_best(task, profile, self.budget, self.out, self.watch)?;
        self.watch.searched(&Finding::of(&found));
        if let Err(fault) = write_answer(&found, self.out, proof) {
            // By a call: that is proved once, and not field by field among all that is borrowed
            // here.
            drop(found);
            return Err(fault);
        }
        self.watch.ended(instance, &Finding::of(&found));
        Ok(Status::of(found))
    }
}

/// What a search is given.
#[derive(Drop)]
pub(crate) struct Task<'i> {
    /// Where memory comes from.
    pub(crate) alloc: Global,
    /// The instance.
    pub(crate) instance: &'i Instance,
    /// The bits with which it begins, if they are a solution.
    pub(crate) start: Option<Vec<bool>>,
}

/// Looks for an optimum, and tells the cost of each better solution.
fn find_best<O: Write, K: RunWatch>(
    task: Task<'_>,
    profile: Profile,
    budget: &mut Budget,
    out: &mut O,
    watch: &mut K,
) -> Result<Found, RunFault>
    ensures searches { Searches profile task.entry.instance.now result (O.contents out.old)
        (O.contents out.new) budget.old budget.new }
    ensures shown { IfOk result (λ found. IsShownFor profile task.entry.instance.now found
        (O.contents out.old) (O.contents out.new)
        (K.seen watch.old) (K.seen watch.new)) }
    ensures waives { WaivesAs budget.old budget.new (K.waived watch.old) (K.waived watch.new) }
{
    task.instance.limits();
    let mut told = Told::new(task.alloc, out);
    let searched = search(task, profile, budget, &mut told, watch);
    let Finished { writer, fault } = told.finish();
    // Nothing is done here: the proof learns from this use what the writer holds.
    let _ = &*writer;
    conclude(searched, fault)
}

/// Looks for an optimum, from the start if that is a solution.
fn search<T: Progress, K: RunWatch>(
    task: Task<'_>,
    profile: Profile,
    budget: &mut Budget,
    progress: &mut T,
    watch: &mut K,
) -> Result<Found, ImproveFault>
    requires { CanFail (T.state progress.old) }
    ensures follows { (first : T) → T.follows first progress.old → T.follows first progress.new }
    ensures improves { Improves profile task.entry.instance.now result
        (T.state progress.old) (T.state progress.new)
        budget.old budget.new }
    ensures shown { AreShown task.entry.instance.now (T.state progress.old) (T.state progress.new)
        (K.seen watch.old) (K.seen watch.new) }
    ensures waives { WaivesAs budget.old budget.new (K.waived watch.old) (K.waived watch.new) }
{
    let Task {
        instance,
        start,
        ..
    } = task;
    match start {
        Some(bits) => {
            if is_solution(instance, &bits) {
                improve_from(
                    instance,
                    Beginning { bits, profile },
                    budget,
                    progress,
                    watch,
                )
            } else {
                improve_watched(instance, budget, progress, profile, watch)
            }
        }
        None => improve_watched(instance, budget, progress, profile, watch),
    }
}

/// Whether there is a bit for each variable, and all hard clauses hold.
pub(crate) fn is_solution(instance: &Instance, bits: &[bool]) -> bool
    ensures yes { IsTrue result → AreFeasible instance.now bits.now }
    ensures no { result ≡ false → (cost : ℕ) → IsSolution instance.now bits.now cost → ⊥ }
{
    bits.len() == instance.vars() as usize && instance.feasible(bits)
}

/// The outcome of a search, where this is why a telling failed.
fn conclude(searched: Result<Found, ImproveFault>, fault: RunFault) -> Result<Found, RunFault>
    ensures { result ≡ outcome_of searched fault }
{
    match searched {
        Ok(found) => Ok(found),
        Err(ImproveFault::Memory) => Err(RunFault::Memory),
        Err(ImproveFault::Progress) => Err(fault),
    }
}
