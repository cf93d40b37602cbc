//! The run by forms and cuts: a text in, a result out, and a certificate that is written while the
//! search goes on.
ghost use Rattle.std.specs.Prelude.{◌≡◌, ◌<◌, ℕ, List, Option, Err, true, length};
ghost use Rattle.std.specs.Prelude.{IfOk, IfErr, IfSome, IsSome};
ghost use Rattle.cdcl_order.specs.Budgets.{WaivesAs};
ghost use Rattle.cuts_log.specs.Judging.{IsEarlier};
ghost use Rattle.cuts_log.specs.Logs.{problem_of, start_of};
ghost use Rattle.cuts_log.specs.Starts.{IsReached};
ghost use Rattle.cuts_solver.specs.Solving.{CanResume, IsRightText};
ghost use Rattle.improve_cuts.specs.ByCuts.{BeginsOn};
ghost use Rattle.report.specs.ByCuts.{EndsBehind, EndsByCuts, IsSeenByCuts, LeavesBehind};
ghost use Rattle.report.specs.ByCuts.{LeavesByCuts};
ghost use Rattle.cnf.specs.declared.limits.TheConstants.{NUMBER_LIMIT};
ghost use Rattle.report.specs.Earlier.{EndsAt, IsDearer, IsRightUpTo, room_for};
ghost use Rattle.report.specs.Running.{ReadsOnlyAs};

mod beginning;
mod ending;
mod searching;

use crate::by_cuts::beginning::{begin_below, begin_free, count_room, first_solution};
use crate::by_cuts::ending::end_by_cuts;
use crate::by_cuts::searching::{CutsSearch, find_at_once, find_by_cuts};
use crate::solving::Run;
use cnf::types::Instance;
use cuts_earlier::earlier::{CannotResume, Earlier};
use cuts_solver::solver::{CutsSolver, Written};
use improve_cuts::by_cuts::CutsTask;
use report_text::best::RunWatch;
use report_text::fault::RunFault;
use report_text::finding::Finding;
use report_text::status::CutsStatus;
use std::alloc::{AllocError, Global};
use std::io::{Read, Write};
use wcnf::reading::read_from;

/// What a run by forms and cuts leaves.
#[derive(Drop)]
pub struct CutsRun<P: Write> {
    /// Where the certificate went. None only where memory was refused before a byte of it was
    /// written.
    pub proof: Option<P>,
    /// How the run ended.
    pub ended: Result<CutsStatus, RunFault>,
}

impl<'s, 'b, 'o, 'w, O: Write, K: RunWatch> Run<'s, 'b, 'o, 'w, O, K> {
    /// Reads an instance, looks for an optimum, from the first bits if they are a solution, and
    /// writes the result. The certificate of forms and cuts is written while the search goes on, in
    /// blocks, and is never in memory as a whole.
    ///
    /// The result is written as `run` writes it. The certificate is whole and flushed before the
    /// first byte of the `s` line. For `OPTIMUM FOUND` and `UNSATISFIABLE` it ends with the empty
    /// clause; else it ends where the budget was spent, and is still right up to there.
    ///
    /// If this answers Ok and what it wrote says `OPTIMUM FOUND` with a cost and bits, then the
    /// bits are a solution of this cost, no solution is cheaper, and `check_cuts_from` says yes to
    /// what was read and written; and likewise for `UNSATISFIABLE`.
    ///
    /// # Errors
    ///
    /// - `Read`: the reader failed, or the text is faulty. Nothing is written.
    /// - `Memory`: a growth was refused. The result has whole `o` lines, and no `s` line; the
    ///   certificate is a beginning of one.
    /// - `Output`: the result's writer failed. It has a beginning of a result; where that reaches
    ///   an `s` line, the certificate is whole.
    /// - `ProofOutput`: the certificate's writer failed. The result has whole `o` lines, and no `s`
    ///   line.
    ///
    /// No failed read, write or flush is tried again.
    pub fn solve_by_cuts<R: Read, P: Write + Drop>(
        &mut self,
        alloc: Global,
        input: &mut R,
        proof: P,
    ) -> CutsRun<P>
        ensures names { (self.new.budget.ghost_name ≡ self.old.budget.ghost_name)
            × (self.new.out.ghost_name ≡ self.old.out.ghost_name)
            × (self.new.watch.ghost_name ≡ self.old.watch.ghost_name) }
        ensures ok { IfOk result.ended (λ status. IfSome result.proof (λ writer.
            EndsByCuts (R.remaining input.old)
            (O.contents self.old.out.now) (O.contents self.new.out.now)
            (P.contents proof) (P.contents writer) status
            self.old.budget.now self.new.budget.now)) }
        ensures fault { IfErr result.ended (λ fault. IfSome result.proof (λ writer.
            LeavesByCuts fault (R.remaining input.old)
            (O.contents self.old.out.now) (O.contents self.new.out.now)
            (P.contents proof) (P.contents writer) self.new.budget.now)) }
        ensures writer { (result.ended ≡ Err RunFault.Memory → ⊥) → IsSome result.proof }
        ensures same_limit { self.new.budget.now.limit ≡ self.old.budget.now.limit }
        ensures seen { IfOk result.ended (λ status. IsSeenByCuts (R.remaining input.old)
            (O.contents self.old.out.now) (O.contents self.new.out.now) status
            (K.seen self.old.watch.now) (K.seen self.new.watch.now)) }
        ensures waives { WaivesAs self.old.budget.now self.new.budget.now
            (K.waived self.old.watch.now) (K.waived self.new.watch.now) }
    {
        match read_from(alloc, input) {
            Ok(instance) => self.solve_read_by_cuts(alloc, &instance, proof),
            Err(fault) => CutsRun {
                proof: Some(proof),
                ended: Err(fault.into()),
            },
        }
    }

    /// As `solve_by_cuts`, of an instance that was read.
    pub fn solve_read_by_cuts<P: Write + Drop>(
        &mut self,
        alloc: Global,
        instance: &Instance,
        proof: P,
    ) -> CutsRun<P>
        ensures names { (self.new.budget.ghost_name ≡ self.old.budget.ghost_name)
            × (self.new.out.ghost_name ≡ self.old.out.ghost_name)
            × (self.new.watch.ghost_name ≡ self.old.watch.ghost_name) }
        ensures ok { (text : Option (List ℕ)) → ReadsOnlyAs text instance.now
            → IfOk result.ended (λ status. IfSome result.proof (λ writer.
            EndsByCuts text (O.contents self.old.out.now) (O.contents self.new.out.now)
            (P.contents proof) (P.contents writer) status
            self.old.budget.now self.new.budget.now)) }
        ensures fault { (text : Option (List ℕ)) → ReadsOnlyAs text instance.now
            → IfErr result.ended (λ fault. IfSome result.proof (λ writer.
            LeavesByCuts fault text (O.contents self.old.out.now) (O.contents self.new.out.now)
            (P.contents proof) (P.contents writer) self.new.budget.now)) }
        ensures writer { (result.ended ≡ Err RunFault.Memory → ⊥) → IsSome result.proof }
        ensures same_limit { self.new.budget.now.limit ≡ self.old.budget.now.limit }
        ensures seen { (text : Option (List ℕ)) → ReadsOnlyAs text instance.now
            → IfOk result.ended (λ status. IsSeenByCuts text
            (O.contents self.old.out.now) (O.contents self.new.out.now) status
            (K.seen self.old.watch.now) (K.seen self.new.watch.now)) }
        ensures waives { WaivesAs self.old.budget.now self.new.budget.now
            (K.waived self.old.watch.now) (K.waived self.new.watch.now) }
    {
        instance.limits();
        let Ok(started) = CutsSolver::new(instance, count_room(instance), proof) else {
            return CutsRun {
                proof: None,
                ended: Err(RunFault::Memory),
            };
        };
        let start = first_solution(instance, self.start.take());
        let task = CutsTask {
            instance,
            start,
            proved: 0,
            learned: 0,
            weights: Some(started.weights),
        };
        self.run_by_cuts(CutsSearch { alloc, task }, started.solver)
    }

    /// As `solve_read_by_cuts`, with a certificate that goes on behind the lines of an earlier one:
    /// a writer that puts its lines there. Where that one has ended, the answer comes at once, and
    /// no line is written. The first bits, if they are a solution, are needed where the cuts of the
    /// earlier one hold for less than 2^62: they have to cost at most that.
    ///
    /// # Errors
    ///
    /// Those of `CannotResume`. Nothing is written then, nothing is shown, and no effort is spent;
    /// the first bits are gone.
    pub fn resume_read_by_cuts<P: Write + Drop>(
        &mut self,
        alloc: Global,
        instance: &Instance,
        earlier: Earlier,
        proof: P,
    ) -> Result<CutsRun<P>, CannotResume>
        requires { IsReached instance.now earlier.machine.state }
        ensures names { (self.new.budget.ghost_name ≡ self.old.budget.ghost_name)
            × (self.new.out.ghost_name ≡ self.old.out.ghost_name)
            × (self.new.watch.ghost_name ≡ self.old.watch.ghost_name) }
        ensures ok { (text : Option (List ℕ)) → ReadsOnlyAs text instance.now → (front : List ℕ)
            → IsEarlier instance.now earlier.machine.state front
            → IfOk result (λ run. IfOk run.ended (λ status. IfSome run.proof (λ writer.
            EndsBehind front earlier.machine.state.worth text
            (O.contents self.old.out.now) (O.contents self.new.out.now)
            (P.contents proof) (P.contents writer) status
            self.old.budget.now self.new.budget.now))) }
        ensures fault { (text : Option (List ℕ)) → ReadsOnlyAs text instance.now
            → (front : List ℕ) → IsEarlier instance.now earlier.machine.state front
            → IfOk result (λ run. IfErr run.ended (λ fault. IfSome run.proof (λ writer.
            LeavesBehind front fault text (O.contents self.old.out.now)
            (O.contents self.new.out.now) (P.contents proof) (P.contents writer)
            self.new.budget.now))) }
        ensures writer { IfOk result
            (λ run. (run.ended ≡ Err RunFault.Memory → ⊥) → IsSome run.proof) }
        ensures same_limit { self.new.budget.now.limit ≡ self.old.budget.now.limit }
        ensures seen { (text : Option (List ℕ)) → ReadsOnlyAs text instance.now
            → IfOk result (λ run. IfOk run.ended (λ status. IsSeenByCuts text
            (O.contents self.old.out.now) (O.contents self.new.out.now) status
            (K.seen self.old.watch.now) (K.seen self.new.watch.now))) }
        ensures waives { WaivesAs self.old.budget.now self.new.budget.now
            (K.waived self.old.watch.now) (K.waived self.new.watch.now) }
        ensures refused { IfErr result (λ _. (self.new.budget.now ≡ self.old.budget.now)
            × (O.contents self.new.out.now ≡ O.contents self.old.out.now)
            × (K.seen self.new.watch.now ≡ K.seen self.old.watch.now)) }
        ensures lacking { IfErr result (λ e. (cost : ℕ) → e ≡ CannotResume.Lacking cost
            → cost ≡ earlier.machine.state.worth) }
        ensures limited { IfErr result (λ e. (cost : ℕ) → e ≡ CannotResume.Lacking cost
            → cost < NUMBER_LIMIT) }
        ensures dear { IfErr result (λ e. (cost : ℕ) → e ≡ CannotResume.Lacking cost
            → IfSome self.old.start.now (λ bits. IsDearer instance.now cost bits.items)) }
        ensures unfit { IfErr result (λ e. e ≡ CannotResume.Unfit
            → CanResume instance.now earlier.machine (room_for (length instance.now.soft)) → ⊥) }
    {
        instance.limits();
        let start = first_solution(instance, self.start.take());
        let start = match begin_below(earlier.worth(), start) {
            Ok(start) => start,
            Err(refusal) => {
                // Here and below: a call of `drop` is proved once for each type, and the end of a
                // scope field by field.
                drop(earlier);
                return Err(refusal);
            }
        };
        let task = CutsTask {
            instance,
            start,
            proved: earlier.proved(),
            learned: earlier.learned(),
            weights: None,
        };
        let search = CutsSearch { alloc, task };
        if earlier.has_ended() {
            drop(earlier);
            return Ok(self.run_at_once(search, proof));
        }
        match CutsSolver::resume(instance, earlier.machine, count_room(instance), proof) {
            Ok(Some(solver)) => Ok(self.run_by_cuts(search, solver)),
            Ok(None) => Err(CannotResume::Unfit),
            Err(AllocError) => Ok(CutsRun {
                proof: None,
                ended: Err(RunFault::Memory),
            }),
        }
    }

    /// As `resume_read_by_cuts`, where the certificate has ended and is right for the cost 0, and
    /// the first bits cost that. The answer comes at once, and no line is written.
    ///
    /// # Errors
    ///
    /// `Lacking` where the first bits are no such solution. Nothing is written then, nothing is
    /// shown, and no effort is spent; the first bits are gone.
    pub fn tell_free_by_cuts<P: Write + Drop>(
        &mut self,
        alloc: Global,
        instance: &Instance,
        proof: P,
    ) -> Result<CutsRun<P>, CannotResume>
        ensures names { (self.new.budget.ghost_name ≡ self.old.budget.ghost_name)
            × (self.new.out.ghost_name ≡ self.old.out.ghost_name)
            × (self.new.watch.ghost_name ≡ self.old.watch.ghost_name) }
        ensures ok { (text : Option (List ℕ)) → ReadsOnlyAs text instance.now → (front : List ℕ)
            → IsRightText instance.now 0 true front
            → IfOk result (λ run. IfOk run.ended (λ status. IfSome run.proof (λ writer.
            EndsBehind front 0 text
            (O.contents self.old.out.now) (O.contents self.new.out.now)
            (P.contents proof) (P.contents writer) status
            self.old.budget.now self.new.budget.now))) }
        ensures fault { (text : Option (List ℕ)) → ReadsOnlyAs text instance.now
            → (front : List ℕ) → IsRightText instance.now 0 true front
            → IfOk result (λ run. IfErr run.ended (λ fault. IfSome run.proof (λ writer.
            LeavesBehind front fault text (O.contents self.old.out.now)
            (O.contents self.new.out.now) (P.contents proof) (P.contents writer)
            self.new.budget.now))) }
        ensures writer { IfOk result (λ run. IsSome run.proof) }
        ensures same_limit { self.new.budget.now.limit ≡ self.old.budget.now.limit }
        ensures seen { (text : Option (List ℕ)) → ReadsOnlyAs text instance.now
            → IfOk result (λ run. IfOk run.ended (λ status. IsSeenByCuts text
            (O.contents self.old.out.now) (O.contents self.new.out.now) status
            (K.seen self.old.watch.now) (K.seen self.new.watch.now))) }
        ensures waives { WaivesAs self.old.budget.now self.new.budget.now
            (K.waived self.old.watch.now) (K.waived self.new.watch.now) }
        ensures refused { IfErr result (λ _. (self.new.budget.now ≡ self.old.budget.now)
            × (O.contents self.new.out.now ≡ O.contents self.old.out.now)
            × (K.seen self.new.watch.now ≡ K.seen self.old.watch.now)) }
        ensures lacking { IfErr result (λ e. e ≡ CannotResume.Lacking 0) }
        ensures dear { IfErr result (λ _. IfSome self.old.start.now
            (λ bits. IsDearer instance.now 0 bits.items)) }
    {
        instance.limits();
        let start = begin_free(first_solution(instance, self.start.take()))?;
        let task = CutsTask {
            instance,
            start,
            proved: 0,
            learned: 0,
            weights: None,
        };
        Ok(self.run_at_once(CutsSearch { alloc, task }, proof))
    }

    /// Searches with a solver, and writes the end.
    fn run_by_cuts<P: Write + Drop>(
        &mut self,
        search: CutsSearch<'_>,
        solver: CutsSolver<P>,
    ) -> CutsRun<P>
        requires { BeginsOn search.task.instance.now search.task.start solver }
        ensures names { (self.new.budget.ghost_name ≡ self.old.budget.ghost_name)
            × (self.new.out.ghost_name ≡ self.old.out.ghost_name)
            × (self.new.watch.ghost_name ≡ self.old.watch.ghost_name) }
        ensures ok { (text : Option (List ℕ)) → ReadsOnlyAs text search.entry.task.instance.now
            → (front : List ℕ)
            → IsEarlier (problem_of solver.log) (start_of solver.log) front
            → IfOk result.ended (λ status. IfSome result.proof (λ writer.
            EndsBehind front solver.log.cost text
            (O.contents self.old.out.now) (O.contents self.new.out.now)
            ((solver.log.book).seen).origin (P.contents writer) status
            self.old.budget.now self.new.budget.now)) }
        ensures fault { (text : Option (List ℕ)) → ReadsOnlyAs text search.entry.task.instance.now
            → (front : List ℕ)
            → IsEarlier (problem_of solver.log) (start_of solver.log) front
            → IfErr result.ended (λ fault. IfSome result.proof (λ writer.
            LeavesBehind front fault text (O.contents self.old.out.now)
            (O.contents self.new.out.now) ((solver.log.book).seen).origin (P.contents writer)
            self.new.budget.now)) }
        ensures writer { IsSome result.proof }
        ensures same_limit { self.new.budget.now.limit ≡ self.old.budget.now.limit }
        ensures seen { (text : Option (List ℕ)) → ReadsOnlyAs text search.entry.task.instance.now
            → IfOk result.ended (λ status. IsSeenByCuts text
            (O.contents self.old.out.now) (O.contents self.new.out.now) status
            (K.seen self.old.watch.now) (K.seen self.new.watch.now)) }
        ensures waives { WaivesAs self.old.budget.now self.new.budget.now
            (K.waived self.old.watch.now) (K.waived self.new.watch.now) }
    {
        let instance = search.task.instance;
        instance.limits();
        let mut solver = solver;
        match find_by_cuts(search, &mut solver, self.budget, self.out, self.watch) {
            Ok(found) => {
                let finding = Finding::of_cuts(&found);
                self.watch.searched(&finding);
                let written = solver.finish();
                end_by_cuts(instance, &finding, written, self.out, self.watch)
            }
            Err(fault) => {
                let Written { writer, .. } = solver.finish();
                CutsRun {
                    proof: Some(writer),
                    ended: Err(fault),
                }
            }
        }
    }

    /// Writes the end of a search whose certificate has ended before it begins: nothing costs less
    /// than the limit that its cuts hold for.
    fn run_at_once<P: Write + Drop>(&mut self, search: CutsSearch<'_>, proof: P) -> CutsRun<P>
        requires { (limit : ℕ) × EndsAt search.task.instance.now limit search.task.start }
        ensures names { (self.new.budget.ghost_name ≡ self.old.budget.ghost_name)
            × (self.new.out.ghost_name ≡ self.old.out.ghost_name)
            × (self.new.watch.ghost_name ≡ self.old.watch.ghost_name) }
        ensures ok { (limit : ℕ) → EndsAt search.entry.task.instance.now limit
            search.entry.task.start → (text : Option (List ℕ))
            → ReadsOnlyAs text search.entry.task.instance.now
            → (front : List ℕ) → IsRightUpTo search.entry.task.instance.now limit front
            → IfOk result.ended (λ status. IfSome result.proof (λ writer.
            EndsBehind front limit text
            (O.contents self.old.out.now) (O.contents self.new.out.now)
            (P.contents proof) (P.contents writer) status
            self.old.budget.now self.new.budget.now)) }
        ensures fault { (limit : ℕ) → EndsAt search.entry.task.instance.now limit
            search.entry.task.start → (text : Option (List ℕ))
            → ReadsOnlyAs text search.entry.task.instance.now
            → (front : List ℕ) → IsRightUpTo search.entry.task.instance.now limit front
            → IfErr result.ended (λ fault. IfSome result.proof (λ writer.
            LeavesBehind front fault text (O.contents self.old.out.now)
            (O.contents self.new.out.now) (P.contents proof) (P.contents writer)
            self.new.budget.now)) }
        ensures writer { IsSome result.proof }
        ensures same_limit { self.new.budget.now.limit ≡ self.old.budget.now.limit }
        ensures seen { (limit : ℕ) → EndsAt search.entry.task.instance.now limit
            search.entry.task.start → (text : Option (List ℕ))
            → ReadsOnlyAs text search.entry.task.instance.now
            → IfOk result.ended (λ status. IsSeenByCuts text
            (O.contents self.old.out.now) (O.contents self.new.out.now) status
            (K.seen self.old.watch.now) (K.seen self.new.watch.now)) }
        ensures waives { WaivesAs self.old.budget.now self.new.budget.now
            (K.waived self.old.watch.now) (K.waived self.new.watch.now) }
    {
        let instance = search.task.instance;
        instance.limits();
        match find_at_once(search, self.budget, self.out, self.watch) {
            Ok(found) => {
                let finding = Finding::of_cuts(&found);
                self.watch.searched(&finding);
                let written = Written {
                    writer: proof,
                    is_whole: true,
                };
                end_by_cuts(instance, &finding, written, self.out, self.watch)
            }
            Err(fault) => CutsRun {
                proof: Some(proof),
                ended: Err(fault),
            },
        }
    }
}
