// Lines that make clauses: a count, and one more output of a count.
ghost use Rattle.std.specs.Prelude.{◌≡◌, ◌≤◌, [], length, IfOk, true};
ghost use Rattle.forms.specs.Forms.{count_line, more_line, are_known};
ghost use Rattle.forms.specs.Answers.{IsMade};

use super::Forms;
use crate::faults::{LineFault, MOST_COUNT_CLAUSES};
use crate::growing::{
    add_output, add_stages, grow_item, more_fault, multiplier_of, push_count, widen,
};
use cnf::clause_list::ClauseList;
use cnf::types::Lit;
use std::alloc::AllocError;
use totalizer::totalizer::Totalizer;

impl Forms {
    /// A count of these literals with `outputs` outputs, a totalizer whose clauses, and no others,
    /// are in `clauses` then. Answers why the line is refused, if it is: `Name` or `Limit`.
    ///
    /// # Errors
    ///
    /// `AllocError` where memory was refused.
    pub fn count(
        &mut self,
        outputs: u64,
        inputs: &[Lit],
        clauses: &mut ClauseList,
    ) -> Result<Option<LineFault>, AllocError>
        ensures { IfOk result (λ fault. IsMade (count_line outputs inputs.now self.old)
            self.old self.new clauses.new fault) }
    {
        clauses.clear();
        if outputs == 0 || outputs > inputs.len() as u64 || !self.are_known(inputs) {
            return Ok(Some(LineFault::Name));
        }
        self.add_count(outputs as usize, inputs, clauses)
    }

    /// A count of literals that are there, with `outputs` outputs, and its clauses. Answers `Limit`
    /// where they are too many.
    fn add_count(
        &mut self,
        outputs: usize,
        inputs: &[Lit],
        clauses: &mut ClauseList,
    ) -> Result<Option<LineFault>, AllocError>
        requires known { are_known self.old inputs.now ≡ true }
        requires some { 1 ≤ outputs }
        requires few { outputs ≤ length inputs.now }
        requires none { clauses.old ≡ [] }
        ensures { IfOk result (λ fault. IsMade (count_line outputs inputs.now self.old)
            self.old self.new clauses.new fault) }
    {
        let mut totalizer = Totalizer::new(*self.numbered.allocator(), inputs)?;
        let room = MOST_COUNT_CLAUSES - self.made;
        let next = add_stages(&mut totalizer, outputs, self.variables + 1, room, clauses)?;
        let Some(fresh) = next else {
            clauses.clear();
            return Ok(Some(LineFault::Limit));
        };
        widen(&mut self.bound, &mut self.marks, fresh)?;
        push_count(&mut self.numbered, inputs, totalizer)?;
        self.variables = fresh - 1;
        self.made += clauses.len();
        Ok(None)
    }

    /// One more output of the count with a number, whose clauses, and no others, are in `clauses`
    /// then. The present form has it as often as the count's fact. Answers why the line is refused,
    /// if it is: `Name` or `Limit`.
    ///
    /// # Errors
    ///
    /// `AllocError` where memory was refused.
    pub fn more(
        &mut self,
        number: u64,
        clauses: &mut ClauseList,
    ) -> Result<Option<LineFault>, AllocError>
        ensures { IfOk result (λ fault. IsMade (more_line number self.old)
            self.old self.new clauses.new fault) }
    {
        clauses.clear();
        if let Some(fault) = more_fault(&self.numbered, number, self.made) {
            return Ok(Some(fault));
        }
        let item = &mut self.numbered[number as usize - 1];
        let multiplier = multiplier_of(item, self.present);
        let fresh = self.variables + 1;
        match grow_item(item, &mut self.bound, &mut self.marks, fresh, clauses) {
            Ok(next) => {
                self.variables = next - 1;
                self.made += clauses.len();
                add_output(&mut self.bound, next - 1, multiplier);
                Ok(None)
            }
            Err(error) => {
                self.numbered.clear();
                Err(error)
            }
        }
    }
}
