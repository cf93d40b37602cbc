//! What the values at level 0 and the best solution settle: what is paid for good, what is too
//! dear, and whether anything cheaper is left.
use crate::cores::Cores;
use crate::desk::{Desk, DeskFault};
use crate::tables::at;
use cnf::types::Lit;

impl Cores {
    /// Counts what is fixed, and fixes what is too dear; answers whether nothing is cheaper than
    /// the best solution.
    pub(super) fn settle<D: Desk>(&mut self, desk: &mut D) -> Result<bool, DeskFault>
        ensures follows { (first : D) → D.follows first desk.old → D.follows first desk.new }
    {
        self.pay_fixed(desk)?;
        if desk.is_refuted() || self.close(desk)? {
            return Ok(true);
        }
        self.harden(desk)?;
        Ok(desk.is_refuted())
    }

    /// What is fixed true is paid, and what is fixed false never is. Where the last output of a
    /// count is true, that gets the next one.
    fn pay_fixed<D: Desk>(&mut self, desk: &mut D) -> Result<(), DeskFault>
        ensures follows { (first : D) → D.follows first desk.old → D.follows first desk.new }
    {
        for place in 0..self.items.list().len() {
            let lit = at(self.items.list(), place);
            let Some(is_true) = desk.fixed(lit) else {
                continue;
            };
            let rest = self.items.drop_rest(lit);
            if is_true {
                self.lower = self.lower.saturating_add(rest);
                self.counting.grow_after(desk, &mut self.items, lit)?;
            }
        }
        self.items.tidy();
        Ok(())
    }

    /// Refutes what is cheaper than the best solution, where the cores are worth that; answers
    /// whether it has.
    fn close<D: Desk>(&mut self, desk: &mut D) -> Result<bool, DeskFault>
        ensures follows { (first : D) → D.follows first desk.old → D.follows first desk.new }
    {
        if self.lower < desk.cost() {
            return Ok(false);
        }
        self.flush(desk)?;
        if self.lower < desk.cost() {
            return Ok(false);
        }
        self.is_over = true;
        if !self.cite_cores(desk)? {
            return Ok(false);
        }
        desk.cut(&[])
    }

    /// Fixes what costs more than is left below the best solution.
    fn harden<D: Desk>(&mut self, desk: &mut D) -> Result<(), DeskFault>
        ensures follows { (first : D) → D.follows first desk.old → D.follows first desk.new }
    {
        if !desk.has_solution() {
            return Ok(());
        }
        let gap = desk.cost().saturating_sub(self.lower).saturating_sub(1);
        let dear = self.dearer_than(desk, gap)?;
        if dear.is_empty() {
            return Ok(());
        }
        self.flush(desk)?;
        if self.cite_cores(desk)? {
            self.fix_false(desk, &dear)?;
        }
        Ok(())
    }

    /// Fixes the literals false, by cuts under the present form, as long as those are right. Then
    /// they never cost anything: that they are fixed is seen by the next search alone.
    fn fix_false<D: Desk>(&mut self, desk: &mut D, dear: &[Lit]) -> Result<(), DeskFault>
        ensures follows { (first : D) → D.follows first desk.old → D.follows first desk.new }
    {
        for lit in dear {
            if !desk.cut(&[lit.negation()])? {
                break;
            }
            self.items.drop_rest(*lit);
        }
        self.items.tidy();
        Ok(())
    }
}
