// The present form: that of the cores, which is the cost less the facts of their counts, each as
// many times as its core is worth, so that its literals cost that much less and its outputs that
// much (the reformulation of OLL, as one linear form); the cost itself; or one of other facts.
// Lines are written only for what is new.
ghost use Rattle.std.specs.Prelude.{◌≡◌};

use crate::desk::{Desk, DeskFault};
use cdcl_order::watch::Way;
use forms::types::NamedFact;
use std::alloc::{AllocError, Global};

/// A bound is told in the course of a turn once this part of the clauses so far were learned since
/// the last one.
const PART: u64 = 100;

/// What the present form is.
#[derive(Clone, Copy, Debug, PartialEq, Eq, Drop)]
enum Present {
    /// One of other facts, or none yet.
    Other,
    /// The cost itself.
    Cost,
    /// That of the cores, with this number of their facts.
    Cores(usize),
}

impl Present {
    /// What it is as a form that shows a bound.
    fn way(self) -> Way {
        match self {
            Present::Other => Way::Relaxation,
            Present::Cost => Way::Cost,
            Present::Cores(_) => Way::Cores,
        }
    }
}

/// What the log was told of forms and bounds.
#[derive(Drop)]
pub(crate) struct Citing {
    // The facts of the cores' form, in the order of their cores.
    facts: Vec<NamedFact>,
    // The present form.
    present: Present,
    // The greatest bound that was told, by lines before the search, too; 0 before the first one.
    told: u64,
    // The number of learned clauses at which the next one is told in the course of a turn, from 0.
    next: u64,
}

impl Citing {
    /// Before the first form, where such a bound was told.
    pub(crate) fn new(alloc: Global, told: u64) -> Self {
        Citing {
            facts: Vec::new(alloc),
            present: Present::Other,
            told,
            next: 0,
        }
    }

    /// The cores' form is less `weight` times the fact of the count with this number.
    pub(crate) fn add(&mut self, weight: u64, number: u64) -> Result<(), AllocError> {
        self.facts.push(NamedFact {
            weight,
            is_numbered: true,
            number,
        })?;
        Ok(())
    }

    /// The facts of the cores' form.
    pub(crate) fn facts(&self) -> &[NamedFact]
        ensures { result.now ≡ self.now.facts.items }
    {
        &self.facts
    }

    /// The greatest bound that was told, by lines before the search, too; 0 before the first one.
    pub(crate) fn told(&self) -> u64
        ensures { result ≡ self.now.told }
    {
        self.told
    }

    /// `scale` times the cost, less these facts, becomes the present form; answers whether it is.
    pub(crate) fn cite_other<D: Desk>(
        &mut self,
        desk: &mut D,
        scale: u64,
        facts: &[NamedFact],
    ) -> Result<bool, DeskFault>
        ensures follows { (first : D) → D.follows first desk.old → D.follows first desk.new }
    {
        let is_right = desk.form(scale, facts)?;
        if is_right {
            self.present = Present::Other;
        }
        Ok(is_right)
    }

    /// The form of the cores becomes the present one, with all facts so far; answers whether it is.
    pub(crate) fn cite_cores<D: Desk>(&mut self, desk: &mut D) -> Result<bool, DeskFault>
        ensures follows { (first : D) → D.follows first desk.old → D.follows first desk.new }
    {
        let all = self.facts.len();
        let is_right = match self.present {
            Present::Cores(count) if count >= all => true,
            Present::Cores(count) => desk.form_more(self.facts.get(count..).unwrap_or(&[]))?,
            Present::Other | Present::Cost => desk.form(1, &self.facts)?,
        };
        if is_right {
            self.present = Present::Cores(all);
        }
        Ok(is_right)
    }

    /// The cost itself becomes the present form; answers whether it was another.
    pub(crate) fn cite_cost<D: Desk>(&mut self, desk: &mut D) -> Result<bool, DeskFault>
        ensures follows { (first : D) → D.follows first desk.old → D.follows first desk.new }
    {
        let is_new = self.present != Present::Cost && desk.form(1, &[])?;
        if is_new {
            self.present = Present::Cost;
        }
        Ok(is_new)
    }

    /// Whether it is time to say that nothing costs less than this, so that no more is said than
    /// for each hundredth of the clauses that were learned.
    pub(crate) fn is_due<D: Desk>(&self, desk: &D, lower: u64) -> bool {
        lower > self.told && desk.learned() >= self.next
    }

    /// Says what the present form is worth, where that is more than what was said. After cuts that
    /// holds up to the best cost only.
    pub(crate) fn tell_bound<D: Desk>(&mut self, desk: &mut D) -> Result<(), DeskFault>
        ensures follows { (first : D) → D.follows first desk.old → D.follows first desk.new }
    {
        let learned = desk.learned();
        self.next = learned.saturating_add(learned / PART).saturating_add(1);
        let worth = match desk.forms().bound() {
            Ok(Some(worth)) => worth.min(desk.cost()),
            _ => 0,
        };
        if worth > self.told && desk.bound(worth, self.present.way())? {
            self.told = worth;
        }
        Ok(())
    }
}
