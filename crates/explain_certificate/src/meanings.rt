// What the literals and clauses of a certificate of forms and cuts stand for in the text.
use adder::relaxations::Relaxation;
use bound::weighted::weights;
use cnf::types::{Instance, Lit};
use forms::state::Forms;
use std::alloc::{AllocError, Global};

/// What it means that a literal is true.
#[derive(Clone, Copy, Debug, PartialEq, Eq, Drop)]
pub(crate) enum Meaning {
    /// The soft clause at this place, from 0, is given up.
    GivenUp(usize),
    /// Of the literals of the count with the first number at least the second number are true.
    Reached(u64, u64),
    /// No more than that.
    Literal(Lit),
}

/// A clause of the text, by its place among the hard or the soft ones, from 0.
#[derive(Clone, Copy, Debug, PartialEq, Eq, Drop)]
pub(crate) enum Place {
    /// A hard clause.
    Hard(u32),
    /// A soft clause.
    Soft(usize),
}

/// What it means that the literal with an index is true.
#[derive(Clone, Copy, Drop)]
struct Named {
    index: usize,
    meaning: Meaning,
}

/// What literals mean, and which clauses of the text those of the formula are.
#[derive(Drop)]
pub(crate) struct Meanings {
    // By the indices of the literals, from the least on.
    named: Vec<Named>,
    // Of the clauses of the formula, in their order.
    places: Vec<Place>,
}

impl Meanings {
    /// The meanings of relaxation literals, and of the outputs of the counts with these numbers.
    pub(crate) fn of(
        instance: &Instance,
        forms: &Forms,
        counts: &[u64],
    ) -> Result<Self, AllocError> {
        let alloc = instance.allocator();
        let mut meanings = Meanings {
            named: Vec::new(alloc),
            places: Vec::new(alloc),
        };
        meanings.add_hard(alloc, instance)?;
        meanings.add_soft(alloc, instance)?;
        for number in counts {
            meanings.add_count(forms, *number)?;
        }
        meanings.named.sort_by_key(|each| each.index)?;
        Ok(meanings)
    }

    /// The hard clauses; the formula has no tautologies.
    fn add_hard(&mut self, alloc: Global, instance: &Instance) -> Result<(), AllocError> {
        let mut sorted = Vec::new(alloc);
        let mut place: u32 = 0;
        for clause in instance.hard().iter() {
            if !is_tautology(&mut sorted, clause)? {
                self.places.push(Place::Hard(place))?;
            }
            place = place.saturating_add(1);
        }
        Ok(())
    }

    /// The soft clauses, with what is true where they are given up.
    fn add_soft(&mut self, alloc: Global, instance: &Instance) -> Result<(), AllocError> {
        let mut sorted = Vec::new(alloc);
        let weights = weights(instance)?;
        let mut left = weights.as_slice();
        for place in 0..instance.soft().len() {
            let lits = instance.soft()[place].clause().lits();
            if is_tautology(&mut sorted, lits)? {
                continue;
            }
            let [relaxation, after @ ..] = left else {
                return Ok(());
            };
            left = after;
            self.add_relaxation(relaxation, place)?;
            if lits.len() != 1 {
                self.places.push(Place::Soft(place))?;
            }
        }
        Ok(())
    }

    /// What is true where the soft clause at a place is given up.
    fn add_relaxation(&mut self, relaxation: &Relaxation, place: usize) -> Result<(), AllocError> {
        self.named.push(Named {
            index: relaxation.lit.index(),
            meaning: Meaning::GivenUp(place),
        })?;
        Ok(())
    }

    /// The outputs of the count with a number, if there is one.
    fn add_count(&mut self, forms: &Forms, number: u64) -> Result<(), AllocError> {
        let Some(outputs) = forms.outputs(number) else {
            return Ok(());
        };
        let mut reached: u64 = 0;
        for output in outputs {
            reached = reached.saturating_add(1);
            self.named.push(Named {
                index: output.index(),
                meaning: Meaning::Reached(number, reached),
            })?;
        }
        Ok(())
    }

    /// The clause of the text that a clause of the formula is, if the one with this id is such.
    pub(crate) fn place(&self, id: u64) -> Option<Place> {
        let place = usize::try_from(id.checked_sub(1)?).ok()?;
        self.places.get(place).copied()
    }

    /// Puts last all that it means that the literal is true.
    pub(crate) fn name(&self, lit: Lit, to: &mut Vec<Meaning>) -> Result<(), AllocError> {
        let index = lit.index();
        let first = self.named.partition_point(|each| each.index < index);
        let mut is_named = false;
        for each in self.named.iter().skip(first) {
            if each.index != index {
                break;
            }
            to.push(each.meaning)?;
            is_named = true;
        }
        if !is_named {
            to.push(Meaning::Literal(lit))?;
        }
        Ok(())
    }
}

/// Whether some literal stands with its negation. What is in `sorted` is lost.
fn is_tautology(sorted: &mut Vec<Lit>, lits: &[Lit]) -> Result<bool, AllocError> {
    sorted.clear();
    sorted.extend_from_slice(lits)?;
    sorted.sort_by_key(|lit| lit.index())?;
    let mut rest = sorted.as_slice();
    while let [first, after @ ..] = rest {
        if after.first() == Some(&first.negation()) {
            return Ok(true);
        }
        rest = after;
    }
    Ok(false)
}
