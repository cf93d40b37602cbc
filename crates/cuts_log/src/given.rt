// The clauses of the formula, as a log finds those that are live.
ghost use Rattle.std.specs.Prelude.{◌≡◌, IfOk};
ghost use Rattle.std.specs.Prelude.{slice_index_or, false};
ghost use Rattle.cuts_log.specs.Given.{all_live, deleted, without_name, without_names};

use cnf::clause_list::ClauseList;
use cnf::types::Lit;
use forms::table::ClauseTable;
use lrat_log::lines::{Hint, Name};
use std::alloc::AllocError;
use std::marker::Model;

/// The clauses of the formula by their numbers, and which of them are live: a byte for each, beside
/// their literals.
#[derive(Drop)]
pub(crate) struct FormulaClauses {
    // All of them.
    clauses: ClauseList,
    // Whether each is live.
    live: Vec<bool>,
}

impl Model for FormulaClauses {
    ghost use Rattle.cuts_log.specs.Given.{FormulaState};

    ghost Value = { FormulaState };

    ghost view = { λ f. record { clauses = f.clauses; live = f.live.items } };
}

impl ClauseTable for FormulaClauses {
    ghost use Rattle.cuts_log.specs.Given.{formula_at};

    ghost at = { formula_at };

    fn find(&self, id: u64) -> Option<&[Lit]> {
        if id == 0 || id > self.clauses.len() as u64 {
            return None;
        }
        let place = id as usize - 1;
        if !is_set(&self.live, place) {
            return None;
        }
        Some(self.clauses.get(place))
    }
}

impl FormulaClauses {
    /// These clauses, all of which are live.
    ///
    /// # Errors
    ///
    /// `AllocError` where memory was refused.
    pub(crate) fn all_live(clauses: ClauseList) -> Result<Self, AllocError>
        ensures { IfOk result (λ f. f ≡ all_live clauses) }
    {
        let live = Vec::from_elem(clauses.allocator(), true, clauses.len())?;
        Ok(FormulaClauses { clauses, live })
    }

    /// The clauses that these name are live no more; one that was added is none of the formula.
    pub(crate) fn delete(&mut self, hints: &[Hint])
        ensures { self.new ≡ deleted hints.now self.old }
    {
        clear_all(&mut self.live, hints);
    }
}

/// Whether the flag in this place is set, if there is one.
fn is_set(flags: &[bool], place: usize) -> bool
    ensures { result ≡ slice_index_or flags.now place false }
{
    place < flags.len() && flags[place]
}

/// The clauses that these name are live no more.
fn clear_all(live: &mut [bool], hints: &[Hint])
    ensures { live.new ≡ without_names hints.now live.old }
{
    for hint in hints {
        match *hint {
            Hint::Plain(name) | Hint::Group(name) => clear(live, name),
        }
    }
}

/// The clause with this name is live no more.
fn clear(live: &mut [bool], name: Name)
    ensures { live.new ≡ without_name name live.old }
{
    match name {
        Name::Formula(number) => {
            let number = number.get();
            if number <= live.len() as u64 {
                live[number as usize - 1] = false;
            }
        }
        Name::Added(_) => {}
    }
}
