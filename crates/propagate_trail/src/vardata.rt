// The level, the position and the reason of each variable.
ghost use Rattle.std.specs.Prelude.{◌≡◌, ◌-◌, ◌<◌, ◌^◌, None, Some, length, map, replicate};
ghost use Rattle.std.specs.Prelude.{slice_set, slice_index, slice_index_or, IfOk};
ghost use Rattle.propagate_trail.specs.Renames.{named_reason};
ghost use Rattle.propagate_trail.specs.Vardata.{named_var_data};

use clauses::moved::new_reference;
use clauses::store::{CRef, MaybeCRef, Moves};
use clauses::words::MaybeWord;
use std::alloc::{AllocError, Global};
use std::marker::Model;

/// What is kept of a variable.
#[derive(Clone, Copy, Debug, PartialEq, Eq, Drop)]
pub(crate) struct VarData {
    // The number of decisions up to it, below 2^32 - 1; none where it has no value.
    level: MaybeWord,
    // How many literals stand before it on the trail; of no meaning where there is no level.
    position: u32,
    // The clause that left no choice, none for a decision; of no meaning where there is no level.
    reason: MaybeCRef,
}

const _: () = prove!(size_of::<VarData>() == 12);

/// A level, a position and a reason for each variable, side by side, so that an assignment writes
/// to one place.
#[derive(Drop)]
pub(crate) struct VarTable {
    // By variable, from 0, which no literal has.
    vardata: Vec<VarData>,
}

impl Model for VarTable {
    ghost use Rattle.propagate_trail.specs.Vardata.{VarTableState, var_table_state};

    ghost Value = { VarTableState };

    ghost view = { λ m. var_table_state m.vardata.items };
}

/// The new reference of a reason.
fn new_reason(moves: &Moves, reason: Option<CRef>) -> Option<CRef>
    ensures { result ≡ named_reason moves.now reason }
{
    match reason {
        Some(old) => Some(new_reference(moves, old)),
        None => None,
    }
}

/// Puts the new reference of its reason into each.
fn rename_vardata(vardata: &mut [VarData], moves: &Moves)
    ensures { vardata.new ≡ map (named_var_data moves.now) vardata.old }
{
    for data in vardata.iter_mut() {
        *data = VarData {
            level: data.level,
            position: data.position,
            reason: MaybeCRef::new(new_reason(moves, data.reason.get())),
        };
    }
}

impl VarTable {
    /// `count` variables, without levels.
    ///
    /// # Errors
    ///
    /// `AllocError` where memory was refused.
    pub(crate) fn new(alloc: Global, count: usize) -> Result<Self, AllocError>
        ensures { IfOk result (λ m. m ≡ record {
          levels = replicate count None;
          positions =
              replicate count 0;
          reasons = replicate count None;
        }) }
    {
        let mut vardata = Vec::new(alloc);
        let data = VarData {
            level: MaybeWord::new(None),
            position: 0,
            reason: MaybeCRef::new(None),
        };
        vardata.resize(count, data)?;
        Ok(VarTable { vardata })
    }

    /// The level of a variable; none where it has no value.
    pub(crate) fn level(&self, variable: usize) -> Option<u32>
        requires { variable < length self.now.levels }
        ensures { result ≡ slice_index_or self.now.levels variable None }
    {
        self.vardata[variable].level.get()
    }

    /// The position of a variable that has a value, else any number.
    pub(crate) fn position(&self, variable: usize) -> u32
        requires { variable < length self.now.positions }
        ensures { result ≡ slice_index self.now.positions variable }
    {
        self.vardata[variable].position
    }

    /// The reason of a variable that has a value, else any or none.
    pub(crate) fn reason(&self, variable: usize) -> Option<CRef>
        requires { variable < length self.now.reasons }
        ensures { result ≡ slice_index_or self.now.reasons variable None }
    {
        self.vardata[variable].reason.get()
    }

    /// The variable has a value from now on.
    pub(crate) fn set(&mut self, variable: usize, level: u32, position: u32, reason: Option<CRef>)
        requires within { variable < length self.old.levels }
        requires small { level < 2 ^ 32 - 1 }
        ensures levels { self.new.levels ≡ slice_set self.old.levels variable (Some level) }
        ensures positions { self.new.positions ≡ slice_set self.old.positions variable position }
        ensures reasons { self.new.reasons ≡ slice_set self.old.reasons variable reason }
    {
        self.vardata[variable] = VarData {
            level: MaybeWord::new(Some(level)),
            position,
            reason: MaybeCRef::new(reason),
        };
    }

    /// Takes the level away.
    pub(crate) fn clear(&mut self, variable: usize)
        requires { variable < length self.old.levels }
        ensures levels { self.new.levels ≡ slice_set self.old.levels variable None }
        ensures positions { self.new.positions ≡ self.old.positions }
        ensures reasons { self.new.reasons ≡ self.old.reasons }
    {
        self.vardata[variable].level = MaybeWord::new(None);
    }

    /// Renames the reasons.
    pub(crate) fn rename(&mut self, moves: &Moves)
        ensures levels { self.new.levels ≡ self.old.levels }
        ensures positions { self.new.positions ≡ self.old.positions }
        ensures reasons { self.new.reasons ≡ map (named_reason moves.now) self.old.reasons }
    {
        rename_vardata(&mut self.vardata, moves);
    }
}
