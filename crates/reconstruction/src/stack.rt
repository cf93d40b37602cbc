// The reconstruction stack as a search has it: beside the eliminated variables it knows how many
// variables there are, and what the clauses that are left are called in the log.
ghost use Rattle.std.specs.Prelude.{◌≡◌, ℕ, ◌+◌, false, [], length, slice_get, All};
ghost use Rattle.std.specs.List.{enumerate_from};
ghost use Rattle.reconstruction.specs.Removals.{extended, is_eliminated};
ghost use Rattle.reconstruction.specs.Stack.{IsRemovedWithin};

use crate::removals::Removals;
use lrat_log::packed_name::PackedName;
use std::marker::Model;
use std::mem::replace;

/// The eliminated variables, and the names of the clauses that are left.
#[derive(Drop)]
pub struct Stack {
    // How many variables there are, those that elimination made too; below 2^27.
    vars: u32,
    // The reconstruction stack: the eliminated variables, each with the clauses that its value has
    // to satisfy.
    removed: Removals,
    // By reference, from 0, the name in the log of each clause that is left; none once they were
    // taken.
    names: Vec<PackedName>,
}

impl Model for Stack {
    ghost use Rattle.std.specs.Prelude.{All};
    ghost use Rattle.std.specs.List.{enumerate_from};
    ghost use Rattle.reconstruction.specs.Stack.{StackState, IsRemovedWithin};

    ghost Value = { StackState };

    ghost view = { λ s. record {
      variables = s.vars;
      removed = s.removed;
      names = enumerate_from 0 s.names.items;
    } };

    ghost invariant = { λ s. All (IsRemovedWithin s.vars) s.removed };
}

impl Stack {
    /// A stack of a text with so many variables, of which these were eliminated, and the name of
    /// each clause that is left, by its reference, from 0.
    pub fn new(vars: u32, removed: Removals, names: Vec<PackedName>) -> Self
        requires { All (IsRemovedWithin vars) removed }
        ensures { result ≡ record {
          variables = vars;
          removed = removed;
          names = enumerate_from 0 names.items;
        } }
    {
        Stack {
            vars,
            removed,
            names,
        }
    }

    /// The number of variables, with the fresh ones.
    pub fn vars(&self) -> u32
        ensures { result ≡ self.now.variables }
    {
        self.vars
    }

    /// By reference, from 0, the name of each clause that is left; none after `take_names`.
    pub fn names(&self) -> &[PackedName]
        ensures { enumerate_from 0 result.now ≡ self.now.names }
    {
        &self.names
    }

    /// Takes the names out: reconstruction needs none.
    pub fn take_names(&mut self) -> Vec<PackedName>
        ensures taken { enumerate_from 0 result.items ≡ self.old.names }
        ensures rest { self.new ≡ record self.old { names = [] } }
    {
        let none = Vec::new(*self.names.allocator());
        replace(&mut self.names, none)
    }

    /// Reconstruction sets the eliminated variables, the last eliminated first: each becomes true
    /// just where some removed clause with it is otherwise false. All other variables keep their
    /// values.
    pub fn extend(&self, bits: &mut [bool])
        requires { length bits.old ≡ self.now.variables }
        ensures set { bits.new ≡ extended self.now.removed bits.old }
        ensures others { (v : ℕ) → is_eliminated self.now.removed (v + 1) ≡ false
            → slice_get bits.new v ≡ slice_get bits.old v }
    {
        self.removed.extend(bits);
    }
}
