// The type of totalizers.
ghost use Rattle.std.specs.Prelude.{◌≡◌, ℕ, ◌+◌, ◌<◌, ◌≤◌, ◌++◌, [], ◌∷◌, length, map, OnOk, IfOk};
ghost use Rattle.cnf.specs.declared.limits.TheConstants.{VARIABLE_LIMIT};
ghost use Rattle.cnf.specs.Literal.{positive, negative};
ghost use Rattle.totalizer.specs.Stages.{tree_of, size_of, outputs_of, stage};

use crate::stages::{add_outputs, count_clauses, outputs_at};
use cnf::clause_list::ClauseList;
use cnf::limits::MOST_PLACES;
use cnf::types::Lit;
use std::alloc::{AllocError, Global};
use std::marker::Model;

/// A totalizer that grows by stages (Bailleux and Boufkhad 2003): it counts which of its inputs are
/// true. It is a tree over the inputs by halves, and contracts see it as that tree.
#[derive(Drop)]
pub struct Totalizer {
    // At least one, and at most 2^32 - 1.
    inputs: Vec<Lit>,
    // For each inner node the literals that are true where at least 1, 2, .. of the inputs below it
    // are, as far as stages made them. A node comes before those of its left half, and these before
    // those of its right half. A node of n inputs and those below it are n - 1.
    outputs: Vec<Vec<Lit>>,
}

impl Model for Totalizer {
    ghost use Rattle.totalizer.specs.Stages.{Tree};
    ghost use Rattle.totalizer.specs.TreeCode.{tree_code};
    ghost use Rattle.totalizer.specs.Laid.{tree_at, IsLaid};

    ghost Value = { Tree };

    ghost coded = { tree_code };

    ghost view = { λ t. tree_at t.inputs.items t.outputs.items };

    ghost use Rattle.std.specs.Prelude.{◌≤◌, length};
    ghost use Rattle.cnf.specs.declared.limits.TheConstants.{MOST_PLACES};

    ghost invariant = { λ t. IsLaid t.inputs.items t.outputs.items
        × (length t.inputs.items ≤ MOST_PLACES) };
}

impl Totalizer {
    /// A totalizer of these inputs, before its first stage.
    ///
    /// # Errors
    ///
    /// `AllocError` where memory was refused; more than 2^32 - 1 inputs always are.
    pub fn new(alloc: Global, inputs: &[Lit]) -> Result<Self, AllocError>
        requires { 0 < length inputs.now }
        ensures { IfOk result (λ t. t ≡ tree_of inputs.now) }
    {
        if inputs.len() > MOST_PLACES {
            return Err(AllocError);
        }
        let mut outputs = Vec::new(alloc);
        outputs.reserve(inputs.len() - 1)?;
        for _ in 1..inputs.len() {
            outputs.push(Vec::new(alloc))?;
        }
        Ok(Totalizer {
            inputs: Vec::from_slice(alloc, inputs)?,
            outputs,
        })
    }

    /// How many inputs there are.
    pub fn size(&self) -> usize
        ensures { result ≡ size_of self.now }
    {
        self.inputs.len()
    }

    /// Output i, from 1, is the literal that is true where at least i inputs are: one for each
    /// stage. A single input is its own output from the start.
    pub fn outputs(&self) -> &[Lit]
        ensures { result.now ≡ outputs_of self.now }
    {
        outputs_at(&self.inputs, &self.outputs)
    }

    /// How many clauses the next stage makes; none once there is an output for each input.
    pub fn count_stage_clauses(&self) -> usize
        ensures { (v : ℕ) → result
            ≡ length (stage (length (outputs_of self.now) + 1) v self.now).clauses }
    {
        let next = self.outputs().len() + 1;
        if self.inputs.len() < next {
            return 0;
        }
        count_clauses(&self.inputs, &self.outputs, next)
    }

    /// Makes the next output, by new variables from `fresh` on: its clauses come behind those
    /// that are there. Answers the variable after the last that was taken; fewer are taken than
    /// there are inputs.
    ///
    /// # Errors
    ///
    /// `AllocError` where memory was refused. Some outputs and clauses may then have come: neither
    /// the totalizer nor the clauses are of use.
    pub fn add_stage(&mut self, fresh: u32, clauses: &mut ClauseList) -> Result<u32, AllocError>
        requires more { length (outputs_of self.old) < size_of self.old }
        requires from_one { 0 < fresh }
        requires room { fresh + size_of self.old ≤ VARIABLE_LIMIT + 1 }
        ensures tree { OnOk result
            (self.new ≡ (stage (length (outputs_of self.old) + 1) fresh self.old).tree) }
        ensures clauses { OnOk result (clauses.new ≡ clauses.old
            ++ (stage (length (outputs_of self.old) + 1) fresh self.old).clauses) }
        ensures fresh { IfOk result (λ next. next
            ≡ (stage (length (outputs_of self.old) + 1) fresh self.old).fresh) }
    {
        let next = self.outputs().len() + 1;
        add_outputs(&self.inputs, &mut self.outputs, next, fresh, clauses)
    }
}
