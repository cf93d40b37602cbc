//! Walks from solutions to cheaper ones, with tables that last from one walk to the next.
//!
//! A step flips the best of a few variables whose flip satisfies more weight than it falsifies.
//! Where there is none, weights of clauses change, and a variable of a false clause is flipped. So
//! a walk goes to and fro between solutions and cheap bits that miss a few hard clauses. What it
//! finds counts only where it is judged to be a solution that costs less, so no proof needs to know
//! anything of the walk itself.
ghost use Rattle.std.specs.Prelude.{◌≡◌, ◌<◌, IfSome, IsTrue, length};
ghost use Rattle.cnf.specs.Literal.{Assignment};
ghost use Rattle.cnf.specs.Bits.{Extends};
ghost use Rattle.cnf.specs.Problem.{IsFeasible, cost_under};

use crate::checked::narrow;
use crate::clauses::{Occurrences, count, lits};
use crate::kinds::WalkKind;
use crate::steps::Walk;
use cnf::types::Instance;
use std::alloc::AllocError;

/// A walk of fewer visits for each literal of the instance than this is none, as its beginning
/// takes about as many.
const LEAST_VISITS: u64 = 2;

/// How many literals the clauses of the instance have.
pub fn size_of(instance: &Instance) -> u64 {
    let mut size: u64 = 0;
    for number in 0..count(instance) {
        let lits = lits(instance, narrow(number));
        size = size.saturating_add(lits.len() as u64);
    }
    size
}

/// What came of a walk.
#[derive(Drop)]
pub struct Found {
    /// How many literals and clauses were visited.
    pub visits: u64,
    /// Bits that cost less, if it met any.
    pub better: Option<Vec<bool>>,
}

/// The tables of walks over the clauses of an instance.
#[derive(Drop)]
pub struct LocalSearch {
    // How the weights of clauses change.
    kind: WalkKind,
    // Where the literals of the instance stand.
    places: Occurrences,
    // Where the last walk has ended.
    walk: Walk,
}

impl LocalSearch {
    /// Tables for walks of this kind, in time linear in the instance.
    ///
    /// # Errors
    ///
    /// Memory was refused.
    pub fn new(instance: &Instance, kind: WalkKind) -> Result<Self, AllocError> {
        let alloc = instance.allocator();
        let places = Occurrences::new(alloc, instance)?;
        let walk = Walk::new(alloc, instance, kind)?;
        Ok(LocalSearch { kind, places, walk })
    }

    /// How many literals the clauses of the instance have.
    pub(crate) fn size(&self) -> u64 {
        self.places.len() as u64
    }

    /// Walks from these bits for about `visits` visits, and answers the best bits that it meets, if
    /// they are a solution that costs less than this. Memory is needed for the answer alone: where
    /// it is refused, there is none.
    pub fn walk(&mut self, instance: &Instance, bits: &[bool], cost: u64, visits: u64) -> Found
        ensures as_many { IfSome result.better (λ b. length b.items ≡ instance.now.variables) }
        ensures feasible { IfSome result.better (λ b. (t : Assignment) → Extends b.items t
            → IsFeasible instance.now t) }
        ensures cheaper { IfSome result.better (λ b. (t : Assignment) → Extends b.items t
            → cost_under instance.now t < cost) }
    {
        if visits < self.size().saturating_mul(LEAST_VISITS) {
            return Found {
                visits: 0,
                better: None,
            };
        }
        match self.kind {
            WalkKind::Priced => self.walk_rounds(instance, bits, cost, &[visits / 2, visits]),
            WalkKind::Growing => self.walk_rounds(instance, bits, cost, &[visits]),
        }
    }

    /// The same, in rounds that each go on from the best bits, and end at `ends` visits in all.
    pub(crate) fn walk_rounds(
        &mut self,
        instance: &Instance,
        bits: &[bool],
        cost: u64,
        ends: &[u64],
    ) -> Found
        ensures as_many { IfSome result.better (λ b. length b.items ≡ instance.now.variables) }
        ensures feasible { IfSome result.better (λ b. (t : Assignment) → Extends b.items t
            → IsFeasible instance.now t) }
        ensures cheaper { IfSome result.better (λ b. (t : Assignment) → Extends b.items t
            → cost_under instance.now t < cost) }
    {
        self.walk.run(instance, &self.places, bits, ends);
        let visits = self.walk.visits();
        let best = self.walk.best();
        if self.walk.best_cost() < cost && is_cheaper(instance, best, cost) {
            let better = Vec::from_slice(instance.allocator(), best).ok();
            return Found { visits, better };
        }
        Found {
            visits,
            better: None,
        }
    }
}

/// Whether the bits satisfy the hard clauses and cost less than this.
fn is_cheaper(instance: &Instance, bits: &[bool], cost: u64) -> bool
    ensures as_many { IsTrue result → length bits.now ≡ instance.now.variables }
    ensures feasible { IsTrue result → (t : Assignment) → Extends bits.now t
        → IsFeasible instance.now t }
    ensures cheaper { IsTrue result → (t : Assignment) → Extends bits.now t
        → cost_under instance.now t < cost }
{
    bits.len() == instance.vars() as usize && instance.feasible(bits) && instance.cost(bits) < cost
}
