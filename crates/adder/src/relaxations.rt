// What relaxes each soft clause, and the weight that this gives up: all that the columns know of
// an instance.
ghost use Rattle.std.specs.Prelude.{◌≡◌, ◌+◌, ◌<◌, ◌≤◌, ◌^◌, IfOk, OnOk, map, sum_by};
ghost use Rattle.cnf.specs.Instance.{IsInstance};
ghost use Rattle.adder.specs.Network.{relaxed_as, relaxed_variables, total_weight, binary_length};
ghost use Rattle.adder.specs.Parts.{relaxation_of, own_relaxation};

use crate::profiles::{Profile, Relaxing};
use cnf::fresh::Fresh;
use cnf::types::{Clause, Instance, Lit, Soft};
use std::alloc::AllocError;

/// A relaxation literal: its soft clause may be falsified where it is true.
#[derive(Drop)]
pub struct Relaxation {
    /// True where the soft clause is given up.
    pub lit: Lit,
    /// What it costs to falsify the soft clause, from 1.
    pub weight: u64,
}

/// The relaxations of all soft clauses of an instance.
#[derive(Drop)]
pub struct Relaxations {
    /// In the order of the soft clauses.
    pub each: Vec<Relaxation>,
    /// The first variable that neither the instance nor a relaxation has.
    pub fresh: Fresh,
    /// The binary digits of the total weight.
    pub digits: u32,
}

impl Relaxations {
    /// The relaxations of the instance.
    ///
    /// # Errors
    ///
    /// `AllocError` where memory was refused.
    pub fn of(instance: &Instance, profile: Profile) -> Result<Self, AllocError>
        ensures limits { OnOk result (IsInstance instance.now) }
        ensures each { IfOk result
            (λ r. r.each.items ≡ map relaxation_of (relaxed_as profile instance.now)) }
        ensures fresh { IfOk result (λ r. r.fresh ≡ relaxed_variables profile instance.now + 1) }
        ensures digits { IfOk result (λ r. r.digits ≡ binary_length (total_weight instance.now)) }
    {
        let soft_clauses = instance.soft();
        let mut fresh = Fresh::new(instance.vars() + 1);
        let mut each = Vec::with_capacity(instance.allocator(), soft_clauses.len())?;
        for soft in soft_clauses {
            let lit = match own_literal(soft.clause(), profile.relaxing()) {
                Some(lit) => lit,
                None => {
                    let lit = Lit::new(fresh.get(), false);
                    fresh = fresh.after(1);
                    lit
                }
            };
            each.push(Relaxation {
                lit,
                weight: soft.weight(),
            })?;
        }
        let digits = digit_count(weight_sum(soft_clauses));
        Ok(Relaxations {
            each,
            fresh,
            digits,
        })
    }
}

/// The relaxation literal of a clause that takes no new variable: a clause of one literal is
/// false exactly where the negation of that literal is true.
fn own_literal(clause: &Clause, relaxing: Relaxing) -> Option<Lit>
    ensures { result ≡ own_relaxation relaxing clause.now }
{
    match (relaxing, clause.lits()) {
        (Relaxing::UnitsByNegation, [lit]) => Some(lit.negation()),
        _ => None,
    }
}

fn weight_sum(soft_clauses: &[Soft]) -> u64
    requires { sum_by (λ s. s.weight) soft_clauses.now < 2 ^ 64 }
    ensures { result ≡ sum_by (λ s. s.weight) soft_clauses.now }
{
    soft_clauses.iter().map(|soft| soft.weight()).sum()
}

/// How many binary digits `n` has; none for 0.
pub(crate) fn digit_count(n: u64) -> u32
    requires { n < 2 ^ 63 }
    ensures digits { result ≡ binary_length n }
    ensures few { result ≤ 63 }
{
    u64::BITS - n.leading_zeros()
}
