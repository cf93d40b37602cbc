// The comparator: clauses that hold where the number that the outputs of a network spell is below a
// bound.
ghost use Rattle.std.specs.Prelude.{◌≡◌, ◌/◌, ◌^◌, ◌++◌, false, reverse, All, IfOk, OnOk};
ghost use Rattle.cnf.specs.Clause.{has_repeat};
ghost use Rattle.bound.specs.Bound.{kept, rising_clauses, comparator_of, CoversLarger};

use crate::kept_clauses::keep_short;
use adder::networks::Network;
use cnf::clause_list::ClauseList;
use cnf::types::{Clause, Lit};
use std::alloc::AllocError;

/// The clauses that hold exactly where the outputs of the network spell a number below `k`
/// (Warners, "A linear-time transformation of linear inequalities into conjunctive normal form",
/// 1998). For 0 that is the empty clause. Each clause of the comparator for a larger bound has one
/// of these as a subset.
///
/// # Errors
///
/// `AllocError` where memory was refused.
pub fn comparator(network: &Network, k: u64) -> Result<Vec<Clause>, AllocError>
    ensures clauses { IfOk result (λ cs. cs.items ≡ comparator_of network.now.outputs k) }
    ensures covers { OnOk result (CoversLarger network.now.outputs k) }
{
    let mut clauses = ClauseList::new(network.allocator());
    keep_comparator(&mut clauses, network.outputs(), k)?;
    Ok(copy_clauses(&clauses)?)
}

/// Each clause in memory of its own.
fn copy_clauses(clauses: &ClauseList) -> Result<Vec<Clause>, AllocError>
    requires { All (λ c. has_repeat c ≡ false) clauses.now }
    ensures { IfOk result (λ cs. cs.items ≡ clauses.now) }
{
    let alloc = clauses.allocator();
    let mut owned = Vec::new(alloc);
    for clause in clauses.iter() {
        owned.push(Clause::new(Vec::from_slice(alloc, clause)?))?;
    }
    Ok(owned)
}

/// Adds the comparator of the outputs.
pub(crate) fn keep_comparator(
    clauses: &mut ClauseList,
    outputs: &[Option<Lit>],
    k: u64,
) -> Result<(), AllocError>
    ensures { OnOk result (clauses.new ≡ clauses.old ++ comparator_of outputs.now k) }
{
    match k.checked_sub(1) {
        Some(limit) => keep_at_most(clauses, outputs, limit),
        None => clauses.push(&[]),
    }
}

/// Adds the clauses that hold where the outputs spell no more than the limit. There is one for each
/// column where the limit has no bit, from the highest down: its output is false, or that of some
/// column above where the limit has a bit. A clause in which an output is missing is left out: that
/// output is false.
fn keep_at_most(
    clauses: &mut ClauseList,
    outputs: &[Option<Lit>],
    limit: u64,
) -> Result<(), AllocError>
    ensures { OnOk result (clauses.new
        ≡ clauses.old ++ kept (reverse (rising_clauses outputs.now limit 0))) }
{
    let mut clause = Vec::new(clauses.allocator());
    if shift_down(limit, outputs.len()) != 0 {
        return Ok(());
    }
    for column in (0..outputs.len()).rev() {
        let is_set = shift_down(limit, column) % 2 == 1;
        match outputs[column] {
            Some(output) => {
                clause.insert(0, output.negation())?;
                if !is_set {
                    keep_short(clauses, &clause)?;
                    clause.remove(0);
                }
            }
            None if is_set => return Ok(()),
            None => {}
        }
    }
    Ok(())
}

/// The number without its lowest bits, of which there may be more than it has.
fn shift_down(number: u64, places: usize) -> u64
    ensures { result ≡ number / 2 ^ places }
{
    if places < 64 { number >> places } else { 0 }
}
