// Building the network of an instance, column by column.
ghost use Rattle.std.specs.Prelude.{◌≡◌, ◌+◌, ◌*◌, ◌≤◌, [], length, IfOk};
ghost use Rattle.cnf.specs.declared.limits.TheConstants.{FORMULA_VARIABLE_LIMIT};
ghost use Rattle.adder.specs.Network.{columns_from, adders_as, AddsUp};
ghost use Rattle.adder.specs.Parts.{literals_with};

use crate::columns::{Adder, push_bit};
use crate::networks::Network;
use crate::profiles::Profile;
use crate::relaxations::Relaxations;
use cnf::types::Instance;
use std::alloc::{AllocError, Global};

/// The network of an instance in `Profile::One`, as `network_as` gives it.
///
/// # Errors
///
/// `AllocError` where memory for it is refused.
pub fn network(instance: &Instance) -> Result<Network, AllocError>
    ensures cells { IfOk result (λ n. n ≡ adders_as Profile.One instance.now) }
    ensures adds_up { IfOk result (AddsUp Profile.One instance.now) }
{
    network_as(instance, Profile::One)
}

/// The network that adds up the weights of an instance's soft clauses, each of which counts where
/// its relaxation literal is true. Its outputs are the digits of the total weight.
///
/// A column of literals, which are worth the same, is a queue: while it holds three literals or
/// more, the first three go into a full adder, and of two both go into a half adder; the sum goes
/// to the back of the column and the carry to the back of the next one.
///
/// The column of 2^j holds at first, in the order of the soft clauses, the relaxation literals of
/// the weights with the binary digit j, and the columns are added up from the lowest on.
///
/// # Errors
///
/// `AllocError` where memory for it is refused.
pub fn network_as(instance: &Instance, profile: Profile) -> Result<Network, AllocError>
    ensures cells { IfOk result (λ n. n ≡ adders_as profile instance.now) }
    ensures adds_up { IfOk result (AddsUp profile instance.now) }
{
    let alloc = instance.allocator();
    let relaxations = Relaxations::of(instance, profile)?;
    add_columns(alloc, &relaxations)
}

fn add_columns(alloc: Global, relaxations: &Relaxations) -> Result<Network, AllocError>
    requires digits { relaxations.now.digits ≤ 64 }
    requires small { relaxations.now.fresh + 2 * length
        (columns_from (λ j. literals_with j relaxations.now.each.items) relaxations.now.digits 0
        relaxations.now.fresh []).cells ≤ FORMULA_VARIABLE_LIMIT }
    ensures { IfOk result (λ n. n
        ≡ columns_from (λ j. literals_with j relaxations.now.each.items) relaxations.now.digits
        0 relaxations.now.fresh []) }
{
    let mut adder = Adder::new(alloc, relaxations.fresh);
    let mut outputs = Vec::new(alloc);
    let mut column = Vec::new(alloc);
    for j in 0..relaxations.digits {
        column.clear();
        push_bit(&mut column, &relaxations.each, j)?;
        outputs.push(adder.add_column(&mut column)?)?;
    }
    Ok(Network::new(adder.cells, outputs))
}
