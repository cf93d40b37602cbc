// Which variables are frozen: those of the outputs of a network, as the clauses of a bound may name
// them.
ghost use Rattle.std.specs.Prelude.{◌≡◌, ◌<◌, true, false, length, replicate, Some, slice_get};
ghost use Rattle.std.specs.Prelude.{All, IfOk};
ghost use Rattle.improve.specs.Frozen.{AreFrozen, IsOutputWithin, KeepsFrozen};

use cnf::types::Lit;
use std::alloc::{AllocError, Global};

/// For each variable from 1 to the last one, whether an output has it.
///
/// # Errors
///
/// `AllocError` where memory was refused.
pub fn freeze_outputs(
    alloc: Global,
    outputs: &[Option<Lit>],
    vars: u32,
) -> Result<Vec<bool>, AllocError>
    requires { All (IsOutputWithin vars) outputs.now }
    ensures len { IfOk result (λ frozen. length frozen.items ≡ vars) }
    ensures frozen { IfOk result (λ frozen. AreFrozen frozen.items outputs.now) }
{
    let mut frozen = freeze_none(alloc, vars as usize)?;
    for output in outputs {
        match *output {
            Some(lit) => freeze(&mut frozen, lit.variable() as usize - 1),
            None => {}
        }
    }
    Ok(frozen)
}

/// `count` values, all of them false: no variable is frozen.
///
/// # Errors
///
/// `AllocError` where memory was refused.
pub fn freeze_none(alloc: Global, count: usize) -> Result<Vec<bool>, AllocError>
    ensures len { IfOk result (λ frozen. length frozen.items ≡ count) }
    ensures items { IfOk result (λ frozen. frozen.items ≡ replicate count false) }
{
    let mut frozen = Vec::new(alloc);
    frozen.resize(count, false)?;
    Ok(frozen)
}

/// Makes the value in this place true.
fn freeze(frozen: &mut Vec<bool>, place: usize)
    requires { place < length frozen.old.items }
    ensures here { slice_get frozen.new.items place ≡ Some true }
    ensures kept { KeepsFrozen frozen.old.items frozen.new.items }
    ensures len { length frozen.new.items ≡ length frozen.old.items }
{
    frozen[place] = true;
}
