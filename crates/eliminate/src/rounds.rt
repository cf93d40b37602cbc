// Rounds of subsumption and elimination: what one changes may let the other go on.
ghost use Rattle.std.specs.Prelude.{◌≡◌, true, OnOk};
ghost use Rattle.eliminate.specs.Variables.{IsSimplifierOver, PassesOver};

use crate::simplifier::Simplifier;
use crate::subsuming::subsume;
use crate::variables::eliminate_variables;
use clauses::store::Store;
use lrat_log::sink::Sink;
use std::alloc::AllocError;

/// The most rounds that are made.
const MOST_ROUNDS: u32 = 8;

/// Subsumes, strengthens and eliminates, until nothing changes or the empty clause is there.
pub(crate) fn simplify<S: Sink>(
    simplifier: &mut Simplifier,
    store: &mut Store,
    frozen: &[bool],
    sink: &mut S,
) -> Result<(), AllocError>
    requires { IsSimplifierOver frozen.now simplifier.old store.old.slots (S.lines sink.old) }
    ensures passes { PassesOver frozen.now result simplifier.old store.old.slots (S.lines sink.old)
        simplifier.new store.new.slots (S.lines sink.new) }
    ensures refuted { OnOk result (simplifier.old.is_refuted ≡ true
        → simplifier.new.is_refuted ≡ true) }
{
    for _round in 0..MOST_ROUNDS {
        if simplifier.is_refuted {
            return Ok(());
        }
        let is_shorter = subsume(simplifier, store, sink)?;
        if simplifier.is_refuted {
            return Ok(());
        }
        let is_gone = eliminate_variables(simplifier, store, frozen, sink)?;
        if !is_shorter && !is_gone {
            return Ok(());
        }
    }
    Ok(())
}
