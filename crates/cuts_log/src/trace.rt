// What only proofs know of a log: which lines it has. A log that is written keeps none of them.
ghost use Rattle.std.specs.Prelude.{◌≡◌};
ghost use base.Fml.{ftrue};
ghost use Rattle.std.specs.Coded.{codes};
ghost use Rattle.totalizer.specs.TreeCode.{tree_code};
ghost use Rattle.cuts_log.specs.Events.{TraceState};

use std::marker::{Model, PhantomData};

/// Stands for what a log has seen. It takes no space.
#[derive(Drop)]
pub(crate) struct Trace {
    // It stands for a state that is kept nowhere.
    mark: PhantomData<u8>,
    // The instance, what the writer had at first, and the lines so far.
    ghost state: { TraceState } by { Prim.hlevel (codes, tree_code) },
}

impl Model for Trace {
    ghost also_owns = { λ _. ftrue };
}

/// What a log has seen where something has just happened.
pub(crate) trait Shows {
    /// What was seen so far.
    ghost shown: { Self → TraceState };
}

/// What a log has seen once this has happened.
pub(crate) fn seen<T: Shows>(_what: &T) -> Trace
    ensures { result.state ≡ T.shown _what.now }
{
    Trace { mark: PhantomData }
}
