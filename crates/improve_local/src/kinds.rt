//! What kinds of walk there are.

/// How the weights of clauses change in a walk.
#[derive(Clone, Copy, Debug, PartialEq, Eq, Drop)]
pub enum WalkKind {
    /// Soft clauses keep their price. Hard ones become heavier where they stay false, and lighter
    /// where none is false. Each walk begins with the weights of the start.
    Priced,
    /// Clauses only become heavier, soft ones too. A walk goes on with the weights that the one
    /// before has left.
    Growing,
}
