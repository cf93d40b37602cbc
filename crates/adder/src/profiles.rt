// What a profile stands for: how soft clauses are relaxed.
ghost use Rattle.std.specs.Prelude.{◌≡◌};
ghost use Rattle.adder.specs.Network.{relaxing_of};

/// How soft clauses are relaxed, by literals that are true where a clause may be falsified. The
/// weights of those are added up column by column.
#[derive(Clone, Copy, Debug, PartialEq, Eq, Drop)]
pub enum Profile {
    /// Each soft clause, in their order, by the next variable after those of the instance.
    One,
    /// A soft clause of just one literal by the negation of that literal; each other one by the
    /// next variable after those of the instance.
    Two,
}

/// How soft clauses are relaxed, by literals that are true where a clause may be falsified.
#[derive(Clone, Copy, Debug, PartialEq, Eq, Drop)]
pub enum Relaxing {
    /// Each soft clause, in their order, by the next variable after those of the instance.
    EachByVariable,
    /// A soft clause of just one literal by the negation of that literal; each other one by the
    /// next variable after those of the instance.
    UnitsByNegation,
}

impl Profile {
    /// How soft clauses are relaxed in this profile.
    pub fn relaxing(self) -> Relaxing
        ensures { result ≡ relaxing_of self }
    {
        match self {
            Profile::One => Relaxing::EachByVariable,
            Profile::Two => Relaxing::UnitsByNegation,
        }
    }
}
