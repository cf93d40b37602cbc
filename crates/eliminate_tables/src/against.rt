// How clauses lie against the marked one, whether they subsume or strengthen it, found in time
// linear in these.
ghost use Rattle.std.specs.Prelude.{◌≡◌, length, All};
ghost use Rattle.cnf.specs.Marks.{HasPlace};
ghost use Rattle.eliminate_tables.specs.Against.{LiesAgainst, against_of, but_for};

use cnf::marks::Marks;
use cnf::types::Lit;

/// How a clause lies against the marked one.
#[derive(Clone, Copy, Debug, PartialEq, Eq, Drop)]
pub enum Against {
    /// Some literal of it is not in the marked clause.
    Apart,
    /// Each literal of it is in the marked clause.
    Within,
    /// So is each but this one, whose negation is.
    ButFor(Lit),
}

impl Against {
    /// The literal that is not in the marked clause, where it is the only one and its negation is.
    pub fn but_for(self) -> Option<Lit>
        ensures { result ≡ but_for self }
    {
        match self {
            Against::Apart | Against::Within => None,
            Against::ButFor(lit) => Some(lit),
        }
    }
}

/// How a clause lies against the marked one.
pub fn hold_against(marks: &Marks, lits: &[Lit]) -> Against
    requires { All (HasPlace (length marks.now)) lits.now }
    ensures exact { result ≡ against_of marks.now lits.now }
    ensures lies { LiesAgainst marks.now lits.now result }
{
    let mut found = Against::Within;
    for lit in lits {
        if !marks.is_marked(*lit) {
            if found != Against::Within || !marks.is_marked(lit.negation()) {
                return Against::Apart;
            }
            found = Against::ButFor(*lit);
        }
    }
    found
}
