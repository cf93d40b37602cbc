// What was read of a line, lent by the buffers that hold it.
ghost use Rattle.std.specs.Prelude.{◌≡◌, ◌<◌};
ghost use Rattle.cnf.specs.declared.limits.TheConstants.{NUMBER_LIMIT};

use crate::types::{Form, SignedId};
use cnf::types::Lit;
use std::marker::Model;

/// An addition or a deletion, in the buffers of its reader.
#[derive(Drop)]
pub struct LineView<'a> {
    // The leading number, below 2^62.
    id: u64,
    // The literals of an addition, but for those with a variable of 2^27 or more.
    lits: &'a [Lit],
    // Whether there was such a literal.
    is_large: bool,
    // The hints of an addition, or the ids of a deletion.
    hints: &'a [SignedId],
}

impl<'a> Model for LineView<'a> {
    ghost use Rattle.std.specs.Prelude.{◌<◌};
    ghost use Rattle.cnf.specs.declared.limits.TheConstants.{NUMBER_LIMIT};
    ghost use Rattle.lrat_read.specs.Reader.{LineState};

    ghost Value = { LineState };

    ghost view = { λ l. record {
      id = l.id;
      clause = l.lits.now;
      is_large = l.is_large;
      hints = l.hints.now;
    } };

    ghost invariant = { λ l. l.id < NUMBER_LIMIT };
}

/// A line with its form.
#[derive(Drop)]
pub struct ReadLine<'a> {
    /// What kind of line it is.
    pub form: Form,
    /// What it says, where it is an addition or a deletion.
    pub line: LineView<'a>,
}

impl<'a> LineView<'a> {
    /// A line from its parts.
    pub(crate) fn new(id: u64, lits: &'a [Lit], is_large: bool, hints: &'a [SignedId]) -> Self
        requires { id < NUMBER_LIMIT }
        ensures { result
            ≡ record { id = id; clause = lits.now; is_large = is_large; hints = hints.now } }
    {
        LineView {
            id,
            lits,
            is_large,
            hints,
        }
    }

    /// The leading number of the line, below 2^62.
    pub fn id(&self) -> u64
        ensures id { result ≡ self.now.id }
        ensures small { result < NUMBER_LIMIT }
    {
        self.id
    }

    /// The literals of an addition, in their order, unless `is_large` says otherwise.
    pub fn lits(&self) -> &'a [Lit]
        ensures { result.now ≡ self.now.clause }
    {
        self.lits
    }

    /// Whether an addition has a variable of 2^27 or more; then `lits` is not its clause.
    pub fn is_large(&self) -> bool
        ensures { result ≡ self.now.is_large }
    {
        self.is_large
    }

    /// The hints of an addition or the ids of a deletion, in their order.
    pub fn hints(&self) -> &'a [SignedId]
        ensures { result.now ≡ self.now.hints }
    {
        self.hints
    }
}
