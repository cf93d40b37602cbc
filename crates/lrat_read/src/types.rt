// What a line can be, and the numbers of its hints.
ghost use Rattle.std.specs.Prelude.{◌≡◌, ◌<◌, ◌^◌};
ghost use Rattle.cnf.specs.declared.limits.TheConstants.{NUMBER_LIMIT};

use std::marker::Model;

/// What kind of line it is.
#[derive(Clone, Copy, Debug, PartialEq, Eq, Drop)]
pub enum Form {
    /// No token.
    Blank,
    /// Tokens that are neither an addition nor a deletion.
    Malformed,
    /// `id literals 0 hints 0`.
    Addition,
    /// `id d ids 0`.
    Deletion,
}

/// A hint of an addition, or an id of a deletion: an id from 1 to 2^62 - 1, and whether a dash
/// stood before it, as for the first id of each group of a RAT line. Eight bytes.
#[derive(Clone, Copy, Debug, PartialEq, Eq, Drop)]
pub struct SignedId {
    // Twice the id, and one more for a dash: from 2 to 2^63 - 1.
    code: u64,
}

impl Model for SignedId {
    ghost use Rattle.std.specs.Prelude.{ℕ, Bool, ◌≤◌, ◌<◌, ◌^◌};

    ghost Value = { Bool × ℕ };

    ghost use Rattle.lrat_read.specs.Packed.{signed_in, code_of, code_of-signed_in};

    ghost view = { signed_in };

    ghost invariant = { λ a. (2 ≤ a.code) × (a.code < 2 ^ 63) };

    ghost inverse = { code_of };

    ghost inverse_ok = { λ a _. code_of-signed_in a };
}

impl SignedId {
    /// The id, with a dash before it or without.
    pub fn new(id: u64, is_dashed: bool) -> Self
        requires from_one { 0 < id }
        requires small { id < NUMBER_LIMIT }
        ensures { result ≡ (is_dashed, id) }
    {
        SignedId {
            code: 2 * id + u64::from(is_dashed),
        }
    }

    /// The id, from 1 to 2^62 - 1.
    pub fn id(self) -> u64
        ensures id { result ≡ self.1 }
        ensures from_one { 0 < result }
        ensures small { result < NUMBER_LIMIT }
    {
        self.code / 2
    }

    /// Whether a dash stood before the id.
    pub fn is_dashed(self) -> bool
        ensures { result ≡ self.0 }
    {
        self.code % 2 == 1
    }
}

const _: () = prove!(size_of::<SignedId>() == 8);
