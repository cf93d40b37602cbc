// Whether a literal is true, in one byte.
ghost use Rattle.std.specs.Prelude.{◌≡◌, true, false, Some, IsTrue, ◌↔◌};

use std::marker::Model;

/// What is known of a literal: it is open, false or true.
#[derive(Clone, Copy, Debug, PartialEq, Eq, Drop)]
enum Known {
    Open,
    False,
    True,
}

/// Whether a literal is true; none where it is open. It takes one byte, and an `Option<bool>` two.
#[derive(Clone, Copy, Debug, PartialEq, Eq, Drop)]
pub(crate) struct Truth {
    // One of three, so that it takes one byte.
    known: Known,
}

impl Model for Truth {
    ghost use Rattle.std.specs.Prelude.{Bool, Option};

    ghost Value = { Option Bool };

    ghost use Rattle.propagate_trail.specs.Truth.{truth_in, known_of, known_of-truth_in};

    ghost view = { truth_in };

    ghost inverse = { known_of };

    ghost inverse_ok = { λ t _. known_of-truth_in t };
}

const _: () = prove!(size_of::<Truth>() == 1);

impl Truth {
    /// The same in one byte.
    pub(crate) fn new(value: Option<bool>) -> Self
        ensures { result ≡ value }
    {
        Truth {
            known: match value {
                None => Known::Open,
                Some(false) => Known::False,
                Some(true) => Known::True,
            },
        }
    }

    /// Whether the literal is true; none where it is open.
    pub(crate) fn get(self) -> Option<bool>
        ensures { result ≡ self }
    {
        match self.known {
            Known::Open => None,
            Known::False => Some(false),
            Known::True => Some(true),
        }
    }

    /// Whether the literal is true; not where it is open.
    pub(crate) fn is_true(self) -> bool
        ensures { IsTrue result ↔ (self ≡ Some true) }
    {
        matches!(self.known, Known::True)
    }

    /// Whether the literal is false; not where it is open.
    pub(crate) fn is_false(self) -> bool
        ensures { IsTrue result ↔ (self ≡ Some false) }
    {
        matches!(self.known, Known::False)
    }
}
