//! A number or none, in one word.
ghost use Rattle.std.specs.Prelude.{◌≡◌, ◌-◌, ◌<◌, ◌^◌, IfSome};

use std::marker::Model;

/// A number below 2^32 - 1, or none, in four bytes, as a table needs that has one for each
/// variable.
#[derive(Clone, Copy, Debug, PartialEq, Eq, Drop)]
pub struct MaybeWord {
    // The number, below 2^32 - 1, or NONE.
    word: u32,
}

impl Model for MaybeWord {
    ghost use Rattle.std.specs.Prelude.{ℕ, Option};

    ghost Value = { Option ℕ };

    ghost use Rattle.clauses.specs.Packed.{number_in, word_of, word_of-number_in};

    ghost view = { number_in };

    ghost inverse = { word_of };

    ghost inverse_ok = { λ m _. word_of-number_in m };
}

const _: () = prove!(size_of::<MaybeWord>() == 4);

// No number is packed as this word.
const NONE: u32 = u32::MAX;

impl MaybeWord {
    /// The number, or none, packed.
    pub fn new(number: Option<u32>) -> Self
        requires { IfSome number (λ n. n < 2 ^ 32 - 1) }
        ensures { result ≡ number }
    {
        MaybeWord {
            word: match number {
                Some(number) => number,
                None => NONE,
            },
        }
    }

    /// The number, where there is one.
    pub fn get(self) -> Option<u32>
        ensures number { result ≡ self }
        ensures small { IfSome result (λ n. n < 2 ^ 32 - 1) }
    {
        if self.word == NONE {
            None
        } else {
            Some(self.word)
        }
    }
}
