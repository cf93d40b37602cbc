// Variables are numbered from 1, so the next new one is above 0.
ghost use Rattle.std.specs.Prelude.{◌≡◌, ◌+◌, ◌<◌, ◌^◌};

use std::marker::Model;

/// The next new variable.
#[derive(Clone, Copy, Drop)]
pub struct Fresh {
    // From 1.
    variable: u32,
}

impl Model for Fresh {
    ghost use Rattle.std.specs.Prelude.{ℕ, ◌<◌};

    ghost Value = { ℕ };

    ghost view = { λ f. f.variable };

    ghost invariant = { λ f. 0 < f.variable };

    ghost inverse = { λ v. record { variable = v } };
}

impl Fresh {
    /// This variable is the next one.
    pub fn new(variable: u32) -> Self
        requires { 0 < variable }
        ensures { result ≡ variable }
    {
        Fresh { variable }
    }

    /// The variable.
    pub fn get(self) -> u32
        ensures variable { result ≡ self }
        ensures from_one { 0 < result }
    {
        self.variable
    }

    /// The next one after `count` more.
    pub fn after(self, count: u32) -> Self
        requires { self + count < 2 ^ 32 }
        ensures { result ≡ self + count }
    {
        Fresh {
            variable: self.variable + count,
        }
    }
}
