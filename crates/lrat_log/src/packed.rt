// Hints as the log keeps them: a log has many more hints than lines, so each takes one word, of
// four bytes where its number is small.
ghost use Rattle.std.specs.Prelude.{◌≡◌, ◌<◌, ◌≤◌, ◌-◌, ◌^◌, ◌↔◌, IsTrue};
ghost use Rattle.cnf.specs.declared.limits.TheConstants.{NUMBER_LIMIT};
ghost use Rattle.lrat_log.specs.Log.{id_of, name_of, is_group, is_added};
ghost use Rattle.lrat_log.specs.Packed.{name_code, hint_code};

use crate::lines::{Hint, Name, Number};
use std::marker::Model;

/// A hint in eight bytes: four times its number, with two more where it names an addition, and one
/// more where it begins a group.
#[derive(Clone, Copy, Debug, PartialEq, Eq, Drop)]
pub struct PackedHint {
    // From 4 to 2^64 - 1.
    code: u64,
}

impl Model for PackedHint {
    ghost use Rattle.std.specs.Prelude.{◌≤◌};
    ghost use Rattle.lrat_log.specs.declared.lines.Hint.{Hint};

    ghost Value = { Hint };

    ghost use Rattle.lrat_log.specs.Packed.{hint_in, code_of, code_of-hint_in};

    ghost view = { hint_in };

    ghost invariant = { λ h. 4 ≤ h.code };

    ghost inverse = { code_of };

    ghost inverse_ok = { λ h _. code_of-hint_in h };
}

const _: () = prove!(size_of::<PackedHint>() == 8);

impl PackedHint {
    /// The hint, packed.
    pub fn new(hint: Hint) -> Self
        ensures { result ≡ hint }
    {
        match hint {
            Hint::Plain(name) => PackedHint {
                code: packed_name(name),
            },
            Hint::Group(name) => PackedHint {
                code: packed_name(name) + 1,
            },
        }
    }

    /// The hint itself.
    pub fn hint(self) -> Hint
        ensures { result ≡ self }
    {
        let number = Number::new(self.code / 4);
        let name = if self.names_addition() {
            Name::Added(number)
        } else {
            Name::Formula(number)
        };
        if self.is_group() {
            Hint::Group(name)
        } else {
            Hint::Plain(name)
        }
    }

    /// Whether the hint begins a group.
    pub fn is_group(self) -> bool
        ensures { result ≡ is_group self }
    {
        self.code % 2 == 1
    }

    /// The id of the clause that the hint names, where the first addition has the id `base + 1`.
    pub fn id(self, base: u64) -> u64
        requires { id_of base (name_of self) < NUMBER_LIMIT }
        ensures { result ≡ id_of base (name_of self) }
    {
        let number = self.code / 4;
        if self.names_addition() {
            base + number
        } else {
            number
        }
    }

    /// Whether it fits four bytes: its number is below 2^30.
    pub fn is_narrow(self) -> bool
        ensures { IsTrue result ↔ hint_code self < 2 ^ 32 }
    {
        self.code < 1 << 32
    }

    /// The hint in four bytes.
    pub fn narrow(self) -> NarrowHint
        requires { hint_code self < 2 ^ 32 }
        ensures { result ≡ self }
    {
        NarrowHint {
            code: self.code as u32,
        }
    }

    /// Whether the hint names an addition.
    fn names_addition(self) -> bool
        ensures { result ≡ is_added (name_of self) }
    {
        self.code / 2 % 2 == 1
    }
}

/// A hint in four bytes: as a packed hint, where that is below 2^32.
#[derive(Clone, Copy, Debug, PartialEq, Eq, Drop)]
pub struct NarrowHint {
    // From 4 to 2^32 - 1.
    code: u32,
}

impl Model for NarrowHint {
    ghost use Rattle.std.specs.Prelude.{◌≤◌};
    ghost use Rattle.lrat_log.specs.declared.lines.Hint.{Hint};

    ghost Value = { Hint };

    ghost use Rattle.lrat_log.specs.Packed.{narrow_in, narrow_of, narrow_of-narrow_in};

    ghost view = { narrow_in };

    ghost invariant = { λ h. 4 ≤ h.code };

    ghost inverse = { narrow_of };

    ghost inverse_ok = { λ h _. narrow_of-narrow_in h };
}

const _: () = prove!(size_of::<NarrowHint>() == 4);

impl NarrowHint {
    /// The hint in eight bytes.
    pub fn widen(self) -> PackedHint
        ensures { result ≡ self }
    {
        PackedHint {
            code: u64::from(self.code),
        }
    }
}

/// A name as it stands in a packed hint.
fn packed_name(name: Name) -> u64
    ensures code { result ≡ name_code name }
    ensures from_four { 4 ≤ result }
    ensures small { result < 2 ^ 64 - 1 }
{
    match name {
        Name::Formula(number) => 4 * number.get(),
        Name::Added(number) => 4 * number.get() + 2,
    }
}
