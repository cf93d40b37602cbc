// Names as tables keep them: there is one for each clause, so each takes one word, of four bytes
// where its number is small. A name itself takes two.
ghost use Rattle.std.specs.Prelude.{◌≡◌, ◌<◌, ◌≤◌, ◌^◌, IfSome, IfNone};
ghost use Rattle.lrat_log.specs.Log.{number_in};

use crate::lines::{Name, Number};
use std::marker::Model;

/// A name in eight bytes: twice its number, with one more where it is that of an addition.
#[derive(Clone, Copy, Debug, PartialEq, Eq, Drop)]
pub struct PackedName {
    // From 2 to 2^63 - 1.
    code: u64,
}

impl Model for PackedName {
    ghost use Rattle.std.specs.Prelude.{◌≤◌, ◌<◌, ◌^◌};
    ghost use Rattle.lrat_log.specs.declared.lines.Name.{Name};

    ghost Value = { Name };

    ghost use Rattle.lrat_log.specs.PackedNames.{name_in, code_of, code_of-name_in};

    ghost view = { name_in };

    ghost invariant = { λ n. (2 ≤ n.code) × (n.code < 2 ^ 63) };

    ghost inverse = { code_of };

    ghost inverse_ok = { λ n _. code_of-name_in n };
}

const _: () = prove!(size_of::<PackedName>() == 8);

impl PackedName {
    /// The name, packed.
    pub fn new(name: Name) -> Self
        ensures { result ≡ name }
    {
        match name {
            Name::Formula(number) => PackedName {
                code: 2 * number.get(),
            },
            Name::Added(number) => PackedName {
                code: 2 * number.get() + 1,
            },
        }
    }

    /// The name itself.
    pub fn name(self) -> Name
        ensures { result ≡ self }
    {
        let number = Number::new(self.code / 2);
        if self.code % 2 == 1 {
            Name::Added(number)
        } else {
            Name::Formula(number)
        }
    }
    /// The name in four bytes; none where its number is 2^31 or more.
    pub fn narrow(self) -> Option<NarrowName>
        ensures some { IfSome result (λ n. n ≡ self) }
        ensures none { IfNone result (2 ^ 31 ≤ number_in self) }
    {
        if self.code < 1 << 32 {
            Some(NarrowName {
                code: self.code as u32,
            })
        } else {
            None
        }
    }
}

/// A name in four bytes: as a packed name, where that is below 2^32.
#[derive(Clone, Copy, Debug, PartialEq, Eq, Drop)]
pub struct NarrowName {
    // From 2 to 2^32 - 1.
    code: u32,
}

impl Model for NarrowName {
    ghost use Rattle.std.specs.Prelude.{◌≤◌};
    ghost use Rattle.lrat_log.specs.declared.lines.Name.{Name};

    ghost Value = { Name };

    ghost use Rattle.lrat_log.specs.PackedNames.{narrow_in, narrow_of, narrow_of-narrow_in};

    ghost view = { narrow_in };

    ghost invariant = { λ n. 2 ≤ n.code };

    ghost inverse = { narrow_of };

    ghost inverse_ok = { λ n _. narrow_of-narrow_in n };
}

const _: () = prove!(size_of::<NarrowName>() == 4);

impl NarrowName {
    /// The name in eight bytes.
    pub fn widen(self) -> PackedName
        ensures { result ≡ self }
    {
        PackedName {
            code: u64::from(self.code),
        }
    }
}
