// The names of the clauses of a store, in four bytes each as long as every number is below 2^31. No
// log that fits in memory gets that far, unless the clauses given have such numbers; from then on
// each takes eight. So all names are narrow, or all are wide.
ghost use Rattle.std.specs.Prelude.{◌≡◌, ◌<◌, ◌≤◌, [], ◌∷◌, ◌++◌, length, take, slice_set};
ghost use Rattle.std.specs.Prelude.{IfOk, OnOk, OnErr};
ghost use Rattle.cnf.specs.declared.limits.TheConstants.{NUMBER_LIMIT};
ghost use Rattle.eliminate_names.specs.Work.{name_at};

use lrat_log::lines::Name;
use lrat_log::packed_name::{NarrowName, PackedName};
use std::alloc::{AllocError, Global};
use std::marker::Model;

/// The names of clauses, by reference.
#[derive(Drop)]
pub(crate) struct NameList {
    // All names, or none where `wide` has them.
    narrow: Vec<NarrowName>,
    // All names, once one of them has had a number from 2^31 on; else none.
    wide: Vec<PackedName>,
}

impl Model for NameList {
    ghost use Rattle.std.specs.Prelude.{List, [], ◌++◌, ◌≡◌, ◌⊎◌};
    ghost use Rattle.lrat_log.specs.declared.lines.Name.{Name};

    ghost Value = { List Name };

    ghost view = { λ n. n.narrow.items ++ n.wide.items };

    ghost invariant = { λ n. (n.narrow.items ≡ []) ⊎ (n.wide.items ≡ []) };
}

impl NameList {
    /// No names, with room for `count` of them; memory holds fewer than 2^62.
    pub(crate) fn with_capacity(alloc: Global, count: usize) -> Result<Self, AllocError>
        ensures none { IfOk result (λ n. n ≡ []) }
        ensures few { OnOk result (count < NUMBER_LIMIT) }
    {
        Ok(NameList {
            narrow: Vec::with_capacity(alloc, count)?,
            wide: Vec::new(alloc),
        })
    }

    /// The name in this place.
    pub(crate) fn get(&self, place: usize) -> Name
        requires { place < length self.now }
        ensures { result ≡ name_at self.now place }
    {
        let count = self.narrow.len();
        if place < count {
            self.narrow[place].widen().name()
        } else {
            self.wide[place - count].name()
        }
    }

    /// Puts a name last.
    pub(crate) fn push(&mut self, name: Name) -> Result<(), AllocError>
        ensures ok { OnOk result (self.new ≡ self.old ++ name ∷ []) }
        ensures err { OnErr result (self.new ≡ self.old) }
    {
        let packed = PackedName::new(name);
        if self.wide.is_empty() {
            if let Some(narrow) = packed.narrow() {
                self.narrow.push(narrow)?;
                return Ok(());
            }
            self.wide = widened(&self.narrow)?;
            self.narrow = Vec::new(*self.wide.allocator());
        }
        self.wide.push(packed)?;
        Ok(())
    }

    /// Writes the name in one place over that in an earlier one.
    pub(crate) fn copy(&mut self, from: usize, to: usize)
        requires { (to ≤ from) × (from < length self.old) }
        ensures { self.new ≡ slice_set self.old to (name_at self.old from) }
    {
        if from < self.narrow.len() {
            self.narrow[to] = self.narrow[from];
        } else {
            self.wide[to] = self.wide[from];
        }
    }

    /// Keeps the first names alone, and gives back the memory that the others had.
    pub(crate) fn shrink(&mut self, count: usize)
        ensures { self.new ≡ take count self.old }
    {
        self.narrow.truncate(count);
        self.narrow.shrink_to_fit();
        self.wide.truncate(count);
        self.wide.shrink_to_fit();
    }

    /// The names, each in eight bytes.
    pub(crate) fn into_packed(self) -> Result<Vec<PackedName>, AllocError>
        ensures { IfOk result (λ n. n.items ≡ self) }
    {
        if self.narrow.is_empty() {
            Ok(self.wide)
        } else {
            widened(&self.narrow)
        }
    }
}

/// These names, each in eight bytes.
fn widened(names: &Vec<NarrowName>) -> Result<Vec<PackedName>, AllocError>
    ensures { IfOk result (λ n. n.items ≡ names.now.items) }
{
    let mut wide = Vec::with_capacity(*names.allocator(), names.len())?;
    for name in names {
        wide.push(name.widen())?;
    }
    Ok(wide)
}
