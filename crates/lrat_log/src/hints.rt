// The hints of a log. Where a search learns, they are most of the log. A hint takes four bytes as
// long as every number is below 2^30, and eight from the first line on that has a greater one. No
// log that fits in memory gets that far, unless the clauses given have such numbers. So a hint is
// one load behind a comparison that always goes the same way: to build and write a log of 20
// literals and 50 hints a line takes 2 % more instructions than with eight bytes for each. Whether
// a line fits is asked hint by hint while it is put there, since a pass before that would read each
// hint twice; the first part of a line that does not fit is taken away again.
ghost use Rattle.std.specs.Prelude.{◌≡◌, ◌<◌, ◌≤◌, ◌^◌, [], ◌++◌, Some, true, length, slice_get};
ghost use Rattle.std.specs.Prelude.{slice_range, IfOk, OnOk, OnErr, take, if◌then◌else◌, All};
ghost use Rattle.lrat_log.specs.Packed.{hint_code};

use crate::lines::Hint;
use crate::packed::{NarrowHint, PackedHint};
use std::alloc::{AllocError, Global};
use std::marker::Model;

/// The hints of all lines, those of one line after those of the line before.
#[derive(Drop)]
pub struct HintList {
    // The hints of the first lines, each with a number below 2^30.
    narrow: Vec<NarrowHint>,
    // The hints of all lines from the first one on that has a greater number.
    wide: Vec<PackedHint>,
}

impl Model for HintList {
    ghost use Rattle.std.specs.Prelude.{List, ◌++◌};
    ghost use Rattle.lrat_log.specs.declared.lines.Hint.{Hint};

    ghost Value = { List Hint };

    ghost view = { λ h. h.narrow.items ++ h.wide.items };
}

impl HintList {
    /// No hints. It takes no memory.
    pub fn new(alloc: Global) -> Self
        ensures { result ≡ [] }
    {
        HintList {
            narrow: Vec::new(alloc),
            wide: Vec::new(alloc),
        }
    }

    /// How many there are.
    pub fn len(&self) -> usize
        ensures { result ≡ length self.now }
    {
        self.narrow.len() + self.wide.len()
    }

    /// The hints from one place up to another.
    pub fn part(&self, start: usize, end: usize) -> HintSlice<'_>
        requires { (start ≤ end) × (end ≤ length self.now) }
        ensures { result ≡ slice_range self.now start end }
    {
        let count = self.narrow.len();
        HintSlice {
            narrow: &self.narrow[start.min(count)..end.min(count)],
            wide: &self.wide[start.saturating_sub(count)..end.saturating_sub(count)],
        }
    }

    /// Puts hints behind those that it has.
    ///
    /// # Errors
    ///
    /// `AllocError` where a growth was refused. The hints are then as they were.
    pub fn extend(&mut self, hints: &[Hint]) -> Result<(), AllocError>
        ensures ok { OnOk result (self.new ≡ self.old ++ hints.now) }
        ensures err { OnErr result (self.new ≡ self.old) }
    {
        if self.wide.is_empty() && push_narrow(&mut self.narrow, hints)? {
            return Ok(());
        }
        push_wide(&mut self.wide, hints)
    }

    /// Keeps the first hints alone.
    pub fn truncate(&mut self, count: usize)
        ensures { self.new ≡ take count self.old }
    {
        let wide = count.saturating_sub(self.narrow.len());
        self.narrow.truncate(count);
        self.wide.truncate(wide);
    }
}

/// The hints of a line, in their order.
#[derive(Drop)]
pub struct HintSlice<'a> {
    // The first ones.
    pub(crate) narrow: &'a [NarrowHint],
    // Those after them.
    pub(crate) wide: &'a [PackedHint],
}

impl<'a> Model for HintSlice<'a> {
    ghost use Rattle.std.specs.Prelude.{List, ◌++◌};
    ghost use Rattle.lrat_log.specs.declared.lines.Hint.{Hint};

    ghost Value = { List Hint };

    ghost view = { λ h. h.narrow.now ++ h.wide.now };
}

impl<'a> HintSlice<'a> {
    /// How many there are.
    pub fn len(&self) -> usize
        ensures { result ≡ length self.now }
    {
        self.narrow.len() + self.wide.len()
    }

    /// The hint in this place, from 0.
    pub fn get(&self, index: usize) -> Hint
        requires { index < length self.now }
        ensures { slice_get self.now index ≡ Some result }
    {
        let count = self.narrow.len();
        if index < count {
            self.narrow[index].widen().hint()
        } else {
            self.wide[index - count].hint()
        }
    }
}

/// Puts the hints behind those that are kept, and answers true; or changes nothing and answers
/// false, which it does only where one of them has a number from 2^30 on.
fn push_narrow(kept: &mut Vec<NarrowHint>, hints: &[Hint]) -> Result<bool, AllocError>
    ensures ok { IfOk result (λ fits. kept.new.items
        ≡ (if fits then kept.old.items ++ hints.now else kept.old.items)) }
    ensures fits { IfOk result (λ fits. All (λ h. hint_code h < 2 ^ 32) hints.now → fits ≡ true) }
    ensures err { OnErr result (kept.new.items ≡ kept.old.items) }
{
    let count = kept.len();
    kept.reserve(hints.len())?;
    for hint in hints {
        let packed = PackedHint::new(*hint);
        if !packed.is_narrow() {
            kept.truncate(count);
            return Ok(false);
        }
        kept.push(packed.narrow())?;
    }
    Ok(true)
}

/// Puts the hints behind those that are kept.
fn push_wide(kept: &mut Vec<PackedHint>, hints: &[Hint]) -> Result<(), AllocError>
    ensures ok { OnOk result (kept.new.items ≡ kept.old.items ++ hints.now) }
    ensures err { OnErr result (kept.new.items ≡ kept.old.items) }
{
    kept.reserve(hints.len())?;
    for hint in hints {
        kept.push(PackedHint::new(*hint))?;
    }
    Ok(())
}
