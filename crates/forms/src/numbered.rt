// Counts and groups, which facts of a form name by their numbers.
ghost use Rattle.std.specs.Prelude.{◌≡◌, ℕ, ◌<◌, All, Some, None, MatchOption};
ghost use Rattle.std.specs.Option.{option_copied, option_map};
ghost use Rattle.forms.specs.Forms.{at_number, cleared, inputs_of, numbered_size, outputs_at};
ghost use Rattle.forms.specs.Forms.{without_multiplier};
ghost use Rattle.forms.specs.Stamped.{AreStamped, IsStamped, numbered_in, numbered_at};
ghost use Rattle.forms.specs.Within.{IsStampedWithin};

use cnf::types::Lit;
use totalizer::totalizer::Totalizer;

/// A count of the literals that are true among some.
#[derive(Drop)]
pub(crate) struct Count {
    /// What is counted: one literal or more, of different variables.
    pub(crate) inputs: Vec<Lit>,
    /// The outputs, which are true where at least 1, 2, .. of the inputs are.
    pub(crate) totalizer: Totalizer,
    /// How many times the form with this stamp has the count's fact; another has it 0 times.
    pub(crate) multiplier: u128,
    /// At most the present stamp.
    pub(crate) stamp: u64,
}

/// What has a number.
#[derive(Drop)]
pub(crate) enum Numbered {
    /// A count.
    Count(Count),
    /// The literals of a group: two or more, at most one of which is true.
    Group(Vec<Lit>),
}

/// The count or group with a number, if there is one.
pub(crate) fn find(numbered: &[Numbered], number: u64) -> Option<&Numbered>
    ensures { (present : ℕ) → MatchOption result
        (at_number (numbered_in present numbered.now) number ≡ None)
        (λ n. at_number (numbered_in present numbered.now) number
        ≡ Some (numbered_at present n.now)) }
{
    if number == 0 || number > numbered.len() as u64 {
        return None;
    }
    Some(&numbered[number as usize - 1])
}

/// The literals of the count or group with a number, if there is one.
pub(crate) fn inputs_at(numbered: &[Numbered], number: u64) -> Option<&[Lit]>
    ensures { (present : ℕ) → option_copied result
        ≡ option_map inputs_of (at_number (numbered_in present numbered.now) number) }
{
    let Some(item) = find(numbered, number) else {
        return None;
    };
    match item {
        Numbered::Count(count) => Some(&count.inputs),
        Numbered::Group(lits) => Some(lits),
    }
}

/// The outputs so far of the count with a number, if there is one.
pub(crate) fn outputs_at(numbered: &[Numbered], number: u64) -> Option<&[Lit]>
    ensures { (present : ℕ) → option_copied result
        ≡ outputs_at (numbered_in present numbered.now) number }
{
    let Some(item) = find(numbered, number) else {
        return None;
    };
    match item {
        Numbered::Count(count) => Some(count.totalizer.outputs()),
        Numbered::Group(_) => None,
    }
}

/// How many terms the fact of a count or group has.
pub(crate) fn numbered_size(numbered: &Numbered) -> u64
    ensures { (present : ℕ) → result ≡ numbered_size (numbered_at present numbered.now) }
{
    match numbered {
        Numbered::Count(count) => (count.inputs.len() + count.totalizer.outputs().len()) as u64,
        Numbered::Group(lits) => lits.len() as u64,
    }
}

/// The stamp of a form that is begun, which no count has.
pub(crate) fn next_stamp(numbered: &mut Vec<Numbered>, present: u64) -> u64
    requires { AreStamped present numbered.old.items }
    ensures cleared { numbered_in result numbered.new.items
        ≡ cleared (numbered_in present numbered.old.items) }
    ensures stamped { AreStamped result numbered.new.items }
    ensures within { (variables terms : ℕ) → All (IsStampedWithin variables terms)
        numbered.old.items
        → All (IsStampedWithin variables terms) numbered.new.items }
{
    if present == u64::MAX {
        for place in 0..numbered.len() {
            forget(&mut numbered[place]);
        }
        return 1;
    }
    present + 1
}

/// No form has the count's fact.
fn forget(item: &mut Numbered)
    ensures cleared { (p q : ℕ) → 0 < p
        → numbered_at p item.new ≡ without_multiplier (numbered_at q item.old) }
    ensures stamped { (p : ℕ) → IsStamped p item.new }
    ensures within { (variables terms : ℕ) → IsStampedWithin variables terms item.old
        → IsStampedWithin variables terms item.new }
{
    match item {
        Numbered::Count(count) => {
            count.multiplier = 0;
            count.stamp = 0;
        }
        Numbered::Group(_) => {}
    }
}
