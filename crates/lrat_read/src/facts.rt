// The facts of a form line: each with its weight, by the name that it has.
ghost use Rattle.std.specs.Prelude.{◌≡◌, ◌<◌, ◌≤◌, length, IfOk};
ghost use Rattle.cnf.specs.declared.limits.TheConstants.{NUMBER_LIMIT};
ghost use Rattle.lrat_read.specs.Facts.{AreFactsRead};

use crate::numbers::{NumberAt, number_at, skip_blanks, unsigned_at};
use crate::types::SignedId;
use std::alloc::AllocError;
use std::marker::Model;

/// A fact, and how many times it is taken: that of the clause with an id, or, with a dash, of the
/// count or group with a number.
#[derive(Clone, Copy, Drop)]
pub struct WeightedFact {
    // How many times, from 1 to 2^62 - 1.
    weight: u64,
    // The id or the number, with a dash before a number.
    name: SignedId,
}

impl Model for WeightedFact {
    ghost use Rattle.std.specs.Prelude.{◌<◌};
    ghost use Rattle.cnf.specs.declared.limits.TheConstants.{NUMBER_LIMIT};
    ghost use Rattle.lrat_read.specs.Words.{NamedFact};

    ghost Value = { NamedFact };

    ghost view = { λ f. record {
      weight = f.weight;
      is_numbered = f.name.0;
      number = f.name.1;
    } };

    ghost invariant = { λ f. (0 < f.weight) × (f.weight < NUMBER_LIMIT) };

    ghost inverse = { λ f. record { weight = f.weight; name = (f.is_numbered, f.number) } };
}

impl WeightedFact {
    /// A fact from its weight and its name.
    pub(crate) fn new(weight: u64, name: SignedId) -> Self
        requires from_one { 0 < weight }
        requires small { weight < NUMBER_LIMIT }
        ensures { result
            ≡ record { weight = weight; is_numbered = name.0; number = name.1 } }
    {
        WeightedFact { weight, name }
    }

    /// How many times the fact is meant, from 1 to 2^62 - 1.
    pub fn weight(self) -> u64
        ensures weight { result ≡ self.weight }
        ensures from_one { 0 < result }
        ensures small { result < NUMBER_LIMIT }
    {
        self.weight
    }

    /// Whether the fact is that of a count or a group.
    pub fn is_numbered(self) -> bool
        ensures { result ≡ self.is_numbered }
    {
        self.name.is_dashed()
    }

    /// The number of the count or group, or the id of the clause, from 1 to 2^62 - 1.
    pub fn number(self) -> u64
        ensures number { result ≡ self.number }
        ensures from_one { 0 < result }
        ensures small { result < NUMBER_LIMIT }
    {
        self.name.id()
    }
}

const _: () = prove!(size_of::<WeightedFact>() == 16);

/// Reads the facts from a place on, each after its weight, up to the 0 that ends the line: whether
/// there is nothing else.
pub(crate) fn read_facts(
    facts: &mut Vec<WeightedFact>,
    line: &[u8],
    at: usize,
) -> Result<bool, AllocError>
    requires { at ≤ length line.now }
    ensures { IfOk result (λ r. AreFactsRead line.now at facts.new.items r) }
{
    facts.clear();
    let mut place = at;
    while let Some(weight) = unsigned_at(line, place) {
        if weight.value == 0 {
            return Ok(skip_blanks(line, weight.end) == line.len());
        }
        let NumberAt::Number {
            is_dashed,
            value,
            end,
        } = number_at(line, weight.end)
        else {
            return Ok(false);
        };
        if value == 0 {
            return Ok(false);
        }
        let name = SignedId::new(value, is_dashed);
        facts.push(WeightedFact::new(weight.value, name))?;
        place = end;
    }
    Ok(false)
}
