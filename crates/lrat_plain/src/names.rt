// The ids of clauses in the plain certificate. The clauses that lines make come behind those of
// the formula, and additions behind both.
ghost use Rattle.std.specs.Prelude.{◌≡◌, ◌+◌, ◌-◌, ◌*◌, ◌<◌, ◌≤◌, ◌^◌, ◌==◌, map, OnOk};
ghost use Rattle.std.specs.Prelude.{IfErr, IfOk};
ghost use Rattle.cnf.specs.declared.limits.TheConstants.{NUMBER_LIMIT};
ghost use Rattle.lrat_plain.specs.Names.{added, forgotten, named, named_all, names_start};
ghost use Rattle.lrat_plain.specs.Names.{renumbered};
ghost use Rattle.lrat_plain.specs.Faults.{IsNoLine};

use crate::faults::PlainFault;
use cnf::limits::NUMBER_LIMIT;
use lrat_read::types::SignedId;
use std::alloc::Global;
use std::collections::BTreeMap;
use std::marker::Model;

/// What tells the ids of the plain certificate.
#[derive(Drop)]
pub(crate) struct Names {
    // How many clauses the formula of the instance has.
    given: u64,
    // How many there are with those that lines make: at most 2^62.
    all: u64,
    // How many clauses lines made so far: with the given ones at most all.
    made: u64,
    // By the ids of the live clauses that lines made, their numbers in the whole formula.
    places: BTreeMap<u64, u64>,
}

impl Model for Names {
    ghost use Rattle.std.specs.Prelude.{◌+◌, ◌≤◌};
    ghost use Rattle.cnf.specs.declared.limits.TheConstants.{NUMBER_LIMIT};
    ghost use Rattle.lrat_plain.specs.Names.{Names};

    ghost Value = { Names };

    ghost view = { λ n. record {
      given = n.given;
      all = n.all;
      made = n.made;
      places = (n.places).entries;
    } };

    ghost invariant = { λ n. (n.given + n.made ≤ n.all) × (n.all ≤ NUMBER_LIMIT) };
}

impl Names {
    /// Before the first line, for a formula of `given` clauses, `all` with those that lines make.
    pub(crate) fn new(alloc: Global, given: u64, all: u64) -> Self
        requires within { given ≤ all }
        requires small { all ≤ NUMBER_LIMIT }
        ensures { result ≡ names_start given all }
    {
        Names {
            given,
            all,
            made: 0,
            places: BTreeMap::new(alloc),
        }
    }

    /// How many clauses lines made so far.
    pub(crate) fn made(&self) -> u64
        ensures made { result ≡ self.now.made }
        ensures small { result ≤ NUMBER_LIMIT }
    {
        self.made
    }

    /// How many clauses there are with those that lines make.
    pub(crate) fn all(&self) -> u64
        ensures { result ≡ self.now.all }
    {
        self.all
    }

    /// Whether as many clauses were made as there are to be.
    pub(crate) fn are_full(&self) -> bool
        ensures { result ≡ (self.now.given + self.now.made == self.now.all) }
    {
        self.given + self.made == self.all
    }

    /// The id of an addition, or of a line behind this one.
    pub(crate) fn added(&self, id: u64) -> u64
        requires { id ≤ 3 * NUMBER_LIMIT - 1 }
        ensures { result ≡ added self.now id }
    {
        self.all + id.saturating_sub(self.given)
    }

    /// The id of a live clause.
    pub(crate) fn renumbered(&self, id: u64) -> u64
        requires { id ≤ 3 * NUMBER_LIMIT - 1 }
        ensures { result ≡ renumbered self.now id }
    {
        if id <= self.given {
            return id;
        }
        match self.places.get(&id) {
            Some(place) => *place,
            None => self.added(id),
        }
    }

    /// These clauses are live no more.
    pub(crate) fn forget(&mut self, ids: &[SignedId])
        ensures { self.new ≡ forgotten (map (λ i. i.1) ids.now) self.old }
    {
        for id in ids {
            self.places.remove(&id.id());
        }
    }

    /// A line made a clause, which has this id.
    ///
    /// # Errors
    ///
    /// `Changed` where there are as many as there are to be, and `Memory`.
    fn name(&mut self, id: u64) -> Result<(), PlainFault>
        ensures named { OnOk result (self.new ≡ named id self.old) }
        ensures no_line { IfErr result IsNoLine }
    {
        if self.given + self.made >= self.all {
            return Err(PlainFault::Changed);
        }
        let place = self.given + self.made + 1;
        if self.places.insert(id, place).is_err() {
            return Err(PlainFault::Memory);
        }
        self.made += 1;
        Ok(())
    }

    /// Says the limits of the counts; it does nothing.
    pub(crate) fn limits(&self)
        ensures { self.now.made ≤ NUMBER_LIMIT }
    {
        let _ = &self.made;
    }

    /// A line made `count` clauses, under the ids that follow the last one. Answers the last id
    /// then.
    ///
    /// # Errors
    ///
    /// As `name`.
    pub(crate) fn name_all(&mut self, last: u64, count: usize) -> Result<u64, PlainFault>
        requires { last ≤ NUMBER_LIMIT + self.old.made }
        ensures named { OnOk result (self.new ≡ named_all last count self.old) }
        ensures last { IfOk result (λ id. id ≡ last + count) }
        ensures small { IfOk result (λ id. id ≤ NUMBER_LIMIT + self.new.made) }
        ensures no_line { IfErr result IsNoLine }
    {
        let mut id = last;
        for _ in 0..count {
            self.limits();
            id += 1;
            self.name(id)?;
        }
        Ok(id)
    }
}
