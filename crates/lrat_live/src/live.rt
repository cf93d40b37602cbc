// The live clauses of a certificate by id: those of the formula, and those that were added.
ghost use Rattle.std.specs.Prelude.{◌≡◌, ◌<◌, ◌≤◌, ◌↔◌, ◌∷◌, [], ◌++◌, length, true, false, All};
ghost use Rattle.std.specs.Prelude.{IfOk, IsTrue};
ghost use Rattle.std.specs.Prelude.{IsSome, OnOk, OnErr};
ghost use Rattle.std.specs.Option.{option_copied};
ghost use Rattle.cnf.specs.Clause.{contains_literal};
ghost use Rattle.lrat_live.specs.Counts.{times_at, take_all, AreCounts, AreTaken};
ghost use Rattle.lrat_live.specs.Listed.{listed_at, listed_from, without_id, ids_listed, same_ids};
ghost use Rattle.lrat_live.specs.Listed.{IsRising};
ghost use Rattle.lrat_live.specs.Near.{all_of};
ghost use Rattle.lrat_live.specs.Pages.{count_in};

use crate::added::Added;
use crate::counts::{count_last, count_of, is_next, lower, times_in};
use crate::near::Near;
use crate::pages::Counts;
use crate::places::KnownPlaces;
use cnf::types::{Formula, Lit};
use std::alloc::AllocError;
use std::marker::Model;

/// The live clauses of a certificate with their ids.
#[derive(Drop)]
pub struct LiveClauses {
    /// Those of the formula, and those that were added of late.
    near: Near,
    /// The other ones, which were added before.
    far: Added,
    /// Whether the literals of the live clauses are counted, as they are from the first RAT line
    /// on.
    is_counted: bool,
    /// By a literal's index, how often it stands in the live clauses, if they are counted.
    counts: Counts,
    /// Where the literals of long candidates stand.
    places: KnownPlaces,
}

impl Model for LiveClauses {
    ghost use Rattle.std.specs.Prelude.{◌≡◌, ◌++◌, ℕ, List, true};
    ghost use Rattle.cnf.specs.Literal.{Literal};

    ghost Value = { List (ℕ × List Literal) };

    ghost use Rattle.lrat_live.specs.Counts.{AreCounts};
    ghost use Rattle.lrat_live.specs.Listed.{IsRising};
    ghost use Rattle.lrat_live.specs.Near.{all_of};
    ghost use Rattle.lrat_live.specs.Pages.{count_in};

    ghost view = { λ s. all_of s.near s.far };

    ghost invariant = { λ s. IsRising (all_of s.near s.far)
        × (s.is_counted ≡ true → AreCounts (count_in s.counts) (all_of s.near s.far)) };
}

/// How often a literal stands in the live clauses.
#[derive(Drop)]
struct Occurrences {
    /// The literal.
    lit: Lit,
    /// In how many places it stands, below 2^32.
    total: usize,
}

/// The clause under an id, near or far.
#[inline]
fn lookup<'a>(near: &'a Near, far: &'a Added, id: u64) -> Option<&'a [Lit]>
    requires { IsRising (all_of near.now far.now) }
    ensures { option_copied result ≡ listed_at (all_of near.now far.now) id }
{
    match near.find(id) {
        Some(clause) => Some(clause),
        None => far.find(id),
    }
}

/// Adds a clause under an id above all others. When memory is refused the clauses stay as they are,
/// though recent ones may be far then.
fn put(near: &mut Near, far: &mut Added, id: u64, lits: &[Lit]) -> Result<(), AllocError>
    requires rising { IsRising (all_of near.old far.old) }
    requires above { All (λ e. e.0 < id) (all_of near.old far.old) }
    ensures ok { OnOk result
        (all_of near.new far.new ≡ all_of near.old far.old ++ (id, lits.now) ∷ []) }
    ensures err { OnErr result (all_of near.new far.new ≡ all_of near.old far.old) }
{
    near.reclaim();
    if near.push(id, lits)? {
        return Ok(());
    }
    near.flush(far, id)?;
    if near.push(id, lits)? {
        return Ok(());
    }
    far.add(id, lits)
}

/// Counts the literals of all clauses, unless they are counted.
fn count_all(
    is_counted: bool,
    counts: &mut Counts,
    near: &Near,
    far: &Added,
) -> Result<(), AllocError>
    requires { is_counted ≡ true → AreCounts (count_in counts.old) (all_of near.now far.now) }
    ensures counts { OnOk result (AreCounts (count_in counts.new) (all_of near.now far.now)) }
    ensures err { OnErr result (is_counted ≡ false) }
{
    if is_counted {
        return Ok(());
    }
    counts.clear();
    near.count_given(counts)?;
    far.count(counts)?;
    near.count_recent(counts)?;
    Ok(())
}

/// Counts the literals of the clause under an id out, if there is one and they are counted.
fn count_out(is_counted: bool, counts: &mut Counts, near: &Near, far: &Added, id: u64)
    requires rising { IsRising (all_of near.now far.now) }
    ensures { (is_counted ≡ true → AreCounts (count_in counts.old) (all_of near.now far.now))
        → is_counted ≡ true
        → AreCounts (count_in counts.new) (without_id id (all_of near.now far.now)) }
{
    if !is_counted {
        return;
    }
    let Some(clause) = lookup(near, far, id) else {
        return;
    };
    lower(counts, clause);
}

/// As `take_all`, with the places that are known of long clauses. A false answer says nothing.
fn take_shown(
    near: &Near,
    far: &Added,
    places: &mut KnownPlaces,
    wanted: &Occurrences,
    ids: &[u64],
) -> Result<bool, AllocError>
    requires { IsRising (all_of near.now far.now) }
    ensures { IfOk result (λ all. all ≡ true
        → AreTaken wanted.now.lit (all_of near.now far.now) wanted.now.total 0 ids.now) }
{
    let mut before = 0;
    let mut left = wanted.total;
    for id in ids {
        let Some(clause) = lookup(near, far, *id) else {
            return Ok(false);
        };
        let times = places.times(*id, wanted.lit, clause)?;
        if !is_next(before, *id, times, left) {
            return Ok(false);
        }
        left -= times;
        before = *id;
    }
    Ok(left == 0)
}

impl LiveClauses {
    /// The clauses of the formula under the ids from 1. An AllocError comes where memory was
    /// refused, or where the formula has more than 2^32 - 2 literals.
    pub fn new(formula: Formula) -> Result<Self, AllocError>
        ensures { IfOk result (λ live. live ≡ listed_from 1 formula.clauses) }
    {
        let alloc = formula.allocator();
        Ok(LiveClauses {
            near: Near::new(formula)?,
            far: Added::new(alloc),
            is_counted: false,
            counts: Counts::new(alloc),
            places: KnownPlaces::new(alloc),
        })
    }

    /// Adds a clause under an id above all others. An AllocError comes where memory was refused, or
    /// where there would be more than 2^32 - 2 added clauses or literals, dead ones too; the
    /// clauses then stay as they are.
    pub fn add(&mut self, id: u64, lits: &[Lit]) -> Result<(), AllocError>
        requires rising { All (λ e. e.0 < id) self.old }
        ensures ok { OnOk result (self.new ≡ self.old ++ (id, lits.now) ∷ []) }
        ensures err { OnErr result (self.new ≡ self.old) }
    {
        put(&mut self.near, &mut self.far, id, lits)?;
        self.is_counted = count_last(self.is_counted, &mut self.counts, lits);
        Ok(())
    }

    /// How many clauses take room: those that are live, and dead ones whose room was not reclaimed.
    pub fn entries(&self) -> usize
        ensures { length self.now ≤ result }
    {
        self.near.entries() + self.far.entries()
    }

    /// The clause under an id, if it is live.
    #[inline]
    pub fn find(&self, id: u64) -> Option<&[Lit]>
        ensures { option_copied result ≡ listed_at self.now id }
    {
        lookup(&self.near, &self.far, id)
    }

    /// Whether the literal is known to stand in the clause under an id, as it may be where the
    /// clause is long and was named in `are_all_with`. A false answer says nothing.
    #[inline]
    pub fn shows(&self, id: u64, lit: Lit, clause: &[Lit]) -> bool
        ensures { result ≡ true → contains_literal lit clause.now ≡ true }
    {
        self.places.shows(id, lit, clause)
    }

    /// Takes the clause out; false where there is none under the id.
    pub fn delete(&mut self, id: u64) -> bool
        ensures found { IsTrue result ↔ IsSome (listed_at self.old id) }
        ensures left { self.new ≡ without_id id self.old }
    {
        self.places.forget(id);
        count_out(self.is_counted, &mut self.counts, &self.near, &self.far, id);
        if self.near.delete(id) {
            return true;
        }
        self.far.delete(id)
    }

    /// Whether these ids are those of the clauses with the literal, in rising order. An AllocError
    /// comes where memory was refused, or where a literal stands in the clauses 2^32 times.
    pub fn are_all_with(&mut self, lit: Lit, ids: &[u64]) -> Result<bool, AllocError>
        requires { All (λ e. 0 < e.0) self.old }
        ensures all { IfOk result (λ all. all ≡ same_ids ids.now (ids_listed lit self.old)) }
        ensures unchanged { self.new ≡ self.old }
    {
        count_all(self.is_counted, &mut self.counts, &self.near, &self.far)?;
        self.is_counted = true;
        let total = count_of(&self.counts, lit);
        let wanted = Occurrences { lit, total };
        if take_shown(&self.near, &self.far, &mut self.places, &wanted, ids)? {
            return Ok(true);
        }
        Ok(self.take_all(lit, total, ids))
    }

    /// Whether the ids rise and their clauses have the literal `total` times together, each at
    /// least once.
    fn take_all(&self, lit: Lit, total: usize, ids: &[u64]) -> bool
        ensures { result ≡ take_all (times_at lit self.now) total 0 ids.now }
    {
        let mut before = 0;
        let mut left = total;
        for id in ids {
            let times = self.times_at(lit, *id);
            if !is_next(before, *id, times, left) {
                return false;
            }
            left -= times;
            before = *id;
        }
        left == 0
    }

    /// How often the literal stands in the clause under an id, if it is live.
    fn times_at(&self, lit: Lit, id: u64) -> usize
        ensures { result ≡ times_at lit self.now id }
    {
        match self.find(id) {
            Some(clause) => times_in(lit, clause),
            None => 0,
        }
    }
}
