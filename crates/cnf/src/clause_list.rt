// A list of clauses in flat memory: four bytes for each literal, and four for each clause.
ghost use Rattle.std.specs.Prelude.{◌≡◌, ◌<◌, [], ◌∷◌, ◌++◌, ◌≤◌, Some, length, slice_get};
ghost use Rattle.std.specs.Prelude.{slice_range, IfOk, OnOk, OnErr};
ghost use Rattle.std.specs.Iterator.{YieldsFirstRef, item_count};
ghost use Rattle.std.specs.List.{flat_map};
ghost use Rattle.cnf.specs.Flat.{start_at};

use crate::limits::MOST_PLACES;
use crate::types::Lit;
use std::alloc::{AllocError, Global};
use std::marker::Model;

/// A list of clauses, which are lists of literals. Their literals stand in one vector, one clause
/// after another.
#[derive(Drop)]
pub struct ClauseList {
    // Fewer than 2^32.
    lits: Vec<Lit>,
    // For each clause the place where its literals end, and those of the next begin.
    ends: Vec<u32>,
}

impl Model for ClauseList {
    ghost use Rattle.std.specs.Prelude.{List};
    ghost use Rattle.cnf.specs.Literal.{Literal};
    ghost use Rattle.cnf.specs.Flat.{cut_from, AreCut};

    ghost Value = { List (List Literal) };

    ghost view = { λ l. cut_from 0 l.lits.items l.ends.items };

    ghost invariant = { λ l. AreCut l.lits.items l.ends.items };
}

impl ClauseList {
    /// No clauses. It takes no memory.
    pub fn new(alloc: Global) -> Self
        ensures { result ≡ [] }
    {
        ClauseList {
            lits: Vec::new(alloc),
            ends: Vec::new(alloc),
        }
    }

    /// How many clauses there are.
    pub fn len(&self) -> usize
        ensures { result ≡ length self.now }
    {
        self.ends.len()
    }

    /// The literals of a clause by its place, from 0.
    pub fn get(&self, place: usize) -> &[Lit]
        requires { place < length self.now }
        ensures { slice_get self.now place ≡ Some result.now }
    {
        let start = start_of(&self.ends, place);
        part(&self.lits, start, self.ends[place])
    }

    /// Puts a clause last.
    ///
    /// # Errors
    ///
    /// `AllocError` where a growth was refused; one past 2^32 - 1 literals always is. The clauses
    /// are then as they were.
    pub fn push(&mut self, lits: &[Lit]) -> Result<(), AllocError>
        ensures ok { OnOk result (self.new ≡ self.old ++ lits.now ∷ []) }
        ensures err { OnErr result (self.new ≡ self.old) }
    {
        let start = self.lits.len();
        if lits.len() > MOST_PLACES - start {
            return Err(AllocError);
        }
        // Room comes first, so that a refused growth changes nothing.
        self.ends.reserve(1)?;
        self.lits.extend_from_slice(lits)?;
        self.ends.push((start + lits.len()) as u32)?;
        Ok(())
    }

    /// Drops all clauses, and keeps their memory for others.
    pub fn clear(&mut self)
        ensures { self.new ≡ [] }
    {
        self.lits.clear();
        self.ends.clear();
    }

    /// The same clauses in memory of their own.
    ///
    /// # Errors
    ///
    /// `AllocError` where memory was refused.
    pub fn try_clone(&self) -> Result<ClauseList, AllocError>
        ensures { IfOk result (λ copy. copy ≡ self.now) }
    {
        Ok(ClauseList {
            lits: Vec::from_slice(self.allocator(), &self.lits)?,
            ends: Vec::from_slice(self.allocator(), &self.ends)?,
        })
    }

    /// The clauses, in their order.
    pub fn iter(&self) -> Clauses<'_>
        ensures { result ≡ self.now }
    {
        Clauses {
            lits: &self.lits,
            start: 0,
            ends: &self.ends,
        }
    }

    /// The literals of all clauses, one clause after another.
    pub fn into_lits(self) -> Vec<Lit>
        ensures { result.items ≡ flat_map (λ c. c) self }
    {
        self.lits
    }

    /// Where the clauses take their memory from.
    pub fn allocator(&self) -> Global {
        *self.lits.allocator()
    }
}

/// Goes over the clauses of a list, each lent as a part of its literals.
#[derive(Drop)]
pub struct Clauses<'a> {
    // The literals of all clauses of the list.
    lits: &'a [Lit],
    // Where the next clause begins.
    start: u32,
    // Where the clauses that are left end.
    ends: &'a [u32],
}

impl<'a> Model for Clauses<'a> {
    ghost use Rattle.std.specs.Prelude.{List, length};
    ghost use Rattle.cnf.specs.Literal.{Literal};
    ghost use Rattle.cnf.specs.Flat.{cut_from, RiseTo};

    ghost Value = { List (List Literal) };

    ghost view = { λ s. cut_from s.start s.lits.now s.ends.now };

    ghost invariant = { λ s. RiseTo s.start s.ends.now (length s.lits.now) };
}

impl<'a> Iterator for Clauses<'a> {
    type Item = &'a [Lit];

    ghost next_gives = { YieldsFirstRef (λ s. s) };

    ghost remaining = { item_count (λ s. s) };

    fn next(&mut self) -> Option<&'a [Lit]> {
        match self.ends {
            [] => None,
            [end, ends @ ..] => {
                let clause = part(self.lits, self.start, *end);
                self.start = *end;
                self.ends = ends;
                Some(clause)
            }
        }
    }
}

// The literals from one place to another.
fn part(lits: &[Lit], start: u32, end: u32) -> &[Lit]
    requires { (start ≤ end) × (end ≤ length lits.now) }
    ensures { result.now ≡ slice_range lits.now start end }
{
    &lits[start as usize..end as usize]
}

// Where a clause begins.
fn start_of(ends: &[u32], place: usize) -> u32
    requires { place < length ends.now }
    ensures { result ≡ start_at 0 ends.now place }
{
    if place == 0 { 0 } else { ends[place - 1] }
}
