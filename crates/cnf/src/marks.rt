// A mark for each literal, as stamps: a literal is marked where its stamp is the present one, so
// that one step takes all marks away.
ghost use Rattle.std.specs.Prelude.{◌≡◌, ◌-◌, ◌*◌, ◌<◌, ◌≤◌, true, false, IfOk};
ghost use Rattle.std.specs.Prelude.{MatchResult, List, [], ◌++◌, length, replicate, slice_set, All};
ghost use Rattle.cnf.specs.Literal.{index_of};
ghost use Rattle.cnf.specs.Clause.{without_literal};
ghost use Rattle.cnf.specs.Marks.{mark_of, IsMarked, HasPlace, are_marked};

use crate::types::Lit;
use std::alloc::{AllocError, Global};
use std::marker::Model;

/// A mark for each literal of the variables up to some number.
#[derive(Drop)]
pub struct Marks {
    // By a literal's index: the stamp with which it was marked last, at most the present one; 0 for
    // a literal that never was.
    stamps: Vec<u16>,
    // The stamp of the literals that are marked, from 1.
    present: u16,
}

impl Model for Marks {
    ghost use Rattle.std.specs.Prelude.{List, Bool, ◌<◌, ◌≤◌, All, map, ◌==◌};

    ghost Value = { List Bool };

    ghost view = { λ m. map (λ s. s == m.present) m.stamps.items };

    ghost invariant = { λ m. (0 < m.present) × All (λ s. s ≤ m.present) m.stamps.items };
}

/// The stamps start again when they have run out.
const LAST: u16 = u16::MAX;

impl Marks {
    /// No marks, for the literals of the variables 1 to `vars`.
    pub fn new(alloc: Global, vars: u32) -> Result<Self, AllocError>
        ensures none { IfOk result (λ m. m ≡ replicate (2 * vars) false) }
        ensures len { IfOk result (λ m. length m ≡ 2 * vars) }
    {
        let stamps = unused_stamps(alloc, 2 * vars as usize)?;
        Ok(Marks { stamps, present: 1 })
    }

    /// No marks, and room for none.
    pub fn empty(alloc: Global) -> Self
        ensures { result ≡ [] }
    {
        Marks {
            stamps: Vec::new(alloc),
            present: 1,
        }
    }

    /// Makes room for the literals of the variables up to `vars`, which are not marked. Where
    /// memory is refused, nothing changes.
    pub fn grow(&mut self, vars: u32) -> Result<(), AllocError>
        requires { length self.old ≤ 2 * vars }
        ensures { MatchResult result
            (λ _. self.new ≡ self.old ++ replicate (2 * vars - length self.old) false)
            (λ _. self.new ≡ self.old) }
    {
        self.stamps.resize(2 * vars as usize, 0)
    }

    /// How many literals can have a mark.
    pub fn len(&self) -> usize
        ensures { result ≡ length self.now }
    {
        self.stamps.len()
    }

    /// Takes all marks away.
    pub fn clear(&mut self)
        ensures { self.new ≡ replicate (length self.old) false }
    {
        self.present = next_stamp(&mut self.stamps, self.present);
    }

    /// Marks a literal.
    pub fn mark(&mut self, lit: Lit)
        requires { HasPlace (length self.old) lit }
        ensures { self.new ≡ slice_set self.old (index_of lit) true }
    {
        self.stamps[lit.index()] = self.present;
    }

    /// Whether a literal is marked.
    pub fn is_marked(&self, lit: Lit) -> bool
        requires { HasPlace (length self.now) lit }
        ensures { result ≡ mark_of self.now lit }
    {
        self.stamps[lit.index()] == self.present
    }

    /// Marks the literals of a clause, but for one, and no others.
    pub fn mark_without(&mut self, lits: &[Lit], left_out: Lit)
        requires { All (HasPlace (length self.old)) lits.now }
        ensures len { length self.new ≡ length self.old }
        ensures marked { IsMarked self.new (without_literal left_out lits.now) }
    {
        self.clear();
        for lit in lits {
            if *lit != left_out {
                self.mark(*lit);
            }
        }
    }

    /// Marks the literals of a clause, and no others.
    pub fn mark_all(&mut self, lits: &[Lit])
        requires { All (HasPlace (length self.old)) lits.now }
        ensures len { length self.new ≡ length self.old }
        ensures marked { IsMarked self.new lits.now }
    {
        self.clear();
        for lit in lits {
            self.mark(*lit);
        }
    }

    /// Whether each of the literals is marked.
    pub fn has_all(&self, lits: &[Lit]) -> bool
        requires { All (HasPlace (length self.now)) lits.now }
        ensures { result ≡ are_marked self.now lits.now }
    {
        for lit in lits {
            if !self.is_marked(*lit) {
                return false;
            }
        }
        true
    }
}

/// `count` stamps that were never given.
fn unused_stamps(alloc: Global, count: usize) -> Result<Vec<u16>, AllocError>
    ensures { IfOk result (λ stamps. stamps.items ≡ replicate count 0) }
{
    Vec::from_elem(alloc, 0, count)
}

/// A stamp that no literal has.
fn next_stamp(stamps: &mut [u16], present: u16) -> u16
    requires { All (λ s. s ≤ present) stamps.old }
    ensures some { 0 < result }
    ensures above { All (λ s. s < result) stamps.new }
{
    if present == LAST {
        for stamp in stamps.iter_mut() {
            *stamp = 0;
        }
        return 1;
    }
    present + 1
}
