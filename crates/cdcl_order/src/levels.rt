// How many levels meet in a clause, its LBD (literal block distance, or glue; Audemard and Simon
// 2009), by a stamp for each level. A clause that joins few levels is unit or false again soon.
ghost use Rattle.std.specs.Prelude.{◌≡◌, ◌+◌, ◌-◌, ◌<◌, ◌≤◌, ◌^◌, length, min, All, IfOk};
ghost use Rattle.cdcl_order.specs.Levels.{lbd_of};

use cnf::types::Lit;
use propagate::engine::Engine;
use std::alloc::{AllocError, Global};
use std::marker::Model;

/// Counts levels, with memory that it keeps between calls.
#[derive(Drop)]
pub(crate) struct Levels {
    // By level, from 0: the number of the last count that met it, at most `count`; one more than an
    // engine has variables.
    stamps: Vec<u32>,
    // The number of the last count.
    count: u32,
}

impl Model for Levels {
    ghost use Rattle.std.specs.Prelude.{◌≤◌, All};
    ghost use Rattle.cdcl_order.specs.Levels.{LevelsState};

    ghost Value = { LevelsState };

    ghost view = { λ l. record { stamps = l.stamps.items; count = l.count } };

    ghost invariant = { λ l. All (λ n. n ≤ l.count) l.stamps.items };
}

impl Levels {
    /// One for the levels of engines over `variables` variables.
    ///
    /// # Errors
    ///
    /// `AllocError` where memory was refused.
    pub(crate) fn new(alloc: Global, variables: u32) -> Result<Self, AllocError>
        ensures { IfOk result (λ l. length l.stamps ≡ variables + 1) }
    {
        let stamps = Vec::from_elem(alloc, 0, variables as usize + 1)?;
        Ok(Levels { stamps, count: 0 })
    }

    /// The LBD: the number of levels above 0 among the literals, in one pass over them; it stays at
    /// 2^32 - 1.
    pub(crate) fn count_lbd(&mut self, engine: &Engine, lits: &[Lit]) -> u32
        requires room { engine.now.variables < length self.old.stamps }
        requires within { All (λ l. l.variable ≤ engine.now.variables) lits.now }
        ensures lbd { result ≡ min (lbd_of engine.now.trail lits.now) (2 ^ 32 - 1) }
        ensures long { length self.new.stamps ≡ length self.old.stamps }
    {
        self.next_count();
        count_levels(engine, lits, &mut self.stamps, self.count)
    }

    /// From now on no level was met.
    fn next_count(&mut self)
        ensures fresh { All (λ n. n < self.new.count) self.new.stamps }
        ensures long { length self.new.stamps ≡ length self.old.stamps }
    {
        if self.count == u32::MAX {
            clear(&mut self.stamps);
            self.count = 0;
        }
        self.count += 1;
    }
}

/// Takes all stamps away.
fn clear(stamps: &mut [u32])
    ensures clear { All (λ n. n ≡ 0) stamps.new }
    ensures long { length stamps.new ≡ length stamps.old }
{
    for stamp in stamps.iter_mut() {
        *stamp = 0;
    }
}

/// The number of levels above 0 among the literals, each of which gets the stamp of this count.
fn count_levels(engine: &Engine, lits: &[Lit], stamps: &mut [u32], count: u32) -> u32
    requires room { engine.now.variables < length stamps.old }
    requires within { All (λ l. l.variable ≤ engine.now.variables) lits.now }
    requires fresh { All (λ n. n < count) stamps.old }
    ensures lbd { result ≡ min (lbd_of engine.now.trail lits.now) (2 ^ 32 - 1) }
    ensures past { All (λ n. n ≤ count) stamps.new }
    ensures long { length stamps.new ≡ length stamps.old }
{
    // There are at most as many levels as variables.
    let _ = engine.assigned();
    let mut lbd: u32 = 0;
    for lit in lits {
        let level = engine.level(lit.variable()).unwrap_or(0) as usize;
        if level > 0 && stamps[level] != count {
            stamps[level] = count;
            lbd = lbd.saturating_add(1);
        }
    }
    lbd
}
