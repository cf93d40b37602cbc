// The counts of the cores. Of the literals of a core at least one is true, so the first output of
// its count is; each further one that is true costs what the core is worth (OLL: Andres, Kaufmann,
// Matheis and Schaub 2012). A count has two outputs at first, and gets the next one once the last
// is in a core itself (as in RC2: Ignatiev, Morgado and Marques-Silva 2019), or true in a solution
// of which the form says too little.
//
// Counts are made once the stratum has no further core (weight-aware core extraction: Berg and
// Järvisalo, "Weight-Aware Core Extraction in SAT-Based MaxSAT Solving", 2017), and new outputs
// wait for the stratum's next solution.

use crate::citing::Citing;
use crate::desk::{Desk, DeskFault};
use crate::items::Items;
use crate::shortening::negations;
use adder::relaxations::Relaxation;
use cdcl_search::assumptions::{Assumptions, Passed, Share};
use cnf::types::Lit;
use std::alloc::{AllocError, Global};

/// About the most clauses that outputs for one solution make.
const GROWTH: usize = 100_000;

/// The most conflicts to show that the first output of a count is true.
const SHOW_CONFLICTS: u64 = 1000;

/// A core.
#[derive(Drop)]
struct Core {
    // What it is worth, from 1; from the second on, each output of its count costs as much.
    weight: u64,
    // Two literals or more, of which one is true.
    lits: Vec<Lit>,
    // The number of its count, from 1; 0 where it has none.
    count: u64,
}

/// A count that has too few outputs.
#[derive(Clone, Copy, Drop)]
struct Lack {
    // The place of its core, from 0.
    core: usize,
    // How many outputs it should have: more than it has.
    outputs: usize,
}

/// The cores with their counts.
#[derive(Drop)]
pub(crate) struct Counting {
    // All cores so far.
    cores: Vec<Core>,
    // Those before this place, from 0, have their counts, but where there was no room for one.
    counted: usize,
    // Outputs that wait for the stratum's next solution, each with what it costs, from 1.
    fresh: Vec<Relaxation>,
    // The form of the cores.
    pub(crate) citing: Citing,
}

impl Counting {
    /// No core yet, where such a bound was told.
    pub(crate) fn new(alloc: Global, told: u64) -> Self {
        Counting {
            cores: Vec::new(alloc),
            counted: 0,
            fresh: Vec::new(alloc),
            citing: Citing::new(alloc, told),
        }
    }

    /// Whether cores wait for their counts, or outputs to be assumed.
    pub(crate) fn waits(&self) -> bool {
        self.counted < self.cores.len() || !self.fresh.is_empty()
    }

    /// A core of at least two literals that waits for its count.
    pub(crate) fn add(&mut self, lits: Vec<Lit>, weight: u64) -> Result<(), AllocError> {
        self.cores.push(Core {
            weight,
            lits,
            count: 0,
        })?;
        Ok(())
    }

    /// A core of these literals, at least two, that has the count with this number; answers its
    /// place. None waits for a count.
    pub(crate) fn add_counted(
        &mut self,
        lits: Vec<Lit>,
        weight: u64,
        number: u64,
    ) -> Result<usize, AllocError> {
        let place = self.cores.len();
        self.cores.push(Core {
            weight,
            lits,
            count: number,
        })?;
        self.counted = self.cores.len();
        self.citing.add(weight, number)?;
        Ok(place)
    }

    /// Makes the counts of the cores that wait for them; answers what those are worth together for
    /// which there was no room.
    pub(crate) fn flush<D: Desk>(
        &mut self,
        desk: &mut D,
        items: &mut Items,
    ) -> Result<u64, DeskFault>
        ensures follows { (first : D) → D.follows first desk.old → D.follows first desk.new }
    {
        let mut lost: u64 = 0;
        for place in self.counted..self.cores.len() {
            lost = lost.saturating_add(self.make_count(desk, items, place)?);
        }
        self.counted = self.cores.len();
        Ok(lost)
    }

    /// Makes the count of a core, and shows that its first output is true; answers what the core is
    /// worth if there was no room.
    fn make_count<D: Desk>(
        &mut self,
        desk: &mut D,
        items: &mut Items,
        place: usize,
    ) -> Result<u64, DeskFault>
        ensures follows { (first : D) → D.follows first desk.old → D.follows first desk.new }
    {
        let Some(core) = self.cores.get_mut(place) else {
            return Ok(0);
        };
        let weight = core.weight;
        let Some(number) = desk.count(2, &core.lits)? else {
            return Ok(weight);
        };
        core.count = number;
        self.citing.add(weight, number)?;
        let first = output(desk, number, 0);
        let second = output(desk, number, 1);
        if let Some(second) = second {
            self.add_output(items, second, place)?;
        }
        if let Some(first) = first {
            show(desk, first)?;
        }
        Ok(0)
    }

    /// An output that costs what the core in this place is worth.
    fn add_output(&mut self, items: &mut Items, lit: Lit, place: usize) -> Result<(), AllocError> {
        items.set_origin(lit, place);
        if let Some(core) = self.cores.get(place) {
            self.fresh.push(Relaxation {
                lit,
                weight: core.weight,
            })?;
        }
        Ok(())
    }

    /// Where the literal is the last output of a count, that gets one more.
    pub(crate) fn grow_after<D: Desk>(
        &mut self,
        desk: &mut D,
        items: &mut Items,
        lit: Lit,
    ) -> Result<(), DeskFault>
        ensures follows { (first : D) → D.follows first desk.old → D.follows first desk.new }
    {
        let Some(place) = items.origin(lit) else {
            return Ok(());
        };
        let Some(core) = self.cores.get(place) else {
            return Ok(());
        };
        let last = outputs(desk, core.count).saturating_sub(1);
        if output(desk, core.count, last) == Some(lit) {
            self.grow(desk, items, place)?;
        }
        Ok(())
    }

    /// One more output of a core's count; answers whether there is one.
    fn grow<D: Desk>(
        &mut self,
        desk: &mut D,
        items: &mut Items,
        place: usize,
    ) -> Result<bool, DeskFault>
        ensures follows { (first : D) → D.follows first desk.old → D.follows first desk.new }
    {
        let Some(core) = self.cores.get(place) else {
            return Ok(false);
        };
        let Some(output) = desk.more(core.count)? else {
            return Ok(false);
        };
        self.add_output(items, output, place)?;
        Ok(true)
    }

    /// Makes outputs for the solution that the search has ended at, so that the form says what it
    /// costs. Answers whether some came: none do where too many would have to.
    pub(crate) fn grow_for_solution<D: Desk>(
        &mut self,
        desk: &mut D,
        items: &mut Items,
    ) -> Result<bool, DeskFault>
        ensures follows { (first : D) → D.follows first desk.old → D.follows first desk.new }
    {
        let lacks = self.lacks(desk)?;
        let mut is_grown = false;
        for place in 0..lacks.len() {
            let Some(lack) = lacks.get(place).copied() else {
                break;
            };
            for _ in outputs(desk, self.count_of(lack.core))..lack.outputs {
                if !self.grow(desk, items, lack.core)? {
                    return Ok(is_grown);
                }
                is_grown = true;
            }
        }
        Ok(is_grown)
    }

    /// The number of a core's count, from 1; 0 where it has none.
    fn count_of(&self, place: usize) -> u64 {
        match self.cores.get(place) {
            Some(core) => core.count,
            None => 0,
        }
    }

    /// The counts that have fewer outputs than literals that are true where the search has ended;
    /// none where what they lack is too much.
    fn lacks<D: Desk>(&self, desk: &D) -> Result<Vec<Lack>, AllocError> {
        let mut lacks = Vec::new(desk.allocator());
        let mut clauses: usize = 0;
        for (place, core) in self.cores.iter().enumerate() {
            let has = outputs(desk, core.count);
            let wants = count_true(desk, &core.lits);
            if core.count == 0 || wants <= has {
                continue;
            }
            let more = wants.saturating_sub(has).saturating_mul(core.lits.len());
            clauses = clauses.saturating_add(more);
            if clauses > GROWTH {
                lacks.clear();
                break;
            }
            lacks.push(Lack {
                core: place,
                outputs: wants,
            })?;
        }
        Ok(lacks)
    }

    /// Outputs that waited are assumed from now on.
    pub(crate) fn release(&mut self, items: &mut Items) -> Result<(), AllocError> {
        for output in &self.fresh {
            items.credit(output.lit, output.weight)?;
        }
        self.fresh.clear();
        Ok(())
    }
}

/// How many of the literals are true where the search has ended.
fn count_true<D: Desk>(desk: &D, lits: &[Lit]) -> usize {
    let mut count: usize = 0;
    for lit in lits {
        if desk.value(*lit) == Some(true) {
            count = count.saturating_add(1);
        }
    }
    count
}

/// How many outputs the count with this number has.
fn outputs<D: Desk>(desk: &D, number: u64) -> usize {
    desk.forms().outputs(number).unwrap_or(&[]).len()
}

/// The output at a place, from 0, of the count with this number.
fn output<D: Desk>(desk: &D, number: u64, place: usize) -> Option<Lit> {
    let outputs = desk.forms().outputs(number).unwrap_or(&[]);
    outputs.get(place).copied()
}

/// Shows that the literal is true. Propagation alone does so, unless the clause of its core was
/// deleted meanwhile.
fn show<D: Desk>(desk: &mut D, lit: Lit) -> Result<(), DeskFault>
    ensures follows { (first : D) → D.follows first desk.old → D.follows first desk.new }
{
    refute(desk, lit, 0)?;
    refute(desk, lit, SHOW_CONFLICTS)
}

/// Searches where the literal is false for about `conflicts` conflicts, unless it has a value.
fn refute<D: Desk>(desk: &mut D, lit: Lit, conflicts: u64) -> Result<(), DeskFault>
    ensures follows { (first : D) → D.follows first desk.old → D.follows first desk.new }
{
    if desk.fixed(lit).is_some() {
        return Ok(());
    }
    let alloc = desk.allocator();
    let assumed = negations(alloc, &[lit])?;
    let share = Share {
        learned: conflicts,
        decisions: u64::MAX,
        until: u64::MAX,
    };
    let mut guide = Assumptions::new(alloc, assumed, share, Passed::new(alloc, 0));
    let trial = desk.assume(&mut guide);
    // By a call: that is proved once, and not field by field at each exit.
    drop(guide);
    trial?;
    Ok(())
}
