// The rounds of the search: cores, then walks from the best solution, then solutions below it, each
// for a share of work that grows from round to round. Some instances are closed by cores alone, and
// some only from above (Ansótegui, Bonet and Levy, "SAT-based MaxSAT algorithms", 2013, compare the
// two). A part that closed a tenth of the gap between cost and bound gets up to twice its share in
// the next round.
//
// A turn of the relaxation comes before the first cores: where its bound is tight, as on schedules,
// timetables and packages, the search ends there, in a fraction of what cores would take.
//
// Work is counted in propagations: where one conflict takes thousands of them, turns by conflicts
// were a second long, and walks came too late (a roster of 60 nurses: 801 after 3 s).
//
// The cores' form is the bound under which solutions are looked for. A solution that is no cheaper
// shows that the form leaves cost unsaid: then counts grow; and where that takes too much, the cost
// itself is the form until the round's end.
ghost use Rattle.std.specs.Prelude.{◌≡◌, ◌⊎◌, OnOk};

use crate::bounding::BoundGuide;
use crate::linear_bounds::LinearBounds;
use crate::walks::Walks;
use adder::relaxations::Relaxation;
use cdcl_search::assumptions::{Assumptions, Passed, Share};
use cuts_cores::cores::{Cores, Course};
use cuts_cores::desk::{Descent, Desk, DeskFault};
use cuts_cores::tables::set;
use std::alloc::{AllocError, Global};

/// About how many literals each of the first turns assigns.
const FIRST: u64 = 300_000;

/// About how many literals the first turns of a search that goes on assign for each clause that was
/// learned before: with the first shares of a new search again, bounds of rosters fell behind.
const EACH_LEARNED: u64 = 6;

/// About how many literals the first turn that looks for a first solution assigns.
const FIRST_SOLUTION: u64 = 150_000;

/// Shares are counted in thousandths.
const PARTS: u64 = 1000;

/// The most thousandths of the share of a round that a part that pays gets.
const MOST: u64 = 2000;

/// What the parts of a round get of its share, from `PARTS` to `MOST` thousandths.
#[derive(Drop)]
struct Parts {
    // The search for cores.
    cores: u64,
    // That for cheaper solutions.
    descents: u64,
}

/// What a part gets in the next round, where there was such a gap before its turn, and after it.
fn judge(part: u64, before: u64, after: u64) -> u64 {
    if before.saturating_sub(after) > before / 10 {
        (part.saturating_mul(3) / 2).min(MOST)
    } else {
        (part.saturating_mul(7) / 10).max(PARTS)
    }
}

/// `part` thousandths of a share.
fn part_of(share: u64, part: u64) -> u64 {
    (share / PARTS).saturating_mul(part)
}

/// Searches until nothing is cheaper than the best solution, or the budget is spent. `weights` are
/// the literals that cost something, with what they cost. Where the desk has counts already, its
/// cores begin with those. Each round costs a unit at least.
///
/// # Errors
///
/// Those of `Desk`.
pub fn search<D: Desk>(desk: &mut D, weights: &[Relaxation]) -> Result<(), DeskFault>
    ensures ended { OnOk result (D.refuted desk.new ⊎ (D.left desk.new ≡ 0)) }
    ensures follows { (first : D) → D.follows first desk.old → D.follows first desk.new }
{
    let mut rounds = Rounds::new(desk, weights)?;
    rounds.run(desk)
}

/// What goes on from round to round.
#[derive(Drop)]
struct Rounds<'w> {
    // The literals that cost something, with what they cost.
    weights: &'w [Relaxation],
    // The search for cores.
    cores: Cores,
    // The linear relaxation.
    linear: LinearBounds,
    // The walks.
    walks: Walks,
    // What the parts of the next round get.
    parts: Parts,
}

impl<'w> Rounds<'w> {
    /// Before the first round, with the cores of the counts that the desk has.
    fn new<D: Desk>(desk: &D, weights: &'w [Relaxation]) -> Result<Self, AllocError> {
        Ok(Rounds {
            weights,
            cores: Cores::new(desk, weights)?,
            linear: LinearBounds::new(desk.allocator()),
            walks: Walks::new(),
            parts: Parts {
                cores: PARTS,
                descents: PARTS,
            },
        })
    }

    /// A first solution, a turn of the relaxation, and then rounds, until nothing is cheaper than
    /// the best solution, or the budget is spent.
    fn run<D: Desk>(&mut self, desk: &mut D) -> Result<(), DeskFault>
        ensures ended { OnOk result (D.refuted desk.new ⊎ (D.left desk.new ≡ 0)) }
        ensures follows { (first : D) → D.follows first desk.old → D.follows first desk.new }
    {
        self.begin(desk)?;
        self.walks.begin(desk)?;
        let mut share = FIRST.max(desk.learned().saturating_mul(EACH_LEARNED));
        self.linear
            .turn(desk, self.weights, &mut self.cores, share)?;
        let mut left = desk.left();
        while left > 0 {
            if desk.is_refuted() {
                return Ok(());
            }
            self.round(desk, share)?;
            share = share.saturating_add(share / 2);
            desk.charge(left - 1);
            left = desk.left();
        }
        Ok(())
    }

    /// Decisions try the best solution first. Where there is none, a first one is looked for: by
    /// decisions that try what costs nothing, and by plain ones, in turns with the relaxation.
    fn begin<D: Desk>(&mut self, desk: &mut D) -> Result<(), DeskFault>
        ensures follows { (first : D) → D.follows first desk.old → D.follows first desk.new }
    {
        if desk.has_solution() {
            desk.suggest_best();
            if desk.learned() > 0 {
                // What lines before have fixed gets its value: no cut says it again.
                search_freely(desk, 0)?;
            }
            return Ok(());
        }
        let alloc = desk.allocator();
        let cheap = cheap_values(alloc, self.weights, desk.last())?;
        let plain = Vec::from_elem(alloc, false, cheap.len())?;
        let mut share = FIRST_SOLUTION;
        for turn in 0..u64::MAX {
            let values = if turn % 2 == 0 { &cheap } else { &plain };
            desk.suggest(values);
            search_freely(desk, share)?;
            if has_begun(desk) {
                break;
            }
            self.linear
                .turn(desk, self.weights, &mut self.cores, share)?;
            if has_begun(desk) {
                break;
            }
            share = share.saturating_add(share / 2);
        }
        Ok(())
    }

    /// What the best solution costs beyond what the cores are worth.
    fn gap<D: Desk>(&self, desk: &D) -> u64 {
        desk.cost().saturating_sub(self.cores.lower())
    }

    /// Cores, then walks, the relaxation, and solutions, for a share of propagations each.
    fn round<D: Desk>(&mut self, desk: &mut D, share: u64) -> Result<(), DeskFault>
        ensures follows { (first : D) → D.follows first desk.old → D.follows first desk.new }
    {
        let before = self.gap(desk);
        let others = part_of(share, self.linear.others());
        let course = self.cores.turn(desk, part_of(others, self.parts.cores))?;
        self.parts.cores = judge(self.parts.cores, before, self.gap(desk));
        match course {
            Course::GoesOn | Course::Over => {
                self.walks.turn(desk, share)?;
                self.linear
                    .turn(desk, self.weights, &mut self.cores, share)?;
                let before = self.gap(desk);
                descend(desk, &mut self.cores, part_of(others, self.parts.descents))?;
                self.parts.descents = judge(self.parts.descents, before, self.gap(desk));
            }
            Course::Ended => {}
        }
        self.cores.tell_bound(desk)
    }
}

/// Whether there is a first solution, or none to look for.
fn has_begun<D: Desk>(desk: &D) -> bool {
    desk.has_solution() || desk.is_refuted() || desk.left() == 0
}

/// Looks for any solution, for `share` propagations.
fn search_freely<D: Desk>(desk: &mut D, share: u64) -> Result<(), DeskFault>
    ensures follows { (first : D) → D.follows first desk.old → D.follows first desk.new }
{
    let alloc = desk.allocator();
    let until = Share {
        learned: u64::MAX,
        decisions: u64::MAX,
        until: desk.propagations().saturating_add(share),
    };
    let mut free = Assumptions::new(alloc, Vec::new(alloc), until, Passed::new(alloc, 0));
    desk.assume(&mut free)?;
    Ok(())
}

/// By variable, that of 1 first: the value that costs nothing, where the other one does.
fn cheap_values(alloc: Global, weights: &[Relaxation], last: u32) -> Result<Vec<bool>, AllocError> {
    let mut values = Vec::from_elem(alloc, false, last as usize)?;
    for weight in weights {
        let place = (weight.lit.variable() as usize).saturating_sub(1);
        set(&mut values, place, weight.lit.is_negated());
    }
    Ok(values)
}

/// Looks for solutions below the best one, until about `share` literals were assigned.
fn descend<D: Desk>(desk: &mut D, cores: &mut Cores, share: u64) -> Result<(), DeskFault>
    ensures follows { (first : D) → D.follows first desk.old → D.follows first desk.new }
{
    let mut until = desk.propagations().saturating_add(share);
    cores.cite_cores(desk)?;
    for _ in 0..u64::MAX {
        if desk.propagations() >= until || !descend_once(desk, cores, &mut until)? {
            return Ok(());
        }
    }
    Ok(())
}

/// Looks for a solution below the best one, until there were `until` propagations; answers whether
/// to go on from where that has led.
fn descend_once<D: Desk>(
    desk: &mut D,
    cores: &mut Cores,
    until: &mut u64,
) -> Result<bool, DeskFault>
    ensures follows { (first : D) → D.follows first desk.old → D.follows first desk.new }
{
    let Some(mut guide) = BoundGuide::new(desk, *until)? else {
        desk.cut(&[])?;
        return Ok(false);
    };
    desk.suggest_best();
    let descent = desk.descend(&mut guide)?;
    *until = guide.until();
    match descent {
        Descent::Cheaper => Ok(true),
        Descent::NoCheaper => cores.mend_form(desk),
        Descent::Refuted | Descent::Stopped | Descent::Spent => Ok(false),
    }
}
