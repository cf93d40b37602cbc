// The walks between the turns of the search: from the best solution, one whose soft clauses keep
// their price, and one whose clauses only become heavier, with weights that last from turn to turn.
// Each kind finds on some instances what the other does not. It gets a greater part of the turn
// where it found something, and a smaller one where not.
//
// A walk costs no unit of the budget, so the propagations limit the visits of all walks together. A
// visit takes some 13 ns, and a propagation some 170 with all that goes with it.

use cuts_cores::desk::{Desk, DeskFault};
use improve_local::kinds::WalkKind;

/// The visits that go with each propagation of the other parts of a turn.
const VISITS: u64 = 13;

/// The part of a turn's visits that priced walks make at first, in thousandths.
const FIRST_PRICED: u64 = 100;

/// The part of a turn's visits that growing walks make at first, in thousandths.
const FIRST_GROWING: u64 = 200;

/// The greatest part of a turn's visits for one kind, in thousandths.
const MOST: u64 = 700;

/// The least part of a turn's visits for one kind, in thousandths.
const LEAST: u64 = 80;

/// Parts are counted in thousandths.
const PARTS: u64 = 1000;

/// The fewest visits of a priced walk for each literal of the instance, up to half of the visits of
/// a turn.
const LEAST_PRICED: u64 = 40;

/// The fewest visits of a growing walk for each literal, up to half of the visits of a turn.
const LEAST_GROWING: u64 = 20;

/// The most visits of a walk for each literal.
const MOST_EACH: u64 = 1000;

/// The visits for each literal in the walk from a first solution: enough to have a cost by which
/// the first cores can fix literals, and few compared with what those take.
const FIRST_EACH: u64 = 20;

/// The most visits of the walk from a first solution, beyond those that propagations allow.
const FIRST: u64 = 1_000_000;

/// The visits for each literal in the priced walk after the first cores.
const BEGINNING_EACH: u64 = 120;

/// The most visits of the priced walk after the first cores, beyond those that propagations allow.
const BEGINNING: u64 = 10_000_000;

/// All walks may make as many visits as if there were this many propagations more.
const BEFORE: u64 = 15_000;

/// The walks of one kind.
#[derive(Drop)]
struct Way {
    // How they weigh the clauses.
    kind: WalkKind,
    // Their part of the visits of a turn, from `LEAST` to `MOST` thousandths.
    part: u64,
    // The fewest visits for each literal of the instance: one of the constants.
    least: u64,
}

impl Way {
    /// How many visits a walk is to make, where the turns have about `share` propagations each.
    fn visits(&self, size: u64, share: u64) -> u64 {
        let turn = share.saturating_mul(VISITS);
        let part = (turn / PARTS).saturating_mul(self.part);
        let least = size.saturating_mul(self.least).min(turn / 2);
        part.max(least).min(size.saturating_mul(MOST_EACH))
    }

    /// The part grows where a walk has gained, and shrinks where not.
    fn judge(&mut self, has_gained: bool) {
        self.part = if has_gained {
            self.part.saturating_mul(2).min(MOST)
        } else {
            (self.part / 2).max(LEAST)
        };
    }
}

/// The walks so far.
#[derive(Drop)]
pub(crate) struct Walks {
    // Those whose soft clauses keep their price.
    priced: Way,
    // Those whose clauses only become heavier.
    growing: Way,
    // How many visits those made that go with propagations, from 0.
    visits: u64,
    // Whether there was one after the first cores.
    has_begun: bool,
}

impl Walks {
    /// No walk yet.
    pub(crate) fn new() -> Self {
        Walks {
            priced: Way {
                kind: WalkKind::Priced,
                part: FIRST_PRICED,
                least: LEAST_PRICED,
            },
            growing: Way {
                kind: WalkKind::Growing,
                part: FIRST_GROWING,
                least: LEAST_GROWING,
            },
            visits: 0,
            has_begun: false,
        }
    }

    /// A short priced walk, from a first solution.
    pub(crate) fn begin<D: Desk>(&mut self, desk: &mut D) -> Result<(), DeskFault>
        ensures follows { (first : D) → D.follows first desk.old → D.follows first desk.new }
    {
        let most = desk.size().saturating_mul(FIRST_EACH);
        walk_for(desk, &mut self.priced, most.min(FIRST))?;
        Ok(())
    }

    /// A walk of each kind, as one of the turns that have about `share` propagations each.
    pub(crate) fn turn<D: Desk>(&mut self, desk: &mut D, share: u64) -> Result<(), DeskFault>
        ensures follows { (first : D) → D.follows first desk.old → D.follows first desk.new }
    {
        if self.has_begun {
            walk(desk, &mut self.priced, &mut self.visits, share)?;
        } else {
            self.has_begun = true;
            let most = desk.size().saturating_mul(BEGINNING_EACH);
            walk_for(desk, &mut self.priced, most.min(BEGINNING))?;
        }
        walk(desk, &mut self.growing, &mut self.visits, share)
    }
}

/// A walk of this kind; `made` are the visits of all walks that go with propagations.
fn walk<D: Desk>(desk: &mut D, way: &mut Way, made: &mut u64, share: u64) -> Result<(), DeskFault>
    ensures follows { (first : D) → D.follows first desk.old → D.follows first desk.new }
{
    let propagations = desk.propagations().saturating_add(BEFORE);
    let left = propagations.saturating_mul(VISITS).saturating_sub(*made);
    let visits = way.visits(desk.size(), share).min(left);
    let walked = walk_for(desk, way, visits)?;
    *made = made.saturating_add(walked);
    Ok(())
}

/// A walk of this kind for about `visits` visits; answers how many it made.
fn walk_for<D: Desk>(desk: &mut D, way: &mut Way, visits: u64) -> Result<u64, DeskFault>
    ensures follows { (first : D) → D.follows first desk.old → D.follows first desk.new }
{
    let walked = desk.walk(way.kind, visits)?;
    if walked.visits > 0 {
        way.judge(walked.is_cheaper);
    }
    Ok(walked.visits)
}
