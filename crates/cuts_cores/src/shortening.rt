// A core is shortened, as its count and the bound grow with its length: the search is repeated with
// the core as its assumptions while it shrinks (core trimming, as in RC2: Ignatiev, Morgado and
// Marques-Silva, "RC2: an efficient MaxSAT solver", 2019), and then each literal in turn is left
// out, and the others are assumed for a few conflicts (deletion-based extraction of minimal cores).
// Each core that a search ends with is a clause of the log.

use crate::desk::{Desk, DeskFault, Trial};
use crate::items::Items;
use cdcl_search::assumptions::{Assumptions, Passed, Share};
use cnf::types::Lit;
use std::alloc::{AllocError, Global};

/// The most times that a core is searched again.
const AGAIN: u32 = 5;

/// The most conflicts each time that a core is searched again.
const AGAIN_CONFLICTS: u64 = 1000;

/// A core of more literals is not shortened literal by literal.
const LONG: usize = 500;

/// The most conflicts of a search without one literal.
const WITHOUT_ONE: u64 = 50;

/// About the most conflicts of all searches without one literal of the same core.
const WITHOUT_EACH: u64 = 10 * WITHOUT_ONE;

/// The decisions, in addition to the assumptions, after which a search that shortens ends.
const DECISIONS: u64 = 20;

/// What is left of a core.
#[derive(Drop)]
pub(crate) enum Shortened {
    /// One of these literals is true, as a clause of the log says.
    Core(Vec<Lit>),
    /// No core was found in time.
    Open,
    /// Nothing is cheaper than the best solution, or nothing is left of the budget.
    Ended,
}

/// A core as short as the effort allows. Of what explains an assumption that a search has passed
/// over, no clause of the log says that it is a core, so it is searched again at least once.
pub(crate) fn shorten<D: Desk>(
    desk: &mut D,
    items: &mut Items,
    core: &[Lit],
) -> Result<Shortened, DeskFault>
    ensures follows { (first : D) → D.follows first desk.old → D.follows first desk.new }
{
    let core = Vec::from_slice(desk.allocator(), core)?;
    match search_again(desk, items, core)? {
        Shortened::Core(shorter) => leave_out_each(desk, items, shorter),
        other => Ok(other),
    }
}

/// Searches under the core while it shrinks. The dearest is assumed first, so what is left is
/// worth much.
fn search_again<D: Desk>(
    desk: &mut D,
    items: &Items,
    first: Vec<Lit>,
) -> Result<Shortened, DeskFault>
    ensures follows { (first : D) → D.follows first desk.old → D.follows first desk.new }
{
    let mut core = first;
    let mut is_shown = false;
    for _ in 0..AGAIN {
        match search_under(desk, items, &mut core)? {
            Shortened::Core(shorter) => {
                let shrinks = shorter.len() < core.len();
                is_shown = true;
                core = shorter;
                if !shrinks || core.len() < 2 {
                    break;
                }
            }
            Shortened::Open => break,
            Shortened::Ended => return Ok(Shortened::Ended),
        }
    }
    if is_shown {
        Ok(Shortened::Core(core))
    } else {
        Ok(Shortened::Open)
    }
}

/// Searches under the core once, the dearest first.
fn search_under<D: Desk>(
    desk: &mut D,
    items: &Items,
    core: &mut Vec<Lit>,
) -> Result<Shortened, DeskFault>
    ensures follows { (first : D) → D.follows first desk.old → D.follows first desk.new }
{
    let share = Share {
        learned: AGAIN_CONFLICTS,
        decisions: u64::MAX,
        until: u64::MAX,
    };
    core.sort_by_key(|lit| u64::MAX.saturating_sub(items.rest(*lit)))?;
    find_core(desk, core, core.len(), share)
}

/// Leaves out each literal that is not needed, the cheapest first.
fn leave_out_each<D: Desk>(
    desk: &mut D,
    items: &mut Items,
    first: Vec<Lit>,
) -> Result<Shortened, DeskFault>
    ensures follows { (first : D) → D.follows first desk.old → D.follows first desk.new }
{
    let mut core = first;
    if core.len() < 2 || core.len() > LONG {
        return Ok(Shortened::Core(core));
    }
    sort_cheapest_first(items, &mut core)?;
    let start = desk.learned();
    // Those before this place are needed.
    let mut place: usize = 0;
    for _ in 0..LONG {
        let spent = desk.learned().saturating_sub(start);
        if place >= core.len() || core.len() < 2 || spent > WITHOUT_EACH {
            break;
        }
        match leave_out(desk, items, &mut core, place)? {
            Some(next) => place = next,
            None => return Ok(Shortened::Ended),
        }
    }
    Ok(Shortened::Core(core))
}

/// Leaves out the literal at a place, if it is not needed; answers the place of the next one, and
/// nothing where the search has ended.
fn leave_out<D: Desk>(
    desk: &mut D,
    items: &mut Items,
    core: &mut Vec<Lit>,
    place: usize,
) -> Result<Option<usize>, DeskFault>
    ensures follows { (first : D) → D.follows first desk.old → D.follows first desk.new }
{
    let share = Share {
        learned: WITHOUT_ONE,
        decisions: DECISIONS,
        until: u64::MAX,
    };
    match find_core(desk, core, place, share)? {
        Shortened::Core(needed) => Ok(Some(items.keep_needed(core, &needed, place))),
        Shortened::Open => Ok(Some(place.saturating_add(1))),
        Shortened::Ended => Ok(None),
    }
}

/// Those with the least rest come first.
fn sort_cheapest_first(items: &Items, core: &mut Vec<Lit>) -> Result<(), AllocError> {
    core.sort_by_key(|lit| items.rest(*lit))
}

/// A core among these literals, without the one at a place, where there is one.
fn find_core<D: Desk>(
    desk: &mut D,
    lits: &[Lit],
    without: usize,
    share: Share,
) -> Result<Shortened, DeskFault>
    ensures follows { (first : D) → D.follows first desk.old → D.follows first desk.new }
{
    let alloc = desk.allocator();
    let assumed = negations_without(alloc, lits, without)?;
    let mut guide = Assumptions::new(alloc, assumed, share, Passed::new(alloc, 0));
    let trial = desk.assume(&mut guide);
    // By a call: that is proved once, and not field by field at each exit.
    drop(guide);
    match trial? {
        Trial::Core(core) => Ok(Shortened::Core(negations(alloc, &core)?)),
        Trial::Met | Trial::Stopped => Ok(Shortened::Open),
        Trial::Refuted | Trial::Spent => Ok(Shortened::Ended),
    }
}

/// The negations of the literals.
pub(crate) fn negations(alloc: Global, lits: &[Lit]) -> Result<Vec<Lit>, AllocError> {
    negations_without(alloc, lits, lits.len())
}

/// The negations of the literals, but for the one at a place, where there is one.
fn negations_without(alloc: Global, lits: &[Lit], without: usize) -> Result<Vec<Lit>, AllocError> {
    let mut negations = Vec::with_capacity(alloc, lits.len())?;
    for (place, lit) in lits.iter().enumerate() {
        if place != without {
            negations.push(lit.negation())?;
        }
    }
    Ok(negations)
}
