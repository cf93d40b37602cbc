// The present form as a bound of the search, as pseudo-Boolean solvers use theirs (Chai and
// Kuehlmann, "A fast pseudo-Boolean constraint solver", 2003): where what is true already costs
// too much, that is a conflict, and its clause is a cut.
//
// What would be too much beside what is true is false: the bound implies that. It is decided, the
// dearest first, on a level of its own, and no reason is made for it. Where analysis ends at such a
// decision, what is learned makes the literal true, and the cut is the next conflict: so a reason
// is made where it is asked for. Against conflicts alone that takes 0.92 of the conflicts, and 0.74
// on networks (docs/EXPERIMENTS.md).
//
// The sum is kept by the trail: what comes to the trail is looked at once, and what leaves it is
// taken off again. A cut has the first costly literals of the trail that are too much together,
// without those that it can do without. Its length is what the certificate pays for, and those of
// high levels are left out first.
ghost use Rattle.std.specs.Prelude.{◌<◌, ⊤};
ghost use Rattle.cnf.specs.declared.limits.TheConstants.{VARIABLE_LIMIT};

use cdcl_search::guide::{Advice, Guide};
use cdcl_search::search::Search;
use cnf::types::Lit;
use cuts_cores::desk::{Desk, DeskFault};
use cuts_cores::tables::{at, set};
use std::alloc::{AllocError, Global};

/// A literal of a cut counts as this many propagations: its text, its mark in the analysis and its
/// place in a learned clause. On 16,000 soft clauses nine tenths of the time went there.
const EACH: u64 = 1;

/// A literal of the trail that costs something.
#[derive(Clone, Copy, Drop)]
struct Paid {
    // Its place on the trail, from 0.
    place: usize,
    // What it costs, from 1.
    weight: u64,
}

/// A bound of what the true literals cost together.
#[derive(Drop)]
pub(crate) struct BoundGuide {
    // By literal: what it costs where it is true, up to one more than the limit.
    weights: Vec<u64>,
    // More than this is too much; any number from 0.
    limit: u64,
    // How many literals of the trail were looked at, up to all.
    seen: usize,
    // What the costly ones among them cost together, from 0.
    sum: u128,
    // The costly ones among them, in the order of the trail.
    paid: Vec<Paid>,
    // The literals that cost something, the dearest first.
    costly: Vec<Lit>,
    // Of those before this place each has a value.
    next: usize,
    // The last cut: literals that are false; none before the first one.
    cut: Vec<Lit>,
    // At how many propagations of the search it stops, less `EACH` for each literal of a cut; at 0
    // it stops at once.
    until: u64,
}

impl BoundGuide {
    /// The present form as a bound, until there were `until` propagations: what is cheaper than the
    /// best solution stays below it. None where nothing does.
    pub(crate) fn new<D: Desk>(desk: &D, until: u64) -> Result<Option<Self>, AllocError> {
        let Some(limit) = limit_below_best(desk) else {
            return Ok(None);
        };
        let alloc = desk.allocator();
        let weights = open_weights(desk, limit.saturating_add(1))?;
        Ok(Some(BoundGuide {
            costly: dearest_first(desk, &weights)?,
            weights,
            limit,
            seen: 0,
            sum: 0,
            paid: Vec::new(alloc),
            next: 0,
            cut: Vec::new(alloc),
            until,
        }))
    }

    /// At how many propagations of the search it stops.
    pub(crate) fn until(&self) -> u64 {
        self.until
    }

    /// Looks at what came to the trail.
    fn look(&mut self, trail: &[Lit]) -> Result<(), AllocError> {
        for place in self.seen..trail.len() {
            let lit = at(trail, place);
            let weight = at(&self.weights, lit.index());
            if weight > 0 {
                self.sum = self.sum.saturating_add(weight as u128);
                self.paid.push(Paid { place, weight })?;
            }
        }
        self.seen = trail.len();
        Ok(())
    }

    /// The dearest literal without a value, where it is too much beside what is true.
    fn too_dear(&mut self, search: &Search) -> Option<Lit> {
        let room = (self.limit as u128).saturating_sub(self.sum);
        for place in self.next..self.costly.len() {
            let lit = at(&self.costly, place);
            if at(&self.weights, lit.index()) as u128 <= room {
                return None;
            }
            if is_open(search, lit) {
                return Some(lit);
            }
            self.next = place;
        }
        None
    }

    /// How many of the first costly literals are too much together, and by how much more than need
    /// be.
    fn enough(&self) -> (usize, u128) {
        let limit = self.limit as u128;
        let mut sum: u128 = 0;
        let mut count: usize = 0;
        for paid in &self.paid {
            if sum > limit {
                break;
            }
            sum = sum.saturating_add(paid.weight as u128);
            count = count.saturating_add(1);
        }
        (count, sum.saturating_sub(limit).saturating_sub(1))
    }

    /// Makes the cut of what is too much; answers of how many levels its literals are. What is true
    /// at level 0 stands first on the trail, and is no part of it.
    fn make_cut(&mut self, search: &Search) -> Result<u32, AllocError> {
        let trail = search.engine.trail();
        let fixed = search.engine.first_above(0);
        let (count, mut slack) = self.enough();
        let mut level: Option<u32> = None;
        let mut levels: u32 = 0;
        self.cut.clear();
        for back in 0..count {
            let place = count.saturating_sub(back).saturating_sub(1);
            let Some(paid) = self.paid.get(place).copied() else {
                break;
            };
            if paid.place < fixed {
                break;
            }
            if paid.weight as u128 <= slack {
                slack = slack.saturating_sub(paid.weight as u128);
                continue;
            }
            let lit = at(trail, paid.place);
            self.cut.push(lit.negation())?;
            let own = level_of(search, lit);
            if own != level {
                level = own;
                levels = levels.saturating_add(1);
            }
        }
        Ok(levels)
    }
}

/// Fixes false what is too dear beside the least value of the present form; where that is too much
/// itself, nothing is cheaper than the best solution.
pub(crate) fn fix_dear<D: Desk>(desk: &mut D) -> Result<(), DeskFault>
    ensures follows { (first : D) → D.follows first desk.old → D.follows first desk.new }
{
    let Some(limit) = limit_below_best(desk) else {
        desk.cut(&[])?;
        return Ok(());
    };
    let weights = open_weights(desk, limit.saturating_add(1))?;
    for variable in 1..desk.forms().variables().saturating_add(1) {
        fix_variable(desk, &weights, limit, variable)?;
    }
    Ok(())
}

/// Fixes a literal of this variable false, if its weight is above the limit.
fn fix_variable<D: Desk>(
    desk: &mut D,
    weights: &[u64],
    limit: u64,
    variable: u32,
) -> Result<(), DeskFault>
    requires { (0 < variable) × (variable < VARIABLE_LIMIT) }
    ensures follows { (first : D) → D.follows first desk.old → D.follows first desk.new }
{
    let lit = Lit::new(variable, false);
    if at(weights, lit.index()) > limit {
        desk.cut(&[lit.negation()])?;
    }
    if at(weights, lit.negation().index()) > limit {
        desk.cut(&[lit])?;
    }
    Ok(())
}

/// How much of the present form may be true, beside its least value, in what is cheaper than the
/// best solution. None where nothing can be.
fn limit_below_best<D: Desk>(desk: &D) -> Option<u64> {
    let cost = desk.cost().checked_sub(1)?;
    let most = (desk.forms().scale() as u128).saturating_mul(cost as u128);
    let least = desk.forms().least();
    let room = if least < 0 {
        most.saturating_add(least.unsigned_abs())
    } else {
        most.checked_sub(least.unsigned_abs())?
    };
    Some(u64::try_from(room).unwrap_or(u64::MAX))
}

/// By literal: what it adds to the least value of the present form where it is true, and no more
/// than this much. Variables that have a value add nothing.
fn open_weights<D: Desk>(desk: &D, most: u64) -> Result<Vec<u64>, AllocError> {
    let forms = desk.forms();
    let last = forms.variables();
    let mut weights = Vec::from_elem(desk.allocator(), 0, (last as usize).saturating_mul(2))?;
    for variable in 1..last.saturating_add(1) {
        let coefficient = forms.coefficient(variable);
        if coefficient == 0 || forms.value(variable).is_some() {
            continue;
        }
        let lit = Lit::new(variable, coefficient < 0);
        let weight = u64::try_from(coefficient.unsigned_abs()).unwrap_or(u64::MAX);
        set(&mut weights, lit.index(), weight.min(most));
    }
    Ok(weights)
}

/// The literals that cost something by these weights, the dearest first.
fn dearest_first<D: Desk>(desk: &D, weights: &[u64]) -> Result<Vec<Lit>, AllocError> {
    let mut costly = Vec::new(desk.allocator());
    for variable in 1..desk.forms().variables().saturating_add(1) {
        let lit = Lit::new(variable, false);
        if at(weights, lit.index()) > 0 {
            costly.push(lit)?;
        }
        if at(weights, lit.negation().index()) > 0 {
            costly.push(lit.negation())?;
        }
    }
    costly.sort_by_key(|lit| u64::MAX.saturating_sub(at(weights, lit.index())))?;
    Ok(costly)
}

/// Whether the literal has no value, and may get one.
fn is_open(search: &Search, lit: Lit) -> bool {
    lit.variable() <= search.engine.variables() && search.engine.value(lit).is_none()
}

/// The level of the literal, if it has one.
fn level_of(search: &Search, lit: Lit) -> Option<u32> {
    if lit.variable() > search.engine.variables() {
        return None;
    }
    search.engine.level(lit.variable())
}

impl Guide for BoundGuide {
    ghost follows = { λ _ _. ⊤ };

    fn advise(&mut self, search: &Search) -> Result<Advice, AllocError> {
        if search.policy.propagations() >= self.until {
            return Ok(Advice::Stop);
        }
        self.look(search.engine.trail())?;
        if self.sum <= self.limit as u128 {
            return Ok(match self.too_dear(search) {
                Some(lit) => Advice::Decide(lit.negation()),
                None => Advice::Free,
            });
        }
        let levels = self.make_cut(search)?;
        let work = (self.cut.len() as u64).saturating_mul(EACH);
        self.until = self.until.saturating_sub(work);
        Ok(Advice::Cut(Some(levels)))
    }

    fn cut(&self) -> &[Lit] {
        &self.cut
    }

    fn refused(&mut self) {
        self.until = 0;
    }

    fn went_back(&mut self, assigned: usize) {
        for _ in 0..self.paid.len() {
            match self.paid.last() {
                Some(paid) if paid.place >= assigned => {
                    self.sum = self.sum.saturating_sub(paid.weight as u128);
                }
                _ => break,
            }
            self.paid.pop();
        }
        self.seen = self.seen.min(assigned);
        self.next = 0;
    }
}
