// Lower bounds by the linear relaxation, in turns: it is solved at level 0, from where the last
// turn left it; then a dive along its point looks for a solution; then branch and bound, whose cuts
// are clauses that the other parts have as well. The rows are the clauses of the instance, groups
// of them, and the counts of the cores.
//
// Some instances are closed by relaxations alone, and on others they are in the way. The conflicts
// of a turn tell which: where most of them are the relaxation's own, it gets more of the next
// round, and where few are, less. The first turn comes before any cores, and asks that halfway
// through branch and bound: where relaxations are of no use, it ends there.

use crate::root::{Fixed, Root};
use adder::relaxations::Relaxation;
use cnf::clause_list::ClauseList;
use cuts_cores::cores::Cores;
use cuts_cores::desk::{Descent, Desk, DeskFault};
use cuts_linear::branching::BranchGuide;
use cuts_linear::diving::DiveGuide;
use cuts_linear::facts::Facts;
use cuts_linear::groups::Groups;
use cuts_linear::node::Node;
use std::alloc::{AllocError, Global};

/// The coefficients that are visited in the time of a propagation.
const COEFFICIENTS: u64 = 50;

/// The fewest iterations of a turn at level 0; with fewer there is no turn.
const ROOT_LEAST: u64 = 50;

/// The most iterations at level 0 after groups were made.
const ROOT_AGAIN: u64 = 100;

/// The most work for finding groups.
const GROUP_WORK: u64 = 20_000_000;

/// The conflicts after which a dive ends.
const DIVE_CONFLICTS: u64 = 100;

/// Shares are counted in thousandths.
const PARTS: u64 = 1000;

/// The thousandths of a share that the first turn has.
const FIRST: u64 = 500;

/// The fewest thousandths of a share that a later turn has.
const LEAST: u64 = 250;

/// The most thousandths of a share that a later turn has.
const MOST: u64 = 2000;

/// The thousandths of the work of branch and bound after which the first turn may end.
const TRIAL: u64 = 500;

/// The fewest conflicts that say whether relaxations are of use here.
const FEW: u64 = 6;

/// Relaxations are of much use where more than this percentage of the conflicts are their own.
const MANY: u64 = 55;

/// Relaxations are of some use where more than this percentage of the conflicts are their own.
const SOME: u64 = 30;

/// What a turn may take.
#[derive(Clone, Copy, Drop)]
struct Effort {
    // The coefficients that may be visited in branch and bound; fewer in all that comes before.
    visits: u64,
    // The iterations that may be made at level 0, up to the most that a turn makes there.
    iterations: u64,
}

/// The relaxation from turn to turn.
#[derive(Drop)]
pub(crate) struct LinearBounds {
    // What it is of; none before the first turn.
    node: Option<Node>,
    // The groups that were found, until they get their lines.
    groups: Option<Groups>,
    // Level 0.
    root: Root,
    // Its part of a turn, from `LEAST` to `MOST` thousandths.
    part: u64,
    // The part of the other turns of a round: 500 or `PARTS` thousandths.
    others: u64,
    // How many conflicts of its turns were its own, the later ones counting more.
    own: u64,
    // How many there were in all, in the same measure.
    all: u64,
    // Whether there was a turn with branch and bound.
    has_begun: bool,
}

impl LinearBounds {
    /// No turn yet.
    pub(crate) fn new(alloc: Global) -> Self {
        LinearBounds {
            node: None,
            groups: None,
            root: Root::new(alloc),
            part: FIRST,
            others: PARTS,
            own: 0,
            all: 0,
            has_begun: false,
        }
    }

    /// The part of the other turns of a round, in thousandths.
    pub(crate) fn others(&self) -> u64 {
        self.others
    }

    /// A turn as long as one of `share` propagations.
    pub(crate) fn turn<D: Desk>(
        &mut self,
        desk: &mut D,
        weights: &[Relaxation],
        cores: &mut Cores,
        share: u64,
    ) -> Result<(), DeskFault>
        ensures follows { (first : D) → D.follows first desk.old → D.follows first desk.new }
    {
        let effort = self.effort(desk, share);
        if effort.iterations < ROOT_LEAST || desk.is_refuted() || desk.left() == 0 {
            return Ok(());
        }
        let mut node = match self.node.take() {
            Some(node) => node,
            None => self.begin(desk, weights, effort.visits / 8)?,
        };
        let ended = self.search(desk, &mut node, cores, effort);
        self.node = Some(node);
        ended
    }

    /// What a turn as long as one of `share` propagations may take. Iterations over all rows are a
    /// third of its visits at most.
    fn effort<D: Desk>(&self, desk: &D, share: u64) -> Effort {
        let visits = (share / PARTS)
            .saturating_mul(self.part)
            .saturating_mul(COEFFICIENTS);
        let size = match &self.node {
            Some(node) => node.facts.rows().coefficients() as u64,
            None => desk.size(),
        };
        let iterations = (visits / 3) / size.saturating_mul(3).saturating_add(50);
        Effort {
            visits,
            iterations: iterations.min(self.root.most()),
        }
    }

    /// What the relaxation is of before the first turn. Finding groups takes about `work` at most.
    fn begin<D: Desk>(
        &mut self,
        desk: &D,
        weights: &[Relaxation],
        work: u64,
    ) -> Result<Node, AllocError> {
        let alloc = desk.allocator();
        let formula = desk.formula()?;
        let mut facts = facts_of(alloc, formula.clauses(), weights)?;
        self.groups = Some(find_groups(desk, formula.clauses(), &mut facts, work)?);
        Ok(Node::new(alloc, facts))
    }

    /// Level 0, a dive, and branch and bound.
    fn search<D: Desk>(
        &mut self,
        desk: &mut D,
        node: &mut Node,
        cores: &mut Cores,
        effort: Effort,
    ) -> Result<(), DeskFault>
        ensures follows { (first : D) → D.follows first desk.old → D.follows first desk.new }
    {
        self.root.take_counts(desk, &mut node.facts, cores.facts())?;
        self.root.solve(desk, node, effort.iterations)?;
        self.make_groups(desk, node, effort.iterations)?;
        self.root.tell(desk, node, cores)?;
        if desk.is_refuted() {
            return Ok(());
        }
        dive(desk, node, effort.visits / 3)?;
        if self.has_begun {
            return self.branch(desk, node, cores, effort.visits);
        }
        self.has_begun = true;
        let trial = (effort.visits / PARTS).saturating_mul(TRIAL);
        self.branch(desk, node, cores, trial)?;
        if self.part < PARTS || desk.is_refuted() || desk.left() == 0 {
            return Ok(());
        }
        self.branch(desk, node, cores, effort.visits.saturating_sub(trial))
    }

    /// The groups that were found get their lines, and level 0 is solved with them, with at most
    /// `most` iterations.
    fn make_groups<D: Desk>(
        &mut self,
        desk: &mut D,
        node: &mut Node,
        most: u64,
    ) -> Result<(), DeskFault>
        ensures follows { (first : D) → D.follows first desk.old → D.follows first desk.new }
    {
        let Some(mut groups) = self.groups.take() else {
            return Ok(());
        };
        if groups.len() == 0 {
            return Ok(());
        }
        self.root.make_groups(desk, node, &mut groups)?;
        self.root.solve(desk, node, most.min(ROOT_AGAIN))?;
        Ok(())
    }

    /// Branch and bound from the point of level 0, where something can be cheaper.
    fn branch<D: Desk>(
        &mut self,
        desk: &mut D,
        node: &mut Node,
        cores: &mut Cores,
        visits: u64,
    ) -> Result<(), DeskFault>
        ensures follows { (first : D) → D.follows first desk.old → D.follows first desk.new }
    {
        if desk.cost() == 0 {
            return Ok(());
        }
        node.point.go_to(&self.root.point)?;
        let before = desk.learned();
        let mut guide = BranchGuide::new(desk.allocator(), node, desk.cost(), visits);
        let own = branch_and_bound(desk, &mut guide, cores)?;
        let learned = desk.learned().saturating_sub(before);
        self.judge(own, learned.saturating_sub(own));
        Ok(())
    }

    /// How much of the next rounds it gets, where `own` of `all` conflicts in its turn were its
    /// own. A few say nothing.
    fn judge(&mut self, own: u64, all: u64) {
        self.own = (self.own / 2).saturating_add(own);
        self.all = (self.all / 2).saturating_add(all);
        let own = self.own.saturating_mul(100);
        self.others = PARTS;
        if self.all >= FEW && own > self.all.saturating_mul(MANY) {
            self.part = MOST;
            self.others = PARTS / 2;
        } else if self.all >= FEW && own > self.all.saturating_mul(SOME) {
            self.part = PARTS;
        } else {
            self.part = (self.part / 2).max(LEAST);
        }
    }
}

/// The clauses of the instance, and what literals cost.
fn facts_of(
    alloc: Global,
    clauses: &ClauseList,
    weights: &[Relaxation],
) -> Result<Facts, AllocError> {
    let mut facts = Facts::new(alloc);
    for weight in weights {
        facts.add_cost(weight.lit, weight.weight)?;
    }
    let mut number: u64 = 0;
    for clause in clauses.iter() {
        number = number.saturating_add(1);
        facts.add_clause(number, clause)?;
    }
    Ok(facts)
}

/// The groups of these clauses, which become rows in place of those of their pairs.
fn find_groups<D: Desk>(
    desk: &D,
    clauses: &ClauseList,
    facts: &mut Facts,
    work: u64,
) -> Result<Groups, AllocError> {
    let alloc = desk.allocator();
    let mut groups = Groups::find(alloc, clauses, &Fixed { desk }, work.min(GROUP_WORK))?;
    groups.add_rows(alloc, facts)?;
    groups.cover_pairs(facts);
    Ok(groups)
}

/// Looks for a solution along the point of the relaxation of level 0.
fn dive<D: Desk>(desk: &mut D, node: &mut Node, visits: u64) -> Result<(), DeskFault>
    ensures follows { (first : D) → D.follows first desk.old → D.follows first desk.new }
{
    let has_cost = desk.has_solution();
    let mut guide = DiveGuide::new(desk.allocator(), node, has_cost, DIVE_CONFLICTS, visits)?;
    desk.descend(&mut guide)?;
    Ok(())
}

/// Searches, led by the guide, and proposes each form for which it stops. It answers how often it
/// went on.
fn branch_and_bound<'n, D: Desk>(
    desk: &mut D,
    guide: &mut BranchGuide<'n>,
    cores: &mut Cores,
) -> Result<u64, DeskFault>
    ensures follows { (first : D) → D.follows first desk.old → D.follows first desk.new }
{
    for lines in 0..u64::MAX {
        let goes_on = match desk.descend(guide)? {
            Descent::Cheaper => {
                guide.set_cost(desk.cost())?;
                desk.cost() > 0
            }
            Descent::Stopped => propose(desk, guide, cores)?,
            Descent::NoCheaper | Descent::Refuted | Descent::Spent => false,
        };
        if !goes_on {
            return Ok(lines);
        }
    }
    Ok(0)
}

/// The form for which the guide has stopped becomes the present one; answers whether there is one
/// that is right.
fn propose<'n, D: Desk>(
    desk: &mut D,
    guide: &mut BranchGuide<'n>,
    cores: &mut Cores,
) -> Result<bool, DeskFault>
    ensures follows { (first : D) → D.follows first desk.old → D.follows first desk.new }
{
    let Some(line) = guide.take_line()? else {
        return Ok(false);
    };
    cores.cite_other(desk, line.scale(), line.facts())
}
