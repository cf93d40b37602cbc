// Groups of literals of which at most one is true: cliques of clauses of two literals. The row of a
// group says more than those of its pairs, of which halves are enough; so pigeons in holes and
// courses in rooms are closed by relaxations.
//
// Cliques are found greedily: a literal with many neighbours comes first, and takes of them those
// that all of its clique so far exclude, again those with many neighbours first. The work is
// bounded: a dense instance has as many cliques as one likes, and most are of no use. So each is at
// first a row without a line of the certificate, and gets one where its multiplier is above 0 at
// level 0.
use crate::facts::Facts;
use crate::tables::{at, set};
use cnf::clause_list::ClauseList;
use cnf::types::Lit;
use lp::values::Values;
use std::alloc::{AllocError, Global};

/// The most literals that a clique has.
const LARGEST: usize = 100;

/// The work that a look at a pair counts as.
const PAIR: u64 = 4;

/// Two literals of which at most one is true, seen from one of them.
#[derive(Clone, Copy, Drop)]
struct Edge {
    // The one.
    from: Lit,
    // The other one.
    to: Lit,
    // The number of the clause that says so, from 1.
    clause: u32,
}

/// A clique.
#[derive(Drop)]
struct Group {
    // Its literals.
    members: Vec<Lit>,
    // The number of its row.
    row: u32,
    // Whether it takes part.
    is_kept: bool,
}

/// The cliques of some clauses.
#[derive(Drop)]
pub struct Groups {
    // Both sides of each clause of two literals, in the order of `from` and then of `to`.
    edges: Vec<Edge>,
    // By index of a literal: where its edges begin; and where the last ones end.
    starts: Vec<usize>,
    // By clause, from 0, which none has: whether its pair needs no further clique.
    covered: Vec<bool>,
    // The cliques that were found.
    groups: Vec<Group>,
    // What may still be spent on finding them.
    work: u64,
}

impl Groups {
    /// The cliques of these clauses, whose numbers are from 1, among the literals that are open;
    /// `work` is about what may be spent on finding them.
    ///
    /// # Errors
    ///
    /// `AllocError` where memory was refused.
    pub fn find<V: Values>(
        alloc: Global,
        clauses: &ClauseList,
        values: &V,
        work: u64,
    ) -> Result<Self, AllocError> {
        let mut groups = Groups {
            edges: Vec::new(alloc),
            starts: Vec::new(alloc),
            covered: Vec::from_elem(alloc, false, clauses.len().saturating_add(1))?,
            groups: Vec::new(alloc),
            work,
        };
        groups.take_edges(clauses, values)?;
        groups.find_all(alloc)?;
        Ok(groups)
    }

    /// How many there are.
    pub fn len(&self) -> usize {
        self.groups.len()
    }

    /// Each becomes a row.
    ///
    /// # Errors
    ///
    /// `AllocError` where memory was refused.
    pub fn add_rows(&mut self, alloc: Global, facts: &mut Facts) -> Result<(), AllocError> {
        for group in self.groups.iter_mut() {
            group.row = facts.add_group(alloc, &group.members)?;
        }
        Ok(())
    }

    /// The number of its row.
    pub fn row(&self, place: usize) -> u32 {
        match self.groups.get(place) {
            Some(group) => group.row,
            None => u32::MAX,
        }
    }

    /// The literals of a group; none where there is no such group.
    pub fn lits(&self, place: usize) -> &[Lit] {
        match self.groups.get(place) {
            Some(group) => &group.members,
            None => &[],
        }
    }

    /// The numbers of the clauses of a group: for the pairs (1, 2), (1, 3), (2, 3), (1, 4), .. of
    /// its literals in turn.
    ///
    /// # Errors
    ///
    /// `AllocError` where memory was refused.
    pub fn ids(&self, alloc: Global, place: usize) -> Result<Vec<u64>, AllocError> {
        let mut ids = Vec::new(alloc);
        let lits = self.lits(place);
        for (last, to) in lits.iter().enumerate() {
            for from in lits.get(..last).unwrap_or(&[]) {
                ids.push(u64::from(self.clause(*from, *to)))?;
            }
        }
        Ok(ids)
    }

    /// A group takes part no more.
    pub fn leave_out(&mut self, place: usize, facts: &mut Facts) {
        if let Some(group) = self.groups.get_mut(place) {
            group.is_kept = false;
            facts.set_asleep(group.row, true);
        }
    }

    /// The rows of the pairs of those that take part are put to sleep, and those of other pairs are
    /// awake. The row of the clause with number 1 is row 0, and so on.
    pub fn cover_pairs(&mut self, facts: &mut Facts) {
        for place in 0..self.covered.len() {
            set(&mut self.covered, place, false);
        }
        for place in 0..self.groups.len() {
            self.cover(place);
        }
        for edge in &self.edges {
            let is_covered = at(&self.covered, edge.clause as usize);
            facts.set_asleep(edge.clause.saturating_sub(1), is_covered);
        }
    }

    // Notes the pairs of a group that takes part.
    fn cover(&mut self, place: usize) {
        let Some(group) = self.groups.get(place) else {
            return;
        };
        if !group.is_kept {
            return;
        }
        for (last, to) in group.members.iter().enumerate() {
            for from in group.members.get(..last).unwrap_or(&[]) {
                let clause = pair(&self.edges, &self.starts, *from, *to);
                set(&mut self.covered, clause as usize, true);
            }
        }
    }

    // Takes the clauses of two open literals.
    fn take_edges<V: Values>(
        &mut self,
        clauses: &ClauseList,
        values: &V,
    ) -> Result<(), AllocError> {
        let mut clause: u32 = 0;
        let mut last: usize = 0;
        for lits in clauses.iter() {
            clause = clause.saturating_add(1);
            if let Some((from, to)) = open_pair(lits, values) {
                last = last.max(from.index()).max(to.index());
                self.add_edges(from, to, clause)?;
            }
        }
        self.edges
            .sort_by_key(|edge| (edge.from.index(), edge.to.index()))?;
        self.starts.resize(last.saturating_add(2), 0)?;
        self.fill_starts();
        Ok(())
    }

    // Both sides of a clause.
    fn add_edges(&mut self, from: Lit, to: Lit, clause: u32) -> Result<(), AllocError> {
        self.edges.push(Edge { from, to, clause })?;
        self.edges.push(Edge {
            from: to,
            to: from,
            clause,
        })?;
        Ok(())
    }

    // Where the edges of each literal begin: first how many there are before each, then sums.
    fn fill_starts(&mut self) {
        for edge in &self.edges {
            let next = edge.from.index().saturating_add(1);
            let count = at(&self.starts, next).saturating_add(1);
            set(&mut self.starts, next, count);
        }
        let mut sum: usize = 0;
        for place in 0..self.starts.len() {
            sum = sum.saturating_add(at(&self.starts, place));
            set(&mut self.starts, place, sum);
        }
    }

    // The edges from a literal.
    fn around(&self, from: Lit) -> &[Edge] {
        around(&self.edges, &self.starts, from)
    }

    // The number of the clause by which at most one of both is true; 0 where there is none.
    fn clause(&self, from: Lit, to: Lit) -> u32 {
        pair(&self.edges, &self.starts, from, to)
    }

    // Finds cliques, those around literals with many neighbours first.
    fn find_all(&mut self, alloc: Global) -> Result<(), AllocError> {
        let order = self.centers(alloc)?;
        let mut near = Vec::new(alloc);
        for from in &order {
            if self.work == 0 {
                break;
            }
            self.find_around(alloc, *from, &mut near)?;
        }
        Ok(())
    }

    // The literals with more than one neighbour, those with many first.
    fn centers(&self, alloc: Global) -> Result<Vec<Lit>, AllocError> {
        let mut order: Vec<Lit> = Vec::new(alloc);
        for edge in &self.edges {
            let is_new = order.last().copied() != Some(edge.from);
            if is_new && self.around(edge.from).len() > 1 {
                order.push(edge.from)?;
            }
        }
        order.sort_by_key(|from| usize::MAX.saturating_sub(self.around(*from).len()))?;
        Ok(order)
    }

    // Finds cliques around a literal, those with neighbours that have many first; `near` is for
    // its edges.
    fn find_around(
        &mut self,
        alloc: Global,
        from: Lit,
        near: &mut Vec<Edge>,
    ) -> Result<(), AllocError> {
        near.clear();
        near.extend_from_slice(self.around(from))?;
        near.sort_by_key(|edge| usize::MAX.saturating_sub(self.around(edge.to).len()))?;
        for first in 0..near.len() {
            if self.work == 0 {
                break;
            }
            self.find_one(alloc, near, first)?;
        }
        Ok(())
    }

    // Finds the clique around an edge, among those from the same literal.
    fn find_one(&mut self, alloc: Global, near: &[Edge], first: usize) -> Result<(), AllocError> {
        let Some(edge) = near.get(first).copied() else {
            return Ok(());
        };
        if at(&self.covered, edge.clause as usize) {
            return Ok(());
        }
        let members = self.members(alloc, near, edge.from, edge.to)?;
        set(&mut self.covered, edge.clause as usize, true);
        if members.len() < 3 {
            return Ok(());
        }
        let all = members.len() as u64;
        self.work = self
            .work
            .saturating_sub(all.saturating_mul(all).saturating_mul(PAIR));
        let place = self.groups.len();
        self.groups.push(Group {
            members,
            row: u32::MAX,
            is_kept: true,
        })?;
        self.cover(place);
        Ok(())
    }

    // The ends of an edge, and of the neighbours those that exclude each other.
    fn members(
        &mut self,
        alloc: Global,
        near: &[Edge],
        from: Lit,
        to: Lit,
    ) -> Result<Vec<Lit>, AllocError> {
        let mut members = Vec::from_slice(alloc, &[from, to])?;
        self.work = self.work.saturating_sub(near.len() as u64);
        for other in near {
            if members.len() < LARGEST && self.excludes_all(other.to, &members) {
                members.push(other.to)?;
            }
        }
        Ok(members)
    }

    // Whether no member is true beside this literal, which is a neighbour of the first one.
    fn excludes_all(&mut self, to: Lit, members: &[Lit]) -> bool {
        for member in members.get(1..).unwrap_or(&[]) {
            self.work = self.work.saturating_sub(PAIR);
            if self.clause(*member, to) == 0 {
                return false;
            }
        }
        true
    }
}

/// The negations of a clause of two literals that are open.
fn open_pair<V: Values>(lits: &[Lit], values: &V) -> Option<(Lit, Lit)> {
    match lits {
        [first, second] if values.value(*first).is_none() && values.value(*second).is_none() => {
            Some((first.negation(), second.negation()))
        }
        _ => None,
    }
}

/// The edges from a literal.
fn around<'e>(edges: &'e [Edge], starts: &[usize], from: Lit) -> &'e [Edge] {
    let start = at(starts, from.index());
    let end = at(starts, from.index().saturating_add(1));
    edges.get(start..end).unwrap_or(&[])
}

/// The number of the clause by which at most one of both is true; 0 where there is none.
fn pair(edges: &[Edge], starts: &[usize], from: Lit, to: Lit) -> u32 {
    let near = around(edges, starts, from);
    match near.binary_search_by_key(&to.index(), |edge| edge.to.index()) {
        Ok(place) => match near.get(place) {
            Some(edge) => edge.clause,
            None => 0,
        },
        Err(_) => 0,
    }
}
