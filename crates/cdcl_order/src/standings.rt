// What is known of the worth of learned clauses, by reference, in flat memory.
ghost use Rattle.std.specs.Prelude.{◌≡◌, []};
ghost use Rattle.cdcl_order.specs.Standings.{standing_at, with_standing, fresh, unknown, is_known};

use clauses::store::CRef;
use std::alloc::Global;
use std::marker::Model;

/// What is known of a learned clause, in eight bytes.
#[derive(Clone, Copy, Debug, PartialEq, Eq, Drop)]
pub(crate) struct ClauseStanding {
    /// Its LBD (literal block distance), the least that was counted; 2^32 - 1 where none is known.
    pub(crate) lbd: u32,
    /// How many deletions it outlives by its last use: from 0 to 2.
    pub(crate) used: u8,
}

const _: () = prove!(size_of::<ClauseStanding>() == 8);

/// A clause up to this LBD outlives two deletions by a use, any other one.
const NEAR: u32 = 6;

/// A clause up to this LBD is never deleted.
pub(crate) const KEPT: u32 = 2;

impl ClauseStanding {
    /// Nothing is known.
    fn unknown() -> Self
        ensures { result ≡ unknown }
    {
        ClauseStanding {
            lbd: u32::MAX,
            used: 0,
        }
    }

    /// A clause of this LBD that is new, or has served in an analysis.
    pub(crate) fn fresh(lbd: u32) -> Self
        ensures { result ≡ fresh lbd }
    {
        ClauseStanding {
            lbd,
            used: if lbd <= NEAR { 2 } else { 1 },
        }
    }

    /// Whether the LBD is known.
    pub(crate) fn is_known(&self) -> bool
        ensures { result ≡ is_known self.now }
    {
        self.lbd < u32::MAX
    }
}

/// A standing for each clause that was learned, from the first one on. References below it cost
/// nothing: those are the clauses of the formula.
#[derive(Drop)]
pub(crate) struct Standings {
    // The reference of the first clause that has a standing; of no meaning where none has.
    first: usize,
    // By reference from `first` on; such that were not learned are not known.
    items: Vec<ClauseStanding>,
}

impl Model for Standings {
    ghost use Rattle.cdcl_order.specs.Standings.{StandingsState};

    ghost Value = { StandingsState };

    ghost view = { λ s. record { first = s.first; items = s.items.items } };
}

impl Standings {
    /// No clause has one.
    pub(crate) fn new(alloc: Global) -> Self
        ensures { result ≡ record { first = 0; items = [] } }
    {
        Standings {
            first: 0,
            items: Vec::new(alloc),
        }
    }

    /// The standing of a clause.
    pub(crate) fn get(&self, reference: CRef) -> ClauseStanding
        ensures { result ≡ standing_at self.now reference }
    {
        let place = reference.index();
        if place < self.first {
            return ClauseStanding::unknown();
        }
        match self.items.get(place - self.first) {
            Some(standing) => *standing,
            None => ClauseStanding::unknown(),
        }
    }

    /// Changes the standing of a clause that has one.
    pub(crate) fn set(&mut self, reference: CRef, standing: ClauseStanding)
        ensures { self.new ≡ with_standing self.old reference standing }
    {
        let place = reference.index();
        if place >= self.first && place - self.first < self.items.len() {
            self.items[place - self.first] = standing;
        }
    }

    /// Gives a standing to a clause, whose reference is mostly above all others. Where memory is
    /// refused nothing is known of it.
    pub(crate) fn add(&mut self, reference: CRef, standing: ClauseStanding) {
        let place = reference.index();
        if self.items.is_empty() {
            self.first = place;
        }
        if place < self.first {
            return;
        }
        let at = place - self.first;
        if at < self.items.len() {
            self.items[at] = standing;
            return;
        }
        for _ in self.items.len()..at {
            if self.items.push(ClauseStanding::unknown()).is_err() {
                return;
            }
        }
        let _ = self.items.push(standing).is_ok();
    }

    /// Goes over to new references, both sides of which rise, the new ones without gaps.
    pub(crate) fn rename(&mut self, moves: &[(CRef, CRef)]) {
        let mut kept = 0;
        let mut first = self.first;
        for (old, new) in moves {
            if old.index() >= self.first && kept < self.items.len() {
                if kept == 0 {
                    first = new.index();
                }
                self.items[kept] = self.get(*old);
                kept += 1;
            }
        }
        self.items.truncate(kept);
        self.first = first;
    }
}
