// The local searches of a session: their tables are made when they are first asked for.
ghost use Rattle.std.specs.Prelude.{IfSome};
ghost use Rattle.improve_found.specs.Solutions.{AreFeasible};

use cnf::types::Instance;
use improve_found::solutions::Solution;
use improve_local::kinds::WalkKind;
use improve_local::walking::{Found, LocalSearch};

/// The tables of one kind.
#[derive(Drop)]
pub enum Tables {
    /// Nobody has asked for a walk yet.
    Unmade,
    /// They are there.
    Made(LocalSearch),
    /// Memory was refused for them: there is no walk of this kind.
    Refused,
}

impl Tables {
    /// Makes the tables for walks of this kind, if they were not asked for yet.
    fn make(&mut self, instance: &Instance, kind: WalkKind) {
        match self {
            Tables::Unmade => {}
            Tables::Made(_) | Tables::Refused => return,
        }
        *self = match LocalSearch::new(instance, kind) {
            Ok(search) => Tables::Made(search),
            Err(_) => Tables::Refused,
        };
    }

    /// Walks from a solution of the instance for about `visits` visits.
    fn walk(&mut self, instance: &Instance, from: &Solution, kind: WalkKind, visits: u64) -> Found
        ensures { IfSome result.better (λ b. AreFeasible instance.now b.items) }
    {
        self.make(instance, kind);
        match self {
            Tables::Made(search) => search.walk(instance, &from.bits, from.cost, visits),
            Tables::Unmade | Tables::Refused => Found {
                visits: 0,
                better: None,
            },
        }
    }
}

/// The local searches of a session.
#[derive(Drop)]
pub struct Walks {
    /// How many literals the clauses of the instance have.
    pub size: u64,
    /// How many literals and clauses the last walk has visited; 0 where there was none.
    pub visits: u64,
    // For walks whose soft clauses keep their price.
    priced: Tables,
    // For walks whose clauses only become heavier.
    growing: Tables,
}

impl Walks {
    /// No walk yet, for an instance of this size.
    pub fn new(size: u64) -> Self {
        Walks {
            size,
            visits: 0,
            priced: Tables::Unmade,
            growing: Tables::Unmade,
        }
    }

    /// Walks from a solution of the instance for about `visits` visits, and answers the bits of a
    /// cheaper one, if it meets any.
    pub fn walk(
        &mut self,
        instance: &Instance,
        from: &Solution,
        kind: WalkKind,
        visits: u64,
    ) -> Option<Vec<bool>>
        ensures { IfSome result (λ b. AreFeasible instance.now b.items) }
    {
        let found = match kind {
            WalkKind::Priced => self.priced.walk(instance, from, kind, visits),
            WalkKind::Growing => self.growing.walk(instance, from, kind, visits),
        };
        self.visits = found.visits;
        found.better
    }
}
