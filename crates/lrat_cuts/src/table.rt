// The live clauses, as forms find them.
ghost use Rattle.std.specs.Prelude.{◌≡◌};
ghost use Rattle.std.specs.Option.{option_copied};
ghost use Rattle.lrat_live.specs.Listed.{listed_at};

use cnf::types::Lit;
use forms::table::ClauseTable;
use lrat_machine::rup::RupBase;
use std::marker::Model;

/// The live clauses by their ids.
#[derive(Drop)]
pub(crate) struct LiveTable<'a> {
    /// Where they are kept.
    pub(crate) clauses: &'a RupBase,
}

impl<'a> Model for LiveTable<'a> {
    ghost use Rattle.lrat_live.specs.Listed.{Listed};

    ghost Value = { Listed };

    ghost view = { λ t. (t.clauses.now).clauses };
}

impl<'a> ClauseTable for LiveTable<'a> {
    ghost at = { listed_at };

    fn find(&self, id: u64) -> Option<&[Lit]> {
        self.clauses.find(id)
    }
}
