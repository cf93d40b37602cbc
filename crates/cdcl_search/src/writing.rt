// Clauses come to the store, the engine and the log together.
ghost use Rattle.std.specs.Prelude.{◌≡◌, ◌<◌, false, All, length, IfOk};
ghost use Rattle.std.specs.Prelude.{OnOk, OnErr};
ghost use Rattle.lrat_log.specs.declared.log.TheConstants.{LINE_LIMIT};
ghost use Rattle.cnf.specs.Lrat.{IsId};
ghost use Rattle.lrat_log.specs.Log.{is_delete, name_of, number_in};
ghost use Rattle.lrat_log.specs.Steps.{added_count};
ghost use Rattle.cdcl_search.specs.Running.{LogsLine, CanAttach, Stores};

use crate::search::Search;
use clauses::store::CRef;
use cnf::types::Lit;
use lrat_log::lines::{Hint, Kind, Name, Number};
use lrat_log::packed_name::PackedName;
use lrat_log::sink::Sink;
use std::alloc::AllocError;

impl Search {
    /// Adds a clause to the store under a name, and attaches it.
    pub(crate) fn attach_clause(&mut self, name: Name, lits: &[Lit]) -> Result<CRef, AllocError>
        requires { CanAttach self.old lits.now }
        ensures stored { OnOk result (Stores self.old self.new name lits.now) }
        ensures additions { self.new.additions ≡ self.old.additions }
        ensures reference { IfOk result (λ r. r ≡ length self.old.store.slots) }
    {
        let reference = self.store.add(lits)?;
        self.names.push(PackedName::new(name))?;
        match self.engine.attach(&self.store, reference) {
            Ok(()) => Ok(reference),
            Err(_) => Err(AllocError),
        }
    }

    /// Adds a clause that follows by these hints. Its line is written last, so that a refused
    /// growth writes none.
    pub(crate) fn add_line<S: Sink>(
        &mut self,
        sink: &mut S,
        kind: Kind,
        lits: &[Lit],
        hints: &[Hint],
    ) -> Result<CRef, AllocError>
        requires can { CanAttach self.old lits.now }
        requires adds { is_delete kind ≡ false }
        requires hints { All (λ h. IsId (number_in (name_of h))) hints.now }
        requires counted { self.old.additions ≡ added_count (S.lines sink.old) }
        requires few { self.old.additions < LINE_LIMIT }
        ensures added { OnOk result (LogsLine self.old self.new (S.lines sink.old)
            (S.lines sink.new) record {
              kind = kind;
              clause = lits.now;
              hints = hints.now;
            }) }
        ensures reference { IfOk result (λ r. r ≡ length self.old.store.slots) }
        ensures err { OnErr result (S.lines sink.new ≡ S.lines sink.old) }
        ensures follows { (first : S) → S.follows first sink.old → S.follows first sink.new }
    {
        let name = Name::Added(Number::new(self.additions + 1));
        let reference = self.attach_clause(name, lits)?;
        sink.append(kind, lits, hints)?;
        sink.is_short();
        self.additions += 1;
        Ok(reference)
    }
}
