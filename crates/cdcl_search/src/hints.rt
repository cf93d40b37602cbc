// The hints of a line: first the clauses of one literal that it needs, then those that the search
// found.
ghost use Rattle.std.specs.Prelude.{◌≡◌, ℕ, ◌+◌, ◌<◌, ◌≤◌, true, List, [], ◌∷◌, ◌++◌, All};
ghost use Rattle.std.specs.Prelude.{Contains, IfOk, OnOk, IfSome, length, map};
ghost use Rattle.lrat_log.specs.declared.log.TheConstants.{LINE_LIMIT};
ghost use Rattle.clauses.specs.Slots.{clause_at};
ghost use Rattle.propagate.specs.Watches.{is_attached};
ghost use Rattle.cdcl_search.specs.Invariant.{name_at};
ghost use Rattle.cdcl_search.specs.Hinting.{AreTables, AreNoted, IsNotedIn, AreHintsOf};
ghost use Rattle.cdcl_search.specs.Hinting.{plain_hints};
ghost use Rattle.cdcl_search.specs.Moves.{Gathers};
ghost use Rattle.cdcl_search.specs.Running.{IsReady};

use crate::search::Search;
use clauses::store::{CRef, MaybeCRef, Store};
use lrat_log::lines::Hint;
use lrat_log::packed_name::PackedName;
use propagate::engine::Engine;
use std::alloc::AllocError;

impl Search {
    /// The hints by which the next line follows that needs these clauses: before them the unit
    /// clauses of the literals of level 0 whose negations stand in them, each once.
    pub(crate) fn hints_of(&mut self, references: &[CRef]) -> Result<Vec<Hint>, AllocError>
        requires ready { IsReady self.old }
        requires past { All (λ n. n ≤ self.old.additions) self.old.stamps.items }
        requires few { self.old.additions < LINE_LIMIT }
        requires attached { All (λ r. is_attached self.old.engine r ≡ true) references.now }
        requires noted { AreNoted self.old.store.slots self.old.units.items self.old.engine.trail
            references.now }
        ensures hints { IfOk result (λ hints. AreHintsOf self.old.store.slots self.old.names.items
            self.old.engine.trail references.now hints.items) }
        ensures only_stamps { self.new ≡ record self.old { stamps = self.new.stamps } }
        ensures past { All (λ n. n ≤ self.old.additions + 1) self.new.stamps.items }
        ensures ready { IsReady self.new }
    {
        let sources = Sources {
            store: &self.store,
            engine: &self.engine,
            names: &self.names,
            units: &self.units,
        };
        gather(&sources, &mut self.stamps, self.additions + 1, references)
    }
}

/// Where the hints of a line are found.
#[derive(Drop)]
struct Sources<'a> {
    /// The live clauses.
    store: &'a Store,
    /// The trail.
    engine: &'a Engine,
    /// The name of the clause in each place of the store.
    names: &'a [PackedName],
    /// By variable, that of 1 first: the reference of its clause of one literal, or none.
    units: &'a [MaybeCRef],
}

/// The hints of a line that needs these clauses. A stamp by variable says which were met.
fn gather(
    sources: &Sources<'_>,
    stamps: &mut [u64],
    stamp: u64,
    references: &[CRef],
) -> Result<Vec<Hint>, AllocError>
    requires tables { AreTables sources.now.engine.now sources.now.store.now.slots
        sources.now.names.now sources.now.units.now stamps.old }
    requires past { All (λ n. n < stamp) stamps.old }
    requires attached { All (λ r. is_attached sources.now.engine.now r ≡ true) references.now }
    requires noted { AreNoted sources.now.store.now.slots sources.now.units.now
        sources.now.engine.now.trail references.now }
    ensures hints { IfOk result (λ hints.
        AreHintsOf sources.now.store.now.slots sources.now.names.now
        sources.now.engine.now.trail references.now hints.items) }
    ensures past { All (λ n. n ≤ stamp) stamps.new }
    ensures long { length stamps.new ≡ length stamps.old }
{
    let mut hints = Vec::new(sources.store.allocator());
    for reference in references {
        add_units(&mut hints, sources, stamps, stamp, *reference)?;
    }
    add_named(&mut hints, sources.names, references)?;
    Ok(hints)
}

/// Adds the unit clauses of the literals of level 0 whose negations stand in this clause, where
/// they were not met before.
fn add_units(
    hints: &mut Vec<Hint>,
    sources: &Sources<'_>,
    stamps: &mut [u64],
    stamp: u64,
    reference: CRef,
) -> Result<(), AllocError>
    requires tables { AreTables sources.now.engine.now sources.now.store.now.slots
        sources.now.names.now sources.now.units.now stamps.old }
    requires past { All (λ n. n ≤ stamp) stamps.old }
    requires attached { is_attached sources.now.engine.now reference ≡ true }
    requires noted { IfSome (clause_at sources.now.store.now.slots reference)
        (IsNotedIn sources.now.store.now.slots sources.now.units.now
        sources.now.engine.now.trail) }
    ensures gathers { OnOk result ((all done : List ℕ) → Contains all reference
        → Gathers sources.now.store.now.slots sources.now.names.now sources.now.units.now
        sources.now.engine.now.trail stamp all done [] stamps.old hints.old.items
        → Gathers sources.now.store.now.slots sources.now.names.now sources.now.units.now
        sources.now.engine.now.trail stamp all
        (done ++ reference ∷ []) [] stamps.new hints.new.items) }
    ensures past { All (λ n. n ≤ stamp) stamps.new }
{
    let engine = sources.engine;
    let names = sources.names;
    let units = sources.units;
    for lit in sources.store.lits(reference) {
        let variable = lit.variable();
        let place = variable as usize - 1;
        if engine.level(variable) == Some(0)
            && stamps[place] < stamp
            && engine.value(*lit) == Some(false)
        {
            stamps[place] = stamp;
            match units[place].get() {
                Some(unit) => hints.push(Hint::Plain(names[unit.index()].name()))?,
                None => unreachable!(),
            }
        }
    }
    Ok(())
}

/// Adds these clauses, by name.
fn add_named(
    hints: &mut Vec<Hint>,
    names: &[PackedName],
    references: &[CRef],
) -> Result<(), AllocError>
    requires { All (λ r. r < length names.now) references.now }
    ensures { OnOk result (hints.new.items
        ≡ hints.old.items ++ plain_hints (map (name_at names.now) references.now)) }
{
    hints.reserve(references.len())?;
    for reference in references {
        hints.push(Hint::Plain(names[reference.index()].name()))?;
    }
    Ok(())
}
