// Resolvents that are added to the store, each with its line.
ghost use Rattle.std.specs.Prelude.{◌≡◌, ◌<◌, List, [], ◌∷◌, false, length};
ghost use Rattle.std.specs.Prelude.{IfOk, IfSome, Some, None, if◌then◌else◌};
ghost use Rattle.cnf.specs.Literal.{Literal, negation};
ghost use Rattle.clauses.specs.Slots.{clause_at};
ghost use Rattle.cnf.specs.Clause.{is_empty_clause};
ghost use Rattle.eliminate_tables.specs.Resolvents.{resolvent};
ghost use Rattle.eliminate.specs.Simplifier.{IsOpen, Passes};
ghost use Rattle.eliminate.specs.Variables.{IsWith, GrowsWithout, IsPairResolved};
ghost use Rattle.eliminate_names.specs.Work.{name_at};

use crate::simplifier::Simplifier;
use clauses::store::{CRef, Store};
use cnf::types::Lit;
use eliminate_names::names::Names;
use eliminate_tables::resolvents::resolve;
use lrat_log::lines::{Hint, Kind};
use lrat_log::sink::Sink;
use std::alloc::AllocError;

/// Two clauses of the store that clash on a literal.
#[derive(Drop)]
pub(crate) struct Clash {
    /// The literal.
    pub(crate) pivot: Lit,
    /// A clause with the pivot.
    pub(crate) first: CRef,
    /// One with its negation.
    pub(crate) second: CRef,
}

/// Adds the resolvent of two clauses, where it has no complementary literals. The empty one ends
/// everything.
pub(crate) fn add_resolvent<S: Sink>(
    simplifier: &mut Simplifier,
    store: &mut Store,
    sink: &mut S,
    clash: &Clash,
) -> Result<Option<CRef>, AllocError>
    requires is_open { IsOpen simplifier.old store.old.slots (S.lines sink.old) }
    requires first { IsWith clash.now.pivot store.old.slots clash.now.first }
    requires second { IsWith (negation clash.now.pivot) store.old.slots clash.now.second }
    ensures passes { Passes result simplifier.old store.old.slots (S.lines sink.old)
        simplifier.new store.new.slots (S.lines sink.new) }
    ensures grows { IfOk result (λ _.
        GrowsWithout clash.now.pivot store.old.slots store.new.slots) }
    ensures resolved { IfOk result (λ _. IsPairResolved clash.now.pivot store.old.slots
        store.new.slots clash.now.first clash.now.second) }
    ensures added { IfOk result (λ added. IfSome added (λ r. (r ≡ length store.old.slots)
        × ((c d : List Literal) → clause_at store.old.slots clash.now.first ≡ Some c
        → clause_at store.old.slots clash.now.second ≡ Some d
        → clause_at store.new.slots r ≡ Some (resolvent clash.now.pivot c d)))) }
    ensures none { IfOk result (λ added. added ≡ None → simplifier.new.is_refuted ≡ false) }
{
    let is_plain = resolve(
        &mut simplifier.marks,
        clash.pivot,
        store.lits(clash.first),
        store.lits(clash.second),
        &mut simplifier.clause,
    )?;
    if !is_plain {
        return Ok(None);
    }
    let hints = parents(&simplifier.names, clash.first, clash.second);
    let kind = kind_of(&simplifier.clause);
    let reference = simplifier.add(store, sink, kind, &hints)?;
    Ok(Some(reference))
}

/// The hints of a resolvent: the names of the parent with the pivot and of the other one.
fn parents(names: &Names, first: CRef, second: CRef) -> [Hint; 2]
    requires first { first < length names.now.names }
    requires second { second < length names.now.names }
    ensures { result ≡ Hint.Plain (name_at names.now.names first)
        ∷ Hint.Plain (name_at names.now.names second) ∷ [] }
{
    [
        Hint::Plain(names.get(first)),
        Hint::Plain(names.get(second)),
    ]
}

/// What the line of a resolvent with these literals is for.
fn kind_of(lits: &[Lit]) -> Kind
    ensures { result ≡ (if is_empty_clause lits.now then Kind.Empty else Kind.Resolvent) }
{
    match lits {
        [] => Kind::Empty,
        [_, ..] => Kind::Resolvent,
    }
}
