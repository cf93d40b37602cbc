// The name of each clause in the store, and how many additions the log has, which gives an added
// clause its name.
ghost use Rattle.std.specs.Prelude.{◌≡◌, ◌+◌, ◌<◌, [], ◌∷◌, ◌++◌, length, IfOk};
ghost use Rattle.std.specs.Prelude.{OnErr, slice_set, Some, None, All, map};
ghost use Rattle.clauses.specs.Slots.{IsLive, live_clauses};
ghost use Rattle.cnf.specs.Lrat.{IsId};
ghost use Rattle.lrat_log.specs.Log.{IsLine, number_in};
ghost use Rattle.lrat_log.specs.Steps.{added_count};
ghost use Rattle.eliminate_names.specs.Together.{live_names};
ghost use Rattle.eliminate_names.specs.Work.{name_at, added_line, delete_line, formula_names};

use crate::name_list::NameList;
use clauses::store::{CRef, Store};
use cnf::types::Lit;
use lrat_log::lines::{Hint, Kind, Name, Number};
use lrat_log::packed_name::PackedName;
use lrat_log::sink::Sink;
use std::alloc::{AllocError, Global};
use std::marker::Model;

/// The names of the clauses of a store, by reference.
#[derive(Drop)]
pub struct Names {
    // By reference, also of deleted clauses.
    names: NameList,
    // How many lines of the log add a clause; the next one is named by one more.
    additions: u64,
}

impl Model for Names {
    ghost use Rattle.eliminate_names.specs.Work.{NamesState};

    ghost Value = { NamesState };

    ghost view = { λ n. record { names = n.names; additions = n.additions } };
}

impl Names {
    /// The i-th live clause of the store has the name of the clause i of a formula.
    pub fn of(alloc: Global, store: &Store) -> Result<Self, AllocError>
        ensures named { IfOk result (λ n. n ≡ record {
          names = formula_names 1 store.now.slots;
          additions = 0;
        }) }
        ensures numbers { IfOk result (λ n. All (λ k. IsId (number_in k)) n.names) }
    {
        let mut names = NameList::with_capacity(alloc, store.places())?;
        let mut number = 1u64;
        for place in 0..store.places() {
            names.push(Name::Formula(Number::new(number)))?;
            match store.live_at(place) {
                Some(_reference) => number += 1,
                None => {}
            }
        }
        Ok(Names {
            names,
            additions: 0,
        })
    }

    /// The name of the clause with this reference.
    pub fn get(&self, reference: CRef) -> Name
        requires { reference < length self.now.names }
        ensures { result ≡ name_at self.now.names reference }
    {
        self.names.get(reference.index())
    }

    /// The names alone, by reference.
    ///
    /// # Errors
    ///
    /// `AllocError` where memory was refused: such a list may take twice the memory that they have.
    pub fn into_packed(self) -> Result<Vec<PackedName>, AllocError>
        ensures { IfOk result (λ n. n.items ≡ self.names) }
    {
        self.names.into_packed()
    }

    /// Closes the gaps that deleted clauses leave, in place: no name is written over before it was
    /// read, since what was kept ends below the place in hand.
    fn keep_live(&mut self, store: &Store)
        requires { length self.old.names ≡ length store.now.slots }
        ensures { self.new ≡ record self.old {
          names = live_names self.old.names store.now.slots;
        } }
    {
        let mut kept = 0;
        for place in 0..store.places() {
            match store.live_at(place) {
                Some(_reference) => {
                    self.names.copy(place, kept);
                    kept += 1;
                }
                None => {}
            }
        }
        self.names.shrink(kept);
    }
}

/// Moves the live clauses of the store together, and their names with them, and gives back the
/// memory that the others had. It takes none.
pub fn move_together(store: &mut Store, names: &mut Names)
    requires { length names.old.names ≡ length store.old.slots }
    ensures slots { store.new.slots ≡ map Some (live_clauses store.old.slots) }
    ensures names { names.new ≡ record names.old {
      names = live_names names.old.names store.old.slots;
    } }
{
    names.keep_live(store);
    store.move_together();
    store.shrink_to_fit();
}

/// A clause that is added, and what its line in the log says besides.
#[derive(Clone, Copy, Drop)]
pub struct Addition<'l, 'h> {
    /// What the line is for.
    pub kind: Kind,
    /// The literals of the clause.
    pub lits: &'l [Lit],
    /// The clauses by which it follows, under their names.
    pub hints: &'h [Hint],
}

/// Adds a clause to the store and its line to the log. The line comes last: where one is refused,
/// the log is as it was.
pub fn add<S: Sink>(
    store: &mut Store,
    names: &mut Names,
    sink: &mut S,
    addition: &Addition<'_, '_>,
) -> Result<CRef, AllocError>
    requires line { IsLine (record {
      kind = addition.now.kind;
      clause = addition.now.lits.now;
      hints = addition.now.hints.now;
    }) }
    requires counted { names.old.additions ≡ added_count (S.lines sink.old) }
    ensures reference { IfOk result (λ r. r ≡ length store.old.slots) }
    ensures slots { IfOk result (λ _.
        store.new.slots ≡ store.old.slots ++ Some addition.now.lits.now ∷ []) }
    ensures names { IfOk result (λ _. names.new ≡ record {
      names = names.old.names ++ added_line names.old.additions ∷ [];
      additions = names.old.additions + 1;
    }) }
    ensures lines { IfOk result (λ _. S.lines sink.new ≡ S.lines sink.old ++ record {
      kind = addition.now.kind;
      clause = addition.now.lits.now;
      hints = addition.now.hints.now;
    } ∷ []) }
    ensures err { OnErr result (S.lines sink.new ≡ S.lines sink.old) }
{
    sink.is_short();
    let name = Name::Added(Number::new(names.additions + 1));
    names.names.push(name)?;
    names.additions += 1;
    let reference = store.add(addition.lits)?;
    sink.append(addition.kind, addition.lits, addition.hints)?;
    Ok(reference)
}

/// Deletes a clause of the store, and writes the line that does.
pub fn delete<S: Sink>(
    store: &mut Store,
    names: &Names,
    sink: &mut S,
    reference: CRef,
) -> Result<(), AllocError>
    requires live { IsLive store.old.slots reference }
    requires named { reference < length names.now.names }
    requires line { IsLine (delete_line (name_at names.now.names reference)) }
    ensures slots { IfOk result (λ _. store.new.slots ≡ slice_set store.old.slots reference None) }
    ensures lines { IfOk result (λ _.
        S.lines sink.new ≡ S.lines sink.old ++ delete_line (name_at names.now.names reference) ∷
        []) }
    ensures err { OnErr result (S.lines sink.new ≡ S.lines sink.old) }
{
    let hint = Hint::Plain(names.get(reference));
    sink.append(Kind::Delete, &[], &[hint])?;
    store.delete(reference);
    Ok(())
}
