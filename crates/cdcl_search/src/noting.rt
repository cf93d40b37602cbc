// What is true at level 0 is written down as clauses of one literal, so that later lines may use it
// as hints.
ghost use Rattle.std.specs.Prelude.{◌≡◌, ◌<◌, length, OnOk, OnErr};
ghost use Rattle.propagate.specs.Trail.{depth_of};
ghost use Rattle.propagate.specs.Fits.{IsFalseClause};
ghost use Rattle.cdcl_search.specs.Running.{Runs, IsEnded};
ghost use Rattle.cdcl_search.specs.Parts.{LearnsNothing, NotesAll, NotesNext};

use crate::input::Input;
use crate::search::Search;
use clauses::store::{CRef, MaybeCRef};
use lrat_log::lines::Kind;
use lrat_log::sink::Sink;
use std::alloc::AllocError;

/// Writes down what is true at level 0, if that is the current level; above it that is done.
pub fn note_level<S: Sink>(
    search: &mut Search,
    input: &Input,
    sink: &mut S,
) -> Result<(), AllocError>
    requires runs { Runs search.old input.now (S.lines sink.old) }
    ensures notes { LearnsNothing result
        (NotesAll search.old search.new input.now (S.lines sink.new)) input.now
        (S.lines sink.old) (S.lines sink.new) }
    ensures follows { (first : S) → S.follows first sink.old → S.follows first sink.new }
{
    if search.engine.depth() > 0 {
        return Ok(());
    }
    note_units(search, input, sink)
}

/// Writes a Unit line for each literal of level 0 that has none, in the order of the trail.
fn note_units<S: Sink>(search: &mut Search, input: &Input, sink: &mut S) -> Result<(), AllocError>
    requires runs { Runs search.old input.now (S.lines sink.old) }
    requires flat { depth_of search.old.engine.trail ≡ 0 }
    ensures notes { LearnsNothing result
        (NotesAll search.old search.new input.now (S.lines sink.new)) input.now
        (S.lines sink.old) (S.lines sink.new) }
    ensures follows { (first : S) → S.follows first sink.old → S.follows first sink.new }
{
    while search.noted < search.engine.assigned() {
        note_unit(search, input, sink)?;
    }
    Ok(())
}

/// Writes a Unit line for the next literal of level 0: by its reason, and the unit clauses of the
/// literals before it.
fn note_unit<S: Sink>(search: &mut Search, input: &Input, sink: &mut S) -> Result<(), AllocError>
    requires runs { Runs search.old input.now (S.lines sink.old) }
    requires flat { depth_of search.old.engine.trail ≡ 0 }
    requires next { search.old.noted < length search.old.engine.trail }
    ensures notes { OnOk result
        (NotesNext search.old search.new input.now (S.lines sink.old) (S.lines sink.new)) }
    ensures err { OnErr result (S.lines sink.new ≡ S.lines sink.old) }
    ensures follows { (first : S) → S.follows first sink.old → S.follows first sink.new }
{
    let lit = search.engine.trail()[search.noted];
    let place = lit.variable() as usize - 1;
    let Some(reason) = search.engine.reason(lit.variable()) else {
        unreachable!()
    };
    let hints = search.hints_of(&[reason])?;
    let unit = search.add_line(sink, Kind::Unit, &[lit], &hints)?;
    search.units[place] = MaybeCRef::new(Some(unit));
    search.noted += 1;
    Ok(())
}

/// Writes the Empty line, by a clause that is false at level 0.
pub fn write_empty<S: Sink>(
    search: &mut Search,
    input: &Input,
    sink: &mut S,
    conflict: CRef,
) -> Result<(), AllocError>
    requires runs { Runs search.old input.now (S.lines sink.old) }
    requires flat { depth_of search.old.engine.trail ≡ 0 }
    requires conflict { IsFalseClause search.old.store.slots search.old.engine conflict }
    ensures refutes { LearnsNothing result (IsEnded input.now (S.lines sink.new)) input.now
        (S.lines sink.old) (S.lines sink.new) }
    ensures follows { (first : S) → S.follows first sink.old → S.follows first sink.new }
{
    note_units(search, input, sink)?;
    let hints = search.hints_of(&[conflict])?;
    sink.append(Kind::Empty, &[], &hints)
}
