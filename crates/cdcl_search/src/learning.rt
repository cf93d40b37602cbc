// What a conflict teaches: an asserting clause, a line for it, and a level to backtrack to.
ghost use Rattle.std.specs.Prelude.{◌≡◌, ◌<◌, OnOk, OnErr};
ghost use Rattle.propagate.specs.Trail.{depth_of};
ghost use Rattle.propagate.specs.Fits.{IsFalseClause};
ghost use Rattle.cdcl_search.specs.Running.{Runs};
ghost use Rattle.cdcl_search.specs.Parts.{Learns};

use crate::input::Input;
use crate::search::Search;
use clauses::store::CRef;
use lrat_log::lines::Kind;
use lrat_log::sink::Sink;
use std::alloc::AllocError;

/// Learns a clause from one that is false above level 0, and backtracks to the level where the
/// learned one is unit.
pub fn learn<S: Sink>(
    search: &mut Search,
    input: &Input,
    sink: &mut S,
    conflict: CRef,
) -> Result<(), AllocError>
    requires runs { Runs search.old input.now (S.lines sink.old) }
    requires deep { 0 < depth_of search.old.engine.trail }
    requires conflict { IsFalseClause search.old.store.slots search.old.engine conflict }
    ensures learns { OnOk result
        (Learns search.old search.new input.now (S.lines sink.old) (S.lines sink.new)) }
    ensures err { OnErr result (S.lines sink.new ≡ S.lines sink.old) }
    ensures follows { (first : S) → S.follows first sink.old → S.follows first sink.new }
{
    let learned = search
        .analyzer
        .analyze(&search.engine, &search.store, conflict)?;
    let hints = search.hints_of(learned.hints.as_slice())?;
    let lbd = search.learn_from(&learned);
    search.backtrack(learned.back_level);
    let reference = search.add_line(sink, Kind::Learned, learned.lits.as_slice(), &hints)?;
    search
        .policy
        .note_learned(reference, learned.lits.as_slice().len(), lbd);
    Ok(())
}
