// A log over one set of clauses, rewritten as one over another. A solver that is given bound after
// bound has a comparator for each of them among its clauses, and the certificate's formula has only
// that of the last bound. Each clause of the others has a clause of the last as a subset, so it is
// added by a line of its own, and the lines of the log name it by that line.
ghost use Rattle.std.specs.Prelude.{◌≡◌, ◌+◌, ◌<◌, length, map, All, IfOk, OnOk};
ghost use Rattle.std.specs.Prelude.{[], ◌∷◌, ◌++◌};
ghost use Rattle.cnf.specs.declared.limits.TheConstants.{NUMBER_LIMIT};
ghost use Rattle.cnf.specs.Lrat.{IsId};
ghost use Rattle.lrat_log.specs.Log.{HasSmallIds, IsLine, id_of, name_of};
ghost use Rattle.lrat_log.specs.Rebase.{KeepsLog, moved_hint, moved_line, moved_name, rebased};
ghost use Rattle.lrat_log.specs.Rebase.{weaker_line, weaker_list};

use crate::hints::HintSlice;
use crate::lines::{Hint, Kind, Name, Number};
use crate::log::{Ends, LineSlice, Log};
use crate::sink::Sink;
use cnf::types::Lit;
use std::alloc::AllocError;

/// The log of a solver that was given `fixed` clauses, then the weaker ones, then others, as a log
/// over the fixed clauses and the others: a line for each weaker clause, whose one hint is the
/// clause with its number there, and then the lines of the log, with the names moved. The clause
/// with that number has to be a subset of the weaker one.
///
/// # Errors
///
/// `AllocError` where memory was refused, or the lines would be 2^61 or more.
pub fn rebase(log: &Log, fixed: u64, weaker: &[(Vec<Lit>, u64)]) -> Result<Log, AllocError>
    requires numbers { All (λ e. IsId e.1) weaker.now }
    requires literals { All (λ e. All (λ l. IsId l.variable) (e.0).items) weaker.now }
    requires room { fixed + length weaker.now < NUMBER_LIMIT }
    requires ids { HasSmallIds (length weaker.now) log.now }
    ensures lines { IfOk result (λ new. new ≡ rebased fixed (weaker_list weaker.now) log.now) }

    // What holds of the log over the clauses that the solver was given holds of the new one over
    // those that are left.
    ensures keeps { OnOk result (KeepsLog fixed (weaker_list weaker.now) log.now) }
{
    let alloc = log.allocator();
    let count = weaker.len() as u64;
    let mut new = Log::new(alloc);
    for entry in weaker {
        append_weaker(&mut new, &entry.0, entry.1)?;
    }
    let mut hints = Vec::new(alloc);
    let mut ends = Ends { lits: 0, hints: 0 };
    for line in 0..log.len() {
        let (slice, next) = log.line_from(line, ends);
        append_moved(&mut new, &mut hints, &slice, fixed, count)?;
        ends = next;
    }
    Ok(new)
}

/// Adds the line that adds the clause, which the formula's clause with this number is a subset of.
fn append_weaker(new: &mut Log, lits: &[Lit], number: u64) -> Result<(), AllocError>
    requires literals { All (λ l. IsId l.variable) lits.now }
    requires number { IsId number }
    ensures { OnOk result (new.new ≡ new.old ++ weaker_line (lits.now, number) ∷ []) }
{
    let hint = Hint::Plain(Name::Formula(Number::new(number)));
    new.append(Kind::Weaker, lits, &[hint])
}

/// Adds a copy of the line, with its names moved.
fn append_moved(
    new: &mut Log,
    hints: &mut Vec<Hint>,
    line: &LineSlice<'_>,
    fixed: u64,
    count: u64,
) -> Result<(), AllocError>
    requires line { IsLine line.now }
    requires room { fixed + count < NUMBER_LIMIT }
    requires ids { All (λ h. id_of count (name_of h) < NUMBER_LIMIT) line.now.hints }
    ensures { OnOk result (new.new ≡ new.old ++ moved_line fixed count line.now ∷ []) }
{
    move_hints(hints, &line.hints, fixed, count)?;
    new.append(line.kind, line.lits, hints)
}

/// Fills `moved` with the hints, with their names moved.
fn move_hints(
    moved: &mut Vec<Hint>,
    hints: &HintSlice<'_>,
    fixed: u64,
    count: u64,
) -> Result<(), AllocError>
    requires room { fixed + count < NUMBER_LIMIT }
    requires ids { All (λ h. id_of count (name_of h) < NUMBER_LIMIT) hints.now }
    ensures { OnOk result (moved.new.items ≡ map (moved_hint fixed count) hints.now) }
{
    moved.clear();
    for index in 0..hints.len() {
        let hint = match hints.get(index) {
            Hint::Plain(name) => Hint::Plain(move_name(name, fixed, count)),
            Hint::Group(name) => Hint::Group(move_name(name, fixed, count)),
        };
        moved.push(hint)?;
    }
    Ok(())
}

/// The new name, where the `count` clauses after the first `fixed` ones come as lines before all
/// others.
fn move_name(name: Name, fixed: u64, count: u64) -> Name
    requires room { fixed + count < NUMBER_LIMIT }
    requires id { id_of count name < NUMBER_LIMIT }
    ensures { result ≡ moved_name fixed count name }
{
    match name {
        Name::Added(number) => Name::Added(Number::new(count + number.get())),
        Name::Formula(number) => {
            let number = number.get();
            if number <= fixed {
                Name::Formula(Number::new(number))
            } else if number <= fixed + count {
                Name::Added(Number::new(number - fixed))
            } else {
                Name::Formula(Number::new(number - count))
            }
        }
    }
}
