// What is learned, read off the marks.
ghost use Rattle.std.specs.Prelude.{◌≡◌, ◌≤◌, ◌<◌, All, [], ◌∷◌, ◌++◌, OnOk, length, vec_capacity};
ghost use Rattle.analyze.specs.Analyzer.{greatest_level, chosen_reasons};
ghost use Rattle.analyze.specs.Met.{GoesAlong};
ghost use Rattle.analyze.specs.Marks.{learned_from, resolved_of};

use crate::marks::{Mark, Marking, literal_at};
use clauses::store::CRef;
use cnf::types::Lit;
use propagate::engine::Engine;
use std::alloc::AllocError;

/// Where the resolution of a clause began and ended.
#[derive(Drop)]
pub(crate) struct Derivation {
    /// The clause with which it began, the last of the hints.
    pub(crate) conflict: CRef,
    /// The literal whose negation comes first in the clause with which it ended.
    pub(crate) asserting: Lit,
}

/// The clause, its asserting literal first, the others in the order of the trail; and the reasons
/// of what was resolved, in the order of the trail, and then the conflict.
pub(crate) fn collect(
    engine: &Engine,
    derivation: &Derivation,
    marking: &Marking,
    lits: &mut Vec<Lit>,
    hints: &mut Vec<CRef>,
) -> Result<(), AllocError>
    requires along { GoesAlong engine.now marking.now.marks.items marking.now.met.items }
    requires none { lits.old.items ≡ [] }
    requires no_hints { hints.old.items ≡ [] }
    requires room { length marking.now.met.items < vec_capacity hints.old }
    ensures lits { OnOk result (lits.new.items
        ≡ learned_from engine.now.trail marking.now.marks.items derivation.now.asserting) }
    ensures hints { OnOk result (hints.new.items ≡ chosen_reasons
        (λ l. resolved_of marking.now.marks.items l.variable) engine.now.trail
        ++ derivation.now.conflict ∷ []) }
{
    let asserting = derivation.asserting;
    let marks: &[Mark] = &marking.marks;
    let met: &[u32] = &marking.met;
    lits.push(asserting.negation())?;
    for position in met {
        let lit = literal_at(engine, *position);
        let variable = lit.variable();
        let mark = marks[variable as usize];
        if mark == Mark::Kept && variable != asserting.variable() {
            lits.push(lit.negation())?;
        }
        if mark == Mark::Resolved
            && let Some(reason) = engine.reason(variable)
        {
            hints.push_reserved(reason);
        }
    }
    hints.push_reserved(derivation.conflict);
    Ok(())
}

/// The greatest level of these literals.
pub(crate) fn greatest(engine: &Engine, lits: &[Lit]) -> u32
    requires { All (λ l. l.variable ≤ engine.now.variables) lits.now }
    ensures { result ≡ greatest_level engine.now.trail lits.now }
{
    let mut greatest = 0;
    for lit in lits {
        let level = engine.level(lit.variable()).unwrap_or(0);
        if level > greatest {
            greatest = level;
        }
    }
    greatest
}
