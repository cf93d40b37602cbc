// Where a clause goes that comes while a search runs: the level to go back to.
ghost use Rattle.std.specs.Prelude.{◌≡◌, ◌≤◌, false};
ghost use Rattle.cnf.specs.Clause.{has_repeat};
ghost use Rattle.propagate.specs.Trail.{depth_of};
ghost use Rattle.propagate.specs.Fits.{IsWithin};
ghost use Rattle.cdcl_search.specs.Levelling.{IsOpenBelow, IsPlaceable};

use cnf::types::Lit;
use propagate::engine::Engine;

/// The level of a literal that is false, or else the current one.
fn level_false(engine: &Engine, lit: Lit) -> u32
    requires { lit.variable ≤ engine.now.variables }
    ensures low { result ≤ depth_of engine.now.trail }
    ensures open_below { IsOpenBelow engine.now.trail lit result }
{
    if engine.value(lit.negation()) != Some(true) {
        return engine.depth();
    }
    match engine.level(lit.variable()) {
        Some(level) => level,
        None => 0,
    }
}

/// The highest level at which the clause may be attached: the second highest of its literals'
/// levels, where one that is not false counts as one of the current level.
pub(crate) fn level_for(engine: &Engine, lits: &[Lit]) -> u32
    requires within { IsWithin engine.now.variables lits.now }
    requires once { has_repeat lits.now ≡ false }
    ensures low { result ≤ depth_of engine.now.trail }
    ensures placeable { IsPlaceable engine.now.trail lits.now result }
{
    let mut highest = 0u32;
    let mut second = 0u32;
    for lit in lits {
        let level = level_false(engine, *lit);
        if level >= highest {
            second = highest;
            highest = level;
        } else if level > second {
            second = level;
        }
    }
    second
}
