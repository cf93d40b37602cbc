// Rounds of decisions, in an order and with signs that depend on the round alone.
ghost use Rattle.std.specs.Prelude.{◌≡◌, ◌<◌, OnOk};
ghost use Rattle.cnf.specs.declared.limits.TheConstants.{VARIABLE_LIMIT};
ghost use Rattle.propagate.specs.Fits.{Fits};

use crate::faults::BenchFault;
use clauses::store::Store;
use cnf::types::Lit;
use propagate::engine::Engine;

/// What the rounds did. A propagation is a literal that came onto the trail and was no decision.
#[derive(Clone, Copy, Drop)]
pub(crate) struct RoundCounts {
    /// Rounds that were played.
    pub(crate) rounds: u64,
    /// Literals that were decided.
    pub(crate) decisions: u64,
    /// Literals that propagation put onto the trail.
    pub(crate) propagations: u64,
    /// Rounds that ended with a false clause.
    pub(crate) conflicts: u64,
}

/// The steps from round to round and from decision to decision.
const ROUND_STEP: u64 = 7919;

const DECISION_STEP: u32 = 104_729;

/// Signs by a linear congruential generator (Knuth's constants).
#[derive(Drop)]
struct Signs(u64);

impl Signs {
    fn next(&mut self) -> bool {
        self.0 = self
            .0
            .wrapping_mul(6_364_136_223_846_793_005)
            .wrapping_add(1_442_695_040_888_963_407);
        self.0 >> 63 == 1
    }
}

/// Plays `rounds` rounds.
pub(crate) fn play_rounds(
    engine: &mut Engine,
    store: &Store,
    vars: u32,
    rounds: u64,
) -> Result<RoundCounts, BenchFault>
    requires fits { Fits engine.old store.now.slots }
    requires vars { engine.old.variables ≡ vars }
    requires few { vars < VARIABLE_LIMIT }
{
    let mut counts = RoundCounts {
        rounds: 0,
        decisions: 0,
        propagations: 0,
        conflicts: 0,
    };
    if vars == 0 || engine.propagate(store)?.is_some() {
        return Ok(counts);
    }
    let mut signs = Signs(1);
    for round in 0..rounds {
        let first = round.wrapping_mul(ROUND_STEP) % u64::from(vars);
        play(engine, store, first as u32, &mut signs, &mut counts)?;
    }
    Ok(counts)
}

/// Plays one round, which begins with the variable at the place `first`, from 0, and undoes it.
fn play(
    engine: &mut Engine,
    store: &Store,
    first: u32,
    signs: &mut Signs,
    counts: &mut RoundCounts,
) -> Result<(), BenchFault>
    requires fits { Fits engine.old store.now.slots }
    requires few { engine.old.variables < VARIABLE_LIMIT }
    requires first { first < engine.old.variables }
    ensures fits { OnOk result (Fits engine.new store.now.slots) }
    ensures vars { OnOk result (engine.new.variables ≡ engine.old.variables) }
{
    let vars = engine.variables();
    let step = DECISION_STEP % vars;
    let before = engine.trail().len();
    let mut at = first;
    let mut decisions = 0u64;
    for _k in 0..vars {
        let positive = Lit::new(at + 1, false);
        at = next_place(at, step, vars);
        if engine.value(positive).is_some() {
            continue;
        }
        engine.decide(if signs.next() {
            positive.negation()
        } else {
            positive
        });
        decisions = decisions.wrapping_add(1);
        if engine.propagate(store)?.is_some() {
            counts.conflicts = counts.conflicts.wrapping_add(1);
            break;
        }
    }
    let literals = engine.trail().len().wrapping_sub(before) as u64;
    counts.rounds = counts.rounds.wrapping_add(1);
    counts.decisions = counts.decisions.wrapping_add(decisions);
    counts.propagations = counts
        .propagations
        .wrapping_add(literals.wrapping_sub(decisions));
    engine.backtrack(0);
    Ok(())
}

/// The place `step` steps on, where the places go round.
fn next_place(at: u32, step: u32, places: u32) -> u32
    requires at { at < places }
    requires step { step < places }
    requires few { places < VARIABLE_LIMIT }
    ensures { result < places }
{
    let next = at + step;
    if next < places { next } else { next - places }
}
