// What a run by forms and cuts begins with: its first solution, and variables to count with.
ghost use Rattle.std.specs.Prelude.{◌≡◌, ◌<◌, ◌≤◌, ◌⊎◌, ℕ, Err, IfOk, IfErr, IfSome, length};
ghost use Rattle.std.specs.Prelude.{IfNone, IsNone, IsSomeAnd};
ghost use Rattle.cnf.specs.Problem.{Problem};
ghost use Rattle.cnf.specs.declared.limits.TheConstants.{NUMBER_LIMIT};
ghost use Rattle.improve_found.specs.Solutions.{IsSolution};
ghost use Rattle.improve_cuts.specs.ByCuts.{BeginsWith};
ghost use Rattle.report.specs.Earlier.{EndsAt, room_for};

use crate::solving::is_solution;
use cnf::limits::NUMBER_LIMIT;
use cnf::types::Instance;
use cuts_earlier::earlier::CannotResume;
use improve_found::solutions::{Solution, price};

/// The most variables to count with.
const MOST_COUNT_ROOM: usize = 1 << 20;

/// The variables to count with for each soft clause of a small instance, beyond two thousand.
const ROOM_EACH_FEW: usize = 8;

/// The variables to count with for each soft clause of a large instance, beyond ten thousand.
const ROOM_EACH_MANY: usize = 2;

/// How many variables there are to count with. Each solution decides all of them, so that there are
/// few where there is little to count.
pub(super) fn count_room(instance: &Instance) -> u32
    ensures { result ≡ room_for (length instance.now.soft) }
{
    let softs = instance.soft().len();
    let few = softs.saturating_mul(ROOM_EACH_FEW).saturating_add(2000);
    let many = softs.saturating_mul(ROOM_EACH_MANY).saturating_add(10_000);
    few.min(many).min(MOST_COUNT_ROOM) as u32
}

/// The solution that these bits are, if they are one.
pub(super) fn first_solution(instance: &Instance, start: Option<Vec<bool>>) -> Option<Solution>
    ensures solution { IfSome result (λ b. IsSolution instance.now b.bits.items b.cost) }
    ensures cost { IfSome start (λ bits. (cost : ℕ) → IsSolution instance.now bits.items cost
        → IsSomeAnd result (λ b. b.cost ≡ cost)) }
    ensures none { IfNone start (IsNone result) }
{
    match start {
        Some(bits) => {
            if is_solution(instance, &bits) {
                Some(price(instance, bits))
            } else {
                None
            }
        }
        None => None,
    }
}

/// The solution that a search begins with behind lines whose cuts hold for this.
///
/// # Errors
///
/// Those of `CannotResume`.
pub(super) fn begin_below(
    worth: u64,
    start: Option<Solution>,
) -> Result<Option<Solution>, CannotResume>
    requires { worth ≤ NUMBER_LIMIT }
    ensures some { IfOk result (λ _. 0 < worth) }
    ensures begins { (p : Problem)
        → IfSome start (λ b. IsSolution p b.bits.items b.cost)
        → IfOk result (λ first. BeginsWith p worth first) }
    ensures lacking { IfErr result
        (λ e. (cost : ℕ) → e ≡ CannotResume.Lacking cost → cost ≡ worth) }
    ensures refused { IfErr result (λ e. (worth ≡ 0) ⊎ ((worth < NUMBER_LIMIT)
        × (e ≡ CannotResume.Lacking worth) × IfSome start (λ b. worth < b.cost))) }
    ensures worthless { worth ≡ 0 → result ≡ Err CannotResume.Unfit }
{
    if worth == 0 {
        return Err(CannotResume::Unfit);
    }
    if let Some(solution) = start {
        if solution.cost <= worth {
            return Ok(Some(solution));
        }
    }
    if worth < NUMBER_LIMIT {
        return Err(CannotResume::Lacking(worth));
    }
    Ok(None)
}

/// The solution that costs nothing, if it is one: nothing is cheaper.
///
/// # Errors
///
/// `Lacking` where it is none.
pub(super) fn begin_free(start: Option<Solution>) -> Result<Option<Solution>, CannotResume>
    ensures ends { (p : Problem)
        → IfSome start (λ b. IsSolution p b.bits.items b.cost)
        → IfOk result (λ first. EndsAt p 0 first) }
    ensures lacking { IfErr result (λ e. e ≡ CannotResume.Lacking 0) }
    ensures dear { IfErr result (λ _. IfSome start (λ b. 0 < b.cost)) }
{
    match start {
        Some(solution) => {
            if solution.cost == 0 {
                Ok(Some(solution))
            } else {
                Err(CannotResume::Lacking(0))
            }
        }
        None => Err(CannotResume::Lacking(0)),
    }
}
