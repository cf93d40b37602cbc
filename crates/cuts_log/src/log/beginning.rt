// A log before its first line.
ghost use Rattle.std.specs.Prelude.{◌≡◌, ◌<◌, ◌≤◌, All, IfOk, map, sum_by};
ghost use Rattle.cnf.specs.declared.limits.TheConstants.{NUMBER_LIMIT};
ghost use Rattle.adder.specs.Network.{relaxed_variables};
ghost use Rattle.adder.specs.Parts.{weight_in};
ghost use Rattle.adder.specs.declared.profiles.Profile.TheVariants.{Two};
ghost use Rattle.bound.specs.Weighted.{weighted_cnf, weights_of};
ghost use Rattle.cuts_log.specs.Stands.{stand_of};

use crate::given::FormulaClauses;
use crate::standing::Standing;
use adder::relaxations::Relaxation;
use cnf::types::{Formula, Instance};
use forms::state::Forms;
use std::alloc::AllocError;

/// What the first line finds: the clauses of the formula are live, and nothing else was said.
pub(super) fn standing_of(
    instance: &Instance,
    formula: &Formula,
    weights: &[Relaxation],
) -> Result<Standing, AllocError>
    requires formula { formula.now ≡ weighted_cnf instance.now }
    requires weights { map weight_in weights.now ≡ weights_of instance.now }
    requires within { All (λ r. r.lit.variable ≤ relaxed_variables Two instance.now) weights.now }
    requires sum { sum_by (λ r. r.weight) weights.now < NUMBER_LIMIT }
    ensures { IfOk result (λ s. s ≡ stand_of instance.now) }
{
    instance.limits();
    let clauses = formula.clauses();
    let given = FormulaClauses::all_live(clauses.try_clone()?)?;
    let forms = Forms::new(instance.allocator(), formula.vars(), weights)?;
    let mut standing = Standing {
        forms,
        ended: false,
        formula: given,
    };
    if standing.take_all(clauses).is_err() {
        // By a call: that is proved once, and not field by field here.
        drop(standing);
        return Err(AllocError);
    }
    standing.ended = false;
    Ok(standing)
}
