// The rows of an instance.
use cnf::types::Instance;
use lp::rows::Rows;
use std::alloc::{AllocError, Global};

/// A row for each hard clause, and a cost for each soft clause of one literal; others are left out.
pub(crate) fn rows_of(alloc: Global, instance: &Instance) -> Result<Rows, AllocError> {
    let mut rows = Rows::new(alloc);
    let hard = instance.hard();
    for place in 0..hard.len() {
        rows.add(hard.get(place), 1, place as u64)?;
    }
    for soft in instance.soft() {
        if let [lit] = soft.clause().lits() {
            rows.add_cost(lit.negation(), soft.weight())?;
        }
    }
    Ok(rows)
}
