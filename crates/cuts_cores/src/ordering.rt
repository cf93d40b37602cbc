// The order in which the cores of one search are taken. A core takes all that is left of one of its
// literals at least, and so closes the others that this literal stands in. Those that have the
// least in common with the others come first, as in greedy methods for independent sets: that
// leaves the most of them open. Against the order in which they were found that takes 0.9 of the
// conflicts. The shortest first was as good in sum, but took 1.4 times as many on set covers
// (docs/EXPERIMENTS.md).

use crate::tables::{at, set};
use cnf::clause_list::ClauseList;
use cnf::types::Lit;
use std::alloc::{AllocError, Global};

/// As many cores of one search, or fewer, are taken as they were found.
const FEW: usize = 4;

/// The cores, those that have the least in common with the others first, and of those that have as
/// much the first one found; where there are few, as they were found. `last` is the last variable.
pub(crate) fn least_common_first(
    alloc: Global,
    cores: &ClauseList,
    last: u32,
) -> Result<Vec<&[Lit]>, AllocError> {
    let mut order = Vec::new(alloc);
    for core in cores.iter() {
        order.push(core)?;
    }
    if order.len() > FEW {
        let counts = count_each(alloc, cores, last)?;
        order.sort_by_key(|core| in_common(core, &counts))?;
    }
    Ok(order)
}

/// By literal: in how many of the cores it stands.
fn count_each(alloc: Global, cores: &ClauseList, last: u32) -> Result<Vec<u64>, AllocError> {
    let mut counts = Vec::from_elem(alloc, 0, (last as usize).saturating_mul(2))?;
    for core in cores.iter() {
        for lit in core {
            let count: u64 = at(&counts, lit.index());
            set(&mut counts, lit.index(), count.saturating_add(1));
        }
    }
    Ok(counts)
}

/// In how many of the cores each literal of this one stands, in sum.
fn in_common(core: &[Lit], counts: &[u64]) -> u64 {
    let mut sum: u64 = 0;
    for lit in core {
        sum = sum.saturating_add(at(counts, lit.index()));
    }
    sum
}
