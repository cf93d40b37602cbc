// Cores that go on with the counts of a certificate that is resumed. Counts are numbered in the
// order of their cores, and a core takes the least rest of its literals: taken in that order, each
// has the weight with which it was found. Where a count was none of a core, the form of the cores
// is worth less than it seems, and what is proposed under it may be refused.

use crate::counting::Counting;
use crate::items::Items;
use cnf::types::Lit;
use forms::state::Forms;
use std::alloc::{AllocError, Global};

/// Takes the counts that are there as those of cores; answers what these are worth together. There
/// is no core yet. A group is no count: it has no outputs.
pub(crate) fn resume_cores(
    alloc: Global,
    forms: &Forms,
    items: &mut Items,
    counting: &mut Counting,
) -> Result<u64, AllocError> {
    let mut worth: u64 = 0;
    for number in 1..u64::MAX {
        let Some(inputs) = forms.inputs(number) else {
            break;
        };
        let outputs = forms.outputs(number).unwrap_or(&[]);
        let weight = items.least_rest(inputs);
        if weight == 0 || inputs.len() < 2 || outputs.is_empty() {
            continue;
        }
        worth = worth.saturating_add(weight);
        let core = counting.add_counted(Vec::from_slice(alloc, inputs)?, weight, number)?;
        items.exchange(inputs, outputs, weight, core)?;
    }
    Ok(worth)
}
