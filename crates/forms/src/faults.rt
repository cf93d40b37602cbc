// Why a line of forms and cuts is refused.

/// Why a line that speaks of counts, groups, forms, cuts or bounds is not right. Of several
/// reasons the first in this order is told.
#[derive(Clone, Copy, Debug, PartialEq, Eq, Drop)]
pub enum LineFault {
    /// It names something that is not there: a variable, a clause, a count, a group or a form; or
    /// a variable twice, or more outputs than a count has literals.
    Name,
    /// There would be more than 2^22 clauses of counts, or more than 2^32 terms in facts.
    Limit,
    /// A cut or a bound that the form is not worth.
    Worth,
}

/// The most clauses that counts may make together.
pub const MOST_COUNT_CLAUSES: usize = 1 << 22;

/// The most terms that the facts of all form lines may have together.
pub const MOST_TERMS: u64 = 1 << 32;
