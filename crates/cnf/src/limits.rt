//! The limits of texts, formulas and certificates, each in one place.

/// Weights, the sum of all weights of a text, costs, and the numbers of a certificate lie below
/// this.
pub const NUMBER_LIMIT: u64 = 1 << 62;

/// The variables of literals lie below this: the greatest bound of a certificate's literal.
pub const VARIABLE_LIMIT: u32 = 1 << 27;

/// The number of variables of a formula lies below this, with those that an encoding adds.
pub const FORMULA_VARIABLE_LIMIT: u32 = 1 << 26;

/// The number of clauses of a formula that is made of a text lies below this.
pub const CLAUSE_LIMIT: u32 = 1 << 28;

/// The greatest variable that a text may have.
pub const MOST_VARIABLES: u32 = 1 << 22;

/// How many hard clauses a text may have.
pub const MOST_HARD: usize = 1 << 22;

/// How many soft clauses a text may have.
pub const MOST_SOFT: usize = 1 << 18;

/// How many clauses a text may have, hard and soft ones together.
pub const MOST_TEXT_CLAUSES: usize = MOST_HARD + MOST_SOFT;

/// How many literals a text may have, repeats too.
pub const MOST_LITERALS: usize = 1 << 26;

/// The most places of what lies in flat memory, which take 32 bits each; one more counts as a
/// refused growth.
pub const MOST_PLACES: usize = 4_294_967_295;
