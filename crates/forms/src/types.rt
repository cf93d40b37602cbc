// What a form line names.

/// A fact of a form line, and how many times it is taken.
#[derive(Clone, Copy, Debug, PartialEq, Eq, Drop)]
pub struct NamedFact {
    /// How many times the form is less it: from 1, below 2^62.
    pub weight: u64,
    /// Whether it is the fact of a count or group, by its number; else it is that of a clause.
    pub is_numbered: bool,
    /// The number of the count or group, or the id of the clause: from 1.
    pub number: u64,
}
