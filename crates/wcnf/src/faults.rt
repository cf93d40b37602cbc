// What can go wrong while a text is read: plain values, which carry no text of their own.

/// The kinds of fault of a WCNF text, and of reading it.
///
/// The first faulty line decides, and within it the first faulty token. At one token the kind that
/// stands earlier here is given.
#[derive(Clone, Copy, Debug, PartialEq, Eq, Drop)]
pub enum FaultKind {
    /// The first token is neither `h` nor `p`, and does not begin with a digit; in the older form
    /// it is not `p`, and does not begin with a digit.
    FirstToken,
    /// The first token is `p`, in a line after the first that is neither blank nor a comment.
    OldForm,
    /// The first token begins with a digit and is not a number from 1 to 2^62 - 1, spelled without
    /// a leading zero; in the older form, from 1 to the header's weight of a hard clause.
    Weight,
    /// A later token is neither `0` nor a number from 1, spelled without plus sign and leading
    /// zero, with or without a dash before it.
    Literal,
    /// The line ends without the token `0`.
    NoZero,
    /// A token stands after the `0`.
    AfterZero,
    /// The variable of a literal is above 2^22; in the older form, above the header's number of
    /// variables.
    Variable,
    /// With this weight the weights sum to 2^62 or more.
    WeightSum,
    /// There are more than 2^22 hard clauses, 2^18 soft clauses or 2^26 literals.
    TooMany,
    /// Memory was refused, which says nothing of the text.
    Memory,
    /// The reader failed, which says nothing of the text.
    Read,
    /// The first token of the first line that is neither blank nor a comment is `p`, and the line
    /// is not the header of the older form.
    Header,
    /// In the older form, there are more clauses than the header says, or fewer: the fault of the
    /// first one more, or of the header.
    Count,
}

/// The first fault of a text.
#[derive(Clone, Copy, Debug, PartialEq, Eq, Drop)]
pub struct ReadFault {
    /// What is wrong.
    pub kind: FaultKind,
    /// The line on which it stands, from 1; 0 for `Memory` and `Read`.
    pub line: u64,
}

/// A growth was refused. A text of 2^64 lines, which no machine can hand over, counts as one.
pub(crate) const NO_MEMORY: ReadFault = ReadFault {
    kind: FaultKind::Memory,
    line: 0,
};

/// The reader failed.
pub(crate) const FAILED: ReadFault = ReadFault {
    kind: FaultKind::Read,
    line: 0,
};
