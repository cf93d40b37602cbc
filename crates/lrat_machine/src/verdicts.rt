// What the checker answers, for a line, a text or a result. A verdict is the same value in each
// layer, and is passed on unchanged.

/// Why something is refused: of the instance's text, of the result, or of a line of the
/// certificate.
#[derive(Clone, Copy, Debug, PartialEq, Eq, Drop)]
pub enum Cause {
    /// The instance's text can't be read.
    Text,
    /// A line of the result can't stand there, or the result ends too soon.
    ResultForm,
    /// There is not one bit for each variable.
    BitsLength,
    /// The bits falsify a hard clause.
    NotFeasible,
    /// The bits have another cost than the result says.
    CostWrong,
    /// The result claims nothing that a certificate could show.
    StatusWithoutProof,
    /// The line is neither an addition nor a deletion.
    LineForm,
    /// The line's id is not above all ids before it.
    IdOrder,
    /// No live clause has an id that the line names.
    DeadId,
    /// A hint is neither unit nor false where it stands.
    HintNotUnit,
    /// There are further hints where there is a conflict already.
    HintAfterConflict,
    /// Hints that have to end in a conflict don't.
    NoConflict,
    /// The line does not name just the live clauses with the negated pivot, in rising id.
    Candidates,
    /// The certificate ends before the empty clause was added.
    NoEmptyClause,
    /// A line stands after the one that adds the empty clause.
    TrailingLine,
    /// A literal stands twice in the clause or with its negation, or its variable is 2^27 or more.
    ClauseForm,
    /// A line names a variable, clause, count, group or form that is not there, a variable twice,
    /// or more outputs than a count has literals.
    LineName,
    /// With the line counts make more than 2^22 clauses, or facts have more than 2^32 terms.
    LineLimit,
    /// The form is not worth the cost of which a cut or a bound speaks.
    CutWorth,
}

/// What a check found.
#[derive(Clone, Copy, Debug, PartialEq, Eq, Drop)]
pub enum Verdict {
    /// The certificate holds.
    Yes,
    /// The first fault and its line: from 1, or 0 where the text ends too soon.
    No(Cause, u64),
}
