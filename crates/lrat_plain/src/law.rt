// What a plain certificate is worth.
ghost use Rattle.lrat_plain.specs.Law.{PlainFormulasAreRefuted, PlainLinesAreAccepted};
ghost use Rattle.lrat_plain.specs.Law.{PlainLinesAreCorrect};

/// The plain lines are correct, one after another, as plain LRAT over the formula with all clauses
/// that lines make; additions follow by their hints alone. Where all lines of the certificate are
/// right, the plain ones are accepted as a refutation of that formula exactly where the last line
/// makes the empty clause.
pub fn plain_lines_are_correct()
    ensures steps { PlainLinesAreCorrect }
    ensures accepted { PlainLinesAreAccepted }
    ensures refuted { PlainFormulasAreRefuted }
{}
