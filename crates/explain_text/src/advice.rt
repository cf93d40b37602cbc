// What would mend a faulty line, in a sentence. Nothing rests on it: the fault and its line are the
// reader's.

mod places;
pub(crate) mod signs;

use crate::advice::places::{
    first_above, first_after_zero, first_other, hidden_column, is_behind_zero, variables_of,
    word_at, word_start,
};
use crate::advice::signs::mend_signs;
use cnf::limits::{MOST_TEXT_CLAUSES, MOST_VARIABLES};
use text::digits::number;
use wcnf::faults::FaultKind;

/// What is said of a faulty line.
#[derive(Drop)]
pub(crate) struct Advice<'a> {
    /// The word at which it is faulty; nothing where it is no single word.
    pub(crate) word: &'a [u8],
    /// The column of that word, from 1; 0 where the line as it is shown has the whole word.
    pub(crate) column: usize,
    /// What would mend it.
    pub(crate) sentence: &'static str,
}

/// What is said of this line, which has the first fault of the text, of this kind. `header` is the
/// line of the older form before it; nothing in today's form.
pub(crate) fn advise<'a>(kind: FaultKind, header: &[u8], line: &'a [u8]) -> Advice<'a> {
    let Some(place) = place_of_fault(kind, header, line) else {
        return Advice {
            word: EMPTY,
            column: 0,
            sentence: mend(kind, header, line, EMPTY),
        };
    };
    let word = word_at(line, place);
    Advice {
        word,
        column: hidden_column(word_start(line, place), word.len()),
        sentence: mend(kind, header, line, word),
    }
}

/// Which word of the line is faulty, counted from 0; none where it is no single word.
fn place_of_fault(kind: FaultKind, header: &[u8], line: &[u8]) -> Option<usize> {
    match kind {
        FaultKind::FirstToken | FaultKind::OldForm | FaultKind::Weight | FaultKind::WeightSum =>
            Some(0),
        FaultKind::Literal => first_other(line),
        FaultKind::AfterZero => first_after_zero(line),
        FaultKind::Variable if header.is_empty() => first_above(line, MOST_VARIABLES),
        FaultKind::Variable => first_above(line, variables_of(header)),
        FaultKind::NoZero
        | FaultKind::TooMany
        | FaultKind::Header
        | FaultKind::Count
        | FaultKind::Memory
        | FaultKind::Read => None,
    }
}

/// What would mend this line, where this word is the faulty one.
fn mend(kind: FaultKind, header: &[u8], line: &[u8], word: &[u8]) -> &'static str {
    let is_older = !header.is_empty();
    match kind {
        FaultKind::FirstToken => mend_first(word, is_older),
        FaultKind::OldForm => OLD_FORM,
        FaultKind::Weight => mend_weight(word, is_older),
        FaultKind::Literal if is_behind_zero(line) => AFTER_ZERO,
        FaultKind::Literal => mend_literal(word),
        FaultKind::NoZero => NO_ZERO,
        FaultKind::AfterZero => AFTER_ZERO,
        FaultKind::Variable if is_older => ABOVE_V,
        FaultKind::Variable => ABOVE_ALL,
        FaultKind::WeightSum => WEIGHT_SUM,
        FaultKind::TooMany => TOO_MANY,
        FaultKind::Header => mend_header(line),
        FaultKind::Count if is_older => MORE_CLAUSES,
        FaultKind::Count => FEWER_CLAUSES,
        FaultKind::Memory | FaultKind::Read => "",
    }
}

const EMPTY: &[u8] = b"";

const NO_HEAD: &str =
    "A clause begins with 'h' if it must hold, else with its weight: 'h -1 0' or '3 -1 0'.";

const OLDER_HEAD: &str =
    "Below a line 'p wcnf V C T' a clause begins with its weight, or with T if it must hold.";

const NO_COMMENT: &str = "A comment begins with 'c'.";

const RESULT: &str = "This is a line of a result: give the instance first, then its result.";

const OLD_FORM: &str = "A line 'p wcnf' can only come before all clauses; today's form has none.";

const WHOLE_WEIGHT: &str =
    "A weight is a whole number: multiply all weights by one factor until they are whole.";

const ZERO_WEIGHT: &str = "A weight is at least 1: what costs nothing can be left out.";

const LEADING_ZERO: &str = "A number has no leading 0.";

const LARGE_WEIGHT: &str =
    "A weight is below 2^62 = 4611686018427387904, and so is the sum of all weights.";

const ABOVE_TOP: &str =
    "No weight is above T of the line 'p wcnf V C T', which makes a clause hard.";

const DIGITS: &str = "A weight has only digits.";

const PLUS: &str = "A number has no '+'.";

const MINUS_ZERO: &str = "A clause ends with a plain 0, and variables begin at 1.";

const SEPARATOR: &str = "Only spaces and tabs separate words.";

const NO_LITERAL: &str =
    "A literal is a variable, numbered from 1, with '-' before it for its negation.";

const NO_ZERO: &str = "A clause ends with 0, on the line on which it begins.";

const AFTER_ZERO: &str =
    "The 0 ends the clause: each clause and each comment has a line of its own.";

const ABOVE_V: &str =
    "A variable is at most V of the line 'p wcnf V C T': correct that line or this one.";

const ABOVE_ALL: &str = "A variable is at most 2^22 = 4194304: number them from 1 without gaps.";

const WEIGHT_SUM: &str =
    "With this weight the sum of all reaches 2^62 = 4611686018427387904: use smaller ones.";

const TOO_MANY: &str =
    "At most 2^22 = 4194304 hard clauses, 2^18 = 262144 soft ones and 2^26 literals are allowed.";

const MORE_CLAUSES: &str = "There are more clauses than C of the line 'p wcnf V C T' says.";

const FEWER_CLAUSES: &str = "There are fewer clauses than this line says.";

const CNF: &str =
    "This is a CNF for SAT solvers: remove this line, and put 'h' before clauses that must hold.";

const NO_TOP: &str =
    "T of 'p wcnf V C T' is missing: the weight that makes a clause hard, above all others.";

const TOP: &str =
    "The last number T is from 1 to 2^62 = 4611686018427387904: any above all weights will do.";

const MANY_VARIABLES: &str = "At most 2^22 = 4194304 variables are allowed.";

const MANY_CLAUSES: &str = "At most 4456448 clauses are allowed: 2^22 hard and 2^18 soft ones.";

const HEADER: &str =
    "In the older form this line is 'p wcnf V C T' with three numbers; today's form has none.";

/// Why no clause begins with this word.
fn mend_first(word: &[u8], is_older: bool) -> &'static str {
    if let Some(sentence) = mend_signs(word) {
        return sentence;
    }
    match word {
        [b'#' | b'%' | b'*' | b'/' | b';', ..] => NO_COMMENT,
        [b'o' | b's' | b'v'] => RESULT,
        _ if is_older => OLDER_HEAD,
        [b'+', ..] => PLUS,
        _ => NO_HEAD,
    }
}

/// Why this is no weight.
fn mend_weight(word: &[u8], is_older: bool) -> &'static str {
    if let Some(sentence) = mend_signs(word) {
        return sentence;
    }
    match number(word) {
        Some(0) => ZERO_WEIGHT,
        Some(_) if is_older => ABOVE_TOP,
        Some(_) => LARGE_WEIGHT,
        None if has_byte(word, b'.') || has_byte(word, b',') || has_byte(word, b'e') =>
            WHOLE_WEIGHT,
        None => match word {
            [b'0', b'0'..=b'9', ..] => LEADING_ZERO,
            _ => DIGITS,
        },
    }
}

/// Why this is no literal.
fn mend_literal(word: &[u8]) -> &'static str {
    if let Some(sentence) = mend_signs(word) {
        return sentence;
    }
    match word {
        [b'-', b'0'] => MINUS_ZERO,
        [b'+', ..] => PLUS,
        [b'0', b'0'..=b'9', ..] | [b'-', b'0', b'0'..=b'9', ..] => LEADING_ZERO,
        _ if has_byte(word, b',') || has_byte(word, b';') => SEPARATOR,
        _ => NO_LITERAL,
    }
}

/// Why this line is no header.
fn mend_header(line: &[u8]) -> &'static str {
    if word_at(line, 1) == SAT {
        return CNF;
    }
    if word_at(line, 1) != MAXSAT || !word_at(line, 5).is_empty() {
        return HEADER;
    }
    let numbers = (
        number(word_at(line, 2)),
        number(word_at(line, 3)),
        number(word_at(line, 4)),
    );
    match numbers {
        (Some(variables), _, _) if variables > u64::from(MOST_VARIABLES) => MANY_VARIABLES,
        (Some(_), Some(clauses), _) if clauses > MOST_TEXT_CLAUSES as u64 => MANY_CLAUSES,
        (Some(_), Some(_), Some(_)) => TOP,
        (Some(_), Some(_), None) if word_at(line, 4).is_empty() => NO_TOP,
        _ => HEADER,
    }
}

/// The second word of a text for SAT.
const SAT: &[u8] = b"cnf";

/// The second word of the older form.
const MAXSAT: &[u8] = b"wcnf";

/// Whether the word has this byte.
fn has_byte(word: &[u8], byte: u8) -> bool {
    word.contains(&byte)
}
