// The tokens of a clause line after its first: literals, and the 0 that ends the clause.
ghost use Rattle.std.specs.Prelude.{◌≡◌, ◌<◌, ◌≤◌, true, length, slice_index, ◌==◌, IfSome};
ghost use Rattle.text.specs.Ahead.{BeginsWithVariable, BeginsWithLiteral};
ghost use Rattle.text.specs.Words.{word_of, Literal_word};
ghost use Rattle.text.specs.Seen.{seen};
ghost use Rattle.text.specs.Text.{is_blank};

use crate::digits::{is_blank, leading_digits, number};
use cnf::limits::MOST_VARIABLES;
use cnf::types::Lit;

/// What a token after the first says.
#[derive(Drop)]
pub enum Word {
    /// The 0 that ends a clause.
    End,
    /// A literal whose variable is within the limit.
    Literal(Lit),
    /// A literal whose variable is above the limit.
    Above,
    /// Neither.
    Other,
}

/// What the token says. A literal is a number from 1 without leading zero, with a dash before it
/// for negation.
pub fn read_word(token: &[u8]) -> Word
    ensures { result ≡ seen (word_of token.now) }
{
    match token {
        [b'-', digits @ ..] => match number(digits) {
            None | Some(0) => Word::Other,
            Some(variable) => literal(variable, true),
        },
        _ => match number(token) {
            None => Word::Other,
            Some(0) => Word::End,
            Some(variable) => literal(variable, false),
        },
    }
}

/// The literal, unless its variable is above the limit.
fn literal(variable: u64, negated: bool) -> Word
    requires { 0 < variable }
    ensures { result ≡ seen (Literal_word (record { variable = variable; negated = negated })) }
{
    if variable > u64::from(MOST_VARIABLES) {
        Word::Above
    } else {
        Word::Literal(Lit::new(variable as u32, negated))
    }
}

/// The literal that is the first token, and how many bytes it takes, told in one pass over these.
/// `None` says nothing of the bytes: then the token is to be read by `read_word`.
pub fn literal_at(bytes: &[u8]) -> Option<(Lit, usize)>
    ensures { IfSome result (λ r. BeginsWithLiteral bytes.now r.0 r.1) }
{
    let negated = begins_with(bytes, b'-');
    let dash = usize::from(negated);
    let (variable, count) = variable_at(&bytes[dash..])?;
    Some((Lit::new(variable, negated), count + dash))
}

/// Whether this is the first byte.
pub fn begins_with(bytes: &[u8], byte: u8) -> bool
    requires { 0 < byte }
    ensures first { result ≡ (slice_index bytes.now 0 == byte) }
    ensures some { result ≡ true → 0 < length bytes.now }
{
    !bytes.is_empty() && bytes[0] == byte
}

/// The variable whose digits are the first token, and how many they are.
fn variable_at(bytes: &[u8]) -> Option<(u32, usize)>
    ensures { IfSome result (λ r. BeginsWithVariable bytes.now r.0 r.1) }
{
    if begins_with(bytes, b'0') {
        return None;
    }
    let (value, count) = leading_digits(bytes);
    if value == 0 || value > u64::from(MOST_VARIABLES) || !ends_at(bytes, count) {
        return None;
    }
    Some((value as u32, count))
}

/// Whether a token that goes up to this place ends there.
fn ends_at(bytes: &[u8], place: usize) -> bool
    requires { place ≤ length bytes.now }
    ensures { result ≡ true → place < length bytes.now
        → is_blank (slice_index bytes.now place) ≡ true }
{
    place == bytes.len() || is_blank(bytes[place])
}
