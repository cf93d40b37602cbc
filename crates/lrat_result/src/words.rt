//! The tokens of a result's line: such a line has at most three.
ghost use Rattle.lrat_result.specs.Words.{HasWords};
ghost use Rattle.text.specs.Text.{tokens_of};

use text::cutting::tokens;

/// The tokens of a line, told apart up to three.
#[derive(Clone, Copy)]
pub(crate) enum Words<'a> {
    /// The line has no token.
    None,
    /// Its only token.
    One(&'a [u8]),
    /// Both, in order.
    Two(&'a [u8], &'a [u8]),
    /// All three, in order.
    Three(&'a [u8], &'a [u8], &'a [u8]),
    /// More than three: only the first is needed, since it tells a comment.
    More(&'a [u8]),
}

/// The tokens of the line.
pub(crate) fn words_of(line: &[u8]) -> Words<'_>
    ensures { HasWords (tokens_of line.now) result }
{
    let mut rest = tokens(line);
    let Some(first) = rest.next() else {
        return Words::None;
    };
    let Some(second) = rest.next() else {
        return Words::One(first);
    };
    let Some(third) = rest.next() else {
        return Words::Two(first, second);
    };
    match rest.next() {
        None => Words::Three(first, second, third),
        Some(_) => Words::More(first),
    }
}
