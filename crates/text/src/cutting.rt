// What every text is made of: lines, the tokens of a line, and numbers. The iterators stand in
// `pieces`: the toolchain makes a file of each name, so `Lines` and `lines` cannot share a module.
ghost use Rattle.std.specs.Prelude.{◌≡◌};
ghost use Rattle.text.specs.Text.{numbered_text, tokens_of};

pub use crate::digits::number;
use crate::pieces::{Lines, Tokens};

/// The lines of a text with their numbers, from 1, in one pass and with no copy.
///
/// Each line feed ends a line, and one carriage return just before it is dropped.
/// Bytes that no line feed follows are one more line, in which a carriage return at the end is an
/// ordinary byte. A text that ends with a line feed has no line after it, and the empty text has no
/// lines.
pub fn lines(text: &[u8]) -> Lines<'_>
    ensures { result ≡ numbered_text text.now }
{
    Lines::of(text)
}

/// The tokens of a line, in one pass and with no copy: the longest runs of bytes that are neither
/// spaces nor tabs.
pub fn tokens(line: &[u8]) -> Tokens<'_>
    ensures { result ≡ tokens_of line.now }
{
    Tokens::of(line)
}
