// The names that comments give to variables, as `c 7 = Ann Tue`: those of true ones are written.
ghost use Rattle.std.specs.Prelude.{◌≡◌, ◌∷◌};
ghost use Rattle.text.specs.Text.{tokens_of};
ghost use Rattle.explain_text.specs.Sheets.{Displays};
ghost use Rattle.explain.specs.Names.{is_true_variable, name_line, name_text, names_text};
ghost use Rattle.explain.specs.Names.{words_text};

use crate::falsified::is_true;
use explain_text::sheet::Sheet;
use explain_text::showing::put_shown;
use std::io::Write;
use text::cutting::{lines, tokens};
use text::pieces::Tokens;
use text::words::{Word, read_word};

/// How a comment begins.
const COMMENT: &[u8] = b"c";

/// What stands between a variable and its name.
const IS: &[u8] = b"=";

/// A line for each true variable that a comment names, in the order of the comments.
pub(crate) fn put_names<W: Write>(sheet: &mut Sheet, writer: &mut W, text: &[u8], bits: &[bool])
    ensures { Displays (W.contents writer.old) sheet.old (names_text bits.now text.now)
        (W.contents writer.new) sheet.new }
{
    let mut rest = lines(text);
    while let Some(numbered) = rest.next() {
        put_name(sheet, writer, numbered.1, bits);
    }
}

/// The name that the line gives to a true variable, if it does.
fn put_name<W: Write>(sheet: &mut Sheet, writer: &mut W, line: &[u8], bits: &[bool])
    ensures { Displays (W.contents writer.old) sheet.old (name_text bits.now (tokens_of line.now))
        (W.contents writer.new) sheet.new }
{
    let mut rest = tokens(line);
    let Some(first) = rest.next() else {
        return;
    };
    let Some(variable) = rest.next() else {
        return;
    };
    let Some(sign) = rest.next() else {
        return;
    };
    let Some(word) = rest.next() else {
        return;
    };
    if first == COMMENT && sign == IS && is_true_variable(variable, bits) {
        put_line(sheet, writer, word, rest);
    }
}

/// Whether the line is a comment that names a variable.
pub(crate) fn is_name(line: &[u8]) -> bool {
    let mut rest = tokens(line);
    let (Some(first), Some(variable)) = (rest.next(), rest.next()) else {
        return false;
    };
    let is_named = rest.next() == Some(IS) && rest.next().is_some();
    let is_variable = matches!(read_word(variable), Word::Literal(lit) if !lit.is_negated());
    first == COMMENT && is_named && is_variable
}

/// Whether the token is a variable that the bits make true.
fn is_true_variable(token: &[u8], bits: &[bool]) -> bool
    ensures { result ≡ is_true_variable bits.now token.now }
{
    match read_word(token) {
        Word::Literal(lit) => !lit.is_negated() && is_true(lit, bits),
        _ => false,
    }
}

/// The line of a name with this first word.
fn put_line<W: Write>(sheet: &mut Sheet, writer: &mut W, word: &[u8], rest: Tokens<'_>)
    ensures { Displays (W.contents writer.old) sheet.old (name_line (word.now ∷ rest.entry))
        (W.contents writer.new) sheet.new }
{
    sheet.put(writer, b"true:");
    sheet.put(writer, b" ");
    put_shown(sheet, writer, word);
    put_words(sheet, writer, rest);
}

/// The words that are left of a name, and the end of the line.
fn put_words<W: Write>(sheet: &mut Sheet, writer: &mut W, words: Tokens<'_>)
    ensures { Displays (W.contents writer.old) sheet.old (words_text words.entry)
        (W.contents writer.new) sheet.new }
{
    let mut rest = words;
    while let Some(word) = rest.next() {
        sheet.put(writer, b" ");
        put_shown(sheet, writer, word);
    }
    sheet.put(writer, b"\n");
}
