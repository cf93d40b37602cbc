//! What is shown of a faulty text, for the person who has to mend it: the line, the word, and what
//! would mend it.
ghost use Rattle.std.specs.Prelude.{◌≡◌, ℕ, List, take, OnOk, OnErr, ◌↔◌, IsSome, IsTrue};
ghost use Rattle.explain_text.specs.Sheets.{Displays};
ghost use Rattle.explain_text.specs.Mending.{BreaksMending, Mends, cut_text, is_packed, line_of};
ghost use Rattle.explain_text.specs.Mending.{place_text, shown_line, word_line};

use crate::advice::signs::{GZIP, XZ};
use crate::advice::{Advice, advise};
use crate::sheet::Sheet;
use crate::showing::put_shown;
use std::io::Write;
use text::cutting::{lines, tokens};
use text::output::WriteFault;
use wcnf::faults::ReadFault;

/// How many bytes of a line or a word are shown.
pub(crate) const MOST_SHOWN: usize = 100;

/// Writes the line that has the first fault of the text, and then the word at which it is faulty
/// and what would mend it. A byte that would command a terminal is shown as a question mark; a long
/// line is cut off.
///
/// # Errors
///
/// `WriteFault` where the writer failed. It then has a prefix of that.
pub fn write_mending<W: Write>(
    text: &[u8],
    fault: ReadFault,
    writer: &mut W,
) -> Result<(), WriteFault>
    ensures ok { OnOk result (Mends text.now fault.line
        (W.contents writer.old) (W.contents writer.new)) }
    ensures fault { OnErr result (BreaksMending text.now fault.line
        (W.contents writer.old) (W.contents writer.new)) }
{
    let line = find_line(text, fault.line);
    let advice = advise(fault.kind, find_header(text, fault.line), line);
    let mut sheet = Sheet::new();
    put_line(&mut sheet, writer, line);
    put_advice(&mut sheet, writer, &advice);
    sheet.finish(writer)
}

/// What to do with a text that begins as a file of gzip or of xz does; nothing where it does not.
pub fn advise_unpacking(text: &[u8]) -> Option<&'static str>
    ensures { IsSome result ↔ IsTrue (is_packed text.now) }
{
    match text {
        [0x1f, 0x8b, ..] => Some(GZIP),
        [0xfd, b'7', b'z', b'X', b'Z', 0, ..] => Some(XZ),
        _ => None,
    }
}

/// The line of this number; nothing where there is none.
fn find_line(text: &[u8], number: u64) -> &[u8]
    ensures { result.now ≡ line_of text.now number }
{
    let mut rest = lines(text);
    while let Some(numbered) = rest.next() {
        if numbered.0 == number {
            return numbered.1;
        }
    }
    b""
}

/// The header of the older form, if the text has one before this line; else nothing.
fn find_header(text: &[u8], number: u64) -> &[u8] {
    for (line, text) in lines(text) {
        if line >= number {
            return b"";
        }
        match tokens(text).next() {
            None | Some([b'c', ..]) => {}
            Some([b'p']) => return text,
            Some(_) => return b"",
        }
    }
    b""
}

/// The line, on a line of its own.
fn put_line<W: Write>(sheet: &mut Sheet, writer: &mut W, line: &[u8])
    ensures { Displays (W.contents writer.old) sheet.old (shown_line line.now)
        (W.contents writer.new) sheet.new }
{
    sheet.put(writer, b"  ");
    put_cut(sheet, writer, line);
    sheet.put(writer, b"\n");
}

/// The first bytes.
fn put_cut<W: Write>(sheet: &mut Sheet, writer: &mut W, bytes: &[u8])
    ensures { Displays (W.contents writer.old) sheet.old (cut_text bytes.now)
        (W.contents writer.new) sheet.new }
{
    if bytes.len() <= MOST_SHOWN {
        put_shown(sheet, writer, bytes);
        return;
    }
    put_shown(sheet, writer, cut(bytes, MOST_SHOWN));
    sheet.put(writer, b" ..");
}

/// The first bytes, at most `most`.
fn cut(bytes: &[u8], most: usize) -> &[u8]
    ensures { result.now ≡ take most bytes.now }
{
    if bytes.len() > most {
        &bytes[..most]
    } else {
        bytes
    }
}

/// The word, if there is one, and the sentence.
fn put_advice<W: Write>(sheet: &mut Sheet, writer: &mut W, advice: &Advice<'_>)
    ensures { (text : List ℕ) × Displays (W.contents writer.old) sheet.old text
        (W.contents writer.new) sheet.new }
{
    put_word(sheet, writer, advice.word, advice.column);
    sheet.put(writer, b"  ");
    sheet.put(writer, advice.sentence.as_bytes());
    sheet.put(writer, b"\n");
}

/// A word, if there is one, on a line of its own.
fn put_word<W: Write>(sheet: &mut Sheet, writer: &mut W, word: &[u8], column: usize)
    ensures { Displays (W.contents writer.old) sheet.old (word_line column word.now)
        (W.contents writer.new) sheet.new }
{
    if word.is_empty() {
        return;
    }
    put_place(sheet, writer, column);
    put_cut(sheet, writer, word);
    sheet.put(writer, b"\n");
}

/// What stands before a word, with its column if there is one to tell.
fn put_place<W: Write>(sheet: &mut Sheet, writer: &mut W, column: usize)
    ensures { Displays (W.contents writer.old) sheet.old (place_text column)
        (W.contents writer.new) sheet.new }
{
    if column == 0 {
        sheet.put(writer, b"  here: ");
        return;
    }
    sheet.put(writer, b"  here, column ");
    sheet.put_number(writer, column as u64);
    sheet.put(writer, b": ");
}
