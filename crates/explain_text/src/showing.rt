//! How a text is shown on a terminal: a question mark stands for what would command it, or would
//! change the order of what it shows.
ghost use Rattle.std.specs.Prelude.{◌≡◌, slice_index};
ghost use Rattle.explain_text.specs.Sheets.{Displays};
ghost use Rattle.explain_text.specs.Showing.{character_length, is_between, is_control, is_four};
ghost use Rattle.explain_text.specs.Showing.{is_tail, is_three, is_two, left_at, sets_direction};
ghost use Rattle.explain_text.specs.Showing.{shown, shown_text, visible_length};

use crate::sheet::Sheet;
use std::fmt;
use std::io::Write;

/// A name that is told: its `Display` has a question mark for each character that would command a
/// terminal.
#[derive(Clone, Copy, Drop)]
pub struct Shown<'a>(pub &'a str);

impl fmt::Display for Shown<'_> {
    fn fmt<W: fmt::Write>(&self, f: &mut fmt::Formatter<W>) -> fmt::Result {
        let mut room = [0; 4];
        for sign in self.0.chars() {
            let is_visible = visible_length(sign.encode_utf8(&mut room).as_bytes()) > 0;
            f.write_char(if is_visible { sign } else { '?' })?;
        }
        Ok(())
    }
}

/// A line, with a question mark for each byte that would command a terminal, or is no part of a
/// character.
pub fn put_shown<W: Write>(sheet: &mut Sheet, writer: &mut W, line: &[u8])
    ensures { Displays (W.contents writer.old) sheet.old (shown_text line.now)
        (W.contents writer.new) sheet.new }
{
    let mut left = 0;
    for (place, byte) in line.iter().enumerate() {
        let here = left_at(left, &line[place..]);
        sheet.put(writer, &[show(here, *byte)]);
        left = here.saturating_sub(1);
    }
}

/// How many bytes of a character that is shown are left, where `left` were left before it and these
/// bytes are next.
fn left_at(left: usize, bytes: &[u8]) -> usize
    ensures { result ≡ left_at left bytes.now }
{
    if left == 0 {
        visible_length(bytes)
    } else {
        left
    }
}

/// The byte, or a question mark where no byte is left of a character that is shown.
fn show(left: usize, byte: u8) -> u8
    ensures { result ≡ shown left byte }
{
    if left == 0 { b'?' } else { byte }
}

/// How many bytes the character takes with which the bytes begin, if it may be shown; else 0.
fn visible_length(bytes: &[u8]) -> usize
    ensures { result ≡ visible_length bytes.now }
{
    if is_control(bytes) || sets_direction(bytes) {
        0
    } else {
        character_length(bytes)
    }
}

/// How many bytes the character of UTF-8 takes with which the bytes begin; 0 where they begin with
/// none.
fn character_length(bytes: &[u8]) -> usize
    ensures { result ≡ character_length bytes.now }
{
    if byte_at(bytes, 0) < 128 {
        1
    } else if is_two(bytes) {
        2
    } else if is_three(bytes) {
        3
    } else if is_four(bytes) {
        4
    } else {
        0
    }
}

/// Whether the bytes begin with a control character other than the tab: one below U+0020, U+007F,
/// or one of U+0080 to U+009F.
fn is_control(bytes: &[u8]) -> bool
    ensures { result ≡ is_control bytes.now }
{
    let first = byte_at(bytes, 0);
    first < 32 && first != b'\t'
        || first == 127
        || first == 0xc2 && is_between(byte_at(bytes, 1), 0x80, 0x9f)
}

/// Whether the bytes begin with a character that sets the direction of what follows: U+061C,
/// U+200E, U+200F, U+202A to U+202E or U+2066 to U+2069.
fn sets_direction(bytes: &[u8]) -> bool
    ensures { result ≡ sets_direction bytes.now }
{
    let second = byte_at(bytes, 1);
    let third = byte_at(bytes, 2);
    match byte_at(bytes, 0) {
        0xd8 => second == 0x9c,
        0xe2 if second == 0x80 => is_between(third, 0x8e, 0x8f) || is_between(third, 0xaa, 0xae),
        0xe2 => second == 0x81 && is_between(third, 0xa6, 0xa9),
        _ => false,
    }
}

/// Whether the bytes begin with a character of two bytes.
fn is_two(bytes: &[u8]) -> bool
    ensures { result ≡ is_two bytes.now }
{
    is_between(byte_at(bytes, 0), 0xc2, 0xdf) && is_tail(byte_at(bytes, 1))
}

/// Whether the bytes begin with a character of three bytes: none that two can spell, and no
/// surrogate.
fn is_three(bytes: &[u8]) -> bool
    ensures { result ≡ is_three bytes.now }
{
    let first = byte_at(bytes, 0);
    let least = if first == 0xe0 { 0xa0 } else { 0x80 };
    let most = if first == 0xed { 0x9f } else { 0xbf };
    is_between(first, 0xe0, 0xef)
        && is_between(byte_at(bytes, 1), least, most)
        && is_tail(byte_at(bytes, 2))
}

/// Whether the bytes begin with a character of four bytes: none that three can spell, and none
/// above U+10FFFF.
fn is_four(bytes: &[u8]) -> bool
    ensures { result ≡ is_four bytes.now }
{
    let first = byte_at(bytes, 0);
    let least = if first == 0xf0 { 0x90 } else { 0x80 };
    let most = if first == 0xf4 { 0x8f } else { 0xbf };
    is_between(first, 0xf0, 0xf4)
        && is_between(byte_at(bytes, 1), least, most)
        && is_tail(byte_at(bytes, 2))
        && is_tail(byte_at(bytes, 3))
}

/// Whether the byte goes on with a character.
fn is_tail(byte: u8) -> bool
    ensures { result ≡ is_tail byte }
{
    is_between(byte, 0x80, 0xbf)
}

/// Whether the byte is neither below the first bound nor above the second.
fn is_between(byte: u8, least: u8, most: u8) -> bool
    ensures { result ≡ is_between byte least most }
{
    least <= byte && byte <= most
}

/// The byte at this place; 0 where there is none.
fn byte_at(bytes: &[u8], place: usize) -> u8
    ensures { result ≡ slice_index bytes.now place }
{
    bytes.get(place).copied().unwrap_or(0)
}
