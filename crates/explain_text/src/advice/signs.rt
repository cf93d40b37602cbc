// Words with characters that look like others or like none, and the first bytes of compressed
// files.

const BYTE_ORDER_MARK: &str =
    "It begins with a byte order mark, which editors do not show: save FILE as UTF-8 without it.";

/// The byte order marks of UTF-8 and UTF-16.
const ORDER_MARKS: [&[u8]; 3] = [b"\xef\xbb\xbf", b"\xff\xfe", b"\xfe\xff"];

pub(crate) const GZIP: &str = "FILE is compressed: give it as '<(zcat FILE)'.";

pub(crate) const XZ: &str = "FILE is compressed: give it as '<(xzcat FILE)'.";

const NO_BREAK_SPACE: &str =
    "It has a no-break space, which only looks like a space: type a plain one.";

/// A no-break space, and a narrow one.
const SPACES: [&[u8]; 2] = [b"\xc2\xa0", b"\xe2\x80\xaf"];

const LONG_DASH: &str = "It has a long dash or a typographic minus sign: type a plain '-'.";

/// Hyphens and dashes of typography, and its minus sign.
const DASHES: [&[u8]; 7] = [
    b"\xe2\x80\x90",
    b"\xe2\x80\x91",
    b"\xe2\x80\x92",
    b"\xe2\x80\x93",
    b"\xe2\x80\x94",
    b"\xe2\x80\x95",
    b"\xe2\x88\x92",
];

const HIDDEN_SIGN: &str = "It has a character that editors do not show: type the line again.";

/// Zero-width spaces and joiners, direction marks, line and paragraph separators.
const HIDDEN_SIGNS: [&[u8]; 7] = [
    b"\xe2\x80\x8b",
    b"\xe2\x80\x8c",
    b"\xe2\x80\x8d",
    b"\xe2\x80\x8e",
    b"\xe2\x80\x8f",
    b"\xe2\x80\xa8",
    b"\xe2\x80\xa9",
];

/// What to do where a word has characters that look like others or like none, or begins a
/// compressed file.
pub(super) fn mend_signs(word: &[u8]) -> Option<&'static str> {
    match word {
        [0x1f, 0x8b, ..] => Some(GZIP),
        [0xfd, b'7', b'z', b'X', b'Z', ..] => Some(XZ),
        _ if has_one(word, &ORDER_MARKS) => Some(BYTE_ORDER_MARK),
        _ if has_one(word, &SPACES) || word == BYTE_SPACE => Some(NO_BREAK_SPACE),
        _ if has_one(word, &DASHES) => Some(LONG_DASH),
        _ if has_one(word, &HIDDEN_SIGNS) => Some(HIDDEN_SIGN),
        _ => None,
    }
}

/// A no-break space where each byte is a character.
const BYTE_SPACE: &[u8] = b"\xa0";

/// Whether the word has one of these.
fn has_one(word: &[u8], parts: &[&[u8]]) -> bool {
    for part in parts {
        if has_part(word, part) {
            return true;
        }
    }
    false
}

/// Whether the word has these bytes one after another.
fn has_part(word: &[u8], part: &[u8]) -> bool {
    for at in 0..word.len() {
        if word[at..].starts_with(part) {
            return true;
        }
    }
    false
}
