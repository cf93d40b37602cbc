// Lines without a token. A certificate may be full of them: skipped here, they take half the time
// of a plain C checker; read and judged like other lines, they take four times as long as there.
ghost use Rattle.std.specs.Prelude.{◌≤◌, ◌<◌, length, take, drop, replicate, IfSome};
ghost use Rattle.lrat_read.specs.Batch.{AreRead, IsFirstRead};
ghost use Rattle.lrat_read.specs.Blanks.{no_tokens};

use crate::numbers::skip_blanks;

/// Lines without a token, each with its line feed.
#[derive(Clone, Copy, Drop)]
pub struct BlankLines {
    /// How many lines there are.
    pub count: u64,
    /// How many bytes they take.
    pub bytes: usize,
}

/// The place behind the line feed of the line that begins here, if that has no token.
#[inline(always)]
fn blank_line(text: &[u8], at: usize) -> Option<usize>
    requires { at ≤ length text.now }
    ensures order { IfSome result (λ end. at < end) }
    ensures within { IfSome result (λ end. end ≤ length text.now) }
    ensures read { IfSome result
        (λ end. IsFirstRead (drop at text.now) no_tokens (drop end text.now)) }
{
    let end = skip_blanks(text, at);
    if end < text.len() && text[end] == b'\n' {
        return Some(end + 1);
    }
    if end + 1 < text.len() && text[end] == b'\r' && text[end + 1] == b'\n' {
        return Some(end + 2);
    }
    None
}

/// The lines without a token at the front of the text, up to one that has a token or no line feed.
/// How many are told is a matter of time alone: none would be a right answer too.
#[inline]
pub fn blank_lines(text: &[u8]) -> BlankLines
    ensures within { result.bytes ≤ length text.now }
    ensures few { result.count ≤ result.bytes }
    ensures read { AreRead (take result.bytes text.now) (replicate result.count no_tokens) }
{
    let mut count = 0;
    let mut bytes = 0;
    while let Some(end) = blank_line(text, bytes) {
        count += 1;
        bytes = end;
    }
    BlankLines { count, bytes }
}
