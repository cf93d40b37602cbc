// What goes over the lines of a text, and over the tokens of a line, without a copy: each item is a
// part of the bytes that were given.
ghost use Rattle.std.specs.Prelude.{◌≡◌, ◌≤◌, [], length, MatchOption};
ghost use Rattle.std.specs.Iterator.{YieldsFirstBy, YieldsFirstRef, item_count};
ghost use Rattle.std.specs.List.{prefix_len, position_or_len};
ghost use Rattle.std.specs.Str.Lines.{strip_carriage_return};
ghost use Rattle.text.specs.Ahead.{IsNextWord};
ghost use Rattle.text.specs.Pieces.{IsFirstLine};
ghost use Rattle.text.specs.Text.{is_blank, numbered_text, tokens_of, IsNoFeed, IsFirstFeed};

use crate::digits::is_blank;
use crate::words::{Word, begins_with, literal_at, read_word};
use memchr::memchr;
use std::marker::Model;

/// The lines of a text with their numbers, from 1.
///
/// A line ends at a line feed, which is no part of it, and neither is a carriage return just before
/// that line feed. Bytes after the last line feed are one more line, which keeps a carriage return
/// at its end.
#[derive(Drop)]
pub struct Lines<'a> {
    // The bytes of the lines that are left.
    rest: &'a [u8],
    // The number of the next line, from 1.
    number: u64,
}

impl<'a> Model for Lines<'a> {
    ghost use Rattle.std.specs.Prelude.{ℕ, List, ◌+◌, ◌<◌, ◌^◌, length};
    ghost use Rattle.std.specs.List.{enumerate_from};
    ghost use Rattle.std.specs.Str.Lines.{lines};

    ghost Value = { List (ℕ × List ℕ) };

    ghost view = { λ s. enumerate_from s.number (lines s.rest.now) };

    ghost invariant = { λ s. s.number + length s.rest.now < 2 ^ 64 };
}

impl<'a> Lines<'a> {
    /// All lines of a text.
    pub fn of(rest: &'a [u8]) -> Self
        ensures { result ≡ numbered_text rest.now }
    {
        Lines { rest, number: 1 }
    }
}

impl<'a> Iterator for Lines<'a> {
    type Item = (u64, &'a [u8]);

    ghost next_gives = { YieldsFirstBy (λ item. (item.0, item.1.now)) (λ s. s) };

    ghost remaining = { item_count (λ s. s) };

    fn next(&mut self) -> Option<(u64, &'a [u8])> {
        let text = self.rest;
        if text.is_empty() {
            return None;
        }
        let number = self.number;
        self.number += 1;
        match memchr(b'\n', text) {
            Some(end) => {
                self.rest = &text[end + 1..];
                Some((number, without_return(&text[..end])))
            }
            None => {
                self.rest = &text[text.len()..];
                Some((number, text))
            }
        }
    }
}

/// Where the first line feed stands.
pub fn line_feed_at(text: &[u8]) -> Option<usize>
    ensures { MatchOption result (IsNoFeed text.now) (IsFirstFeed text.now) }
{
    match memchr(b'\n', text) {
        Some(end) => Some(end),
        None => None,
    }
}

/// The bytes before the first line feed, and those behind it.
pub fn split_line(text: &[u8]) -> Option<(&[u8], &[u8])>
    ensures { MatchOption result (IsNoFeed text.now)
        (λ parts. IsFirstLine text.now parts.0.now parts.1.now) }
{
    let end = line_feed_at(text)?;
    Some((&text[..end], &text[end + 1..]))
}

/// The bytes before a line feed, less one carriage return at their end.
pub fn without_return(line: &[u8]) -> &[u8]
    ensures { result.now ≡ strip_carriage_return line.now }
{
    match line {
        [front @ .., b'\r'] => front,
        _ => line,
    }
}

/// The tokens of a line: the longest runs of bytes that are neither spaces nor tabs.
#[derive(Drop)]
pub struct Tokens<'a> {
    // The bytes behind the last token.
    rest: &'a [u8],
}

impl<'a> Model for Tokens<'a> {
    ghost use Rattle.std.specs.Prelude.{ℕ, List};
    ghost use Rattle.text.specs.Text.{tokens_of};

    ghost Value = { List (List ℕ) };

    ghost view = { λ s. tokens_of s.rest.now };
}

impl<'a> Tokens<'a> {
    /// All tokens of a line.
    pub fn of(rest: &'a [u8]) -> Self
        ensures { result ≡ tokens_of rest.now }
    {
        Tokens { rest }
    }

    /// What the next token says. A literal after one space, as most tokens are, is read in one pass
    /// over its bytes.
    pub fn next_word(&mut self) -> Option<Word>
        ensures { MatchOption result (self.old ≡ []) (λ w. IsNextWord self.old w self.new) }
    {
        if begins_with(self.rest, b' ') {
            let rest = &self.rest[1..];
            if let Some(found) = literal_at(rest) {
                self.rest = &rest[found.1..];
                return Some(Word::Literal(found.0));
            }
        }
        match self.next() {
            None => None,
            Some(token) => Some(read_word(token)),
        }
    }
}

impl<'a> Iterator for Tokens<'a> {
    type Item = &'a [u8];

    ghost next_gives = { YieldsFirstRef (λ s. s) };

    ghost remaining = { item_count (λ s. s) };

    fn next(&mut self) -> Option<&'a [u8]> {
        let rest = &self.rest[blanks_at(self.rest)..];
        if rest.is_empty() {
            self.rest = rest;
            return None;
        }
        let (token, after) = rest.split_at(token_at(rest));
        self.rest = after;
        Some(token)
    }
}

// How many blanks the bytes begin with.
fn blanks_at(bytes: &[u8]) -> usize
    ensures blanks { result ≡ prefix_len is_blank bytes.now }
    ensures within { result ≤ length bytes.now }
{
    for (i, byte) in bytes.iter().enumerate() {
        if !is_blank(*byte) {
            return i;
        }
    }
    bytes.len()
}

// How many bytes stand before the first blank.
fn token_at(bytes: &[u8]) -> usize
    ensures token { result ≡ position_or_len is_blank bytes.now }
    ensures within { result ≤ length bytes.now }
{
    for (i, byte) in bytes.iter().enumerate() {
        if is_blank(*byte) {
            return i;
        }
    }
    bytes.len()
}
