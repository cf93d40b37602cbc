// Which lines of a text have its clauses, each with the comment that belongs to it. The text reads
// as an instance: what is no clause there is blank, a comment, or the header of the older form.
ghost use Rattle.std.specs.Prelude.{◌≡◌};

use crate::names::is_name;
use std::alloc::{AllocError, Global};
use std::marker::Model;
use text::cutting::{lines, tokens};

/// A clause as the text has it.
#[derive(Drop)]
pub struct ClauseLine<'a> {
    // The number of its line, from 1.
    line: u64,
    // The line.
    text: &'a [u8],
    // The last comment between the clause before it and this one that names no variable, unless a
    // blank line or an empty comment follows it; else empty.
    comment: &'a [u8],
}

impl<'a> Model for ClauseLine<'a> {
    ghost use Rattle.explain.specs.ClauseLines.{SourceLine};

    ghost Value = { SourceLine };

    ghost view = { λ c. record { number = c.line; text = c.text.now; comment = c.comment.now } };
}

impl<'a> ClauseLine<'a> {
    /// The number of its line, from 1.
    pub fn line(&self) -> u64
        ensures { result ≡ self.now.number }
    {
        self.line
    }

    /// The line.
    pub fn text(&self) -> &[u8]
        ensures { result.now ≡ self.now.text }
    {
        self.text
    }

    /// The last comment between the clause before it and this one that names no variable, unless a
    /// blank line or an empty comment follows it; else empty.
    pub fn comment(&self) -> &[u8]
        ensures { result.now ≡ self.now.comment }
    {
        self.comment
    }
}

/// The lines of soft clauses, and of some hard ones.
#[derive(Drop)]
pub struct ClauseLines<'a> {
    /// Of all soft clauses, in their order.
    pub soft: Vec<ClauseLine<'a>>,
    /// Of the hard clauses that were asked for, in their order.
    pub hard: Vec<ClauseLine<'a>>,
    // How many hard clauses were met.
    hard_count: u32,
}

impl<'a> ClauseLines<'a> {
    /// Those of all soft clauses of the text, and of the hard ones with these numbers, which
    /// count from 0 and rise.
    pub fn of(alloc: Global, text: &'a [u8], wanted: &[u32]) -> Result<Self, AllocError> {
        let mut clauses = ClauseLines {
            soft: Vec::new(alloc),
            hard: Vec::new(alloc),
            hard_count: 0,
        };
        // The first token of a hard clause: in the older form the weight that the header says.
        let mut hard_word: &[u8] = b"h";
        let mut comment: &[u8] = b"";
        for (line, text) in lines(text) {
            let clause = ClauseLine {
                line,
                text,
                comment,
            };
            match tokens(text).next() {
                None => comment = b"",
                Some([b'c']) if is_name(text) => (),
                Some([b'c']) => comment = comment_in(text),
                Some([b'c', ..]) => comment = text,
                Some([b'p']) => hard_word = last_token(text),
                Some(word) => {
                    clauses.add(clause, word == hard_word, wanted)?;
                    comment = b"";
                }
            }
        }
        Ok(clauses)
    }

    /// A clause comes; a hard one is kept where it was asked for.
    fn add(
        &mut self,
        clause: ClauseLine<'a>,
        is_hard: bool,
        wanted: &[u32],
    ) -> Result<(), AllocError> {
        if !is_hard {
            return self.soft.push(clause).map_err(AllocError::from);
        }
        if wanted.get(self.hard.len()) == Some(&self.hard_count) {
            self.hard.push(clause)?;
        }
        self.hard_count = self.hard_count.saturating_add(1);
        Ok(())
    }
}

/// The line of a comment; nothing where it has no word but the `c`.
fn comment_in(line: &[u8]) -> &[u8] {
    let mut words = tokens(line);
    let _ = words.next();
    match words.next() {
        None => b"",
        Some(_) => line,
    }
}

/// The last token of a line; nothing where it has none.
fn last_token(line: &[u8]) -> &[u8] {
    let mut last: &[u8] = b"";
    for token in tokens(line) {
        last = token;
    }
    last
}
