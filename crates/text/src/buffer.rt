// The lines of a text that comes in pieces, which may end anywhere: also within a token, or between
// a carriage return and its line feed. A line is whole once its line feed is there, and only what
// follows the last line feed is kept.
ghost use Rattle.std.specs.Prelude.{◌≡◌, ◌<◌, ◌++◌, [], true, false, length, IfOk, OnOk, OnErr};
ghost use Rattle.std.specs.Str.Lines.{strip_carriage_return};

use crate::pieces::without_return;
use std::alloc::{AllocError, Global};
use std::marker::Model;

/// What follows the last line feed of the pieces so far.
#[derive(Drop)]
pub struct LineBuffer {
    // Those bytes; after `line_ended_by`, until `clear`, perhaps a whole line.
    kept: Vec<u8>,
}

impl Model for LineBuffer {
    ghost use Rattle.std.specs.Prelude.{ℕ, List};

    ghost Value = { List ℕ };

    ghost view = { λ b. b.kept.items };
}

impl LineBuffer {
    /// The buffer before the first piece.
    pub fn new(alloc: Global) -> Self
        ensures { result ≡ [] }
    {
        LineBuffer {
            kept: Vec::new(alloc),
        }
    }

    /// The line that these bytes and a line feed end. It is copied only where it began in an
    /// earlier piece. What is kept then is not told: `clear` has to follow.
    pub fn line_ended_by<'a>(&'a mut self, end: &'a [u8]) -> Result<&'a [u8], AllocError>
        ensures { IfOk result (λ line. line.now ≡ strip_carriage_return (self.old ++ end.now)) }
    {
        if self.is_empty() {
            return Ok(without_return(end));
        }
        self.kept.extend_from_slice(end)?;
        Ok(without_return(&self.kept))
    }

    /// Drops what is kept.
    pub fn clear(&mut self)
        ensures { self.new ≡ [] }
    {
        self.kept.clear();
    }

    /// Keeps the bytes, in which no line ends.
    pub fn keep(&mut self, bytes: &[u8]) -> Result<(), AllocError>
        ensures kept { OnOk result (self.new ≡ self.old ++ bytes.now) }
        ensures err { OnErr result (self.new ≡ self.old) }
    {
        self.kept.extend_from_slice(bytes)
    }

    /// Whether nothing follows the last line feed.
    pub fn is_empty(&self) -> bool
        ensures empty { result ≡ true → self.now ≡ [] }
        ensures some { result ≡ false → 0 < length self.now }
    {
        self.kept.as_slice().is_empty()
    }

    /// What follows the last line feed.
    pub fn bytes(&self) -> &[u8]
        ensures { result.now ≡ self.now }
    {
        &self.kept
    }
}
