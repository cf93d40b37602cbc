// The text on its way to a writer. After a failed write nothing more is written.
ghost use Rattle.std.specs.Prelude.{◌≡◌, ◌∷◌, ◌++◌, [], false};
ghost use Rattle.std.specs.Fmt.{decimal};
ghost use Rattle.text.specs.Text.{literal_text};
ghost use Rattle.cuts_log.specs.Outs.{Says, feed, fresh};

use cnf::types::Lit;
use std::io::Write;
use std::marker::Model;
use text::output::Block;

/// A writer, and the bytes that were put out but not yet written.
#[derive(Drop)]
pub(crate) struct Out<W: Write> {
    // What was put out and not written; empty after a failed write.
    block: Block,
    // Where the text goes.
    writer: W,
    // Whether a write has failed. It stays so.
    failed: bool,
}

impl<W: Write> Model for Out<W> {
    ghost use Rattle.cuts_log.specs.Outs.{OutState};

    ghost Value = { OutState };

    ghost view = { λ o. record { had = W.contents o.writer; held = o.block; failed = o.failed } };
}

impl<W: Write> Out<W> {
    /// Nothing was put out yet.
    pub(crate) fn new(writer: W) -> Self
        ensures { result ≡ fresh (W.contents writer) }
    {
        Out {
            block: Block::new(),
            writer,
            failed: false,
        }
    }

    /// Whether a write has failed.
    pub(crate) fn has_failed(&self) -> bool
        ensures { result ≡ self.now.failed }
    {
        self.failed
    }

    /// Puts the text.
    pub(crate) fn put(&mut self, text: &[u8])
        ensures { Says self.old text.now self.new }
    {
        if !self.failed {
            self.failed = self.block.put(&mut self.writer, text).is_err();
        }
    }

    /// Puts the literal with a space behind it.
    pub(crate) fn put_lit(&mut self, lit: Lit)
        ensures { Says self.old (literal_text lit ++ 32 ∷ []) self.new }
    {
        if !self.failed {
            self.failed = self.block.put_spaced(&mut self.writer, lit).is_err();
        }
    }

    /// Puts the number in decimal digits.
    pub(crate) fn put_number(&mut self, number: u64)
        ensures { Says self.old (decimal number) self.new }
    {
        if !self.failed {
            self.failed = self.block.put_number(&mut self.writer, number).is_err();
        }
    }

    /// Puts a line feed, where one is due.
    pub(crate) fn put_feed(&mut self, is_due: bool)
        ensures { Says self.old (feed is_due) self.new }
    {
        if is_due {
            self.put(b"\n");
        }
    }

    /// Writes what was put out. The writer is not flushed.
    pub(crate) fn flush(&mut self)
        ensures says { Says self.old [] self.new }
        ensures empty { self.new.failed ≡ false → self.new.held ≡ [] }
    {
        if !self.failed {
            self.failed = self.block.flush(&mut self.writer).is_err();
        }
    }

    /// The writer. What was put out and not written is lost.
    pub(crate) fn into_writer(self) -> W
        ensures { W.contents result ≡ self.had }
    {
        self.writer
    }
}
