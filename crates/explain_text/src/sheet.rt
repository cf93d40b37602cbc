// A text on its way to a writer, put piece by piece. The first failure is the last write: what is
// put after it is dropped, and `finish` reports it. So the failure of a text in many pieces is
// handled in one place.
ghost use Rattle.std.specs.Prelude.{◌≡◌, [], false, OnOk, OnErr};
ghost use Rattle.std.specs.Fmt.{decimal};
ghost use Rattle.std.specs.Io.KnownBytes.{Appends};
ghost use Rattle.explain_text.specs.Sheets.{IsCutOff, Displays};

use std::io::Write;
use text::output::{Block, WriteFault};

/// What was put, as far as it is not written yet.
#[derive(Drop)]
pub struct Sheet {
    // What was put and not written.
    block: Block,
    // Whether the writer failed.
    has_failed: bool,
}

impl Sheet {
    /// Nothing was put yet.
    pub fn new() -> Self
        ensures empty { result.block ≡ [] }
        ensures whole { result.has_failed ≡ false }
    {
        Sheet {
            block: Block::new(),
            has_failed: false,
        }
    }

    /// Puts the text.
    pub fn put<W: Write>(&mut self, writer: &mut W, text: &[u8])
        ensures { Displays (W.contents writer.old) self.old text.now (W.contents writer.new)
            self.new }
    {
        if !self.has_failed {
            self.has_failed = self.block.put(writer, text).is_err();
        }
    }

    /// Puts the number in decimal digits.
    pub fn put_number<W: Write>(&mut self, writer: &mut W, number: u64)
        ensures { Displays (W.contents writer.old) self.old (decimal number)
            (W.contents writer.new) self.new }
    {
        if !self.has_failed {
            self.has_failed = self.block.put_number(writer, number).is_err();
        }
    }

    /// Writes what was put and not written.
    ///
    /// # Errors
    ///
    /// `WriteFault` where the writer failed, now or before.
    pub fn finish<W: Write>(self, writer: &mut W) -> Result<(), WriteFault>
        ensures ok { OnOk result ((self.has_failed ≡ false)
            × Appends (W.contents writer.old) (W.contents writer.new) self.block) }
        ensures fault { OnErr result
            (IsCutOff (W.contents writer.old) self (W.contents writer.new)) }
    {
        let Sheet {
            mut block,
            has_failed,
        } = self;
        if has_failed {
            return Err(WriteFault);
        }
        block.flush(writer)
    }
}
