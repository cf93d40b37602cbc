//! Standard output, of which it is known whether nobody reads it any more.
ghost use Rattle.std.specs.Prelude.{◌≡◌, ◌||◌, false};
ghost use Rattle.std.specs.Io.{WritesAtMost};
ghost use Rattle.std.specs.Io.KnownBytes.{Keeps, WriteAppends};
ghost use Rattle.wmax_onlooker.specs.StandardOutput.{is_for_closing};

use std::io::{self, ErrorKind, Printer, Write};

/// A writer whose reader may go away, as that of a pipe does.
#[derive(Drop)]
pub struct Output<W: Write> {
    /// Where the bytes go.
    writer: W,
    /// Whether a write failed since nobody reads any more. It stays so.
    is_closed: bool,
}

/// Standard output; nothing is known yet of its reader.
pub fn standard_output<R: Print>(rt: &R) -> Output<Printer<'_, R>> {
    Output::new(io::writer(rt))
}

impl<W: Write> Output<W> {
    /// Nothing has failed yet.
    pub fn new(writer: W) -> Self
        ensures holds { result.writer ≡ writer }
        ensures works { result.is_closed ≡ false }
    {
        Output {
            writer,
            is_closed: false,
        }
    }

    /// Whether a write failed since nobody reads any more.
    pub fn is_closed(&self) -> bool
        ensures { result ≡ self.now.is_closed }
    {
        self.is_closed
    }
}

impl<W: Write> Write for Output<W> {
    ghost contents = { λ o. W.contents o.writer };

    fn write(&mut self, buf: &[u8]) -> io::Result<usize>
        ensures bound { WritesAtMost result buf.now }
        ensures bytes { WriteAppends (W.contents self.old.writer) (W.contents self.new.writer)
            result buf.now }
        ensures closed { self.new.is_closed ≡ (self.old.is_closed || is_for_closing result) }
    {
        let taken = self.writer.write(buf);
        self.is_closed = self.is_closed || is_for_closing(&taken);
        taken
    }

    fn flush(&mut self) -> io::Result<()>
        ensures bytes { Keeps (W.contents self.old.writer) (W.contents self.new.writer) }
        ensures closed { self.new.is_closed ≡ (self.old.is_closed || is_for_closing result) }
    {
        let flushed = self.writer.flush();
        self.is_closed = self.is_closed || is_for_closing(&flushed);
        flushed
    }
}

/// Whether it failed since nobody reads any more.
pub fn is_for_closing<T>(outcome: &io::Result<T>) -> bool
    ensures { result ≡ is_for_closing outcome.now }
{
    match outcome {
        Ok(_) => false,
        Err(error) => matches!(error.kind(), ErrorKind::BrokenPipe),
    }
}
