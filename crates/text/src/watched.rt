// A reader and a writer of which it is known whether they have failed. The laws of `std::io` say
// nothing about that: under them an error might be ignored, and the call made again.
ghost use Rattle.std.specs.Prelude.{◌≡◌, ◌+◌, ◌<◌, ◌^◌, ◌||◌, true, false, is_err, Ok, OnOk};
ghost use Rattle.std.specs.Io.{ReadsAtMost, WritesAtMost};
ghost use Rattle.std.specs.Io.KnownBytes.{Keeps, ReadConsumes, WriteAppends};
ghost use Rattle.text.specs.Writing.{write_fails};

use std::io;
use std::io::{Read, Write};

/// How many bytes a reader is asked for at once.
pub const READ_SIZE: usize = 65_536;

/// The reader answered an error, or was read 2^64 times already.
#[derive(Clone, Copy, Debug, PartialEq, Eq, Drop)]
pub struct ReadFailure;

/// A reader that is read no further once it has failed.
#[derive(Drop)]
pub struct WatchedReader<'a, R: Read> {
    // Where the bytes come from.
    reader: &'a mut R,
    // How often it was read without an error.
    reads: u64,
    // Whether a read has failed. It stays so.
    has_failed: bool,
}

impl<'a, R: Read> WatchedReader<'a, R> {
    /// The reader has not failed yet.
    pub fn new(reader: &'a mut R) -> Self
        ensures reader { result.reader.ghost_name ≡ reader.entry.ghost_name }
        ensures gives { result.reader.now ≡ reader.old }
        ensures works { result.has_failed ≡ false }
    {
        WatchedReader {
            reader,
            reads: 0,
            has_failed: false,
        }
    }

    /// Hands the reader back.
    pub fn finish(self) -> &'a mut R
        ensures { result ≡ self.entry.reader }
    {
        let WatchedReader { reader, .. } = self;
        reader
    }

    /// One read, of a reader that has not failed.
    ///
    /// # Errors
    ///
    /// `ReadFailure` where it fails.
    pub fn read(&mut self, buf: &mut [u8]) -> Result<usize, ReadFailure>
        requires { self.old.has_failed ≡ false }
        ensures bound { ReadsAtMost result buf.new }
        ensures bytes { ReadConsumes (R.remaining self.old.reader.now)
            (R.remaining self.new.reader.now) result buf.new }
        ensures failed { self.new.has_failed ≡ is_err result }
        ensures counts { OnOk result (self.new.reads ≡ self.old.reads + 1) }
        ensures most { OnOk result (self.new.reads < 2 ^ 64) }
        ensures reader { self.new.reader.ghost_name ≡ self.old.reader.ghost_name }
    {
        if self.reads < u64::MAX {
            if let Ok(count) = self.reader.read(buf) {
                self.reads += 1;
                return Ok(count);
            }
        }
        self.has_failed = true;
        Err(ReadFailure)
    }
}

/// A writer to which nothing more is written once it has failed.
#[derive(Drop)]
pub struct WatchedWriter<'a, W: Write> {
    // Where the bytes go.
    writer: &'a mut W,
    // Whether it has answered an error, or took none of some bytes. It stays so.
    has_failed: bool,
}

impl<'a, W: Write> WatchedWriter<'a, W> {
    /// The writer has not failed yet.
    pub fn new(writer: &'a mut W) -> Self
        ensures writer { result.writer.ghost_name ≡ writer.entry.ghost_name }
        ensures holds { result.writer.now ≡ writer.old }
        ensures works { result.has_failed ≡ false }
    {
        WatchedWriter {
            writer,
            has_failed: false,
        }
    }

    /// Whether the writer has failed.
    pub fn has_failed(&self) -> bool
        ensures { result ≡ self.now.has_failed }
    {
        self.has_failed
    }
}

impl<'a, W: Write> Write for WatchedWriter<'a, W> {
    ghost contents = { λ w. W.contents w.writer.now };

    // Once it has failed, no bytes are taken, and nothing is asked of the writer.
    fn write(&mut self, buf: &[u8]) -> io::Result<usize>
        ensures bound { WritesAtMost result buf.now }
        ensures bytes { WriteAppends (W.contents self.old.writer.now)
            (W.contents self.new.writer.now) result buf.now }
        ensures failed { self.old.has_failed ≡ false
            → self.new.has_failed ≡ write_fails result buf.now }
        ensures rests { self.old.has_failed ≡ true → (self.new ≡ self.old) × (result ≡ Ok 0) }
    {
        if self.has_failed {
            return Ok(0);
        }
        let taken = self.writer.write(buf);
        self.has_failed = match &taken {
            Ok(count) => *count == 0 && !buf.is_empty(),
            Err(_) => true,
        };
        taken
    }

    fn flush(&mut self) -> io::Result<()>
        ensures bytes { Keeps (W.contents self.old.writer.now) (W.contents self.new.writer.now) }
        ensures failed { self.new.has_failed ≡ (self.old.has_failed || is_err result) }
    {
        let flushed = self.writer.flush();
        self.has_failed = self.has_failed || flushed.is_err();
        flushed
    }
}
