//! The file of a certificate that a run goes on with: how long its whole lines are, and what writes
//! behind them.
ghost use Rattle.std.specs.Prelude.{◌≡◌, ◌+◌, ◌<◌, ◌^◌, None, Some, OnOk, OnErr};
ghost use Rattle.std.specs.Prelude.{IfOk, length, take};
ghost use Rattle.std.specs.Io.{ReadsAtMost, WritesAtMost};
ghost use Rattle.std.specs.Io.KnownBytes.{ReadConsumes};
ghost use Rattle.wmax_onlooker.specs.ResumedFile.{ended_after};

use std::fs::OpenFile;
use std::io::{self, ErrorKind, Read, Seek, SeekFrom, Write};

/// A reader that notes where the last line ends.
#[derive(Drop)]
pub struct WholeLines<F: Read> {
    /// Where the bytes come from.
    file: F,
    /// How many bytes were read.
    count: u64,
    /// How many of them go up to the last line feed, which is one of them; 0 before the first.
    ended: u64,
}

impl<F: Read> WholeLines<F> {
    /// Nothing was read yet.
    pub fn new(file: F) -> Self
        ensures file { result.file ≡ file }
        ensures count { result.count ≡ 0 }
        ensures ended { result.ended ≡ 0 }
    {
        WholeLines {
            file,
            count: 0,
            ended: 0,
        }
    }

    /// How many bytes were read up to the last line feed, which is one of them.
    pub fn ended(&self) -> u64
        ensures { result ≡ self.now.ended }
    {
        self.ended
    }

    /// Where the bytes come from.
    pub fn into_file(self) -> F
        ensures { result ≡ self.file }
    {
        self.file
    }

    /// Takes note of the bytes that come next.
    fn note(&mut self, bytes: &[u8])
        requires room { self.old.count + length bytes.now < 2 ^ 64 }
        ensures file { self.new.file ≡ self.old.file }
        ensures count { self.new.count ≡ self.old.count + length bytes.now }
        ensures ended { self.new.ended ≡ ended_after self.old.count self.old.ended bytes.now }
    {
        for byte in bytes {
            self.count += 1;
            if *byte == b'\n' {
                self.ended = self.count;
            }
        }
    }
}

impl<F: Read> Read for WholeLines<F> {
    ghost remaining = { λ r. F.remaining r.file };

    /// A file of 2^64 bytes or more counts as one that cannot be read.
    fn read(&mut self, buf: &mut [u8]) -> io::Result<usize>
        ensures bound { ReadsAtMost result buf.new }
        ensures bytes { ReadConsumes (F.remaining self.old.file) (F.remaining self.new.file)
            result buf.new }
        ensures count { IfOk result (λ n. self.new.count ≡ self.old.count + n) }
        ensures ended { IfOk result (λ n. self.new.ended
            ≡ ended_after self.old.count self.old.ended (take n buf.new)) }
    {
        if self.count > u64::MAX - buf.len() as u64 {
            return Err(io::Error::from(ErrorKind::FileTooLarge));
        }
        let count = self.file.read(buf)?;
        self.note(&buf[..count]);
        Ok(count)
    }
}

/// Writes behind the first bytes of a file. It stays as it is until the first byte comes or the
/// flush: then what follows these bytes is cut off.
#[derive(Drop)]
pub struct ResumedFile<F: Write + Seek + OpenFile> {
    /// The file.
    file: F,
    /// How many bytes stay; none once what follows them is cut off.
    kept: Option<u64>,
}

impl<F: Write + Seek + OpenFile> ResumedFile<F> {
    /// Writes behind the first `kept` bytes of a file.
    pub fn new(file: F, kept: u64) -> Self
        ensures file { result.file ≡ file }
        ensures kept { result.kept ≡ Some kept }
    {
        ResumedFile {
            file,
            kept: Some(kept),
        }
    }

    /// Cuts off what follows the bytes that stay, unless that was done.
    ///
    /// # Errors
    ///
    /// That of the file. What follows may be cut off then, and counts as not.
    fn cut(&mut self) -> io::Result<()>
        ensures cut { OnOk result (self.new.kept ≡ None) }
        ensures kept { OnErr result (self.new.kept ≡ self.old.kept) }
    {
        let Some(kept) = self.kept else {
            return Ok(());
        };
        self.file.set_len(kept)?;
        self.file.seek(SeekFrom::Start(kept))?;
        self.kept = None;
        Ok(())
    }
}

// What a file has is not known here.
impl<F: Write + Seek + OpenFile> Write for ResumedFile<F> {
    fn write(&mut self, buf: &[u8]) -> io::Result<usize>
        ensures bound { WritesAtMost result buf.now }
        ensures cut { OnOk result (self.new.kept ≡ None) }
    {
        self.cut()?;
        self.file.write(buf)
    }

    fn flush(&mut self) -> io::Result<()>
        ensures cut { OnOk result (self.new.kept ≡ None) }
    {
        self.cut()?;
        self.file.flush()
    }
}
