//! A reader of which the first bytes are kept: they say what kind of file it is.
ghost use Rattle.std.specs.Prelude.{◌≡◌};

use std::io::{self, Read};

/// How many of the first bytes are kept, at most.
const MOST_KEPT: usize = 6;

/// A reader, and the first bytes that it gave.
#[derive(Drop)]
pub struct Beginning<F: Read> {
    /// Where the bytes come from.
    file: F,
    /// The first bytes stand in front.
    first: [u8; MOST_KEPT],
    /// How many they are, at most all.
    count: usize,
}

impl<F: Read> Beginning<F> {
    /// Nothing was read yet.
    pub fn new(file: F) -> Self {
        Beginning {
            file,
            first: [0; MOST_KEPT],
            count: 0,
        }
    }

    /// The first bytes that were read.
    pub fn first(&self) -> &[u8] {
        self.first.get(..self.count).unwrap_or(&[])
    }

    /// Keeps the first of the bytes that come next.
    fn keep(&mut self, bytes: &[u8])
        ensures { self.new.file ≡ self.old.file }
    {
        for byte in bytes {
            if self.count >= MOST_KEPT {
                return;
            }
            self.first[self.count] = *byte;
            self.count += 1;
        }
    }
}

impl<F: Read> Read for Beginning<F> {
    ghost remaining = { λ b. F.remaining b.file };

    fn read(&mut self, buf: &mut [u8]) -> io::Result<usize> {
        let count = self.file.read(buf)?;
        self.keep(&buf[..count]);
        Ok(count)
    }
}
