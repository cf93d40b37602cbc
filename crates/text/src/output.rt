// Texts on their way to a writer. A writer over a file makes a system call of each write, and a
// text is made of tokens of a few bytes: so they are gathered in a block of fixed size, which asks
// for no memory. No failed write is tried again.
ghost use Rattle.std.specs.Prelude.{◌≡◌, ◌<◌, ◌≤◌, ◌+◌, ◌∷◌, ◌++◌, [], length, take};
ghost use Rattle.std.specs.Prelude.{OnErr};
ghost use Rattle.std.specs.Fmt.{decimal};
ghost use Rattle.cnf.specs.declared.limits.TheConstants.{VARIABLE_LIMIT};
ghost use Rattle.text.specs.Text.{literal_text};
ghost use Rattle.text.specs.Writing.{Writes, Puts};

use cnf::types::Lit;
use itoa::{Buffer, write_digits};
use std::io::Write;
use std::marker::Model;

/// The writer answered an error, or took none of the bytes of a piece that was not empty.
#[derive(Clone, Copy, Debug, PartialEq, Eq, Drop)]
pub struct WriteFault;

/// How many bytes a block gathers.
pub const BLOCK_SIZE: usize = 8192;

/// Room for a literal and a space: a dash, nine digits and the space are eleven bytes.
const LITERAL_ROOM: usize = 11;

/// Bytes that were put out, but not yet written.
#[derive(Drop)]
pub struct Block {
    // What was put out stands in front.
    bytes: [u8; BLOCK_SIZE],
    // How many bytes were put out, at most all.
    filled: usize,
}

impl Model for Block {
    ghost use Rattle.std.specs.Prelude.{ℕ, List, ◌≤◌, length, take};

    ghost Value = { List ℕ };

    ghost view = { λ b. take b.filled b.bytes };

    ghost invariant = { λ b. b.filled ≤ length b.bytes };
}

impl Block {
    /// An empty block.
    pub fn new() -> Self
        ensures { result ≡ [] }
    {
        Block {
            bytes: [0; BLOCK_SIZE],
            filled: 0,
        }
    }

    /// Puts the text after what the block holds, and writes the block where it has no room for it.
    ///
    /// # Errors
    ///
    /// `WriteFault` where the writer failed. The writer then has a beginning of what the block held
    /// and the text, and the block is empty.
    pub fn put<W: Write>(&mut self, writer: &mut W, text: &[u8]) -> Result<(), WriteFault>
        ensures puts { Puts result (W.contents writer.old) self.old text.now
            (W.contents writer.new) self.new }
        ensures lost { OnErr result (self.new ≡ []) }
    {
        if BLOCK_SIZE - self.filled < text.len() {
            self.flush(writer)?;
            if BLOCK_SIZE < text.len() {
                return write_piece(writer, text);
            }
        }
        self.fill(text);
        Ok(())
    }

    /// Puts the number in decimal digits.
    ///
    /// # Errors
    ///
    /// As `put`.
    pub fn put_number<W: Write>(&mut self, writer: &mut W, number: u64) -> Result<(), WriteFault>
        ensures puts { Puts result (W.contents writer.old) self.old (decimal number)
            (W.contents writer.new) self.new }
        ensures lost { OnErr result (self.new ≡ []) }
    {
        self.put(writer, Buffer::new().format(number).as_bytes())
    }

    /// Puts the literal, and a space after it. This takes one test for room, and no copy.
    ///
    /// # Errors
    ///
    /// As `put`.
    pub fn put_spaced<W: Write>(&mut self, writer: &mut W, lit: Lit) -> Result<(), WriteFault>
        ensures puts { Puts result (W.contents writer.old) self.old (literal_text lit ++ 32 ∷ [])
            (W.contents writer.new) self.new }
        ensures lost { OnErr result (self.new ≡ []) }
    {
        if BLOCK_SIZE - self.filled < LITERAL_ROOM {
            self.flush(writer)?;
        }
        self.fill_spaced(lit);
        Ok(())
    }

    /// Writes what the block holds. The writer is not flushed.
    ///
    /// # Errors
    ///
    /// `WriteFault` where the writer failed. The writer then has a beginning of what the block
    /// held, and the block is empty.
    pub fn flush<W: Write>(&mut self, writer: &mut W) -> Result<(), WriteFault>
        ensures writes { Writes result (W.contents writer.old) self.old (W.contents writer.new) }
        ensures empty { self.new ≡ [] }
    {
        let held = self.filled;
        self.filled = 0;
        write_piece(writer, &self.bytes[..held])
    }

    /// Copies the text behind what the block holds.
    fn fill(&mut self, text: &[u8])
        requires { length self.old + length text.now ≤ BLOCK_SIZE }
        ensures { self.new ≡ self.old ++ text.now }
    {
        let end = self.filled + text.len();
        self.bytes[self.filled..end].copy_from_slice(text);
        self.filled = end;
    }

    /// Puts the literal and a space behind what the block holds. The digits begin after the dash or
    /// in its place: a branch on the sign would be guessed wrong half of the time.
    fn fill_spaced(&mut self, lit: Lit)
        requires { length self.old + LITERAL_ROOM ≤ BLOCK_SIZE }
        ensures { self.new ≡ self.old ++ (literal_text lit ++ 32 ∷ []) }
    {
        self.bytes[self.filled] = b'-';
        let start = self.filled + usize::from(lit.is_negated());
        self.filled = write_spaced(&mut self.bytes, start, lit.variable());
    }
}

/// Writes the number from `start` on, and a space; answers where the space ends.
fn write_spaced(bytes: &mut [u8], start: usize, number: u32) -> usize
    requires small { number < VARIABLE_LIMIT }
    requires room { start + 10 ≤ length bytes.old }
    ensures written { take result bytes.new ≡ take start bytes.old ++ (decimal number ++ 32 ∷ []) }
    ensures within { result ≤ length bytes.old }
{
    let end = start + digit_count(number);
    let _start = write_digits(u64::from(number), bytes, end);
    bytes[end] = b' ';
    end + 1
}

/// How many digits the number has, told without a branch.
fn digit_count(number: u32) -> usize
    requires { number < VARIABLE_LIMIT }
    ensures count { result ≡ length (decimal number) }
    ensures most { result ≤ 9 }
{
    let low = 1
        + reaches(number, 10)
        + reaches(number, 100)
        + reaches(number, 1_000)
        + reaches(number, 10_000);
    low + reaches(number, 100_000)
        + reaches(number, 1_000_000)
        + reaches(number, 10_000_000)
        + reaches(number, 100_000_000)
}

/// 1 where the number is at least the bound, else 0.
fn reaches(number: u32, bound: u32) -> usize
    ensures { (bound ≤ number → result ≡ 1) × (number < bound → result ≡ 0) }
{
    usize::from(number >= bound)
}

/// Writes the whole piece, by as many writes as it takes.
///
/// # Errors
///
/// `WriteFault` where the writer answered `Err`, or took none of the bytes that were left. It has
/// then a beginning of the piece.
pub fn write_piece<W: Write>(writer: &mut W, piece: &[u8]) -> Result<(), WriteFault>
    ensures { Writes result (W.contents writer.old) piece.now (W.contents writer.new) }
{
    let mut rest = piece;
    while !rest.is_empty() {
        match writer.write(rest) {
            Ok(0) | Err(_) => return Err(WriteFault),
            Ok(count) => rest = &rest[count..],
        }
    }
    Ok(())
}
