// What the solver puts out reaches the writer.
ghost use Rattle.std.specs.Prelude.{◌≡◌, [], true, false, OnOk};
ghost use Rattle.cuts_log.specs.Books.{IsBook};
ghost use Rattle.cuts_log.specs.Logs.{IsKept, SameLog, lines_seen};

use super::{CutsSolver, Written};
use cuts_log::law::texts_are_right;
use cuts_log::log::CutsLog;
use std::alloc::AllocError;
use std::io::Write;

impl<W: Write + Drop> CutsSolver<W> {
    ghost use Rattle.cuts_solver.specs.Solving.{SameSolver};
    ghost use Rattle.cuts_solver.specs.Solving.{HasWritten, HasBegunToWrite};

    /// Writes what was put out and not written: the writer has all lines so far then. It is not
    /// flushed.
    ///
    /// # Errors
    ///
    /// `AllocError` where the solver has failed, or where the writer fails.
    pub fn flush(&mut self) -> Result<(), AllocError>
        ensures whole { OnOk result (HasWritten self.old self.new.log.book.out.had) }
        ensures part { HasBegunToWrite self.old self.new.log.book.out.had }
        ensures works { OnOk result (self.new.failed ≡ false) }
        ensures log { self.new.log ≡ record self.old.log {
          book = record self.old.log.book {
            out = self.new.log.book.out;
            failed = self.new.log.book.failed;
          };
        } }
        ensures rest { self.new
            ≡ record self.old { log = self.new.log; failed = self.new.failed } }
        ensures same { SameSolver self.old self.new }
    {
        texts_are_right();
        let is_whole = flush_all(&mut self.log, self.failed);
        self.failed = !is_whole;
        if !is_whole {
            return Err(AllocError);
        }
        Ok(())
    }

    /// The writer, with all that was put out. Where that could not be written, or memory was
    /// refused before, it has a beginning of it. Its lines are right up to the last line feed.
    pub fn finish(mut self) -> Written<W>
        ensures whole { result.is_whole ≡ true → HasWritten self (W.contents result.writer) }
        ensures part { HasBegunToWrite self (W.contents result.writer) }
    {
        texts_are_right();
        let is_whole = flush_all(&mut self.log, self.failed);
        drop(self.search);
        drop(self.input);
        Written {
            writer: self.log.into_writer(),
            is_whole,
        }
    }
}

/// Writes what was put out and not written, and answers whether nothing has failed.
fn flush_all<W: Write + Drop>(log: &mut CutsLog<W>, has_failed: bool) -> bool
    ensures kept { IsKept log.new }
    ensures book { IsBook log.new.book }
    ensures lines { lines_seen log.new ≡ lines_seen log.old }
    ensures rest { log.new ≡ record log.old {
      book = record log.old.book { out = log.new.book.out; failed = log.new.book.failed };
    } }
    ensures same { SameLog log.old log.new }
    ensures works { result ≡ true → (has_failed ≡ false) × (log.new.book.failed ≡ false) }
    ensures empty { result ≡ true → log.new.book.out.held ≡ [] }
{
    let is_flushed = log.flush().is_ok();
    log.limits();
    is_flushed && !has_failed
}
