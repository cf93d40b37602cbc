// The lines of a log and their text.
ghost use Rattle.std.specs.Prelude.{◌≡◌, ◌+◌, ◌<◌, ◌≤◌, true, false, length, OnOk};
ghost use Rattle.std.specs.Prelude.{IfOk, OnErr};
ghost use Rattle.lrat_log.specs.declared.log.TheConstants.{LINE_LIMIT};
ghost use Rattle.cuts_log.specs.Events.{lines_in};
ghost use Rattle.cuts_log.specs.Books.{FailsAt, FailsToFlush, Flushed, IsBook, Notes};
ghost use Rattle.cuts_log.specs.Books.{begun_book, failed_book, resumed_book};
ghost use Rattle.cuts_log.specs.Starts.{earlier_lines};
ghost use Rattle.bound.specs.Weighted.{weighted_cnf};

use crate::events::{Beginning, Happens, Next, Resuming};
use crate::out::Out;
use crate::trace::{Trace, seen};
use cnf::types::Instance;
use lrat_cuts::machine::CutsMachine;
use lrat_log::log::LINE_LIMIT;
use std::alloc::AllocError;
use std::io::Write;
use std::marker::Model;

/// The lines of a log, of which it keeps none, on their way to a writer.
#[derive(Drop)]
pub(crate) struct Book<W: Write> {
    // Where the text goes.
    out: Out<W>,
    // Whether the line feed of the last line is still to be put. It comes with the next line: so no
    // line that the writer has with its line feed is one at which a write has failed.
    is_due: bool,
    // How many clauses the formula has, below 2^61: the ids of additions follow it.
    base: u64,
    // How many lines the search sees, below 2^61: a clause that a word makes is one of them, and so
    // is each that stands for what was written before.
    lines: usize,
    // How many of them add a clause.
    added: u64,
    // Whether memory was refused or a write has failed: no line comes any more.
    failed: bool,
    // What proofs know of the lines. It takes no space.
    trace: Trace,
}

impl<W: Write> Model for Book<W> {
    ghost use Rattle.cuts_log.specs.Books.{BookState, IsBook};
    ghost use Rattle.cuts_log.specs.Outs.{with_feed};
    ghost use Rattle.std.specs.Coded.{codes};
    ghost use Rattle.totalizer.specs.TreeCode.{tree_code};

    ghost Value = { BookState };

    ghost coded = { Prim.hlevel (codes, tree_code) };

    ghost view = { λ b. record {
      seen = b.trace.state;
      out = with_feed b.is_due b.out;
      base = b.base;
      lines = b.lines;
      added = b.added;
      failed = b.failed;
    } };

    ghost invariant = { λ b. IsBook (record {
      seen = b.trace.state;
      out = with_feed b.is_due b.out;
      base = b.base;
      lines = b.lines;
      added = b.added;
      failed = b.failed;
    }) };
}

impl<W: Write + Drop> Book<W> {
    /// No lines yet, over a formula with `base` clauses.
    ///
    /// # Errors
    ///
    /// `AllocError` where they are 2^61 or more.
    pub(crate) fn new(instance: &Instance, base: usize, writer: W) -> Result<Self, AllocError>
        requires base { base ≡ length (weighted_cnf instance.now).clauses }
        ensures { IfOk result (λ b. b ≡ begun_book instance.now base (W.contents writer)) }
    {
        if base >= LINE_LIMIT {
            return Err(AllocError);
        }
        let trace = seen(&Beginning {
            instance,
            writer: &writer,
        });
        Ok(Book {
            out: Out::new(writer),
            is_due: false,
            base: base as u64,
            lines: 0,
            added: 0,
            failed: false,
            trace,
        })
    }

    /// It goes on with what the checker has judged, over a formula with `base` clauses. `lines`
    /// lines stand for that.
    ///
    /// # Errors
    ///
    /// `AllocError` where the clauses or the lines are 2^61 or more.
    pub(crate) fn resume(
        instance: &Instance,
        machine: &CutsMachine,
        base: usize,
        lines: usize,
        writer: W,
    ) -> Result<Self, AllocError>
        requires last { base ≤ machine.now.state.last }
        requires lines { lines ≡ length (earlier_lines base machine.now.state) }
        ensures { IfOk result (λ b. b
            ≡ resumed_book instance.now machine.now.state base (W.contents writer)) }
    {
        if base >= LINE_LIMIT || lines >= LINE_LIMIT {
            return Err(AllocError);
        }
        let trace = seen(&Resuming {
            instance,
            machine,
            writer: &writer,
        });
        let base = base as u64;
        Ok(Book {
            out: Out::new(writer),
            is_due: false,
            base,
            lines,
            added: machine.last() - base,
            failed: false,
            trace,
        })
    }

    /// Says what holds of each book; it does nothing. `Instance::limits` has the reason.
    pub(crate) fn limits(&self)
        ensures { IsBook self.now }
    {
        let _ = &self.base;
    }

    /// Whether no line comes any more.
    pub(crate) fn has_failed(&self) -> bool
        ensures failed { result ≡ self.now.failed }
        ensures kept { IsBook self.now }
    {
        self.failed
    }

    /// Whether a write has failed.
    pub(crate) fn has_write_failed(&self) -> bool
        ensures { result ≡ self.now.out.failed }
    {
        self.out.has_failed()
    }

    /// Whether there is room for `more` lines more.
    pub(crate) fn has_room(&self, more: usize) -> bool
        ensures works { result ≡ true → self.now.failed ≡ false }
        ensures room { result ≡ true → self.now.lines + more < LINE_LIMIT }
        ensures kept { IsBook self.now }
    {
        !self.failed && more < LINE_LIMIT - self.lines
    }

    /// No line comes any more.
    pub(crate) fn fail(&mut self)
        ensures { self.new ≡ failed_book self.old }
    {
        self.failed = true;
    }

    /// Takes the line, and puts its text behind the line feed of the last one.
    ///
    /// # Errors
    ///
    /// `AllocError` where a write failed.
    pub(crate) fn note<T: Happens>(&mut self, line: &T) -> Result<(), AllocError>
        requires works { self.old.failed ≡ false }
        requires room { self.old.lines + length (lines_in (T.event line.now)) < LINE_LIMIT }
        ensures ok { OnOk result (Notes (T.event line.now) self.old self.new) }
        ensures err { OnErr result (FailsAt (T.event line.now) self.old self.new) }
    {
        self.out.put_feed(self.is_due);
        line.put(&mut self.out, self.base, self.added);
        self.is_due = true;
        self.trace = seen(&Next {
            trace: &self.trace,
            event: line,
        });
        if self.out.has_failed() {
            self.failed = true;
            return Err(AllocError);
        }
        self.lines += line.lines();
        self.added += line.added() as u64;
        Ok(())
    }

    /// Writes what was put out and not written, up to the last line feed. The writer is not
    /// flushed.
    ///
    /// # Errors
    ///
    /// `AllocError` where the writer fails.
    pub(crate) fn flush(&mut self) -> Result<(), AllocError>
        requires works { self.old.failed ≡ false }
        ensures ok { OnOk result (Flushed self.old self.new) }
        ensures err { OnErr result (FailsToFlush self.old self.new) }
    {
        self.out.put_feed(self.is_due);
        self.is_due = false;
        self.out.flush();
        if self.out.has_failed() {
            self.failed = true;
            return Err(AllocError);
        }
        Ok(())
    }

    /// The writer. What was put out and not written is lost.
    pub(crate) fn into_writer(self) -> W
        ensures { W.contents result ≡ self.out.had }
    {
        self.out.into_writer()
    }
}
