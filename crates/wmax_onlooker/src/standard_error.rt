//! Standard error: lines that stay, and where it is a terminal below them one that is written over.
use std::io::Write;

/// Goes to the start of the line that is written over, clears it, and cuts off what goes beyond the
/// right margin: a line that went on in the next row could not be written over.
const CLEAR: &str = "\r\x1b[K\x1b[?7l";

/// Cuts nothing off any more.
const CUT_NO_MORE: &str = "\x1b[?7h";

/// Standard error while the program runs. What cannot be written to it is lost, and changes nothing
/// else: no contract speaks of what is told.
#[derive(Drop)]
pub struct Messages<'a, E: Write> {
    /// Standard error.
    err: &'a mut E,
    /// Whether it is a terminal.
    is_terminal: bool,
    /// Whether standard output is a terminal: what is printed there goes on where a line that is
    /// not ended ends.
    is_shared: bool,
    /// Whether the last line is not ended, and is to be written over.
    is_open: bool,
}

impl<'a, E: Write> Messages<'a, E> {
    /// Nothing is told yet.
    pub fn new(err: &'a mut E, is_terminal: bool, is_shared: bool) -> Self {
        Messages {
            err,
            is_terminal,
            is_shared,
            is_open: false,
        }
    }

    /// Where something is told that stays: the line that is written over is ended first.
    pub fn below(&mut self) -> &mut E {
        if self.is_open {
            self.is_open = false;
            let _ = self.err.write_all(b"\n");
        }
        &mut *self.err
    }

    /// What stands before and behind a line of `show`.
    pub(crate) fn edges(&self) -> (&'static str, &'static str) {
        if self.is_terminal {
            (CLEAR, CUT_NO_MORE)
        } else {
            ("", "\n")
        }
    }

    /// Tells a line between its edges, in one piece: on a terminal in place of the last one.
    pub(crate) fn show(&mut self, line: &str) {
        self.is_open = self.is_terminal;
        let _ = self.err.write_all(line.as_bytes());
    }

    /// Something is printed on standard output next.
    pub(crate) fn give_way(&mut self) {
        if self.is_shared {
            self.below();
        }
    }
}
