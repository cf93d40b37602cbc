// The reader of lines, with its buffers.
ghost use Rattle.std.specs.Prelude.{◌≡◌, ◌<◌, ◌≤◌, [], drop, length, false, IfOk};
ghost use Rattle.text.specs.Text.{tokens_of};
ghost use Rattle.lrat_read.specs.Reader.{IsReadAs, IsAdditionRead, IsDeletionRead};

use crate::blocks::{has_dash, read_last, read_lits};
use crate::line::LineView;
use crate::numbers::{NumberAt, after_letter, number_at};
use crate::types::{Form, SignedId};
use cnf::types::Lit;
use std::alloc::{AllocError, Global};
use std::marker::Model;

/// One line, in buffers that are used again for each line.
#[derive(Drop)]
pub struct LineReader {
    // The leading number, below 2^62.
    id: u64,
    // The literals of an addition, but for those with a variable of 2^27 or more.
    lits: Vec<Lit>,
    // Whether there was such a literal.
    is_large: bool,
    // The hints of an addition, or the ids of a deletion.
    hints: Vec<SignedId>,
}

impl Model for LineReader {
    ghost use Rattle.std.specs.Prelude.{◌<◌};
    ghost use Rattle.cnf.specs.declared.limits.TheConstants.{NUMBER_LIMIT};
    ghost use Rattle.lrat_read.specs.Reader.{LineState};

    ghost Value = { LineState };

    ghost view = { λ r. record {
      id = r.id;
      clause = r.lits.items;
      is_large = r.is_large;
      hints = r.hints.items;
    } };

    ghost invariant = { λ r. r.id < NUMBER_LIMIT };
}

impl LineReader {
    /// A reader with empty buffers, which grow by this allocator.
    pub fn new(alloc: Global) -> Self
        ensures { result ≡ record { id = 0; clause = []; is_large = false; hints = [] } }
    {
        LineReader {
            id: 0,
            lits: Vec::new(alloc),
            is_large: false,
            hints: Vec::new(alloc),
        }
    }

    /// Reads a line, whose end is not part of it. Where the answer is `Addition`, the leading
    /// number, the literals and the hints are those of the line; where it is `Deletion`, the
    /// hints are its ids. Else, and after an error, which says that a buffer could not grow,
    /// the reader holds no line; it can read the next one in each case.
    pub fn read(&mut self, line: &[u8]) -> Result<Form, AllocError>
        ensures { IfOk result (λ form. IsReadAs (tokens_of line.now) form self.new) }
    {
        match number_at(line, 0) {
            NumberAt::End => Ok(Form::Blank),
            NumberAt::Number {
                is_dashed: false,
                value,
                end,
            } => {
                self.id = value;
                match after_letter(line, end) {
                    Some(place) => self.read_deletion(line, place),
                    None => self.read_addition(line, end),
                }
            }
            NumberAt::Number { .. } | NumberAt::Malformed => Ok(Form::Malformed),
        }
    }

    /// Reads what follows the leading number of an addition.
    fn read_addition(&mut self, line: &[u8], at: usize) -> Result<Form, AllocError>
        requires { at ≤ length line.now }
        ensures { IfOk result (λ form.
            IsAdditionRead self.old.id (tokens_of (drop at line.now)) form self.new) }
    {
        let Some(clause) = read_lits(&mut self.lits, line, at)? else {
            return Ok(Form::Malformed);
        };
        self.is_large = clause.is_large;
        if !read_last(&mut self.hints, line, clause.end)? {
            return Ok(Form::Malformed);
        }
        Ok(Form::Addition)
    }

    /// Reads what follows the letter of a deletion.
    fn read_deletion(&mut self, line: &[u8], at: usize) -> Result<Form, AllocError>
        requires { at ≤ length line.now }
        ensures { IfOk result
            (λ form. IsDeletionRead (tokens_of (drop at line.now)) form self.new) }
    {
        if !read_last(&mut self.hints, line, at)? {
            return Ok(Form::Malformed);
        }
        if has_dash(&self.hints) {
            return Ok(Form::Malformed);
        }
        Ok(Form::Deletion)
    }

    /// What was read of the last line.
    pub fn line(&self) -> LineView<'_>
        ensures { result ≡ self.now }
    {
        LineView::new(self.id, &self.lits, self.is_large, &self.hints)
    }
}
