// The reader of lines that begin with a word, with its buffers.
ghost use Rattle.std.specs.Prelude.{◌≡◌, ◌<◌, ◌≤◌, [], drop, length, false, Some, IfOk};
ghost use Rattle.cnf.specs.declared.limits.TheConstants.{NUMBER_LIMIT};
ghost use Rattle.text.specs.Text.{tokens_of};
ghost use Rattle.lrat_read.specs.Words.{after_word};
ghost use Rattle.lrat_read.specs.WordReader.{IsHeld, IsWordRead};

use crate::blocks::{read_ids, read_last_lits, read_lits};
use crate::facts::{WeightedFact, read_facts};
use crate::numbers::{last_number, unsigned_at};
use crate::words::{Word, after_plus, word_at};
use cnf::types::Lit;
use std::alloc::{AllocError, Global};
use std::marker::Model;

/// What kind of line it is.
#[derive(Clone, Copy, Debug, PartialEq, Eq, Drop)]
pub enum WordForm {
    /// The line does not begin with a word.
    NoWord,
    /// A word, and tokens that do not follow it so.
    Malformed,
    /// `count H literals 0`.
    Count,
    /// `more J 0`.
    More,
    /// `group literals 0 ids 0`.
    Group,
    /// `form D facts 0`.
    Form,
    /// `form + facts 0`.
    FurtherFacts,
    /// `cut literals 0`.
    Cut,
    /// `bound L 0`.
    Bound,
}

/// One line that begins with a word, in buffers that are used again for each line.
#[derive(Drop)]
pub struct WordReader {
    // How many outputs a count has, the number of a count, a scale or a lower bound: below 2^62.
    number: u64,
    // The literals, but for those with a variable of 2^27 or more.
    lits: Vec<Lit>,
    // Whether there was such a literal.
    is_large: bool,
    // The ids of a group's clauses, from 1, below 2^62.
    ids: Vec<u64>,
    // The facts of a form.
    facts: Vec<WeightedFact>,
}

impl Model for WordReader {
    ghost use Rattle.std.specs.Prelude.{◌<◌};
    ghost use Rattle.cnf.specs.declared.limits.TheConstants.{NUMBER_LIMIT};
    ghost use Rattle.lrat_read.specs.WordReader.{WordState};

    ghost Value = { WordState };

    ghost view = { λ r. record {
      number = r.number;
      literals = r.lits.items;
      is_large = r.is_large;
      ids = r.ids.items;
      facts = r.facts.items;
    } };

    ghost invariant = { λ r. r.number < NUMBER_LIMIT };
}

impl WordReader {
    /// A reader with empty buffers, which grow by this allocator.
    pub fn new(alloc: Global) -> Self
        ensures { result
            ≡ record { number = 0; literals = []; is_large = false; ids = []; facts = [] } }
    {
        WordReader {
            number: 0,
            lits: Vec::new(alloc),
            is_large: false,
            ids: Vec::new(alloc),
            facts: Vec::new(alloc),
        }
    }

    /// Reads a line, whose end is not part of it. Where the answer is neither `NoWord` nor
    /// `Malformed`, the reader holds what such a line has. Else, and after an error, which says
    /// that a buffer could not grow, it holds no line; it can read the next one in each case.
    pub fn read(&mut self, line: &[u8]) -> Result<WordForm, AllocError>
        ensures { IfOk result (λ form. IsWordRead (tokens_of line.now) form self.new) }
    {
        let Some(found) = word_at(line) else {
            return Ok(WordForm::NoWord);
        };
        self.read_after(found.word, line, found.end)
    }

    /// Reads what follows the word.
    fn read_after(&mut self, word: Word, line: &[u8], at: usize) -> Result<WordForm, AllocError>
        requires { at ≤ length line.now }
        ensures { IfOk result (λ form.
            IsHeld (Some (after_word word (tokens_of (drop at line.now)))) form self.new) }
    {
        match word {
            Word::Cut => self.read_cut(line, at),
            Word::Form => self.read_form(line, at),
            Word::Bound => Ok(self.read_bound(line, at)),
            Word::Count => self.read_count(line, at),
            Word::More => Ok(self.read_more(line, at)),
            Word::Group => self.read_group(line, at),
        }
    }

    /// Reads the literals of a cut.
    fn read_cut(&mut self, line: &[u8], at: usize) -> Result<WordForm, AllocError>
        requires { at ≤ length line.now }
        ensures { IfOk result (λ form.
            IsHeld (Some (after_word Word.Cut (tokens_of (drop at line.now)))) form self.new) }
    {
        let Some(clause) = read_last_lits(&mut self.lits, line, at)? else {
            return Ok(WordForm::Malformed);
        };
        self.is_large = clause.is_large;
        Ok(WordForm::Cut)
    }

    /// Reads the outputs and the literals of a count, of which there is one at least.
    fn read_count(&mut self, line: &[u8], at: usize) -> Result<WordForm, AllocError>
        requires { at ≤ length line.now }
        ensures { IfOk result (λ form.
            IsHeld (Some (after_word Word.Count (tokens_of (drop at line.now)))) form self.new) }
    {
        let Some(outputs) = unsigned_at(line, at) else {
            return Ok(WordForm::Malformed);
        };
        let Some(inputs) = read_last_lits(&mut self.lits, line, outputs.end)? else {
            return Ok(WordForm::Malformed);
        };
        if self.lits.is_empty() && !inputs.is_large {
            return Ok(WordForm::Malformed);
        }
        self.number = outputs.value;
        self.is_large = inputs.is_large;
        Ok(WordForm::Count)
    }

    /// Reads the literals and the ids of a group.
    fn read_group(&mut self, line: &[u8], at: usize) -> Result<WordForm, AllocError>
        requires { at ≤ length line.now }
        ensures { IfOk result (λ form.
            IsHeld (Some (after_word Word.Group (tokens_of (drop at line.now)))) form self.new) }
    {
        let Some(inputs) = read_lits(&mut self.lits, line, at)? else {
            return Ok(WordForm::Malformed);
        };
        self.is_large = inputs.is_large;
        if !read_ids(&mut self.ids, line, inputs.end)? {
            return Ok(WordForm::Malformed);
        }
        Ok(WordForm::Group)
    }

    /// Reads the scale of a form, or the sign that there is none, and its facts.
    fn read_form(&mut self, line: &[u8], at: usize) -> Result<WordForm, AllocError>
        requires { at ≤ length line.now }
        ensures { IfOk result (λ form.
            IsHeld (Some (after_word Word.Form (tokens_of (drop at line.now)))) form self.new) }
    {
        if let Some(end) = after_plus(line, at) {
            let is_whole = read_facts(&mut self.facts, line, end)?;
            return Ok(if is_whole {
                WordForm::FurtherFacts
            } else {
                WordForm::Malformed
            });
        }
        let Some(scale) = unsigned_at(line, at) else {
            return Ok(WordForm::Malformed);
        };
        if !read_facts(&mut self.facts, line, scale.end)? {
            return Ok(WordForm::Malformed);
        }
        self.number = scale.value;
        Ok(WordForm::Form)
    }

    /// Reads the number of a count, from 1.
    fn read_more(&mut self, line: &[u8], at: usize) -> WordForm
        requires { at ≤ length line.now }
        ensures { IsHeld (Some (after_word Word.More (tokens_of (drop at line.now)))) result
            self.new }
    {
        match last_number(line, at) {
            None | Some(0) => WordForm::Malformed,
            Some(number) => {
                self.number = number;
                WordForm::More
            }
        }
    }

    /// Reads a lower bound.
    fn read_bound(&mut self, line: &[u8], at: usize) -> WordForm
        requires { at ≤ length line.now }
        ensures { IsHeld (Some (after_word Word.Bound (tokens_of (drop at line.now)))) result
            self.new }
    {
        match last_number(line, at) {
            None => WordForm::Malformed,
            Some(number) => {
                self.number = number;
                WordForm::Bound
            }
        }
    }

    /// The outputs of a `Count`, the number of a `More`, the scale of a `Form` or the lower bound
    /// of a `Bound`: below 2^62.
    pub fn number(&self) -> u64
        ensures number { result ≡ self.now.number }
        ensures small { result < NUMBER_LIMIT }
    {
        self.number
    }

    /// The literals of a `Count`, a `Group` or a `Cut` in their order, unless `is_large` says
    /// otherwise.
    pub fn lits(&self) -> &[Lit]
        ensures { result.now ≡ self.now.literals }
    {
        &self.lits
    }

    /// Whether one of the literals has a variable of 2^27 or more, which `lits` leaves out.
    pub fn is_large(&self) -> bool
        ensures { result ≡ self.now.is_large }
    {
        self.is_large
    }

    /// The ids of a `Group`, in their order: from 1, below 2^62.
    pub fn ids(&self) -> &[u64]
        ensures { result.now ≡ self.now.ids }
    {
        &self.ids
    }

    /// The facts of a `Form` or of `FurtherFacts`, in their order.
    pub fn facts(&self) -> &[WeightedFact]
        ensures { result.now ≡ self.now.facts }
    {
        &self.facts
    }
}
