// The checker between lines.
ghost use Rattle.std.specs.Prelude.{◌≡◌, ℕ, ◌+◌, ◌<◌, ◌≤◌, ◌^◌, List, [], Option, None, Some, IfOk};
ghost use Rattle.std.specs.Prelude.{OnErr};
ghost use Rattle.std.specs.Option.{option_copied};
ghost use Rattle.cnf.specs.declared.limits.TheConstants.{NUMBER_LIMIT};
ghost use Rattle.text.specs.Text.{tokens_of};
ghost use Rattle.lrat_live.specs.Listed.{listed_at};
ghost use Rattle.lrat_read.specs.Reader.{IsReadAs};
ghost use Rattle.lrat_read.specs.Words.{WordLine, word_line_of};
ghost use Rattle.lrat_read.specs.WordReader.{IsHeld, IsWordRead};
ghost use Rattle.lrat_cuts.specs.Cuts.{cuts_start, judged_line, judged_word};
ghost use Rattle.lrat_cuts.specs.Machine.{LeadsTo, Puts, StepsTo};

use crate::base::CutsBase;
use cnf::clause_list::ClauseList;
use cnf::types::{Instance, Lit};
use forms::state::Forms;
use lrat_machine::verdicts::Cause;
use lrat_read::line::LineView;
use lrat_read::reader::LineReader;
use lrat_read::types::Form;
use lrat_read::word_reader::{WordForm, WordReader};
use std::alloc::AllocError;
use std::marker::Model;

/// Checks the lines of a certificate of forms and cuts one after another. Between lines it is seen
/// as what they leave, the cost that cuts have to hold for, the number of lines and the clauses
/// that the last one made.
#[derive(Drop)]
pub struct CutsMachine {
    // What the lines so far leave.
    base: CutsBase,
    // The cost that each cut has to hold for, if there is one.
    cost: Option<u64>,
    // How many lines were read.
    lines: u64,
    // The clauses that the last line made.
    made: ClauseList,
    // Reads additions and deletions, in buffers that are used for each.
    reader: LineReader,
    // Reads the lines that begin with a word.
    words: WordReader,
}

impl Model for CutsMachine {
    ghost use Rattle.std.specs.Coded.{codes};
    ghost use Rattle.totalizer.specs.TreeCode.{tree_code};
    ghost use Rattle.lrat_cuts.specs.Machine.{MachineState};

    ghost Value = { MachineState };

    ghost coded = { Prim.hlevel (codes, tree_code) };

    ghost view = { λ m. record {
      state = m.base;
      cost = m.cost;
      lines = m.lines;
      made = m.made;
    } };
}

/// Judges a line that does not begin with a word.
fn judge_plain(
    base: &mut CutsBase,
    form: Form,
    line: &LineView,
) -> Result<Option<Cause>, AllocError>
    ensures { IfOk result (λ fault. (ts : List (List ℕ)) (cost : Option ℕ)
        → word_line_of ts ≡ None → IsReadAs ts form line.now
        → LeadsTo (judged_line cost base.old ts) base.new fault) }
{
    match (form, base.has_ended()) {
        (Form::Blank, _) => Ok(None),
        (_, true) => Ok(Some(Cause::TrailingLine)),
        (Form::Malformed, false) => Ok(Some(Cause::LineForm)),
        (Form::Deletion, false) => Ok(base.delete(line.hints())),
        (Form::Addition, false) => base.add(line),
    }
}

/// Judges a line that begins with a word, where no line before it added the empty clause.
fn judge_held(
    base: &mut CutsBase,
    form: WordForm,
    words: &WordReader,
    cost: Option<u64>,
    made: &mut ClauseList,
) -> Result<Option<Cause>, AllocError>
    requires { made.old ≡ [] }
    ensures judged { IfOk result (λ fault. (line : Option WordLine)
        → IsHeld (Some line) form words.now
        → LeadsTo (judged_word cost line base.old) base.new fault) }
    ensures puts { IfOk result (λ fault. fault ≡ None → Puts base.old made.new base.new) }
{
    match form {
        WordForm::NoWord | WordForm::Malformed => Ok(Some(Cause::LineForm)),
        WordForm::Count | WordForm::Group | WordForm::Cut if words.is_large() => {
            base.limits();
            Ok(Some(Cause::LineName))
        }
        WordForm::Count => base.count(words.number(), words.lits(), made),
        WordForm::More => base.more(words.number(), made),
        WordForm::Group => base.group(words.lits(), words.ids()),
        WordForm::Form => base.form(Some(words.number()), words.facts()),
        WordForm::FurtherFacts => base.form(None, words.facts()),
        WordForm::Cut => base.cut(words.lits(), cost, made),
        WordForm::Bound => Ok(base.bound(words.number())),
    }
}

/// Judges a line that begins with a word. The clauses that it makes are in `made` then.
fn judge_word(
    base: &mut CutsBase,
    form: WordForm,
    words: &WordReader,
    cost: Option<u64>,
    made: &mut ClauseList,
) -> Result<Option<Cause>, AllocError>
    requires word { form ≡ WordForm.NoWord → ⊥ }
    requires none { made.old ≡ [] }
    ensures judged { IfOk result (λ fault. (ts : List (List ℕ)) → IsWordRead ts form words.now
        → LeadsTo (judged_line cost base.old ts) base.new fault) }
    ensures puts { IfOk result (λ fault. fault ≡ None → Puts base.old made.new base.new) }
{
    if base.has_ended() {
        return Ok(Some(Cause::TrailingLine));
    }
    judge_held(base, form, words, cost, made)
}

impl CutsMachine {
    /// The checker before the first line. The clauses of the instance and of its relaxation are
    /// live, under the ids from 1. Where there is a cost, cuts have to hold for it: each is true in
    /// all solutions that cost less.
    ///
    /// # Errors
    ///
    /// `AllocError` where memory was refused, or where the formula has more than 2^32 - 2 literals.
    pub fn new(instance: &Instance, cost: Option<u64>) -> Result<Self, AllocError>
        ensures { IfOk result (λ m. m
            ≡ record { state = cuts_start instance.now; cost = cost; lines = 0; made = [] }) }
    {
        let alloc = instance.allocator();
        Ok(CutsMachine {
            base: CutsBase::new(instance)?,
            cost,
            lines: 0,
            made: ClauseList::new(alloc),
            reader: LineReader::new(alloc),
            words: WordReader::new(alloc),
        })
    }

    /// Reads one line more, without its line end. Answers why the certificate fails at it, if it
    /// does; then nothing is said of the state that is left.
    ///
    /// # Errors
    ///
    /// `AllocError` where memory was refused, or where there would be more than 2^32 - 2 clauses or
    /// literals that came, dead ones too. The line counts as not read, and nothing is said of what
    /// is left beside.
    pub fn step(&mut self, line: &[u8]) -> Result<Option<Cause>, AllocError>
        requires room { self.old.lines + 1 < 2 ^ 64 }
        ensures steps { IfOk result
            (λ fault. StepsTo self.old (tokens_of line.now) fault self.new) }
        ensures err { OnErr result (self.new.lines ≡ self.old.lines) }
    {
        self.made.clear();
        match self.words.read(line)? {
            WordForm::NoWord => {
                let form = self.reader.read(line)?;
                let fault = judge_plain(&mut self.base, form, &self.reader.line())?;
                self.lines += 1;
                Ok(fault)
            }
            form => {
                let fault = judge_word(
                    &mut self.base,
                    form,
                    &self.words,
                    self.cost,
                    &mut self.made,
                )?;
                self.lines += 1;
                Ok(fault)
            }
        }
    }

    /// How many lines were read, those without tokens among them.
    pub fn lines(&self) -> u64
        ensures { result ≡ self.now.lines }
    {
        self.lines
    }

    /// The clauses that the last line made, in the order of their ids, which follow those before.
    pub fn made(&self) -> &ClauseList
        ensures { result.now ≡ self.now.made }
    {
        &self.made
    }

    /// The least that a cut so far is worth, at most 2^62: what is live holds in each solution that
    /// costs less.
    pub fn worth(&self) -> u64
        ensures worth { result ≡ self.now.state.worth }
        ensures most { result ≤ NUMBER_LIMIT }
    {
        self.base.worth()
    }

    /// The greatest lower bound of the cost that was proved, at most 2^62; that much says that
    /// there is no solution.
    pub fn proved(&self) -> u64
        ensures proved { result ≡ self.now.state.proved }
        ensures most { result ≤ NUMBER_LIMIT }
    {
        self.base.proved()
    }

    /// The live clause with an id, if there is one.
    pub fn find(&self, id: u64) -> Option<&[Lit]>
        ensures { option_copied result ≡ listed_at self.now.state.live id }
    {
        self.base.find(id)
    }

    /// The counts and groups so far, and the present form.
    pub fn forms(&self) -> &Forms
        ensures { result.now ≡ self.now.state.forms }
    {
        self.base.forms()
    }

    /// The id of the last clause that came.
    pub fn last(&self) -> u64
        ensures { result ≡ self.now.state.last }
    {
        self.base.last()
    }

    /// The counts and groups so far, and the present form. The live clauses are dropped.
    pub fn into_forms(self) -> Forms
        ensures { result ≡ self.state.forms }
    {
        self.base.into_forms()
    }

    /// Whether the empty clause was added, or a cut.
    pub fn has_ended(&self) -> bool
        ensures { result ≡ self.now.state.ended }
    {
        self.base.has_ended()
    }
}
