//! The form that a certificate of forms and cuts ends with.
ghost use Rattle.std.specs.Prelude.{◌≡◌, ◌+◌, ◌<◌, ◌^◌, length, IfOk, OnOk, MatchOption, IsErr};
ghost use Rattle.std.specs.Prelude.{None};
ghost use Rattle.std.specs.Prelude.{Option};
ghost use Rattle.text.specs.Text.{tokens_of};
ghost use Rattle.lrat_read.specs.Words.{WordLine};
ghost use Rattle.lrat_read.specs.WordReader.{IsHeld};
ghost use Rattle.lrat_cuts.specs.LastForm.{IsLastForm, TakesLine, TakesLines, ended_lines};
ghost use Rattle.lrat_cuts.specs.LastForm.{facts_after};
ghost use Rattle.lrat_cuts.specs.Verdict.{ended_part, judged_text};

use crate::machine::CutsMachine;
use crate::pieces::judge_line;
use cnf::types::Instance;
use lrat_read::facts::WeightedFact;
use lrat_read::word_reader::{WordForm, WordReader};
use std::alloc::AllocError;
use std::marker::Model;
use text::pieces::{split_line, without_return};

/// What a certificate leaves, with the facts of its present form.
#[derive(Drop)]
pub struct LastForm {
    // After the last line.
    machine: CutsMachine,
    // The facts of the present form, in the order of its lines.
    facts: Vec<WeightedFact>,
}

impl Model for LastForm {
    ghost use Rattle.std.specs.Coded.{codes};
    ghost use Rattle.totalizer.specs.TreeCode.{tree_code};
    ghost use Rattle.lrat_cuts.specs.LastForm.{LastFormState};

    ghost Value = { LastFormState };

    ghost coded = { Prim.hlevel (codes, tree_code) };

    ghost view = { λ f. record { state = (f.machine).state; facts = f.facts.items } };
}

impl LastForm {
    /// What the certificate leaves, up to its last line feed; nothing where a line is faulty.
    ///
    /// # Errors
    ///
    /// `AllocError` where memory was refused, or where the formula has more than 2^32 - 2 literals.
    pub fn read(instance: &Instance, proof: &[u8]) -> Result<Option<Self>, AllocError>
        ensures { IfOk result (λ found. MatchOption found
            (IsErr (judged_text None instance.now (ended_part proof.now)))
            (λ f. IsLastForm f instance.now proof.now)) }
    {
        let alloc = instance.allocator();
        let mut machine = CutsMachine::new(instance, None)?;
        let mut facts = Vec::new(alloc);
        let judged = take_lines(&mut machine, &mut WordReader::new(alloc), &mut facts, proof);
        // Dropped by calls: that is proved once, and not field by field here.
        match judged {
            Ok(true) => Ok(Some(LastForm { machine, facts })),
            Ok(false) => {
                drop(machine);
                Ok(None)
            }
            Err(fault) => {
                drop(machine);
                Err(fault)
            }
        }
    }

    /// The facts of the present form, in the order of its lines.
    pub fn facts(&self) -> &[WeightedFact]
        ensures { result.now ≡ self.now.facts }
    {
        &self.facts
    }

    /// The checker after the last line.
    pub fn machine(&self) -> &CutsMachine
        ensures { result.now.state ≡ self.now.state }
    {
        &self.machine
    }
}

/// Judges the lines that a line feed ends, up to the first faulty one. Answers whether all are
/// right.
fn take_lines(
    machine: &mut CutsMachine,
    words: &mut WordReader,
    facts: &mut Vec<WeightedFact>,
    proof: &[u8],
) -> Result<bool, AllocError>
    requires { machine.old.lines + length proof.now < 2 ^ 64 }
    ensures { IfOk result (λ is_right. TakesLines machine.old facts.old.items
        (ended_lines proof.now) is_right machine.new facts.new.items) }
{
    let mut left = proof;
    while let Some((line, after)) = split_line(left) {
        if !take_line(machine, words, facts, without_return(line))? {
            return Ok(false);
        }
        left = after;
    }
    Ok(true)
}

/// Judges the line, and takes its facts. Answers whether it is right.
fn take_line(
    machine: &mut CutsMachine,
    words: &mut WordReader,
    facts: &mut Vec<WeightedFact>,
    line: &[u8],
) -> Result<bool, AllocError>
    requires { machine.old.lines + 1 < 2 ^ 64 }
    ensures { IfOk result (λ is_right. TakesLine machine.old facts.old.items (tokens_of line.now)
        is_right machine.new facts.new.items) }
{
    if judge_line(machine, line)?.is_some() {
        return Ok(false);
    }
    let form = words.read(line)?;
    take_facts(facts, form, words)?;
    Ok(true)
}

/// Takes the facts of a form line; of others there are none.
fn take_facts(
    facts: &mut Vec<WeightedFact>,
    form: WordForm,
    words: &WordReader,
) -> Result<(), AllocError>
    ensures { OnOk result ((line : Option (Option WordLine)) → IsHeld line form words.now
        → facts.new.items ≡ facts_after facts.old.items line) }
{
    match form {
        WordForm::Form => {
            facts.clear();
            facts.extend_from_slice(words.facts())
        }
        WordForm::FurtherFacts => facts.extend_from_slice(words.facts()),
        _ => Ok(()),
    }
}
