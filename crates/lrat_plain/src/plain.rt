// One line after another: each is judged, and what it makes and says is put.
ghost use Rattle.std.specs.Prelude.{◌≡◌, ◌+◌, ◌<◌, ◌≤◌, [], ◌∷◌, ◌++◌, length, map, IfErr, IfOk};
ghost use Rattle.std.specs.Prelude.{OnOk, Some};
ghost use Rattle.std.specs.List.{flat_map};
ghost use Rattle.cnf.specs.Lrat.{Addition, Deletion};
ghost use Rattle.cnf.specs.declared.limits.TheConstants.{NUMBER_LIMIT};
ghost use Rattle.text.specs.Text.{tokens_of};
ghost use Rattle.text.specs.LratText.{line_tokens};
ghost use Rattle.text.specs.Writing.{PassesOn, spaced};
ghost use Rattle.bound.specs.Bound.{dimacs_clause};
ghost use Rattle.lrat_cuts.specs.Cuts.{cuts_start};
ghost use Rattle.lrat_plain.specs.Faults.{IsNoLine};
ghost use Rattle.lrat_plain.specs.Names.{added, forgotten, named_all, names_start, renumbered};
ghost use Rattle.lrat_plain.specs.Plain.{ending, lead, plain_text};
ghost use Rattle.lrat_plain.specs.Steps.{FaultOf, WritesSteps, IsSteady, Judges};

use crate::faults::PlainFault;
use crate::names::Names;
use crate::spelling::{put_addition, put_clauses, put_deletion, put_empty};
use cnf::limits::NUMBER_LIMIT;
use cnf::types::Instance;
use lrat_cuts::machine::CutsMachine;
use lrat_read::reader::LineReader;
use lrat_read::types::Form;
use std::io::Write;
use text::cutting::{number, tokens};
use text::output::Block;

/// What the lines so far leave, and the texts that are not written yet.
#[derive(Drop)]
pub(crate) struct Steps {
    // What judges the lines.
    pub(crate) machine: CutsMachine,
    // Reads additions and deletions once more.
    pub(crate) reader: LineReader,
    // The ids of the plain certificate.
    pub(crate) names: Names,
    // The id of the last clause that came: at most 2^62, and one more for each that a line made.
    pub(crate) last: u64,
    // What is not written yet of the formula.
    pub(crate) formula: Block,
    // What is not written yet of the plain certificate.
    pub(crate) certificate: Block,
}

/// The number that leads a line.
fn lead(line: &[u8]) -> u64
    ensures lead { result ≡ lead (tokens_of line.now) }
    ensures small { result ≤ NUMBER_LIMIT + 1 }
{
    match tokens(line).next() {
        Some(token) => number(token).unwrap_or(0),
        None => 0,
    }
}

impl Steps {
    /// Before the first line, over a formula of `given` clauses, `all` with those that lines make.
    /// Cuts have to hold for the cost.
    pub(crate) fn new(
        instance: &Instance,
        cost: u64,
        given: u64,
        all: u64,
    ) -> Result<Self, PlainFault>
        requires within { given ≤ all }
        requires small { all ≤ NUMBER_LIMIT }
        requires given { given ≡ (cuts_start instance.now).last }
        ensures machine { IfOk result (λ s. s.machine ≡ record {
          state = cuts_start instance.now;
          cost = Some cost;
          lines = 0;
          made = [];
        }) }
        ensures names { IfOk result (λ s. s.names ≡ names_start given all) }
        ensures steady { IfOk result IsSteady }
        ensures empty { IfOk result (λ s. (s.formula ≡ []) × (s.certificate ≡ [])) }
        ensures no_line { IfErr result IsNoLine }
    {
        let alloc = instance.allocator();
        Ok(Steps {
            machine: CutsMachine::new(instance, Some(cost))?,
            reader: LineReader::new(alloc),
            names: Names::new(alloc, given, all),
            last: given,
            formula: Block::new(),
            certificate: Block::new(),
        })
    }

    /// Judges the line, puts the clauses that it makes, and what it adds or deletes.
    ///
    /// # Errors
    ///
    /// `Line` where it is faulty, `Changed` where it makes more clauses than there are to be,
    /// `Memory`, and `Output` where a writer failed; `Read` where 2^64 - 1 lines came before.
    pub(crate) fn take_line<F: Write, C: Write>(
        &mut self,
        line: &[u8],
        formula: &mut F,
        certificate: &mut C,
    ) -> Result<(), PlainFault>
        requires { IsSteady self.old }
        ensures goes { OnOk result (WritesSteps self.old self.new (tokens_of line.now ∷ [])
            (F.contents formula.old) (F.contents formula.new)
            (C.contents certificate.old) (C.contents certificate.new)) }
        ensures steady { OnOk result (IsSteady self.new) }
        ensures fault { IfErr result (FaultOf self.old.machine (tokens_of line.now ∷ [])) }
    {
        self.judge(line)?;
        match self.reader.read(line)? {
            Form::Blank => Ok(()),
            Form::Malformed => self.put_made(formula, certificate),
            Form::Addition => self.put_addition(certificate),
            Form::Deletion => self.put_deletion(line, certificate),
        }
    }

    /// Judges the line.
    fn judge(&mut self, line: &[u8]) -> Result<(), PlainFault>
        ensures judged { OnOk result (Judges self.old.machine (tokens_of line.now)
            self.new.machine) }
        ensures rest { self.new ≡ record self.old { machine = self.new.machine } }
        ensures fault { IfErr result (FaultOf self.old.machine (tokens_of line.now ∷ [])) }
        ensures lines { OnOk result (self.new.machine.lines ≡ self.old.machine.lines + 1) }
    {
        if self.machine.lines() >= u64::MAX - 1 {
            return Err(PlainFault::Read);
        }
        match self.machine.step(line)? {
            Some(cause) => Err(PlainFault::Line(cause, self.machine.lines())),
            None => Ok(()),
        }
    }

    /// Puts the clauses that a line made, and where one is empty, the end of the certificate.
    fn put_made<F: Write, C: Write>(
        &mut self,
        formula: &mut F,
        certificate: &mut C,
    ) -> Result<(), PlainFault>
        requires { self.old.last ≤ NUMBER_LIMIT + self.old.names.made }
        ensures machine { self.new.machine ≡ self.old.machine }
        ensures names { OnOk result (self.new.names
            ≡ named_all self.old.last (length self.old.machine.made) self.old.names) }
        ensures last { OnOk result
            (self.new.last ≡ self.old.last + length self.old.machine.made) }
        ensures small { OnOk result (self.new.last ≤ NUMBER_LIMIT + self.new.names.made) }
        ensures formula { OnOk result (PassesOn (F.contents formula.old) self.old.formula
            (flat_map dimacs_clause self.old.machine.made)
            (F.contents formula.new) self.new.formula) }
        ensures certificate { OnOk result (PassesOn (C.contents certificate.old)
            self.old.certificate
            (plain_text (ending self.new.names self.new.last self.old.machine.state.ended))
            (C.contents certificate.new) self.new.certificate) }
        ensures no_line { IfErr result IsNoLine }
    {
        let made = self.machine.made();
        self.last = self.names.name_all(self.last, made.len())?;
        put_clauses(&mut self.formula, formula, made)?;
        self.put_ending(certificate)
    }

    /// Puts the end of the certificate, if the last line made the empty clause.
    fn put_ending<C: Write>(&mut self, certificate: &mut C) -> Result<(), PlainFault>
        requires { self.old.last ≤ NUMBER_LIMIT + self.old.names.made }
        ensures rest { self.new ≡ record self.old { certificate = self.new.certificate } }
        ensures certificate { OnOk result (PassesOn (C.contents certificate.old)
            self.old.certificate
            (plain_text (ending self.old.names self.old.last self.old.machine.state.ended))
            (C.contents certificate.new) self.new.certificate) }
        ensures no_line { IfErr result IsNoLine }
    {
        if !self.machine.has_ended() {
            return Ok(());
        }
        self.names.limits();
        let id = self.names.added(self.last + 1);
        let hint = self.names.renumbered(self.last);
        put_empty(&mut self.certificate, certificate, id, hint)?;
        Ok(())
    }

    /// Puts the addition that was read.
    fn put_addition<C: Write>(&mut self, certificate: &mut C) -> Result<(), PlainFault>
        ensures rest { self.new ≡ record self.old {
          last = self.old.reader.id;
          certificate = self.new.certificate;
        } }
        ensures small { self.new.last < NUMBER_LIMIT }
        ensures certificate { OnOk result (PassesOn (C.contents certificate.old)
            self.old.certificate
            (spaced (line_tokens (Addition (added self.old.names self.old.reader.id)
            self.old.reader.clause
            (map (λ h. renumbered self.old.names h.1) self.old.reader.hints) [])))
            (C.contents certificate.new) self.new.certificate) }
        ensures no_line { IfErr result IsNoLine }
    {
        let line = self.reader.line();
        self.last = line.id();
        put_addition(&mut self.certificate, certificate, &self.names, &line)?;
        Ok(())
    }

    /// Puts the deletion that was read of the line.
    fn put_deletion<C: Write>(&mut self, line: &[u8], certificate: &mut C) -> Result<(), PlainFault>
        ensures rest { OnOk result (self.new ≡ record self.old {
          names = forgotten (map (λ i. i.1) self.old.reader.hints) self.old.names;
          certificate = self.new.certificate;
        }) }
        ensures certificate { OnOk result (PassesOn (C.contents certificate.old)
            self.old.certificate
            (spaced (line_tokens (Deletion (added self.old.names (lead (tokens_of line.now)))
            (map (λ i. renumbered self.old.names i.1) self.old.reader.hints))))
            (C.contents certificate.new) self.new.certificate) }
        ensures no_line { IfErr result IsNoLine }
    {
        let id = self.names.added(lead(line));
        let read = self.reader.line();
        let ids = read.hints();
        put_deletion(&mut self.certificate, certificate, id, &self.names, ids)?;
        self.names.forget(ids);
        Ok(())
    }
}
