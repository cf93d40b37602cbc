// Form lines: a form begins, or goes on, and facts are taken off it.
ghost use Rattle.std.specs.Prelude.{◌≡◌, ◌+◌, ◌<◌, ◌≤◌, All, IfOk, IfSome, OnOk, Some};
ghost use Rattle.cnf.specs.declared.limits.TheConstants.{NUMBER_LIMIT};
ghost use Rattle.forms.specs.Forms.{form_line, at_number, begun, clause_size, fact_size};
ghost use Rattle.forms.specs.Forms.{less_clause, less_fact, less_facts, less_numbered};
ghost use Rattle.forms.specs.Forms.{numbered_size};
ghost use Rattle.forms.specs.Answers.{HasFormFault, HasFactRoom, HasSizeFault, IsFact, IsTaken};

use super::Forms;
use crate::citing::{subtract_clause, subtract_item};
use crate::faults::{LineFault, MOST_TERMS};
use crate::growing::widen;
use crate::known::greatest_variable;
use crate::numbered::{next_stamp, numbered_size};
use crate::sizes::{clause_size, facts_size};
use crate::table::ClauseTable;
use crate::types::NamedFact;
use cnf::types::Lit;
use std::alloc::AllocError;

impl Forms {
    /// A form: `scale` times the cost in place of the present form, or that form itself where there
    /// is no scale, less these facts. Answers why the line is refused, if it is: `Name` or `Limit`.
    ///
    /// # Errors
    ///
    /// `AllocError` where memory was refused.
    pub fn form<T: ClauseTable>(
        &mut self,
        table: &T,
        scale: Option<u64>,
        facts: &[NamedFact],
    ) -> Result<Option<LineFault>, AllocError>
        requires scale { IfSome scale (λ d. d < NUMBER_LIMIT) }
        requires facts { All IsFact facts.now }
        ensures { IfOk result (λ fault. IsTaken
            (form_line (T.at table.now) scale facts.now self.old) self.old self.new fault) }
    {
        if let Some(fault) = self.form_fault(table, scale, facts) {
            return Ok(Some(fault));
        }
        self.begin_form(scale);
        self.subtract_all(table, facts)?;
        Ok(None)
    }

    /// Why a form line is refused, if it is.
    fn form_fault<T: ClauseTable>(
        &self,
        table: &T,
        scale: Option<u64>,
        facts: &[NamedFact],
    ) -> Option<LineFault>
        ensures { HasFormFault (T.at table.now) scale facts.now self.now result }
    {
        match scale {
            None if !self.has_form => Some(LineFault::Name),
            None => self.size_fault(table, facts),
            Some(_) => self.size_fault(table, facts),
        }
    }

    /// Why there is no room for the facts, if there is none.
    fn size_fault<T: ClauseTable>(&self, table: &T, facts: &[NamedFact]) -> Option<LineFault>
        ensures { HasSizeFault (T.at table.now) self.now facts.now result }
    {
        match facts_size(&self.numbered, table, facts) {
            None => Some(LineFault::Name),
            Some(size) if size > (MOST_TERMS - self.terms) as u128 => Some(LineFault::Limit),
            Some(_) => None,
        }
    }

    /// Begins a form, if there is a scale: `scale` times the cost.
    fn begin_form(&mut self, scale: Option<u64>)
        requires { IfSome scale (λ d. d < NUMBER_LIMIT) }
        ensures { self.new ≡ begun scale self.old }
    {
        match scale {
            Some(scale) => self.begin(scale),
            None => {}
        }
    }

    /// Takes facts, which are there, off the present form.
    fn subtract_all<T: ClauseTable>(
        &mut self,
        table: &T,
        facts: &[NamedFact],
    ) -> Result<(), AllocError>
        requires facts { All IsFact facts.now }
        requires room { HasFactRoom (T.at table.now) self.old facts.now }
        ensures { OnOk result (self.new ≡ less_facts (T.at table.now) self.old facts.now) }
    {
        for fact in facts {
            self.subtract(table, fact)?;
        }
        Ok(())
    }

    /// Begins a form: `scale` times the cost.
    fn begin(&mut self, scale: u64)
        requires { scale < NUMBER_LIMIT }
        ensures { self.new ≡ begun (Some scale) self.old }
    {
        self.bound.restart(scale);
        self.has_form = true;
        self.present = next_stamp(&mut self.numbered, self.present);
    }

    /// Takes a fact, which is there, off the present form.
    fn subtract<T: ClauseTable>(&mut self, table: &T, fact: &NamedFact) -> Result<(), AllocError>
        requires fact { IsFact fact.now }
        requires room { IfSome (fact_size (T.at table.now) self.old.numbered fact.now)
            (λ n. self.old.terms + n ≤ MOST_TERMS) }
        ensures { OnOk result (self.new ≡ less_fact (T.at table.now) self.old fact.now) }
    {
        if fact.is_numbered {
            self.subtract_numbered(fact.weight, fact.number);
            return Ok(());
        }
        match table.find(fact.number) {
            Some(clause) => self.subtract_clause(fact.weight, clause),
            None => Ok(()),
        }
    }

    /// Takes the fact of a clause off the present form.
    fn subtract_clause(&mut self, weight: u64, clause: &[Lit]) -> Result<(), AllocError>
        requires weight { weight < NUMBER_LIMIT }
        requires room { self.old.terms + clause_size clause.now ≤ MOST_TERMS }
        ensures { OnOk result (self.new ≡ less_clause weight clause.now self.old) }
    {
        self.bound.widen(greatest_variable(clause) as usize + 1)?;
        subtract_clause(&mut self.bound, clause, weight);
        self.terms += clause_size(clause);
        Ok(())
    }

    /// Takes the fact of a count or group off the present form, if there is one with the number.
    fn subtract_numbered(&mut self, weight: u64, number: u64)
        requires weight { weight < NUMBER_LIMIT }
        requires room { IfSome (at_number self.old.numbered number)
            (λ n. self.old.terms + numbered_size n ≤ MOST_TERMS) }
        ensures { self.new ≡ less_numbered weight number self.old }
    {
        if number == 0 || number > self.numbered.len() as u64 {
            return;
        }
        let item = &mut self.numbered[number as usize - 1];
        self.terms += numbered_size(item);
        subtract_item(&mut self.bound, item, weight, self.present);
    }
}
