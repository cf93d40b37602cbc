// The lines of a text, one at a time, and the instance that those so far make.
ghost use Rattle.std.specs.Prelude.{◌≡◌, ℕ, false, ◌&&◌, [], ◌∷◌, ◌++◌, length, MatchOption, ◌+◌};
ghost use Rattle.std.specs.Prelude.{◌<◌, ◌≤◌, Ok, Err, None, OnOk, IfOk, IfSome, MatchResult};
ghost use Rattle.std.specs.Prelude.{◌⊎◌};
ghost use Rattle.cnf.specs.declared.limits.TheConstants.{MOST_VARIABLES, NUMBER_LIMIT};
ghost use Rattle.text.specs.Text.{tokens_of, capped};
ghost use Rattle.wcnf.specs.Heads.{most_variable, one_hard, one_soft, weighed, head_of, is_p};
ghost use Rattle.cnf.specs.Clause.{has_repeat};
ghost use Rattle.cnf.specs.Instance.{IsInstance};
ghost use Rattle.wcnf.specs.Drafts.{totals_of, nothing_drafted, is_empty, drafted_line};
ghost use Rattle.wcnf.specs.Drafts.{drafted_tokens, drafted_header, drafted_clause};
ghost use Rattle.wcnf.specs.Drafts.{problem_drafted};
ghost use Rattle.wcnf.specs.Reading.{short_at};

use crate::faults::FaultKind;
use crate::gathering::Gathering;
use crate::header::Header;
use cnf::clause_list::ClauseList;
use cnf::limits::{MOST_HARD, MOST_SOFT, MOST_VARIABLES, NUMBER_LIMIT};
use cnf::types::{Clause, Instance, Lit, Soft};
use std::alloc::{AllocError, Global};
use std::marker::Model;
use text::cutting::tokens;
use text::digits::number;
use text::pieces::Tokens;

/// The instance that the lines so far make.
#[derive(Drop)]
pub(crate) struct Draft {
    // The header, in the older form; none in today's.
    header: Option<Header>,
    // The line of the header; 0 where there is none.
    header_line: u64,
    // The hard clauses so far.
    hard: ClauseList,
    // The soft clauses so far, with their weights.
    soft: Vec<Soft>,
    // The literals of the text so far, repeats too.
    literals: usize,
    // The sum of the weights so far.
    weight: u64,
    // The clause of the line that is being read.
    clause: Gathering,
}

impl Model for Draft {
    ghost use Rattle.std.specs.Prelude.{◌≤◌, ◌<◌};
    ghost use Rattle.cnf.specs.declared.limits.TheConstants.{MOST_LITERALS, NUMBER_LIMIT};
    ghost use Rattle.wcnf.specs.Heads.{most_variable};
    ghost use Rattle.wcnf.specs.Drafts.{Drafted};

    ghost Value = { Drafted };

    ghost view = { λ d.
        record {
          header = d.header;
          line = d.header_line;
          variables = d.clause.variables;
          hard = d.hard;
          soft = d.soft.items;
          literals = d.literals;
          weight = d.weight;
        } };

    ghost invariant = { λ d. (d.weight < NUMBER_LIMIT) × (d.literals ≤ MOST_LITERALS)
        × (d.clause.variables ≤ most_variable d.header) };
}

impl Draft {
    /// The draft of no lines.
    pub(crate) fn new(alloc: Global) -> Self
        ensures { result ≡ nothing_drafted }
    {
        Draft {
            header: None,
            header_line: 0,
            hard: ClauseList::new(alloc),
            soft: Vec::new(alloc),
            literals: 0,
            weight: 0,
            clause: Gathering::new(alloc),
        }
    }

    /// Reads one more line, given its number; a line without tokens and a comment leave the draft
    /// as it is.
    pub(crate) fn read_line(&mut self, number: u64, line: &[u8]) -> Result<(), FaultKind>
        ensures { MatchResult result
            (λ _. drafted_line number self.old (tokens_of line.now) ≡ Ok self.new)
            (λ k. (k ≡ FaultKind.Memory)
            ⊎ (drafted_line number self.old (tokens_of line.now) ≡ Err k)) }
    {
        let mut words = tokens(line);
        match words.next() {
            None | Some([b'c', ..]) => Ok(()),
            Some(first) => self.read_tokens(number, first, words),
        }
    }

    /// Reads the header, or one more clause line, given its first token and the others.
    fn read_tokens(&mut self, number: u64, first: &[u8], words: Tokens<'_>) -> Result<(), FaultKind>
        ensures { MatchResult result
            (λ _. drafted_tokens number self.old first.now words.entry ≡ Ok self.new)
            (λ k. (k ≡ FaultKind.Memory)
            ⊎ (drafted_tokens number self.old first.now words.entry ≡ Err k)) }
    {
        if self.begins_header(first) {
            self.read_header(number, words)
        } else {
            self.read_clause(first, words)
        }
    }

    /// Whether a line with this first token has to be the header.
    fn begins_header(&self, first: &[u8]) -> bool
        ensures { result ≡ (is_empty self.now && is_p first.now) }
    {
        self.is_empty() && matches!(first, [b'p'])
    }

    /// Whether neither a header nor a clause was read.
    fn is_empty(&self) -> bool
        ensures { result ≡ is_empty self.now }
    {
        self.header.is_none() && self.hard.len() == 0 && self.soft.is_empty()
    }

    /// Reads the header, given its line and the tokens after the first.
    fn read_header(&mut self, number: u64, words: Tokens<'_>) -> Result<(), FaultKind>
        ensures { MatchResult result
            (λ _. drafted_header number self.old words.entry ≡ Ok self.new)
            (λ k. drafted_header number self.old words.entry ≡ Err k) }
    {
        let header = Header::read(words)?;
        self.clause = Gathering::new(*self.soft.allocator());
        self.header = Some(header);
        self.header_line = number;
        Ok(())
    }

    /// Reads one more clause line, given its first token and the others.
    fn read_clause(&mut self, first: &[u8], words: Tokens<'_>) -> Result<(), FaultKind>
        ensures { MatchResult result
            (λ _. drafted_clause self.old first.now words.entry ≡ Ok self.new)
            (λ k. (k ≡ FaultKind.Memory)
            ⊎ (drafted_clause self.old first.now words.entry ≡ Err k)) }
    {
        let weight = self.head(first)?;
        let most = self.most();
        let literals = self.clause.read(self.literals, most, words)?;
        put(&mut self.hard, &mut self.soft, weight, self.clause.lits()).map_err(
            |_| FaultKind::Memory,
        )?;
        self.weight += weight.unwrap_or(0);
        self.literals = literals;
        Ok(())
    }

    /// The greatest variable that a literal may have.
    fn most(&self) -> u32
        ensures most { result ≡ most_variable self.now.header }
        ensures within { result ≤ MOST_VARIABLES }
    {
        match &self.header {
            None => MOST_VARIABLES,
            Some(header) => header.variables(),
        }
    }

    /// What the first token of a clause line says: a weight, or none for a hard clause.
    fn head(&self, token: &[u8]) -> Result<Option<u64>, FaultKind>
        ensures head { result ≡ head_of self.now.header (totals_of self.now) token.now }
        ensures limits { IfOk result
            (λ o. IfSome o (λ w. (0 < w) × (self.now.weight + w < NUMBER_LIMIT))) }
    {
        match token {
            [b'0'..=b'9', ..] => self.weighed(number(token).ok_or(FaultKind::Weight)?),
            b"h" if self.header.is_none() => self.hard(),
            b"p" => Err(FaultKind::OldForm),
            _ => Err(FaultKind::FirstToken),
        }
    }

    /// What a weight says of its clause.
    fn weighed(&self, weight: u64) -> Result<Option<u64>, FaultKind>
        ensures weighed { (v : ℕ) → weight ≡ capped v
            → result ≡ weighed self.now.header (totals_of self.now) v }
        ensures limits { IfOk result
            (λ o. IfSome o (λ w. (0 < w) × (self.now.weight + w < NUMBER_LIMIT))) }
    {
        let Some(header) = &self.header else {
            return if weight == 0 || weight >= NUMBER_LIMIT {
                Err(FaultKind::Weight)
            } else {
                self.soft(weight)
            };
        };
        if weight == 0 || weight > header.top() {
            return Err(FaultKind::Weight);
        }
        let weight = if weight == header.top() {
            self.hard()?
        } else {
            self.soft(weight)?
        };
        if self.count() >= u128::from(header.clauses()) {
            Err(FaultKind::Count)
        } else {
            Ok(weight)
        }
    }

    /// No weight, if the limits allow one more hard clause.
    fn hard(&self) -> Result<Option<u64>, FaultKind>
        ensures hard { result ≡ one_hard (totals_of self.now) }
        ensures none { IfOk result (λ o. o ≡ None) }
    {
        if self.hard.len() >= MOST_HARD {
            Err(FaultKind::TooMany)
        } else {
            Ok(None)
        }
    }

    /// The weight of a soft clause, if the limits allow one more of it.
    fn soft(&self, weight: u64) -> Result<Option<u64>, FaultKind>
        requires { weight < NUMBER_LIMIT }
        ensures soft { result ≡ one_soft (totals_of self.now) weight }
        ensures limits { IfOk result
            (λ o. IfSome o (λ w. (w ≡ weight) × (self.now.weight + w < NUMBER_LIMIT))) }
    {
        if self.weight + weight >= NUMBER_LIMIT {
            Err(FaultKind::WeightSum)
        } else if self.soft.len() >= MOST_SOFT {
            Err(FaultKind::TooMany)
        } else {
            Ok(Some(weight))
        }
    }

    /// How many clauses there are so far.
    fn count(&self) -> u128
        ensures { result ≡ length self.now.hard + length self.now.soft }
    {
        self.hard.len() as u128 + self.soft.len() as u128
    }

    /// The line of the header, where that says more clauses than there are.
    pub(crate) fn short(&self) -> Option<u64>
        ensures { result ≡ short_at self.now }
    {
        match &self.header {
            Some(header) if self.count() < u128::from(header.clauses()) => Some(self.header_line),
            _ => None,
        }
    }

    /// The instance that the lines make.
    pub(crate) fn finish(self) -> Instance
        requires { IsInstance (problem_drafted self) }
        ensures { result ≡ problem_drafted self }
    {
        let Draft {
            header,
            hard,
            soft,
            clause,
            ..
        } = self;
        let vars = match header {
            None => clause.vars(),
            Some(header) => header.variables(),
        };
        Instance::new(vars, hard, soft)
    }
}

/// Puts a clause last, among the soft ones where it has a weight.
fn put(
    hard: &mut ClauseList,
    soft: &mut Vec<Soft>,
    weight: Option<u64>,
    lits: &[Lit],
) -> Result<(), AllocError>
    requires weight { IfSome weight (λ w. 0 < w) }
    requires no_repeat { has_repeat lits.now ≡ false }
    ensures { OnOk result (MatchOption weight
        ((hard.new ≡ hard.old ++ lits.now ∷ []) × (soft.new.items ≡ soft.old.items))
        (λ w. (hard.new ≡ hard.old)
        × (soft.new.items ≡ soft.old.items ++ record { weight = w; clause = lits.now } ∷ []))) }
{
    match weight {
        None => hard.push(lits),
        Some(weight) => {
            let clause = Clause::new(Vec::from_slice(*soft.allocator(), lits)?);
            soft.push(Soft::new(weight, clause))?;
            Ok(())
        }
    }
}
