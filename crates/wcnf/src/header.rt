// The header of the older form, which says what the text has.
ghost use Rattle.std.specs.Prelude.{◌≡◌, ◌≤◌, ◌<◌, MatchResult};
ghost use Rattle.cnf.specs.declared.limits.TheConstants.{MOST_VARIABLES, NUMBER_LIMIT};
ghost use Rattle.wcnf.specs.Heads.{header_of, is_wcnf, number_within};

use crate::faults::FaultKind;
use cnf::limits::{MOST_TEXT_CLAUSES, MOST_VARIABLES, NUMBER_LIMIT};
use std::marker::Model;
use text::digits::number;
use text::pieces::Tokens;

/// The second token of a header.
const NAME: &[u8] = b"wcnf";

/// The header of a text of the older form.
#[derive(Drop)]
pub(crate) struct Header {
    // How many variables there are.
    variables: u32,
    // How many clauses follow.
    clauses: u64,
    // The weight that makes a clause hard, from 1; that of a soft clause is below it.
    top: u64,
}

impl Model for Header {
    ghost use Rattle.std.specs.Prelude.{◌≤◌, ◌<◌};
    ghost use Rattle.cnf.specs.declared.limits.TheConstants.{MOST_VARIABLES, MOST_TEXT_CLAUSES};
    ghost use Rattle.cnf.specs.declared.limits.TheConstants.{NUMBER_LIMIT};
    ghost use Rattle.wcnf.specs.Wcnf as texts;

    ghost Value = { texts.Header };

    ghost view = { λ h. record { variables = h.variables; clauses = h.clauses; top = h.top } };

    ghost invariant = { λ h. (h.variables ≤ MOST_VARIABLES) × (h.clauses ≤ MOST_TEXT_CLAUSES)
        × (0 < h.top) × (h.top ≤ NUMBER_LIMIT) };
}

impl Header {
    /// Reads the header, given its tokens after the first.
    pub(crate) fn read(mut words: Tokens<'_>) -> Result<Header, FaultKind>
        ensures { result ≡ header_of words.entry }
    {
        let Some(name) = words.next() else {
            return Err(FaultKind::Header);
        };
        if !is_wcnf(name) {
            return Err(FaultKind::Header);
        }
        let variables = number_within(&mut words, u64::from(MOST_VARIABLES))?;
        let clauses = number_within(&mut words, MOST_TEXT_CLAUSES as u64)?;
        let top = number_within(&mut words, NUMBER_LIMIT)?;
        if top == 0 || words.next().is_some() {
            return Err(FaultKind::Header);
        }
        Ok(Header {
            variables: variables as u32,
            clauses,
            top,
        })
    }

    /// How many variables there are.
    pub(crate) fn variables(&self) -> u32
        ensures is { result ≡ self.now.variables }
        ensures within { result ≤ MOST_VARIABLES }
    {
        self.variables
    }

    /// How many clauses follow.
    pub(crate) fn clauses(&self) -> u64
        ensures { result ≡ self.now.clauses }
    {
        self.clauses
    }

    /// The weight that makes a clause hard.
    pub(crate) fn top(&self) -> u64
        ensures is { result ≡ self.now.top }
        ensures within { result ≤ NUMBER_LIMIT }
    {
        self.top
    }
}

fn is_wcnf(token: &[u8]) -> bool
    ensures { result ≡ is_wcnf token.now }
{
    token == NAME
}

/// Takes the next token, which has to be a number up to `most`.
fn number_within(words: &mut Tokens<'_>, most: u64) -> Result<u64, FaultKind>
    requires { most ≤ NUMBER_LIMIT }
    ensures { MatchResult result
        (λ n. (number_within most words.old ≡ Ok (n, words.new)) × (n ≤ most))
        (λ k. number_within most words.old ≡ Err k) }
{
    match words.next() {
        None => Err(FaultKind::Header),
        Some(token) => match number(token) {
            Some(value) if value <= most => Ok(value),
            _ => Err(FaultKind::Header),
        },
    }
}
