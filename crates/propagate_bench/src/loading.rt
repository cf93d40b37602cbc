// From a text in the DIMACS form to clauses that are attached. A clause may span lines, and a line
// may hold several.
ghost use Rattle.std.specs.Prelude.{◌≡◌, ◌<◌, IsTrue, IfOk, OnOk};
ghost use Rattle.cnf.specs.declared.limits.TheConstants.{VARIABLE_LIMIT};
ghost use Rattle.propagate.specs.Fits.{Fits, IsWithin};

use crate::faults::BenchFault;
use clauses::store::{CRef, Store};
use cnf::limits::VARIABLE_LIMIT;
use cnf::types::Lit;
use propagate::engine::Engine;
use std::alloc::AllocError;
use text::cutting::{lines, number, tokens};

/// What a token says.
#[derive(Clone, Copy, Drop)]
enum LoadWord {
    /// The 0 that ends a clause.
    End,
    Literal(Lit),
}

fn read_word(token: &[u8]) -> Result<LoadWord, BenchFault> {
    let (negated, digits) = match token {
        [b'-', digits @ ..] => (true, digits),
        _ => (false, token),
    };
    match number(digits) {
        Some(0) => Ok(LoadWord::End),
        Some(variable) if variable < u64::from(VARIABLE_LIMIT) => {
            Ok(LoadWord::Literal(Lit::new(variable as u32, negated)))
        }
        _ => Err(BenchFault::Text),
    }
}

/// Whether the line is a comment or the header.
fn is_remark(line: &[u8]) -> bool {
    matches!(line, [b'c' | b'p', ..])
}

/// The greatest variable of the formula, 0 where it has none.
pub(crate) fn greatest_variable(text: &[u8]) -> Result<u32, BenchFault>
    ensures { IfOk result (λ greatest. greatest < VARIABLE_LIMIT) }
{
    let mut greatest = 0;
    for (_number, line) in lines(text) {
        if is_remark(line) {
            continue;
        }
        for token in tokens(line) {
            if let LoadWord::Literal(lit) = read_word(token)? {
                greatest = greatest.max(lit.variable());
            }
        }
    }
    Ok(greatest)
}

/// Whether no literal has a variable above this one.
fn is_within(lits: &[Lit], vars: u32) -> bool
    ensures { IsTrue result → IsWithin vars lits.now }
{
    for lit in lits {
        if lit.variable() > vars {
            return false;
        }
    }
    true
}

/// Adds a clause to the store and attaches it.
pub(crate) fn add(
    store: &mut Store,
    engine: &mut Engine,
    vars: u32,
    lits: &[Lit],
) -> Result<CRef, BenchFault>
    requires fits { Fits engine.old store.old.slots }
    requires vars { engine.old.variables ≡ vars }
    ensures fits { OnOk result (Fits engine.new store.new.slots) }
    ensures vars { OnOk result (engine.new.variables ≡ vars) }
{
    if !is_within(lits, vars) {
        return Err(BenchFault::Text);
    }
    let reference = store.add(lits)?;
    engine.attach(store, reference)?;
    Ok(reference)
}

/// Adds the clauses of a text.
pub(crate) fn load(
    text: &[u8],
    store: &mut Store,
    engine: &mut Engine,
    vars: u32,
) -> Result<(), BenchFault>
    requires fits { Fits engine.old store.old.slots }
    requires vars { engine.old.variables ≡ vars }
    ensures fits { OnOk result (Fits engine.new store.new.slots) }
    ensures vars { OnOk result (engine.new.variables ≡ vars) }
{
    let mut lits = Vec::new(store.allocator());
    for (_number, line) in lines(text) {
        if is_remark(line) {
            continue;
        }
        for token in tokens(line) {
            match read_word(token)? {
                LoadWord::Literal(lit) => lits.push(lit).map_err(AllocError::from)?,
                LoadWord::End => {
                    add(store, engine, vars, &lits)?;
                    lits.clear();
                }
            }
        }
    }
    Ok(())
}
