// The reconstruction stack: the eliminated variables with the clauses that went with them, and how
// the variables get their values back.
ghost use Rattle.std.specs.Prelude.{◌≡◌, ◌+◌, ◌-◌, ◌<◌, ◌≤◌, false, List};
ghost use Rattle.std.specs.Prelude.{[], ◌∷◌, ◌++◌, length, All, IfOk, OnErr};
ghost use Rattle.cnf.specs.declared.limits.TheConstants.{VARIABLE_LIMIT};
ghost use Rattle.cnf.specs.Literal.{Literal, literal_value};
ghost use Rattle.cnf.specs.Bits.{assignment_of};
ghost use Rattle.reconstruction.specs.Removals.{Removed, extended, is_needed};
ghost use Rattle.reconstruction.specs.Removals.{becomes_true};
ghost use Rattle.clauses.specs.Slots.{IsLive};
ghost use Rattle.reconstruction.specs.Flat.{clauses_at, IsPieceWithin, AddsClauses};
ghost use Rattle.clauses.specs.Slots.{clauses_under};

use clauses::store::{CRef, Store};
use cnf::types::Lit;
use std::alloc::{AllocError, Global};
use std::marker::Model;

/// The literals of a clause, from one place up to another.
#[derive(Clone, Copy, Drop)]
pub(crate) struct Piece {
    // The place of its first literal, below 2^32.
    start: u32,
    // The place behind its last literal.
    end: u32,
}

/// An eliminated variable, and its clauses, from one place up to another.
#[derive(Clone, Copy, Drop)]
pub(crate) struct Gone {
    // From 1, below 2^27.
    variable: u32,
    // The place of the piece of its first clause.
    start: u32,
    // The place behind that of its last clause.
    end: u32,
}

/// The reconstruction stack: eliminated variables with their clauses, in three flat vectors.
#[derive(Drop)]
pub struct Removals {
    // The variables, the first one that was eliminated first.
    gone: Vec<Gone>,
    // Their clauses, those of one variable after those of the one before.
    pieces: Vec<Piece>,
    // The literals of these clauses, one clause after another; fewer than 2^32.
    literals: Vec<Lit>,
}

impl Model for Removals {
    ghost use Rattle.std.specs.Prelude.{List};
    ghost use Rattle.reconstruction.specs.Removals.{Removed};
    ghost use Rattle.reconstruction.specs.Flat.{removed_in, AreRemovals};

    ghost Value = { List Removed };

    ghost view = { λ r. removed_in r.gone.items r.pieces.items r.literals.items };

    ghost invariant = { λ r. AreRemovals r.gone.items r.pieces.items r.literals.items };
}

impl Removals {
    /// No variable. It takes no memory.
    pub fn new(alloc: Global) -> Self
        ensures { result ≡ [] }
    {
        Removals {
            gone: Vec::new(alloc),
            pieces: Vec::new(alloc),
            literals: Vec::new(alloc),
        }
    }

    /// One variable more, with these clauses of the store.
    pub fn push(
        &mut self,
        variable: u32,
        references: &[CRef],
        store: &Store,
    ) -> Result<(), AllocError>
        requires from_one { 0 < variable }
        requires small { variable < VARIABLE_LIMIT }
        requires live { All (IsLive store.now.slots) references.now }
        ensures { IfOk result (λ _. self.new ≡ self.old ++ record {
          variable = variable;
          clauses = clauses_under store.now.slots references.now;
        } ∷ []) }
    {
        let start = as_place(self.pieces.len())?;
        copy_clauses(references, store, &mut self.pieces, &mut self.literals)?;
        let end = as_place(self.pieces.len())?;
        self.gone.push(Gone {
            variable,
            start,
            end,
        })?;
        Ok(())
    }

    /// Sets the eliminated variables, the last one first.
    pub fn extend(&self, bits: &mut [bool])
        requires { All (λ r. r.variable ≤ length bits.old) self.now }
        ensures { bits.new ≡ extended self.now bits.old }
    {
        let count = self.gone.len();
        for back in 0..count {
            let gone = self.gone[count - 1 - back];
            let pieces = &self.pieces[gone.start as usize..gone.end as usize];
            let value = some_needed(pieces, &self.literals, gone.variable, bits);
            bits[gone.variable as usize - 1] = value;
        }
    }
}

/// A length as a place, in four bytes; a longer one counts as a refused growth.
fn as_place(len: usize) -> Result<u32, AllocError>
    ensures { IfOk result (λ place. place ≡ len) }
{
    if len > u32::MAX as usize {
        return Err(AllocError);
    }
    Ok(len as u32)
}

/// Copies the clauses to the end, each as a piece.
fn copy_clauses(
    references: &[CRef],
    store: &Store,
    pieces: &mut Vec<Piece>,
    literals: &mut Vec<Lit>,
) -> Result<(), AllocError>
    requires { All (IsLive store.now.slots) references.now }
    ensures ok { IfOk result (λ _.
        AddsClauses pieces.old.items pieces.new.items literals.old.items literals.new.items
        (clauses_under store.now.slots references.now)) }
    ensures err { OnErr result ((some : List (List Literal))
        × AddsClauses pieces.old.items pieces.new.items literals.old.items literals.new.items
        some) }
{
    for reference in references {
        copy_clause(store.lits(*reference), pieces, literals)?;
    }
    Ok(())
}

/// Copies a clause to the end, as a piece.
fn copy_clause(
    clause: &[Lit],
    pieces: &mut Vec<Piece>,
    literals: &mut Vec<Lit>,
) -> Result<(), AllocError>
    ensures ok { IfOk result (λ _.
        AddsClauses pieces.old.items pieces.new.items literals.old.items literals.new.items
        (clause.now ∷ [])) }
    ensures err { OnErr result (AddsClauses pieces.old.items pieces.new.items literals.old.items
        literals.new.items []) }
{
    let start = as_place(literals.len())?;
    literals.extend_from_slice(clause)?;
    let end = as_place(literals.len())?;
    pieces.push(Piece { start, end })?;
    Ok(())
}

/// Whether some clause needs the variable to be true.
fn some_needed(pieces: &[Piece], literals: &[Lit], variable: u32, bits: &[bool]) -> bool
    requires variable { (0 < variable) × (variable < VARIABLE_LIMIT) }
    requires within { All (IsPieceWithin (length literals.now)) pieces.now }
    ensures { result ≡ becomes_true (assignment_of bits.now) (record {
      variable = variable;
      clauses = clauses_at literals.now pieces.now;
    }) }
{
    let literal = Lit::new(variable, false);
    for piece in pieces {
        let clause = &literals[piece.start as usize..piece.end as usize];
        if is_needed(clause, literal, bits) {
            return true;
        }
    }
    false
}

/// Whether the clause has the literal, and all its others are false.
fn is_needed(clause: &[Lit], literal: Lit, bits: &[bool]) -> bool
    ensures { result ≡ is_needed (assignment_of bits.now) literal clause.now }
{
    let mut found = false;
    for lit in clause {
        if *lit == literal {
            found = true;
        } else if is_true(*lit, bits) {
            return false;
        }
    }
    found
}

/// Whether the literal is true under the bits; a variable beyond them is false.
fn is_true(lit: Lit, bits: &[bool]) -> bool
    ensures { result ≡ literal_value (assignment_of bits.now) lit }
{
    let value = match bits.get(lit.variable() as usize - 1) {
        Some(value) => *value,
        None => false,
    };
    value != lit.is_negated()
}
