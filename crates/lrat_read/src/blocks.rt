// The blocks of a line: numbers up to the first 0.
ghost use Rattle.std.specs.Prelude.{◌≡◌, ◌≤◌, length, IfOk};
ghost use Rattle.std.specs.List.{list_any};
ghost use Rattle.lrat_read.specs.Blocks.{IsLitsRead, AreLastLitsRead, AreIdsRead, IsHintsRead};
ghost use Rattle.lrat_read.specs.Blocks.{IsLastRead};

use crate::numbers::{NumberAt, number_at, skip_blanks, unsigned_at};
use crate::types::SignedId;
use cnf::limits::VARIABLE_LIMIT;
use cnf::types::Lit;
use std::alloc::AllocError;

/// Where a block of literals ends, and whether one of them is too large for `Lit`.
#[derive(Clone, Copy, Drop)]
pub struct LitsEnd {
    /// The place behind the 0 that ends the block, or behind the blanks after it.
    pub end: usize,
    /// Whether some variable is 2^27 or more.
    pub is_large: bool,
}

/// Reads the block that begins at a place as literals; None where it is malformed.
pub fn read_lits(lits: &mut Vec<Lit>, line: &[u8], at: usize) -> Result<Option<LitsEnd>, AllocError>
    requires { at ≤ length line.now }
    ensures { IfOk result (λ r. IsLitsRead line.now at lits.new.items r) }
{
    lits.clear();
    let mut is_large = false;
    let mut place = at;
    while let NumberAt::Number {
        is_dashed,
        value,
        end,
    } = number_at(line, place)
    {
        place = end;
        if value == 0 {
            let block = LitsEnd { end, is_large };
            return Ok(if is_dashed { None } else { Some(block) });
        }
        if value < u64::from(VARIABLE_LIMIT) {
            lits.push(Lit::new(value as u32, is_dashed))?;
        } else {
            is_large = true;
        }
    }
    Ok(None)
}

/// Reads the last block of a line as literals; None where it is malformed, or something stands
/// after it.
pub fn read_last_lits(
    lits: &mut Vec<Lit>,
    line: &[u8],
    at: usize,
) -> Result<Option<LitsEnd>, AllocError>
    requires { at ≤ length line.now }
    ensures { IfOk result (λ r. AreLastLitsRead line.now at lits.new.items r) }
{
    let Some(block) = read_lits(lits, line, at)? else {
        return Ok(None);
    };
    Ok((skip_blanks(line, block.end) == line.len()).then_some(block))
}

/// Reads the last block of a line as numbers without dashes: whether it is well-formed, with
/// nothing after it.
pub fn read_ids(ids: &mut Vec<u64>, line: &[u8], at: usize) -> Result<bool, AllocError>
    requires { at ≤ length line.now }
    ensures { IfOk result (λ r. AreIdsRead line.now at ids.new.items r) }
{
    ids.clear();
    let mut place = at;
    while let Some(id) = unsigned_at(line, place) {
        if id.value == 0 {
            return Ok(skip_blanks(line, id.end) == line.len());
        }
        ids.push(id.value)?;
        place = id.end;
    }
    Ok(false)
}

/// Reads the block that begins at a place as hints, and says where it ends; None where it is
/// malformed.
pub fn read_hints(
    hints: &mut Vec<SignedId>,
    line: &[u8],
    at: usize,
) -> Result<Option<usize>, AllocError>
    requires { at ≤ length line.now }
    ensures { IfOk result (λ r. IsHintsRead line.now at hints.new.items r) }
{
    hints.clear();
    let mut place = at;
    while let NumberAt::Number {
        is_dashed,
        value,
        end,
    } = number_at(line, place)
    {
        place = end;
        if value == 0 {
            return Ok(if is_dashed { None } else { Some(end) });
        }
        hints.push(SignedId::new(value, is_dashed))?;
    }
    Ok(None)
}

/// Reads the last block of a line as hints: whether it is well-formed, with nothing after it.
pub fn read_last(hints: &mut Vec<SignedId>, line: &[u8], at: usize) -> Result<bool, AllocError>
    requires { at ≤ length line.now }
    ensures { IfOk result (λ b. IsLastRead line.now at hints.new.items b) }
{
    let Some(end) = read_hints(hints, line, at)? else {
        return Ok(false);
    };
    Ok(skip_blanks(line, end) == line.len())
}

/// Whether a dash stands before one of the ids.
pub fn has_dash(hints: &[SignedId]) -> bool
    ensures { result ≡ list_any (λ h. h.0) hints.now }
{
    hints.iter().any(|hint| hint.is_dashed())
}
