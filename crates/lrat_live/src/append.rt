// One more clause behind those of a table.
ghost use Rattle.std.specs.Prelude.{◌≡◌, ◌∷◌, [], ◌++◌, OnOk, OnErr};
ghost use Rattle.lrat_live.specs.Table.{entry_spans, keys_of, clauses_in, IsTable, IsGrown};
ghost use Rattle.lrat_live.specs.Table.{IsAboveLast};

use crate::entries::{AddedEntry, bucket, grow};
use crate::spans::MOST_KEPT;
use cnf::types::Lit;
use std::alloc::AllocError;

/// Adds a clause under an id above all others; when room is refused the clauses stay as they are.
pub(crate) fn append(
    lits: &mut Vec<Lit>,
    entries: &mut Vec<AddedEntry>,
    heads: &mut Vec<u32>,
    id: u64,
    clause: &[Lit],
) -> Result<(), AllocError>
    requires table { IsTable lits.old.items entries.old.items heads.old.items }
    requires above { IsAboveLast id (keys_of (entry_spans entries.old.items)) }
    ensures table { IsTable lits.new.items entries.new.items heads.new.items }
    ensures ok { OnOk result (clauses_in lits.new.items (entry_spans entries.new.items)
        ≡ clauses_in lits.old.items (entry_spans entries.old.items) ++ (id, clause.now) ∷ []) }
    ensures kept { OnOk result
        (IsGrown lits.old.items (entry_spans entries.old.items) lits.new.items
        (entry_spans entries.new.items)) }
    ensures err_literals { OnErr result (lits.new.items ≡ lits.old.items) }
    ensures err_entries { OnErr result
        (entry_spans entries.new.items ≡ entry_spans entries.old.items) }
{
    let start = lits.len();
    if entries.len() >= MOST_KEPT || clause.len() > MOST_KEPT - start {
        return Err(AllocError);
    }
    grow(heads, entries)?;
    entries.reserve(1)?;
    lits.extend_from_slice(clause)?;
    let bucket = bucket(id, heads.len());
    entries.push(AddedEntry {
        id,
        start: start as u32,
        length: clause.len() as u32,
        next: heads[bucket],
        live: true,
    })?;
    heads[bucket] = entries.len() as u32;
    Ok(())
}
