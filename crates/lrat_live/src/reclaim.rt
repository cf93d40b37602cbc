// Garbage collection: memory of dead entries is taken back, as entries and literals move down
// together, in place.
ghost use Rattle.std.specs.Prelude.{◌≡◌, ◌+◌, ◌≤◌, drop, length};
ghost use lib.Seq.{paste};
ghost use Rattle.lrat_live.specs.Table.{entry_spans, clauses_in, IsLaid, IsTable, AllLive};
ghost use Rattle.lrat_live.specs.declared.spans.TheConstants.{MOST_KEPT};

use crate::entries::{AddedEntry, link};
use cnf::types::Lit;

/// Drops the dead entries and their literals.
pub(crate) fn compact(entries: &mut Vec<AddedEntry>, lits: &mut Vec<Lit>)
    requires laid { IsLaid 0 (entry_spans entries.old.items) (length lits.old.items) }
    requires few { length lits.old.items ≤ MOST_KEPT }
    ensures laid { IsLaid 0 (entry_spans entries.new.items) (length lits.new.items) }
    ensures live { AllLive (entry_spans entries.new.items) }
    ensures clauses { clauses_in lits.new.items (entry_spans entries.new.items)
        ≡ clauses_in lits.old.items (entry_spans entries.old.items) }
    ensures fewer_entries { length entries.new.items ≤ length entries.old.items }
    ensures fewer_literals { length lits.new.items ≤ length lits.old.items }
{
    let mut kept = 0;
    let mut end = 0;
    for i in 0..entries.len() {
        let entry = entries[i];
        if !entry.live {
            continue;
        }
        let start = entry.start as usize;
        let length = entry.length as usize;
        move_down(lits, start, length, end);
        entries[kept] = AddedEntry {
            id: entry.id,
            start: end as u32,
            length: entry.length,
            next: 0,
            live: true,
        };
        kept += 1;
        end += length;
    }
    entries.truncate(kept);
    lits.truncate(end);
}

/// Clauses before the first dead one stay where they are, so they are not copied.
pub(crate) fn move_down(lits: &mut Vec<Lit>, start: usize, count: usize, to: usize)
    requires down { to ≤ start }
    requires within { start + count ≤ length lits.old.items }
    ensures moved { lits.new.items ≡ paste lits.old.items to (drop start lits.old.items) count }
    ensures kept { length lits.new.items ≡ length lits.old.items }
{
    if to < start {
        lits.copy_within(start..start + count, to);
    }
}

/// Drops what is dead, and links the entries that are left in no more buckets than they need.
pub(crate) fn reclaim(lits: &mut Vec<Lit>, entries: &mut Vec<AddedEntry>, heads: &mut Vec<u32>)
    requires { IsTable lits.old.items entries.old.items heads.old.items }
    ensures table { IsTable lits.new.items entries.new.items heads.new.items }
    ensures live { AllLive (entry_spans entries.new.items) }
    ensures clauses { clauses_in lits.new.items (entry_spans entries.new.items)
        ≡ clauses_in lits.old.items (entry_spans entries.old.items) }
{
    compact(entries, lits);
    heads.truncate((2 * entries.len()).next_power_of_two());
    link(heads, entries);
}
