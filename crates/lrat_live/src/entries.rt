// The entries of the live clauses, and the chains by which an id is found among them.
//
// An id is looked for first at the place that it has if no id between it and the last one is
// missing, which saves reading the head of a chain. The place is counted from the last id, since
// deletions leave gaps among the older ids. So it is found there for two of three hints on added
// clauses of a certificate of pigeons (from the first id for one of 160), and for each where
// nothing was deleted.
ghost use Rattle.std.specs.Prelude.{◌≡◌, ◌+◌, ◌-◌, ◌<◌, ◌≤◌, length, MatchOption, OnOk};
ghost use Rattle.std.specs.Prelude.{IsTrue, ◌↔◌, IfSome};
ghost use Rattle.cnf.specs.Numbers.{RisesFrom};
ghost use Rattle.lrat_live.specs.Chains.{folded, bucket_of, place_of, IsChained};
ghost use Rattle.lrat_live.specs.Table.{entry_spans, keys_of, nexts_of, IsAboveLast};
ghost use Rattle.lrat_live.specs.declared.spans.TheConstants.{MOST_KEPT};

use std::alloc::AllocError;

/// A clause that was added: its id, and where its literals lie.
#[derive(Clone, Copy, Drop)]
pub(crate) struct AddedEntry {
    /// From 1, below 2^62.
    pub(crate) id: u64,
    /// The place of its first literal among those of all entries.
    pub(crate) start: u32,
    /// How many literals it has.
    pub(crate) length: u32,
    /// The place of the next older entry of the bucket, from 1, or 0.
    pub(crate) next: u32,
    /// Whether it was not deleted.
    pub(crate) live: bool,
}

/// All bits of an id, folded into its low ones. Ids that have no gaps, as most have none, stay
/// beside one another.
#[inline]
fn folded(id: u64) -> u64
    ensures { result ≡ folded id }
{
    id ^ (id / 65_536) ^ (id / 4_294_967_296) ^ (id / 281_474_976_710_656)
}

/// The bucket of an id.
#[inline]
pub(crate) fn bucket(id: u64, buckets: usize) -> usize
    requires { 0 < buckets }
    ensures value { result ≡ bucket_of buckets id }
    ensures within { result < buckets }
{
    (folded(id) & (buckets as u64 - 1)) as usize
}

/// The place of an id, where no id between it and the last one is missing.
#[inline]
fn find_near(entries: &[AddedEntry], id: u64) -> Option<usize>
    requires { RisesFrom 0 (keys_of (entry_spans entries.now)) }
    ensures { IfSome result (λ p. place_of id (keys_of (entry_spans entries.now)) ≡ p + 1) }
{
    let last = entries.last()?;
    let back = last.id.wrapping_sub(id);
    if back >= entries.len() as u64 {
        return None;
    }
    let place = entries.len() - 1 - back as usize;
    if entries[place].id == id {
        Some(place)
    } else {
        None
    }
}

/// The place of an id, from 0.
#[inline]
pub(crate) fn find(heads: &[u32], entries: &[AddedEntry], id: u64) -> Option<usize>
    requires rising { RisesFrom 0 (keys_of (entry_spans entries.now)) }
    requires chained { IsChained (length heads.now) heads.now (keys_of (entry_spans entries.now))
        (nexts_of entries.now) }
    requires room { length entries.now ≤ length heads.now }
    ensures { MatchOption result (place_of id (keys_of (entry_spans entries.now)) ≡ 0)
        (λ p. place_of id (keys_of (entry_spans entries.now)) ≡ p + 1) }
{
    if let Some(place) = find_near(entries, id) {
        return Some(place);
    }
    if heads.is_empty() {
        return None;
    }
    let mut place = heads[bucket(id, heads.len())];
    while place > 0 {
        let entry = entries[place as usize - 1];
        if entry.id == id {
            return Some(place as usize - 1);
        }
        place = entry.next;
    }
    None
}

/// Whether an id is above those of all entries, dead ones too.
pub(crate) fn is_above(entries: &[AddedEntry], id: u64) -> bool
    ensures { IsTrue result ↔ IsAboveLast id (keys_of (entry_spans entries.now)) }
{
    match entries.last() {
        Some(entry) => entry.id < id,
        None => true,
    }
}

/// Links all entries anew.
pub(crate) fn link(heads: &mut [u32], entries: &mut [AddedEntry])
    requires room { length entries.old ≤ length heads.old }
    requires few { length entries.old ≤ MOST_KEPT }
    ensures chained { IsChained (length heads.new) heads.new (keys_of (entry_spans entries.new))
        (nexts_of entries.new) }
    ensures spans { entry_spans entries.new ≡ entry_spans entries.old }
{
    heads.fill(0);
    let buckets = heads.len();
    for i in 0..entries.len() {
        let bucket = bucket(entries[i].id, buckets);
        entries[i].next = heads[bucket];
        heads[bucket] = i as u32 + 1;
    }
}

/// The first number of buckets; it is a power of two, and so are those after it.
const BUCKETS: usize = 16;

/// Makes room for one more entry in the buckets, of which there are at least as many as entries.
/// When it is refused nothing changes.
pub(crate) fn grow(heads: &mut Vec<u32>, entries: &mut [AddedEntry]) -> Result<(), AllocError>
    requires room { length entries.old ≤ length heads.old.items }
    requires few { length entries.old ≤ MOST_KEPT }
    requires chained { IsChained (length heads.old.items) heads.old.items
        (keys_of (entry_spans entries.old))
        (nexts_of entries.old) }
    ensures room { OnOk result (length entries.new < length heads.new.items) }
    ensures kept_room { length entries.new ≤ length heads.new.items }
    ensures chained { IsChained (length heads.new.items) heads.new.items
        (keys_of (entry_spans entries.new))
        (nexts_of entries.new) }
    ensures spans { entry_spans entries.new ≡ entry_spans entries.old }
{
    if entries.len() < heads.len() {
        return Ok(());
    }
    let buckets = if heads.is_empty() {
        BUCKETS
    } else {
        2 * heads.len()
    };
    heads.resize(buckets, 0)?;
    link(heads, entries);
    Ok(())
}
