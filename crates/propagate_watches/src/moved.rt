// The new references of clauses, in entries and in the table.
ghost use Rattle.std.specs.Prelude.{◌≡◌, ◌≤◌, All, map};
ghost use Rattle.std.specs.List.Sorted.{IsStrictlyIncreasing};
ghost use Rattle.propagate_watches.specs.Renames.{named_entry, IsMoved};

use crate::pool::WatchEntry;
use crate::table::{Attachment, Table};
use clauses::moved::new_reference;
use clauses::store::{CRef, Moves};

/// The entry under the new reference of its clause.
pub(crate) fn new_entry(moves: &Moves, entry: WatchEntry) -> WatchEntry
    ensures { result ≡ named_entry moves.now entry }
{
    WatchEntry {
        reference: new_reference(moves, entry.reference),
        blocker: entry.blocker,
    }
}

/// Moves each attachment to its new reference: `pairs` has the old and the new one of each clause
/// that was kept. What is not named there is detached. No attachment is written over before it is
/// read, since no reference rises.
pub fn move_attachments(table: &mut Table, pairs: &[(CRef, CRef)])
    requires rising { IsStrictlyIncreasing (map (λ p. p.1) pairs.now) }
    requires lower { All (λ p. p.1 ≤ p.0) pairs.now }
    ensures { IsMoved table.old table.new pairs.now }
{
    let mut next = 0;
    for at in 0..table.len() {
        let mut attachment = Attachment::Detached;
        if next < pairs.len() {
            let (old, new) = pairs[next];
            if new.index() == at {
                attachment = table.get(old.index());
                next += 1;
            }
        }
        table.set(at, attachment);
    }
}
