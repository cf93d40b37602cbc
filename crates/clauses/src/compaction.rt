//! Garbage collection: live clauses move together, in place; heads and literals go down over what
//! is dead.
//!
//! One pass from the first head to the last. What it has kept so far fills the front of both
//! vectors, and each further live clause is copied to the end of that front, which is never above
//! the place where the clause lies: so nothing is written over before it was copied. Each literal
//! is moved at most once, and no memory is taken.
ghost use Rattle.std.specs.Prelude.{◌≡◌, ◌<◌, ◌≤◌, ◌^◌, length};
ghost use Rattle.clauses.specs.Heads.{clauses_in, IsLaid, AllLive};

use crate::heads::{ClauseSpan, Heads};
use cnf::types::Lit;

/// Drops the dead heads and their literals.
pub(crate) fn compact(heads: &mut Heads, literals: &mut Vec<Lit>)
    requires laid { IsLaid 0 heads.old (length literals.old.items) }
    requires few { length literals.old.items < 2 ^ 32 }
    ensures laid { IsLaid 0 heads.new (length literals.new.items) }
    ensures live { AllLive heads.new }
    ensures clauses { clauses_in literals.new.items heads.new
        ≡ clauses_in literals.old.items heads.old }
    ensures fewer_heads { length heads.new ≤ length heads.old }
    ensures fewer_literals { length literals.new.items ≤ length literals.old.items }
{
    let mut kept = 0;
    let mut end = 0;
    for i in 0..heads.len() {
        if !heads.is_live(i) {
            continue;
        }
        let span = heads.span(i);
        let start = span.start as usize;
        let length = span.length as usize;
        literals.copy_within(start..start + length, end);
        let moved = ClauseSpan {
            start: end as u32,
            length: span.length,
        };
        heads.set(kept, moved);
        kept += 1;
        end += length;
    }
    heads.truncate(kept);
    literals.truncate(end);
}
