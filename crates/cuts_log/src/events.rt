// What happens to a log, as proofs see it, and how it is spelled.
ghost use Rattle.std.specs.Prelude.{◌≡◌, ◌<◌, ◌∷◌, ◌++◌, [], map, length};
ghost use Rattle.lrat_log.specs.declared.log.TheConstants.{LINE_LIMIT};
ghost use Rattle.lrat_log.specs.Steps.{added_count};
ghost use Rattle.cuts_log.specs.Outs.{Says};
ghost use Rattle.lrat_cuts.specs.Cuts.{cuts_start};
ghost use Rattle.cuts_log.specs.Events.{Event, lines_in, tokens_at};
ghost use Rattle.text.specs.Writing.{joined};

use crate::out::Out;
use crate::spelling::{
    put_addition, put_bound, put_count, put_cut, put_deletion, put_form, put_group, put_more,
};
use crate::trace::{Shows, Trace};
use cnf::clause_list::ClauseList;
use cnf::types::{Instance, Lit};
use forms::types::NamedFact;
use lrat_cuts::machine::CutsMachine;
use lrat_log::lines::{Hint, Kind};
use std::io::Write;

/// A line that a log takes.
pub(crate) trait Happens {
    /// The line, with the clauses that it makes.
    ghost event: { Self → Event };

    /// Puts its text without the line feed, where the formula has `base` clauses, and `before` were
    /// added.
    fn put<W: Write>(&self, out: &mut Out<W>, base: u64, before: u64)
        requires base { base < LINE_LIMIT }
        requires before { before < LINE_LIMIT }
        ensures { Says out.old (joined (tokens_at base before (event self.now))) out.new };

    /// How many lines the search sees.
    fn lines(&self) -> usize
        ensures { result ≡ length (lines_in (event self.now)) };

    /// How many of them add a clause.
    fn added(&self) -> usize
        ensures { result ≡ added_count (lines_in (event self.now)) };
}

/// A log begins.
#[derive(Drop)]
pub(crate) struct Beginning<'a, W: Write> {
    /// What it is about.
    pub(crate) instance: &'a Instance,
    /// Where it goes.
    pub(crate) writer: &'a W,
}

impl<'a, W: Write> Shows for Beginning<'a, W> {
    ghost shown = { λ b. record {
      problem = b.instance.now;
      start = cuts_start b.instance.now;
      origin = W.contents b.writer.now;
      events = [];
    } };
}

/// A log goes on with what a checker has judged.
#[derive(Drop)]
pub(crate) struct Resuming<'a, W: Write> {
    /// What it is about.
    pub(crate) instance: &'a Instance,
    /// The checker, behind what it has judged.
    pub(crate) machine: &'a CutsMachine,
    /// Where it goes.
    pub(crate) writer: &'a W,
}

impl<'a, W: Write> Shows for Resuming<'a, W> {
    ghost shown = { λ r. record {
      problem = r.instance.now;
      start = (r.machine.now).state;
      origin = W.contents r.writer.now;
      events = [];
    } };
}

/// A log takes one line more.
#[derive(Drop)]
pub(crate) struct Next<'a, T: Happens> {
    /// What it saw before.
    pub(crate) trace: &'a Trace,
    /// The line.
    pub(crate) event: &'a T,
}

impl<'a, T: Happens> Shows for Next<'a, T> {
    ghost shown = { λ n. record (n.trace.now).state {
      events = ((n.trace.now).state).events ++ T.event n.event.now ∷ [];
    } };
}

/// An addition or a deletion.
#[derive(Drop)]
pub(crate) struct PlainLine<'a> {
    /// What it is for.
    pub(crate) kind: Kind,
    /// The clause that it adds; a deletion has none.
    pub(crate) lits: &'a [Lit],
    /// Its hints, or the clauses that it deletes.
    pub(crate) hints: &'a [Hint],
}

impl<'a> Happens for PlainLine<'a> {
    ghost use Rattle.cuts_log.specs.Events.{Plain};

    ghost event = { λ l. Plain (record {
      kind = l.kind;
      clause = l.lits.now;
      hints = l.hints.now;
    }) };

    fn put<W: Write>(&self, out: &mut Out<W>, base: u64, before: u64) {
        let last = base + before;
        if self.kind.is_delete() {
            put_deletion(out, base, last, self.hints);
        } else {
            put_addition(out, base, last + 1, self.lits, self.hints);
        }
    }

    fn lines(&self) -> usize {
        1
    }

    fn added(&self) -> usize {
        usize::from(!self.kind.is_delete())
    }
}

/// A count of literals.
#[derive(Drop)]
pub(crate) struct CountLine<'a> {
    /// How many outputs it has.
    pub(crate) outputs: u64,
    /// What is counted.
    pub(crate) inputs: &'a [Lit],
    /// The clauses of its outputs.
    pub(crate) made: &'a ClauseList,
}

impl<'a> Happens for CountLine<'a> {
    ghost use Rattle.cuts_log.specs.Events.{Word};
    ghost use Rattle.lrat_read.specs.Words.{CountLine as SpelledCount};

    ghost event = { λ l. Word (SpelledCount l.outputs l.inputs.now) l.made.now };

    fn put<W: Write>(&self, out: &mut Out<W>, _base: u64, _before: u64) {
        put_count(out, self.outputs, self.inputs);
    }

    fn lines(&self) -> usize {
        self.made.len()
    }

    fn added(&self) -> usize {
        self.made.len()
    }
}

/// One more output of a count.
#[derive(Drop)]
pub(crate) struct MoreLine<'a> {
    /// The number of the count.
    pub(crate) number: u64,
    /// The clauses of the output.
    pub(crate) made: &'a ClauseList,
}

impl<'a> Happens for MoreLine<'a> {
    ghost use Rattle.cuts_log.specs.Events.{Word};
    ghost use Rattle.lrat_read.specs.Words.{MoreLine as SpelledMore};

    ghost event = { λ l. Word (SpelledMore l.number) l.made.now };

    fn put<W: Write>(&self, out: &mut Out<W>, _base: u64, _before: u64) {
        put_more(out, self.number);
    }

    fn lines(&self) -> usize {
        self.made.len()
    }

    fn added(&self) -> usize {
        self.made.len()
    }
}

/// A group of literals.
#[derive(Drop)]
pub(crate) struct GroupLine<'a> {
    /// At most one of them is true.
    pub(crate) inputs: &'a [Lit],
    /// The clauses that say so.
    pub(crate) ids: &'a [u64],
}

impl<'a> Happens for GroupLine<'a> {
    ghost use Rattle.cuts_log.specs.Events.{Word};
    ghost use Rattle.lrat_read.specs.Words.{GroupLine as SpelledGroup};

    ghost event = { λ l. Word (SpelledGroup l.inputs.now l.ids.now) [] };

    fn put<W: Write>(&self, out: &mut Out<W>, _base: u64, _before: u64) {
        put_group(out, self.inputs, self.ids);
    }

    fn lines(&self) -> usize {
        0
    }

    fn added(&self) -> usize {
        0
    }
}

/// A form, or further facts for the present one.
#[derive(Drop)]
pub(crate) struct FormLine<'a> {
    /// How many times the cost is taken; none for further facts.
    pub(crate) scale: Option<u64>,
    /// What is taken off it.
    pub(crate) facts: &'a [NamedFact],
}

impl<'a> Happens for FormLine<'a> {
    ghost use Rattle.cuts_log.specs.Events.{Word};
    ghost use Rattle.cuts_log.specs.Facts.{spelled};
    ghost use Rattle.lrat_read.specs.Words.{FormLine as SpelledForm};

    ghost event = { λ l. Word (SpelledForm l.scale (map spelled l.facts.now)) [] };

    fn put<W: Write>(&self, out: &mut Out<W>, _base: u64, _before: u64) {
        put_form(out, self.scale, self.facts);
    }

    fn lines(&self) -> usize {
        0
    }

    fn added(&self) -> usize {
        0
    }
}

/// A cut.
#[derive(Drop)]
pub(crate) struct CutLine<'a> {
    /// Its clause.
    pub(crate) lits: &'a [Lit],
}

impl<'a> Happens for CutLine<'a> {
    ghost use Rattle.cuts_log.specs.Events.{Word};
    ghost use Rattle.lrat_read.specs.Words.{CutLine as SpelledCut};

    ghost event = { λ l. Word (SpelledCut l.lits.now) (l.lits.now ∷ []) };

    fn put<W: Write>(&self, out: &mut Out<W>, _base: u64, _before: u64) {
        put_cut(out, self.lits);
    }

    fn lines(&self) -> usize {
        1
    }

    fn added(&self) -> usize {
        1
    }
}

/// A lower bound of the cost.
#[derive(Drop)]
pub(crate) struct BoundLine {
    /// Nothing costs less.
    pub(crate) lower: u64,
}

impl Happens for BoundLine {
    ghost use Rattle.cuts_log.specs.Events.{Word};
    ghost use Rattle.lrat_read.specs.Words.{BoundLine as SpelledBound};

    ghost event = { λ l. Word (SpelledBound l.lower) [] };

    fn put<W: Write>(&self, out: &mut Out<W>, _base: u64, _before: u64) {
        put_bound(out, self.lower);
    }

    fn lines(&self) -> usize {
        0
    }

    fn added(&self) -> usize {
        0
    }
}
