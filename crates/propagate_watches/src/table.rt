// Where each clause stands.
//
// Propagation asks for the pair of each clause that its blocker does not settle, by `other`, and
// writes it by `rewatch`. It knows that such a clause watches two literals, so it reads only the
// pair, and the tags, one byte each, are elsewhere. With a pair goes the third literal of a
// clause of three: those of up to three literals need no look into the store.
ghost use Rattle.std.specs.Prelude.{◌≡◌, ◌<◌, List, [], length, take, slice_set, OnOk, OnErr};
ghost use Rattle.cnf.specs.Literal.{Literal};
ghost use Rattle.propagate_watches.specs.Doomed.{IsSpared};
ghost use Rattle.propagate_watches.specs.Table.{attachment_in, rest_in, rest_after, grown_table};
ghost use Rattle.propagate_watches.specs.Table.{IsWatching};
ghost use Rattle.propagate_watches.specs.Table.{IsWatchedBy};

use clauses::store::CRef;
use cnf::types::Lit;
use std::alloc::{AllocError, Global};
use std::marker::Model;

/// Whether the clause of a reference is attached, and how the engine keeps it.
#[derive(Clone, Copy, Debug, PartialEq, Eq, Drop)]
pub enum Attachment {
    /// It is not attached.
    Detached,
    /// It is to be looked at by the next propagation.
    Waiting,
    /// It is satisfied at level 0, and needs no watches.
    Satisfied,
    /// It stands in the rows of these two literals, and has these beside.
    Watching(Lit, Lit, Rest),
}

/// The literals of a clause beside the two that it watches.
#[derive(Clone, Copy, Debug, PartialEq, Eq, Drop)]
pub enum Rest {
    /// There is none: the clause has the two that it watches.
    Nothing,
    /// This one alone.
    One(Lit),
    /// They are not kept here, since there may be more than one.
    Many,
}

impl Rest {
    /// The same where the only literal there is watched in the place of `falsified`.
    pub(crate) fn after(self, falsified: Lit) -> Rest
        ensures { result ≡ rest_after falsified self }
    {
        match self {
            Rest::Nothing => Rest::Nothing,
            Rest::One(_) => Rest::One(falsified),
            Rest::Many => Rest::Many,
        }
    }
}

/// An attachment without its literals.
#[derive(Clone, Copy, Debug, PartialEq, Eq, Drop)]
pub(crate) enum Tag {
    /// As `Attachment::Detached`.
    Detached,
    /// As `Attachment::Waiting`.
    Waiting,
    /// As `Attachment::Satisfied`.
    Satisfied,
    /// As `Attachment::Watching`; its literals are in the pair.
    Watching,
}

/// The two literals that a clause watches, and those beside; of no meaning where it watches none.
#[derive(Clone, Copy, Debug, PartialEq, Eq, Drop)]
pub(crate) struct Pair {
    // One of the two that are watched, in any order.
    pub(crate) one: Lit,
    // The other one that is watched.
    pub(crate) other: Lit,
    // The literals of the clause that are not watched.
    pub(crate) rest: Rest,
}

/// An attachment for each reference. The literals stand apart, sixteen bytes a clause, since
/// propagation reads nothing else.
#[derive(Drop)]
pub struct Table {
    // By reference, whether the clause is attached, and how; shorter than the store where the
    // clauses at the end never were.
    tags: Vec<Tag>,
    // By reference, as many as tags; of no meaning where the tag is not `Watching`.
    pairs: Vec<Pair>,
}

impl Model for Table {
    ghost use Rattle.std.specs.Prelude.{List, length, ◌≡◌};
    ghost use Rattle.propagate_watches.specs.declared.table.Attachment.{Attachment};
    ghost use Rattle.propagate_watches.specs.TableLayout.{attachments};

    ghost Value = { List Attachment };

    ghost view = { λ t. attachments t.tags.items t.pairs.items };

    ghost invariant = { λ t. length t.pairs.items ≡ length t.tags.items };
}

impl Table {
    /// A table without attachments. It takes no memory.
    pub fn new(alloc: Global) -> Self
        ensures { result ≡ [] }
    {
        Table {
            tags: Vec::new(alloc),
            pairs: Vec::new(alloc),
        }
    }

    /// The number of references, from 0 up, that have a place in the table.
    pub fn len(&self) -> usize
        ensures { result ≡ length self.now }
    {
        self.tags.len()
    }

    /// The attachment of a reference; one past the end is not attached.
    pub fn get(&self, reference: usize) -> Attachment
        ensures { result ≡ attachment_in self.now reference }
    {
        if reference >= self.tags.len() {
            return Attachment::Detached;
        }
        match self.tags[reference] {
            Tag::Detached => Attachment::Detached,
            Tag::Waiting => Attachment::Waiting,
            Tag::Satisfied => Attachment::Satisfied,
            Tag::Watching => {
                let Pair { one, other, rest } = self.pairs[reference];
                Attachment::Watching(one, other, rest)
            }
        }
    }

    /// Puts down how the clause is attached from now on.
    pub fn set(&mut self, reference: usize, attachment: Attachment)
        requires { reference < length self.old }
        ensures { self.new ≡ slice_set self.old reference attachment }
    {
        match attachment {
            Attachment::Detached => self.tags[reference] = Tag::Detached,
            Attachment::Waiting => self.tags[reference] = Tag::Waiting,
            Attachment::Satisfied => self.tags[reference] = Tag::Satisfied,
            Attachment::Watching(one, other, rest) => {
                self.tags[reference] = Tag::Watching;
                self.pairs[reference] = Pair { one, other, rest };
            }
        }
    }

    /// Detaches the clauses that are marked: `doomed` has a mark by reference, and clauses past its
    /// end have none.
    pub fn drop_doomed(&mut self, doomed: &[bool])
        ensures { IsSpared doomed.now self.old self.new }
    {
        let len = self.len().min(doomed.len());
        for at in 0..len {
            if doomed[at] {
                self.set(at, Attachment::Detached);
            }
        }
    }

    /// The literal that a clause watches beside this one, and what it has beside both.
    pub fn other(&self, reference: CRef, watched: Lit) -> (Lit, Rest)
        requires { (other : Literal) × IsWatchedBy (attachment_in self.now reference) watched
            other }
        ensures other { IsWatchedBy (attachment_in self.now reference) watched result.0 }
        ensures rest { result.1 ≡ rest_in (attachment_in self.now reference) }
    {
        let Pair { one, other, rest } = self.pairs[reference.index()];
        if one == watched {
            (other, rest)
        } else {
            (one, rest)
        }
    }

    /// A clause that watches two literals watches `one` and `other` from now on: one of them in the
    /// place of `falsified`, which goes to the literals beside.
    pub fn rewatch(&mut self, reference: CRef, falsified: Lit, one: Lit, other: Lit)
        requires { (a b : Literal) × IsWatching (attachment_in self.old reference) a b }
        ensures { self.new ≡ slice_set self.old reference
            (Attachment.Watching one other (rest_after falsified
            (rest_in (attachment_in self.old reference)))) }
    {
        let at = reference.index();
        let rest = self.pairs[at].rest.after(falsified);
        self.pairs[at] = Pair { one, other, rest };
    }

    /// The table gets a place for the clause, where it has none: neither it nor those before it are
    /// attached then.
    ///
    /// # Errors
    ///
    /// `AllocError` where a growth was refused. The table is then unchanged.
    pub fn make_room(&mut self, reference: CRef) -> Result<(), AllocError>
        ensures ok { OnOk result (self.new ≡ grown_table self.old reference) }
        ensures err { OnErr result (self.new ≡ self.old) }
    {
        let len = self.tags.len();
        if len > reference.index() {
            return Ok(());
        }
        let none = Lit::new(1, false);
        self.tags.resize(reference.index() + 1, Tag::Detached)?;
        let pair = Pair {
            one: none,
            other: none,
            rest: Rest::Nothing,
        };
        if self.pairs.resize(reference.index() + 1, pair).is_err() {
            self.tags.truncate(len);
            return Err(AllocError);
        }
        Ok(())
    }

    /// Keeps the attachments of the first `len` references.
    pub fn truncate(&mut self, len: usize)
        ensures { self.new ≡ take len self.old }
    {
        self.tags.truncate(len);
        self.pairs.truncate(len);
    }
}
