// The clauses that others are compared with, to find those that are subsumed or can be
// strengthened. Each clause is in one bin, that of one of its literals, with its signature. A
// clause is compared with a bin eight signatures at a time, and literals are compared only where a
// signature fits. A bin has room for a hundred clauses, so that a literal that occurs everywhere
// does not make the search quadratic: no other is compared with a clause that finds no room. The
// steps of each pass are limited to a number linear in the store, also where many long clauses
// share most of their literals.
//
// All bins lie in two vectors: a vector each for the references and the signatures of a bin would
// take three times the memory where clauses are short. A bin without room left moves to the end,
// where it has twice its room; its old places are not used again. So before the first pass each bin
// gets just the room that it will need.
ghost use Rattle.std.specs.Prelude.{◌≡◌, length, Some, IfOk, IfSome};
ghost use Rattle.eliminate_tables.specs.Bins.{ArePlaced, IsOther};

use crate::against::{Against, hold_against};
use crate::signatures::{maybe_subsets, signature};
use clauses::store::{CRef, Store};
use cnf::marks::Marks;
use cnf::types::Lit;
use std::alloc::{AllocError, Global};
use std::marker::Model;

/// The most clauses that have room in a bin.
const MOST_IN_A_BIN: usize = 100;
/// The steps of a pass for each literal of the store, and for each clause. A step looks at a
/// literal, or holds eight signatures against one.
const STEPS: usize = 64;

/// The room that a bin gets with its first clause.
const FIRST_ROOM: u8 = 2;

/// Where the clauses of a bin lie. It takes sixteen bytes.
#[derive(Clone, Copy, Drop)]
struct Bin {
    // The bits that all the signatures have; all bits, where there is none. Where one of them is
    // missing no signature fits, so that most bins are skipped without a look into them.
    common: u64,
    // The place of the first one.
    start: u32,
    // How many there are, some of which may be dead: at most as many as a bin may hold.
    length: u8,
    // How many places from the first on are the bin's own.
    room: u8,
}

const _: () = prove!(size_of::<Bin>() == 16);

/// A bin for each literal.
#[derive(Drop)]
pub struct Bins {
    // By literal.
    bins: Vec<Bin>,
    // The clauses of all bins, and places that no bin has.
    references: Vec<CRef>,
    // At the place of each reference, the signature of its clause.
    signatures: Vec<u64>,
    // By reference, whether the clause was put into a bin, or found no room.
    is_connected: Vec<bool>,
    // The first place of the store with a clause that no pass has seen.
    first_new: usize,
    // For each place of the bin in hand, whether its signature fits.
    fits: Vec<bool>,
    // How many steps are left in this pass.
    steps: usize,
}

/// A clause of the store that others are held against, with its literals marked.
#[derive(Clone, Copy, Drop)]
struct Marked<'m, 's> {
    marks: &'m Marks,
    store: &'s Store,
    reference: CRef,
    // The bits of its literals and of their negations.
    signature: u64,
}

/// A clause that was found beside another one.
#[derive(Clone, Copy, Drop)]
pub struct ClauseBeside {
    // The clause that was found.
    pub by: CRef,
    // How it lies against the other one.
    pub against: Against,
}

/// Of the bins only how far passes have seen the store is told; which clauses are found is policy.
impl Model for Bins {
    ghost use Rattle.std.specs.Prelude.{ℕ};

    ghost Value = { ℕ };

    ghost view = { λ b. b.first_new };
}

impl Bins {
    /// Empty bins, for the literals of the variables 1 to `vars`.
    pub fn new(alloc: Global, vars: u32) -> Result<Self, AllocError>
        ensures { IfOk result (λ b. b ≡ 0) }
    {
        let count = 2 * vars as usize;
        let empty = Bin {
            common: u64::MAX,
            start: 0,
            length: 0,
            room: 0,
        };
        Ok(Bins {
            bins: Vec::from_elem(alloc, empty, count)?,
            references: Vec::new(alloc),
            signatures: Vec::new(alloc),
            is_connected: Vec::new(alloc),
            first_new: 0,
            fits: Vec::from_elem(alloc, false, MOST_IN_A_BIN)?,
            steps: 0,
        })
    }

    /// The first place of the store with a clause that came since the last pass began.
    pub fn first_new(&self) -> usize
        ensures { result ≡ self.now }
    {
        self.first_new
    }

    /// A pass over the store begins: clauses that were deleted leave their bins.
    pub fn start_pass(&mut self, store: &Store)
        ensures { self.new ≡ length store.now.slots }
    {
        self.first_new = store.places();
        self.steps = store.used().saturating_mul(STEPS);
        for bin in self.bins.iter_mut() {
            clean(bin, &mut self.references, &mut self.signatures, store);
        }
    }

    /// Gives each bin the room that it needs for these clauses, before the first of them is put
    /// into one. Where clauses are deleted or shortened meanwhile, another room is needed. Once
    /// there are clauses in bins, nothing is done.
    ///
    /// # Errors
    ///
    /// `AllocError` where memory was refused.
    pub fn make_rooms(&mut self, store: &Store, clauses: &[CRef]) -> Result<(), AllocError>
        ensures unchanged { self.new ≡ self.old }
    {
        let Some(fill) = clauses.first() else {
            return Ok(());
        };
        if !self.references.is_empty() {
            return Ok(());
        }
        foresee(&mut self.bins, store, clauses);
        let places = lay_out(&mut self.bins);
        // Half as much again for the clauses that come later.
        self.references.reserve(places.saturating_add(places / 2))?;
        self.references.resize(places, *fill)?;
        self.signatures.reserve(places.saturating_add(places / 2))?;
        self.signatures.resize(places, 0)
    }

    /// Puts a clause into the least full bin of its literals, where it is in none yet.
    pub fn connect(&mut self, reference: CRef, lits: &[Lit]) -> Result<(), AllocError>
        ensures same_view { self.new ≡ self.old }
    {
        let place = reference.index();
        for _gap in self.is_connected.len()..place + 1 {
            self.is_connected.push(false)?;
        }
        if let Some(is_connected) = self.is_connected.get_mut(place) {
            if *is_connected {
                return Ok(());
            }
            *is_connected = true;
        }
        let least = least_full(&self.bins, lits);
        if let Some(bin) = self.bins.get_mut(least) {
            if bin.length == bin.room {
                make_room(bin, &mut self.references, &mut self.signatures, reference)?;
            }
            let signature = signature(lits);
            put(
                bin,
                &mut self.references,
                &mut self.signatures,
                reference,
                signature,
            );
        }
        Ok(())
    }

    /// Another clause that is within the marked one, or but for one literal; none where the pass
    /// has no steps left.
    pub fn find(
        &mut self,
        marks: &Marks,
        store: &Store,
        current: CRef,
        lits: &[Lit],
    ) -> Option<ClauseBeside>
        requires { ArePlaced (length marks.now) store.now.slots }
        ensures same_view { self.new ≡ self.old }
        ensures found { IfSome result (IsOther marks.now store.now.slots current) }
    {
        let marked = Marked {
            marks,
            store,
            reference: current,
            signature: signature_both(lits),
        };
        for lit in lits {
            for row in [lit.index(), lit.negation().index()] {
                if self.steps == 0 {
                    return None;
                }
                if let Some(bin) = self.bins.get(row) {
                    let bin = *bin;
                    let found = self.find_in(bin, &marked);
                    if found.is_some() {
                        return found;
                    }
                }
            }
        }
        None
    }

    /// Another clause of the bin that is within the marked one, or but for one literal.
    fn find_in(&mut self, bin: Bin, marked: &Marked) -> Option<ClauseBeside>
        requires { ArePlaced (length marked.now.marks.now) marked.now.store.now.slots }
        ensures same_view { self.new ≡ self.old }
        ensures found { IfSome result
            (IsOther marked.now.marks.now marked.now.store.now.slots marked.now.reference) }
    {
        let start = bin.start as usize;
        let count = bin.length as usize;
        let end = start + count;
        if count > self.fits.len() || end > self.references.len() || end > self.signatures.len() {
            return None;
        }
        self.steps = self.steps.saturating_sub(1 + count / 8);
        if bin.common & marked.signature != bin.common {
            return None;
        }
        let fits = &mut self.fits[..count];
        maybe_subsets(marked.signature, &self.signatures[start..end], fits);
        for (by, fit) in self.references[start..end].iter().zip(fits.iter()) {
            if *fit && *by != marked.reference && self.steps > 0 && marked.store.is_live(*by) {
                let lits = marked.store.lits(*by);
                self.steps = self.steps.saturating_sub(lits.len());
                let against = hold_against(marked.marks, lits);
                if against != Against::Apart {
                    return Some(ClauseBeside { by: *by, against });
                }
            }
        }
        None
    }
}

/// The place of the least full bin of the literals; past the last one where all are full.
fn least_full(bins: &[Bin], lits: &[Lit]) -> usize {
    let mut least = MOST_IN_A_BIN;
    let mut place = usize::MAX;
    for lit in lits {
        if let Some(bin) = bins.get(lit.index()) {
            if (bin.length as usize) < least {
                least = bin.length as usize;
                place = lit.index();
            }
        }
    }
    place
}

/// Counts in the length of each bin, all of which are empty, the clauses that will be put into it.
fn foresee(bins: &mut [Bin], store: &Store, clauses: &[CRef]) {
    for reference in clauses {
        if store.is_live(*reference) {
            let least = least_full(bins, store.lits(*reference));
            if let Some(bin) = bins.get_mut(least) {
                bin.length = bin.length.saturating_add(1);
            }
        }
    }
}

/// Lays the bins side by side, each with its length as its room, and empty. The answer is how many
/// places they take.
fn lay_out(bins: &mut [Bin]) -> usize {
    let mut places = 0u32;
    for bin in bins.iter_mut() {
        bin.start = places;
        bin.room = bin.length;
        bin.length = 0;
        places = places.saturating_add(u32::from(bin.room));
    }
    places as usize
}

/// Gives a bin twice its room, at the end. Where that would lie past 2^32 places, or the bin is
/// full, all stays as it is.
fn make_room(
    bin: &mut Bin,
    references: &mut Vec<CRef>,
    signatures: &mut Vec<u64>,
    fill: CRef,
) -> Result<(), AllocError> {
    let start = references.len();
    let room = bin.room.saturating_mul(2).max(FIRST_ROOM);
    if start >= u32::MAX as usize || bin.length as usize >= MOST_IN_A_BIN {
        return Ok(());
    }
    for k in 0..room {
        let from = bin.start as usize + k as usize;
        let (reference, signature) = match (references.get(from), signatures.get(from)) {
            (Some(reference), Some(signature)) => (*reference, *signature),
            _ => (fill, 0),
        };
        references.push(reference)?;
        signatures.push(signature)?;
    }
    bin.start = start as u32;
    bin.room = room;
    Ok(())
}

/// Puts a clause last, where there is room.
fn put(
    bin: &mut Bin,
    references: &mut [CRef],
    signatures: &mut [u64],
    reference: CRef,
    signature: u64,
) {
    let at = bin.start as usize + bin.length as usize;
    if bin.length < bin.room && at < references.len() && at < signatures.len() {
        references[at] = reference;
        signatures[at] = signature;
        bin.length += 1;
        bin.common &= signature;
    }
}

/// Takes out what was deleted.
fn clean(bin: &mut Bin, references: &mut [CRef], signatures: &mut [u64], store: &Store) {
    let start = bin.start as usize;
    let mut kept: u8 = 0;
    let mut common = u64::MAX;
    for k in 0..bin.length {
        let from = start + k as usize;
        let to = start + kept as usize;
        if from < references.len() && from < signatures.len() && store.is_live(references[from]) {
            references[to] = references[from];
            signatures[to] = signatures[from];
            common &= signatures[from];
            kept += 1;
        }
    }
    bin.length = kept;
    bin.common = common;
}

/// The bits of the literals and of their negations: a clause that strengthens has one literal
/// negated.
fn signature_both(lits: &[Lit]) -> u64 {
    let mut signature = 0u64;
    for lit in lits {
        signature |= 1u64 << (lit.index() % 64);
        signature |= 1u64 << (lit.negation().index() % 64);
    }
    signature
}
