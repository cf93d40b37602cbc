// What the log keeps of each line. A log has millions of lines of a few literals and hints, so the
// size of their heads matters. Two ends in words of 8 bytes and the kind took 24; three words of 4
// bytes took 12. Here a line takes one word, and each 32 lines 16 bytes more: a block of 32 lines
// has the places where its first one ends, and the word of a line says how far behind these it
// ends. Lengths in place of that would be as small, but a line would be found by a walk over those
// before it. Where a block has 2^14 literals or 2^15 hints its lines are so long that heads do not
// matter: from the first line on that does not fit each takes three words, with places up to 2^46.
// To build and write a log of long lines takes 0.2 % more instructions than with three words for
// each.
ghost use Rattle.std.specs.Prelude.{◌≡◌, ◌*◌, ◌<◌, ◌≤◌, [], ◌∷◌, ◌++◌, length, slice_get};
ghost use Rattle.std.specs.Prelude.{IfOk, IfSome, OnOk, OnErr, Some, if◌then◌else◌};
ghost use Rattle.lrat_log.specs.declared.heads.TheConstants.{BLOCK, LITS_LIMIT, HINTS_LIMIT};
ghost use Rattle.lrat_log.specs.Heads.{kind_at, number_of, near_head, near_heads, far_head};

use crate::lines::Kind;
use std::alloc::{AllocError, Global};
use std::marker::Model;

/// A word of four bytes holds what is below this.
const WORD: u64 = 1 << 32;

/// How many lines have one base.
const BLOCK: usize = 32;

/// In a near word, literals are counted by this.
const NEAR_LITS_UNIT: u64 = 1 << 18;

/// In the third word of a far head, a place behind literals counts its 2^32s by this.
const FAR_LITS_UNIT: u64 = 1 << 17;

/// In both, hints or their 2^32s are counted by this; what is less is the kind's number.
const HINTS_UNIT: u64 = 1 << 3;

/// A near line ends fewer literals than this behind its base.
const NEAR_LITS: u64 = 1 << 14;

/// A near line ends fewer hints than this behind its base.
const NEAR_HINTS: u64 = 1 << 15;

/// Places behind literals are below this, where literals take 2^49 bytes.
const LITS_LIMIT: u64 = 1 << 47;

/// Places behind hints are below this, where hints take 2^48 bytes.
const HINTS_LIMIT: u64 = 1 << 46;

/// A line, by what it is for and the places where its literals and its hints end. They begin where
/// those of the line before end.
#[derive(Clone, Copy, Drop)]
pub struct LineHead {
    /// What the line is for.
    pub kind: Kind,
    /// The place behind its last literal.
    pub lits_end: u64,
    /// The place behind its last hint.
    pub hints_end: u64,
}

/// The heads of all lines, in their order.
#[derive(Drop)]
pub struct HeadList {
    // For each 32 of the near words.
    bases: Vec<BlockEnds>,
    // The first lines, in a word each. From the top: how many literals behind its base the line
    // ends, below 2^14; how many hints, below 2^15; and the number of its kind, from 0 to 7, in
    // three bits.
    near: Vec<u32>,
    // All lines from the first one on that is no near one.
    far: Vec<FarHead>,
}

impl Model for HeadList {
    ghost use Rattle.std.specs.Prelude.{List, ◌++◌, ◌≤◌, ◌*◌, length, map};
    ghost use Rattle.lrat_log.specs.declared.heads.TheConstants.{BLOCK};
    ghost use Rattle.lrat_log.specs.declared.heads.LineHead.{LineHead};
    ghost use Rattle.lrat_log.specs.Heads.{near_heads, far_head};

    ghost Value = { List LineHead };

    ghost view = { λ h. near_heads 0 h.bases.items h.near.items ++ map far_head h.far.items };

    ghost invariant = { λ h. length h.near.items ≤ BLOCK * length h.bases.items };
}

impl HeadList {
    /// No heads. It takes no memory.
    pub fn new(alloc: Global) -> Self
        ensures { result ≡ [] }
    {
        HeadList {
            bases: Vec::new(alloc),
            near: Vec::new(alloc),
            far: Vec::new(alloc),
        }
    }

    /// How many there are.
    pub fn len(&self) -> usize
        ensures { result ≡ length self.now }
    {
        self.near.len() + self.far.len()
    }

    /// The head in this place, from 0.
    pub fn get(&self, place: usize) -> LineHead
        requires { place < length self.now }
        ensures { slice_get self.now place ≡ Some result }
    {
        let count = self.near.len();
        if place < count {
            read_near(self.bases[place / BLOCK], self.near[place])
        } else {
            self.far[place - count].head()
        }
    }

    /// Puts a head last.
    ///
    /// # Errors
    ///
    /// `AllocError` where a growth was refused, or literals or hints up to its ends take 2^48
    /// bytes, which no memory holds. The heads are then as they were.
    pub fn push(&mut self, head: LineHead) -> Result<(), AllocError>
        ensures ok { OnOk result (self.new ≡ self.old ++ head ∷ []) }
        ensures few { OnOk result (head.hints_end < HINTS_LIMIT) }
        ensures err { OnErr result (self.new ≡ self.old) }
    {
        let far = FarHead::new(head)?;
        if self.far.is_empty() && push_near(&mut self.bases, &mut self.near, head)? {
            return Ok(());
        }
        self.far.push(far)?;
        Ok(())
    }
}

/// The places where the first line of a block ends.
#[derive(Clone, Copy, Drop)]
struct BlockEnds {
    // The place behind its last literal, below `LITS_LIMIT`.
    lits: u64,
    // The place behind its last hint, below `HINTS_LIMIT`.
    hints: u64,
}

impl Model for BlockEnds {
    ghost use Rattle.std.specs.Prelude.{◌<◌};
    ghost use Rattle.lrat_log.specs.declared.heads.TheConstants.{LITS_LIMIT, HINTS_LIMIT};
    ghost use Rattle.lrat_log.specs.Heads.{Ends};

    ghost Value = { Ends };

    ghost view = { λ b. record { lits = b.lits; hints = b.hints } };

    ghost invariant = { λ b. (b.lits < LITS_LIMIT) × (b.hints < HINTS_LIMIT) };

    ghost inverse = { λ e. record { lits = e.lits; hints = e.hints } };
}

/// A line that is no near one.
#[derive(Clone, Copy, Drop)]
struct FarHead {
    // The place behind its last literal, without its 2^32s.
    lits_low: u32,
    // The place behind its last hint, without its 2^32s.
    hints_low: u32,
    // From the top: the 2^32s of the place behind its last literal, below 2^15; those of the place
    // behind its last hint, below 2^14; and the number of its kind, from 0 to 7, in three bits.
    tops: u32,
}

const _: () = prove!(size_of::<FarHead>() == 12);

impl FarHead {
    /// The head in three words.
    ///
    /// # Errors
    ///
    /// `AllocError` where literals or hints up to its ends take 2^48 bytes: no memory holds them.
    fn new(head: LineHead) -> Result<Self, AllocError>
        ensures kind { IfOk result (λ far. (far_head far).kind ≡ head.kind) }
        ensures lits { IfOk result (λ far. (far_head far).lits_end ≡ head.lits_end) }
        ensures hints { IfOk result (λ far. (far_head far).hints_end ≡ head.hints_end) }
        ensures few_lits { OnOk result (head.lits_end < LITS_LIMIT) }
        ensures few_hints { OnOk result (head.hints_end < HINTS_LIMIT) }
    {
        let (lits, hints) = (head.lits_end, head.hints_end);
        if lits >= LITS_LIMIT || hints >= HINTS_LIMIT {
            return Err(AllocError);
        }
        let tops = (lits / WORD) * FAR_LITS_UNIT + (hints / WORD) * HINTS_UNIT + number(head.kind);
        Ok(FarHead {
            lits_low: (lits % WORD) as u32,
            hints_low: (hints % WORD) as u32,
            tops: tops as u32,
        })
    }

    /// The head itself.
    fn head(self) -> LineHead
        ensures { result ≡ far_head self }
    {
        let tops = u64::from(self.tops);
        LineHead {
            kind: kind(tops % HINTS_UNIT),
            lits_end: u64::from(self.lits_low) + WORD * (tops / FAR_LITS_UNIT),
            hints_end: u64::from(self.hints_low) + WORD * (tops % FAR_LITS_UNIT / HINTS_UNIT),
        }
    }
}

/// Puts the head behind the near ones, and answers true; or changes nothing, where it ends too far
/// behind its base.
fn push_near(
    bases: &mut Vec<BlockEnds>,
    near: &mut Vec<u32>,
    head: LineHead,
) -> Result<bool, AllocError>
    requires based { length near.old.items ≤ BLOCK * length bases.old.items }
    requires few_lits { head.lits_end < LITS_LIMIT }
    requires few_hints { head.hints_end < HINTS_LIMIT }
    ensures ok { IfOk result (λ fits. near_heads 0 bases.new.items near.new.items
        ≡ (if fits then near_heads 0 bases.old.items near.old.items ++ head ∷ []
        else near_heads 0 bases.old.items near.old.items)) }
    ensures err { OnErr result (near_heads 0 bases.new.items near.new.items
        ≡ near_heads 0 bases.old.items near.old.items) }
    ensures based { length near.new.items ≤ BLOCK * length bases.new.items }
{
    let block = near.len() / BLOCK;
    if block == bases.len() {
        // Room comes first, so that a refused growth changes nothing.
        near.reserve(1)?;
        bases.push(BlockEnds {
            lits: head.lits_end,
            hints: head.hints_end,
        })?;
        near.push(number(head.kind) as u32)?;
        return Ok(true);
    }
    let Some(word) = near_word(bases[block], head) else {
        return Ok(false);
    };
    near.push(word)?;
    Ok(true)
}

/// The word of the head, where it ends not too far behind the base.
fn near_word(base: BlockEnds, head: LineHead) -> Option<u32>
    ensures kind { IfSome result (λ word. (near_head base word).kind ≡ head.kind) }
    ensures lits { IfSome result (λ word. (near_head base word).lits_end ≡ head.lits_end) }
    ensures hints { IfSome result (λ word. (near_head base word).hints_end ≡ head.hints_end) }
{
    if head.lits_end < base.lits || head.hints_end < base.hints {
        return None;
    }
    let lits = head.lits_end - base.lits;
    let hints = head.hints_end - base.hints;
    if lits >= NEAR_LITS || hints >= NEAR_HINTS {
        return None;
    }
    Some((lits * NEAR_LITS_UNIT + hints * HINTS_UNIT + number(head.kind)) as u32)
}

/// The head with this word.
fn read_near(base: BlockEnds, word: u32) -> LineHead
    ensures { result ≡ near_head base word }
{
    let word = u64::from(word);
    LineHead {
        kind: kind(word % HINTS_UNIT),
        lits_end: base.lits + word / NEAR_LITS_UNIT,
        hints_end: base.hints + word % NEAR_LITS_UNIT / HINTS_UNIT,
    }
}

/// The number of the kind, from 0 to 7.
fn number(kind: Kind) -> u64
    ensures number { result ≡ number_of kind }
    ensures small { result < 8 }
{
    match kind {
        Kind::Learned => 0,
        Kind::Unit => 1,
        Kind::Resolvent => 2,
        Kind::Definition => 3,
        Kind::Weaker => 4,
        Kind::Delete => 5,
        Kind::Empty => 6,
        Kind::Axiom => 7,
    }
}

/// The kind with this number.
fn kind(number: u64) -> Kind
    ensures { result ≡ kind_at number }
{
    match number {
        0 => Kind::Learned,
        1 => Kind::Unit,
        2 => Kind::Resolvent,
        3 => Kind::Definition,
        4 => Kind::Weaker,
        5 => Kind::Delete,
        6 => Kind::Empty,
        _ => Kind::Axiom,
    }
}
