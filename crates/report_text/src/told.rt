// What a run tells of its solutions: an `o` line for each, as soon as it is known. Whoever reads at
// the other end of a pipe has the line before the search goes on, and an interrupted run leaves
// whole lines: a line is one write of at most 23 bytes.
ghost use Rattle.std.specs.Prelude.{◌≡◌, ◌+◌, ◌<◌, ◌^◌, [], Some, drop, slice_index};
ghost use Rattle.text.specs.Writing.{Writes, spaced};
ghost use Rattle.lrat_result.specs.Result.{cost_tokens};
ghost use Rattle.report_text.specs.Told.{Tells, fault_of_telling};

use crate::fault::RunFault;
use improve_found::progress::{Progress, ProgressFault};
use itoa::write_digits;
use std::alloc::Global;
use std::io::Write;
use text::output::{WriteFault, write_piece};

/// Room for `o `, the 20 digits of the greatest number, and a line feed.
const LINE_ROOM: usize = 23;

/// Tells costs to a writer, and keeps them. Room for a cost is made before its line is written, so
/// that what was told is always known. After a failure nothing more is written.
#[derive(Drop)]
pub struct Told<'a, W: Write> {
    /// Where the lines go.
    pub writer: &'a mut W,
    /// The costs whose lines were written and flushed.
    pub costs: Vec<u64>,
    /// The cost that it failed to tell last.
    pub failed: Option<u64>,
    /// Whether the last failure was for want of memory; else the writer failed, now or before.
    pub no_memory: bool,
    /// How often it failed, at most 2^62.
    pub failures: u64,
}

/// The writer, and what a failure to tell comes to.
#[derive(Drop)]
pub struct Finished<'a, W: Write> {
    /// Where the lines go.
    pub writer: &'a mut W,
    /// `Memory` or `Output`; it means something only where the last telling failed.
    pub fault: RunFault,
}

impl<'a, W: Write> Told<'a, W> {
    /// Nothing was told yet.
    pub fn new(alloc: Global, writer: &'a mut W) -> Self
        ensures writer { result.writer.ghost_name ≡ writer.entry.ghost_name }
        ensures holds { result.writer.now ≡ writer.old }
        ensures none { (result.costs.items ≡ []) × (result.failures ≡ 0) }
    {
        Told {
            writer,
            costs: Vec::new(alloc),
            failed: None,
            no_memory: false,
            failures: 0,
        }
    }

    /// Hands the writer back, and says why the last telling failed, if it did.
    pub fn finish(self) -> Finished<'a, W>
        ensures writer { result.writer ≡ self.entry.writer }
        ensures fault { result.fault ≡ fault_of_telling self.entry.no_memory }
    {
        let Told {
            writer,
            no_memory,
            ..
        } = self;
        let fault = if no_memory {
            RunFault::Memory
        } else {
            RunFault::Output
        };
        Finished { writer, fault }
    }

    /// Counts a failure to tell this cost.
    fn fail(&mut self, cost: u64, no_memory: bool) -> ProgressFault
        requires { self.old.failures < 2 ^ 62 }
        ensures writer { self.new.writer ≡ self.old.writer }
        ensures costs { self.new.costs ≡ self.old.costs }
        ensures failed { self.new.failed ≡ Some cost }
        ensures why { self.new.no_memory ≡ no_memory }
        ensures failures { self.new.failures ≡ self.old.failures + 1 }
    {
        self.failed = Some(cost);
        self.no_memory = no_memory;
        self.failures += 1;
        ProgressFault
    }
}

impl<'a, W: Write> Progress for Told<'a, W> {
    ghost state = { λ t. record {
      told = t.costs.items;
      failed = t.failed;
      failures = t.failures;
    } };

    ghost follows = { λ first now. (now.writer.ghost_name ≡ first.writer.ghost_name)
        × Tells (W.contents first.writer.now) (W.contents now.writer.now) now.costs.items
        now.failed now.no_memory now.failures };

    fn improved(&mut self, cost: u64) -> Result<(), ProgressFault> {
        if self.failures > 0 {
            return Err(self.fail(cost, false));
        }
        if self.costs.reserve(1).is_err() {
            return Err(self.fail(cost, true));
        }
        if write_cost(self.writer, cost).is_err() {
            return Err(self.fail(cost, false));
        }
        self.costs.push(cost).unwrap();
        Ok(())
    }
}

/// Writes the `o` line of a cost by one write, and flushes.
///
/// # Errors
///
/// `WriteFault` where the writer failed, or its flush. It then has a prefix of the line.
pub fn write_cost<W: Write>(writer: &mut W, cost: u64) -> Result<(), WriteFault>
    ensures { Writes result (W.contents writer.old) (spaced (cost_tokens cost))
        (W.contents writer.new) }
{
    let mut room = [b'\n'; LINE_ROOM];
    let start = spell_cost(cost, &mut room);
    write_piece(writer, &room[start..])?;
    writer.flush().map_err(|_| WriteFault)
}

/// Spells the line before the last byte of the room, which ends it; answers where the line begins.
fn spell_cost(cost: u64, room: &mut [u8; LINE_ROOM]) -> usize
    requires { slice_index room.old 22 ≡ 10 }
    ensures within { result < 23 }
    ensures text { drop result room.new ≡ spaced (cost_tokens cost) }
{
    let digits = write_digits(cost, room, LINE_ROOM - 1);
    room[digits - 1] = b' ';
    room[digits - 2] = b'o';
    digits - 2
}
