//! What observes a run, for `--best`, `--progress` and `--time-limit`.
ghost use Rattle.std.specs.Prelude.{None};

use crate::alarm::Alarm;
use crate::keeper::Keeper;
use crate::progress::Meter;
use crate::standard_error::Messages;
use cdcl_order::watch::SearchReport;
use cnf::types::Instance;
use improve_found::watch::{Raised, Watch};
use report_text::best::RunWatch;
use report_text::finding::Finding;
use std::io::Write;
use std::rt::{Clock, Files};

/// Keeps the best solution, tells how far the run is, and ends it in time: all of it, some or
/// nothing.
#[derive(Drop)]
pub struct Onlooker<'a, 'm, 'b, R: Files + Clock, E: Write> {
    /// What keeps the best solution.
    pub keeper: Keeper<'a, R>,
    /// What tells how far the run is, if it is to be told.
    pub meter: Option<Meter<'a, R>>,
    /// What ends the search where its time is over.
    pub alarm: Alarm<'a, R>,
    /// Where all of them tell something.
    pub messages: &'m mut Messages<'b, E>,
}

impl<'a, 'm, 'b, R: Files + Clock + AllocGlobal, E: Write> cdcl_order::watch::SearchWatch
    for Onlooker<'a, 'm, 'b, R, E> {
    // What it was shown is in files and on standard error, and is not known here.
    ghost seen = { λ _. None };

    ghost waived = { λ onlooker. onlooker.alarm.waived };

    fn learned(&mut self, report: &SearchReport) {
        if let Some(meter) = &mut self.meter {
            meter.learned(report, self.messages);
        }
    }

    fn waives(&mut self, left: u64) -> u64 {
        // A search asks this first when it begins.
        self.keeper.begin(self.messages);
        if let Some(meter) = &mut self.meter {
            meter.note_left(left);
        }
        self.alarm.waives(left)
    }
}

impl<'a, 'm, 'b, R: Files + Clock + AllocGlobal, E: Write> Watch for Onlooker<'a, 'm, 'b, R, E> {
    fn better(&mut self, instance: &Instance, cost: u64, bits: &[bool]) {
        self.keeper.better(instance, cost, bits, self.messages);
        if let Some(meter) = &mut self.meter {
            meter.better(cost, self.messages);
        }
        self.messages.give_way();
    }

    fn raised(&mut self, bound: Raised) {
        if let Some(meter) = &mut self.meter {
            meter.raised(bound);
        }
    }
}

impl<'a, 'm, 'b, R: Files + Clock + AllocGlobal, E: Write> RunWatch for Onlooker<'a, 'm, 'b, R, E> {
    fn searched(&mut self, finding: &Finding<'_>) {
        self.keeper.begin(self.messages);
        let is_in_time = self.alarm.waived == 0;
        if let Some(meter) = &mut self.meter {
            meter.searched(finding, is_in_time, self.messages);
        }
        self.messages.give_way();
    }

    fn ended(&mut self, instance: &Instance, finding: &Finding<'_>) {
        if instance.hard().len() == 0 && instance.soft().is_empty() {
            let _ = writeln!(self.messages.below(), "warning: no clause was read");
        }
        self.keeper.ended(instance, finding, self.messages);
    }
}
