//! The lines of `--progress`: how far a run is, once a second, at each better solution and at the
//! end of the search, and that the certificate is being written.
use crate::standard_error::Messages;
use cdcl_order::watch::{SearchReport, Way};
use improve_found::watch::Raised;
use report_text::finding::Finding;
use std::alloc::AllocError;
use std::fs;
use std::io::Write;
use std::rt::{Clock, Files};
use std::time::{Duration, Instant};

/// The conflicts after which the clock is read; it is at each better solution, too.
const LOOK: u64 = 16;

/// The fewest seconds from one line to the next, except at a better solution.
const PAUSE: u64 = 1;

/// Where the system says what memory the process holds.
const STATUS: &str = "/proc/self/status";

/// How far a run is.
#[derive(Drop)]
pub struct Meter<'a, R: Clock> {
    /// The clock, and where files are.
    rt: &'a R,
    /// When the run began.
    start: Instant,
    /// When the last line was told, or the run began.
    told: Instant,
    /// How many units of effort the run may spend, at most 2^62.
    limit: u64,
    /// How many of them are left, as the search said last.
    left: u64,
    /// What was told last of the search.
    report: SearchReport,
    /// How often the solvers before this one restarted.
    restarts: u64,
    /// How many propagations they made.
    propagations: u64,
    /// How many solutions were shown, each a unit of the effort.
    solutions: u64,
    /// What the best of them costs, below 2^62; none where there is none.
    cost: Option<u64>,
    /// Whether it is proved that there is none.
    is_refuted: bool,
    /// What no solution costs less than, as the certificate says; none before it did.
    lower: Option<LowerBound>,
    /// Whether a certificate goes to a file.
    has_proof: bool,
}

/// What no solution costs less than.
#[derive(Clone, Copy, Drop)]
struct LowerBound {
    /// The bound, up to 2^62.
    least: u64,
    /// Which form showed it, and what that is worth in tenths; none where an earlier run did, or
    /// where the search has ended.
    form: Option<(Way, u64)>,
}

impl<'a, R: Clock + Files + AllocGlobal> Meter<'a, R> {
    /// A run begins; none where the clock cannot be read. What is told goes to standard error
    /// alone, and no contract speaks of it.
    pub fn start(rt: &'a R, limit: u64, has_proof: bool) -> Option<Self> {
        let Ok(start) = Instant::now(rt) else {
            return None;
        };
        Some(Meter {
            rt,
            start,
            told: start,
            limit,
            left: limit,
            report: SearchReport {
                conflicts: 0,
                propagations: 0,
                learned: 0,
                restarts: 0,
            },
            restarts: 0,
            propagations: 0,
            solutions: 0,
            cost: None,
            is_refuted: false,
            lower: None,
            has_proof,
        })
    }

    /// Takes note of how far the search is, and tells it if the last line is a second old.
    pub(crate) fn learned<E: Write>(
        &mut self,
        report: &SearchReport,
        messages: &mut Messages<'_, E>,
    ) {
        let last = &self.report;
        if report.restarts < last.restarts || report.propagations < last.propagations {
            // Another solver goes on.
            self.restarts = self.restarts.saturating_add(self.report.restarts);
            self.propagations = self.propagations.saturating_add(self.report.propagations);
        }
        self.report = *report;
        if report.conflicts % LOOK != 0 {
            return;
        }
        if let Ok(now) = Instant::now(self.rt) {
            if now.duration_since(self.told).as_secs() >= PAUSE {
                self.tell(now, messages);
            }
        }
    }

    /// Takes note of a better solution, and tells how far the search is.
    pub(crate) fn better<E: Write>(&mut self, cost: u64, messages: &mut Messages<'_, E>) {
        self.solutions = self.solutions.saturating_add(1);
        self.cost = Some(cost);
        if let Ok(now) = Instant::now(self.rt) {
            self.tell(now, messages);
        }
    }

    /// Takes note of what no solution costs less than, as an earlier run has shown.
    pub fn begin_at(&mut self, lower: u64) {
        self.lower = Some(LowerBound {
            least: lower,
            form: None,
        });
    }

    /// Takes note of what no solution costs less than.
    pub(crate) fn raised(&mut self, bound: Raised) {
        self.lower = Some(LowerBound {
            least: bound.lower,
            form: Some((bound.way, bound.tenths)),
        });
    }

    /// Takes note of how many units of effort are left.
    pub(crate) fn note_left(&mut self, left: u64) {
        self.left = left;
    }

    /// The search has ended, in time or since its time was over: it tells how far it came, and that
    /// the certificate is being written, if one is.
    pub(crate) fn searched<E: Write>(
        &mut self,
        finding: &Finding<'_>,
        is_in_time: bool,
        messages: &mut Messages<'_, E>,
    ) {
        let Ok(now) = Instant::now(self.rt) else {
            return;
        };
        self.note_proved(finding);
        // Nothing else ends it in time without an answer: no effort was left for what it wanted.
        if is_in_time && matches!(finding, Finding::Best { .. } | Finding::Nothing) {
            self.left = 0;
        }
        self.tell(now, messages);
        if self.has_proof && matches!(finding, Finding::Optimum { .. } | Finding::Unsat) {
            self.tell_writing(now, messages);
        }
    }

    /// Takes note of what the search has proved. A lower bound is told only where there was one
    /// before.
    fn note_proved(&mut self, finding: &Finding<'_>) {
        match finding {
            Finding::Optimum { cost, .. } if self.lower.is_some() => self.begin_at(*cost),
            Finding::Unsat => self.is_refuted = true,
            _ => {}
        }
    }

    /// Tells that the certificate is being written; where memory for the line is refused, nothing.
    fn tell_writing<E: Write>(&self, now: Instant, messages: &mut Messages<'_, E>) {
        let age = now.duration_since(self.start);
        let (start, end) = messages.edges();
        let line = format!(in self.rt.alloc();
            "{start}{}.{} s, writing the certificate{end}",
            age.as_secs(),
            age.subsec_millis() / 100
        );
        if let Ok(line) = line {
            messages.show(line.as_str());
        }
    }

    /// Tells how far the search is; where memory for the line is refused, nothing.
    fn tell<E: Write>(&mut self, now: Instant, messages: &mut Messages<'_, E>) {
        self.told = now;
        let (start, end) = messages.edges();
        if let Ok(line) = self.spell(now, start, end) {
            messages.show(line.as_str());
        }
    }

    /// The line, between its edges.
    fn spell(&self, now: Instant, start: &str, end: &str) -> Result<String, AllocError> {
        let age = now.duration_since(self.start);
        let cost = self.spell_cost()?;
        let pace = self.spell_pace(age)?;
        let memory = self.spell_memory()?;
        let spent = self.spell_spent()?;
        let search = self.spell_search()?;
        format!(in self.rt.alloc();
            "{start}{}.{} s, {cost}, {pace}, {memory}{spent}, {search}{end}",
            age.as_secs(),
            age.subsec_millis() / 100
        )
    }

    /// What is of interest to whoever works on the search.
    fn spell_search(&self) -> Result<String, AllocError> {
        let report = &self.report;
        format!(in self.rt.alloc();
            "{} propagations, {} learned clauses, {} restarts",
            self.propagations.saturating_add(report.propagations),
            report.learned,
            self.restarts.saturating_add(report.restarts)
        )
    }

    /// What the best solution costs, how many solutions there were up to it, and what is known to
    /// be needed.
    fn spell_cost(&self) -> Result<String, AllocError> {
        let alloc = self.rt.alloc();
        let count = self.solutions;
        let noun = if count == 1 { "solution" } else { "solutions" };
        match (self.cost, self.lower) {
            _ if self.is_refuted => format!(in alloc; "no solution"),
            (None, None) => format!(in alloc; "no solution yet"),
            (None, Some(lower)) => {
                let lower = self.spell_lower(lower)?;
                format!(in alloc; "no solution yet, at least {lower}")
            }
            (Some(cost), None) => format!(in alloc; "cost {cost} ({count} {noun})"),
            (Some(cost), Some(lower)) => {
                let gap = gap_of(cost, lower.least);
                let lower = self.spell_lower(lower)?;
                format!(in alloc;
                    "cost {cost} ({count} {noun}), at least {lower}, gap {}.{:02} %",
                    gap / 100,
                    gap % 100
                )
            }
        }
    }

    /// What is known to be needed: while that is less than the best cost what the form is worth
    /// that showed it, and which way that came.
    fn spell_lower(&self, lower: LowerBound) -> Result<String, AllocError> {
        let alloc = self.rt.alloc();
        let least = lower.least;
        let Some((way, tenths)) = lower.form else {
            return format!(in alloc; "{least}");
        };
        let name = name_of(way);
        if self.cost.is_some_and(|cost| cost <= least) {
            return format!(in alloc; "{least} by {name}");
        }
        format!(in alloc; "{}.{} by {name}", tenths / 10, tenths % 10)
    }

    /// How many conflicts there were.
    fn spell_pace(&self, age: Duration) -> Result<String, AllocError> {
        let conflicts = self.report.conflicts;
        let pace = per_second(conflicts, age);
        format!(in self.rt.alloc(); "{conflicts} conflicts ({pace} a second)")
    }

    /// How much memory the process holds, where the system says it.
    fn spell_memory(&self) -> Result<String, AllocError> {
        let alloc = self.rt.alloc();
        let Ok(status) = fs::read_to_string(self.rt, STATUS) else {
            return format!(in alloc; "");
        };
        match resident_of(&status) {
            Some(size) => {
                format!(in alloc; "{} MB of memory, ", size.saturating_mul(1024) / 1_000_000)
            }
            None => format!(in alloc; ""),
        }
    }

    /// How much of the effort is spent, in hundredths of a percent: each conflict and each solution
    /// is a unit, and what the search has spent beside them it says by what is left.
    fn spell_spent(&self) -> Result<String, AllocError> {
        let told = self.report.conflicts.saturating_add(self.solutions);
        let spent = told.max(self.limit.saturating_sub(self.left));
        let part = share_of(spent, self.limit);
        format!(in self.rt.alloc(); "{}.{:02} % of the effort spent", part / 100, part % 100)
    }
}

/// What the form is called that shows a lower bound.
fn name_of(way: Way) -> &'static str {
    match way {
        Way::Cores => "cores",
        Way::Relaxation => "the relaxation",
        Way::Cost => "conflicts",
    }
}

/// The memory that the process holds, in units of 1024 bytes, by this text of the system.
fn resident_of(status: &str) -> Option<u64> {
    for line in status.lines() {
        if let Some(size) = line.strip_prefix("VmRSS:") {
            return size.trim_end_matches("kB").trim().parse::<u64>().ok();
        }
    }
    None
}

/// The share in hundredths of a percent, rounded down. All of nothing is spent from the start.
fn share_of(spent: u64, limit: u64) -> u64 {
    if limit == 0 {
        return 10_000;
    }
    spent.saturating_mul(10_000) / limit
}

/// By how much the cost is above what is needed at least, in hundredths of a percent of the cost,
/// rounded up: it is 0 only where they are the same.
fn gap_of(cost: u64, lower: u64) -> u64 {
    let above = u128::from(cost.saturating_sub(lower));
    let gap = above
        .saturating_mul(10_000)
        .div_ceil(u128::from(cost.max(1)));
    gap.min(10_000) as u64
}

/// How many a second: none in the first thousandth of one. A product past 2^64 is cut off, which
/// takes some thousand years.
fn per_second(count: u64, age: Duration) -> u64 {
    let millis = age
        .as_secs()
        .saturating_mul(1000)
        .saturating_add(u64::from(age.subsec_millis()));
    if millis == 0 {
        return 0;
    }
    count.saturating_mul(1000) / millis
}
