//! Builds a log of long lines, and writes it: for timing.
//!
//! `render_bench lines N` writes a log of N additions with 20 literals and 50 hints each to
//! standard output; `render_bench build N` only builds it.
#![tactic(auto)]

ghost use Rattle.std.specs.Prelude.{◌<◌, ◌≤◌, ◌^◌, All, IfOk};
ghost use Rattle.cnf.specs.declared.limits.TheConstants.{NUMBER_LIMIT};
ghost use Rattle.cnf.specs.Lrat.{IsId};
ghost use Rattle.lrat_log.specs.Log.{HasSmallIds, id_of, name_of, number_in};

use cnf::types::Lit;
use lrat_log::lines::{Hint, Kind, Name, Number};
use lrat_log::log::{Log, write_to};
use lrat_log::sink::Sink;
use std::alloc::{AllocError, Global};
use std::{env, io};

/// Clauses of the formula; hints name these, and as many additions.
const BASE: u64 = 1_000_000;

const LITERALS: usize = 20;

const HINTS: usize = 50;

/// Numbers that look random (Marsaglia 2003, xorshift).
#[derive(Drop)]
struct Random(u64);

impl Random {
    /// A number from 1 up to the limit.
    fn up_to(&mut self, limit: u64) -> u64
        requires { 0 < limit }
        ensures from_one { 0 < result }
        ensures small { result ≤ limit }
    {
        let mut x = self.0;
        x ^= x << 13;
        x ^= x >> 7;
        x ^= x << 17;
        self.0 = x;
        1 + x % limit
    }

    fn lit(&mut self) -> Lit
        ensures { IsId result.variable }
    {
        let code = self.up_to(2_000_000);
        Lit::new((code / 2 + 1) as u32, code % 2 == 1)
    }

    fn name(&mut self) -> Name
        ensures number { IsId (number_in result) }
        ensures id { id_of BASE result < NUMBER_LIMIT }
    {
        let id = self.up_to(2 * BASE);
        if id > BASE {
            Name::Added(Number::new(id - BASE))
        } else {
            Name::Formula(Number::new(id))
        }
    }
}

fn lits(alloc: Global, random: &mut Random) -> Result<Vec<Lit>, AllocError>
    ensures { IfOk result (λ v. All (λ k. IsId k.variable) v.items) }
{
    let mut lits = Vec::with_capacity(alloc, LITERALS)?;
    for _k in 0..LITERALS {
        lits.push(random.lit())?;
    }
    Ok(lits)
}

fn hints(alloc: Global, random: &mut Random) -> Result<Vec<Hint>, AllocError>
    ensures numbers { IfOk result (λ v. All (λ h. IsId (number_in (name_of h))) v.items) }
    ensures ids { IfOk result (λ v. All (λ h. id_of BASE (name_of h) < NUMBER_LIMIT) v.items) }
{
    let mut hints = Vec::with_capacity(alloc, HINTS)?;
    for _k in 0..HINTS {
        hints.push(Hint::Plain(random.name()))?;
    }
    Ok(hints)
}

fn log(alloc: Global, lines: u64) -> Result<Log, AllocError>
    ensures { IfOk result (λ log. HasSmallIds BASE log) }
{
    let mut random = Random(88_172_645_463_325_252);
    let mut log = Log::new(alloc);
    for _k in 0..lines {
        let lits = lits(alloc, &mut random)?;
        let hints = hints(alloc, &mut random)?;
        log.append(Kind::Learned, &lits, &hints)?;
    }
    Ok(log)
}

fn main(rt: HostRuntime) -> io::Result<()> {
    let mut words = env::args(&rt)?;
    let _program = words.next();
    let Some(command) = words.next() else {
        return Ok(());
    };
    let lines = match words.next() {
        Some(word) => word.as_str().parse::<u64>().unwrap_or(0),
        None => 0,
    };
    let log = log(rt.alloc(), lines)?;
    if command.as_str() == "build" {
        return Ok(());
    }
    log.is_short();
    let mut out = rt.stdout();
    write_to(&log, BASE, &mut out).map_err(|_| io::Error::from(io::ErrorKind::Other))
}
