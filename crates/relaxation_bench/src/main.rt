//! Measures the linear relaxation: solves that of an instance a number of times from nothing, and
//! prints what came of it.
#![tactic(auto)]

mod faults;
mod instances;

use crate::faults::BenchFault;
use crate::instances::rows_of;
use lp::limits::{Limits, Relaxed};
use lp::point::Point;
use lp::relaxation::Relaxation;
use lp::rows::Rows;
use std::alloc::Global;
use std::num::saturating_f64_to_i64;
use std::process::ExitCode;
use std::rt::{Env, Files};
use std::{env, fs};
use wcnf::reading::read;

/// A bound that no relaxation comes to.
const NEVER: f64 = 1e300;

/// Solves the relaxation `rounds` times from nothing, with at most `most` iterations each time.
fn solve(alloc: Global, rows: &Rows, most: u32, rounds: u32) -> Result<Relaxed, BenchFault> {
    let limits = Limits {
        most,
        least: most,
        target: NEVER,
        may_stop: false,
    };
    let values = Vec::new(alloc);
    let mut relaxation = Relaxation::new(alloc);
    let mut last = Err(BenchFault::Usage);
    for _round in 0..rounds {
        let mut point = Point::new(alloc);
        relaxation.open(rows, &values, true)?;
        last = Ok(relaxation.solve(&mut point, &limits)?);
    }
    last
}

/// The same for the program's arguments, the words `FILE MOST ROUNDS`.
fn measure<R: Files + AllocGlobal + Env>(rt: &R) -> Result<Relaxed, BenchFault> {
    let mut words = env::args(rt).map_err(|_| BenchFault::Usage)?;
    let _program = words.next();
    let (Some(path), Some(most), Some(rounds)) = (words.next(), words.next(), words.next()) else {
        return Err(BenchFault::Usage);
    };
    let most = most.parse::<u32>().map_err(|_| BenchFault::Usage)?;
    let rounds = rounds.parse::<u32>().map_err(|_| BenchFault::Usage)?;
    let text = fs::read(rt, path.as_str()).map_err(|_| BenchFault::Read)?;
    let instance = read(rt.alloc(), &text).map_err(|_| BenchFault::Text)?;
    let rows = rows_of(rt.alloc(), &instance)?;
    solve(rt.alloc(), &rows, most, rounds)
}

fn main(rt: HostRuntime) -> ExitCode {
    match measure(&rt) {
        Ok(relaxed) => {
            let _ = println!(rt;
                "thousandths {} iterations {}",
                saturating_f64_to_i64((relaxed.bound * 1000.0).round()),
                relaxed.iterations
            );
            ExitCode::from(0)
        }
        Err(fault) => {
            let _ = eprintln!(rt; "error: {fault:?}");
            ExitCode::from(3)
        }
    }
}
