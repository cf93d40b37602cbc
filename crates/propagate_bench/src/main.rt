//! Measures unit propagation: plays rounds of decisions on a formula, and prints how much was
//! decided and propagated.
#![tactic(auto)]

mod faults;
mod loading;
mod rounds;

use crate::faults::BenchFault;
use crate::loading::{greatest_variable, load};
use crate::rounds::{RoundCounts, play_rounds};
use clauses::store::Store;
use propagate::engine::Engine;
use std::process::ExitCode;
use std::rt::{Env, Files};
use std::{env, fs};

/// Reads the formula of a file and plays `rounds` rounds on it.
fn measure<R: Files + AllocGlobal>(
    rt: &R,
    path: &str,
    rounds: u64,
) -> Result<RoundCounts, BenchFault> {
    let text = fs::read(rt, path).map_err(|_| BenchFault::Read)?;
    let vars = greatest_variable(&text)?;
    let mut store = Store::new(rt.alloc());
    let mut engine = Engine::new(rt.alloc(), vars)?;
    load(&text, &mut store, &mut engine, vars)?;
    play_rounds(&mut engine, &store, vars, rounds)
}

/// The same for the program's arguments, the words `FILE ROUNDS`.
fn measure_args<R: Files + AllocGlobal + Env>(rt: &R) -> Result<RoundCounts, BenchFault> {
    let mut words = env::args(rt).map_err(|_| BenchFault::Usage)?;
    let _program = words.next();
    let (Some(path), Some(rounds)) = (words.next(), words.next()) else {
        return Err(BenchFault::Usage);
    };
    let rounds = rounds.parse::<u64>().map_err(|_| BenchFault::Usage)?;
    measure(rt, path.as_str(), rounds)
}

fn main(rt: HostRuntime) -> ExitCode {
    match measure_args(&rt) {
        Ok(counts) => {
            let _ = println!(rt;
                "rounds {} decisions {} propagations {} conflicts {}",
                counts.rounds, counts.decisions, counts.propagations, counts.conflicts
            );
            ExitCode::from(0)
        }
        Err(fault) => {
            let _ = eprintln!(rt; "error: {fault:?}");
            ExitCode::from(3)
        }
    }
}
