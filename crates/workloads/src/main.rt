//! Benchmark program: runs jobs that process or build packets over generated inputs, and prints a digest of the
//! results of each job.
//!
//! `workloads JOB ROUNDS SEED` runs a number of rounds of a job, or of every job with `all`, over inputs that are
//! derived from the seed. No call gets an input twice, except for fragments that a job repeats on purpose. A line has
//! the name of the job, the number of calls, and the digest.
#![tactic(auto)]

mod bench_error;
mod building;
mod captures;
mod digest;
mod fields;
mod fragments;
mod frames;
mod headers;
mod job;
mod shuffled;
mod slicing;
mod templates;
mod unusual;
mod unusual_frames;

use crate::bench_error::BenchError;
use crate::job::Job;
use std::env;
use std::process::ExitCode;
use std::rt::Env;

fn main(rt: HostRuntime) -> ExitCode {
    match run(&rt) {
        Ok(()) => ExitCode::SUCCESS,
        Err(error) => {
            let _ = rt.eprintln(error.text());
            ExitCode::from(error.status())
        }
    }
}

/// Runs the benchmark jobs that the command line selects (JOB ROUNDS SEED), and prints the result of each.
fn run<R: Env + Print + AllocGlobal>(rt: &R) -> Result<(), BenchError> {
    let Ok(mut args) = env::args(rt) else {
        return Err(BenchError::Usage);
    };
    let _ = args.next();
    let (Some(name), Some(rounds), Some(seed)) = (args.next(), args.next(), args.next()) else {
        return Err(BenchError::Usage);
    };
    let (Ok(rounds), Ok(seed)) = (rounds.as_str().parse::<u32>(), seed.as_str().parse::<u32>())
    else {
        return Err(BenchError::Usage);
    };
    let mut known = false;
    for job in Job::ALL {
        if name.as_str() == "all" || name.as_str() == job.name() {
            known = true;
            print_done(rt, job, rounds, seed)?;
        }
    }
    if known {
        Ok(())
    } else {
        Err(BenchError::Usage)
    }
}

/// Runs a benchmark job and prints its line: name, number of calls, and digest of all results in hexadecimal.
fn print_done<R: Print + AllocGlobal>(
    rt: &R,
    job: Job,
    rounds: u32,
    seed: u32,
) -> Result<(), BenchError> {
    let done = job.run(rt.alloc(), rounds, u64::from(seed))?;
    let name = job.name();
    let calls = done.calls();
    let digest = done.value();
    println!(rt; "{name} {calls} {digest:016x}").map_err(|_| BenchError::Output)
}
