//! Benchmark program: measures the time that slicing, decoding, building, reassembling and filtering take for each frame.
//!
//! `slice_bench FILE` reads frames from a file: each is a length (four bytes, little endian) and then as many bytes.
//! For each measurement it prints the mean time per item (frame or IP packet) and a sum over the results, so that no
//! call is optimized away. It repeats each measurement for a second, after one round that is not timed. `slice_bench
//! FILE ROUNDS` makes this number of timed rounds over the file instead, and `slice_bench FILE ROUNDS MEASUREMENT`
//! makes one measurement only, so that its instructions can be counted.
#![tactic(auto)]

mod bench_error;
mod building;
mod columns;
mod corpus;
mod files;
mod filtering;
pub mod laws;
mod measure;
mod reassembly;
mod verdicts;

use crate::bench_error::BenchError;
use crate::building::frame_parts_of;
use crate::corpus::ip_packets_of;
use crate::files::frames_of;
use crate::filtering::{Filters, sliced_frames_of};
use crate::measure::{Corpus, Measurement, mean_tenths, measure};
use std::alloc::Global;
use std::process::ExitCode;
use std::rt::{Clock, Env, Files};
use std::{env, fs};

/// Number of frames at the start of the file that the benchmarks of building and filters use at most. They are limited
/// because the decoded headers of each frame use some ten kilobytes.
const MOST_BUILT: usize = 1000;

fn main(rt: HostRuntime) -> ExitCode {
    match run(&rt) {
        Ok(()) => ExitCode::SUCCESS,
        Err(error) => {
            let _ = rt.eprintln(error.text());
            ExitCode::from(error.status())
        }
    }
}

/// Selection made by the command line arguments.
#[derive(Drop)]
struct Selection {
    /// Path of the file with frames.
    path: String,
    /// Number of timed rounds of each measurement; `None` for rounds until a second has passed.
    rounds: Option<u64>,
    /// The only measurement to make; `None` for all.
    only: Option<Measurement>,
}

/// Reads the file with frames, makes the measurements that the command line arguments select, and prints the results.
fn run<R: Files + Env + Clock + Print + AllocGlobal>(rt: &R) -> Result<(), BenchError> {
    let selection = selection_in(rt)?;
    let Ok(bytes) = fs::read(rt, selection.path.as_str()) else {
        return Err(BenchError::File);
    };
    let corpus = corpus_of(rt.alloc(), bytes.as_slice())?;
    print_heading(rt)?;
    print_selected(rt, selection.only, selection.rounds, &corpus)
}

/// Parses the command line arguments: FILE [ROUNDS [MEASUREMENT]].
fn selection_in<R: Env + AllocGlobal>(rt: &R) -> Result<Selection, BenchError> {
    let Ok(mut args) = env::args(rt) else {
        return Err(BenchError::Usage);
    };
    let _ = args.next();
    let Some(path) = args.next() else {
        return Err(BenchError::Usage);
    };
    let rounds = match args.next() {
        Some(text) => Some(rounds_in(text.as_str())?),
        None => None,
    };
    let only = match args.next() {
        Some(text) => Some(measurement_named(text.as_str())?),
        None => None,
    };
    Ok(Selection { path, rounds, only })
}

/// Returns the input of the benchmarks, given the bytes of the file with frames.
fn corpus_of(alloc: Global, bytes: &[u8]) -> Result<Corpus<'_>, BenchError> {
    let frames = frames_of(alloc, bytes)?;
    let ip_packets = ip_packets_of(alloc, frames.as_slice())?;
    let first_frames = &frames.as_slice()[..frames.len().min(MOST_BUILT)];
    let frame_parts = frame_parts_of(alloc, first_frames)?;
    let sliced_frames = sliced_frames_of(alloc, first_frames)?;
    let filters = Filters::new(alloc)?;
    Ok(Corpus {
        frames,
        ip_packets,
        frame_parts,
        sliced_frames,
        filters,
    })
}

/// Makes one measurement or, if `only` is `None`, all of them, and prints the results.
fn print_selected<R: Clock + Print + AllocGlobal>(
    rt: &R,
    only: Option<Measurement>,
    rounds: Option<u64>,
    corpus: &Corpus<'_>,
) -> Result<(), BenchError> {
    for measurement in Measurement::ALL {
        if only.is_none_or(|wanted| wanted == measurement) {
            print_measured(rt, measurement, corpus, rounds)?;
        }
    }
    Ok(())
}

/// Parses the argument ROUNDS, a decimal number. Anything else than a number above 0 is a usage error.
fn rounds_in(text: &str) -> Result<u64, BenchError> {
    match text.parse::<u64>() {
        Ok(rounds) if rounds > 0 => Ok(rounds),
        _ => Err(BenchError::Usage),
    }
}

/// Returns the measurement with the name given as the argument MEASUREMENT; an unknown name is a usage error.
fn measurement_named(name: &str) -> Result<Measurement, BenchError> {
    for measurement in Measurement::ALL {
        if measurement.name() == name {
            return Ok(measurement);
        }
    }
    Err(BenchError::Usage)
}

/// Prints the heading of the results: measurement, items, rounds, nanoseconds per item, and sum.
fn print_heading<R: Print>(rt: &R) -> Result<(), BenchError> {
    let printed = println!(rt;
        "{:<23} {:>9} {:>9} {:>10} {:>20}",
        "measurement", "items", "rounds", "ns/item", "sum"
    );
    printed.map_err(|_| BenchError::Output)
}

/// Makes one measurement, and prints its results in one line: number of items, rounds, mean time per item, and sum.
fn print_measured<R: Clock + Print + AllocGlobal>(
    rt: &R,
    measurement: Measurement,
    corpus: &Corpus<'_>,
    rounds: Option<u64>,
) -> Result<(), BenchError> {
    let name = measurement.name();
    let items = measurement.count(corpus) as u64;
    if items == 0 {
        return println!(rt; "{name:<23} {items:>9}").map_err(|_| BenchError::Output);
    }
    let measured = measure(rt, rt.alloc(), measurement, corpus, rounds)?;
    let rounds = measured.rounds;
    let count = items.saturating_mul(rounds);
    if count == 0 {
        return println!(rt; "{name:<23} {items:>9} {rounds:>9}").map_err(|_| BenchError::Output);
    }
    let tenths = mean_tenths(measured.nanos, count);
    let nanos = tenths / 10;
    let part = tenths % 10;
    let sum = measured.sum;
    println!(rt; "{name:<23} {items:>9} {rounds:>9} {nanos:>8}.{part} {sum:>20}").map_err(
        |_| BenchError::Output,
    )
}
