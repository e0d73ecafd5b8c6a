//! Program that answers each line of standard input with one line: a call on the bounded reassembly pool that it keeps,
//! or a question about what this pool holds and counts.
#![tactic(auto)]

mod calls;
mod replies;
mod requests;
mod words;

use crate::calls::{Pool, add, new_pool, remove, take};
use crate::replies::{evicted_text, outcome_text, state_text};
use crate::requests::{Request, parse};
use etherparse::defrag::DefragLimits;
use std::alloc::Global;
use std::io;
use std::io::{BufRead, BufReader, BufWriter, Write};

fn main(rt: HostRuntime) -> io::Result<()> {
    let alloc = rt.alloc();
    let mut pool = new_pool(alloc, DefragLimits::default(), 0)?;
    let mut output = BufWriter::new(alloc, io::writer(&rt))?;
    for line in BufReader::new(alloc, rt.reader())?.lines(alloc) {
        let answer = answer(alloc, &mut pool, line?.as_str())?;
        output.write_all(answer.as_bytes())?;
        output.write_all(b"\n")?;
    }
    output.flush()
}

/// Makes the call that a line asks for, and returns the answer.
fn answer(alloc: Global, pool: &mut Pool, line: &str) -> io::Result<String> {
    let text = match parse(alloc, line) {
        None => String::from_str(alloc, "err line")?,
        Some(Request::Pool { limits, seed }) => {
            *pool = new_pool(alloc, limits, seed)?;
            String::from_str(alloc, "ok")?
        }
        Some(
            Request::Fragment {
                entry,
                timestamp,
                channel,
                frame,
            },
        ) => outcome_text(alloc, take(pool, entry, &frame, timestamp, channel))?,
        Some(
            Request::Part {
                timestamp,
                identification,
                offset,
                more_fragments,
                payload,
            },
        ) => match add(
            pool,
            identification,
            offset,
            more_fragments,
            &payload,
            timestamp,
        ) {
            Some(answer) => outcome_text(alloc, Ok(answer))?,
            None => String::from_str(alloc, "err line")?,
        },
        Some(Request::Expire { timestamp, idle }) => {
            let count = pool.expire(timestamp, idle);
            format!(in alloc; "{count}")?
        }
        Some(
            Request::Remove {
                entry,
                channel,
                frame,
            },
        ) => {
            let removed = remove(pool, entry, &frame, channel);
            String::from_str(alloc, if removed { "removed" } else { "absent" })?
        }
        Some(Request::Clear) => {
            pool.clear();
            String::from_str(alloc, "ok")?
        }
        Some(Request::Evicted) => evicted_text(alloc, pool)?,
        Some(Request::State) => state_text(alloc, pool)?,
    };
    Ok(text)
}
