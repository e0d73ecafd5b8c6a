//! Tests of functions that take a whole list of calls or fragments. If an allocation fails, the run stops at the very
//! call that failed, and a repeated run returns its ordinary results.

use crate::checks::*;
use crate::samples::*;
use etherparse::defrag::*;
use etherparse::*;
use std::alloc::{AllocError, Global};
use std::process::Abort;

/// Prints the name of a function that ran a list, and the index of the call or fragment at which an allocation failed.
fn stopped(rt: &(impl Abort + Print), name: &str, stop: &RunStop) {
    let at = stop.at;
    println!(rt; "refused: {name}, at {at}").expect(rt, "no output");
}

/// Three frames: both fragments of a payload with VLAN identifier 1, and between them a fragment of another datagram
/// with VLAN identifier 2.
const FRAMES: [&[u8]; 3] = [VLAN_1_FIRST, VLAN_2_FIRST, VLAN_1_LAST];

/// Four frames: both fragments of a payload of 16 bytes with VLAN identifier 1, and between them a fragment that ends
/// at byte 24 and a fragment of another datagram.
const FRAMES_ABOVE_LIMIT: [&[u8]; 4] = [VLAN_1_FIRST, VLAN_1_ENDS_AT_24, VLAN_2_FIRST, VLAN_1_LAST];

type Calls = Vec<PoolCall<'static, u64, u8, u64>>;

fn call_list(
    rt: &impl Abort,
    alloc: Global,
    frames: &[&'static [u8]],
) -> Result<Calls, AllocError> {
    let mut calls = Vec::with_capacity(alloc, frames.len())?;
    for frame in frames {
        let call = PoolCall::Frame {
            packet: SlicedPacket::from_ethernet(*frame).expect(rt, "no frame"),
            timestamp: 1,
            channel_id: 0,
        };
        calls.push(call)?;
    }
    Ok(calls)
}

/// Returns a list of pool calls, one for each of the given frames. If an allocation fails, it prints so and builds the
/// list a second time.
fn calls(rt: &(impl Abort + Print), alloc: Global, frames: &[&'static [u8]]) -> Calls {
    match call_list(rt, alloc, frames) {
        Ok(calls) => calls,
        Err(_) => {
            refused(rt, "setup");
            call_list(rt, alloc, frames).expect(rt, "refused twice")
        }
    }
}

/// Four frames as bytes: a byte that is no frame, both fragments of a payload with VLAN identifier 1, and between them
/// a fragment of another datagram.
const BYTES: [&[u8]; 4] = [b"\x50", VLAN_1_FIRST, VLAN_2_FIRST, VLAN_1_LAST];

type Frames = Vec<FrameCall<'static, u64, u8, u64>>;

fn frame_list(alloc: Global) -> Result<Frames, AllocError> {
    let mut calls = Vec::with_capacity(alloc, 4)?;
    for bytes in BYTES {
        let call = FrameCall::Frame {
            entry: Entry::Ethernet,
            bytes,
            timestamp: 1,
            channel_id: 0,
        };
        calls.push(call)?;
    }
    Ok(calls)
}

/// Builds a list of frames for `run_frames`, which passes each to a reassembly pool: one invalid frame and three
/// fragments. If an allocation fails, it prints so and builds the list a second time.
fn frames(rt: &(impl Abort + Print), alloc: Global) -> Frames {
    match frame_list(alloc) {
        Ok(calls) => calls,
        Err(_) => {
            refused(rt, "setup");
            frame_list(alloc).expect(rt, "refused twice")
        }
    }
}

/// Returns whether the pool's result for a frame is the given payload, or no payload if `payload` is empty.
fn is_payload(answer: &PoolAnswer, payload: &[u8]) -> bool {
    match answer {
        PoolAnswer::Frame(Ok(None)) => payload.is_empty(),
        PoolAnswer::Frame(Ok(Some(reassembled))) => reassembled.payload.as_slice() == payload,
        _ => false,
    }
}

/// Runs `run_calls` on a list of three sliced frames, and returns the results of the calls, or where the run stopped.
fn answers_of_calls(rt: &(impl Abort + Print), alloc: Global) -> Result<Vec<PoolAnswer>, RunStop> {
    let calls = calls(rt, alloc, &FRAMES);
    let keep = |limit: &u64, timestamp: &u64| *timestamp >= *limit;
    match run_calls(alloc, calls, keep) {
        Ok((answers, _pool)) => Ok(answers),
        Err(stop) => Err(stop),
    }
}

/// Asserts that a run returned `count` results, and that the last result is the reassembled payload of VLAN identifier
/// 1.
fn answers_end_with_payload(rt: &impl Abort, answers: &[PoolAnswer], count: usize) {
    same(rt, &answers.len(), &count);
    same(
        rt,
        &is_payload(answers.last().expect(rt, "some"), VLAN_1_PAYLOAD),
        &true,
    );
}

#[test]
fn of_calls(rt: HostRuntime) {
    match answers_of_calls(&rt, rt.alloc()) {
        Ok(answers) => answers_end_with_payload(&rt, &answers, 3),
        Err(stop) => {
            stopped(&rt, "run_calls", &stop);
            let answers = answers_of_calls(&rt, rt.alloc()).expect(&rt, "refused twice");
            answers_end_with_payload(&rt, &answers, 3);
        }
    }
}

/// Runs `run_calls_with_limit` with the limit 16 on a list of four sliced frames, and returns the results of the calls,
/// or where the run stopped. One fragment ends above the limit.
fn answers_within(rt: &(impl Abort + Print), alloc: Global) -> Result<Vec<PoolAnswer>, RunStop> {
    let calls = calls(rt, alloc, &FRAMES_ABOVE_LIMIT);
    let keep = |limit: &u64, timestamp: &u64| *timestamp >= *limit;
    match run_calls_with_limit(alloc, 16, calls, keep) {
        Ok((answers, _pool)) => Ok(answers),
        Err(stop) => Err(stop),
    }
}

/// Tests that four calls in one list return their results on a pool for payloads of up to 16 bytes, or stop at a failed
/// allocation. One fragment ends after byte 16: it is rejected without an allocation, and its error is one of the four
/// results.
#[test]
fn of_calls_with_limit(rt: HostRuntime) {
    match answers_within(&rt, rt.alloc()) {
        Ok(answers) => answers_end_with_payload(&rt, &answers, 4),
        Err(stop) => {
            stopped(&rt, "run_calls_with_limit", &stop);
            let answers = answers_within(&rt, rt.alloc()).expect(&rt, "refused twice");
            answers_end_with_payload(&rt, &answers, 4);
        }
    }
}

/// Runs `run_frames` on a list of four frames given as bytes, and returns the results of the calls, or where the run
/// stopped.
fn answers_of_frames(
    rt: &(impl Abort + Print),
    alloc: Global,
) -> Result<Vec<FrameAnswer>, RunStop> {
    let calls = frames(rt, alloc);
    let keep = |limit: &u64, timestamp: &u64| *timestamp >= *limit;
    match run_frames(alloc, calls, keep) {
        Ok((answers, _pool)) => Ok(answers),
        Err(stop) => Err(stop),
    }
}

/// Returns whether the result of a frame is the reassembled payload of VLAN identifier 1.
fn is_vlan_1_payload(answer: &FrameAnswer) -> bool {
    match answer {
        FrameAnswer::Pool(answer) => is_payload(answer, VLAN_1_PAYLOAD),
        FrameAnswer::NotSliced(_) => false,
    }
}

/// Asserts that a run returned four results, and that the last result is the reassembled payload of VLAN identifier 1.
fn frames_end_with_payload(rt: &impl Abort, answers: &[FrameAnswer]) {
    same(rt, &answers.len(), &4);
    same(
        rt,
        &is_vlan_1_payload(answers.last().expect(rt, "four")),
        &true,
    );
}

#[test]
fn of_frames(rt: HostRuntime) {
    match answers_of_frames(&rt, rt.alloc()) {
        Ok(answers) => frames_end_with_payload(&rt, &answers),
        Err(stop) => {
            stopped(&rt, "run_frames", &stop);
            frames_end_with_payload(
                &rt,
                &answers_of_frames(&rt, rt.alloc()).expect(&rt, "refused twice"),
            );
        }
    }
}

/// Returns a fragment with the given offset in units of 8 bytes, more-fragments flag and bytes.
pub fn fragment(
    rt: &impl Abort,
    units: u16,
    more_fragments: bool,
    payload: &'static [u8],
) -> Fragment<'static> {
    Fragment {
        offset: offset(rt, units),
        more_fragments,
        payload,
    }
}

/// Runs `add_all` on five fragments of a payload of 20 bytes, and returns the reassembly buffer, or where the run
/// stopped. Some fragments overwrite earlier ones, and the buffer has no capacity at first.
fn buffer_of_fragments(rt: &impl Abort, alloc: Global) -> Result<IpDefragBuf, RunStop> {
    let fragments = [
        fragment(rt, 0, true, b"________"),
        fragment(rt, 0, true, b"abcdefgh"),
        fragment(rt, 1, true, b"________"),
        fragment(rt, 0, true, b"abcdefghijklmnop"),
        fragment(rt, 2, false, b"qrst"),
    ];
    match add_all(
        alloc,
        IpNumber::UDP,
        Vec::new(alloc),
        Vec::new(alloc),
        &fragments,
    ) {
        Ok((buffer, _answers)) => Ok(buffer),
        Err(stop) => Err(stop),
    }
}

/// Asserts that a reassembly buffer holds the complete payload of 20 bytes.
fn holds_payload(rt: &impl Abort, buffer: &IpDefragBuf) {
    same(rt, &buffer.is_complete(), &true);
    same(
        rt,
        &buffer.data().as_slice(),
        &b"abcdefghijklmnopqrst".as_slice(),
    );
}

#[test]
fn of_fragments(rt: HostRuntime) {
    match buffer_of_fragments(&rt, rt.alloc()) {
        Ok(buffer) => holds_payload(&rt, &buffer),
        Err(stop) => {
            stopped(&rt, "add_all", &stop);
            holds_payload(
                &rt,
                &buffer_of_fragments(&rt, rt.alloc()).expect(&rt, "refused twice"),
            );
        }
    }
}
