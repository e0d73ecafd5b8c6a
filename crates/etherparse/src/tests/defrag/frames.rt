//! Tests of a reassembly pool that gets frames as bytes: external test vectors, and five fragments of one payload in
//! every order.

ghost use Rattle.std.specs.Prelude.{◌≡◌, ◌<◌, ℕ, nat_le, List, map, take, slice_get, Some, IfOk, IfErr};
ghost use Rattle.std.specs.List.{All, HoldsAt};
ghost use Rattle.etherparse.specs.Types.FrameAnswer.{FrameAnswer};
ghost use Rattle.etherparse.specs.Calls.{Call, table_after, accepted_at};
ghost use Rattle.etherparse.specs.FrameCalls.{ReadCall, calls_pool, AreReadAs, pool_calls, frame_answers_to, read_answer, IfFramePayloadReturned, FrameCallMayNeedMemory};
ghost use Rattle.etherparse.specs.PayloadCuts.{IsCut};
ghost use Rattle.etherparse.specs.Pools.{HoldsTable};

use super::Bytes::Rising;
use super::*;
use crate::err::ip;
use crate::err::packet::SliceError;

/// A byte that is rejected as an IP packet, because its version is 5.
const REFUSED: &[u8] = b"\x50";

/// Performs a list of calls on a new reassembly pool by `run_frames`. A call `Drop(limit)` drops the incomplete
/// datagrams with a timestamp below `limit`.
fn run_with_limits(
    alloc: Global,
    calls: Vec<FrameCall<u64, u8, u64>>,
) -> Result<(Vec<FrameAnswer>, IpDefragPool<u64, u8>), RunStop>
    ensures answers { IfOk result (λ run. (reads : List (ReadCall _ _ _)) → AreReadAs calls.entry.items reads →
        map read_answer run.0.items ≡ frame_answers_to 65535 ⟦<u8 as PartialEq>⟧.eq nat_le reads) }
    ensures holds { IfOk result (λ run. (reads : List (ReadCall _ _ _)) → AreReadAs calls.entry.items reads →
        HoldsTable ⟦<u8 as PartialEq>⟧.eq run.1
        (table_after 65535 ⟦<u8 as PartialEq>⟧.eq nat_le (pool_calls reads))) }
    ensures cuts { IfOk result (λ run. (reads : List (ReadCall _ _ _)) → AreReadAs calls.entry.items reads →
        (at : ℕ) (brought : Call _ _ _) (answer : FrameAnswer) →
        slice_get reads at ≡ Some (calls_pool brought) → slice_get run.0.items at ≡ Some answer →
        (payload : List ℕ) → All (IsCut payload) (accepted_at
        (table_after 65535 ⟦<u8 as PartialEq>⟧.eq nat_le (pool_calls (take at reads))) brought) →
        IfFramePayloadReturned (read_answer answer) (λ returned. returned.bytes ≡ payload)) }
    ensures stopped { IfErr result (λ stop. 0 < stop.at →
        (reads : List (ReadCall _ _ _)) → AreReadAs (take stop.at calls.entry.items) reads →
        HoldsAt (FrameCallMayNeedMemory 65535 (table_after 65535 ⟦<u8 as PartialEq>⟧.eq nat_le (pool_calls reads)))
        calls.entry.items stop.at) }
{
    run_frames(
        alloc,
        calls,
        |limit: &u64, timestamp: &u64| -> bool
            ensures { result ≡ nat_le limit.now timestamp.now }
        { *timestamp >= *limit },
    )
}

/// Expected answer of a reassembly pool to a call: a parse error, no payload yet, a complete payload, incomplete
/// datagrams dropped, or a buffer given back.
#[derive(Clone, Copy)]
enum Wanted {
    Refusal,
    Nothing,
    Payload,
    Dropped,
    Returned,
}

/// Returns the `FrameAnswer` that `run_frames` has to return for a call with the expected answer `wanted`. A complete
/// payload has the bytes `payload`, this length source and IP protocol number 253 (for experiments).
fn answer_of(
    rt: &impl Abort,
    alloc: Global,
    wanted: Wanted,
    len_source: LenSource,
    payload: &[u8],
) -> FrameAnswer {
    let answer = match wanted {
        Wanted::Refusal => {
            let error = ip::HeaderError::UnsupportedIpVersion { version_number: 5 };
            return FrameAnswer::NotSliced(SliceError::Ip(error));
        }
        Wanted::Nothing => PoolAnswer::Frame(Ok(None)),
        Wanted::Payload => PoolAnswer::Frame(Ok(Some(IpDefragPayloadVec {
            ip_number: IpNumber(253),
            len_source,
            payload: payload.to_vec(alloc).expect(rt, "no memory"),
        }))),
        Wanted::Dropped => PoolAnswer::Dropped,
        Wanted::Returned => PoolAnswer::Returned,
    };
    FrameAnswer::Pool(answer)
}

/// Returns a call that passes a frame with its timestamp to a reassembly pool.
fn frame<'a>(entry: Entry, bytes: &'a [u8], timestamp: u64) -> FrameCall<'a, u64, u8, u64> {
    FrameCall::Frame {
        entry,
        bytes,
        timestamp,
        channel_id: 0,
    }
}

/// Performs a list of calls on a new reassembly pool and asserts that their answers are `wanted`, in order. Each
/// payload that the pool returns has to have the given bytes and length source.
fn answers(
    rt: &impl Abort,
    alloc: Global,
    calls: Vec<FrameCall<u64, u8, u64>>,
    wanted: &[Wanted],
    (len_source, payload): (LenSource, &[u8]),
) {
    let (answers, _pool) = run_with_limits(alloc, calls).expect(rt, "no memory");
    same(rt, &answers.len(), &wanted.len());
    for (answer, wanted) in answers.iter().zip(wanted) {
        let expected = answer_of(rt, alloc, *wanted, len_source, payload);
        same(rt, answer, &expected);
    }
}

/// Length source and bytes of the payload that is reassembled from the two IPv4 fragments `FIRST_IPV4` and `LAST_IPV4`.
const WHOLE: (LenSource, &[u8]) = (
    LenSource::Ipv4HeaderTotalLen,
    b"\x00\x01\x02\x03\x04\x05\x06\x07\x08\x09\x0a\x0b\x0c\x0d\x0e\x0f\x10\x11\x12\x13\x14\x15\x16\x17",
);

/// Asserts that two IPv4 fragments, each after the link header `link`, are parsed and reassembled, with invalid frames
/// before and between them.
fn reads_after_link_header(rt: &impl Abort, alloc: Global, entry: Entry, link: &[u8]) {
    let first = [link, FIRST_IPV4].concat(alloc).expect(rt, "no memory");
    let last = [link, LAST_IPV4].concat(alloc).expect(rt, "no memory");
    let calls = [
        frame(Entry::Ip, REFUSED, 1),
        frame(entry, &first, 1),
        frame(Entry::Ip, REFUSED, 1),
        frame(entry, &last, 1),
    ];
    let calls = Vec::from_array(alloc, calls).expect(rt, "no memory");
    let wanted = [
        Wanted::Refusal,
        Wanted::Nothing,
        Wanted::Refusal,
        Wanted::Payload,
    ];
    answers(rt, alloc, calls, &wanted, WHOLE);
}

#[test]
fn entries(rt: HostRuntime) {
    let ethernet = b"\x07\x08\x09\x0a\x0b\x0c\x01\x02\x03\x04\x05\x06\x08\x00";
    reads_after_link_header(&rt, rt.alloc(), Entry::Ethernet, ethernet);
    let cooked = b"\x00\x00\x00\x01\x00\x06\x01\x02\x03\x04\x05\x06\x00\x00\x08\x00";
    reads_after_link_header(&rt, rt.alloc(), Entry::LinuxSll, cooked);
    let ipv4 = Entry::EtherType(EtherType::IPV4);
    reads_after_link_header(&rt, rt.alloc(), ipv4, b"");
    reads_after_link_header(&rt, rt.alloc(), Entry::Ip, b"");
}

/// Returns a call that gives an empty buffer back to the reassembly pool.
fn empty_buffer<'a>(alloc: Global) -> FrameCall<'a, u64, u8, u64> {
    FrameCall::Return(IpDefragPayloadVec {
        ip_number: IpNumber::UDP,
        len_source: LenSource::Slice,
        payload: Vec::new(alloc),
    })
}

/// A drop removes the incomplete datagrams that are older than its limit from a reassembly pool, and keeps all others.
/// Buffers that are given back to the pool change no answer.
#[test]
fn drops_and_buffers(rt: HostRuntime) {
    let alloc = rt.alloc();
    let calls = [
        FrameCall::Drop(0),
        empty_buffer(alloc),
        frame(Entry::Ip, FIRST_IPV4, 1),
        FrameCall::Drop(2),
        empty_buffer(alloc),
        frame(Entry::Ip, FIRST_IPV4, 3),
        FrameCall::Drop(3),
        empty_buffer(alloc),
        frame(Entry::Ip, LAST_IPV4, 4),
        FrameCall::Drop(5),
        frame(Entry::Ip, LAST_IPV4, 6),
    ];
    let wanted = [
        Wanted::Dropped,
        Wanted::Returned,
        Wanted::Nothing,
        Wanted::Dropped,
        Wanted::Returned,
        Wanted::Nothing,
        Wanted::Dropped,
        Wanted::Returned,
        Wanted::Payload,
        Wanted::Dropped,
        Wanted::Nothing,
    ];
    let calls = Vec::from_array(alloc, calls).expect(&rt, "no memory");
    answers(&rt, alloc, calls, &wanted, WHOLE);
}

/// Builds an IP fragment with these headers and the payload bytes `part`, of IP protocol number 253 (for experiments).
fn built(rt: &impl Abort, alloc: Global, headers: IpHeaders, part: &[u8]) -> Vec<u8> {
    let mut frame = Vec::new(alloc);
    let written = PacketBuilder::ip(headers).write(&mut frame, IpNumber(253), part);
    same(rt, &written, &Ok(()));
    frame
}

/// Returns one of the 120 permutations of the indices 0 to 4. Each `number` from 0 to 119 gives a different one.
fn order(number: usize) -> [usize; 5] {
    let mut order = [0, 1, 2, 3, 4];
    let mut rest = number;
    for place in 1..5usize {
        order.swap(place, rest % (place + 1));
        rest /= place + 1;
    }
    order
}

/// Appends the five fragments of a payload to `frames`, in the order `order(number)`, each with the expected answer of
/// the pool. After each of the first four, all fragments so far are appended again if `repeats` is true, and then an
/// invalid frame.
fn push_order<'a>(
    rt: &impl Abort,
    frames: &mut Vec<(&'a [u8], Wanted)>,
    cuts: &'a [Vec<u8>],
    number: usize,
    repeats: bool,
) {
    let order = order(number);
    for (place, index) in order.iter().enumerate() {
        let cut = cuts.get(*index).expect(rt, "five cuts").as_slice();
        if place == 4 {
            frames.push((cut, Wanted::Payload)).expect(rt, "no memory");
            return;
        }
        frames.push((cut, Wanted::Nothing)).expect(rt, "no memory");
        let again = if repeats { place + 1 } else { 0 };
        for earlier in order.iter().take(again) {
            let cut = cuts.get(*earlier).expect(rt, "five cuts").as_slice();
            frames.push((cut, Wanted::Nothing)).expect(rt, "no memory");
        }
        frames
            .push((REFUSED, Wanted::Refusal))
            .expect(rt, "no memory");
    }
}

/// Asserts that a payload is reassembled from its five fragments in all 120 orders, with and without repeated
/// fragments, by one reassembly pool.
fn in_every_order(rt: &impl Abort, alloc: Global, cuts: &[Vec<u8>], payload: (LenSource, &[u8])) {
    let mut frames = Vec::new(alloc);
    for number in 0..120 {
        push_order(rt, &mut frames, cuts, number, false);
        push_order(rt, &mut frames, cuts, number, true);
    }
    let mut calls = Vec::new(alloc);
    let mut wanted = Vec::new(alloc);
    for (bytes, answer) in &frames {
        calls
            .push(frame(Entry::Ip, *bytes, 1))
            .expect(rt, "no memory");
        wanted.push(*answer).expect(rt, "no memory");
    }
    answers(rt, alloc, calls, &wanted, payload);
}

/// Start and end of each of five fragments of a payload of 4,000 bytes, in units of 8 bytes.
const CUTS: [(u16, u16); 5] = [(0, 1), (1, 128), (128, 256), (256, 499), (499, 500)];

/// Returns the bytes of a payload from `start` to `end`, both in units of 8 bytes.
fn part(payload: &[u8], start: u16, end: u16) -> &[u8] {
    let bytes = usize::from(start) * 8..usize::from(end) * 8;
    payload.get(bytes).unwrap_or(b"")
}

#[test]
fn five_cuts(rt: HostRuntime) {
    let alloc = rt.alloc();
    let payload = bytes_of(alloc, &[Rising(0, 4000)]).expect(&rt, "no memory");
    let mut cuts = Vec::new(alloc);
    for (start, end) in CUTS {
        let headers = ipv4_fragment(&rt, start, end < 500);
        let frame = built(&rt, alloc, headers, part(&payload, start, end));
        cuts.push(frame).expect(&rt, "no memory");
    }
    in_every_order(&rt, alloc, &cuts, (LenSource::Ipv4HeaderTotalLen, &payload));
}
