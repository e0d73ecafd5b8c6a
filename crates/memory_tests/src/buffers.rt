//! Tests of a reassembly buffer whose allocations fail: an accepted fragment allocates at most twice, and a rejected
//! fragment never.

use crate::checks::*;
use crate::samples::*;
use etherparse::defrag::*;
use etherparse::*;
use std::alloc::Global;
use std::process::Abort;

/// A fragment in a test: its offset in units of 8 bytes, its more-fragments flag and its bytes.
type Step = (u16, bool, &'static [u8]);

fn new_buffer(alloc: Global) -> IpDefragBuf {
    IpDefragBuf::new(IpNumber::UDP, Vec::new(alloc), Vec::new(alloc))
}

/// Adds a fragment to a reassembly buffer and asserts that it is accepted. If an allocation fails, it prints `name` and
/// asserts that a second try is accepted.
fn adds(
    rt: &(impl Abort + Print),
    buffer: &mut IpDefragBuf,
    name: &str,
    (units, more_fragments, payload): Step,
) {
    let len = usize::from(units)
        .saturating_mul(8)
        .saturating_add(payload.len());
    let mut answer = buffer.add(offset(rt, units), more_fragments, payload);
    if answer == Err(IpDefragError::AllocationFailure { len }) {
        refused(rt, name);
        answer = buffer.add(offset(rt, units), more_fragments, payload);
    }
    same(rt, &answer, &Ok(()));
}

/// Asserts that the given fragments, added in order to a new reassembly buffer, are all accepted and complete the
/// payload `bytes`.
fn makes(rt: &(impl Abort + Print), alloc: Global, name: &str, steps: &[Step], bytes: &[u8]) {
    let mut buffer = new_buffer(alloc);
    for step in steps {
        adds(rt, &mut buffer, name, *step);
    }
    same(rt, &buffer.is_complete(), &true);
    same(rt, &buffer.data().as_slice(), &bytes);
}

const IN_ORDER: [Step; 3] = [
    (0, true, b"abcdefgh"),
    (1, true, b"ijklmnop"),
    (2, false, b"qrst"),
];

const REVERSED: [Step; 3] = [
    (2, false, b"qrst"),
    (1, true, b"ijklmnop"),
    (0, true, b"abcdefgh"),
];

const MIDDLE_LAST: [Step; 3] = [
    (0, true, b"abcdefgh"),
    (2, false, b"qrst"),
    (1, true, b"ijklmnop"),
];

const OVERLAPPING: [Step; 3] = [
    (0, true, b"abcdefghijklmnop"),
    (1, false, b"IJKLMNOPqrst"),
    (0, true, b"ABCDEFGHi_______"),
];

/// Fragments of a payload of 20 bytes: the first two are sent twice each, then one fragment overwrites both, and a
/// final one follows.
const REPEATED: [Step; 6] = [
    (0, true, b"abcdefgh"),
    (0, true, b"abcdefgh"),
    (1, true, b"ijklmnop"),
    (1, true, b"ijklmnop"),
    (0, true, b"ABCDEFGHIJKLMNOP"),
    (2, false, b"qrst"),
];

/// Fragments of a payload of 48 bytes. The third one is final (without the more-fragments flag) and overwrites the
/// second one; the fourth one fills the gap between the first two.
const LAST_FILLS: [Step; 4] = [
    (0, true, b"abcdefghijklmnop"),
    (4, true, b"ABCDEFGHIJKLMNOP"),
    (4, false, b"0123456789ABCDEF"),
    (2, true, b"qrstuvwxyzqrstuv"),
];

/// Fragments of a payload of 2,000 bytes: one with all bytes, and an empty final fragment.
const LARGE_AND_EMPTY: [Step; 2] = [(0, true, &[7; 2000]), (250, false, b"")];

/// Tests payloads whose fragments are added in several orders, and overlap.
#[test]
fn payloads(rt: HostRuntime) {
    let rows: [(&str, &[Step], &[u8]); 7] = [
        ("add, in order", &IN_ORDER, b"abcdefghijklmnopqrst"),
        ("add, reversed", &REVERSED, b"abcdefghijklmnopqrst"),
        ("add, apart", &MIDDLE_LAST, b"abcdefghijklmnopqrst"),
        ("add, overlapping", &OVERLAPPING, b"ABCDEFGHi_______qrst"),
        ("add, repeated", &REPEATED, b"ABCDEFGHIJKLMNOPqrst"),
        (
            "add, the gap last",
            &LAST_FILLS,
            b"abcdefghijklmnopqrstuvwxyzqrstuv0123456789ABCDEF",
        ),
        ("add, large and empty", &LARGE_AND_EMPTY, &[7; 2000]),
    ];
    for (name, steps, bytes) in rows {
        makes(&rt, rt.alloc(), name, steps, bytes);
    }
}

/// Returns a clone of a reassembly buffer. If an allocation fails, it prints so and clones a second time.
fn copy(rt: &(impl Abort + Print), buffer: &IpDefragBuf) -> IpDefragBuf {
    match buffer.clone() {
        Ok(copy) => copy,
        Err(_) => {
            refused(rt, "clone of IpDefragBuf");
            buffer.clone().expect(rt, "refused twice")
        }
    }
}

#[test]
fn clones(rt: HostRuntime) {
    let mut buffer = new_buffer(rt.alloc());
    same(&rt, &copy(&rt, &buffer), &buffer);
    adds(&rt, &mut buffer, "setup", (1, true, b""));
    same(&rt, &copy(&rt, &buffer), &buffer);
    adds(&rt, &mut buffer, "setup", (0, true, b"abcdefgh"));
    same(&rt, &copy(&rt, &buffer), &buffer);
}

/// Asserts that a reassembly buffer rejects a fragment with the given error.
fn refuses(
    rt: &impl Abort,
    buffer: &mut IpDefragBuf,
    (units, more_fragments, payload): Step,
    error: IpDefragError,
) {
    same(
        rt,
        &buffer.add(offset(rt, units), more_fragments, payload),
        &Err(error),
    );
}

/// Tests that a reassembly buffer does not allocate for a rejected fragment, for a fragment that only overwrites bytes
/// it holds, or for an accessor.
#[test]
fn without_memory(rt: HostRuntime) {
    let mut buffer = new_buffer(rt.alloc());
    let unaligned = |offset| IpDefragError::UnalignedFragmentPayloadLen {
        offset,
        payload_len: 7,
    };
    refuses(
        &rt,
        &mut buffer,
        (1, true, b"1234567"),
        unaligned(offset(&rt, 1)),
    );
    adds(&rt, &mut buffer, "setup", (0, true, b"abcdefgh"));
    same(&rt, &buffer.add(offset(&rt, 0), true, b"ABCDEFGH"), &Ok(()));
    refuses(
        &rt,
        &mut buffer,
        (1, true, b"1234567"),
        unaligned(offset(&rt, 1)),
    );
    same(&rt, &buffer.is_complete(), &false);
    let (bytes, sections) = buffer.take_bufs();
    let buffer = IpDefragBuf::new(IpNumber::UDP, bytes, sections);
    same(&rt, &buffer.is_complete(), &false);
    asks_once(&rt, rt.alloc());
}
