//! Tests of the reassembly of one payload: external test vectors, and the longest payload in many fragments.

use super::Bytes::{Rising, Zeros};
use super::*;

/// A fragment that a test adds to a reassembly buffer: its offset in units of 8 bytes, whether more fragments follow,
/// its bytes, and whether the buffer is complete after it.
pub(super) type Step = (u16, bool, Bytes, bool);

pub(super) type Answers = Vec<Result<(), IpDefragError>>;

fn new_buffer(alloc: Global) -> IpDefragBuf {
    IpDefragBuf::new(IpNumber::UDP, Vec::new(alloc), Vec::new(alloc))
}

/// Adds fragments to one reassembly buffer by `add`, and to another one by `add_all`. Asserts that both buffers are
/// equal, and so are both results for each fragment. Returns a buffer and the result for each fragment.
pub(super) fn adds(rt: &impl Abort, alloc: Global, steps: &[Step]) -> (IpDefragBuf, Answers) {
    let mut payloads = Vec::new(alloc);
    for (_, _, bytes, _) in steps {
        let payload = bytes_of(alloc, &[*bytes]).expect(rt, "no memory");
        payloads.push(payload).expect(rt, "no memory");
    }
    let mut buffer = new_buffer(alloc);
    let mut answers = Vec::new(alloc);
    let mut fragments = Vec::new(alloc);
    for ((units, more_fragments, _, complete), payload) in steps.iter().zip(&payloads) {
        let fragment = Fragment {
            offset: offset(rt, *units),
            more_fragments: *more_fragments,
            payload: payload.as_slice(),
        };
        let answer = buffer.add(fragment.offset, *more_fragments, payload);
        same(rt, &buffer.is_complete(), complete);
        answers.push(answer).expect(rt, "no memory");
        fragments.push(fragment).expect(rt, "no memory");
    }
    let (bytes, sections) = (Vec::new(alloc), Vec::new(alloc));
    let at_once = add_all(alloc, IpNumber::UDP, bytes, sections, &fragments);
    same(rt, &at_once, &Ok((buffer, answers)));
    at_once.expect(rt, "no memory")
}

pub(super) fn section(start: u16, end: u16) -> IpFragRange {
    IpFragRange { start, end }
}

/// Asserts the content of a reassembly buffer: its bytes, the ranges received so far in order, and the end of the
/// payload, if known.
pub(super) fn shows_parts(
    rt: &impl Abort,
    alloc: Global,
    buffer: IpDefragBuf,
    shown: &[Bytes],
    sections: &[IpFragRange],
    end: Option<u16>,
) {
    let bytes = bytes_of(alloc, shown).expect(rt, "no memory");
    same(rt, &buffer.end(), &end);
    same(rt, buffer.data(), &bytes);
    same(rt, &buffer.sections().as_slice(), &sections);
}

/// Asserts that a reassembly buffer accepts all these fragments, and then has the bytes `shown`, the received ranges
/// `sections` and the payload end `end`.
fn accepts(
    rt: &impl Abort,
    alloc: Global,
    steps: &[Step],
    shown: &[Bytes],
    sections: &[IpFragRange],
    end: Option<u16>,
) {
    let (buffer, answers) = adds(rt, alloc, steps);
    same(rt, &answers.iter().all(|answer| answer.is_ok()), &true);
    shows_parts(rt, alloc, buffer, shown, sections, end);
}

#[test]
fn one_after_the_other(rt: HostRuntime) {
    accepts(
        &rt,
        rt.alloc(),
        &[
            (0, true, Rising(0, 16), false),
            (2, true, Rising(16, 32), false),
            (6, false, Rising(48, 16), true),
        ],
        &[Rising(0, 64)],
        &[section(0, 64)],
        Some(64),
    );
}

#[test]
fn last_one_first(rt: HostRuntime) {
    accepts(
        &rt,
        rt.alloc(),
        &[
            (6, false, Rising(48, 16), false),
            (2, true, Rising(16, 32), false),
            (0, true, Rising(0, 16), true),
        ],
        &[Rising(0, 64)],
        &[section(0, 64)],
        Some(64),
    );
}

#[test]
fn last_one_twice(rt: HostRuntime) {
    accepts(
        &rt,
        rt.alloc(),
        &[
            (0, true, Rising(0, 16), false),
            (4, true, Rising(0, 16), false),
            (4, false, Rising(32, 16), false),
            (2, true, Rising(16, 16), true),
        ],
        &[Rising(0, 48)],
        &[section(0, 48)],
        Some(48),
    );
}

#[test]
fn without_bytes(rt: HostRuntime) {
    accepts(&rt, rt.alloc(), &[], &[], &[], None);
    accepts(
        &rt,
        rt.alloc(),
        &[(0, false, Zeros(0), true)],
        &[],
        &[section(0, 0)],
        Some(0),
    );
}

#[test]
fn without_an_end(rt: HostRuntime) {
    accepts(
        &rt,
        rt.alloc(),
        &[(1, true, Rising(8, 8), false)],
        &[Zeros(8), Rising(8, 8)],
        &[section(8, 16)],
        None,
    );
    accepts(
        &rt,
        rt.alloc(),
        &[
            (0, true, Rising(0, 8), false),
            (2, true, Rising(16, 8), false),
            (1, true, Rising(8, 8), false),
        ],
        &[Rising(0, 24)],
        &[section(0, 24)],
        None,
    );
}

#[test]
fn other_bytes_in_an_overlap(rt: HostRuntime) {
    accepts(
        &rt,
        rt.alloc(),
        &[
            (0, true, Rising(0, 16), false),
            (1, true, Rising(100, 16), false),
            (3, false, Rising(24, 8), true),
        ],
        &[Rising(0, 8), Rising(100, 16), Rising(24, 8)],
        &[section(0, 32)],
        Some(32),
    );
}

#[test]
fn unaligned_and_after_the_end(rt: HostRuntime) {
    let steps = [
        (0, true, Rising(0, 16), false),
        (2, true, Rising(16, 7), false),
        (2, false, Rising(16, 7), true),
        (3, true, Rising(24, 8), true),
    ];
    let (buffer, answers) = adds(&rt, rt.alloc(), &steps);
    let unaligned = IpDefragError::UnalignedFragmentPayloadLen {
        offset: offset(&rt, 2),
        payload_len: 7,
    };
    let conflict = IpDefragError::ConflictingEnd {
        previous_end: 23,
        conflicting_end: 32,
    };
    let expected = [Ok(()), Err(unaligned), Ok(()), Err(conflict)];
    same(&rt, &answers.as_slice(), &expected.as_slice());
    let shown = [Rising(0, 23)];
    shows_parts(&rt, rt.alloc(), buffer, &shown, &[section(0, 23)], Some(23));
}

#[test]
fn above_the_limit(rt: HostRuntime) {
    let steps = [
        (0, true, Zeros(65536), false),
        (6, true, Zeros(65488), false),
        (2, false, Zeros(65519), false),
    ];
    let (buffer, answers) = adds(&rt, rt.alloc(), &steps);
    let too_big = |units, payload_len| IpDefragError::SegmentTooBig {
        offset: offset(&rt, units),
        payload_len,
        max: 65535,
    };
    let expected = [Err(too_big(0, 65536)), Err(too_big(6, 65488)), Ok(())];
    same(&rt, &answers.as_slice(), &expected.as_slice());
    let (shown, sections) = ([Zeros(65535)], [section(16, 65535)]);
    shows_parts(&rt, rt.alloc(), buffer, &shown, &sections, Some(65535));
}

/// A reassembly buffer that reuses the memory of another one has none of its bytes.
#[test]
fn used_again(rt: HostRuntime) {
    let mut used = new_buffer(rt.alloc());
    let data = bytes_of(rt.alloc(), &[Rising(100, 64)]).expect(&rt, "no memory");
    same(&rt, &used.add(IpFragOffset::ZERO, false, &data), &Ok(()));
    let (bytes, sections) = used.take_bufs();
    let mut buffer = IpDefragBuf::new(IpNumber::TCP, bytes, sections);
    same(&rt, &buffer.add(offset(&rt, 1), true, PAYLOAD), &Ok(()));
    same(&rt, &buffer.ip_number(), &IpNumber::TCP);
    let (shown, sections) = ([Zeros(8), Rising(1, 8)], [section(8, 16)]);
    shows_parts(&rt, rt.alloc(), buffer, &shown, &sections, None);
}

/// Splits a payload into fragments of 64 bytes (the last one may be shorter), and returns every other fragment: from
/// the first one on (`parity` 0), or from the second one on (`parity` 1).
fn every_other<'a>(
    rt: &impl Abort,
    alloc: Global,
    payload: &'a [u8],
    parity: usize,
) -> Vec<Fragment<'a>> {
    let mut fragments = Vec::new(alloc);
    for (index, part) in payload.chunks(64).enumerate() {
        if index % 2 == parity {
            let units = u16::try_from(index).unwrap_or(0).saturating_mul(8);
            let fragment = Fragment {
                offset: offset(rt, units),
                more_fragments: part.len() == 64,
                payload: part,
            };
            fragments.push(fragment).expect(rt, "no memory");
        }
    }
    fragments
}

/// Reassembles the longest payload (65,535 bytes) from 1,024 fragments. Every other fragment is added first, so that
/// the buffer has 512 separate ranges, and then the rest. A clone of the buffer is equal to it before and after the
/// rest is added.
#[test]
fn many_fragments(rt: HostRuntime) {
    let alloc = rt.alloc();
    let payload = bytes_of(alloc, &[Rising(0, 65535)]).expect(&rt, "no memory");
    let (bytes, sections) = (Vec::new(alloc), Vec::new(alloc));
    let first = every_other(&rt, alloc, &payload, 1);
    let at_once = add_all(alloc, IpNumber::UDP, bytes, sections, &first);
    let (mut buffer, _answers) = at_once.expect(&rt, "no memory");
    same(&rt, &buffer.sections().len(), &512);
    same(&rt, &buffer.clone().expect(&rt, "no memory"), &buffer);
    for fragment in every_other(&rt, alloc, &payload, 0) {
        let added = buffer.add(fragment.offset, fragment.more_fragments, fragment.payload);
        same(&rt, &added, &Ok(()));
    }
    same(
        &rt,
        &(buffer.is_complete(), buffer.data()),
        &(true, &payload),
    );
    same(&rt, &buffer.clone().expect(&rt, "no memory"), &buffer);
}
