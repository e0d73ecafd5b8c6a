//! Test of a reassembly pool that limits the bytes of each stream (fragments of one datagram). `frame_bench/cases` has
//! more cases.

use super::*;

/// An IPv4 fragment with the bytes 0 to 15 of a payload, and with the more-fragments flag. `AFTER_LIMIT` is a final
/// fragment with the bytes 16 to 23. `LAST` is a final fragment with the bytes 8 to 15, so that it conflicts with
/// `AFTER_LIMIT`: the two end the payload at different positions.
const FIRST: &[u8] =
    b"\x45\x00\x00\x24\x00\x07\x20\x00\x40\xfd\xd6\x82\xc0\xa8\x01\x01\xc0\xa8\x01\x02\
      \x00\x01\x02\x03\x04\x05\x06\x07\x08\x09\x0a\x0b\x0c\x0d\x0e\x0f";

const AFTER_LIMIT: &[u8] =
    b"\x45\x00\x00\x1c\x00\x07\x00\x02\x40\xfd\xf6\x88\xc0\xa8\x01\x01\xc0\xa8\x01\x02\
      \x10\x11\x12\x13\x14\x15\x16\x17";

const LAST: &[u8] =
    b"\x45\x00\x00\x1c\x00\x07\x00\x01\x40\xfd\x00\x00\xc0\xa8\x01\x01\xc0\xa8\x01\x02\
      \x08\x09\x0a\x0b\x0c\x0d\x0e\x0f";

/// Payload of 16 bytes that is reassembled from two IPv4 fragments.
const WHOLE: &[u8] = b"\x00\x01\x02\x03\x04\x05\x06\x07\x08\x09\x0a\x0b\x0c\x0d\x0e\x0f";

/// Expected answer of a reassembly pool to a fragment: no payload yet, the complete payload, or the error that the
/// fragment ends above the limit. The error has the fragment's offset in units of 8 bytes, its length in bytes, and the
/// limit in bytes.
#[derive(Clone, Copy)]
enum ExpectedAnswer {
    Nothing,
    Whole,
    TooBig(u16, usize, u16),
}

/// Returns whether the answer of a reassembly pool to a fragment is the expected one.
fn is_answer(
    rt: &impl Abort,
    answer: &Result<Option<IpDefragPayloadVec>, IpDefragError>,
    expected: ExpectedAnswer,
) -> bool {
    match (answer, expected) {
        (Ok(None), ExpectedAnswer::Nothing) => true,
        (Ok(Some(payload)), ExpectedAnswer::Whole) => {
            payload.ip_number == IpNumber(253) && payload.payload.as_slice() == WHOLE
        }
        (Err(error), ExpectedAnswer::TooBig(units, payload_len, max)) => {
            *error
                == IpDefragError::SegmentTooBig {
                    offset: offset(rt, units),
                    payload_len,
                    max,
                }
        }
        _ => false,
    }
}

/// In a pool that limits each payload to 16 bytes, a payload of 16 bytes is reassembled, and a fragment that starts at
/// byte 16 is rejected.
#[test]
fn as_a_run(rt: HostRuntime) {
    let mut calls = Vec::new(rt.alloc());
    for packet in [FIRST, AFTER_LIMIT, LAST] {
        let call = PoolCall::Frame {
            packet: SlicedPacket::from_ip(packet).expect(&rt, "refused"),
            timestamp: 1u64,
            channel_id: 0u8,
        };
        calls.push(call).expect(&rt, "no memory");
    }
    let keep = |limit: &u64, timestamp: &u64| *timestamp >= *limit;
    let (answered, mut pool) = run_calls_with_limit(rt.alloc(), 16, calls, keep).expect(
        &rt,
        "no memory",
    );
    let wanted = [
        ExpectedAnswer::Nothing,
        ExpectedAnswer::TooBig(2, 8, 16),
        ExpectedAnswer::Whole,
    ];
    same(&rt, &answered.len(), &wanted.len());
    for (answer, expected) in answered.iter().zip(wanted) {
        let is_wanted = match answer {
            PoolAnswer::Frame(answer) => is_answer(&rt, answer, expected),
            PoolAnswer::Dropped | PoolAnswer::Returned => false,
        };
        same(&rt, &is_wanted, &true);
    }
    let packet = SlicedPacket::from_ip(AFTER_LIMIT).expect(&rt, "refused");
    let answer = pool.process_sliced_packet(&packet, 2, 0);
    same(
        &rt,
        &is_answer(&rt, &answer, ExpectedAnswer::TooBig(2, 8, 16)),
        &true,
    );
}
