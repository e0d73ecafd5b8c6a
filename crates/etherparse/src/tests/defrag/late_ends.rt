//! Tests of final fragments that end before bytes that were already received: external test vectors.

use super::Bytes::{Rising, Zeros};
use super::buffers::{Step, adds, section, shows_parts};
use super::*;

/// Adds fragments to a reassembly buffer and asserts that only the fragment with index `refused` (from 0) is rejected:
/// a final fragment that ends at byte `end`, although earlier fragments reach to byte `reach`. Asserts that the other
/// fragments complete a payload of `len` bytes.
fn refuses_end(
    rt: &impl Abort,
    alloc: Global,
    steps: &[Step],
    (refused, reach, end): (usize, u16, u16),
    len: u16,
) {
    let (buffer, answers) = adds(rt, alloc, steps);
    for (number, answer) in answers.iter().enumerate() {
        let expected = if number == refused {
            Err(IpDefragError::ConflictingEnd {
                previous_end: reach,
                conflicting_end: end,
            })
        } else {
            Ok(())
        };
        same(rt, answer, &expected);
    }
    let shown = [Rising(0, usize::from(len))];
    shows_parts(rt, alloc, buffer, &shown, &[section(0, len)], Some(len));
}

#[test]
fn end_within_received_bytes(rt: HostRuntime) {
    let steps = [
        (0, true, Rising(0, 64), false),
        (4, false, Rising(32, 16), false),
        (8, false, Zeros(0), true),
    ];
    refuses_end(&rt, rt.alloc(), &steps, (1, 64, 48), 64);
}

/// A rejected final fragment stores neither its end nor its bytes in the reassembly buffer.
#[test]
fn without_an_end_afterwards(rt: HostRuntime) {
    let steps = [
        (0, true, Rising(0, 64), false),
        (4, false, Rising(32, 16), false),
    ];
    let (buffer, _answers) = adds(&rt, rt.alloc(), &steps);
    let (shown, sections) = ([Rising(0, 64)], [section(0, 64)]);
    shows_parts(&rt, rt.alloc(), buffer, &shown, &sections, None);
}

#[test]
fn end_before_received_bytes(rt: HostRuntime) {
    let steps = [
        (8, true, Rising(64, 64), false),
        (0, false, Rising(0, 32), false),
        (0, true, Rising(0, 64), false),
        (16, false, Zeros(0), true),
    ];
    refuses_end(&rt, rt.alloc(), &steps, (1, 128, 32), 128);
}

#[test]
fn before_an_empty_fragment(rt: HostRuntime) {
    let steps = [
        (2, true, Zeros(0), false),
        (0, false, Rising(0, 8), false),
        (0, false, Rising(0, 16), true),
    ];
    refuses_end(&rt, rt.alloc(), &steps, (1, 16, 8), 16);
}
