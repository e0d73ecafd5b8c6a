//! Measured verdicts about checksums, and the sums that they take.

use crate::filtering::SlicedFrame;
use etherparse::checksum::Sum16BitWords;
use etherparse::{ChecksumVerdict, LaxNetSlice};

/// Returns the number of valid checksums in sliced frames, of IPv4 headers and of transport layers.
pub fn valid_checksums(frames: &[SlicedFrame<'_>]) -> u64 {
    let mut count: u64 = 0;
    for frame in frames {
        let verdicts = frame.packet.checksums();
        let header = is_valid(verdicts.ipv4_header) as u64;
        let transport = is_valid(verdicts.transport) as u64;
        count = count.wrapping_add(header + transport);
    }
    count
}

/// Returns true if a checksum is valid.
#[inline]
fn is_valid(verdict: Option<ChecksumVerdict>) -> bool {
    matches!(verdict, Some(ChecksumVerdict::Valid))
}

/// Returns the sum of the checksums of the IPv4 header, and of the addresses and the transport layer, of each sliced
/// frame: the bytes that are summed for the verdicts.
pub fn summed(frames: &[SlicedFrame<'_>]) -> u64 {
    let mut total: u64 = 0;
    for frame in frames {
        let sum = Sum16BitWords::new();
        let sum = match &frame.packet.net {
            Some(LaxNetSlice::Ipv4(packet)) => {
                let header = packet.header().slice();
                total = total.wrapping_add(u64::from(sum.add_slice(header).ones_complement()));
                sum.add_slice(&header[12..20])
            }
            Some(LaxNetSlice::Ipv6(packet)) => sum.add_slice(&packet.header().slice()[8..40]),
            _ => sum,
        };
        if let Some(transport) = &frame.packet.transport {
            let sum = sum.add_slice(transport.slice());
            total = total.wrapping_add(u64::from(sum.ones_complement()));
        }
    }
    total
}
