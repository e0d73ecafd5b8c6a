//! Random frames of a benchmark job, in one vector.

use crate::bench_error::BenchError;
use crate::fields::{Balance, Numbers, low_16, put_32};
use crate::templates::{Shape, noise, write_shape};
use std::alloc::Global;

/// Number of frames that a benchmark job processes in each round.
pub const FRAMES: usize = 2_000;

/// Number of different source addresses of the generated frames.
const HOSTS: u64 = 509;

/// Returns the lower 16 bits of the source IP address in the generated frame with this number: one of 509 values.
#[inline]
pub fn host_of(number: u64) -> u16 {
    low_16(number % HOSTS)
}

/// Returns the source port in the generated frame with this number.
#[inline]
pub fn port_of(number: u64) -> u16 {
    low_16(number.wrapping_mul(40_503))
}

/// Position of a generated frame in the vector of all frames, with the positions of the fields that are set in each
/// round.
#[derive(Clone, Copy)]
pub struct Place {
    /// Index in the vector of all frames at which the frame starts.
    pub start: usize,
    /// Index in the vector of all frames at which the frame's network layer starts, after the Ethernet header and VLAN
    /// tags.
    pub net: usize,
    /// Index in the vector of all frames at which the frame ends.
    pub end: usize,
    /// Positions in the vector of all frames: lower 16 bits of this frame's source IP address, and lower 16 bits of its
    /// destination IP address, which are set to the one's complement of the former.
    pub addresses: Balance,
    /// Positions of the frame's source port (or of another field that distinguishes frames), and of a second field that
    /// is set to its one's complement, so that the checksum stays valid.
    pub ports: Balance,
}

impl Place {
    /// Sets the frame's IP addresses, ports and source hardware address to values derived from `number`. The last four
    /// bytes of the hardware address are the lower 32 bits of `number`, so numbers below 2^32 produce distinct frames.
    #[inline]
    pub fn renew(&self, bytes: &mut [u8], number: u64) {
        put_32(
            bytes,
            self.start.wrapping_add(8),
            (number % 0x1_0000_0000) as u32,
        );
        self.addresses.put(bytes, host_of(number));
        self.ports.put(bytes, port_of(number));
    }

    /// Returns the bytes of the frame at this position in the vector of all frames.
    #[inline]
    pub fn frame_in<'a>(&self, bytes: &'a [u8]) -> &'a [u8] {
        between(bytes, self.start, self.end)
    }

    /// Returns the bytes of the frame at this position in the vector of all frames, without its Ethernet header and
    /// VLAN tags.
    #[inline]
    pub fn packet_in<'a>(&self, bytes: &'a [u8]) -> &'a [u8] {
        between(bytes, self.net, self.end)
    }
}

/// Returns the bytes from `start` to `end`, or no bytes if that range is invalid.
#[inline]
pub fn between(bytes: &[u8], start: usize, end: usize) -> &[u8] {
    if start <= end && end <= bytes.len() {
        &bytes[start..end]
    } else {
        &[]
    }
}

/// Generated frames of a benchmark job, one after the other in one vector, and their positions.
#[derive(Drop)]
pub struct Frames {
    /// Bytes of all generated frames, one after the other.
    pub bytes: Vec<u8>,
    /// Positions of the generated frames and of their fields in the vector of all frames.
    pub places: Vec<Place>,
}

impl Frames {
    /// Generates 2,000 random frames as in ordinary traffic. One of 50 is truncated at byte 20 of its network layer or
    /// later, as by a broken sender.
    pub fn drawn(alloc: Global, numbers: &mut Numbers) -> Result<Frames, BenchError> {
        let noise = noise(alloc, numbers)?;
        let mut bytes = Vec::new(alloc);
        let mut places = Vec::new(alloc);
        let mut frame = Vec::new(alloc);
        for _ in 0..FRAMES {
            let shape = Shape::drawn(numbers);
            let fields = write_shape(&mut frame, &shape, noise.as_slice())?;
            let len = if numbers.below(50) == 0 {
                let least = fields.net.saturating_add(20).min(frame.len());
                least + numbers.below((frame.len() - least) as u64) as usize
            } else {
                frame.len()
            };
            let start = bytes.len();
            bytes.extend_from_slice(between(frame.as_slice(), 0, len))?;
            places.push(Place {
                start,
                net: start.saturating_add(fields.net.min(len)),
                end: bytes.len(),
                addresses: fields.addresses.moved(start, len),
                ports: fields.ports.moved(start, len),
            })?;
        }
        Ok(Frames { bytes, places })
    }

    /// Sets the addresses and ports of each generated frame to values derived from its frame number. The first frame
    /// gets `number`, and each later frame the next higher number.
    pub fn renew(&mut self, number: u64) {
        let mut number = number;
        for place in self.places.as_slice() {
            place.renew(self.bytes.as_mut_slice(), number);
            number = number.wrapping_add(1);
        }
    }
}

/// Returns the number of the first frame in a round; addresses and ports of each frame are derived from its number.
pub fn first_number(seed: u64, round: u32) -> u64 {
    (seed % 65_536).wrapping_add(u64::from(round).wrapping_mul(FRAMES as u64))
}
