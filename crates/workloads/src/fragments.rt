//! The benchmark job that reassembles the fragments of many IP datagrams at the same time.

use crate::bench_error::BenchError;
use crate::digest::Digest;
use crate::fields::{Balance, Numbers, low_16, mixed, put_16, put_32};
use crate::frames::{between, host_of, port_of};
use crate::templates::{
    DESTINATION, DESTINATION_IPV4, Fields, Inside, SOURCE, SOURCE_IPV4, Shape, ipv6_header, noise,
    write_shape,
};
use etherparse::defrag::{IpDefragError, IpDefragPool};
use etherparse::{
    IpFragOffset, IpHeaders, IpNumber, Ipv4Header, Ipv6Extensions, Ipv6FragmentHeader,
    PacketBuilder, SlicedPacket,
};
use std::alloc::Global;

/// Maximum payload of an IPv4 fragment in an Ethernet frame, in bytes.
const PIECE_LEN: usize = 1_480;

/// Maximum payload of an IPv6 fragment in an Ethernet frame, in bytes: 1,500 minus IPv6 header (40) and fragment header
/// (8), rounded down to a multiple of 8.
const PIECE_LEN_IPV6: usize = 1_448;

/// Index in an Ethernet frame at which the payload of an IPv4 fragment starts: 14 bytes Ethernet II and 20 bytes IPv4.
const PAYLOAD_IPV4: usize = 34;

/// Index in an Ethernet frame at which the payload of an IPv6 fragment starts: 14 bytes Ethernet II, 40 bytes IPv6 and
/// 8 bytes fragment header.
const PAYLOAD_IPV6: usize = 62;

/// Number of frames that are passed to the reassembly pool in a second of simulated time.
const FRAMES_A_SECOND: u64 = 20_000;

/// Number of seconds of simulated time after which an incomplete datagram without new fragments is dropped.
const KEPT_SECONDS: u64 = 5;

/// Maximum number of fragments that are passed to the reassembly pool for one datagram: six, and the first one once
/// more.
const TURNS: u64 = 7;

/// Size of a group of fragmented datagrams that are reassembled at the same time.
#[derive(Clone, Copy)]
struct FragmentGroup {
    /// Number of datagrams in the group; their fragments arrive interleaved.
    streams: u64,
    /// Maximum number of fragments of a datagram; each datagram has at least two.
    most_fragments: u64,
    /// Payload length in bytes of each fragment of a datagram except the last one. For IPv6 it is limited to 1,448.
    piece_len: usize,
}

/// A thousand fragmented datagrams of up to 9 KB, reassembled at the same time.
const SMALL_GROUP: FragmentGroup = FragmentGroup {
    streams: 1_000,
    most_fragments: 6,
    piece_len: PIECE_LEN,
};

/// Fifty thousand short datagrams in two fragments each, reassembled at the same time.
const LARGE_GROUP: FragmentGroup = FragmentGroup {
    streams: 50_000,
    most_fragments: 2,
    piece_len: 120,
};

/// Order in which the fragments of a datagram arrive.
#[derive(Clone, Copy, PartialEq, Eq)]
enum ArrivalPattern {
    /// The fragments of the datagram arrive in order.
    InOrder,
    /// The fragments of the datagram arrive in reverse order.
    Backwards,
    /// The fragments of the datagram arrive in order, the first one twice.
    Repeated,
    /// The fragments of the datagram arrive in order, but the last one never does.
    NeverEnds,
}

/// Description of a fragmented datagram: its number, its IP version, count and lengths of its fragments, and the order
/// in which they arrive.
#[derive(Clone, Copy)]
struct Stream {
    number: u64,
    is_ipv6: bool,
    fragments: u64,
    piece_len: usize,
    last_len: usize,
    order: ArrivalPattern,
}

/// A reassembly pool, the frames that are passed to it, and the digest of the results.
#[derive(Drop)]
pub struct Reassembly {
    pool: IpDefragPool<u64, u64>,
    /// An Ethernet frame with an IPv4 fragment of maximum length, which is changed each time before it is passed to the
    /// pool.
    ipv4: Vec<u8>,
    /// An Ethernet frame with an IPv6 fragment of maximum length, which is changed each time before it is passed to the
    /// pool.
    ipv6: Vec<u8>,
    /// An Ethernet frame with an unfragmented TCP segment over IPv4, which the reassembly pool ignores.
    plain: Vec<u8>,
    plain_fields: Fields,
    frames: u64,
    pub digest: Digest,
}

/// Passes interleaved fragments of 1,000 datagrams in each round (50,000 in each 32nd round) to a reassembly pool, and
/// unfragmented frames between them. Buffers of reassembled payloads are given back to the pool for reuse; incomplete
/// datagrams expire after some seconds of simulated time. Returns the digest of all results.
pub fn reassemble_streams(alloc: Global, rounds: u32, seed: u64) -> Result<Digest, BenchError> {
    let mut reassembly = Reassembly::new(alloc, seed)?;
    let mut first = (seed % 65_536).wrapping_mul(65_536);
    for round in 0..rounds {
        let group = if round % 32 == 31 {
            LARGE_GROUP
        } else {
            SMALL_GROUP
        };
        reassembly.process_group(group, first)?;
        first = first.wrapping_add(group.streams);
    }
    Ok(reassembly.digest)
}

impl Reassembly {
    /// Returns an empty reassembly pool, and the frames that are changed and passed to it.
    pub fn new(alloc: Global, seed: u64) -> Result<Reassembly, BenchError> {
        let mut numbers = Numbers::new(seed);
        let noise = noise(alloc, &mut numbers)?;
        let mut reassembly = Reassembly {
            pool: IpDefragPool::new(alloc),
            ipv4: Vec::new(alloc),
            ipv6: Vec::new(alloc),
            plain: Vec::new(alloc),
            plain_fields: Fields {
                net: 0,
                addresses: Balance::NONE,
                ports: Balance::NONE,
            },
            frames: 0,
            digest: Digest::new(),
        };
        let link = PacketBuilder::ethernet2(SOURCE, DESTINATION);
        let step = link.ip(fragment_ipv4());
        let payload = between(noise.as_slice(), 0, PIECE_LEN);
        let Ok(()) = step.write(&mut reassembly.ipv4, IpNumber::UDP, payload) else {
            return Err(BenchError::Input);
        };
        let link = PacketBuilder::ethernet2(SOURCE, DESTINATION);
        let step = link.ip(fragment_ipv6());
        let payload = between(noise.as_slice(), 0, PIECE_LEN_IPV6);
        let Ok(()) = step.write(&mut reassembly.ipv6, IpNumber::UDP, payload) else {
            return Err(BenchError::Input);
        };
        let shape = Shape {
            inside: Inside::Tcp,
            is_ipv6: false,
            is_tagged: false,
            payload_len: 1_000,
        };
        reassembly.plain_fields = write_shape(&mut reassembly.plain, &shape, noise.as_slice())?;
        Ok(reassembly)
    }

    /// Passes the fragments of a group of datagrams to the reassembly pool: first one fragment of each datagram, then
    /// the next one of each, and so on. The datagrams are numbered consecutively, starting with `first`.
    fn process_group(&mut self, group: FragmentGroup, first: u64) -> Result<(), BenchError> {
        for turn in 0..TURNS {
            for index in 0..group.streams {
                let stream = Stream::of_number(first.wrapping_add(index), group);
                if let Some(place) = stream.place_at(turn) {
                    self.process_fragment_of(&stream, place)?;
                    if self.frames % 4 == 0 {
                        self.process_plain_frame()?;
                    }
                }
            }
        }
        Ok(())
    }

    /// Passes the fragment with index `place` of a datagram to the reassembly pool.
    fn process_fragment_of(&mut self, stream: &Stream, place: u64) -> Result<(), BenchError> {
        let is_last = place.saturating_add(1) >= stream.fragments;
        let len = if is_last {
            stream.last_len
        } else {
            stream.piece_len
        };
        let offset = place.wrapping_mul(stream.piece_len as u64);
        if stream.is_ipv6 {
            write_ipv6(
                self.ipv6.as_mut_slice(),
                stream.number,
                offset,
                !is_last,
                len,
            );
            give(
                &mut self.pool,
                &mut self.digest,
                between(self.ipv6.as_slice(), 0, PAYLOAD_IPV6.wrapping_add(len)),
                self.frames / FRAMES_A_SECOND,
            )?;
        } else {
            write_ipv4(
                self.ipv4.as_mut_slice(),
                stream.number,
                offset,
                !is_last,
                len,
            );
            give(
                &mut self.pool,
                &mut self.digest,
                between(self.ipv4.as_slice(), 0, PAYLOAD_IPV4.wrapping_add(len)),
                self.frames / FRAMES_A_SECOND,
            )?;
        }
        self.count_frame();
        Ok(())
    }

    /// Passes an IPv4 fragment with 8 bytes of payload to the reassembly pool. The fragment belongs to datagram
    /// `number`, its offset is `place` (in units of 8 bytes), and `more` is its more-fragments flag.
    pub fn process_short_fragment(
        &mut self,
        number: u64,
        place: u16,
        more: bool,
    ) -> Result<(), BenchError> {
        let offset = u64::from(place) * 8;
        write_ipv4(self.ipv4.as_mut_slice(), number, offset, more, 8);
        give(
            &mut self.pool,
            &mut self.digest,
            between(self.ipv4.as_slice(), 0, PAYLOAD_IPV4 + 8),
            self.frames / FRAMES_A_SECOND,
        )?;
        self.count_frame();
        Ok(())
    }

    /// Passes an unfragmented frame to the reassembly pool, with new addresses and ports.
    fn process_plain_frame(&mut self) -> Result<(), BenchError> {
        let number = self.frames;
        let plain = self.plain.as_mut_slice();
        self.plain_fields.addresses.put(plain, host_of(number));
        self.plain_fields.ports.put(plain, port_of(number));
        give(
            &mut self.pool,
            &mut self.digest,
            self.plain.as_slice(),
            number / FRAMES_A_SECOND,
        )?;
        self.count_frame();
        Ok(())
    }

    /// Counts a frame that was passed to the reassembly pool. Once per second of simulated time, drops the incomplete
    /// datagrams that had no fragment for five seconds.
    fn count_frame(&mut self) {
        self.frames = self.frames.wrapping_add(1);
        if self.frames % FRAMES_A_SECOND == 0 {
            let oldest = (self.frames / FRAMES_A_SECOND).saturating_sub(KEPT_SECONDS);
            self.pool.retain(|last: &u64| -> bool { *last >= oldest });
            self.digest.add(self.pool.stream_count() as u64);
        }
    }
}

/// Parses a frame and passes it to a reassembly pool, with `second` as timestamp. Adds the result to the digest. The
/// buffer of a reassembled payload is given back to the pool for reuse.
fn give(
    pool: &mut IpDefragPool<u64, u64>,
    digest: &mut Digest,
    frame: &[u8],
    second: u64,
) -> Result<(), BenchError> {
    digest.count_call();
    let Ok(packet) = SlicedPacket::from_ethernet(frame) else {
        return Err(BenchError::Input);
    };
    match pool.process_sliced_packet(&packet, second, 0) {
        Ok(Some(payload)) => {
            digest.add(u64::from(payload.ip_number.0));
            digest.add_bytes(payload.payload.as_slice());
            pool.return_buf(payload);
        }
        Ok(None) => digest.add(1),
        Err(IpDefragError::AllocationFailure { .. }) => return Err(BenchError::OutOfMemory),
        Err(_) => digest.add(2),
    }
    Ok(())
}

impl Stream {
    /// Derives IP version, fragment lengths and order of a fragmented datagram from its number.
    fn of_number(number: u64, group: FragmentGroup) -> Stream {
        let drawn = mixed(number);
        let order = match (drawn >> 40) % 50 {
            0 => ArrivalPattern::NeverEnds,
            1 => ArrivalPattern::Repeated,
            2 => ArrivalPattern::Backwards,
            _ => ArrivalPattern::InOrder,
        };
        let is_ipv6 = drawn % 4 == 0;
        let piece_len = if is_ipv6 {
            group.piece_len.min(PIECE_LEN_IPV6)
        } else {
            group.piece_len
        };
        let spread = group.most_fragments.saturating_sub(1).max(1);
        Stream {
            number,
            is_ipv6,
            fragments: 2 + (drawn >> 8) % spread,
            piece_len,
            last_len: 8 + (drawn >> 16) as usize % piece_len.saturating_sub(8).max(1),
            order,
        }
    }

    /// Returns the index (from 0) of the fragment that arrives after `turn` earlier fragments of the datagram, or
    /// `None` if no further fragment arrives.
    fn place_at(&self, turn: u64) -> Option<u64> {
        let place = match self.order {
            ArrivalPattern::Backwards if turn < self.fragments => self.fragments - 1 - turn,
            ArrivalPattern::Repeated => turn.saturating_sub(1),
            ArrivalPattern::NeverEnds if turn.saturating_add(1) >= self.fragments => return None,
            ArrivalPattern::InOrder | ArrivalPattern::Backwards | ArrivalPattern::NeverEnds => turn,
        };
        if place < self.fragments {
            Some(place)
        } else {
            None
        }
    }
}

/// Returns the IPv4 header of a fragment with offset 0 and more fragments to follow.
fn fragment_ipv4() -> IpHeaders {
    let header = Ipv4Header {
        dont_fragment: false,
        more_fragments: true,
        time_to_live: 64,
        source: SOURCE_IPV4,
        destination: DESTINATION_IPV4,
        ..Default::default()
    };
    IpHeaders::Ipv4(header, Default::default())
}

/// Returns the IPv6 header and the fragment header of a fragment with offset 0 and more fragments to follow.
fn fragment_ipv6() -> IpHeaders {
    let extensions = Ipv6Extensions {
        hop_by_hop_options: None,
        destination_options: None,
        routing: None,
        fragment: Some(Ipv6FragmentHeader {
            next_header: IpNumber::UDP,
            fragment_offset: IpFragOffset::ZERO,
            more_fragments: true,
            identification: 0,
        }),
        auth: None,
    };
    IpHeaders::Ipv6(ipv6_header(), extensions)
}

/// Changes an Ethernet frame into the IPv4 fragment of datagram `number` with this offset and payload length, in bytes.
/// `more` states whether more fragments follow.
fn write_ipv4(frame: &mut [u8], number: u64, offset: u64, more: bool, len: usize) {
    put_16(frame, 16, low_16(len as u64).wrapping_add(20));
    put_16(frame, 18, low_16(number));
    put_16(
        frame,
        20,
        low_16(offset / 8 % 8_192 + if more { 8_192 } else { 0 }),
    );
    put_16(frame, 28, host_of(number));
    put_16(frame, 32, low_16(number / 65_536));
    put_32(frame, PAYLOAD_IPV4, (offset % 65_536) as u32);
    put_32(frame, PAYLOAD_IPV4 + 4, (number % 0x1_0000_0000) as u32);
}

/// Changes an Ethernet frame into the IPv6 fragment of datagram `number` with this offset and payload length, in bytes.
/// `more` states whether more fragments follow.
fn write_ipv6(frame: &mut [u8], number: u64, offset: u64, more: bool, len: usize) {
    put_16(frame, 18, low_16(len as u64).wrapping_add(8));
    put_16(frame, 36, host_of(number));
    put_16(frame, 52, low_16(number / 65_536));
    put_16(
        frame,
        56,
        low_16(offset / 8 % 8_192 * 8 + if more { 1 } else { 0 }),
    );
    put_32(frame, 58, (number % 0x1_0000_0000) as u32);
    put_32(frame, PAYLOAD_IPV6, (offset % 65_536) as u32);
    put_32(frame, PAYLOAD_IPV6 + 4, (number % 0x1_0000_0000) as u32);
}
