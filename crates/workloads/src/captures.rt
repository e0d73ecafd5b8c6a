//! The benchmark job that reads captures and formats a line for each packet.

use crate::bench_error::BenchError;
use crate::digest::Digest;
use crate::fields::{Numbers, put};
use crate::frames::{Frames, Place, between, first_number};
use capture_reader::{Advance, CaptureReader, Shown};
use etherparse::{Entry, LaxNetSlice, LaxSlicedPacket, TransportSlice};
use line_io::decimals;
use packet_filter::Filter;
use packet_text::push_details;
use packet_times::{EPOCH, instant_of, is_fine, push_since, push_utc};
use refusal_texts::push_reason;
use std::alloc::Global;

/// Number of bytes of a capture that are given to the reader at a time (64 KiB).
const PIECE_LEN: usize = 65_536;

/// Snap length of the generated capture with truncated packets, in bytes.
const SNAP_LEN: usize = 96;

/// Start time of generated captures in seconds since 1970-01-01 00:00 UTC; the times of their packets are added to it.
const BEGIN: u64 = 1_732_542_399;

/// Number of bytes of formatted lines that are collected before they are added to the digest (64 KiB).
const TEXT_LEN: usize = 65_536;

/// Format of a generated capture, pcap or pcapng.
#[derive(Clone, Copy, PartialEq, Eq)]
enum Format {
    /// pcap capture, with timestamps in microseconds.
    Classic,
    /// pcapng capture, with timestamps in nanoseconds.
    Blocks,
}

/// The packet records (pcap) or blocks (pcapng) of a generated capture, without its file header, and the reader that
/// reads them. They get new timestamps, addresses and ports each time they are read.
#[derive(Drop)]
struct Tape {
    format: Format,
    frames: Frames,
    /// Index of each packet's timestamp in `frames.bytes`. Index 0 is the first byte after the file header of the
    /// capture.
    times: Vec<usize>,
    reader: CaptureReader,
}

/// Formatted lines about captured packets, the digest of earlier lines, and the filter that each packet is tested with.
#[derive(Drop)]
struct Report {
    digest: Digest,
    text: Vec<u8>,
    filter: Filter,
}

/// Reads one generated capture in each round, in turn a pcap, a pcapng, and a pcap capture with a snap length of 96
/// bytes. Formats a line for each packet: number, time, whether a filter accepts the packet, ports, details, and the
/// parsing error, if any. Returns the digest of the lines.
pub fn read_captures(alloc: Global, rounds: u32, seed: u64) -> Result<Digest, BenchError> {
    let mut numbers = Numbers::new(seed);
    let mut whole = Tape::drawn(alloc, &mut numbers, Format::Classic, usize::MAX)?;
    let mut blocks = Tape::drawn(alloc, &mut numbers, Format::Blocks, usize::MAX)?;
    let mut cut = Tape::drawn(alloc, &mut numbers, Format::Classic, SNAP_LEN)?;
    let Ok(filter) = Filter::parse(alloc, "host 10.1.0.77") else {
        return Err(BenchError::Input);
    };
    let mut report = Report {
        digest: Digest::new(),
        text: Vec::new(alloc),
        filter,
    };
    for round in 0..rounds {
        let number = first_number(seed, round);
        match round % 3 {
            0 => whole.read(number, &mut report)?,
            1 => blocks.read(number, &mut report)?,
            _ => cut.read(number, &mut report)?,
        }
    }
    report.take_text();
    Ok(report.digest)
}

impl Tape {
    /// Generates a capture of this format with 2,000 random packets, each truncated to at most `most` bytes, and gives
    /// its file header to a new reader.
    fn drawn(
        alloc: Global,
        numbers: &mut Numbers,
        format: Format,
        most: usize,
    ) -> Result<Tape, BenchError> {
        let drawn = Frames::drawn(alloc, numbers)?;
        let mut tape = Tape {
            format,
            frames: Frames {
                bytes: Vec::new(alloc),
                places: Vec::new(alloc),
            },
            times: Vec::new(alloc),
            reader: CaptureReader::new(alloc),
        };
        for place in drawn.places.as_slice() {
            tape.push(place, place.frame_in(drawn.bytes.as_slice()), most)?;
        }
        let beginning: &[u8] = match format {
            Format::Classic => CLASSIC_HEADING,
            Format::Blocks => SECTION_AND_INTERFACE,
        };
        take(&mut tape.reader, beginning)?;
        Ok(tape)
    }

    /// Appends a packet, truncated to at most `most` bytes, to the generated capture. `place` has the positions of the
    /// addresses and ports, which get new values each time the capture is read.
    fn push(&mut self, place: &Place, frame: &[u8], most: usize) -> Result<(), BenchError> {
        let kept = between(frame, 0, frame.len().min(most));
        let (kept_len, len) = (low_32(kept.len()), low_32(frame.len()));
        let bytes = &mut self.frames.bytes;
        let padding = kept.len().wrapping_neg() % 4;
        let block_len = low_32(kept.len().saturating_add(padding).saturating_add(32));
        if self.format == Format::Blocks {
            bytes.extend_from_slice(&[6, 0, 0, 0])?;
            bytes.extend_from_slice(&block_len.to_le_bytes())?;
            bytes.extend_from_slice(&[0; 4])?;
        }
        self.times.push(bytes.len())?;
        bytes.extend_from_slice(&[0; 8])?;
        bytes.extend_from_slice(&kept_len.to_le_bytes())?;
        bytes.extend_from_slice(&len.to_le_bytes())?;
        let start = bytes.len();
        bytes.extend_from_slice(kept)?;
        let from = place.start.wrapping_neg();
        let end = bytes.len();
        self.frames.places.push(Place {
            start,
            net: start,
            end,
            addresses: place
                .addresses
                .moved(from, usize::MAX)
                .moved(start, kept.len()),
            ports: place.ports.moved(from, usize::MAX).moved(start, kept.len()),
        })?;
        if self.format == Format::Blocks {
            bytes.extend_from_slice(between(&[0; 3], 0, padding))?;
            bytes.extend_from_slice(&block_len.to_le_bytes())?;
        }
        Ok(())
    }

    /// Sets times, addresses and ports of the generated capture to values derived from `number`. Then reads all
    /// packets, and appends a line for each packet to `report`.
    fn read(&mut self, number: u64, report: &mut Report) -> Result<(), BenchError> {
        self.frames.renew(number);
        let mut micros = number.wrapping_mul(37);
        for at in self.times.as_slice() {
            micros = micros.wrapping_add(37);
            put_time(self.frames.bytes.as_mut_slice(), *at, self.format, micros);
        }
        for piece in self.frames.bytes.as_slice().chunks(PIECE_LEN) {
            take(&mut self.reader, piece)?;
            read_packets(&mut self.reader, report)?;
        }
        Ok(())
    }
}

/// File header of a pcap capture: little endian, version 2.4, timestamps in microseconds, snap length 262,144,
/// Ethernet.
const CLASSIC_HEADING: &[u8] = &[
    0xd4, 0xc3, 0xb2, 0xa1, 2, 0, 4, 0, 0, 0, 0, 0, 0, 0, 0, 0, 0, 0, 4, 0, 1, 0, 0, 0,
];

/// Start of a pcapng capture: a little endian section header, and the description of an Ethernet interface with
/// timestamps in nanoseconds.
const SECTION_AND_INTERFACE: &[u8] = &[
    0x0a, 0x0d, 0x0d, 0x0a, 28, 0, 0, 0, 0x4d, 0x3c, 0x2b, 0x1a, 1, 0, 0, 0, 255, 255, 255, 255,
    255, 255, 255, 255, 28, 0, 0, 0, 1, 0, 0, 0, 32, 0, 0, 0, 1, 0, 0, 0, 0, 0, 4, 0, 9, 0, 1, 0,
    9, 0, 0, 0, 0, 0, 0, 0, 32, 0, 0, 0,
];

/// Writes a packet's timestamp at index `at` of a generated capture. The timestamp is the start time of the capture
/// (`BEGIN`) plus `micros` microseconds.
fn put_time(bytes: &mut [u8], at: usize, format: Format, micros: u64) {
    let (first, second) = match format {
        Format::Classic => {
            let seconds = BEGIN.wrapping_add(micros / 1_000_000);
            (seconds % 0x1_0000_0000, micros % 1_000_000)
        }
        Format::Blocks => {
            let nanos = BEGIN
                .wrapping_mul(1_000_000)
                .wrapping_add(micros)
                .wrapping_mul(1_000);
            (nanos >> 32, nanos % 0x1_0000_0000)
        }
    };
    put_low_32(bytes, at, first);
    put_low_32(bytes, at.wrapping_add(4), second);
}

/// Writes the lower 32 bits of a number at index `at`, little endian. Bytes out of range are not written.
fn put_low_32(bytes: &mut [u8], at: usize, number: u64) {
    let [a, b, c, d, ..] = number.to_le_bytes();
    put(bytes, at, a);
    put(bytes, at.wrapping_add(1), b);
    put(bytes, at.wrapping_add(2), c);
    put(bytes, at.wrapping_add(3), d);
}

/// Returns a length in bytes as a 32 bit number, modulo 2^32.
fn low_32(len: usize) -> u32 {
    (len % 0x1_0000_0000) as u32
}

/// Gives the next chunk of a capture to its reader. Returns an error if the capture would exceed 2^64 - 1 bytes or an
/// allocation fails.
fn take(reader: &mut CaptureReader, piece: &[u8]) -> Result<(), BenchError> {
    if reader.taken().checked_add(piece.len() as u64).is_none() {
        return Err(BenchError::Input);
    }
    reader.take(piece)?;
    Ok(())
}

/// Reads all complete packets that the capture reader was given so far, and appends a line for each to the report.
fn read_packets(reader: &mut CaptureReader, report: &mut Report) -> Result<(), BenchError> {
    for _ in 0..u64::MAX {
        match reader.advance() {
            Ok(Advance::Packet) => report.tell(&reader.shown())?,
            Ok(Advance::Other) => {}
            Ok(Advance::MayEnd | Advance::Cut(_)) => return Ok(()),
            Err(_) => return Err(BenchError::Input),
        }
    }
    Ok(())
}

impl Report {
    /// Appends the line of a captured packet: number, time, whether a filter accepts it, ports, details, and why
    /// parsing stopped.
    fn tell(&mut self, shown: &Shown<'_>) -> Result<(), BenchError> {
        self.digest.count_call();
        let text = &mut self.text;
        decimals::push(text, self.digest.calls())?;
        text.push(b' ')?;
        if let Some(time) = shown.time {
            if is_fine(time) {
                push_utc(text, time)?;
            } else {
                push_since(text, false, EPOCH, instant_of(time))?;
            }
        }
        let mut packet = LaxSlicedPacket::new();
        match packet.slice_into(Entry::Ethernet, shown.bytes) {
            Ok(()) => {
                if self
                    .filter
                    .matches(&packet, shown.bytes, shown.original_len)
                {
                    text.extend_from_slice(b" passes")?;
                }
                push_transport(text, &packet)?;
                push_details(text, &packet)?;
                if let Some(stop) = &packet.stop_err {
                    text.extend_from_slice(b" stopped ")?;
                    push_reason(text, &stop.0)?;
                }
            }
            Err(error) => {
                text.extend_from_slice(b" refused ")?;
                push_reason(text, &error)?;
            }
        }
        text.push(b'\n')?;
        if text.len() >= TEXT_LEN {
            self.take_text();
        }
        Ok(())
    }

    /// Adds the lines that were formatted so far to the digest, and clears them.
    fn take_text(&mut self) {
        self.digest.add_bytes(self.text.as_slice());
        self.text.clear();
    }
}

/// Appends to a packet's line: protocol of the network layer, TCP or UDP ports, and length of the payload.
fn push_transport(text: &mut Vec<u8>, packet: &LaxSlicedPacket<'_>) -> Result<(), BenchError> {
    match &packet.net {
        Some(LaxNetSlice::Ipv4(_)) => text.extend_from_slice(b" ipv4")?,
        Some(LaxNetSlice::Ipv6(_)) => text.extend_from_slice(b" ipv6")?,
        Some(LaxNetSlice::Arp(_)) => text.extend_from_slice(b" arp")?,
        None => {}
    }
    let ports = match &packet.transport {
        Some(TransportSlice::Udp(datagram)) => {
            Some((datagram.source_port(), datagram.destination_port()))
        }
        Some(TransportSlice::Tcp(segment)) => {
            Some((segment.source_port(), segment.destination_port()))
        }
        Some(TransportSlice::Icmpv4(_) | TransportSlice::Icmpv6(_)) | None => None,
    };
    if let Some((source, destination)) = ports {
        decimals::push_with_text(text, b" ", u64::from(source))?;
        decimals::push_with_text(text, b" > ", u64::from(destination))?;
    }
    decimals::push_with_text(text, b" len ", packet.payload().len() as u64)?;
    Ok(())
}
