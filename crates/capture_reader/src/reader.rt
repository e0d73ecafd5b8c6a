//! A reader of pcap and pcapng captures that arrive in chunks.

ghost use Rattle.std.specs.Prelude.{◌≡◌, ◌≤◌, ◌<◌, ◌+◌, ◌-◌, ◌^◌, ◌++◌, [], ℕ, List, IfErr, IfOk, IfSome, OnErr, OnOk};
ghost use Rattle.std.specs.Prelude.{◌*◌, ◌/◌, ◌⊎◌, false, true, drop, length, take, vec_capacity, vec_len};
ghost use Rattle.capture_reader.specs.Captures.{begins_long, begins_section};
ghost use Rattle.capture_reader.specs.States.{described_at_start};

use crate::block::{Block, Content, SECTION};
use crate::byte_order::ByteOrder;
use crate::heading::Heading;
use crate::interface::Interface;
use crate::packet::{Packet, Record};
use crate::parts::{MOST_STRETCH, begins_long, check_trailing_len, parse_long_len};
use crate::refusal::{CaptureError, Refusal};
use crate::shown::{Known, Shown};
use std::alloc::{AllocError, Global};
use std::mem::swap;

/// State of a capture reader: the format of the capture, and what comes next in it.
#[derive(Clone, Copy, Debug)]
pub enum State {
    /// Nothing of the capture has been read.
    Start,
    /// The file header of a pcap capture has been read; packet records follow.
    Records(Heading),
    /// One or more blocks of a pcapng capture have been read; the current section has this byte order.
    Blocks(ByteOrder),
    /// The start of a pcapng block longer than 320 KiB has been read; its content is skipped in parts.
    Inside {
        order: ByteOrder,
        /// Length in bytes of the pcapng block that is being skipped.
        len: u32,
        /// Number of bytes of the pcapng block that are still to be skipped before its trailing length field.
        left: u32,
    },
}

/// Result of `CaptureReader::advance`, which reads one file header, packet record or pcapng block (or one part of a
/// block longer than 320 KiB).
#[derive(Clone, Copy, Debug, PartialEq, Eq)]
pub enum Advance {
    /// The capture reader has read a packet, which is available until the next call of `advance`, `take` or `exchange`.
    Packet,
    /// The capture reader has read a file header, a pcapng block without a packet, or one part of a block longer than
    /// 320 KiB.
    Other,
    /// All bytes that the capture reader was given are read, and the capture is complete if it ends here.
    MayEnd,
    /// The capture reader needs more bytes. The error is the one to report if the capture ends here.
    Cut(CaptureError),
}

/// Reader of a pcap or pcapng capture that arrives in chunks. It keeps the last chunk, the bytes of earlier chunks that
/// were still unread when that chunk arrived, and the interface descriptions of the current pcapng section.
#[derive(Drop)]
pub struct CaptureReader {
    state: State,
    /// Bytes that were read or are no longer needed, and from index `end` on the bytes that are not yet read.
    buffer: Vec<u8>,
    /// Index in the capture reader's buffer at which the bytes of the last packet start.
    start: usize,
    /// Index in the capture reader's buffer at which the bytes of the last packet end.
    last: usize,
    /// Index in the capture reader's buffer at which the next file header, packet record or block starts.
    end: usize,
    /// Offset in the capture, in bytes, at which the next file header, packet record or pcapng block (or the next part
    /// of a block longer than 320 KiB) starts.
    offset: u64,
    /// Record header of the packet that was read last, in a pcap capture.
    record: Record,
    /// Link type, interface, timestamp and original length of the packet that was read last.
    known: Known,
    /// Interfaces that the current pcapng section has described. The vector has spare capacity for all interfaces that
    /// the unread bytes may describe.
    interfaces: Vec<Interface>,
    ghost ordered: { start ≤ last },
    ghost before: { last ≤ end },
    ghost within: { end ≤ vec_len buffer },
    ghost bounded: { offset + (vec_len buffer - end) < 2 ^ 64 },
    ghost fresh: { described_at_start state (vec_len interfaces) ≡ 0 },
    ghost spare: { 20 * vec_len interfaces + vec_len buffer ≤ 20 * vec_capacity interfaces + 19 + end },
}

impl CaptureReader {
    ghost use Rattle.capture_reader.specs.Captures.{Item};
    ghost use Rattle.capture_reader.specs.Blocks.{RefusesBlock};
    ghost use Rattle.capture_reader.specs.BlockContents.{known_shown, section_of};
    ghost use Rattle.capture_reader.specs.Classic.{kept_packet, packet_of};
    ghost use Rattle.capture_reader.specs.Readers.{AdvancesTo, Answers, AnswersAhead, Passes, Reads, ReadsAhead};
    ghost use Rattle.capture_reader.specs.Readers.{ReadsBlock, ReadsBlocks, Waits, rest_after};
    ghost use Rattle.capture_reader.specs.Readers.{bytes_capacity, interfaces_capacity, interfaces_described};
    ghost use Rattle.capture_reader.specs.Readers.{heading_in, most_unread, reader_buffered, reader_unread};
    ghost use Rattle.capture_reader.specs.Readers.{reader_offset, reader_packet};
    ghost use Rattle.capture_reader.specs.Readers.{reader_rest, reader_shown, reader_stage, refused_at, shown_of};

    /// Returns a capture reader that was given no bytes so far. It does not allocate.
    pub fn new(alloc: Global) -> CaptureReader
        ensures reads { Reads result [] [] }
        ensures unread { reader_unread result ≡ 0 }
        ensures offset { reader_offset result ≡ 0 }
        ensures buffered { reader_buffered result ≡ 0 }
        ensures packet { reader_packet result ≡ kept_packet Record.NONE [] }
        ensures shown { reader_shown result ≡ known_shown Known.NONE [] }
    {
        CaptureReader {
            state: State::Start,
            buffer: Vec::new(alloc),
            start: 0,
            last: 0,
            end: 0,
            offset: 0,
            record: Record::NONE,
            known: Known::NONE,
            interfaces: Vec::new(alloc),
        }
    }

    /// Number of bytes of the capture that the reader was given so far by calls of `take` and `exchange`.
    pub fn taken(&self) -> u64
        ensures { result ≡ reader_offset self.now + reader_unread self.now }
    {
        self.offset + (self.buffer.len() - self.end) as u64
    }

    /// Gives the next chunk of the capture to the reader; all chunks together have fewer than 2^64 bytes. Allocates if
    /// the buffer or the list of interfaces has to grow. If an allocation fails, the reader has not taken the chunk.
    pub fn take(&mut self, chunk: &[u8]) -> Result<(), AllocError>
        requires { reader_offset self.old + reader_unread self.old + length chunk.now < 2 ^ 64 }
        ensures ok { OnOk result ((taken : List ℕ) (items : List Item) → Reads self.old taken items →
            Reads self.new (taken ++ chunk.now) items) }
        ensures err { OnErr result ((taken : List ℕ) (items : List Item) → Reads self.old taken items →
            Reads self.new taken items) }
        ensures unread { OnOk result (reader_unread self.new ≡ reader_unread self.old + length chunk.now) }
        ensures buffered { OnOk result (reader_buffered self.new ≡ reader_unread self.new) }
        ensures offset { reader_offset self.new ≡ reader_offset self.old }

        // An allocation fails only if the unread bytes exceed the capacity, or if the interfaces do, at one for each 20
        // bytes.
        ensures full { let unread = reader_unread self.old + length chunk.now in
            OnErr result ((bytes_capacity self.old < unread)
            ⊎ (interfaces_capacity self.old < interfaces_described self.old + unread / 20)) }
    {
        // Both allocations come first, so that a failure changes nothing.
        let unread = self.buffer.len() - self.end;
        self.buffer.reserve(chunk.len().saturating_sub(self.end))?;
        self.interfaces
            .reserve((unread + chunk.len()) / Interface::LEN)?;
        remove_prefix(&mut self.buffer, self.end);
        self.start = 0;
        self.last = 0;
        self.end = 0;
        self.buffer.extend_from_slice(chunk)?;
        Ok(())
    }

    /// Gives the next chunk of the capture to the reader, the `count` bytes of `buffer` from index `start`, by
    /// exchanging `buffer` for the reader's own buffer. The unread bytes are copied to just before `start`. If they do
    /// not fit there, or if the chunk ends before `buffer` does, the chunk is copied instead. `buffer` keeps its
    /// length; its contents are unspecified. Allocates if the reader's buffer or the list of interfaces has to grow. If
    /// an allocation fails, nothing changes.
    pub fn exchange(
        &mut self,
        buffer: &mut Vec<u8>,
        start: usize,
        count: usize,
    ) -> Result<(), AllocError>
        requires fits { reader_offset self.old + reader_unread self.old + count < 2 ^ 64 }
        requires within { start + count ≤ vec_len buffer.old }
        ensures ok { OnOk result ((taken : List ℕ) (items : List Item) → Reads self.old taken items →
            Reads self.new (taken ++ take count (drop start buffer.old.items)) items) }
        ensures err { OnErr result ((taken : List ℕ) (items : List Item) → Reads self.old taken items →
            Reads self.new taken items) }
        ensures unchanged { OnErr result (buffer.new.items ≡ buffer.old.items) }
        ensures unread { OnOk result (reader_unread self.new ≡ reader_unread self.old + count) }
        ensures buffered { OnOk result (reader_buffered self.new ≤ vec_len buffer.old + reader_unread self.new) }
        ensures offset { reader_offset self.new ≡ reader_offset self.old }
        ensures len { vec_len buffer.new ≡ vec_len buffer.old }

        // An allocation fails only if the length of `buffer` or the unread bytes exceed the capacity, or if the
        // interfaces do, at one for each 20 bytes.
        ensures full { let unread = reader_unread self.old + count in
            OnErr result ((bytes_capacity self.old < vec_len buffer.old) ⊎ (bytes_capacity self.old < unread)
            ⊎ (interfaces_capacity self.old < interfaces_described self.old + unread / 20)) }
    {
        let end = start + count;
        let len = buffer.len();
        let unread = self.buffer.len() - self.end;
        if start < unread || end < len {
            return self.take(&buffer.as_slice()[start..end]);
        }
        // Both allocations come first, so that a failure changes nothing.
        self.buffer.reserve(len.saturating_sub(self.buffer.len()))?;
        self.interfaces.reserve((unread + count) / Interface::LEN)?;
        write_before(buffer, start, self.rest());
        swap(&mut self.buffer, buffer);
        self.start = 0;
        self.last = 0;
        self.end = start - unread;
        // This cannot fail, because the capacity was reserved above.
        buffer.resize(len, 0)
    }

    /// Reads the next file header, packet record or pcapng block (or the next part of a block longer than 320 KiB) of
    /// the capture. Returns an error, and changes nothing, if the given bytes are invalid whatever bytes follow them.
    /// Otherwise, if bytes are missing, reads nothing and returns `Advance::Cut`, or `Advance::MayEnd` if no unread
    /// bytes are left and the capture may end here.
    pub fn advance(&mut self) -> Result<Advance, CaptureError>
        ensures reads { (taken : List ℕ) (items : List Item) → Reads self.old taken items →
            AdvancesTo self.new taken items result }
        ensures total { reader_offset self.new + reader_unread self.new
            ≡ reader_offset self.old + reader_unread self.old }
        ensures grows { reader_offset self.old ≤ reader_offset self.new }
        ensures less { Passes result → reader_unread self.new < reader_unread self.old }
        ensures memory { Waits result → reader_unread self.new < most_unread (reader_stage self.new) }
    {
        self.step()
    }

    /// Reads the next file header, packet record or pcapng block (or the next part of a block longer than 320 KiB), as
    /// the reader's state requires.
    fn step(&mut self) -> Result<Advance, CaptureError>
        ensures { Answers self.old self.new result }
    {
        match self.state {
            State::Start => {
                if begins_section(self.rest()) {
                    self.advance_section()
                } else {
                    self.advance_heading()
                }
            }
            State::Records(heading) => self.advance_record(heading),
            State::Blocks(order) => {
                if let Some(block) = self.parse_next_block(order) {
                    return self.read_block(block);
                }
                if self.end == self.buffer.len() {
                    return Ok(Advance::MayEnd);
                }
                if begins_long(order, self.rest()) {
                    self.read_long_header(order)
                } else {
                    self.advance_block(order)
                }
            }
            State::Inside { order, len, left } => {
                if left == 0 {
                    self.read_trailing_len(order, len)
                } else {
                    self.skip_long_body(order, len, left)
                }
            }
        }
    }

    /// Returns the packet that starts `ahead` bytes after the bytes that were read, without reading it, and adds the
    /// length of its packet record or block to `ahead`. Returns `None`, and leaves `ahead` unchanged, if no complete
    /// packet record or block with a packet starts there. The packet borrows from the reader, so that packets of
    /// repeated calls can share one value that is filled with each of them; `advance_past` then reads them.
    #[inline(always)]
    pub fn next_packet<'a>(&'a self, ahead: &mut usize) -> Option<Shown<'a>>
        requires { ahead.old ≤ reader_unread self.now }
        ensures { AnswersAhead self.now ahead.old ahead.new result }
    {
        match self.state {
            State::Records(heading) => self.next_record(heading, ahead),
            State::Blocks(order) => self.next_packet_block(order, ahead),
            State::Start | State::Inside { .. } => None,
        }
    }

    /// Returns the packet whose record starts `ahead` bytes after the bytes that were read, in a pcap capture.
    #[inline(always)]
    fn next_record<'a>(&'a self, heading: Heading, ahead: &mut usize) -> Option<Shown<'a>>
        requires records { self.now.state ≡ State.Records heading }
        requires within { ahead.old ≤ reader_unread self.now }
        ensures { AnswersAhead self.now ahead.old ahead.new result }
    {
        let rest = self.rest_after(*ahead);
        match Record::from_slice(heading.order, rest) {
            Ok(record) => {
                let len = Record::LEN + record.kept;
                *ahead += len;
                let known = record.known(&heading);
                Some(known.shown(&rest[Record::LEN..len]))
            }
            Err(_) => None,
        }
    }

    /// Returns the packet in the block that starts `ahead` bytes after the bytes that were read, in a section of this
    /// byte order.
    #[inline(always)]
    fn next_packet_block<'a>(&'a self, order: ByteOrder, ahead: &mut usize) -> Option<Shown<'a>>
        requires blocks { self.now.state ≡ State.Blocks order }
        requires within { ahead.old ≤ reader_unread self.now }
        ensures { AnswersAhead self.now ahead.old ahead.new result }
    {
        let rest = self.rest_after(*ahead);
        match Block::parse_complete(order, self.interfaces.as_slice(), rest) {
            Some(block) => match block.content {
                Content::Packet(packet) => {
                    let start = Block::HEADER_LEN + packet.start;
                    *ahead += block.len;
                    Some(packet.known.shown(&rest[start..start + packet.kept]))
                }
                Content::Section | Content::Interface(_) | Content::Other => None,
            },
            None => None,
        }
    }

    /// Returns the bytes of the capture that were given to the reader, from `ahead` bytes after those that were read.
    #[inline]
    fn rest_after(&self, ahead: usize) -> &[u8]
        requires { ahead ≤ reader_unread self.now }
        ensures { result.now ≡ rest_after self.now ahead }
    {
        &self.buffer.as_slice()[self.end + ahead..]
    }

    /// Reads the packets that `next_packet` returned, which end `ahead` bytes after the bytes that were read. `shown`
    /// and `packet` still return the packet that `advance` read last.
    pub fn advance_past(&mut self, ahead: usize)
        requires { ahead ≤ reader_unread self.old }
        ensures reads { (taken : List ℕ) (items : List Item) → ReadsAhead self.old ahead taken items →
            Reads self.new taken items }
        ensures unread { reader_unread self.new + ahead ≡ reader_unread self.old }
        ensures offset { reader_offset self.new ≡ reader_offset self.old + ahead }
        ensures shown { reader_shown self.new ≡ reader_shown self.old }
        ensures packet { reader_packet self.new ≡ reader_packet self.old }
    {
        self.end += ahead;
        self.offset += ahead as u64;
    }

    /// Returns the bytes of the capture that were given to the reader and are not yet read.
    #[inline]
    fn rest(&self) -> &[u8]
        ensures { result.now ≡ reader_rest self.now }
    {
        &self.buffer.as_slice()[self.end..]
    }

    /// Reads the file header of a pcap capture and advances past it.
    fn advance_heading(&mut self) -> Result<Advance, CaptureError>
        requires start { self.old.state ≡ State.Start }
        requires no_section { begins_section (reader_rest self.old) ≡ false }
        ensures { Answers self.old self.new result }
    {
        match Heading::from_slice(self.rest()) {
            Ok(heading) => {
                self.end += Heading::LEN;
                self.offset += Heading::LEN as u64;
                self.state = State::Records(heading);
                Ok(Advance::Other)
            }
            Err(refusal) => self.refuse(refusal),
        }
    }

    /// Reads the next record header and packet of a pcap capture, and advances past them.
    fn advance_record(&mut self, heading: Heading) -> Result<Advance, CaptureError>
        requires { self.old.state ≡ State.Records heading }
        ensures { Answers self.old self.new result }
    {
        if self.end == self.buffer.len() {
            return Ok(Advance::MayEnd);
        }
        match Record::from_slice(heading.order, self.rest()) {
            Ok(record) => {
                self.start = self.end + Record::LEN;
                self.last = self.start + record.kept;
                self.end = self.last;
                self.offset += (Record::LEN + record.kept) as u64;
                self.record = record;
                self.known = record.known(&heading);
                Ok(Advance::Packet)
            }
            Err(refusal) => self.refuse(refusal),
        }
    }

    /// Reads the first Section Header Block of a pcapng capture and advances past it.
    fn advance_section(&mut self) -> Result<Advance, CaptureError>
        requires start { self.old.state ≡ State.Start }
        requires begins { begins_section (reader_rest self.old) ≡ true }
        ensures { Answers self.old self.new result }
    {
        self.advance_block(ByteOrder::Big)
    }

    /// Parses the next block of a pcapng capture, in a section of this byte order, without advancing past it.
    #[inline(always)]
    fn next_block(&self, order: ByteOrder) -> Result<Block, Refusal>
        requires { ReadsBlocks self.now order }
        ensures ok { IfOk result (ReadsBlock self.now order) }
        ensures err { IfErr result (RefusesBlock (section_of order self.now.interfaces.items) (reader_rest self.now)) }
    {
        match Block::from_slice(order, self.interfaces.as_slice(), self.rest()) {
            Ok(block) => Ok(block),
            Err(refusal) => Err(refusal),
        }
    }

    /// Parses the next block of a pcapng capture, in a section of this byte order, without advancing past it. Returns
    /// `None` if the block is rejected.
    #[inline(always)]
    fn parse_next_block(&self, order: ByteOrder) -> Option<Block>
        requires { self.now.state ≡ State.Blocks order }
        ensures { IfSome result (ReadsBlock self.now order) }
    {
        Block::parse_complete(order, self.interfaces.as_slice(), self.rest())
    }

    /// Advances past a pcapng block that was parsed, and stores the interface or the position of the packet that it
    /// contains.
    #[inline(always)]
    fn read_block(&mut self, block: Block) -> Result<Advance, CaptureError>
        requires { (order : ByteOrder) × ReadsBlock self.old order block }
        ensures { Answers self.old self.new result }
    {
        let start = self.end + Block::HEADER_LEN;
        self.end += block.len;
        self.offset += block.len as u64;
        self.state = State::Blocks(block.order);
        match block.content {
            Content::Section => {
                self.interfaces.clear();
                Ok(Advance::Other)
            }
            Content::Interface(interface) => {
                self.interfaces.push_reserved(interface);
                Ok(Advance::Other)
            }
            Content::Packet(packet) => {
                self.start = start + packet.start;
                self.last = self.start + packet.kept;
                self.known = packet.known;
                Ok(Advance::Packet)
            }
            Content::Other => Ok(Advance::Other),
        }
    }

    /// Reads the next block of a pcapng capture, in a section of this byte order, and advances past it.
    fn advance_block(&mut self, order: ByteOrder) -> Result<Advance, CaptureError>
        requires { ReadsBlocks self.old order }
        ensures { Answers self.old self.new result }
    {
        match self.next_block(order) {
            Ok(block) => self.read_block(block),
            Err(refusal) => self.refuse(refusal),
        }
    }

    /// Reads the type and the length of a pcapng block longer than 320 KiB, whose content is then skipped in parts.
    fn read_long_header(&mut self, order: ByteOrder) -> Result<Advance, CaptureError>
        requires blocks { self.old.state ≡ State.Blocks order }
        requires long { begins_long order (reader_rest self.old) ≡ true }
        ensures { Answers self.old self.new result }
    {
        match parse_long_len(order, self.rest()) {
            Ok(len) => {
                self.end += Block::HEADER_LEN;
                self.offset += Block::HEADER_LEN as u64;
                self.state = State::Inside {
                    order,
                    len,
                    left: len - 12,
                };
                Ok(Advance::Other)
            }
            Err(refusal) => self.refuse(refusal),
        }
    }

    /// Skips up to 64 KiB of a long pcapng block; `left` bytes of it are still to be skipped before its trailing length
    /// field.
    fn skip_long_body(
        &mut self,
        order: ByteOrder,
        len: u32,
        left: u32,
    ) -> Result<Advance, CaptureError>
        requires inside { self.old.state ≡ State.Inside order len left }
        requires some { 0 < left }
        ensures { Answers self.old self.new result }
    {
        let wanted = left.min(MOST_STRETCH);
        let available = self.rest().len();
        if available < wanted as usize {
            return self.refuse(Refusal::Cut {
                required_len: wanted as usize,
                len: available,
            });
        }
        self.end += wanted as usize;
        self.offset += wanted as u64;
        self.state = State::Inside {
            order,
            len,
            left: left - wanted,
        };
        Ok(Advance::Other)
    }

    /// Reads the trailing length field of a long pcapng block, which has to be equal to `len`, and advances past it.
    fn read_trailing_len(&mut self, order: ByteOrder, len: u32) -> Result<Advance, CaptureError>
        requires { self.old.state ≡ State.Inside order len 0 }
        ensures { Answers self.old self.new result }
    {
        match check_trailing_len(order, len, self.rest()) {
            Ok(()) => {
                self.end += 4;
                self.offset += 4;
                self.state = State::Blocks(order);
                Ok(Advance::Other)
            }
            Err(refusal) => self.refuse(refusal),
        }
    }

    /// Returns the result of `advance` if the next bytes of the capture are rejected: `Advance::Cut` if bytes are
    /// missing, otherwise an error. Both have the current offset.
    fn refuse(&self, refusal: Refusal) -> Result<Advance, CaptureError>
        ensures { result ≡ refused_at (reader_offset self.now) refusal }
    {
        let error = CaptureError {
            offset: self.offset,
            refusal,
        };
        match refusal {
            Refusal::Cut { .. } => Ok(Advance::Cut(error)),
            _ => Err(error),
        }
    }

    /// File header of a pcap capture, once the reader has read it; `None` for a pcapng capture.
    pub fn heading(&self) -> Option<Heading>
        ensures { result ≡ heading_in (reader_stage self.now) }
    {
        match self.state {
            State::Records(heading) => Some(heading),
            State::Start | State::Blocks(_) | State::Inside { .. } => None,
        }
    }

    /// The packet that `advance` read last, with the timestamp of its record header, in a pcap capture. (For both formats:
    /// `shown`.)
    #[inline]
    pub fn packet(&self) -> Packet<'_>
        ensures { packet_of result ≡ reader_packet self.now }
    {
        Packet {
            seconds: self.record.seconds,
            fraction: self.record.fraction,
            original_len: self.record.original_len,
            bytes: &self.buffer.as_slice()[self.start..self.last],
        }
    }

    /// The packet that `advance` read last, of a pcap or pcapng capture; empty before the first packet.
    #[inline]
    pub fn shown(&self) -> Shown<'_>
        ensures { shown_of result ≡ reader_shown self.now }
    {
        Shown {
            link_type: self.known.link_type,
            interface: self.known.interface,
            time: self.known.time,
            original_len: self.known.original_len,
            bytes: &self.buffer.as_slice()[self.start..self.last],
        }
    }
}

/// Returns true if `bytes` begin with the block type of a pcapng Section Header Block.
fn begins_section(bytes: &[u8]) -> bool
    ensures { result ≡ begins_section bytes.now }
{
    bytes.len() >= 4 && ByteOrder::Big.word32(bytes, 0) == SECTION
}

/// Overwrites the bytes just before index `end` of a vector with `part`.
fn write_before(bytes: &mut Vec<u8>, end: usize, part: &[u8])
    requires part { length part.now ≤ end }
    requires within { end ≤ vec_len bytes.old }
    ensures items { bytes.new.items
        ≡ take (end - length part.now) bytes.old.items ++ (part.now ++ drop end bytes.old.items) }
    ensures len { vec_len bytes.new ≡ vec_len bytes.old }
    ensures capacity { vec_capacity bytes.new ≡ vec_capacity bytes.old }
{
    bytes.as_mut_slice()[end - part.len()..end].copy_from_slice(part);
}

/// Removes the first `count` bytes of a vector, and moves the others to the start.
fn remove_prefix(bytes: &mut Vec<u8>, count: usize)
    requires { count ≤ vec_len bytes.old }
    ensures items { bytes.new.items ≡ drop count bytes.old.items }
    ensures len { vec_len bytes.new + count ≡ vec_len bytes.old }
    ensures capacity { vec_capacity bytes.new ≡ vec_capacity bytes.old }
{
    if count == 0 {
        return;
    }
    let len = bytes.len();
    let left = len - count;
    // Ranges that don't overlap are copied by one call of the C library, which is faster than a loop.
    if left <= count {
        let (read, kept) = bytes.as_mut_slice().split_at_mut(count);
        read[..left].copy_from_slice(kept);
    } else {
        bytes.copy_within(count..len, 0);
    }
    bytes.truncate(left);
}
