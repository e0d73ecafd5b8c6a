//! Blocks of pcapng captures.

ghost use Rattle.std.specs.Prelude.{◌≡◌, ◌≤◌, ◌+◌, ◌-◌, false, List, None, IfErr, IfNone, IfOk, IfSome, OnSome, drop, length};
ghost use Rattle.std.specs.Prelude.{slice_range};
ghost use Rattle.ep_base.specs.Tables.{Refuses, first_row};
ghost use Rattle.capture_reader.specs.Blocks.{BeginsNoBlock, IsBlock, RefusesBlock, block_in, body_rows, kept_of, kept_rows, kind_in};
ghost use Rattle.capture_reader.specs.Blocks.{is_other, kind_of, known_order, knows_minor, min_len, byte_order_of_magic, section_after};
ghost use Rattle.capture_reader.specs.Captures.{begins_long, block_shown};
ghost use Rattle.capture_reader.specs.BlockContents.{FitsLen, HasContent, IsFramed, content_interfaces, content_shown};
ghost use Rattle.capture_reader.specs.BlockContents.{section_of, timed_known};

use crate::byte_order::ByteOrder;
use crate::interface::{Interface, padding_of};
use crate::packet::MOST_KEPT;
use crate::refusal::Refusal;
use crate::shown::{Known, Time};

/// Block type of a pcapng Section Header Block, which reads alike in both byte orders.
pub(crate) const SECTION: u32 = 0x0a0d_0d0a;

/// Maximum length of a pcapng block that is read as a whole: 327,680 bytes (320 KiB).
pub(crate) const MOST_BLOCK: u32 = 327_680;

/// Maximum number of interfaces that a pcapng section may describe.
const MOST_INTERFACES: usize = 65_536;

/// Kind of a pcapng block, as its block type states it.
#[derive(Clone, Copy, Debug, PartialEq, Eq)]
pub enum BlockKind {
    /// Section Header Block (type 0x0a0d0d0a): the start of a pcapng section.
    SectionHeader,
    /// Interface Description Block (pcapng block type 1).
    InterfaceDescription,
    /// Simple Packet Block (pcapng block type 3): a packet of the section's first interface, without a timestamp.
    SimplePacket,
    /// Enhanced Packet Block (pcapng block type 6): a packet with its interface and timestamp.
    EnhancedPacket,
    /// Packet Block (pcapng block type 2), the obsolete form that Enhanced Packet Blocks replace.
    ObsoletePacket,
    /// A pcapng block of any other type; its content is skipped.
    Other,
}

impl BlockKind {
    /// Returns true if the content of pcapng blocks of this kind is skipped.
    pub(crate) fn is_other(self) -> bool
        ensures { result ≡ is_other self }
    {
        matches!(self, BlockKind::Other)
    }
}

/// A packet within a pcapng block: its properties, and where its bytes are in the block's body.
#[derive(Clone, Copy, Debug)]
pub struct BlockPacket {
    /// Link type, interface, timestamp and original length of the packet in a pcapng block.
    pub known: Known,
    /// Offset of the packet's first byte in the body of its pcapng block.
    pub start: usize,
    /// Number of captured bytes of the packet in a pcapng block.
    pub kept: usize,
}

/// Content of a pcapng block, as far as a capture reader needs it.
#[derive(Clone, Copy, Debug)]
pub enum Content {
    /// The block is a Section Header Block: a pcapng section starts, without interfaces so far.
    Section,
    /// The block describes an interface, which gets the next number of its pcapng section.
    Interface(Interface),
    /// The pcapng block contains a packet.
    Packet(BlockPacket),
    /// The pcapng block is of a type that is skipped.
    Other,
}

/// A complete pcapng block: byte order, length and parsed content.
#[derive(Clone, Copy, Debug)]
pub struct Block {
    /// Byte order of the numbers in a pcapng block: that of its section.
    pub order: ByteOrder,
    /// Length of a pcapng block in bytes, including its type and both length fields.
    pub len: usize,
    /// Parsed content of a pcapng block.
    pub content: Content,
}

impl Block {
    /// Number of bytes before the body of a pcapng block: 8, its type and its length field.
    pub const HEADER_LEN: usize = 8;

    /// Parses the pcapng block at the start of `bytes`. `order` is the byte order of the current section, and
    /// `interfaces` are the interfaces that the section has described so far. A Section Header Block starts a new
    /// section: its own byte-order magic is used instead of `order`.
    pub fn from_slice(
        order: ByteOrder,
        interfaces: &[Interface],
        bytes: &[u8],
    ) -> Result<Block, Refusal>
        ensures ok { IfOk result (λ one. let section = section_of order interfaces.now in
            IsBlock section bytes.now (block_in section bytes.now, drop one.len bytes.now)) }
        ensures within { IfOk result (λ one. one.len ≤ length bytes.now) }
        ensures least { IfOk result (λ one. 12 ≤ one.len) }
        ensures fits { IfOk result (λ one. FitsLen one.content one.len) }
        ensures after { IfOk result (λ one. let section = section_of order interfaces.now in
            section_after section (block_in section bytes.now)
            ≡ section_of one.order (content_interfaces interfaces.now one.content)) }
        ensures shown { IfOk result (λ one. let section = section_of order interfaces.now in
            block_shown interfaces.now (block_in section bytes.now)
            ≡ content_shown (slice_range bytes.now 8 (one.len - 4)) one.content) }
        ensures err { IfErr result (RefusesBlock (section_of order interfaces.now) bytes.now) }
    {
        match Framing::from_slice(order, bytes) {
            Ok(framing) => {
                let body = &bytes[8..framing.len as usize - 4];
                match framing.content(interfaces, body) {
                    Ok(content) => Ok(Block {
                        order: framing.order,
                        len: framing.len as usize,
                        content,
                    }),
                    Err(refusal) => Err(refusal),
                }
            }
            Err(refusal) => Err(refusal),
        }
    }

    /// Parses the pcapng block at the start of `bytes`; returns `None` if it is rejected. Each kind of block is parsed
    /// by its own inlined call, so that the compiler specializes it.
    #[inline(always)]
    pub(crate) fn parse_complete(
        order: ByteOrder,
        interfaces: &[Interface],
        bytes: &[u8],
    ) -> Option<Block>
        ensures short { OnSome result (begins_long order bytes.now ≡ false) }
        ensures ok { IfSome result (λ one. let section = section_of order interfaces.now in
            IsBlock section bytes.now (block_in section bytes.now, drop one.len bytes.now)) }
        ensures within { IfSome result (λ one. one.len ≤ length bytes.now) }
        ensures least { IfSome result (λ one. 12 ≤ one.len) }
        ensures fits { IfSome result (λ one. FitsLen one.content one.len) }
        ensures after { IfSome result (λ one. let section = section_of order interfaces.now in
            section_after section (block_in section bytes.now)
            ≡ section_of one.order (content_interfaces interfaces.now one.content)) }
        ensures shown { IfSome result (λ one. let section = section_of order interfaces.now in
            block_shown interfaces.now (block_in section bytes.now)
            ≡ content_shown (slice_range bytes.now 8 (one.len - 4)) one.content) }
        ensures none { IfNone result (BeginsNoBlock (section_of order interfaces.now) bytes.now) }
    {
        if bytes.len() < 12 {
            return None;
        }
        match kind_of(order.word32(bytes, 0)) {
            BlockKind::EnhancedPacket => {
                Block::of_kind(order, BlockKind::EnhancedPacket, interfaces, bytes)
            }
            BlockKind::SimplePacket => {
                Block::of_kind(order, BlockKind::SimplePacket, interfaces, bytes)
            }
            BlockKind::ObsoletePacket => {
                Block::of_kind(order, BlockKind::ObsoletePacket, interfaces, bytes)
            }
            BlockKind::Other => Block::of_kind(order, BlockKind::Other, interfaces, bytes),
            BlockKind::InterfaceDescription => {
                Block::of_kind(order, BlockKind::InterfaceDescription, interfaces, bytes)
            }
            BlockKind::SectionHeader => {
                Block::of_kind(order, BlockKind::SectionHeader, interfaces, bytes)
            }
        }
    }

    /// Parses the pcapng block at the start of `bytes`, whose type is already known to be `kind`; returns `None` if it
    /// is rejected.
    #[inline(always)]
    fn of_kind(
        order: ByteOrder,
        kind: BlockKind,
        interfaces: &[Interface],
        bytes: &[u8],
    ) -> Option<Block>
        requires long { 12 ≤ length bytes.now }
        requires kind { kind ≡ kind_in order bytes.now }
        ensures short { OnSome result (begins_long order bytes.now ≡ false) }
        ensures ok { IfSome result (λ one. let section = section_of order interfaces.now in
            IsBlock section bytes.now (block_in section bytes.now, drop one.len bytes.now)) }
        ensures within { IfSome result (λ one. one.len ≤ length bytes.now) }
        ensures least { IfSome result (λ one. 12 ≤ one.len) }
        ensures fits { IfSome result (λ one. FitsLen one.content one.len) }
        ensures after { IfSome result (λ one. let section = section_of order interfaces.now in
            section_after section (block_in section bytes.now)
            ≡ section_of one.order (content_interfaces interfaces.now one.content)) }
        ensures shown { IfSome result (λ one. let section = section_of order interfaces.now in
            block_shown interfaces.now (block_in section bytes.now)
            ≡ content_shown (slice_range bytes.now 8 (one.len - 4)) one.content) }
        ensures none { IfNone result (BeginsNoBlock (section_of order interfaces.now) bytes.now) }
    {
        let Ok(framing) = Framing::of_kind(order, kind, bytes) else {
            return None;
        };
        let body = &bytes[8..framing.len as usize - 4];
        let Ok(content) = framing.content(interfaces, body) else {
            return None;
        };
        Some(Block {
            order: framing.order,
            len: framing.len as usize,
            content,
        })
    }
}

/// Framing of a pcapng block: byte order, kind and length, without its body.
#[derive(Clone, Copy)]
struct Framing {
    order: ByteOrder,
    kind: BlockKind,
    /// Length of a pcapng block in bytes, including its type and both length fields.
    len: u32,
}

impl Framing {
    /// Parses type and length fields of the complete pcapng block at the start of `bytes`, in a section of this byte
    /// order. Returns an error if the byte-order magic or a length field is invalid, or bytes are missing.
    fn from_slice(order: ByteOrder, bytes: &[u8]) -> Result<Framing, Refusal>
        ensures ok { IfOk result (λ framing. IsFramed order bytes.now framing) }
        ensures err { IfErr result (λ error. (interfaces : List Interface) →
            RefusesBlock (section_of order interfaces) bytes.now error) }
    {
        if bytes.len() < 12 {
            return Err(Refusal::Cut {
                required_len: 12,
                len: bytes.len(),
            });
        }
        Framing::of_kind(order, kind_of(order.word32(bytes, 0)), bytes)
    }

    /// Parses the length fields of the pcapng block at the start of `bytes`, whose type is already known to be `kind`.
    /// Returns an error if the byte-order magic or a length field is invalid, or bytes are missing.
    #[inline(always)]
    fn of_kind(order: ByteOrder, kind: BlockKind, bytes: &[u8]) -> Result<Framing, Refusal>
        requires long { 12 ≤ length bytes.now }
        requires kind { kind ≡ kind_in order bytes.now }
        ensures ok { IfOk result (λ framing. IsFramed order bytes.now framing) }
        ensures err { IfErr result (λ error. (interfaces : List Interface) →
            RefusesBlock (section_of order interfaces) bytes.now error) }
    {
        let magic = ByteOrder::Big.word32(bytes, 8);
        let Some(order) = known_order(order, kind, magic) else {
            return Err(Refusal::UnknownByteOrder { magic });
        };
        let len = order.word32(bytes, 4);
        if len < min_len(kind) || len % 4 != 0 {
            return Err(Refusal::BlockLength { len });
        }
        if len > MOST_BLOCK {
            return Err(Refusal::BlockTooLong { len });
        }
        if bytes.len() < len as usize {
            return Err(Refusal::Cut {
                required_len: len as usize,
                len: bytes.len(),
            });
        }
        let trailing = order.word32(bytes, len as usize - 4);
        if trailing != len {
            return Err(Refusal::TrailingLength { len, trailing });
        }
        Ok(Framing { order, kind, len })
    }

    /// Parses the body of a pcapng block (between its length fields), as its kind requires. `interfaces` are those that
    /// the section has described so far.
    #[inline(always)]
    fn content(&self, interfaces: &[Interface], body: &[u8]) -> Result<Content, Refusal>
        requires { min_len self.now.kind ≤ 12 + length body.now }
        ensures ok { IfOk result (HasContent interfaces.now self.now.order self.now.kind self.now.len body.now) }
        ensures err { IfErr result (Refuses (body_rows interfaces.now self.now.order self.now.kind self.now.len
            body.now)) }
    {
        match self.kind {
            BlockKind::SectionHeader => self.section(interfaces, body),
            BlockKind::InterfaceDescription => self.interface(interfaces, body),
            BlockKind::SimplePacket => self.simple(interfaces, body),
            BlockKind::EnhancedPacket => self.enhanced(interfaces, body),
            BlockKind::ObsoletePacket => self.obsolete(interfaces, body),
            BlockKind::Other => Ok(Content::Other),
        }
    }

    /// Checks the version in the body of a pcapng Section Header Block: it has to be 1.0 or 1.2.
    fn section(&self, interfaces: &[Interface], body: &[u8]) -> Result<Content, Refusal>
        requires { 16 ≤ length body.now }
        ensures ok { IfOk result (HasContent interfaces.now self.now.order BlockKind.SectionHeader self.now.len
            body.now) }
        ensures err { IfErr result (Refuses (body_rows interfaces.now self.now.order BlockKind.SectionHeader
            self.now.len body.now)) }
    {
        let major = self.order.word16(body, 4);
        let minor = self.order.word16(body, 6);
        if major != 1 || !knows_minor(minor) {
            return Err(Refusal::UnsupportedVersion { major, minor });
        }
        Ok(Content::Section)
    }

    /// Parses the body of a pcapng Interface Description Block. Returns an error if the section already has 65,536
    /// interfaces.
    fn interface(&self, interfaces: &[Interface], body: &[u8]) -> Result<Content, Refusal>
        requires { 8 ≤ length body.now }
        ensures ok { IfOk result (HasContent interfaces.now self.now.order BlockKind.InterfaceDescription self.now.len
            body.now) }
        ensures err { IfErr result (Refuses (body_rows interfaces.now self.now.order BlockKind.InterfaceDescription
            self.now.len body.now)) }
    {
        if interfaces.len() >= MOST_INTERFACES {
            return Err(Refusal::TooManyInterfaces);
        }
        match Interface::from_body(self.order, body) {
            Ok(about) => Ok(Content::Interface(about)),
            Err(refusal) => Err(refusal),
        }
    }

    /// Parses the body of a pcapng Simple Packet Block, whose packet belongs to the section's first interface.
    #[inline(always)]
    fn simple(&self, interfaces: &[Interface], body: &[u8]) -> Result<Content, Refusal>
        requires { 4 ≤ length body.now }
        ensures ok { IfOk result (HasContent interfaces.now self.now.order BlockKind.SimplePacket self.now.len
            body.now) }
        ensures err { IfErr result (Refuses (body_rows interfaces.now self.now.order BlockKind.SimplePacket
            self.now.len body.now)) }
    {
        if interfaces.is_empty() {
            return Err(Refusal::UndescribedInterface { interface: 0 });
        }
        let about = interfaces[0];
        let original_len = self.order.word32(body, 0);
        let kept = captured_len_of_simple(about.snap_len, original_len);
        let known = Known {
            link_type: about.link_type,
            interface: Some(0),
            time: None,
            original_len,
        };
        self.packet(known, 4, kept, body)
    }

    /// Parses the body of a pcapng Enhanced Packet Block. Returns an error if its interface was not described.
    #[inline(always)]
    fn enhanced(&self, interfaces: &[Interface], body: &[u8]) -> Result<Content, Refusal>
        requires { 20 ≤ length body.now }
        ensures ok { IfOk result (HasContent interfaces.now self.now.order BlockKind.EnhancedPacket self.now.len
            body.now) }
        ensures err { IfErr result (Refuses (body_rows interfaces.now self.now.order BlockKind.EnhancedPacket
            self.now.len body.now)) }
    {
        let number = self.order.word32(body, 0);
        if number as usize >= interfaces.len() {
            return Err(Refusal::UndescribedInterface { interface: number });
        }
        let about = interfaces[number as usize];
        let kept = self.order.word32(body, 12);
        self.packet(self.timed(number, about, body), 20, kept, body)
    }

    /// Parses the body of an obsolete pcapng Packet Block (type 2): its interface number has two bytes, and a two-byte
    /// count of dropped packets follows.
    #[inline(always)]
    fn obsolete(&self, interfaces: &[Interface], body: &[u8]) -> Result<Content, Refusal>
        requires { 20 ≤ length body.now }
        ensures ok { IfOk result (HasContent interfaces.now self.now.order BlockKind.ObsoletePacket self.now.len
            body.now) }
        ensures err { IfErr result (Refuses (body_rows interfaces.now self.now.order BlockKind.ObsoletePacket
            self.now.len body.now)) }
    {
        let number = self.order.word16(body, 0);
        if usize::from(number) >= interfaces.len() {
            return Err(Refusal::UndescribedInterface {
                interface: u32::from(number),
            });
        }
        let about = interfaces[usize::from(number)];
        let kept = self.order.word32(body, 12);
        self.packet(self.timed(u32::from(number), about, body), 20, kept, body)
    }

    /// Returns link type, interface, timestamp and original length of the packet in `body`, the body of an Enhanced or
    /// obsolete Packet Block. The timestamp is at byte 4, its upper half first, and the original length at byte 16.
    #[inline(always)]
    fn timed(&self, number: u32, about: Interface, body: &[u8]) -> Known
        requires { 20 ≤ length body.now }
        ensures { result ≡ timed_known self.now.order number about body.now }
    {
        let high = self.order.word32(body, 4);
        let low = self.order.word32(body, 8);
        Known {
            link_type: about.link_type,
            interface: Some(number),
            time: Some(Time {
                ticks: high as u64 * 0x1_0000_0000 + low as u64,
                per_second: about.per_second,
                offset: about.offset,
            }),
            original_len: self.order.word32(body, 16),
        }
    }

    /// Returns the packet that starts at byte `start` of a pcapng block's body and has `kept` captured bytes. Returns
    /// an error if `kept` is above 256 KiB, or if the body is too short for the captured bytes and their padding.
    #[inline(always)]
    fn packet(&self, known: Known, start: usize, kept: u32, body: &[u8]) -> Result<Content, Refusal>
        requires { start ≤ 20 }
        ensures none { IfOk result (λ content. first_row (kept_rows self.now.len start kept (length body.now)) ≡ None) }
        ensures ok { IfOk result (λ content. content
            ≡ Content.Packet (record { known = known; start = start; kept = kept })) }
        ensures err { IfErr result (Refuses (kept_rows self.now.len start kept (length body.now))) }
    {
        if kept > MOST_KEPT {
            return Err(Refusal::PacketTooLong { len: kept });
        }
        let kept = kept as usize;
        if body.len() < start + kept + padding_of(kept) {
            return Err(Refusal::BlockLength { len: self.len });
        }
        Ok(Content::Packet(BlockPacket { known, start, kept }))
    }
}

/// Returns the number of captured bytes of a Simple Packet Block: the packet's original length, but at most the snap
/// length `most` of its interface (0: no limit).
fn captured_len_of_simple(most: u32, original_len: u32) -> u32
    ensures { result ≡ kept_of most original_len }
{
    if most != 0 && most < original_len {
        most
    } else {
        original_len
    }
}

/// Returns true for the supported minor versions of a pcapng section: 0, and 2, which is read as 0.
fn knows_minor(minor: u16) -> bool
    ensures { result ≡ knows_minor minor }
{
    minor == 0 || minor == 2
}

/// Returns the kind of a pcapng block whose block type is `number`.
pub(crate) fn kind_of(number: u32) -> BlockKind
    ensures { result ≡ kind_of number }
{
    match number {
        SECTION => BlockKind::SectionHeader,
        1 => BlockKind::InterfaceDescription,
        2 => BlockKind::ObsoletePacket,
        3 => BlockKind::SimplePacket,
        6 => BlockKind::EnhancedPacket,
        _ => BlockKind::Other,
    }
}

/// Returns the byte order of a pcapng block. A section header states it in its byte-order magic (`None` if that is
/// unknown); any other block has `before`, the byte order of its section.
fn known_order(before: ByteOrder, kind: BlockKind, magic: u32) -> Option<ByteOrder>
    ensures { result ≡ known_order before kind magic }
{
    match kind {
        BlockKind::SectionHeader => byte_order_of_magic(magic),
        _ => Some(before),
    }
}

/// Returns the byte order that the byte-order magic of a pcapng section header states, or `None` if it is unknown.
/// `magic` was read as a big endian number.
fn byte_order_of_magic(magic: u32) -> Option<ByteOrder>
    ensures { result ≡ byte_order_of_magic magic }
{
    match magic {
        0x1a2b_3c4d => Some(ByteOrder::Big),
        0x4d3c_2b1a => Some(ByteOrder::Little),
        _ => None,
    }
}

/// Returns the minimum length of a pcapng block of this kind, in bytes, including its type and both length fields.
fn min_len(kind: BlockKind) -> u32
    ensures { result ≡ min_len kind }
{
    match kind {
        BlockKind::SectionHeader => 28,
        BlockKind::InterfaceDescription => 20,
        BlockKind::SimplePacket => 16,
        BlockKind::EnhancedPacket | BlockKind::ObsoletePacket => 32,
        BlockKind::Other => 12,
    }
}
