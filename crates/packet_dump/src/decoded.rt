//! Packets of a capture, each decoded once: what its line, its counts and its copy in a capture file depend on.

ghost use Rattle.std.specs.Prelude.{◌≡◌, false, if◌then◌else◌, is_some, ℕ, List, None, Some};
ghost use Rattle.std.specs.Option.{option_map};
ghost use Rattle.etherparse.specs.Bytes.{AreBytes};
ghost use Rattle.etherparse.specs.Lax.{IsLax};
ghost use Rattle.etherparse.specs.LaxPackets.{lax_layers_of};
ghost use Rattle.etherparse.specs.LaxViews.{lax_extensions_of, lax_net_layer_of};
ghost use Rattle.etherparse.specs.LinkSlices.{link_layer_of};
ghost use Rattle.etherparse.specs.StrictFrames.{layers_in};
ghost use Rattle.packet_dump.specs.DecodedPackets.{HasFrameAfter};
ghost use Rattle.packet_dump.specs.Decoding.{IsDecodedBy, IsParsedAfter, IsParsedBy, content_by, content_in};
ghost use Rattle.link_types.specs.Openings.{read_bytes};
ghost use Rattle.link_types.specs.declared.openings.Opening.{Opening};
ghost use Rattle.packet_dump.specs.PacketContents.{HoldsStrictly, content_with, has_extensions, has_header, has_layer};
ghost use Rattle.packet_dump.specs.PacketContents.{shown_bytes};
ghost use Rattle.packet_dump.specs.Summaries.{has_cooked};

use crate::dump_options::DumpOptions;
use capture_reader::Shown;
use etherparse::err::packet::SliceError;
use etherparse::laws::lax::{lax, stops, strict_frames};
use etherparse::{LaxLinkExtSlice, LaxNetSlice, LaxSlicedPacket, LinkSlice, SlicedPacket};
use link_types::{Opening, opening_of};

/// A packet of a capture, with its number and the timestamps that its line depends on.
#[derive(Clone, Copy)]
pub struct CapturedPacket<'a> {
    /// Number of the packet in the capture, counted from 1.
    pub number: u64,
    /// Timestamp of the first packet of the capture that has one, in nanoseconds since 2^63 seconds before 1970;
    /// relative times count from it.
    pub first: Option<u128>,
    /// Timestamp of the packet, or of the last packet before it that has one, in nanoseconds since 2^63 seconds before
    /// 1970; 0 if none has.
    pub latest: u128,
    /// The packet: its bytes, link type, timestamp and original length.
    pub shown: Shown<'a>,
}

/// Outcome of decoding a packet.
#[derive(Drop)]
pub enum Outcome {
    /// The link type or the link header is not supported, so the packet is not parsed.
    Unsupported,
    /// The packet has no valid layer or, with `--strict`, is not a complete, valid frame. The error says why.
    Refused(SliceError),
    /// The packet has valid layers.
    Layers,
}

/// A packet of a capture, decoded: what its line, its counts and its copy in a capture file depend on.
#[derive(Drop)]
pub struct Decoded<'a> {
    /// The packet as the capture has it.
    pub captured: CapturedPacket<'a>,
    /// Start of parsing in the packet; `None` if its link type or link header is not supported.
    pub opening: Option<Opening>,
    /// Whether the packet has valid layers, or why it has none.
    pub outcome: Outcome,
    /// Layers of the packet by lax slicing, if the outcome is `Layers`.
    pub read: LaxSlicedPacket<'a>,
    /// True if strict slicing accepts the packet. Always false without `--reassemble`, which passes only such packets
    /// to the reassembly pool.
    pub is_frame: bool,
    /// True if `--only` and the filter select the packet.
    pub is_selected: bool,
}

impl<'a> Decoded<'a> {
    /// Returns a packet that is not decoded yet.
    #[inline(always)]
    pub fn new(captured: CapturedPacket<'a>) -> Decoded<'a>
        ensures { result.captured ≡ captured.entry }
    {
        Decoded {
            captured,
            opening: None,
            outcome: Outcome::Unsupported,
            read: LaxSlicedPacket::new(),
            is_frame: false,
            is_selected: false,
        }
    }

    /// Decodes the packet, and tests whether `--only` and the filter select it. Slices its bytes laxly, and strictly
    /// only with `--strict`, for the error of a packet that strict slicing rejects.
    pub fn decode(&mut self, options: &DumpOptions)
        ensures decoded { IsDecodedBy options.now self.new }
        ensures captured { self.new.captured ≡ self.old.captured }
    {
        let bytes = self.parse(options);
        self.is_selected = options.selects(self, bytes);
    }

    /// Finds where parsing starts, and slices the bytes from there. Returns them; all bytes if the link type or link
    /// header is not supported.
    #[inline(always)]
    fn parse(&mut self, options: &DumpOptions) -> &'a [u8]
        ensures parsed { IsParsedBy options.now self.new }
        ensures captured { self.new.captured ≡ self.old.captured }
        ensures bytes { result.now
            ≡ read_bytes self.old.captured.shown.link_type self.old.captured.shown.bytes.now }
    {
        let bytes = self.captured.shown.bytes;
        let found = opening_of(self.captured.shown.link_type, bytes);
        self.opening = found;
        match found {
            Some(opening) => {
                let read = &bytes[opening.skipped..];
                self.parse_after(options, opening, read);
                read
            }
            None => {
                self.outcome = Outcome::Unsupported;
                self.is_frame = false;
                bytes
            }
        }
    }

    /// Slices `bytes`, the packet from where parsing starts.
    #[inline(always)]
    fn parse_after(&mut self, options: &DumpOptions, opening: Opening, bytes: &'a [u8])
        ensures parsed { IsParsedAfter options.now opening bytes.now self.new }
        ensures captured { self.new.captured ≡ self.old.captured }
        ensures opening { self.new.opening ≡ self.old.opening }
    {
        stops();
        match self.read.slice_into(opening.entry, bytes) {
            Ok(()) => {
                self.is_frame = is_wanted_frame(options.reassemble, &self.read);
                if options.strict {
                    self.outcome = strict_outcome(&self.read, opening, bytes);
                } else {
                    self.outcome = lax_outcome(&mut self.read, opening);
                }
            }
            Err(error) => {
                self.outcome = Outcome::Refused(error);
                self.is_frame = false;
            }
        }
    }

    /// Returns whether the packet starts with a Linux cooked capture header that the library does not parse.
    pub fn is_cooked(&self) -> bool
        ensures { result ≡ has_cooked self.now.opening }
    {
        match self.opening {
            Some(opening) => opening.is_cooked(),
            None => false,
        }
    }

    /// Returns the bytes of the packet for its hex dump: all of them if `whole` (`--hex=frame`) or if it has no valid
    /// layer, else the payload of its last layer.
    pub fn dumped_bytes(&self, whole: bool) -> &'a [u8]
        ensures { result.now ≡ shown_bytes whole (content_in self.now) self.now.captured.shown.bytes.now }
    {
        match &self.outcome {
            Outcome::Layers => {
                if whole {
                    self.captured.shown.bytes
                } else {
                    self.read.payload()
                }
            }
            Outcome::Refused(_) | Outcome::Unsupported => self.captured.shown.bytes,
        }
    }
}

/// Returns whether strict slicing accepts a packet that lax slicing read, if that is wanted, else false.
#[inline(always)]
fn is_wanted_frame(wanted: bool, read: &LaxSlicedPacket<'_>) -> bool
    ensures { (opening : Opening) (bytes : List ℕ) → AreBytes bytes → IsLax opening.entry bytes (lax_layers_of read.now)
        → HasFrameAfter wanted opening bytes (if result then Some (layers_in (lax_layers_of read.now)) else None) }
{
    if wanted { read.is_frame() } else { false }
}

/// Returns the outcome with `--strict` of a packet that lax slicing accepts: its layers if strict slicing accepts it,
/// else the error of strict slicing. `bytes` is the packet from where parsing starts. It is sliced strictly only if
/// `is_frame` returns false, so strict slicing always returns an error here.
fn strict_outcome(read: &LaxSlicedPacket<'_>, opening: Opening, bytes: &[u8]) -> Outcome
    requires { IsLax opening.entry bytes.now (lax_layers_of read.now) }
    ensures { (link : ℕ) → HoldsStrictly opening bytes.now (content_by result link (lax_layers_of read.now)) }
{
    strict_frames();
    lax();
    if read.is_frame() {
        return Outcome::Layers;
    }
    let mut sliced = SlicedPacket::new();
    match sliced.slice_into(opening.entry, bytes) {
        Ok(()) => Outcome::Layers,
        Err(error) => Outcome::Refused(error),
    }
}

/// Returns the outcome without `--strict` of a packet that lax slicing accepts: its valid layers, or only the error at
/// which slicing stopped if there are none. The error is moved out of the packet.
#[inline(always)]
fn lax_outcome(read: &mut LaxSlicedPacket<'_>, opening: Opening) -> Outcome
    ensures content { (link : ℕ) → content_by result link (lax_layers_of read.new)
        ≡ content_with opening (lax_layers_of read.old) }
    ensures read { result ≡ Outcome.Layers → read.new ≡ read.old }
    ensures layers { layers_in (lax_layers_of read.new) ≡ layers_in (lax_layers_of read.old) }
{
    if has_layer(opening, read) {
        return Outcome::Layers;
    }
    match read.stop_err.take() {
        Some((error, _)) => Outcome::Refused(error),
        None => Outcome::Layers,
    }
}

/// Returns whether a laxly sliced packet has a valid layer: a link header (Ethernet II or Linux cooked capture), a VLAN
/// or MACsec tag, or a network layer. A BSD loopback header does not count.
fn has_layer(opening: Opening, read: &LaxSlicedPacket<'_>) -> bool
    ensures { result ≡ has_layer opening (lax_layers_of read.now) }
{
    opening.is_cooked()
        || has_header(&read.link)
        || has_extensions(read.link_exts.as_slice())
        || has_net(&read.net)
}

/// Returns whether a packet has a valid network layer (IP or ARP).
fn has_net(net: &Option<LaxNetSlice<'_>>) -> bool
    ensures { result ≡ is_some (option_map lax_net_layer_of net.now) }
{
    match net {
        Some(_) => true,
        None => false,
    }
}

/// Returns whether a packet has a link header (Ethernet II or Linux cooked capture).
fn has_header(link: &Option<LinkSlice<'_>>) -> bool
    ensures { result ≡ has_header (option_map link_layer_of link.now) }
{
    match link {
        Some(LinkSlice::Ethernet2(_) | LinkSlice::LinuxSll(_)) => true,
        Some(LinkSlice::EtherPayload(_) | LinkSlice::LinuxSllPayload(_)) | None => false,
    }
}

/// Returns whether a packet has any VLAN or MACsec tag.
fn has_extensions(extensions: &[LaxLinkExtSlice<'_>]) -> bool
    ensures { result ≡ has_extensions (lax_extensions_of false extensions.now) }
{
    extensions.len() > 0
}
