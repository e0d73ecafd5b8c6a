//! Options of a `packet_dump` run: which packets are shown, and how.

ghost use Rattle.std.specs.Prelude.{◌≡◌};
ghost use Rattle.std.specs.Option.{option_map};
ghost use Rattle.capture_reader.specs.Readers.{shown_of};
ghost use Rattle.etherparse.specs.LaxLayers.{no_lax_layers};
ghost use Rattle.etherparse.specs.LaxPackets.{lax_layers_of};
ghost use Rattle.etherparse.specs.LaxViews.{lax_net_layer_of};
ghost use Rattle.etherparse.specs.TransportParts.{transport_layer_of};
ghost use Rattle.link_types.specs.Openings.{read_bytes};
ghost use Rattle.packet_dump.specs.Decoding.{content_in, filtered_in};
ghost use Rattle.packet_dump.specs.EvictionLines.{shows_evictions};
ghost use Rattle.packet_dump.specs.PacketCalls.{limits_of, nanoseconds, reports_evictions};
ghost use Rattle.packet_dump.specs.PacketContents.{content_kind, frame_kind, is_wanted, meets, packet, same_kind};
ghost use Rattle.packet_dump.specs.PacketContents.{shows_kind, shows_line};
ghost use Rattle.packet_dump.specs.PoolLines.{inner_kind, part, with_payload};
ghost use Rattle.packet_filter.specs.Meaning.{meaning};
ghost use Rattle.packet_filter.specs.Packets.{packet_of};
ghost use Rattle.packet_filter.specs.Trees.{tree_of};

use crate::decoded::{Decoded, Outcome};
use capture_reader::Shown;
use etherparse::defrag::{DefragLimits, OverlapPolicy};
use etherparse::{IpNumber, LaxNetSlice, LaxSlicedPacket, TransportSlice};
use link_types::opening_of;
use packet_filter::Filter;

/// Kind of a packet for the option `--only`: its transport layer, ARP, or how its parsing failed.
#[derive(Clone, Copy)]
pub enum Kind {
    /// Packet with a UDP datagram (`--only udp`).
    Udp,
    /// Packet with a TCP segment (`--only tcp`).
    Tcp,
    /// Packet with an ICMPv4 or ICMPv6 message (`--only icmp`).
    Icmp,
    /// ARP packet (`--only arp`).
    Arp,
    /// Packet without any valid layer, fragment that is rejected, or reassembled payload with an invalid transport
    /// header (`--only refused`). With `--strict` also each packet that is not a complete, valid frame.
    Refused,
    /// Packet with valid layers up to a truncated or invalid one (`--only stopped`).
    Stopped,
}

impl Kind {
    /// Returns the kind of a laxly sliced packet for `--only`, or `None` if it has none, such as an IP packet whose
    /// protocol is not UDP, TCP or ICMP.
    pub fn of(read: &LaxSlicedPacket<'_>) -> Option<Kind>
        ensures { result ≡ content_kind (packet (lax_layers_of read.now)) }
    {
        match &read.stop_err {
            Some(_) => Some(Kind::Stopped),
            None => Kind::of_layers(read),
        }
    }

    /// Returns the kind of a packet in which no layer is invalid, by its transport layer or ARP, or `None` if it has
    /// neither.
    fn of_layers(read: &LaxSlicedPacket<'_>) -> Option<Kind>
        ensures { result ≡ frame_kind (option_map lax_net_layer_of read.now.net)
            (option_map transport_layer_of read.now.transport) }
    {
        match (&read.transport, &read.net) {
            (Some(TransportSlice::Udp(_)), _) => Some(Kind::Udp),
            (Some(TransportSlice::Tcp(_)), _) => Some(Kind::Tcp),
            (Some(TransportSlice::Icmpv4(_) | TransportSlice::Icmpv6(_)), _) => Some(Kind::Icmp),
            (None, Some(LaxNetSlice::Arp(_))) => Some(Kind::Arp),
            (None, _) => None,
        }
    }

    /// Returns the kind of a reassembled IP payload by its transport layer (UDP, TCP or ICMP), or `None` if it has
    /// none.
    pub fn of_part(transport: &Option<TransportSlice<'_>>) -> Option<Kind>
        ensures { result ≡ inner_kind (part (option_map transport_layer_of transport.now)) }
    {
        match transport {
            Some(TransportSlice::Udp(_)) => Some(Kind::Udp),
            Some(TransportSlice::Tcp(_)) => Some(Kind::Tcp),
            Some(TransportSlice::Icmpv4(_) | TransportSlice::Icmpv6(_)) => Some(Kind::Icmp),
            None => None,
        }
    }

    /// Returns whether two kinds of packets are equal.
    fn is(self, other: Kind) -> bool
        ensures { result ≡ same_kind self other }
    {
        matches!(
            (self, other),
            (Kind::Udp, Kind::Udp)
                | (Kind::Tcp, Kind::Tcp)
                | (Kind::Icmp, Kind::Icmp)
                | (Kind::Arp, Kind::Arp)
                | (Kind::Refused, Kind::Refused)
                | (Kind::Stopped, Kind::Stopped)
        )
    }
}

/// Format of the timestamps of packet lines (`--time`).
#[derive(Clone, Copy)]
pub enum TimeForm {
    /// Timestamps are seconds since the first packet of the capture.
    Relative,
    /// Timestamps are seconds since 1970-01-01 00:00 UTC.
    Epoch,
    /// Timestamps are dates and times of day in UTC.
    Utc,
}

/// Options of a `packet_dump` run: which packets are shown, and how.
#[derive(Drop)]
pub struct DumpOptions {
    /// Only packets of this kind are shown (`--only`); `None` shows all.
    pub only: Option<Kind>,
    /// Only packets that this filter matches are shown: the filter expression and the filter options (`--host`,
    /// `--port`, `--net`, `--vlan`); `None` shows all.
    pub filter: Option<Filter>,
    /// Format of the timestamps of packet lines (`--time`).
    pub time: TimeForm,
    /// Maximum number of packets that are read, shown or not (`--count`).
    pub most: u64,
    /// True if no packet lines are printed (`--quiet`).
    pub quiet: bool,
    /// True if a hex dump follows each packet (`--hex`): of its payload, or of all its bytes if it is rejected or its
    /// link type or link header is not supported.
    pub hex: bool,
    /// True if the hex dump of a packet has all its bytes, headers included, instead of its payload (`--hex=frame`).
    pub whole: bool,
    /// True if each packet that is not a complete, valid frame is printed as rejected, without its layers (`--strict`).
    pub strict: bool,
    /// True if further header fields are printed of each packet with a valid layer (`--verbose`).
    pub verbose: bool,
    /// True if IP payloads are reassembled from their fragments (`--reassemble`).
    pub reassemble: bool,
    /// Seconds without an accepted fragment after which an incomplete IP payload expires (`--timeout`).
    pub timeout: u32,
    /// Maximum length of a reassembled IP payload, in bytes (`--limit`).
    pub limit: u16,
    /// Maximum number of incomplete IP payloads that are kept for reassembly (`--streams`). One more evicts the payload
    /// whose last accepted fragment is oldest.
    pub streams: u64,
    /// Maximum memory of incomplete IP payloads, in bytes (`--fragment-bytes`). More evicts the payload whose last
    /// accepted fragment is oldest. `None` is no limit.
    pub fragment_bytes: Option<u64>,
    /// Seconds after its first accepted fragment at which an incomplete IP payload expires (`--fragment-age`). `None` is
    /// never.
    pub fragment_age: Option<u32>,
    /// Rule for fragments that overlap earlier ones (`--overlap`). `None` is the default: the last fragment decides.
    pub overlap: Option<OverlapPolicy>,
}

impl DumpOptions {
    /// Returns whether the lines of packets of this kind are printed, by `--quiet` and `--only`: never with `--quiet`,
    /// otherwise if `--only` names the kind or is not given. The filter is not considered here.
    pub fn shows(&self, kind: Option<Kind>) -> bool
        ensures { result ≡ shows_line self.now kind }
    {
        !self.quiet && self.wants(kind)
    }

    /// Returns whether `--only` selects packets of this kind; without `--only` it selects all.
    fn wants(&self, kind: Option<Kind>) -> bool
        ensures { result ≡ shows_kind self.now.only kind }
    {
        match (self.only, kind) {
            (None, _) => true,
            (Some(wanted), Some(kind)) => wanted.is(kind),
            (Some(_), None) => false,
        }
    }

    /// Returns whether `--only` and the filter select a packet, even if `--quiet` hides its line. `bytes` are its bytes
    /// from where parsing starts.
    pub fn selects(&self, packet: &Decoded<'_>, bytes: &[u8]) -> bool
        requires { bytes.now ≡ read_bytes packet.now.captured.shown.link_type packet.now.captured.shown.bytes.now }
        ensures { result ≡ is_wanted self.now (shown_of packet.now.captured.shown) (content_in packet.now) }
    {
        self.wants_packet(packet) && self.meets(packet, bytes)
    }

    /// Returns whether `--only` selects a packet.
    fn wants_packet(&self, packet: &Decoded<'_>) -> bool
        ensures { result ≡ shows_kind self.now.only (content_kind (content_in packet.now)) }
    {
        match &packet.outcome {
            Outcome::Layers => self.wants_layers(&packet.read),
            Outcome::Refused(_) => self.wants(Some(Kind::Refused)),
            Outcome::Unsupported => self.wants(None),
        }
    }

    /// Returns whether `--only` selects a packet with these layers, whose kind is determined only with `--only`.
    fn wants_layers(&self, read: &LaxSlicedPacket<'_>) -> bool
        ensures { result ≡ shows_kind self.now.only (content_kind (packet (lax_layers_of read.now))) }
    {
        match self.only {
            Some(_) => self.wants(Kind::of(read)),
            None => true,
        }
    }

    /// Returns whether the filter matches a packet. A packet that is rejected or not parsed has no layers. `bytes` are
    /// its bytes from where parsing starts.
    #[tactic(auto, unfolding(crate::specs::PacketContents::meets))]
    pub fn meets(&self, packet: &Decoded<'_>, bytes: &[u8]) -> bool
        requires { bytes.now ≡ read_bytes packet.now.captured.shown.link_type packet.now.captured.shown.bytes.now }
        ensures { result ≡ meets self.now.filter (filtered_in packet.now) }
    {
        match &self.filter {
            Some(filter) => matches(filter, packet, bytes),
            None => true,
        }
    }

    /// Returns whether the filter matches a packet with a reassembled payload of this protocol in place of its
    /// fragment.
    #[tactic(auto, unfolding(crate::specs::PacketContents::meets))]
    pub fn meets_payload(&self, packet: &Decoded<'_>, number: IpNumber, payload: &[u8]) -> bool
        ensures { result ≡ meets self.now.filter (with_payload (filtered_in packet.now) number.0 payload.now) }
    {
        match &self.filter {
            Some(filter) => matches_payload(filter, packet, number, payload),
            None => true,
        }
    }

    /// Limits of the reassembly pool. Without `--fragment-bytes` and `--fragment-age` they are the greatest numbers of
    /// their types. Times are in nanoseconds.
    pub fn limits(&self) -> DefragLimits
        ensures { result ≡ limits_of self.now }
    {
        DefragLimits {
            streams: self.streams as usize,
            bytes: match self.fragment_bytes {
                Some(bytes) => bytes as usize,
                None => usize::MAX,
            },
            payload: self.limit,
            age: match self.fragment_age {
                Some(seconds) => nanoseconds(seconds),
                None => u128::MAX,
            },
            overlap: match self.overlap {
                Some(policy) => policy,
                None => OverlapPolicy::LastWins,
            },
        }
    }

    /// Time without an accepted fragment after which an incomplete IP payload expires (`--timeout`), in nanoseconds.
    pub fn idle(&self) -> u128
        ensures { result ≡ nanoseconds self.now.timeout }
    {
        nanoseconds(self.timeout)
    }

    /// Returns whether evictions are printed and counted by their cause: with `--fragment-bytes`, `--fragment-age` or
    /// `--overlap`.
    pub fn reports_evictions(&self) -> bool
        ensures { result ≡ reports_evictions self.now }
    {
        self.fragment_bytes.is_some() || self.fragment_age.is_some() || self.overlap.is_some()
    }

    /// Returns whether the line of a payload that expires, is evicted or discarded is printed: if evictions are
    /// reported, without `--quiet`, and unless `--only` selects another kind than `refused`. A filter does not matter,
    /// since a payload that is not reassembled cannot be matched.
    pub fn shows_evictions(&self) -> bool
        ensures { result ≡ shows_evictions self.now }
    {
        self.reports_evictions() && self.shows(Some(Kind::Refused))
    }
}

/// Converts a number of seconds to nanoseconds.
fn nanoseconds(seconds: u32) -> u128
    ensures { result ≡ nanoseconds seconds }
{
    u128::from(seconds) * 1_000_000_000
}

/// Returns whether a filter matches a packet. A packet that is rejected or not parsed has no layers.
#[tactic(auto, unfolding(crate::specs::PacketContents::filtered_packet))]
fn matches(filter: &Filter, packet: &Decoded<'_>, bytes: &[u8]) -> bool
    requires { bytes.now ≡ read_bytes packet.now.captured.shown.link_type packet.now.captured.shown.bytes.now }
    ensures { result ≡ meaning (tree_of filter.now) (filtered_in packet.now) }
{
    let len = packet.captured.shown.original_len;
    match &packet.outcome {
        Outcome::Layers => filter.matches(&packet.read, bytes, len),
        Outcome::Refused(_) | Outcome::Unsupported => matches_no_layers(filter, bytes, len),
    }
}

/// Returns whether a filter matches a packet without layers.
fn matches_no_layers(filter: &Filter, bytes: &[u8], len: u32) -> bool
    ensures { result ≡ meaning (tree_of filter.now) (packet_of no_lax_layers bytes.now len) }
{
    let read = LaxSlicedPacket::new();
    filter.matches(&read, bytes, len)
}

/// Returns whether a filter matches a packet with a reassembled payload of this protocol in place of its fragment.
#[tactic(auto, unfolding(crate::specs::PacketContents::filtered_packet))]
fn matches_payload(filter: &Filter, packet: &Decoded<'_>, number: IpNumber, payload: &[u8]) -> bool
    ensures { result ≡ meaning (tree_of filter.now) (with_payload (filtered_in packet.now) number.0 payload.now) }
{
    let shown = &packet.captured.shown;
    let (bytes, len) = (read_bytes(shown), shown.original_len);
    match &packet.outcome {
        Outcome::Layers => filter.matches_payload(&packet.read, bytes, len, number, payload),
        Outcome::Refused(_) | Outcome::Unsupported => {
            let read = LaxSlicedPacket::new();
            filter.matches_payload(&read, bytes, len, number, payload)
        }
    }
}

/// Returns the bytes of a packet from where parsing starts; all bytes if its link type or link header is not supported.
pub fn read_bytes<'a>(shown: &Shown<'a>) -> &'a [u8]
    ensures { result.now ≡ read_bytes shown.now.link_type shown.now.bytes.now }
{
    match opening_of(shown.link_type, shown.bytes) {
        Some(opening) => &shown.bytes[opening.skipped..],
        None => shown.bytes,
    }
}
