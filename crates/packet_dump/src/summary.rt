//! Counts of the packets of a capture that `--summary` prints.

ghost use Rattle.std.specs.Prelude.{◌≡◌, ◌++◌, map, IfOk, OnOk, Some};
ghost use Rattle.std.specs.Option.{option_map};
ghost use Rattle.std.specs.String.{string_bytes};
ghost use Rattle.capture_reader.specs.Readers.{shown_of};
ghost use Rattle.etherparse.specs.LaxPackets.{lax_layers_of};
ghost use Rattle.etherparse.specs.LaxViews.{lax_extension_of, lax_net_layer_of};
ghost use Rattle.etherparse.specs.LinkSlices.{link_layer_of};
ghost use Rattle.etherparse.specs.StrictFrames.{layers_in};
ghost use Rattle.etherparse.specs.TransportParts.{transport_layer_of};
ghost use Rattle.link_types.specs.Openings.{opening_of};
ghost use Rattle.packet_dump.specs.Decoding.{packet_of};
ghost use Rattle.packet_dump.specs.SummaryTexts.{causes_text, outcomes_text, count_text, errors_text, evictions_text, fragments_text};
ghost use Rattle.packet_dump.specs.SummaryTexts.{inner_counts_text, links_text, outer_counts_text, packets_text, pieces_text};
ghost use Rattle.packet_dump.specs.SummaryTexts.{refusals_text, some_text, summary_text, unread_text};
ghost use Rattle.packet_dump.specs.ErrorNames.{error_name};
ghost use Rattle.packet_dump.specs.Summaries.{evictions_in, fragments_with, rejected_in};
ghost use Rattle.packet_dump.specs.Summaries.{counted_one, is_truncated, more, new_summary, no_layers, no_refusals, plain_count};
ghost use Rattle.packet_dump.specs.Summaries.{plain_of, plain_refusals, with_cause, with_cooked, with_error};
ghost use Rattle.packet_dump.specs.Summaries.{with_extensions, with_fragment, with_fragments};
ghost use Rattle.packet_dump.specs.Summaries.{with_layers, with_link, with_net, with_one, with_packet, with_stop};
ghost use Rattle.packet_dump.specs.Summaries.{with_transport};

use crate::decoded::{Decoded, Outcome};
use capture_reader::Shown;
use etherparse::defrag::DefragStatistics;
use etherparse::err::packet::SliceError;
use etherparse::err::{Layer, ip, ip_auth, ipv4, ipv6_exts, linux_sll, macsec};
use etherparse::{LaxLinkExtSlice, LaxNetSlice, LaxSlicedPacket, LinkSlice, TransportSlice};
use std::alloc::{AllocError, Global};

/// Number of packets with each layer, for the summary. VLAN and MACsec tags count each time they occur in a packet.
#[derive(Clone, Copy)]
struct LayerCounts {
    ethernet: u64,
    linux_sll: u64,
    vlan: u64,
    macsec: u64,
    ipv4: u64,
    ipv6: u64,
    arp: u64,
    fragment: u64,
    udp: u64,
    tcp: u64,
    icmpv4: u64,
    icmpv6: u64,
}

/// Counts of the packets of a capture that `--summary` prints.
#[derive(Drop)]
pub struct Summary {
    /// True if a summary is printed at the end; otherwise nothing is counted.
    pub wanted: bool,
    /// True if the summary also prints how many of the refused and stopped packets are truncated, and how many are
    /// malformed (`--quiet`).
    by_cause: bool,
    /// Number of packets with a truncated or invalid layer that the capture truncated.
    cut: u64,
    /// Number of packets with an invalid layer that are completely in the capture.
    malformed: u64,
    packets: u64,
    /// Total number of captured bytes, over all packets.
    kept: u64,
    /// Total number of bytes that the packets had before the capture truncated them.
    original: u64,
    layers: LayerCounts,
    /// Errors of packets without any valid layer (with `--strict`: that are not complete, valid frames), counted by
    /// error.
    refused: Refusals,
    /// Errors of packets with valid layers up to a truncated or invalid one, counted by error.
    stopped: Refusals,
    /// Number of packets with an unsupported link type or link header, which are not parsed, as pairs of link type and
    /// count.
    unread: Vec<(u16, u64)>,
    /// Counts of IP reassembly, with `--reassemble`; `None` without.
    fragments: Option<Fragments>,
}

/// Number of packets with a parsing error, in total and by error.
#[derive(Drop)]
struct Refusals {
    all: u64,
    /// Pairs of an error's name (such as `Ipv4 UnexpectedVersion`) and the number of packets with it.
    errors: Vec<(&'static str, u64)>,
}

/// Counts of IP reassembly (`--reassemble`) for the summary.
#[derive(Clone, Copy)]
pub struct Fragments {
    /// Number of IP payloads that were reassembled from fragments.
    pub reassembled: u64,
    /// Number of IP fragments that the reassembly pool rejected.
    pub not_reassembled: u64,
    /// Number of incomplete IP payloads that expired or were evicted.
    pub dropped: u64,
    /// Counts of expired, evicted and discarded payloads by the cause; `None` if they are not printed.
    pub evictions: Option<Evictions>,
    /// Number of IP payloads that are still incomplete at the end of the run.
    pub open: u64,
}

/// Counts of incomplete IP payloads that expired, were evicted or discarded, by the cause.
#[derive(Clone, Copy)]
pub struct Evictions {
    /// Number of payloads that expired (`--timeout`, `--fragment-age`).
    pub expired: u64,
    /// Number of payloads that were evicted because there were too many (`--streams`).
    pub for_streams: u64,
    /// Number of payloads that were evicted because they used too much memory (`--fragment-bytes`).
    pub for_bytes: u64,
    /// Number of payloads that were discarded because their fragments contradicted each other (`--overlap discard`).
    pub discarded: u64,
}

impl Evictions {
    /// Returns the counts of evicted and discarded payloads from the counters of the reassembly pool.
    fn of(counters: &DefragStatistics) -> Evictions
        ensures { result ≡ evictions_in counters.now }
    {
        Evictions {
            expired: counters.expired,
            // With `--streams 0` all payloads are removed after each fragment.
            for_streams: counters
                .evicted_for_streams
                .saturating_add(counters.removed),
            for_bytes: counters.evicted_for_bytes,
            discarded: counters.discarded,
        }
    }

    /// Returns the number of payloads that expired or were evicted; discarded ones are not counted.
    fn dropped(&self) -> u64
        ensures { result ≡ more (more self.now.expired self.now.for_streams) self.now.for_bytes }
    {
        self.expired
            .saturating_add(self.for_streams)
            .saturating_add(self.for_bytes)
    }

    /// Appends a line for each count to the text of the summary.
    fn push_text(&self, text: &mut String) -> Result<(), AllocError>
        ensures { OnOk result (string_bytes text.new ≡ string_bytes text.old ++ evictions_text (Some self.now)) }
    {
        push_count(text, "  expired", self.expired)?;
        push_count(text, "  too many streams", self.for_streams)?;
        push_count(text, "  too many bytes", self.for_bytes)?;
        push_count(text, "discarded", self.discarded)
    }
}

/// Returns the number of IP fragments that the reassembly pool rejected, from its counters.
fn rejected_in(counters: &DefragStatistics) -> u64
    ensures { result ≡ rejected_in counters.now }
{
    counters
        .rejected_unaligned
        .saturating_add(counters.rejected_too_big)
        .saturating_add(counters.rejected_conflicting_end)
        .saturating_add(counters.rejected_discarded)
        .saturating_add(counters.rejected_over_budget)
}

impl Fragments {
    /// Returns the counts of IP reassembly from the counters of the reassembly pool. `reports` is whether evictions are
    /// counted by their cause, and `incomplete` the number of payloads that are still incomplete.
    pub fn of(counters: &DefragStatistics, reports: bool, incomplete: u64) -> Fragments
        ensures { result ≡ fragments_with counters.now reports incomplete }
    {
        let evictions = Evictions::of(counters);
        Fragments {
            reassembled: counters.completed,
            not_reassembled: rejected_in(counters),
            dropped: evictions.dropped(),
            evictions: if reports { Some(evictions) } else { None },
            open: incomplete,
        }
    }

    /// Appends a line for each count of IP reassembly to the text of the summary.
    fn push_text(&self, text: &mut String) -> Result<(), AllocError>
        ensures { OnOk result (string_bytes text.new ≡ string_bytes text.old ++ pieces_text self.now) }
    {
        self.push_outcomes(text)?;
        push_count(text, "incomplete at the end", self.open)
    }

    /// Appends a line for each count of reassembled payloads, rejected fragments, and expired or evicted payloads.
    fn push_outcomes(&self, text: &mut String) -> Result<(), AllocError>
        ensures { OnOk result (string_bytes text.new ≡ string_bytes text.old ++ outcomes_text self.now) }
    {
        push_count(text, "reassembled", self.reassembled)?;
        push_count(text, "not reassembled", self.not_reassembled)?;
        push_count(text, "expired or evicted", self.dropped)?;
        push_evictions(text, &self.evictions)
    }
}

impl Summary {
    /// Returns a summary with all counts 0. If `wanted` is false, nothing is counted; `by_cause` is whether truncated
    /// and malformed packets are printed separately.
    pub fn new(alloc: Global, wanted: bool, by_cause: bool) -> Summary
        ensures { plain_of result ≡ new_summary wanted by_cause }
    {
        Summary {
            wanted,
            by_cause,
            cut: 0,
            malformed: 0,
            packets: 0,
            kept: 0,
            original: 0,
            layers: LayerCounts::new(),
            refused: Refusals::new(alloc),
            stopped: Refusals::new(alloc),
            unread: Vec::new(alloc),
            fragments: None,
        }
    }

    /// Counts a packet, if a summary is wanted: its bytes, and its layers with the error at which they end, or why it
    /// has none. A Linux cooked capture header that the program parsed itself counts as a layer.
    pub fn count(&mut self, packet: &Decoded<'_>) -> Result<(), AllocError>
        requires { packet.now.opening
            ≡ opening_of packet.now.captured.shown.link_type packet.now.captured.shown.bytes.now }
        ensures { OnOk result (plain_of self.new ≡ counted_one (packet_of packet.now) (plain_of self.old)) }
    {
        if !self.wanted {
            return Ok(());
        }
        let shown = &packet.captured.shown;
        self.count_packet(shown);
        match &packet.outcome {
            Outcome::Layers => {
                self.layers.count(&packet.read, packet.is_cooked());
                self.count_stop(shown, &packet.read.stop_err)
            }
            Outcome::Refused(error) => {
                self.count_cause(shown);
                self.refused.count(error)
            }
            Outcome::Unsupported => count_key(&mut self.unread, shown.link_type),
        }
    }

    /// Counts a packet, and its captured and original bytes.
    fn count_packet(&mut self, shown: &Shown<'_>)
        ensures { plain_of self.new ≡ with_packet (shown_of shown.now) (plain_of self.old) }
    {
        more(&mut self.packets, 1);
        more(&mut self.kept, shown.bytes.len() as u64);
        more(&mut self.original, u64::from(shown.original_len));
    }

    /// Counts the error at which the layers of a packet end (the next layer is truncated or invalid); does nothing if
    /// there is none.
    fn count_stop(
        &mut self,
        shown: &Shown<'_>,
        stop: &Option<(SliceError, Layer)>,
    ) -> Result<(), AllocError>
        ensures { OnOk result (plain_of self.new
            ≡ with_stop (is_truncated (shown_of shown.now)) stop.now (plain_of self.old)) }
    {
        match stop {
            Some(stop) => {
                self.count_cause(shown);
                self.stopped.count(&stop.0)
            }
            None => Ok(()),
        }
    }

    /// Counts a packet with a truncated or invalid layer as truncated, if the capture lacks bytes of it, or else as
    /// malformed.
    fn count_cause(&mut self, shown: &Shown<'_>)
        ensures { plain_of self.new ≡ with_cause (is_truncated (shown_of shown.now)) (plain_of self.old) }
    {
        if is_truncated(shown) {
            more(&mut self.cut, 1);
        } else {
            more(&mut self.malformed, 1);
        }
    }

    /// Stores the counts of IP reassembly in the summary, if a summary is wanted.
    pub fn count_fragments(&mut self, fragments: Fragments)
        ensures { plain_of self.new ≡ with_fragments fragments (plain_of self.old) }
    {
        if self.wanted {
            self.fragments = Some(fragments);
        }
    }

    /// Returns the text of the summary: a line for each count, and for each kind of layer that occurs. Allocates.
    pub fn text(&self) -> Result<String, AllocError>
        ensures { IfOk result (λ text. string_bytes text ≡ summary_text (plain_of self.now)) }
    {
        let mut text = String::new(*self.unread.allocator());
        self.push_packets(&mut text)?;
        self.layers.push_outer(&mut text)?;
        self.layers.push_inner(&mut text)?;
        self.refused.push_text(&mut text, "refused")?;
        self.stopped.push_text(&mut text, "stopped")?;
        self.push_causes(&mut text)?;
        push_unread(&mut text, self.unread.as_slice())?;
        push_fragments(&mut text, self.fragments)?;
        Ok(text)
    }

    /// Appends the number of packets, and of their captured and original bytes, to the text of the summary.
    fn push_packets(&self, text: &mut String) -> Result<(), AllocError>
        ensures { OnOk result (string_bytes text.new ≡ string_bytes text.old ++ packets_text (plain_of self.now)) }
    {
        let (packets, kept, original) = (self.packets, self.kept, self.original);
        write!(text, "packets: {packets}\nbytes: {kept} of {original}\n")
    }

    /// Appends the numbers of truncated and of malformed packets to the text of the summary, with `--quiet`.
    fn push_causes(&self, text: &mut String) -> Result<(), AllocError>
        ensures { OnOk result (string_bytes text.new ≡ string_bytes text.old ++ causes_text (plain_of self.now)) }
    {
        if !self.by_cause {
            return Ok(());
        }
        push_count(text, "cut by the capture", self.cut)?;
        push_count(text, "malformed", self.malformed)
    }
}

impl Refusals {
    /// Returns counts of packets with parsing errors that are all 0.
    fn new(alloc: Global) -> Refusals
        ensures { plain_refusals result ≡ no_refusals }
    {
        Refusals {
            all: 0,
            errors: Vec::new(alloc),
        }
    }

    /// Counts a packet with this parsing error, in total and by the error's name.
    fn count(&mut self, error: &SliceError) -> Result<(), AllocError>
        ensures { OnOk result (plain_refusals self.new ≡ with_error error.now (plain_refusals self.old)) }
    {
        more(&mut self.all, 1);
        count_key(&mut self.errors, error_name(error))
    }

    /// Appends a line with the name `row` (`refused` or `stopped`) and the number of packets with such an error, then one
    /// line for each kind of error and its number.
    fn push_text(&self, text: &mut String, row: &str) -> Result<(), AllocError>
        ensures { OnOk result (string_bytes text.new
            ≡ string_bytes text.old ++ refusals_text row.now (plain_refusals self.now)) }
    {
        push_count(text, row, self.all)?;
        push_errors(text, self.errors.as_slice())
    }
}

impl LayerCounts {
    /// Returns counts of layers that are all 0.
    fn new() -> LayerCounts
        ensures { result ≡ no_layers }
    {
        LayerCounts {
            ethernet: 0,
            linux_sll: 0,
            vlan: 0,
            macsec: 0,
            ipv4: 0,
            ipv6: 0,
            arp: 0,
            fragment: 0,
            udp: 0,
            tcp: 0,
            icmpv4: 0,
            icmpv6: 0,
        }
    }

    /// Counts the layers of a packet. `cooked` is whether the program parsed a Linux cooked capture header itself,
    /// which counts as a layer.
    fn count(&mut self, read: &LaxSlicedPacket<'_>, cooked: bool)
        ensures { self.new ≡ with_layers cooked (layers_in (lax_layers_of read.now)) self.old }
    {
        self.count_cooked(cooked);
        self.count_link(&read.link);
        self.count_extensions(read.link_exts.as_slice());
        self.count_net(&read.net);
        self.count_fragment(read.is_ip_payload_fragmented());
        self.count_transport(&read.transport);
    }

    /// Counts a Linux cooked capture header that the program parsed itself, if `cooked` is true.
    fn count_cooked(&mut self, cooked: bool)
        ensures { self.new ≡ with_cooked cooked self.old }
    {
        if cooked {
            more(&mut self.linux_sll, 1);
        }
    }

    /// Counts the link header of a packet (Ethernet II or Linux cooked capture), if it has one.
    fn count_link(&mut self, link: &Option<LinkSlice<'_>>)
        ensures { self.new ≡ with_link (option_map link_layer_of link.now) self.old }
    {
        match link {
            Some(LinkSlice::Ethernet2(_)) => more(&mut self.ethernet, 1),
            Some(LinkSlice::LinuxSll(_)) => more(&mut self.linux_sll, 1),
            Some(LinkSlice::EtherPayload(_) | LinkSlice::LinuxSllPayload(_)) | None => {}
        }
    }

    /// Counts each VLAN and MACsec tag of a packet.
    fn count_extensions(&mut self, extensions: &[LaxLinkExtSlice<'_>])
        ensures { self.new ≡ with_extensions (map lax_extension_of extensions.now) self.old }
    {
        for extension in extensions {
            match extension {
                LaxLinkExtSlice::Vlan(_) => more(&mut self.vlan, 1),
                LaxLinkExtSlice::Macsec(_) => more(&mut self.macsec, 1),
            }
        }
    }

    /// Counts the network layer of a packet (IPv4, IPv6 or ARP), if it has one.
    fn count_net(&mut self, net: &Option<LaxNetSlice<'_>>)
        ensures { self.new ≡ with_net (option_map lax_net_layer_of net.now) self.old }
    {
        match net {
            Some(LaxNetSlice::Ipv4(_)) => more(&mut self.ipv4, 1),
            Some(LaxNetSlice::Ipv6(_)) => more(&mut self.ipv6, 1),
            Some(LaxNetSlice::Arp(_)) => more(&mut self.arp, 1),
            None => {}
        }
    }

    /// Counts a packet that is an IP fragment, if `fragmented` is true.
    fn count_fragment(&mut self, fragmented: bool)
        ensures { self.new ≡ with_fragment fragmented self.old }
    {
        if fragmented {
            more(&mut self.fragment, 1);
        }
    }

    /// Counts the transport layer of a packet (UDP, TCP, ICMPv4 or ICMPv6), if it has one.
    fn count_transport(&mut self, transport: &Option<TransportSlice<'_>>)
        ensures { self.new ≡ with_transport (option_map transport_layer_of transport.now) self.old }
    {
        match transport {
            Some(TransportSlice::Udp(_)) => more(&mut self.udp, 1),
            Some(TransportSlice::Tcp(_)) => more(&mut self.tcp, 1),
            Some(TransportSlice::Icmpv4(_)) => more(&mut self.icmpv4, 1),
            Some(TransportSlice::Icmpv6(_)) => more(&mut self.icmpv6, 1),
            None => {}
        }
    }

    /// Appends a summary line for each link header, tag and IP version that occurs in the capture.
    fn push_outer(&self, text: &mut String) -> Result<(), AllocError>
        ensures { OnOk result (string_bytes text.new ≡ string_bytes text.old ++ outer_counts_text self.now) }
    {
        push_some(text, "eth", self.ethernet)?;
        push_some(text, "sll", self.linux_sll)?;
        push_some(text, "vlan", self.vlan)?;
        push_some(text, "macsec", self.macsec)?;
        push_some(text, "ipv4", self.ipv4)?;
        push_some(text, "ipv6", self.ipv6)
    }

    /// Appends a summary line for ARP, IP fragments and each transport layer that occurs in the capture.
    fn push_inner(&self, text: &mut String) -> Result<(), AllocError>
        ensures { OnOk result (string_bytes text.new ≡ string_bytes text.old ++ inner_counts_text self.now) }
    {
        push_some(text, "arp", self.arp)?;
        push_some(text, "fragment", self.fragment)?;
        push_some(text, "udp", self.udp)?;
        push_some(text, "tcp", self.tcp)?;
        push_some(text, "icmpv4", self.icmpv4)?;
        push_some(text, "icmpv6", self.icmpv6)
    }
}

/// Returns whether the capture has fewer bytes of a packet than the packet had.
fn is_truncated(shown: &Shown<'_>) -> bool
    ensures { result ≡ is_truncated (shown_of shown.now) }
{
    (shown.bytes.len() as u64) < u64::from(shown.original_len)
}

/// Adds `by` to a count; at the maximum of 64 bits it stays there (saturates).
fn more(count: &mut u64, by: u64)
    ensures { count.new ≡ more count.old by }
{
    *count = count.saturating_add(by);
}

/// Adds 1 to the count of a key in a list of pairs, with a new pair if it has none.
fn count_key<K: PartialEq + Copy>(counts: &mut Vec<(K, u64)>, key: K) -> Result<(), AllocError>
    ensures { OnOk result (counts.new.items ≡ with_one K.eq key counts.old.items) }
{
    for index in 0..counts.len() {
        if counts[index].0 == key {
            more(&mut counts[index].1, 1);
            return Ok(());
        }
    }
    counts.push((key, 1))?;
    Ok(())
}

/// Appends an indented summary line for each error's name and its number of packets.
fn push_errors(text: &mut String, errors: &[(&'static str, u64)]) -> Result<(), AllocError>
    ensures { OnOk result (string_bytes text.new
        ≡ string_bytes text.old ++ errors_text (map plain_count errors.now)) }
{
    for (name, times) in errors {
        text.push_str("  ")?;
        push_count(text, name, *times)?;
    }
    Ok(())
}

/// Appends the number of packets with unsupported link types to the text of the summary, in total and by link type, if
/// there were any.
fn push_unread(text: &mut String, unread: &[(u16, u64)]) -> Result<(), AllocError>
    ensures { OnOk result (string_bytes text.new ≡ string_bytes text.old ++ unread_text unread.now) }
{
    let mut all = 0;
    for (_, times) in unread {
        more(&mut all, *times);
    }
    push_some(text, "not read", all)?;
    push_unread_link_types(text, unread)
}

/// Appends an indented summary line for each unsupported link type and its number of packets.
fn push_unread_link_types(text: &mut String, unread: &[(u16, u64)]) -> Result<(), AllocError>
    ensures { OnOk result (string_bytes text.new ≡ string_bytes text.old ++ links_text unread.now) }
{
    for (link_type, times) in unread {
        write!(text, "  link {link_type}: {times}\n")?;
    }
    Ok(())
}

/// Appends the counts of expired, evicted and discarded payloads to the text of the summary, if they are printed.
fn push_evictions(text: &mut String, evictions: &Option<Evictions>) -> Result<(), AllocError>
    ensures { OnOk result (string_bytes text.new ≡ string_bytes text.old ++ evictions_text evictions.now) }
{
    match evictions {
        Some(evictions) => evictions.push_text(text),
        None => Ok(()),
    }
}

/// Appends the counts of IP reassembly to the text of the summary, or nothing without `--reassemble`.
fn push_fragments(text: &mut String, fragments: Option<Fragments>) -> Result<(), AllocError>
    ensures { OnOk result (string_bytes text.new ≡ string_bytes text.old ++ fragments_text fragments) }
{
    match fragments {
        Some(fragments) => fragments.push_text(text),
        None => Ok(()),
    }
}

/// Appends the summary line `name: times`, unless the count is 0.
fn push_some(text: &mut String, name: &str, times: u64) -> Result<(), AllocError>
    ensures { OnOk result (string_bytes text.new ≡ string_bytes text.old ++ some_text name.now times) }
{
    if times > 0 {
        push_count(text, name, times)
    } else {
        Ok(())
    }
}

/// Appends the summary line `name: times`.
fn push_count(text: &mut String, name: &str, times: u64) -> Result<(), AllocError>
    ensures { OnOk result (string_bytes text.new ≡ string_bytes text.old ++ count_text name.now times) }
{
    write!(text, "{name}: {times}\n")
}

/// Returns the name of a parsing error in the summary: the layer for a length error, else the layer and the error, such
/// as `Ipv4 UnexpectedVersion`.
fn error_name(error: &SliceError) -> &'static str
    ensures { result.now ≡ error_name error.now }
{
    match error {
        SliceError::Len(error) => error.layer.name(),
        SliceError::LinuxSll(linux_sll::HeaderError::UnsupportedPacketTypeField { .. }) => {
            "LinuxSll UnsupportedPacketTypeField"
        }
        SliceError::LinuxSll(linux_sll::HeaderError::UnsupportedArpHardwareId { .. }) => {
            "LinuxSll UnsupportedArpHardwareId"
        }
        SliceError::Macsec(macsec::HeaderError::UnexpectedVersion) => "Macsec UnexpectedVersion",
        SliceError::Macsec(macsec::HeaderError::InvalidUnmodifiedShortLen) => {
            "Macsec InvalidUnmodifiedShortLen"
        }
        SliceError::Ip(ip::HeaderError::UnsupportedIpVersion { .. }) => "Ip UnsupportedIpVersion",
        SliceError::Ip(ip::HeaderError::Ipv4HeaderLengthSmallerThanHeader { .. }) => {
            "Ip Ipv4HeaderLengthSmallerThanHeader"
        }
        SliceError::Ipv4(ipv4::HeaderError::UnexpectedVersion { .. }) => "Ipv4 UnexpectedVersion",
        SliceError::Ipv4(ipv4::HeaderError::HeaderLengthSmallerThanHeader { .. }) => {
            "Ipv4 HeaderLengthSmallerThanHeader"
        }
        SliceError::Ipv6(_) => "Ipv6 UnexpectedVersion",
        SliceError::Ipv4Exts(ip_auth::HeaderError::ZeroPayloadLen) => "Ipv4Exts ZeroPayloadLen",
        SliceError::Ipv6Exts(ipv6_exts::HeaderError::HopByHopNotAtStart) => {
            "Ipv6Exts HopByHopNotAtStart"
        }
        SliceError::Ipv6Exts(ipv6_exts::HeaderError::IpAuth(_)) => "Ipv6Exts ZeroPayloadLen",
        SliceError::Tcp(_) => "Tcp DataOffsetTooSmall",
    }
}
