//! Start of the packets of a capture, by its link type. Some link types have a header that the library does not parse,
//! and the library parses the bytes after it.

ghost use Rattle.std.specs.Prelude.{◌≡◌, ◌≤◌, true, IfSome, length};
ghost use Rattle.link_types.specs.Openings.{family_opening, has_no_type, is_bare_ip, is_cooked, is_ipv6_family};
ghost use Rattle.link_types.specs.Openings.{loopback_family, loopback_opening, opening_after_header, opening_at_start};
ghost use Rattle.link_types.specs.Openings.{opening_of, skips_hardware, skips_sll, skips_sll2, sll2_opening, sll_opening};

use ep_base::EtherType;
use ep_base::bytes::word_at;
use ep_packet::Entry;

/// Greatest valid packet type of a Linux cooked capture header (version 1).
const MAX_PACKET_TYPE: u16 = 7;

/// Start of parsing in a packet: the library `etherparse` gets the bytes after the first `skipped` ones, and begins at
/// the layer `entry`. The skipped bytes, if any, are a link header that the library does not parse.
#[derive(Clone, Copy)]
pub struct Opening {
    /// Layer of a packet at which the library starts to parse, such as Ethernet or IP.
    pub entry: Entry,
    /// Number of bytes at the start of a packet that the library does not get, since it does not parse them: the length
    /// of a BSD loopback or Linux cooked capture header, or 0.
    pub skipped: usize,
}

impl Opening {
    /// Returns whether a Linux cooked capture header is skipped: one of version 2, or one of version 1 whose hardware
    /// type the library rejects.
    pub fn is_cooked(&self) -> bool
        ensures { result ≡ is_cooked self.now }
    {
        self.skipped >= 16
    }
}

/// Returns where the library starts to parse a packet of this link type, or `None` if the link type or its header is
/// not supported.
pub fn opening_of(link_type: u16, bytes: &[u8]) -> Option<Opening>
    ensures value { result ≡ opening_of link_type bytes.now }
    ensures within { IfSome result (λ opening. opening.skipped ≤ length bytes.now) }
{
    if link_type == 1 {
        Some(opening_at_start(Entry::Ethernet))
    } else if is_bare_ip(link_type) {
        Some(opening_at_start(Entry::Ip))
    } else if link_type == 113 {
        Some(sll_opening(bytes))
    } else if link_type == 0 || link_type == 108 {
        loopback_opening(bytes)
    } else if link_type == 276 {
        sll2_opening(bytes)
    } else {
        None
    }
}

/// Returns the start of parsing in a packet without skipped bytes: the first byte, where the layer `entry` (Ethernet,
/// for example) begins.
fn opening_at_start(entry: Entry) -> Opening
    ensures { result ≡ opening_at_start entry }
{
    Opening { entry, skipped: 0 }
}

/// Returns where the library starts to parse a packet: after `skipped` bytes, at the layer of this ether type.
fn opening_after_header(skipped: usize, ether_type: u16) -> Opening
    ensures { result ≡ opening_after_header skipped ether_type }
{
    Opening {
        entry: Entry::EtherType(EtherType(ether_type)),
        skipped,
    }
}

/// Returns whether packets of this link type start with an IP header, without a link header (raw IP): 12, 14, 101, 228
/// or 229.
fn is_bare_ip(link_type: u16) -> bool
    ensures { result ≡ is_bare_ip link_type }
{
    link_type == 12 || link_type == 14 || link_type == 101 || link_type == 228 || link_type == 229
}

/// Returns the address family of a BSD loopback packet: its first 4 bytes as a big-endian number if that is at most
/// 255, else as a little-endian number. Returns 0 if both numbers are above 255.
fn loopback_family(bytes: &[u8]) -> u8
    requires { 4 ≤ length bytes.now }
    ensures { result ≡ loopback_family bytes.now }
{
    if word_at(bytes, 0) == 0 && bytes[2] == 0 {
        bytes[3]
    } else if bytes[1] == 0 && word_at(bytes, 2) == 0 {
        bytes[0]
    } else {
        0
    }
}

/// Returns whether the address family of a BSD loopback packet is IPv6: 10, 24, 28 or 30, by operating system.
fn is_ipv6_family(family: u8) -> bool
    ensures { result ≡ is_ipv6_family family }
{
    family == 10 || family == 24 || family == 28 || family == 30
}

/// Returns where the library starts to parse a BSD loopback packet of this address family: at the IPv4 or IPv6 header
/// after the first 4 bytes. Returns `None` if the family is neither IPv4 nor IPv6.
fn family_opening(family: u8) -> Option<Opening>
    ensures value { result ≡ family_opening family }
    ensures within { IfSome result (λ opening. opening.skipped ≤ 4) }
{
    if family == 2 {
        Some(opening_after_header(4, 0x0800))
    } else if is_ipv6_family(family) {
        Some(opening_after_header(4, 0x86dd))
    } else {
        None
    }
}

/// Returns where the library starts to parse a BSD loopback packet, or `None` if it has fewer than 4 bytes or its
/// address family is neither IPv4 nor IPv6.
fn loopback_opening(bytes: &[u8]) -> Option<Opening>
    ensures value { result ≡ loopback_opening bytes.now }
    ensures within { IfSome result (λ opening. opening.skipped ≤ length bytes.now) }
{
    if bytes.len() >= 4 {
        family_opening(loopback_family(bytes))
    } else {
        None
    }
}

/// Returns true for the hardware types (ARPHRD) whose Linux cooked capture headers have a protocol field that is not an
/// ether type: 770 (Frame Relay), 803 (radiotap) and 824 (netlink).
fn has_no_type(hardware: u16) -> bool
    ensures { result ≡ has_no_type hardware }
{
    hardware == 770 || hardware == 803 || hardware == 824
}

/// Returns whether a Linux cooked capture header (version 1) with this hardware type (ARPHRD) is skipped. The library
/// parses the header for Ethernet (1), for loopback (772), and if the protocol field is not an ether type (770, 803 and
/// 824). For all other types the header is skipped, and its protocol field is taken as an ether type.
fn skips_hardware(hardware: u16) -> bool
    ensures { result ≡ skips_hardware hardware }
{
    !(hardware == 1 || hardware == 772 || has_no_type(hardware))
}

/// Returns whether the header of a Linux cooked capture packet (version 1) is skipped. The header must be complete (16
/// bytes), with a valid packet type (0 to 7) and a hardware type for which it is skipped (`skips_hardware`).
pub fn skips_sll(bytes: &[u8]) -> bool
    ensures value { result ≡ skips_sll bytes.now }
    ensures long { result ≡ true → 16 ≤ length bytes.now }
{
    bytes.len() >= 16 && word_at(bytes, 0) <= MAX_PACKET_TYPE && skips_hardware(word_at(bytes, 2))
}

/// Returns where the library starts to parse a Linux cooked capture packet (version 1): after the header of 16 bytes if
/// it is skipped (`skips_sll`), else at the header.
fn sll_opening(bytes: &[u8]) -> Opening
    ensures value { result ≡ sll_opening bytes.now }
    ensures within { result.skipped ≤ length bytes.now }
{
    if skips_sll(bytes) {
        opening_after_header(16, word_at(bytes, 14))
    } else {
        opening_at_start(Entry::LinuxSll)
    }
}

/// Returns whether the header of a Linux cooked capture packet of version 2 is skipped: it is complete (20 bytes), and
/// its protocol field is an ether type.
pub fn skips_sll2(bytes: &[u8]) -> bool
    ensures value { result ≡ skips_sll2 bytes.now }
    ensures long { result ≡ true → 20 ≤ length bytes.now }
{
    bytes.len() >= 20 && !has_no_type(word_at(bytes, 8))
}

/// Returns where the library starts to parse a Linux cooked capture packet of version 2: after the 20 bytes of its
/// header if it is skipped (`skips_sll2`). Returns `None` otherwise.
fn sll2_opening(bytes: &[u8]) -> Option<Opening>
    ensures value { result ≡ sll2_opening bytes.now }
    ensures within { IfSome result (λ opening. opening.skipped ≤ length bytes.now) }
{
    if skips_sll2(bytes) {
        Some(opening_after_header(20, word_at(bytes, 0)))
    } else {
        None
    }
}
