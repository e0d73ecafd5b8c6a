//! Payload after the last header of a packet that lax parsing reads into owned headers; bytes may be missing.

use crate::lax_ether_payload_slice::LaxEtherPayloadSlice;
use ep_base::LaxIpPayloadSlice;
use ep_link::LinuxSllPayloadSlice;

/// Payload after the last valid header of a packet, as lax parsing returns it; bytes may be missing. The variant names
/// the layer that the header belongs to.
#[derive(Clone, Debug, PartialEq, Eq, Drop)]
pub enum LaxPayloadSlice<'a> {
    /// No payload: the last header is an ARP packet, or nothing was parsed.
    Empty,
    /// Payload of a link layer or link extension (VLAN or MACsec tag), with its ether type: no network layer was parsed
    /// in it.
    Ether(LaxEtherPayloadSlice<'a>),
    /// Payload of unknown type after a MACsec tag, which is modified or encrypted.
    MacsecModified {
        /// Available bytes of the modified MACsec payload.
        payload: &'a [u8],
        /// True if bytes of the MACsec payload are missing: a MACsec short length counts more bytes than are available.
        incomplete: bool,
    },
    /// Payload of a Linux cooked capture whose protocol is no ether type.
    LinuxSll(LinuxSllPayloadSlice<'a>),
    /// Payload of an IP packet, with its IP number: no transport header was parsed in it.
    Ip(LaxIpPayloadSlice<'a>),
    /// Payload of UDP, limited by the UDP length field, unless the field is below 8 or above the available bytes.
    Udp {
        /// Available bytes of the UDP payload.
        payload: &'a [u8],
        /// True if bytes of the UDP payload are missing.
        incomplete: bool,
    },
    /// Payload of TCP: the bytes after the TCP header and its options.
    Tcp {
        /// Available bytes of the TCP payload.
        payload: &'a [u8],
        /// True if bytes of the TCP payload are missing.
        incomplete: bool,
    },
    /// Payload of ICMPv4: the bytes after the ICMPv4 header.
    Icmpv4 {
        /// Available bytes of the ICMPv4 payload.
        payload: &'a [u8],
        /// True if bytes of the ICMPv4 payload are missing.
        incomplete: bool,
    },
    /// Payload of ICMPv6: the bytes after the ICMPv6 header.
    Icmpv6 {
        /// Available bytes of the ICMPv6 payload.
        payload: &'a [u8],
        /// True if bytes of the ICMPv6 payload are missing.
        incomplete: bool,
    },
}

impl<'a> LaxPayloadSlice<'a> {
    ghost use Rattle.std.specs.Prelude.{◌≡◌};
    ghost use Rattle.ep_lax.specs.LaxPayloadParts.{lax_payload_part_bytes, lax_payload_part_of};

    /// Available bytes of the packet's payload; an empty slice for `Empty`.
    #[inline]
    pub fn slice(&self) -> &'a [u8]
        ensures { result.now ≡ lax_payload_part_bytes (lax_payload_part_of self.now) }
    {
        match self {
            LaxPayloadSlice::Empty => &[],
            LaxPayloadSlice::Ether(payload) => payload.payload,
            LaxPayloadSlice::LinuxSll(payload) => payload.payload,
            LaxPayloadSlice::Ip(payload) => payload.payload,
            LaxPayloadSlice::MacsecModified { payload, .. }
            | LaxPayloadSlice::Udp { payload, .. }
            | LaxPayloadSlice::Tcp { payload, .. }
            | LaxPayloadSlice::Icmpv4 { payload, .. }
            | LaxPayloadSlice::Icmpv6 { payload, .. } => payload,
        }
    }
}
