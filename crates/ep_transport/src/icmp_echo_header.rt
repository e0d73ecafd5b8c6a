//! Identifier and sequence number of ICMPv4 and ICMPv6 echo messages (RFC 792; RFC 4443, 4.1 and 4.2).

use std::alloc::AllocError;

/// Identifier and sequence number of an ICMPv4 or ICMPv6 echo request or reply (RFC 792; RFC 4443, 4.1 and 4.2). They
/// match a reply to its request.
#[derive(Clone, Debug, PartialEq, Eq, Drop)]
pub struct IcmpEchoHeader {
    /// Identifier of an ICMP echo message, bytes 4 and 5 of the message.
    pub id: u16,
    /// Sequence number of an ICMP echo message, bytes 6 and 7 of the message.
    pub seq: u16,
}

impl IcmpEchoHeader {
    ghost use Rattle.std.specs.Prelude.{◌≡◌, ◌+◌, ◌<◌, ◌≤◌, ◌++◌, length, OnOk, OnErr, vec_len, vec_capacity};
    ghost use Rattle.ep_transport.specs.Icmp.{echo_bytes};

    /// Length of identifier and sequence number of an ICMP echo message in bytes: 4.
    pub const LEN: usize = 4;

    /// Decodes identifier and sequence number of an ICMP echo message from bytes 4 to 7 of the message.
    #[inline]
    pub fn from_bytes(bytes: [u8; 4]) -> IcmpEchoHeader
        ensures { echo_bytes result ≡ bytes }
    {
        let [i0, i1, s0, s1] = bytes;
        IcmpEchoHeader {
            id: u16::from_be_bytes([i0, i1]),
            seq: u16::from_be_bytes([s0, s1]),
        }
    }

    /// Length of identifier and sequence number of an ICMP echo message in bytes; always 4.
    #[inline]
    pub fn header_len(&self) -> usize
        ensures { result ≡ 4 }
    {
        IcmpEchoHeader::LEN
    }

    /// Returns identifier and sequence number of an ICMP echo message as wire bytes, which are bytes 4 to 7 of the
    /// message.
    #[inline]
    pub fn to_bytes(&self) -> [u8; 4]
        ensures { result ≡ echo_bytes self.now }
    {
        let [i0, i1] = self.id.to_be_bytes();
        let [s0, s1] = self.seq.to_be_bytes();
        [i0, i1, s0, s1]
    }

    /// Appends identifier and sequence number of an ICMP echo message (bytes 4 to 7 of the message) to the buffer.
    /// Fails only if the buffer has to grow and the allocation fails; the buffer's content is then unchanged.
    pub fn write(&self, buf: &mut Vec<u8>) -> Result<(), AllocError>
        ensures ok { OnOk result (buf.new.items ≡ buf.old.items ++ echo_bytes self.now) }
        ensures err { OnErr result (buf.new.items ≡ buf.old.items) }
        ensures full { OnErr result (vec_capacity buf.old < vec_len buf.old + length (echo_bytes self.now)) }
        ensures capacity { vec_capacity buf.old ≤ vec_capacity buf.new }
    {
        buf.extend_from_slice(&self.to_bytes())
    }
}
