//! Headers of Linux cooked captures (SLL v1) as owned values.

ghost use Rattle.std.specs.Prelude.{◌≡◌, ◌++◌, ◌+◌, ◌<◌, ◌≤◌, length, [], IfOk, IfErr, OnOk, OnErr, IsOkAnd, vec_len, vec_capacity};
ghost use Rattle.ep_base.specs.Tables.{Parts, parts_of};
ghost use Rattle.ep_link.specs.LinuxSll.{linux_sll_bytes, IsLinuxSll, RefusesLinuxSll};

use crate::arp::ArpHardwareId;
use crate::link::linux_sll_packet_type::LinuxSllPacketType;
use crate::link::linux_sll_protocol_type::LinuxSllProtocolType;
use crate::link::linux_sll_slice::LinuxSllSlice;
use ep_base::err::linux_sll::HeaderSliceError;
use std::alloc::AllocError;

/// Header of a Linux cooked capture (SLL v1), 16 bytes.
#[derive(Clone, Debug, PartialEq, Eq, Drop)]
pub struct LinuxSllHeader {
    /// Packet type of the Linux cooked capture header, bytes 0 and 1: to whom or by whom the packet was sent.
    pub packet_type: LinuxSllPacketType,
    /// ARPHRD hardware type of the captured device, bytes 2 and 3 of the Linux cooked capture header.
    pub arp_hrd_type: ArpHardwareId,
    /// Length of the sender's link layer address in bytes, bytes 4 and 5 of the Linux cooked capture header. If it is
    /// greater than 8, the header contains only the first 8 bytes of the address.
    pub sender_address_valid_length: u16,
    /// Link layer address of the sender, padded to 8 bytes, bytes 6 to 13 of the Linux cooked capture header.
    pub sender_address: [u8; 8],
    /// Protocol of the payload, bytes 14 and 15 of the Linux cooked capture header.
    pub protocol_type: LinuxSllProtocolType,
}

impl LinuxSllHeader {
    /// Length of a Linux cooked capture header (SLL v1) in bytes.
    pub const LEN: usize = 16;

    /// Parses the Linux cooked capture header (SLL v1) at the start of `slice`, and returns it with the bytes after it.
    #[inline]
    pub fn from_slice(slice: &[u8]) -> Result<(LinuxSllHeader, &[u8]), HeaderSliceError>
        ensures ok { IfOk result (λ read. IsLinuxSll slice.now (parts_of read.0 read.1.now [])) }
        ensures only { (packet : Parts LinuxSllHeader) → IsLinuxSll slice.now packet
            → IsOkAnd result (λ read. parts_of read.0 read.1.now [] ≡ packet) }
        ensures err { IfErr result (RefusesLinuxSll slice.now) }
    {
        let slice = LinuxSllSlice::from_slice(slice)?;
        Ok((slice.to_header(), slice.payload_slice()))
    }

    /// Length of a Linux cooked capture header (SLL v1) in bytes: 16.
    #[inline]
    pub fn header_len(&self) -> usize
        ensures value { result ≡ 16 }
        ensures bytes { result ≡ length (linux_sll_bytes self.now) }
    {
        LinuxSllHeader::LEN
    }

    /// Returns the wire bytes of the Linux cooked capture header. The fields are not checked: if they are unsupported
    /// or inconsistent, parsing the bytes does not return this header.
    #[inline]
    pub fn to_bytes(&self) -> [u8; 16]
        ensures { result ≡ linux_sll_bytes self.now }
    {
        let [p0, p1] = self.packet_type.0.to_be_bytes();
        let [h0, h1] = self.arp_hrd_type.0.to_be_bytes();
        let [l0, l1] = self.sender_address_valid_length.to_be_bytes();
        let [a0, a1, a2, a3, a4, a5, a6, a7] = self.sender_address;
        let [n0, n1] = self.protocol_type.number().to_be_bytes();
        [
            p0, p1, h0, h1, l0, l1, a0, a1, a2, a3, a4, a5, a6, a7, n0, n1,
        ]
    }

    /// Appends the wire bytes of the Linux cooked capture header to `buf`. Allocates only if the capacity of `buf` is
    /// too small; if the allocation fails, `buf` is unchanged.
    pub fn write(&self, buf: &mut Vec<u8>) -> Result<(), AllocError>
        ensures ok { OnOk result (buf.new.items ≡ buf.old.items ++ linux_sll_bytes self.now) }
        ensures err { OnErr result (buf.new.items ≡ buf.old.items) }
        ensures full { OnErr result (vec_capacity buf.old < vec_len buf.old + length (linux_sll_bytes self.now)) }
        ensures capacity { vec_capacity buf.old ≤ vec_capacity buf.new }
    {
        buf.extend_from_slice(&self.to_bytes())
    }
}
