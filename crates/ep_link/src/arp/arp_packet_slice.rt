//! ARP packets (RFC 826) whose fields are read from a slice without copying it.

ghost use Rattle.std.specs.Prelude.{◌≡◌, ◌≤◌, length};
ghost use Rattle.ep_link.specs.Arp.{arp_len_of};

use crate::arp::arp_hardware_id::ArpHardwareId;
use crate::arp::arp_operation::ArpOperation;
use crate::arp::arp_packet::ArpPacket;
use ep_base::err::{Layer, LenError};
use ep_base::{EtherType, LenSource};

/// Bytes of exactly one complete ARP packet.
#[derive(Clone, Copy, Debug, PartialEq, Eq)]
struct ArpBytes<'a> {
    slice: &'a [u8],
    ghost fixed: { 8 ≤ length slice.now },
    ghost whole: { length slice.now ≡ arp_len_of slice.now },
}

/// Slice of an ARP packet (RFC 826): 8 bytes followed by four addresses of at most 255 bytes each.
#[derive(Clone, Debug, PartialEq, Eq, Drop)]
pub struct ArpPacketSlice<'a> {
    bytes: ArpBytes<'a>,
}

impl<'a> ArpPacketSlice<'a> {
    ghost use Rattle.std.specs.Prelude.{◌≡◌, ◌≤◌, ◌++◌, List, [], ℕ, length, IfOk, IfErr, IsOkAnd};
    ghost use Rattle.ep_link.specs.Arp.{Arp, IsArp, RefusesArp, arp_len};
    ghost use Rattle.ep_link.specs.ArpSlices.{arp_of, arp_slice_bytes, arp_slice_packet, arp_slice_parts};

    /// Parses the ARP packet at the start of `slice`, and ignores the bytes after it.
    pub fn from_slice(slice: &'a [u8]) -> Result<ArpPacketSlice<'a>, LenError>
        ensures ok { IfOk result (λ shown. (left : List ℕ) × (slice.now ≡ arp_slice_bytes shown ++ left)
            × IsArp slice.now (arp_slice_parts shown left)) }
        ensures only { (read : Arp × List ℕ) → IsArp slice.now read
            → IsOkAnd result (λ shown. arp_slice_parts shown read.1 ≡ read) }
        ensures err { IfErr result (RefusesArp slice.now) }
    {
        if slice.len() < ArpPacket::FIXED_LEN {
            return Err(LenError::at_start(
                ArpPacket::FIXED_LEN,
                slice.len(),
                LenSource::Slice,
                Layer::Arp,
            ));
        }
        let packet_len = ArpPacket::FIXED_LEN + 2 * slice[4] as usize + 2 * slice[5] as usize;
        if slice.len() < packet_len {
            return Err(LenError::at_start(
                packet_len,
                slice.len(),
                LenSource::ArpAddrLengths,
                Layer::Arp,
            ));
        }
        Ok(ArpPacketSlice {
            bytes: ArpBytes {
                slice: &slice[..packet_len],
            },
        })
    }

    /// All bytes of the ARP packet.
    #[inline]
    pub fn slice(&self) -> &'a [u8]
        ensures { result.now ≡ arp_slice_bytes self.now }
    {
        self.bytes.slice
    }

    /// Length of the ARP packet in bytes, including its addresses.
    #[inline]
    pub fn packet_len(&self) -> usize
        ensures bytes { result ≡ length (arp_slice_bytes self.now) }
        ensures value { result ≡ arp_len (arp_slice_packet self.now) }
    {
        self.bytes.slice.len()
    }

    /// Length of the entire ARP packet in bytes, since an ARP packet has no payload.
    #[inline]
    pub fn header_len(&self) -> usize
        ensures { result ≡ arp_len (arp_slice_packet self.now) }
    {
        self.packet_len()
    }

    /// Empty slice, since an ARP packet has no payload.
    #[inline]
    pub fn payload(&self) -> &'a [u8]
        ensures { result.now ≡ [] }
    {
        &self.bytes.slice[self.header_len()..]
    }

    /// Hardware type of the hardware addresses in the ARP packet, bytes 0 and 1.
    #[inline]
    pub fn hw_addr_type(&self) -> ArpHardwareId
        ensures { result ≡ (arp_slice_packet self.now).hw_addr_type }
    {
        ArpHardwareId(u16::from_be_bytes([self.bytes.slice[0], self.bytes.slice[1]]))
    }

    /// Ether type of the protocol addresses in the ARP packet, bytes 2 and 3.
    #[inline]
    pub fn proto_addr_type(&self) -> EtherType
        ensures { result ≡ (arp_slice_packet self.now).proto_addr_type }
    {
        EtherType(u16::from_be_bytes([self.bytes.slice[2], self.bytes.slice[3]]))
    }

    /// Length of each hardware address in the ARP packet in bytes, byte 4.
    #[inline]
    pub fn hw_addr_size(&self) -> u8
        ensures { result ≡ length (arp_slice_packet self.now).sender_hw_addr }
    {
        self.bytes.slice[4]
    }

    /// Length of each protocol address in the ARP packet in bytes, byte 5.
    #[inline]
    pub fn protocol_addr_size(&self) -> u8
        ensures { result ≡ length (arp_slice_packet self.now).sender_protocol_addr }
    {
        self.bytes.slice[5]
    }

    /// Operation of the ARP packet (such as request or reply), bytes 6 and 7.
    #[inline]
    pub fn operation(&self) -> ArpOperation
        ensures { result ≡ (arp_slice_packet self.now).operation }
    {
        ArpOperation(u16::from_be_bytes([self.bytes.slice[6], self.bytes.slice[7]]))
    }

    /// Sender hardware address of the ARP packet, starting at byte 8.
    #[inline]
    pub fn sender_hw_addr(&self) -> &'a [u8]
        ensures value { result.now ≡ (arp_slice_packet self.now).sender_hw_addr }
        ensures bound { length result.now ≤ 255 }
    {
        let hw = self.bytes.slice[4] as usize;
        &self.bytes.slice[8..8 + hw]
    }

    /// Sender protocol address of the ARP packet, after the sender hardware address.
    #[inline]
    pub fn sender_protocol_addr(&self) -> &'a [u8]
        ensures value { result.now ≡ (arp_slice_packet self.now).sender_protocol_addr }
        ensures bound { length result.now ≤ 255 }
    {
        let hw = self.bytes.slice[4] as usize;
        let protocol = self.bytes.slice[5] as usize;
        &self.bytes.slice[8 + hw..8 + hw + protocol]
    }

    /// Target hardware address of the ARP packet, after the sender protocol address.
    #[inline]
    pub fn target_hw_addr(&self) -> &'a [u8]
        ensures value { result.now ≡ (arp_slice_packet self.now).target_hw_addr }
        ensures bound { length result.now ≤ 255 }
    {
        let hw = self.bytes.slice[4] as usize;
        let protocol = self.bytes.slice[5] as usize;
        &self.bytes.slice[8 + hw + protocol..8 + 2 * hw + protocol]
    }

    /// Target protocol address of the ARP packet, after the target hardware address.
    #[inline]
    pub fn target_protocol_addr(&self) -> &'a [u8]
        ensures value { result.now ≡ (arp_slice_packet self.now).target_protocol_addr }
        ensures bound { length result.now ≤ 255 }
    {
        let hw = self.bytes.slice[4] as usize;
        let protocol = self.bytes.slice[5] as usize;
        &self.bytes.slice[8 + 2 * hw + protocol..8 + 2 * hw + 2 * protocol]
    }

    /// Returns the ARP packet as an owned value, with copies of its addresses.
    pub fn to_header(&self) -> ArpPacket
        ensures { arp_of result ≡ arp_slice_packet self.now }
    {
        ArpPacket::new(
            self.hw_addr_type(),
            self.proto_addr_type(),
            self.operation(),
            self.sender_hw_addr(),
            self.sender_protocol_addr(),
            self.target_hw_addr(),
            self.target_protocol_addr(),
        )
        .unwrap()
    }
}
