//! ARP packets as owned values (RFC 826).

ghost use Rattle.std.specs.Prelude.{◌≡◌, length};

use crate::arp::arp_address::ArpAddress;
use crate::arp::arp_hardware_id::ArpHardwareId;
use crate::arp::arp_operation::ArpOperation;
use crate::arp::arp_packet_slice::ArpPacketSlice;
use crate::err::arp::{ArpHwAddrError, ArpNewError, ArpProtoAddrError};
use arrayvec::ArrayVec;
use ep_base::EtherType;
use ep_base::err::LenError;
use std::alloc::AllocError;

/// ARP packet (RFC 826): 8 bytes followed by four addresses of at most 255 bytes each.
#[derive(Debug, PartialEq, Eq, Drop)]
pub struct ArpPacket {
    /// Hardware type of the hardware addresses in the ARP packet, bytes 0 and 1.
    pub hw_addr_type: ArpHardwareId,
    /// Ether type of the protocol addresses in the ARP packet, bytes 2 and 3.
    pub proto_addr_type: EtherType,
    /// Operation of the ARP packet (such as request or reply), bytes 6 and 7.
    pub operation: ArpOperation,
    sender_hw_addr: ArpAddress,
    sender_protocol_addr: ArpAddress,
    target_hw_addr: ArpAddress,
    target_protocol_addr: ArpAddress,
    ghost hw_addr_len: { length target_hw_addr ≡ length sender_hw_addr },
    ghost protocol_addr_len: { length target_protocol_addr ≡ length sender_protocol_addr },
}

impl Clone for ArpPacket {
    ghost use Rattle.std.specs.Prelude.{◌≡◌, ⊤};

    ghost is_clone = { λ source copy. copy ≡ source };

    ghost is_infallible = { λ _. ⊤ };

    fn clone(&self) -> Result<Self, AllocError> {
        Ok(ArpPacket {
            hw_addr_type: self.hw_addr_type,
            proto_addr_type: self.proto_addr_type,
            operation: self.operation,
            sender_hw_addr: self.sender_hw_addr.clone()?,
            sender_protocol_addr: self.sender_protocol_addr.clone()?,
            target_hw_addr: self.target_hw_addr.clone()?,
            target_protocol_addr: self.target_protocol_addr.clone()?,
        })
    }
}

impl ArpPacket {
    ghost use Rattle.std.specs.Prelude.{◌≡◌, ◌≤◌, ◌++◌, ◌+◌, ◌<◌, List, ℕ, length, IfOk, IfErr, OnOk, OnErr, IsOkAnd, vec_len, vec_capacity};
    ghost use Rattle.ep_link.specs.Arp.{Arp, FitsArp, IsArp, RefusesArp, RefusesArpAddresses, arp_bytes, arp_len};
    ghost use Rattle.ep_link.specs.ArpSlices.{arp_of};

    /// Maximum length of an ARP packet in bytes: 8 bytes and four addresses of 255 bytes each.
    pub const MAX_LEN: usize = 1028;

    /// Length in bytes of the fields before the addresses of an ARP packet.
    pub(crate) const FIXED_LEN: usize = 8;

    /// Creates an ARP packet, and copies the four addresses into it.
    ///
    /// # Errors
    ///
    /// Returns an error if the two hardware addresses have different lengths, or else if they are longer than 255
    /// bytes. The two protocol addresses are then checked in the same way.
    pub fn new(
        hw_addr_type: ArpHardwareId,
        proto_addr_type: EtherType,
        operation: ArpOperation,
        sender_hw_addr: &[u8],
        sender_protocol_addr: &[u8],
        target_hw_addr: &[u8],
        target_protocol_addr: &[u8],
    ) -> Result<ArpPacket, ArpNewError>
        ensures ok { IfOk result (λ packet. (length target_hw_addr.now ≡ length sender_hw_addr.now)
            × (length sender_hw_addr.now ≤ 255)
            × (length target_protocol_addr.now ≡ length sender_protocol_addr.now)
            × (length sender_protocol_addr.now ≤ 255)
            × (arp_of packet ≡ record {
              hw_addr_type = hw_addr_type;
              proto_addr_type = proto_addr_type;
              operation = operation;
              sender_hw_addr = sender_hw_addr.now;
              sender_protocol_addr = sender_protocol_addr.now;
              target_hw_addr = target_hw_addr.now;
              target_protocol_addr = target_protocol_addr.now;
            })) }
        ensures err { IfErr result (RefusesArpAddresses sender_hw_addr.now sender_protocol_addr.now
            target_hw_addr.now target_protocol_addr.now) }
    {
        if sender_hw_addr.len() != target_hw_addr.len() {
            return Err(ArpNewError::HwAddr(ArpHwAddrError::LenNonMatching(
                sender_hw_addr.len(),
                target_hw_addr.len(),
            )));
        }
        if sender_hw_addr.len() > ArpAddress::MAX_LEN {
            return Err(ArpNewError::HwAddr(ArpHwAddrError::LenTooBig(sender_hw_addr.len())));
        }
        if sender_protocol_addr.len() != target_protocol_addr.len() {
            return Err(ArpNewError::ProtoAddr(ArpProtoAddrError::LenNonMatching(
                sender_protocol_addr.len(),
                target_protocol_addr.len(),
            )));
        }
        if sender_protocol_addr.len() > ArpAddress::MAX_LEN {
            return Err(ArpNewError::ProtoAddr(ArpProtoAddrError::LenTooBig(
                sender_protocol_addr.len(),
            )));
        }
        Ok(ArpPacket {
            hw_addr_type,
            proto_addr_type,
            operation,
            sender_hw_addr: ArpAddress::copy_of(sender_hw_addr),
            sender_protocol_addr: ArpAddress::copy_of(sender_protocol_addr),
            target_hw_addr: ArpAddress::copy_of(target_hw_addr),
            target_protocol_addr: ArpAddress::copy_of(target_protocol_addr),
        })
    }

    /// Parses the ARP packet at the start of `slice`, and ignores the bytes after it.
    pub fn from_slice(slice: &[u8]) -> Result<ArpPacket, LenError>
        ensures ok { IfOk result (λ packet. (left : List ℕ) × IsArp slice.now (arp_of packet, left)) }
        ensures only { (read : Arp × List ℕ) → IsArp slice.now read
            → IsOkAnd result (λ packet. arp_of packet ≡ read.0) }
        ensures err { IfErr result (RefusesArp slice.now) }
    {
        let packet = ArpPacketSlice::from_slice(slice)?;
        Ok(packet.to_header())
    }

    /// Length of each hardware address in the ARP packet in bytes, byte 4.
    #[inline]
    pub fn hw_addr_size(&self) -> u8
        ensures { result ≡ length (arp_of self.now).sender_hw_addr }
    {
        self.sender_hw_addr.len()
    }

    /// Length of each protocol address in the ARP packet in bytes, byte 5.
    #[inline]
    pub fn protocol_addr_size(&self) -> u8
        ensures { result ≡ length (arp_of self.now).sender_protocol_addr }
    {
        self.sender_protocol_addr.len()
    }

    /// Sender hardware address of the ARP packet, starting at byte 8.
    #[inline]
    pub fn sender_hw_addr(&self) -> &[u8]
        ensures value { result.now ≡ (arp_of self.now).sender_hw_addr }
        ensures bound { length result.now ≤ 255 }
    {
        self.sender_hw_addr.as_slice()
    }

    /// Sender protocol address of the ARP packet, after the sender hardware address.
    #[inline]
    pub fn sender_protocol_addr(&self) -> &[u8]
        ensures value { result.now ≡ (arp_of self.now).sender_protocol_addr }
        ensures bound { length result.now ≤ 255 }
    {
        self.sender_protocol_addr.as_slice()
    }

    /// Target hardware address of the ARP packet, after the sender protocol address.
    #[inline]
    pub fn target_hw_addr(&self) -> &[u8]
        ensures value { result.now ≡ (arp_of self.now).target_hw_addr }
        ensures bound { length result.now ≤ 255 }
    {
        self.target_hw_addr.as_slice()
    }

    /// Target protocol address of the ARP packet, after the target hardware address.
    #[inline]
    pub fn target_protocol_addr(&self) -> &[u8]
        ensures value { result.now ≡ (arp_of self.now).target_protocol_addr }
        ensures bound { length result.now ≤ 255 }
    {
        self.target_protocol_addr.as_slice()
    }

    /// Length of the ARP packet in bytes, including its addresses.
    #[inline]
    pub fn packet_len(&self) -> usize
        ensures value { result ≡ arp_len (arp_of self.now) }
        ensures bytes { result ≡ length (arp_bytes (arp_of self.now)) }
        ensures bound { result ≤ 1028 }
    {
        ArpPacket::FIXED_LEN
            + 2 * self.hw_addr_size() as usize
            + 2 * self.protocol_addr_size() as usize
    }

    /// Returns the wire bytes of the ARP packet, at most 1028.
    pub fn to_bytes(&self) -> ArrayVec<u8, 1028>
        ensures bytes { result.items ≡ arp_bytes (arp_of self.now) }
        ensures fits { FitsArp (arp_of self.now) }
    {
        let hw_addr_type = self.hw_addr_type.0.to_be_bytes();
        let proto_addr_type = self.proto_addr_type.0.to_be_bytes();
        let operation = self.operation.0.to_be_bytes();
        let sender_hw_addr = self.sender_hw_addr();
        let sender_protocol_addr = self.sender_protocol_addr();
        let target_hw_addr = self.target_hw_addr();
        let target_protocol_addr = self.target_protocol_addr();
        let fixed = [
            hw_addr_type[0],
            hw_addr_type[1],
            proto_addr_type[0],
            proto_addr_type[1],
            self.hw_addr_size(),
            self.protocol_addr_size(),
            operation[0],
            operation[1],
        ];
        let mut bytes = ArrayVec::new();
        bytes.try_extend_from_slice(&fixed).unwrap();
        bytes.try_extend_from_slice(sender_hw_addr).unwrap();
        bytes.try_extend_from_slice(sender_protocol_addr).unwrap();
        bytes.try_extend_from_slice(target_hw_addr).unwrap();
        bytes.try_extend_from_slice(target_protocol_addr).unwrap();
        bytes
    }

    /// Appends the wire bytes of the ARP packet to `buf`. Allocates only if the capacity of `buf` is too small; if the
    /// allocation fails, `buf` is unchanged.
    pub fn write(&self, buf: &mut Vec<u8>) -> Result<(), AllocError>
        ensures ok { OnOk result (buf.new.items ≡ buf.old.items ++ arp_bytes (arp_of self.now)) }
        ensures err { OnErr result (buf.new.items ≡ buf.old.items) }
        ensures full { OnErr result (vec_capacity buf.old < vec_len buf.old + length (arp_bytes (arp_of self.now))) }
        ensures capacity { vec_capacity buf.old ≤ vec_capacity buf.new }
        ensures fits { FitsArp (arp_of self.now) }
    {
        buf.extend_from_slice(self.to_bytes().as_slice())
    }
}
