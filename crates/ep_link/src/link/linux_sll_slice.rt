//! Packets of Linux cooked captures (SLL v1) whose fields are read from a slice without copying it.

use crate::arp::ArpHardwareId;
use crate::link::linux_sll_header::LinuxSllHeader;
use crate::link::linux_sll_packet_type::LinuxSllPacketType;
use crate::link::linux_sll_payload_slice::LinuxSllPayloadSlice;
use crate::link::linux_sll_protocol_type::LinuxSllProtocolType;
use ep_base::err::linux_sll::{HeaderError, HeaderSliceError};
use ep_base::err::{Layer, LenError};
use ep_base::{AtLeast, LenSource};

/// Slice of a packet of a Linux cooked capture (SLL v1): header and payload.
#[derive(Clone, Debug, PartialEq, Eq, Drop)]
pub struct LinuxSllSlice<'a> {
    bytes: AtLeast<'a, 16>,
}

impl<'a> LinuxSllSlice<'a> {
    ghost use Rattle.std.specs.Prelude.{◌≡◌, ◌++◌, IfOk, IfErr, IsOkAnd, List, ℕ};
    ghost use Rattle.ep_base.specs.Tables.{Parts};
    ghost use Rattle.ep_link.specs.declared.link.linux_sll_header.LinuxSllHeader.{LinuxSllHeader};
    ghost use Rattle.ep_link.specs.LinuxSll.{IsLinuxSll, RefusesLinuxSll};
    ghost use Rattle.ep_link.specs.LinuxSllSlices.{linux_sll_slice_bytes, linux_sll_slice_header};
    ghost use Rattle.ep_link.specs.LinuxSllSlices.{linux_sll_slice_payload, linux_sll_slice_parts};

    /// Parses `slice` as a packet of a Linux cooked capture (SLL v1): 16 bytes of header, and all other bytes as
    /// payload.
    pub fn from_slice(slice: &'a [u8]) -> Result<LinuxSllSlice<'a>, HeaderSliceError>
        ensures ok { IfOk result (λ shown. (left : List ℕ) × (slice.now ≡ linux_sll_slice_bytes shown ++ left)
            × IsLinuxSll slice.now (linux_sll_slice_parts shown left)) }
        ensures only { (packet : Parts LinuxSllHeader) → IsLinuxSll slice.now packet
            → IsOkAnd result (λ shown. linux_sll_slice_parts shown packet.left ≡ packet) }
        ensures err { IfErr result (RefusesLinuxSll slice.now) }
    {
        const MAX_PACKET_TYPE: u16 = 7;
        if slice.len() < LinuxSllHeader::LEN {
            return Err(HeaderSliceError::Len(LenError::at_start(
                LinuxSllHeader::LEN,
                slice.len(),
                LenSource::Slice,
                Layer::LinuxSllHeader,
            )));
        }
        let packet_type = u16::from_be_bytes([slice[0], slice[1]]);
        if packet_type > MAX_PACKET_TYPE {
            return Err(HeaderSliceError::Content(HeaderError::UnsupportedPacketTypeField {
                packet_type,
            }));
        }
        let arp_hardware_type = u16::from_be_bytes([slice[2], slice[3]]);
        if !LinuxSllProtocolType::is_known(ArpHardwareId(arp_hardware_type)) {
            return Err(HeaderSliceError::Content(HeaderError::UnsupportedArpHardwareId {
                arp_hardware_type,
            }));
        }
        Ok(LinuxSllSlice {
            bytes: AtLeast { slice },
        })
    }

    /// All bytes of the Linux cooked capture's packet: header and payload.
    #[inline]
    pub fn slice(&self) -> &'a [u8]
        ensures { result.now ≡ linux_sll_slice_bytes self.now }
    {
        self.bytes.slice
    }

    /// Length of a Linux cooked capture header (SLL v1) in bytes: 16.
    #[inline]
    pub fn header_len(&self) -> usize
        ensures { result ≡ 16 }
    {
        LinuxSllHeader::LEN
    }

    /// Packet type of the Linux cooked capture header, bytes 0 and 1: to whom or by whom the packet was sent.
    #[inline]
    pub fn packet_type(&self) -> LinuxSllPacketType
        ensures { result ≡ (linux_sll_slice_header self.now).packet_type }
    {
        LinuxSllPacketType(u16::from_be_bytes([self.bytes.slice[0], self.bytes.slice[1]]))
    }

    /// ARPHRD hardware type of the captured device, bytes 2 and 3 of the Linux cooked capture header.
    #[inline]
    pub fn arp_hrd_type(&self) -> ArpHardwareId
        ensures { result ≡ (linux_sll_slice_header self.now).arp_hrd_type }
    {
        ArpHardwareId(u16::from_be_bytes([self.bytes.slice[2], self.bytes.slice[3]]))
    }

    /// Length of the sender's link layer address in bytes, bytes 4 and 5 of the Linux cooked capture header. If it is
    /// greater than 8, the header contains only the first 8 bytes of the address.
    #[inline]
    pub fn sender_address_valid_length(&self) -> u16
        ensures { result ≡ (linux_sll_slice_header self.now).sender_address_valid_length }
    {
        u16::from_be_bytes([self.bytes.slice[4], self.bytes.slice[5]])
    }

    /// Link layer address of the sender, padded to 8 bytes, bytes 6 to 13 of the Linux cooked capture header.
    #[inline]
    pub fn sender_address(&self) -> [u8; 8]
        ensures { result ≡ (linux_sll_slice_header self.now).sender_address }
    {
        let bytes = self.bytes.slice;
        [
            bytes[6], bytes[7], bytes[8], bytes[9], bytes[10], bytes[11], bytes[12], bytes[13],
        ]
    }

    /// Protocol of the payload, bytes 14 and 15 of the Linux cooked capture header. The ARPHRD hardware type (bytes 2
    /// and 3) determines how the number is interpreted.
    #[inline]
    pub fn protocol_type(&self) -> LinuxSllProtocolType
        ensures { result ≡ (linux_sll_slice_header self.now).protocol_type }
    {
        let number = u16::from_be_bytes([self.bytes.slice[14], self.bytes.slice[15]]);
        LinuxSllProtocolType::of(self.arp_hrd_type(), number)
    }

    /// Returns the Linux cooked capture header as an owned value.
    #[inline]
    pub fn to_header(&self) -> LinuxSllHeader
        ensures { result ≡ linux_sll_slice_header self.now }
    {
        LinuxSllHeader {
            packet_type: self.packet_type(),
            arp_hrd_type: self.arp_hrd_type(),
            sender_address_valid_length: self.sender_address_valid_length(),
            sender_address: self.sender_address(),
            protocol_type: self.protocol_type(),
        }
    }

    /// Payload of the Linux cooked capture's packet: the bytes after the header.
    #[inline]
    pub fn payload_slice(&self) -> &'a [u8]
        ensures { result.now ≡ linux_sll_slice_payload self.now }
    {
        &self.bytes.slice[LinuxSllHeader::LEN..]
    }

    /// Payload of the Linux cooked capture's packet, with its protocol.
    #[inline]
    pub fn payload(&self) -> LinuxSllPayloadSlice<'a>
        ensures protocol_type { result.protocol_type ≡ (linux_sll_slice_header self.now).protocol_type }
        ensures payload { result.payload.now ≡ linux_sll_slice_payload self.now }
    {
        LinuxSllPayloadSlice {
            protocol_type: self.protocol_type(),
            payload: self.payload_slice(),
        }
    }
}
