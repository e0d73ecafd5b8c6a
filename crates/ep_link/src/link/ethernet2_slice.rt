//! Ethernet II frames (IEEE 802.3, clause 3) whose fields are read from a slice without copying it.

use crate::link::ethernet2_header::Ethernet2Header;
use ep_base::err::{Layer, LenError};
use ep_base::{AtLeast, EtherPayloadSlice, EtherType, LenSource};

/// Slice of an Ethernet II frame (header and payload) without frame check sequence (IEEE 802.3, clause 3).
#[derive(Clone, Debug, PartialEq, Eq, Drop)]
pub struct Ethernet2Slice<'a> {
    bytes: AtLeast<'a, 14>,
}

impl<'a> Ethernet2Slice<'a> {
    ghost use Rattle.std.specs.Prelude.{◌≡◌, ◌++◌, IfOk, IfErr, IsOkAnd, List, ℕ};
    ghost use Rattle.ep_base.specs.Tables.{Parts};
    ghost use Rattle.ep_base.specs.declared.len_source.LenSource.TheVariants as source;
    ghost use Rattle.ep_link.specs.declared.link.ethernet2_header.Ethernet2Header.{Ethernet2Header};
    ghost use Rattle.ep_link.specs.Ethernet2.{IsEthernet2, RefusesEthernet2};
    ghost use Rattle.ep_link.specs.Ethernet2Slices.{ethernet2_slice_bytes, ethernet2_slice_header};
    ghost use Rattle.ep_link.specs.Ethernet2Slices.{ethernet2_slice_payload, ethernet2_slice_parts};

    /// Parses `slice` as an Ethernet II frame: 14 bytes of header, and all other bytes as payload, without a frame
    /// check sequence.
    pub fn from_slice_without_fcs(slice: &'a [u8]) -> Result<Ethernet2Slice<'a>, LenError>
        ensures ok { IfOk result (λ shown. (left : List ℕ) × (slice.now ≡ ethernet2_slice_bytes shown ++ left)
            × IsEthernet2 slice.now (ethernet2_slice_parts shown left)) }
        ensures only { (frame : Parts Ethernet2Header) → IsEthernet2 slice.now frame
            → IsOkAnd result (λ shown. ethernet2_slice_parts shown frame.left ≡ frame) }
        ensures err { IfErr result (RefusesEthernet2 slice.now) }
    {
        if slice.len() < Ethernet2Header::LEN {
            return Err(LenError::at_start(
                Ethernet2Header::LEN,
                slice.len(),
                LenSource::Slice,
                Layer::Ethernet2Header,
            ));
        }
        Ok(Ethernet2Slice {
            bytes: AtLeast { slice },
        })
    }

    /// All bytes of the Ethernet II frame: header and payload.
    #[inline]
    pub fn slice(&self) -> &'a [u8]
        ensures { result.now ≡ ethernet2_slice_bytes self.now }
    {
        self.bytes.slice
    }

    /// Length of an Ethernet II header in bytes: 14.
    #[inline]
    pub fn header_len(&self) -> usize
        ensures { result ≡ 14 }
    {
        Ethernet2Header::LEN
    }

    /// Destination MAC address of the Ethernet II frame, bytes 0 to 5.
    #[inline]
    pub fn destination(&self) -> [u8; 6]
        ensures { result ≡ (ethernet2_slice_header self.now).destination }
    {
        let bytes = self.bytes.slice;
        [bytes[0], bytes[1], bytes[2], bytes[3], bytes[4], bytes[5]]
    }

    /// Source MAC address of the Ethernet II frame, bytes 6 to 11.
    #[inline]
    pub fn source(&self) -> [u8; 6]
        ensures { result ≡ (ethernet2_slice_header self.now).source }
    {
        let bytes = self.bytes.slice;
        [bytes[6], bytes[7], bytes[8], bytes[9], bytes[10], bytes[11]]
    }

    /// Ether type of the Ethernet II payload, bytes 12 and 13 of the frame.
    #[inline]
    pub fn ether_type(&self) -> EtherType
        ensures { result ≡ (ethernet2_slice_header self.now).ether_type }
    {
        EtherType(u16::from_be_bytes([self.bytes.slice[12], self.bytes.slice[13]]))
    }

    /// Returns the Ethernet II header as an owned value.
    #[inline]
    pub fn to_header(&self) -> Ethernet2Header
        ensures { result ≡ ethernet2_slice_header self.now }
    {
        Ethernet2Header {
            source: self.source(),
            destination: self.destination(),
            ether_type: self.ether_type(),
        }
    }

    /// Payload of the Ethernet II frame: the bytes after the header.
    #[inline]
    pub fn payload_slice(&self) -> &'a [u8]
        ensures { result.now ≡ ethernet2_slice_payload self.now }
    {
        &self.bytes.slice[Ethernet2Header::LEN..]
    }

    /// Payload of the Ethernet II frame with its ether type. No length field limits it: it extends to the end of the
    /// slice.
    #[inline]
    pub fn payload(&self) -> EtherPayloadSlice<'a>
        ensures ether_type { result.ether_type ≡ (ethernet2_slice_header self.now).ether_type }
        ensures len_source { result.len_source ≡ source.Slice }
        ensures payload { result.payload.now ≡ ethernet2_slice_payload self.now }
    {
        EtherPayloadSlice {
            ether_type: self.ether_type(),
            len_source: LenSource::Slice,
            payload: self.payload_slice(),
        }
    }
}
