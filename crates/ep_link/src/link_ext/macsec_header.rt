//! MACsec tags (IEEE 802.1AE, 9) as owned values.

ghost use Rattle.std.specs.Prelude.{◌≡◌, ◌≤◌, ◌++◌, ◌+◌, ◌<◌, IfOk, IfErr, OnOk, OnErr, IsOkAnd, List, ℕ, length, vec_len, vec_capacity};
ghost use Rattle.ep_link.specs.Macsec.{IsMacsecHeader, RefusesMacsecHeader, macsec_bytes};
ghost use Rattle.ep_link.specs.Macsec.{macsec_header_len, ptype_type, sci_bytes, ptype_bytes};

use crate::link_ext::{MacsecHeaderSlice, MacsecPType};
use arrayvec::ArrayVec;
use ep_base::err::macsec::HeaderSliceError;
use ep_base::{EtherType, MacsecAn, MacsecShortLen};
use std::alloc::AllocError;

/// MACsec tag (IEEE 802.1AE, 9), including the ether type of an unmodified payload: 6 to 16 bytes.
#[derive(Clone, Debug, PartialEq, Eq, Drop)]
pub struct MacsecHeader {
    /// Modification of the MACsec payload (none, modified or encrypted): flags E (0x08) and C (0x04) of byte 0. For an
    /// unmodified payload, the last two bytes of the tag are its ether type.
    pub ptype: MacsecPType,
    /// End station flag (ES) of the MACsec tag: the source MAC address identifies the secure channel (byte 0, bit
    /// 0x40).
    pub endstation_id: bool,
    /// Single copy broadcast flag (SCB) of the MACsec tag: the secure channel supports the single copy broadcast of a
    /// passive optical network (byte 0, bit 0x10).
    pub scb: bool,
    /// Association number (AN) of the MACsec tag, the lower 2 bits of byte 0.
    pub an: MacsecAn,
    /// Short length (SL) of the MACsec tag, the lower 6 bits of byte 1. It counts the payload bytes after the packet
    /// number and the optional secure channel identifier, including the ether type of an unmodified payload. 0 means
    /// that the payload extends to the end of the frame.
    pub short_len: MacsecShortLen,
    /// Packet number (PN) of the MACsec tag, bytes 2 to 5.
    pub packet_nr: u32,
    /// Secure channel identifier (SCI) of the MACsec tag, bytes 6 to 13, or `None` if the SC flag (0x20) of byte 0 is
    /// not set.
    pub sci: Option<u64>,
}

impl MacsecHeader {
    /// Minimum length of a MACsec tag in bytes: no secure channel identifier, and no ether type, since the payload is
    /// modified.
    pub const MIN_LEN: usize = 6;

    /// Maximum length of a MACsec tag in bytes: with a secure channel identifier, and with the ether type of an
    /// unmodified payload.
    pub const MAX_LEN: usize = 16;

    /// Parses the MACsec tag at the start of `slice`, and returns it with all bytes after it. The short length of the
    /// tag does not limit the returned bytes.
    pub fn from_slice(slice: &[u8]) -> Result<(MacsecHeader, &[u8]), HeaderSliceError>
        ensures ok { IfOk result (λ read. IsMacsecHeader slice.now (read.0, read.1.now)) }
        ensures only { (header : MacsecHeader) (rest : List ℕ) → IsMacsecHeader slice.now (header, rest)
            → IsOkAnd result (λ read. (read.0 ≡ header) × (read.1.now ≡ rest)) }
        ensures err { IfErr result (RefusesMacsecHeader slice.now) }
    {
        let header = MacsecHeaderSlice::from_slice(slice)?;
        Ok((header.to_header(), &slice[header.header_len()..]))
    }

    /// Length of the MACsec tag in bytes, including the ether type of an unmodified payload: 6 to 16.
    #[inline]
    pub fn header_len(&self) -> usize
        ensures value { result ≡ macsec_header_len self.now }
        ensures bytes { result ≡ length (macsec_bytes self.now) }
        ensures bound { result ≤ 16 }
    {
        let sci_len = if self.sci.is_some() { 8 } else { 0 };
        let type_len = match self.ptype {
            MacsecPType::Unmodified(_) => 2,
            _ => 0,
        };
        MacsecHeader::MIN_LEN + sci_len + type_len
    }

    /// Ether type of the MACsec payload, or `None` if the payload is modified or encrypted.
    #[inline]
    pub fn next_ether_type(&self) -> Option<EtherType>
        ensures { result ≡ ptype_type self.now.ptype }
    {
        match self.ptype {
            MacsecPType::Unmodified(ether_type) => Some(ether_type),
            _ => None,
        }
    }

    /// Returns the wire bytes of the MACsec tag (IEEE 802.1AE, 9.3), with reserved bits 0.
    pub fn to_bytes(&self) -> ArrayVec<u8, 16>
        ensures { result.items ≡ macsec_bytes self.now }
    {
        let mut bytes = ArrayVec::new();
        bytes.try_extend_from_slice(&self.fixed_bytes()).unwrap();
        if let Some(sci) = self.sci {
            bytes.try_extend_from_slice(&sci.to_be_bytes()).unwrap();
        }
        if let Some(ether_type) = self.next_ether_type() {
            bytes
                .try_extend_from_slice(&ether_type.0.to_be_bytes())
                .unwrap();
        }
        bytes
    }

    /// Appends the wire bytes of the MACsec tag to `buf`. Allocates only if the capacity of `buf` is too small; if the
    /// allocation fails, `buf` is unchanged.
    pub fn write(&self, buf: &mut Vec<u8>) -> Result<(), AllocError>
        ensures ok { OnOk result (buf.new.items ≡ buf.old.items ++ macsec_bytes self.now) }
        ensures err { OnErr result (buf.new.items ≡ buf.old.items) }
        ensures full { OnErr result (vec_capacity buf.old < vec_len buf.old + length (macsec_bytes self.now)) }
        ensures capacity { vec_capacity buf.old ≤ vec_capacity buf.new }
    {
        buf.extend_from_slice(self.to_bytes().as_slice())
    }

    /// Returns the first 6 wire bytes of the MACsec tag: flags and association number, short length, packet number.
    fn fixed_bytes(&self) -> [u8; 6]
        ensures bytes { result ++ sci_bytes self.now.sci ++ ptype_bytes self.now.ptype ≡ macsec_bytes self.now }
        ensures len { length result ≡ 6 }
    {
        let endstation_id = if self.endstation_id { 0x40 } else { 0 };
        let sci = if self.sci.is_some() { 0x20 } else { 0 };
        let scb = if self.scb { 0x10 } else { 0 };
        let modification = match self.ptype {
            MacsecPType::Unmodified(_) => 0,
            MacsecPType::Modified => 0x04,
            MacsecPType::Encrypted => 0x0c,
            MacsecPType::EncryptedUnmodified => 0x08,
        };
        let [n0, n1, n2, n3] = self.packet_nr.to_be_bytes();
        [
            endstation_id + sci + scb + modification + self.an.value(),
            self.short_len.value(),
            n0,
            n1,
            n2,
            n3,
        ]
    }
}
