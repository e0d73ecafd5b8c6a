//! Ethernet II headers as owned values (IEEE 802.3, clause 3).

ghost use Rattle.std.specs.Prelude.{◌≡◌, ◌++◌, ◌+◌, ◌<◌, ◌≤◌, length, [], IfOk, IfErr, OnOk, OnErr, IsOkAnd, vec_len, vec_capacity};
ghost use Rattle.ep_base.specs.Tables.{Parts, parts_of};
ghost use Rattle.ep_link.specs.Ethernet2.{ethernet2_bytes, IsEthernet2, RefusesEthernet2};

use crate::link::ethernet2_slice::Ethernet2Slice;
use ep_base::EtherType;
use ep_base::err::LenError;
use std::alloc::AllocError;

/// Ethernet II header (IEEE 802.3, clause 3), 14 bytes. The frame check sequence is not part of it.
#[derive(Clone, Debug, PartialEq, Eq, Drop)]
pub struct Ethernet2Header {
    /// Source MAC address of the Ethernet II header, bytes 6 to 11.
    pub source: [u8; 6],
    /// Destination MAC address of the Ethernet II header, bytes 0 to 5.
    pub destination: [u8; 6],
    /// Ether type of the Ethernet II payload, bytes 12 and 13 of the header.
    pub ether_type: EtherType,
}

impl Ethernet2Header {
    /// Length of an Ethernet II header in bytes.
    pub const LEN: usize = 14;

    /// Parses the Ethernet II header at the start of `slice`, and returns it with the bytes after it.
    #[inline]
    pub fn from_slice(slice: &[u8]) -> Result<(Ethernet2Header, &[u8]), LenError>
        ensures ok { IfOk result (λ read. IsEthernet2 slice.now (parts_of read.0 read.1.now [])) }
        ensures only { (frame : Parts Ethernet2Header) → IsEthernet2 slice.now frame
            → IsOkAnd result (λ read. parts_of read.0 read.1.now [] ≡ frame) }
        ensures err { IfErr result (RefusesEthernet2 slice.now) }
    {
        let slice = Ethernet2Slice::from_slice_without_fcs(slice)?;
        Ok((slice.to_header(), slice.payload_slice()))
    }

    /// Length of an Ethernet II header in bytes: 14.
    #[inline]
    pub fn header_len(&self) -> usize
        ensures value { result ≡ 14 }
        ensures bytes { result ≡ length (ethernet2_bytes self.now) }
    {
        Ethernet2Header::LEN
    }

    /// Returns the wire bytes of the Ethernet II header.
    #[inline]
    pub fn to_bytes(&self) -> [u8; 14]
        ensures { result ≡ ethernet2_bytes self.now }
    {
        let [d0, d1, d2, d3, d4, d5] = self.destination;
        let [s0, s1, s2, s3, s4, s5] = self.source;
        let [t0, t1] = self.ether_type.0.to_be_bytes();
        [d0, d1, d2, d3, d4, d5, s0, s1, s2, s3, s4, s5, t0, t1]
    }

    /// Appends the wire bytes of the Ethernet II header to `buf`. Allocates only if the capacity of `buf` is too small;
    /// if the allocation fails, `buf` is unchanged.
    pub fn write(&self, buf: &mut Vec<u8>) -> Result<(), AllocError>
        ensures ok { OnOk result (buf.new.items ≡ buf.old.items ++ ethernet2_bytes self.now) }
        ensures err { OnErr result (buf.new.items ≡ buf.old.items) }
        ensures full { OnErr result (vec_capacity buf.old < vec_len buf.old + length (ethernet2_bytes self.now)) }
        ensures capacity { vec_capacity buf.old ≤ vec_capacity buf.new }
    {
        buf.extend_from_slice(&self.to_bytes())
    }
}
