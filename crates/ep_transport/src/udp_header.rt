//! UDP header (RFC 768) as an owned value.

ghost use Rattle.std.specs.Prelude.{◌≡◌, ◌+◌, ◌%◌, ◌<◌, ◌≤◌, ◌++◌, IfOk, IfErr, OnOk, OnErr, IsOkAnd, MatchResult, None, List, ℕ, length, vec_len, vec_capacity};
ghost use Rattle.ep_base.specs.Checksum.{ones_sum, checksum_of, no_zero};
ghost use Rattle.ep_base.specs.Tables.{Refuses, first_row};
ghost use Rattle.ep_transport.specs.PseudoHeaders.{udp_message, udp_checksum_ipv4, udp_checksum_ipv6, udp_length_rows_ipv4, udp_length_rows_ipv6};
ghost use Rattle.ep_transport.specs.Udp.{udp_bytes, IsUdpHeader, RefusesUdpHeader};

use crate::pseudo_header;
use crate::udp_slice::UdpSlice;
use ep_base::IpNumber;
use ep_base::checksum::Sum16BitWords;
use ep_base::err::{LenError, ValueTooBigError, ValueType};
use ep_ip::{Ipv4Header, Ipv6Header};
use std::alloc::AllocError;

/// UDP header (RFC 768) as an owned value; 8 bytes on the wire.
#[derive(Clone, Debug, PartialEq, Eq, Default, Drop)]
pub struct UdpHeader {
    /// UDP source port, bytes 0 and 1 of the header.
    pub source_port: u16,
    /// UDP destination port, bytes 2 and 3 of the header.
    pub destination_port: u16,
    /// Length of UDP header and payload in bytes, bytes 4 and 5 of the header. If it is 0, slicing parsers such as
    /// `UdpSlice::from_slice` extend the datagram to the end of the slice.
    pub length: u16,
    /// Checksum of a UDP datagram, bytes 6 and 7 of the header; 0 if the sender computed none.
    pub checksum: u16,
}

impl UdpHeader {
    /// Length of a UDP header in bytes: 8.
    pub const LEN: usize = 8;

    /// Parses the 8 byte UDP header at the start of the slice, and returns it with all bytes after it. The UDP length
    /// field is not checked.
    #[inline]
    pub fn from_slice(slice: &[u8]) -> Result<(UdpHeader, &[u8]), LenError>
        ensures ok { IfOk result (λ read. IsUdpHeader slice.now (read.0, read.1.now)) }
        ensures only { (header : UdpHeader) (rest : List ℕ) → IsUdpHeader slice.now (header, rest)
            → IsOkAnd result (λ read. (read.0 ≡ header) × (read.1.now ≡ rest)) }
        ensures err { IfErr result (RefusesUdpHeader slice.now) }
    {
        let udp = UdpSlice::from_slice_lax(slice)?;
        Ok((udp.to_header(), &slice[UdpHeader::LEN..]))
    }

    /// Length of the UDP header in bytes; always 8.
    #[inline]
    pub fn header_len(&self) -> usize
        ensures { result ≡ 8 }
    {
        UdpHeader::LEN
    }

    /// Returns the 8 wire bytes of the UDP header. Length and checksum are written as the fields contain them.
    #[inline]
    pub fn to_bytes(&self) -> [u8; 8]
        ensures { result ≡ udp_bytes self.now }
    {
        let source_port = self.source_port.to_be_bytes();
        let destination_port = self.destination_port.to_be_bytes();
        let length = self.length.to_be_bytes();
        let checksum = self.checksum.to_be_bytes();
        [
            source_port[0],
            source_port[1],
            destination_port[0],
            destination_port[1],
            length[0],
            length[1],
            checksum[0],
            checksum[1],
        ]
    }

    /// Appends the 8 wire bytes of the UDP header to the buffer. Fails only if the buffer has to grow and the
    /// allocation fails; the buffer's content is then unchanged.
    pub fn write(&self, buf: &mut Vec<u8>) -> Result<(), AllocError>
        ensures ok { OnOk result (buf.new.items ≡ buf.old.items ++ udp_bytes self.now) }
        ensures err { OnErr result (buf.new.items ≡ buf.old.items) }
        ensures full { OnErr result (vec_capacity buf.old < vec_len buf.old + length (udp_bytes self.now)) }
        ensures capacity { vec_capacity buf.old ≤ vec_capacity buf.new }
    {
        buf.extend_from_slice(&self.to_bytes())
    }

    /// Computes the checksum of the UDP datagram (this header and `payload`) in a packet with the IPv4 header
    /// `ip_header`; the content of `checksum` is ignored. A computed checksum of 0 is returned as 65535. Fails if the
    /// payload is above 65527 bytes.
    pub fn calc_checksum_ipv4(
        &self,
        ip_header: &Ipv4Header,
        payload: &[u8],
    ) -> Result<u16, ValueTooBigError<usize>>
        ensures { MatchResult result
            (λ sum. (first_row (udp_length_rows_ipv4 payload.now) ≡ None)
            × (sum ≡ udp_checksum_ipv4 ip_header.now.source ip_header.now.destination self.now payload.now))
            (Refuses (udp_length_rows_ipv4 payload.now)) }
    {
        self.calc_checksum_ipv4_raw(ip_header.source, ip_header.destination, payload)
    }

    /// Computes the checksum of the UDP datagram (this header and `payload`) sent from the IPv4 address `source` to
    /// `destination`; the content of `checksum` is ignored. A computed checksum of 0 is returned as 65535. Fails if the
    /// payload is above 65527 bytes.
    pub fn calc_checksum_ipv4_raw(
        &self,
        source: [u8; 4],
        destination: [u8; 4],
        payload: &[u8],
    ) -> Result<u16, ValueTooBigError<usize>>
        ensures { MatchResult result
            (λ sum. (first_row (udp_length_rows_ipv4 payload.now) ≡ None)
            × (sum ≡ udp_checksum_ipv4 source destination self.now payload.now))
            (Refuses (udp_length_rows_ipv4 payload.now)) }
    {
        pseudo_header::check_len(payload, 65527, ValueType::UdpPayloadLengthIpv4)?;
        let sum = pseudo_header::sum_ipv4(source, destination, IpNumber::UDP, self.length);
        Ok(self.checksum_with_pseudo_header(&sum, payload))
    }

    /// Computes the checksum of the UDP datagram (this header and `payload`) in a packet with the IPv6 header
    /// `ip_header`; the content of `checksum` is ignored. A computed checksum of 0 is returned as 65535. Fails if the
    /// payload is above 4294967287 bytes.
    pub fn calc_checksum_ipv6(
        &self,
        ip_header: &Ipv6Header,
        payload: &[u8],
    ) -> Result<u16, ValueTooBigError<usize>>
        ensures { MatchResult result
            (λ sum. (first_row (udp_length_rows_ipv6 payload.now) ≡ None)
            × (sum ≡ udp_checksum_ipv6 ip_header.now.source ip_header.now.destination self.now payload.now))
            (Refuses (udp_length_rows_ipv6 payload.now)) }
    {
        self.calc_checksum_ipv6_raw(ip_header.source, ip_header.destination, payload)
    }

    /// Computes the checksum of the UDP datagram (this header and `payload`) sent from the IPv6 address `source` to
    /// `destination`; the content of `checksum` is ignored. A computed checksum of 0 is returned as 65535. Fails if the
    /// payload is above 4294967287 bytes.
    pub fn calc_checksum_ipv6_raw(
        &self,
        source: [u8; 16],
        destination: [u8; 16],
        payload: &[u8],
    ) -> Result<u16, ValueTooBigError<usize>>
        ensures { MatchResult result
            (λ sum. (first_row (udp_length_rows_ipv6 payload.now) ≡ None)
            × (sum ≡ udp_checksum_ipv6 source destination self.now payload.now))
            (Refuses (udp_length_rows_ipv6 payload.now)) }
    {
        pseudo_header::check_len(payload, 4294967287, ValueType::UdpPayloadLengthIpv6)?;
        let sum = pseudo_header::sum_ipv6(source, destination, IpNumber::UDP, self.length as u32);
        Ok(self.checksum_with_pseudo_header(&sum, payload))
    }

    /// Computes the checksum of the UDP datagram (this header and `payload`), given the sum of its pseudo header. A
    /// checksum of 0 is returned as 65535.
    fn checksum_with_pseudo_header(&self, pseudo_header: &Sum16BitWords, payload: &[u8]) -> u16
        ensures { (pseudo : List ℕ) → length pseudo % 2 ≡ 0 → pseudo_header.now ≡ ones_sum pseudo
            → result ≡ no_zero (checksum_of (pseudo ++ udp_message self.now payload.now)) }
    {
        pseudo_header
            .add_2bytes(self.source_port.to_be_bytes())
            .add_2bytes(self.destination_port.to_be_bytes())
            .add_2bytes(self.length.to_be_bytes())
            .add_2bytes([0, 0])
            .add_slice(payload)
            .ones_complement_with_no_zero()
    }
}
