//! The IP headers of a frame being built, in the form in which the caller passed them. If the caller passed an IPv4 or
//! IPv6 header alone, no space for extension headers is initialized.

ghost use Rattle.std.specs.Prelude.{◌≡◌, ◌+◌, ◌≤◌, ◌++◌, ℕ, length, None, MatchResult, true, false};
ghost use Rattle.std.specs.Prelude.{vec_capacity, vec_len};
ghost use Rattle.ep_base.specs.Tables.{Refuses, first_row};
ghost use Rattle.ep_ext.specs.Chains.{FitParts};
ghost use Rattle.ep_packet.specs.IpHeaders.{FitsIpHeader, LeadThrough, headers_for, ip_headers_len, ip_headers_parts};
ghost use Rattle.ep_packet.specs.IpHeaders.{ip_headers_type, payload_len_rows, written_headers};
ghost use Rattle.ep_packet.specs.declared.ip_headers.IpHeaders.{IpHeaders};
ghost use Rattle.ep_transport.specs.TransportHeaders.{transport_header_len};
ghost use Rattle.ep_build.specs.BuildErrors.{is_icmpv6_in_ipv4};
ghost use Rattle.ep_build.specs.BuiltFrames.{with_checksum_after};
ghost use Rattle.ep_build.specs.Placing.{AreAt};
ghost use Rattle.ep_build.specs.Steps.{part_headers, plain_ipv4, plain_ipv6};

use crate::err::{BuildWriteError, WriteResult};
use crate::facts::{ip_header_fits, ipv4_fits, ipv6_fits};
use crate::placing::{place_authentication, place_extensions, put};
use ep_base::err::ValueTooBigError;
use ep_base::{EtherType, IpNumber};
use ep_ip::{Ipv4Header, Ipv6Header};
use ep_packet::IpHeaders;
use ep_transport::{TransportChecksumError, TransportHeader};

/// IP headers of a frame being built, in the form in which the caller passed them.
#[derive(Drop)]
pub enum IpPart {
    /// IPv4 header without extension headers.
    Plain4(Ipv4Header),
    /// IPv6 header without extension headers.
    Plain6(Ipv6Header),
    /// IP header of version 4 or 6, with its extension headers.
    Any(IpHeaders),
}

impl IpPart {
    /// Length of the IP header and its extension headers in bytes, at most 9268.
    #[inline(always)]
    pub(crate) fn header_len(&self) -> usize
        ensures value { result ≡ ip_headers_len (part_headers self.now) }
        ensures bound { result ≤ 9268 }
        ensures fits { FitsIpHeader (part_headers self.now) }
    {
        match self {
            IpPart::Plain4(header) => header.headers_len(),
            IpPart::Plain6(header) => header.headers_len(),
            IpPart::Any(headers) => headers.headers_len(),
        }
    }
}

/// IP headers that a built frame can have: implemented by `Ipv4Header`, `Ipv6Header` and `IpHeaders`.
pub(crate) trait IsIpHeaders {
    /// The IP headers as an `IpHeaders`, for contracts.
    ghost headers: { Self → IpHeaders };

    /// Sets the next header values and the length field of the IP headers. The next header values then lead through all
    /// extension headers to `last` (the protocol number of the IP payload), and the length field counts a payload of
    /// `len` bytes. Returns the ether type of the IP version. A length above the maximum of the length field is an
    /// error.
    fn link(&mut self, last: IpNumber, len: usize) -> Result<EtherType, ValueTooBigError<usize>>
        ensures { MatchResult result
            (λ ether_type. (first_row (payload_len_rows (headers self.old) len) ≡ None)
            × (headers self.new ≡ headers_for (headers self.old) last len)
            × (ether_type.0 ≡ ip_headers_type (headers self.old)))
            (λ error. Refuses (payload_len_rows (headers self.old) len) error) };

    /// Sets the checksum of a transport header that follows these IP headers and is followed by `payload`. ICMPv6 after
    /// IPv4 is an error.
    fn set_checksum(&self, transport: &mut TransportHeader, payload: &[u8]) -> WriteResult
        requires { transport_header_len transport.old + length payload.now ≤ 65535 }
        ensures { MatchResult result
            (λ _. (is_icmpv6_in_ipv4 (headers self.now) transport.old ≡ false)
            × (transport.new ≡ with_checksum_after (headers self.now) payload.now transport.old))
            (λ error. (is_icmpv6_in_ipv4 (headers self.now) transport.old ≡ true)
            × (error ≡ BuildWriteError.Icmpv6InIpv4)) };

    /// Length of the IP header and its extension headers in bytes, at most 9268.
    fn headers_len(&self) -> usize
        ensures value { result ≡ ip_headers_len (headers self.now) }
        ensures bound { result ≤ 9268 }
        ensures fits { FitsIpHeader (headers self.now) };

    /// Appends the bytes of the IP header and its extension headers, whose next header values must lead through all
    /// extension headers in the order of RFC 8200, 4.1. The buffer must have the capacity for these bytes.
    fn append(&self, buf: &mut Vec<u8>)
        requires leads { (last : ℕ) × LeadThrough (headers self.now) (ip_headers_parts (headers self.now)) last }
        requires capacity { vec_len buf.old + ip_headers_len (headers self.now) ≤ vec_capacity buf.old }
        ensures items { buf.new.items
            ≡ buf.old.items ++ written_headers (headers self.now) (ip_headers_parts (headers self.now)) }
        ensures capacity { vec_capacity buf.old ≤ vec_capacity buf.new }
        ensures fits { FitParts (ip_headers_parts (headers self.now)) };

    /// Writes the IP header and its extension headers to the slice at offset `at`, and returns the offset after them.
    /// The slice must be long enough. An IPv4 header gets its computed checksum.
    fn place(&mut self, at: usize, slice: &mut [u8]) -> usize
        requires { at + ip_headers_len (headers self.old) ≤ length slice.old }
        ensures bytes { AreAt (written_headers (headers self.old) (ip_headers_parts (headers self.old)))
            slice.old slice.new at result }
        ensures fits { FitParts (ip_headers_parts (headers self.old)) };
}

impl IsIpHeaders for Ipv4Header {
    ghost headers = { plain_ipv4 };

    #[inline]
    fn link(&mut self, last: IpNumber, len: usize) -> Result<EtherType, ValueTooBigError<usize>> {
        let _header_len = self.header_len();
        self.protocol = last;
        match self.set_payload_len(len) {
            Ok(()) => Ok(EtherType::IPV4),
            Err(error) => Err(error),
        }
    }

    #[inline]
    fn set_checksum(&self, transport: &mut TransportHeader, payload: &[u8]) -> WriteResult {
        match transport.update_checksum_ipv4(self, payload) {
            Ok(()) => Ok(()),
            Err(TransportChecksumError::PayloadLen(error)) => {
                Err(BuildWriteError::PayloadLen(error))
            }
            Err(TransportChecksumError::Icmpv6InIpv4) => Err(BuildWriteError::Icmpv6InIpv4),
        }
    }

    #[inline]
    fn headers_len(&self) -> usize {
        ipv4_fits(self);
        self.header_len()
    }

    #[inline]
    fn append(&self, buf: &mut Vec<u8>) {
        self.write(buf).unwrap();
    }

    #[inline]
    fn place(&mut self, at: usize, slice: &mut [u8]) -> usize {
        ipv4_fits(self);
        self.header_checksum = self.calc_header_checksum();
        put(self.to_bytes().as_slice(), at, slice)
    }
}

impl IsIpHeaders for Ipv6Header {
    ghost headers = { plain_ipv6 };

    #[inline]
    fn link(&mut self, last: IpNumber, len: usize) -> Result<EtherType, ValueTooBigError<usize>> {
        self.next_header = last;
        match self.set_payload_length(len) {
            Ok(()) => Ok(EtherType::IPV6),
            Err(error) => Err(error),
        }
    }

    #[inline]
    fn set_checksum(&self, transport: &mut TransportHeader, payload: &[u8]) -> WriteResult {
        match transport.update_checksum_ipv6(self, payload) {
            Ok(()) => Ok(()),
            Err(error) => Err(BuildWriteError::PayloadLen(error)),
        }
    }

    #[inline]
    fn headers_len(&self) -> usize {
        ipv6_fits(self);
        self.header_len()
    }

    #[inline]
    fn append(&self, buf: &mut Vec<u8>) {
        self.write(buf).unwrap();
    }

    #[inline]
    fn place(&mut self, at: usize, slice: &mut [u8]) -> usize {
        put(&self.to_bytes(), at, slice)
    }
}

impl IsIpHeaders for IpHeaders {
    ghost headers = { λ headers. headers };

    fn link(&mut self, last: IpNumber, len: usize) -> Result<EtherType, ValueTooBigError<usize>> {
        let ether_type = self.set_next_headers(last);
        match self.set_payload_len(len) {
            Ok(()) => Ok(ether_type),
            Err(error) => Err(error),
        }
    }

    #[inline]
    fn set_checksum(&self, transport: &mut TransportHeader, payload: &[u8]) -> WriteResult {
        match self {
            IpHeaders::Ipv4(header, _) => header.set_checksum(transport, payload),
            IpHeaders::Ipv6(header, _) => header.set_checksum(transport, payload),
        }
    }

    #[inline]
    fn headers_len(&self) -> usize {
        ip_header_fits(self);
        self.header_len()
    }

    fn append(&self, buf: &mut Vec<u8>) {
        ip_header_fits(self);
        self.write(buf).unwrap();
    }

    fn place(&mut self, at: usize, slice: &mut [u8]) -> usize {
        ip_header_fits(self);
        match self {
            IpHeaders::Ipv4(header, extensions) => {
                let header_end = header.place(at, slice);
                place_authentication(&extensions.auth, header_end, slice)
            }
            IpHeaders::Ipv6(header, extensions) => {
                let header_end = header.place(at, slice);
                place_extensions(extensions, header_end, slice)
            }
        }
    }
}
