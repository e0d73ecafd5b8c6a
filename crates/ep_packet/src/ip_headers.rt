//! Owned IP headers: the IPv4 or IPv6 header with its extension headers.

ghost use Rattle.std.specs.Prelude.{◌≡◌, ◌≤◌, length};
ghost use Rattle.ep_ip.specs.Ipv4.{ipv4_bytes, ipv4_checksum};
ghost use Rattle.ep_ip.specs.Ipv6.{ipv6_bytes};
ghost use Rattle.ep_packet.specs.IpHeaders.{of_walk_error};

use crate::err::HeadersWriteError;
use crate::ip_headers_read::no_extensions;
use ep_base::err::ip_exts::ExtsWalkError;
use ep_base::err::{ValueTooBigError, ValueType, ipv4_exts, ipv6_exts};
use ep_base::{EtherType, IpNumber};
use ep_ext::{Ipv4Extensions, Ipv6Extensions};
use ep_ip::{Ipv4Header, Ipv6Header};
use std::alloc::AllocError;

/// Owned headers of an IP packet, version 4 or 6: the IP header and its extension headers. A value takes more than 9268
/// bytes of memory, since it has space for every kind of IPv6 extension header, even if none is present.
#[derive(Debug, PartialEq, Eq, Drop)]
pub enum IpHeaders {
    /// IPv4 header (RFC 791), and the authentication header after it, if present.
    Ipv4(Ipv4Header, Ipv4Extensions),
    /// IPv6 header (RFC 8200) and its extension headers, at most one of each kind. Destination options before and after
    /// a routing header are two kinds.
    Ipv6(Ipv6Header, Ipv6Extensions),
}

impl Clone for IpHeaders {
    ghost use Rattle.std.specs.Prelude.{◌≡◌, ⊤};

    ghost is_clone = { λ source copy. copy ≡ source };

    ghost is_infallible = { λ _. ⊤ };

    // A derived clone moves each header several times. Here the result is created first and filled in place, so that
    // only the result is moved.
    #[inline(never)]
    fn clone(&self) -> Result<IpHeaders, AllocError> {
        let mut result = Ok(IpHeaders::blank());
        if let Ok(stored) = &mut result {
            stored.copy_from(self);
        }
        result
    }
}

impl IpHeaders {
    ghost use Rattle.std.specs.Prelude.{◌≡◌, ◌<◌, ◌≤◌, ◌+◌, ◌++◌, ◌↔◌, ℕ, List, length, Err, IfOk, IfErr, OnOk, OnErr};
    ghost use Rattle.std.specs.Prelude.{IsOkAnd, MatchResult, vec_len, vec_capacity};
    ghost use Rattle.std.specs.Option.{option_map};
    ghost use Rattle.ep_base.specs.Tables.{Refuses};
    ghost use Rattle.ep_base.specs.declared.err.ip_exts.ExtsWalkError.{ExtsWalkError};
    ghost use Rattle.ep_ext.specs.Chains.{FitParts, parts_bytes};
    ghost use Rattle.ep_ext.specs.ExtensionParts.{ExtensionPart};
    ghost use Rattle.ep_packet.specs.IpHeaders.{ipv4_headers_in, ipv6_headers_in, ip_headers_len, ip_headers_type};
    ghost use Rattle.ep_packet.specs.IpHeaders.{headers_fragment, blank_headers, linked_headers, with_payload_len, payload_len_rows};
    ghost use Rattle.ep_packet.specs.IpHeaders.{FitsIpHeader, ip_extensions_len, most_after_header, ip_header_bytes};
    ghost use Rattle.ep_packet.specs.IpHeaders.{with_checksum, written_headers, LeadThrough, RefusesLeading};
    ghost use Rattle.ep_packet.specs.declared.err.headers_write_error.HeadersWriteError.TheVariants as write_error;

    /// Greatest length in bytes of an IP header with its extension headers: IPv6 with all of them at their maximum.
    pub const MAX_LEN: usize = 9268;

    /// Returns a default IPv4 header without extension headers, which the caller overwrites.
    #[inline(always)]
    fn blank() -> IpHeaders
        ensures { result ≡ blank_headers }
    {
        IpHeaders::Ipv4(Ipv4Header::default(), Ipv4Extensions { auth: None })
    }

    /// Copies the IP headers of `source` into `self`, which must be the default IPv4 header of [`IpHeaders::blank`]
    /// before the call. Only extension headers that are present are copied, not the unused space of absent ones.
    #[inline(never)]
    fn copy_from(&mut self, source: &IpHeaders)
        requires { self.old ≡ blank_headers }
        ensures { self.new ≡ source.now }
    {
        match source {
            IpHeaders::Ipv4(header, extensions) => {
                if let IpHeaders::Ipv4(stored, stored_extensions) = self {
                    *stored = header.clone().unwrap();
                    if extensions.auth.is_some() {
                        *stored_extensions = extensions.clone().unwrap();
                    }
                }
            }
            IpHeaders::Ipv6(header, extensions) => {
                *self = IpHeaders::Ipv6(header.clone().unwrap(), no_extensions());
                if let IpHeaders::Ipv6(_, stored_extensions) = self {
                    stored_extensions.copy_from(extensions);
                }
            }
        }
    }

    /// Returns the IPv4 header and its extension headers (the optional authentication header); `None` if the packet is
    /// IPv6.
    #[inline]
    pub fn ipv4(&self) -> Option<(&Ipv4Header, &Ipv4Extensions)>
        ensures { option_map (λ parts. (parts.0.now, parts.1.now)) result ≡ ipv4_headers_in self.now }
    {
        match self {
            IpHeaders::Ipv4(header, extensions) => Some((header, extensions)),
            IpHeaders::Ipv6(_, _) => None,
        }
    }

    /// Returns the IPv6 header and its extension headers; `None` if the packet is IPv4.
    #[inline]
    pub fn ipv6(&self) -> Option<(&Ipv6Header, &Ipv6Extensions)>
        ensures { option_map (λ parts. (parts.0.now, parts.1.now)) result ≡ ipv6_headers_in self.now }
    {
        match self {
            IpHeaders::Ipv4(_, _) => None,
            IpHeaders::Ipv6(header, extensions) => Some((header, extensions)),
        }
    }

    /// Length of the IP header and its extension headers in bytes, at most 9268.
    #[inline]
    pub fn header_len(&self) -> usize
        ensures value { result ≡ ip_headers_len self.now }
        ensures bound { result ≤ 9268 }
    {
        match self {
            IpHeaders::Ipv4(header, extensions) => header.header_len() + extensions.header_len(),
            IpHeaders::Ipv6(header, extensions) => header.header_len() + extensions.header_len(),
        }
    }

    /// Returns the protocol number of the IP payload: the next header of the last extension header, or of the IP header
    /// if it has no extension headers. It is an error if the next header values do not lead through all extension
    /// headers.
    pub fn next_header(&self) -> Result<IpNumber, ExtsWalkError>
        ensures ok { IfOk result (λ last. (parts : List ExtensionPart) × LeadThrough self.now parts last.0) }
        ensures only { (parts : List ExtensionPart) (last : ℕ) → LeadThrough self.now parts last
            → IsOkAnd result (λ number. number.0 ≡ last) }
        ensures err { IfErr result (RefusesLeading self.now) }
    {
        match self {
            IpHeaders::Ipv4(header, extensions) => match extensions.next_header(header.protocol) {
                Ok(last) => Ok(last),
                Err(error) => Err(ExtsWalkError::Ipv4Exts(error)),
            },
            IpHeaders::Ipv6(header, extensions) => {
                match extensions.next_header(header.next_header) {
                    Ok(last) => Ok(last),
                    Err(error) => Err(ExtsWalkError::Ipv6Exts(error)),
                }
            }
        }
    }

    /// Sets the next header values so that they lead from the IP header through all its extension headers to `last`,
    /// the protocol number of the payload. Returns the ether type of the IP version.
    pub fn set_next_headers(&mut self, last: IpNumber) -> EtherType
        ensures linked { self.new ≡ linked_headers self.old last }
        ensures ether_type { result.0 ≡ ip_headers_type self.old }
    {
        match self {
            IpHeaders::Ipv4(header, extensions) => {
                header.protocol = extensions.set_next_headers(last);
                EtherType::IPV4
            }
            IpHeaders::Ipv6(header, extensions) => {
                header.next_header = extensions.set_next_headers(last);
                EtherType::IPV6
            }
        }
    }

    /// Sets the IPv4 total length or the IPv6 payload length for a payload of `len` bytes after the extension headers.
    /// The length field also counts the extension headers, and in IPv4 the IPv4 header. If it would exceed 65535,
    /// returns an error and changes nothing.
    pub fn set_payload_len(&mut self, len: usize) -> Result<(), ValueTooBigError<usize>>
        ensures { MatchResult result
            (λ _. (len + ip_extensions_len self.old ≤ most_after_header self.old)
            × (self.new ≡ with_payload_len self.old len))
            (λ error. (self.new ≡ self.old) × Refuses (payload_len_rows self.old len) error) }
    {
        match self {
            IpHeaders::Ipv4(header, extensions) => {
                let ip_header_len = header.header_len();
                let extensions_len = extensions.header_len();
                match len.checked_add(extensions_len) {
                    Some(content_len) => header.set_payload_len(content_len),
                    None => Err(ValueTooBigError {
                        actual: len,
                        max_allowed: 65535 - ip_header_len - extensions_len,
                        value_type: ValueType::Ipv4PayloadLength,
                    }),
                }
            }
            IpHeaders::Ipv6(header, extensions) => {
                let extensions_len = extensions.header_len();
                match len.checked_add(extensions_len) {
                    Some(content_len) => header.set_payload_length(content_len),
                    None => Err(ValueTooBigError {
                        actual: len,
                        max_allowed: 65535 - extensions_len,
                        value_type: ValueType::Ipv6PayloadLength,
                    }),
                }
            }
        }
    }

    /// Returns true if the packet carries one fragment of a larger payload: the IPv4 header or the IPv6 fragment header
    /// states that more fragments follow, or that the fragment offset is not 0.
    #[inline]
    pub fn is_fragmenting_payload(&self) -> bool
        ensures { result ≡ headers_fragment self.now }
    {
        match self {
            IpHeaders::Ipv4(header, _) => header.is_fragmenting_payload(),
            IpHeaders::Ipv6(_, extensions) => extensions.is_fragmenting_payload(),
        }
    }

    /// Appends the bytes of the IP header and of its extension headers, in the order in which the next header values
    /// link them. An IPv4 header gets its computed checksum. It is an error if the next header values do not lead
    /// through all extension headers, or if the buffer cannot grow; the buffer is then unchanged. It allocates at most
    /// once, and only if the buffer has to grow. Each written field fits its width on the wire.
    pub fn write(&self, buf: &mut Vec<u8>) -> Result<(), HeadersWriteError>
        ensures ok { OnOk result ((parts : List ExtensionPart) × (last : ℕ) × LeadThrough self.now parts last
            × FitParts parts × (buf.new.items ≡ buf.old.items ++ written_headers self.now parts)) }
        ensures err { OnErr result (buf.new.items ≡ buf.old.items) }
        ensures fits { OnOk result (FitsIpHeader self.now) }
        ensures leading { (error : ExtsWalkError)
            → RefusesLeading self.now error ↔ (result ≡ Err (of_walk_error error)) }
        ensures full { result ≡ Err write_error.OutOfMemory
            → (parts : List ExtensionPart) × (last : ℕ) × LeadThrough self.now parts last
            × (vec_capacity buf.old < vec_len buf.old + length (written_headers self.now parts)) }
        ensures capacity { vec_capacity buf.old ≤ vec_capacity buf.new }
    {
        if let Err(error) = self.next_header() {
            return Err(of_walk_error(error));
        }
        if buf.reserve(self.written_len()).is_err() {
            return Err(HeadersWriteError::OutOfMemory);
        }
        self.write_header(buf).unwrap();
        self.write_extensions(buf).unwrap();
        Ok(())
    }

    /// Returns the number of bytes that [`IpHeaders::write`] appends for these IP headers, if their next header values
    /// lead through all extension headers.
    #[inline]
    fn written_len(&self) -> usize
        ensures value { result ≡ length (ip_header_bytes (with_checksum self.now)) + ip_extensions_len self.now }
        ensures bound { result ≤ 9268 }
    {
        match self {
            IpHeaders::Ipv4(header, extensions) => ipv4_len(header) + extensions.header_len(),
            IpHeaders::Ipv6(header, extensions) => ipv6_len(header) + extensions.header_len(),
        }
    }

    /// Appends the bytes of the IP header without extension headers; an IPv4 header gets its computed checksum. The
    /// only error is a failed allocation, if the buffer has to grow; it leaves the buffer unchanged.
    fn write_header(&self, buf: &mut Vec<u8>) -> Result<(), AllocError>
        ensures ok { OnOk result (buf.new.items ≡ buf.old.items ++ ip_header_bytes (with_checksum self.now)) }
        ensures err { OnErr result (buf.new.items ≡ buf.old.items) }
        ensures fits { FitsIpHeader self.now }
        ensures full { OnErr result (vec_capacity buf.old < vec_len buf.old
            + length (ip_header_bytes (with_checksum self.now))) }
        ensures capacity { vec_capacity buf.old ≤ vec_capacity buf.new }
    {
        match self {
            IpHeaders::Ipv4(header, _) => header.write(buf),
            IpHeaders::Ipv6(header, _) => header.write(buf),
        }
    }

    /// Appends the bytes of the extension headers after the IP header, in the order in which the next header values
    /// link them. It is an error if the next header values don't lead through all extension headers, or if the buffer
    /// cannot grow; the buffer is then unchanged.
    fn write_extensions(&self, buf: &mut Vec<u8>) -> Result<(), HeadersWriteError>
        ensures ok { OnOk result ((parts : List ExtensionPart) × (last : ℕ) × LeadThrough self.now parts last
            × FitParts parts × (buf.new.items ≡ buf.old.items ++ parts_bytes parts)) }
        ensures err { OnErr result (buf.new.items ≡ buf.old.items) }
        ensures leading { (error : ExtsWalkError)
            → RefusesLeading self.now error ↔ (result ≡ Err (of_walk_error error)) }
        ensures full { result ≡ Err write_error.OutOfMemory
            → (parts : List ExtensionPart) × (last : ℕ) × LeadThrough self.now parts last
            × (vec_capacity buf.old < vec_len buf.old + length (parts_bytes parts)) }
        ensures capacity { vec_capacity buf.old ≤ vec_capacity buf.new }
    {
        match self {
            IpHeaders::Ipv4(header, extensions) => {
                match extensions.write(buf, header.protocol) {
                    Ok(()) => Ok(()),
                    Err(ipv4_exts::HeaderWriteError::Content(error)) => {
                        Err(HeadersWriteError::Ipv4Exts(error))
                    }
                    Err(ipv4_exts::HeaderWriteError::OutOfMemory) => {
                        Err(HeadersWriteError::OutOfMemory)
                    }
                }
            }
            IpHeaders::Ipv6(header, extensions) => {
                match extensions.write(buf, header.next_header) {
                    Ok(()) => Ok(()),
                    Err(ipv6_exts::HeaderWriteError::Content(error)) => {
                        Err(HeadersWriteError::Ipv6Exts(error))
                    }
                    Err(ipv6_exts::HeaderWriteError::OutOfMemory) => {
                        Err(HeadersWriteError::OutOfMemory)
                    }
                }
            }
        }
    }
}

/// Returns the length of an IPv4 header with options in bytes, at most 60. Its addresses are read so that the prover
/// learns their lengths.
#[inline]
fn ipv4_len(header: &Ipv4Header) -> usize
    ensures value { result ≡ length (ipv4_bytes (record header.now { header_checksum = ipv4_checksum header.now })) }
    ensures bound { result ≤ 60 }
{
    let (source, destination): (&[u8], &[u8]) = (&header.source, &header.destination);
    let _addresses_len = source.len() + destination.len();
    header.header_len()
}

/// Returns the length of an IPv6 header without extension headers in bytes: 40. Its addresses are read so that the
/// prover learns their lengths.
#[inline]
fn ipv6_len(header: &Ipv6Header) -> usize
    ensures value { result ≡ length (ipv6_bytes header.now) }
    ensures bound { result ≤ 40 }
{
    let (source, destination): (&[u8], &[u8]) = (&header.source, &header.destination);
    let _addresses_len = source.len() + destination.len();
    header.header_len()
}

/// Converts an error of the chain of next header values (some extension header is not reached by it) into an error of
/// writing IP headers.
fn of_walk_error(error: ExtsWalkError) -> HeadersWriteError
    ensures { result ≡ of_walk_error error }
{
    match error {
        ExtsWalkError::Ipv4Exts(error) => HeadersWriteError::Ipv4Exts(error),
        ExtsWalkError::Ipv6Exts(error) => HeadersWriteError::Ipv6Exts(error),
    }
}
