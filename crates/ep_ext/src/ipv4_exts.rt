//! Owned extension headers of IPv4: an authentication header, or none.

ghost use Rattle.std.specs.Prelude.{◌≡◌, ◌<◌, ◌≤◌, ◌+◌, ◌++◌, ◌↔◌, Option, length, vec_len, vec_capacity, IfOk, IfErr, OnOk, OnErr, IsOkAnd, Ok, Err};
ghost use Rattle.std.specs.Option.{option_map};
ghost use Rattle.ep_base.specs.Readings.{headers};
ghost use Rattle.ep_base.specs.declared.err.ip_auth.HeaderSliceError.{HeaderSliceError};
ghost use Rattle.ep_base.specs.declared.err.ipv4_exts.ExtsWalkError.{ExtsWalkError};
ghost use Rattle.ep_base.specs.declared.err.ipv4_exts.HeaderWriteError.TheVariants as write_error;
ghost use Rattle.ep_ext.specs.ExtensionParts.{auth_refusal};
ghost use Rattle.ep_ext.specs.Chains.{ipv4, ExtensionChain, IsExtensionChain, RefusesExtensionChain, FitParts, chain_of, parts_bytes};
ghost use Rattle.ep_ext.specs.ChainPrefixes.{IsLaxChainIn};
ghost use Rattle.ep_ext.specs.Ipv4Chains.{ipv4_parts, ipv4_walk, ipv4_first, ipv4_linked};

use crate::ip_auth_header::IpAuthHeader;
use ep_base::err::ip_auth::HeaderSliceError;
use ep_base::err::ipv4_exts::{ExtsWalkError, HeaderWriteError};
use ep_base::{IpNumber, ip_number};

/// Owned extension headers of an IPv4 packet: an authentication header (RFC 4302), or none.
#[derive(Clone, Debug, PartialEq, Eq, Default, Drop)]
pub struct Ipv4Extensions {
    /// Authentication header after an IPv4 header, if present.
    pub auth: Option<IpAuthHeader>,
}

impl Ipv4Extensions {
    /// Parses the extension headers of IPv4 at the start of the slice: an authentication header if `number` (the
    /// protocol field of the IPv4 header) is 51, else none. Returns the owned headers, the IP number of the payload,
    /// and the bytes after the headers.
    #[inline]
    pub fn from_slice(
        number: IpNumber,
        slice: &[u8],
    ) -> Result<(Ipv4Extensions, IpNumber, &[u8]), HeaderSliceError>
        ensures ok { IfOk result (λ read. IsExtensionChain ipv4 headers number.0 slice.now
            (chain_of (ipv4_parts read.0) read.1.0 read.2.now)) }
        ensures only { (chain : ExtensionChain) → IsExtensionChain ipv4 headers number.0 slice.now chain
            → IsOkAnd result (λ read. chain_of (ipv4_parts read.0) read.1.0 read.2.now ≡ chain) }
        ensures err { IfErr result (λ error. RefusesExtensionChain ipv4 headers number.0 slice.now
            (auth_refusal error)) }
    {
        if number != ip_number::AUTHENTICATION_HEADER {
            return Ok((Ipv4Extensions { auth: None }, number, slice));
        }
        let (header, rest) = IpAuthHeader::from_slice(slice)?;
        let next_header = header.next_header;
        Ok((Ipv4Extensions { auth: Some(header) }, next_header, rest))
    }

    /// Parses the authentication header at the start of the slice, if `number` (the protocol field of the IPv4 header)
    /// is 51. Returns the owned header, the IP number of the payload, the bytes after the header, and `None`. If the
    /// header is invalid or truncated, returns no header, `number`, the whole slice and the error.
    #[inline]
    pub fn from_slice_lax(
        number: IpNumber,
        slice: &[u8],
    ) -> (Ipv4Extensions, IpNumber, &[u8], Option<HeaderSliceError>)
        ensures chain { IsLaxChainIn ipv4 headers number.0 slice.now
            (chain_of (ipv4_parts result.0) result.1.0 result.2.now) (option_map auth_refusal result.3) }
        ensures only { (chain : ExtensionChain) (stop : Option HeaderSliceError)
            → IsLaxChainIn ipv4 headers number.0 slice.now chain (option_map auth_refusal stop)
            → (chain_of (ipv4_parts result.0) result.1.0 result.2.now ≡ chain) × (result.3 ≡ stop) }
    {
        if number != ip_number::AUTHENTICATION_HEADER {
            return (Ipv4Extensions { auth: None }, number, slice, None);
        }
        match IpAuthHeader::from_slice(slice) {
            Ok((header, rest)) => {
                let next_header = header.next_header;
                (
                    Ipv4Extensions { auth: Some(header) },
                    next_header,
                    rest,
                    None,
                )
            }
            Err(error) => (Ipv4Extensions { auth: None }, number, slice, Some(error)),
        }
    }

    /// Length of the IPv4 extension headers in bytes: 0 without an authentication header, else 12 to 1028.
    #[inline]
    pub fn header_len(&self) -> usize
        ensures bytes { result ≡ length (parts_bytes (ipv4_parts self.now)) }
        ensures bound { result ≤ 1028 }
    {
        match &self.auth {
            Some(header) => header.header_len(),
            None => 0,
        }
    }

    /// Sets the next header field of the authentication header, if present, to `last`. Returns the number for the
    /// protocol field of the IPv4 header: 51, or `last` without an authentication header.
    pub fn set_next_headers(&mut self, last: IpNumber) -> IpNumber
        ensures linked { self.new ≡ ipv4_linked self.old last }
        ensures first { result ≡ ipv4_first self.old last }
    {
        match &mut self.auth {
            Some(header) => {
                header.next_header = last;
                ip_number::AUTHENTICATION_HEADER
            }
            None => last,
        }
    }

    /// Returns the IP number of the payload after the IPv4 extension headers, given `first`, the protocol field of the
    /// IPv4 header: `first` itself without an authentication header, else the next header field of that header.
    ///
    /// # Errors
    ///
    /// Returns an error if there is an authentication header and `first` is not its number, 51.
    pub fn next_header(&self, first: IpNumber) -> Result<IpNumber, ExtsWalkError>
        ensures { result ≡ ipv4_walk self.now first }
    {
        match &self.auth {
            Some(header) => {
                if first == ip_number::AUTHENTICATION_HEADER {
                    Ok(header.next_header)
                } else {
                    Err(ExtsWalkError::ExtNotReferenced {
                        missing_ext: ip_number::AUTHENTICATION_HEADER,
                    })
                }
            }
            None => Ok(first),
        }
    }

    /// Appends the authentication header, if present, to the buffer. Returns an error if the header is present but
    /// `first` (the protocol field of the IPv4 header) is not 51, or if the buffer has to grow and the allocation
    /// fails. An error leaves the buffer unchanged.
    pub fn write(&self, buf: &mut Vec<u8>, first: IpNumber) -> Result<(), HeaderWriteError>
        ensures ok { OnOk result (buf.new.items ≡ buf.old.items ++ parts_bytes (ipv4_parts self.now)) }
        ensures err { OnErr result (buf.new.items ≡ buf.old.items) }
        ensures fits { OnOk result (FitParts (ipv4_parts self.now)) }
        ensures walk { (error : ExtsWalkError)
            → (ipv4_walk self.now first ≡ Err error) ↔ (result ≡ Err (write_error.Content error)) }
        ensures full { result ≡ Err write_error.OutOfMemory
            → vec_capacity buf.old < vec_len buf.old + length (parts_bytes (ipv4_parts self.now)) }
        ensures capacity { vec_capacity buf.old ≤ vec_capacity buf.new }
    {
        if let Err(error) = self.next_header(first) {
            return Err(HeaderWriteError::Content(error));
        }
        if let Some(header) = &self.auth {
            if header.write(buf).is_err() {
                return Err(HeaderWriteError::OutOfMemory);
            }
        }
        Ok(())
    }
}
