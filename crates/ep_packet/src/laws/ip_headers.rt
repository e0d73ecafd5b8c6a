//! Laws of owned IP headers: writing, and reading back. Each law is the contract of a function without effect.

ghost use Rattle.std.specs.Prelude.{◌≡◌, ◌++◌, ℕ, List, length};
ghost use Rattle.ep_base.specs.declared.ip_number.IpNumber.{IpNumber};
ghost use Rattle.ep_ext.specs.ExtensionParts.{ExtensionPart};
ghost use Rattle.ep_packet.specs.declared.ip_headers.IpHeaders.{IpHeaders};
ghost use Rattle.ep_packet.specs.IpHeaders.{LeadThrough, FitIpHeaders, EndsExtensions, AreReadAs, headers_for};
ghost use Rattle.ep_packet.specs.IpHeaders.{ip_headers_parts, payload_of_headers, with_checksum, written_headers};

use crate::ip_headers::IpHeaders;

/// States that IP headers written before a payload are decoded back with that payload, no trailing bytes, and the
/// written checksum, and their extension headers in the order of RFC 8200 (4.1). Before the headers are written, their
/// length field is set for the payload, and their next header values are set to lead through all extension headers to
/// the protocol number of the payload. Each field has to fit its width, and that protocol number must not be that of an
/// extension header.
pub fn read_back()
    ensures leads { (headers : IpHeaders) (last : IpNumber) (len : ℕ) → LeadThrough (headers_for headers last len)
        (ip_headers_parts (headers_for headers last len)) last.0 }
    ensures one_way { (headers : IpHeaders) (parts other : List ExtensionPart) (last end : ℕ)
        → LeadThrough headers parts last → LeadThrough headers other end → (parts ≡ other) × (last ≡ end) }
    ensures read { (headers : IpHeaders) (last : IpNumber) (payload : List ℕ)
        → FitIpHeaders (headers_for headers last (length payload)) → EndsExtensions headers last.0
        → let written = headers_for headers last (length payload) in
        AreReadAs (written_headers written (ip_headers_parts written) ++ payload) (with_checksum written)
        (payload_of_headers written last payload) }
{}

/// States that `IpHeaders::MAX_LEN` is 9268.
pub fn constants()
    ensures { IpHeaders.MAX_LEN ≡ 9268 }
{}
