//! Laws about chains of IPv4 and IPv6 extension headers: each is the contract of a function that does nothing, and
//! holds for all bytes and values.

ghost use Rattle.std.specs.Prelude.{◌≡◌, ◌≤◌, ◌+◌, ◌⊎◌, ◌++◌, ℕ, List, [], None, Ok, true, false, length};
ghost use Rattle.ep_base.specs.declared.err.ipv6_exts.ExtsWalkError.{ExtsWalkError};
ghost use Rattle.ep_base.specs.declared.err.ipv6_exts.HeaderSliceError.{HeaderSliceError};
ghost use Rattle.ep_base.specs.Bytes.{AreBytes};
ghost use Rattle.ep_base.specs.IpNumbers.{authentication_number};
ghost use Rattle.ep_base.specs.Readings.{Reading, slices, headers};
ghost use Rattle.ep_base.specs.Tables.{IsDecided};
ghost use Rattle.ep_ext.specs.Chains.{IpVersion, ipv4, ipv6, ExtensionChain, IsExtensionChain, RefusesExtensionChain, NoKindTwice, StopsAtSecond, FitParts, EncodesParts, chain_of, chain_fragments, is_ipv6_extension, parts_bytes};
ghost use Rattle.ep_ext.specs.ExtensionParts.{ExtensionPart};
ghost use Rattle.ep_ext.specs.declared.ipv4_exts.Ipv4Extensions.{Ipv4Extensions};
ghost use Rattle.ep_ext.specs.declared.ipv6_exts.Ipv6Extensions.{Ipv6Extensions};
ghost use Rattle.ep_base.specs.declared.ip_number.IpNumber.{IpNumber};
ghost use Rattle.ep_ext.specs.Ipv4Chains.{ipv4_first, ipv4_linked, ipv4_parts, ipv4_walk};
ghost use Rattle.ep_ext.specs.Ipv6Chains.{WalksAll, IsWalk, RefusesWalk, extensions_of, no_ipv6_extensions, ipv6_first, ipv6_linked, ipv6_parts};
ghost use Rattle.ep_ext.specs.ShownChains.{shown_parts};

use crate::{Ipv4Extensions, Ipv4ExtensionsSlice, Ipv6Extensions};

/// States that any bytes, given the IP number of the first header, either parse in exactly one way as a chain of
/// extension headers, the payload's IP number and the bytes after the chain, or are rejected with exactly one error.
/// This holds for both parsers (slices and owned headers).
pub fn extension_chain()
    ensures { (version : IpVersion) (reading : Reading) (number : ℕ) (bytes : List ℕ) → AreBytes bytes
        → IsDecided (IsExtensionChain version reading number bytes)
        (RefusesExtensionChain version reading number bytes) }
{}

/// States that if the slicing parser accepts a chain of extension headers without two headers of one type, the parser
/// for owned headers accepts the chain with the same result.
pub fn chain_without_second_kind()
    ensures { (version : IpVersion) (number : ℕ) (bytes : List ℕ) (chain : ExtensionChain)
        → IsExtensionChain version slices number bytes chain → NoKindTwice [] chain.parts
        → IsExtensionChain version headers number bytes chain }
{}

/// States that if the parser for owned headers accepts a chain of extension headers, the slicing parser accepts it with
/// the same result. The exception is an IPv6 chain that the parser for owned headers ends before a second header of one
/// type. Bytes that the parser for owned headers rejects are rejected by the slicing parser with the same error.
pub fn chain_of_headers()
    ensures chain { (version : IpVersion) (number : ℕ) (bytes : List ℕ) (chain : ExtensionChain)
        → IsExtensionChain version headers number bytes chain → IsExtensionChain version slices number bytes chain
        ⊎ ((version ≡ ipv6) × StopsAtSecond [] chain.parts chain.last × (is_ipv6_extension chain.last ≡ true)) }
    ensures refused { (version : IpVersion) (number : ℕ) (bytes : List ℕ) (error : HeaderSliceError)
        → RefusesExtensionChain version headers number bytes error
        → RefusesExtensionChain version slices number bytes error }
{}

/// States that the bytes of a parsed chain of extension headers are the wire formats of its headers, with any values in
/// the reserved bits, followed by the bytes after the chain. Writing the headers gives as many bytes as were parsed.
pub fn chain_bytes()
    ensures parts { (version : IpVersion) (reading : Reading) (number : ℕ) (bytes : List ℕ) (chain : ExtensionChain)
        → IsExtensionChain version reading number bytes chain
        → (encoded : List ℕ) × EncodesParts encoded chain.parts × (bytes ≡ encoded ++ chain.rest) }
    ensures len { (version : IpVersion) (reading : Reading) (number : ℕ) (bytes : List ℕ) (chain : ExtensionChain)
        → IsExtensionChain version reading number bytes chain
        → length bytes ≡ length (parts_bytes chain.parts) + length chain.rest }
{}

/// States that the owned headers parsed from an IPv6 extension header chain have the total length of the parsed bytes.
/// The headers' `is_fragmenting_payload` is true if and only if a fragment header of the chain states that the packet
/// carries a fragment.
pub fn chain_value()
    ensures len { (number : ℕ) (bytes : List ℕ) (chain : ExtensionChain)
        → IsExtensionChain ipv6 headers number bytes chain
        → length bytes ≡ length (parts_bytes (ipv6_parts (extensions_of chain.parts))) + length chain.rest }
    ensures fragments { (number : ℕ) (bytes : List ℕ) (chain : ExtensionChain)
        → IsExtensionChain ipv6 headers number bytes chain
        → chain_fragments (ipv6_parts (extensions_of chain.parts)) ≡ chain_fragments chain.parts }
{}

/// States that iteration over the bytes of a valid IPv6 extension header chain yields exactly the headers of the chain.
/// From any bytes, iteration yields no more headers than there are bytes.
pub fn shown_headers()
    ensures chain { (number : ℕ) (bytes : List ℕ) (parts : List ExtensionPart) (last : ℕ) (rest : List ℕ)
        → IsExtensionChain ipv6 slices number bytes (chain_of parts last rest) → shown_parts number bytes ≡ parts }
    ensures bound { (number : ℕ) (bytes : List ℕ) → length (shown_parts number bytes) ≤ length bytes }
{}

/// States that after `set_next_headers`, IPv4 extension headers can be written with the IP number that it returned.
/// Parsing the written bytes, followed by any bytes, returns these headers, unless the payload's IP number is that of
/// an authentication header.
pub fn linked_ipv4()
    ensures walk { (extensions : Ipv4Extensions) (last : IpNumber)
        → ipv4_walk (ipv4_linked extensions last) (ipv4_first extensions last) ≡ Ok last }
    ensures chain { (extensions : Ipv4Extensions) (last : IpNumber) (rest : List ℕ)
        → FitParts (ipv4_parts (ipv4_linked extensions last)) → (last.0 ≡ authentication_number → ⊥)
        → IsExtensionChain ipv4 headers (ipv4_first extensions last).0
        (parts_bytes (ipv4_parts (ipv4_linked extensions last)) ++ rest)
        (chain_of (ipv4_parts (ipv4_linked extensions last)) last.0 rest) }
{}

/// States that the next header fields of owned IPv6 extension headers, followed from a first IP number, either lead to
/// all headers and to exactly one IP number of the payload, or give exactly one error.
pub fn walk_ipv6()
    ensures { (extensions : Ipv6Extensions) (first : ℕ)
        → IsDecided (IsWalk extensions first) (RefusesWalk extensions first) }
{}

/// States that after `set_next_headers`, all IPv6 extension headers can be written with the IP number that it returned.
/// Parsing the written bytes, followed by any bytes, returns these headers, unless the payload's IP number is that of
/// an extension header.
pub fn linked_ipv6()
    ensures walk { (extensions : Ipv6Extensions) (last : IpNumber) → WalksAll (ipv6_linked extensions last)
        (ipv6_first extensions last).0 (ipv6_parts (ipv6_linked extensions last)) last.0 }
    ensures not_refused { (extensions : Ipv6Extensions) (last : IpNumber) (error : ExtsWalkError)
        → RefusesWalk (ipv6_linked extensions last) (ipv6_first extensions last).0 error → ⊥ }
    ensures value { (extensions : Ipv6Extensions) (last : IpNumber)
        → extensions_of (ipv6_parts (ipv6_linked extensions last)) ≡ ipv6_linked extensions last }
    ensures chain { (extensions : Ipv6Extensions) (last : IpNumber) (rest : List ℕ)
        → FitParts (ipv6_parts (ipv6_linked extensions last)) → is_ipv6_extension last.0 ≡ false
        → IsExtensionChain ipv6 headers (ipv6_first extensions last).0
        (parts_bytes (ipv6_parts (ipv6_linked extensions last)) ++ rest)
        (chain_of (ipv6_parts (ipv6_linked extensions last)) last.0 rest) }
{}

/// States that IPv6 extension headers, written in the order of their next header fields, have the total length of all
/// headers. Parsing the written bytes, followed by any bytes, returns these headers, unless the payload's IP number is
/// that of an extension header.
pub fn written_ipv6()
    ensures len { (extensions : Ipv6Extensions) (first : ℕ) (parts : List ExtensionPart) (last : ℕ)
        → WalksAll extensions first parts last
        → length (parts_bytes parts) ≡ length (parts_bytes (ipv6_parts extensions)) }
    ensures chain { (extensions : Ipv6Extensions) (first : ℕ) (parts : List ExtensionPart) (last : ℕ) (rest : List ℕ)
        → WalksAll extensions first parts last → FitParts parts → is_ipv6_extension last ≡ false
        → IsExtensionChain ipv6 headers first (parts_bytes parts ++ rest) (chain_of parts last rest) }
{}

/// Returns the default values of the IPv4 (owned and sliced) and IPv6 extension headers, all without headers.
pub fn no_headers() -> (Ipv4Extensions, Ipv4ExtensionsSlice<'static>, Ipv6Extensions)
    ensures ipv4 { result.0.auth ≡ None }
    ensures ipv4_slices { result.1.auth ≡ None }
    ensures ipv6 { result.2 ≡ no_ipv6_extensions }
{
    (
        Ipv4Extensions::default(),
        Ipv4ExtensionsSlice::default(),
        Ipv6Extensions::default(),
    )
}
