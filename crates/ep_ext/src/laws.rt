//! Laws about IPv4 and IPv6 extension headers: each is the contract of a function that does nothing, and holds for all
//! bytes and values.

ghost use Rattle.std.specs.Prelude.{◌≡◌, ◌↔◌, ℕ, List, IsTrue, length, option_map};
ghost use Rattle.ep_base.specs.Bytes.{AreBytes};
ghost use Rattle.ep_base.specs.Readings.{Reading};
ghost use Rattle.ep_base.specs.Missing.{IsShortAt, ReportsTruncation, ReportsMissing, slice_end};
ghost use Rattle.ep_base.specs.declared.err.len_error.LenError.{LenError};
ghost use Rattle.ep_base.specs.declared.err.ip_auth.HeaderSliceError.TheVariants as auth_error;
ghost use Rattle.ep_base.specs.declared.err.ipv6_exts.HeaderSliceError.TheVariants as exts_error;
ghost use Rattle.ep_base.specs.declared.len_source.LenSource.TheVariants as source;
ghost use Rattle.ep_base.specs.Tables.{IsDecided};
ghost use Rattle.ep_ext.specs.FragmentHeader.{IsFragmentHeader, RefusesFragmentHeader};
ghost use Rattle.ep_ext.specs.IpAuth.{FitsIpAuth, IsIpAuth, RefusesIpAuth};
ghost use Rattle.ep_ext.specs.IpAuthSlices.{ip_auth_slice_bytes};
ghost use Rattle.ep_ext.specs.RawExtension.{FitsRawExtension, IsRawExtension, RefusesRawExtension};
ghost use Rattle.ep_ext.specs.RawExtensionSlices.{raw_extension_slice_bytes};
ghost use Rattle.ep_ext.specs.FragmentHeaderSlices.{fragment_slice_bytes};
ghost use Rattle.ep_ext.specs.ExtensionParts.{part_number};
ghost use Rattle.ep_ext.specs.Ipv6ExtensionSlices.{bytes_left, extension_slice_bytes, extension_slice_part, ipv6_slice_bytes, ipv6_slice_number, number_left};
ghost use Rattle.ep_ext.specs.Chains.{FitParts, IpVersion, IsExtensionChain, RefusesExtensionChain};
ghost use Rattle.ep_ext.specs.Ipv4Chains.{ipv4_parts};
ghost use Rattle.ep_ext.specs.Ipv6Chains.{FitRouting, ipv6_parts};

pub mod chains;

use crate::err::ip_auth::IcvLenError;
use crate::err::ipv6_exts::ExtPayloadLenError;
use crate::{
    IpAuthHeader, IpAuthHeaderSlice, Ipv4Extensions, Ipv4ExtensionsSlice, Ipv6ExtensionSlice,
    Ipv6ExtensionSliceIter, Ipv6Extensions, Ipv6ExtensionsSlice, Ipv6FragmentHeader,
    Ipv6FragmentHeaderSlice, Ipv6RawExtHeader, Ipv6RawExtHeaderSlice, Ipv6RoutingExtensions,
};

/// States that any bytes either begin with a valid IP authentication header, whose fields and length the bytes
/// determine, or are rejected with exactly one error.
pub fn ip_auth()
    ensures { (bytes : List ℕ) → AreBytes bytes → IsDecided (IsIpAuth bytes) (RefusesIpAuth bytes) }
{}

/// States that any bytes either begin with a valid IPv6 options or routing header, whose fields and length the bytes
/// determine, or are rejected with exactly one error.
pub fn raw_extension()
    ensures { (bytes : List ℕ) → AreBytes bytes → IsDecided (IsRawExtension bytes) (RefusesRawExtension bytes) }
{}

/// States that any bytes either begin with a valid IPv6 fragment header, whose fields and length the bytes determine,
/// or are rejected with exactly one error.
pub fn fragment_header()
    ensures { (bytes : List ℕ) → AreBytes bytes → IsDecided (IsFragmentHeader bytes) (RefusesFragmentHeader bytes) }
{}

/// States that a length error of an extension header, or of a chain of extension headers, reports exactly how many
/// bytes are available and how many are required. Once at least the missing bytes (`required_len` minus `len`) are
/// appended, the check that failed does not fail again. The `len_source` of a chain's length error is `Slice`.
pub fn missing_bytes()
    ensures ip_auth { ReportsMissing (λ bytes error. RefusesIpAuth bytes (auth_error.Len error)) }
    ensures raw_extension { ReportsMissing RefusesRawExtension }
    ensures fragment_header { ReportsMissing RefusesFragmentHeader }
    ensures chain { (version : IpVersion) (reading : Reading) (number : ℕ)
        → ReportsMissing (λ bytes error. RefusesExtensionChain version reading number bytes (exts_error.Len error)) }
    ensures limit { (version : IpVersion) (reading : Reading) (number : ℕ) (bytes : List ℕ) (error : LenError)
        → RefusesExtensionChain version reading number bytes (exts_error.Len error)
        → IsShortAt (length bytes) error × (error.len_source ≡ source.Slice) }
{}

/// States that if bytes begin with a valid extension header or chain of extension headers, and a prefix of the bytes is
/// rejected, the error is a length error. Its offset plus `len` is the length of the prefix, `required_len` is more
/// than `len`, the offset plus `required_len` is at most the original length, and `len_source` is `Slice`.
pub fn truncation()
    ensures ip_auth { ReportsTruncation IsIpAuth RefusesIpAuth auth_error.Len (λ read. slice_end) }
    ensures raw_extension { ReportsTruncation IsRawExtension RefusesRawExtension (λ (error : LenError). error)
        (λ read. slice_end) }
    ensures fragment_header { ReportsTruncation IsFragmentHeader RefusesFragmentHeader (λ (error : LenError). error)
        (λ read. slice_end) }
    ensures chain { (version : IpVersion) (reading : Reading) (number : ℕ)
        → ReportsTruncation (IsExtensionChain version reading number) (RefusesExtensionChain version reading number)
        exts_error.Len (λ chain. slice_end) }
{}

/// States the values of the length constants of IP authentication, IPv6 fragment, and IPv6 options or routing headers.
pub fn constants()
    ensures ip_auth { (IpAuthHeader.MIN_LEN ≡ 12) × (IpAuthHeader.MAX_ICV_LEN ≡ 1016) × (IpAuthHeader.MAX_LEN ≡ 1028) }
    ensures raw_extension { (Ipv6RawExtHeader.MIN_LEN ≡ 8) × (Ipv6RawExtHeader.MAX_LEN ≡ 2048) }
    ensures raw_payload { (Ipv6RawExtHeader.MIN_PAYLOAD_LEN ≡ 6) × (Ipv6RawExtHeader.MAX_PAYLOAD_LEN ≡ 2046) }
    ensures fragment_header { Ipv6FragmentHeader.LEN ≡ 8 }
{}

/// States when `==` is true for each type for extension headers. Owned headers and errors are equal if all fields are;
/// integrity check values and payloads compare by their bytes. Slices are equal if they have the same bytes and header
/// types. For IPv6 chains in slices and their iterators, the IP number of the first header (or of the payload, without
/// headers) must be equal, too.
pub fn comparisons()
    ensures icv_errors { (a b : IcvLenError) → IsTrue (⟦<IcvLenError as PartialEq>⟧.eq a b) ↔ (a ≡ b) }
    ensures payload_errors { (a b : ExtPayloadLenError) →
        IsTrue (⟦<ExtPayloadLenError as PartialEq>⟧.eq a b) ↔ (a ≡ b) }
    ensures fragment_header { (a b : Ipv6FragmentHeader) →
        IsTrue (⟦<Ipv6FragmentHeader as PartialEq>⟧.eq a b) ↔ (a ≡ b) }
    ensures ip_auth { (a b : IpAuthHeader) → FitsIpAuth a → FitsIpAuth b →
        IsTrue (⟦<IpAuthHeader as PartialEq>⟧.eq a b) ↔ (a ≡ b) }
    ensures raw_extension { (a b : Ipv6RawExtHeader) → FitsRawExtension a → FitsRawExtension b →
        IsTrue (⟦<Ipv6RawExtHeader as PartialEq>⟧.eq a b) ↔ (a ≡ b) }
    ensures routing { (a b : Ipv6RoutingExtensions) → FitRouting a → FitRouting b →
        IsTrue (⟦<Ipv6RoutingExtensions as PartialEq>⟧.eq a b) ↔ (a ≡ b) }
    ensures ip_auth_slice { (a b : IpAuthHeaderSlice) → IsTrue (⟦<IpAuthHeaderSlice<'static> as PartialEq>⟧.eq a b)
        ↔ (ip_auth_slice_bytes a ≡ ip_auth_slice_bytes b) }
    ensures raw_extension_slice { (a b : Ipv6RawExtHeaderSlice) →
        IsTrue (⟦<Ipv6RawExtHeaderSlice<'static> as PartialEq>⟧.eq a b)
        ↔ (raw_extension_slice_bytes a ≡ raw_extension_slice_bytes b) }
    ensures fragment_slice { (a b : Ipv6FragmentHeaderSlice) →
        IsTrue (⟦<Ipv6FragmentHeaderSlice<'static> as PartialEq>⟧.eq a b)
        ↔ (fragment_slice_bytes a ≡ fragment_slice_bytes b) }
    ensures ipv4_slices { (a b : Ipv4ExtensionsSlice) →
        IsTrue (⟦<Ipv4ExtensionsSlice<'static> as PartialEq>⟧.eq a b)
        ↔ (option_map ip_auth_slice_bytes a.auth ≡ option_map ip_auth_slice_bytes b.auth) }
    ensures ipv6_slice { (a b : Ipv6ExtensionSlice) →
        IsTrue (⟦<Ipv6ExtensionSlice<'static> as PartialEq>⟧.eq a b)
        ↔ ((part_number (extension_slice_part a) ≡ part_number (extension_slice_part b))
        × (extension_slice_bytes a ≡ extension_slice_bytes b)) }
    ensures ipv6_slices { (a b : Ipv6ExtensionsSlice) →
        IsTrue (⟦<Ipv6ExtensionsSlice<'static> as PartialEq>⟧.eq a b)
        ↔ ((ipv6_slice_number a ≡ ipv6_slice_number b) × (ipv6_slice_bytes a ≡ ipv6_slice_bytes b)) }
    ensures iterators { (a b : Ipv6ExtensionSliceIter) →
        IsTrue (⟦<Ipv6ExtensionSliceIter<'static> as PartialEq>⟧.eq a b)
        ↔ ((number_left a ≡ number_left b) × (bytes_left a ≡ bytes_left b)) }
    ensures ipv4 { (a b : Ipv4Extensions) → FitParts (ipv4_parts a) → FitParts (ipv4_parts b) →
        IsTrue (⟦<Ipv4Extensions as PartialEq>⟧.eq a b) ↔ (a ≡ b) }
    ensures ipv6 { (a b : Ipv6Extensions) → FitParts (ipv6_parts a) → FitParts (ipv6_parts b) →
        IsTrue (⟦<Ipv6Extensions as PartialEq>⟧.eq a b) ↔ (a ≡ b) }
{}

/// States that a clone is equal to its source, for each error, header, slice and iterator type of the extension
/// headers.
pub fn clones()
    ensures icv_errors { (a b : IcvLenError) → ⟦<IcvLenError as Clone>⟧.is_clone a b → b ≡ a }
    ensures payload_errors { (a b : ExtPayloadLenError) → ⟦<ExtPayloadLenError as Clone>⟧.is_clone a b → b ≡ a }
    ensures fragment_header { (a b : Ipv6FragmentHeader) → ⟦<Ipv6FragmentHeader as Clone>⟧.is_clone a b → b ≡ a }
    ensures ip_auth { (a b : IpAuthHeader) → ⟦<IpAuthHeader as Clone>⟧.is_clone a b → b ≡ a }
    ensures raw_extension { (a b : Ipv6RawExtHeader) → ⟦<Ipv6RawExtHeader as Clone>⟧.is_clone a b → b ≡ a }
    ensures routing { (a b : Ipv6RoutingExtensions) → ⟦<Ipv6RoutingExtensions as Clone>⟧.is_clone a b → b ≡ a }
    ensures ip_auth_slice { (a b : IpAuthHeaderSlice) → ⟦<IpAuthHeaderSlice<'static> as Clone>⟧.is_clone a b → b ≡ a }
    ensures raw_extension_slice { (a b : Ipv6RawExtHeaderSlice) →
        ⟦<Ipv6RawExtHeaderSlice<'static> as Clone>⟧.is_clone a b → b ≡ a }
    ensures fragment_slice { (a b : Ipv6FragmentHeaderSlice) →
        ⟦<Ipv6FragmentHeaderSlice<'static> as Clone>⟧.is_clone a b → b ≡ a }
    ensures ipv4_slices { (a b : Ipv4ExtensionsSlice) → ⟦<Ipv4ExtensionsSlice<'static> as Clone>⟧.is_clone a b → b ≡ a }
    ensures ipv6_slice { (a b : Ipv6ExtensionSlice) → ⟦<Ipv6ExtensionSlice<'static> as Clone>⟧.is_clone a b → b ≡ a }
    ensures ipv6_slices { (a b : Ipv6ExtensionsSlice) → ⟦<Ipv6ExtensionsSlice<'static> as Clone>⟧.is_clone a b → b ≡ a }
    ensures iterators { (a b : Ipv6ExtensionSliceIter) →
        ⟦<Ipv6ExtensionSliceIter<'static> as Clone>⟧.is_clone a b → b ≡ a }
    ensures ipv4 { (a b : Ipv4Extensions) → ⟦<Ipv4Extensions as Clone>⟧.is_clone a b → b ≡ a }
    ensures ipv6 { (a b : Ipv6Extensions) → ⟦<Ipv6Extensions as Clone>⟧.is_clone a b → b ≡ a }
{}

/// States that cloning any error, header, slice or iterator of the extension headers never fails, because it does not
/// allocate.
pub fn clones_succeed()
    ensures icv_errors { (a : IcvLenError) → ⟦<IcvLenError as Clone>⟧.is_infallible a }
    ensures payload_errors { (a : ExtPayloadLenError) → ⟦<ExtPayloadLenError as Clone>⟧.is_infallible a }
    ensures fragment_header { (a : Ipv6FragmentHeader) → ⟦<Ipv6FragmentHeader as Clone>⟧.is_infallible a }
    ensures ip_auth { (a : IpAuthHeader) → ⟦<IpAuthHeader as Clone>⟧.is_infallible a }
    ensures raw_extension { (a : Ipv6RawExtHeader) → ⟦<Ipv6RawExtHeader as Clone>⟧.is_infallible a }
    ensures routing { (a : Ipv6RoutingExtensions) → ⟦<Ipv6RoutingExtensions as Clone>⟧.is_infallible a }
    ensures ip_auth_slice { (a : IpAuthHeaderSlice) → ⟦<IpAuthHeaderSlice<'static> as Clone>⟧.is_infallible a }
    ensures raw_extension_slice { (a : Ipv6RawExtHeaderSlice) →
        ⟦<Ipv6RawExtHeaderSlice<'static> as Clone>⟧.is_infallible a }
    ensures fragment_slice { (a : Ipv6FragmentHeaderSlice) →
        ⟦<Ipv6FragmentHeaderSlice<'static> as Clone>⟧.is_infallible a }
    ensures ipv4_slices { (a : Ipv4ExtensionsSlice) → ⟦<Ipv4ExtensionsSlice<'static> as Clone>⟧.is_infallible a }
    ensures ipv6_slice { (a : Ipv6ExtensionSlice) → ⟦<Ipv6ExtensionSlice<'static> as Clone>⟧.is_infallible a }
    ensures ipv6_slices { (a : Ipv6ExtensionsSlice) → ⟦<Ipv6ExtensionsSlice<'static> as Clone>⟧.is_infallible a }
    ensures iterators { (a : Ipv6ExtensionSliceIter) → ⟦<Ipv6ExtensionSliceIter<'static> as Clone>⟧.is_infallible a }
    ensures ipv4 { (a : Ipv4Extensions) → ⟦<Ipv4Extensions as Clone>⟧.is_infallible a }
    ensures ipv6 { (a : Ipv6Extensions) → ⟦<Ipv6Extensions as Clone>⟧.is_infallible a }
{}
