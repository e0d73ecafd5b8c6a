//! Limiting a payload by the length field of its layer, in lax slicing: an invalid length field is ignored.

ghost use Rattle.std.specs.Prelude.{◌≤◌, List, ℕ, length, drop};
ghost use Rattle.ep_base.specs.LaxCut.{IsLaxCut, lax_cut_of};

use crate::len_source::LenSource;

/// Length field of a layer that lax slicing reads (IPv4 total length, IPv6 payload length or MACsec short length).
#[derive(Clone, Copy)]
pub struct LengthField {
    /// Minimum valid length that the layer's length field can state, in bytes from the start of the layer's header.
    pub least: usize,
    /// Length that the layer's length field states, in bytes from the start of the layer's header.
    pub stated: usize,
    /// Name of the layer's length field, as [`LenSource`].
    pub source: LenSource,
}

/// Bytes after the header of a layer, limited by the layer's length field, if the field is valid.
#[derive(Clone, Copy)]
pub struct LimitedSlice<'a> {
    /// Bytes after the header: up to the end that the layer's length field states, or all bytes if the field is
    /// ignored.
    pub payload: &'a [u8],
    /// Source of the payload's length: the length field that limits the payload, or the end of the slice.
    pub len_source: LenSource,
    /// True if bytes of the payload are missing: a length field counts more bytes than are available.
    pub incomplete: bool,
}

/// Returns the bytes of `slice` after a header of `header_len` bytes, limited by the layer's length field. A field
/// below its minimum or above the available bytes is ignored. With an ignored field, the payload is incomplete if the
/// field is above the available bytes, or if `outer` is true: bytes of the layer are already known to be missing.
#[inline(always)]
pub fn limit_by_length_field<'a>(
    slice: &'a [u8],
    header_len: usize,
    field: LengthField,
    outer: bool,
) -> LimitedSlice<'a>
    requires header { header_len ≤ length slice.now }
    requires least { header_len ≤ field.least }
    ensures { (left : List ℕ) × IsLaxCut field.least field.stated field.source outer header_len
        (drop header_len slice.now) (lax_cut_of result left) }
{
    let least = field.least;
    let stated = field.stated;
    if stated < least || slice.len() < stated {
        let more = slice.len() < stated;
        return LimitedSlice {
            payload: &slice[header_len..],
            len_source: LenSource::Slice,
            incomplete: outer | more,
        };
    }
    LimitedSlice {
        payload: &slice[header_len..stated],
        len_source: field.source,
        incomplete: false,
    }
}
