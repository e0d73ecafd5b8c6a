//! Iterator over the IPv6 extension headers in a slice (RFC 8200, 4).

use crate::ipv6_ext_slice::{Ipv6ExtensionSlice, is_extension};
use ep_base::IpNumber;

/// Iterator over the extension headers of an IPv6 packet in the order on the wire, as one slice for each header.
#[derive(Clone, Debug, PartialEq, Eq, Drop)]
pub struct Ipv6ExtensionSliceIter<'a> {
    /// IP number of the IPv6 extension header that the iterator yields next, or of the payload once all headers are
    /// yielded.
    pub(crate) number: IpNumber,
    /// Bytes of the IPv6 extension headers that the iterator has not yielded yet.
    pub(crate) rest: &'a [u8],
}

impl<'a> Iterator for Ipv6ExtensionSliceIter<'a> {
    ghost use Rattle.std.specs.Iterator.{item_count};
    ghost use Rattle.ep_ext.specs.Ipv6ExtensionSlices.{YieldsExtension, parts_left};

    type Item = Ipv6ExtensionSlice<'a>;

    ghost next_gives = { YieldsExtension };

    ghost remaining = { item_count parts_left };

    fn next(&mut self) -> Option<Ipv6ExtensionSlice<'a>> {
        if !is_extension(self.number) {
            return None;
        }
        match Ipv6ExtensionSlice::read(self.number, self.rest) {
            Ok(part) => {
                self.number = part.next_header();
                self.rest = &self.rest[part.slice().len()..];
                Some(part)
            }
            Err(_) => None,
        }
    }
}
