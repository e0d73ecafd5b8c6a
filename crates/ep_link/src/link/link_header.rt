//! Owned link headers of either type: Ethernet II or Linux cooked capture.

ghost use Rattle.std.specs.Prelude.{◌≡◌, ◌++◌, ◌+◌, ◌<◌, ◌≤◌, length, OnOk, OnErr, vec_len, vec_capacity};
ghost use Rattle.ep_link.specs.LinkSlices.{link_bytes, link_header_len};

use crate::link::ethernet2_header::Ethernet2Header;
use crate::link::linux_sll_header::LinuxSllHeader;
use arrayvec::ArrayVec;
use std::alloc::AllocError;

/// Link header, owned: Ethernet II or Linux cooked capture (SLL v1).
#[derive(Clone, Debug, PartialEq, Eq, Drop)]
pub enum LinkHeader {
    /// Ethernet II header, 14 bytes.
    Ethernet2(Ethernet2Header),
    /// Header of a Linux cooked capture (SLL v1), 16 bytes.
    LinuxSll(LinuxSllHeader),
}

impl LinkHeader {
    /// Length of the link header in bytes: 14 for Ethernet II, 16 for a Linux cooked capture.
    #[inline]
    pub fn header_len(&self) -> usize
        ensures value { result ≡ link_header_len self.now }
        ensures bytes { result ≡ length (link_bytes self.now) }
    {
        match self {
            LinkHeader::Ethernet2(header) => header.header_len(),
            LinkHeader::LinuxSll(header) => header.header_len(),
        }
    }

    /// Returns the wire bytes of the link header: 14 for Ethernet II, 16 for a Linux cooked capture.
    pub fn to_bytes(&self) -> ArrayVec<u8, 16>
        ensures { result.items ≡ link_bytes self.now }
    {
        let mut bytes = ArrayVec::new();
        match self {
            LinkHeader::Ethernet2(header) => {
                bytes.try_extend_from_slice(&header.to_bytes()).unwrap()
            }
            LinkHeader::LinuxSll(header) => {
                bytes.try_extend_from_slice(&header.to_bytes()).unwrap()
            }
        }
        bytes
    }

    /// Appends the wire bytes of the link header to `buf`. Allocates only if the capacity of `buf` is too small; if the
    /// allocation fails, `buf` is unchanged.
    pub fn write(&self, buf: &mut Vec<u8>) -> Result<(), AllocError>
        ensures ok { OnOk result (buf.new.items ≡ buf.old.items ++ link_bytes self.now) }
        ensures err { OnErr result (buf.new.items ≡ buf.old.items) }
        ensures full { OnErr result (vec_capacity buf.old < vec_len buf.old + length (link_bytes self.now)) }
        ensures capacity { vec_capacity buf.old ≤ vec_capacity buf.new }
    {
        match self {
            LinkHeader::Ethernet2(header) => header.write(buf),
            LinkHeader::LinuxSll(header) => header.write(buf),
        }
    }
}
