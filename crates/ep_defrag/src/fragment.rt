//! A fragment of an IP payload: offset, more-fragments flag and bytes.

use ep_base::IpFragOffset;
use std::marker::Model;

/// A fragment of an IP payload: its offset, its more-fragments flag and its bytes (RFC 791, 3.1 and RFC 8200, 4.5).
#[derive(Debug, Drop)]
pub struct Fragment<'a> {
    /// Fragment offset: position of the fragment's first byte in the reassembled payload, in units of 8 bytes.
    pub offset: IpFragOffset,
    /// More-fragments flag of the fragment: true if more fragments of the payload follow, false for the final fragment.
    pub more_fragments: bool,
    /// Bytes of the fragment, without headers.
    pub payload: &'a [u8],
}

impl<'a> Model for Fragment<'a> {
    ghost use Rattle.ep_defrag.specs.IpFragments.{IpFragment};

    ghost Value = { IpFragment };

    ghost view = { λ fields.
        record { offset = fields.offset; more = fields.more_fragments; bytes = fields.payload.now } };
}
