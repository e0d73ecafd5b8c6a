//! Error of setting the next header (payload protocol) of a network layer.

use thiserror::Error;

/// Reason why the next header (payload protocol) of a network layer cannot be set.
#[derive(Clone, Debug, PartialEq, Eq, Hash, Drop, Error)]
pub enum NetSetNextHeaderError {
    /// The network layer is an ARP packet, which has no next header field.
    #[error("It is not possible to set the payload 'IP number' for an ARP header.")]
    ArpHeader,
}
