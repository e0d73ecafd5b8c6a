//! Errors of parsing headers of Linux cooked captures (SLL v1).

use crate::err::len_error::LenError;
use thiserror::Error;

/// Unsupported field of the header of a Linux cooked capture (SLL v1).
#[derive(Clone, Debug, PartialEq, Eq, Hash, Drop, Error)]
pub enum HeaderError {
    /// The packet type field of the Linux cooked capture header (SLL v1) is above 7.
    #[error("UnsupportedPacketTypeField {packet_type}")]
    UnsupportedPacketTypeField { packet_type: u16 },
    /// The ARPHRD hardware type of the Linux cooked capture header (SLL v1) is unsupported: the library cannot
    /// interpret the protocol field of the header for this type.
    #[error("UnsupportedArpHardwareId {arp_hardware_type}")]
    UnsupportedArpHardwareId { arp_hardware_type: u16 },
}

/// Error when parsing the header of a Linux cooked capture (SLL v1) from a slice.
#[derive(Clone, Debug, PartialEq, Eq, Hash, Drop, Error)]
#[error(transparent)]
pub enum HeaderSliceError {
    /// The slice has too few bytes for the header of a Linux cooked capture (SLL v1): 16.
    Len(LenError),
    /// A field of the Linux cooked capture header (SLL v1) has an unsupported value.
    Content(HeaderError),
}
