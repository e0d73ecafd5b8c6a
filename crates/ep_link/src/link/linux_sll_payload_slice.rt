//! Payloads of Linux cooked captures (SLL v1) with their protocol.

use crate::link::linux_sll_protocol_type::LinuxSllProtocolType;

/// Payload of a Linux cooked capture (SLL v1), with its protocol.
#[derive(Clone, Debug, PartialEq, Eq, Drop)]
pub struct LinuxSllPayloadSlice<'a> {
    /// Protocol of the Linux cooked capture's payload.
    pub protocol_type: LinuxSllProtocolType,
    /// Bytes after the header of the Linux cooked capture.
    pub payload: &'a [u8],
}
