//! Errors when creating an ARP packet from addresses (RFC 826).

use crate::err::arp::arp_hw_addr_error::ArpHwAddrError;
use crate::err::arp::arp_proto_addr_error::ArpProtoAddrError;
use thiserror::Error;

/// Error when creating an ARP packet from addresses (RFC 826). The hardware addresses are checked first.
#[derive(Clone, Debug, PartialEq, Eq, Hash, Drop, Error)]
pub enum ArpNewError {
    /// The hardware addresses of the ARP packet have different lengths, or are longer than 255 bytes.
    #[error(transparent)]
    HwAddr(ArpHwAddrError),
    /// The protocol addresses of the ARP packet have different lengths, or are longer than 255 bytes.
    #[error(transparent)]
    ProtoAddr(ArpProtoAddrError),
}
