//! Operation numbers of ARP packets (RFC 826): request and reply.

/// Operation number of an ARP packet (RFC 826), such as request or reply.
#[derive(Clone, Copy, Debug, PartialEq, Eq, PartialOrd, Ord, Hash)]
pub struct ArpOperation(pub u16);

impl ArpOperation {
    ghost use Rattle.std.specs.Prelude.{◌≡◌, option_copied};
    ghost use Rattle.ep_link.specs.Arp.{arp_operation_name};

    /// ARP operation 1: request for the hardware address that belongs to a protocol address.
    pub const REQUEST: ArpOperation = ArpOperation(1);
    /// ARP operation 2: reply to an ARP request.
    pub const REPLY: ArpOperation = ArpOperation(2);

    /// Returns the name of the ARP operation, `REQUEST` or `REPLY`, or `None` for any other number.
    pub fn name(self) -> Option<&'static str>
        ensures { option_copied result ≡ arp_operation_name self.0 }
    {
        match self {
            ArpOperation::REQUEST => Some("REQUEST"),
            ArpOperation::REPLY => Some("REPLY"),
            _ => None,
        }
    }
}
