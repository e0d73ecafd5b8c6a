//! Codes of the ICMPv6 message time exceeded, type 3 (RFC 4443, 3.3).

ghost use Rattle.std.specs.Prelude.{◌≡◌};
ghost use Rattle.ep_transport.specs.Icmpv6.{icmpv6_exceeded_u8, icmpv6_exceeded_of};

/// Code of an ICMPv6 time exceeded message (type 3; RFC 4443, 3.3).
#[derive(Clone, Debug, PartialEq, Eq, Drop)]
pub enum TimeExceededCode {
    /// ICMPv6 time exceeded, code 0: the hop limit was exceeded in transit.
    HopLimitExceeded,
    /// ICMPv6 time exceeded, code 1: the time for fragment reassembly was exceeded.
    FragmentReassemblyTimeExceeded,
}

impl TimeExceededCode {
    /// Code of the ICMPv6 time exceeded message as a number, 0 or 1.
    #[inline]
    pub fn code_u8(&self) -> u8
        ensures { result ≡ icmpv6_exceeded_u8 self.now }
    {
        match self {
            TimeExceededCode::HopLimitExceeded => 0,
            TimeExceededCode::FragmentReassemblyTimeExceeded => 1,
        }
    }

    /// Converts the code number of an ICMPv6 time exceeded message: 0 is hop limit exceeded in transit, any other
    /// number is fragment reassembly time exceeded.
    #[inline]
    pub(crate) fn of(code_u8: u8) -> TimeExceededCode
        ensures { result ≡ icmpv6_exceeded_of code_u8 }
    {
        if code_u8 == 0 {
            TimeExceededCode::HopLimitExceeded
        } else {
            TimeExceededCode::FragmentReassemblyTimeExceeded
        }
    }
}
