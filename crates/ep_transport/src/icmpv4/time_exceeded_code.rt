//! Codes of the ICMPv4 message time exceeded, type 11 (RFC 792).

ghost use Rattle.std.specs.Prelude.{◌≡◌};
ghost use Rattle.ep_transport.specs.Icmpv4.{icmpv4_exceeded_u8, icmpv4_exceeded_of};

/// Code of an ICMPv4 time exceeded message (type 11, RFC 792).
#[derive(Clone, Debug, PartialEq, Eq, Drop)]
pub enum TimeExceededCode {
    /// ICMPv4 time exceeded, code 0: the time to live was exceeded in transit.
    TtlExceededInTransit,
    /// ICMPv4 time exceeded, code 1: the time for fragment reassembly was exceeded.
    FragmentReassemblyTimeExceeded,
}

impl TimeExceededCode {
    /// Code of the ICMPv4 time exceeded message as a number, 0 or 1.
    #[inline]
    pub fn code_u8(&self) -> u8
        ensures { result ≡ icmpv4_exceeded_u8 self.now }
    {
        match self {
            TimeExceededCode::TtlExceededInTransit => 0,
            TimeExceededCode::FragmentReassemblyTimeExceeded => 1,
        }
    }

    /// Converts the code number of an ICMPv4 time exceeded message: 0 is TTL exceeded in transit, any other number is
    /// fragment reassembly time exceeded.
    #[inline]
    pub(crate) fn of(code_u8: u8) -> TimeExceededCode
        ensures { result ≡ icmpv4_exceeded_of code_u8 }
    {
        if code_u8 == 0 {
            TimeExceededCode::TtlExceededInTransit
        } else {
            TimeExceededCode::FragmentReassemblyTimeExceeded
        }
    }
}
