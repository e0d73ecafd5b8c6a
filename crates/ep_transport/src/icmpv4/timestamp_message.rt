//! Contents of ICMPv4 timestamp messages (RFC 792).

/// Contents of an ICMPv4 timestamp request or reply (RFC 792), bytes 4 to 19. Each timestamp is in milliseconds since
/// midnight UTC.
#[derive(Clone, Debug, PartialEq, Eq, Drop)]
pub struct TimestampMessage {
    /// Identifier of an ICMPv4 timestamp message, bytes 4 and 5.
    pub id: u16,
    /// Sequence number of an ICMPv4 timestamp message, bytes 6 and 7.
    pub seq: u16,
    /// Originate timestamp of an ICMPv4 timestamp message: time the request was sent, in milliseconds since midnight
    /// UTC, bytes 8 to 11.
    pub originate_timestamp: u32,
    /// Receive timestamp of an ICMPv4 timestamp message: time the request was received, in milliseconds since midnight
    /// UTC, bytes 12 to 15.
    pub receive_timestamp: u32,
    /// Transmit timestamp of an ICMPv4 timestamp message: time the reply was sent, in milliseconds since midnight UTC,
    /// bytes 16 to 19.
    pub transmit_timestamp: u32,
}

impl TimestampMessage {
    ghost use Rattle.std.specs.Prelude.{◌≡◌};
    ghost use Rattle.ep_transport.specs.Icmpv4.{timestamp_bytes};

    /// Returns bytes 4 to 19 of an ICMPv4 timestamp message: identifier, sequence number and the three timestamps.
    #[inline]
    pub fn to_bytes(&self) -> [u8; 16]
        ensures { result ≡ timestamp_bytes self.now }
    {
        let [i0, i1] = self.id.to_be_bytes();
        let [s0, s1] = self.seq.to_be_bytes();
        let [o0, o1, o2, o3] = self.originate_timestamp.to_be_bytes();
        let [r0, r1, r2, r3] = self.receive_timestamp.to_be_bytes();
        let [t0, t1, t2, t3] = self.transmit_timestamp.to_be_bytes();
        [
            i0, i1, s0, s1, o0, o1, o2, o3, r0, r1, r2, r3, t0, t1, t2, t3,
        ]
    }
}
