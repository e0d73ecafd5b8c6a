//! Packets of a capture in either format, pcap or pcapng.

ghost use Rattle.std.specs.Prelude.{◌≡◌};
ghost use Rattle.capture_reader.specs.BlockContents.{known_shown};
ghost use Rattle.capture_reader.specs.Readers.{shown_of};

/// Timestamp of a packet: `offset + ticks / per_second` seconds since 1970-01-01 00:00 UTC.
#[derive(Clone, Copy, Debug, PartialEq, Eq)]
pub struct Time {
    /// Timestamp of a packet in units of `1 / per_second` seconds, as the capture states it, without `offset`.
    pub ticks: u64,
    /// Number of timestamp units in a second, as 1,000,000 for microseconds.
    pub per_second: u64,
    /// Seconds to be added to a packet's timestamp (option `if_tsoffset` of its pcapng interface); 0 in a pcap capture.
    pub offset: i64,
}

/// Link type, interface, timestamp and original length of a packet in a pcap or pcapng capture: all but its bytes.
#[derive(Clone, Copy, Debug, PartialEq, Eq)]
pub struct Known {
    /// Link type of a packet, which determines its first header (1: Ethernet).
    pub link_type: u16,
    /// Number of the packet's interface within its section (pcapng), from 0 on; `None` in a pcap capture.
    pub interface: Option<u32>,
    /// Timestamp of a packet; `None` for a Simple Packet Block, which has none.
    pub time: Option<Time>,
    /// Original length of a packet in bytes, before it was truncated to the snap length.
    pub original_len: u32,
}

impl Known {
    /// Properties that a capture reader has stored before it has read a packet: all fields are 0 or `None`.
    pub const NONE: Known = Known {
        link_type: 0,
        interface: None,
        time: None,
        original_len: 0,
    };

    /// Returns the packet with these properties and these bytes.
    #[inline(always)]
    pub(crate) fn shown<'a>(&self, bytes: &'a [u8]) -> Shown<'a>
        ensures { shown_of result ≡ known_shown self.now bytes.now }
    {
        Shown {
            link_type: self.link_type,
            interface: self.interface,
            time: self.time,
            original_len: self.original_len,
            bytes,
        }
    }
}

/// A packet of a pcap or pcapng capture: link type, interface, timestamp, original length and captured bytes.
#[derive(Clone, Copy, Debug, PartialEq, Eq)]
pub struct Shown<'a> {
    /// Link type of a packet, which determines its first header (1: Ethernet).
    pub link_type: u16,
    /// Number of the packet's interface within its section (pcapng), from 0 on; `None` in a pcap capture.
    pub interface: Option<u32>,
    /// Timestamp of a packet; `None` for a Simple Packet Block, which has none.
    pub time: Option<Time>,
    /// Original length of a packet in bytes, before it was truncated to the snap length.
    pub original_len: u32,
    /// Captured bytes of a packet, starting at the header that its link type determines.
    pub bytes: &'a [u8],
}
