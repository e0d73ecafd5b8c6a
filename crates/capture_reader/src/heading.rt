//! The file header of a pcap capture.

ghost use Rattle.std.specs.Prelude.{◌≡◌, ◌≤◌, IfErr, IfOk, OnOk, drop, length};
ghost use Rattle.capture_reader.specs.Classic.{IsHeading, RefusesHeading, link_of, style_of};

use crate::byte_order::ByteOrder;
use crate::refusal::Refusal;

/// Unit of the fraction of a second in the timestamps of a pcap capture.
#[derive(Clone, Copy, Debug, PartialEq, Eq)]
pub enum Resolution {
    /// Timestamps consist of seconds and microseconds.
    Micros,
    /// Timestamps consist of seconds and nanoseconds.
    Nanos,
}

/// The file header at the start of a pcap capture, 24 bytes.
#[derive(Clone, Copy, Debug, PartialEq, Eq)]
pub struct Heading {
    /// Byte order of all numbers in the pcap capture, as the magic number in bytes 0 to 3 of the file header states it.
    pub order: ByteOrder,
    /// Unit of the fractions of a second in the timestamps of the pcap capture, as the magic number of the file header
    /// states it.
    pub resolution: Resolution,
    /// Time zone of a pcap capture, bytes 8 to 11 of the file header; 0 in practice.
    pub zone: u32,
    /// Accuracy of the timestamps of a pcap capture, bytes 12 to 15 of the file header; 0 in practice.
    pub accuracy: u32,
    /// Snap length of a pcap capture, bytes 16 to 19 of the file header: maximum number of bytes that are captured of a
    /// packet.
    pub snap_len: u32,
    /// Bytes 20 to 23 of a pcap file header: the link type in the lower 16 bits, the length of the frame check sequence
    /// in the upper ones.
    pub network: u32,
}

impl Heading {
    /// Length of a pcap file header in bytes: 24.
    pub const LEN: usize = 24;

    /// Link type of all packets of the pcap capture: the lower 16 bits of `network`.
    #[inline]
    pub fn link_type(&self) -> u16
        ensures { result ≡ link_of self.now.network }
    {
        (self.network % 65_536) as u16
    }

    /// Parses the pcap file header at the start of `bytes`.
    pub fn from_slice(bytes: &[u8]) -> Result<Heading, Refusal>
        ensures ok { IfOk result (λ heading. IsHeading bytes.now (heading, drop 24 bytes.now)) }
        ensures err { IfErr result (RefusesHeading bytes.now) }
        ensures long { OnOk result (24 ≤ length bytes.now) }
    {
        if bytes.len() < 4 {
            return Err(Refusal::Cut {
                required_len: 4,
                len: bytes.len(),
            });
        }
        let magic = ByteOrder::Big.word32(bytes, 0);
        let Some((order, resolution)) = style_of(magic) else {
            return Err(Refusal::UnknownMagic { magic });
        };
        if bytes.len() < Heading::LEN {
            return Err(Refusal::Cut {
                required_len: Heading::LEN,
                len: bytes.len(),
            });
        }
        let major = order.word16(bytes, 4);
        let minor = order.word16(bytes, 6);
        if major != 2 || minor != 4 {
            return Err(Refusal::UnsupportedVersion { major, minor });
        }
        Ok(Heading {
            order,
            resolution,
            zone: order.word32(bytes, 8),
            accuracy: order.word32(bytes, 12),
            snap_len: order.word32(bytes, 16),
            network: order.word32(bytes, 20),
        })
    }
}

/// Returns the byte order and the unit of fractions of a second that the magic number of a pcap file header states, or
/// `None` if it is unknown. `magic` was read as a big endian number.
fn style_of(magic: u32) -> Option<(ByteOrder, Resolution)>
    ensures { result ≡ style_of magic }
{
    match magic {
        0xa1b2_c3d4 => Some((ByteOrder::Big, Resolution::Micros)),
        0xd4c3_b2a1 => Some((ByteOrder::Little, Resolution::Micros)),
        0xa1b2_3c4d => Some((ByteOrder::Big, Resolution::Nanos)),
        0x4d3c_b2a1 => Some((ByteOrder::Little, Resolution::Nanos)),
        _ => None,
    }
}
