//! Calls for C that slice many frames at once, strictly or laxly.

ghost use Rattle.std.specs.Prelude.{Option};
ghost use Rattle.etherparse.specs.Types.Entry.{Entry};
ghost use Rattle.etherparse_c.specs.LaxAnswers.{IsLaxAnswer};
ghost use Rattle.etherparse_c.specs.ManyAnswers.{FrameAnswers, IsManyAnswer};
ghost use Rattle.etherparse_c.specs.SliceAnswers.{IsSliceAnswer, entry_of};

use crate::lax_slicing::etherparse_2_slice_lax;
use crate::numbers;
use crate::packet::Packet;
use crate::slicing::{entry_of, etherparse_2_slice};

/// Slices consecutive frames in `bytes` strictly: frame 0 is `bytes[..ends[0]]`, and frame i is
/// `bytes[ends[i - 1]..ends[i]]`. The description of frame i, or its error, is written to `packets[i]`; `sliced` is the
/// number of written elements of `packets`. The other elements are unchanged.
///
/// Returns the status: 0 if all frames, valid or not, are sliced; 3 if `packets` is shorter than `ends`, which is
/// checked first; 2 if `entry` (the number of each frame's first header, as in `etherparse_2_slice`) is above 3. No
/// frame is sliced with status 3 or such an `entry`. The status is also 2 if a frame's end is less than its start or
/// greater than the length of `bytes`; only the frames that precede this frame are then sliced.
#[unsafe(no_mangle)]
pub extern "C" fn etherparse_2_slice_many(
    entry: u32,
    ether_type: u16,
    bytes: &[u8],
    ends: &[usize],
    packets: &mut [Packet],
    sliced: &mut usize,
) -> u32
    ensures { IsManyAnswer IsSliceAnswer (entry_of entry ether_type) bytes.now ends.now
        packets.old packets.new sliced.new result }
{
    slice_frames::<Strict>(entry, ether_type, bytes, ends, packets, sliced)
}

/// Slices consecutive packets in `bytes` laxly, each as `etherparse_2_slice_lax` does: packet 0 is `bytes[..ends[0]]`,
/// and packet i is `bytes[ends[i - 1]..ends[i]]`. The description of packet i, or the error of its first header, is
/// written to `packets[i]`; `sliced` is the number of written elements of `packets`. The other elements are unchanged.
///
/// Returns the status, as `etherparse_2_slice_many`: 0 if all packets are sliced; 3 if `packets` is shorter than `ends`;
/// 2 if `entry` is above 3, or if a packet's end is less than its start or greater than the length of `bytes`.
#[unsafe(no_mangle)]
pub extern "C" fn etherparse_2_slice_lax_many(
    entry: u32,
    ether_type: u16,
    bytes: &[u8],
    ends: &[usize],
    packets: &mut [Packet],
    sliced: &mut usize,
) -> u32
    ensures { IsManyAnswer IsLaxAnswer (entry_of entry ether_type) bytes.now ends.now
        packets.old packets.new sliced.new result }
{
    slice_frames::<Lax>(entry, ether_type, bytes, ends, packets, sliced)
}

/// Strict or lax slicing of one frame; implemented by `Strict` and `Lax`.
pub(crate) trait SlicesFrame {
    /// Answers of the call for one frame with a known or unknown first header, for contracts.
    ghost IsAnswer: { Option Entry → FrameAnswers };

    /// Slices one frame, whose first header has the number `entry`, into `packet`, and returns the status for C.
    fn slice(entry: u32, ether_type: u16, bytes: &[u8], packet: &mut Packet) -> u32
        ensures { IsAnswer (entry_of entry ether_type) bytes.now result packet.new };
}

/// Strict slicing, which rejects a frame with an invalid layer.
pub(crate) struct Strict;

/// Lax slicing, which describes the layers before the first invalid one.
pub(crate) struct Lax;

impl SlicesFrame for Strict {
    ghost IsAnswer = { IsSliceAnswer };

    #[inline(always)]
    fn slice(entry: u32, ether_type: u16, bytes: &[u8], packet: &mut Packet) -> u32 {
        etherparse_2_slice(entry, ether_type, bytes, packet)
    }
}

impl SlicesFrame for Lax {
    ghost IsAnswer = { IsLaxAnswer };

    #[inline(always)]
    fn slice(entry: u32, ether_type: u16, bytes: &[u8], packet: &mut Packet) -> u32 {
        etherparse_2_slice_lax(entry, ether_type, bytes, packet)
    }
}

/// Slices consecutive frames by `Slicing`, and returns the status for C, as documented at
/// `etherparse_2_slice_many`.
#[inline(always)]
pub(crate) fn slice_frames<Slicing: SlicesFrame>(
    entry: u32,
    ether_type: u16,
    bytes: &[u8],
    ends: &[usize],
    packets: &mut [Packet],
    sliced: &mut usize,
) -> u32
    ensures { IsManyAnswer Slicing.IsAnswer (entry_of entry ether_type) bytes.now ends.now
        packets.old packets.new sliced.new result }
{
    *sliced = 0;
    if packets.len() < ends.len() {
        return numbers::TOO_SMALL;
    }
    if entry_of(entry, ether_type).is_none() {
        return numbers::UNKNOWN_CHOICE;
    }
    let mut start = 0;
    'frames: for (index, end) in ends.iter().enumerate() {
        let end = *end;
        if end < start || bytes.len() < end {
            return numbers::UNKNOWN_CHOICE;
        }
        // The packet itself states whether its frame is rejected.
        let _ = Slicing::slice(entry, ether_type, &bytes[start..end], &mut packets[index]);
        *sliced = index + 1;
        start = end;
    }
    numbers::OK
}
