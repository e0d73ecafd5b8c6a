//! Call for C that slices a frame strictly.

ghost use Rattle.std.specs.Prelude.{◌≡◌};
ghost use Rattle.etherparse_c.specs.SliceAnswers.{IsSliceAnswer, entry_of, no_description, refused_packet};

use crate::describing::describe;
use crate::packet::Packet;
use crate::plain::{describe_plain, describe_plain_ip};
use crate::refusing::refusal_part;
use crate::{laws, numbers};
use etherparse::err::packet::SliceError;
use etherparse::{Entry, EtherType, SlicedPacket};

/// Slices a frame strictly into its layers, and overwrites `packet` with their description. `entry` is the number of
/// the frame's first header: 0 Ethernet II, 1 Linux cooked capture, 2 the header that `ether_type` identifies, 3 IP of
/// either version. `ether_type` is used only if `entry` is 2.
///
/// Returns the status: 0 if the bytes are a valid frame, which `packet` describes; 1 if they are not, with the error in
/// `packet`; 2 if `entry` is above 3.
#[unsafe(no_mangle)]
pub extern "C" fn etherparse_2_slice(
    entry: u32,
    ether_type: u16,
    bytes: &[u8],
    packet: &mut Packet,
) -> u32
    ensures { IsSliceAnswer (entry_of entry ether_type) bytes.now result packet.new }
{
    // Used by the proof only: the layers are at the described offsets.
    laws::frame_offsets();
    if entry == 0 && describe_plain(packet, bytes) {
        return numbers::OK;
    }
    if entry == 3 && describe_plain_ip(packet, bytes) {
        return numbers::OK;
    }
    slice_from_entry(entry, ether_type, bytes, packet)
}

/// Slices any frame strictly and describes it in `packet`. Used for the frames that the faster function for common
/// frames (Ethernet II or IP, at most two VLAN tags) does not handle.
#[inline(never)]
fn slice_from_entry(entry: u32, ether_type: u16, bytes: &[u8], packet: &mut Packet) -> u32
    ensures { IsSliceAnswer (entry_of entry ether_type) bytes.now result packet.new }
{
    laws::frame_offsets();
    let Some(entry) = entry_of(entry, ether_type) else {
        describe_no_layers(packet);
        return numbers::UNKNOWN_CHOICE;
    };
    let mut sliced = SlicedPacket::new();
    match sliced.slice_into(entry, bytes) {
        Ok(()) => {
            describe(packet, &sliced);
            numbers::OK
        }
        Err(error) => {
            describe_error(packet, &error);
            numbers::REFUSED
        }
    }
}

/// Converts C's number `entry` of a frame's first header: 0 Ethernet II, 1 Linux cooked capture, 2 the header that
/// `ether_type` identifies, 3 IP of either version. Returns `None` for any other number.
#[inline(always)]
pub(crate) fn entry_of(entry: u32, ether_type: u16) -> Option<Entry>
    ensures { result ≡ entry_of entry ether_type }
{
    match entry {
        0 => Some(Entry::Ethernet),
        1 => Some(Entry::LinuxSll),
        2 => Some(Entry::EtherType(EtherType(ether_type))),
        3 => Some(Entry::Ip),
        _ => None,
    }
}

/// Clears the description that C reads: no layers and no error.
pub(crate) fn describe_no_layers(described: &mut Packet)
    ensures { described.new ≡ no_description }
{
    describe(described, &SlicedPacket::new());
}

/// Writes a slicing error to the description that C reads, without any layers.
pub(crate) fn describe_error(described: &mut Packet, error: &SliceError)
    ensures { described.new ≡ refused_packet error.now }
{
    describe_no_layers(described);
    described.refusal = refusal_part(error);
}
