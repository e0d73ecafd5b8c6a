//! Call for C that slices a packet laxly: truncated packets and wrong length fields are accepted.

ghost use Rattle.etherparse_c.specs.LaxAnswers.{IsLaxAnswer};
ghost use Rattle.etherparse_c.specs.SliceAnswers.{entry_of};

use crate::lax_describing::describe_lax;
use crate::packet::Packet;
use crate::plain::{describe_plain, describe_plain_ip};
use crate::slicing::{describe_error, describe_no_layers, entry_of};
use crate::{laws, numbers};
use etherparse::LaxSlicedPacket;

/// Slices a packet laxly into its layers up to the first invalid layer. The packet may be truncated, and its length
/// fields may not match its bytes. `entry` is the number of the packet's first header: 0 Ethernet II, 1 Linux cooked
/// capture, 2 the header that `ether_type` identifies, 3 IP of either version. `ether_type` is used only if `entry` is
/// 2. Overwrites `packet`. A valid frame is described as by strict slicing (`etherparse_2_slice`).
///
/// Returns the status: 0 if `packet` describes the valid layers (with `entry` 2 possibly none), with the error of the
/// next layer in `packet.refusal` if that layer is invalid; 1 if `entry` is 0, 1 or 3 and the first header is rejected,
/// with the error in `packet`; 2 if `entry` is above 3.
#[unsafe(no_mangle)]
pub extern "C" fn etherparse_2_slice_lax(
    entry: u32,
    ether_type: u16,
    bytes: &[u8],
    packet: &mut Packet,
) -> u32
    ensures { IsLaxAnswer (entry_of entry ether_type) bytes.now result packet.new }
{
    // Used by the proof only: a valid frame has the same description, and the layers are at the described offsets.
    laws::frames_read_laxly();
    laws::lax_offsets();
    if entry == 0 && describe_plain(packet, bytes) {
        return numbers::OK;
    }
    if entry == 3 && describe_plain_ip(packet, bytes) {
        return numbers::OK;
    }
    slice_laxly_from_entry(entry, ether_type, bytes, packet)
}

/// Slices any packet laxly and describes it in `packet`. Used for the frames that the faster function for common frames
/// (Ethernet II or IP, at most two VLAN tags) does not handle.
#[inline(never)]
fn slice_laxly_from_entry(entry: u32, ether_type: u16, bytes: &[u8], packet: &mut Packet) -> u32
    ensures { IsLaxAnswer (entry_of entry ether_type) bytes.now result packet.new }
{
    laws::lax_offsets();
    let Some(entry) = entry_of(entry, ether_type) else {
        describe_no_layers(packet);
        return numbers::UNKNOWN_CHOICE;
    };
    let mut sliced = LaxSlicedPacket::new();
    match sliced.slice_into(entry, bytes) {
        Ok(()) => {
            describe_lax(packet, &sliced);
            numbers::OK
        }
        Err(error) => {
            describe_error(packet, &error);
            numbers::REFUSED
        }
    }
}
