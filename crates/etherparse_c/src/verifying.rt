//! Call for C that verifies the checksums of a packet.

ghost use Rattle.std.specs.Prelude.{◌≡◌};
ghost use Rattle.etherparse.specs.LaxVerdicts.{lax_checksums_of};
ghost use Rattle.etherparse_c.specs.SliceAnswers.{entry_of};
ghost use Rattle.etherparse_c.specs.VerdictAnswers.{IsVerdictsAnswer, verdict_number, with_verdicts};

use crate::fields::Fields;
use crate::numbers;
use crate::slicing::entry_of;
use etherparse::{ChecksumVerdict, LaxSlicedPacket};

/// Verifies the checksums of the IPv4 header and of the transport layer of a packet, which is sliced laxly, and sets
/// the verdicts in `fields`: 0 if there is no such header and no fragment, 1 valid, 2 invalid, 3 absent, 4 unknown. The
/// other fields are unchanged. `entry` and `ether_type` are those of `etherparse_2_slice`.
///
/// Returns the status: 0 if the first header is valid; 1 if it is rejected; 2 if `entry` is above 3. Both verdicts are 0
/// for status 1 and 2.
#[unsafe(no_mangle)]
pub extern "C" fn etherparse_2_checksums(
    entry: u32,
    ether_type: u16,
    bytes: &[u8],
    fields: &mut Fields,
) -> u32
    ensures { IsVerdictsAnswer (entry_of entry ether_type) bytes.now fields.old fields.new result }
{
    // Used by the proof only: the verdicts follow from the layers and the bytes.
    etherparse::laws::lax::checksums();
    fields.header_checksum = 0;
    fields.transport_checksum = 0;
    let Some(entry) = entry_of(entry, ether_type) else {
        return numbers::UNKNOWN_CHOICE;
    };
    let mut packet = LaxSlicedPacket::new();
    match packet.slice_into(entry, bytes) {
        Ok(()) => {
            set_verdicts(fields, &packet);
            numbers::OK
        }
        Err(_) => numbers::REFUSED,
    }
}

/// Sets the verdicts about a packet in the struct that C reads.
fn set_verdicts(fields: &mut Fields, packet: &LaxSlicedPacket<'_>)
    ensures { fields.new ≡ with_verdicts (lax_checksums_of packet.now) fields.old }
{
    let verdicts = packet.checksums();
    fields.header_checksum = verdict_number(verdicts.ipv4_header);
    fields.transport_checksum = verdict_number(verdicts.transport);
}

/// Returns C's number of a verdict (`enum etherparse_checksum_verdict`), 0 for none.
fn verdict_number(verdict: Option<ChecksumVerdict>) -> u32
    ensures { result ≡ verdict_number verdict }
{
    match verdict {
        None => numbers::CHECKSUM_NONE,
        Some(ChecksumVerdict::Valid) => numbers::CHECKSUM_VALID,
        Some(ChecksumVerdict::Invalid) => numbers::CHECKSUM_INVALID,
        Some(ChecksumVerdict::Absent) => numbers::CHECKSUM_ABSENT,
        Some(ChecksumVerdict::Unknown) => numbers::CHECKSUM_UNKNOWN,
    }
}
