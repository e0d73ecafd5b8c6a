//! Texts that state whether the checksums of a packet are valid, such as ` udp checksum right`.

ghost use Rattle.std.specs.Prelude.{◌≡◌, ◌++◌, OnOk};
ghost use Rattle.packet_text.specs.ChecksumTexts.{checksum_text, header_checksum_text, transport_checksum_text};
ghost use Rattle.packet_text.specs.ChecksumTexts.{transport_name_text};

use etherparse::{ChecksumVerdict, TransportSlice};
use std::alloc::AllocError;

/// Appends whether the checksum of an IPv4 header is valid, as ` header checksum right` or `.. wrong ..`. Appends
/// nothing without a verdict.
pub fn push_header_checksum(
    output: &mut Vec<u8>,
    verdict: Option<ChecksumVerdict>,
) -> Result<(), AllocError>
    ensures { OnOk result (output.new.items ≡ output.old.items ++ header_checksum_text verdict) }
{
    push_checksum(output, b" header", verdict)
}

/// Appends whether the checksum of a transport layer is valid, as ` udp checksum right` or `.. wrong ..`. Appends
/// nothing without a transport layer or a verdict, and if the checksum is absent or cannot be verified.
pub fn push_transport_checksum(
    output: &mut Vec<u8>,
    transport: &Option<TransportSlice<'_>>,
    verdict: Option<ChecksumVerdict>,
) -> Result<(), AllocError>
    ensures { OnOk result (output.new.items
        ≡ output.old.items ++ transport_checksum_text transport.now verdict) }
{
    match transport {
        Some(transport) => push_checksum(output, transport_name(transport), verdict),
        None => Ok(()),
    }
}

/// Returns the name of a transport layer after a space, such as ` udp`.
fn transport_name(transport: &TransportSlice<'_>) -> &'static [u8]
    ensures { result.now ≡ transport_name_text transport.now }
{
    match transport {
        TransportSlice::Udp(_) => b" udp",
        TransportSlice::Tcp(_) => b" tcp",
        TransportSlice::Icmpv4(_) => b" icmpv4",
        TransportSlice::Icmpv6(_) => b" icmpv6",
    }
}

/// Appends `name` (of a layer) and whether the layer's checksum is valid, as ` udp checksum right`. Appends nothing if
/// there is no verdict, and if the checksum is absent or cannot be verified.
fn push_checksum(
    output: &mut Vec<u8>,
    name: &[u8],
    verdict: Option<ChecksumVerdict>,
) -> Result<(), AllocError>
    ensures { OnOk result (output.new.items ≡ output.old.items ++ checksum_text name.now verdict) }
{
    match verdict {
        Some(ChecksumVerdict::Valid) => {
            output.extend_from_slice(name)?;
            output.extend_from_slice(b" checksum right")
        }
        Some(ChecksumVerdict::Invalid) => {
            output.extend_from_slice(name)?;
            output.extend_from_slice(b" checksum wrong (or left to the card)")
        }
        Some(ChecksumVerdict::Absent | ChecksumVerdict::Unknown) | None => Ok(()),
    }
}
