//! Texts of the errors of slicing a packet, for the programs and the C library. They equal the texts of `Display`, and
//! are appended to a vector without any other allocation.
#![tactic(auto)]

ghost use Rattle.std.specs.Prelude.{◌≡◌, ◌++◌, OnOk};
ghost use Rattle.refusal_texts.specs.ReasonTexts.{rejected_value, len_error_text, limit_text, needed_text, reason_text, reason_text_with};

use etherparse::err::packet::SliceError;
use etherparse::err::{LenError, ip, ip_auth, ipv4, ipv6, ipv6_exts, linux_sll, macsec, tcp};
use line_io::decimals;
use std::alloc::AllocError;

#[cfg(test)]
mod tests;

/// Appends the text of an error of slicing a packet to `output`.
pub fn push_reason(output: &mut Vec<u8>, error: &SliceError) -> Result<(), AllocError>
    ensures { OnOk result (output.new.items ≡ output.old.items ++ reason_text error.now) }
{
    push_reason_with(output, error, rejected_value(error))
}

/// Appends the text of an error of slicing a packet, with `number` in place of the field value that the error contains,
/// if any. `number` may be greater than the field can hold, since C code may pass any number.
pub fn push_reason_with(
    output: &mut Vec<u8>,
    error: &SliceError,
    number: u64,
) -> Result<(), AllocError>
    ensures { OnOk result (output.new.items ≡ output.old.items ++ reason_text_with error.now number) }
{
    match error {
        SliceError::Len(error) => push_len_error(output, error),
        SliceError::LinuxSll(linux_sll::HeaderError::UnsupportedPacketTypeField { .. }) => {
            decimals::push_with_text(output, b"UnsupportedPacketTypeField ", number)
        }
        SliceError::LinuxSll(linux_sll::HeaderError::UnsupportedArpHardwareId { .. }) => {
            decimals::push_with_text(output, b"UnsupportedArpHardwareId ", number)
        }
        SliceError::Macsec(macsec::HeaderError::UnexpectedVersion) => {
            output.extend_from_slice(b"UnexpectedVersion")
        }
        SliceError::Macsec(macsec::HeaderError::InvalidUnmodifiedShortLen) => {
            output.extend_from_slice(b"InvalidUnmodifiedShortLen")
        }
        SliceError::Ip(ip::HeaderError::UnsupportedIpVersion { .. }) => {
            decimals::push_with_text(output, b"UnsupportedIpVersion ", number)
        }
        SliceError::Ip(ip::HeaderError::Ipv4HeaderLengthSmallerThanHeader { .. }) => {
            decimals::push_with_text(output, b"Ipv4HeaderLengthSmallerThanHeader ", number)
        }
        SliceError::Ipv4(ipv4::HeaderError::UnexpectedVersion { .. })
        | SliceError::Ipv6(ipv6::HeaderError::UnexpectedVersion { .. }) => {
            decimals::push_with_text(output, b"UnexpectedVersion ", number)
        }
        SliceError::Ipv4(ipv4::HeaderError::HeaderLengthSmallerThanHeader { .. }) => {
            decimals::push_with_text(output, b"HeaderLengthSmallerThanHeader ", number)
        }
        SliceError::Ipv4Exts(ip_auth::HeaderError::ZeroPayloadLen)
        | SliceError::Ipv6Exts(
            ipv6_exts::HeaderError::IpAuth(ip_auth::HeaderError::ZeroPayloadLen),
        ) => output.extend_from_slice(b"ZeroPayloadLen"),
        SliceError::Ipv6Exts(ipv6_exts::HeaderError::HopByHopNotAtStart) => {
            output.extend_from_slice(b"HopByHopNotAtStart")
        }
        SliceError::Tcp(tcp::HeaderError::DataOffsetTooSmall { .. }) => {
            decimals::push_with_text(output, b"DataOffsetTooSmall ", number)
        }
    }
}

/// Returns the value of the packet's field that the error rejects (such as the IP version), or 0 for an error that
/// contains none.
fn rejected_value(error: &SliceError) -> u64
    ensures { result ≡ rejected_value error.now }
{
    match error {
        SliceError::LinuxSll(linux_sll::HeaderError::UnsupportedPacketTypeField { packet_type }) =>
            { u64::from(*packet_type) }
        SliceError::LinuxSll(
            linux_sll::HeaderError::UnsupportedArpHardwareId { arp_hardware_type },
        ) => u64::from(*arp_hardware_type),
        SliceError::Ip(ip::HeaderError::UnsupportedIpVersion { version_number })
        | SliceError::Ipv4(ipv4::HeaderError::UnexpectedVersion { version_number })
        | SliceError::Ipv6(ipv6::HeaderError::UnexpectedVersion { version_number }) => {
            u64::from(*version_number)
        }
        SliceError::Ip(ip::HeaderError::Ipv4HeaderLengthSmallerThanHeader { ihl })
        | SliceError::Ipv4(ipv4::HeaderError::HeaderLengthSmallerThanHeader { ihl }) => {
            u64::from(*ihl)
        }
        SliceError::Tcp(tcp::HeaderError::DataOffsetTooSmall { data_offset }) => {
            u64::from(*data_offset)
        }
        SliceError::Len(_)
        | SliceError::Macsec(_)
        | SliceError::Ipv4Exts(_)
        | SliceError::Ipv6Exts(_) => 0,
    }
}

/// Appends the text of a length error: the layer, the bytes that it needs, the bytes that are present, what limits
/// them, and the offset of the layer in the packet.
fn push_len_error(output: &mut Vec<u8>, error: &LenError) -> Result<(), AllocError>
    ensures { OnOk result (output.new.items ≡ output.old.items ++ len_error_text error.now) }
{
    push_needed(output, error)?;
    push_limit(output, error)?;
    output.extend_from_slice(b")")
}

/// Appends the first half of a length error's text: the layer, the number of bytes that it needs, and the number
/// present.
fn push_needed(output: &mut Vec<u8>, error: &LenError) -> Result<(), AllocError>
    ensures { OnOk result (output.new.items ≡ output.old.items ++ needed_text error.now) }
{
    let required_len = error.required_len;
    let len = error.len;
    output.extend_from_slice(error.layer.name().as_bytes())?;
    decimals::push_with_text(output, b": ", required_len as u64)?;
    decimals::push_with_text(output, b" bytes needed, ", len as u64)
}

/// Appends the second half of a length error's text: what limits the bytes present, and the offset of the layer in the
/// packet.
fn push_limit(output: &mut Vec<u8>, error: &LenError) -> Result<(), AllocError>
    ensures { OnOk result (output.new.items ≡ output.old.items ++ limit_text error.now) }
{
    let offset = error.layer_start_offset;
    output.extend_from_slice(b" there (limit ")?;
    output.extend_from_slice(error.len_source.name().as_bytes())?;
    decimals::push_with_text(output, b", offset ", offset as u64)
}
