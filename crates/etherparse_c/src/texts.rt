//! Call for C that writes the text of an error.

ghost use Rattle.std.specs.Prelude.{◌≡◌, ◌++◌, ◌∷◌, [], IfOk};
ghost use Rattle.refusal_texts.specs.ReasonTexts.{reason_text_with};
ghost use Rattle.etherparse_c.specs.RefusalTexts.{IsTextAnswer, content_error_of, error_of_numbers, layer_of_number, len_error_of};
ghost use Rattle.etherparse_c.specs.RefusalTexts.{source_of_number, text_of_number};

use crate::numbers;
use crate::packet::Refusal;
use crate::placing::copy_bytes;
use etherparse::LenSource;
use etherparse::err::packet::SliceError;
use etherparse::err::{
    Layer, LenError, ip, ip_auth, ipv4, ipv6, ipv6_exts, linux_sll, macsec, tcp,
};
use refusal_texts::push_reason_with;
use std::alloc::{AllocError, Global};

/// Writes the text of a slicing error and a terminating zero byte to the start of `buffer`, and the number of written
/// bytes, including the zero byte, to `written`. Allocates, and frees the memory before it returns.
///
/// Returns the status: 0 if the text is written; 2 if the numbers in `refusal` are not those of an error; 3 if the
/// buffer is too small, and `written` is the needed length; 5 if an allocation fails. With any status but 0 the buffer
/// is unchanged.
#[unsafe(no_mangle)]
pub extern "C" fn etherparse_2_refusal_text(
    alloc: Global,
    refusal: &Refusal,
    buffer: &mut [u8],
    written: &mut usize,
) -> u32
    ensures { IsTextAnswer (text_of_number refusal.now) buffer.old buffer.new written.new result }
{
    *written = 0;
    let Some(error) = error_of_numbers(refusal) else {
        return numbers::UNKNOWN_CHOICE;
    };
    match terminated_text(alloc, &error, refusal.number) {
        Ok(text) => copy_bytes(text.as_slice(), buffer, written),
        Err(_) => numbers::OUT_OF_MEMORY,
    }
}

/// Returns the text of a slicing error with a terminating zero byte. `number` is the value of the invalid header field;
/// it is printed instead of the value that `error` contains.
fn terminated_text(alloc: Global, error: &SliceError, number: u32) -> Result<Vec<u8>, AllocError>
    ensures { IfOk result (λ text. text.items ≡ reason_text_with error.now number ++ 0 ∷ []) }
{
    let mut text = Vec::new(alloc);
    push_reason_with(&mut text, error, u64::from(number))?;
    text.push(0)?;
    Ok(text)
}

/// Converts C's numbers of a slicing error to the `SliceError`. The value of an invalid header field in the returned
/// error is 0, since C's 32 bit value may not fit. Returns `None` if the error kind is unknown, or if it is a length
/// error with an unknown layer or length source.
fn error_of_numbers(refusal: &Refusal) -> Option<SliceError>
    ensures { result ≡ error_of_numbers refusal.now }
{
    if refusal.kind == 1 {
        len_error_of(refusal)
    } else {
        content_error_of(refusal.kind)
    }
}

/// Converts the numbers that C got for a length error back to the error, or returns `None` if the layer or the length
/// source is unknown.
fn len_error_of(refusal: &Refusal) -> Option<SliceError>
    ensures { result ≡ len_error_of refusal.now (layer_of_number refusal.now.layer) (source_of_number refusal.now.len_source) }
{
    let (Some(layer), Some(len_source)) = (
        layer_of_number(refusal.layer),
        source_of_number(refusal.len_source),
    ) else {
        return None;
    };
    Some(SliceError::Len(LenError {
        required_len: refusal.required_len,
        len: refusal.len,
        len_source,
        layer,
        layer_start_offset: refusal.layer_start_offset,
    }))
}

/// Converts C's error kind (2 to 14: all kinds but a length error) to the error. The value of the invalid header field
/// in the returned error, if it has one, is 0. Returns `None` for other kinds.
fn content_error_of(kind: u32) -> Option<SliceError>
    ensures { result ≡ content_error_of kind }
{
    match kind {
        2 => Some(SliceError::LinuxSll(linux_sll::HeaderError::UnsupportedPacketTypeField {
            packet_type: 0,
        })),
        3 => Some(SliceError::LinuxSll(linux_sll::HeaderError::UnsupportedArpHardwareId {
            arp_hardware_type: 0,
        })),
        4 => Some(SliceError::Macsec(macsec::HeaderError::UnexpectedVersion)),
        5 => Some(SliceError::Macsec(macsec::HeaderError::InvalidUnmodifiedShortLen)),
        6 => Some(SliceError::Ip(ip::HeaderError::UnsupportedIpVersion { version_number: 0 })),
        7 => Some(SliceError::Ip(ip::HeaderError::Ipv4HeaderLengthSmallerThanHeader { ihl: 0 })),
        8 => Some(SliceError::Ipv4(ipv4::HeaderError::UnexpectedVersion { version_number: 0 })),
        9 => Some(SliceError::Ipv4(ipv4::HeaderError::HeaderLengthSmallerThanHeader { ihl: 0 })),
        10 => Some(SliceError::Ipv6(ipv6::HeaderError::UnexpectedVersion { version_number: 0 })),
        11 => Some(SliceError::Ipv4Exts(ip_auth::HeaderError::ZeroPayloadLen)),
        12 => Some(SliceError::Ipv6Exts(ipv6_exts::HeaderError::HopByHopNotAtStart)),
        13 => Some(SliceError::Ipv6Exts(ipv6_exts::HeaderError::IpAuth(
            ip_auth::HeaderError::ZeroPayloadLen,
        ))),
        14 => Some(SliceError::Tcp(tcp::HeaderError::DataOffsetTooSmall { data_offset: 0 })),
        _ => None,
    }
}

/// Converts C's number of a layer (1 to 21) to the layer, or returns `None` for other numbers.
fn layer_of_number(number: u32) -> Option<Layer>
    ensures { result ≡ layer_of_number number }
{
    match number {
        1 => Some(Layer::Ethernet2Header),
        2 => Some(Layer::LinuxSllHeader),
        3 => Some(Layer::VlanHeader),
        4 => Some(Layer::MacsecHeader),
        5 => Some(Layer::MacsecPacket),
        6 => Some(Layer::Arp),
        7 => Some(Layer::IpHeader),
        8 => Some(Layer::Ipv4Header),
        9 => Some(Layer::Ipv4Packet),
        10 => Some(Layer::IpAuthHeader),
        11 => Some(Layer::Ipv6Header),
        12 => Some(Layer::Ipv6Packet),
        13 => Some(Layer::Ipv6ExtHeader),
        14 => Some(Layer::Ipv6FragHeader),
        15 => Some(Layer::UdpHeader),
        16 => Some(Layer::UdpPayload),
        17 => Some(Layer::TcpHeader),
        18 => Some(Layer::Icmpv4),
        19 => Some(Layer::Icmpv4Timestamp),
        20 => Some(Layer::Icmpv4TimestampReply),
        21 => Some(Layer::Icmpv6),
        _ => None,
    }
}

/// Converts C's number (0 to 5) of a length source to the `LenSource`, or returns `None` for other numbers. A length
/// source names the length field that limits the bytes of a layer.
fn source_of_number(number: u32) -> Option<LenSource>
    ensures { result ≡ source_of_number number }
{
    match number {
        0 => Some(LenSource::Slice),
        1 => Some(LenSource::MacsecShortLength),
        2 => Some(LenSource::Ipv4HeaderTotalLen),
        3 => Some(LenSource::Ipv6HeaderPayloadLen),
        4 => Some(LenSource::UdpHeaderLen),
        5 => Some(LenSource::ArpAddrLengths),
        _ => None,
    }
}
