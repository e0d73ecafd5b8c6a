//! Further lines of `--reassemble`, after the line of a packet: for a reassembled payload, or for an IP fragment that
//! the reassembly pool rejects.

ghost use Rattle.std.specs.Prelude.{◌≡◌, ◌++◌, ℕ, IsFalse, List, OnOk, Some};
ghost use Rattle.std.specs.Option.{option_map};
ghost use Rattle.etherparse.specs.BoundedAnswers.{is_starvation, is_starved, plain_bounded};
ghost use Rattle.etherparse.specs.BoundedErrorTexts.{bounded_error_text};
ghost use Rattle.etherparse.specs.TransportParts.{payload_in, transport_layer_of};
ghost use Rattle.packet_dump.specs.Decoding.{filtered_in, layers_of, start_of};
ghost use Rattle.packet_dump.specs.PoolLines.{Inner, IsAnswerText, IsInner, closing_text, frame_error, opening_text};
ghost use Rattle.packet_dump.specs.PoolLines.{part, payload_line, payload_text, pool_refusal_text, refused_line};
ghost use Rattle.packet_dump.specs.PoolLines.{shows_payload, unread, unread_text, with_payload};
ghost use Rattle.packet_dump.specs.declared.dump_options.Kind.{Kind};

use crate::decoded::Decoded;
use crate::dump_options::{DumpOptions, Kind, read_bytes};
use crate::packet_lines::push_start;
use etherparse::TransportSlice;
use etherparse::defrag::{BoundedDefragError, IpDefragError, IpDefragPayloadVec};
use etherparse::err::packet::SliceError;
use etherparse::err::tcp::HeaderSliceError;
use packet_text::{push_len, push_outer, push_protocol, push_refusal, push_rows, push_transport};
use std::alloc::AllocError;

/// Appends the additional line for `answer`, the reassembly pool's result for the fragment of a packet: the reassembled
/// payload, or why the fragment is rejected. Appends nothing if the payload is still incomplete, or if the options hide
/// the line. Returns an error if an allocation failed, also one of the pool.
pub fn push_answer(
    output: &mut Vec<u8>,
    options: &DumpOptions,
    packet: &Decoded<'_>,
    answer: &Result<Option<IpDefragPayloadVec>, BoundedDefragError>,
) -> Result<(), AllocError>
    ensures memory { OnOk result (IsFalse (is_starved answer.now)) }
    ensures text { OnOk result ((text : List ℕ)
        × IsAnswerText options.now (start_of options.now packet.now) (layers_of packet.now)
        (filtered_in packet.now) (plain_bounded answer.now) text × (output.new.items ≡ output.old.items ++ text)) }
{
    match answer {
        Ok(Some(payload)) => push_payload(output, options, packet, payload),
        Ok(None) => Ok(()),
        Err(error) => push_pool_error(output, options, packet, error),
    }
}

/// Appends the line of a reassembled payload, with its transport layer or why that is invalid, if the line is shown.
/// `packet` is the packet that completed the payload.
fn push_payload(
    output: &mut Vec<u8>,
    options: &DumpOptions,
    packet: &Decoded<'_>,
    payload: &IpDefragPayloadVec,
) -> Result<(), AllocError>
    ensures { OnOk result ((inner : Inner) × IsInner payload.now.ip_number.0 payload.now.payload.items inner
        × (output.new.items ≡ output.old.items ++ payload_line options.now (start_of options.now packet.now)
        (layers_of packet.now) (filtered_in packet.now) payload.now.ip_number.0 payload.now.payload.items inner)) }
{
    let bytes = payload.payload.as_slice();
    match TransportSlice::from_ip_number(payload.ip_number, false, bytes) {
        Ok(transport) => push_part(output, options, packet, payload, &transport),
        Err(error) => push_unread(output, options, packet, payload, error),
    }
}

/// Appends the line of a reassembled payload with a valid transport layer, or with a protocol that is not parsed, if
/// the line is shown.
fn push_part(
    output: &mut Vec<u8>,
    options: &DumpOptions,
    packet: &Decoded<'_>,
    payload: &IpDefragPayloadVec,
    transport: &Option<TransportSlice<'_>>,
) -> Result<(), AllocError>
    ensures { OnOk result (output.new.items ≡ output.old.items ++ payload_line options.now
        (start_of options.now packet.now) (layers_of packet.now) (filtered_in packet.now) payload.now.ip_number.0
        payload.now.payload.items (part (option_map transport_layer_of transport.now))) }
{
    if !shows_payload(options, packet, Kind::of_part(transport), payload) {
        return Ok(());
    }
    push_opening(output, options, packet)?;
    push_reassembled(output, payload, transport)?;
    let bytes = payload.payload.as_slice();
    push_closing(output, options.hex, bytes_of_part(bytes, transport))
}

/// Appends the line of a reassembled payload whose transport header is truncated or invalid, if the line is shown.
fn push_unread(
    output: &mut Vec<u8>,
    options: &DumpOptions,
    packet: &Decoded<'_>,
    payload: &IpDefragPayloadVec,
    error: HeaderSliceError,
) -> Result<(), AllocError>
    ensures { OnOk result (output.new.items ≡ output.old.items ++ payload_line options.now
        (start_of options.now packet.now) (layers_of packet.now) (filtered_in packet.now) payload.now.ip_number.0
        payload.now.payload.items (unread error)) }
{
    if !shows_payload(options, packet, Some(Kind::Refused), payload) {
        return Ok(());
    }
    push_opening(output, options, packet)?;
    push_reassembled_refusal(output, error)?;
    push_closing(output, options.hex, payload.payload.as_slice())
}

/// Appends the line of a fragment that the reassembly pool rejects, if it is shown. If the pool could not allocate,
/// appends no line and returns an error.
fn push_pool_error(
    output: &mut Vec<u8>,
    options: &DumpOptions,
    packet: &Decoded<'_>,
    error: &BoundedDefragError,
) -> Result<(), AllocError>
    ensures memory { OnOk result (IsFalse (is_starvation error.now)) }
    ensures text { OnOk result (output.new.items ≡ output.old.items ++ refused_line options.now
        (start_of options.now packet.now) (layers_of packet.now) (filtered_in packet.now) error.now) }
{
    if let BoundedDefragError::Rejected(IpDefragError::AllocationFailure { .. }) = error {
        return Err(AllocError);
    }
    if !shows_rejected(options, packet) {
        return Ok(());
    }
    push_opening(output, options, packet)?;
    push_pool_refusal(output, error)?;
    push_closing(output, options.hex, b"")
}

/// Returns whether the line of a reassembled payload is printed: only without `--quiet`, if `--only` selects its kind,
/// and if the filter matches `packet`, which completed it, with the payload in place of its fragment.
fn shows_payload(
    options: &DumpOptions,
    packet: &Decoded<'_>,
    kind: Option<Kind>,
    payload: &IpDefragPayloadVec,
) -> bool
    ensures { result ≡ shows_payload options.now kind
        (with_payload (filtered_in packet.now) payload.now.ip_number.0 payload.now.payload.items) }
{
    options.shows(kind)
        && options.meets_payload(packet, payload.ip_number, payload.payload.as_slice())
}

/// Returns whether the line of a fragment that the reassembly pool rejects is printed: only without `--quiet`, if
/// `--only` selects `refused`, and if the filter matches the packet with the fragment.
fn shows_rejected(options: &DumpOptions, packet: &Decoded<'_>) -> bool
    ensures { result ≡ shows_payload options.now (Some Kind.Refused) (filtered_in packet.now) }
{
    options.shows(Some(Kind::Refused)) && options.meets(packet, read_bytes(&packet.captured.shown))
}

/// Appends ` reassembled` and the transport layer of a reassembled payload, or the payload's protocol and length if it
/// has no transport layer.
fn push_reassembled(
    output: &mut Vec<u8>,
    payload: &IpDefragPayloadVec,
    transport: &Option<TransportSlice<'_>>,
) -> Result<(), AllocError>
    ensures { OnOk result (output.new.items ≡ output.old.items ++ payload_text payload.now.ip_number.0
        payload.now.payload.items (part (option_map transport_layer_of transport.now))) }
{
    output.extend_from_slice(b" reassembled")?;
    match transport {
        Some(transport) => push_transport(output, transport),
        None => {
            push_protocol(output, payload.ip_number)?;
            push_len(output, payload.payload.as_slice())
        }
    }
}

/// Returns the bytes of a reassembled payload for the hex dump: the payload of its transport layer, or all of `bytes`
/// if there is no transport layer.
fn bytes_of_part<'a>(bytes: &'a [u8], transport: &Option<TransportSlice<'a>>) -> &'a [u8]
    ensures { result.now ≡ payload_in bytes.now (option_map transport_layer_of transport.now) }
{
    match transport {
        Some(transport) => transport.payload(),
        None => bytes,
    }
}

/// Appends ` reassembled` and why the transport header of a reassembled payload is rejected.
fn push_reassembled_refusal(output: &mut Vec<u8>, error: HeaderSliceError) -> Result<(), AllocError>
    ensures { OnOk result (output.new.items ≡ output.old.items ++ unread_text error) }
{
    output.extend_from_slice(b" reassembled")?;
    push_refusal(output, &frame_error(error))
}

/// Converts the error of a transport header to the error type of a frame, so that the error can be printed.
fn frame_error(error: HeaderSliceError) -> SliceError
    ensures { result ≡ frame_error error }
{
    match error {
        HeaderSliceError::Len(error) => SliceError::Len(error),
        HeaderSliceError::Content(error) => SliceError::Tcp(error),
    }
}

/// Appends ` not reassembled: ` and why the reassembly pool rejects a fragment.
fn push_pool_refusal(output: &mut Vec<u8>, error: &BoundedDefragError) -> Result<(), AllocError>
    ensures { OnOk result (output.new.items ≡ output.old.items ++ pool_refusal_text error.now) }
{
    output.extend_from_slice(b" not reassembled: ")?;
    push_pool_reason(output, error)
}

/// Appends the text of the reassembly pool's error for a rejected fragment.
fn push_pool_reason(output: &mut Vec<u8>, error: &BoundedDefragError) -> Result<(), AllocError>
    ensures { OnOk result (output.new.items ≡ output.old.items ++ bounded_error_text error.now) }
{
    let text = format!(in *output.allocator(); "{error}")?;
    output.extend_from_slice(text.as_bytes())
}

/// Appends the start of a line for a reassembled payload or rejected fragment: packet number, timestamp, and the
/// packet's link header, tags and IP header.
fn push_opening(
    output: &mut Vec<u8>,
    options: &DumpOptions,
    packet: &Decoded<'_>,
) -> Result<(), AllocError>
    ensures { OnOk result (output.new.items
        ≡ output.old.items ++ opening_text (start_of options.now packet.now) (layers_of packet.now)) }
{
    push_start(output, options.time, packet)?;
    push_outer(output, &packet.read)
}

/// Appends the end of a line for a reassembled payload or rejected fragment: the hex dump of `bytes` if `hex`, and a
/// line feed.
fn push_closing(output: &mut Vec<u8>, hex: bool, bytes: &[u8]) -> Result<(), AllocError>
    ensures { OnOk result (output.new.items ≡ output.old.items ++ closing_text hex bytes.now) }
{
    if hex {
        push_rows(output, bytes)?;
    }
    output.push(b'\n')?;
    Ok(())
}
