//! Full lengths of payloads that the capture truncates, by the length fields of the headers before them.

ghost use Rattle.std.specs.Prelude.{◌≡◌, ◌<◌, ◌+◌, ◌^◌, ◌++◌, OnOk};
ghost use Rattle.std.specs.Option.{option_copied, option_map};
ghost use Rattle.etherparse.specs.LaxPackets.{lax_layers_of};
ghost use Rattle.etherparse.specs.IpPayload.{lax_ip_payload_of};
ghost use Rattle.etherparse.specs.LaxViews.{lax_net_layer_of};
ghost use Rattle.etherparse.specs.StrictFrames.{layers_in};
ghost use Rattle.packet_text.specs.FullLengths.{full_len_if_truncated_text, full_len_text, header_len_at};
ghost use Rattle.packet_text.specs.FullLengths.{knows_header_len, missing_tcp_payload_text, payload_if_tcp_text, tcp_payload_len_text};

use ep_base::bytes::byte_at;
use etherparse::{LaxIpPayloadSlice, LaxNetSlice, LaxSlicedPacket};
use line_io::decimals;
use std::alloc::AllocError;

/// Appends ` of N`, the full length of a payload, given the numbers of its captured and missing bytes; nothing if none
/// is missing.
fn push_full_len(output: &mut Vec<u8>, captured: usize, missing: usize) -> Result<(), AllocError>
    requires { captured + missing < 2 ^ 64 }
    ensures { OnOk result (output.new.items ≡ output.old.items ++ full_len_text captured missing) }
{
    if missing > 0 {
        decimals::push_with_text(output, b" of ", (captured + missing) as u64)?;
    }
    Ok(())
}

/// Appends ` of N`, the full length of a packet's last payload by the UDP or IP length field, if the capture lacks
/// bytes of it.
pub fn push_full_len_if_truncated(
    output: &mut Vec<u8>,
    read: &LaxSlicedPacket<'_>,
) -> Result<(), AllocError>
    ensures { OnOk result (output.new.items ≡ output.old.items ++ (let layers = lax_layers_of read.now in
        full_len_if_truncated_text layers.net.inside.incomplete (layers_in layers))) }
{
    if !read.is_incomplete() {
        return Ok(());
    }
    push_full_len(output, read.payload().len(), read.missing_bytes())
}

/// Appends ` len 0 of N` after a truncated TCP header of known length: no byte of the TCP payload is captured, and N is
/// its length. Appends only ` len 0` if N is 0, and nothing for other packets.
pub fn push_missing_tcp_payload(
    output: &mut Vec<u8>,
    net: &Option<LaxNetSlice<'_>>,
) -> Result<(), AllocError>
    ensures { OnOk result (output.new.items
        ≡ output.old.items ++ missing_tcp_payload_text (option_map lax_net_layer_of net.now)) }
{
    let Some(net) = net else {
        return Ok(());
    };
    if net.begins_payload() {
        push_payload_if_tcp(output, net.missing_bytes(), net.ip_payload_ref())
    } else {
        Ok(())
    }
}

/// Appends ` len 0 of N`, or ` len 0` if N is 0, if the IP payload is a TCP segment with a truncated header of known
/// length. N is the length of the TCP payload after the header; no byte of it is captured.
fn push_payload_if_tcp(
    output: &mut Vec<u8>,
    missing: usize,
    payload: Option<&LaxIpPayloadSlice<'_>>,
) -> Result<(), AllocError>
    requires { missing < 2 ^ 16 }
    ensures { OnOk result (output.new.items ≡ output.old.items
        ++ payload_if_tcp_text missing (option_map lax_ip_payload_of (option_copied payload.entry))) }
{
    let Some(payload) = payload else {
        return Ok(());
    };
    if payload.ip_number.0 == 6 {
        push_tcp_payload_len(output, payload.payload.len() + missing, payload.payload)
    } else {
        Ok(())
    }
}

/// Appends ` len 0 of N`, or ` len 0` if N is 0, if the length of a truncated TCP header is known. N is the length of
/// the TCP payload after the header. `segment_len` is the full length of the segment, and `bytes` are its captured
/// bytes.
fn push_tcp_payload_len(
    output: &mut Vec<u8>,
    segment_len: usize,
    bytes: &[u8],
) -> Result<(), AllocError>
    ensures { OnOk result (output.new.items ≡ output.old.items ++ tcp_payload_len_text segment_len bytes.now) }
{
    if knows_header_len(segment_len, bytes) {
        output.extend_from_slice(b" len 0")?;
        push_full_len(output, 0, segment_len.saturating_sub(header_len_at(bytes)))?;
    }
    Ok(())
}

/// Returns whether the length of a truncated TCP header is known and valid: 14 of its bytes are captured, and its
/// length is at least 20 bytes and at most `segment_len`, the segment's length.
fn knows_header_len(segment_len: usize, bytes: &[u8]) -> bool
    ensures { result ≡ knows_header_len segment_len bytes.now }
{
    bytes.len() >= 14 && header_len_at(bytes) >= 20 && header_len_at(bytes) <= segment_len
}

/// Returns the length of the TCP header at the start of `bytes`, in bytes, from the upper 4 bits of byte 12 (Data
/// Offset).
fn header_len_at(bytes: &[u8]) -> usize
    ensures { result ≡ header_len_at bytes.now }
{
    4 * usize::from(byte_at(bytes, 12) / 16)
}
