//! Formatting of the line that is printed for a packet.

ghost use Rattle.std.specs.Prelude.{◌≡◌, ◌++◌, true, OnOk};
ghost use Rattle.capture_reader.specs.Readers.{shown_of};
ghost use Rattle.packet_dump.specs.Decoding.{AppendsContent, AppendsLine, content_in, packet_of};
ghost use Rattle.packet_dump.specs.PacketContents.{bytes_text, content_text, is_wanted, other_link, shown_bytes};
ghost use Rattle.packet_dump.specs.PacketContents.{shows_content};
ghost use Rattle.packet_dump.specs.PacketLines.{cut_text, end_text, line_start, moment_text, relative_text, time_text};

use crate::decoded::{CapturedPacket, Decoded, Outcome};
use crate::details::{push_interface, push_wanted_details};
use crate::dump_options::{DumpOptions, TimeForm};
use capture_reader::{Shown, Time};
use line_io::decimals;
use packet_text::{push_len, push_packet, push_refusal, push_rows, push_skipped_header};
use packet_times::{instant_of, is_fine, push_epoch, push_since, push_utc};
use std::alloc::AllocError;

/// Appends the line of a packet, if it is shown.
pub fn append_line(
    output: &mut Vec<u8>,
    options: &DumpOptions,
    packet: &Decoded<'_>,
) -> Result<(), AllocError>
    requires { packet.now.is_selected
        ≡ is_wanted options.now (shown_of packet.now.captured.shown) (content_in packet.now) }
    ensures { OnOk result (AppendsLine options.now packet.now output.old.items output.new.items) }
{
    if !is_shown(options, packet) {
        return Ok(());
    }
    push_start(output, options.time, packet)?;
    push_content(output, options, packet)?;
    push_end(output, options, packet)
}

/// Returns whether the line of a packet is printed: never with `--quiet`, otherwise if `--only` and the filter select
/// the packet.
fn is_shown(options: &DumpOptions, packet: &Decoded<'_>) -> bool
    requires { packet.now.is_selected
        ≡ is_wanted options.now (shown_of packet.now.captured.shown) (content_in packet.now) }
    ensures { result ≡ shows_content options.now (shown_of packet.now.captured.shown) (content_in packet.now) }
{
    !options.quiet && packet.is_selected
}

/// Appends the layers of a packet, with details if they are wanted (`--verbose`), or why it has none.
fn push_content(
    output: &mut Vec<u8>,
    options: &DumpOptions,
    packet: &Decoded<'_>,
) -> Result<(), AllocError>
    requires { shows_content options.now (shown_of packet.now.captured.shown) (content_in packet.now) ≡ true }
    ensures { OnOk result (AppendsContent options.now packet.now output.old.items output.new.items) }
{
    match &packet.outcome {
        Outcome::Layers => {
            push_packet(output, &packet.read)?;
            push_wanted_details(output, options.verbose, &packet.read)
        }
        Outcome::Refused(error) => push_refusal(output, error),
        Outcome::Unsupported => push_unread_link(output, &packet.captured.shown),
    }
}

/// Appends the link type number of a packet whose link type or link header is not supported, and its captured length in
/// bytes.
fn push_unread_link(output: &mut Vec<u8>, shown: &Shown<'_>) -> Result<(), AllocError>
    ensures { OnOk result (output.new.items
        ≡ output.old.items ++ content_text shown.now.bytes.now (other_link shown.now.link_type)) }
{
    decimals::push_with_text(output, b" link ", u64::from(shown.link_type))?;
    push_len(output, shown.bytes)
}

/// Appends the start of a packet's line: the packet's number, its timestamp, and the fields of a Linux cooked capture
/// header if `packet_dump` parses the header itself, not the etherparse library.
pub fn push_start(
    output: &mut Vec<u8>,
    form: TimeForm,
    packet: &Decoded<'_>,
) -> Result<(), AllocError>
    ensures { OnOk result (output.new.items ≡ output.old.items ++ line_start form (packet_of packet.now)) }
{
    let captured = &packet.captured;
    push_moment(output, form, captured)?;
    push_skipped_header(output, captured.shown.link_type, captured.shown.bytes)
}

/// Appends the number of a packet, a space and its timestamp.
#[inline(always)]
pub fn push_moment(
    output: &mut Vec<u8>,
    form: TimeForm,
    captured: &CapturedPacket<'_>,
) -> Result<(), AllocError>
    ensures { OnOk result (output.new.items ≡ output.old.items
        ++ moment_text form captured.now.number captured.now.first (shown_of captured.now.shown)) }
{
    decimals::push(output, captured.number)?;
    output.push(b' ')?;
    push_time(output, form, captured.first, captured.shown.time)
}

/// Appends the end of a packet's line: the interface number (`--verbose`), the captured and original length if the
/// packet is truncated, a hex dump (`--hex`), and a line feed.
fn push_end(
    output: &mut Vec<u8>,
    options: &DumpOptions,
    packet: &Decoded<'_>,
) -> Result<(), AllocError>
    ensures { OnOk result (output.new.items ≡ output.old.items
        ++ end_text options.now.verbose (shown_of packet.now.captured.shown) (bytes_text options.now.hex
        (shown_bytes options.now.whole (content_in packet.now) packet.now.captured.shown.bytes.now))) }
{
    let shown = &packet.captured.shown;
    push_interface(output, options.verbose, shown.interface)?;
    push_cut(
        output,
        shown.bytes.len() as u64,
        u64::from(shown.original_len),
    )?;
    if options.hex {
        push_rows(output, packet.dumped_bytes(options.whole))?;
    }
    output.push(b'\n')?;
    Ok(())
}

/// Appends the timestamp of a packet in the format of `--time`, or `-` if it has none.
#[inline(always)]
fn push_time(
    output: &mut Vec<u8>,
    form: TimeForm,
    first: Option<u128>,
    time: Option<Time>,
) -> Result<(), AllocError>
    ensures { OnOk result (output.new.items ≡ output.old.items ++ time_text form first time) }
{
    match (form, time) {
        (TimeForm::Relative, time) => push_relative(output, first, time),
        (TimeForm::Epoch, Some(time)) => push_epoch(output, time),
        (TimeForm::Utc, Some(time)) => push_utc(output, time),
        (TimeForm::Epoch | TimeForm::Utc, None) => output.extend_from_slice(b"-"),
    }
}

/// Appends the time of a packet since the first packet of the capture, or `-` if it has no timestamp.
fn push_relative(
    output: &mut Vec<u8>,
    first: Option<u128>,
    time: Option<Time>,
) -> Result<(), AllocError>
    ensures { OnOk result (output.new.items ≡ output.old.items ++ relative_text first time) }
{
    match (first, time) {
        (Some(first), Some(time)) => push_since(output, is_fine(time), first, instant_of(time)),
        (Some(_), None) | (None, _) => output.extend_from_slice(b"-"),
    }
}

/// Appends ` cut N of M`, the captured and the original length of a packet, if the capture truncates it.
fn push_cut(output: &mut Vec<u8>, kept: u64, original_len: u64) -> Result<(), AllocError>
    ensures { OnOk result (output.new.items ≡ output.old.items ++ cut_text kept original_len) }
{
    if kept < original_len {
        decimals::push_with_text(output, b" cut ", kept)?;
        decimals::push_with_text(output, b" of ", original_len)?;
    }
    Ok(())
}
