//! Texts of fields of TCP headers besides their ports, flags and sequence numbers.

ghost use Rattle.std.specs.Prelude.{◌≡◌, ◌++◌, OnOk, List, ℕ};
ghost use Rattle.etherparse.specs.TcpOptionSteps.{options_left};
ghost use Rattle.etherparse.specs.TcpSlices.{tcp_slice_header};
ghost use Rattle.packet_text.specs.TcpDetails.{IsOptionsText, IsTcpDetails, block_text, option_text, sack_block_text, sack_blocks_text};
ghost use Rattle.packet_text.specs.TcpDetails.{unread_option_text};

use etherparse::{TcpOptionElement, TcpOptionReadError, TcpOptionsIterator, TcpSlice};
use line_io::decimals;
use std::alloc::AllocError;

/// Appends the window and the options of a TCP segment as text.
pub fn push_tcp_details(output: &mut Vec<u8>, segment: &TcpSlice<'_>) -> Result<(), AllocError>
    ensures { OnOk result ((text : List ℕ) × IsTcpDetails (tcp_slice_header segment.now) text
        × (output.new.items ≡ output.old.items ++ text)) }
{
    decimals::push_with_text(output, b" window ", u64::from(segment.window_size()))?;
    push_options(output, segment.options_iterator())
}

/// Appends TCP options as text, up to the end of the option list, or up to the first invalid option, whose error is
/// appended.
fn push_options(output: &mut Vec<u8>, options: TcpOptionsIterator<'_>) -> Result<(), AllocError>
    ensures { OnOk result ((text : List ℕ) × IsOptionsText (options_left options.entry) text
        × (output.new.items ≡ output.old.items ++ text)) }
{
    for item in options {
        match item {
            Ok(option) => push_option(output, &option)?,
            Err(error) => return push_unread_option(output, &error),
        }
    }
    Ok(())
}

/// Appends a TCP option as text: its name and its values, such as ` mss 1460`.
fn push_option(output: &mut Vec<u8>, option: &TcpOptionElement) -> Result<(), AllocError>
    ensures { OnOk result (output.new.items ≡ output.old.items ++ option_text option.now) }
{
    match option {
        TcpOptionElement::Noop => output.extend_from_slice(b" nop"),
        TcpOptionElement::MaximumSegmentSize(size) => {
            decimals::push_with_text(output, b" mss ", u64::from(*size))
        }
        TcpOptionElement::WindowScale(shift) => {
            decimals::push_with_text(output, b" wscale ", u64::from(*shift))
        }
        TcpOptionElement::SelectiveAcknowledgementPermitted => {
            output.extend_from_slice(b" sack-permitted")
        }
        TcpOptionElement::SelectiveAcknowledgement(first, others) => {
            output.extend_from_slice(b" sack")?;
            push_block(output, *first)?;
            push_sack_blocks(output, others)
        }
        TcpOptionElement::Timestamp(time, echo) => {
            decimals::push_with_text(output, b" timestamp ", u64::from(*time))?;
            decimals::push_with_text(output, b" echo ", u64::from(*echo))
        }
    }
}

/// Appends the blocks of a TCP SACK option that are present, as text.
fn push_sack_blocks(output: &mut Vec<u8>, places: &[Option<(u32, u32)>]) -> Result<(), AllocError>
    ensures { OnOk result (output.new.items ≡ output.old.items ++ sack_blocks_text places.now) }
{
    for place in places {
        push_block_if_present(output, *place)?;
    }
    Ok(())
}

/// Appends a block of a TCP SACK option as text; nothing for `None`.
fn push_block_if_present(output: &mut Vec<u8>, place: Option<(u32, u32)>) -> Result<(), AllocError>
    ensures { OnOk result (output.new.items ≡ output.old.items ++ sack_block_text place) }
{
    match place {
        Some(block) => push_block(output, block),
        None => Ok(()),
    }
}

/// Appends a block of a TCP SACK option as text: its left edge, and its right edge, the sequence number after its last
/// byte.
fn push_block(output: &mut Vec<u8>, block: (u32, u32)) -> Result<(), AllocError>
    ensures { OnOk result (output.new.items ≡ output.old.items ++ block_text block) }
{
    decimals::push_with_text(output, b" ", u64::from(block.0))?;
    decimals::push_with_text(output, b"-", u64::from(block.1))
}

/// Appends why a TCP option cannot be read: its kind is unknown, it is truncated, or its length is invalid for its
/// kind.
fn push_unread_option(output: &mut Vec<u8>, error: &TcpOptionReadError) -> Result<(), AllocError>
    ensures { OnOk result (output.new.items ≡ output.old.items ++ unread_option_text error.now) }
{
    match error {
        TcpOptionReadError::UnknownId(kind) => {
            decimals::push_with_text(output, b" option ", u64::from(*kind))
        }
        TcpOptionReadError::UnexpectedEndOfSlice { option_id, .. } => {
            decimals::push_with_text(output, b" option ", u64::from(*option_id))?;
            output.extend_from_slice(b" cut")
        }
        TcpOptionReadError::UnexpectedSize { option_id, size } => {
            decimals::push_with_text(output, b" option ", u64::from(*option_id))?;
            decimals::push_with_text(output, b" length ", u64::from(*size))
        }
    }
}
