//! Formatting of the packet that an ICMP error quotes as text of a packet's line.

ghost use Rattle.std.specs.Prelude.{◌≡◌, ◌++◌, ℕ, List, OnOk};
ghost use Rattle.std.specs.Option.{option_copied};
ghost use Rattle.etherparse.specs.LaxPackets.{lax_layers_of};
ghost use Rattle.etherparse.specs.StrictFrames.{layers_in};
ghost use Rattle.packet_text.specs.Quotes.{IsQuote, IsQuoteOf, quoted_by, quoted_rest, quoted_text};

use crate::packet::{push_incomplete, push_inner, push_outer, push_refused_start};
use etherparse::{Entry, LaxSlicedPacket, quoted_packet};
use std::alloc::AllocError;

/// Returns the bytes of the quoted packet if `read` is an ICMP error, or else `None`.
pub fn quoted_by<'a>(read: &LaxSlicedPacket<'a>) -> Option<&'a [u8]>
    ensures { option_copied result ≡ quoted_by read.now }
{
    match &read.transport {
        Some(transport) => quoted_packet(transport),
        None => None,
    }
}

/// Appends the layers of the packet that an ICMP error quotes, or nothing if `bytes` is `None`.
pub fn push_quote_of(output: &mut Vec<u8>, bytes: Option<&[u8]>) -> Result<(), AllocError>
    ensures { OnOk result ((text : List ℕ) × IsQuoteOf (option_copied bytes.entry) text
        × (output.new.items ≡ output.old.items ++ text)) }
{
    match bytes {
        Some(bytes) => push_quote(output, bytes),
        None => Ok(()),
    }
}

/// Appends ` quotes` and the layers of the IP packet at the start of `bytes`, the bytes that an ICMP error quotes.
/// Appends nothing if lax slicing rejects `bytes` as an IP packet.
fn push_quote(output: &mut Vec<u8>, bytes: &[u8]) -> Result<(), AllocError>
    ensures { OnOk result ((text : List ℕ) × IsQuote bytes.now text
        × (output.new.items ≡ output.old.items ++ text)) }
{
    let mut read = LaxSlicedPacket::new();
    match read.slice_into(Entry::Ip, bytes) {
        Ok(()) => push_quoted(output, &read),
        Err(_) => Ok(()),
    }
}

/// Appends ` quotes` and the layers of the packet that an ICMP error quotes.
fn push_quoted(output: &mut Vec<u8>, read: &LaxSlicedPacket<'_>) -> Result<(), AllocError>
    ensures { OnOk result (output.new.items ≡ output.old.items ++ quoted_text (lax_layers_of read.now)) }
{
    output.extend_from_slice(b" quotes")?;
    push_outer(output, read)?;
    push_quoted_rest(output, read)?;
    push_incomplete(output, read.is_incomplete())
}

/// Appends the transport layer, or else the IP payload, of a packet that an ICMP error quotes. If the transport header
/// is truncated, appends the fields at its start that are known.
fn push_quoted_rest(output: &mut Vec<u8>, read: &LaxSlicedPacket<'_>) -> Result<(), AllocError>
    ensures { OnOk result (output.new.items ≡ output.old.items ++ (let layers = lax_layers_of read.now in
        quoted_rest layers.net.inside.incomplete (layers_in layers) layers.net.inside.stop)) }
{
    match &read.stop_err {
        Some(_) => push_refused_start(output, &read.net),
        None => push_inner(output, read),
    }
}
