//! Additional text of `--verbose` in the line of a packet: details of its layers, and the packet that an ICMP error
//! quotes.

ghost use Rattle.std.specs.Prelude.{◌≡◌, ◌++◌, ℕ, List, OnOk};
ghost use Rattle.packet_dump.specs.Details.{AreDetails, AreWantedDetails, interface_text};

use etherparse::LaxSlicedPacket;
use line_io::decimals;
use packet_text::{push_details, push_quote_of, quoted_by};
use std::alloc::AllocError;

/// Appends ` interface N`, the number of the packet's capture interface (pcapng), with `--verbose` and if the number is
/// known.
pub fn push_interface(
    output: &mut Vec<u8>,
    wanted: bool,
    interface: Option<u32>,
) -> Result<(), AllocError>
    ensures { OnOk result (output.new.items ≡ output.old.items ++ interface_text wanted interface) }
{
    let Some(number) = interface else {
        return Ok(());
    };
    if wanted {
        decimals::push_with_text(output, b" interface ", u64::from(number))
    } else {
        Ok(())
    }
}

/// Appends the details of a packet's layers (TTL, TCP window ..) and, for an ICMP error, the layers of the packet that
/// the error quotes. Appends nothing without `--verbose` (`wanted` is false).
pub fn push_wanted_details(
    output: &mut Vec<u8>,
    wanted: bool,
    read: &LaxSlicedPacket<'_>,
) -> Result<(), AllocError>
    ensures { OnOk result ((text : List ℕ) × AreWantedDetails wanted read.now text
        × (output.new.items ≡ output.old.items ++ text)) }
{
    if wanted {
        push_all(output, read)
    } else {
        Ok(())
    }
}

/// Appends the details of a packet's layers (TTL, TCP window ..) and then, for an ICMP error, the layers of the packet
/// that the error quotes.
fn push_all(output: &mut Vec<u8>, read: &LaxSlicedPacket<'_>) -> Result<(), AllocError>
    ensures { OnOk result ((text : List ℕ) × AreDetails read.now text
        × (output.new.items ≡ output.old.items ++ text)) }
{
    push_details(output, read)?;
    push_quote_of(output, quoted_by(read))
}
