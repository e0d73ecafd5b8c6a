//! Formatting of parsing errors as text of a packet's line.

ghost use Rattle.std.specs.Prelude.{◌≡◌, ◌++◌, OnOk};
ghost use Rattle.packet_text.specs.SliceErrorTexts.{refusal_text, refused_layer, stop_text};

use etherparse::err::packet::SliceError;
use refusal_texts::push_reason;
use std::alloc::AllocError;

/// Appends ` refused` and why a packet, or the transport header of a reassembled payload, is rejected: the name of the
/// invalid layer and the text of the error.
pub fn push_refusal(output: &mut Vec<u8>, error: &SliceError) -> Result<(), AllocError>
    ensures { OnOk result (output.new.items ≡ output.old.items ++ refusal_text error.now) }
{
    output.extend_from_slice(b" refused ")?;
    output.extend_from_slice(refused_layer(error).as_bytes())?;
    push_reason(output, error)
}

/// Appends ` stopped` and why the layers of a packet end early: the name of the first layer that is truncated or
/// invalid, and the text of the error.
pub fn push_stop(output: &mut Vec<u8>, error: &SliceError) -> Result<(), AllocError>
    ensures { OnOk result (output.new.items ≡ output.old.items ++ stop_text error.now) }
{
    output.extend_from_slice(b" stopped ")?;
    output.extend_from_slice(refused_layer(error).as_bytes())?;
    push_reason(output, error)
}

/// Returns the name of the layer that an error is about, with a space after it. It is empty for a length error, whose
/// text names the layer itself.
fn refused_layer(error: &SliceError) -> &'static str
    ensures { result.now ≡ refused_layer error.now }
{
    match error {
        SliceError::Len(_) => "",
        SliceError::LinuxSll(_) => "LinuxSll ",
        SliceError::Macsec(_) => "Macsec ",
        SliceError::Ip(_) => "Ip ",
        SliceError::Ipv4(_) => "Ipv4 ",
        SliceError::Ipv6(_) => "Ipv6 ",
        SliceError::Ipv4Exts(_) => "Ipv4Exts ",
        SliceError::Ipv6Exts(_) => "Ipv6Exts ",
        SliceError::Tcp(_) => "Tcp ",
    }
}
