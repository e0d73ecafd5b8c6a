//! Interfaces that a pcapng section describes, and their options.

ghost use Rattle.std.specs.Prelude.{◌≡◌, ◌≤◌, ◌==◌, if◌then◌else◌, true, false, None, Some, IfErr, IfOk, drop, length};
ghost use Rattle.std.specs.Prelude.{option_copied};
ghost use Rattle.ep_base.specs.Tables.{Refuses, first_row};
ghost use Rattle.capture_reader.specs.Blocks.{interface_of, interface_read, option_value_rows, options_rows};
ghost use Rattle.capture_reader.specs.Options.{ends_options, first_value, has_len, has_option, knows_resolution};
ghost use Rattle.capture_reader.specs.Options.{offset_or_zero, options_end, options_of, padding_of, per_second_of};
ghost use Rattle.capture_reader.specs.Options.{resolution_or_default, value_len, value_of};

use crate::byte_order::ByteOrder;
use crate::refusal::Refusal;

/// Description of an interface of a pcapng section, from an Interface Description Block.
#[derive(Clone, Copy, Debug, PartialEq, Eq)]
pub struct Interface {
    /// Link type of all packets of a pcapng interface, which determines their first header.
    pub link_type: u16,
    /// Snap length of a pcapng interface: maximum number of bytes that are captured of a packet, or 0 for no limit.
    pub snap_len: u32,
    /// Timestamp units per second of a pcapng interface (option `if_tsresol`), as 1,000,000 for microseconds.
    pub per_second: u64,
    /// Seconds that are added to the timestamps of a pcapng interface (option `if_tsoffset`).
    pub offset: i64,
}

impl Interface {
    /// Minimum length of a pcapng Interface Description Block in bytes: 20.
    pub(crate) const LEN: usize = 20;

    /// Parses the body of a pcapng Interface Description Block: link type, snap length and the options about
    /// timestamps.
    pub(crate) fn from_body(order: ByteOrder, body: &[u8]) -> Result<Interface, Refusal>
        requires { 8 ≤ length body.now }
        ensures none { IfOk result (λ about. first_row (options_rows order (drop 8 body.now)) ≡ None) }
        ensures ok { IfOk result (λ about. about ≡ interface_of order (interface_read order body.now)) }
        ensures err { IfErr result (Refuses (options_rows order (drop 8 body.now))) }
    {
        let options = InterfaceOptions::parse(order, &body[8..]);
        let link_type = order.word16(body, 0);
        let snap_len = order.word32(body, 4);
        match options.interface(order, link_type, snap_len) {
            Ok(about) => Ok(about),
            Err(refusal) => Err(refusal),
        }
    }
}

/// Returns the timestamp resolution of a pcapng interface: the value of its option `if_tsresol`, or 6 (microseconds)
/// without it. Returns an error if the option is not 1 byte long.
fn resolution_of(value: Option<&[u8]>) -> Result<u8, Refusal>
    ensures ok { IfOk result (λ resolution. (has_len 1 (option_copied value.entry) ≡ true)
        × (resolution ≡ resolution_or_default (option_copied value.entry))) }
    ensures err { IfErr result (λ error. (has_len 1 (option_copied value.entry) ≡ false)
        × (error ≡ Refusal.OptionLength 9 (value_len (option_copied value.entry)))) }
{
    match value {
        None => Ok(6),
        Some(bytes) => {
            if bytes.len() != 1 {
                return Err(Refusal::OptionLength {
                    code: 9,
                    len: bytes.len(),
                });
            }
            Ok(bytes[0])
        }
    }
}

/// Returns the value of the option `if_tsoffset` of a pcapng interface in seconds, or 0 without it. Returns an error if
/// the option is not 8 bytes long.
fn offset_of(order: ByteOrder, value: Option<&[u8]>) -> Result<i64, Refusal>
    ensures ok { IfOk result (λ offset. (has_len 8 (option_copied value.entry) ≡ true)
        × (offset ≡ offset_or_zero order (option_copied value.entry))) }
    ensures err { IfErr result (λ error. (has_len 8 (option_copied value.entry) ≡ false)
        × (error ≡ Refusal.OptionLength 14 (value_len (option_copied value.entry)))) }
{
    match value {
        None => Ok(0),
        Some(bytes) => {
            if bytes.len() != 8 {
                return Err(Refusal::OptionLength {
                    code: 14,
                    len: bytes.len(),
                });
            }
            Ok(order.signed64(bytes))
        }
    }
}

/// Returns true if a timestamp resolution (option `if_tsresol`) is supported: its units per second, up to 10^19 or
/// 2^63, fit in 64 bits.
fn knows_resolution(resolution: u8) -> bool
    ensures { result ≡ knows_resolution resolution }
{
    if resolution < 128 {
        resolution < 20
    } else {
        resolution < 192
    }
}

/// Returns the units per second of a timestamp resolution (option `if_tsresol`): 10 to the power of `resolution`, or 2
/// to the power of its lower 7 bits if the top bit is set.
fn per_second_of(resolution: u8) -> u64
    requires { knows_resolution resolution ≡ true }
    ensures { result ≡ per_second_of resolution }
{
    if resolution < 128 {
        10_u64.pow(resolution as u32)
    } else {
        2_u64.pow((resolution - 128) as u32)
    }
}

/// Returns the number of bytes, 0 to 3, that pad `len` bytes to a multiple of 4.
pub(crate) fn padding_of(len: usize) -> usize
    ensures { result ≡ padding_of len }
{
    (4 - len % 4) % 4
}

/// Options of a pcapng interface that are read: timestamp resolution and offset.
#[derive(Clone, Copy)]
struct InterfaceOptions<'a> {
    /// Value of the first option `if_tsresol` (code 9: timestamp resolution) of a pcapng interface, if present.
    resolution: Option<&'a [u8]>,
    /// Value of the first option `if_tsoffset` (code 14: seconds to add to timestamps) of a pcapng interface, if
    /// present.
    offset: Option<&'a [u8]>,
    /// True if all options of a pcapng interface end within their block.
    ended: bool,
}

impl<'a> InterfaceOptions<'a> {
    /// Parses the options of a pcapng Interface Description Block from the start of `bytes`, up to the end-of-options
    /// marker, the end of `bytes` or an incomplete option.
    fn parse(order: ByteOrder, bytes: &'a [u8]) -> InterfaceOptions<'a>
        ensures resolution { option_copied result.resolution ≡ value_of 9 (options_of order bytes.now) }
        ensures offset { option_copied result.offset ≡ value_of 14 (options_of order bytes.now) }
        ensures ended { result.ended ≡ ends_options order (options_end order bytes.now) }
    {
        let mut resolution = None;
        let mut offset = None;
        let mut rest = bytes;
        'options: while has_option(order, rest) {
            let code = order.word16(rest, 0);
            let len = order.word16(rest, 2) as usize;
            let value = &rest[4..4 + len];
            resolution = first_of(resolution, 9, code, value);
            offset = first_of(offset, 14, code, value);
            rest = &rest[4 + len + padding_of(len)..];
        }
        InterfaceOptions {
            resolution,
            offset,
            ended: ends_options(order, rest),
        }
    }

    /// Returns a pcapng interface with this link type and snap length, and with the timestamp resolution and offset of
    /// its options. Returns an error if an option is invalid.
    fn interface(
        &self,
        order: ByteOrder,
        link_type: u16,
        snap_len: u32,
    ) -> Result<Interface, Refusal>
        ensures none { IfOk result (λ about. first_row (option_value_rows self.now.ended
            (option_copied self.now.resolution) (option_copied self.now.offset)) ≡ None) }
        ensures link_type { IfOk result (λ about. about.link_type ≡ link_type) }
        ensures snap_len { IfOk result (λ about. about.snap_len ≡ snap_len) }
        ensures per_second { IfOk result (λ about.
            about.per_second ≡ per_second_of (resolution_or_default (option_copied self.now.resolution))) }
        ensures offset { IfOk result (λ about. about.offset ≡ offset_or_zero order (option_copied self.now.offset)) }
        ensures err { IfErr result (Refuses (option_value_rows self.now.ended (option_copied self.now.resolution)
            (option_copied self.now.offset))) }
    {
        if !self.ended {
            return Err(Refusal::OptionBeyondBlock);
        }
        let resolution = match resolution_of(self.resolution) {
            Ok(resolution) => resolution,
            Err(refusal) => return Err(refusal),
        };
        let offset = match offset_of(order, self.offset) {
            Ok(offset) => offset,
            Err(refusal) => return Err(refusal),
        };
        if !knows_resolution(resolution) {
            return Err(Refusal::UnsupportedResolution { resolution });
        }
        Ok(Interface {
            link_type,
            snap_len,
            per_second: per_second_of(resolution),
            offset,
        })
    }
}

/// Returns the value of the first pcapng option with the code `wanted` so far: `found` if an earlier option had that
/// code; else `value`, the value of the current option, if its `code` is `wanted`; else `None`.
fn first_of<'a>(
    found: Option<&'a [u8]>,
    wanted: u16,
    code: u16,
    value: &'a [u8],
) -> Option<&'a [u8]>
    ensures { option_copied result
        ≡ first_value (option_copied found.entry) (if code == wanted then Some value.now else None) }
{
    match found {
        Some(first) => Some(first),
        None => { if code == wanted { Some(value) } else { None } }
    }
}

/// Returns true if `bytes` begin with a complete pcapng option other than the end-of-options marker.
fn has_option(order: ByteOrder, bytes: &[u8]) -> bool
    ensures { result ≡ has_option order bytes.now }
{
    if bytes.len() < 4 {
        return false;
    }
    let code = order.word16(bytes, 0);
    let len = order.word16(bytes, 2) as usize;
    code != 0 && 4 + len + padding_of(len) <= bytes.len()
}

/// Returns true if the options of a pcapng block end at the start of `bytes`: no bytes are left, or the end-of-options
/// marker follows.
fn ends_options(order: ByteOrder, bytes: &[u8]) -> bool
    ensures { result ≡ ends_options order bytes.now }
{
    bytes.is_empty() || (bytes.len() >= 2 && order.word16(bytes, 0) == 0)
}
