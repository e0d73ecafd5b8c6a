//! Long pcapng blocks, which are read in parts: blocks longer than 320 KiB of a type whose content is skipped.

ghost use Rattle.std.specs.Prelude.{◌≡◌, ◌≤◌, ◌<◌, ◌^◌, ◌++◌, true, IfErr, IfOk, OnOk, drop, length};
ghost use Rattle.ep_base.specs.Tables.{Refuses};
ghost use Rattle.capture_reader.specs.Captures.{FitsLongHeader, begins_long, long_rows, trailing_rows};
ghost use Rattle.capture_reader.specs.Numbers.{word32, word32_at};

use crate::block::{Block, MOST_BLOCK, kind_of};
use crate::byte_order::ByteOrder;
use crate::refusal::Refusal;

/// Maximum number of bytes that one call of `advance` skips in a pcapng block longer than 320 KiB: 65,536 (64 KiB).
pub(crate) const MOST_STRETCH: u32 = 65_536;

/// Returns true if `bytes` start with a long pcapng block: longer than 320 KiB, and of a type whose content is skipped.
pub(crate) fn begins_long(order: ByteOrder, bytes: &[u8]) -> bool
    ensures { result ≡ begins_long order bytes.now }
{
    bytes.len() >= Block::HEADER_LEN
        && kind_of(order.word32(bytes, 0)).is_other()
        && order.word32(bytes, 4) > MOST_BLOCK
}

/// Parses the length field of the long pcapng block at the start of `bytes`. Only the first 8 bytes are read; the
/// length is rejected if it is not a multiple of 4.
pub(crate) fn parse_long_len(order: ByteOrder, bytes: &[u8]) -> Result<u32, Refusal>
    requires { begins_long order bytes.now ≡ true }
    ensures fits { IfOk result (FitsLongHeader (word32_at order bytes.now 0)) }
    ensures parts { IfOk result (λ len. bytes.now
        ≡ (word32 order (word32_at order bytes.now 0) ++ word32 order len) ++ drop 8 bytes.now) }
    ensures long { OnOk result (8 ≤ length bytes.now) }
    ensures err { IfErr result (Refuses (long_rows order bytes.now)) }
{
    let len = order.word32(bytes, 4);
    if len % 4 != 0 {
        return Err(Refusal::BlockLength { len });
    }
    Ok(len)
}

/// Checks that `bytes` start with the trailing length field of a pcapng block, and that it is equal to `len`, the
/// length field before the block's body.
pub(crate) fn check_trailing_len(order: ByteOrder, len: u32, bytes: &[u8]) -> Result<(), Refusal>
    ensures fits { OnOk result (len < 2 ^ 32) }
    ensures parts { OnOk result (bytes.now ≡ word32 order len ++ drop 4 bytes.now) }
    ensures long { OnOk result (4 ≤ length bytes.now) }
    ensures err { IfErr result (Refuses (trailing_rows order len bytes.now)) }
{
    if bytes.len() < 4 {
        return Err(Refusal::Cut {
            required_len: 4,
            len: bytes.len(),
        });
    }
    let trailing = order.word32(bytes, 0);
    if trailing != len {
        return Err(Refusal::TrailingLength { len, trailing });
    }
    Ok(())
}
