//! Single options of a TCP header (RFC 9293, 3.2; RFC 2018; RFC 7323), and errors of parsing them.

ghost use Rattle.std.specs.Prelude.{◌≡◌, ◌+◌, ◌*◌, ◌<◌, ◌≤◌, ◌++◌, [], ◌∷◌, length};
ghost use Rattle.ep_transport.specs.TcpOptionBytes.{FitsOption, present, block_bytes, blocks_bytes, option_bytes};
ghost use Rattle.ep_transport.specs.declared.tcp_option_element.TcpOptionElement.TheVariants.{SelectiveAcknowledgement};

use arrayvec::ArrayVec;
use thiserror::Error;

/// Decoded option of a TCP header (RFC 9293, 3.2; RFC 2018; RFC 7323).
#[derive(Clone, Debug, PartialEq, Eq, Drop)]
pub enum TcpOptionElement {
    /// TCP option no-operation: a padding byte between options (kind 1).
    Noop,
    /// TCP option maximum segment size (MSS) that the sender accepts, in bytes (kind 2; the option has 4 bytes).
    MaximumSegmentSize(u16),
    /// TCP option window scale: shift count, in bits, of the windows that the sender announces (kind 3; the option has
    /// 3 bytes).
    WindowScale(u8),
    /// TCP option SACK-permitted: selective acknowledgments may be sent (kind 4; the option has 2 bytes).
    SelectiveAcknowledgementPermitted,
    /// TCP option selective acknowledgment (SACK): 1 to 4 blocks of data received after the acknowledgment number (kind
    /// 5; the option has 10, 18, 26 or 34 bytes). A block is the sequence number of its first byte, and the sequence
    /// number after its last byte. `None` is an absent block.
    SelectiveAcknowledgement((u32, u32), [Option<(u32, u32)>; 3]),
    /// TCP option timestamps: timestamp value of the sender, and timestamp echo reply (kind 8; the option has 10
    /// bytes).
    Timestamp(u32, u32),
}

/// Error of parsing a TCP option. The iterator over the options ends with it.
#[derive(Clone, Debug, PartialEq, Eq, Hash, Drop, Error)]
pub enum TcpOptionReadError {
    /// A TCP option is longer than the remaining bytes of the option list.
    #[error("UnexpectedEndOfSlice {option_id} {expected_len} {actual_len}")]
    UnexpectedEndOfSlice {
        /// Kind of the truncated TCP option, its first byte.
        option_id: u8,
        /// Full length of the truncated TCP option in bytes: the fixed length of its kind, or the length byte of a
        /// selective acknowledgment. It is 2 if the length byte of a selective acknowledgment is missing.
        expected_len: u8,
        /// Number of bytes from the start of the truncated TCP option to the end of the option list.
        actual_len: usize,
    },
    /// The length byte of a TCP option is invalid for the option's kind.
    #[error("UnexpectedSize {option_id} {size}")]
    UnexpectedSize {
        /// Kind of the TCP option with the invalid length, its first byte.
        option_id: u8,
        /// Invalid length of the TCP option in bytes, its second byte.
        size: u8,
    },
    /// A TCP option has a kind that is not known; the kind is contained.
    #[error("UnknownId {0}")]
    UnknownId(u8),
}

impl TcpOptionElement {
    /// Appends the wire bytes of the TCP option (kind, length and data) to the option list `bytes` if the list then has
    /// at most 40 bytes. Returns the length of the option in bytes, even if it is not appended.
    pub(crate) fn append_if_fits(&self, bytes: &mut ArrayVec<u8, 40>) -> usize
        ensures len { result ≡ length (option_bytes self.now) }
        ensures fits { FitsOption self.now }
        ensures appended { length bytes.old.items + length (option_bytes self.now) ≤ 40
            → bytes.new.items ≡ bytes.old.items ++ option_bytes self.now }
        ensures unchanged { 40 < length bytes.old.items + length (option_bytes self.now) → bytes.new ≡ bytes.old }
    {
        match self {
            TcpOptionElement::Noop => append_bytes_if_fit(bytes, &[1]),
            TcpOptionElement::MaximumSegmentSize(size) => {
                let size = size.to_be_bytes();
                append_bytes_if_fit(bytes, &[2, 4, size[0], size[1]])
            }
            TcpOptionElement::WindowScale(shift) => append_bytes_if_fit(bytes, &[3, 3, *shift]),
            TcpOptionElement::SelectiveAcknowledgementPermitted => append_bytes_if_fit(
                bytes,
                &[4, 2],
            ),
            TcpOptionElement::SelectiveAcknowledgement(first, others) => {
                append_bytes_if_fit(bytes, acknowledgement(*first, *others).as_slice())
            }
            TcpOptionElement::Timestamp(time, echo) => {
                let time = time.to_be_bytes();
                let echo = echo.to_be_bytes();
                append_bytes_if_fit(
                    bytes,
                    &[
                        8, 10, time[0], time[1], time[2], time[3], echo[0], echo[1], echo[2],
                        echo[3],
                    ],
                )
            }
        }
    }
}

/// Appends the wire bytes `option` of a TCP option to the option list `bytes` if the list then has at most 40 bytes.
/// Returns the length of `option` in bytes, even if it is not appended.
#[inline(always)]
fn append_bytes_if_fit(bytes: &mut ArrayVec<u8, 40>, option: &[u8]) -> usize
    ensures len { result ≡ length option.now }
    ensures appended { length bytes.old.items + length option.now ≤ 40
        → bytes.new.items ≡ bytes.old.items ++ option.now }
    ensures unchanged { 40 < length bytes.old.items + length option.now → bytes.new ≡ bytes.old }
{
    if option.len() <= bytes.remaining_capacity() {
        bytes.try_extend_from_slice(option).unwrap();
    }
    option.len()
}

/// Returns the wire bytes of a TCP selective acknowledgment (SACK): kind, length, the block `first`, and those of
/// `others` that are present.
fn acknowledgement(first: (u32, u32), others: [Option<(u32, u32)>; 3]) -> ArrayVec<u8, 34>
    ensures bytes { result.items ≡ option_bytes (SelectiveAcknowledgement first others) }
    ensures fits { FitsOption (SelectiveAcknowledgement first others) }
{
    let len = 10 + block_len(others[0]) + block_len(others[1]) + block_len(others[2]);
    let mut bytes = ArrayVec::new();
    bytes.try_extend_from_slice(&[5, len]).unwrap();
    append_block(&mut bytes, first);
    append_block_if_present(&mut bytes, others[0]);
    append_block_if_present(&mut bytes, others[1]);
    append_block_if_present(&mut bytes, others[2]);
    bytes
}

/// Returns the length in bytes of a block of a TCP selective acknowledgment (SACK): 8 if it is present, else 0.
#[inline]
fn block_len(place: Option<(u32, u32)>) -> u8
    ensures value { result ≡ 8 * length (present (place ∷ [])) }
    ensures bound { result ≤ 8 }
{
    match place {
        Some(_) => 8,
        None => 0,
    }
}

/// Appends a block of a TCP selective acknowledgment (SACK), its two sequence numbers, if it is present.
#[inline]
fn append_block_if_present(bytes: &mut ArrayVec<u8, 34>, place: Option<(u32, u32)>)
    requires { length bytes.now.items + 8 ≤ 34 }
    ensures value { bytes.new.items ≡ bytes.old.items ++ blocks_bytes (present (place ∷ [])) }
    ensures bound { length bytes.new.items ≤ length bytes.old.items + 8 }
{
    if let Some(block) = place {
        append_block(bytes, block);
    }
}

/// Appends the 8 bytes of a block of a TCP selective acknowledgment (SACK), its two sequence numbers.
#[inline]
fn append_block(bytes: &mut ArrayVec<u8, 34>, block: (u32, u32))
    requires { length bytes.now.items + 8 ≤ 34 }
    ensures value { bytes.new.items ≡ bytes.old.items ++ block_bytes block }
    ensures len { length bytes.new.items ≡ length bytes.old.items + 8 }
{
    bytes.try_extend_from_slice(&block.0.to_be_bytes()).unwrap();
    bytes.try_extend_from_slice(&block.1.to_be_bytes()).unwrap();
}
