//! Iterator over the options of a TCP header (RFC 9293, 3.2).

use crate::tcp_option_element::{TcpOptionElement, TcpOptionReadError};

/// Iterator that parses the options of a TCP header one by one. It ends at the end of the bytes, at kind 0 (end of
/// option list), or after the first error.
#[derive(Clone, Debug, PartialEq, Eq, Drop)]
pub struct TcpOptionsIterator<'a> {
    options: &'a [u8],
}

impl<'a> TcpOptionsIterator<'a> {
    ghost use Rattle.std.specs.Prelude.{◌≡◌};
    ghost use Rattle.ep_transport.specs.TcpOptionSteps.{options_left};

    /// Creates an iterator that parses these bytes as the options of a TCP header.
    #[inline]
    pub fn from_slice(options: &'a [u8]) -> TcpOptionsIterator<'a>
        ensures { options_left result ≡ options.now }
    {
        TcpOptionsIterator { options }
    }

    /// Bytes of the TCP options that the iterator has not parsed yet; empty after an error.
    #[inline]
    pub fn rest(&self) -> &'a [u8]
        ensures { result.now ≡ options_left self.now }
    {
        self.options
    }
}

impl<'a> Iterator for TcpOptionsIterator<'a> {
    ghost use Rattle.std.specs.Prelude.{length};
    ghost use Rattle.std.specs.Iterator.{at_most};
    ghost use Rattle.ep_transport.specs.TcpOptionBytes.{GivesItem};
    ghost use Rattle.ep_transport.specs.TcpOptionSteps.{options_left};

    type Item = Result<TcpOptionElement, TcpOptionReadError>;

    ghost next_gives = { λ old item new. GivesItem (options_left old) item (options_left new) };

    ghost remaining = { λ steps. at_most (length (options_left steps)) };

    fn next(&mut self) -> Option<Result<TcpOptionElement, TcpOptionReadError>> {
        let kind = *self.options.first()?;
        if kind == 0 {
            return None;
        }
        // Fast path: most options are no-operations.
        if kind == 1 {
            self.options = &self.options[1..];
            return Some(Ok(TcpOptionElement::Noop));
        }
        match read_option(self.options) {
            Ok((option, rest)) => {
                self.options = rest;
                Some(Ok(option))
            }
            Err(error) => {
                self.options = &self.options[self.options.len()..];
                Some(Err(error))
            }
        }
    }
}

ghost use Rattle.std.specs.Prelude.{◌≡◌, ◌≢◌, ◌+◌, ◌<◌, ◌≤◌, length, slice_index, if◌then◌else◌, nat_lt, true, Some, None, IfOk, IfErr, MatchResult};
ghost use Rattle.ep_base.specs.Tables.{Refuses};
ghost use Rattle.ep_transport.specs.TcpOptionBytes.{IsOption, RefusesOption, end_of_list_kind, sized_rows, blocks_rows, is_blocks_size};
ghost use Rattle.ep_transport.specs.TcpOptionSteps.{block_at};

/// Parses the TCP option at the start of the bytes, and returns it with the bytes after it. There must be at least one
/// byte, and the kind must not be 0 (end of option list).
fn read_option(options: &[u8]) -> Result<(TcpOptionElement, &[u8]), TcpOptionReadError>
    requires some { 0 < length options.now }
    requires no_end { slice_index options.now 0 ≢ end_of_list_kind }
    ensures ok { IfOk result (λ read. IsOption options.now (read.0, read.1.now)) }
    ensures err { IfErr result (RefusesOption options.now) }
{
    match options[0] {
        1 => Ok((TcpOptionElement::Noop, &options[1..])),
        2 => {
            check_size(options, 2, 4)?;
            let size = u16::from_be_bytes([options[2], options[3]]);
            Ok((TcpOptionElement::MaximumSegmentSize(size), &options[4..]))
        }
        3 => {
            check_size(options, 3, 3)?;
            Ok((TcpOptionElement::WindowScale(options[2]), &options[3..]))
        }
        4 => {
            check_size(options, 4, 2)?;
            Ok((
                TcpOptionElement::SelectiveAcknowledgementPermitted,
                &options[2..],
            ))
        }
        5 => {
            let size = check_blocks_size(options)?;
            let others = [
                block_within(options, 10, size),
                block_within(options, 18, size),
                block_within(options, 26, size),
            ];
            Ok((
                TcpOptionElement::SelectiveAcknowledgement(block(options, 2), others),
                &options[size..],
            ))
        }
        8 => {
            check_size(options, 8, 10)?;
            let (time, echo) = block(options, 2);
            Ok((TcpOptionElement::Timestamp(time, echo), &options[10..]))
        }
        kind => Err(TcpOptionReadError::UnknownId(kind)),
    }
}

/// Returns an error if the TCP option at the start of `options` is truncated (fewer than `size` bytes are left), or its
/// length byte is not `size`. All options of this `kind` have `size` bytes.
#[inline]
fn check_size(options: &[u8], kind: u8, size: u8) -> Result<(), TcpOptionReadError>
    requires { 1 < size }
    ensures { MatchResult result
        (λ _. (size ≤ length options.now) × (slice_index options.now 1 ≡ size))
        (Refuses (sized_rows kind size options.now)) }
{
    if options.len() < size as usize {
        return Err(TcpOptionReadError::UnexpectedEndOfSlice {
            option_id: kind,
            expected_len: size,
            actual_len: options.len(),
        });
    }
    if options[1] != size {
        return Err(TcpOptionReadError::UnexpectedSize {
            option_id: kind,
            size: options[1],
        });
    }
    Ok(())
}

/// Checks the length byte of the TCP selective acknowledgment (SACK) at the start of `options`, and returns it: 10, 18,
/// 26 or 34 for 1 to 4 blocks. Fails for another length, or if the option is truncated.
#[inline]
fn check_blocks_size(options: &[u8]) -> Result<usize, TcpOptionReadError>
    ensures { MatchResult result
        (λ size. (size ≡ slice_index options.now 1) × (is_blocks_size size ≡ true) × (size ≤ length options.now))
        (Refuses (blocks_rows options.now)) }
{
    if options.len() < 2 {
        return Err(TcpOptionReadError::UnexpectedEndOfSlice {
            option_id: 5,
            expected_len: 2,
            actual_len: options.len(),
        });
    }
    let size = options[1];
    if !(size == 10 || size == 18 || size == 26 || size == 34) {
        return Err(TcpOptionReadError::UnexpectedSize { option_id: 5, size });
    }
    if options.len() < size as usize {
        return Err(TcpOptionReadError::UnexpectedEndOfSlice {
            option_id: 5,
            expected_len: size,
            actual_len: options.len(),
        });
    }
    Ok(size as usize)
}

/// Reads two big-endian 32-bit numbers of a TCP option from offset `at` on: the sequence numbers of a SACK block, or
/// two timestamps.
#[inline]
fn block(options: &[u8], at: usize) -> (u32, u32)
    requires { at + 8 ≤ length options.now }
    ensures { result ≡ block_at options.now at }
{
    (
        u32::from_be_bytes([
            options[at],
            options[at + 1],
            options[at + 2],
            options[at + 3],
        ]),
        u32::from_be_bytes([
            options[at + 4],
            options[at + 5],
            options[at + 6],
            options[at + 7],
        ]),
    )
}

/// Reads the block at offset `at` of a TCP selective acknowledgment (SACK) of `size` bytes, or returns `None` if the
/// option ends before it.
#[inline]
fn block_within(options: &[u8], at: usize, size: usize) -> Option<(u32, u32)>
    requires within { at < size → at + 8 ≤ length options.now }
    ensures { result ≡ (if nat_lt at size then Some (block_at options.now at) else None) }
{
    if at < size {
        Some(block(options, at))
    } else {
        None
    }
}
