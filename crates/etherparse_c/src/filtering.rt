//! Calls for C that parse filter expressions and match packets with them.

ghost use Rattle.std.specs.Prelude.{◌≡◌, ◌++◌, ◌∷◌, [], ◌≤◌, IfOk, Some, is_some, length, slice_get, true};
ghost use Rattle.etherparse_c.specs.FilterAnswers.{IsErrorTextAnswer, IsManyMatched, IsManyMatchedFrom, IsMatch, IsMatchAnswer, IsNewFilter, IsStoredFilter, UsesFilter};
ghost use Rattle.etherparse_c.specs.FilterAnswers.{filter_error_part, kind_number, kind_of_number, no_filter_error, wire_len_of};
ghost use Rattle.etherparse_c.specs.Placing.{IsPlaced};
ghost use Rattle.etherparse_c.specs.RefusalTexts.{IsTextAnswer};
ghost use Rattle.etherparse_c.specs.SliceAnswers.{entry_of};
ghost use Rattle.packet_filter.specs.Printing.{printed};
ghost use Rattle.packet_filter.specs.Trees.{tree_of};

use crate::filter_handle::FilterHandle;
use crate::filter_pointer::FilterPointer;
use crate::filter_values::FilterError;
use crate::held_filter::HeldFilter;
use crate::numbers;
use crate::owned_filter::OwnedFilter;
use crate::placing::copy_bytes;
use crate::raw_box::RawBox;
use crate::slicing::entry_of;
use etherparse::{Entry, LaxSlicedPacket};
use packet_filter::{self, Filter, FilterErrorKind};
use std::alloc::{AllocError, Global};
use std::mem::replace;
use std::str;

/// Parses a filter expression, and stores the address of the filter in `filter`. The empty text is the filter that
/// matches every packet.
///
/// Returns the status: 0 if the filter is stored; 1 if the text is not a filter expression, with the error in `error`;
/// 5 if an allocation fails. With 1 and 5 `filter` is unchanged; with 0 and 5 all fields of `error` are 0.
#[unsafe(no_mangle)]
pub extern "C" fn etherparse_2_filter_new(
    alloc: Global,
    text: &[u8],
    filter: &mut FilterHandle,
    error: &mut FilterError,
) -> u32
    ensures { IsNewFilter text.now filter.old filter.new error.new result }
{
    *error = no_filter_error();
    let text = match str::from_utf8(text) {
        Ok(text) => text,
        Err(invalid) => {
            *error = FilterError {
                kind: numbers::FILTER_NOT_UTF8,
                start: invalid.valid_up_to(),
                end: text.len(),
            };
            return numbers::REFUSED;
        }
    };
    match Filter::parse(alloc, text) {
        Ok(parsed) => store_filter(alloc, parsed, filter),
        Err(refused) => {
            let part = filter_error_part(&refused);
            if part.kind == 0 {
                return numbers::OUT_OF_MEMORY;
            }
            *error = part;
            numbers::REFUSED
        }
    }
}

/// Frees a filter.
#[unsafe(no_mangle)]
pub extern "C" fn etherparse_2_filter_free(filter: OwnedFilter) {
    let OwnedFilter { handle } = filter;
    let HeldFilter { pointer } = Box::into_inner(handle.into_raw_box().into_box());
    let _ = pointer.into_raw_box().into_box();
}

/// Stores in `matches` whether a filter matches a packet: 1 or 0. The packet is sliced laxly; a packet whose first
/// header is rejected has no layers. `entry` is the number of the packet's first header, as in
/// `etherparse_2_slice_lax`, and `wire_len` the original length of the packet in bytes, which may be truncated.
///
/// Returns status 0, or 2 if `entry` is above 3; `matches` is then 0.
#[unsafe(no_mangle)]
pub extern "C" fn etherparse_2_filter_matches(
    alloc: Global,
    filter: &mut HeldFilter,
    entry: u32,
    ether_type: u16,
    bytes: &[u8],
    wire_len: u32,
    matches: &mut u8,
) -> u32
    ensures { UsesFilter filter.old filter.new (λ steps.
        IsMatchAnswer steps (entry_of entry ether_type) bytes.now wire_len matches.new result) }
{
    let taken = take_filter(alloc, &mut filter.pointer);
    let status = match_one(&taken, entry, ether_type, bytes, wire_len, matches);
    filter.pointer = pointer_to(taken);
    status
}

/// Stores for each of consecutive packets in `bytes` whether a filter matches it, as `etherparse_2_filter_matches`
/// does: packet 0 is `bytes[..ends[0]]`, and packet i is `bytes[ends[i - 1]..ends[i]]`. The answer for packet i, 1 or 0,
/// is written to `matches[i]`; `matched` is the number of written elements. The other elements are unchanged. The
/// original length of packet i is `wire_lens[i]`, or the number of its bytes if `wire_lens` has no such element.
///
/// Returns the status, as `etherparse_2_slice_many`: 0 if all packets are matched; 3 if `matches` is shorter than
/// `ends`; 2 if `entry` is above 3, or if a packet's end is less than its start or greater than the length of `bytes`.
#[unsafe(no_mangle)]
pub extern "C" fn etherparse_2_filter_matches_many(
    alloc: Global,
    filter: &mut HeldFilter,
    entry: u32,
    ether_type: u16,
    bytes: &[u8],
    ends: &[usize],
    wire_lens: &[u32],
    matches: &mut [u8],
    matched: &mut usize,
) -> u32
    ensures { UsesFilter filter.old filter.new (λ steps. IsManyMatched steps (entry_of entry ether_type) bytes.now
        ends.now wire_lens.now matches.old matches.new matched.new result) }
{
    let taken = take_filter(alloc, &mut filter.pointer);
    *matched = 0;
    let status = if matches.len() < ends.len() {
        numbers::TOO_SMALL
    } else if let Some(entry) = entry_of(entry, ether_type) {
        match_many(&taken, entry, bytes, ends, wire_lens, matches, matched)
    } else {
        numbers::UNKNOWN_CHOICE
    };
    filter.pointer = pointer_to(taken);
    status
}

/// Writes the expression of a filter and a terminating zero byte to the start of `buffer`: each primitive with its
/// qualifiers, and no redundant parentheses. Stores the number of bytes, including the zero byte, in `written`.
/// Allocates, and frees the memory before it returns.
///
/// Returns the status: 0 if the text is written; 3 if the buffer is too small, and `written` is the needed length; 5 if
/// an allocation fails. With 3 and 5 the buffer is unchanged.
#[unsafe(no_mangle)]
pub extern "C" fn etherparse_2_filter_text(
    alloc: Global,
    filter: &mut HeldFilter,
    buffer: &mut [u8],
    written: &mut usize,
) -> u32
    ensures { UsesFilter filter.old filter.new (λ steps.
        IsTextAnswer (Some (printed (tree_of steps))) buffer.old buffer.new written.new result) }
{
    let taken = take_filter(alloc, &mut filter.pointer);
    *written = 0;
    let status = match terminated_text(alloc, &taken) {
        Ok(text) => copy_bytes(text.as_slice(), buffer, written),
        Err(_) => numbers::OUT_OF_MEMORY,
    };
    filter.pointer = pointer_to(taken);
    status
}

/// Writes the text of a reason why a text is not a filter expression, and a terminating zero byte, to the start of
/// `buffer`. `kind` is the number of the reason in the error. Stores the number of bytes, including the zero byte, in
/// `written`.
///
/// Returns the status: 0 if the text is written; 2 if `kind` is not the number of a reason; 3 if the buffer is too
/// small, and `written` is the needed length. With 2 and 3 the buffer is unchanged.
#[unsafe(no_mangle)]
pub extern "C" fn etherparse_2_filter_error_text(
    kind: u32,
    buffer: &mut [u8],
    written: &mut usize,
) -> u32
    ensures { IsErrorTextAnswer kind buffer.old buffer.new written.new result }
{
    if kind == numbers::FILTER_NOT_UTF8 {
        return copy_text("not UTF-8", buffer, written);
    }
    match kind_of_number(kind) {
        Some(kind) => copy_text(kind.description(), buffer, written),
        None => {
            *written = 0;
            numbers::UNKNOWN_CHOICE
        }
    }
}

/// Allocates a filter and stores its address in `handle`. Returns status 0, or 5 if an allocation fails; then `handle`
/// is unchanged.
fn store_filter(alloc: Global, filter: Filter, handle: &mut FilterHandle) -> u32
    ensures { IsStoredFilter filter handle.old handle.new result }
{
    let Ok(filter) = Box::new(alloc, filter) else {
        return numbers::OUT_OF_MEMORY;
    };
    let fresh = HeldFilter {
        pointer: pointer_to(filter),
    };
    let made = match Box::new(alloc, fresh) {
        Ok(made) => made,
        Err(failed) => {
            let HeldFilter { pointer } = failed.value;
            let _ = pointer.into_raw_box().into_box();
            return numbers::OUT_OF_MEMORY;
        }
    };
    *handle = FilterHandle::of(RawBox::of(made));
    numbers::OK
}

/// Returns the boxed filter of an object that C holds and leaves a null pointer in the object.
fn take_filter(alloc: Global, pointer: &mut FilterPointer) -> Box<Filter>
    requires { is_some pointer.old.filter ≡ true }
    ensures { Some result.value ≡ pointer.old.filter }
{
    replace(pointer, FilterPointer::none(alloc))
        .into_raw_box()
        .into_box()
}

/// Converts a boxed filter to the pointer that an object of C stores.
fn pointer_to(filter: Box<Filter>) -> FilterPointer
    ensures { result.filter ≡ Some filter.value }
{
    FilterPointer::of(RawBox::of(filter))
}

/// Stores in `matches` whether a filter matches a packet, and returns the status for C: 0, or 2 if `entry`, the number
/// of the packet's first header, is above 3.
fn match_one(
    filter: &Filter,
    entry: u32,
    ether_type: u16,
    bytes: &[u8],
    wire_len: u32,
    matches: &mut u8,
) -> u32
    ensures { IsMatchAnswer filter.now (entry_of entry ether_type) bytes.now wire_len matches.new result }
{
    let Some(entry) = entry_of(entry, ether_type) else {
        *matches = 0;
        return numbers::UNKNOWN_CHOICE;
    };
    let mut packet = LaxSlicedPacket::new();
    *matches = matches_packet(filter, &mut packet, entry, bytes, wire_len);
    numbers::OK
}

/// Matches consecutive packets, each with an element of `matches`, and returns the status for C: 0, or 2 if a
/// packet's end is less than its start or greater than the length of `bytes`. Adds the number of matched packets to
/// `matched`, which is 0.
fn match_many(
    filter: &Filter,
    entry: Entry,
    bytes: &[u8],
    ends: &[usize],
    wire_lens: &[u32],
    matches: &mut [u8],
    matched: &mut usize,
) -> u32
    requires fit { length ends.now ≤ length matches.old }
    requires none { matched.old ≡ 0 }
    ensures { IsManyMatchedFrom filter.now (Some entry) bytes.now ends.now wire_lens.now matches.old matches.new
        matched.new result }
{
    let mut packet = LaxSlicedPacket::new();
    let mut start = 0;
    'frames: for (index, end) in ends.iter().enumerate() {
        let end = *end;
        if end < start || bytes.len() < end {
            return numbers::UNKNOWN_CHOICE;
        }
        let frame = &bytes[start..end];
        let wire_len = wire_len_at(wire_lens, index, frame.len());
        matches[index] = matches_packet(filter, &mut packet, entry, frame, wire_len);
        *matched = index + 1;
        start = end;
    }
    numbers::OK
}

/// Returns 1 if a filter matches a packet, else 0. `packet` is overwritten with the packet's layers; after an error of
/// the first header it has none.
fn matches_packet<'a>(
    filter: &Filter,
    packet: &mut LaxSlicedPacket<'a>,
    entry: Entry,
    bytes: &'a [u8],
    wire_len: u32,
) -> u8
    ensures { IsMatch filter.now entry bytes.now wire_len result }
{
    let _ = packet.slice_into(entry, bytes);
    u8::from(filter.matches(packet, bytes, wire_len))
}

/// Returns the original length of the packet at an index: its element of `wire_lens`, or `len`, the number of its bytes
/// (at most 2^32 - 1), if there is none.
fn wire_len_at(wire_lens: &[u32], index: usize, len: usize) -> u32
    ensures { result ≡ wire_len_of (slice_get wire_lens.now index) len }
{
    match wire_lens.get(index) {
        Some(wire_len) => *wire_len,
        None => u32::try_from(len).unwrap_or(u32::MAX),
    }
}

/// Returns the expression of a filter with a terminating zero byte.
fn terminated_text(alloc: Global, filter: &Filter) -> Result<Vec<u8>, AllocError>
    ensures { IfOk result (λ text. text.items ≡ printed (tree_of filter.now) ++ 0 ∷ []) }
{
    let mut text = Vec::new(alloc);
    filter.append_text(&mut text)?;
    text.push(0)?;
    Ok(text)
}

/// Copies a text and a terminating zero byte to the start of the caller's buffer and stores their length in `written`.
/// Returns status 0, or 3 if the buffer is too small; the buffer is then unchanged, and `written` is the needed length.
fn copy_text(text: &str, buffer: &mut [u8], written: &mut usize) -> u32
    ensures { IsPlaced (text.now ++ 0 ∷ []) buffer.old buffer.new written.new result }
{
    let text = text.as_bytes();
    *written = text.len() + 1;
    if buffer.len() <= text.len() {
        return numbers::TOO_SMALL;
    }
    buffer[..text.len()].copy_from_slice(text);
    buffer[text.len()] = 0;
    numbers::OK
}

/// Returns the error that C reads if there is none: all fields are 0.
fn no_filter_error() -> FilterError
    ensures { result ≡ no_filter_error }
{
    FilterError {
        kind: 0,
        start: 0,
        end: 0,
    }
}

/// Converts the error of a filter expression to the numbers that C gets.
fn filter_error_part(error: &packet_filter::FilterError) -> FilterError
    ensures { result ≡ filter_error_part error.now }
{
    FilterError {
        kind: kind_number(error.kind),
        start: error.start,
        end: error.end,
    }
}

/// Returns C's number of the reason for an error of a filter expression (`enum etherparse_filter_error_kind`), or 0 if
/// the reason is that an allocation failed.
fn kind_number(kind: FilterErrorKind) -> u32
    ensures { result ≡ kind_number kind }
{
    match kind {
        FilterErrorKind::Character => 1,
        FilterErrorKind::Arithmetic => 2,
        FilterErrorKind::NotTaken => 3,
        FilterErrorKind::End => 4,
        FilterErrorKind::Misplaced => 5,
        FilterErrorKind::Unqualified => 6,
        FilterErrorKind::Unknown => 7,
        FilterErrorKind::NotAnAddress => 8,
        FilterErrorKind::NotANetwork => 9,
        FilterErrorKind::NotAStation => 10,
        FilterErrorKind::NotAPort => 11,
        FilterErrorKind::NotARange => 12,
        FilterErrorKind::NotAProtocol => 13,
        FilterErrorKind::NotAnEtherType => 14,
        FilterErrorKind::NotAVlan => 15,
        FilterErrorKind::NotANumber => 16,
        FilterErrorKind::NotASize => 17,
        FilterErrorKind::WrongFamily => 18,
        FilterErrorKind::NotALength => 19,
        FilterErrorKind::NotAMask => 20,
        FilterErrorKind::HostBits => 21,
        FilterErrorKind::NetOnly => 22,
        FilterErrorKind::Deep => 23,
        FilterErrorKind::Long => 24,
        FilterErrorKind::Memory => 0,
    }
}

/// Converts C's number of a reason (1 to 24: all but invalid UTF-8) to the reason, or returns `None` for other numbers.
fn kind_of_number(number: u32) -> Option<FilterErrorKind>
    ensures { result ≡ kind_of_number number }
{
    match number {
        1 => Some(FilterErrorKind::Character),
        2 => Some(FilterErrorKind::Arithmetic),
        3 => Some(FilterErrorKind::NotTaken),
        4 => Some(FilterErrorKind::End),
        5 => Some(FilterErrorKind::Misplaced),
        6 => Some(FilterErrorKind::Unqualified),
        7 => Some(FilterErrorKind::Unknown),
        8 => Some(FilterErrorKind::NotAnAddress),
        9 => Some(FilterErrorKind::NotANetwork),
        10 => Some(FilterErrorKind::NotAStation),
        11 => Some(FilterErrorKind::NotAPort),
        12 => Some(FilterErrorKind::NotARange),
        13 => Some(FilterErrorKind::NotAProtocol),
        14 => Some(FilterErrorKind::NotAnEtherType),
        15 => Some(FilterErrorKind::NotAVlan),
        16 => Some(FilterErrorKind::NotANumber),
        17 => Some(FilterErrorKind::NotASize),
        18 => Some(FilterErrorKind::WrongFamily),
        19 => Some(FilterErrorKind::NotALength),
        20 => Some(FilterErrorKind::NotAMask),
        21 => Some(FilterErrorKind::HostBits),
        22 => Some(FilterErrorKind::NetOnly),
        23 => Some(FilterErrorKind::Deep),
        24 => Some(FilterErrorKind::Long),
        _ => None,
    }
}
