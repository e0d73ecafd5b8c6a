//! Tests of TCP options, which are parsed and written as elements or as raw bytes.

use crate::tests::checks::{same, shows};
use ep_transport::{
    TcpHeader, TcpOptionElement, TcpOptionReadError, TcpOptionWriteError, TcpOptions,
    TcpOptionsIterator,
};
use std::process::Abort;

fn plain_header() -> TcpHeader {
    TcpHeader::new(21, 12, 12345, 4000)
}

#[test]
fn raw_options_too_long(rt: HostRuntime) {
    let mut header = plain_header();
    let error = TcpOptionWriteError::NotEnoughSpace(41);
    shows(&rt, rt.alloc(), &error, "NotEnoughSpace 41");
    same(&rt, &header.set_options_raw(&[1; 41]), &Err(error));
    same(&rt, &header, &plain_header());
}

#[test]
fn raw_options_are_padded(rt: HostRuntime) {
    let mut header = plain_header();
    same(&rt, &header.set_options_raw(b"\x01"), &Ok(()));
    same(&rt, &header.data_offset(), &6);
    same(
        &rt,
        &header.options.as_slice(),
        &b"\x01\x00\x00\x00".as_slice(),
    );
    same(
        &rt,
        &TcpOptions::try_from_slice(b"\x01"),
        &Ok(header.options),
    );
}

#[test]
fn elements_are_read(rt: HostRuntime) {
    let bytes = b"\x01\x01\x01\x01\x08\x0a\x04\x16\x10\x08\x84\x16\x17\x08\x00\x00";
    let mut options = TcpOptionsIterator::from_slice(bytes);
    for _ in 0..4 {
        same(&rt, &options.next(), &Some(Ok(TcpOptionElement::Noop)));
    }
    let times = TcpOptionElement::Timestamp(0x04161008, 0x84161708);
    same(&rt, &options.next(), &Some(Ok(times)));
    same(&rt, &options.next(), &None);
}

/// Parses TCP options and asserts that the first option is rejected with the given error, after which the iterator has
/// ended and no bytes are left.
fn refuses_first(rt: &impl Abort, bytes: &[u8], error: TcpOptionReadError) {
    let mut options = TcpOptionsIterator::from_slice(bytes);
    same(rt, &options.next(), &Some(Err(error)));
    same(rt, &options.next(), &None);
    same(rt, &options.rest().len(), &0);
}

fn unexpected_end(option_id: u8, expected_len: u8, actual_len: usize) -> TcpOptionReadError {
    TcpOptionReadError::UnexpectedEndOfSlice {
        option_id,
        expected_len,
        actual_len,
    }
}

fn unexpected_size(option_id: u8, size: u8) -> TcpOptionReadError {
    TcpOptionReadError::UnexpectedSize { option_id, size }
}

#[test]
fn elements_are_refused(rt: HostRuntime) {
    let unknown = TcpOptionReadError::UnknownId(254);
    let rows: [(&[u8], TcpOptionReadError, &str); 7] = [
        (
            b"\x02",
            unexpected_end(2, 4, 1),
            "UnexpectedEndOfSlice 2 4 1",
        ),
        (
            b"\x02\x03\x05\xb4",
            unexpected_size(2, 3),
            "UnexpectedSize 2 3",
        ),
        (b"\xfe", unknown, "UnknownId 254"),
        (
            b"\x05",
            unexpected_end(5, 2, 1),
            "UnexpectedEndOfSlice 5 2 1",
        ),
        (
            b"\x05\x0b\x00\x00",
            unexpected_size(5, 11),
            "UnexpectedSize 5 11",
        ),
        (
            b"\x05\x0a\x00\x00",
            unexpected_end(5, 10, 4),
            "UnexpectedEndOfSlice 5 10 4",
        ),
        (
            b"\x08\x0a",
            unexpected_end(8, 10, 2),
            "UnexpectedEndOfSlice 8 10 2",
        ),
    ];
    for (bytes, error, text) in rows {
        shows(&rt, rt.alloc(), &error, text);
        refuses_first(&rt, bytes, error);
    }
}

#[test]
fn nothing_is_read_after_an_error(rt: HostRuntime) {
    let mut options = TcpOptionsIterator::from_slice(b"\x01\xfe\x01");
    same(&rt, &options.next(), &Some(Ok(TcpOptionElement::Noop)));
    let unknown = TcpOptionReadError::UnknownId(254);
    same(&rt, &options.next(), &Some(Err(unknown)));
    same(&rt, &options.next(), &None);
}

#[test]
fn elements_are_written(rt: HostRuntime) {
    let mut header = plain_header();
    let set = header.set_options(&[
        TcpOptionElement::MaximumSegmentSize(1460),
        TcpOptionElement::SelectiveAcknowledgementPermitted,
        TcpOptionElement::Timestamp(1, 0x01020304),
        TcpOptionElement::Noop,
        TcpOptionElement::WindowScale(7),
    ]);
    same(&rt, &set, &Ok(()));
    let bytes = b"\x02\x04\x05\xb4\x04\x02\x08\x0a\x00\x00\x00\x01\x01\x02\x03\x04\x01\x03\x03\x07";
    same(&rt, &header.options.as_slice(), &bytes.as_slice());
}

/// Returns a TCP SACK option whose optional blocks have a gap: the second block is missing, the third is present.
fn gap() -> TcpOptionElement {
    TcpOptionElement::SelectiveAcknowledgement((1, 2), [None, Some((3, 4)), None])
}

#[test]
fn gaps_are_closed(rt: HostRuntime) {
    let mut header = plain_header();
    let set = header.set_options(&[gap(), TcpOptionElement::Noop]);
    same(&rt, &set, &Ok(()));
    let bytes = b"\x05\x12\x00\x00\x00\x01\x00\x00\x00\x02\x00\x00\x00\x03\x00\x00\x00\x04\x01\x00";
    same(&rt, &header.options.as_slice(), &bytes.as_slice());
    let without_gap = TcpOptionElement::SelectiveAcknowledgement(
        (1, 2),
        [Some((3, 4)), None, None],
    );
    let mut options = header.options.elements_iter();
    same(&rt, &options.next(), &Some(Ok(without_gap)));
    same(&rt, &options.next(), &Some(Ok(TcpOptionElement::Noop)));
    same(&rt, &options.next(), &None);
}

/// Returns a TCP SACK option of the maximum length: 34 bytes, with four blocks.
fn full() -> TcpOptionElement {
    TcpOptionElement::SelectiveAcknowledgement((1, 2), [Some((3, 4)), Some((5, 6)), Some((7, 8))])
}

#[test]
fn longest_element(rt: HostRuntime) {
    let mut header = plain_header();
    same(&rt, &header.set_options(&[full()]), &Ok(()));
    same(&rt, &header.data_offset(), &14);
    same(
        &rt,
        &header.options.elements_iter().next(),
        &Some(Ok(full())),
    );
}

#[test]
fn elements_too_long(rt: HostRuntime) {
    let mut header = plain_header();
    let refused = header.set_options(&[full(), gap()]);
    same(&rt, &refused, &Err(TcpOptionWriteError::NotEnoughSpace(52)));
    same(&rt, &header, &plain_header());
}
