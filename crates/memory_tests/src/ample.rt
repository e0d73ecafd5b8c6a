//! Tests with 1,200 streams or fragments at once, with 2 MB or the longest filter expression, of a packet that a capture
//! reader returns before it reads it, and of the texts of filters. The script `refuse.py`, which makes each allocation of
//! a test fail in a run of its own, skips them: most of them would need thousands of runs.

use crate::checks::*;
use crate::runs::fragment;
use crate::samples::*;
use crate::spare::*;
use capture_reader::{Advance, CaptureError, CaptureReader, Refusal};
use etherparse::defrag::*;
use etherparse::*;
use packet_filter::Filter;
use std::process::Abort;

/// Pcap capture of two packets of 1 and 2 bytes, and the record header of a third packet of 4 bytes.
const CAPTURE: [u8; 75] = [
    0xd4, 0xc3, 0xb2, 0xa1, 2, 0, 4, 0, 0, 0, 0, 0, 0, 0, 0, 0, 0, 0, 4, 0, 1, 0, 0, 0, 1, 0, 0, 0,
    0, 0, 0, 0, 1, 0, 0, 0, 1, 0, 0, 0, 7, 2, 0, 0, 0, 0, 0, 0, 0, 2, 0, 0, 0, 2, 0, 0, 0, 8, 9, 3,
    0, 0, 0, 0, 0, 0, 0, 4, 0, 0, 0, 4, 0, 0, 0,
];

/// Passes the final fragment of the datagram `identification` to the reassembly pool, asserts that it completes the
/// payload, and gives the payload back.
fn ends(rt: &(impl Abort + Print), pool: &mut Pool, identification: u16) {
    let last = fragment(rt, 1, false, b"ijkl");
    let reassembled = answer(rt, pool, identification, &last).expect(rt, "whole");
    same(
        rt,
        &reassembled.payload.as_slice(),
        &b"abcdefghijkl".as_slice(),
    );
    pool.return_buf(reassembled);
}

/// Tests a reassembly pool with 1,200 incomplete datagrams at once. Then all of them are completed.
#[test]
fn streams(rt: HostRuntime) {
    let mut pool = IpDefragPool::new(rt.alloc());
    for identification in 0..1200 {
        begins(&rt, &mut pool, identification, b"abcdefgh");
    }
    for identification in 0..1200 {
        ends(&rt, &mut pool, identification);
    }
}

/// Tests a list of 1,200 fragments of one payload, added to a reassembly buffer by one call.
#[test]
fn fragments(rt: HostRuntime) {
    let mut fragments = Vec::new(rt.alloc());
    for units in 0..1200 {
        let added = fragments.push(fragment(&rt, units, true, b"abcdefgh"));
        added.expect(&rt, "refused");
    }
    let added = add_all(
        rt.alloc(),
        IpNumber::UDP,
        Vec::new(rt.alloc()),
        Vec::new(rt.alloc()),
        fragments.as_slice(),
    );
    let (buffer, answers) = added.expect(&rt, "refused");
    same(&rt, &answers.len(), &1200);
    same(&rt, &buffer.data().len(), &9600);
}

/// Tests capture readers that are passed 2 MB of a capture at once, as a slice or in exchange for the reader's buffer.
#[test]
fn chunk(rt: HostRuntime) {
    let mut chunk = vec![in rt.alloc(); 0; 2_000_000].expect(&rt, "refused");
    let mut reader = CaptureReader::new(rt.alloc());
    same(&rt, &reader.take(chunk.as_slice()), &Ok(()));
    same(&rt, &reader.taken(), &2_000_000);
    let mut exchanging = CaptureReader::new(rt.alloc());
    same(&rt, &exchanging.exchange(&mut chunk, 0, 2_000_000), &Ok(()));
    same(&rt, &exchanging.taken(), &2_000_000);
}

/// Tests a packet that a capture reader returns before it reads it, and that the reader goes on after it.
#[test]
fn packet_ahead(rt: HostRuntime) {
    let mut reader = CaptureReader::new(rt.alloc());
    same(&rt, &reader.take(CAPTURE.as_slice()), &Ok(()));
    same(&rt, &reader.advance(), &Ok(Advance::Other));
    same(&rt, &reader.advance(), &Ok(Advance::Packet));
    let mut ahead = 0;
    let packet = reader.next_packet(&mut ahead).expect(&rt, "no packet");
    same(&rt, &packet.bytes, &[8, 9].as_slice());
    reader.advance_past(ahead);
    let refusal = Refusal::Cut {
        required_len: 20,
        len: 16,
    };
    let cut = CaptureError {
        offset: 59,
        refusal,
    };
    same(&rt, &reader.advance(), &Ok(Advance::Cut(cut)));
}

/// Tests a filter expression of 65,536 bytes with 13,107 ports, and one with a byte more.
#[test]
fn longest_filter(rt: HostRuntime) {
    let mut text = String::from_str(rt.alloc(), "port 1").expect(&rt, "refused");
    for _ in 0..13_106 {
        text.push_str(" or 2").expect(&rt, "refused");
    }
    let filter = Filter::parse(rt.alloc(), text.as_str()).expect(&rt, "no filter");
    same(&rt, &filter.steps().len(), &26_213);
    text.push_str(" ").expect(&rt, "refused");
    let long = Filter::parse(rt.alloc(), text.as_str())
        .err()
        .expect(&rt, "a filter");
    same(&rt, &(long.start, long.end), &(65_536, 65_537));
}

/// Tests the text of a filter and of an error.
#[test]
fn filter_texts(rt: HostRuntime) {
    let filter = Filter::parse(rt.alloc(), "tcp port http or arp").expect(&rt, "no filter");
    let text = format!(in rt.alloc(); "{filter}").expect(&rt, "refused");
    same(
        &rt,
        &text.as_str(),
        &"tcp src or dst port 80 or ether proto 0x0806",
    );
    let error = Filter::parse(rt.alloc(), "tcp port x")
        .err()
        .expect(&rt, "a filter");
    let text = format!(in rt.alloc(); "{error}").expect(&rt, "refused");
    same(
        &rt,
        &text.as_str(),
        &"at byte 9: not a port (a number up to 65535, or a name such as http)",
    );
}
