//! Tests of ICMPv4 and ICMPv6 headers, their lengths and checksums.

use crate::tests::checks::{full, is_written, same};
use ep_transport::icmpv4::TimestampMessage;
use ep_transport::{
    IcmpEchoHeader, Icmpv4Header, Icmpv4Slice, Icmpv4Type, Icmpv6Header, Icmpv6Slice, Icmpv6Type,
    Layer, LenError, LenSource, TransportHeader,
};
use std::process::Abort;

/// An ICMPv4 timestamp request (type 13), 20 bytes, with a valid checksum.
const TIMESTAMP: &[u8] =
    b"\x0d\x00\xce\xd2\x00\x01\x00\x02\x01\x02\x03\x04\x05\x06\x07\x08\x09\x0a\x0b\x0c";

/// An ICMPv4 timestamp reply (type 14), 20 bytes, with the times of the request `TIMESTAMP`. Its type is greater by
/// one, so the upper byte of its checksum is smaller by one.
const REPLY: &[u8] =
    b"\x0e\x00\xcd\xd2\x00\x01\x00\x02\x01\x02\x03\x04\x05\x06\x07\x08\x09\x0a\x0b\x0c";

fn times() -> TimestampMessage {
    TimestampMessage {
        id: 1,
        seq: 2,
        originate_timestamp: 0x01020304,
        receive_timestamp: 0x05060708,
        transmit_timestamp: 0x090a0b0c,
    }
}

fn echo() -> IcmpEchoHeader {
    IcmpEchoHeader { id: 123, seq: 456 }
}

#[test]
fn reads_a_timestamp(rt: HostRuntime) {
    let message = Icmpv4Slice::from_slice(TIMESTAMP).expect(&rt, "refused");
    same(
        &rt,
        &message.icmp_type(),
        &Icmpv4Type::TimestampRequest(times()),
    );
    same(&rt, &message.payload().len(), &0);
}

/// Returns the length of the ICMPv4 header that is parsed from `len` bytes, all zero but for the ICMP type, or the
/// error.
fn header_len(type_u8: u8, len: usize) -> Result<usize, LenError> {
    let mut bytes = [0; 24];
    bytes[0] = type_u8;
    let read = Icmpv4Slice::from_slice(bytes.get(..len).unwrap_or(b""));
    read.map(|message| message.header_len())
}

#[test]
fn lengths_of_timestamps(rt: HostRuntime) {
    let refusal = |len, layer| Err(LenError::at_start(20, len, LenSource::Slice, layer));
    let short = LenError::at_start(8, 7, LenSource::Slice, Layer::Icmpv4);
    for (type_u8, len, shown) in [
        (13, 7, Err(short)),
        (13, 8, refusal(8, Layer::Icmpv4Timestamp)),
        (13, 12, refusal(12, Layer::Icmpv4Timestamp)),
        (13, 19, refusal(19, Layer::Icmpv4Timestamp)),
        (13, 20, Ok(20)),
        (13, 21, refusal(21, Layer::Icmpv4Timestamp)),
        (14, 8, refusal(8, Layer::Icmpv4TimestampReply)),
        (14, 20, Ok(20)),
        (14, 24, refusal(24, Layer::Icmpv4TimestampReply)),
        (15, 8, Ok(8)),
        (15, 24, Ok(8)),
    ] {
        same(&rt, &header_len(type_u8, len), &shown);
    }
}

#[test]
fn refuses_short_icmpv6(rt: HostRuntime) {
    let short = LenError::at_start(8, 7, LenSource::Slice, Layer::Icmpv6);
    same(&rt, &Icmpv6Slice::from_slice(&[13; 7]).err(), &Some(short));
}

#[test]
fn writes_a_reply(rt: HostRuntime) {
    let mut header = Icmpv4Header::new(Icmpv4Type::TimestampReply(times()));
    header.update_checksum(&[]);
    let mut buf = full(&rt, rt.alloc());
    let written = header.write(&mut buf).is_ok();
    is_written(&rt, written, &buf, REPLY);
    let (read, rest) = Icmpv4Header::from_slice(REPLY).expect(&rt, "refused");
    same(&rt, &(&read, rest), &(&header, b"".as_slice()));
    let mut buf = full(&rt, rt.alloc());
    let written = TransportHeader::Icmpv4(read).write(&mut buf).is_ok();
    is_written(&rt, written, &buf, REPLY);
}

#[test]
fn checksum_of_icmpv4(rt: HostRuntime) {
    let mut header = Icmpv4Header::new(Icmpv4Type::EchoRequest(echo()));
    header.update_checksum(b"\x01\x02\x03\x04\x05\x06\x07\x08");
    same(&rt, &header.checksum, &0xe5a8);
    // the old value of the checksum field is not summed
    header.update_checksum(b"\x01\x02\x03\x04\x05\x06\x07\x08");
    same(&rt, &header.checksum, &0xe5a8);
}

/// Returns an ICMPv6 echo request with its checksum for the given payload, from the address of the bytes 1 to 16 to the
/// address of the bytes 21 to 36.
fn summed(rt: &impl Abort, payload: &[u8]) -> Icmpv6Header {
    let source = [1, 2, 3, 4, 5, 6, 7, 8, 9, 10, 11, 12, 13, 14, 15, 16];
    let destination = [
        21, 22, 23, 24, 25, 26, 27, 28, 29, 30, 31, 32, 33, 34, 35, 36,
    ];
    let mut header = Icmpv6Header::new(Icmpv6Type::EchoRequest(echo()));
    header
        .update_checksum(source, destination, payload)
        .expect(rt, "refused");
    header
}

#[test]
fn checksums_of_icmpv6(rt: HostRuntime) {
    let header = summed(&rt, b"\x01\x02\x03\x04\x05\x06\x07\x08");
    same(&rt, &header.checksum, &0x4c2d);
    let header = summed(&rt, b"\x01\x02\x03\x04\x05\x06\x07\x08\x09");
    let mut buf = full(&rt, rt.alloc());
    let written = header.write(&mut buf).is_ok();
    is_written(&rt, written, &buf, b"\x80\x00\x43\x2c\x00\x7b\x01\xc8");
    let read = Icmpv6Header::from_slice(b"\x80\x00\x43\x2c\x00\x7b\x01\xc8\xab");
    same(&rt, &read, &Ok((header, b"\xab".as_slice())));
}
