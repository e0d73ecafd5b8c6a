//! Tests that follow those of the Rust crate etherparse, with values of our own. They test calls that are otherwise
//! covered by contracts only.

use crate::defrag::*;
use crate::err::ip::HeadersWriteError;
use crate::err::packet::BuildWriteError;
use crate::err::{ValueTooBigError, ValueType, ipv4_exts, ipv6_exts};
use crate::tests::checks::{same, shows};
use crate::tests::defrag::names::*;
use crate::tests::samples::*;
use crate::*;
use std::alloc::Global;
use std::hash::{DefaultHasher, Hash, Hasher};
use std::process::Abort;

/// Asserts that two byte ranges (start, end) of a reassembly buffer merge into `merged`, or don't merge if it is
/// `None`, in either order.
fn merges(rt: &impl Abort, a: (u16, u16), b: (u16, u16), merged: Option<(u16, u16)>) {
    let range = |(start, end): (u16, u16)| IpFragRange { start, end };
    let (a, b, merged) = (range(a), range(b), merged.map(range));
    same(rt, &(a.merge(b), b.merge(a)), &(merged, merged));
}

#[test]
fn merged_ranges(rt: HostRuntime) {
    merges(&rt, (0, 1), (1, 2), Some((0, 2)));
    merges(&rt, (0, 1), (2, 3), None);
    merges(&rt, (3, 7), (1, 2), None);
    for end in 3..8 {
        merges(&rt, (3, 7), (1, end), Some((1, 7)));
    }
    merges(&rt, (3, 7), (1, 8), Some((1, 8)));
    // ranges whose end is before their start
    merges(&rt, (5, 2), (2, 6), Some((2, 6)));
    merges(&rt, (5, 2), (3, 3), None);
    merges(&rt, (5, 2), (5, 2), None);
}

/// Returns a fragment offset in units of 8 bytes. Aborts the test if `units` is above 8191.
fn offset(rt: &impl Abort, units: u16) -> IpFragOffset {
    IpFragOffset::try_new(units).expect(rt, "above 8191")
}

#[test]
fn texts_of_refused_fragments(rt: HostRuntime) {
    let alloc = rt.alloc();
    let error = IpDefragError::UnalignedFragmentPayloadLen {
        offset: offset(&rt, 3),
        payload_len: 5,
    };
    let text = "Payload length 5 of IP fragment (offset 3) is not a multiple of 8. \
         This is only allowed for the last fragment packet.";
    shows(&rt, alloc, &error, text);
    let error = IpDefragError::SegmentTooBig {
        offset: offset(&rt, 6),
        payload_len: 65488,
        max: 65535,
    };
    let text = "Overall length of IP fragment (offset 6, payload len: 65488) \
         bigger then the maximum allowed size of 65535.";
    shows(&rt, alloc, &error, text);
    let error = IpDefragError::ConflictingEnd {
        previous_end: 48,
        conflicting_end: 64,
    };
    let text = "Received a IP fragment (offset + len: 64) which conflicts a package that \
         previously set the end to 48.";
    shows(&rt, alloc, &error, text);
    let error = IpDefragError::AllocationFailure { len: 24 };
    let text = "Failed to allocate 24 bytes of memory to reconstruct the fragmented IP packets.";
    shows(&rt, alloc, &error, text);
}

/// A reassembly buffer rejects fragments of 1 to 7 bytes that are not the last one, and stays empty.
#[test]
fn unaligned_by_each_length(rt: HostRuntime) {
    let alloc = rt.alloc();
    let mut buffer = IpDefragBuf::new(IpNumber::UDP, Vec::new(alloc), Vec::new(alloc));
    for payload_len in 1..8usize {
        let offset = offset(&rt, 6);
        let bytes = PAYLOAD.get(..payload_len).unwrap_or(b"");
        let refusal = IpDefragError::UnalignedFragmentPayloadLen {
            offset,
            payload_len,
        };
        same(&rt, &buffer.add(offset, true, bytes), &Err(refusal));
    }
    same(&rt, &(buffer.data().len(), buffer.end()), &(0, None));
}

const EXTS_4: ipv4_exts::ExtsWalkError = ipv4_exts::ExtsWalkError::ExtNotReferenced {
    missing_ext: IpNumber(51),
};

const EXTS_6: ipv6_exts::ExtsWalkError = ipv6_exts::ExtsWalkError::HopByHopNotAtStart;

/// Asserts what three accessors of an error of writing IP headers return. `shown` has one value for each: whether it
/// has to report the error. They are, in this order: out of memory, IPv4 extension headers, IPv6 extension headers.
fn shows_headers_error(rt: &impl Abort, error: &HeadersWriteError, shown: [bool; 3]) {
    let [of_memory, of_ipv4, of_ipv6] = shown;
    same(rt, &error.is_out_of_memory(), &of_memory);
    same(rt, &error.ipv4_exts(), &of_ipv4.then_some(&EXTS_4));
    same(rt, &error.ipv6_exts(), &of_ipv6.then_some(&EXTS_6));
}

#[test]
fn accessors_of_headers_errors(rt: HostRuntime) {
    let memory = HeadersWriteError::OutOfMemory;
    shows_headers_error(&rt, &memory, [true, false, false]);
    let ipv4 = HeadersWriteError::Ipv4Exts(EXTS_4);
    shows_headers_error(&rt, &ipv4, [false, true, false]);
    let ipv6 = HeadersWriteError::Ipv6Exts(EXTS_6);
    shows_headers_error(&rt, &ipv6, [false, false, true]);
}

/// Error of a payload of 65,536 bytes, which does not fit the IPv6 payload length field.
const TOO_LONG: ValueTooBigError<usize> = ValueTooBigError {
    actual: 65536,
    max_allowed: 65535,
    value_type: ValueType::Ipv6PayloadLength,
};

/// Asserts what five accessors of a builder error return. `shown` has one value for each: whether it has to report the
/// error. They are, in this order: out of memory, payload length, IPv4 extension headers, IPv6 extension headers,
/// ICMPv6 in IPv4.
fn shows_build_error(rt: &impl Abort, error: &BuildWriteError, shown: [bool; 5]) {
    let [of_memory, of_length, of_ipv4, of_ipv6, of_icmp] = shown;
    same(rt, &error.is_out_of_memory(), &of_memory);
    same(rt, &error.payload_len(), &of_length.then_some(&TOO_LONG));
    same(rt, &error.ipv4_exts(), &of_ipv4.then_some(&EXTS_4));
    same(rt, &error.ipv6_exts(), &of_ipv6.then_some(&EXTS_6));
    same(rt, &error.is_icmpv6_in_ipv4(), &of_icmp);
}

#[test]
fn accessors_of_build_errors(rt: HostRuntime) {
    let (yes, no) = (true, false);
    let memory = BuildWriteError::OutOfMemory;
    shows_build_error(&rt, &memory, [yes, no, no, no, no]);
    let length = BuildWriteError::PayloadLen(TOO_LONG);
    shows_build_error(&rt, &length, [no, yes, no, no, no]);
    let ipv4 = BuildWriteError::Ipv4Exts(EXTS_4);
    shows_build_error(&rt, &ipv4, [no, no, yes, no, no]);
    let ipv6 = BuildWriteError::Ipv6Exts(EXTS_6);
    shows_build_error(&rt, &ipv6, [no, no, no, yes, no]);
    shows_build_error(&rt, &BuildWriteError::Icmpv6InIpv4, [no, no, no, no, yes]);
    shows_build_error(&rt, &BuildWriteError::ArpHeaderNotMatch, [no; 5]);
}

/// Payload that tests split into three fragments.
const LETTERS: &[u8] = b"abcdefghijklmnopqrstuvwxyz";

/// Asserts that a reassembly pool completes a payload from three fragments of 8, 16 and 2 bytes, in this order, with
/// this length source.
fn completes(rt: &impl Abort, alloc: Global, stream: Stream, len_source: LenSource) {
    let mut pool = IpDefragPool::new(alloc);
    let first = answer_to(rt, alloc, &mut pool, stream, (0, 1), &LETTERS[..8]);
    let second = answer_to(rt, alloc, &mut pool, stream, (1, 1), &LETTERS[8..24]);
    same(rt, &(first, second), &(Ok(None), Ok(None)));
    let last = answer_to(rt, alloc, &mut pool, stream, (3, 0), &LETTERS[24..]);
    let completed_payload = last.expect(rt, "refused").expect(rt, "not whole");
    same(rt, &completed_payload.payload.as_slice(), &LETTERS);
    let named = (completed_payload.ip_number, completed_payload.len_source);
    same(rt, &named, &(IpNumber::UDP, len_source));
}

#[test]
fn streams_after_tags(rt: HostRuntime) {
    let (alloc, ipv4) = (rt.alloc(), LenSource::Ipv4HeaderTotalLen);
    completes(&rt, alloc, (4, b"", 1, 17), ipv4);
    completes(&rt, alloc, (4, TAG, 1, 17), ipv4);
    completes(&rt, alloc, (4, TAGS, 1, 17), ipv4);
    let ipv6 = LenSource::Ipv6HeaderPayloadLen;
    completes(&rt, alloc, (6, b"", 1, 17), ipv6);
    completes(&rt, alloc, (6, TAG, 1, 17), ipv6);
    completes(&rt, alloc, (6, TAGS, 1, 17), ipv6);
}

/// Asserts that a reassembly pool stores nothing of a rejected first fragment (7 bytes): a valid final fragment after
/// it completes nothing.
fn refuses_first(rt: &impl Abort, alloc: Global, stream: Stream) {
    let mut pool = IpDefragPool::new(alloc);
    let refused = answer_to(rt, alloc, &mut pool, stream, (0, 1), b"abcdefg");
    let refusal = IpDefragError::UnalignedFragmentPayloadLen {
        offset: IpFragOffset::ZERO,
        payload_len: 7,
    };
    let last = answer_to(rt, alloc, &mut pool, stream, (1, 0), b"i");
    same(rt, &(refused, last), &(Err(refusal), Ok(None)));
}

#[test]
fn refused_first_fragments(rt: HostRuntime) {
    refuses_first(&rt, rt.alloc(), (4, b"", 1, 17));
    refuses_first(&rt, rt.alloc(), (6, b"", 1, 17));
}

#[test]
fn packet_without_layers(rt: HostRuntime) {
    let mut pool = IpDefragPool::new(rt.alloc());
    let answer = pool.process_sliced_packet(&SlicedPacket::new(), 1u64, 0u8);
    same(&rt, &answer, &Ok(None));
}

/// An IPv4 fragment with an authentication header and the first 8 bytes of a payload of 16 bytes; `AUTHENTICATED_LAST`
/// has the last 8.
const AUTHENTICATED_FIRST: &[u8] =
    b"\x45\x00\x00\x28\x00\x07\x20\x00\x40\x33\x00\x00\xc0\xa8\x01\x01\xc0\xa8\x01\x02\
      \x11\x01\x00\x00\x00\x00\x00\x02\x00\x00\x00\x03abcdefgh";

const AUTHENTICATED_LAST: &[u8] =
    b"\x45\x00\x00\x28\x00\x07\x00\x01\x40\x33\x00\x00\xc0\xa8\x01\x01\xc0\xa8\x01\x02\
      \x11\x01\x00\x00\x00\x00\x00\x02\x00\x00\x00\x03ijklmnop";

/// An IPv4 fragment at offset 8 whose protocol is 51 (authentication header), but which has only 8 bytes of payload and
/// no such header.
const NOT_AUTHENTICATED: &[u8] =
    b"\x45\x00\x00\x1c\x00\x08\x00\x01\x40\x33\x00\x00\xc0\xa8\x01\x01\xc0\xa8\x01\x02ijklmnop";

#[test]
fn authenticated_fragments(rt: HostRuntime) {
    let mut pool = IpDefragPool::new(rt.alloc());
    let first = SlicedPacket::from_ip(AUTHENTICATED_FIRST).expect(&rt, "refused");
    same(
        &rt,
        &pool.process_sliced_packet(&first, 1u64, 0u8),
        &Ok(None),
    );
    let last = SlicedPacket::from_ip(AUTHENTICATED_LAST).expect(&rt, "refused");
    let answer = pool.process_sliced_packet(&last, 1, 0);
    same(
        &rt,
        &completed_payload(&answer),
        &b"abcdefghijklmnop".as_slice(),
    );
    let refused = SlicedPacket::from_ip(NOT_AUTHENTICATED).err();
    let text = "IpAuthHeader: 12 bytes needed, 8 there (limit Ipv4HeaderTotalLen, offset 20)";
    shows(&rt, rt.alloc(), &refused.expect(&rt, "accepted"), text);
}

/// Returns what seven accessors report of owned network headers: whether they are IP, IPv4, IPv6 and ARP, and whether
/// an IPv4, IPv6 and ARP header can be borrowed.
fn kinds_of_headers(net: &NetHeaders) -> [bool; 7] {
    let headers = (net.ipv4_ref().is_some(), net.ipv6_ref().is_some());
    [
        net.is_ip(),
        net.is_ipv4(),
        net.is_ipv6(),
        net.is_arp(),
        headers.0,
        headers.1,
        net.arp_ref().is_some(),
    ]
}

/// Expected results of seven accessors (`is_ip`, `is_ipv4`, `is_ipv6`, `is_arp`, `ipv4_ref`, `ipv6_ref` and `arp_ref`)
/// for an IPv4, an IPv6 and an ARP packet.
const KINDS: [[bool; 7]; 3] = [
    [true, true, false, false, true, false, false],
    [true, false, true, false, false, true, false],
    [false, false, false, true, false, false, true],
];

#[test]
fn kinds_of_net_headers(rt: HostRuntime) {
    let ipv4 = NetHeaders::Ipv4(Ipv4Header::default(), Ipv4Extensions::default());
    same(&rt, &kinds_of_headers(&ipv4), &KINDS[0]);
    let ipv6 = NetHeaders::Ipv6(Ipv6Header::default(), Ipv6Extensions::default());
    same(&rt, &kinds_of_headers(&ipv6), &KINDS[1]);
    let arp = NetHeaders::Arp(arp_request(&rt));
    same(&rt, &kinds_of_headers(&arp), &KINDS[2]);
}

/// Returns what seven accessors report of a network slice: whether it is IP, IPv4, IPv6 and ARP, and whether an IPv4,
/// IPv6 and ARP slice can be borrowed.
fn kinds_of_slices(net: &NetSlice<'_>) -> [bool; 7] {
    let slices = (net.ipv4_ref().is_some(), net.ipv6_ref().is_some());
    [
        net.is_ip(),
        net.is_ipv4(),
        net.is_ipv6(),
        net.is_arp(),
        slices.0,
        slices.1,
        net.arp_ref().is_some(),
    ]
}

/// Returns the IP payload with bytes 1, 2, 3, 4 and IP protocol number 59, limited by `len_source`.
fn four_bytes(len_source: LenSource) -> IpPayloadSlice<'static> {
    IpPayloadSlice {
        ip_number: IpNumber(59),
        fragmented: false,
        len_source,
        payload: &[1, 2, 3, 4],
    }
}

#[test]
fn kinds_of_net_slices(rt: HostRuntime) {
    let ipv4 = Ipv4Slice::from_slice(AUTHENTICATED).expect(&rt, "refused");
    let net = NetSlice::Ipv4(ipv4);
    same(&rt, &kinds_of_slices(&net), &KINDS[0]);
    let payload = four_bytes(LenSource::Ipv4HeaderTotalLen);
    same(&rt, &net.ip_payload_ref(), &Some(&payload));
    let ipv6 = Ipv6Slice::from_slice(OPEN_LENGTH).expect(&rt, "refused");
    let net = NetSlice::Ipv6(ipv6);
    same(&rt, &kinds_of_slices(&net), &KINDS[1]);
    let payload = four_bytes(LenSource::Slice);
    same(&rt, &net.ip_payload_ref(), &Some(&payload));
    let net = NetSlice::Arp(ArpPacketSlice::from_slice(ARP).expect(&rt, "refused"));
    same(&rt, &kinds_of_slices(&net), &KINDS[2]);
    same(&rt, &net.ip_payload_ref(), &None);
}

/// A TCP segment whose fields all have different values, with four bytes of options and two of payload.
const SEGMENT: &[u8] =
    b"\x01\x02\x03\x04\x05\x06\x07\x08\x09\x0a\x0b\x0c\x60\x00\x0d\x0e\x0f\x10\x11\x12\
    \x01\x03\x03\x07\xaa\xbb";

#[test]
fn parts_of_a_segment(rt: HostRuntime) {
    let segment = TcpSlice::from_slice(SEGMENT).expect(&rt, "refused");
    let ports = (segment.source_port(), segment.destination_port());
    same(&rt, &ports, &(0x0102, 0x0304));
    let numbers = (segment.sequence_number(), segment.acknowledgment_number());
    same(&rt, &numbers, &(0x0506_0708, 0x090a_0b0c));
    let lengths = (segment.data_offset(), segment.header_len());
    same(&rt, &lengths, &(6, 24));
    let rest = (
        segment.window_size(),
        segment.checksum(),
        segment.urgent_pointer(),
    );
    same(&rt, &rest, &(0x0d0e, 0x0f10, 0x1112));
    same(&rt, &segment.slice(), &SEGMENT);
    same(&rt, &segment.header_slice(), &&SEGMENT[..24]);
    same(&rt, &segment.options(), &&SEGMENT[20..24]);
    same(&rt, &segment.options_iterator().rest(), &&SEGMENT[20..24]);
    same(&rt, &segment.payload(), &&SEGMENT[24..]);
}

/// Asserts the nine flags of a TCP header, from FIN (lowest bit) to NS; `upper` and `lower` are its bytes 12 and 13.
fn has_flags(rt: &impl Abort, upper: u8, lower: u8, flags: [bool; 9]) {
    let mut bytes = [0; 20];
    bytes[12] = upper;
    bytes[13] = lower;
    let segment = TcpSlice::from_slice(&bytes).expect(rt, "refused");
    let shown = [
        segment.fin(),
        segment.syn(),
        segment.rst(),
        segment.psh(),
        segment.ack(),
        segment.urg(),
        segment.ece(),
        segment.cwr(),
        segment.ns(),
    ];
    same(rt, &shown, &flags);
}

/// Each of the nine TCP flags is reported if it is the only one set.
#[test]
fn flags_of_a_segment(rt: HostRuntime) {
    let (yes, no) = (true, false);
    has_flags(&rt, 0x50, 0x01, [yes, no, no, no, no, no, no, no, no]);
    has_flags(&rt, 0x50, 0x02, [no, yes, no, no, no, no, no, no, no]);
    has_flags(&rt, 0x50, 0x04, [no, no, yes, no, no, no, no, no, no]);
    has_flags(&rt, 0x50, 0x08, [no, no, no, yes, no, no, no, no, no]);
    has_flags(&rt, 0x50, 0x10, [no, no, no, no, yes, no, no, no, no]);
    has_flags(&rt, 0x50, 0x20, [no, no, no, no, no, yes, no, no, no]);
    has_flags(&rt, 0x50, 0x40, [no, no, no, no, no, no, yes, no, no]);
    has_flags(&rt, 0x50, 0x80, [no, no, no, no, no, no, no, yes, no]);
    has_flags(&rt, 0x51, 0x00, [no, no, no, no, no, no, no, no, yes]);
}

fn hash_of<T: Hash>(value: &T) -> u64 {
    let mut hasher = DefaultHasher::new();
    value.hash(&mut hasher);
    hasher.finish()
}

/// Equal fragment ranges, offsets, ether types and errors have equal hashes, however they were created.
#[test]
fn hashes_of_equal_values(rt: HostRuntime) {
    let range = |end| IpFragRange { start: 0, end };
    let merged = range(8).merge(range(16)).expect(&rt, "they overlap");
    same(&rt, &hash_of(&merged), &hash_of(&range(16)));
    let made = IpFragOffset::try_new(0).expect(&rt, "within 8191");
    same(&rt, &hash_of(&made), &hash_of(&IpFragOffset::ZERO));
    same(
        &rt,
        &hash_of(&EtherType(0x0800)),
        &hash_of(&EtherType::IPV4),
    );
    let read = SlicedPacket::from_ethernet(b"").err();
    let again = PacketHeaders::from_ethernet_slice(b"").err();
    same(
        &rt,
        &hash_of(&read.expect(&rt, "read")),
        &hash_of(&again.expect(&rt, "read")),
    );
}

/// Reassembly buffers with equal content are equal and have equal hashes, whatever their capacity.
#[test]
fn hashes_of_buffers(rt: HostRuntime) {
    let alloc = rt.alloc();
    let mut buffer = IpDefragBuf::new(IpNumber::UDP, Vec::new(alloc), Vec::new(alloc));
    let used = vec![in alloc; 7; 100].expect(&rt, "no memory");
    let mut other = IpDefragBuf::new(IpNumber::UDP, used, Vec::new(alloc));
    same(&rt, &buffer.add(IpFragOffset::ZERO, true, PAYLOAD), &Ok(()));
    same(&rt, &other.add(IpFragOffset::ZERO, true, PAYLOAD), &Ok(()));
    same(&rt, &buffer, &other);
    same(&rt, &hash_of(&buffer), &hash_of(&other));
}

/// The builder reports 42 bytes as the size of a frame of an Ethernet II header and an ARP packet.
#[test]
fn size_of_an_arp_frame(rt: HostRuntime) {
    let ethernet = PacketBuilder::ethernet2([1, 2, 3, 4, 5, 6], [7, 8, 9, 10, 11, 12]);
    same(&rt, &ethernet.arp(arp_request(&rt)).size(), &42);
}
