//! TCP segments (RFC 9293, 3.1) as slices of their bytes, parsed without copying.

ghost use Rattle.std.specs.Prelude.{◌≡◌, ◌*◌, ◌≤◌, length};
ghost use Rattle.ep_transport.specs.Tcp.{data_offset_of};

use crate::pseudo_header;
use crate::tcp_header::TcpHeader;
use crate::tcp_options::TcpOptions;
use crate::tcp_options_iterator::TcpOptionsIterator;
use ep_base::checksum::Sum16BitWords;
use ep_base::err::tcp::{HeaderError, HeaderSliceError};
use ep_base::err::{Layer, LenError, ValueTooBigError, ValueType};
use ep_base::{IpNumber, LenSource};

/// Bytes of a TCP segment with a complete header, and the length of that header in bytes, which is 4 times the data
/// offset.
#[derive(Clone, Copy, Debug, PartialEq, Eq)]
struct SegmentBytes<'a> {
    slice: &'a [u8],
    header_len: usize,
    ghost words: { 5 ≤ data_offset_of slice.now },
    ghost len: { header_len ≡ 4 * data_offset_of slice.now },
    ghost most: { header_len ≤ 60 },
    ghost whole: { 4 * data_offset_of slice.now ≤ length slice.now },
}

/// TCP segment (RFC 9293), header and payload, as a slice of its bytes. Fields are read from the slice on access.
#[derive(Clone, Debug, PartialEq, Eq, Drop)]
pub struct TcpSlice<'a> {
    bytes: SegmentBytes<'a>,
}

impl<'a> TcpSlice<'a> {
    ghost use Rattle.std.specs.Prelude.{◌≡◌, ◌≤◌, ◌%◌, ◌++◌, IfOk, IfErr, IsOkAnd, MatchResult, None, List, ℕ, [], length};
    ghost use Rattle.ep_base.specs.Checksum.{ones_sum, checksum_of};
    ghost use Rattle.ep_transport.specs.PseudoHeaders.{tcp_bytes_without_checksum, segment_checksum_ipv4, segment_checksum_ipv6, segment_length_rows_ipv4, segment_length_rows_ipv6};
    ghost use Rattle.ep_base.specs.Tables.{Parts, Refuses, first_row};
    ghost use Rattle.ep_transport.specs.declared.tcp_header.TcpHeader.{TcpHeader};
    ghost use Rattle.ep_transport.specs.Tcp.{IsTcp, RefusesTcp};
    ghost use Rattle.ep_transport.specs.TcpOptionSteps.{options_left};
    ghost use Rattle.ep_transport.specs.TcpSlices.{tcp_slice_bytes, tcp_slice_header, tcp_slice_header_bytes, tcp_slice_header_len, tcp_slice_payload, tcp_slice_parts};

    /// Parses the slice as a TCP segment, header and payload. Fails if the header is incomplete, or its data offset is
    /// below 5.
    pub fn from_slice(slice: &'a [u8]) -> Result<TcpSlice<'a>, HeaderSliceError>
        ensures ok { IfOk result (λ segment. (left : List ℕ) × (slice.now ≡ tcp_slice_bytes segment ++ left)
            × IsTcp slice.now (tcp_slice_parts segment)) }
        ensures only { (segment : Parts TcpHeader) → IsTcp slice.now segment
            → IsOkAnd result (λ shown. tcp_slice_parts shown ≡ segment) }
        ensures err { IfErr result (RefusesTcp slice.now) }
    {
        if slice.len() < TcpHeader::MIN_LEN {
            return Err(HeaderSliceError::Len(LenError::at_start(
                TcpHeader::MIN_LEN,
                slice.len(),
                LenSource::Slice,
                Layer::TcpHeader,
            )));
        }
        let data_offset = slice[12] >> 4;
        if data_offset < 5 {
            return Err(HeaderSliceError::Content(HeaderError::DataOffsetTooSmall { data_offset }));
        }
        let header_len = data_offset as usize * 4;
        if slice.len() < header_len {
            return Err(HeaderSliceError::Len(LenError::at_start(
                header_len,
                slice.len(),
                LenSource::Slice,
                Layer::TcpHeader,
            )));
        }
        Ok(TcpSlice {
            bytes: SegmentBytes { slice, header_len },
        })
    }

    /// Bytes of the TCP segment, header and payload.
    #[inline]
    pub fn slice(&self) -> &'a [u8]
        ensures { result.now ≡ tcp_slice_bytes self.now }
    {
        self.bytes.slice
    }

    /// Bytes of the TCP header with its options.
    #[inline]
    pub fn header_slice(&self) -> &'a [u8]
        ensures { result.now ≡ tcp_slice_header_bytes self.now }
    {
        &self.bytes.slice[..self.bytes.header_len]
    }

    /// Payload of the TCP segment, the bytes after the header with its options.
    #[inline]
    pub fn payload(&self) -> &'a [u8]
        ensures { result.now ≡ tcp_slice_payload self.now }
    {
        &self.bytes.slice[self.bytes.header_len..]
    }

    /// Length of the TCP header with its options in bytes, 20 to 60.
    #[inline]
    pub const fn header_len(&self) -> usize
        ensures { result ≡ tcp_slice_header_len self.now }
    {
        self.bytes.header_len
    }

    /// TCP source port, bytes 0 and 1 of the header.
    #[inline]
    pub fn source_port(&self) -> u16
        ensures { result ≡ (tcp_slice_header self.now).source_port }
    {
        u16::from_be_bytes([self.bytes.slice[0], self.bytes.slice[1]])
    }

    /// TCP destination port, bytes 2 and 3 of the header.
    #[inline]
    pub fn destination_port(&self) -> u16
        ensures { result ≡ (tcp_slice_header self.now).destination_port }
    {
        u16::from_be_bytes([self.bytes.slice[2], self.bytes.slice[3]])
    }

    /// Sequence number of the TCP segment, bytes 4 to 7 of the header: that of the first payload byte, or the initial
    /// sequence number if SYN is set.
    #[inline]
    pub fn sequence_number(&self) -> u32
        ensures { result ≡ (tcp_slice_header self.now).sequence_number }
    {
        let slice = self.bytes.slice;
        u32::from_be_bytes([slice[4], slice[5], slice[6], slice[7]])
    }

    /// Acknowledgment number of the TCP header, bytes 8 to 11: next sequence number that the sender expects. It is
    /// valid if ACK is set.
    #[inline]
    pub fn acknowledgment_number(&self) -> u32
        ensures { result ≡ (tcp_slice_header self.now).acknowledgment_number }
    {
        let slice = self.bytes.slice;
        u32::from_be_bytes([slice[8], slice[9], slice[10], slice[11]])
    }

    /// Data offset of the TCP header: length of the header with its options in units of 4 bytes, upper 4 bits of byte
    /// 12; 5 to 15.
    #[inline]
    pub fn data_offset(&self) -> u8
        ensures { result ≡ data_offset_of (tcp_slice_bytes self.now) }
    {
        self.bytes.slice[12] >> 4
    }

    /// TCP flag NS: nonce sum of explicit congestion notification (RFC 3540), byte 12, bit 0 (0x01).
    #[inline]
    pub fn ns(&self) -> bool
        ensures { result ≡ (tcp_slice_header self.now).ns }
    {
        self.bytes.slice[12] & 1 == 1
    }

    /// TCP flag FIN: no more data from the sender, byte 13, bit 0 (0x01).
    #[inline]
    pub fn fin(&self) -> bool
        ensures { result ≡ (tcp_slice_header self.now).fin }
    {
        self.bytes.slice[13] & 1 == 1
    }

    /// TCP flag SYN: synchronize sequence numbers, byte 13, bit 1 (0x02).
    #[inline]
    pub fn syn(&self) -> bool
        ensures { result ≡ (tcp_slice_header self.now).syn }
    {
        (self.bytes.slice[13] >> 1) & 1 == 1
    }

    /// TCP flag RST: reset the connection, byte 13, bit 2 (0x04).
    #[inline]
    pub fn rst(&self) -> bool
        ensures { result ≡ (tcp_slice_header self.now).rst }
    {
        (self.bytes.slice[13] >> 2) & 1 == 1
    }

    /// TCP flag PSH: push buffered data to the application, byte 13, bit 3 (0x08).
    #[inline]
    pub fn psh(&self) -> bool
        ensures { result ≡ (tcp_slice_header self.now).psh }
    {
        (self.bytes.slice[13] >> 3) & 1 == 1
    }

    /// TCP flag ACK: the acknowledgment number is valid, byte 13, bit 4 (0x10).
    #[inline]
    pub fn ack(&self) -> bool
        ensures { result ≡ (tcp_slice_header self.now).ack }
    {
        (self.bytes.slice[13] >> 4) & 1 == 1
    }

    /// TCP flag URG: the urgent pointer is valid, byte 13, bit 5 (0x20).
    #[inline]
    pub fn urg(&self) -> bool
        ensures { result ≡ (tcp_slice_header self.now).urg }
    {
        (self.bytes.slice[13] >> 5) & 1 == 1
    }

    /// TCP flag ECE: ECN-Echo, congestion was reported (RFC 3168), byte 13, bit 6 (0x40).
    #[inline]
    pub fn ece(&self) -> bool
        ensures { result ≡ (tcp_slice_header self.now).ece }
    {
        (self.bytes.slice[13] >> 6) & 1 == 1
    }

    /// TCP flag CWR: congestion window reduced (RFC 3168), byte 13, bit 7 (0x80).
    #[inline]
    pub fn cwr(&self) -> bool
        ensures { result ≡ (tcp_slice_header self.now).cwr }
    {
        (self.bytes.slice[13] >> 7) & 1 == 1
    }

    /// Window of the TCP header, bytes 14 and 15: number of bytes that the sender is willing to accept, before window
    /// scaling.
    #[inline]
    pub fn window_size(&self) -> u16
        ensures { result ≡ (tcp_slice_header self.now).window_size }
    {
        u16::from_be_bytes([self.bytes.slice[14], self.bytes.slice[15]])
    }

    /// Checksum of the TCP segment, bytes 16 and 17 of the header. It is not verified.
    #[inline]
    pub fn checksum(&self) -> u16
        ensures { result ≡ (tcp_slice_header self.now).checksum }
    {
        u16::from_be_bytes([self.bytes.slice[16], self.bytes.slice[17]])
    }

    /// Urgent pointer of the TCP header, bytes 18 and 19: end of the urgent data relative to the sequence number. It is
    /// valid if URG is set.
    #[inline]
    pub fn urgent_pointer(&self) -> u16
        ensures { result ≡ (tcp_slice_header self.now).urgent_pointer }
    {
        u16::from_be_bytes([self.bytes.slice[18], self.bytes.slice[19]])
    }

    /// Options of the TCP header as bytes, from byte 20 to the end of the header; empty if there are none.
    #[inline]
    pub fn options(&self) -> &'a [u8]
        ensures value { result.now ≡ (tcp_slice_header self.now).options }
        ensures bound { length result.now ≤ 40 }
        ensures words { length result.now % 4 ≡ 0 }
    {
        &self.bytes.slice[TcpHeader::MIN_LEN..self.bytes.header_len]
    }

    /// Returns an iterator that parses the options of the TCP header one by one.
    #[inline]
    pub fn options_iterator(&self) -> TcpOptionsIterator<'a>
        ensures { options_left result ≡ (tcp_slice_header self.now).options }
    {
        TcpOptionsIterator::from_slice(self.options())
    }

    /// Decodes the header of the TCP segment with its options into an owned header.
    pub fn to_header(&self) -> TcpHeader
        ensures { result ≡ tcp_slice_header self.now }
    {
        TcpHeader {
            source_port: self.source_port(),
            destination_port: self.destination_port(),
            sequence_number: self.sequence_number(),
            acknowledgment_number: self.acknowledgment_number(),
            ns: self.ns(),
            fin: self.fin(),
            syn: self.syn(),
            rst: self.rst(),
            psh: self.psh(),
            ack: self.ack(),
            urg: self.urg(),
            ece: self.ece(),
            cwr: self.cwr(),
            window_size: self.window_size(),
            checksum: self.checksum(),
            urgent_pointer: self.urgent_pointer(),
            options: TcpOptions::copy_of(self.options()),
        }
    }

    /// Decodes the header of the TCP segment with its options, and overwrites the fields of `place` one by one. Unlike
    /// assigning the result of `to_header`, this copies no complete header.
    #[inline]
    pub fn header_into(&self, place: &mut TcpHeader)
        ensures { place.new ≡ tcp_slice_header self.now }
    {
        place.source_port = self.source_port();
        place.destination_port = self.destination_port();
        place.sequence_number = self.sequence_number();
        place.acknowledgment_number = self.acknowledgment_number();
        place.ns = self.ns();
        place.fin = self.fin();
        place.syn = self.syn();
        place.rst = self.rst();
        place.psh = self.psh();
        place.ack = self.ack();
        place.urg = self.urg();
        place.ece = self.ece();
        place.cwr = self.cwr();
        place.window_size = self.window_size();
        place.checksum = self.checksum();
        place.urgent_pointer = self.urgent_pointer();
        place.options.fill(self.options());
    }

    /// Computes the checksum of the TCP segment sent from the IPv4 address `source` to `destination`; the checksum in
    /// the segment is ignored. Fails if the segment is above 65535 bytes.
    pub fn calc_checksum_ipv4(
        &self,
        source: [u8; 4],
        destination: [u8; 4],
    ) -> Result<u16, ValueTooBigError<usize>>
        ensures { MatchResult result
            (λ sum. (first_row (segment_length_rows_ipv4 (tcp_slice_bytes self.now)) ≡ None)
            × (sum ≡ segment_checksum_ipv4 source destination (tcp_slice_bytes self.now)))
            (Refuses (segment_length_rows_ipv4 (tcp_slice_bytes self.now))) }
    {
        let bytes = self.bytes.slice;
        pseudo_header::check_len(bytes, u16::MAX as usize, ValueType::TcpPayloadLengthIpv4)?;
        let sum = pseudo_header::sum_ipv4(source, destination, IpNumber::TCP, bytes.len() as u16);
        Ok(self.checksum_with_pseudo_header(&sum))
    }

    /// Computes the checksum of the TCP segment sent from the IPv6 address `source` to `destination`; the checksum in
    /// the segment is ignored. Fails if the segment is above 4294967295 bytes.
    pub fn calc_checksum_ipv6(
        &self,
        source: [u8; 16],
        destination: [u8; 16],
    ) -> Result<u16, ValueTooBigError<usize>>
        ensures { MatchResult result
            (λ sum. (first_row (segment_length_rows_ipv6 (tcp_slice_bytes self.now)) ≡ None)
            × (sum ≡ segment_checksum_ipv6 source destination (tcp_slice_bytes self.now)))
            (Refuses (segment_length_rows_ipv6 (tcp_slice_bytes self.now))) }
    {
        let bytes = self.bytes.slice;
        pseudo_header::check_len(bytes, u32::MAX as usize, ValueType::TcpPayloadLengthIpv6)?;
        let sum = pseudo_header::sum_ipv6(source, destination, IpNumber::TCP, bytes.len() as u32);
        Ok(self.checksum_with_pseudo_header(&sum))
    }

    /// Computes the checksum of the TCP segment, given the sum of its pseudo header; the checksum in the segment is
    /// ignored.
    fn checksum_with_pseudo_header(&self, pseudo_header: &Sum16BitWords) -> u16
        ensures { (pseudo : List ℕ) → length pseudo % 2 ≡ 0 → pseudo_header.now ≡ ones_sum pseudo
            → result ≡ checksum_of (pseudo ++ tcp_bytes_without_checksum (tcp_slice_bytes self.now)) }
    {
        pseudo_header
            .add_slice(&self.bytes.slice[..16])
            .add_2bytes([0, 0])
            .add_slice(&self.bytes.slice[18..])
            .ones_complement()
    }
}
