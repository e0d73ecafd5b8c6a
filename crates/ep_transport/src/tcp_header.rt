//! TCP header (RFC 9293, 3.1) as an owned value.

ghost use Rattle.std.specs.Prelude.{◌≡◌, ◌+◌, ◌-◌, ◌^◌, ◌<◌, ◌≤◌, ◌%◌, ◌++◌, length, min, IfOk, IfErr, OnOk, OnErr, IsOkAnd, MatchResult, None, List, ℕ, [], vec_len, vec_capacity};
ghost use Rattle.ep_base.specs.Checksum.{ones_sum, checksum_of};
ghost use Rattle.ep_transport.specs.PseudoHeaders.{tcp_message, tcp_checksum_ipv4, tcp_checksum_ipv6, tcp_length_rows_ipv4, tcp_length_rows_ipv6};
ghost use Rattle.std.specs.List.{All};
ghost use Rattle.ep_base.specs.Bytes.{bit};
ghost use Rattle.ep_base.specs.Tables.{Parts, parts_of, Refuses, first_row};
ghost use Rattle.ep_transport.specs.Tcp.{IsTcp, RefusesTcp, tcp_bytes, tcp_header_len, tcp_data_offset, tcp_flags, default_tcp_header};
ghost use Rattle.ep_transport.specs.declared.tcp_options.TcpOptionWriteError.TheVariants.{NotEnoughSpace};
ghost use Rattle.ep_transport.specs.TcpOptionBytes.{FitsOption, in_words, options_bytes};

use crate::pseudo_header;
use crate::tcp_option_element::TcpOptionElement;
use crate::tcp_options::{TcpOptionWriteError, TcpOptions};
use crate::tcp_slice::TcpSlice;
use arrayvec::ArrayVec;
use ep_base::IpNumber;
use ep_base::checksum::Sum16BitWords;
use ep_base::err::tcp::HeaderSliceError;
use ep_base::err::{ValueTooBigError, ValueType};
use ep_ip::{Ipv4Header, Ipv6Header};
use std::alloc::AllocError;

/// TCP header with its options (RFC 9293, 3.1) as an owned value; 20 to 60 bytes on the wire.
#[derive(Clone, Debug, PartialEq, Eq, Default, Drop)]
pub struct TcpHeader {
    /// TCP source port, bytes 0 and 1 of the header.
    pub source_port: u16,
    /// TCP destination port, bytes 2 and 3 of the header.
    pub destination_port: u16,
    /// Sequence number of a TCP segment, bytes 4 to 7 of the header: that of the first payload byte, or the initial
    /// sequence number if SYN is set.
    pub sequence_number: u32,
    /// Acknowledgment number of a TCP header, bytes 8 to 11: next sequence number that the sender expects. It is valid
    /// if ACK is set.
    pub acknowledgment_number: u32,
    /// TCP flag NS: nonce sum of explicit congestion notification (RFC 3540), byte 12, bit 0 (0x01).
    pub ns: bool,
    /// TCP flag FIN: no more data from the sender, byte 13, bit 0 (0x01).
    pub fin: bool,
    /// TCP flag SYN: synchronize sequence numbers, byte 13, bit 1 (0x02).
    pub syn: bool,
    /// TCP flag RST: reset the connection, byte 13, bit 2 (0x04).
    pub rst: bool,
    /// TCP flag PSH: push buffered data to the application, byte 13, bit 3 (0x08).
    pub psh: bool,
    /// TCP flag ACK: the acknowledgment number is valid, byte 13, bit 4 (0x10).
    pub ack: bool,
    /// TCP flag URG: the urgent pointer is valid, byte 13, bit 5 (0x20).
    pub urg: bool,
    /// TCP flag ECE: ECN-Echo, congestion was reported (RFC 3168), byte 13, bit 6 (0x40).
    pub ece: bool,
    /// TCP flag CWR: congestion window reduced (RFC 3168), byte 13, bit 7 (0x80).
    pub cwr: bool,
    /// Window of a TCP header, bytes 14 and 15: number of bytes that the sender is willing to accept, before window
    /// scaling.
    pub window_size: u16,
    /// Checksum of a TCP segment, bytes 16 and 17 of the header.
    pub checksum: u16,
    /// Urgent pointer of a TCP header, bytes 18 and 19: end of the urgent data relative to the sequence number. It is
    /// valid if URG is set.
    pub urgent_pointer: u16,
    /// Options of a TCP header, from byte 20 to the end of the header.
    pub options: TcpOptions,
}

impl TcpHeader {
    /// Length of a TCP header without options in bytes: 20.
    pub const MIN_LEN: usize = 20;

    /// Maximum length of a TCP header with options in bytes: 60.
    pub const MAX_LEN: usize = 60;

    /// Creates a TCP header with the given ports, sequence number and window. All other fields are 0, false or empty.
    pub fn new(
        source_port: u16,
        destination_port: u16,
        sequence_number: u32,
        window_size: u16,
    ) -> TcpHeader
        ensures { result ≡ record default_tcp_header {
          source_port = source_port;
          destination_port = destination_port;
          sequence_number = sequence_number;
          window_size = window_size;
        } }
    {
        TcpHeader {
            source_port,
            destination_port,
            sequence_number,
            window_size,
            ..Default::default()
        }
    }

    /// Parses the TCP header with its options at the start of the slice, and returns it with the bytes after it, the
    /// payload.
    pub fn from_slice(slice: &[u8]) -> Result<(TcpHeader, &[u8]), HeaderSliceError>
        ensures ok { IfOk result (λ read. IsTcp slice.now (parts_of read.0 read.1.now [])) }
        ensures only { (segment : Parts TcpHeader) → IsTcp slice.now segment
            → IsOkAnd result (λ read. parts_of read.0 read.1.now [] ≡ segment) }
        ensures err { IfErr result (RefusesTcp slice.now) }
    {
        let segment = TcpSlice::from_slice(slice)?;
        Ok((segment.to_header(), segment.payload()))
    }

    /// Length of the TCP header with its options in bytes, 20 to 60.
    #[inline]
    pub fn header_len(&self) -> usize
        ensures value { result ≡ tcp_header_len self.now }
        ensures bound { result ≤ 60 }
        ensures words { result % 4 ≡ 0 }
    {
        TcpHeader::MIN_LEN + self.options.len()
    }

    /// Data offset of the TCP header: length of the header with its options in units of 4 bytes, 5 to 15.
    #[inline]
    pub fn data_offset(&self) -> u8
        ensures value { result ≡ tcp_data_offset self.now }
        ensures bound { result ≤ 15 }
    {
        (self.header_len() / 4) as u8
    }

    /// Encodes `options`, pads them with zero bytes to a multiple of 4, and sets them as the options of the TCP header.
    /// Fails if they exceed 40 bytes; the header is then unchanged. Parsing reads the options back, except that in a
    /// selective acknowledgment, present blocks are moved before absent ones (`laws::tcp_options_read_back`).
    pub fn set_options(&mut self, options: &[TcpOptionElement]) -> Result<(), TcpOptionWriteError>
        ensures value { MatchResult result
            (λ _. (length (options_bytes options.now) ≤ 40)
            × (self.new ≡ record self.old { options = in_words (options_bytes options.now) }))
            (λ error. (40 < length (options_bytes options.now)) × (self.new ≡ self.old)
            × (error ≡ NotEnoughSpace (min (length (options_bytes options.now)) (2 ^ 64 - 1)))) }
        ensures fits { All FitsOption options.now }
    {
        self.options.set_elements(options)
    }

    /// Sets the options of the TCP header to these encoded bytes, padded with zero bytes to a multiple of 4. They are
    /// not parsed. Fails if there are more than 40; the header is then unchanged.
    pub fn set_options_raw(&mut self, options: &[u8]) -> Result<(), TcpOptionWriteError>
        ensures { MatchResult result
            (λ _. (length options.now ≤ 40) × (self.new ≡ record self.old { options = in_words options.now }))
            (λ error. (40 < length options.now) × (self.new ≡ self.old)
            × (error ≡ NotEnoughSpace (length options.now))) }
    {
        self.options = TcpOptions::try_from_slice(options)?;
        Ok(())
    }

    /// Returns the wire bytes of the TCP header with its options. The checksum is written as `checksum` contains it; it
    /// is not computed.
    #[inline]
    pub fn to_bytes(&self) -> ArrayVec<u8, 60>
        ensures { result.items ≡ tcp_bytes self.now }
    {
        let mut bytes = ArrayVec::new();
        bytes
            .try_extend_from_slice(&self.fixed_bytes(self.checksum))
            .unwrap();
        bytes
            .try_extend_from_slice(self.options.as_slice())
            .unwrap();
        bytes
    }

    /// Appends the wire bytes of the TCP header with its options to the buffer; the checksum is written as `checksum`
    /// contains it. Fails only if the buffer has to grow and the allocation fails; the buffer's content is then
    /// unchanged.
    pub fn write(&self, buf: &mut Vec<u8>) -> Result<(), AllocError>
        ensures ok { OnOk result (buf.new.items ≡ buf.old.items ++ tcp_bytes self.now) }
        ensures err { OnErr result (buf.new.items ≡ buf.old.items) }
        ensures full { OnErr result (vec_capacity buf.old < vec_len buf.old + length (tcp_bytes self.now)) }
        ensures capacity { vec_capacity buf.old ≤ vec_capacity buf.new }
    {
        let fixed = self.fixed_bytes(self.checksum);
        let options = self.options.as_slice();
        buf.reserve(fixed.len() + options.len())?;
        buf.extend_from_slice(&fixed).unwrap();
        // Many headers have no options; skipping the copy saves a call.
        if !options.is_empty() {
            buf.extend_from_slice(options).unwrap();
        }
        Ok(())
    }

    /// Computes the checksum of the TCP segment (this header and `payload`) in a packet with the IPv4 header
    /// `ip_header`; the content of `checksum` is ignored. Fails if header and payload together exceed 65535 bytes.
    pub fn calc_checksum_ipv4(
        &self,
        ip_header: &Ipv4Header,
        payload: &[u8],
    ) -> Result<u16, ValueTooBigError<usize>>
        ensures { MatchResult result
            (λ sum. (first_row (tcp_length_rows_ipv4 self.now payload.now) ≡ None)
            × (sum ≡ tcp_checksum_ipv4 ip_header.now.source ip_header.now.destination self.now payload.now))
            (Refuses (tcp_length_rows_ipv4 self.now payload.now)) }
    {
        self.calc_checksum_ipv4_raw(ip_header.source, ip_header.destination, payload)
    }

    /// Computes the checksum of the TCP segment (this header and `payload`) sent from the IPv4 address `source` to
    /// `destination`; the content of `checksum` is ignored. Fails if header and payload together exceed 65535 bytes.
    pub fn calc_checksum_ipv4_raw(
        &self,
        source: [u8; 4],
        destination: [u8; 4],
        payload: &[u8],
    ) -> Result<u16, ValueTooBigError<usize>>
        ensures { MatchResult result
            (λ sum. (first_row (tcp_length_rows_ipv4 self.now payload.now) ≡ None)
            × (sum ≡ tcp_checksum_ipv4 source destination self.now payload.now))
            (Refuses (tcp_length_rows_ipv4 self.now payload.now)) }
    {
        let max_allowed = u16::MAX as usize - self.header_len();
        pseudo_header::check_len(payload, max_allowed, ValueType::TcpPayloadLengthIpv4)?;
        let len = (self.header_len() + payload.len()) as u16;
        let sum = pseudo_header::sum_ipv4(source, destination, IpNumber::TCP, len);
        Ok(self.checksum_with_pseudo_header(&sum, payload))
    }

    /// Computes the checksum of the TCP segment (this header and `payload`) in a packet with the IPv6 header
    /// `ip_header`; the content of `checksum` is ignored. Fails if header and payload together exceed 4294967295 bytes.
    pub fn calc_checksum_ipv6(
        &self,
        ip_header: &Ipv6Header,
        payload: &[u8],
    ) -> Result<u16, ValueTooBigError<usize>>
        ensures { MatchResult result
            (λ sum. (first_row (tcp_length_rows_ipv6 self.now payload.now) ≡ None)
            × (sum ≡ tcp_checksum_ipv6 ip_header.now.source ip_header.now.destination self.now payload.now))
            (Refuses (tcp_length_rows_ipv6 self.now payload.now)) }
    {
        self.calc_checksum_ipv6_raw(ip_header.source, ip_header.destination, payload)
    }

    /// Computes the checksum of the TCP segment (this header and `payload`) sent from the IPv6 address `source` to
    /// `destination`; the content of `checksum` is ignored. Fails if header and payload together exceed 4294967295
    /// bytes.
    pub fn calc_checksum_ipv6_raw(
        &self,
        source: [u8; 16],
        destination: [u8; 16],
        payload: &[u8],
    ) -> Result<u16, ValueTooBigError<usize>>
        ensures { MatchResult result
            (λ sum. (first_row (tcp_length_rows_ipv6 self.now payload.now) ≡ None)
            × (sum ≡ tcp_checksum_ipv6 source destination self.now payload.now))
            (Refuses (tcp_length_rows_ipv6 self.now payload.now)) }
    {
        let max_allowed = u32::MAX as usize - self.header_len();
        pseudo_header::check_len(payload, max_allowed, ValueType::TcpPayloadLengthIpv6)?;
        let len = (self.header_len() + payload.len()) as u32;
        let sum = pseudo_header::sum_ipv6(source, destination, IpNumber::TCP, len);
        Ok(self.checksum_with_pseudo_header(&sum, payload))
    }

    /// Computes the checksum of the TCP segment (this header and `payload`), given the sum of its pseudo header.
    fn checksum_with_pseudo_header(&self, pseudo_header: &Sum16BitWords, payload: &[u8]) -> u16
        ensures { (pseudo : List ℕ) → length pseudo % 2 ≡ 0 → pseudo_header.now ≡ ones_sum pseudo
            → result ≡ checksum_of (pseudo ++ tcp_message self.now payload.now) }
    {
        pseudo_header
            .add_slice(&self.fixed_bytes(0))
            .add_slice(self.options.as_slice())
            .add_slice(payload)
            .ones_complement()
    }

    /// Returns the first 20 wire bytes of the TCP header (all but the options), with the argument as the checksum.
    fn fixed_bytes(&self, checksum: u16) -> [u8; 20]
        ensures bytes { result ++ self.now.options ≡ tcp_bytes (record self.now { checksum = checksum }) }
        ensures len { length result ≡ 20 }
    {
        let source_port = self.source_port.to_be_bytes();
        let destination_port = self.destination_port.to_be_bytes();
        let sequence_number = self.sequence_number.to_be_bytes();
        let acknowledgment_number = self.acknowledgment_number.to_be_bytes();
        let window_size = self.window_size.to_be_bytes();
        let checksum = checksum.to_be_bytes();
        let urgent_pointer = self.urgent_pointer.to_be_bytes();
        [
            source_port[0],
            source_port[1],
            destination_port[0],
            destination_port[1],
            sequence_number[0],
            sequence_number[1],
            sequence_number[2],
            sequence_number[3],
            acknowledgment_number[0],
            acknowledgment_number[1],
            acknowledgment_number[2],
            acknowledgment_number[3],
            self.data_offset() * 16 + flag(self.ns),
            self.flags(),
            window_size[0],
            window_size[1],
            checksum[0],
            checksum[1],
            urgent_pointer[0],
            urgent_pointer[1],
        ]
    }

    /// Byte 13 of the TCP header: the flags CWR, ECE, URG, ACK, PSH, RST, SYN and FIN, from the highest bit to the
    /// lowest.
    #[inline]
    fn flags(&self) -> u8
        ensures { result ≡ tcp_flags self.now }
    {
        let upper = flag(self.cwr) * 8 + flag(self.ece) * 4 + flag(self.urg) * 2 + flag(self.ack);
        let lower = flag(self.psh) * 8 + flag(self.rst) * 4 + flag(self.syn) * 2 + flag(self.fin);
        upper * 16 + lower
    }
}

/// Converts a TCP flag to a bit: 1 if it is set, else 0.
#[inline]
fn flag(value: bool) -> u8
    ensures value { result ≡ bit value }
    ensures bound { result ≤ 1 }
{
    value as u8
}
