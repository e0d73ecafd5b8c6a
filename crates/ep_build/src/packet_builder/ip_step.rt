//! The builder of a frame whose innermost header is IP, which a transport header or a payload of another protocol can
//! follow.

ghost use Rattle.std.specs.Prelude.{◌≡◌, ◌+◌, ◌<◌, ◌≤◌, ◌^◌, ◌++◌, ℕ, List, length, Err, IfErr, OnOk, OnErr, vec_len, vec_capacity};
ghost use Rattle.ep_transport.specs.Tcp.{default_tcp_header};
ghost use Rattle.ep_transport.specs.declared.icmpv4_type.Icmpv4Type.TheVariants as v4;
ghost use Rattle.ep_transport.specs.declared.icmpv6_type.Icmpv6Type.TheVariants as v6;
ghost use Rattle.ep_transport.specs.declared.transport_header.TransportHeader.TheVariants as transport;
ghost use Rattle.ep_base.specs.declared.ip_number.IpNumber.{IpNumber};
ghost use Rattle.ep_build.specs.BuildErrors.{IsBuildable, IsBuildError};
ghost use Rattle.ep_build.specs.BuiltFrames.{built_frame, built_size};
ghost use Rattle.ep_build.specs.Placing.{FillsStart};
ghost use Rattle.ep_build.specs.Steps.{IpStepReadsBack, frame_after, ip_step_frame, ip_step_size, transport_step_frame};

use super::PacketBuilderStep;
use super::holds_headers::HoldsHeaders;
use crate::err::{BuildSliceWriteError, BuildWriteError};
use crate::facts::link_fits;
use crate::ip_part::IpPart;
use crate::link_part::LinkPart;
use crate::placing::place_ip_step;
use crate::writing::append_ip_step;
use ep_base::IpNumber;
use ep_packet::IpHeaders;
use ep_transport::{
    IcmpEchoHeader, Icmpv4Header, Icmpv4Type, Icmpv6Header, Icmpv6Type, TcpHeader, UdpHeader,
};

impl PacketBuilderStep<IpHeaders> {
    /// Appends an ICMPv4 header (RFC 792) of this type to the headers of the frame.
    #[inline(always)]
    pub fn icmpv4(self, icmp_type: Icmpv4Type) -> PacketBuilderStep<Icmpv4Header>
        ensures { transport_step_frame transport.Icmpv4 result
            ≡ frame_after self (transport.Icmpv4 (record { icmp_type = icmp_type; checksum = 0 })) }
    {
        self.followed_by(Icmpv4Header::new(icmp_type))
    }

    /// Appends an ICMPv4 header (RFC 792) with the given type, code and bytes 4 to 7 to the headers of the frame.
    #[inline(always)]
    pub fn icmpv4_raw(
        self,
        type_u8: u8,
        code_u8: u8,
        bytes5to8: [u8; 4],
    ) -> PacketBuilderStep<Icmpv4Header>
        ensures { transport_step_frame transport.Icmpv4 result ≡ frame_after self (transport.Icmpv4 (record {
          icmp_type = v4.Unknown type_u8 code_u8 bytes5to8;
          checksum = 0;
        })) }
    {
        self.icmpv4(Icmpv4Type::Unknown {
            type_u8,
            code_u8,
            bytes5to8,
        })
    }

    /// Appends an ICMPv4 echo request header (type 8) with this identifier and sequence number to the headers of the
    /// frame.
    #[inline(always)]
    pub fn icmpv4_echo_request(self, id: u16, seq: u16) -> PacketBuilderStep<Icmpv4Header>
        ensures { transport_step_frame transport.Icmpv4 result ≡ frame_after self (transport.Icmpv4 (record {
          icmp_type = v4.EchoRequest (record { id = id; seq = seq });
          checksum = 0;
        })) }
    {
        self.icmpv4(Icmpv4Type::EchoRequest(IcmpEchoHeader { id, seq }))
    }

    /// Appends an ICMPv4 echo reply header (type 0) with this identifier and sequence number to the headers of the
    /// frame.
    #[inline(always)]
    pub fn icmpv4_echo_reply(self, id: u16, seq: u16) -> PacketBuilderStep<Icmpv4Header>
        ensures { transport_step_frame transport.Icmpv4 result ≡ frame_after self (transport.Icmpv4 (record {
          icmp_type = v4.EchoReply (record { id = id; seq = seq });
          checksum = 0;
        })) }
    {
        self.icmpv4(Icmpv4Type::EchoReply(IcmpEchoHeader { id, seq }))
    }

    /// Appends an ICMPv6 header (RFC 4443) of this type to the headers of the frame.
    #[inline(always)]
    pub fn icmpv6(self, icmp_type: Icmpv6Type) -> PacketBuilderStep<Icmpv6Header>
        ensures { transport_step_frame transport.Icmpv6 result
            ≡ frame_after self (transport.Icmpv6 (record { icmp_type = icmp_type; checksum = 0 })) }
    {
        self.followed_by(Icmpv6Header::new(icmp_type))
    }

    /// Appends an ICMPv6 header (RFC 4443) with the given type, code and bytes 4 to 7 to the headers of the frame.
    #[inline(always)]
    pub fn icmpv6_raw(
        self,
        type_u8: u8,
        code_u8: u8,
        bytes5to8: [u8; 4],
    ) -> PacketBuilderStep<Icmpv6Header>
        ensures { transport_step_frame transport.Icmpv6 result ≡ frame_after self (transport.Icmpv6 (record {
          icmp_type = v6.Unknown type_u8 code_u8 bytes5to8;
          checksum = 0;
        })) }
    {
        self.icmpv6(Icmpv6Type::Unknown {
            type_u8,
            code_u8,
            bytes5to8,
        })
    }

    /// Appends an ICMPv6 echo request header (type 128) with this identifier and sequence number to the headers of the
    /// frame.
    #[inline(always)]
    pub fn icmpv6_echo_request(self, id: u16, seq: u16) -> PacketBuilderStep<Icmpv6Header>
        ensures { transport_step_frame transport.Icmpv6 result ≡ frame_after self (transport.Icmpv6 (record {
          icmp_type = v6.EchoRequest (record { id = id; seq = seq });
          checksum = 0;
        })) }
    {
        self.icmpv6(Icmpv6Type::EchoRequest(IcmpEchoHeader { id, seq }))
    }

    /// Appends an ICMPv6 echo reply header (type 129) with this identifier and sequence number to the headers of the
    /// frame.
    #[inline(always)]
    pub fn icmpv6_echo_reply(self, id: u16, seq: u16) -> PacketBuilderStep<Icmpv6Header>
        ensures { transport_step_frame transport.Icmpv6 result ≡ frame_after self (transport.Icmpv6 (record {
          icmp_type = v6.EchoReply (record { id = id; seq = seq });
          checksum = 0;
        })) }
    {
        self.icmpv6(Icmpv6Type::EchoReply(IcmpEchoHeader { id, seq }))
    }

    /// Appends a UDP header (RFC 768) with these ports to the headers of the frame.
    #[inline(always)]
    pub fn udp(self, source_port: u16, destination_port: u16) -> PacketBuilderStep<UdpHeader>
        ensures { transport_step_frame transport.Udp result ≡ frame_after self (transport.Udp (record {
          source_port = source_port;
          destination_port = destination_port;
          length = 0;
          checksum = 0;
        })) }
    {
        self.followed_by(UdpHeader {
            source_port,
            destination_port,
            length: 0,
            checksum: 0,
        })
    }

    /// Appends a TCP header (RFC 9293, 3.1) with the given ports, sequence number and window, without flags and
    /// options, to the headers of the frame.
    #[inline(always)]
    pub fn tcp(
        self,
        source_port: u16,
        destination_port: u16,
        sequence_number: u32,
        window_size: u16,
    ) -> PacketBuilderStep<TcpHeader>
        ensures { transport_step_frame transport.Tcp result ≡ frame_after self (transport.Tcp (record default_tcp_header {
          source_port = source_port;
          destination_port = destination_port;
          sequence_number = sequence_number;
          window_size = window_size;
        })) }
    {
        self.tcp_header(TcpHeader::new(source_port, destination_port, sequence_number, window_size))
    }

    /// Appends the given TCP header (RFC 9293, 3.1) to the headers of the frame.
    #[inline(always)]
    pub fn tcp_header(self, tcp_header: TcpHeader) -> PacketBuilderStep<TcpHeader>
        ensures { transport_step_frame transport.Tcp result ≡ frame_after self (transport.Tcp tcp_header) }
    {
        self.followed_by(tcp_header)
    }

    /// Appends the frame (link header, IP headers and payload) to the buffer. The next header values are set to lead to
    /// `last_next_header_ip_number`, the protocol number of the payload. It is an error if the IP packet is too long
    /// for its length field, or if the buffer cannot grow; the buffer is then unchanged.
    ///
    /// `SlicedPacket` and `PacketHeaders` read a fragment back from the frame if the IP headers are those of a fragment
    /// (RFC 791, 3.2; RFC 8200, 4.5), the protocol number is not that of an extension header, and a Linux cooked
    /// capture header has a known packet type.
    #[inline(always)]
    pub fn write(
        self,
        buf: &mut Vec<u8>,
        last_next_header_ip_number: IpNumber,
        payload: &[u8],
    ) -> Result<(), BuildWriteError>
        ensures ok { let frame = ip_step_frame self last_next_header_ip_number in
            OnOk result (IsBuildable frame (length payload.now)
            × (buf.new.items ≡ buf.old.items ++ built_frame frame payload.now)) }
        ensures err { OnErr result (buf.new.items ≡ buf.old.items) }
        ensures refused { IfErr result
            (IsBuildError (ip_step_frame self last_next_header_ip_number) (length payload.now)) }
        ensures fragment { OnOk result (IpStepReadsBack self last_next_header_ip_number payload.now) }
        ensures full { result ≡ Err BuildWriteError.OutOfMemory → vec_capacity buf.old
            < vec_len buf.old + built_size (ip_step_frame self last_next_header_ip_number) (length payload.now) }
        ensures capacity { vec_capacity buf.old ≤ vec_capacity buf.new }
    {
        append_ip_step(
            self.before,
            self.last,
            last_next_header_ip_number,
            payload,
            buf,
        )
    }

    /// Writes the frame (link and IP headers, and the payload) to the start of the slice, and returns its length in
    /// bytes. The bytes after the frame are unchanged. It is an error if the slice is too short, or if the IP packet is
    /// too long for its length field; the whole slice is then unchanged. It doesn't allocate.
    #[inline(always)]
    pub fn write_to_slice(
        self,
        slice: &mut [u8],
        last_next_header_ip_number: IpNumber,
        payload: &[u8],
    ) -> Result<usize, BuildSliceWriteError>
        ensures filled { FillsStart (ip_step_frame self last_next_header_ip_number) payload.now
            slice.old slice.new result }
        ensures fragment { OnOk result (IpStepReadsBack self last_next_header_ip_number payload.now) }
    {
        place_ip_step(
            self.before,
            self.last,
            last_next_header_ip_number,
            payload,
            slice,
        )
    }

    /// Length in bytes of the frame (link and IP headers) with a payload of `payload_size` bytes. The sum must fit a
    /// `usize`.
    #[inline(always)]
    pub fn size(&self, payload_size: usize) -> usize
        requires { ip_step_size self.now payload_size < 2 ^ 64 }
        ensures value { result ≡ ip_step_size self.now payload_size }
        ensures frame { (last : IpNumber) (payload : List ℕ) → length payload ≡ payload_size
            → length (built_frame (ip_step_frame self.now last) payload) ≡ result }
    {
        link_fits(&self.before);
        self.before.header_len() + self.last.header_len() + payload_size
    }

    /// Returns the builder of the frame with a transport header after the IP headers.
    #[inline(always)]
    fn followed_by<H: HoldsHeaders<Before = (LinkPart, IpPart), Last = H>>(
        self,
        header: H,
    ) -> PacketBuilderStep<H>
        ensures { result ≡ record { before = (self.before, self.last); last = header } }
    {
        PacketBuilderStep {
            before: (self.before, self.last),
            last: header,
        }
    }
}
