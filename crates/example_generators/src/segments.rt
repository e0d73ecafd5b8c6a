//! Builds the frame of the first segment of a TCP connection, with TCP options.

ghost use Rattle.std.specs.Prelude.{[]};
ghost use Rattle.etherparse.specs.AppendedFrames.{AppendsFrame};
ghost use Rattle.example_generators.specs.Segments.{syn_headers};

use etherparse::err::packet::BuildWriteError;
use etherparse::{PacketBuilder, TcpOptionElement};

/// Builds the Ethernet frame of the first segment (SYN) of a TCP connection over IPv4 (RFC 9293, 3.5), and appends it
/// to the buffer. Its options are the maximum segment size (3.7.1) and the window scale (RFC 7323, 2.2).
pub fn write_syn(sequence_number: u32, buf: &mut Vec<u8>) -> Result<(), BuildWriteError>
    ensures { AppendsFrame (syn_headers sequence_number) [] buf.old buf.new result }
{
    let options = [
        TcpOptionElement::MaximumSegmentSize(1460),
        TcpOptionElement::Noop,
        TcpOptionElement::WindowScale(7),
    ];
    PacketBuilder::ethernet2([2, 0, 0, 0, 0, 1], [2, 0, 0, 0, 0, 2])
        .ipv4([192, 0, 2, 1], [192, 0, 2, 2], 64)
        .tcp(4000, 53, sequence_number, 65535)
        .syn()
        .options(&options)
        .unwrap()
        .write(buf, &[])
}
