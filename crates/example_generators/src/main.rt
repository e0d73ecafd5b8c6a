//! Example program: builds Ethernet frames, and prints them in hexadecimal under headings. The frames carry a UDP
//! request and its answer, the first segment of a TCP connection, a UDP datagram over IPv6 with extension headers, and
//! the fragments of a long UDP datagram.
#![tactic(auto)]

ghost use Rattle.std.specs.Prelude.{◌≡◌};

mod fragments;
mod reports;
mod requests;
mod segments;

use crate::fragments::{fragment_payload, write_fragment};
use crate::reports::write_report;
use crate::requests::{write_answer, write_request};
use crate::segments::write_syn;
use etherparse::IpFragOffset;
use std::io;

fn main(rt: HostRuntime) -> io::Result<()> {
    println!(rt; "a request and its answer, UDP over IPv4:")?;
    let mut request = Vec::new(rt.alloc());
    let Ok(()) = write_request(b"request", &mut request) else {
        return rt.eprintln("the request could not be written");
    };
    print_frame(&rt, request.as_slice())?;
    let mut frame = Vec::new(rt.alloc());
    let Some(Ok(())) = write_answer(request.as_slice(), b"answer", &mut frame) else {
        return rt.eprintln("the answer could not be written");
    };
    print_frame(&rt, frame.as_slice())?;
    println!(rt; "the first segment of a TCP connection, with options:")?;
    frame.clear();
    let Ok(()) = write_syn(1000, &mut frame) else {
        return rt.eprintln("the segment could not be written");
    };
    print_frame(&rt, frame.as_slice())?;
    println!(rt; "a datagram of UDP over IPv6, with extension headers:")?;
    frame.clear();
    let Ok(()) = write_report(b"report", &mut frame) else {
        return rt.eprintln("the datagram could not be written");
    };
    print_frame(&rt, frame.as_slice())?;
    println!(rt; "a datagram of 4000 bytes, as fragments:")?;
    print_fragments(&rt, &mut frame)
}

/// Prints the Ethernet frames of the IPv4 fragments of a UDP datagram of 4000 bytes, one line each in hexadecimal.
/// `frame` is the buffer in which each frame is built.
fn print_fragments(rt: &(impl Print + Eprint + Alloc), frame: &mut Vec<u8>) -> io::Result<()> {
    let mut payload = [7; 4000];
    // UDP header: source port 4000, destination port 53, length 4000, no checksum
    payload[..8].copy_from_slice(&[0x0f, 0xa0, 0, 53, 0x0f, 0xa0, 0, 0]);
    for index in 0..45 {
        let offset = IpFragOffset::try_new(185 * index).unwrap();
        let Some((part, more)) = fragment_payload(&payload, offset) else {
            break;
        };
        frame.clear();
        let Ok(()) = write_fragment(offset, more, part, frame) else {
            return rt.eprintln("a fragment could not be written");
        };
        print_frame(rt, frame.as_slice())?;
    }
    Ok(())
}

/// Prints the bytes of a frame as one line of hexadecimal digits.
fn print_frame(rt: &(impl Print + Alloc), frame: &[u8]) -> io::Result<()> {
    println!(rt; "{}", hex::encode(rt.alloc(), frame)?)
}
