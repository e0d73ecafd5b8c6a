//! Description of a sliced frame for C: kinds, offsets and lengths of its headers as numbers, in C's memory layout.

/// Kind, offset and length of one header in a frame. Kind and length are 0 if the frame does not have this header.
#[repr(C)]
#[derive(Clone, Copy)]
pub struct Part {
    /// Kind of the header, or 0 if the frame has none. Link layer: 1 Ethernet II, 2 Linux cooked capture. Network
    /// layer: 1 ARP, 4 IPv4, 6 IPv6. Transport layer: its IP protocol number.
    pub kind: u32,
    /// Offset of the described header from the start of the frame, in bytes.
    pub offset: usize,
    /// Length of the described header in bytes, with extension headers or options; 0 if the frame has no such header.
    pub len: usize,
}

/// One of the three places for VLAN or MACsec tags between the link header and the network layer of a frame. All fields
/// are 0 if the frame has no tag for this place.
#[repr(C)]
#[derive(Clone, Copy)]
pub struct LinkExt {
    /// Kind of the tag: 1 VLAN, 2 MACsec, or 0 if there is no tag.
    pub kind: u32,
    /// VLAN identifier (VID, 12 bits), or 0 for a MACsec tag.
    pub vlan_id: u16,
    /// Offset of the VLAN or MACsec tag from the start of the frame, in bytes.
    pub offset: usize,
    /// Length of the VLAN or MACsec tag in bytes.
    pub len: usize,
}

/// Fields of the IP header and its extension headers, all 0 if the packet is not IP.
#[repr(C)]
#[derive(Clone, Copy)]
pub struct Ip {
    /// IP version: 4 or 6, or 0 if the packet is not IP.
    pub version: u8,
    /// IP protocol number of the payload after the IP header and its extension headers.
    pub number: u8,
    /// 1 if the packet is a fragment of a longer IP payload, else 0.
    pub fragmented: u8,
    /// 1 if the flag "more fragments" of the IPv4 header or IPv6 fragment header is set, else 0.
    pub more_fragments: u8,
    /// Offset of this fragment in the reassembled IP payload, in bytes; 0 in an unfragmented packet.
    pub fragment_offset: u16,
    /// Identification that all fragments of an IP datagram share (16 bits in IPv4, 32 bits in IPv6); 0 in IPv6 without
    /// a fragment header.
    pub identification: u32,
    /// Length of the IPv4 or IPv6 header without extension headers, in bytes.
    pub header_len: usize,
}

/// Payload of the innermost parsed layer of a frame, such as of UDP: its offset, its length, and what limits it.
#[repr(C)]
#[derive(Clone, Copy)]
pub struct Payload {
    /// Length field that limits the payload of the innermost parsed layer, or 0 if only the end of the frame does
    /// (`enum etherparse_len_source`).
    pub len_source: u32,
    /// 1 if the payload is shorter than a length field states (lax slicing only), else 0.
    pub incomplete: u32,
    /// Offset of the innermost parsed layer's payload from the start of the frame, in bytes.
    pub offset: usize,
    /// Length of the innermost parsed layer's payload in bytes.
    pub len: usize,
}

/// Error of slicing, as numbers for C: why the bytes are not a valid frame, or the error at which lax slicing stopped.
/// All fields are 0 if there is no error.
#[repr(C)]
#[derive(Clone, Copy)]
pub struct Refusal {
    /// Kind of the slicing error, or 0 if there is none (`enum etherparse_refusal_kind`).
    pub kind: u32,
    /// Layer whose bytes do not have the needed length (`enum etherparse_layer`), for a length error; 0 for other
    /// errors.
    pub layer: u32,
    /// Length field that limits the bytes available to the layer of a length error (`enum etherparse_len_source`), or 0
    /// if the end of the input or the short length of a MACsec tag limits them. 5 means that the address lengths of an
    /// ARP packet determine `required_len`. 0 for other errors.
    pub len_source: u32,
    /// Value of the invalid header field, for error kinds that have one (such as the IP version); else 0.
    pub number: u32,
    /// Number of bytes that the layer of a length error needs; 0 for other errors.
    pub required_len: usize,
    /// Number of bytes available to the layer of a length error; 0 for other errors.
    pub len: usize,
    /// Offset of the layer of a length error from the start of the frame, in bytes; 0 for other errors.
    pub layer_start_offset: usize,
}

/// Layers of a sliced frame with their offsets for C, or the error if the bytes are not a valid frame.
#[repr(C)]
#[derive(Clone, Copy)]
pub struct Packet {
    /// Ethernet II or Linux cooked capture header; its kind is 0 if the frame starts with another layer.
    pub link: Part,
    /// VLAN and MACsec tags between the link header and the network layer, from the outermost to the innermost.
    pub link_exts: [LinkExt; 3],
    /// Number of VLAN and MACsec tags, 0 to 3.
    pub link_ext_count: u32,
    /// Source port of UDP or TCP, or 0 if the packet has another or no transport header.
    pub source_port: u16,
    /// Destination port of UDP or TCP, or 0 if the packet has another or no transport header.
    pub destination_port: u16,
    /// Network layer: the IP header with its extension headers, or the ARP packet.
    pub net: Part,
    /// Fields of the IP header, with those of its extension headers, all 0 if the packet is not IP.
    pub ip: Ip,
    /// Header of UDP, TCP, ICMP or ICMPv6; its kind is 0 if there is none.
    pub transport: Part,
    /// Payload of the innermost parsed layer, such as the payload of UDP.
    pub payload: Payload,
    /// Reason why the bytes are not a valid frame, or the error at which lax slicing stopped. All fields of `refusal`
    /// are 0 if there is no error.
    pub refusal: Refusal,
}
