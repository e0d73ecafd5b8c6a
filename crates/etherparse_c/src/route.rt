//! Header fields of a frame to build, as C passes them: numbers only, in C's memory layout.

/// Headers of a frame to build before its transport header: an Ethernet II header or none, and an IPv4 or IPv6 header.
/// The addresses of the IP version that is not used are not read.
#[repr(C)]
#[derive(Clone, Copy)]
pub struct Route {
    /// IP version of the frame to build: 4 or 6.
    pub version: u8,
    /// 0 if the frame to build starts with the IP header; otherwise it starts with an Ethernet II header.
    pub with_ethernet: u8,
    /// Time to live of the IPv4 header, or hop limit of the IPv6 header.
    pub hop_limit: u8,
    /// Source MAC address of the Ethernet II header, if there is one.
    pub ethernet_source: [u8; 6],
    /// Destination MAC address of the Ethernet II header, if there is one.
    pub ethernet_destination: [u8; 6],
    /// Source IPv4 address; not read if the IP version is 6.
    pub ipv4_source: [u8; 4],
    /// Destination IPv4 address; not read if the IP version is 6.
    pub ipv4_destination: [u8; 4],
    /// Source IPv6 address; not read if the IP version is 4.
    pub ipv6_source: [u8; 16],
    /// Destination IPv6 address; not read if the IP version is 4.
    pub ipv6_destination: [u8; 16],
}

/// Fields of a TCP header to build, without options, as C passes them.
#[repr(C)]
#[derive(Clone, Copy)]
pub struct TcpFields {
    /// Source port of TCP.
    pub source_port: u16,
    /// Destination port of TCP.
    pub destination_port: u16,
    /// TCP sequence number of the first payload byte, or of SYN if that flag is set.
    pub sequence_number: u32,
    /// TCP acknowledgment number: next sequence number that the sender of the segment expects to receive, if the flag
    /// ACK is set.
    pub acknowledgment_number: u32,
    /// TCP window: number of bytes that the sender of the segment is willing to receive.
    pub window_size: u16,
    /// TCP urgent pointer: end of the urgent data as an offset from the sequence number, if the flag URG is set.
    pub urgent_pointer: u16,
    /// TCP flags, as in byte 13 of the header: FIN is 1, SYN 2, RST 4, PSH 8, ACK 16, URG 32, ECE 64, CWR 128.
    pub flags: u8,
}

/// Headers of a frame to build before its transport header, with up to two VLAN tags (IEEE 802.1Q) after the Ethernet
/// II header.
#[repr(C)]
#[derive(Clone, Copy)]
pub struct TaggedRoute {
    /// Ethernet II and IP header fields; with VLAN tags, the frame must start with an Ethernet II header
    /// (`with_ethernet` is not 0).
    pub route: Route,
    /// Number of VLAN tags: 0 to 2.
    pub tag_count: u32,
    /// VLAN identifiers of the tags, each at most 4095, from the outermost to the innermost. Those of absent tags are
    /// not read.
    pub vlan_ids: [u16; 2],
}

/// Fields of an IP fragment to build: of the IPv4 header (RFC 791, 3.1), or of the IPv6 fragment header (RFC 8200,
/// 4.5).
#[repr(C)]
#[derive(Clone, Copy)]
pub struct FragmentFields {
    /// IP protocol number of the reassembled payload (of UDP, for example, 17).
    pub ip_number: u8,
    /// 0 if the fragment is the last one of its datagram; any other value sets the flag "more fragments".
    pub more_fragments: u8,
    /// Offset of the fragment in the reassembled IP payload, in bytes: a multiple of 8.
    pub fragment_offset: u16,
    /// Identification that all fragments of an IP datagram share; in IPv4 at most 65535.
    pub identification: u32,
}
