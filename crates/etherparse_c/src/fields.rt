//! Fields of the headers of a packet for C: addresses, numbers and flags of each header, in C's memory layout.

/// Place of some bytes, such as the options of a header: their offset in the packet and their length.
#[repr(C)]
#[derive(Clone, Copy)]
pub struct Place {
    /// Offset of the bytes from the start of the packet, in bytes.
    pub offset: usize,
    /// Number of bytes at the place, 0 if there are none.
    pub len: usize,
}

/// Fields of a link header: an Ethernet II header, or a Linux cooked capture header (SLL v1). The fields of another or
/// no link header are 0.
#[repr(C)]
#[derive(Clone, Copy)]
pub struct LinkFields {
    /// Destination MAC address of the Ethernet II header.
    pub destination: [u8; 6],
    /// Source MAC address of the Ethernet II header.
    pub source: [u8; 6],
    /// Ether type of the Ethernet II payload, which may be that of a tag.
    pub ether_type: u16,
    /// Packet type of the Linux cooked capture header, 0 to 7: 0 is sent to this host, 4 is sent by this host.
    pub packet_type: u16,
    /// ARPHRD hardware type of the captured device, of the Linux cooked capture header.
    pub hardware_type: u16,
    /// Length of the sender's link layer address in bytes, of the Linux cooked capture header; may be greater than 8.
    pub address_len: u16,
    /// Link layer address of the sender, padded to 8 bytes, of the Linux cooked capture header.
    pub address: [u8; 8],
    /// Protocol of the payload of the Linux cooked capture header: an ether type for most hardware types.
    pub protocol: u16,
}

/// Fields of a VLAN or MACsec tag. The fields of the other kind of tag are 0, and all fields are 0 without a tag.
#[repr(C)]
#[derive(Clone, Copy)]
pub struct TagFields {
    /// Kind of the tag: 1 VLAN, 2 MACsec, or 0 if there is no tag.
    pub kind: u32,
    /// VLAN identifier (VID) of the VLAN tag, 12 bits.
    pub vlan_id: u16,
    /// Ether type of the payload after the tag, or 0 if a MACsec tag states that its payload is modified or encrypted.
    pub ether_type: u16,
    /// Priority code point (PCP) of the VLAN tag, 0 to 7.
    pub priority: u8,
    /// 1 if the drop eligible indicator (DEI) of the VLAN tag is set, else 0.
    pub drop_eligible: u8,
    /// Flags of the MACsec tag as in its byte 0: ES is 64, SC 32, SCB 16, E 8, C 4.
    pub macsec_flags: u8,
    /// Association number (AN) of the MACsec tag, 0 to 3.
    pub association_number: u8,
    /// Short length (SL) of the MACsec tag, 6 bits.
    pub short_len: u8,
    /// Packet number (PN) of the MACsec tag.
    pub packet_number: u32,
    /// Secure channel identifier (SCI) of the MACsec tag, or 0 if the flag SC is not set.
    pub sci: u64,
}

/// Fields of an IPv4 or IPv6 header. All fields are 0 if the packet is not IP.
#[repr(C)]
#[derive(Clone, Copy)]
pub struct IpFields {
    /// IP version: 4 or 6, or 0 if the packet is not IP.
    pub version: u8,
    /// IP protocol number of the payload after the IP header and its extension headers.
    pub number: u8,
    /// IP protocol number of the header or payload directly after the IP header.
    pub next_header: u8,
    /// Time to live (TTL) of IPv4, or hop limit of IPv6.
    pub hop_limit: u8,
    /// Differentiated services code point (DSCP), 6 bits.
    pub dscp: u8,
    /// Explicit congestion notification (ECN), 2 bits.
    pub ecn: u8,
    /// 1 if the flag "don't fragment" (DF) of the IPv4 header is set, else 0.
    pub dont_fragment: u8,
    /// 1 if the flag "more fragments" (MF) of the IPv4 header or IPv6 fragment header is set, else 0.
    pub more_fragments: u8,
    /// Offset of this fragment in the reassembled IP payload, in bytes; 0 in an unfragmented packet.
    pub fragment_offset: u16,
    /// Length field of the IP header in bytes: total length of IPv4, or payload length of IPv6.
    pub length: u16,
    /// Header checksum of IPv4 as in the header.
    pub checksum: u16,
    /// Identification that all fragments of an IP datagram share; 0 in IPv6 without a fragment header.
    pub identification: u32,
    /// Flow label of IPv6, 20 bits.
    pub flow_label: u32,
    /// Source address: 16 bytes of IPv6, or 4 bytes of IPv4 and then zeros.
    pub source: [u8; 16],
    /// Destination address: 16 bytes of IPv6, or 4 bytes of IPv4 and then zeros.
    pub destination: [u8; 16],
    /// Place of the options of the IPv4 header.
    pub options: Place,
}

/// Fields of an ARP packet (RFC 826), and the places of its addresses. All fields are 0 if the packet is not ARP.
#[repr(C)]
#[derive(Clone, Copy)]
pub struct ArpFields {
    /// Hardware type of the ARP packet: 1 is Ethernet.
    pub hardware_type: u16,
    /// Protocol type of the ARP packet: an ether type.
    pub protocol_type: u16,
    /// Length of each hardware address of the ARP packet in bytes.
    pub hardware_len: u8,
    /// Length of each protocol address of the ARP packet in bytes.
    pub protocol_len: u8,
    /// Operation of the ARP packet: 1 is a request, 2 a reply.
    pub operation: u16,
    /// Place of the sender hardware address.
    pub sender_hardware: Place,
    /// Place of the sender protocol address.
    pub sender_protocol: Place,
    /// Place of the target hardware address.
    pub target_hardware: Place,
    /// Place of the target protocol address.
    pub target_protocol: Place,
}

/// Fields of a transport header: UDP, TCP, ICMP or ICMPv6. The fields that the header does not have are 0.
#[repr(C)]
#[derive(Clone, Copy)]
pub struct TransportFields {
    /// Source port of UDP or TCP, also of a truncated or invalid header whose first 4 bytes are present.
    pub source_port: u16,
    /// Destination port of UDP or TCP, also of a truncated or invalid header whose first 4 bytes are present.
    pub destination_port: u16,
    /// Checksum of the transport header as in the header.
    pub checksum: u16,
    /// Length field of UDP: length of header and payload in bytes, or 0 if it limits nothing.
    pub udp_length: u16,
    /// TCP sequence number of the first payload byte, or of SYN if that flag is set.
    pub sequence_number: u32,
    /// TCP acknowledgment number: next sequence number that the sender of the segment expects, if the flag ACK is set.
    pub acknowledgment_number: u32,
    /// TCP flags: FIN is 1, SYN 2, RST 4, PSH 8, ACK 16, URG 32, ECE 64, CWR 128, NS 256.
    pub tcp_flags: u16,
    /// TCP window: number of bytes that the sender of the segment is willing to receive.
    pub window_size: u16,
    /// TCP urgent pointer: end of the urgent data as an offset from the sequence number, if the flag URG is set.
    pub urgent_pointer: u16,
    /// TCP data offset: length of the header with its options, in units of 4 bytes.
    pub data_offset: u8,
    /// Type of the ICMP or ICMPv6 message.
    pub icmp_type: u8,
    /// Code of the ICMP or ICMPv6 message.
    pub icmp_code: u8,
    /// Bytes 4 to 7 of the ICMP or ICMPv6 message, whose meaning depends on its type.
    pub icmp_rest: [u8; 4],
    /// Place of the options of the TCP header.
    pub options: Place,
}

/// Fields of all headers of a packet that `Packet` describes.
#[repr(C)]
#[derive(Clone, Copy)]
pub struct Fields {
    /// Fields of the link header.
    pub link: LinkFields,
    /// Fields of the VLAN and MACsec tags, from the outermost to the innermost.
    pub tags: [TagFields; 3],
    /// Fields of the IP header.
    pub ip: IpFields,
    /// Fields of the ARP packet.
    pub arp: ArpFields,
    /// Fields of the transport header.
    pub transport: TransportFields,
    /// Verdict on the header checksum of IPv4 (`enum etherparse_checksum_verdict`); 0 without an IPv4 header, and if
    /// only `etherparse_2_fields` was called.
    pub header_checksum: u32,
    /// Verdict on the checksum of the transport header (`enum etherparse_checksum_verdict`); 0 if there is no such
    /// header and no fragment, and if only `etherparse_2_fields` was called.
    pub transport_checksum: u32,
}
