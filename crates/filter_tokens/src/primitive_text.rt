//! Text of primitives: each with all its qualifiers.

ghost use Rattle.std.specs.Prelude.{◌≡◌, ◌<◌, ◌++◌, OnOk, codes};
ghost use Rattle.std.specs.Fmt.{decimal};
ghost use Rattle.std.specs.Net.Text.{ip_text};
ghost use Rattle.filter_tokens.specs.declared.primitive.Primitive.TheVariants as primitive;
ghost use Rattle.filter_tokens.specs.PrimitiveTexts.{field_text, hex_digit, hex_pair, layer_text, mask_text, network_text};
ghost use Rattle.filter_tokens.specs.PrimitiveTexts.{operand_text, port_range_text, ports_text, primitive_text, relation_text, side_text};
ghost use Rattle.filter_tokens.specs.PrimitiveTexts.{station_text, version_text, width_text};

use crate::network::Network;
use crate::primitive::{
    AddressLayer, FieldLayer, IpVersion, Operand, PortProtocol, Primitive, Relation, Side, Width,
};
use crate::value::address_bits;
use ep_base::{EtherType, IpNumber, VlanId};
use std::alloc::AllocError;
use std::net::IpAddr;

/// Appends a number in decimal.
fn append_number(output: &mut Vec<u8>, number: u32) -> Result<(), AllocError>
    ensures { OnOk result (output.new.items ≡ output.old.items ++ decimal number) }
{
    let text = format!(in *output.allocator(); "{number}")?;
    output.extend_from_slice(text.as_bytes())
}

/// Appends a primitive with all its qualifiers.
pub fn append_primitive(output: &mut Vec<u8>, primitive: &Primitive) -> Result<(), AllocError>
    ensures { OnOk result (output.new.items ≡ output.old.items ++ primitive_text primitive.now) }
{
    match primitive {
        Primitive::EtherType(ether_type) => append_ether_type(output, *ether_type),
        Primitive::Protocol(version, number) => append_protocol(output, *version, *number),
        Primitive::Address(layer, side, network) => append_address(output, *layer, *side, network),
        Primitive::Station(side, station) => append_ether_host(output, *side, *station),
        Primitive::Port(ports, side, low, high) => {
            append_port_test(output, *ports, *side, *low, *high)
        }
        Primitive::Vlan(id) => append_vlan(output, id),
        Primitive::Number(operand, mask, relation, number) => {
            append_comparison(output, operand, *mask, *relation, *number)
        }
    }
}

/// Appends `ether proto` and an ether type in hexadecimal.
fn append_ether_type(output: &mut Vec<u8>, ether_type: EtherType) -> Result<(), AllocError>
    ensures { OnOk result (output.new.items ≡ output.old.items ++ primitive_text (primitive.EtherType ether_type)) }
{
    output.extend_from_slice(b"ether proto 0x")?;
    append_hex(output, (ether_type.0 / 256) as u8)?;
    append_hex(output, (ether_type.0 % 256) as u8)
}

/// Appends the word of an IP version, `proto` and a protocol number.
fn append_protocol(
    output: &mut Vec<u8>,
    version: IpVersion,
    number: IpNumber,
) -> Result<(), AllocError>
    ensures { OnOk result (output.new.items ≡ output.old.items ++ primitive_text (primitive.Protocol version number)) }
{
    output.extend_from_slice(version_word(version).as_bytes())?;
    output.extend_from_slice(b"proto ")?;
    append_number(output, u32::from(number.0))
}

/// Appends the words of a network layer and a side, and a host or network.
fn append_address(
    output: &mut Vec<u8>,
    layer: AddressLayer,
    side: Side,
    network: &Network,
) -> Result<(), AllocError>
    ensures { OnOk result (output.new.items
        ≡ output.old.items ++ primitive_text (primitive.Address layer side network.now)) }
{
    output.extend_from_slice(layer_word(layer).as_bytes())?;
    output.extend_from_slice(side_word(side).as_bytes())?;
    append_network(output, network)
}

/// Appends `ether`, the words of a side, `host` and a MAC address.
fn append_ether_host(output: &mut Vec<u8>, side: Side, station: [u8; 6]) -> Result<(), AllocError>
    ensures { OnOk result (output.new.items ≡ output.old.items ++ primitive_text (primitive.Station side station)) }
{
    output.extend_from_slice(b"ether ")?;
    output.extend_from_slice(side_word(side).as_bytes())?;
    output.extend_from_slice(b"host ")?;
    append_station(output, station)
}

/// Appends the words of a transport protocol and a side, and a port or a range.
fn append_port_test(
    output: &mut Vec<u8>,
    ports: PortProtocol,
    side: Side,
    low: u16,
    high: u16,
) -> Result<(), AllocError>
    ensures { OnOk result (output.new.items ≡ output.old.items ++ primitive_text (primitive.Port ports side low high)) }
{
    output.extend_from_slice(ports_word(ports).as_bytes())?;
    output.extend_from_slice(side_word(side).as_bytes())?;
    append_ports(output, low, high)
}

/// Appends an operand, its mask, the symbol of a relation, and a number.
fn append_comparison(
    output: &mut Vec<u8>,
    operand: &Operand,
    mask: u32,
    relation: Relation,
    number: u32,
) -> Result<(), AllocError>
    ensures { OnOk result (output.new.items
        ≡ output.old.items ++ primitive_text (primitive.Number operand.now mask relation number)) }
{
    append_operand(output, operand)?;
    append_mask(output, mask)?;
    output.extend_from_slice(relation_word(relation).as_bytes())?;
    append_number(output, number)
}

/// Appends `&` and a mask, unless all its bits are set.
fn append_mask(output: &mut Vec<u8>, mask: u32) -> Result<(), AllocError>
    ensures { OnOk result (output.new.items ≡ output.old.items ++ mask_text mask) }
{
    if mask == u32::MAX {
        return Ok(());
    }
    output.extend_from_slice(b" & ")?;
    append_number(output, mask)
}

/// Appends `host` and an address, or `net` and a network that has more than one.
fn append_network(output: &mut Vec<u8>, network: &Network) -> Result<(), AllocError>
    ensures { OnOk result (output.new.items ≡ output.old.items ++ network_text network.now) }
{
    if network.bits == address_bits(&network.address) {
        output.extend_from_slice(b"host ")?;
        return append_ip(output, network.address);
    }
    output.extend_from_slice(b"net ")?;
    append_ip(output, network.address)?;
    output.extend_from_slice(b"/")?;
    append_number(output, u32::from(network.bits))
}

/// Appends an IP address.
fn append_ip(output: &mut Vec<u8>, address: IpAddr) -> Result<(), AllocError>
    ensures { OnOk result (output.new.items ≡ output.old.items ++ ip_text address) }
{
    let text = format!(in *output.allocator(); "{address}")?;
    output.extend_from_slice(text.as_bytes())
}

/// Appends a MAC address.
#[tactic(auto, using(crate::proofs::PrimitiveTextLemmas::station_of_six))]
fn append_station(output: &mut Vec<u8>, station: [u8; 6]) -> Result<(), AllocError>
    ensures { OnOk result (output.new.items ≡ output.old.items ++ station_text station) }
{
    let [a, b, c, d, e, f] = station;
    append_octet(output, a)?;
    append_octet(output, b)?;
    append_octet(output, c)?;
    append_octet(output, d)?;
    append_octet(output, e)?;
    append_hex(output, f)
}

/// Appends the two hexadecimal digits of a byte, and a colon.
fn append_octet(output: &mut Vec<u8>, octet: u8) -> Result<(), AllocError>
    ensures { OnOk result (output.new.items ≡ output.old.items ++ (hex_pair octet ++ codes ":")) }
{
    append_hex(output, octet)?;
    output.extend_from_slice(b":")
}

/// Appends the two hexadecimal digits of a byte.
fn append_hex(output: &mut Vec<u8>, byte: u8) -> Result<(), AllocError>
    ensures { OnOk result (output.new.items ≡ output.old.items ++ hex_pair byte) }
{
    output.extend_from_slice(&[hex_digit(byte / 16), hex_digit(byte % 16)])
}

/// Returns a hexadecimal digit.
fn hex_digit(number: u8) -> u8
    requires { number < 16 }
    ensures { result ≡ hex_digit number }
{
    if number < 10 {
        b'0' + number
    } else {
        b'a' - 10 + number
    }
}

/// Appends `port` and a port, or `portrange` and a range.
fn append_ports(output: &mut Vec<u8>, low: u16, high: u16) -> Result<(), AllocError>
    ensures { OnOk result (output.new.items ≡ output.old.items ++ port_range_text low high) }
{
    if low == high {
        output.extend_from_slice(b"port ")?;
        return append_number(output, u32::from(low));
    }
    output.extend_from_slice(b"portrange ")?;
    append_number(output, u32::from(low))?;
    output.extend_from_slice(b"-")?;
    append_number(output, u32::from(high))
}

/// Appends `vlan`, with its identifier if there is one.
fn append_vlan(output: &mut Vec<u8>, id: &Option<VlanId>) -> Result<(), AllocError>
    ensures { OnOk result (output.new.items ≡ output.old.items ++ primitive_text (primitive.Vlan id.now)) }
{
    match id {
        Some(id) => {
            output.extend_from_slice(b"vlan ")?;
            append_number(output, u32::from(id.value()))
        }
        None => output.extend_from_slice(b"vlan"),
    }
}

/// Appends the operand of a byte test.
fn append_operand(output: &mut Vec<u8>, operand: &Operand) -> Result<(), AllocError>
    ensures { OnOk result (output.new.items ≡ output.old.items ++ operand_text operand.now) }
{
    match operand {
        Operand::Length => output.extend_from_slice(b"len"),
        Operand::Bytes(layer, offset, width) => {
            output.extend_from_slice(field_word(*layer).as_bytes())?;
            output.extend_from_slice(b"[")?;
            append_number(output, *offset)?;
            output.extend_from_slice(width_word(*width).as_bytes())
        }
    }
}

/// Returns the end of a byte test's operand: `:`, the size in bytes, and `]`.
fn width_word(width: Width) -> &'static str
    ensures { result.now ≡ width_text width }
{
    match width {
        Width::One => ":1]",
        Width::Two => ":2]",
        Width::Four => ":4]",
    }
}

/// Returns the word of an IP version, with a space after it; nothing for either version.
fn version_word(version: IpVersion) -> &'static str
    ensures { result.now ≡ version_text version }
{
    match version {
        IpVersion::Any => "",
        IpVersion::V4 => "ip ",
        IpVersion::V6 => "ip6 ",
    }
}

/// Returns the word of a network layer, with a space after it; nothing for any layer.
fn layer_word(layer: AddressLayer) -> &'static str
    ensures { result.now ≡ layer_text layer }
{
    match layer {
        AddressLayer::Any => "",
        AddressLayer::Ipv4 => "ip ",
        AddressLayer::Ipv6 => "ip6 ",
        AddressLayer::Arp => "arp ",
    }
}

/// Returns the words of a side, with a space after them.
fn side_word(side: Side) -> &'static str
    ensures { result.now ≡ side_text side }
{
    match side {
        Side::Source => "src ",
        Side::Destination => "dst ",
        Side::Either => "src or dst ",
        Side::Both => "src and dst ",
    }
}

/// Returns the word of a transport protocol, with a space after it; nothing for any protocol.
fn ports_word(ports: PortProtocol) -> &'static str
    ensures { result.now ≡ ports_text ports }
{
    match ports {
        PortProtocol::Any => "",
        PortProtocol::Tcp => "tcp ",
        PortProtocol::Udp => "udp ",
        PortProtocol::Sctp => "sctp ",
    }
}

/// Returns the word of a layer whose bytes are read.
fn field_word(layer: FieldLayer) -> &'static str
    ensures { result.now ≡ field_text layer }
{
    match layer {
        FieldLayer::Ethernet => "ether",
        FieldLayer::Arp => "arp",
        FieldLayer::Ipv4 => "ip",
        FieldLayer::Ipv6 => "ip6",
        FieldLayer::Tcp => "tcp",
        FieldLayer::Udp => "udp",
        FieldLayer::Sctp => "sctp",
        FieldLayer::Icmpv4 => "icmp",
        FieldLayer::Icmpv6 => "icmp6",
    }
}

/// Returns the symbol of a relation, with a space before and after it.
fn relation_word(relation: Relation) -> &'static str
    ensures { result.now ≡ relation_text relation }
{
    match relation {
        Relation::Equal => " = ",
        Relation::NotEqual => " != ",
        Relation::Less => " < ",
        Relation::LessOrEqual => " <= ",
        Relation::Greater => " > ",
        Relation::GreaterOrEqual => " >= ",
    }
}
