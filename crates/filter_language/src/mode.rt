//! State of the parser of filter expressions within an operand.

use filter_tokens::keyword::Keyword;
use filter_tokens::network::Network;
use filter_tokens::primitive::{
    AddressLayer, FieldLayer, Operand, PortProtocol, Primitive, Relation, Side, Width,
};
use std::net::IpAddr;

/// Values that a side such as `src` qualifies.
#[derive(Clone, Copy)]
pub enum Sided {
    /// Addresses of a network layer; without `ip`, `ip6` or `arp` before the side also ports.
    Addresses(AddressLayer),
    /// MAC addresses, after `ether`.
    Stations,
    /// Ports, after `tcp`, `udp` or `sctp`.
    Ports(PortProtocol),
}

/// Comparison of a byte test, as far as it was read.
#[derive(Clone, Copy)]
pub struct Comparison {
    /// Operand of the byte test.
    pub operand: Operand,
    /// Mask of the operand, if there is one.
    pub mask: Option<u32>,
    /// Relation, once it was read.
    pub relation: Option<Relation>,
    /// Bits of the constants after the relation, once one was read.
    pub number: Option<u32>,
}

/// Part of an operand that was read, which decides the tokens that are allowed next.
#[derive(Clone, Copy)]
pub enum Mode {
    /// Nothing of an operand was read; only values are allowed, if true.
    Operand(bool),
    /// An operand is complete.
    Complete,
    /// A keyword that names a layer: an operand of its own, qualifiers, or the start of a byte test.
    Layer(Keyword),
    /// A side, after which `or` or `and` and the other side can follow.
    Side(Sided, Side),
    /// A side with `or` or `and` after it, the other side that is expected, and the side that both make.
    OtherSide(Sided, Side, Side),
    /// An address of a host, which is complete.
    Host(Primitive),
    /// A network, which is complete without a prefix length or mask.
    Net(AddressLayer, Side, Network),
    /// A network with `/`; a prefix length is expected.
    Length(AddressLayer, Side, IpAddr),
    /// A network with `mask`; a mask is expected.
    Mask(AddressLayer, Side, IpAddr),
    /// `vlan`, which is complete without an identifier.
    Vlan,
    /// `less` or `greater`; a number is expected.
    PacketLength(Relation),
    /// A layer with `[`; an offset is expected.
    Offset(FieldLayer),
    /// An offset; `:` or `]` is expected.
    OffsetEnd(FieldLayer, u32),
    /// An offset with `:`; a size is expected.
    Size(FieldLayer, u32),
    /// A size; `]` is expected.
    SizeEnd(FieldLayer, u32, Width),
    /// The operand of a byte test with its mask, if there is one; a relation is expected, or `&` if there is no mask.
    Left(Operand, Option<u32>),
    /// A constant is expected, or constants in parentheses.
    Group(Comparison),
    /// Constants in parentheses, with the bits of those that were read; another one is expected.
    GroupItem(Comparison, Option<u32>),
    /// Constants in parentheses, with their bits; `|` or `)` is expected.
    GroupEnd(Comparison, u32),
    /// A byte test, which is complete without further constants after `|`: operand, mask, relation and number.
    Test(Operand, Option<u32>, Relation, u32),
}
