//! Tokens that are no words: the change that each makes, by the part of the operand before it.

ghost use Rattle.std.specs.Prelude.{◌≡◌, ℕ, List, None, Some, false, true};
ghost use Rattle.filter_tokens.specs.ShownTokens.{shown_token};
ghost use Rattle.filter_tokens.specs.Tokens.{Token};
ghost use Rattle.filter_language.specs.Changes.{IsApt, IsAptEnd, reading, settling};
ghost use Rattle.filter_language.specs.States.{State, constant_kind, field_of, layer_primitive, read_address_word};
ghost use Rattle.filter_language.specs.States.{read_group, read_group_end, read_host, read_in, read_keyword, read_layer, read_layer_word};
ghost use Rattle.filter_language.specs.States.{read_left, read_net, read_offset_end, read_operand, read_other_side, read_port_word};
ghost use Rattle.filter_language.specs.States.{read_side, read_side_values, read_sided, read_sided_word, read_size_end, read_test, settled_in, side_head};
ghost use Rattle.filter_language.specs.States.{group_mode, multicast_v4, multicast_v6, test_kind, union};
ghost use Rattle.filter_language.specs.Primitives.{ethernet_broadcast, ethernet_multicast, protocol_test, number_test};

use crate::head::Head;
use crate::mode::{Comparison, Mode, Sided};
use ep_base::{EtherType, IpNumber};
use filter_tokens::filter_error::FilterErrorKind;
use filter_tokens::keyword::Keyword;
use filter_tokens::network::Network;
use filter_tokens::primitive::{
    AddressLayer, FieldLayer, IpVersion, Operand, PortProtocol, Primitive, Relation, Side, Width,
};
use filter_tokens::token::TokenKind;
use std::net::{IpAddr, Ipv4Addr, Ipv6Addr};

/// Change of the parser by a token.
#[derive(Clone, Copy)]
pub(crate) enum Change {
    /// The operand goes on.
    Continue(Mode),
    /// The operand goes on, with these qualifiers in force.
    Qualify(Head, Mode),
    /// The operand is complete.
    Complete(Completion),
    /// The operand is complete without the token, which is read after it.
    After(Completion),
    /// `not` before an operand; only values are allowed after it, if true.
    Not(bool),
    /// `(` before an operand; only values are allowed in it, if true.
    Open(bool),
    /// `not` before values of these qualifiers.
    NotValues(Head),
    /// `(` before values of these qualifiers.
    OpenValues(Head),
    /// `)` after the operand of a byte test and its mask.
    CloseLeft(Operand, Option<u32>),
}

/// How an operand is completed.
#[derive(Clone, Copy)]
pub(crate) enum Completion {
    /// It is complete already.
    Done,
    /// A primitive without values, which leaves no qualifiers in force.
    Bare(Primitive),
    /// A value of the qualifiers in force.
    InForce(Primitive),
    /// A value of these qualifiers, which are in force after it.
    Value(Head, Primitive),
}

/// Returns what a token that is no word changes in a mode.
pub(crate) fn symbol_change(mode: Mode, kind: TokenKind) -> Result<Change, FilterErrorKind>
    ensures value { (most : ℕ) (state : State) (text : List ℕ)
        → read_in most state mode (shown_token kind text) ≡ reading most state result (shown_token kind text) }
    ensures apt { IsApt mode result }
{
    match mode {
        Mode::Operand(only) => operand_change(only, kind),
        Mode::Complete => Ok(Change::After(Completion::Done)),
        Mode::Layer(layer) => layer_change(layer, kind),
        Mode::Side(sided, side) => side_change(sided, side, kind),
        Mode::OtherSide(sided, other, side) => other_side_change(sided, other, side, kind),
        Mode::Host(primitive) => host_change(primitive, kind),
        Mode::Net(layer, side, network) => net_change(layer, side, network, kind),
        Mode::Vlan => Ok(Change::After(Completion::Bare(Primitive::Vlan(None)))),
        Mode::Offset(_) | Mode::GroupItem(_, _) => Err(constant_error(kind)),
        Mode::OffsetEnd(layer, offset) => offset_end_change(layer, offset, kind),
        Mode::SizeEnd(layer, offset, width) => size_end_change(layer, offset, width, kind),
        Mode::Left(operand, mask) => left_change(operand, mask, kind),
        Mode::Group(comparison) => group_change(comparison, kind),
        Mode::GroupEnd(comparison, bits) => group_end_change(comparison, bits, kind),
        Mode::Test(operand, mask, relation, number) => {
            test_change(operand, mask, relation, number, kind)
        }
        Mode::Length(_, _, _) | Mode::Mask(_, _, _) | Mode::PacketLength(_) | Mode::Size(_, _) => {
            Err(FilterErrorKind::Misplaced)
        }
    }
}

/// Returns how an operand is completed that ends in a mode, or `None` if it can't end there.
pub(crate) fn completion_of(mode: Mode) -> Option<Completion>
    ensures value { (state : State) → settled_in state mode ≡ settling state result }
    ensures apt { IsAptEnd mode result }
{
    match mode {
        Mode::Complete => Some(Completion::Done),
        Mode::Layer(layer) => match layer_primitive(layer) {
            Some(primitive) => Some(Completion::Bare(primitive)),
            None => None,
        },
        Mode::Host(primitive) => Some(Completion::InForce(primitive)),
        Mode::Net(layer, side, network) => Some(Completion::InForce(Primitive::Address(
            layer, side, network,
        ))),
        Mode::Vlan => Some(Completion::Bare(Primitive::Vlan(None))),
        Mode::Test(operand, mask, relation, number) => Some(Completion::Bare(number_test(
            operand, mask, relation, number,
        ))),
        _ => None,
    }
}

// ---- operands

/// Returns what a token changes where an operand is expected.
fn operand_change(only: bool, kind: TokenKind) -> Result<Change, FilterErrorKind>
    ensures value { (most : ℕ) (state : State) (text : List ℕ)
        → read_operand most state only (shown_token kind text) ≡ reading most state result (shown_token kind text) }
    ensures apt { IsApt (Mode.Operand only) result }
{
    match kind {
        TokenKind::Not => Ok(Change::Not(only)),
        TokenKind::Open => Ok(Change::Open(only)),
        TokenKind::Keyword(keyword) => {
            if only {
                Err(FilterErrorKind::Misplaced)
            } else {
                keyword_change(keyword)
            }
        }
        _ => Err(FilterErrorKind::Misplaced),
    }
}

/// Returns what a keyword changes that begins an operand.
fn keyword_change(keyword: Keyword) -> Result<Change, FilterErrorKind>
    ensures value { (most : ℕ) (state : State) (token : Token)
        → read_keyword state keyword ≡ reading most state result token }
    ensures apt { IsApt (Mode.Operand false) result }
{
    match keyword {
        Keyword::Len => Ok(Change::Continue(Mode::Left(Operand::Length, None))),
        Keyword::Vlan => Ok(Change::Continue(Mode::Vlan)),
        Keyword::Less => Ok(Change::Continue(Mode::PacketLength(Relation::LessOrEqual))),
        Keyword::Greater => Ok(Change::Continue(Mode::PacketLength(Relation::GreaterOrEqual))),
        Keyword::Broadcast => Ok(bare(ethernet_broadcast())),
        Keyword::Multicast => Ok(bare(ethernet_multicast())),
        Keyword::Igmp => Ok(bare(protocol_test(IpVersion::V4, 2))),
        Keyword::Ah => Ok(bare(protocol_test(IpVersion::Any, 51))),
        Keyword::Esp => Ok(bare(protocol_test(IpVersion::Any, 50))),
        Keyword::Proto => Ok(qualifiers(Head::Protocol(IpVersion::Any))),
        Keyword::Src => Ok(side(Sided::Addresses(AddressLayer::Any), Side::Source)),
        Keyword::Dst => Ok(side(Sided::Addresses(AddressLayer::Any), Side::Destination)),
        Keyword::Host => Ok(qualifiers(Head::Host(AddressLayer::Any, Side::Either))),
        Keyword::Net => Ok(qualifiers(Head::Net(AddressLayer::Any, Side::Either))),
        Keyword::Port => Ok(qualifiers(Head::Port(PortProtocol::Any, Side::Either))),
        Keyword::PortRange => Ok(qualifiers(Head::PortRange(PortProtocol::Any, Side::Either))),
        Keyword::Mask => Err(FilterErrorKind::Misplaced),
        _ => Ok(Change::Continue(Mode::Layer(keyword))),
    }
}

/// Returns the change of a primitive without values that is complete.
fn bare(primitive: Primitive) -> Change
    ensures { result ≡ Change.Complete (Completion.Bare primitive) }
{
    Change::Complete(Completion::Bare(primitive))
}

/// Returns the change of qualifiers that are complete, which values follow.
fn qualifiers(head: Head) -> Change
    ensures { result ≡ Change.Qualify head (Mode.Operand true) }
{
    Change::Qualify(head, Mode::Operand(true))
}

/// Returns the change of a side.
fn side(sided: Sided, side: Side) -> Change
    ensures { result ≡ Change.Continue (Mode.Side sided side) }
{
    Change::Continue(Mode::Side(sided, side))
}

// ---- layers

/// Returns what a token changes after the name of a layer.
fn layer_change(layer: Keyword, kind: TokenKind) -> Result<Change, FilterErrorKind>
    ensures value { (most : ℕ) (state : State) (text : List ℕ)
        → read_layer state layer (shown_token kind text) ≡ reading most state result (shown_token kind text) }
    ensures apt { IsApt (Mode.Layer layer) result }
{
    match kind {
        TokenKind::LeftBracket => match field_of(layer) {
            Some(field) => Ok(Change::Continue(Mode::Offset(field))),
            None => Err(FilterErrorKind::Misplaced),
        },
        TokenKind::Keyword(following) => layer_word_change(layer, following),
        _ => match layer_primitive(layer) {
            Some(primitive) => Ok(Change::After(Completion::Bare(primitive))),
            None => Err(FilterErrorKind::Misplaced),
        },
    }
}

/// Returns what a keyword changes after the name of a layer.
fn layer_word_change(layer: Keyword, following: Keyword) -> Result<Change, FilterErrorKind>
    ensures value { (most : ℕ) (state : State) (token : Token)
        → read_layer_word state layer following ≡ reading most state result token }
    ensures apt { IsApt (Mode.Layer layer) result }
{
    match layer {
        Keyword::Ip => ip_change(following),
        Keyword::Ip6 => ip6_change(following),
        Keyword::Arp => address_change(AddressLayer::Arp, following),
        Keyword::Tcp => port_change(PortProtocol::Tcp, following),
        Keyword::Udp => port_change(PortProtocol::Udp, following),
        Keyword::Sctp => port_change(PortProtocol::Sctp, following),
        Keyword::Ether => ether_change(following),
        _ => Err(FilterErrorKind::Misplaced),
    }
}

/// Returns what a keyword changes after `ip`.
fn ip_change(following: Keyword) -> Result<Change, FilterErrorKind>
    ensures value { (most : ℕ) (state : State) (token : Token)
        → read_layer_word state Keyword.Ip following ≡ reading most state result token }
    ensures apt { IsApt (Mode.Layer Keyword.Ip) result }
{
    match following {
        Keyword::Proto => Ok(qualifiers(Head::Protocol(IpVersion::V4))),
        Keyword::Multicast => Ok(bare(ipv4_multicast())),
        _ => address_change(AddressLayer::Ipv4, following),
    }
}

/// Returns what a keyword changes after `ip6`.
fn ip6_change(following: Keyword) -> Result<Change, FilterErrorKind>
    ensures value { (most : ℕ) (state : State) (token : Token)
        → read_layer_word state Keyword.Ip6 following ≡ reading most state result token }
    ensures apt { IsApt (Mode.Layer Keyword.Ip6) result }
{
    match following {
        Keyword::Proto => Ok(qualifiers(Head::Protocol(IpVersion::V6))),
        Keyword::Multicast => Ok(bare(ipv6_multicast())),
        _ => address_change(AddressLayer::Ipv6, following),
    }
}

/// Returns what a keyword changes after the name of a network layer that qualifies addresses.
fn address_change(layer: AddressLayer, following: Keyword) -> Result<Change, FilterErrorKind>
    ensures value { (most : ℕ) (state : State) (token : Token)
        → read_address_word state layer following ≡ reading most state result token }
    ensures apt { (name : Keyword) → IsApt (Mode.Layer name) result }
{
    match following {
        Keyword::Src => Ok(side(Sided::Addresses(layer), Side::Source)),
        Keyword::Dst => Ok(side(Sided::Addresses(layer), Side::Destination)),
        Keyword::Host => Ok(qualifiers(Head::Host(layer, Side::Either))),
        Keyword::Net => Ok(qualifiers(Head::Net(layer, Side::Either))),
        _ => Err(FilterErrorKind::Misplaced),
    }
}

/// Returns what a keyword changes after the name of a transport protocol that qualifies ports.
fn port_change(ports: PortProtocol, following: Keyword) -> Result<Change, FilterErrorKind>
    ensures value { (most : ℕ) (state : State) (token : Token)
        → read_port_word state ports following ≡ reading most state result token }
    ensures apt { (name : Keyword) → IsApt (Mode.Layer name) result }
{
    match following {
        Keyword::Src => Ok(side(Sided::Ports(ports), Side::Source)),
        Keyword::Dst => Ok(side(Sided::Ports(ports), Side::Destination)),
        Keyword::Port => Ok(qualifiers(Head::Port(ports, Side::Either))),
        Keyword::PortRange => Ok(qualifiers(Head::PortRange(ports, Side::Either))),
        _ => Err(FilterErrorKind::Misplaced),
    }
}

/// Returns what a keyword changes after `ether`.
fn ether_change(following: Keyword) -> Result<Change, FilterErrorKind>
    ensures value { (most : ℕ) (state : State) (token : Token)
        → read_layer_word state Keyword.Ether following ≡ reading most state result token }
    ensures apt { IsApt (Mode.Layer Keyword.Ether) result }
{
    match following {
        Keyword::Broadcast => Ok(bare(ethernet_broadcast())),
        Keyword::Multicast => Ok(bare(ethernet_multicast())),
        Keyword::Proto => Ok(qualifiers(Head::EtherType)),
        Keyword::Host => Ok(qualifiers(Head::Station(Side::Either))),
        Keyword::Src => Ok(side(Sided::Stations, Side::Source)),
        Keyword::Dst => Ok(side(Sided::Stations, Side::Destination)),
        _ => Err(FilterErrorKind::Misplaced),
    }
}

// ---- sides

/// Returns what a token changes after a side.
fn side_change(sided: Sided, side: Side, kind: TokenKind) -> Result<Change, FilterErrorKind>
    ensures value { (most : ℕ) (state : State) (text : List ℕ)
        → read_side most state sided side (shown_token kind text) ≡ reading most state result (shown_token kind text) }
    ensures apt { IsApt (Mode.Side sided side) result }
{
    match (side, kind) {
        (Side::Source, TokenKind::Or) => Ok(other_side(sided, Side::Destination, Side::Either)),
        (Side::Source, TokenKind::And) => Ok(other_side(sided, Side::Destination, Side::Both)),
        (Side::Destination, TokenKind::Or) => Ok(other_side(sided, Side::Source, Side::Either)),
        (Side::Destination, TokenKind::And) => Ok(other_side(sided, Side::Source, Side::Both)),
        _ => sided_change(sided, side, kind),
    }
}

/// Returns the change of an operator between two sides.
fn other_side(sided: Sided, other: Side, side: Side) -> Change
    ensures { result ≡ Change.Continue (Mode.OtherSide sided other side) }
{
    Change::Continue(Mode::OtherSide(sided, other, side))
}

/// Returns what a token changes after a side that is complete.
fn sided_change(sided: Sided, side: Side, kind: TokenKind) -> Result<Change, FilterErrorKind>
    ensures value { (most : ℕ) (state : State) (text : List ℕ)
        → read_sided most state sided side (shown_token kind text) ≡ reading most state result (shown_token kind text) }
    ensures apt { IsApt (Mode.Side sided side) result }
{
    match kind {
        TokenKind::Keyword(following) => sided_word_change(sided, side, following),
        _ => match side_head(sided, side) {
            Some(head) => side_values_change(head, kind),
            None => Err(FilterErrorKind::Misplaced),
        },
    }
}

/// Returns what a keyword changes after a side.
fn sided_word_change(
    sided: Sided,
    side: Side,
    following: Keyword,
) -> Result<Change, FilterErrorKind>
    ensures value { (most : ℕ) (state : State) (token : Token)
        → read_sided_word state sided side following ≡ reading most state result token }
    ensures apt { IsApt (Mode.Side sided side) result }
{
    match (sided, following) {
        (Sided::Addresses(layer), Keyword::Host) => Ok(qualifiers(Head::Host(layer, side))),
        (Sided::Addresses(layer), Keyword::Net) => Ok(qualifiers(Head::Net(layer, side))),
        (Sided::Addresses(AddressLayer::Any), Keyword::Port) => {
            Ok(qualifiers(Head::Port(PortProtocol::Any, side)))
        }
        (Sided::Addresses(AddressLayer::Any), Keyword::PortRange) => {
            Ok(qualifiers(Head::PortRange(PortProtocol::Any, side)))
        }
        (Sided::Stations, Keyword::Host) => Ok(qualifiers(Head::Station(side))),
        (Sided::Ports(ports), Keyword::Port) => Ok(qualifiers(Head::Port(ports, side))),
        (Sided::Ports(ports), Keyword::PortRange) => Ok(qualifiers(Head::PortRange(ports, side))),
        _ => Err(FilterErrorKind::Misplaced),
    }
}

/// Returns what a token that is no keyword changes where values follow a side without `host`.
fn side_values_change(head: Head, kind: TokenKind) -> Result<Change, FilterErrorKind>
    ensures value { (most : ℕ) (state : State) (text : List ℕ)
        → read_side_values most state (Some head) (shown_token kind text)
        ≡ reading most state result (shown_token kind text) }
    ensures apt { (sided : Sided) (side : Side) → IsApt (Mode.Side sided side) result }
{
    match kind {
        TokenKind::Not => Ok(Change::NotValues(head)),
        TokenKind::Open => Ok(Change::OpenValues(head)),
        _ => Err(FilterErrorKind::Misplaced),
    }
}

/// Returns what a token changes where the other side is expected.
fn other_side_change(
    sided: Sided,
    other: Side,
    side: Side,
    kind: TokenKind,
) -> Result<Change, FilterErrorKind>
    ensures value { (most : ℕ) (state : State) (text : List ℕ)
        → read_other_side state sided other side (shown_token kind text)
        ≡ reading most state result (shown_token kind text) }
    ensures apt { IsApt (Mode.OtherSide sided other side) result }
{
    match (other, kind) {
        (Side::Source, TokenKind::Keyword(Keyword::Src))
        | (Side::Destination, TokenKind::Keyword(Keyword::Dst)) => {
            Ok(Change::Continue(Mode::Side(sided, side)))
        }
        _ => Err(FilterErrorKind::Misplaced),
    }
}

// ---- values

/// Returns what a token changes after an address of a host.
fn host_change(primitive: Primitive, kind: TokenKind) -> Result<Change, FilterErrorKind>
    ensures value { (most : ℕ) (state : State) (text : List ℕ)
        → read_host state primitive (shown_token kind text) ≡ reading most state result (shown_token kind text) }
    ensures apt { IsApt (Mode.Host primitive) result }
{
    match kind {
        TokenKind::Slash | TokenKind::Keyword(Keyword::Mask) => Err(FilterErrorKind::NetOnly),
        _ => Ok(Change::After(Completion::InForce(primitive))),
    }
}

/// Returns what a token changes after a network.
fn net_change(
    layer: AddressLayer,
    side: Side,
    network: Network,
    kind: TokenKind,
) -> Result<Change, FilterErrorKind>
    ensures value { (most : ℕ) (state : State) (text : List ℕ)
        → read_net state layer side network (shown_token kind text)
        ≡ reading most state result (shown_token kind text) }
    ensures apt { IsApt (Mode.Net layer side network) result }
{
    match (kind, network.address) {
        (TokenKind::Slash, address) => Ok(Change::Continue(Mode::Length(layer, side, address))),
        (TokenKind::Keyword(Keyword::Mask), IpAddr::V4(address)) => Ok(Change::Continue(Mode::Mask(
            layer,
            side,
            IpAddr::V4(address),
        ))),
        (TokenKind::Keyword(Keyword::Mask), IpAddr::V6(_)) => Err(FilterErrorKind::Misplaced),
        _ => Ok(Change::After(Completion::InForce(Primitive::Address(layer, side, network)))),
    }
}

// ---- byte tests

/// Returns what a token changes after the offset of a byte test.
fn offset_end_change(
    layer: FieldLayer,
    offset: u32,
    kind: TokenKind,
) -> Result<Change, FilterErrorKind>
    ensures value { (most : ℕ) (state : State) (text : List ℕ)
        → read_offset_end state layer offset (shown_token kind text)
        ≡ reading most state result (shown_token kind text) }
    ensures apt { IsApt (Mode.OffsetEnd layer offset) result }
{
    match kind {
        TokenKind::Colon => Ok(Change::Continue(Mode::Size(layer, offset))),
        TokenKind::RightBracket => Ok(access(layer, offset, Width::One)),
        _ => Err(test_error(kind)),
    }
}

/// Returns what a token changes after the size of a byte test.
fn size_end_change(
    layer: FieldLayer,
    offset: u32,
    width: Width,
    kind: TokenKind,
) -> Result<Change, FilterErrorKind>
    ensures value { (most : ℕ) (state : State) (text : List ℕ)
        → read_size_end state layer offset width (shown_token kind text)
        ≡ reading most state result (shown_token kind text) }
    ensures apt { IsApt (Mode.SizeEnd layer offset width) result }
{
    match kind {
        TokenKind::RightBracket => Ok(access(layer, offset, width)),
        _ => Err(test_error(kind)),
    }
}

/// Returns the change of `]` after an offset and a size.
fn access(layer: FieldLayer, offset: u32, width: Width) -> Change
    ensures { result ≡ Change.Continue (Mode.Left (Operand.Bytes layer offset width) None) }
{
    Change::Continue(Mode::Left(Operand::Bytes(layer, offset, width), None))
}

/// Returns what a token changes after the operand of a byte test and its mask, if there is one.
fn left_change(
    operand: Operand,
    mask: Option<u32>,
    kind: TokenKind,
) -> Result<Change, FilterErrorKind>
    ensures value { (most : ℕ) (state : State) (text : List ℕ)
        → read_left state operand mask (shown_token kind text)
        ≡ reading most state result (shown_token kind text) }
    ensures apt { IsApt (Mode.Left operand mask) result }
{
    match (kind, mask) {
        (TokenKind::Ampersand, None) => Ok(Change::Continue(Mode::Group(Comparison {
            operand,
            mask: None,
            relation: None,
            number: None,
        }))),
        (TokenKind::Close, _) => Ok(Change::CloseLeft(operand, mask)),
        (TokenKind::Relation(relation), _) => Ok(Change::Continue(Mode::Group(Comparison {
            operand,
            mask,
            relation: Some(relation),
            number: None,
        }))),
        _ => Err(test_error(kind)),
    }
}

/// Returns what a token changes where a constant is expected, or constants in parentheses.
fn group_change(comparison: Comparison, kind: TokenKind) -> Result<Change, FilterErrorKind>
    ensures value { (most : ℕ) (state : State) (text : List ℕ)
        → read_group state comparison (shown_token kind text)
        ≡ reading most state result (shown_token kind text) }
    ensures apt { IsApt (Mode.Group comparison) result }
{
    match kind {
        TokenKind::Open => Ok(Change::Continue(Mode::GroupItem(comparison, None))),
        _ => Err(constant_error(kind)),
    }
}

/// Returns what a token changes after a constant in parentheses.
fn group_end_change(
    comparison: Comparison,
    bits: u32,
    kind: TokenKind,
) -> Result<Change, FilterErrorKind>
    ensures value { (most : ℕ) (state : State) (text : List ℕ)
        → read_group_end state comparison bits (shown_token kind text)
        ≡ reading most state result (shown_token kind text) }
    ensures apt { IsApt (Mode.GroupEnd comparison bits) result }
{
    match kind {
        TokenKind::Bar => Ok(Change::Continue(Mode::GroupItem(comparison, Some(bits)))),
        TokenKind::Close => Ok(Change::Continue(group_mode(comparison, bits))),
        _ => Err(test_error(kind)),
    }
}

/// Returns what a token changes after a byte test that is complete.
fn test_change(
    operand: Operand,
    mask: Option<u32>,
    relation: Relation,
    number: u32,
    kind: TokenKind,
) -> Result<Change, FilterErrorKind>
    ensures value { (most : ℕ) (state : State) (text : List ℕ)
        → read_test state operand mask relation number (shown_token kind text)
        ≡ reading most state result (shown_token kind text) }
    ensures apt { IsApt (Mode.Test operand mask relation number) result }
{
    match kind {
        TokenKind::Bar => Ok(Change::Continue(Mode::Group(Comparison {
            operand,
            mask,
            relation: Some(relation),
            number: Some(number),
        }))),
        TokenKind::Ampersand | TokenKind::Slash => Err(FilterErrorKind::Arithmetic),
        _ => Ok(Change::After(Completion::Bare(number_test(operand, mask, relation, number)))),
    }
}

/// Returns the mode after a constant, or after constants in parentheses: they are the mask, or bits of the number.
pub(crate) fn group_mode(comparison: Comparison, bits: u32) -> Mode
    ensures { result ≡ group_mode comparison comparison.relation bits }
{
    match comparison.relation {
        None => Mode::Left(comparison.operand, Some(bits)),
        Some(relation) => Mode::Test(
            comparison.operand,
            comparison.mask,
            relation,
            union(comparison.number, bits),
        ),
    }
}

/// Returns the bits of constants that were read, and of another one.
pub(crate) fn union(read: Option<u32>, bits: u32) -> u32
    ensures { result ≡ union read bits }
{
    match read {
        None => bits,
        Some(others) => others | bits,
    }
}

/// Returns the kind of error of a token that has no place in a byte test.
fn test_error(kind: TokenKind) -> FilterErrorKind
    ensures { (text : List ℕ) → result ≡ test_kind (shown_token kind text) }
{
    match kind {
        TokenKind::Ampersand | TokenKind::Bar | TokenKind::Slash => FilterErrorKind::Arithmetic,
        _ => FilterErrorKind::Misplaced,
    }
}

/// Returns the kind of error of a token that is no constant.
fn constant_error(kind: TokenKind) -> FilterErrorKind
    ensures { (text : List ℕ) → result ≡ constant_kind (shown_token kind text) }
{
    match kind {
        TokenKind::Open | TokenKind::Keyword(Keyword::Len) => FilterErrorKind::Arithmetic,
        TokenKind::Keyword(keyword) => match field_of(keyword) {
            Some(_) => FilterErrorKind::Arithmetic,
            None => FilterErrorKind::Misplaced,
        },
        _ => FilterErrorKind::Misplaced,
    }
}

// ---- tables

/// Returns the layer whose bytes tests can read by this keyword.
fn field_of(keyword: Keyword) -> Option<FieldLayer>
    ensures { result ≡ field_of keyword }
{
    match keyword {
        Keyword::Ether => Some(FieldLayer::Ethernet),
        Keyword::Arp => Some(FieldLayer::Arp),
        Keyword::Ip => Some(FieldLayer::Ipv4),
        Keyword::Ip6 => Some(FieldLayer::Ipv6),
        Keyword::Tcp => Some(FieldLayer::Tcp),
        Keyword::Udp => Some(FieldLayer::Udp),
        Keyword::Sctp => Some(FieldLayer::Sctp),
        Keyword::Icmp => Some(FieldLayer::Icmpv4),
        Keyword::Icmp6 => Some(FieldLayer::Icmpv6),
        _ => None,
    }
}

/// Returns the primitive that the name of a layer is by itself.
fn layer_primitive(keyword: Keyword) -> Option<Primitive>
    ensures { result ≡ layer_primitive keyword }
{
    match keyword {
        Keyword::Ip => Some(Primitive::EtherType(EtherType::IPV4)),
        Keyword::Ip6 => Some(Primitive::EtherType(EtherType::IPV6)),
        Keyword::Arp => Some(Primitive::EtherType(EtherType::ARP)),
        Keyword::Tcp => Some(protocol_test(IpVersion::Any, 6)),
        Keyword::Udp => Some(protocol_test(IpVersion::Any, 17)),
        Keyword::Sctp => Some(protocol_test(IpVersion::Any, 132)),
        Keyword::Icmp => Some(protocol_test(IpVersion::V4, 1)),
        Keyword::Icmp6 => Some(protocol_test(IpVersion::V6, 58)),
        _ => None,
    }
}

/// Returns the qualifiers that a side is by itself, without `host`.
pub(crate) fn side_head(sided: Sided, side: Side) -> Option<Head>
    ensures { result ≡ side_head sided side }
{
    match sided {
        Sided::Addresses(layer) => Some(Head::Host(layer, side)),
        Sided::Stations => Some(Head::Station(side)),
        Sided::Ports(_) => None,
    }
}

/// Returns the primitive of an IP protocol number.
pub(crate) fn protocol_test(version: IpVersion, number: u8) -> Primitive
    ensures { result ≡ protocol_test version number }
{
    Primitive::Protocol(version, IpNumber(number))
}

/// Returns the primitive of a comparison; without a mask all bits are kept.
pub(crate) fn number_test(
    operand: Operand,
    mask: Option<u32>,
    relation: Relation,
    number: u32,
) -> Primitive
    ensures { result ≡ number_test operand mask relation number }
{
    Primitive::Number(operand, mask.unwrap_or(u32::MAX), relation, number)
}

/// Returns the primitive of Ethernet broadcasts.
fn ethernet_broadcast() -> Primitive
    ensures { result ≡ ethernet_broadcast }
{
    Primitive::Station(Side::Destination, [255; 6])
}

/// Returns the primitive of Ethernet multicasts: the lowest bit of the first byte of the destination is 1.
fn ethernet_multicast() -> Primitive
    ensures { result ≡ ethernet_multicast }
{
    Primitive::Number(
        Operand::Bytes(FieldLayer::Ethernet, 0, Width::One),
        1,
        Relation::NotEqual,
        0,
    )
}

/// Returns the primitive of IPv4 multicasts: `224.0.0.0/3`.
fn ipv4_multicast() -> Primitive
    ensures { result ≡ multicast_v4 }
{
    Primitive::Address(
        AddressLayer::Ipv4,
        Side::Destination,
        Network {
            address: IpAddr::V4(Ipv4Addr::new(224, 0, 0, 0)),
            bits: 3,
        },
    )
}

/// Returns the primitive of IPv6 multicasts: `ff00::/8`.
fn ipv6_multicast() -> Primitive
    ensures { result ≡ multicast_v6 }
{
    Primitive::Address(
        AddressLayer::Ipv6,
        Side::Destination,
        Network {
            address: IpAddr::V6(Ipv6Addr::new(0xff00, 0, 0, 0, 0, 0, 0, 0)),
            bits: 8,
        },
    )
}
