//! Words that are no keywords: the change that each makes, by the part of the operand before it.

ghost use Rattle.std.specs.Prelude.{◌≡◌, ℕ, None, Bool, IfErr, IfOk, IfSome, IfNone, IsTrue, false, take};
ghost use Rattle.std.specs.List.{list_any};
ghost use Rattle.filter_tokens.specs.Tokens.{Token, is_colon, is_digit};
ghost use Rattle.filter_tokens.specs.Values.{IsFamily};
ghost use Rattle.filter_tokens.specs.declared.filter_error.FilterErrorKind.{FilterErrorKind};
ghost use Rattle.filter_tokens.specs.declared.primitive.Primitive.{Primitive};
ghost use Rattle.filter_tokens.specs.declared.primitive.Side.{Side};
ghost use Rattle.filter_language.specs.Changes.{IsApt, IsModeChange, IsValueChange, StopsMode, changed};
ghost use Rattle.filter_language.specs.Grammar.{IsWordValue};
ghost use Rattle.filter_language.specs.Refusals.{IsValueKind};
ghost use Rattle.filter_language.specs.States.{State, StopsSide, StopsValue, after_value, qualified};
ghost use Rattle.filter_language.specs.declared.mode.Sided.{Sided};

use crate::change::{Change, Completion, group_mode, number_test, protocol_test, union};
use crate::head::Head;
use crate::mode::{Comparison, Mode};
use ep_base::EtherType;
use filter_tokens::filter_error::FilterErrorKind;
use filter_tokens::primitive::{AddressLayer, FieldLayer, Operand, Primitive, Relation, Side};
use filter_tokens::value;
use std::net::IpAddr;

// ---- values

/// Returns what a word changes where a value of the qualifiers in force is expected.
pub(crate) fn value_change(head: Option<Head>, word: &[u8]) -> Result<Change, FilterErrorKind>
    ensures ok { IfOk result (λ change. IsValueChange head word.now change) }
    ensures apt { (only : Bool) → IsApt (Mode.Operand only) result }
    ensures err { IfErr result (λ found. StopsValue head word.now found) }
{
    match head {
        Some(head) => qualified_change(head, word),
        None => Err(unqualified_error(word)),
    }
}

/// Returns what a word changes after a side, with the qualifiers that the side is without `host`.
pub(crate) fn side_value_change(head: Option<Head>, word: &[u8]) -> Result<Change, FilterErrorKind>
    ensures ok { IfOk result (λ change. IsValueChange head word.now change) }
    ensures apt { (sided : Sided) (side : Side) → IsApt (Mode.Side sided side) result }
    ensures err { IfErr result (λ found. StopsSide head word.now found) }
{
    match head {
        Some(head) => qualified_change(head, word),
        None => Err(FilterErrorKind::Misplaced),
    }
}

/// Returns what a word changes where a value of these qualifiers is expected.
fn qualified_change(head: Head, word: &[u8]) -> Result<Change, FilterErrorKind>
    ensures ok { IfOk result (λ change. IsValueChange (Some head) word.now change) }
    ensures apt_operand { (only : Bool) → IsApt (Mode.Operand only) result }
    ensures apt_side { (sided : Sided) (side : Side) → IsApt (Mode.Side sided side) result }
    ensures err { IfErr result (λ found. StopsValue (Some head) word.now found) }
{
    match word_value(head, word) {
        Some(primitive) => Ok(after_value(head, primitive)),
        None => Err(value_error(head, word)),
    }
}

/// Returns the change of a value with its qualifiers.
fn after_value(head: Head, primitive: Primitive) -> Change
    ensures value { (most : ℕ) (state : State) (token : Token)
        → changed most state result token ≡ Ok (after_value (qualified state head) head primitive) }
    ensures apt_operand { (only : Bool) → IsApt (Mode.Operand only) (Ok result) }
    ensures apt_side { (sided : Sided) (side : Side) → IsApt (Mode.Side sided side) (Ok result) }
{
    match (head, primitive) {
        (Head::Host(_, _), _) => Change::Qualify(head, Mode::Host(primitive)),
        (Head::Net(_, _), Primitive::Address(layer, side, network)) => {
            Change::Qualify(head, Mode::Net(layer, side, network))
        }
        _ => Change::Complete(Completion::Value(head, primitive)),
    }
}

/// Returns the kind of error of a word that is no keyword, without qualifiers in force.
fn unqualified_error(word: &[u8]) -> FilterErrorKind
    ensures { StopsValue None word.now result }
{
    if begins_with_digit(word) || has_colon(word) {
        FilterErrorKind::Unqualified
    } else {
        FilterErrorKind::Unknown
    }
}

/// Returns true if a word begins with a digit.
fn begins_with_digit(word: &[u8]) -> bool
    ensures { result ≡ list_any is_digit (take 1 word.now) }
{
    matches!(word, [b'0'..=b'9', ..])
}

/// Returns true if a word has a colon.
fn has_colon(word: &[u8]) -> bool
    ensures { result ≡ list_any is_colon word.now }
{
    word.iter().any(|byte| *byte == b':')
}

/// Parses a value that is one word.
fn word_value(head: Head, word: &[u8]) -> Option<Primitive>
    ensures some { IfSome result (λ primitive. IsWordValue head word.now primitive) }
    ensures none { IfNone result ((primitive : Primitive) → IsWordValue head word.now primitive → ⊥) }
{
    match head {
        Head::Host(layer, side) => host_value(layer, side, word),
        Head::Net(layer, side) => net_value(layer, side, word),
        Head::Station(side) => match value::station(word) {
            Some(station) => Some(Primitive::Station(side, station)),
            None => None,
        },
        Head::Port(ports, side) => match value::port(word) {
            Some(port) => Some(Primitive::Port(ports, side, port, port)),
            None => None,
        },
        Head::PortRange(ports, side) => match value::port_range(word) {
            Some((low, high)) => Some(Primitive::Port(ports, side, low, high)),
            None => None,
        },
        Head::Protocol(version) => match value::byte_number(word) {
            Some(number) => Some(protocol_test(version, number)),
            None => None,
        },
        Head::EtherType => match value::ether_type(word) {
            Some(number) => Some(Primitive::EtherType(EtherType(number))),
            None => None,
        },
    }
}

/// Parses an address of a host.
fn host_value(layer: AddressLayer, side: Side, word: &[u8]) -> Option<Primitive>
    ensures some { IfSome result (λ primitive. IsWordValue (Head.Host layer side) word.now primitive) }
    ensures none { IfNone result ((primitive : Primitive) → IsWordValue (Head.Host layer side) word.now primitive → ⊥) }
{
    let address = value::address(word)?;
    if is_family(layer, &address) {
        Some(Primitive::Address(layer, side, value::whole_network(address)))
    } else {
        None
    }
}

/// Parses a network without a prefix length or mask.
fn net_value(layer: AddressLayer, side: Side, word: &[u8]) -> Option<Primitive>
    ensures some { IfSome result (λ primitive. IsWordValue (Head.Net layer side) word.now primitive) }
    ensures none { IfNone result ((primitive : Primitive) → IsWordValue (Head.Net layer side) word.now primitive → ⊥) }
{
    match value::network(word) {
        Some(network) => {
            if is_family(layer, &network.address) {
                Some(Primitive::Address(layer, side, network))
            } else {
                None
            }
        }
        None => None,
    }
}

/// Returns true if addresses of this IP version can be those of the layer.
fn is_family(layer: AddressLayer, address: &IpAddr) -> bool
    ensures yes { IsTrue result → IsFamily layer address.now }
    ensures no { result ≡ false → IsFamily layer address.now → ⊥ }
{
    match (layer, address) {
        (AddressLayer::Any, _) => true,
        (AddressLayer::Ipv4 | AddressLayer::Arp, IpAddr::V4(_)) => true,
        (AddressLayer::Ipv6, IpAddr::V6(_)) => true,
        (AddressLayer::Ipv4 | AddressLayer::Arp, IpAddr::V6(_)) => false,
        (AddressLayer::Ipv6, IpAddr::V4(_)) => false,
    }
}

/// Returns the kind of error of a word that is no value of these qualifiers.
fn value_error(head: Head, word: &[u8]) -> FilterErrorKind
    ensures { IsValueKind head word.now result }
{
    match head {
        Head::Host(_, _) => match value::address(word) {
            Some(_) => FilterErrorKind::WrongFamily,
            None => FilterErrorKind::NotAnAddress,
        },
        Head::Net(_, _) => match value::network(word) {
            Some(_) => FilterErrorKind::WrongFamily,
            None => FilterErrorKind::NotANetwork,
        },
        Head::Station(_) => FilterErrorKind::NotAStation,
        Head::Port(_, _) => FilterErrorKind::NotAPort,
        Head::PortRange(_, _) => FilterErrorKind::NotARange,
        Head::Protocol(_) => FilterErrorKind::NotAProtocol,
        Head::EtherType => FilterErrorKind::NotAnEtherType,
    }
}

// ---- numbers

/// Returns what a word changes after `vlan`.
pub(crate) fn vlan_change(word: &[u8]) -> Result<Change, FilterErrorKind>
    ensures ok { IfOk result (λ change. IsModeChange Mode.Vlan word.now change) }
    ensures apt { IsApt Mode.Vlan result }
    ensures err { IfErr result (λ found. StopsMode Mode.Vlan word.now found) }
{
    match value::vlan_id(word) {
        Some(id) => Ok(Change::Complete(Completion::Bare(Primitive::Vlan(Some(id))))),
        None => {
            if begins_with_digit(word) {
                Err(FilterErrorKind::NotAVlan)
            } else {
                Err(FilterErrorKind::Misplaced)
            }
        }
    }
}

/// Returns what a word changes after `less` or `greater`.
pub(crate) fn packet_length_change(
    relation: Relation,
    word: &[u8],
) -> Result<Change, FilterErrorKind>
    ensures ok { IfOk result (λ change. IsModeChange (Mode.PacketLength relation) word.now change) }
    ensures apt { IsApt (Mode.PacketLength relation) result }
    ensures err { IfErr result (λ found. StopsMode (Mode.PacketLength relation) word.now found) }
{
    match value::number(word) {
        Some(number) => Ok(Change::Complete(Completion::Bare(number_test(
            Operand::Length,
            None,
            relation,
            number,
        )))),
        None => Err(FilterErrorKind::NotANumber),
    }
}

/// Returns what a word changes where an offset is expected.
pub(crate) fn offset_change(layer: FieldLayer, word: &[u8]) -> Result<Change, FilterErrorKind>
    ensures ok { IfOk result (λ change. IsModeChange (Mode.Offset layer) word.now change) }
    ensures apt { IsApt (Mode.Offset layer) result }
    ensures err { IfErr result (λ found. StopsMode (Mode.Offset layer) word.now found) }
{
    match value::constant(word) {
        Some(offset) => Ok(Change::Continue(Mode::OffsetEnd(layer, offset))),
        None => Err(FilterErrorKind::NotANumber),
    }
}

/// Returns what a word changes where a size is expected.
pub(crate) fn size_change(
    layer: FieldLayer,
    offset: u32,
    word: &[u8],
) -> Result<Change, FilterErrorKind>
    ensures ok { IfOk result (λ change. IsModeChange (Mode.Size layer offset) word.now change) }
    ensures apt { IsApt (Mode.Size layer offset) result }
    ensures err { IfErr result (λ found. StopsMode (Mode.Size layer offset) word.now found) }
{
    match value::size(word) {
        Some(width) => Ok(Change::Continue(Mode::SizeEnd(layer, offset, width))),
        None => Err(FilterErrorKind::NotASize),
    }
}

/// Returns what a word changes where a constant is expected, or constants in parentheses.
pub(crate) fn group_word_change(
    comparison: Comparison,
    word: &[u8],
) -> Result<Change, FilterErrorKind>
    ensures ok { IfOk result (λ change. IsModeChange (Mode.Group comparison) word.now change) }
    ensures apt { IsApt (Mode.Group comparison) result }
    ensures err { IfErr result (λ found. StopsMode (Mode.Group comparison) word.now found) }
{
    match value::constant(word) {
        Some(number) => Ok(Change::Continue(group_mode(comparison, number))),
        None => Err(FilterErrorKind::NotANumber),
    }
}

/// Returns what a word changes where a constant in parentheses is expected.
pub(crate) fn item_change(
    comparison: Comparison,
    bits: Option<u32>,
    word: &[u8],
) -> Result<Change, FilterErrorKind>
    ensures ok { IfOk result (λ change. IsModeChange (Mode.GroupItem comparison bits) word.now change) }
    ensures apt { IsApt (Mode.GroupItem comparison bits) result }
    ensures err { IfErr result (λ found. StopsMode (Mode.GroupItem comparison bits) word.now found) }
{
    match value::constant(word) {
        Some(number) => Ok(Change::Continue(Mode::GroupEnd(comparison, union(bits, number)))),
        None => Err(FilterErrorKind::NotANumber),
    }
}
