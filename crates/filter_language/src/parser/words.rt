//! Words that are no keywords: the change that each makes, by the part of the operand before it. Those after a network
//! with `/` or `mask` are read here, all others by `crate::words`.

ghost use Rattle.std.specs.Prelude.{◌≡◌, ℕ, IfErr, IfOk, IfSome, IfNone, true, false};
ghost use Rattle.filter_tokens.specs.Networks.{has_no_host_bits};
ghost use Rattle.filter_tokens.specs.Values.{IsMask};
ghost use Rattle.filter_tokens.specs.declared.filter_error.FilterErrorKind.{FilterErrorKind};
ghost use Rattle.filter_tokens.specs.declared.primitive.Primitive.{Primitive};
ghost use Rattle.filter_language.specs.Changes.{IsApt, IsModeChange, IsWordChange, StopsMode, StopsWordIn};

use crate::change::{Change, Completion, side_head};
use crate::head::Head;
use crate::mode::Mode;
use crate::words::{
    group_word_change, item_change, offset_change, packet_length_change, side_value_change,
    size_change, value_change, vlan_change,
};
use filter_tokens::filter_error::FilterErrorKind;
use filter_tokens::network::Network;
use filter_tokens::primitive::{AddressLayer, Primitive, Side};
use filter_tokens::value;
use std::net::IpAddr;

/// Returns what a word changes in a mode, with these qualifiers in force.
pub(super) fn word_change(
    mode: Mode,
    head: Option<Head>,
    word: &[u8],
) -> Result<Change, FilterErrorKind>
    ensures ok { IfOk result (λ change. IsWordChange mode head word.now change) }
    ensures apt { IsApt mode result }
    ensures err { IfErr result (λ found. StopsWordIn mode head word.now found) }
{
    match mode {
        Mode::Operand(_) => value_change(head, word),
        Mode::Side(sided, side) => side_value_change(side_head(sided, side), word),
        Mode::Length(layer, side, address) => length_change(layer, side, address, word),
        Mode::Mask(layer, side, address) => mask_change(layer, side, address, word),
        Mode::Vlan => vlan_change(word),
        Mode::PacketLength(relation) => packet_length_change(relation, word),
        Mode::Offset(layer) => offset_change(layer, word),
        Mode::Size(layer, offset) => size_change(layer, offset, word),
        Mode::Group(comparison) => group_word_change(comparison, word),
        Mode::GroupItem(comparison, bits) => item_change(comparison, bits, word),
        _ => Err(FilterErrorKind::Misplaced),
    }
}

// ---- prefixes

/// Returns what a word changes where the prefix length of a network is expected.
fn length_change(
    layer: AddressLayer,
    side: Side,
    address: IpAddr,
    word: &[u8],
) -> Result<Change, FilterErrorKind>
    ensures ok { IfOk result (λ change. IsModeChange (Mode.Length layer side address) word.now change) }
    ensures apt { IsApt (Mode.Length layer side address) result }
    ensures err { IfErr result
        (λ found. StopsMode (Mode.Length layer side address) word.now found) }
{
    match value::prefix_length(word, &address) {
        Some(bits) => network_change(layer, side, Network { address, bits }),
        None => Err(FilterErrorKind::NotALength),
    }
}

/// Returns what a word changes where the mask of a network is expected.
fn mask_change(
    layer: AddressLayer,
    side: Side,
    address: IpAddr,
    word: &[u8],
) -> Result<Change, FilterErrorKind>
    ensures ok { IfOk result (λ change. IsModeChange (Mode.Mask layer side address) word.now change) }
    ensures apt { IsApt (Mode.Mask layer side address) result }
    ensures err { IfErr result
        (λ found. StopsMode (Mode.Mask layer side address) word.now found) }
{
    match mask_bits(&address, word) {
        Some(bits) => network_change(layer, side, Network { address, bits }),
        None => Err(FilterErrorKind::NotAMask),
    }
}

/// Parses a mask of an address, and returns its number of ones.
fn mask_bits(address: &IpAddr, word: &[u8]) -> Option<u8>
    ensures some { IfSome result (λ bits. IsMask address.now word.now bits) }
    ensures none { IfNone result ((bits : ℕ) → IsMask address.now word.now bits → ⊥) }
{
    match address {
        IpAddr::V4(_) => value::mask_length(word),
        IpAddr::V6(_) => None,
    }
}

/// Returns the change of a network with its prefix length. Bits that are set after the prefix are an error.
fn network_change(
    layer: AddressLayer,
    side: Side,
    network: Network,
) -> Result<Change, FilterErrorKind>
    ensures ok { IfOk result (λ change. (has_no_host_bits network ≡ true)
        × (change ≡ Change.Complete (Completion.InForce (Primitive.Address layer side network)))) }
    ensures err { IfErr result
        (λ found. (has_no_host_bits network ≡ false) × (found ≡ FilterErrorKind.HostBits)) }
{
    if network.has_no_host_bits() {
        Ok(Change::Complete(Completion::InForce(Primitive::Address(layer, side, network))))
    } else {
        Err(FilterErrorKind::HostBits)
    }
}
