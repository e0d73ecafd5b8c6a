//! Values of filter expressions: numbers, addresses, networks, ports.

ghost use Rattle.std.specs.Prelude.{◌≡◌, ◌≤◌, ◌==◌, ◌&&◌, ℕ, IfNone, IfSome, List, Some, SomeIff, length, nat_lt, slice_index};
ghost use Rattle.std.specs.Prelude.{◌<◌, ◌∷◌, [], ◌++◌, count_ones, sum_by, IsSomeAnd, MatchOption, codes, max, min};
ghost use Rattle.std.specs.List.{after_first, before_first, position_from, position_or_len};
ghost use Rattle.std.specs.Str.Parse.{IsNumeral, digits_value};
ghost use Rattle.std.specs.Net.Grammar.{IsIpText};
ghost use Rattle.std.specs.declared.net.ip_addr.IpAddr.{IpAddr};
ghost use Rattle.filter_tokens.specs.declared.network.Network.{Network};
ghost use Rattle.filter_tokens.specs.declared.primitive.Width.{Width};
ghost use Rattle.filter_tokens.specs.Networks.{address_width};
ghost use Rattle.filter_tokens.specs.Values.{IsAfterHexadecimalMark, IsConstant, IsDecimal, IsLeadingNumbers, IsLength, IsMaskOf, IsNetworkText, IsNumberText};
ghost use Rattle.filter_tokens.specs.Values.{IsOctet, IsPortText, IsRangeText, IsSizeText, IsStation, ipv4_network, leading_network, most_number};

use crate::names::{named_constant, named_port};
use crate::network::Network;
use crate::primitive::Width;
use ep_base::VlanId;
use std::net::{IpAddr, Ipv4Addr};

/// Parses a decimal number without leading zeros.
fn decimal(word: &[u8]) -> Option<u32>
    ensures some { IfSome result (λ value. IsDecimal most_number word.now value) }
    ensures only { (value : ℕ) → IsDecimal most_number word.now value → result ≡ Some value }
{
    if has_leading_zero(word) {
        return None;
    }
    digits(word, 10)
}

/// Parses a number: decimal without leading zeros, or hexadecimal after `0x` or `0X`.
pub fn number(word: &[u8]) -> Option<u32>
    ensures some { IfSome result (λ value. IsNumberText most_number word.now value) }
    ensures only { (value : ℕ) → IsNumberText most_number word.now value → result ≡ Some value }
{
    match hexadecimal_digits(word) {
        Some(hexadecimal) => digits(hexadecimal, 16),
        None => decimal(word),
    }
}

/// Returns the digits after `0x` or `0X`, or `None` if the word does not begin so.
fn hexadecimal_digits(word: &[u8]) -> Option<&[u8]>
    ensures some { IfSome result (λ digits. IsAfterHexadecimalMark word.now digits.now) }
    ensures none { IfNone result ((digits : List ℕ) → IsAfterHexadecimalMark word.now digits → ⊥) }
{
    match word {
        [b'0', b'x' | b'X', digits @ ..] => Some(digits),
        _ => None,
    }
}

/// Parses one or more digits of a radix up to 16. Returns `None` for other characters, and for numbers above 2^32 - 1.
fn digits(text: &[u8], radix: u32) -> Option<u32>
    requires low { 2 ≤ radix }
    requires high { radix ≤ 16 }
    ensures { SomeIff result (IsNumeral radix text.now × (digits_value radix text.now ≤ most_number))
        (digits_value radix text.now) }
{
    if begins_with_plus(text) {
        return None;
    }
    let Ok(text) = str::from_utf8(text) else {
        return None;
    };
    match u32::from_str_radix(text, radix) {
        Ok(number) => Some(number),
        Err(_) => None,
    }
}

/// Returns true if a text begins with `+`, which std accepts before digits.
fn begins_with_plus(text: &[u8]) -> bool
    ensures { result ≡ (slice_index text.now 0 == 43) }
{
    match text {
        [first, ..] => *first == b'+',
        [] => false,
    }
}

/// Returns true if a text of two bytes or more begins with `0`.
fn has_leading_zero(text: &[u8]) -> bool
    ensures { result ≡ (nat_lt 1 (length text.now) && (slice_index text.now 0 == 48)) }
{
    matches!(text, [b'0', _, ..])
}

/// Parses a number of one byte: an IP protocol number.
pub fn byte_number(word: &[u8]) -> Option<u8>
    ensures some { IfSome result (λ value. IsNumberText 255 word.now value) }
    ensures only { (value : ℕ) → IsNumberText 255 word.now value → result ≡ Some value }
{
    narrow_byte(number(word)?)
}

/// Parses a decimal number of one byte, without leading zeros.
fn byte_decimal(word: &[u8]) -> Option<u8>
    ensures some { IfSome result (λ value. IsDecimal 255 word.now value) }
    ensures only { (value : ℕ) → IsDecimal 255 word.now value → result ≡ Some value }
{
    narrow_byte(decimal(word)?)
}

/// Returns a number as a byte, if it fits.
fn narrow_byte(number: u32) -> Option<u8>
    ensures { SomeIff result (number ≤ 255) number }
{
    if number <= 255 {
        Some(number as u8)
    } else {
        None
    }
}

/// Returns a number as a port, if it fits.
fn narrow_port(number: u32) -> Option<u16>
    ensures { SomeIff result (number ≤ 65535) number }
{
    if number <= 65535 {
        Some(number as u16)
    } else {
        None
    }
}

/// Parses an ether type: a number from 1536 to 65535.
pub fn ether_type(word: &[u8]) -> Option<u16>
    ensures some { IfSome result (λ value. IsNumberText 65535 word.now value × (1536 ≤ value)) }
    ensures only { (value : ℕ) → IsNumberText 65535 word.now value × (1536 ≤ value) → result ≡ Some value }
{
    let number = narrow_port(number(word)?)?;
    if number >= 1536 { Some(number) } else { None }
}

/// Parses a VLAN identifier: a number up to 4095.
pub fn vlan_id(word: &[u8]) -> Option<VlanId>
    ensures some { IfSome result (λ value. IsNumberText 4095 word.now value) }
    ensures only { (value : ℕ) → IsNumberText 4095 word.now value → result ≡ Some value }
{
    match VlanId::try_new(narrow_port(number(word)?)?) {
        Ok(id) => Some(id),
        Err(_) => None,
    }
}

/// Parses a size: 1, 2 or 4.
pub fn size(word: &[u8]) -> Option<Width>
    ensures some { IfSome result (λ width. IsSizeText word.now width) }
    ensures only { (width : Width) → IsSizeText word.now width → result ≡ Some width }
{
    match number(word)? {
        1 => Some(Width::One),
        2 => Some(Width::Two),
        4 => Some(Width::Four),
        _ => None,
    }
}

/// Parses a constant of a byte test: a number, or the name of one.
pub fn constant(word: &[u8]) -> Option<u32>
    ensures some { IfSome result (λ value. IsConstant word.now value) }
    ensures only { (value : ℕ) → IsConstant word.now value → result ≡ Some value }
{
    match named_constant(word) {
        Some(number) => Some(number),
        None => number(word),
    }
}

/// Parses a port: a number up to 65535, or the name of one.
pub fn port(word: &[u8]) -> Option<u16>
    ensures some { IfSome result (λ value. IsPortText word.now value) }
    ensures only { (value : ℕ) → IsPortText word.now value → result ≡ Some value }
{
    match named_port(word) {
        Some(port) => Some(port),
        None => narrow_port(number(word)?),
    }
}

/// Parses a range of ports: a decimal number up to 65535, or two with `-` between, in either order. Returns the lower
/// and the higher one.
pub fn port_range(word: &[u8]) -> Option<(u16, u16)>
    ensures some { IfSome result (λ range. IsRangeText word.now range.0 range.1) }
    ensures only { (low high : ℕ) → IsRangeText word.now low high → result ≡ Some (low, high) }
{
    match split_once(word, b'-') {
        Some((first, second)) => port_pair(first, second),
        None => {
            let port = decimal_port(word)?;
            Some((port, port))
        }
    }
}

/// Parses two decimal numbers up to 65535. Returns the lower and the higher one.
fn port_pair(first: &[u8], second: &[u8]) -> Option<(u16, u16)>
    ensures some { IfSome result (λ range. (a b : ℕ) × IsDecimal 65535 first.now a × IsDecimal 65535 second.now b
        × (range.0 ≡ min a b) × (range.1 ≡ max a b)) }
    ensures only { (a b : ℕ) → IsDecimal 65535 first.now a → IsDecimal 65535 second.now b
        → result ≡ Some (min a b, max a b) }
{
    let first = decimal_port(first)?;
    let second = decimal_port(second)?;
    Some((first.min(second), first.max(second)))
}

/// Parses a decimal number up to 65535, without leading zeros.
fn decimal_port(word: &[u8]) -> Option<u16>
    ensures some { IfSome result (λ value. IsDecimal 65535 word.now value) }
    ensures only { (value : ℕ) → IsDecimal 65535 word.now value → result ≡ Some value }
{
    narrow_port(decimal(word)?)
}

/// Splits a text at its first separator, if there is one.
fn split_once(text: &[u8], separator: u8) -> Option<(&[u8], &[u8])>
    ensures { MatchOption result (position_or_len (λ byte. byte == separator) text.now ≡ length text.now)
        (λ parts. (position_or_len (λ byte. byte == separator) text.now < length text.now)
        × (parts.0.now ≡ before_first (λ byte. byte == separator) text.now)
        × (parts.1.now ≡ after_first (λ byte. byte == separator) text.now)) }
{
    let place = byte_place(text, separator);
    if place >= text.len() {
        return None;
    }
    Some((&text[..place], &text[place + 1..]))
}

/// Returns the offset of the first byte of a text that equals another one, or else the text's length.
pub(crate) fn byte_place(text: &[u8], other: u8) -> usize
    ensures bound { result ≤ length text.now }
    ensures value { result ≡ position_or_len (λ byte. byte == other) text.now }
{
    find_byte(text, other).unwrap_or(text.len())
}

/// Returns the offset of the first byte of a text that equals another one.
fn find_byte(text: &[u8], other: u8) -> Option<usize>
    ensures { result ≡ position_from (λ byte. byte == other) 0 text.now }
{
    text.iter().position(|byte| *byte == other)
}

/// Parses an address: four decimal numbers (IPv4), or a form of RFC 4291, 2.2 (IPv6).
pub fn address(word: &[u8]) -> Option<IpAddr>
    ensures some { IfSome result (λ value. IsIpText word.now value) }
    ensures only { (value : IpAddr) → IsIpText word.now value → result ≡ Some value }
{
    match IpAddr::parse_ascii(word) {
        Ok(address) => Some(address),
        Err(_) => None,
    }
}

/// Returns the network that consists of one address.
pub fn whole_network(address: IpAddr) -> Network
    ensures address { result.address ≡ address }
    ensures bits { result.bits ≡ address_width address }
{
    let bits = address_bits(&address);
    Network { address, bits }
}

/// Returns the number of bits of an address: 32 (IPv4) or 128 (IPv6).
pub(crate) fn address_bits(address: &IpAddr) -> u8
    ensures { result ≡ address_width address.now }
{
    match address {
        IpAddr::V4(_) => 32,
        IpAddr::V6(_) => 128,
    }
}

/// Parses a network without prefix length: an address, with all its bits, or the first one to three numbers of an IPv4
/// address, with 8 bits for each. A single 0 is no network.
pub fn network(word: &[u8]) -> Option<Network>
    ensures some { IfSome result (λ value. IsNetworkText word.now value) }
    ensures only { (value : Network) → IsNetworkText word.now value → result ≡ Some value }
{
    match address(word) {
        Some(address) => Some(whole_network(address)),
        None => short_network(word),
    }
}

/// Parses the first one to three numbers of an IPv4 address. A single 0 is no network.
fn short_network(word: &[u8]) -> Option<Network>
    ensures some { IfSome result (λ network. (numbers : List ℕ) × IsLeadingNumbers word.now numbers
        × (network ≡ leading_network numbers)) }
    ensures only { (numbers : List ℕ) → IsLeadingNumbers word.now numbers → result ≡ Some (leading_network numbers) }
{
    let Some((first, others)) = split_once(word, b'.') else {
        return one_number_network(word);
    };
    match split_once(others, b'.') {
        Some((second, third)) => three_number_network(first, second, third),
        None => two_number_network(first, others),
    }
}

/// Parses the first number of an IPv4 address, if it is not 0.
fn one_number_network(word: &[u8]) -> Option<Network>
    ensures some { IfSome result (λ network. (a : ℕ) × IsDecimal 255 word.now a × (1 ≤ a)
        × (network ≡ leading_network (a ∷ []))) }
    ensures only { (a : ℕ) → IsDecimal 255 word.now a → 1 ≤ a → result ≡ Some (leading_network (a ∷ [])) }
{
    let first = byte_decimal(word)?;
    if first == 0 {
        return None;
    }
    Some(network_of([first, 0, 0, 0], 8))
}

/// Parses the first two numbers of an IPv4 address.
fn two_number_network(first: &[u8], second: &[u8]) -> Option<Network>
    ensures some { IfSome result (λ network. (a b : ℕ) × IsDecimal 255 first.now a × IsDecimal 255 second.now b
        × (network ≡ leading_network (a ∷ b ∷ []))) }
    ensures only { (a b : ℕ) → IsDecimal 255 first.now a → IsDecimal 255 second.now b
        → result ≡ Some (leading_network (a ∷ b ∷ [])) }
{
    let first = byte_decimal(first)?;
    let second = byte_decimal(second)?;
    Some(network_of([first, second, 0, 0], 16))
}

/// Parses the first three numbers of an IPv4 address.
fn three_number_network(first: &[u8], second: &[u8], third: &[u8]) -> Option<Network>
    ensures some { IfSome result (λ network. (a b c : ℕ) × IsDecimal 255 first.now a × IsDecimal 255 second.now b
        × IsDecimal 255 third.now c × (network ≡ leading_network (a ∷ b ∷ c ∷ []))) }
    ensures only { (a b c : ℕ) → IsDecimal 255 first.now a → IsDecimal 255 second.now b → IsDecimal 255 third.now c
        → result ≡ Some (leading_network (a ∷ b ∷ c ∷ [])) }
{
    let first = byte_decimal(first)?;
    let second = byte_decimal(second)?;
    let third = byte_decimal(third)?;
    Some(network_of([first, second, third, 0], 24))
}

/// Returns an IPv4 network.
fn network_of(octets: [u8; 4], bits: u8) -> Network
    ensures { result ≡ ipv4_network octets bits }
{
    Network {
        address: IpAddr::V4(Ipv4Addr::from(octets)),
        bits,
    }
}

/// Parses a prefix length of an address: a decimal number up to the number of its bits.
pub fn prefix_length(word: &[u8], address: &IpAddr) -> Option<u8>
    ensures some { IfSome result (λ bits. IsLength address.now word.now bits) }
    ensures only { (bits : ℕ) → IsLength address.now word.now bits → result ≡ Some bits }
{
    let bits = byte_decimal(word)?;
    if bits <= address_bits(address) {
        Some(bits)
    } else {
        None
    }
}

/// Parses an IPv4 mask: an address whose ones all come before its zeros. Returns the number of ones.
pub fn mask_length(word: &[u8]) -> Option<u8>
    ensures some { IfSome result (λ bits. (mask : IpAddr) × IsMaskOf word.now mask bits) }
    ensures only { (mask : IpAddr) (bits : ℕ) → IsMaskOf word.now mask bits → result ≡ Some bits }
{
    let Ok(mask) = Ipv4Addr::parse_ascii(word) else {
        return None;
    };
    let bits = ones(mask.octets());
    let network = Network {
        address: IpAddr::V4(mask),
        bits,
    };
    if network.contains(&[255, 255, 255, 255]) {
        Some(bits)
    } else {
        None
    }
}

/// Returns the number of ones of four bytes.
fn ones(octets: [u8; 4]) -> u8
    ensures bound { result ≤ 32 }
    ensures value { result ≡ sum_by count_ones octets }
{
    let [a, b, c, d] = octets;
    (a.count_ones() + b.count_ones() + c.count_ones() + d.count_ones()) as u8
}

/// Parses a MAC address: six times one or two hexadecimal digits, with colons between.
pub fn station(word: &[u8]) -> Option<[u8; 6]>
    ensures some { IfSome result (λ octets. IsStation word.now octets) }
    ensures only { (octets : List ℕ) → IsStation word.now octets → result ≡ Some octets }
{
    let (a, others) = leading_octet(word)?;
    let (b, others) = leading_octet(others)?;
    let (c, others) = leading_octet(others)?;
    let (d, others) = leading_octet(others)?;
    let (e, others) = leading_octet(others)?;
    let f = octet(others)?;
    Some([a, b, c, d, e, f])
}

/// Parses the hexadecimal octet before the first colon of a text. Also returns the text after the colon.
fn leading_octet(text: &[u8]) -> Option<(u8, &[u8])>
    ensures some { IfSome result (λ found. (first : List ℕ) × (text.now ≡ first ++ codes ":" ++ found.1.now)
        × IsOctet first found.0) }
    ensures only { (first rest : List ℕ) (value : ℕ) → text.now ≡ first ++ codes ":" ++ rest → IsOctet first value
        → IsSomeAnd result (λ found. (found.0 ≡ value) × (found.1.now ≡ rest)) }
{
    let Some((first, rest)) = split_once(text, b':') else {
        return None;
    };
    match octet(first) {
        Some(value) => Some((value, rest)),
        None => None,
    }
}

/// Parses one or two hexadecimal digits.
fn octet(text: &[u8]) -> Option<u8>
    ensures some { IfSome result (λ value. IsOctet text.now value) }
    ensures only { (value : ℕ) → IsOctet text.now value → result ≡ Some value }
{
    if text.len() > 2 {
        return None;
    }
    narrow_byte(digits(text, 16)?)
}
