//! Networks: addresses with a common prefix, such as `192.0.2.0/24`.

ghost use Rattle.std.specs.Prelude.{◌≡◌, ◌<◌, ◌≤◌, ◌-◌, ◌%◌, ◌^◌, ◌==◌, ◌⊎◌, length};
ghost use Rattle.std.specs.Str.{bytes_eq};
ghost use Rattle.ep_base.specs.Bytes.{AreBytes};
ghost use Rattle.filter_tokens.specs.Networks.{address_bytes, big_endian, network_bytes, has_no_host_bits};

use std::net::IpAddr;

/// Network: all IPv4 or IPv6 addresses with a common prefix, such as `192.0.2.0/24` (RFC 4632, 3.1; RFC 4291, 2.3).
#[derive(Clone, Copy, Debug, PartialEq, Eq)]
pub struct Network {
    /// Address of the network, as before the `/` in `192.0.2.0/24`. In networks of parsed filters, the bits
    /// after the prefix are 0. If one of them is 1, the network contains no address.
    pub address: IpAddr,
    /// Length of the network's prefix in bits, as after the `/` in `192.0.2.0/24`.
    pub bits: u8,
}

impl Network {
    /// Returns true if the bits of the network's address after its prefix are 0.
    pub fn has_no_host_bits(&self) -> bool
        ensures { result ≡ has_no_host_bits self.now }
    {
        match self.address {
            IpAddr::V4(address) => self.contains(&address.octets()),
            IpAddr::V6(address) => self.contains(&address.octets()),
        }
    }

    /// Returns true if the network contains an address, given by its 4 (IPv4) or 16 (IPv6) bytes. Always false if the
    /// network's own address has a bit set after the prefix.
    #[inline(always)]
    pub fn contains(&self, address: &[u8]) -> bool
        ensures { result ≡ bytes_eq (network_bytes self.now.bits address.now) (address_bytes self.now.address) }
    {
        match self.address {
            IpAddr::V4(network) => is_in_ipv4(self.bits, address, &network.octets()),
            IpAddr::V6(network) => is_in_ipv6(self.bits, address, &network.octets()),
        }
    }

    /// Returns the length of the network's addresses in bytes: 4 or 16.
    pub fn width(&self) -> usize
        ensures value { result ≡ length (address_bytes self.now.address) }
        ensures either { (result ≡ 4) ⊎ (result ≡ 16) }
    {
        match self.address {
            IpAddr::V4(address) => address.octets().len(),
            IpAddr::V6(address) => address.octets().len(),
        }
    }

    /// Returns the network's address as a big-endian number.
    pub fn number(&self) -> u128
        ensures value { result ≡ big_endian (address_bytes self.now.address) }
        ensures bytes { AreBytes (address_bytes self.now.address) }
    {
        match self.address {
            IpAddr::V4(address) => number_of(&address.octets()),
            IpAddr::V6(address) => number_of(&address.octets()),
        }
    }
}

/// Returns an address of 4 or 16 bytes as a big-endian number. For another length the number is unspecified.
#[inline]
pub fn number_of(address: &[u8]) -> u128
    ensures bytes { AreBytes address.now }
    ensures ipv4 { length address.now ≡ 4 → result ≡ big_endian address.now }
    ensures ipv6 { length address.now ≡ 16 → result ≡ big_endian address.now }
{
    match address.first_chunk::<16>() {
        Some(bytes) => u128::from_be_bytes(*bytes),
        None => match address.first_chunk::<4>() {
            Some(bytes) => u128::from(u32::from_be_bytes(*bytes)),
            None => 0,
        },
    }
}

/// Returns true if `address`, with all bits after the first `bits` set to 0, equals an IPv4 address.
#[inline(always)]
fn is_in_ipv4(bits: u8, address: &[u8], network: &[u8; 4]) -> bool
    ensures { result ≡ bytes_eq (network_bytes bits address.now) network.now }
{
    address.len() == 4
        && has_prefix(
            bits,
            32,
            number_of(address),
            u128::from(u32::from_be_bytes(*network)),
        )
}

/// Returns true if `address`, with all bits after the first `bits` set to 0, equals an IPv6 address.
#[inline(always)]
fn is_in_ipv6(bits: u8, address: &[u8], network: &[u8; 16]) -> bool
    ensures { result ≡ bytes_eq (network_bytes bits address.now) network.now }
{
    address.len() == 16 && has_prefix(bits, 128, number_of(address), u128::from_be_bytes(*network))
}

/// Returns true if an address of `width` bits, with all bits after the first `bits` set to 0, equals `network`.
#[inline(always)]
fn has_prefix(bits: u8, width: u8, address: u128, network: u128) -> bool
    requires width { width ≤ 128 }
    requires below { address < 2 ^ width }
    ensures { result ≡ (address - address % 2 ^ (width - bits) == network) }
{
    if bits == 0 {
        return network == 0;
    }
    let size = 1u128 << width.saturating_sub(bits);
    address - address % size == network
}
