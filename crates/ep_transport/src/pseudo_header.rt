//! Sums of the IPv4 and IPv6 pseudo headers that transport checksums include (RFC 768; RFC 9293, 3.1; RFC 8200, 8.1).

ghost use Rattle.std.specs.Prelude.{◌≡◌, ◌≤◌, ◌%◌, length, None, IfOk, IfErr};
ghost use Rattle.ep_base.specs.Checksum.{ones_sum};
ghost use Rattle.ep_base.specs.Tables.{Refuses, first_row};
ghost use Rattle.ep_transport.specs.PseudoHeaders.{length_rows, pseudo_header_ipv4, pseudo_header_ipv6};

use ep_base::IpNumber;
use ep_base::checksum::Sum16BitWords;
use ep_base::err::{ValueTooBigError, ValueType};

/// Returns an error if `bytes` (a transport payload, or an entire TCP segment) has more than `max_allowed` bytes.
/// Header and payload are then too long for the length field of the pseudo header.
#[inline]
pub(crate) fn check_len(
    bytes: &[u8],
    max_allowed: usize,
    value_type: ValueType,
) -> Result<(), ValueTooBigError<usize>>
    ensures ok { IfOk result (λ _. first_row (length_rows max_allowed value_type bytes.now) ≡ None) }
    ensures bound { IfOk result (λ _. length bytes.now ≤ max_allowed) }
    ensures err { IfErr result (Refuses (length_rows max_allowed value_type bytes.now)) }
{
    if bytes.len() > max_allowed {
        return Err(ValueTooBigError {
            actual: bytes.len(),
            max_allowed,
            value_type,
        });
    }
    Ok(())
}

/// Returns the one's complement sum of the IPv4 pseudo header: addresses `source` and `destination`, protocol `number`,
/// and the length `len` of the transport header and its payload in bytes.
#[inline]
pub fn sum_ipv4(source: [u8; 4], destination: [u8; 4], number: IpNumber, len: u16) -> Sum16BitWords
    ensures sum { result ≡ ones_sum (pseudo_header_ipv4 source destination number.0 len) }
    ensures even { length (pseudo_header_ipv4 source destination number.0 len) % 2 ≡ 0 }
{
    Sum16BitWords::new()
        .add_4bytes(source)
        .add_4bytes(destination)
        .add_2bytes([0, number.0])
        .add_2bytes(len.to_be_bytes())
}

/// Returns the one's complement sum of the IPv6 pseudo header: addresses `source` and `destination`, next header
/// `number`, and the length `len` of the transport header and its payload in bytes.
#[inline]
pub fn sum_ipv6(
    source: [u8; 16],
    destination: [u8; 16],
    number: IpNumber,
    len: u32,
) -> Sum16BitWords
    ensures sum { result ≡ ones_sum (pseudo_header_ipv6 source destination number.0 len) }
    ensures even { length (pseudo_header_ipv6 source destination number.0 len) % 2 ≡ 0 }
{
    Sum16BitWords::new()
        .add_16bytes(source)
        .add_16bytes(destination)
        .add_4bytes(len.to_be_bytes())
        .add_4bytes([0, 0, 0, number.0])
}
