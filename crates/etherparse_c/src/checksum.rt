//! Internet checksum (RFC 1071) for C.

ghost use Rattle.std.specs.Prelude.{◌≡◌};
ghost use Rattle.etherparse.specs.Checksum.{checksum_of};

use etherparse::checksum::Sum16BitWords;

/// Returns the Internet checksum (RFC 1071) of the bytes. The checksum field of a header contains this number in
/// big-endian order.
#[unsafe(no_mangle)]
pub extern "C" fn etherparse_2_checksum(bytes: &[u8]) -> u16
    ensures { result ≡ checksum_of bytes.now }
{
    // Used by the proof only: the sum of no bytes adds nothing.
    etherparse::laws::base::order_of_sums();
    Sum16BitWords::new().add_slice(bytes).ones_complement()
}
