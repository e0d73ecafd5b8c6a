//! Modification of MACsec payloads (IEEE 802.1AE, 9.5): none, modified or encrypted.

use ep_base::EtherType;

/// Modification of the payload after a MACsec tag: none, modified or encrypted. Flags E (0x08) and C (0x04) in byte 0
/// of the tag encode it (IEEE 802.1AE, 9.5).
#[derive(Clone, Debug, PartialEq, Eq, Drop)]
pub enum MacsecPType {
    /// Neither flag E nor C is set in the MACsec tag: the payload is unmodified, and its ether type is at the end of
    /// the tag.
    Unmodified(EtherType),
    /// Only flag C is set in the MACsec tag: the payload is not encrypted. Either the cipher suite modified it, or the
    /// integrity check value is not 16 bytes long.
    Modified,
    /// Flags E and C are set in the MACsec tag: the payload is encrypted.
    Encrypted,
    /// Flag E is set in the MACsec tag, and flag C is not. IEEE 802.1AE reserves such frames for key agreement: their
    /// payload is not user data that MACsec protects.
    EncryptedUnmodified,
}
