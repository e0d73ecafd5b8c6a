//! Errors that reassembly returns for a rejected IP fragment.

ghost use Rattle.std.specs.Prelude.{◌≡◌, Some};
ghost use Rattle.ep_defrag.specs.IpDefragErrorTexts.{error_text};

use ep_base::IpFragOffset;
use std::fmt;

/// Reason why reassembly rejects an IP fragment.
#[derive(Clone, Debug, PartialEq, Eq, PartialOrd, Ord, Hash, Drop)]
pub enum IpDefragError {
    /// The more-fragments flag of the fragment is set, and its length is not a multiple of 8.
    UnalignedFragmentPayloadLen {
        /// Fragment offset of the rejected fragment, in units of 8 bytes.
        offset: IpFragOffset,
        /// Length of the rejected fragment in bytes, without headers.
        payload_len: usize,
    },
    /// The fragment ends above the greatest allowed length of a reassembled payload.
    SegmentTooBig {
        /// Fragment offset of the rejected fragment, in units of 8 bytes.
        offset: IpFragOffset,
        /// Length of the rejected fragment in bytes, without headers.
        payload_len: usize,
        /// Greatest allowed length of a reassembled payload in bytes: 65535, or the lower limit of the reassembly pool.
        max: u16,
    },
    /// The end of the fragment contradicts earlier fragments. If the end of the payload is known, the fragment ends
    /// after it, or is final and ends elsewhere. If it is not known, the fragment is final and ends below the greatest
    /// end of the accepted fragments.
    ConflictingEnd {
        /// Known end of the payload in bytes. If it is not known, the greatest end of the fragments accepted before.
        previous_end: u16,
        /// End of the rejected fragment: the position after its last byte, in bytes from the start of the payload.
        conflicting_end: u16,
    },
    /// An allocation fails: for the bytes of the fragment, for the list of byte ranges that fragments filled, or for a
    /// new stream of the reassembly pool.
    AllocationFailure {
        /// End of the fragment in bytes from the start of the payload. The buffer may already hold more bytes.
        len: usize,
    },
}

impl IpDefragError {
    ghost use Rattle.ep_defrag.specs.FragmentRefusals.{is_allocation_failure};

    /// Returns true if the error is an allocation failure, and false for the other errors, which the fragment itself
    /// causes.
    pub(crate) fn is_allocation_failure(&self) -> bool
        ensures { result ≡ is_allocation_failure self.now }
    {
        matches!(self, IpDefragError::AllocationFailure { .. })
    }
}

impl fmt::Display for IpDefragError {
    ghost output = { λ error. Some (error_text error) };

    fn fmt<W: fmt::Write>(&self, f: &mut fmt::Formatter<W>) -> fmt::Result {
        match self {
            IpDefragError::UnalignedFragmentPayloadLen {
                offset,
                payload_len,
            } => {
                let offset = offset.value();
                write!(
                    f,
                    "Payload length {payload_len} of IP fragment (offset {offset}) is not a multiple of 8. \
                     This is only allowed for the last fragment packet."
                )
            }
            IpDefragError::SegmentTooBig {
                offset,
                payload_len,
                max,
            } => {
                let offset = offset.value();
                write!(
                    f,
                    "Overall length of IP fragment (offset {offset}, payload len: {payload_len}) \
                     bigger then the maximum allowed size of {max}."
                )
            }
            IpDefragError::ConflictingEnd {
                previous_end,
                conflicting_end,
            } => write!(
                f,
                "Received a IP fragment (offset + len: {conflicting_end}) which conflicts a package that \
                 previously set the end to {previous_end}."
            ),
            IpDefragError::AllocationFailure { len } => write!(
                f,
                "Failed to allocate {len} bytes of memory to reconstruct the fragmented IP packets."
            ),
        }
    }
}
