//! Errors that a bounded reassembly pool returns for a fragment.

ghost use Rattle.std.specs.Prelude.{Some};

use crate::ip_defrag_error::IpDefragError;
use std::fmt;

/// Reason why a bounded reassembly pool rejects an IP fragment.
#[derive(Clone, Debug, PartialEq, Eq, Drop)]
pub enum BoundedDefragError {
    /// The fragment does not fit, or an allocation fails. The pool is unchanged, unless the fragment's own stream
    /// expired.
    Rejected(IpDefragError),
    /// The stream of the fragment is discarded, by this fragment or an earlier one: two versions of its payload
    /// arrived. Its identifier stays in the table until it is evicted or removed.
    Discarded,
    /// The stream needs more memory than all streams together may use. It was evicted with this fragment.
    OverBudget,
}

impl fmt::Display for BoundedDefragError {
    ghost use Rattle.ep_defrag.specs.BoundedErrorTexts.{bounded_error_text};

    ghost output = { λ error. Some (bounded_error_text error) };

    fn fmt<W: fmt::Write>(&self, f: &mut fmt::Formatter<W>) -> fmt::Result {
        match self {
            BoundedDefragError::Rejected(error) => error.fmt(f),
            BoundedDefragError::Discarded => {
                write!(
                    f,
                    "The stream of the IP fragment is discarded, since its fragments contradict each other."
                )
            }
            BoundedDefragError::OverBudget => {
                write!(
                    f,
                    "The stream of the IP fragment needs more memory than all streams may use."
                )
            }
        }
    }
}
