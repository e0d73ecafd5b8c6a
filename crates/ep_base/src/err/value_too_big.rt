//! Error of a number above the maximum of its header field or payload length.

use crate::err::value_type::ValueType;
use std::fmt::Display;
use thiserror::Error;

/// Error of a number (of type `T`) that is too big for its header field or payload length.
#[derive(Clone, Debug, PartialEq, Eq, Hash, Drop, Error)]
#[error_bound(T: Display)]
#[error("{}: {actual} is above {max_allowed}", .value_type.name())]
pub struct ValueTooBigError<T> {
    /// Number that was rejected as too big.
    pub actual: T,
    /// Greatest number that would have been accepted.
    pub max_allowed: T,
    /// Header field or payload length that the rejected number was meant for.
    pub value_type: ValueType,
}
