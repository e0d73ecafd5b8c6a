//! Errors of the IP authentication header (RFC 4302).

mod icv_len_error;

pub use ep_base::err::ip_auth::{HeaderError, HeaderSliceError};
pub use icv_len_error::IcvLenError;
