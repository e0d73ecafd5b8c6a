//! Errors of the IPv6 extension headers (RFC 8200, 4).

mod ext_payload_len_error;

pub use ep_base::err::ipv6_exts::{ExtsWalkError, HeaderError, HeaderSliceError, HeaderWriteError};
pub use ext_payload_len_error::ExtPayloadLenError;
